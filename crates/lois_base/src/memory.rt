//! Want of memory.

use std::alloc::{AllocError, AllocFailed};
use thiserror::Error;

/// There was no memory for what a call had to make.
#[derive(Debug, Drop, Error)]
#[error("there is no memory")]
pub struct NoMemory;

impl From<AllocError> for NoMemory {
    fn from(_: AllocError) -> Self {
        NoMemory
    }
}

impl<T: Drop> From<AllocFailed<T>> for NoMemory {
    fn from(_: AllocFailed<T>) -> Self {
        NoMemory
    }
}

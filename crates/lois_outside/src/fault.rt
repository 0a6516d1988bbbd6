// What a call of a source or a sink answers in place of a count of bytes, and want of memory.
use thiserror::Error;

/// A read or a write that failed. The source or the sink has counted it.
#[derive(Debug, Drop, PartialEq, Eq, Error)]
#[error("the read or the write failed")]
pub struct Failed;

/// Memory ran out.
#[derive(Debug, Drop, PartialEq, Eq, Error)]
#[error("out of memory")]
pub struct NoMemory;

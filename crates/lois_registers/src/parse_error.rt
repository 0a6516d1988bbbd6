//! Why reading stops.

ghost use Rattle.lois_registers.specs.declared.parse_error.ParseError.TheVariants.{NoMemory};
ghost use Rattle.std.specs.Prelude.{◌≡◌};

use std::alloc::{AllocError, AllocFailed};

/// Reading stops at a line at fault, from which so many bytes are left, or for want of memory.
#[derive(Debug, Drop)]
pub enum ParseError {
    Left(usize),
    NoMemory,
}

impl From<AllocError> for ParseError {
    ghost from_gives = { λ _ e. e ≡ NoMemory };

    fn from(_error: AllocError) -> ParseError {
        ParseError::NoMemory
    }
}

impl<T: Drop> From<AllocFailed<T>> for ParseError {
    ghost from_gives = { λ _ e. e ≡ NoMemory };

    fn from(_error: AllocFailed<T>) -> ParseError {
        ParseError::NoMemory
    }
}

impl From<lois_base::NoMemory> for ParseError {
    ghost from_gives = { λ _ e. e ≡ NoMemory };

    fn from(_error: lois_base::NoMemory) -> ParseError {
        ParseError::NoMemory
    }
}

//! Why the reader stops.

ghost use Rattle.std.specs.Prelude.{◌≡◌};
ghost use Rattle.lois_descent.specs.declared.parse_error.ParseError.TheVariants.{NoMemory};

use lois_base::NoMemory;
use std::alloc::AllocFailed;

/// Why the reader stops, with how many tokens are left there.
#[derive(Clone, Copy)]
pub enum ParseError {
    NoScript(usize),
    TooNested(usize),
    WideTuple(usize),
    TurnsTooMany(usize),
    NoMemory,
}

impl From<NoMemory> for ParseError {
    ghost from_gives = { λ _ e. e ≡ NoMemory };

    fn from(_error: NoMemory) -> ParseError {
        ParseError::NoMemory
    }
}

impl<T: Drop> From<AllocFailed<T>> for ParseError {
    ghost from_gives = { λ _ e. e ≡ NoMemory };

    fn from(_error: AllocFailed<T>) -> ParseError {
        ParseError::NoMemory
    }
}

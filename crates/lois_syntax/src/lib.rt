//! From the tokens of a text to its script, and back to a text.
#![tactic(auto)]

pub mod laws;
mod script;

ghost use Rattle.std.specs.Prelude.{◌≡◌};
ghost use Rattle.lois_syntax.specs.declared.SyntaxError.TheVariants.{NoMemory};

use lois_base::NoMemory;
pub use lois_script_printer::print_script;
pub use script::read_script;
use std::alloc::AllocFailed;
use std::fmt;
use thiserror::Error;

/// Why tokens are no script, with the number of the token at fault, counted from 0.
#[derive(Clone, Copy, Debug, PartialEq, Eq, Error)]
pub enum SyntaxError {
    /// The first token with which no script goes on; or the number of tokens, where a script would go on behind them.
    NoScript(usize),
    /// A bracket opens while 64 are open.
    TooNested(usize),
    /// A comma follows the eighth part of a tuple.
    WideTuple(usize),
    /// The number of turns is over 1,000,000.
    TurnsTooMany(usize),
    /// Memory ran out. It says nothing of the tokens.
    NoMemory,
}

impl SyntaxError {
    ghost use Rattle.lois_syntax.specs.Causes.{cause_number, cause_text};

    /// The number of the cause, counted from 1 as the causes are declared.
    pub fn number(&self) -> u8
        ensures exact { result ≡ cause_number self.now }
    {
        match self {
            SyntaxError::NoScript(_) => 1,
            SyntaxError::TooNested(_) => 2,
            SyntaxError::WideTuple(_) => 3,
            SyntaxError::TurnsTooMany(_) => 4,
            SyntaxError::NoMemory => 5,
        }
    }

    /// The words for the cause, without its place.
    pub fn text(&self) -> &'static str
        ensures exact { result.now ≡ cause_text self.now }
    {
        match self {
            SyntaxError::NoScript(_) => "not a script",
            SyntaxError::TooNested(_) => "nesting over 64",
            SyntaxError::WideTuple(_) => "tuple over 8",
            SyntaxError::TurnsTooMany(_) => "turns over 1000000",
            SyntaxError::NoMemory => "out of memory",
        }
    }
}

impl fmt::Display for SyntaxError {
    ghost use Rattle.lois_syntax.specs.Causes.{cause_text};
    ghost use Rattle.std.specs.Prelude.{Some};

    ghost output = { λ e. Some (cause_text e) };

    fn fmt<W: fmt::Write>(&self, f: &mut fmt::Formatter<W>) -> fmt::Result {
        f.write_str(self.text())
    }
}

impl From<NoMemory> for SyntaxError {
    ghost from_gives = { λ _ e. e ≡ NoMemory };

    fn from(_error: NoMemory) -> SyntaxError {
        SyntaxError::NoMemory
    }
}

impl<T: Drop> From<AllocFailed<T>> for SyntaxError {
    ghost from_gives = { λ _ e. e ≡ NoMemory };

    fn from(_error: AllocFailed<T>) -> SyntaxError {
        SyntaxError::NoMemory
    }
}

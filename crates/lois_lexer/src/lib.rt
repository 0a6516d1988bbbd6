//! Cuts the text of a script into tokens.
#![tactic(auto)]

mod lexing;
mod places;
mod words;

ghost use Rattle.lois_lexer.specs.declared.LexError.TheVariants.{NoMemory};
ghost use Rattle.std.specs.Prelude.{◌≡◌, ◌≤◌, length};

pub use lexing::{lex, one_reading, written_is_read};
pub use places::place_of;
use std::alloc::AllocFailed;
use std::fmt;
use thiserror::Error;
pub use words::{RESERVED, is_reserved};

/// What a token is. A `Word` is one of the reserved words, and a `Name` has their form without being one.
#[derive(Clone, Copy, Debug, PartialEq, Eq)]
pub enum TokenKind {
    Name,
    Word,
    Tag,
    Number,
    Symbol,
}

/// A token of a text: the bytes from `from` up to `to`, without the byte at `to`.
#[derive(Clone, Copy, Debug, PartialEq, Eq)]
pub struct Token {
    pub kind: TokenKind,
    pub from: usize,
    pub to: usize,
}

impl Token {
    ghost use Rattle.lois_lexer.specs.Tokens.{bytes_of};

    /// The bytes of the token in its text.
    pub fn bytes<'a>(&self, text: &'a [u8]) -> &'a [u8]
        requires forward { self.now.from ≤ self.now.to }
        requires within { self.now.to ≤ length text.now }
        ensures { result.now ≡ bytes_of text.now self.now }
    {
        &text[self.from..self.to]
    }
}

/// A line and a column of a text, in bytes, both counted from 1.
#[derive(Clone, Copy, Debug, PartialEq, Eq)]
pub struct Place {
    pub line: usize,
    pub column: usize,
}

/// Why a text has no tokens, with the offset of the first byte at fault.
#[derive(Clone, Copy, Debug, PartialEq, Eq, Error)]
pub enum LexError {
    /// A byte begins no token, blank or comment, or may not stand in its comment.
    BadByte(usize),
    /// A word, name or tag has more than 64 bytes without its quote.
    LongName(usize),
    /// A number has more than 9 digits, or a leading 0.
    BadNumber(usize),
    /// Memory ran out. It says nothing of the text.
    NoMemory,
}

impl LexError {
    ghost use Rattle.lois_lexer.specs.Causes.{cause_number, cause_text};

    /// The number of the cause, counted from 1 as the causes are declared.
    pub fn number(&self) -> u8
        ensures exact { result ≡ cause_number self.now }
    {
        match self {
            LexError::BadByte(_) => 1,
            LexError::LongName(_) => 2,
            LexError::BadNumber(_) => 3,
            LexError::NoMemory => 4,
        }
    }

    /// The words for the cause, without its place.
    pub fn text(&self) -> &'static str
        ensures exact { result.now ≡ cause_text self.now }
    {
        match self {
            LexError::BadByte(_) => "bad byte",
            LexError::LongName(_) => "long name",
            LexError::BadNumber(_) => "bad number",
            LexError::NoMemory => "out of memory",
        }
    }
}

impl fmt::Display for LexError {
    ghost use Rattle.lois_lexer.specs.Causes.{cause_text};
    ghost use Rattle.std.specs.Prelude.{Some};

    ghost output = { λ e. Some (cause_text e) };

    fn fmt<W: fmt::Write>(&self, f: &mut fmt::Formatter<W>) -> fmt::Result {
        f.write_str(self.text())
    }
}

impl<T: Drop> From<AllocFailed<T>> for LexError {
    ghost from_gives = { λ _ e. e ≡ NoMemory };

    fn from(_error: AllocFailed<T>) -> LexError {
        LexError::NoMemory
    }
}

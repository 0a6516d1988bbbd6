//! The reserved words.

ghost use Rattle.std.specs.Prelude.{◌↔◌, IsTrue, Contains};
ghost use Rattle.lois_lexer.specs.Words.{reserved};

/// The words that no name may be.
pub const RESERVED: [&[u8]; 36] = [
    b"atoms",
    b"equality",
    b"order",
    b"parameter",
    b"let",
    b"add",
    b"to",
    b"for",
    b"in",
    b"where",
    b"if",
    b"else",
    b"while",
    b"turns",
    b"assert",
    b"print",
    b"true",
    b"false",
    b"not",
    b"and",
    b"or",
    b"exists",
    b"forall",
    b"subset",
    b"empty",
    b"union",
    b"inter",
    b"minus",
    b"flatten",
    b"part",
    b"reach",
    b"product",
    b"complement",
    b"minimise",
    b"case",
    b"end",
];

/// Whether the bytes are a reserved word.
pub fn is_reserved(word: &[u8]) -> bool
    ensures { IsTrue result ↔ Contains reserved word.now }
{
    RESERVED.contains(&word)
}

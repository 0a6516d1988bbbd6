//! What no clause says: that the definitions mean the language's own words and rows, and that calls succeed.

use lois_lexer::TokenKind::{Name, Number, Symbol, Tag, Word};
use lois_lexer::{LexError, Place, RESERVED, Token, TokenKind, is_reserved, lex, place_of};
use std::test::Fail;

/// A token as tables have it: its kind, where it begins and where it ends.
type Row = (TokenKind, usize, usize);

fn are(tokens: &[Token], rows: &[Row]) -> bool {
    if tokens.len() != rows.len() {
        return false;
    }
    for (token, row) in tokens.iter().zip(rows) {
        if (token.kind, token.from, token.to) != *row {
            return false;
        }
    }
    true
}

#[test]
fn texts_have_their_tokens(rt: HostRuntime) -> Result<(), Fail> {
    let cases: [(&[u8], &[Row]); 8] = [
        (b"", &[]),
        (
            b"atoms equality; let a = atoms; print a;",
            &[
                (Word, 0, 5),
                (Word, 6, 14),
                (Symbol, 14, 15),
                (Word, 16, 19),
                (Name, 20, 21),
                (Symbol, 22, 23),
                (Word, 24, 29),
                (Symbol, 29, 30),
                (Word, 31, 36),
                (Name, 37, 38),
                (Symbol, 38, 39),
            ],
        ),
        // `:=` is one symbol, `:` another.
        (
            b"x:=y: z",
            &[
                (Name, 0, 1),
                (Symbol, 1, 3),
                (Name, 3, 4),
                (Symbol, 4, 5),
                (Name, 6, 7),
            ],
        ),
        // A tag may be a reserved word, and a name may begin as one.
        (
            b"'end 'a1_B ends",
            &[(Tag, 0, 4), (Tag, 5, 10), (Name, 11, 15)],
        ),
        // Letters behind digits are the next token.
        (
            b"12ab 0 123456789",
            &[
                (Number, 0, 2),
                (Name, 2, 4),
                (Number, 5, 6),
                (Number, 7, 16),
            ],
        ),
        // Tab and CR in a comment; a comment at the end without LF.
        (b"a # one\tTWO~\r\nb # end", &[(Name, 0, 1), (Name, 14, 15)]),
        // A comment ends before the LF, and the next line is read.
        (b"#\nlet#\n\t\r x", &[(Word, 2, 5), (Name, 10, 11)]),
        (
            b"a!=b<c=(d,e)[{f}];",
            &[
                (Name, 0, 1),
                (Symbol, 1, 3),
                (Name, 3, 4),
                (Symbol, 4, 5),
                (Name, 5, 6),
                (Symbol, 6, 7),
                (Symbol, 7, 8),
                (Name, 8, 9),
                (Symbol, 9, 10),
                (Name, 10, 11),
                (Symbol, 11, 12),
                (Symbol, 12, 13),
                (Symbol, 13, 14),
                (Name, 14, 15),
                (Symbol, 15, 16),
                (Symbol, 16, 17),
                (Symbol, 17, 18),
            ],
        ),
    ];
    for (text, want) in cases {
        let tokens = lex(rt.alloc(), text)?;
        assert!(rt; are(tokens.as_slice(), want), "at {text:?}");
    }
    Ok(())
}

#[test]
fn texts_are_refused(rt: HostRuntime) {
    let cases: [(&[u8], LexError); 19] = [
        (b"atoms equality; let a = @;", LexError::BadByte(24)),
        (
            b"atoms equality; let aaaaaaaaaaaaaaaaaaaaaaaaaaaaaaaaaaaaaaaaaaaaaaaaaaaaaaaaaaaaaaaaa",
            LexError::LongName(20),
        ),
        (
            b"atoms equality; while true turns 007 { }",
            LexError::BadNumber(33),
        ),
        (b"a ' b", LexError::BadByte(2)),
        (b"'1", LexError::BadByte(0)),
        (b"'", LexError::BadByte(0)),
        (b"a ! b", LexError::BadByte(2)),
        (b"a!", LexError::BadByte(1)),
        (b"a - b", LexError::BadByte(2)),
        (b"12_", LexError::BadByte(2)),
        (b"a\x0b", LexError::BadByte(1)),
        (b"# ok\n#no\x7f", LexError::BadByte(8)),
        (b"#\x00\n@", LexError::BadByte(1)),
        (b"\xc3\xa9", LexError::BadByte(0)),
        (b"1234567890", LexError::BadNumber(0)),
        (b"00", LexError::BadNumber(0)),
        // The first fault counts.
        (b"a 007 @", LexError::BadNumber(2)),
        (b"@ 007", LexError::BadByte(0)),
        (
            b"'aaaaaaaaaaaaaaaaaaaaaaaaaaaaaaaaaaaaaaaaaaaaaaaaaaaaaaaaaaaaaaaaa 007",
            LexError::LongName(0),
        ),
    ];
    for (text, want) in cases {
        assert_eq!(rt; lex(rt.alloc(), text).err(), Some(want), "at {text:?}");
    }
}

#[test]
fn names_have_64_bytes_at_most(rt: HostRuntime) -> Result<(), Fail> {
    let longest: &[u8] =
        b"aaaaaaaaaaaaaaaaaaaaaaaaaaaaaaaaaaaaaaaaaaaaaaaaaaaaaaaaaaaaaaaa 'aaaaaaaaaaaaaaaaaaaaaaaaaaaaaaaaaaaaaaaaaaaaaaaaaaaaaaaaaaaaaaaa";
    let tokens = lex(rt.alloc(), longest)?;
    assert!(rt; are(tokens.as_slice(), &[(Name, 0, 64), (Tag, 65, 130)]));
    Ok(())
}

#[test]
fn words_are_reserved(rt: HostRuntime) -> Result<(), Fail> {
    let text: &[u8] =
        b"atoms equality order parameter let add to for in where if else while turns assert print true false not and or exists forall subset empty union inter minus flatten part reach product complement minimise case end";
    let tokens = lex(rt.alloc(), text)?;
    assert_eq!(rt; tokens.len(), 36);
    for (t, word) in tokens.iter().zip(RESERVED) {
        assert_eq!(rt; t.kind, Word);
        assert!(rt; t.from <= t.to && t.to <= text.len());
        assert!(rt; is_reserved(t.bytes(text)));
        assert_eq!(rt; t.bytes(text), word);
    }
    Ok(())
}

#[test]
fn other_words_are_names(rt: HostRuntime) {
    let names: [&[u8]; 5] = [b"", b"Atoms", b"ends", b"en", b"cases"];
    for name in names {
        assert!(rt; !is_reserved(name));
    }
}

#[test]
fn places_are_lines_and_columns(rt: HostRuntime) {
    let cases: [(&[u8], usize, usize, usize); 8] = [
        (b"", 0, 1, 1),
        (b"ab\ncd", 0, 1, 1),
        (b"ab\ncd", 2, 1, 3),
        (b"ab\ncd", 3, 2, 1),
        (b"ab\ncd", 5, 2, 3),
        (b"\n\n", 1, 2, 1),
        (b"\n\n", 2, 3, 1),
        (b"\r\n x", 3, 2, 2),
    ];
    for (text, offset, line, column) in cases {
        assert!(rt; offset <= text.len());
        assert_eq!(rt; place_of(text, offset), Place { line, column });
    }
}

const LIMIT: usize = 1_048_576;

#[test]
fn a_mebibyte_is_read(rt: HostRuntime) -> Result<(), Fail> {
    // Each text is a byte that stands many times, with how many tokens it has.
    for (first, byte, count) in [(b' ', b' ', 0), (b'#', b'x', 0), (b'{', b'{', LIMIT)] {
        let mut text = vec![in rt.alloc(); byte; LIMIT]?;
        text[0] = first;
        let tokens = lex(rt.alloc(), &text)?;
        assert_eq!(rt; tokens.len(), count);
        assert_eq!(rt;
            place_of(&text, LIMIT),
            Place {
                line: 1,
                column: LIMIT + 1
            }
        );
    }
    Ok(())
}

#[test]
fn a_mebibyte_of_statements_is_read(rt: HostRuntime) -> Result<(), Fail> {
    let line: &[u8] = b"let s = {(x, y) for x in atoms};\n";
    let mut text = Vec::new(rt.alloc());
    for _ in 0..LIMIT / 33 {
        text.extend_from_slice(line)?;
    }
    let tokens = lex(rt.alloc(), &text)?;
    assert_eq!(rt; tokens.len(), LIMIT / 33 * 15);
    Ok(())
}

#[test]
fn causes_have_numbers_and_words(rt: HostRuntime) -> Result<(), Fail> {
    let causes = [
        (LexError::BadByte(7), 1, "bad byte"),
        (LexError::LongName(7), 2, "long name"),
        (LexError::BadNumber(7), 3, "bad number"),
    ];
    for (cause, number, words) in causes {
        assert_eq!(rt; cause.number(), number);
        assert_eq!(rt; cause.text(), words);
        let shown = format!(in rt.alloc(); "{cause}")?;
        assert_eq!(rt; shown.as_bytes(), words.as_bytes());
    }
    Ok(())
}

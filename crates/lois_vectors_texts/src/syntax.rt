//! What no clause says: that the definitions are those of the language, by worked texts, and that the call succeeds.

use lois_lexer::lex;
use lois_syntax::SyntaxError::{self, NoScript, TooNested, TurnsTooMany, WideTuple};
use lois_syntax::read_script;
use std::alloc::Global;
use std::test::Fail;

/// Why the text is refused, if it is.
fn refusal(alloc: Global, text: &[u8]) -> Result<Option<SyntaxError>, Fail> {
    let tokens = lex(alloc, text)?;
    Ok(read_script(alloc, &tokens, text).err())
}

#[test]
fn texts_are_refused_at_their_first_fault(rt: HostRuntime) -> Result<(), Fail> {
    let cases: [(&[u8], Option<SyntaxError>); 13] = [
        (b"", Some(NoScript(0))),
        (b"atoms equality; let a = ;", Some(NoScript(6))),
        (b"atoms equality; let a = atoms", Some(NoScript(7))),
        (b"atoms equality; print a b;", Some(NoScript(5))),
        (
            b"atoms equality; parameter a; parameter b;",
            Some(NoScript(6)),
        ),
        (b"atoms equality; let a = ('t);", Some(NoScript(8))),
        (
            b"atoms equality; if a = b { } else { } else { }",
            Some(NoScript(12)),
        ),
        (
            b"atoms order; let a = ('t, 't, 't, 't, 't, 't, 't, 't);",
            None,
        ),
        (
            b"atoms order; let a = ('t, 't, 't, 't, 't, 't, 't, 't, 't);",
            Some(WideTuple(22)),
        ),
        (b"atoms equality; while true turns 1000000 { }", None),
        (
            b"atoms equality; while true turns 1000001 { }",
            Some(TurnsTooMany(6)),
        ),
        // The least token of two.
        (
            b"atoms equality; let a = ; while true turns 1000001 { }",
            Some(NoScript(6)),
        ),
        (
            b"atoms equality; while true turns 1000001 { } ;",
            Some(TurnsTooMany(6)),
        ),
    ];
    for (text, expected) in cases {
        assert_eq!(rt; refusal(rt.alloc(), text)?, expected);
    }
    Ok(())
}

#[test]
fn only_whole_statements_end_a_script(rt: HostRuntime) -> Result<(), Fail> {
    let text: &[u8] = b"atoms equality; let a = atoms; print a;";
    // The number of tokens in each front of the text, at which it is refused.
    let missing = [
        0, 0, 0, 0, 0, 1, 1, 1, 1, 1, 1, 1, 1, 1, 2, 3, 3, 4, 4, 4, 4, 5, 5, 6, 6, 7, 7, 7, 7, 7,
        8, 8, 9, 9, 9, 9, 9, 9, 10, 11,
    ];
    for (length, token) in missing.into_iter().enumerate() {
        let expected = match length {
            15 | 16 | 30 | 31 | 39 => None,
            _ => Some(NoScript(token)),
        };
        let front = text.get(..length).unwrap_or(text);
        assert_eq!(rt; refusal(rt.alloc(), front)?, expected, "{length} bytes");
    }
    Ok(())
}

#[test]
fn brackets_may_be_64_deep(rt: HostRuntime) -> Result<(), Fail> {
    let alloc = rt.alloc();
    // What stands before, round and behind a text in brackets, and the token of the bracket number 65.
    let cases = [
        ("let a = ", "{", "", "}", ";", 70),
        ("let a = ", "(", "'t", ", 't)", ";", 70),
        ("assert ", "[", "true", "]", ";", 68),
        ("let a = ", "flatten(", "b", ")", ";", 135),
        ("", "if true {", "", "}", "", 197),
    ];
    for (before, open, inside, close, behind, token) in cases {
        for (depth, expected) in [(64, None), (65, Some(TooNested(token)))] {
            let opened = open.repeat(alloc, depth)?;
            let closed = close.repeat(alloc, depth)?;
            let text = format!(in alloc;
                "atoms equality; {before}{opened}{inside}{closed}{behind}"
            )?;
            assert_eq!(rt;
                refusal(alloc, text.as_bytes())?,
                expected,
                "{depth} times {open}"
            );
        }
    }
    Ok(())
}

#[test]
fn causes_have_numbers_and_words(rt: HostRuntime) -> Result<(), Fail> {
    let causes = [
        (NoScript(7), 1, "not a script"),
        (TooNested(7), 2, "nesting over 64"),
        (WideTuple(7), 3, "tuple over 8"),
        (TurnsTooMany(7), 4, "turns over 1000000"),
    ];
    for (cause, number, words) in causes {
        assert_eq!(rt; cause.number(), number);
        assert_eq!(rt; cause.text(), words);
        let shown = format!(in rt.alloc(); "{cause}")?;
        assert_eq!(rt; shown.as_bytes(), words.as_bytes());
    }
    Ok(())
}

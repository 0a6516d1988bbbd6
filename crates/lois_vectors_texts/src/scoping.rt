//! Two small scripts.

use crate::making::at;
use lois_lexer::lex;
use lois_scope::{ScopeError, check};
use lois_script::Script;
use lois_syntax::read_script;
use std::alloc::Global;
use std::test::Fail;

fn script_of(alloc: Global, text: &[u8]) -> Result<Script, Fail> {
    let tokens = lex(alloc, text)?;
    Ok(read_script(alloc, &tokens, text)?)
}

#[test]
fn well_scoped(rt: HostRuntime) -> Result<(), Fail> {
    let alloc = rt.alloc();
    let script = script_of(alloc, b"atoms order; parameter p; let s = p; print s;")?;
    let scoped = check(alloc, script)?;
    assert_eq!(rt; scoped.script().parameters.len(), 1);
    let script = scoped.into_script();
    assert!(rt; script.order);
    assert_eq!(rt; script.body.len(), 2);
    Ok(())
}

#[test]
fn outer_assignment(rt: HostRuntime) -> Result<(), Fail> {
    let alloc = rt.alloc();
    let text = b"atoms equality; let s = {}; for x in atoms { s := {x}; }";
    let refused = match check(alloc, script_of(alloc, text)?) {
        Err(ScopeError::OuterAssign(pos)) => Some(pos.offset),
        _ => None,
    };
    assert_eq!(rt; refused, Some(45));
    Ok(())
}

#[test]
fn causes_have_numbers_and_words(rt: HostRuntime) -> Result<(), Fail> {
    let causes = [
        (ScopeError::Unknown(at(7)), 1, "unknown name"),
        (ScopeError::Again(at(7)), 2, "name declared again"),
        (
            ScopeError::OuterAssign(at(7)),
            3,
            "assignment to outer variable",
        ),
        (ScopeError::PrintInLoop(at(7)), 4, "print in a loop"),
        (
            ScopeError::OrderInEquality(at(7)),
            5,
            "order in an equality script",
        ),
    ];
    for (cause, number, words) in causes {
        assert_eq!(rt; cause.number(), number);
        assert_eq!(rt; cause.text(), words);
        let shown = format!(in rt.alloc(); "{cause}")?;
        assert_eq!(rt; shown.as_bytes(), words.as_bytes());
    }
    Ok(())
}

//! How expressions and conditions fail, where they do, and what is asked of deciders.

use crate::making::{Answer, Failed, chosen, constraint_of, opening, same_where, term_of, tried};
use lois_answers::FaultKind::{
    self, DepthLimit, NoSuchPart, NotASet, NotATuple, NotAtoms, NotAutomaton, NotComplete,
    NotDeterministic,
};
use lois_base::{Constraint, Term};
use lois_context::{Context, side};
use lois_deciders::Chosen;
use std::alloc::Global;
use std::process::Abort;
use std::test::Fail;

fn failure(rt: &impl Abort, alloc: Global, text: &str) -> Result<Failed, Fail> {
    let mut chosen = chosen(alloc)?;
    let context = opening(rt, alloc, &mut chosen)?;
    match tried(alloc, text, &context, &mut chosen)? {
        Answer::Failed(failed) => Ok(failed),
        _ => Err("no failure".into()),
    }
}

// Each text is cut where it fails.
fn fail_there(
    rt: &impl Abort,
    alloc: Global,
    cases: &[(&str, &str, FaultKind)],
) -> Result<(), Fail> {
    for (before, behind, kind) in cases {
        let text = format!(in alloc; "atoms order; {before}{behind}")?;
        let failed = failure(rt, alloc, &text)?;
        assert_eq!(rt; failed.kind, *kind, "{before}{behind}");
        let rest = text.as_bytes().get(failed.offset..).unwrap_or(b"");
        assert_eq!(rt; rest, behind.as_bytes(), "{before}{behind}");
    }
    Ok(())
}

#[test]
fn operands_are_to_be_sets(rt: HostRuntime) -> Result<(), Fail> {
    let cases = [
        ("let v = {x for x in ", "a};", NotASet),
        (
            "let v = {x for y in {{}, {'t}}, x in y, z in ",
            "x};",
            NotASet,
        ),
        ("let v = union(", "a, {});", NotASet),
        ("let v = union({}, ", "'t);", NotASet),
        ("let v = inter(", "(a, b), {});", NotASet),
        ("let v = minus({}, ", "b);", NotASet),
        ("let v = flatten(", "a);", NotASet),
        ("let v = flatten(", "{{}, a});", NotASet),
        ("assert ", "a subset {};", NotASet),
        ("assert {} subset ", "'t;", NotASet),
        ("assert a in ", "b;", NotASet),
        ("assert exists x in ", "b: true;", NotASet),
        ("assert forall x in ", "'t: true;", NotASet),
    ];
    fail_there(&rt, rt.alloc(), &cases)
}

#[test]
fn operands_are_to_be_atoms_and_tuples(rt: HostRuntime) -> Result<(), Fail> {
    let cases = [
        ("assert ", "'t < a;", NotAtoms),
        ("assert a < ", "'b;", NotAtoms),
        ("let v = {x for x in atoms where x < ", "'b};", NotAtoms),
        // all parts are evaluated
        ("assert false and a < ", "{};", NotAtoms),
        ("assert true or a < ", "{};", NotAtoms),
        ("assert forall x in {a, 't}: ", "x < b;", NotAtoms),
        ("let v = part(", "a, 1);", NotATuple),
        ("let v = part(", "{}, 1);", NotATuple),
        ("let v = part(", "(a, b), 0);", NoSuchPart),
        ("let v = part(", "('a, 'b), 3);", NoSuchPart),
    ];
    fail_there(&rt, rt.alloc(), &cases)
}

// Each operation, and both operands of the one with two.
#[test]
fn operands_are_to_be_automata(rt: HostRuntime) -> Result<(), Fail> {
    let cases = [
        ("let v = reach(", "{});", NotAutomaton),
        ("let v = complement(", "a);", NotAutomaton),
        ("let v = minimise(", "({}, {}, {}, {}));", NotAutomaton),
        (
            "let v = product(",
            "'t, ({}, {}, {}, {}, {}));",
            NotAutomaton,
        ),
        (
            "let v = product(({}, {}, {}, {}, {}), ",
            "{});",
            NotAutomaton,
        ),
        (
            "assert empty(",
            "({'p}, {'l}, {('p, 'm, 'p)}, {}, {}));",
            NotAutomaton,
        ),
        (
            "let v = complement(",
            "({'p}, {'l}, {}, {}, {}));",
            NotDeterministic,
        ),
        (
            "let v = minimise(",
            "({'p}, {'l}, {}, {'p, 'q}, {}));",
            NotAutomaton,
        ),
        (
            "let v = minimise(",
            "({'p, 'q}, {}, {}, {'p, 'q}, {}));",
            NotDeterministic,
        ),
        (
            "let v = complement(",
            "({'p}, {'l}, {}, {'p}, {}));",
            NotComplete,
        ),
        (
            "let v = minimise(",
            "({'p}, atoms, {}, {'p}, {}));",
            NotComplete,
        ),
    ];
    fail_there(&rt, rt.alloc(), &cases)
}

#[test]
fn values_are_64_deep_at_most(rt: HostRuntime) -> Result<(), Fail> {
    let cases = [
        ("let v = ", "{deep};", DepthLimit),
        ("let v = ", "(a, deep);", DepthLimit),
        ("let v = union({", "{deep}}, {});", DepthLimit),
        ("assert a in ", "{deep};", DepthLimit),
        ("let v = {x for x in ", "{deep}};", DepthLimit),
    ];
    fail_there(&rt, rt.alloc(), &cases)
}

// What the expression comes to in the context, if it doesn't fail.
fn value(
    alloc: Global,
    expression: &str,
    context: &Context,
    chosen: &mut Chosen,
) -> Result<Option<Term>, Fail> {
    let text = format!(in alloc; "atoms order; let v = {expression};")?;
    match tried(alloc, &text, context, chosen)? {
        Answer::Value(found) => Ok(Some(found)),
        _ => Ok(None),
    }
}

#[test]
fn values_may_be_64_deep(rt: HostRuntime) -> Result<(), Fail> {
    let alloc = rt.alloc();
    let mut chosen = chosen(alloc)?;
    let context = opening(&rt, alloc, &mut chosen)?;
    for expression in ["deep", "{shallow}", "(a, shallow)", "flatten({shallow})"] {
        let found = value(alloc, expression, &context, &mut chosen)?;
        assert!(rt; found.is_some(), "{expression}");
    }
    Ok(())
}

// These fail exactly where `a` and `b` are equal.
const SOMEWHERE: [&str; 4] = [
    "{deep for x in atoms where a = b}",
    "{deep for x in {y for y in {a} where y = b}}",
    "flatten({a for x in atoms where a = b})",
    "reach(({a}, {}, {}, {'p for x in atoms where a = b}, {}))",
];

#[test]
fn samples_tell_where_it_fails(rt: HostRuntime) -> Result<(), Fail> {
    let alloc = rt.alloc();
    for expression in SOMEWHERE {
        let text = format!(in alloc; "atoms order; let v = {expression};")?;
        assert!(rt; failure(&rt, alloc, &text)?.equal, "{expression}");
    }
    Ok(())
}

fn side_where(
    rt: &impl Abort,
    alloc: Global,
    context: &Context,
    when: &Constraint,
    chosen: &mut Chosen,
) -> Result<Context, Fail> {
    assert!(rt; when.fits(context.size));
    Ok(side(alloc, context, when, chosen)?.ok_or("no side")?)
}

// Whether the expression is `{}` there, wherever the constraint holds.
fn is_empty_there(
    rt: &impl Abort,
    alloc: Global,
    expression: &str,
    context: &Context,
    when: &Constraint,
    chosen: &mut Chosen,
) -> Result<bool, Fail> {
    let found = value(alloc, expression, context, chosen)?.ok_or("no value")?;
    let none = term_of(alloc, "{}")?;
    same_where(rt, alloc, when, &found, &none, chosen)
}

// What fails at other choices alone doesn't fail.
#[test]
fn only_admitted_choices_count(rt: HostRuntime) -> Result<(), Fail> {
    let alloc = rt.alloc();
    let mut chosen = chosen(alloc)?;
    let context = opening(&rt, alloc, &mut chosen)?;
    let below = constraint_of(alloc, "a<b")?;
    let inside = side_where(&rt, alloc, &context, &below, &mut chosen)?;
    for expression in SOMEWHERE {
        let empty = is_empty_there(&rt, alloc, expression, &inside, &below, &mut chosen)?;
        assert!(rt; empty, "{expression}");
    }
    Ok(())
}

// How often the decider is asked while the statement is tried.
fn questions(
    alloc: Global,
    statement: &str,
    context: &Context,
    chosen: &mut Chosen,
) -> Result<u64, Fail> {
    let before = chosen.asked();
    let text = format!(in alloc; "atoms order; {statement}")?;
    let _ = tried(alloc, &text, context, chosen)?;
    Ok(chosen.asked().saturating_sub(before))
}

// The decider is asked wherever members may be missing.
#[test]
fn deciders_are_asked(rt: HostRuntime) -> Result<(), Fail> {
    let alloc = rt.alloc();
    let mut chosen = chosen(alloc)?;
    let context = opening(&rt, alloc, &mut chosen)?;
    let statements = [
        "let v = {x for x in atoms where a < x};",
        "let v = {shallow for x in atoms where x = a};",
        "assert exists x in {a}: x = b;",
    ];
    for statement in statements {
        assert!(rt;
            0 < questions(alloc, statement, &context, &mut chosen)?,
            "{statement}"
        );
    }
    Ok(())
}

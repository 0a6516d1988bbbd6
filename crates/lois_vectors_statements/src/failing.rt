//! Scripts that fail, with the place, the kind and the elements of the loops around it.

use crate::making::{Answer, chosen, interpreted, results_of};
use lois_answers::{FaultKind, Lines};
use std::alloc::Global;
use std::process::Abort;
use std::test::Fail;

#[derive(Clone, Copy)]
struct Row {
    order: bool,
    script: &'static str,
    kind: FaultKind,
    // the text from the place on begins with this
    place: &'static str,
    // how many numbers the sample has
    numbers: usize,
    // the names and elements, as lines of a case whose parameters stand for the numbers of the sample
    elements: &'static str,
}

fn stops(
    order: bool,
    script: &'static str,
    kind: FaultKind,
    place: &'static str,
    numbers: usize,
    elements: &'static str,
) -> Row {
    Row {
        order,
        script,
        kind,
        place,
        numbers,
        elements,
    }
}

fn are_equal(one: &Lines, other: &Lines) -> bool {
    if one.len() != other.len() {
        return false;
    }
    for (l, m) in one.as_slice().iter().zip(other.as_slice()) {
        if l.name != m.name || !l.term.is_equal(&m.term) {
            return false;
        }
    }
    true
}

// The elements that the row names.
fn elements_of(alloc: Global, row: Row) -> Result<Lines, Fail> {
    let parameters = match row.numbers {
        0 => "",
        1 => " n1",
        2 => " n1 n2",
        _ => " n1 n2 n3",
    };
    let elements = row.elements;
    let rest = format!(in alloc; "{parameters}\ncase when true\n{elements}")?;
    let results = results_of(alloc, row.order, &rest)?;
    match results.cases.get(0) {
        Some(case) => Ok(case.lines.copy(alloc)?),
        None => Err("no case".into()),
    }
}

fn fails(rt: &impl Abort, alloc: Global, row: Row) -> Result<(), Fail> {
    let atoms = if row.order { "order" } else { "equality" };
    let script = row.script;
    let text = format!(in alloc; "atoms {atoms}; {script}")?;
    let mut chosen = chosen(alloc)?;
    let Answer::Failed(fault) = interpreted(alloc, &text, &mut chosen)? else {
        panic!(rt; "it did not fail: {script}");
    };
    assert_eq!(rt; fault.kind, row.kind, "{script}");
    let rest = text.as_bytes().get(fault.pos.offset..).unwrap_or(b"");
    assert!(rt;
        rest.starts_with(row.place.as_bytes()),
        "the place in: {script}"
    );
    assert_eq!(rt; fault.sample.len(), row.numbers, "the numbers of: {script}");
    let elements = elements_of(alloc, row)?;
    assert!(rt;
        are_equal(&fault.elements, &elements),
        "the elements of: {script}"
    );
    Ok(())
}

fn all_fail(rt: &impl Abort, alloc: Global, rows: &[Row]) -> Result<(), Fail> {
    for row in rows {
        fails(rt, alloc, *row)?;
    }
    Ok(())
}

#[test]
fn statements_fail_in_their_ways(rt: HostRuntime) -> Result<(), Fail> {
    let rows = [
        stops(
            true,
            "parameter a, b; assert a < b;",
            FaultKind::Assertion,
            "assert",
            2,
            "",
        ),
        stops(
            false,
            "while true turns 3 { }",
            FaultKind::TurnLimit,
            "while",
            0,
            "",
        ),
        stops(
            false,
            "while true turns 0 { }",
            FaultKind::TurnLimit,
            "while",
            0,
            "",
        ),
        stops(
            false,
            "let v = 'a; while v != 'd turns 2 { if v = 'a { v := 'b; } else { if v = 'b { v := 'c; } else { v := 'd; } } }",
            FaultKind::TurnLimit,
            "while",
            0,
            "",
        ),
        stops(
            false,
            "let v = 'a; add 'b to v;",
            FaultKind::NotASet,
            "v;",
            0,
            "",
        ),
        stops(
            true,
            "parameter a; assert a < 'b;",
            FaultKind::NotAtoms,
            "'b;",
            1,
            "",
        ),
        stops(
            false,
            "let p = part(('a, 'b), 3);",
            FaultKind::NoSuchPart,
            "('a, 'b), 3",
            0,
            "",
        ),
    ];
    all_fail(&rt, rt.alloc(), &rows)
}

#[test]
fn failures_name_the_elements_of_their_loops(rt: HostRuntime) -> Result<(), Fail> {
    let rows = [
        stops(
            false,
            "for x in atoms { for y in atoms { assert x = y; } }",
            FaultKind::Assertion,
            "assert",
            2,
            "x = n1\ny = n2\n",
        ),
        // the set of a loop is no set: the element of the loop around it alone
        stops(
            true,
            "for x in atoms { for y in x { } }",
            FaultKind::NotASet,
            "x {",
            1,
            "x = n1\n",
        ),
        stops(
            true,
            "let s = 'a; for y in s { }",
            FaultKind::NotASet,
            "s {",
            0,
            "",
        ),
        // the condition of a loop fails: its own element too
        stops(
            true,
            "for x in {'a} where x < 'b { }",
            FaultKind::NotAtoms,
            "x <",
            0,
            "x = 'a\n",
        ),
        // for some members only
        stops(
            true,
            "parameter a; for x in atoms { for p in {('t, x), x} { if x < a { let q = part(p, 1); } } }",
            FaultKind::NotATuple,
            "p, 1)",
            2,
            "x = n2\np = n2\n",
        ),
        // the set and the tuple of an element are written over all numbers of the sample
        stops(
            true,
            "for p in {({y for y in atoms where y < x}, x) for x in atoms} { for z in atoms { assert z in part(p, 1) or not z < part(p, 2); assert z < part(p, 2); } }",
            FaultKind::Assertion,
            "assert z < part",
            2,
            "p = ({$2 for $2 if $2<n1}, n1)\nz = n2\n",
        ),
        // in a loop in turns in a loop
        stops(
            false,
            "for x in atoms { let v = 'a; while v = 'a turns 2 { for y in {x} { assert not y = x; } } }",
            FaultKind::Assertion,
            "assert",
            1,
            "x = n1\ny = n1\n",
        ),
    ];
    all_fail(&rt, rt.alloc(), &rows)
}

/// 63 times in a set is a value, 64 times is too deep, by `:=` and by `add`.
#[test]
fn values_are_64_deep_at_most(rt: HostRuntime) -> Result<(), Fail> {
    let alloc = rt.alloc();
    let mut chosen = chosen(alloc)?;
    let mut text = Vec::new(alloc);
    text.extend_from_slice(b"atoms equality; let v = {}; ")?;
    for _ in 0..63 {
        text.extend_from_slice(b"v := {v}; ")?;
    }
    let deepest = str::from_utf8(&text).map_err(|_| "not UTF-8")?;
    assert!(&rt;
        matches!(
            interpreted(alloc, deepest, &mut chosen)?,
            Answer::Completed(_)
        )
    );
    for more in ["v := {v}; ", "let w = {}; add v to w; "] {
        let deeper = format!(in alloc; "{deepest}{more}")?;
        let Answer::Failed(fault) = interpreted(alloc, &deeper, &mut chosen)? else {
            panic!(&rt; "it did not fail: {more}");
        };
        assert_eq!(&rt; fault.kind, FaultKind::DepthLimit, "{more}");
    }
    Ok(())
}

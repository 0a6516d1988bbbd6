//! Scripts that complete, with what they print at each choice.

use crate::making::{Answer, alike, chosen, interpreted, results_of};
use std::alloc::Global;
use std::process::Abort;
use std::test::Fail;

#[derive(Clone, Copy)]
struct Row {
    order: bool,
    script: &'static str,
    // the results behind `parameters`
    results: &'static str,
    // how many cases there are
    cases: usize,
}

fn prints(order: bool, script: &'static str, results: &'static str, cases: usize) -> Row {
    Row {
        order,
        script,
        results,
        cases,
    }
}

fn completes(rt: &impl Abort, alloc: Global, row: Row) -> Result<(), Fail> {
    let atoms = if row.order { "order" } else { "equality" };
    let script = row.script;
    let text = format!(in alloc; "atoms {atoms}; {script}")?;
    let mut chosen = chosen(alloc)?;
    let Answer::Completed(results) = interpreted(alloc, &text, &mut chosen)? else {
        panic!(rt; "it did not complete: {script}");
    };
    let expected = results_of(alloc, row.order, row.results)?;
    assert_eq!(rt; results.cases.len(), row.cases, "the cases of: {script}");
    assert!(rt;
        alike(rt, alloc, &results, &expected, &mut chosen)?,
        "the lines of: {script}"
    );
    Ok(())
}

fn all_complete(rt: &impl Abort, alloc: Global, rows: &[Row]) -> Result<(), Fail> {
    for row in rows {
        completes(rt, alloc, *row)?;
    }
    Ok(())
}

#[test]
fn values_are_kept_and_printed(rt: HostRuntime) -> Result<(), Fail> {
    let rows = [
        prints(
            false,
            "let a = atoms; print a;",
            "\ncase when true\na = {$0 for $0}\n",
            1,
        ),
        prints(
            false,
            "let e = {}; print e;",
            "\ncase when true\ne = {}\n",
            1,
        ),
        prints(true, "", "\ncase when true\n", 1),
        prints(
            false,
            "let s = {(x, y) for x in atoms, y in atoms where x != y}; print s;",
            "\ncase when true\ns = {($0, $1) for $0 $1 if $0!=$1}\n",
            1,
        ),
        prints(
            true,
            "parameter a, b; let i = {x for x in atoms where a < x and x < b}; print i;",
            " a b\ncase when true\ni = {$2 for $2 if a<$2 and $2<b}\n",
            1,
        ),
        prints(
            false,
            "let v = 'a; print v; v := 'b; print v; let w = v; v := {v}; print w; print v;",
            "\ncase when true\nv = 'a\nv = 'b\nw = 'b\nv = {'b}\n",
            1,
        ),
    ];
    all_complete(&rt, rt.alloc(), &rows)
}

#[test]
fn conditions_part_the_choices(rt: HostRuntime) -> Result<(), Fail> {
    let rows = [
        prints(
            false,
            "parameter a, b; let s = {}; if a = b { add 'eq to s; } else { add 'ne to s; } print s;",
            " a b\ncase when a=b\ns = {'eq}\ncase when a!=b\ns = {'ne}\n",
            2,
        ),
        // sides that come to the same are one case
        prints(
            true,
            "parameter a, b; let s = {}; if a < b { let t = 'x; add t to s; } else { add 'x to s; } print s;",
            " a b\ncase when true\ns = {'x}\n",
            1,
        ),
        prints(
            true,
            "parameter a, b; let v = 'no; if a < b { v := 'below; } if b < a { v := 'above; } print v;",
            " a b\ncase when a<b\nv = 'below\ncase when a=b\nv = 'no\ncase when b<a\nv = 'above\n",
            3,
        ),
        prints(
            false,
            "let v = 'a; while v != 'd turns 3 { if v = 'a { v := 'b; } else { if v = 'b { v := 'c; } else { v := 'd; } } } print v;",
            "\ncase when true\nv = 'd\n",
            1,
        ),
        prints(false, "while false turns 0 { }", "\ncase when true\n", 1),
        // what leaves the loop early waits for the others
        prints(
            true,
            "parameter a, b; let v = 'x; while v = 'x and a < b turns 1 { v := 'y; } print v;",
            " a b\ncase when a<b\nv = 'y\ncase when a=b\nv = 'x\ncase when b<a\nv = 'x\n",
            2,
        ),
    ];
    all_complete(&rt, rt.alloc(), &rows)
}

#[test]
fn loops_run_for_all_members(rt: HostRuntime) -> Result<(), Fail> {
    let rows = [
        prints(
            true,
            "let s = {}; for x in atoms { for y in atoms { if x < y { add (x, y) to s; } } } print s;",
            "\ncase when true\ns = {($0, $1) for $0 $1 if $0<$1}\n",
            1,
        ),
        prints(
            true,
            "let s = {}; for x in atoms { let c = {y for y in atoms where x < y}; add c to s; } print s;",
            "\ncase when true\ns = {{$1 for $1 if $0<$1} for $0}\n",
            1,
        ),
        // each run sees its own additions alone
        prints(
            false,
            "let s = {}; for x in atoms { add x to s; assert s = {x}; } print s;",
            "\ncase when true\ns = {$0 for $0}\n",
            1,
        ),
        // a body that runs for no member
        prints(
            true,
            "for x in atoms where x < x { for y in x { } }",
            "\ncase when true\n",
            1,
        ),
        // what stood in a set stays, and each loop inside joins what it has added
        prints(
            true,
            "let s = {'a}; for x in atoms { add 'b to s; for y in atoms where x < y { add (x, y) to s; assert s = {'a, 'b, (x, y)}; } } print s;",
            "\ncase when true\ns = {'a, 'b, ($0, $1) for $0 $1 if $0<$1}\n",
            1,
        ),
        // a loop in turns in a loop
        prints(
            false,
            "let s = {}; for x in atoms { let t = {}; let v = 'a; while v = 'a turns 2 { v := 'b; for y in {x, 'c} { add (x, y) to t; } } for p in t { add p to s; } } print s;",
            "\ncase when true\ns = {($0, $0) for $0, ($0, 'c) for $0}\n",
            1,
        ),
        prints(
            false,
            "parameter a; let edges = {(x, y) for x in atoms, y in atoms where x != y}; let r = {a}; let old = {}; while r != old turns 5 { old := r; for p in edges { if part(p, 1) in old { add part(p, 2) to r; } } } print r;",
            " a\ncase when true\nr = {$1 for $1}\n",
            1,
        ),
    ];
    all_complete(&rt, rt.alloc(), &rows)
}

/// The decider that is lent is asked.
#[test]
fn deciders_are_asked(rt: HostRuntime) -> Result<(), Fail> {
    let alloc = rt.alloc();
    let mut chosen = chosen(alloc)?;
    let before = chosen.asked();
    let script =
        "atoms equality; parameter a, b; let s = {}; if a = b { add 'eq to s; } else { add 'ne to s; } print s;";
    let Answer::Completed(results) = interpreted(alloc, script, &mut chosen)? else {
        panic!(rt; "it did not complete");
    };
    assert_eq!(rt; results.cases.len(), 2);
    assert!(rt; before < chosen.asked());
    Ok(())
}

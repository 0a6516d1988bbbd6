//! Scripts that complete, and what they print, under each decider.

use crate::calling::{KINDS, asked, repeated};
use crate::spelling::say_the_same;
use lois_reader::read_results;
use std::alloc::Global;
use std::process::Abort;
use std::test::Fail;

// How the output may differ from the one that is named.
#[derive(Clone, Copy)]
enum Output {
    ToTheByte,
    UpToSpelling,
}

#[derive(Clone, Copy)]
pub(crate) struct Row {
    script: &'static str,
    output: &'static str,
    which: Output,
}

/// The output is these bytes.
pub(crate) fn exactly(script: &'static str, output: &'static str) -> Row {
    Row {
        script,
        output,
        which: Output::ToTheByte,
    }
}

/// The output says what these bytes say.
pub(crate) fn spelled(script: &'static str, output: &'static str) -> Row {
    Row {
        script,
        output,
        which: Output::UpToSpelling,
    }
}

fn is_wanted(
    rt: &impl Abort,
    alloc: Global,
    which: Output,
    held: &[u8],
    output: &[u8],
) -> Result<bool, Fail> {
    match which {
        Output::ToTheByte => Ok(*held == *output),
        Output::UpToSpelling => say_the_same(rt, alloc, held, output),
    }
}

// Under each decider.
fn completes(
    rt: &impl Abort,
    alloc: Global,
    script: &str,
    which: Output,
    output: &str,
) -> Result<(), Fail> {
    for kind in KINDS {
        let told = asked(alloc, &["run", "--decider", kind], script.as_bytes())?;
        assert_eq!(rt; told.status, 0, "{kind}: {script}");
        assert!(rt;
            is_wanted(rt, alloc, which, &told.held, output.as_bytes())?,
            "{kind}: {script}"
        );
    }
    Ok(())
}

/// Each row completes, under each decider.
pub(crate) fn all_complete(rt: &impl Abort, alloc: Global, rows: &[Row]) -> Result<(), Fail> {
    for row in rows {
        completes(rt, alloc, row.script, row.which, row.output)?;
    }
    Ok(())
}

#[test]
fn sets_are_named_and_printed(rt: HostRuntime) -> Result<(), Fail> {
    let rows = [
        exactly(
            "atoms equality; let a = atoms; print a;",
            "lois results 1\natoms equality\nparameters\ncase when true\na = {$0 for $0}\nend\n",
        ),
        exactly(
            "atoms equality; let e = {}; print e;",
            "lois results 1\natoms equality\nparameters\ncase when true\ne = {}\nend\n",
        ),
        exactly(
            "atoms order;",
            "lois results 1\natoms order\nparameters\ncase when true\nend\n",
        ),
        spelled(
            "atoms equality; let s = {'a, ('b, {})}; print s;",
            "lois results 1\natoms equality\nparameters\ncase when true\ns = {'a, ('b, {})}\nend\n",
        ),
        spelled(
            "atoms equality; let s = {(x, y) for x in atoms, y in atoms where x != y}; print s;",
            "lois results 1\natoms equality\nparameters\ncase when true\ns = {($0, $1) for $0 $1 if $0!=$1}\nend\n",
        ),
        spelled(
            "atoms order; parameter a, b; let i = {x for x in atoms where a < x and x < b}; print i;",
            "lois results 1\natoms order\nparameters a b\ncase when true\ni = {$2 for $2 if a<$2 and $2<b}\nend\n",
        ),
        exactly(
            "atoms order; assert atoms = {y for y in atoms where [exists z in atoms: z < y]};",
            "lois results 1\natoms order\nparameters\ncase when true\nend\n",
        ),
        spelled(
            "atoms order; let s = {part(x, 1) for x in atoms, y in atoms, z in atoms where x < y and y < z and z < x}; print s;",
            "lois results 1\natoms order\nparameters\ncase when true\ns = {}\nend\n",
        ),
    ];
    all_complete(&rt, rt.alloc(), &rows)
}

#[test]
fn conditions_part_the_choices(rt: HostRuntime) -> Result<(), Fail> {
    let rows = [
        spelled(
            "atoms equality; parameter a, b; let s = {}; if a = b { add 'eq to s; } else { add 'ne to s; } print s;",
            "lois results 1\natoms equality\nparameters a b\ncase when a=b\ns = {'eq}\ncase when a!=b\ns = {'ne}\nend\n",
        ),
        exactly(
            "atoms equality; let v = 'a; while v != 'd turns 3 { if v = 'a { v := 'b; } else { if v = 'b { v := 'c; } else { v := 'd; } } } print v;",
            "lois results 1\natoms equality\nparameters\ncase when true\nv = 'd\nend\n",
        ),
        spelled(
            "atoms equality; parameter a, b; let v = a; while v = b turns 1 { v := 'x; } print v;",
            "lois results 1\natoms equality\nparameters a b\ncase when a=b\nv = 'x\ncase when a!=b\nv = a\nend\n",
        ),
        spelled(
            "atoms equality; parameter a, b; let s = {}; if a = b { } else { } print s;",
            "lois results 1\natoms equality\nparameters a b\ncase when true\ns = {}\nend\n",
        ),
    ];
    all_complete(&rt, rt.alloc(), &rows)
}

#[test]
fn loops_run_for_all_members(rt: HostRuntime) -> Result<(), Fail> {
    let rows = [
        spelled(
            "atoms order; let s = {}; for x in atoms { for y in atoms { if x < y { add (x, y) to s; } } } print s;",
            "lois results 1\natoms order\nparameters\ncase when true\ns = {($0, $1) for $0 $1 if $0<$1}\nend\n",
        ),
        spelled(
            "atoms order; let s = {}; for x in atoms { let c = {y for y in atoms where x < y}; add c to s; } print s;",
            "lois results 1\natoms order\nparameters\ncase when true\ns = {{$1 for $1 if $0<$1} for $0}\nend\n",
        ),
        exactly(
            "atoms equality; let s = {}; for x in atoms { add x to s; assert s = {x}; } print s;",
            "lois results 1\natoms equality\nparameters\ncase when true\ns = {$0 for $0}\nend\n",
        ),
        exactly(
            "atoms order; for x in atoms where x < x { for y in x { } }",
            "lois results 1\natoms order\nparameters\ncase when true\nend\n",
        ),
        spelled(
            "atoms equality; let s = {'old}; for x in atoms { for y in atoms where x != y { add (x, y) to s; } } print s;",
            "lois results 1\natoms equality\nparameters\ncase when true\ns = {'old, ($0, $1) for $0 $1 if $0!=$1}\nend\n",
        ),
    ];
    all_complete(&rt, rt.alloc(), &rows)
}

// What can be reached from an atom along pairs of different ones: all atoms, after two turns.
#[test]
fn what_can_be_reached_is_found(rt: HostRuntime) -> Result<(), Fail> {
    let rows = [spelled(
        "atoms equality; parameter a; let edges = {(x, y) for x in atoms, y in atoms where x != y}; let r = {a}; let old = {}; while r != old turns 5 { old := r; for p in edges { if part(p, 1) in old { add part(p, 2) to r; } } } print r;",
        "lois results 1\natoms equality\nparameters a\ncase when true\nr = {$1 for $1}\nend\n",
    )];
    all_complete(&rt, rt.alloc(), &rows)
}

// Both sides of the `if` come to the same, so there is one case.
#[test]
fn equal_cases_are_one(rt: HostRuntime) -> Result<(), Fail> {
    let alloc = rt.alloc();
    let script = "atoms equality; parameter a, b; let s = {}; if a = b { } else { } print s;";
    for kind in KINDS {
        let told = asked(alloc, &["run", "--decider", kind], script.as_bytes())?;
        let results = read_results(alloc, &told.held)?;
        assert_eq!(rt; results.cases.len(), 1, "{kind}");
    }
    Ok(())
}

const NOTHING: &[u8] = b"lois results 1\natoms equality\nparameters\ncase when true\nend\n";

// 63 sets around a set.
fn nests(rt: &impl Abort, alloc: Global, kind: &str) -> Result<(), Fail> {
    let front = "atoms equality; let v = {}; ";
    let script = repeated(alloc, front.as_bytes(), b"v := {v}; ", 63, b"")?;
    let told = asked(alloc, &["run", "--decider", kind], &script)?;
    assert_eq!(rt; told.status, 0);
    assert_eq!(rt; told.held.as_slice(), NOTHING);
    Ok(())
}

#[test]
fn deep_values_are_kept_with_graph(rt: HostRuntime) -> Result<(), Fail> {
    nests(&rt, rt.alloc(), "graph")
}

#[test]
fn deep_values_are_kept_with_plain(rt: HostRuntime) -> Result<(), Fail> {
    nests(&rt, rt.alloc(), "plain")
}

#[test]
fn deep_values_are_kept_with_memo(rt: HostRuntime) -> Result<(), Fail> {
    nests(&rt, rt.alloc(), "memo")
}

#[test]
fn many_brackets_are_open(rt: HostRuntime) -> Result<(), Fail> {
    let alloc = rt.alloc();
    let front = repeated(alloc, b"atoms equality; let a = ", b"{", 64, b"")?;
    let script = repeated(alloc, &front, b"}", 64, b";")?;
    let told = asked(alloc, &["run"], &script)?;
    assert_eq!(rt; told.status, 0);
    assert_eq!(rt; told.held.as_slice(), NOTHING);
    Ok(())
}

// A comment and a blank are left out, and so is a guard that always holds.
#[test]
fn a_script_is_printed(rt: HostRuntime) -> Result<(), Fail> {
    let told = asked(
        rt.alloc(),
        &["check"],
        b"atoms equality; # one\nlet a = {x for x in atoms where true};",
    )?;
    let printed: &[u8] = b"atoms equality ;\nlet a = { x for x in atoms } ;\n";
    assert_eq!(rt; told.status, 0);
    assert_eq!(rt; told.held.as_slice(), printed);
    Ok(())
}

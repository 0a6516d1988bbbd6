//! Scripts that fail: the place, the kind, and for which choice and which elements, under each decider.

use crate::calling::{KINDS, asked, repeated};
use lois_answers::{Answer, Lines, Trace};
use lois_base::{NoMemory, Term};
use lois_reader::read_answer;
use std::alloc::Global;
use std::process::Abort;
use std::test::Fail;

// What is asked of the atoms that a failure names, those of the parameters first.
#[derive(Clone, Copy, PartialEq, Eq)]
enum Atoms {
    Any,
    // the first two are different
    Differ,
    // the first isn't below the second
    NotBelow,
}

#[derive(Clone, Copy)]
struct Row {
    script: &'static str,
    status: u8,
    // the first four lines of the trace
    front: &'static str,
    // the names of the elements
    names: &'static [&'static str],
    atoms: Atoms,
}

// The numbers of the parameters, and of the elements where all are atoms.
fn numbers_of(alloc: Global, trace: &Trace) -> Result<Option<Vec<u64>>, NoMemory> {
    let sample = trace.sample.as_slice();
    let mut numbers = Vec::new(alloc);
    for number in sample.iter().take(trace.parameters.len()) {
        numbers.push(*number)?;
    }
    for element in trace.elements.as_slice() {
        let Term::Var(level) = &element.term else {
            return Ok(None);
        };
        let Some(number) = sample.get(*level) else {
            return Ok(None);
        };
        numbers.push(*number)?;
    }
    Ok(Some(numbers))
}

fn stand_so(atoms: Atoms, numbers: &[u64]) -> bool {
    let [a, b] = numbers else {
        return atoms == Atoms::Any;
    };
    match atoms {
        Atoms::Any => true,
        Atoms::Differ => *a != *b,
        Atoms::NotBelow => *b <= *a,
    }
}

fn have_names(elements: &Lines, names: &[&str]) -> bool {
    if elements.len() != names.len() {
        return false;
    }
    for (element, name) in elements.as_slice().iter().zip(names) {
        if *element.name.bytes() != *name.as_bytes() {
            return false;
        }
    }
    true
}

// A failure's text is read again as it is.
fn is_read_again(alloc: Global, text: &[u8]) -> Result<bool, Fail> {
    let told = asked(alloc, &["reread"], text)?;
    Ok(told.status == 0 && *told.held.as_slice() == *text)
}

fn fails_under(rt: &impl Abort, alloc: Global, kind: &str, row: Row) -> Result<(), Fail> {
    let script = row.script;
    let told = asked(alloc, &["run", "--decider", kind], script.as_bytes())?;
    assert_eq!(rt; told.status, row.status, "{kind}: {script}");
    assert!(rt;
        told.held.as_slice().starts_with(row.front.as_bytes()),
        "{kind}: {script}"
    );
    assert!(rt; is_read_again(alloc, &told.held)?, "{kind}: {script}");
    let Answer::Trace(trace) = read_answer(alloc, &told.held)? else {
        panic!(rt; "no trace: {kind}: {script}");
    };
    assert!(rt; have_names(&trace.elements, row.names), "{kind}: {script}");
    let Some(numbers) = numbers_of(alloc, &trace)? else {
        panic!(rt; "not atoms: {kind}: {script}");
    };
    assert!(rt; stand_so(row.atoms, &numbers), "{kind}: {script}");
    Ok(())
}

fn all_fail(rt: &impl Abort, alloc: Global, rows: &[Row]) -> Result<(), Fail> {
    for row in rows {
        for kind in KINDS {
            fails_under(rt, alloc, kind, *row)?;
        }
    }
    Ok(())
}

#[test]
fn assertions_fail(rt: HostRuntime) -> Result<(), Fail> {
    let rows = [
        Row {
            script: "atoms equality; for x in atoms { for y in atoms { assert x = y; } }",
            status: 1,
            front: "lois results 2\natoms equality\nparameters\nfailed at 1:51: assertion failed\n",
            names: &["x", "y"],
            atoms: Atoms::Differ,
        },
        Row {
            script: "atoms order; parameter a, b; assert a < b;",
            status: 1,
            front: "lois results 2\natoms order\nparameters a b\nfailed at 1:30: assertion failed\n",
            names: &[],
            atoms: Atoms::NotBelow,
        },
    ];
    all_fail(&rt, rt.alloc(), &rows)
}

#[test]
fn values_are_of_the_wrong_kind(rt: HostRuntime) -> Result<(), Fail> {
    let rows = [
        Row {
            script: "atoms order; for x in atoms { for y in x { } }",
            status: 2,
            front: "lois results 2\natoms order\nparameters\nfailed at 1:40: not a set\n",
            names: &["x"],
            atoms: Atoms::Any,
        },
        Row {
            script: "atoms order; parameter a; assert a < 'b;",
            status: 2,
            front: "lois results 2\natoms order\nparameters a\nfailed at 1:38: not atoms\n",
            names: &[],
            atoms: Atoms::Any,
        },
        Row {
            script: "atoms equality; let p = part(('a, 'b), 3);",
            status: 2,
            front: "lois results 2\natoms equality\nparameters\nfailed at 1:30: no such part\n",
            names: &[],
            atoms: Atoms::Any,
        },
        Row {
            script: "atoms equality; let p = part({}, 1);",
            status: 2,
            front: "lois results 2\natoms equality\nparameters\nfailed at 1:30: not a tuple\n",
            names: &[],
            atoms: Atoms::Any,
        },
    ];
    all_fail(&rt, rt.alloc(), &rows)
}

// Each operation, and both operands of the one with two; some fail at some choices alone.
#[test]
fn operands_are_no_such_automata(rt: HostRuntime) -> Result<(), Fail> {
    let rows = [
        Row {
            script: "atoms equality; let a = ({'p}, {'l}, {}, {'p}, {}); let p = product({}, a);",
            status: 2,
            front: "lois results 2\natoms equality\nparameters\nfailed at 1:69: not an automaton\n",
            names: &[],
            atoms: Atoms::Any,
        },
        Row {
            script: "atoms equality; let a = ({'p}, {'l}, {}, {'p}, {}); let p = product(a, 'a);",
            status: 2,
            front: "lois results 2\natoms equality\nparameters\nfailed at 1:72: not an automaton\n",
            names: &[],
            atoms: Atoms::Any,
        },
        Row {
            script: "atoms order; if empty(({}, {}, {}, {})) { }",
            status: 2,
            front: "lois results 2\natoms order\nparameters\nfailed at 1:23: not an automaton\n",
            names: &[],
            atoms: Atoms::Any,
        },
        Row {
            script: "atoms equality; let c = complement(({'p}, {'l}, {('p, 'm, 'p)}, {'p}, {}));",
            status: 2,
            front: "lois results 2\natoms equality\nparameters\nfailed at 1:36: not an automaton\n",
            names: &[],
            atoms: Atoms::Any,
        },
        Row {
            script: "atoms equality; parameter a, b; let r = reach(({a}, {'l}, {}, {b}, {}));",
            status: 2,
            front: "lois results 2\natoms equality\nparameters a b\nfailed at 1:47: not an automaton\n",
            names: &[],
            atoms: Atoms::Differ,
        },
        Row {
            script: "atoms equality; parameter a, b; let c = complement(({a, b}, {'l}, {(a, 'l, a), (b, 'l, b)}, {a, b}, {}));",
            status: 2,
            front: "lois results 2\natoms equality\nparameters a b\nfailed at 1:52: not deterministic\n",
            names: &[],
            atoms: Atoms::Differ,
        },
        Row {
            script: "atoms equality; parameter a, b; let m = minimise(({a, b}, {'l}, {(a, 'l, a)}, {a}, {}));",
            status: 2,
            front: "lois results 2\natoms equality\nparameters a b\nfailed at 1:50: not complete\n",
            names: &[],
            atoms: Atoms::Differ,
        },
        Row {
            script: "atoms order; for x in atoms { for y in atoms { let m = minimise(({x, y}, {'l}, {(x, 'l, x)}, {x}, {})); } }",
            status: 2,
            front: "lois results 2\natoms order\nparameters\nfailed at 1:65: not complete\n",
            names: &["x", "y"],
            atoms: Atoms::Differ,
        },
        Row {
            script: "atoms equality; let r = complement(({'p}, {'l}, {}, {}, {}));",
            status: 2,
            front: "lois results 2\natoms equality\nparameters\nfailed at 1:36: not deterministic\n",
            names: &[],
            atoms: Atoms::Any,
        },
        Row {
            script: "atoms equality; let r = complement(({'p}, {'l}, {}, {'p}, {}));",
            status: 2,
            front: "lois results 2\natoms equality\nparameters\nfailed at 1:36: not complete\n",
            names: &[],
            atoms: Atoms::Any,
        },
        Row {
            script: "atoms equality; let r = reach({});",
            status: 2,
            front: "lois results 2\natoms equality\nparameters\nfailed at 1:31: not an automaton\n",
            names: &[],
            atoms: Atoms::Any,
        },
        Row {
            script: "atoms equality; let r = minimise(({'p}, {'l}, {}, {}, {}));",
            status: 2,
            front: "lois results 2\natoms equality\nparameters\nfailed at 1:34: not deterministic\n",
            names: &[],
            atoms: Atoms::Any,
        },
        Row {
            script: "atoms equality; let r = minimise(({'p}, {'l}, {}, {'p}, {}));",
            status: 2,
            front: "lois results 2\natoms equality\nparameters\nfailed at 1:34: not complete\n",
            names: &[],
            atoms: Atoms::Any,
        },
        Row {
            script: "atoms equality; let m = minimise(atoms);",
            status: 2,
            front: "lois results 2\natoms equality\nparameters\nfailed at 1:34: not an automaton\n",
            names: &[],
            atoms: Atoms::Any,
        },
    ];
    all_fail(&rt, rt.alloc(), &rows)
}

#[test]
fn turns_run_out(rt: HostRuntime) -> Result<(), Fail> {
    let rows = [
        Row {
            script: "atoms equality; while true turns 3 { }",
            status: 3,
            front: "lois results 2\natoms equality\nparameters\nfailed at 1:17: turn limit\n",
            names: &[],
            atoms: Atoms::Any,
        },
        Row {
            script: "atoms equality; let v = 'a; while v != 'd turns 2 { if v = 'a { v := 'b; } else { if v = 'b { v := 'c; } else { v := 'd; } } } print v;",
            status: 3,
            front: "lois results 2\natoms equality\nparameters\nfailed at 1:29: turn limit\n",
            names: &[],
            atoms: Atoms::Any,
        },
    ];
    all_fail(&rt, rt.alloc(), &rows)
}

// 64 sets around a set.
fn nests_too_deep(rt: &impl Abort, alloc: Global, kind: &str) -> Result<(), Fail> {
    let front = "atoms equality; let v = {}; ";
    let script = repeated(alloc, front.as_bytes(), b"v := {v}; ", 64, b"")?;
    let text: &[u8] =
        b"lois results 2\natoms equality\nparameters\nfailed at 1:664: depth limit\nchoice\nend\n";
    let told = asked(alloc, &["run", "--decider", kind], &script)?;
    assert_eq!(rt; told.status, 4);
    assert_eq!(rt; told.held.as_slice(), text);
    Ok(())
}

#[test]
fn a_value_is_too_deep_with_graph(rt: HostRuntime) -> Result<(), Fail> {
    nests_too_deep(&rt, rt.alloc(), "graph")
}

#[test]
fn a_value_is_too_deep_with_plain(rt: HostRuntime) -> Result<(), Fail> {
    nests_too_deep(&rt, rt.alloc(), "plain")
}

#[test]
fn a_value_is_too_deep_with_memo(rt: HostRuntime) -> Result<(), Fail> {
    nests_too_deep(&rt, rt.alloc(), "memo")
}

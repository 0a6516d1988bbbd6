//! Automata in scripts: what is reached, made and minimised, under each decider. The expected outputs were judged by the
//! independent reference.

use crate::calling::{KINDS, asked, repeated};
use crate::completing::{all_complete, exactly, spelled};
use std::alloc::Global;
use std::test::Fail;

/// Words whose first and last letters agree, minimised.
pub(crate) const EQUAL_ENDS: &str =
    "atoms equality; let states = union({'start}, {(x, y) for x in atoms, y in atoms}); let steps = union({('start, x, (x, x)) for x in atoms}, {((x, y), z, (x, z)) for x in atoms, y in atoms, z in atoms}); let a = (states, atoms, steps, {'start}, {(x, x) for x in atoms}); let m = minimise(a); let q = part(m, 1); assert q = union({{'start}}, union({{(x, x)} for x in atoms}, {{(x, y) for y in atoms where x != y} for x in atoms})); assert empty(product(a, complement(a))); assert not empty(a); assert reach(m) = part(m, 1); assert flatten(part(m, 1)) = states; print q;";

// Three of five orbits of states are reached, and whether a word is accepted depends on the parameters.
#[test]
fn states_are_reached(rt: HostRuntime) -> Result<(), Fail> {
    let rows = [
        exactly(
            "atoms equality; let a = ({'p, 'q}, atoms, {('p, x, 'q) for x in atoms}, {'p}, {'q}); assert not empty(a); assert reach(a) = {'p, 'q};",
            "lois results 1\natoms equality\nparameters\ncase when true\nend\n",
        ),
        spelled(
            "atoms order; let states = union({'i, 'd}, {(x, y) for x in atoms, y in atoms}); let steps = union({('i, x, (x, x)) for x in atoms}, {((x, y), z, (x, z)) for x in atoms, y in atoms, z in atoms where y < z}); let r = reach((states, atoms, steps, {'i}, {})); print r;",
            "lois results 1\natoms order\nparameters\ncase when true\nr = {'i, ($0, $0) for $0, ($0, $1) for $0 $1 if $0<$1}\nend\n",
        ),
        spelled(
            "atoms equality; parameter a, b; let m = ({a, b}, {'l}, {}, {a}, {b}); let e = {}; if empty(m) { add 'none to e; } else { add 'word to e; } print e;",
            "lois results 1\natoms equality\nparameters a b\ncase when a=b\ne = {'word}\ncase when a!=b\ne = {'none}\nend\n",
        ),
    ];
    all_complete(&rt, rt.alloc(), &rows)
}

// A product has no letters where the two have none in common.
#[test]
fn products_and_complements_are_made(rt: HostRuntime) -> Result<(), Fail> {
    let rows = [
        spelled(
            "atoms equality; let p = product(({'p}, {'l}, {('p, 'l, 'p)}, {'p}, {'p}), ({'q}, {'m}, {('q, 'm, 'q)}, {'q}, {'q})); let e = {}; if empty(p) { add 'none to e; } else { add 'word to e; } print p; print e;",
            "lois results 1\natoms equality\nparameters\ncase when true\np = ({('p, 'q)}, {}, {}, {('p, 'q)}, {('p, 'q)})\ne = {'word}\nend\n",
        ),
        spelled(
            "atoms equality; let a = ({'p, 'q}, atoms, union({('p, x, 'q) for x in atoms}, {('q, x, 'p) for x in atoms}), {'p}, {'q}); let c = complement(a); print c; assert complement(c) = a; assert empty(product(a, c)); assert not empty(product(a, complement(c)));",
            "lois results 1\natoms equality\nparameters\ncase when true\nc = ({'p, 'q}, {$0 for $0}, {('p, $0, 'q) for $0, ('q, $0, 'p) for $0}, {'p}, {'p})\nend\n",
        ),
    ];
    all_complete(&rt, rt.alloc(), &rows)
}

// Words with equal ends, queues of two and three, double words of two, the greatest atom so far; an automaton whose classes
// depend on the parameters, one that is minimal already, and one with a state that isn't reached.
#[test]
fn automata_are_minimised(rt: HostRuntime) -> Result<(), Fail> {
    let rows = [
        spelled(
            EQUAL_ENDS,
            "lois results 1\natoms equality\nparameters\ncase when true\nq = {{'start}, {($0, $0)} for $0, {($0, $1) for $1 if $0!=$1} for $0}\nend\n",
        ),
        spelled(
            "atoms equality; let states = union(union(union({'err}, {'q0}), {('q1, x0) for x0 in atoms}), {('q2, x0, x1) for x0 in atoms, x1 in atoms}); let letters = union({('in, x) for x in atoms}, {('out, x) for x in atoms}); let steps = union(union(union(union(union(union(union(union(union({('err, ('in, z), 'err) for z in atoms}, {('err, ('out, z), 'err) for z in atoms}), {('q0, ('in, x0), ('q1, x0)) for x0 in atoms}), {('q0, ('out, z), 'err) for z in atoms}), {(('q1, x0), ('in, x1), ('q2, x0, x1)) for x0 in atoms, x1 in atoms}), {(('q1, x0), ('out, x0), 'q0) for x0 in atoms}), {(('q1, x0), ('out, z), 'err) for x0 in atoms, z in atoms where z != x0}), {(('q2, x0, x1), ('in, z), 'err) for x0 in atoms, x1 in atoms, z in atoms}), {(('q2, x0, x1), ('out, x0), ('q1, x1)) for x0 in atoms, x1 in atoms}), {(('q2, x0, x1), ('out, z), 'err) for x0 in atoms, x1 in atoms, z in atoms where z != x0}); let a = (states, letters, steps, {'q0}, union(union({'q0}, {('q1, x0) for x0 in atoms}), {('q2, x0, x1) for x0 in atoms, x1 in atoms})); let m = minimise(a); let q = part(m, 1); print q;",
            "lois results 1\natoms equality\nparameters\ncase when true\nq = {{'err}, {'q0}, {('q1, $0)} for $0, {('q2, $0, $1)} for $0 $1}\nend\n",
        ),
        spelled(
            "atoms equality; let states = union(union(union(union({'err}, {'q0}), {('q1, x0) for x0 in atoms}), {('q2, x0, x1) for x0 in atoms, x1 in atoms}), {('q3, x0, x1, x2) for x0 in atoms, x1 in atoms, x2 in atoms}); let letters = union({('in, x) for x in atoms}, {('out, x) for x in atoms}); let steps = union(union(union(union(union(union(union(union(union(union(union(union({('err, ('in, z), 'err) for z in atoms}, {('err, ('out, z), 'err) for z in atoms}), {('q0, ('in, x0), ('q1, x0)) for x0 in atoms}), {('q0, ('out, z), 'err) for z in atoms}), {(('q1, x0), ('in, x1), ('q2, x0, x1)) for x0 in atoms, x1 in atoms}), {(('q1, x0), ('out, x0), 'q0) for x0 in atoms}), {(('q1, x0), ('out, z), 'err) for x0 in atoms, z in atoms where z != x0}), {(('q2, x0, x1), ('in, x2), ('q3, x0, x1, x2)) for x0 in atoms, x1 in atoms, x2 in atoms}), {(('q2, x0, x1), ('out, x0), ('q1, x1)) for x0 in atoms, x1 in atoms}), {(('q2, x0, x1), ('out, z), 'err) for x0 in atoms, x1 in atoms, z in atoms where z != x0}), {(('q3, x0, x1, x2), ('in, z), 'err) for x0 in atoms, x1 in atoms, x2 in atoms, z in atoms}), {(('q3, x0, x1, x2), ('out, x0), ('q2, x1, x2)) for x0 in atoms, x1 in atoms, x2 in atoms}), {(('q3, x0, x1, x2), ('out, z), 'err) for x0 in atoms, x1 in atoms, x2 in atoms, z in atoms where z != x0}); let a = (states, letters, steps, {'q0}, union(union(union({'q0}, {('q1, x0) for x0 in atoms}), {('q2, x0, x1) for x0 in atoms, x1 in atoms}), {('q3, x0, x1, x2) for x0 in atoms, x1 in atoms, x2 in atoms})); let m = minimise(a); let q = part(m, 1); print q;",
            "lois results 1\natoms equality\nparameters\ncase when true\nq = {{'err}, {'q0}, {('q1, $0)} for $0, {('q2, $0, $1)} for $0 $1, {('q3, $0, $1, $2)} for $0 $1 $2}\nend\n",
        ),
        spelled(
            "atoms equality; let states = union({'s0, 's4, 'err}, union({('s1, x) for x in atoms}, union({('s2, x, y) for x in atoms, y in atoms}, {('s3, x, y) for x in atoms, y in atoms}))); let steps = union({('s0, x, ('s1, x)) for x in atoms}, union({(('s1, x), y, ('s2, x, y)) for x in atoms, y in atoms}, union({(('s2, x, y), x, ('s3, x, y)) for x in atoms, y in atoms}, union({(('s2, x, y), z, 'err) for x in atoms, y in atoms, z in atoms where z != x}, union({(('s3, x, y), y, 's4) for x in atoms, y in atoms}, union({(('s3, x, y), z, 'err) for x in atoms, y in atoms, z in atoms where z != y}, union({('s4, z, 'err) for z in atoms}, {('err, z, 'err) for z in atoms}))))))); let a = (states, atoms, steps, {'s0}, {'s4}); let m = minimise(a); let q = part(m, 1); print q;",
            "lois results 1\natoms equality\nparameters\ncase when true\nq = {{'s0}, {'s4}, {'err}, {('s1, $0)} for $0, {('s2, $0, $1)} for $0 $1, {('s3, $1, $0) for $1} for $0}\nend\n",
        ),
        spelled(
            "atoms order; let states = union({'e}, {('m, x, y) for x in atoms, y in atoms where y < x or y = x}); let steps = union({('e, x, ('m, x, x)) for x in atoms}, union({(('m, x, y), z, ('m, z, z)) for x in atoms, y in atoms, z in atoms where [y < x or y = x] and x < z}, {(('m, x, y), z, ('m, x, z)) for x in atoms, y in atoms, z in atoms where [y < x or y = x] and [z < x or z = x]})); let a = (states, atoms, steps, {'e}, {('m, x, x) for x in atoms}); let m = minimise(a); let q = part(m, 1); print q;",
            "lois results 1\natoms order\nparameters\ncase when true\nq = {{'e}, {('m, $0, $0)} for $0, {('m, $0, $1) for $1 if $1<$0} for $0}\nend\n",
        ),
        spelled(
            "atoms equality; parameter a, b; let states = {'i, 'p, 'q, 'f, 'd}; let first = union({('i, a, 'p)}, {('i, x, 'q) for x in atoms where x != a}); let second = union({('p, a, 'f), ('q, b, 'f)}, union({('p, x, 'd) for x in atoms where x != a}, {('q, x, 'd) for x in atoms where x != b})); let third = union({('f, x, 'd) for x in atoms}, {('d, x, 'd) for x in atoms}); let m = minimise((states, atoms, union(first, union(second, third)), {'i}, {'f})); let q = part(m, 1); print q;",
            "lois results 1\natoms equality\nparameters a b\ncase when a=b\nq = {{'i}, {'p, 'q}, {'f}, {'d}}\ncase when a!=b\nq = {{'i}, {'p}, {'q}, {'f}, {'d}}\nend\n",
        ),
        spelled(
            "atoms equality; let a = ({'p, 'q}, atoms, union({('p, x, 'q) for x in atoms}, {('q, x, 'p) for x in atoms}), {'p}, {'q}); let m = minimise(a); print m; assert minimise(m) != m;",
            "lois results 1\natoms equality\nparameters\ncase when true\nm = ({{'p}, {'q}}, {$0 for $0}, {({'p}, $0, {'q}) for $0, ({'q}, $0, {'p}) for $0}, {{'p}}, {{'q}})\nend\n",
        ),
        spelled(
            "atoms equality; parameter a; let m = minimise(({'p, 'q, 'u}, {a}, {('p, a, 'q), ('q, a, 'p), ('u, a, 'u)}, {'p}, {'q, 'u})); print m;",
            "lois results 1\natoms equality\nparameters a\ncase when true\nm = ({{'p}, {'q}}, {a}, {({'p}, a, {'q}), ({'q}, a, {'p})}, {{'p}}, {{'q}})\nend\n",
        ),
    ];
    all_complete(&rt, rt.alloc(), &rows)
}

// An automaton as deep as a value may be, with one state, and what is asked of it.
fn deep_automaton(alloc: Global, asked_of_it: &[u8]) -> Result<Vec<u8>, Fail> {
    let front = b"atoms equality; let v = {}; ";
    let machine = b"let a = ({v}, {'l}, {(v, 'l, v)}, {v}, {v}); ";
    let mut script = repeated(alloc, front, b"v := {v}; ", 60, machine)?;
    script.extend_from_slice(asked_of_it)?;
    Ok(script)
}

// Classes and pairs of its states are deeper than a value may be.
#[test]
fn automata_are_too_deep(rt: HostRuntime) -> Result<(), Fail> {
    let alloc = rt.alloc();
    let told: &[u8] =
        b"lois results 2\natoms equality\nparameters\nfailed at 1:682: depth limit\nchoice\nend\n";
    let rows: [&[u8]; 2] = [b"let m = minimise(a);", b"let p = product(a, a);"];
    for row in rows {
        let script = deep_automaton(alloc, row)?;
        for kind in KINDS {
            let answer = asked(alloc, &["run", "--decider", kind], &script)?;
            assert_eq!(rt; answer.status, 4, "{kind}");
            assert_eq!(rt; answer.held.as_slice(), told, "{kind}");
        }
    }
    Ok(())
}

// What makes no deeper states runs.
#[test]
fn deep_automata_are_kept(rt: HostRuntime) -> Result<(), Fail> {
    let alloc = rt.alloc();
    let script = deep_automaton(
        alloc,
        b"assert reach(a) = {v}; assert complement(complement(a)) = a; assert not empty(a);",
    )?;
    let told = asked(alloc, &["run"], &script)?;
    assert_eq!(rt; told.status, 0);
    Ok(())
}

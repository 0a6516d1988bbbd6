//! Register automata that become automata over atoms.

use crate::calling::asked;
use crate::completing::{all_complete, spelled};
use crate::spelling::say_the_same;
use std::alloc::Global;
use std::process::Abort;
use std::test::Fail;

const KEEPS_A_LETTER: &str =
    "lois registers 1\natoms equality\nregisters 1\nstates p\ninitial p\nfinal p\nstep p p when true store 1\nend\n";

const KEEPS_A_LETTER_STEPS: &str =
    "lois results 1\natoms equality\nparameters\ncase when true\nautomaton = ({('p, 'none), ('p, $0) for $0}, {$0 for $0}, {(('p, 'none), $0, ('p, $0)) for $0, (('p, $0), $1, ('p, $1)) for $0 $1}, {('p, 'none)}, {('p, 'none), ('p, $0) for $0})\nend\n";

// Whether the last letter is the first one.
const LAST_IS_FIRST: &str =
    "lois registers 1\natoms equality\nregisters 1\nstates start same other\ninitial start\nfinal same\nstep start same when true store 1\nstep same same when x=r1 store none\nstep same other when x!=r1 store none\nstep other same when x=r1 store none\nstep other other when x!=r1 store none\nend\n";

const LAST_IS_FIRST_SCRIPT: &str = "atoms equality;
let states = flatten({{(s, 'none) for s in {'start, 'same, 'other}}, {(s, y) for s in {'start, 'same, 'other}, y in atoms}});
let automaton = (states, atoms, flatten({
  {(('start, 'none), x, ('same, x)) for x in atoms},
  {(('start, y), x, ('same, x)) for y in atoms, x in atoms},
  {(('same, y), y, ('same, y)) for y in atoms},
  {(('same, y), x, ('other, y)) for y in atoms, x in atoms where x != y},
  {(('other, y), y, ('same, y)) for y in atoms},
  {(('other, y), x, ('other, y)) for y in atoms, x in atoms where x != y}}),
  {('start, 'none)}, union({('same, 'none)}, {('same, y) for y in atoms}));
print automaton;";

// Two registers over an order: the second letter is greater than the first, and the third lies between.
const BETWEEN: &str =
    "lois registers 1\natoms order\nregisters 2\nstates p q r s\ninitial p\nfinal s\nstep p q when true store 1\nstep q r when r1<x store 2\nstep r s when r1<x and x<r2 store none\nend\n";

const BETWEEN_WORDS: &str = "atoms order;
let states = flatten({{(s, 'none, 'none) for s in {'p, 'q, 'r, 's}}, {(s, y, 'none) for s in {'p, 'q, 'r, 's}, y in atoms},
  {(s, 'none, z) for s in {'p, 'q, 'r, 's}, z in atoms}, {(s, y, z) for s in {'p, 'q, 'r, 's}, y in atoms, z in atoms}});
let automaton = (states, atoms, flatten({
  {(('p, 'none, 'none), x, ('q, x, 'none)) for x in atoms}, {(('p, y, 'none), x, ('q, x, 'none)) for y in atoms, x in atoms},
  {(('p, 'none, z), x, ('q, x, z)) for z in atoms, x in atoms}, {(('p, y, z), x, ('q, x, z)) for y in atoms, z in atoms, x in atoms},
  {(('q, y, 'none), x, ('r, y, x)) for y in atoms, x in atoms where y < x}, {(('q, y, z), x, ('r, y, x)) for y in atoms, z in atoms, x in atoms where y < x},
  {(('r, y, z), x, ('s, y, z)) for y in atoms, z in atoms, x in atoms where y < x and x < z}}),
  {('p, 'none, 'none)}, flatten({{('s, 'none, 'none)}, {('s, y, 'none) for y in atoms}, {('s, 'none, z) for z in atoms}, {('s, y, z) for y in atoms, z in atoms}}));
print automaton;";

// The translation of the text says what the results do.
fn becomes(rt: &impl Abort, alloc: Global, text: &str, results: &[u8]) -> Result<(), Fail> {
    let told = asked(alloc, &["registers"], text.as_bytes())?;
    assert_eq!(rt; told.status, 0, "{text}");
    assert!(rt; say_the_same(rt, alloc, &told.held, results)?, "{text}");
    Ok(())
}

#[test]
fn configurations_become_states(rt: HostRuntime) -> Result<(), Fail> {
    let alloc = rt.alloc();
    becomes(&rt, alloc, KEEPS_A_LETTER, KEEPS_A_LETTER_STEPS.as_bytes())?;
    for (text, script) in [
        (LAST_IS_FIRST, LAST_IS_FIRST_SCRIPT),
        (BETWEEN, BETWEEN_WORDS),
    ] {
        let printed = asked(alloc, &["run"], script.as_bytes())?;
        assert_eq!(rt; printed.status, 0);
        becomes(&rt, alloc, text, &printed.held)?;
    }
    Ok(())
}

#[test]
fn translated_automata_are_explored(rt: HostRuntime) -> Result<(), Fail> {
    let reached = "atoms equality;
let states = flatten({{(s, 'none) for s in {'start, 'same, 'other}}, {(s, y) for s in {'start, 'same, 'other}, y in atoms}});
let automaton = (states, atoms, flatten({
  {(('start, 'none), x, ('same, x)) for x in atoms}, {(('start, y), x, ('same, x)) for y in atoms, x in atoms},
  {(('same, y), y, ('same, y)) for y in atoms}, {(('same, y), x, ('other, y)) for y in atoms, x in atoms where x != y},
  {(('other, y), y, ('same, y)) for y in atoms}, {(('other, y), x, ('other, y)) for y in atoms, x in atoms where x != y}}),
  {('start, 'none)}, union({('same, 'none)}, {('same, y) for y in atoms}));
let r = reach(automaton);
print r;";
    let rows = [spelled(
        reached,
        "lois results 1\natoms equality\nparameters\ncase when true\nr = {('start, 'none), ('same, $0) for $0, ('other, $0) for $0}\nend\n",
    )];
    all_complete(&rt, rt.alloc(), &rows)
}

// What is changed in the text of `KEEPS_A_LETTER`, into what, and the line that is refused.
const CHANGED: [(&str, &str, u8); 19] = [
    ("lois registers 1", "lois registers 2", b'1'),
    ("equality", "Equality", b'2'),
    ("registers 1\nstates", "registers 01\nstates", b'3'),
    ("registers 1\nstates", "registers 5\nstates", b'3'),
    ("states p", "states p p", b'4'),
    ("states p", "states", b'4'),
    ("initial p", "initial  p", b'5'),
    ("final p", "final q", b'6'),
    ("final p", "final p p", b'6'),
    ("p p when", "p q when", b'7'),
    ("when true", "when x<r1", b'7'),
    ("when true", "when x=r2", b'7'),
    ("when true", "when x = r1", b'7'),
    ("when true", "when true and true", b'7'),
    ("store 1", "store 2", b'7'),
    ("store 1", "store 1 1", b'7'),
    ("store 1", "store", b'7'),
    ("end\n", "", b'8'),
    ("end\n", "end\n\n", b'8'),
];

// The text with the piece replaced where it first stands.
fn replaced(alloc: Global, text: &str, from: &str, to: &str) -> Result<Vec<u8>, Fail> {
    let (front, back) = text.split_once(from).ok_or("the piece isn't there")?;
    let mut changed = front.as_bytes().to_vec(alloc)?;
    changed.extend_from_slice(to.as_bytes())?;
    changed.extend_from_slice(back.as_bytes())?;
    Ok(changed)
}

#[test]
fn the_line_at_fault_is_named(rt: HostRuntime) -> Result<(), Fail> {
    let alloc = rt.alloc();
    for (from, to, line) in CHANGED {
        let text = replaced(alloc, KEEPS_A_LETTER, from, to)?;
        let told = asked(alloc, &["registers"], &text)?;
        assert_eq!(rt; told.status, 5, "{to}");
        let mut refusal = b"refused at ".to_vec(alloc)?;
        refusal.push(line)?;
        refusal.extend_from_slice(b":1: not a register automaton\n")?;
        assert!(rt; told.held == refusal, "{to}");
    }
    Ok(())
}

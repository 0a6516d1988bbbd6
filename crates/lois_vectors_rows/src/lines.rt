//! Lines of results that are compared, and sets whose orbits are listed.

use crate::automata::EQUAL_ENDS;
use crate::calling::{Told, USAGE, asked, called};
use std::alloc::Global;
use std::process::Abort;
use std::test::Fail;

// A script, words about its results, the status and the text that they come to.
type Row = (&'static str, &'static [&'static str], u8, &'static str);

// The second automaton takes at most one letter.
const EVERY_WORD: &str =
    "atoms equality; let a = ({'p}, atoms, {('p, x, 'p) for x in atoms}, {'p}, {'p}); let b = ({'p, 'q}, atoms, {('p, x, 'q) for x in atoms}, {'p}, {'p, 'q}); print a; print b;";

// The first one takes all atoms but one.
const ALL_BUT_ONE: &str =
    "atoms equality; parameter p; let a = ({'s}, atoms, {('s, x, 's) for x in atoms where x != p}, {'s}, {'s}); let b = ({'s}, atoms, {('s, x, 's) for x in atoms}, {'s}, {'s}); print a; print b;";

const ONE_LINE_TWICE: &str =
    "atoms equality; let a = 'x; let b = ({'s}, {}, {}, {'s}, {'s}); print a; print b; a := b; print a;";

const LINES_BY_CASES: &str =
    "atoms equality; parameter p, q; let a = ({'s}, {}, {}, {'s}, {'s}); let b = ({'s}, {}, {}, {'s}, {}); if p = q { print a; print a; } else { print a; print b; }";

const TWO_STARTS_IN_A_CASE: &str =
    "atoms order; parameter p, q; let a = ({'s}, {}, {}, {'s}, {'s}); let b = ({'s, 't}, {}, {}, {'s, 't}, {}); if p < q { b := ({'s}, {}, {}, {'s}, {}); } print a; print b;";

const COMPARED: [Row; 11] = [
    (EVERY_WORD, &["equal", "a", "a"], 0, "equal\n"),
    (
        EVERY_WORD,
        &["equal", "a", "c"],
        5,
        "refused: no line c in case 1\n",
    ),
    (
        EVERY_WORD,
        &["equal", "d", "c"],
        5,
        "refused: no line d in case 1\n",
    ),
    (
        "atoms equality; let a = atoms; print a;",
        &["equal", "a", "a"],
        5,
        "refused: a in case 1 is no deterministic automaton\n",
    ),
    (ONE_LINE_TWICE, &["equal", "a", "b"], 0, "equal\n"),
    (
        LINES_BY_CASES,
        &["equal", "a", "b"],
        5,
        "refused: no line b in case 1\n",
    ),
    (
        LINES_BY_CASES,
        &["equal", "b", "a"],
        5,
        "refused: no line b in case 1\n",
    ),
    // all cases are looked at before one is compared
    (
        TWO_STARTS_IN_A_CASE,
        &["equal", "a", "b"],
        5,
        "refused: b in case 2 is no deterministic automaton\n",
    ),
    // the empty word has no letters
    (
        "atoms order; let a = ({'s}, {}, {}, {'s}, {'s}); let b = ({'s}, {}, {}, {'s}, {}); print a; print b;",
        &["equal", "a", "b"],
        10,
        "differ in case 1\nchoice\naccepted by a\n",
    ),
    (
        "atoms order; let a = ({'s}, {}, {}, {'s}, {'s}); let b = ({'s}, {}, {}, {'s}, {}); print a; print b;",
        &["equal", "b", "a"],
        10,
        "differ in case 1\nchoice\naccepted by a\n",
    ),
    (
        "atoms equality; let a = ({'s, 't}, {'x}, {('s, 'x, 't)}, {'s}, {'t}); let b = ({'s}, {'y}, {}, {'s}, {}); print a; print b;",
        &["equal", "a", "b"],
        10,
        "differ in case 1\nchoice\nletter 'x\naccepted by a\n",
    ),
];

const LISTED: [Row; 8] = [
    (
        "atoms equality; let e = {}; print e;",
        &["census", "e"],
        0,
        "case 1\norbits 0\n",
    ),
    (
        "atoms equality; let s = {'p, ('q, 'r), 'p}; print s;",
        &["census", "s"],
        0,
        "case 1\norbits 2\norbit 'p\nchoice\norbit ('q, 'r)\nchoice\n",
    ),
    (
        "atoms order; parameter a, b; let i = {x for x in atoms where a < x and x < b}; print i;",
        &["census", "i"],
        5,
        "refused: census of results with parameters\n",
    ),
    (
        "atoms order; parameter a; let i = 'x; print i;",
        &["census", "j"],
        5,
        "refused: census of results with parameters\n",
    ),
    (
        "atoms equality; let v = 'a; print v;",
        &["census", "v"],
        5,
        "refused: v in case 1 is no set\n",
    ),
    (
        "atoms equality; let v = 'a; print v;",
        &["census", "w"],
        5,
        "refused: no line w in case 1\n",
    ),
    (
        "atoms equality; let v = 'a; print v; v := {}; print v;",
        &["census", "v"],
        0,
        "case 1\norbits 0\n",
    ),
    (
        "atoms equality; let v = {}; print v; v := 'a; print v;",
        &["census", "v"],
        5,
        "refused: v in case 1 is no set\n",
    ),
];

// What the words come to, of the script's results.
fn asked_of(rt: &impl Abort, alloc: Global, script: &str, words: &[&str]) -> Result<Told, Fail> {
    let results = asked(alloc, &["run"], script.as_bytes())?;
    assert_eq!(rt; results.status, 0, "{script}");
    asked(alloc, words, &results.held)
}

fn all_come_to(rt: &impl Abort, alloc: Global, rows: &[Row]) -> Result<(), Fail> {
    for (script, words, status, text) in rows {
        let told = asked_of(rt, alloc, script, words)?;
        assert_eq!(rt; told.status, *status, "{script}");
        assert!(rt; *told.held == *text.as_bytes(), "{script}");
    }
    Ok(())
}

#[test]
fn lines_are_compared(rt: HostRuntime) -> Result<(), Fail> {
    all_come_to(&rt, rt.alloc(), &COMPARED)
}

#[test]
fn orbits_are_listed(rt: HostRuntime) -> Result<(), Fail> {
    all_come_to(&rt, rt.alloc(), &LISTED)
}

// How often the piece stands in the bytes.
fn times(bytes: &[u8], piece: &[u8]) -> usize {
    let mut count: usize = 0;
    for start in 0..bytes.len() {
        if bytes[start..].starts_with(piece) {
            count = count.saturating_add(1);
        }
    }
    count
}

// A script, the words, the lines that come first and last, and how many letters or orbits there are: which ones is left open.
type Shape = (
    &'static str,
    &'static [&'static str],
    u8,
    &'static str,
    &'static str,
    &'static str,
    usize,
);

const SHAPES: [Shape; 8] = [
    (
        EVERY_WORD,
        &["equal", "a", "b"],
        10,
        "differ in case 1\nchoice ",
        "\naccepted by a\n",
        "\nletter ",
        2,
    ),
    (
        EVERY_WORD,
        &["equal", "b", "a"],
        10,
        "differ in case 1\nchoice ",
        "\naccepted by a\n",
        "\nletter ",
        2,
    ),
    (
        ALL_BUT_ONE,
        &["equal", "a", "b"],
        10,
        "differ in case 1\nchoice ",
        "\naccepted by b\n",
        "\nletter ",
        1,
    ),
    (
        "atoms equality; let s = {(x, y) for x in atoms, y in atoms where x != y}; print s;",
        &["census", "s"],
        0,
        "case 1\norbits 1\norbit (",
        "\n",
        "\nchoice ",
        1,
    ),
    (
        "atoms order; let s = {(x, y) for x in atoms, y in atoms}; print s;",
        &["census", "s"],
        0,
        "case 1\norbits 3\norbit (",
        "\n",
        "\nchoice ",
        3,
    ),
    (
        "atoms order; let s = {{y for y in atoms where x < y} for x in atoms}; print s;",
        &["census", "s"],
        0,
        "case 1\norbits 1\norbit {",
        "\n",
        "\nchoice ",
        1,
    ),
    // one orbit is in both pieces
    (
        "atoms equality; let s = union({(x, y) for x in atoms, y in atoms}, {(x, x) for x in atoms}); print s;",
        &["census", "s"],
        0,
        "case 1\norbits 2\norbit (",
        "\n",
        "\nchoice ",
        2,
    ),
    // the classes of the states of a minimal automaton
    (
        EQUAL_ENDS,
        &["census", "q"],
        0,
        "case 1\norbits 3\norbit {",
        "\n",
        "\nchoice",
        3,
    ),
];

#[test]
fn words_and_members_are_counted(rt: HostRuntime) -> Result<(), Fail> {
    for (script, words, status, first, last, piece, count) in SHAPES {
        let told = asked_of(&rt, rt.alloc(), script, words)?;
        assert_eq!(rt; told.status, status, "{script}");
        assert!(rt; told.held.starts_with(first.as_bytes()), "{script}");
        assert!(rt; told.held.ends_with(last.as_bytes()), "{script}");
        assert_eq!(rt; times(&told.held, piece.as_bytes()), count, "{script}");
    }
    Ok(())
}

const LONG_NAME: &str = "a23456789012345678901234567890123456789012345678901234567890123456";

const NO_COMMANDS: [&[&str]; 16] = [
    &["equal"],
    &["equal", "a"],
    &["equal", "a", "b", "c"],
    &["equal", "a", "for"],
    &["equal", "1", "b"],
    &["equal", LONG_NAME, "b"],
    &["equal", "a", "b", "--decider", "plain"],
    &["equal", "--decider=graph", "a", "b"],
    &["census"],
    &["census", "a", "b"],
    &["census", "end"],
    &["census", "a-b"],
    &["census", "a", "--decider=memo"],
    &["registers", "a"],
    &["registers", "--decider", "plain"],
    &["Registers"],
];

#[test]
fn other_words_are_usage(rt: HostRuntime) -> Result<(), Fail> {
    for words in NO_COMMANDS {
        let told = asked(rt.alloc(), words, b"")?;
        assert_eq!(rt; told.status, 9, "{words:?}");
        assert!(rt; *told.held == *USAGE, "{words:?}");
    }
    Ok(())
}

// The results of `EVERY_WORD`'s kind have to be read; a trace is none. Without a decider the two commands are usage.
const UNREAD: [(&[&str], &[u8], &[u8]); 4] = [
    (
        &["equal", "a", "b"],
        b"lois results 2\n",
        b"refused at 1:14: not results\n",
    ),
    (
        &["census", "a"],
        b"lois results 2\n",
        b"refused at 1:14: not results\n",
    ),
    (&["equal", "a", "b"], b"", b"refused at 1:1: not results\n"),
    (
        &["registers"],
        b"",
        b"refused at 1:1: not a register automaton\n",
    ),
];

#[test]
fn other_texts_are_refused(rt: HostRuntime) -> Result<(), Fail> {
    for (words, text, refusal) in UNREAD {
        let told = asked(rt.alloc(), words, text)?;
        assert_eq!(rt; told.status, 5);
        assert!(rt; *told.held == *refusal);
    }
    Ok(())
}

#[test]
fn deciders_are_wanted(rt: HostRuntime) -> Result<(), Fail> {
    let alloc = rt.alloc();
    let equal = called(alloc, &["equal", "a", "b"], b"", &[], Vec::new(alloc))?;
    assert_eq!(rt; equal.status, 9);
    let census = called(alloc, &["census", "a"], b"", &[], Vec::new(alloc))?;
    assert_eq!(rt; census.status, 9);
    let registers = called(alloc, &["registers"], b"", &[], Vec::new(alloc))?;
    assert_eq!(rt; registers.status, 5);
    Ok(())
}

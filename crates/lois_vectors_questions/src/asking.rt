//! Calls of `lois_ask` over memory: the words, the text, and what the sink holds.

use lois_base::{Decider, NoMemory};
use lois_deciders::GraphDecider;
use lois_outside::{MemorySink, MemorySource};
use lois_questions::lois_ask;
use std::alloc::{AllocError, Global};
use std::test::Fail;

// `a` takes any word, `d` the empty one alone; `s` is no automaton.
const TEXT: &str =
    "lois results 1\natoms equality\nparameters\ncase when true\na = ({'p}, {$0 for $0}, {('p, $0, 'p) for $0}, {'p}, {'p})\nd = ({'p}, {}, {}, {'p}, {'p})\ne = ({'p}, {}, {}, {'p}, {})\ns = {'p}\nend\n";

// The words, the status and the text that is written.
type AskingRow = (&'static [&'static str], u8, &'static str);

const ROWS: [AskingRow; 11] = [
    (&["word", "a"], 0, "accepted in case 1\nchoice\n"),
    (&["word", "e"], 10, "none\n"),
    (&["within", "d", "a"], 0, "within\n"),
    (
        &["within", "d", "e"],
        10,
        "differ in case 1\nchoice\naccepted by d\n",
    ),
    (&["word", "x"], 5, "refused: no line x in case 1\n"),
    (&["word", "s"], 5, "refused: s in case 1 is no automaton\n"),
    (
        &["within", "a", "s"],
        5,
        "refused: s in case 1 is no deterministic automaton\n",
    ),
    (
        &["picture", "d"],
        0,
        "digraph {\n  n1 [label=\"'p\", style=bold, peripheries=2]\n}\n",
    ),
    (
        &["picture", "s"],
        5,
        "refused: s in case 1 is no automaton and no set of pairs\n",
    ),
    (
        &["within", "a"],
        9,
        "usage: lois_ask word A|within A B|same|picture A\n",
    ),
    (
        &["--help"],
        9,
        "usage: lois_ask word A|within A B|same|picture A\n",
    ),
];

// Two results, one behind the other, the status, and how the text begins and ends: numbers between are free.
type ComparingRow = (&'static str, &'static str, u8, &'static str, &'static str);

const CASES: &str =
    "lois results 1\natoms equality\nparameters a b\ncase when a=b\ns = {a}\ncase when a!=b\ns = {a, b}\nend\n";

const ONE_CASE: &str =
    "lois results 1\natoms equality\nparameters a b\ncase when true\ns = {b, a}\nend\n";

const HALF: &str = "lois results 1\natoms equality\nparameters a b\ncase when a=b\ns = {a}\nend\n";

const BOTH: &str =
    "lois results 1\natoms equality\nparameters\ncase when true\ncase when true\nend\n";

const ALL_PAIRS: &str =
    "lois results 1\natoms equality\nparameters\ncase when true\ns = {($0, $1) for $0 $1}\nend\n";

const PAIRS_APART: &str =
    "lois results 1\natoms equality\nparameters\ncase when true\ns = {($0, $1) for $0 $1 if $0!=$1}\nend\n";

const TWO_LINES: &str =
    "lois results 1\natoms equality\nparameters\ncase when true\ns = {($0, $1) for $0 $1}\nt = 'x\nend\n";

const ORDERED: &str =
    "lois results 1\natoms order\nparameters\ncase when true\ns = {($0, $1) for $0 $1}\nend\n";

const OTHER_VALUE: &str =
    "lois results 1\natoms equality\nparameters\ncase when true\ns = 'x\nend\n";

const OTHER_NAME: &str =
    "lois results 1\natoms equality\nparameters\ncase when true\nt = {($0, $1) for $0 $1}\nend\n";

const COMPARED: [ComparingRow; 12] = [
    (CASES, ONE_CASE, 0, "same\n", "same\n"),
    (CASES, CASES, 0, "same\n", "same\n"),
    (
        ALL_PAIRS,
        PAIRS_APART,
        10,
        "differ in cases 1 and 1\nchoice ",
        "\nline 1: s\nmember ($0, $1)\nof the first\n",
    ),
    (
        PAIRS_APART,
        ALL_PAIRS,
        10,
        "differ in cases 1 and 1\nchoice ",
        "\nline 1: s\nmember ($0, $1)\nof the second\n",
    ),
    (
        TWO_LINES,
        ALL_PAIRS,
        10,
        "differ in cases 1 and 1\nchoice\nlines 2 and 1\n",
        "differ in cases 1 and 1\nchoice\nlines 2 and 1\n",
    ),
    (
        ALL_PAIRS,
        OTHER_NAME,
        10,
        "differ in cases 1 and 1\nchoice\nline 1: s and t\n",
        "differ in cases 1 and 1\nchoice\nline 1: s and t\n",
    ),
    (
        ALL_PAIRS,
        OTHER_VALUE,
        10,
        "differ in cases 1 and 1\nchoice\nline 1: s\n",
        "differ in cases 1 and 1\nchoice\nline 1: s\n",
    ),
    (
        ALL_PAIRS,
        ORDERED,
        10,
        "differ in structure\n",
        "differ in structure\n",
    ),
    (
        CASES,
        ALL_PAIRS,
        10,
        "differ in parameters\n",
        "differ in parameters\n",
    ),
    (
        HALF,
        CASES,
        5,
        "refused: no case at choice ",
        " of the first\n",
    ),
    (
        ALL_PAIRS,
        BOTH,
        5,
        "refused: cases 1 and 2 at choice of the second\n",
        "refused: cases 1 and 2 at choice of the second\n",
    ),
    (
        CASES,
        "",
        5,
        "refused at 1:1 of the second: not results\n",
        "refused at 1:1 of the second: not results\n",
    ),
];

const NO_TEXT: AskingRow = (&["word", "a"], 5, "refused at 1:1: not results\n");

// The first call of the source fails.
const FAULT: AskingRow = (&["word", "a"], 6, "");

fn words_of(alloc: Global, words: &[&str]) -> Result<Vec<String>, AllocError> {
    let mut owned = Vec::new(alloc);
    for word in words {
        owned.push(String::from_str(alloc, word)?)?;
    }
    Ok(owned)
}

fn deciders(alloc: Global) -> Result<Vec<Box<dyn Decider>>, NoMemory> {
    let graph: Box<dyn Decider> = Box::new(alloc, GraphDecider::new())?;
    let mut deciders = Vec::new(alloc);
    deciders.push(graph)?;
    Ok(deciders)
}

// One call, of whose source the calls that are named fail.
fn comes_to(alloc: Global, row: AskingRow, text: &[u8], failing: &[u64]) -> Result<bool, Fail> {
    let words = words_of(alloc, row.0)?;
    let mut source = MemorySource::new(text.to_vec(alloc)?, 4096, failing.to_vec(alloc)?);
    let mut sink = MemorySink::new(alloc, 4096, 4096, Vec::new(alloc))?;
    let status = lois_ask(alloc, &words, &mut source, &mut sink, deciders(alloc)?);
    Ok(status == row.1 && *sink.held() == *row.2.as_bytes())
}

fn is_compared(alloc: Global, row: ComparingRow) -> Result<bool, Fail> {
    let mut text = Vec::new(alloc);
    text.extend_from_slice(row.0.as_bytes())?;
    text.extend_from_slice(row.1.as_bytes())?;
    let words = words_of(alloc, &["same"])?;
    let mut source = MemorySource::new(text, 4096, Vec::new(alloc));
    let mut sink = MemorySink::new(alloc, 4096, 4096, Vec::new(alloc))?;
    let status = lois_ask(alloc, &words, &mut source, &mut sink, deciders(alloc)?);
    let told = sink.held();
    Ok(status == row.2 && told.starts_with(row.3.as_bytes()) && told.ends_with(row.4.as_bytes()))
}

#[test]
fn two_results_are_compared(rt: HostRuntime) -> Result<(), Fail> {
    let alloc = rt.alloc();
    for row in COMPARED {
        let told = is_compared(alloc, row)?;
        assert!(rt; told, "{}{}", row.0, row.1);
    }
    Ok(())
}

#[test]
fn questions_are_answered(rt: HostRuntime) -> Result<(), Fail> {
    let alloc = rt.alloc();
    for row in ROWS {
        let told = comes_to(alloc, row, TEXT.as_bytes(), &[])?;
        assert!(rt; told, "{}", row.2);
    }
    let empty = comes_to(alloc, NO_TEXT, b"", &[])?;
    assert!(rt; empty);
    let unread = comes_to(alloc, FAULT, TEXT.as_bytes(), &[0])?;
    assert!(rt; unread);
    Ok(())
}

//! Words that lines of results accept: worked rows, from a results text to the text of the answer or to the fault.

ghost use Rattle.std.specs.Prelude.{length, IfOk};
ghost use Rattle.std.specs.List.{All};
ghost use Rattle.lois_base.specs.Fits.{Fits};
ghost use Rattle.lois_answers.specs.Sound.{IsSound};
ghost use Rattle.lois_languages.specs.Inclusions.{IfBeyond, IsInclusion};
ghost use Rattle.lois_languages.specs.Witnesses.{IfFound, IsWitness};

use lois_answers::Results;
use lois_base::{Decider, Name, NoMemory, is_name};
use lois_deciders::{Chosen, GraphDecider};
use lois_equal::print_difference;
use lois_equality::EqualityAtoms;
use lois_languages::{Inclusion, LineFault, Witness, inclusion_of, print_word, word_of};
use lois_order::OrderAtoms;
use lois_reader::read_results;
use std::alloc::Global;
use std::process::Abort;
use std::test::Fail;

// What is to be found.
#[derive(Clone, Copy)]
enum Expected {
    // no word
    Nothing,
    Text(&'static str),
    // how the text begins and ends, and how many letters there are: which ones, and at which choice, is left open
    Shape(&'static str, &'static str, usize),
    NoLine(&'static str, usize),
    NotAutomaton(&'static str, usize),
    NotDeterministic(&'static str, usize),
}

use Expected::{NoLine, NotAutomaton, NotDeterministic, Nothing, Shape, Text};

// `a` takes any word, `b` at most one letter and `c` exactly one, `d` the empty word, over no letters; `n` is as `c`, with two
// initial states.
const MANY: &str =
    "lois results 1\natoms equality\nparameters\ncase when true\na = ({'p}, {$0 for $0}, {('p, $0, 'p) for $0}, {'p}, {'p})\nb = ({'p, 'q}, {$0 for $0}, {('p, $0, 'q) for $0}, {'p}, {'p, 'q})\nc = ({'p, 'q}, {$0 for $0}, {('p, $0, 'q) for $0}, {'p}, {'q})\nd = ({'p}, {}, {}, {}, {'p})\nn = ({'p, 'q}, {$0 for $0}, {('p, $0, 'q) for $0}, {'p, 'q}, {'q})\ns = {'p}\nend\n";

// In the second case one letter between the parameters is taken.
const BETWEEN: &str =
    "lois results 1\natoms order\nparameters a b\ncase when a=b or b<a\nm = ({'p}, {}, {}, {'p}, {})\ncase when a<b\nm = ({'p, 'q}, {$2 for $2 if a<$2 and $2<b}, {('p, $2, 'q) for $2 if a<$2 and $2<b}, {'p}, {'q})\nend\n";

// The first case admits no choice, and its line is no automaton.
const NEVER: &str =
    "lois results 1\natoms equality\nparameters\ncase when false\nm = 'x\ncase when true\nm = ({'p, 'q}, {$0 for $0}, {('p, $0, 'q) for $0}, {'p}, {'q})\nend\n";

const NO_CASES: &str = "lois results 1\natoms equality\nparameters\nend\n";

// The last line of a name counts.
const TWICE: &str =
    "lois results 1\natoms equality\nparameters\ncase when true\nm = {'p}\nm = ({'p}, {$0 for $0}, {('p, $0, 'p) for $0}, {'p}, {'p})\nend\n";

// Each atom is an initial and a final state.
const MANY_STARTS: &str =
    "lois results 1\natoms equality\nparameters\ncase when true\nm = ({$0 for $0}, {'l}, {}, {$0 for $0}, {$0 for $0})\nend\n";

// `a` takes all letters but the parameter, `b` all.
const ALL_BUT_ONE: &str =
    "lois results 1\natoms equality\nparameters p\ncase when true\na = ({'s}, {$1 for $1 if p!=$1}, {('s, $1, 's) for $1 if p!=$1}, {'s}, {'s})\nb = ({'s}, {$1 for $1}, {('s, $1, 's) for $1}, {'s}, {'s})\nend\n";

// A results text, a name, and what `word_of` finds.
type WordRow = (&'static str, &'static str, Expected);

const WORDS: [WordRow; 11] = [
    (MANY, "a", Text("accepted in case 1\nchoice\n")),
    (
        MANY,
        "c",
        Shape("accepted in case 1\nchoice 0\n", "letter $0\n", 1),
    ),
    (MANY, "d", Nothing),
    (MANY, "n", Text("accepted in case 1\nchoice\n")),
    (MANY, "e", NoLine("e", 1)),
    (MANY, "s", NotAutomaton("s", 1)),
    (
        BETWEEN,
        "m",
        Shape("accepted in case 2\nchoice ", "letter $2\n", 1),
    ),
    (
        NEVER,
        "m",
        Shape("accepted in case 2\nchoice 0\n", "letter $0\n", 1),
    ),
    (NO_CASES, "m", Nothing),
    (TWICE, "m", Text("accepted in case 1\nchoice\n")),
    (MANY_STARTS, "m", Text("accepted in case 1\nchoice\n")),
];

// A results text, two names, and what `inclusion_of` finds.
type InclusionRow = (&'static str, &'static str, &'static str, Expected);

const INCLUSIONS: [InclusionRow; 11] = [
    (MANY, "b", "a", Nothing),
    (MANY, "n", "b", Nothing),
    (MANY, "d", "b", Nothing),
    (
        MANY,
        "a",
        "b",
        Shape("differ in case 1\nchoice ", "\naccepted by a\n", 2),
    ),
    (
        MANY,
        "a",
        "c",
        Text("differ in case 1\nchoice\naccepted by a\n"),
    ),
    (MANY, "b", "n", NotDeterministic("n", 1)),
    (MANY, "s", "a", NotAutomaton("s", 1)),
    (MANY, "x", "y", NoLine("x", 1)),
    (MANY, "a", "y", NoLine("y", 1)),
    (ALL_BUT_ONE, "a", "b", Nothing),
    (
        ALL_BUT_ONE,
        "b",
        "a",
        Shape("differ in case 1\nchoice ", "\naccepted by b\n", 1),
    ),
];

fn chosen(alloc: Global) -> Result<Chosen, Fail> {
    let graph: Box<dyn Decider> = Box::new(alloc, GraphDecider::new())?;
    let mut deciders = Vec::new(alloc);
    deciders.push(graph)?;
    Ok(Chosen::choose(deciders, None).ok_or("no decider")?)
}

fn name_of(rt: &impl Abort, alloc: Global, word: &str) -> Result<Name, NoMemory> {
    assert!(rt; is_name(word.as_bytes()));
    Name::from_bytes(alloc, word.as_bytes())
}

fn is_expected_fault(fault: &LineFault, expected: Expected) -> bool {
    match (fault, expected) {
        (LineFault::NoLine(name, number), NoLine(word, case)) => {
            *name.bytes() == *word.as_bytes() && *number == case
        }
        (LineFault::NotAutomaton(name, number), NotAutomaton(word, case)) => {
            *name.bytes() == *word.as_bytes() && *number == case
        }
        (LineFault::NotDeterministic(name, number), NotDeterministic(word, case)) => {
            *name.bytes() == *word.as_bytes() && *number == case
        }
        _ => false,
    }
}

// How many lines begin so.
fn lines_that_begin(text: &[u8], piece: &[u8]) -> usize {
    let mut count: usize = 0;
    for start in 0..text.len() {
        if text[start..].starts_with(piece) && (start == 0 || text[start - 1] == b'\n') {
            count = count.saturating_add(1);
        }
    }
    count
}

fn is_expected_text(text: &[u8], expected: Expected) -> bool {
    match expected {
        Text(whole) => *text == *whole.as_bytes(),
        Shape(front, back, letters) => {
            text.starts_with(front.as_bytes())
                && text.ends_with(back.as_bytes())
                && lines_that_begin(text, b"letter ") == letters
        }
        _ => false,
    }
}

// Over atoms of the results' structure.
fn witness_of(
    alloc: Global,
    results: &Results,
    name: &Name,
    chosen: &mut Chosen,
) -> Result<Witness, NoMemory>
    requires { IsSound results.now }
    ensures { IfOk result (IsWitness (length results.now.parameters) name.now results.now.cases) }
{
    if results.order {
        word_of::<OrderAtoms>(alloc, results, name, chosen)
    } else {
        word_of::<EqualityAtoms>(alloc, results, name, chosen)
    }
}

fn inclusion_in(
    alloc: Global,
    results: &Results,
    first: &Name,
    second: &Name,
    chosen: &mut Chosen,
) -> Result<Inclusion, NoMemory>
    requires { IsSound results.now }
    ensures { IfOk result (IsInclusion (length results.now.parameters) first.now second.now results.now.cases) }
{
    if results.order {
        inclusion_of::<OrderAtoms>(alloc, results, first, second, chosen)
    } else {
        inclusion_of::<EqualityAtoms>(alloc, results, first, second, chosen)
    }
}

fn word_comes_to(
    rt: &impl Abort,
    alloc: Global,
    text: &str,
    word: &str,
    expected: Expected,
) -> Result<bool, Fail> {
    let results = read_results(alloc, text.as_bytes())?;
    let name = name_of(rt, alloc, word)?;
    let mut chosen = chosen(alloc)?;
    match witness_of(alloc, &results, &name, &mut chosen)? {
        Witness::Nothing => Ok(matches!(expected, Nothing)),
        Witness::Found(number, word) => {
            let text = print_word(alloc, &results.parameters, number, &word)?;
            Ok(is_expected_text(&text, expected))
        }
        Witness::Refused(fault) => Ok(is_expected_fault(&fault, expected)),
    }
}

fn inclusion_comes_to(
    rt: &impl Abort,
    alloc: Global,
    text: &str,
    words: (&str, &str),
    expected: Expected,
) -> Result<bool, Fail> {
    let results = read_results(alloc, text.as_bytes())?;
    let first = name_of(rt, alloc, words.0)?;
    let second = name_of(rt, alloc, words.1)?;
    let mut chosen = chosen(alloc)?;
    match inclusion_in(alloc, &results, &first, &second, &mut chosen)? {
        Inclusion::Within => Ok(matches!(expected, Nothing)),
        Inclusion::Beyond(number, difference, name) => {
            let text = print_difference(alloc, &results.parameters, number, &difference, &name)?;
            Ok(is_expected_text(&text, expected))
        }
        Inclusion::Refused(fault) => Ok(is_expected_fault(&fault, expected)),
    }
}

#[test]
fn shortest_words_are_found(rt: HostRuntime) -> Result<(), Fail> {
    for (text, word, expected) in WORDS {
        let found = word_comes_to(&rt, rt.alloc(), text, word, expected)?;
        assert!(rt; found, "{word} of {text}");
    }
    Ok(())
}

#[test]
fn languages_are_compared(rt: HostRuntime) -> Result<(), Fail> {
    for (text, first, second, expected) in INCLUSIONS {
        let found = inclusion_comes_to(&rt, rt.alloc(), text, (first, second), expected)?;
        assert!(rt; found, "{first} within {second} of {text}");
    }
    Ok(())
}

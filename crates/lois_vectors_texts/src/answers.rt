//! Results and traces, each call once with ample memory, and which of them have a text.

use crate::making::{guard, lines, lit, name, names, numbers, set};
use lois_answers::{Case, Cases, FaultKind, Lines, Results, Trace, is_sound_term, tags_are_names};
use lois_base::Op::{AtMost, Eq, Lt, Ne};
use lois_base::{Comps, NoMemory, Op, Term, Terms};
use std::alloc::Global;
use std::process::Abort;
use std::test::Fail;

fn tuple(alloc: Global, levels: &[usize]) -> Result<Term, NoMemory> {
    let mut parts = Terms::new(alloc);
    for level in levels {
        parts.push(Term::Var(*level))?;
    }
    Ok(Term::Tup(parts))
}

// `($0, .., $0)` with so many parts
fn wide(alloc: Global, width: usize) -> Result<Term, NoMemory> {
    let mut parts = Terms::new(alloc);
    for _ in 0..width {
        parts.push(Term::Var(0))?;
    }
    Ok(Term::Tup(parts))
}

// `{($0, $1) for $0 $1 if $0 .. $1}`
fn pairs(alloc: Global, op: Op) -> Result<Term, NoMemory> {
    set(alloc, 2, &[lit(op, 0, 1)], tuple(alloc, &[0, 1])?)
}

fn empty(alloc: Global) -> Term {
    Term::Coll(Comps::new(alloc))
}

// `{{ .. {} .. }}`, with so many brackets open at the innermost place
fn nested(alloc: Global, brackets: usize) -> Result<Term, NoMemory> {
    let mut term = empty(alloc);
    for _ in 1..brackets {
        term = set(alloc, 0, &[], term)?;
    }
    Ok(term)
}

// what a line holds
#[derive(Clone, Copy, Debug)]
enum Value {
    Tag,
    Level(usize),
    // so many parts
    Tuple(usize),
    // so many brackets
    Nested(usize),
    Atoms,
    // the atoms between two levels
    Interval,
    // pairs of atoms that stand so to one another
    Pairs(Op),
    // all atoms, where the first is that at a level
    Equal(usize),
}

fn value_of(rt: &impl Abort, alloc: Global, value: Value) -> Result<Term, NoMemory> {
    match value {
        Value::Tag => Ok(Term::Tag(name(rt, alloc, b"end")?)),
        Value::Level(level) => Ok(Term::Var(level)),
        Value::Tuple(width) => wide(alloc, width),
        Value::Nested(brackets) => nested(alloc, brackets),
        Value::Atoms => set(alloc, 1, &[], Term::Var(0)),
        Value::Interval => set(alloc, 1, &[lit(Lt, 0, 2), lit(Lt, 2, 1)], Term::Var(2)),
        Value::Pairs(op) => pairs(alloc, op),
        Value::Equal(level) => set(alloc, 1, &[lit(Eq, 0, level)], Term::Var(0)),
    }
}

// results with one case, which has one line
fn results(
    rt: &impl Abort,
    alloc: Global,
    order: bool,
    parameters: &[&[u8]],
    case: Case,
) -> Result<Results, NoMemory> {
    let mut cases = Cases::new(alloc);
    cases.push(case)?;
    Ok(Results {
        order,
        parameters: names(rt, alloc, parameters)?,
        cases,
    })
}

// the case that always holds
fn always(rt: &impl Abort, alloc: Global, word: &[u8], term: Term) -> Result<Case, NoMemory> {
    Ok(Case {
        when: guard(alloc, &[])?,
        lines: lines(rt, alloc, word, term)?,
    })
}

// the order, the parameters, what a line holds, and what this is
type Row<'a> = (bool, &'a [&'a [u8]], Value, &'a str);

fn are_sound(
    rt: &impl Abort,
    alloc: Global,
    rows: &[Row<'_>],
    sound: bool,
) -> Result<(), NoMemory> {
    for (order, parameters, held, what) in rows {
        let case = always(rt, alloc, b"s", value_of(rt, alloc, *held)?)?;
        let results = results(rt, alloc, *order, parameters, case)?;
        assert_eq!(rt; results.sound(), sound, "{what}");
    }
    Ok(())
}

const WITHIN_THE_LIMITS: [Row<'static>; 6] = [
    (false, &[], Value::Tag, "a tag may be a word"),
    (false, &[b"a"], Value::Tuple(8), "8 parts"),
    (false, &[], Value::Nested(64), "64 brackets"),
    (false, &[], Value::Atoms, "all atoms"),
    (true, &[b"a", b"b"], Value::Interval, "an interval"),
    (false, &[], Value::Pairs(Ne), "pairs"),
];

#[test]
fn terms_within_the_limits_are_sound(rt: HostRuntime) -> Result<(), Fail> {
    Ok(are_sound(&rt, rt.alloc(), &WITHIN_THE_LIMITS, true)?)
}

const PAST_A_LIMIT: [Row<'static>; 7] = [
    (false, &[b"a"], Value::Tuple(9), "9 parts"),
    (false, &[b"a"], Value::Tuple(1), "1 part"),
    (false, &[], Value::Nested(65), "65 brackets"),
    (false, &[b"a"], Value::Level(1), "a level past its place"),
    (
        false,
        &[b"a"],
        Value::Equal(2),
        "a guard's level past its place",
    ),
    (
        false,
        &[],
        Value::Pairs(Lt),
        "an order among unordered atoms",
    ),
    (true, &[], Value::Pairs(AtMost), "a weak inequality"),
];

#[test]
fn terms_past_a_limit_are_not_sound(rt: HostRuntime) -> Result<(), Fail> {
    Ok(are_sound(&rt, rt.alloc(), &PAST_A_LIMIT, false)?)
}

const OUT_OF_PLACE: [Row<'static>; 2] = [
    (
        false,
        &[b"a", b"b", b"a"],
        Value::Nested(1),
        "a parameter twice",
    ),
    (
        false,
        &[b"turns"],
        Value::Nested(1),
        "a word as a parameter",
    ),
];

#[test]
fn names_out_of_place_are_not_sound(rt: HostRuntime) -> Result<(), Fail> {
    let alloc = rt.alloc();
    are_sound(&rt, alloc, &OUT_OF_PLACE, false)?;
    let case = always(&rt, alloc, b"for", empty(alloc))?;
    let results = results(&rt, alloc, false, &[], case)?;
    assert!(rt; !results.sound(), "a word as a line's name");
    Ok(())
}

// whether results are sound whose case holds where the literal does
fn is_sound_where(
    rt: &impl Abort,
    alloc: Global,
    order: bool,
    parameters: &[&[u8]],
    op: Op,
) -> Result<bool, NoMemory> {
    let case = Case {
        when: guard(alloc, &[lit(op, 0, 1)])?,
        lines: lines(rt, alloc, b"s", empty(alloc))?,
    };
    Ok(results(rt, alloc, order, parameters, case)?.sound())
}

#[test]
fn cases_out_of_place_are_not_sound(rt: HostRuntime) -> Result<(), Fail> {
    let alloc = rt.alloc();
    assert!(rt;
        !is_sound_where(&rt, alloc, false, &[b"a"], Ne)?,
        "no such parameter"
    );
    assert!(rt;
        !is_sound_where(&rt, alloc, false, &[b"a", b"b"], Lt)?,
        "an order among unordered atoms"
    );
    assert!(rt; is_sound_where(&rt, alloc, true, &[b"a", b"b"], Lt)?);
    assert!(rt;
        !is_sound_where(&rt, alloc, true, &[b"a", b"b"], AtMost)?,
        "a weak inequality"
    );
    Ok(())
}

// whether a trace with one element, which is the atom at a level, is sound
fn is_sound_trace(
    rt: &impl Abort,
    alloc: Global,
    parameters: &[&[u8]],
    place: (usize, usize),
    sample: &[u64],
    level: usize,
) -> Result<bool, NoMemory> {
    let trace = Trace {
        order: false,
        parameters: names(rt, alloc, parameters)?,
        line: place.0,
        column: place.1,
        kind: FaultKind::Assertion,
        sample: numbers(alloc, sample)?,
        elements: lines(rt, alloc, b"x", Term::Var(level))?,
    };
    Ok(trace.sound())
}

// the last place of a line and of a column
const LAST: usize = 1_048_577;

const TRACES: [(&[&[u8]], (usize, usize), &[u64], usize, bool, &str); 7] = [
    (&[], (1, 51), &[0, 1], 1, true, "an element of two"),
    (&[b"a"], (LAST, LAST), &[7], 0, true, "the last place"),
    (&[], (0, 30), &[0], 0, false, "no line"),
    (&[], (1, LAST + 1), &[0], 0, false, "past the last place"),
    (&[b"a", b"b"], (1, 30), &[0], 0, false, "too few numbers"),
    (
        &[b"a", b"a"],
        (1, 30),
        &[0, 0],
        0,
        false,
        "a parameter twice",
    ),
    (&[], (1, 30), &[0], 1, false, "an element past the choice"),
];

#[test]
fn traces_are_sound(rt: HostRuntime) -> Result<(), Fail> {
    for (parameters, place, sample, level, sound, what) in TRACES {
        let found = is_sound_trace(&rt, rt.alloc(), parameters, place, sample, level)?;
        assert_eq!(rt; found, sound, "{what}");
    }
    Ok(())
}

#[test]
fn lines_keep_their_items(rt: HostRuntime) -> Result<(), Fail> {
    let alloc = rt.alloc();
    let copy = lines(&rt, alloc, b"s", Term::Var(3))?.copy(alloc)?;
    assert_eq!(rt; copy.len(), 1);
    assert_eq!(rt; copy.as_slice().len(), 1);
    let line = copy.get(0).ok_or("a line")?.copy(alloc)?;
    assert_eq!(rt; line.name.bytes(), b"s".as_slice());
    assert!(rt; matches!(line.term, Term::Var(3)));
    assert!(rt; copy.get(1).is_none());
    Ok(())
}

#[test]
fn cases_keep_their_items(rt: HostRuntime) -> Result<(), Fail> {
    let alloc = rt.alloc();
    let mut cases = Cases::new(alloc);
    cases.push(always(&rt, alloc, b"s", Term::Var(3))?)?;
    assert_eq!(rt; cases.len(), 1);
    assert_eq!(rt; cases.as_slice().len(), 1);
    assert_eq!(rt; cases.get(0).map(|case| case.lines.len()), Some(1));
    assert!(rt; cases.get(1).is_none());
    Ok(())
}

#[test]
fn terms_are_sound_by_themselves(rt: HostRuntime) -> Result<(), Fail> {
    let alloc = rt.alloc();
    let less = pairs(alloc, Lt)?;
    tags_are_names(&less);
    assert!(rt; is_sound_term(&less, true, 0));
    assert!(rt; !is_sound_term(&less, false, 0));
    Ok(())
}

#[test]
fn kinds_of_failure_have_words(rt: HostRuntime) {
    assert_eq!(rt; FaultKind::Assertion.text(), b"assertion failed".as_slice());
    assert_eq!(rt; FaultKind::NoSuchPart.text(), b"no such part".as_slice());
    assert_eq!(rt; FaultKind::TurnLimit.text(), b"turn limit".as_slice());
}

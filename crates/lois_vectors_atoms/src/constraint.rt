//! What cubes and constraints say, and what stays small.

ghost use Rattle.std.specs.Prelude.{◌<◌};

use crate::making::{Comparison, Dice, constraint_of, cube_of, lit};
use lois_base::Op::{AtMost, Eq, Lt, Ne};
use lois_base::{Constraint, Cube, NoMemory};
use lois_constraint::{
    alternatives, and, and_not, and_not_partly, conflict, conjoin_cube, covers_cube, entails,
    implies, meet, negate, normalise, or, prune, shift, substitute, substitute_cube, tighten,
};
use std::alloc::Global;
use std::process::Abort;
use std::test::Fail;
use std::time::{Duration, Instant};

/// What is made of a constraint, or of two.
#[derive(Clone, Copy, Debug)]
enum Operation {
    Negate,
    Normalise,
    Prune,
    Raise,
    Place,
    Or,
    And,
    Meet,
    AndNot,
}

// The levels 1 and 2 raised by 5.
fn raised(alloc: Global, c: &Constraint) -> Result<Constraint, NoMemory> {
    if c.fits(3) {
        return shift(alloc, c, 1, 5);
    }
    Err(NoMemory)
}

fn applied(
    alloc: Global,
    operation: Operation,
    c: &Constraint,
    other: &Constraint,
) -> Result<Constraint, NoMemory> {
    match operation {
        Operation::Negate => negate(alloc, c),
        Operation::Normalise => normalise(alloc, c),
        Operation::Prune => prune(alloc, c),
        Operation::Raise => raised(alloc, c),
        Operation::Place => substitute(alloc, c, 2, 1),
        Operation::Or => or(alloc, c, other),
        Operation::And => and(alloc, c, other),
        Operation::Meet => meet(alloc, c, other),
        Operation::AndNot => and_not(alloc, c, other),
    }
}

// a<$2 and $2<b, where a and b are the levels 0 and 1
const BETWEEN: [Comparison; 2] = [(0, Lt, 2), (2, Lt, 1)];

// its negation
const REFUSED: [&[Comparison]; 2] = [&[(2, AtMost, 0)], &[(1, AtMost, 2)]];

// What the operations make of `BETWEEN`, one after another, with the other constraint.
fn made_of_between(
    alloc: Global,
    operations: &[Operation],
    other: &[&[Comparison]],
) -> Result<Constraint, NoMemory> {
    let other = constraint_of(alloc, other)?;
    let mut made = constraint_of(alloc, &[&BETWEEN])?;
    for operation in operations {
        made = applied(alloc, *operation, &made, &other)?;
    }
    Ok(made)
}

// The operations, the other constraint, and what they make.
type Making<'a> = (
    &'a [Operation],
    &'a [&'a [Comparison]],
    &'a [&'a [Comparison]],
);

fn make(rt: &impl Abort, alloc: Global, rows: &[Making<'_>]) -> Result<(), NoMemory> {
    for (operations, other, cubes) in rows {
        let made = made_of_between(alloc, operations, other)?;
        let wanted = constraint_of(alloc, cubes)?;
        assert!(rt; made.is_equal(&wanted), "{operations:?}");
    }
    Ok(())
}

const NEGATED_AND_JOINED: [Making<'static>; 5] = [
    (&[Operation::Negate], &[], &REFUSED),
    (
        &[Operation::Negate, Operation::Normalise],
        &[],
        &[&[(1, AtMost, 2)], &[(2, AtMost, 0)]],
    ),
    (
        &[Operation::Negate, Operation::Negate, Operation::Normalise],
        &[],
        &[&BETWEEN],
    ),
    (&[Operation::Or], &[&BETWEEN], &[&BETWEEN, &BETWEEN]),
    (&[Operation::Or, Operation::Prune], &[&BETWEEN], &[&BETWEEN]),
];

#[test]
fn a_constraint_is_negated_and_joined(rt: HostRuntime) -> Result<(), Fail> {
    Ok(make(&rt, rt.alloc(), &NEGATED_AND_JOINED)?)
}

const MET_AND_TAKEN_OFF: [Making<'static>; 5] = [
    (
        &[Operation::And],
        &[&BETWEEN],
        &[&[(0, Lt, 2), (2, Lt, 1), (0, Lt, 2), (2, Lt, 1)]],
    ),
    (&[Operation::Meet], &[&BETWEEN], &[&BETWEEN]),
    (&[Operation::Meet], &REFUSED, &[]),
    (&[Operation::AndNot], &REFUSED, &[&BETWEEN]),
    (&[Operation::AndNot], &[&BETWEEN], &[]),
];

#[test]
fn constraints_are_met_and_taken_off(rt: HostRuntime) -> Result<(), Fail> {
    make(&rt, rt.alloc(), &MET_AND_TAKEN_OFF)?;
    let both = made_of_between(rt.alloc(), &[Operation::And], &REFUSED)?;
    assert_eq!(rt; both.len(), 2);
    Ok(())
}

const MOVED: [Making<'static>; 3] = [
    (&[Operation::Raise], &[], &[&[(0, Lt, 7), (7, Lt, 6)]]),
    (&[Operation::Place], &[], &[&[(0, Lt, 1), (1, Lt, 1)]]),
    (&[Operation::Place, Operation::Normalise], &[], &[]),
];

#[test]
fn levels_are_moved(rt: HostRuntime) -> Result<(), Fail> {
    Ok(make(&rt, rt.alloc(), &MOVED)?)
}

// a level far above all others
const FAR: usize = 5000;

// steps upward over levels that a table of words of 64 bits holds in three words
const FURTHER_UP: [Comparison; 2] = [(63, Lt, 64), (64, Lt, 128)];

// levels that are tied by a third one, and a level apart from them
const TIED: [Comparison; 3] = [(0, Eq, 1), (1, Eq, 2), (2, Ne, 3)];

const UP: [Comparison; 2] = [(0, Lt, 1), (1, Lt, 2)];

const WEAKLY_UP: [Comparison; 2] = [(0, AtMost, 1), (1, AtMost, 2)];

const ENDS_APART: [Comparison; 1] = [(2, Ne, 0)];

fn is_implied(
    alloc: Global,
    literals: &[Comparison],
    comparison: Comparison,
) -> Result<bool, NoMemory> {
    let cube = cube_of(alloc, literals)?;
    implies(alloc, &cube, lit(comparison))
}

#[test]
fn what_ties_and_sets_apart_is_told(rt: HostRuntime) -> Result<(), Fail> {
    let rows: [(&[Comparison], Comparison, bool); 16] = [
        (&TIED, (0, Eq, 2), true),
        (&TIED, (3, Ne, 0), true),
        (&TIED, (0, Lt, 3), false),
        (&[], (0, Eq, 1), false),
        (&[(0, Lt, FAR)], (FAR, Ne, 0), true),
        (&UP, (0, Lt, 2), true),
        (&FURTHER_UP, (63, Lt, 128), true),
        (&FURTHER_UP, (63, Ne, 64), true),
        (&FURTHER_UP, (63, Lt, 127), false),
        (&FURTHER_UP, (0, Lt, 128), false),
        (&WEAKLY_UP, (0, AtMost, 2), true),
        (&WEAKLY_UP, (0, Lt, 2), false),
        (&[(0, AtMost, 1), (1, Lt, 2)], (0, Lt, 2), true),
        (&[(0, AtMost, 1), (0, Ne, 1)], (0, Lt, 1), true),
        (&[(0, AtMost, 1), (1, AtMost, 0)], (0, Eq, 1), true),
        (&[(0, Eq, 1)], (1, AtMost, 0), true),
    ];
    for (literals, comparison, wanted) in rows {
        let implied = is_implied(rt.alloc(), literals, comparison)?;
        assert_eq!(rt; implied, wanted, "{literals:?} {comparison:?}");
    }
    Ok(())
}

#[test]
fn a_difference_is_made_in_part(rt: HostRuntime) -> Result<(), Fail> {
    let alloc = rt.alloc();
    let everywhere = constraint_of(alloc, &[&[]])?;
    let between = constraint_of(alloc, &[&BETWEEN])?;
    let all = and_not_partly(alloc, &everywhere, &between, 2)?;
    assert!(rt; all.whole);
    assert!(rt; all.constraint.is_equal(&constraint_of(alloc, &REFUSED)?));
    let part = and_not_partly(alloc, &everywhere, &between, 1)?;
    assert!(rt; !part.whole);
    assert!(rt;
        part.constraint
            .is_equal(&constraint_of(alloc, &[&[(2, AtMost, 0)]])?)
    );
    Ok(())
}

fn is_within(
    alloc: Global,
    literals: &[Comparison],
    others: &[Comparison],
) -> Result<bool, NoMemory> {
    let cube = cube_of(alloc, literals)?;
    let other = cube_of(alloc, others)?;
    entails(alloc, &cube, &other)
}

#[test]
fn cubes_are_compared(rt: HostRuntime) -> Result<(), Fail> {
    let alloc = rt.alloc();
    assert!(rt; is_within(alloc, &UP, &ENDS_APART)?);
    assert!(rt; !is_within(alloc, &ENDS_APART, &UP)?);
    let far = cube_of(alloc, &[(0, Lt, FAR)])?;
    assert!(rt; !conflict(alloc, &far)?);
    Ok(())
}

// The others, a constraint, and whether the others have the cube 0<1 wherever it holds.
type Had<'a> = (&'a [&'a [Comparison]], &'a [&'a [Comparison]], bool);

const HAD: [Had<'static>; 7] = [
    (&[&[(0, Lt, 2)]], &[&[(1, Lt, 2)]], true),
    (&[&[(0, Lt, 2)]], &[&[(2, Lt, 1)]], false),
    (&[&[(0, Lt, 2)]], &[&[(1, Lt, 2)], &[(2, Lt, 1)]], false),
    (&[&[(0, Lt, 2)], &[(0, Ne, 1)]], &[&[]], true),
    (&[&[(0, Lt, 2)], &[(2, Lt, 1)]], &[&[]], false),
    (&[], &[&[(1, Lt, 0)]], true),
    (&[], &[&[]], false),
];

fn have_the_step(
    alloc: Global,
    others: &[&[Comparison]],
    under: &[&[Comparison]],
) -> Result<bool, NoMemory> {
    let others = constraint_of(alloc, others)?;
    let under = constraint_of(alloc, under)?;
    let step = cube_of(alloc, &[(0, Lt, 1)])?;
    covers_cube(alloc, &others, &step, &under)
}

#[test]
fn cubes_are_had_where_a_constraint_holds(rt: HostRuntime) -> Result<(), Fail> {
    for (others, under, wanted) in HAD {
        let had = have_the_step(rt.alloc(), others, under)?;
        assert_eq!(rt; had, wanted, "{others:?} {under:?}");
    }
    Ok(())
}

#[test]
fn literals_are_turned(rt: HostRuntime) -> Result<(), Fail> {
    let rows: [(Comparison, &[Comparison]); 4] = [
        ((0, Eq, 1), &[(0, Ne, 1)]),
        ((0, Ne, 1), &[(0, Eq, 1)]),
        ((0, Lt, 1), &[(1, AtMost, 0)]),
        ((0, AtMost, 1), &[(1, Lt, 0)]),
    ];
    for (literal, others) in rows {
        let turned = alternatives(rt.alloc(), lit(literal))?;
        let wanted = cube_of(rt.alloc(), others)?;
        assert!(rt; turned.as_slice() == wanted.as_slice(), "{literal:?}");
    }
    Ok(())
}

fn conjoined(
    alloc: Global,
    literals: &[Comparison],
    others: &[Comparison],
) -> Result<Cube, NoMemory> {
    let cube = cube_of(alloc, literals)?;
    let other = cube_of(alloc, others)?;
    conjoin_cube(alloc, &cube, &other)
}

#[test]
fn what_goes_round_contradicts_itself(rt: HostRuntime) -> Result<(), Fail> {
    let alloc = rt.alloc();
    let round = conjoined(alloc, &UP, &[(2, Eq, 0)])?;
    assert!(rt; conflict(alloc, &round)?);
    assert!(rt; tighten(alloc, &round)?.is_none());
    Ok(())
}

#[test]
fn levels_are_moved_in_a_cube(rt: HostRuntime) -> Result<(), Fail> {
    let alloc = rt.alloc();
    let apart = cube_of(alloc, &ENDS_APART)?;
    let same = substitute_cube(alloc, &apart, 2, 1)?;
    assert!(rt; same.as_slice() == [lit((1, Ne, 0))].as_slice());
    Ok(())
}

fn made_cube(alloc: Global, dice: &mut Dice, levels: usize) -> Result<Cube, NoMemory>
    requires { 0 < levels }
{
    let mut cube = Cube::new(alloc);
    for _ in 0..1 + dice.roll(5) {
        cube.push(dice.lit(levels))?;
    }
    Ok(cube)
}

fn made(alloc: Global, dice: &mut Dice, levels: usize, cubes: usize) -> Result<Constraint, NoMemory>
    requires { 0 < levels }
{
    let mut c = Constraint::new(alloc);
    for _ in 0..cubes {
        c.push(made_cube(alloc, dice, levels)?)?;
    }
    Ok(c)
}

// How many weak orders there are of so many levels.
fn weak_orders(levels: usize) -> usize {
    match levels {
        1 => 1,
        2 => 3,
        3 => 13,
        4 => 75,
        5 => 541,
        _ => 4683,
    }
}

// There are at most as many cubes as weak orders of the levels.
fn stay_small(
    rt: &impl Abort,
    alloc: Global,
    a: &Constraint,
    b: &Constraint,
    levels: usize,
) -> Result<(), NoMemory> {
    let most = weak_orders(levels);
    for operation in [
        Operation::Prune,
        Operation::Meet,
        Operation::Negate,
        Operation::Normalise,
    ] {
        let made = applied(alloc, operation, a, b)?;
        assert!(rt; made.len() <= most, "{operation:?}");
    }
    Ok(())
}

#[test]
fn answers_stay_small(rt: HostRuntime) -> Result<(), Fail> {
    let alloc = rt.alloc();
    let mut dice = Dice { state: 7 };
    for round in 0..300usize {
        let levels = 1 + round % 6;
        let count = 1 + dice.roll(3);
        let a = made(alloc, &mut dice, levels, count)?;
        let b = made(alloc, &mut dice, levels, 2)?;
        stay_small(&rt, alloc, &a, &b, levels)?;
    }
    Ok(())
}

// `b` and not `a`, and `a`, can't both be met.
fn exclude_each_other(alloc: Global, a: &Constraint, b: &Constraint) -> Result<bool, NoMemory> {
    let refused = negate(alloc, a)?;
    let together = meet(alloc, a, b)?;
    Ok(meet(alloc, &refused, &together)?.len() == 0)
}

#[test]
fn negating_and_conjoining_is_quick(rt: HostRuntime) -> Result<(), Fail> {
    let alloc = rt.alloc();
    let mut dice = Dice { state: 3 };
    let start = Instant::now(&rt)?;
    for _ in 0..10 {
        let a = made(alloc, &mut dice, 5, 12)?;
        let b = made(alloc, &mut dice, 5, 12)?;
        assert!(rt; exclude_each_other(alloc, &a, &b)?);
    }
    assert!(rt; start.elapsed(&rt)? < Duration::from_secs(20));
    Ok(())
}

// So many steps upward.
fn upward(alloc: Global, steps: usize) -> Result<Cube, NoMemory> {
    let mut chain = Cube::new(alloc);
    for level in 0..steps {
        chain.push(lit((level, Lt, level.saturating_add(1))))?;
    }
    Ok(chain)
}

// A chain of 100 steps upward, whose ends are compared.
#[test]
fn a_long_chain_is_tightened_soon(rt: HostRuntime) -> Result<(), Fail> {
    let alloc = rt.alloc();
    let start = Instant::now(&rt)?;
    let mut chain = upward(alloc, 100)?;
    assert!(rt; implies(alloc, &chain, lit((0, Lt, 100)))?);
    chain.push(lit((100, Lt, 0)))?;
    assert!(rt; tighten(alloc, &chain)?.is_none());
    assert!(rt; start.elapsed(&rt)? < Duration::from_secs(20));
    Ok(())
}

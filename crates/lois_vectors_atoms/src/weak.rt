//! Made constraints with `<=`, told from what is made of them at each order of their levels.

ghost use Rattle.std.specs.Prelude.{◌<◌};

use crate::making::Dice;
use lois_base::{Constraint, Cube, NoMemory, Op, Structure};
use lois_constraint::{and_not, meet, negate, normalise, prune, tighten};
use lois_order::OrderAtoms;
use lois_strict::split_constraint;
use std::alloc::Global;
use std::process::Abort;
use std::test::Fail;

// More orders are taken than there are weak orders of five levels, some of them twice.
fn orders_of(levels: usize) -> usize {
    match levels {
        1 => 1,
        2 => 4,
        3 => 27,
        4 => 256,
        _ => 3125,
    }
}

// Odd numbers below twice `levels`, one for each level: the digits of the index. There is room between each two.
fn numbers_at(alloc: Global, index: usize, levels: usize) -> Result<Vec<u64>, NoMemory>
    requires { 0 < levels }
{
    let mut numbers = Vec::with_capacity(alloc, levels)?;
    let mut rest = index;
    for _ in 0..levels {
        let digit = (rest % levels) as u64;
        numbers.push(digit.saturating_mul(2).saturating_add(1))?;
        rest = rest / levels;
    }
    Ok(numbers)
}

fn made_cube(alloc: Global, dice: &mut Dice, levels: usize) -> Result<Cube, NoMemory>
    requires { 0 < levels }
{
    let mut cube = Cube::new(alloc);
    for _ in 0..1 + dice.roll(6) {
        cube.push(dice.lit(levels))?;
    }
    Ok(cube)
}

fn made(alloc: Global, dice: &mut Dice, levels: usize) -> Result<Constraint, NoMemory>
    requires { 0 < levels }
{
    let mut c = Constraint::new(alloc);
    for _ in 0..1 + dice.roll(3) {
        c.push(made_cube(alloc, dice, levels)?)?;
    }
    Ok(c)
}

/// Two constraints, and what is made of them.
#[derive(Drop)]
struct Combined {
    first: Constraint,
    second: Constraint,
    met: Constraint,
    taken_off: Constraint,
    negated: Constraint,
    pruned: Constraint,
    normalised: Constraint,
    split: Constraint,
}

fn combine(alloc: Global, first: Constraint, second: Constraint) -> Result<Combined, NoMemory> {
    Ok(Combined {
        met: meet(alloc, &first, &second)?,
        taken_off: and_not(alloc, &first, &second)?,
        negated: negate(alloc, &first)?,
        pruned: prune(alloc, &first)?,
        normalised: normalise(alloc, &first)?,
        split: split_constraint(alloc, &first)?,
        first,
        second,
    })
}

fn holds_at(c: &Constraint, numbers: &[u64]) -> bool {
    c.fits(numbers.len()) && c.at(numbers)
}

fn cube_holds_at(cube: &Cube, numbers: &[u64]) -> bool {
    cube.fits(numbers.len()) && cube.at(numbers)
}

// Whether all hold at the numbers where they have to.
fn agree_at(combined: &Combined, numbers: &[u64]) -> bool {
    let here = holds_at(&combined.first, numbers);
    let there = holds_at(&combined.second, numbers);
    holds_at(&combined.met, numbers) == (here && there)
        && holds_at(&combined.taken_off, numbers) == (here && !there)
        && holds_at(&combined.negated, numbers) != here
        && holds_at(&combined.pruned, numbers) == here
        && holds_at(&combined.normalised, numbers) == here
        && holds_at(&combined.split, numbers) == here
}

fn is_strict(c: &Constraint) -> bool {
    c.as_slice().iter().all(|cube| cube.as_slice().iter().all(|lit| lit.op != Op::AtMost))
}

#[test]
fn what_is_made_holds_where_it_has_to(rt: HostRuntime) -> Result<(), Fail> {
    let alloc = rt.alloc();
    let mut dice = Dice { state: 11 };
    for round in 0..24usize {
        let levels = 2 + round % 4;
        let first = made(alloc, &mut dice, levels)?;
        let second = made(alloc, &mut dice, levels)?;
        let combined = combine(alloc, first, second)?;
        assert!(rt; is_strict(&combined.split), "{round}");
        for index in 0..orders_of(levels) {
            let numbers = numbers_at(alloc, index, levels)?;
            assert!(rt; agree_at(&combined, &numbers), "{round} {index}");
        }
    }
    Ok(())
}

// The numbers, and one more behind them.
fn with_last(alloc: Global, before: &[u64], last: u64) -> Result<Vec<u64>, NoMemory> {
    let mut numbers = Vec::new(alloc);
    numbers.extend_from_slice(before)?;
    numbers.push(last)?;
    Ok(numbers)
}

// Whether the cube holds for some number at the level behind those given: one of them, or one below, between or above them.
fn is_met_behind(alloc: Global, cube: &Cube, before: &[u64]) -> Result<bool, NoMemory> {
    for last in 0..12u64 {
        let numbers = with_last(alloc, before, last)?;
        if cube_holds_at(cube, &numbers) {
            return Ok(true);
        }
    }
    Ok(false)
}

#[test]
fn a_level_is_eliminated(rt: HostRuntime) -> Result<(), Fail> {
    let alloc = rt.alloc();
    let mut dice = Dice { state: 5 };
    for round in 0..120usize {
        let level = 1 + round % 4;
        let cube = made_cube(alloc, &mut dice, level + 1)?;
        assert!(rt; level < 9 && cube.fits(level + 1));
        let answer = OrderAtoms::eliminate(alloc, &cube, level)?;
        for index in 0..orders_of(level) {
            let before = numbers_at(alloc, index, level)?;
            let met = is_met_behind(alloc, &cube, &before)?;
            assert_eq!(rt; holds_at(&answer, &before), met, "{round} {index}");
        }
    }
    Ok(())
}

// Whether the cube holds at some order of the levels.
fn is_met(alloc: Global, cube: &Cube, levels: usize) -> Result<bool, NoMemory>
    requires { 0 < levels }
{
    for index in 0..orders_of(levels) {
        let numbers = numbers_at(alloc, index, levels)?;
        if cube_holds_at(cube, &numbers) {
            return Ok(true);
        }
    }
    Ok(false)
}

#[test]
fn what_no_order_meets_is_refused(rt: HostRuntime) -> Result<(), Fail> {
    let alloc = rt.alloc();
    let mut dice = Dice { state: 3 };
    for round in 0..60usize {
        let levels = 2 + round % 4;
        let cube = made_cube(alloc, &mut dice, levels)?;
        let met = is_met(alloc, &cube, levels)?;
        assert_eq!(rt; tighten(alloc, &cube)?.is_some(), met, "{round}");
    }
    Ok(())
}

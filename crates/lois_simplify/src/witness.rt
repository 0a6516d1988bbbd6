//! Choices of atoms at which a cube holds and other cubes don't. Nothing rests on how they are found, and one that is found only
//! spares a question to which the answer would be no.

use lois_base::{Constraint, Cube, Lit, NoMemory, Op};
use std::alloc::Global;

// Numbers of levels that nothing is said of lie so far apart.
const BETWEEN_LEVELS: u64 = 1024;

// No level is as high as this in a guard that is looked at.
const HIGHEST: u64 = 1_000_000_000;

// A cube of a guard is met after a few rounds, or is left.
const MOST_ROUNDS: usize = 4;

// Each cube of what surrounds a guard takes two choices of its own.
const MOST_SURROUNDING: usize = 8;

/// Numbers for the levels, of which the first ones are changed, and the others rise or fall.
#[derive(Drop)]
struct Choice {
    changed: Vec<u64>,
    falls: bool,
}

fn unchanged(level: usize, falls: bool) -> u64 {
    let distance = (level as u64).saturating_mul(BETWEEN_LEVELS);
    if falls {
        HIGHEST.saturating_sub(distance)
    } else {
        distance
    }
}

fn number_at(choice: &Choice, level: usize) -> u64 {
    match choice.changed.get(level) {
        Some(number) => *number,
        None => unchanged(level, choice.falls),
    }
}

fn raise(choice: &mut Choice, level: usize, number: u64) {
    if let Some(held) = choice.changed.get_mut(level) {
        *held = number;
    }
}

fn literal_holds(choice: &Choice, lit: Lit) -> bool {
    let left = number_at(choice, lit.left);
    let right = number_at(choice, lit.right);
    match lit.op {
        Op::Eq => left == right,
        Op::Ne => left != right,
        Op::Lt => left < right,
        Op::AtMost => left <= right,
    }
}

fn cube_holds(choice: &Choice, cube: &Cube) -> bool {
    for lit in cube.as_slice() {
        if !literal_holds(choice, *lit) {
            return false;
        }
    }
    true
}

fn constraint_holds(choice: &Choice, constraint: &Constraint) -> bool {
    for cube in constraint.as_slice() {
        if cube_holds(choice, cube) {
            return true;
        }
    }
    false
}

// A level above those that the cube speaks of.
fn height(cube: &Cube) -> usize {
    let mut height = 0_usize;
    for lit in cube.as_slice() {
        height = height.max(lit.left.saturating_add(1));
        height = height.max(lit.right.saturating_add(1));
    }
    height
}

fn distinct_choice(alloc: Global, size: usize, falls: bool) -> Result<Choice, NoMemory> {
    let mut changed = Vec::new(alloc);
    for level in 0..size {
        changed.push(unchanged(level, falls))?;
    }
    Ok(Choice { changed, falls })
}

// Raises a number so that the literal holds.
fn meet_literal(choice: &mut Choice, lit: Lit) {
    let left = number_at(choice, lit.left);
    let right = number_at(choice, lit.right);
    match lit.op {
        Op::Eq => {
            raise(choice, lit.left, left.max(right));
            raise(choice, lit.right, left.max(right));
        }
        Op::Ne | Op::Lt => raise(choice, lit.right, left.saturating_add(1)),
        Op::AtMost => raise(choice, lit.right, left),
    }
}

// Whether some literal had to be met.
fn meet_cube(choice: &mut Choice, cube: &Cube) -> bool {
    let mut changed = false;
    for lit in cube.as_slice() {
        if !literal_holds(choice, *lit) {
            meet_literal(choice, *lit);
            changed = true;
        }
    }
    changed
}

fn meet_cubes(choice: &mut Choice, cube: &Cube, around: &Cube) {
    for _round in 0..MOST_ROUNDS {
        let within = meet_cube(choice, cube);
        let outside = meet_cube(choice, around);
        if !within && !outside {
            return;
        }
    }
}

// Whether one choice, made for the two cubes, meets both and none of the others.
fn leaves_out(
    alloc: Global,
    others: &Constraint,
    cube: &Cube,
    around: &Cube,
    falls: bool,
) -> Result<bool, NoMemory> {
    let size = height(cube).max(height(around));
    let mut choice = distinct_choice(alloc, size, falls)?;
    meet_cubes(&mut choice, cube, around);
    Ok(
        cube_holds(&choice, cube)
            && cube_holds(&choice, around)
            && !constraint_holds(&choice, others),
    )
}

fn leaves_out_around(
    alloc: Global,
    others: &Constraint,
    cube: &Cube,
    around: &Cube,
) -> Result<bool, NoMemory> {
    if leaves_out(alloc, others, cube, around, false)? {
        return Ok(true);
    }
    leaves_out(alloc, others, cube, around, true)
}

/// Whether a choice is found at which the cube and `under` hold and the others don't.
pub(crate) fn is_seen_outside(
    alloc: Global,
    others: &Constraint,
    cube: &Cube,
    under: &Constraint,
) -> Result<bool, NoMemory> {
    for (index, around) in under.as_slice().iter().enumerate() {
        if index < MOST_SURROUNDING && leaves_out_around(alloc, others, cube, around)? {
            return Ok(true);
        }
    }
    Ok(false)
}

/// Two choices that are made for a cube. Mostly it holds at them.
#[derive(Drop)]
pub(crate) struct TwoChoices {
    rising: Choice,
    falling: Choice,
}

fn met_choice(alloc: Global, cube: &Cube, falls: bool) -> Result<Choice, NoMemory> {
    let mut choice = distinct_choice(alloc, height(cube), falls)?;
    meet_cubes(&mut choice, cube, cube);
    Ok(choice)
}

/// Choices at which the cube holds, in which levels that it says nothing of differ.
pub(crate) fn choices_at(alloc: Global, cube: &Cube) -> Result<TwoChoices, NoMemory> {
    Ok(TwoChoices {
        rising: met_choice(alloc, cube, false)?,
        falling: met_choice(alloc, cube, true)?,
    })
}

impl TwoChoices {
    /// Whether the literal holds at both choices.
    pub(crate) fn hold(&self, lit: Lit) -> bool {
        literal_holds(&self.rising, lit) && literal_holds(&self.falling, lit)
    }
}

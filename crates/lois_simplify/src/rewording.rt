//! Other words for a guard without `<=`, found by widening its cubes under what surrounds it. Nothing rests on how they are found:
//! whoever takes them asks first whether they say the same.

use crate::orders::OrderTable;
use crate::shortening::{constraint_of, follows, joined_literals};
use crate::wide_cubes::wide_cubes;
use crate::witness::{TwoChoices, choices_at, is_seen_outside};
use lois_base::{Constraint, Cube, Lit, NoMemory, Op};
use lois_constraint::{covers_cube, implies, meet, prune, singleton};
use std::alloc::Global;

// Each cube without `<=` is compared with those of the guard and of what surrounds it.
const MOST_COMPARED: usize = 8192;

// Each cube is met with all of what surrounds the guard.
const MOST_SURROUNDING: usize = 24;

// All pairs of a cube's levels are looked at.
const MOST_LEVELS: usize = 8;

// Of more cubes only those are widened that the ones before don't cover.
const MOST_WIDENED: usize = 12;

/// Whether other words for the guard are worth their time, where `whole` is the guard without `<=`. A single cube hardly gets shorter.
pub(crate) fn is_worth_rewording(
    guard: &Constraint,
    whole: &Constraint,
    under: &Constraint,
) -> bool {
    if whole.len() < 2 || under.len() > MOST_SURROUNDING {
        return false;
    }
    guard.len() >= 2 || reading_length(under) >= 2
}

/// How long the constraint is to read: its literals and its cubes.
fn reading_length(constraint: &Constraint) -> usize {
    let mut length = 0_usize;
    for cube in constraint.as_slice() {
        length = length.saturating_add(cube.len()).saturating_add(1);
    }
    length
}

// The sum of the levels in the constraint: low levels are those of parameters and of outer binders, whose names are shorter.
fn sum_of_levels(constraint: &Constraint) -> usize {
    let mut sum = 0_usize;
    for cube in constraint.as_slice() {
        sum = sum.saturating_add(sum_of_cube_levels(cube));
    }
    sum
}

fn sum_of_cube_levels(cube: &Cube) -> usize {
    let mut sum = 0_usize;
    for lit in cube.as_slice() {
        sum = sum.saturating_add(lit.left).saturating_add(lit.right);
    }
    sum
}

/// Whether the one constraint is shorter to read than the other, or as long and of lower levels.
pub(crate) fn reads_shorter(one: &Constraint, other: &Constraint) -> bool {
    let lengths = (reading_length(one), reading_length(other));
    lengths.0 < lengths.1 || lengths.0 == lengths.1 && sum_of_levels(one) < sum_of_levels(other)
}

fn put_level(levels: &mut Vec<usize>, level: usize) -> Result<(), NoMemory> {
    if !levels.contains(&level) {
        levels.push(level)?;
    }
    Ok(())
}

// The levels of which the cube speaks, the highest first.
fn levels_of(alloc: Global, cube: &Cube) -> Result<Vec<usize>, NoMemory> {
    let mut levels = Vec::new(alloc);
    for lit in cube.as_slice() {
        put_level(&mut levels, lit.left)?;
        put_level(&mut levels, lit.right)?;
    }
    levels.sort_unstable();
    levels.reverse();
    Ok(levels)
}

// The literals that say the most of two levels come first. One that fails at a choice at which the cube holds isn't asked for.
fn put_strongest(
    alloc: Global,
    closed: &mut Cube,
    cube: &Cube,
    seen: &TwoChoices,
    left: usize,
    right: usize,
) -> Result<(), NoMemory> {
    let equal = Lit {
        op: Op::Eq,
        left,
        right,
    };
    let below = Lit {
        op: Op::Lt,
        left,
        right,
    };
    let above = Lit {
        op: Op::Lt,
        left: right,
        right: left,
    };
    let apart = Lit {
        op: Op::Ne,
        left,
        right,
    };
    for lit in [equal, below, above, apart].iter() {
        if seen.hold(*lit) && implies(alloc, cube, *lit)? {
            return closed.push(*lit);
        }
    }
    Ok(())
}

fn put_strongest_of_level(
    alloc: Global,
    closed: &mut Cube,
    cube: &Cube,
    seen: &TwoChoices,
    left: usize,
    levels: &[usize],
) -> Result<(), NoMemory> {
    for right in levels {
        if left < *right {
            put_strongest(alloc, closed, cube, seen, left, *right)?;
        }
    }
    Ok(())
}

// All that the cube says of two of its levels each.
fn closed(alloc: Global, cube: &Cube) -> Result<Cube, NoMemory> {
    let levels = levels_of(alloc, cube)?;
    if levels.len() > MOST_LEVELS {
        return cube.copy(alloc);
    }
    let seen = choices_at(alloc, cube)?;
    let mut closed = Cube::new(alloc);
    for left in levels.iter() {
        put_strongest_of_level(alloc, &mut closed, cube, &seen, *left, &levels)?;
    }
    Ok(closed)
}

fn closed_cubes(alloc: Global, constraint: &Constraint) -> Result<Constraint, NoMemory> {
    let mut all = Constraint::new(alloc);
    for cube in constraint.as_slice() {
        all.push(closed(alloc, cube)?)?;
    }
    Ok(all)
}

// Whether one of the literals is the other one, or says more of its two levels.
fn says(cube: &Cube, lit: Lit) -> bool {
    for own in cube.as_slice() {
        let same = own.left == lit.left && own.right == lit.right;
        let turned = own.left == lit.right && own.right == lit.left;
        if same && own.op == lit.op {
            return true;
        }
        if (same || turned) && lit.op == Op::Ne && own.op == Op::Lt {
            return true;
        }
    }
    false
}

// How many of the closed cubes say what the literal does.
fn count_saying(closed: &Constraint, lit: Lit) -> usize {
    let mut count = 0_usize;
    for cube in closed.as_slice() {
        if says(cube, lit) {
            count = count.saturating_add(1);
        }
    }
    count
}

fn counts_saying(alloc: Global, closed: &Constraint, cube: &Cube) -> Result<Vec<usize>, NoMemory> {
    let mut counts = Vec::new(alloc);
    for lit in cube.as_slice() {
        counts.push(count_saying(closed, *lit))?;
    }
    Ok(counts)
}

fn put_counted(
    sorted: &mut Cube,
    cube: &Cube,
    counts: &[usize],
    count: usize,
) -> Result<(), NoMemory> {
    for (index, lit) in cube.as_slice().iter().enumerate() {
        if counts.get(index) == Some(&count) {
            sorted.push(*lit)?;
        }
    }
    Ok(())
}

// First the literals that the fewest closed cubes say, which go first, and of the others those of high levels.
fn rarest_first(alloc: Global, closed: &Constraint, cube: &Cube) -> Result<Cube, NoMemory> {
    let counts = counts_saying(alloc, closed, cube)?;
    let mut sorted = Cube::new(alloc);
    for count in 0..=closed.len() {
        put_counted(&mut sorted, cube, &counts, count)?;
    }
    Ok(sorted)
}

// Whether the guard holds wherever the cube and `under` do. What takes little time is asked first.
fn is_within(
    alloc: Global,
    cube: &Cube,
    guard: &Constraint,
    under: &Constraint,
) -> Result<bool, NoMemory> {
    if is_seen_outside(alloc, guard, cube, under)? {
        return Ok(false);
    }
    if covers_cube(alloc, guard, cube, under)? {
        return Ok(true);
    }
    let one = singleton(alloc, cube)?;
    let both = meet(alloc, under, &one)?;
    follows(alloc, guard, &both)
}

fn without_literals(
    alloc: Global,
    cube: &Cube,
    guard: &Constraint,
    under: &Constraint,
) -> Result<Cube, NoMemory> {
    let literals = cube.as_slice();
    let mut kept = Cube::new(alloc);
    for (index, lit) in literals.iter().enumerate() {
        let without = joined_literals(alloc, &kept, &literals[index + 1..])?;
        if !is_within(alloc, &without, guard, under)? {
            kept.push(*lit)?;
        }
    }
    Ok(kept)
}

fn difference(lit: Lit) -> Lit {
    Lit {
        op: Op::Ne,
        left: lit.left.min(lit.right),
        right: lit.left.max(lit.right),
    }
}

// `!=` in the place of `<`, where that is enough.
fn with_differences(
    alloc: Global,
    cube: &Cube,
    guard: &Constraint,
    under: &Constraint,
) -> Result<Cube, NoMemory> {
    let literals = cube.as_slice();
    let mut kept = Cube::new(alloc);
    for (index, lit) in literals.iter().enumerate() {
        let mut other = kept.copy(alloc)?;
        other.push(difference(*lit))?;
        let wider = joined_literals(alloc, &other, &literals[index + 1..])?;
        if lit.op == Op::Lt && is_within(alloc, &wider, guard, under)? {
            kept = other;
        } else {
            kept.push(*lit)?;
        }
    }
    Ok(kept)
}

fn widened(
    alloc: Global,
    cube: &Cube,
    closed: &Constraint,
    guard: &Constraint,
    under: &Constraint,
) -> Result<Cube, NoMemory> {
    let sorted = rarest_first(alloc, closed, cube)?;
    let fewer = without_literals(alloc, &sorted, guard, under)?;
    with_differences(alloc, &fewer, guard, under)
}

fn has_literals(cube: &Cube, literals: &[Lit]) -> bool {
    for lit in literals {
        if !cube.as_slice().contains(lit) {
            return false;
        }
    }
    true
}

fn has_alike(constraint: &Constraint, cube: &Cube) -> bool {
    for other in constraint.as_slice() {
        if other.len() == cube.len() && has_literals(other, cube.as_slice()) {
            return true;
        }
    }
    false
}

// The closed cubes as wide as `under` allows, each once.
fn all_widened(
    alloc: Global,
    closed: &Constraint,
    guard: &Constraint,
    under: &Constraint,
) -> Result<Constraint, NoMemory> {
    let mut wide = Constraint::new(alloc);
    for cube in closed.as_slice() {
        if closed.len() > MOST_WIDENED && covers_cube(alloc, &wide, cube, under)? {
            continue;
        }
        let wider = widened(alloc, cube, closed, guard, under)?;
        if !has_alike(&wide, &wider) {
            wide.push(wider)?;
        }
    }
    Ok(wide)
}

// The first cube goes behind the others, or away if it has the length and they cover it.
fn turned(
    alloc: Global,
    constraint: Constraint,
    length: usize,
    under: &Constraint,
) -> Result<Constraint, NoMemory> {
    if constraint.len() == 0 {
        return Ok(constraint);
    }
    let mut cubes = constraint.into_vec();
    let first = cubes.remove(0);
    let mut others = constraint_of(alloc, cubes)?;
    if first.len() == length && is_within(alloc, &first, &others, under)? {
        return Ok(others);
    }
    others.push(first)?;
    Ok(others)
}

fn without_cubes(
    alloc: Global,
    constraint: Constraint,
    length: usize,
    under: &Constraint,
) -> Result<Constraint, NoMemory> {
    let mut held = constraint;
    for _ in 0..held.len() {
        held = turned(alloc, held, length, under)?;
    }
    Ok(held)
}

fn longest_cube(constraint: &Constraint) -> usize {
    let mut longest = 0;
    for cube in constraint.as_slice() {
        longest = longest.max(cube.len());
    }
    longest
}

// Whether cubes are soon compared one by one.
fn are_soon_compared(guard: &Constraint, whole: &Constraint, under: &Constraint) -> bool {
    let compared = guard.len().saturating_add(under.len());
    whole.len().saturating_mul(compared) <= MOST_COMPARED
}

/// The orders of the levels of the guard and `under`, where cubes aren't soon compared one by one and the levels are few.
pub(crate) fn orders_for(
    alloc: Global,
    guard: &Constraint,
    whole: &Constraint,
    under: &Constraint,
) -> Result<Option<OrderTable>, NoMemory> {
    if are_soon_compared(guard, whole, under) {
        return Ok(None);
    }
    OrderTable::of(alloc, guard, under)
}

// The cubes are compared one by one, where that is soon done.
fn widely_worded(
    alloc: Global,
    guard: &Constraint,
    whole: &Constraint,
    under: &Constraint,
) -> Result<Constraint, NoMemory> {
    if !are_soon_compared(guard, whole, under) {
        return whole.copy(alloc);
    }
    let pruned = prune(alloc, whole)?;
    let closed = closed_cubes(alloc, &pruned)?;
    let wide = all_widened(alloc, &closed, guard, under)?;
    without_longest(alloc, wide, under)
}

/// The guard with its cubes as wide as `under` allows, without those that the others cover there, of which the longest go first.
/// `whole` is the guard without `<=`. The orders are looked up where there are some.
pub(crate) fn reworded(
    alloc: Global,
    orders: &Option<OrderTable>,
    guard: &Constraint,
    whole: &Constraint,
    under: &Constraint,
) -> Result<Constraint, NoMemory> {
    match orders {
        Some(orders) => wide_cubes(alloc, orders, whole, under),
        None => widely_worded(alloc, guard, whole, under),
    }
}

fn without_longest(
    alloc: Global,
    constraint: Constraint,
    under: &Constraint,
) -> Result<Constraint, NoMemory> {
    let longest = longest_cube(&constraint);
    let mut held = constraint;
    for step in 0..=longest {
        held = without_cubes(alloc, held, longest - step, under)?;
    }
    Ok(held)
}

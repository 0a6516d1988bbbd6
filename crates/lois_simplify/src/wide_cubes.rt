//! Short words for a guard of a few levels: cubes as wide as what surrounds the guard allows, and few of them that say all of it.
//! Nothing rests on how they are found: whoever takes them asks first whether they say the same.

use crate::orders::{
    OrderSet, OrderTable, are_common_inside, copy_set, count_common, is_empty, is_inside,
    keep_common, put_orders, take_out,
};
use lois_base::{Constraint, Cube, NoMemory};
use std::alloc::Global;

// Of more cubes only those are widened that the ones before don't have.
const MOST_WIDENED: usize = 256;

// A number above those of the literals of a table.
const MOST_LITERALS: usize = 64;

// A cube, by the numbers of its literals in a table, and the orders in which it holds.
#[derive(Drop)]
struct WideCube {
    literals: Vec<usize>,
    orders: OrderSet,
}

// The orders in which the guard is to hold, and those in which it may.
#[derive(Drop)]
struct Wanted {
    needed: OrderSet,
    allowed: OrderSet,
    counts: Vec<usize>,
}

// In how many of the orders each literal holds.
fn counts(alloc: Global, table: &OrderTable, needed: &OrderSet) -> Result<Vec<usize>, NoMemory> {
    let mut counts = Vec::new(alloc);
    for (index, _literal) in table.literals().iter().enumerate() {
        let count = match table.orders(index) {
            Some(held) => count_common(held, needed),
            None => 0,
        };
        counts.push(count)?;
    }
    Ok(counts)
}

fn wanted_orders(
    alloc: Global,
    table: &OrderTable,
    parts: &[OrderSet],
    under: &Constraint,
) -> Result<Wanted, NoMemory> {
    let each = table.each_cube_orders(alloc, under)?;
    let around = table.joined(alloc, &each)?;
    let mut needed = table.joined(alloc, parts)?;
    keep_common(&mut needed, &around);
    let mut allowed = copy_set(alloc, table.all())?;
    take_out(&mut allowed, &around);
    put_orders(&mut allowed, &needed);
    let counts = counts(alloc, table, &needed)?;
    Ok(Wanted {
        needed,
        allowed,
        counts,
    })
}

// Of each two levels the literal that says the most of those that hold in all the orders.
fn closed(alloc: Global, table: &OrderTable, set: &OrderSet) -> Result<Vec<usize>, NoMemory> {
    let mut literals = Vec::new(alloc);
    let mut next = 0_usize;
    for (index, _literal) in table.literals().iter().enumerate() {
        if let Some(held) = table.orders(index) {
            if index >= next && is_inside(set, held) {
                literals.push(index)?;
                next = table.next_two(index);
            }
        }
    }
    Ok(literals)
}

// The orders in which all the literals hold.
fn orders_of(alloc: Global, table: &OrderTable, literals: &[usize]) -> Result<OrderSet, NoMemory> {
    let mut set = copy_set(alloc, table.all())?;
    for index in literals {
        if let Some(held) = table.orders(*index) {
            keep_common(&mut set, held);
        }
    }
    Ok(set)
}

// The literals, those first that hold in the fewest orders, and of the others those of high levels.
fn rarest_first(
    alloc: Global,
    literals: &[usize],
    counts: &[usize],
) -> Result<Vec<usize>, NoMemory> {
    let mut keys = Vec::new(alloc);
    for index in literals {
        if let Some(count) = counts.get(*index) {
            let last = MOST_LITERALS.saturating_sub(*index);
            keys.push(count.saturating_mul(MOST_LITERALS).saturating_add(last))?;
        }
    }
    keys.sort_unstable();
    let mut sorted = Vec::new(alloc);
    for key in keys.iter() {
        sorted.push(MOST_LITERALS.saturating_sub(*key % MOST_LITERALS) % MOST_LITERALS)?;
    }
    Ok(sorted)
}

// For each place the orders in which the literals from there on hold.
fn orders_behind(
    alloc: Global,
    table: &OrderTable,
    literals: &[usize],
) -> Result<Vec<OrderSet>, NoMemory> {
    let mut set = copy_set(alloc, table.all())?;
    let mut sets = Vec::new(alloc);
    sets.push(copy_set(alloc, &set)?)?;
    for index in literals.iter().rev() {
        if let Some(held) = table.orders(*index) {
            keep_common(&mut set, held);
        }
        sets.push(copy_set(alloc, &set)?)?;
    }
    sets.reverse();
    Ok(sets)
}

// The literals without those that can be left out, one after the other.
fn without_literals(
    alloc: Global,
    table: &OrderTable,
    literals: &[usize],
    allowed: &OrderSet,
) -> Result<Vec<usize>, NoMemory> {
    let behind = orders_behind(alloc, table, literals)?;
    let mut before = copy_set(alloc, table.all())?;
    let mut kept = Vec::new(alloc);
    for (place, index) in literals.iter().enumerate() {
        if let (Some(held), Some(rest)) = (table.orders(*index), behind.get(place + 1)) {
            if !are_common_inside(&before, rest, allowed) {
                keep_common(&mut before, held);
                kept.push(*index)?;
            }
        }
    }
    Ok(kept)
}

// The literals with another one at the place.
fn with_other(
    alloc: Global,
    literals: &[usize],
    place: usize,
    other: usize,
) -> Result<Vec<usize>, NoMemory> {
    let mut changed = Vec::from_slice(alloc, literals)?;
    if let Some(own) = changed.get_mut(place) {
        *own = other;
    }
    Ok(changed)
}

// `!=` in the place of `<`, where that is enough.
fn with_differences(
    alloc: Global,
    table: &OrderTable,
    literals: &[usize],
    allowed: &OrderSet,
) -> Result<Vec<usize>, NoMemory> {
    let mut held = Vec::from_slice(alloc, literals)?;
    for (place, index) in literals.iter().enumerate() {
        if let Some(difference) = table.difference(*index) {
            let other = with_other(alloc, &held, place, difference)?;
            let wider = orders_of(alloc, table, &other)?;
            if is_inside(&wider, allowed) {
                held = other;
            }
        }
    }
    held.sort_unstable();
    Ok(held)
}

fn widened(
    alloc: Global,
    table: &OrderTable,
    part: &OrderSet,
    wanted: &Wanted,
) -> Result<WideCube, NoMemory> {
    let all = closed(alloc, table, part)?;
    let sorted = rarest_first(alloc, &all, &wanted.counts)?;
    let fewer = without_literals(alloc, table, &sorted, &wanted.allowed)?;
    let literals = with_differences(alloc, table, &fewer, &wanted.allowed)?;
    let orders = orders_of(alloc, table, &literals)?;
    Ok(WideCube { literals, orders })
}

fn has_alike(cubes: &[WideCube], cube: &WideCube) -> bool {
    for other in cubes {
        if other.literals.as_slice() == cube.literals.as_slice() {
            return true;
        }
    }
    false
}

// The parts as wide as is allowed, each once.
fn all_widened(
    alloc: Global,
    table: &OrderTable,
    parts: &[OrderSet],
    wanted: &Wanted,
) -> Result<Vec<WideCube>, NoMemory> {
    let mut cubes = Vec::new(alloc);
    let mut had = table.joined(alloc, &[])?;
    for part in parts {
        if parts.len() > MOST_WIDENED && is_inside(part, &had) {
            continue;
        }
        let wide = widened(alloc, table, part, wanted)?;
        if !has_alike(&cubes, &wide) {
            put_orders(&mut had, &wide.orders);
            cubes.push(wide)?;
        }
    }
    Ok(cubes)
}

// How long the cube is to read.
fn reading_length(cube: &WideCube) -> usize {
    cube.literals.len().saturating_add(1)
}

// The cube that has the most of the orders for its length, if one has any.
fn best_cube(cubes: &[WideCube], left: &OrderSet) -> Option<usize> {
    let mut best = None;
    let (mut most, mut length) = (0_usize, 1_usize);
    for (index, cube) in cubes.iter().enumerate() {
        let count = count_common(&cube.orders, left);
        let own = reading_length(cube);
        if count.saturating_mul(length) > most.saturating_mul(own) {
            best = Some(index);
            most = count;
            length = own;
        }
    }
    best
}

// Cubes that have all the orders, the best ones first.
fn best_cubes(
    alloc: Global,
    cubes: &[WideCube],
    needed: &OrderSet,
) -> Result<Vec<usize>, NoMemory> {
    let mut left = copy_set(alloc, needed)?;
    let mut chosen = Vec::new(alloc);
    for _cube in cubes {
        if let Some(best) = best_cube(cubes, &left) {
            if let Some(cube) = cubes.get(best) {
                take_out(&mut left, &cube.orders);
                chosen.push(best)?;
            }
        }
    }
    Ok(chosen)
}

// What the cube has of the orders that none of the chosen ones has, but for itself.
fn own_orders(
    alloc: Global,
    cubes: &[WideCube],
    chosen: &[usize],
    index: usize,
    needed: &OrderSet,
) -> Result<OrderSet, NoMemory> {
    let mut own = copy_set(alloc, needed)?;
    if let Some(cube) = cubes.get(index) {
        keep_common(&mut own, &cube.orders);
    }
    for other in chosen {
        if let Some(cube) = cubes.get(*other) {
            if *other != index {
                take_out(&mut own, &cube.orders);
            }
        }
    }
    Ok(own)
}

fn without_index(alloc: Global, chosen: &[usize], index: usize) -> Result<Vec<usize>, NoMemory> {
    let mut fewer = Vec::new(alloc);
    for other in chosen {
        if *other != index {
            fewer.push(*other)?;
        }
    }
    Ok(fewer)
}

// Without those cubes of the length that the others make superfluous.
fn without_length(
    alloc: Global,
    cubes: &[WideCube],
    chosen: Vec<usize>,
    length: usize,
    needed: &OrderSet,
) -> Result<Vec<usize>, NoMemory> {
    let all = Vec::from_slice(alloc, chosen.as_slice())?;
    let mut held = chosen;
    for index in all.iter() {
        if let Some(cube) = cubes.get(*index) {
            if reading_length(cube) == length {
                let own = own_orders(alloc, cubes, &held, *index, needed)?;
                if is_empty(&own) {
                    held = without_index(alloc, &held, *index)?;
                }
            }
        }
    }
    Ok(held)
}

fn longest(cubes: &[WideCube]) -> usize {
    let mut longest = 0;
    for cube in cubes {
        longest = longest.max(reading_length(cube));
    }
    longest
}

// Without the cubes that the others make superfluous, of which the longest go first.
fn without_longest(
    alloc: Global,
    cubes: &[WideCube],
    chosen: Vec<usize>,
    needed: &OrderSet,
) -> Result<Vec<usize>, NoMemory> {
    let longest = longest(cubes);
    let mut held = chosen;
    for step in 0..=longest {
        held = without_length(alloc, cubes, held, longest - step, needed)?;
    }
    Ok(held)
}

fn written(alloc: Global, table: &OrderTable, cube: &WideCube) -> Result<Cube, NoMemory> {
    let mut literals = Cube::new(alloc);
    for index in cube.literals.iter() {
        if let Some(lit) = table.literal(*index) {
            literals.push(lit)?;
        }
    }
    Ok(literals)
}

fn all_written(
    alloc: Global,
    table: &OrderTable,
    cubes: &[WideCube],
    chosen: &[usize],
) -> Result<Constraint, NoMemory> {
    let mut constraint = Constraint::new(alloc);
    for index in chosen {
        if let Some(cube) = cubes.get(*index) {
            constraint.push(written(alloc, table, cube)?)?;
        }
    }
    Ok(constraint)
}

/// The guard in few cubes, as wide as `under` allows. `whole` is the guard without `<=`.
pub(crate) fn wide_cubes(
    alloc: Global,
    table: &OrderTable,
    whole: &Constraint,
    under: &Constraint,
) -> Result<Constraint, NoMemory> {
    let parts = table.each_cube_orders(alloc, whole)?;
    let wanted = wanted_orders(alloc, table, &parts, under)?;
    let cubes = all_widened(alloc, table, &parts, &wanted)?;
    let best = best_cubes(alloc, &cubes, &wanted.needed)?;
    let chosen = without_longest(alloc, &cubes, best, &wanted.needed)?;
    all_written(alloc, table, &cubes, &chosen)
}

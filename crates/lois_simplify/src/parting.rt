//! Whether one constraint holds wherever another one does: a part that no single cube has is parted by a literal, and both halves
//! are looked at by themselves.

ghost use Rattle.std.specs.Prelude.{◌≡◌, [], ◌∷◌, ◌++◌, List, IfOk, OnOk, IsTrue};
ghost use Rattle.lois_base.specs.Atom.{Atom};
ghost use Rattle.lois_base.specs.Truth.{cube_holds, holds};

use crate::orders::{OrderSet, OrderTable, WORD_BITS, first_order};
use crate::shortening::longer_cube;
use lois_base::{Constraint, Cube, Lit, NoMemory};
use lois_constraint::{alternatives, entails, singleton};
use std::alloc::Global;

// Each literal parts the orders of a part, so six levels take no more than thirty rounds.
const MOST_ROUNDS: usize = 40;

// For each order the index of a cube that has it, if one has it.
type CubesByOrder = Vec<usize>;

fn put_word(cubes: &mut CubesByOrder, first: usize, word: u64, index: usize) {
    for bit in 0..WORD_BITS {
        if (word >> bit) & 1 == 1 {
            if let Some(own) = cubes.get_mut(first.saturating_add(bit)) {
                *own = index;
            }
        }
    }
}

// Puts the cube where its orders are.
fn put_cube(cubes: &mut CubesByOrder, orders: &OrderSet, index: usize) {
    for (place, word) in orders.iter().enumerate() {
        if *word != 0 {
            put_word(cubes, place.saturating_mul(WORD_BITS), *word, index);
        }
    }
}

fn no_cubes(alloc: Global, all: &OrderSet) -> Result<CubesByOrder, NoMemory> {
    let mut cubes = Vec::new(alloc);
    for _order in 0..all.len().saturating_mul(WORD_BITS) {
        cubes.push(0)?;
    }
    Ok(cubes)
}

fn cubes_by_order(
    alloc: Global,
    table: &OrderTable,
    constraint: &Constraint,
) -> Result<CubesByOrder, NoMemory> {
    let mut cubes = no_cubes(alloc, table.all())?;
    for (index, cube) in constraint.as_slice().iter().enumerate() {
        let orders = table.cube_orders(alloc, cube)?;
        put_cube(&mut cubes, &orders, index);
    }
    Ok(cubes)
}

fn cube_at(by_order: &CubesByOrder, order: usize) -> usize {
    match by_order.get(order) {
        Some(index) => *index,
        None => 0,
    }
}

// A literal of the cube that some orders of the set deny.
fn open_literal(table: &OrderTable, set: &OrderSet, cube: &Cube) -> Option<Lit> {
    for lit in cube.as_slice() {
        if !table.holds_in_all(set, *lit) {
            return Some(*lit);
        }
    }
    None
}

// A literal that parts the orders of the set, of the cube that is to have them.
fn parting_literal(
    table: &OrderTable,
    set: &OrderSet,
    outer: &Constraint,
    index: usize,
) -> Option<Lit> {
    match outer.get(index) {
        Some(cube) => open_literal(table, set, cube),
        None => None,
    }
}

// Whether the cube at the index has the part.
fn is_in_cube(
    alloc: Global,
    part: &Cube,
    outer: &Constraint,
    index: usize,
) -> Result<bool, NoMemory>
    ensures { IfOk result (λ b. IsTrue b → (e : List Atom) → IsTrue (cube_holds e part.now) → IsTrue (holds e outer.now)) }
{
    match outer.get(index) {
        Some(cube) => entails(alloc, part, cube),
        None => Ok(false),
    }
}

// The part where the literal holds, and where it doesn't.
fn halves(alloc: Global, part: &Cube, lit: Lit) -> Result<Constraint, NoMemory>
    ensures { IfOk result (λ r. (e : List Atom) → IsTrue (cube_holds e part.now) → IsTrue (holds e r)) }
{
    let mut halves = Constraint::new(alloc);
    let within = longer_cube(alloc, part, lit)?;
    halves.push(within)?;
    let turned = alternatives(alloc, lit)?;
    for other in turned.as_slice() {
        let beyond = longer_cube(alloc, part, *other)?;
        halves.push(beyond)?;
    }
    Ok(halves)
}

// What is left to look at of the part: its halves, or nothing where the cube at the index has it.
fn left_of_part(
    alloc: Global,
    table: &OrderTable,
    by_order: &CubesByOrder,
    part: &Cube,
    outer: &Constraint,
) -> Result<Constraint, NoMemory>
    ensures { IfOk result (λ r. (e : List Atom) → IsTrue (cube_holds e part.now) → IsTrue (holds e (r ++ outer.now))) }
{
    let set = table.cube_orders(alloc, part)?;
    let index = cube_at(by_order, first_order(&set));
    if let Some(lit) = parting_literal(table, &set, outer, index) {
        return halves(alloc, part, lit);
    }
    if is_in_cube(alloc, part, outer, index)? {
        return Ok(Constraint::new(alloc));
    }
    singleton(alloc, part)
}

fn append(constraint: &mut Constraint, more: Constraint) -> Result<(), NoMemory>
    ensures { OnOk result (constraint.new ≡ constraint.old ++ more) }
{
    for cube in more.into_vec() {
        constraint.push(cube)?;
    }
    Ok(())
}

// What is left to look at of the parts.
fn left_of_parts(
    alloc: Global,
    table: &OrderTable,
    by_order: &CubesByOrder,
    parts: &Constraint,
    outer: &Constraint,
) -> Result<Constraint, NoMemory>
    ensures { IfOk result (λ r. (e : List Atom) → IsTrue (holds e parts.now) → IsTrue (holds e (r ++ outer.now))) }
{
    let mut left = Constraint::new(alloc);
    for part in parts.as_slice() {
        let more = left_of_part(alloc, table, by_order, part, outer)?;
        append(&mut left, more)?;
    }
    Ok(left)
}

/// Whether the outer constraint is seen to hold wherever the inner one does. The table is of the levels of both.
pub(crate) fn is_seen_inside(
    alloc: Global,
    table: &OrderTable,
    inner: &Constraint,
    outer: &Constraint,
) -> Result<bool, NoMemory>
    ensures { IfOk result (λ b. IsTrue b → (e : List Atom) → IsTrue (holds e inner.now) → IsTrue (holds e outer.now)) }
{
    let by_order = cubes_by_order(alloc, table, outer)?;
    let mut parts = inner.copy(alloc)?;
    for _round in 0..MOST_ROUNDS {
        if parts.len() == 0 {
            return Ok(true);
        }
        parts = left_of_parts(alloc, table, &by_order, &parts, outer)?;
    }
    Ok(false)
}

//! Guards that a few choices of atoms show to fail somewhere.

ghost use Rattle.std.specs.Prelude.{List, IfOk, IsTrue, IsFalse};
ghost use Rattle.lois_base.specs.Atom.{Atom};
ghost use Rattle.lois_base.specs.Truth.{holds};

use lois_base::{Constraint, Cube, NoMemory};
use std::alloc::Global;

// A number above the levels that the cube speaks of.
fn size_of_cube(cube: &Cube) -> usize {
    let mut size = 0_usize;
    for lit in cube.as_slice() {
        size = size.max(lit.left.saturating_add(1));
        size = size.max(lit.right.saturating_add(1));
    }
    size
}

// A number above the levels that the constraint speaks of.
fn size_of(constraint: &Constraint) -> usize {
    let mut size = 0_usize;
    for cube in constraint.as_slice() {
        size = size.max(size_of_cube(cube));
    }
    size
}

// Whether `under` holds at the numbers, and the guard doesn't.
fn is_refuted_at(guard: &Constraint, under: &Constraint, numbers: &[u64]) -> bool
    ensures { IsTrue result → (e : List Atom) × IsTrue (holds e under.now) × IsFalse (holds e guard.now) }
{
    if !guard.fits(numbers.len()) {
        return false;
    }
    if !under.fits(numbers.len()) {
        return false;
    }
    under.at(numbers) && !guard.at(numbers)
}

fn rising(alloc: Global, size: usize) -> Result<Vec<u64>, NoMemory> {
    let mut numbers = Vec::new(alloc);
    for level in 0..size {
        numbers.push(level as u64)?;
    }
    Ok(numbers)
}

fn falling(alloc: Global, size: usize) -> Result<Vec<u64>, NoMemory> {
    let mut numbers = Vec::new(alloc);
    for level in 0..size {
        numbers.push((size - level) as u64)?;
    }
    Ok(numbers)
}

fn alike(alloc: Global, size: usize) -> Result<Vec<u64>, NoMemory> {
    let mut numbers = Vec::new(alloc);
    for _level in 0..size {
        numbers.push(0)?;
    }
    Ok(numbers)
}

/// Whether the guard is seen to fail where `under` holds: where all atoms are the same, or the levels go up or down. Most guards
/// that don't always hold are seen so, long before all choices are looked through.
pub(crate) fn is_refuted(
    alloc: Global,
    guard: &Constraint,
    under: &Constraint,
) -> Result<bool, NoMemory>
    ensures { IfOk result (λ b. IsTrue b → (e : List Atom) × IsTrue (holds e under.now) × IsFalse (holds e guard.now)) }
{
    let size = size_of(guard).max(size_of(under));
    let rising = rising(alloc, size)?;
    if is_refuted_at(guard, under, rising.as_slice()) {
        return Ok(true);
    }
    let falling = falling(alloc, size)?;
    if is_refuted_at(guard, under, falling.as_slice()) {
        return Ok(true);
    }
    let alike = alike(alloc, size)?;
    Ok(is_refuted_at(guard, under, alike.as_slice()))
}

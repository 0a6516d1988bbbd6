//! How a level is eliminated from a cube.

ghost use Rattle.std.specs.Prelude.{◌≡◌, ℕ, ◌+◌, ◌<◌, ◌&&◌, ◌||◌, false, List, map, IfOk, IfSome, IfNone, OnOk};
ghost use Rattle.std.specs.List.{list_any};
ghost use Rattle.lois_base.specs.Atom.{Atom};
ghost use Rattle.lois_base.specs.Fits.{CubeFits, ConstraintFits};
ghost use Rattle.lois_base.specs.Truth.{cube_holds, holds};
ghost use Rattle.lois_base.specs.OrderFree.{IsOrderFreeCube, IsOrderFree};
ghost use Rattle.lois_order.specs.Bounds.{is_step, is_weak, is_ne, is_lower, is_upper, is_weak_lower, parts, chained, taken_as, is_met, AddsLowerBounds, JoinsBounds};
ghost use Rattle.lois_order.specs.Equations.{equates, Equates, renamed_level, renamed, AreEquivalentCubes};

use crate::cubes::{add, contradicts};
use lois_base::{Constraint, Cube, Lit, NoMemory, Op};
use std::alloc::Global;

/// Another level that the cube sets equal to this one.
pub fn equal_level(cube: &Cube, level: usize) -> Option<usize>
    ensures found { IfSome result (λ other. Equates cube.now level other) }
    ensures none { IfNone result (list_any (equates level) cube.now ≡ false) }
{
    for lit in cube.as_slice() {
        if lit.op == Op::Eq && lit.left != lit.right {
            if lit.left == level {
                return Some(lit.right);
            }
            if lit.right == level {
                return Some(lit.left);
            }
        }
    }
    None
}

fn renamed_to(level: usize, from: usize, to: usize) -> usize
    ensures { result ≡ renamed_level from to level }
{
    if level == from { to } else { level }
}

/// The cube with the level `to` in place of `from`.
pub fn substitute_in_cube(
    alloc: Global,
    cube: &Cube,
    from: usize,
    to: usize,
) -> Result<Cube, NoMemory>
    requires other { to < from }
    requires levels { CubeFits (from + 1) cube.now }
    ensures holds { IfOk result (AreEquivalentCubes (map (renamed from to) cube.now)) }
    ensures levels { IfOk result (CubeFits from) }
    ensures order { IfOk result (λ r. IsOrderFreeCube cube.now → IsOrderFreeCube r) }
{
    let mut answer = Cube::new(alloc);
    for lit in cube.as_slice() {
        let renamed = Lit {
            op: lit.op,
            left: renamed_to(lit.left, from, to),
            right: renamed_to(lit.right, from, to),
        };
        add(&mut answer, renamed)?;
    }
    Ok(answer)
}

fn is_step(op: Op) -> bool
    ensures { result ≡ is_step op }
{
    match op {
        Op::Lt | Op::AtMost => true,
        Op::Eq | Op::Ne => false,
    }
}

fn bounds_below(lit: &Lit, level: usize) -> bool
    ensures { result ≡ is_lower level lit.now }
{
    is_step(lit.op) && lit.right == level && lit.left != level
}

fn bounds_above(lit: &Lit, level: usize) -> bool
    ensures { result ≡ is_upper level lit.now }
{
    is_step(lit.op) && lit.left == level && lit.right != level
}

fn is_weak(op: Op) -> bool
    ensures { result ≡ is_weak op }
{
    match op {
        Op::AtMost => true,
        Op::Eq | Op::Ne | Op::Lt => false,
    }
}

fn bounds_weakly_below(lit: &Lit, level: usize) -> bool
    ensures { result ≡ is_weak_lower level lit.now }
{
    is_weak(lit.op) && lit.right == level && lit.left != level
}

fn is_ne(op: Op) -> bool
    ensures { result ≡ is_ne op }
{
    match op {
        Op::Ne => true,
        Op::Eq | Op::Lt | Op::AtMost => false,
    }
}

fn parts(lit: &Lit, level: usize) -> bool
    ensures { result ≡ parts level lit.now }
{
    is_ne(lit.op) && (lit.left == level || lit.right == level)
}

fn some_bounds_weakly_below(cube: &Cube, level: usize) -> bool
    ensures { result ≡ list_any (is_weak_lower level) cube.now }
{
    cube.as_slice()
        .iter()
        .any(|lit| bounds_weakly_below(lit, level))
}

fn some_parts(cube: &Cube, level: usize) -> bool
    ensures { result ≡ list_any (parts level) cube.now }
{
    cube.as_slice().iter().any(|lit| parts(lit, level))
}

/// Whether one cube doesn't say that some atom at the level meets the cube: the atom may be a lower bound of the level,
/// and there may be another that it mustn't be.
pub fn has_cases(cube: &Cube, level: usize) -> bool
    ensures { result ≡ (list_any (is_weak_lower level) cube.now && list_any (parts level) cube.now) }
{
    some_bounds_weakly_below(cube, level) && some_parts(cube, level)
}

// What two steps upward say in a row.
fn chained(first: Op, second: Op) -> Op
    ensures { result ≡ chained first second }
{
    match first {
        Op::AtMost => second,
        Op::Eq | Op::Ne | Op::Lt => Op::Lt,
    }
}

fn taken_as(strict: bool, op: Op) -> Op
    ensures { result ≡ taken_as strict op }
{
    if strict { Op::Lt } else { op }
}

/// What a cube says without the level, where no equation has it: the literals that don't speak
/// of it, and that each lower bound of it is below each upper bound, or at most that one where both are weak.
/// With `strict` the lower bounds are taken as strict ones.
pub fn resolve_bounds(
    alloc: Global,
    cube: &Cube,
    level: usize,
    strict: bool,
) -> Result<Cube, NoMemory>
    requires { CubeFits (level + 1) cube.now }
    ensures holds { IfOk result (JoinsBounds level strict cube.now) }
    ensures levels { IfOk result (CubeFits level) }
    ensures order { IfOk result (λ r. IsOrderFreeCube cube.now → IsOrderFreeCube r) }
{
    let mut answer = Cube::new(alloc);
    for lit in cube.as_slice() {
        if bounds_above(lit, level) {
            let step = taken_as(strict, lit.op);
            add_lower_bounds(&mut answer, cube, level, step, lit.right)?;
        } else if lit.left != level && lit.right != level {
            add(&mut answer, *lit)?;
        }
    }
    Ok(answer)
}

// Adds what each lower bound of the level and a step from the level say of `upper`.
fn add_lower_bounds(
    answer: &mut Cube,
    cube: &Cube,
    level: usize,
    step: Op,
    upper: usize,
) -> Result<(), NoMemory>
    requires other { upper < level }
    requires levels { CubeFits (level + 1) cube.now }
    requires answer { CubeFits level answer.old }
    ensures holds { OnOk result (AddsLowerBounds level step upper cube.now answer.old answer.new) }
    ensures levels { OnOk result (CubeFits level answer.new) }
{
    for lit in cube.as_slice() {
        if bounds_below(lit, level) {
            let bound = Lit {
                op: chained(lit.op, step),
                left: lit.left,
                right: upper,
            };
            add(answer, bound)?;
        }
    }
    Ok(())
}

/// Adds the cube, unless it contradicts itself.
pub fn put(answer: &mut Constraint, cube: Cube) -> Result<(), NoMemory>
    ensures holds { OnOk result ((c : List Atom) → holds c answer.new ≡ (holds c answer.old || cube_holds c cube)) }
    ensures levels { OnOk result ((n : ℕ) → ConstraintFits n answer.old → CubeFits n cube → ConstraintFits n answer.new) }
    ensures order { OnOk result (IsOrderFree answer.old → IsOrderFreeCube cube → IsOrderFree answer.new) }
{
    if contradicts(&cube) {
        return Ok(());
    }
    answer.push(cube)
}

/// Adds, for each weak lower bound of the level, the cube with that bound in place of the level.
pub fn add_cases(
    alloc: Global,
    answer: &mut Constraint,
    cube: &Cube,
    level: usize,
) -> Result<(), NoMemory>
    requires levels { CubeFits (level + 1) cube.now }
    requires answer { ConstraintFits level answer.old }
    ensures holds { OnOk result ((c : List Atom) → holds c answer.new ≡ (holds c answer.old || list_any (is_met c level cube.now) cube.now)) }
    ensures levels { OnOk result (ConstraintFits level answer.new) }
    ensures order { OnOk result (IsOrderFreeCube cube.now → IsOrderFree answer.old → IsOrderFree answer.new) }
{
    for lit in cube.as_slice() {
        if bounds_weakly_below(lit, level) {
            let case = substitute_in_cube(alloc, cube, level, lit.left)?;
            put(answer, case)?;
        }
    }
    Ok(())
}

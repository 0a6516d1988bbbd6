//! Constraints at other levels.

ghost use Rattle.std.specs.Prelude.{◌≡◌, ◌<◌, ◌^◌, IfOk};
ghost use Rattle.lois_base.specs.Fits.{LitFits, CubeFits, ConstraintFits};
ghost use Rattle.lois_base.specs.Shift.{shift_level, shift_lit, shift_cube, shift_constraint};
ghost use Rattle.lois_constraint.specs.Substitution.{put_level, put_cube, put_constraint};

use lois_base::{Constraint, Cube, Lit, NoMemory};
use std::alloc::Global;

fn shifted_level(level: usize, from: usize, by: usize) -> usize
    requires { shift_level from by level < 2 ^ 64 }
    ensures { result ≡ shift_level from by level }
{
    if level < from { level } else { level + by }
}

fn shifted_lit(lit: Lit, from: usize, by: usize) -> Lit
    requires { LitFits (2 ^ 64) (shift_lit from by lit) }
    ensures { result ≡ shift_lit from by lit }
{
    Lit {
        op: lit.op,
        left: shifted_level(lit.left, from, by),
        right: shifted_level(lit.right, from, by),
    }
}

fn shifted_cube(alloc: Global, cube: &Cube, from: usize, by: usize) -> Result<Cube, NoMemory>
    requires { CubeFits (2 ^ 64) (shift_cube from by cube.now) }
    ensures { IfOk result (λ r. r ≡ shift_cube from by cube.now) }
{
    let mut shifted = Cube::new(alloc);
    for lit in cube.as_slice() {
        shifted.push(shifted_lit(*lit, from, by))?;
    }
    Ok(shifted)
}

/// The constraint with every level from `from` on raised by `by`.
pub fn shift(alloc: Global, c: &Constraint, from: usize, by: usize) -> Result<Constraint, NoMemory>
    requires { ConstraintFits (2 ^ 64) (shift_constraint from by c.now) }
    ensures { IfOk result (λ r. r ≡ shift_constraint from by c.now) }
{
    let mut shifted = Constraint::new(alloc);
    for cube in c.as_slice() {
        shifted.push(shifted_cube(alloc, cube, from, by)?)?;
    }
    Ok(shifted)
}

fn replaced(level: usize, old: usize, new: usize) -> usize
    ensures { result ≡ put_level old new level }
{
    if level == old { new } else { level }
}

/// The cube with `other` in each place of `level`.
pub fn substitute_cube(
    alloc: Global,
    cube: &Cube,
    level: usize,
    other: usize,
) -> Result<Cube, NoMemory>
    ensures { IfOk result (λ r. r ≡ put_cube level other cube.now) }
{
    let mut substituted = Cube::new(alloc);
    for lit in cube.as_slice() {
        substituted.push(Lit {
            op: lit.op,
            left: replaced(lit.left, level, other),
            right: replaced(lit.right, level, other),
        })?;
    }
    Ok(substituted)
}

/// The constraint with `other` in each place of `level`.
pub fn substitute(
    alloc: Global,
    c: &Constraint,
    level: usize,
    other: usize,
) -> Result<Constraint, NoMemory>
    ensures { IfOk result (λ r. r ≡ put_constraint level other c.now) }
{
    let mut substituted = Constraint::new(alloc);
    for cube in c.as_slice() {
        substituted.push(substitute_cube(alloc, cube, level, other)?)?;
    }
    Ok(substituted)
}

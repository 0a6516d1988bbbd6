//! Constraints without one cube of another: the cubes that hold at a sample are parted, the others stay as they are.

ghost use Rattle.std.specs.Prelude.{◌≡◌, ℕ, Bool, List, [], ◌∷◌, ◌++◌, ◌&&◌, ◌||◌, not, length, IfOk, IfSome, IfNone, OnOk, IsTrue, IsFalse};
ghost use Rattle.std.specs.List.{Contains};
ghost use Rattle.lois_base.specs.Atom.{Atom};
ghost use Rattle.lois_base.specs.Fits.{ConstraintFits, CubeFits};
ghost use Rattle.lois_base.specs.Truth.{cube_holds, holds, sampled};
ghost use Rattle.lois_base.specs.Validity.{AdmitsConstraint, AdmitsCube};
ghost use Rattle.lois_census.specs.Left.{IsLeftOf};

use lois_base::{Constraint, Cube, Lit, NoMemory};
use lois_constraint::{and_not, meet, singleton};
use std::alloc::Global;

// The first cube that holds at the sample.
fn cube_at<'c>(constraint: &'c Constraint, sample: &[u64]) -> Option<&'c Cube>
    requires { ConstraintFits (length sample.now) constraint.now }
    ensures some { IfSome result (λ k. IsTrue (cube_holds (sampled sample.now) k.now)) }
    ensures one { IfSome result (λ k. Contains constraint.now k.now) }
    ensures none { IfNone result (IsFalse (holds (sampled sample.now) constraint.now)) }
{
    for cube in constraint.as_slice() {
        if cube.at(sample) {
            return Some(cube);
        }
    }
    None
}

// The literal as a constraint.
fn constraint_of(alloc: Global, lit: Lit) -> Result<Constraint, NoMemory>
    ensures { IfOk result (λ r. r ≡ (lit ∷ []) ∷ []) }
{
    let mut cube = Cube::new(alloc);
    cube.push(lit)?;
    let mut one = Constraint::new(alloc);
    one.push(cube)?;
    Ok(one)
}

/// Puts the cubes of a constraint behind others.
pub(crate) fn append(cubes: &mut Constraint, more: Constraint) -> Result<(), NoMemory>
    ensures { OnOk result (cubes.new ≡ cubes.old ++ more) }
{
    for cube in more.into_vec() {
        cubes.push(cube)?;
    }
    Ok(())
}

// Puts the parts of the cube outside of the other one behind the cubes. No two of the parts meet: each has the literals of the
// other cube before one, and that one denied.
fn push_parts(
    alloc: Global,
    cubes: &mut Constraint,
    cube: &Cube,
    other: &Cube,
) -> Result<(), NoMemory>
    ensures truth { OnOk result ((e : List Atom) → holds e cubes.new ≡ (holds e cubes.old || (cube_holds e cube.now && not (cube_holds e other.now)))) }
    ensures fits { OnOk result ((n : ℕ) → ConstraintFits n cubes.old → CubeFits n cube.now → CubeFits n other.now → ConstraintFits n cubes.new) }
    ensures operators { OnOk result ((o : Bool) → AdmitsConstraint o cubes.old → AdmitsCube o cube.now → AdmitsCube o other.now → AdmitsConstraint o cubes.new) }
{
    let mut rest = singleton(alloc, cube)?;
    for lit in other.as_slice() {
        let one = constraint_of(alloc, *lit)?;
        let outside = and_not(alloc, &rest, &one)?;
        append(cubes, outside)?;
        rest = meet(alloc, &rest, &one)?;
    }
    Ok(())
}

// Puts what is left of the cube behind the cubes: its parts outside of the other one where it holds at the sample, else all of it.
fn push_left(
    alloc: Global,
    cubes: &mut Constraint,
    cube: Cube,
    other: &Cube,
    sample: &[u64],
) -> Result<(), NoMemory>
    requires fits { CubeFits (length sample.now) cube }
    requires sample { IsTrue (cube_holds (sampled sample.now) other.now) }
    ensures left { OnOk result ((e : List Atom) → IsLeftOf (cube_holds e other.now) (holds e cubes.old || cube_holds e cube) (holds e cubes.new)) }
    ensures gone { OnOk result (IsFalse (holds (sampled sample.now) cubes.old) → IsFalse (holds (sampled sample.now) cubes.new)) }
    ensures fits { OnOk result ((n : ℕ) → ConstraintFits n cubes.old → CubeFits n cube → CubeFits n other.now → ConstraintFits n cubes.new) }
    ensures operators { OnOk result ((o : Bool) → AdmitsConstraint o cubes.old → AdmitsCube o cube → AdmitsCube o other.now → AdmitsConstraint o cubes.new) }
{
    if cube.at(sample) {
        return push_parts(alloc, cubes, &cube, other);
    }
    cubes.push(cube)
}

// Takes the other cube off each cube that holds at the sample, where the other one holds too.
fn without_cube(
    alloc: Global,
    constraint: Constraint,
    other: &Cube,
    sample: &[u64],
) -> Result<Constraint, NoMemory>
    requires fits { ConstraintFits (length sample.now) constraint }
    requires sample { IsTrue (cube_holds (sampled sample.now) other.now) }
    ensures left { IfOk result (λ r. (e : List Atom) → IsLeftOf (cube_holds e other.now) (holds e constraint) (holds e r)) }
    ensures gone { IfOk result (λ r. IsFalse (holds (sampled sample.now) r)) }
    ensures fits { IfOk result (λ r. (n : ℕ) → ConstraintFits n constraint → CubeFits n other.now → ConstraintFits n r) }
    ensures operators { IfOk result (λ r. (o : Bool) → AdmitsConstraint o constraint → AdmitsCube o other.now → AdmitsConstraint o r) }
{
    let mut left = Constraint::new(alloc);
    for cube in constraint.into_vec() {
        push_left(alloc, &mut left, cube, other, sample)?;
    }
    Ok(left)
}

/// Takes a cube of `taken` off that holds at the sample. Only the cubes that hold there are parted, so what is taken off is no more
/// than the cube and no less than the sample.
pub(crate) fn without_cube_at(
    alloc: Global,
    constraint: Constraint,
    taken: &Constraint,
    sample: &[u64],
) -> Result<Constraint, NoMemory>
    requires fits { ConstraintFits (length sample.now) constraint }
    requires taken_fits { ConstraintFits (length sample.now) taken.now }
    requires sample { IsTrue (holds (sampled sample.now) taken.now) }
    ensures left { IfOk result (λ r. (e : List Atom) → IsLeftOf (holds e taken.now) (holds e constraint) (holds e r)) }
    ensures gone { IfOk result (λ r. IsFalse (holds (sampled sample.now) r)) }
    ensures fits { IfOk result (λ r. (n : ℕ) → ConstraintFits n constraint → ConstraintFits n taken.now → ConstraintFits n r) }
    ensures operators { IfOk result (λ r. (o : Bool) → AdmitsConstraint o constraint → AdmitsConstraint o taken.now → AdmitsConstraint o r) }
{
    match cube_at(taken, sample) {
        Some(cube) => without_cube(alloc, constraint, cube, sample),
        None => unreachable!(),
    }
}

//! Constraints without the cubes and the literals that they don't need.

ghost use Rattle.std.specs.Prelude.{◌≡◌, ℕ, Bool, List, ◌++◌, ◌&&◌, IfOk, IfSome};
ghost use Rattle.lois_base.specs.Atom.{Atom};
ghost use Rattle.lois_base.specs.Fits.{ConstraintFits};
ghost use Rattle.lois_base.specs.Truth.{cube_holds, holds};
ghost use Rattle.lois_base.specs.Validity.{AdmitsConstraint, IsStrictConstraint};
ghost use Rattle.lois_base.specs.UsedLevels.{UsesOnly};
ghost use Rattle.lois_constraint.specs.Entailment.{CubeIsSatisfiable, IsPruned};
ghost use Rattle.lois_constraint.specs.Rules.{Rule, CubeObeys, ConstraintObeys};
ghost use Rattle.lois_constraint.specs.Tight.{some_holds, SomeObeys};

use crate::antichain::Antichain;
use crate::closed_cube::ClosedCube;
use lois_base::{Constraint, Cube, NoMemory};
use std::alloc::Global;

/// The cube without the literals that follow from earlier ones, or `None` where it can't be met.
pub fn tighten(alloc: Global, cube: &Cube) -> Result<Option<Cube>, NoMemory>
    ensures truth { IfOk result (λ o. (c : List Atom) → some_holds c o ≡ cube_holds c cube.now) }
    ensures met { IfOk result (λ o. IfSome o CubeIsSatisfiable) }
    ensures rules { IfOk result (λ o. IfSome o (λ r. (rule : Rule) → CubeObeys rule cube.now → CubeObeys rule r)) }
{
    match ClosedCube::of(alloc, cube)? {
        Some(closed) => Ok(Some(closed.into_cube())),
        None => Ok(None),
    }
}

/// The constraint without the cubes that can't be met, those that entail another one, and the literals that
/// follow from others of their cube.
pub fn prune(alloc: Global, c: &Constraint) -> Result<Constraint, NoMemory>
    ensures truth { IfOk result (λ r. (e : List Atom) → holds e r ≡ holds e c.now) }
    ensures pruned { IfOk result IsPruned }
    ensures levels { IfOk result (UsesOnly c.now) }
    ensures fits { IfOk result (λ r. (n : ℕ) → ConstraintFits n c.now → ConstraintFits n r) }
    ensures operators { IfOk result (λ r. (o : Bool) → AdmitsConstraint o c.now → AdmitsConstraint o r) }
    ensures strict { IfOk result (λ r. IsStrictConstraint c.now → IsStrictConstraint r) }
{
    Antichain::of(alloc, c)?.into_constraint(alloc)
}

// The cube by itself, where there is one.
fn constraint_of(alloc: Global, found: Option<ClosedCube>) -> Result<Constraint, NoMemory>
    ensures truth { IfOk result (λ r. (e : List Atom) → holds e r ≡ some_holds e found) }
    ensures pruned { IfOk result IsPruned }
    ensures rules { IfOk result (λ r. (rule : Rule) → SomeObeys rule found → ConstraintObeys rule r) }
{
    let mut constraint = Constraint::new(alloc);
    if let Some(closed) = found {
        constraint.push(closed.into_cube())?;
    }
    Ok(constraint)
}

// Both cubes, or `None` where they can't be met.
fn meet_cubes(alloc: Global, a: &Cube, b: &Cube) -> Result<Option<ClosedCube>, NoMemory>
    ensures truth { IfOk result (λ o. (c : List Atom) → some_holds c o ≡ (cube_holds c a.now && cube_holds c b.now)) }
    ensures rules { IfOk result (λ o. (rule : Rule) → CubeObeys rule a.now → CubeObeys rule b.now → SomeObeys rule o) }
{
    match ClosedCube::of(alloc, a)? {
        Some(closed) => closed.and_literals(alloc, b.as_slice()),
        None => Ok(None),
    }
}

// What holds where both do, pruned. Mostly each is one cube, and then nothing is to be compared.
fn meet_pruned(alloc: Global, a: &Constraint, b: &Constraint) -> Result<Constraint, NoMemory>
    ensures truth { IfOk result (λ r. (e : List Atom) → holds e r ≡ (holds e a.now && holds e b.now)) }
    ensures pruned { IfOk result IsPruned }
    ensures rules { IfOk result (λ r. (rule : Rule) → ConstraintObeys rule a.now → ConstraintObeys rule b.now → ConstraintObeys rule r) }
{
    if let [first] = a.as_slice() {
        if let [second] = b.as_slice() {
            let both = meet_cubes(alloc, first, second)?;
            return constraint_of(alloc, both);
        }
    }
    Antichain::of_both(alloc, a, b)?.into_constraint(alloc)
}

/// A constraint that holds where both do, pruned.
pub fn meet(alloc: Global, a: &Constraint, b: &Constraint) -> Result<Constraint, NoMemory>
    ensures truth { IfOk result (λ r. (e : List Atom) → holds e r ≡ (holds e a.now && holds e b.now)) }
    ensures pruned { IfOk result IsPruned }
    ensures levels { IfOk result (UsesOnly (a.now ++ b.now)) }
    ensures fits { IfOk result (λ r. (n : ℕ) → ConstraintFits n a.now → ConstraintFits n b.now → ConstraintFits n r) }
    ensures operators { IfOk result (λ r. (o : Bool) → AdmitsConstraint o a.now → AdmitsConstraint o b.now → AdmitsConstraint o r) }
{
    meet_pruned(alloc, a, b)
}

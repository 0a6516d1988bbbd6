//! Both and either, with nothing dropped.

ghost use Rattle.std.specs.Prelude.{◌≡◌, ℕ, Bool, List, [], ◌∷◌, ◌++◌, ◌&&◌, ◌||◌, map, IfOk, OnOk};
ghost use Rattle.lois_base.specs.Atom.{Atom};
ghost use Rattle.lois_base.specs.Fits.{ConstraintFits};
ghost use Rattle.lois_base.specs.Normal.{both};
ghost use Rattle.lois_base.specs.Truth.{cube_holds, holds};
ghost use Rattle.lois_base.specs.Validity.{AdmitsConstraint};
ghost use Rattle.lois_base.specs.UsedLevels.{UsesOnly};

use lois_base::{Constraint, Cube, NoMemory};
use std::alloc::Global;

/// The constraint of one cube alone. Errors: `NoMemory`.
pub fn singleton(alloc: Global, cube: &Cube) -> Result<Constraint, NoMemory>
    ensures cubes { IfOk result (λ r. r ≡ cube.now ∷ []) }
{
    let mut one = Constraint::new(alloc);
    one.push(cube.copy(alloc)?)?;
    Ok(one)
}

/// A cube that holds where both hold: the literals of the one, then those of the other.
pub fn conjoin_cube(alloc: Global, a: &Cube, b: &Cube) -> Result<Cube, NoMemory>
    ensures literals { IfOk result (λ r. r ≡ a.now ++ b.now) }
    ensures truth { IfOk result (λ r. (c : List Atom) → cube_holds c r ≡ (cube_holds c a.now && cube_holds c b.now)) }
{
    let mut conjoined = a.copy(alloc)?;
    for lit in b.as_slice() {
        conjoined.push(*lit)?;
    }
    Ok(conjoined)
}

/// A constraint that holds where one of the two does: the cubes of the one, then those of the other.
pub fn or(alloc: Global, a: &Constraint, b: &Constraint) -> Result<Constraint, NoMemory>
    ensures cubes { IfOk result (λ r. r ≡ a.now ++ b.now) }
    ensures truth { IfOk result (λ r. (c : List Atom) → holds c r ≡ (holds c a.now || holds c b.now)) }
    ensures levels { IfOk result (UsesOnly (a.now ++ b.now)) }
    ensures fits { IfOk result (λ r. (n : ℕ) → ConstraintFits n a.now → ConstraintFits n b.now → ConstraintFits n r) }
    ensures operators { IfOk result (λ r. (o : Bool) → AdmitsConstraint o a.now → AdmitsConstraint o b.now → AdmitsConstraint o r) }
{
    let mut joined = a.copy(alloc)?;
    for cube in b.as_slice() {
        joined.push(cube.copy(alloc)?)?;
    }
    Ok(joined)
}

// one cube with each of the others
fn conjoin_each(
    alloc: Global,
    product: &mut Constraint,
    cube: &Cube,
    others: &Constraint,
) -> Result<(), NoMemory>
    ensures { OnOk result (product.new ≡ product.old ++ map (λ d. cube.now ++ d) others.now) }
{
    for other in others.as_slice() {
        product.push(conjoin_cube(alloc, cube, other)?)?;
    }
    Ok(())
}

/// A constraint that holds where both do: each cube of the one with each of the other. No cube is
/// dropped, not even one that can't be met.
pub fn and(alloc: Global, a: &Constraint, b: &Constraint) -> Result<Constraint, NoMemory>
    ensures cubes { IfOk result (λ r. r ≡ both a.now b.now) }
    ensures truth { IfOk result (λ r. (c : List Atom) → holds c r ≡ (holds c a.now && holds c b.now)) }
    ensures levels { IfOk result (UsesOnly (a.now ++ b.now)) }
    ensures fits { IfOk result (λ r. (n : ℕ) → ConstraintFits n a.now → ConstraintFits n b.now → ConstraintFits n r) }
    ensures operators { IfOk result (λ r. (o : Bool) → AdmitsConstraint o a.now → AdmitsConstraint o b.now → AdmitsConstraint o r) }
{
    let mut product = Constraint::new(alloc);
    for cube in a.as_slice() {
        conjoin_each(alloc, &mut product, cube, b)?;
    }
    Ok(product)
}

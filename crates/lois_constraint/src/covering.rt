//! Whether several cubes have another one, as far as a constraint holds.

ghost use Rattle.std.specs.Prelude.{◌++◌, List, IfOk, IsTrue, IsFalse};
ghost use Rattle.std.specs.List.{Contains};
ghost use Rattle.lois_base.specs.Atom.{Atom};
ghost use Rattle.lois_base.specs.Truth.{cube_holds, holds};
ghost use Rattle.lois_base.specs.declared.guards.Lit.{Lit};
ghost use Rattle.lois_constraint.specs.Uncovered.{IsUncovered};

use crate::antichain::entails_one;
use crate::closed_cube::ClosedCube;
use lois_base::{Constraint, Cube, NoMemory};
use std::alloc::Global;

// Whether one of the others contains both cubes together, if some choice meets them.
fn has_both(
    alloc: Global,
    others: &Constraint,
    closed: &ClosedCube,
    cube: &Cube,
) -> Result<bool, NoMemory>
    ensures yes { IfOk result (λ b. IsTrue b → (c : List Atom) → IsTrue (cube_holds c closed.now) → IsTrue (cube_holds c cube.now) → IsTrue (holds c others.now)) }
    ensures no { IfOk result (λ b. IsFalse b → IsUncovered (closed.now ++ cube.now) others.now) }
{
    let Some(both) = closed.meet(alloc, cube)? else {
        return Ok(true);
    };
    // asked for what its clause tells: some choice meets it
    let _met = both.cube();
    Ok(entails_one(&both, others))
}

/// Whether for each cube of `under` one of the others contains it together with the given cube, if some choice meets the two. So
/// the others have the given cube wherever `under` holds. Errors: `NoMemory`.
pub fn covers_cube(
    alloc: Global,
    others: &Constraint,
    cube: &Cube,
    under: &Constraint,
) -> Result<bool, NoMemory>
    ensures yes { IfOk result (λ b. IsTrue b → (c : List Atom) → IsTrue (holds c under.now) → IsTrue (cube_holds c cube.now) → IsTrue (holds c others.now)) }
    ensures no { IfOk result (λ b. IsFalse b → (k : List Lit) × Contains under.now k × IsUncovered (cube.now ++ k) others.now) }
{
    let Some(closed) = ClosedCube::of(alloc, cube)? else {
        return Ok(true);
    };
    for part in under.as_slice() {
        if !has_both(alloc, others, &closed, part)? {
            return Ok(false);
        }
    }
    Ok(true)
}

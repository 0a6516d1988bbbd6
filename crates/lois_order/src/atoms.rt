//! The structure of the atoms with equality and order.

ghost use Rattle.std.specs.Prelude.{◌≡◌, ◌+◌, true, false, IfOk, List};
ghost use Rattle.std.specs.List.{list_any};
ghost use Rattle.lois_base.specs.Fits.{CubeFits, ConstraintFits};
ghost use Rattle.lois_base.specs.Theory.{Eliminates};
ghost use Rattle.lois_base.specs.OrderFree.{IsOrderFreeCube, IsOrderFree};
ghost use Rattle.lois_order.specs.Cubes.{is_absurd};
ghost use Rattle.lois_order.specs.Equations.{equates};

use crate::cubes::contradicts;
use crate::rule::{add_cases, equal_level, has_cases, put, resolve_bounds, substitute_in_cube};
use lois_base::{Constraint, Cube, NoMemory, Op, Structure};
use std::alloc::Global;

/// The fractions, which admit `=`, `!=`, `<` and `<=`.
#[derive(Clone, Copy, Debug)]
pub struct OrderAtoms;

// Without the level, which no equation has.
fn without_level(alloc: Global, cube: &Cube, size: usize) -> Result<Constraint, NoMemory>
    requires levels { CubeFits (size + 1) cube.now }
    requires apart { list_any is_absurd cube.now ≡ false }
    requires free { list_any (equates size) cube.now ≡ false }
    ensures equivalent { IfOk result (Eliminates size cube.now) }
    ensures levels { IfOk result (ConstraintFits size) }
    ensures order { IfOk result (λ r. IsOrderFreeCube cube.now → IsOrderFree r) }
{
    let mut answer = Constraint::new(alloc);
    let cases = has_cases(cube, size);
    let rest = resolve_bounds(alloc, cube, size, cases)?;
    put(&mut answer, rest)?;
    if !cases {
        return Ok(answer);
    }
    add_cases(alloc, &mut answer, cube, size)?;
    Ok(answer)
}

impl Structure for OrderAtoms {
    ghost ordered = { true };

    /// True, whatever the operator.
    fn admits(_op: Op) -> bool {
        true
    }

    /// One cube at most, or one more for each `<=` with the level on the right where a `!=` has the level.
    /// No cube has a literal twice. Errors: `NoMemory`.
    #[tactic(auto, using(lois_base::proofs::Validity::constraint_admitted))]
    fn eliminate(alloc: Global, cube: &Cube, size: usize) -> Result<Constraint, NoMemory> {
        let mut answer = Constraint::new(alloc);
        if contradicts(cube) {
            return Ok(answer);
        }
        let Some(other) = equal_level(cube, size) else {
            return without_level(alloc, cube, size);
        };
        let rest = substitute_in_cube(alloc, cube, size, other)?;
        put(&mut answer, rest)?;
        Ok(answer)
    }
}

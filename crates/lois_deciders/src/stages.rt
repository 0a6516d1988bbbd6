//! A cube with its levels eliminated, one after another from the last.

ghost use Rattle.std.specs.Prelude.{◌+◌, ◌∷◌, [], IfOk};
ghost use Rattle.lois_base.specs.Bound.{HoldsForSome};
ghost use Rattle.lois_base.specs.Fits.{CubeFits, ConstraintFits};
ghost use Rattle.lois_deciders.specs.Stages.{AreStages};

use lois_base::{Constraint, Cube, NoMemory, Structure};
use lois_constraint::or;
use lois_order::OrderAtoms;
use std::alloc::Global;

// Over the levels below `level`, that some atom at the level makes the constraint hold.
fn without_level(alloc: Global, c: &Constraint, level: usize) -> Result<Constraint, NoMemory>
    requires { ConstraintFits (level + 1) c.now }
    ensures truth { IfOk result (HoldsForSome level c.now) }
    ensures levels { IfOk result (ConstraintFits level) }
{
    let mut rest = Constraint::new(alloc);
    for cube in c.as_slice() {
        let without = OrderAtoms::eliminate(alloc, cube, level)?;
        rest = or(alloc, &rest, &without)?;
    }
    Ok(rest)
}

/// The cube, and then the constraint before it without its last level, down to one without levels.
pub fn eliminate_levels(
    alloc: Global,
    cube: &Cube,
    size: usize,
) -> Result<Vec<Constraint>, NoMemory>
    requires { CubeFits size cube.now }
    ensures { IfOk result (λ r. AreStages size (cube.now ∷ []) size r.items) }
{
    let mut first = Constraint::new(alloc);
    first.push(cube.copy(alloc)?)?;
    let mut stages = vec![in alloc; first]?;
    for done in 0..size {
        let next = without_level(alloc, &stages[done], size - done - 1)?;
        stages.push(next)?;
    }
    Ok(stages)
}

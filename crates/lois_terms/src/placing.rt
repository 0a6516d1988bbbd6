//! The item of a comprehension with its binders at chosen levels.

ghost use Rattle.std.specs.Prelude.{◌≡◌, ◌+◌, ◌-◌, ◌≤◌, IfOk, Bool};
ghost use Rattle.lois_base.specs.Fits.{ConstraintFits, Fits, CompFits};
ghost use Rattle.lois_base.specs.Shift.{shift, shift_constraint};
ghost use Rattle.lois_base.specs.Tree.{tree, comp_of};
ghost use Rattle.lois_base.specs.Validity.{AdmitsConstraint, AdmitsTerm, HasBoundedWidths};
ghost use Rattle.lois_terms.specs.Shifted.{IsPlacedGuard, IsPlacedItem};

use crate::shifting::{shifted_constraint, shifted_term};
use lois_base::{Comp, Constraint, NoMemory, Term};
use std::alloc::Global;

/// The guard and the item of a comprehension whose binders have levels of their own.
#[derive(Drop)]
pub struct Placed {
    pub guard: Constraint,
    pub item: Term,
}

/// The guard and the item of a comprehension in a term of `size` levels, with the binders at the levels from `at` on. The levels from `size` to `at` are left to others.
pub fn instantiate(alloc: Global, comp: &Comp, size: usize, at: usize) -> Result<Placed, NoMemory>
    requires levels { CompFits size (comp_of comp.now) }
    requires moved { CompFits at (comp_of comp.now) }
    requires order { size ≤ at }
    ensures raised_guard { IfOk result (λ r. r.guard ≡ shift_constraint size (at - size) comp.now.guard) }
    ensures raised_item { IfOk result (λ r. tree r.item ≡ shift size (at - size) (tree comp.now.item)) }
    ensures guard { IfOk result (λ r. IsPlacedGuard size at comp.now.guard r.guard) }
    ensures item { IfOk result (λ r. IsPlacedItem size at (tree comp.now.item) (tree r.item)) }
    ensures guard_levels { IfOk result (λ r. ConstraintFits (at + comp.now.binders) r.guard) }
    ensures item_levels { IfOk result (λ r. Fits (at + comp.now.binders) (tree r.item)) }
    ensures guard_operators { IfOk result (λ r. (ordered : Bool) → AdmitsConstraint ordered comp.now.guard → AdmitsConstraint ordered r.guard) }
    ensures item_operators { IfOk result (λ r. (ordered : Bool) → AdmitsTerm ordered (tree comp.now.item) → AdmitsTerm ordered (tree r.item)) }
    ensures widths { IfOk result (λ r. HasBoundedWidths (tree comp.now.item) → HasBoundedWidths (tree r.item)) }
{
    let by = at - size;
    Ok(Placed {
        guard: shifted_constraint(alloc, &comp.guard, size, by)?,
        item: shifted_term(alloc, &comp.item, size, by)?,
    })
}

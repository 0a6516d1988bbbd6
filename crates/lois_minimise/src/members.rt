//! Where a value is a member of a comprehension.

ghost use Rattle.std.specs.Prelude.{ℕ, ◌+◌, ◌<◌, ◌^◌, Bool, IfOk};
ghost use Rattle.lois_base.specs.Bound.{HoldsForSome};
ghost use Rattle.lois_base.specs.Fits.{ConstraintFits};
ghost use Rattle.lois_base.specs.Over.{IsOver, CompIsOver, ConstraintIsOver};
ghost use Rattle.lois_base.specs.Tree.{tree, comp_of};
ghost use Rattle.lois_base.specs.Validity.{AdmitsConstraint, AdmitsTerm, AdmitsComp};
ghost use Rattle.lois_elim.specs.Bound.{HoldsForSomeMore};
ghost use Rattle.lois_minimise.specs.Ties.{HoldsWhereOne, HoldsWhereTied, TiesFit};

use crate::naming::under_names;
use crate::tying::{Tie, tie_literals, tie_terms, tied_names};
use lois_base::{Comp, Constraint, NoMemory, Structure, Term};
use lois_constraint::{meet, singleton};
use lois_elim::{for_some, quantifier_free};
use lois_relate::item_formula;
use std::alloc::Global;

/// A constraint over `size + by` levels that holds exactly where the item is the value of a member of the comprehension, whose
/// levels are the first `size`. Binders that the item's levels give are not eliminated.
pub fn comp_membership<T: Structure>(
    alloc: Global,
    item: &Term,
    comp: &Comp,
    size: usize,
    by: usize,
) -> Result<Constraint, NoMemory>
    requires item { IsOver T.ordered (size + by) (tree item.now) }
    requires over { CompIsOver T.ordered size (comp_of comp.now) }
    ensures truth { IfOk result (HoldsWhereOne size by (tree item.now) (comp_of comp.now)) }
    ensures fits { IfOk result (ConstraintFits (size + by)) }
    ensures operators { IfOk result (λ r. (o : Bool) → AdmitsTerm o (tree item.now) → AdmitsComp o (comp_of comp.now) → AdmitsConstraint o r) }
{
    let inner = size.checked_add(by).ok_or(NoMemory)?;
    if inner.checked_add(comp.binders).is_none() {
        return Err(NoMemory);
    }
    let mut ties = Vec::new(alloc);
    if tie_terms(&comp.item, item, &mut ties)? {
        return tied_membership::<T>(alloc, ties.as_slice(), comp, size, by);
    }
    let one = std::slice::from_ref(comp);
    let formula = item_formula(alloc, item, one, size, by)?;
    quantifier_free::<T>(alloc, &formula, size + by)
}

// Where the ties hold with some binders that the guard admits.
fn tied_membership<T: Structure>(
    alloc: Global,
    ties: &[Tie],
    comp: &Comp,
    size: usize,
    by: usize,
) -> Result<Constraint, NoMemory>
    requires room { size + by + comp.now.binders < 2 ^ 64 }
    requires ties { TiesFit (size + comp.now.binders) (size + by) ties.now }
    requires over { CompIsOver T.ordered size (comp_of comp.now) }
    ensures truth { IfOk result (HoldsWhereTied size by comp.now.binders comp.now.guard ties.now) }
    ensures fits { IfOk result (ConstraintFits (size + by)) }
    ensures operators { IfOk result (λ r. (o : Bool) → AdmitsConstraint o comp.now.guard → AdmitsConstraint o r) }
{
    let owned = tied_names(alloc, ties, size, by, comp.binders)?;
    let names = owned.as_slice();
    let guard = under_names(alloc, &comp.guard, names)?;
    let cube = tie_literals(alloc, ties, names)?;
    let tied = singleton(alloc, &cube)?;
    let met = meet(alloc, &guard, &tied)?;
    without_levels::<T>(alloc, met, size + by, comp.binders)
}

// A constraint over the levels below `size` that says that the given one holds for some atoms at the `by` levels from there on.
fn without_levels<T: Structure>(
    alloc: Global,
    c: Constraint,
    size: usize,
    by: usize,
) -> Result<Constraint, NoMemory>
    requires room { size + by < 2 ^ 64 }
    requires over { ConstraintIsOver T.ordered (size + by) c }
    ensures truth { IfOk result (HoldsForSomeMore size by c) }
    ensures levels { IfOk result (ConstraintFits size) }
    ensures operators { IfOk result (λ r. (o : Bool) → AdmitsConstraint o c → AdmitsConstraint o r) }
{
    if c.fits(size) {
        return Ok(c);
    }
    let mut left = c;
    let mut more = by;
    'levels: while more > 0 {
        more -= 1;
        left = without_level::<T>(alloc, left, size + more)?;
    }
    Ok(left)
}

// The same of one level: most levels have names by then, and nothing is to eliminate.
fn without_level<T: Structure>(
    alloc: Global,
    c: Constraint,
    size: usize,
) -> Result<Constraint, NoMemory>
    requires over { ConstraintIsOver T.ordered (size + 1) c }
    ensures truth { IfOk result (HoldsForSome size c) }
    ensures levels { IfOk result (ConstraintFits size) }
    ensures operators { IfOk result (λ r. (o : Bool) → AdmitsConstraint o c → AdmitsConstraint o r) }
{
    if c.fits(size) {
        return Ok(c);
    }
    for_some::<T>(alloc, &c, size)
}

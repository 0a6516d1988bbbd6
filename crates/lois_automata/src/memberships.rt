//! Where items are in sets, as constraints.

ghost use Rattle.std.specs.Prelude.{◌≡◌, ℕ, ◌+◌, ◌<◌, ◌^◌, Bool, IfOk};
ghost use Rattle.lois_base.specs.Data.{coll, comps_of};
ghost use Rattle.lois_base.specs.Fits.{ConstraintFits, Fits};
ghost use Rattle.lois_base.specs.Over.{IsOver, CompIsOver};
ghost use Rattle.lois_base.specs.Shift.{shift};
ghost use Rattle.lois_base.specs.Tree.{tree, comp_of};
ghost use Rattle.lois_base.specs.Validity.{AdmitsConstraint, AdmitsTerm, AdmitsComp, HasBoundedWidths};
ghost use Rattle.lois_terms.specs.Collections.{IsColl};
ghost use Rattle.lois_terms.specs.Shifted.{IsShifted};
ghost use Rattle.lois_automata.specs.Built.{HoldsWhereMember, HoldsWhereAdmittedIn};
ghost use Rattle.lois_automata.specs.KeyShapes.{shapes_in};

use lois_base::{Comp, Constraint, NoMemory, Structure, Term};
use lois_constraint::meet;
use lois_elim::quantifier_free;
use lois_relate::{item_formula, item_formula_indexed};
use lois_terms::{Index, index_by_shape, shift_term};
use std::alloc::Global;

/// The term with `by` levels put in after the first `size`. Binders inside of it may come to lie above the greatest usize.
pub fn insert_levels(alloc: Global, t: &Term, size: usize, by: usize) -> Result<Term, NoMemory>
    requires fits { Fits size (tree t.now) }
    requires levels { size + by < 2 ^ 64 }
    ensures raised { IfOk result (λ r. tree r ≡ shift size by (tree t.now)) }
    ensures value { IfOk result (λ r. IsShifted size by (tree t.now) (tree r)) }
    ensures fits { IfOk result (λ r. Fits (size + by) (tree r)) }
    ensures operators { IfOk result (λ r. (o : Bool) → AdmitsTerm o (tree t.now) → AdmitsTerm o (tree r)) }
    ensures widths { IfOk result (λ r. HasBoundedWidths (tree t.now) → HasBoundedWidths (tree r)) }
{
    if !t.fits(size + by) {
        return Err(NoMemory);
    }
    shift_term(alloc, t, size, by)
}

/// A constraint over `size + by` levels that holds exactly where the item is in the set `t`, whose levels are the first `size`.
pub fn membership<T: Structure>(
    alloc: Global,
    item: &Term,
    t: &Term,
    size: usize,
    by: usize,
) -> Result<Constraint, NoMemory>
    requires levels { size + by < 2 ^ 64 }
    requires item { IsOver T.ordered (size + by) (tree item.now) }
    requires set_over { IsOver T.ordered size (tree t.now) }
    requires set { IsColl (tree t.now) }
    ensures truth { IfOk result (HoldsWhereMember size by (tree item.now) (tree t.now)) }
    ensures fits { IfOk result (ConstraintFits (size + by)) }
    ensures operators { IfOk result (λ r. (o : Bool) → AdmitsTerm o (tree item.now) → AdmitsTerm o (tree t.now) → AdmitsConstraint o r) }
{
    let Term::Coll(others) = t else {
        unreachable!()
    };
    let formula = item_formula(alloc, item, others.as_slice(), size, by)?;
    quantifier_free::<T>(alloc, &formula, size + by)
}

/// The index of the shapes of the set's items.
pub(crate) fn index_of(alloc: Global, t: &Term) -> Result<Index, NoMemory>
    requires { IsColl (tree t.now) }
    ensures { IfOk result (λ r. r ≡ shapes_in (tree t.now)) }
{
    let Term::Coll(comps) = t else { unreachable!() };
    index_by_shape(alloc, comps.as_slice())
}

/// As `membership`, with the index of the set's shapes, so that only the comprehensions are looked at that may have the item: for a
/// set that is asked often.
pub(crate) fn membership_indexed<T: Structure>(
    alloc: Global,
    item: &Term,
    t: &Term,
    index: &Index,
    size: usize,
    by: usize,
) -> Result<Constraint, NoMemory>
    requires levels { size + by < 2 ^ 64 }
    requires item { IsOver T.ordered (size + by) (tree item.now) }
    requires set_over { IsOver T.ordered size (tree t.now) }
    requires set { IsColl (tree t.now) }
    requires shapes { index.now ≡ shapes_in (tree t.now) }
    ensures truth { IfOk result (HoldsWhereMember size by (tree item.now) (tree t.now)) }
    ensures fits { IfOk result (ConstraintFits (size + by)) }
    ensures operators { IfOk result (λ r. (o : Bool) → AdmitsTerm o (tree item.now) → AdmitsTerm o (tree t.now) → AdmitsConstraint o r) }
{
    let Term::Coll(others) = t else {
        unreachable!()
    };
    let formula = item_formula_indexed(alloc, item, others.as_slice(), index, size, by)?;
    quantifier_free::<T>(alloc, &formula, size + by)
}

/// Where `under` and the guard of the comprehension hold and its item is in the set `t`, given the index of its shapes.
pub(crate) fn membership_under<T: Structure>(
    alloc: Global,
    comp: &Comp,
    t: &Term,
    index: &Index,
    under: &Constraint,
    size: usize,
) -> Result<Constraint, NoMemory>
    requires over { CompIsOver T.ordered size (comp_of comp.now) }
    requires set_over { IsOver T.ordered size (tree t.now) }
    requires set { IsColl (tree t.now) }
    requires shapes { index.now ≡ shapes_in (tree t.now) }
    requires under { ConstraintFits size under.now }
    ensures truth { IfOk result (HoldsWhereAdmittedIn size comp.now.binders under.now comp.now.guard (tree comp.now.item) (tree t.now)) }
    ensures fits { IfOk result (ConstraintFits (size + comp.now.binders)) }
    ensures operators { IfOk result (λ r. (o : Bool) → AdmitsComp o (comp_of comp.now) → AdmitsTerm o (tree t.now) → AdmitsConstraint o under.now → AdmitsConstraint o r) }
{
    let found = membership_indexed::<T>(alloc, &comp.item, t, index, size, comp.binders)?;
    if found.len() == 0 {
        return Ok(found);
    }
    let admitted = meet(alloc, under, &comp.guard)?;
    meet(alloc, &admitted, &found)
}

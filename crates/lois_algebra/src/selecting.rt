//! The members of one set that are, or aren't, in another.

ghost use Rattle.std.specs.Prelude.{◌≡◌, ℕ, ◌+◌, ◌≤◌, Bool, true, false, map, IfOk};
ghost use Rattle.lois_base.specs.Data.{coll, comps_of, depth};
ghost use Rattle.lois_base.specs.ListDepth.{depth_of_comps};
ghost use Rattle.lois_base.specs.Fits.{ConstraintFits, Fits, ItemsFit};
ghost use Rattle.lois_base.specs.Over.{IsOver, CompIsOver, ItemsAreOver};
ghost use Rattle.lois_base.specs.Tree.{tree, comp_of};
ghost use Rattle.lois_base.specs.Validity.{AdmitsConstraint, AdmitsTerm, AdmitsComp, AdmitsItems, HasBoundedWidths, ItemsHaveBoundedWidths};
ghost use Rattle.lois_terms.specs.Collections.{IsColl};
ghost use Rattle.lois_terms.specs.Shapes.{item_shape};
ghost use Rattle.lois_algebra.specs.Selected.{IsSelection, IsSelectedGuard, IsSelectedPart};
ghost use Rattle.lois_algebra.specs.Sets.{IsIntersection, IsDifference};

use crate::putting::push_comp;
use lois_base::{Comp, Comps, Constraint, NoMemory, Structure, Term};
use lois_constraint::{and_not, meet};
use lois_elim::quantifier_free;
use lois_relate::item_formula_indexed;
use lois_terms::{Index, index_by_shape};
use std::alloc::Global;

/// The set that has the members that both sets have. Errors: `NoMemory`, also where a level would pass the greatest usize.
pub fn inter<T: Structure>(alloc: Global, s: &Term, t: &Term, size: usize) -> Result<Term, NoMemory>
    requires left { IsOver T.ordered size (tree s.now) }
    requires left_set { IsColl (tree s.now) }
    requires right { IsOver T.ordered size (tree t.now) }
    requires right_set { IsColl (tree t.now) }
    ensures members { IfOk result (λ r. IsIntersection size (tree s.now) (tree t.now) (tree r)) }
    ensures set { IfOk result (λ r. IsColl (tree r)) }
    ensures levels { IfOk result (λ r. Fits size (tree r)) }
    ensures operators { IfOk result (λ r. (ordered : Bool) → AdmitsTerm ordered (tree s.now) → AdmitsTerm ordered (tree t.now) → AdmitsTerm ordered (tree r)) }
    ensures widths { IfOk result (λ r. HasBoundedWidths (tree s.now) → HasBoundedWidths (tree r)) }
    ensures depth { IfOk result (λ r. depth (tree r) ≤ depth (tree s.now)) }
{
    match (s, t) {
        (Term::Coll(comps), Term::Coll(others)) => {
            Ok(Term::Coll(selected::<T>(alloc, comps, others, size, true)?))
        }
        _ => unreachable!(),
    }
}

/// The set that has the members of `s` that aren't in `t`. Errors: `NoMemory`, also where a level would pass the greatest usize.
pub fn minus<T: Structure>(alloc: Global, s: &Term, t: &Term, size: usize) -> Result<Term, NoMemory>
    requires left { IsOver T.ordered size (tree s.now) }
    requires left_set { IsColl (tree s.now) }
    requires right { IsOver T.ordered size (tree t.now) }
    requires right_set { IsColl (tree t.now) }
    ensures members { IfOk result (λ r. IsDifference size (tree s.now) (tree t.now) (tree r)) }
    ensures set { IfOk result (λ r. IsColl (tree r)) }
    ensures levels { IfOk result (λ r. Fits size (tree r)) }
    ensures operators { IfOk result (λ r. (ordered : Bool) → AdmitsTerm ordered (tree s.now) → AdmitsTerm ordered (tree t.now) → AdmitsTerm ordered (tree r)) }
    ensures widths { IfOk result (λ r. HasBoundedWidths (tree s.now) → HasBoundedWidths (tree r)) }
    ensures depth { IfOk result (λ r. depth (tree r) ≤ depth (tree s.now)) }
{
    match (s, t) {
        (Term::Coll(comps), Term::Coll(others)) => {
            Ok(Term::Coll(selected::<T>(alloc, comps, others, size, false)?))
        }
        _ => unreachable!(),
    }
}

// Each comprehension under what is left of its guard.
fn selected<T: Structure>(
    alloc: Global,
    comps: &Comps,
    others: &Comps,
    size: usize,
    wanted: bool,
) -> Result<Comps, NoMemory>
    requires left { ItemsAreOver T.ordered size (comps_of comps.now) }
    requires right { ItemsAreOver T.ordered size (comps_of others.now) }
    ensures members { IfOk result (λ r. IsSelection size wanted (coll (comps_of comps.now)) (coll (comps_of others.now)) (coll (comps_of r))) }
    ensures levels { IfOk result (λ r. ItemsFit size (comps_of r)) }
    ensures operators { IfOk result (λ r. (ordered : Bool) → AdmitsItems ordered (comps_of comps.now) → AdmitsItems ordered (comps_of others.now) → AdmitsItems ordered (comps_of r)) }
    ensures widths { IfOk result (λ r. ItemsHaveBoundedWidths (comps_of comps.now) → ItemsHaveBoundedWidths (comps_of r)) }
    ensures depth { IfOk result (λ r. depth_of_comps r ≤ depth_of_comps comps.now) }
{
    let index = index_by_shape(alloc, others.as_slice())?;
    let mut kept = Comps::new(alloc);
    for comp in comps.as_slice() {
        let guard = guard_by_index::<T>(alloc, comp, others, &index, size, wanted)?;
        let item = comp.item.copy(alloc)?;
        push_comp(
            &mut kept,
            Comp {
                binders: comp.binders,
                guard,
                item,
            },
        )?;
    }
    Ok(kept)
}

/// The guard of a comprehension, and that its item is in the set of the others, or isn't where that is wanted. The others use
/// the first `size` levels. Errors: `NoMemory`, also where a level would pass the greatest usize.
pub fn selected_guard<T: Structure>(
    alloc: Global,
    comp: &Comp,
    others: &Comps,
    size: usize,
    wanted: bool,
) -> Result<Constraint, NoMemory>
    requires left { CompIsOver T.ordered size (comp_of comp.now) }
    requires right { ItemsAreOver T.ordered size (comps_of others.now) }
    ensures truth { IfOk result (IsSelectedGuard size comp.now.binders wanted comp.now.guard (tree comp.now.item) (coll (comps_of others.now))) }
    ensures levels { IfOk result (ConstraintFits (size + comp.now.binders)) }
    ensures operators { IfOk result (λ r. (ordered : Bool) → AdmitsComp ordered (comp_of comp.now) → AdmitsItems ordered (comps_of others.now) → AdmitsConstraint ordered r) }
{
    let shapes = index_by_shape(alloc, others.as_slice())?;
    guard_by_index::<T>(alloc, comp, others, &shapes, size, wanted)
}

// The same, with the index of the others' shapes, which is made once for all comprehensions of a set.
fn guard_by_index<T: Structure>(
    alloc: Global,
    comp: &Comp,
    others: &Comps,
    index: &Index,
    size: usize,
    wanted: bool,
) -> Result<Constraint, NoMemory>
    requires left { CompIsOver T.ordered size (comp_of comp.now) }
    requires right { ItemsAreOver T.ordered size (comps_of others.now) }
    requires shapes { index.now ≡ map item_shape others.now }
    ensures truth { IfOk result (IsSelectedGuard size comp.now.binders wanted comp.now.guard (tree comp.now.item) (coll (comps_of others.now))) }
    ensures levels { IfOk result (ConstraintFits (size + comp.now.binders)) }
    ensures operators { IfOk result (λ r. (ordered : Bool) → AdmitsComp ordered (comp_of comp.now) → AdmitsItems ordered (comps_of others.now) → AdmitsConstraint ordered r) }
{
    let items = others.as_slice();
    let formula = item_formula_indexed(alloc, &comp.item, items, index, size, comp.binders)?;
    let found = quantifier_free::<T>(alloc, &formula, size + comp.binders)?;
    narrowed(alloc, &comp.guard, &found, wanted)
}

// Where the guard holds and the other constraint does too, or doesn't.
fn narrowed(
    alloc: Global,
    guard: &Constraint,
    found: &Constraint,
    wanted: bool,
) -> Result<Constraint, NoMemory>
    ensures truth { IfOk result (IsSelectedPart wanted guard.now found.now) }
    ensures fits { IfOk result (λ r. (n : ℕ) → ConstraintFits n guard.now → ConstraintFits n found.now → ConstraintFits n r) }
    ensures operators { IfOk result (λ r. (ordered : Bool) → AdmitsConstraint ordered guard.now → AdmitsConstraint ordered found.now → AdmitsConstraint ordered r) }
{
    if wanted {
        meet(alloc, guard, found)
    } else {
        and_not(alloc, guard, found)
    }
}

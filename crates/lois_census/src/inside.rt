//! Where items are in orbits, as constraints.

ghost use Rattle.std.specs.Prelude.{◌≡◌, ◌+◌, ◌<◌, ◌≤◌, ◌^◌, Bool, IfOk};
ghost use Rattle.lois_base.specs.Fits.{ConstraintFits, Fits};
ghost use Rattle.lois_base.specs.Over.{IsOver, CompIsOver, ConstraintIsOver};
ghost use Rattle.lois_base.specs.Tree.{tree, comp_of};
ghost use Rattle.lois_base.specs.Validity.{AdmitsConstraint, AdmitsTerm};
ghost use Rattle.lois_terms.specs.Shifted.{IsShifted};
ghost use Rattle.lois_census.specs.Left.{HoldsWhereInOrbit, HoldsOrInOrbit, IsUsable};
ghost use Rattle.lois_census.specs.OrbitView.{orbit_of};

use crate::alike::alike;
use crate::cells::append;
use crate::orbits::Orbit;
use lois_base::{Comp, Constraint, NoMemory, Structure, Term};
use lois_constraint::normalise;
use lois_elim::quantifier_free;
use lois_relate::building::{conjunction, for_some};
use lois_relate::{clash, equal_formula};
use lois_terms::shift_term;
use std::alloc::Global;

// No memory holds a choice of more atoms than the greatest usize.
fn joint_size(size: usize, more: usize) -> Result<usize, NoMemory>
    ensures { IfOk result (λ n. n ≡ size + more) }
{
    size.checked_add(more).ok_or(NoMemory)
}

// The term with `by` levels put in after the first `from`. Binders inside of it may come to lie above the greatest usize.
fn insert_levels(
    alloc: Global,
    t: &Term,
    size: usize,
    from: usize,
    by: usize,
) -> Result<Term, NoMemory>
    requires order { from ≤ size }
    requires fits { Fits size (tree t.now) }
    requires room { size + by < 2 ^ 64 }
    ensures value { IfOk result (λ r. IsShifted from by (tree t.now) (tree r)) }
    ensures fits { IfOk result (λ r. Fits (size + by) (tree r)) }
    ensures operators { IfOk result (λ r. (o : Bool) → AdmitsTerm o (tree t.now) → AdmitsTerm o (tree r)) }
{
    if !t.fits(size + by) {
        return Err(NoMemory);
    }
    shift_term(alloc, t, from, by)
}

/// A constraint over `size` levels that holds exactly where the item is in the orbit: where, at some choice that is alike to
/// the orbit's sample, its item is the same. Errors: `NoMemory`, also where a level would pass the greatest usize.
// That the atoms are alike comes first, which cuts the comparison of sets short.
pub fn in_orbit<T: Structure>(
    alloc: Global,
    item: &Term,
    size: usize,
    orbit: &Orbit,
) -> Result<Constraint, NoMemory>
    requires item { IsOver T.ordered size (tree item.now) }
    requires orbit { IsUsable T.ordered (orbit_of orbit.now) }
    ensures truth { IfOk result (HoldsWhereInOrbit T.ordered size (tree item.now) (orbit_of orbit.now)) }
    ensures fits { IfOk result (ConstraintFits size) }
    ensures operators { IfOk result (AdmitsConstraint T.ordered) }
{
    let sample = orbit.sample.as_slice();
    let count = sample.len();
    let all = joint_size(size, count)?;
    let listed = insert_levels(alloc, &orbit.item, count, 0, size)?;
    let own = insert_levels(alloc, item, size, size, count)?;
    let standing = alike::<T>(alloc, sample, size)?;
    let same = equal_formula(alloc, &listed, &own, all)?;
    let somewhere = for_some(alloc, conjunction(alloc, standing, same)?, count)?;
    let inside = quantifier_free::<T>(alloc, &somewhere, size)?;
    normalise(alloc, &inside)
}

/// Where `taken` holds or the item of the comprehension is in the orbit.
pub(crate) fn or_in_orbit<T: Structure>(
    alloc: Global,
    taken: Constraint,
    comp: &Comp,
    orbit: &Orbit,
) -> Result<Constraint, NoMemory>
    requires taken { ConstraintIsOver T.ordered comp.now.binders taken }
    requires over { CompIsOver T.ordered 0 (comp_of comp.now) }
    requires orbit { IsUsable T.ordered (orbit_of orbit.now) }
    ensures truth { IfOk result (HoldsOrInOrbit T.ordered comp.now.binders (tree comp.now.item) (orbit_of orbit.now) taken) }
    ensures fits { IfOk result (ConstraintFits comp.now.binders) }
    ensures operators { IfOk result (AdmitsConstraint T.ordered) }
{
    let inside = in_orbit::<T>(alloc, &comp.item, comp.binders, orbit)?;
    let mut either = taken;
    append(&mut either, inside)?;
    Ok(either)
}

/// The same of an orbit that is listed already, which few items can be in: tags and lengths of tuples rule most out.
pub(crate) fn or_in_listed<T: Structure>(
    alloc: Global,
    taken: Constraint,
    comp: &Comp,
    orbit: &Orbit,
) -> Result<Constraint, NoMemory>
    requires taken { ConstraintIsOver T.ordered comp.now.binders taken }
    requires over { CompIsOver T.ordered 0 (comp_of comp.now) }
    requires orbit { IsUsable T.ordered (orbit_of orbit.now) }
    ensures truth { IfOk result (HoldsOrInOrbit T.ordered comp.now.binders (tree comp.now.item) (orbit_of orbit.now) taken) }
    ensures fits { IfOk result (ConstraintFits comp.now.binders) }
    ensures operators { IfOk result (AdmitsConstraint T.ordered) }
{
    if clash(&comp.item, &orbit.item) {
        return Ok(taken);
    }
    or_in_orbit::<T>(alloc, taken, comp, orbit)
}

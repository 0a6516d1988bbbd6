//! The orbits of a set.

ghost use Rattle.std.specs.Prelude.{Bool, [], IfOk, OnOk, IsTrue};
ghost use Rattle.std.specs.List.{All, AllPairs};
ghost use Rattle.lois_base.specs.Data.{comps_of};
ghost use Rattle.lois_base.specs.Fits.{ConstraintFits};
ghost use Rattle.lois_base.specs.Over.{IsOver, CompIsOver, ItemsAreOver, ConstraintIsOver};
ghost use Rattle.lois_base.specs.Tree.{tree, comp_of};
ghost use Rattle.lois_base.specs.Truth.{holds, sampled};
ghost use Rattle.lois_base.specs.Validity.{AdmitsConstraint, AdmitsTerm, HasBoundedWidths, IsStrictTerm};
ghost use Rattle.lois_base.specs.Values.{PointValue, point, IsMember, IsIn};
ghost use Rattle.lois_terms.specs.Collections.{IsColl};
ghost use Rattle.lois_deciders.specs.OnlyAsked.{HasOnlyAsked};
ghost use Rattle.lois_deciders.specs.Satisfaction.{IsConstraintSample};
ghost use Rattle.lois_ranks.specs.Ranks.{AreRanks};
ghost use Rattle.lois_census.specs.Left.{IsTakenFromSome, IsCoveredByOrbits, AddsOnly, IsUsable, HoldsWhereListed};
ghost use Rattle.lois_census.specs.Orbits.{value_of, IsInListedOrbit, AreDisjointOrbits, FitsSample, IsTakenFrom, AreTakenInOrder, AreTakenFrom};

use crate::cells::without_cube_at;
use crate::inside::{or_in_listed, or_in_orbit};
use crate::orbits::{Orbit, Orbits};
use lois_base::{Comp, Comps, Constraint, Decider, NoMemory, Numbers, Structure, Term};
use lois_constraint::prune;
use lois_deciders::Chosen;
use lois_ranks::rank_sample;
use std::alloc::Global;

/// One member of each orbit of the set `set`, which uses no level outside of its binders. Errors: `NoMemory`, also where a
/// level would pass the greatest usize.
pub fn census<T: Structure>(
    alloc: Global,
    set: &Term,
    chosen: &mut Chosen,
) -> Result<Orbits, NoMemory>
    requires set { IsColl (tree set.now) }
    requires over { IsOver T.ordered 0 (tree set.now) }

    // each orbit is that of a member
    ensures levels { IfOk result (All FitsSample) }
    ensures members { IfOk result (All (λ o. IsMember (value_of o) (point (tree set.now) []))) }

    // each member is in one of them, and no value is in two
    ensures each { IfOk result (λ r. (v : PointValue) → IsIn v (point (tree set.now) []) → IsInListedOrbit T.ordered r v) }
    ensures once { IfOk result (AllPairs (AreDisjointOrbits T.ordered)) }

    // which member stands for an orbit, and in which order they come
    ensures taken { IfOk result (AreTakenFrom T.ordered (tree set.now)) }

    ensures operators { IfOk result (λ r. (o : Bool) → AdmitsTerm o (tree set.now) → All (λ k. AdmitsTerm o k.item) r) }
    ensures widths { IfOk result (λ r. HasBoundedWidths (tree set.now) → All (λ k. HasBoundedWidths k.item) r) }
    ensures strict { IfOk result (λ r. IsStrictTerm (tree set.now) → All (λ k. IsStrictTerm k.item) r) }

    // whatever is answered
    ensures only_asked { HasOnlyAsked (λ b. (⟦<dyn Decider as Decider>⟧ b.vtable).kind_of b.value) (λ b. (⟦<dyn Decider as Decider>⟧ b.vtable).questions b.value) chosen.old chosen.new }
{
    let Term::Coll(comps) = set else {
        unreachable!()
    };
    all_orbits::<T>(alloc, comps, chosen)
}

fn all_orbits<T: Structure>(
    alloc: Global,
    comps: &Comps,
    chosen: &mut Chosen,
) -> Result<Orbits, NoMemory>
    requires over { ItemsAreOver T.ordered 0 (comps_of comps.now) }
    ensures taken { IfOk result (All (IsTakenFromSome T.ordered comps.now)) }
    ensures in_order { IfOk result (AreTakenInOrder T.ordered (comps_of comps.now)) }
    ensures covered { IfOk result (λ r. All (IsCoveredByOrbits T.ordered r) comps.now) }
    ensures apart { IfOk result (AllPairs (AreDisjointOrbits T.ordered)) }
    ensures only_asked { HasOnlyAsked (λ b. (⟦<dyn Decider as Decider>⟧ b.vtable).kind_of b.value) (λ b. (⟦<dyn Decider as Decider>⟧ b.vtable).questions b.value) chosen.old chosen.new }
{
    let mut orbits = Orbits::new(alloc);
    for comp in comps.as_slice() {
        add_orbits::<T>(alloc, comp, &mut orbits, chosen)?;
    }
    Ok(orbits)
}

// Lists an item of the comprehension for each orbit of its items that isn't listed yet.
fn add_orbits<T: Structure>(
    alloc: Global,
    comp: &Comp,
    orbits: &mut Orbits,
    chosen: &mut Chosen,
) -> Result<(), NoMemory>
    requires over { CompIsOver T.ordered 0 (comp_of comp.now) }
    requires usable { All (IsUsable T.ordered) orbits.old }
    requires apart { AllPairs (AreDisjointOrbits T.ordered) orbits.old }
    ensures added { OnOk result (AddsOnly (IsTakenFrom T.ordered (comp_of comp.now)) orbits.old orbits.new) }
    ensures covered { OnOk result (IsCoveredByOrbits T.ordered orbits.new (comp_of comp.now)) }
    ensures apart { OnOk result (AllPairs (AreDisjointOrbits T.ordered) orbits.new) }
    ensures only_asked { HasOnlyAsked (λ b. (⟦<dyn Decider as Decider>⟧ b.vtable).kind_of b.value) (λ b. (⟦<dyn Decider as Decider>⟧ b.vtable).questions b.value) chosen.old chosen.new }
{
    let mut taken = in_listed::<T>(alloc, comp, orbits)?;
    let mut left = prune(alloc, &comp.guard)?;
    'samples: while let Some(found) = chosen.ask(alloc, &left, comp.binders)? {
        let sample = rank_sample::<T>(alloc, &found)?;
        taken = list_sample::<T>(alloc, comp, &sample, taken, orbits)?;
        left = without_cube_at(alloc, left, &taken, sample.as_slice())?;
    }
    Ok(())
}

// Where the item of the comprehension is in a listed orbit.
fn in_listed<T: Structure>(
    alloc: Global,
    comp: &Comp,
    orbits: &Orbits,
) -> Result<Constraint, NoMemory>
    requires over { CompIsOver T.ordered 0 (comp_of comp.now) }
    requires usable { All (IsUsable T.ordered) orbits.now }
    ensures truth { IfOk result (HoldsWhereListed T.ordered comp.now.binders (tree comp.now.item) orbits.now) }
    ensures fits { IfOk result (ConstraintFits comp.now.binders) }
    ensures operators { IfOk result (AdmitsConstraint T.ordered) }
{
    let mut taken = Constraint::new(alloc);
    for orbit in orbits.as_slice() {
        taken = or_in_listed::<T>(alloc, taken, comp, orbit)?;
    }
    Ok(taken)
}

// Lists the item at the sample unless its orbit is listed, and gives where the item is in a listed orbit now.
fn list_sample<T: Structure>(
    alloc: Global,
    comp: &Comp,
    sample: &Numbers,
    taken: Constraint,
    orbits: &mut Orbits,
) -> Result<Constraint, NoMemory>
    requires over { CompIsOver T.ordered 0 (comp_of comp.now) }
    requires sample { IsConstraintSample comp.now.binders comp.now.guard sample.now }
    requires ranked { AreRanks T.ordered sample.now }
    requires taken { HoldsWhereListed T.ordered comp.now.binders (tree comp.now.item) orbits.old taken }
    requires taken_over { ConstraintIsOver T.ordered comp.now.binders taken }
    requires apart { AllPairs (AreDisjointOrbits T.ordered) orbits.old }
    ensures truth { IfOk result (HoldsWhereListed T.ordered comp.now.binders (tree comp.now.item) orbits.new) }
    ensures holds { IfOk result (λ r. IsTrue (holds (sampled sample.now) r)) }
    ensures fits { IfOk result (ConstraintFits comp.now.binders) }
    ensures operators { IfOk result (AdmitsConstraint T.ordered) }
    ensures added { OnOk result (AddsOnly (IsTakenFrom T.ordered (comp_of comp.now)) orbits.old orbits.new) }
    ensures apart { OnOk result (AllPairs (AreDisjointOrbits T.ordered) orbits.new) }
{
    if taken.at(sample.as_slice()) {
        return Ok(taken);
    }
    let orbit = Orbit {
        item: comp.item.copy(alloc)?,
        sample: sample.copy(alloc)?,
    };
    let more = or_in_orbit::<T>(alloc, taken, comp, &orbit)?;
    orbits.push(orbit)?;
    Ok(more)
}

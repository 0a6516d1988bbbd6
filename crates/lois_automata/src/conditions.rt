//! Where a value is an automaton, deterministic, complete, as constraints.

ghost use Rattle.std.specs.Prelude.{◌≡◌, ℕ, ◌+◌, ◌++◌, Bool, List, map, IfOk, OnOk};
ghost use Rattle.lois_base.specs.Atom.{Atom};
ghost use Rattle.lois_base.specs.Data.{coll, comps_of};
ghost use Rattle.lois_base.specs.Fits.{ConstraintFits};
ghost use Rattle.lois_base.specs.Over.{IsOver, CompIsOver, ItemsAreOver};
ghost use Rattle.lois_base.specs.Tree.{tree, comp_of};
ghost use Rattle.lois_base.specs.Validity.{AdmitsConstraint, AdmitsComp, AdmitsItems};
ghost use Rattle.lois_base.specs.Values.{PointValue, point, IsIn, IsIncluded, IsSame};
ghost use Rattle.lois_algebra.specs.Gathered.{IsAmong, IsCompMember};
ghost use Rattle.lois_terms.specs.Collections.{IsColl};
ghost use Rattle.lois_automata.specs.KeyShapes.{comp_key_shape};
ghost use Rattle.lois_automata.specs.Projections.{AllAgree, IsFunction, HasOneAtMost, HasUniqueTargets, AreTriples, ArePartsIn, StepsJoin};
ghost use Rattle.lois_automata.specs.Verdicts.{HoldsWhere, HoldsUnless};

use crate::keys::{index_by_key, key_shape};
use crate::pairing::{pair_comps, pairs};
use crate::parts::{FiveSets, pair_parts};
use crate::projections::{Projection, non_triples, project_steps};
use crate::unmatched::keys_clash;
use lois_base::{Comp, Comps, Constraint, NoMemory, Structure, Term};
use lois_constraint::{and_not, meet, negate, or};
use lois_elim::{for_some_more, quantifier_free};
use lois_relate::{equal_formula, included_formula};
use lois_terms::Index;
use std::alloc::Global;

/// Where each member of `s` is in `t`.
pub fn where_included<T: Structure>(
    alloc: Global,
    s: &Term,
    t: &Term,
    size: usize,
) -> Result<Constraint, NoMemory>
    requires over { IsOver T.ordered size (tree s.now) }
    requires set { IsColl (tree s.now) }
    requires other { IsOver T.ordered size (tree t.now) }
    requires other_set { IsColl (tree t.now) }
    ensures truth { IfOk result (HoldsWhere size (λ c. IsIncluded (point (tree s.now) c) (point (tree t.now) c))) }
    ensures levels { IfOk result (ConstraintFits size) }
{
    let formula = included_formula(alloc, s, t, size)?;
    quantifier_free::<T>(alloc, &formula, size)
}

/// Where the set has a member.
pub fn where_inhabited<T: Structure>(
    alloc: Global,
    items: &Comps,
    size: usize,
) -> Result<Constraint, NoMemory>
    requires over { ItemsAreOver T.ordered size (comps_of items.now) }
    ensures truth { IfOk result (HoldsWhere size (λ c. (w : PointValue) × IsIn w (point (coll (comps_of items.now)) c))) }
    ensures levels { IfOk result (ConstraintFits size) }
    ensures operators { IfOk result (λ r. (o : Bool) → AdmitsItems o (comps_of items.now) → AdmitsConstraint o r) }
{
    let mut found = Constraint::new(alloc);
    for comp in items.as_slice() {
        let made = where_making::<T>(alloc, comp, size)?;
        found = or(alloc, &found, &made)?;
    }
    Ok(found)
}

fn where_making<T: Structure>(
    alloc: Global,
    comp: &Comp,
    size: usize,
) -> Result<Constraint, NoMemory>
    requires over { CompIsOver T.ordered size (comp_of comp.now) }
    ensures truth { IfOk result (HoldsWhere size (λ c. (w : PointValue) × IsCompMember (comp_of comp.now) c w)) }
    ensures levels { IfOk result (ConstraintFits size) }
    ensures operators { IfOk result (λ r. (o : Bool) → AdmitsComp o (comp_of comp.now) → AdmitsConstraint o r) }
{
    let guard = comp.guard.copy(alloc)?;
    for_some_more::<T>(alloc, guard, size, comp.binders)
}

// Puts the cubes of a constraint behind others.
fn append(cubes: &mut Constraint, more: Constraint) -> Result<(), NoMemory>
    ensures { OnOk result (cubes.new ≡ cubes.old ++ more) }
{
    for cube in more.into_vec() {
        cubes.push(cube)?;
    }
    Ok(())
}

/// Where pairs in the set with the same first part have the same second part.
pub fn where_function<T: Structure>(
    alloc: Global,
    items: &Comps,
    size: usize,
) -> Result<Constraint, NoMemory>
    requires over { ItemsAreOver T.ordered size (comps_of items.now) }
    ensures truth { IfOk result (HoldsWhere size (λ c. IsFunction (point (coll (comps_of items.now)) c))) }
    ensures levels { IfOk result (ConstraintFits size) }
{
    let index = index_by_key(alloc, items.as_slice())?;
    let mut found = Constraint::new(alloc);
    for first in items.as_slice() {
        let clash = where_clashing::<T>(alloc, first, items, &index, size)?;
        append(&mut found, clash)?;
    }
    negate(alloc, &found)
}

/// Where the set has at most one member.
pub fn where_single<T: Structure>(
    alloc: Global,
    items: &Comps,
    size: usize,
) -> Result<Constraint, NoMemory>
    requires over { ItemsAreOver T.ordered size (comps_of items.now) }
    ensures truth { IfOk result (HoldsWhere size (λ c. HasOneAtMost (point (coll (comps_of items.now)) c))) }
    ensures levels { IfOk result (ConstraintFits size) }
{
    // in pairs of members the first parts have one second part each only where there is one member
    let Term::Coll(squared) = pairs(alloc, items, items, size)? else {
        unreachable!()
    };
    where_function::<T>(alloc, &squared, size)
}

/// Where a state and a letter have at most one step.
pub fn where_targets_unique<T: Structure>(
    alloc: Global,
    steps: &Comps,
    size: usize,
) -> Result<Constraint, NoMemory>
    requires over { ItemsAreOver T.ordered size (comps_of steps.now) }
    ensures truth { IfOk result (HoldsWhere size (λ c. HasUniqueTargets (point (coll (comps_of steps.now)) c))) }
    ensures levels { IfOk result (ConstraintFits size) }
{
    let Term::Coll(keyed) = project_steps(alloc, steps, Projection::Keyed)? else {
        unreachable!()
    };
    where_function::<T>(alloc, &keyed, size)
}

// Where pairs of the comprehension and of the others with the same first part have different second parts. Only others are looked at
// whose first parts have the shape of the comprehension's.
fn where_clashing<T: Structure>(
    alloc: Global,
    first: &Comp,
    others: &Comps,
    index: &Index,
    size: usize,
) -> Result<Constraint, NoMemory>
    requires first { CompIsOver T.ordered size (comp_of first.now) }
    requires second { ItemsAreOver T.ordered size (comps_of others.now) }
    requires keys { index.now ≡ map comp_key_shape others.now }
    ensures truth { IfOk result (HoldsUnless size (λ c. AllAgree (IsCompMember (comp_of first.now) c) (IsAmong (comps_of others.now) c))) }
    ensures levels { IfOk result (ConstraintFits size) }
{
    let comps = others.as_slice();
    let mut found = Constraint::new(alloc);
    for place in index.positions(key_shape(&first.item)) {
        let second = &comps[*place];
        let clash = where_differing::<T>(alloc, first, second, size)?;
        append(&mut found, clash)?;
    }
    Ok(found)
}

fn where_differing<T: Structure>(
    alloc: Global,
    first: &Comp,
    second: &Comp,
    size: usize,
) -> Result<Constraint, NoMemory>
    requires first { CompIsOver T.ordered size (comp_of first.now) }
    requires second { CompIsOver T.ordered size (comp_of second.now) }
    ensures truth { IfOk result (HoldsUnless size (λ c. AllAgree (IsCompMember (comp_of first.now) c) (IsCompMember (comp_of second.now) c))) }
    ensures levels { IfOk result (ConstraintFits size) }
{
    if keys_clash(first, second) {
        return Ok(Constraint::new(alloc));
    }
    let both = pair_comps(alloc, first, second, size)?;
    let Some((key, value)) = pair_parts(&both.first) else {
        return Ok(Constraint::new(alloc));
    };
    let Some((other_key, other_value)) = pair_parts(&both.second) else {
        return Ok(Constraint::new(alloc));
    };
    let inner = size + both.binders;
    let same_key = where_same::<T>(alloc, key, other_key, inner)?;
    let same_value = where_same::<T>(alloc, value, other_value, inner)?;
    let keys = meet(alloc, &both.guard, &same_key)?;
    let clash = and_not(alloc, &keys, &same_value)?;
    for_some_more::<T>(alloc, clash, size, both.binders)
}

/// Where two terms have the same value.
pub fn where_same<T: Structure>(
    alloc: Global,
    s: &Term,
    t: &Term,
    size: usize,
) -> Result<Constraint, NoMemory>
    requires over { IsOver T.ordered size (tree s.now) }
    requires other { IsOver T.ordered size (tree t.now) }
    ensures truth { IfOk result (HoldsWhere size (λ c. IsSame (point (tree s.now) c) (point (tree t.now) c))) }
    ensures levels { IfOk result (ConstraintFits size) }
    ensures operators { IfOk result (AdmitsConstraint T.ordered) }
{
    let formula = equal_formula(alloc, s, t, size)?;
    quantifier_free::<T>(alloc, &formula, size)
}

/// Where each member of the one list is in the set with the other.
pub fn where_inside<T: Structure>(
    alloc: Global,
    items: &Comps,
    others: &Comps,
    size: usize,
) -> Result<Constraint, NoMemory>
    requires over { ItemsAreOver T.ordered size (comps_of items.now) }
    requires other { ItemsAreOver T.ordered size (comps_of others.now) }
    ensures truth { IfOk result (HoldsWhere size (λ c. IsIncluded (point (coll (comps_of items.now)) c) (point (coll (comps_of others.now)) c))) }
    ensures levels { IfOk result (ConstraintFits size) }
{
    let inner = Term::Coll(items.copy(alloc)?);
    let outer = Term::Coll(others.copy(alloc)?);
    where_included::<T>(alloc, &inner, &outer, size)
}

/// Where each step joins states by a letter.
pub fn where_joined<T: Structure>(
    alloc: Global,
    sets: FiveSets<'_>,
    size: usize,
) -> Result<Constraint, NoMemory>
    requires states { ItemsAreOver T.ordered size (comps_of sets.states.now) }
    requires letters { ItemsAreOver T.ordered size (comps_of sets.letters.now) }
    requires steps { ItemsAreOver T.ordered size (comps_of sets.steps.now) }
    ensures truth { IfOk result (HoldsWhere size (λ c. StepsJoin (point (coll (comps_of sets.entry.states.now)) c) (point (coll (comps_of sets.entry.letters.now)) c) (point (coll (comps_of sets.entry.steps.now)) c))) }
    ensures levels { IfOk result (ConstraintFits size) }
{
    let triples = where_triples::<T>(alloc, sets.steps, size)?;
    let from = where_parts_in::<T>(alloc, sets.steps, Projection::Source, sets.states, size)?;
    let by = where_parts_in::<T>(alloc, sets.steps, Projection::Label, sets.letters, size)?;
    let to = where_parts_in::<T>(alloc, sets.steps, Projection::Target, sets.states, size)?;
    let ends = meet(alloc, &from, &to)?;
    let parts = meet(alloc, &ends, &by)?;
    meet(alloc, &triples, &parts)
}

// Where each step is a triple.
fn where_triples<T: Structure>(
    alloc: Global,
    steps: &Comps,
    size: usize,
) -> Result<Constraint, NoMemory>
    requires over { ItemsAreOver T.ordered size (comps_of steps.now) }
    ensures truth { IfOk result (HoldsWhere size (λ c. AreTriples (point (coll (comps_of steps.now)) c))) }
    ensures levels { IfOk result (ConstraintFits size) }
{
    let none = Term::Coll(Comps::new(alloc));
    let others = non_triples(alloc, steps)?;
    where_included::<T>(alloc, &others, &none, size)
}

// Where all that the shape makes of the steps is in a set.
fn where_parts_in<T: Structure>(
    alloc: Global,
    steps: &Comps,
    shape: Projection,
    whole: &Comps,
    size: usize,
) -> Result<Constraint, NoMemory>
    requires over { ItemsAreOver T.ordered size (comps_of steps.now) }
    requires whole { ItemsAreOver T.ordered size (comps_of whole.now) }
    ensures truth { IfOk result (HoldsWhere size (λ c. ArePartsIn shape (point (coll (comps_of steps.now)) c) (point (coll (comps_of whole.now)) c))) }
    ensures levels { IfOk result (ConstraintFits size) }
{
    let parts = project_steps(alloc, steps, shape)?;
    let outer = Term::Coll(whole.copy(alloc)?);
    where_included::<T>(alloc, &parts, &outer, size)
}

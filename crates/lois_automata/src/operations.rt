//! Reachable states, emptiness, products and complements.

ghost use Rattle.std.specs.Prelude.{◌≡◌, ℕ, ◌+◌, Bool, List, IfOk, IsTrue, IsFalse, ◌↔◌};
ghost use Rattle.lois_base.specs.Atom.{Atom};
ghost use Rattle.lois_base.specs.Data.{coll, comps_of};
ghost use Rattle.lois_base.specs.Fits.{ConstraintFits, Fits};
ghost use Rattle.lois_base.specs.Over.{IsOver, ItemsAreOver, ConstraintIsOver};
ghost use Rattle.lois_base.specs.Tree.{tree};
ghost use Rattle.lois_base.specs.Truth.{holds};
ghost use Rattle.lois_algebra.specs.Sets.{IsIntersection};
ghost use Rattle.lois_base.specs.Validity.{AdmitsConstraint, AdmitsTerm, AdmitsItems, HasBoundedWidths, ItemsHaveBoundedWidths};
ghost use Rattle.lois_deciders.specs.OnlyAsked.{HasOnlyAsked};
ghost use Rattle.lois_terms.specs.Collections.{IsColl};
ghost use Rattle.lois_automata.specs.Machines.{IsAutomatonAt, IsCompleteDeterministicAt, IsReachAt, IsEmptyAt, AcceptsSomeAt, IsProductAt, IsComplementAt, AcceptsBothAt, AcceptsOthersAt};
ghost use Rattle.lois_automata.specs.Throughout.{HoldsThroughout};

use crate::conditions::where_inhabited;
use crate::pairing::{pair_steps, pairs};
use crate::parts::{five, of_five};
use crate::projections::{Projection, project_steps};
use crate::reaching::reachable_set;
use lois_algebra::{inter, minus};
use lois_base::{Comps, Constraint, Decider, NoMemory, Structure, Term};
use lois_constraint::negate;
use lois_deciders::Chosen;
use std::alloc::Global;

/// The set of the reachable states of the automaton `a`, at each choice that `under` admits. Errors: `NoMemory`, also where a
/// level would pass the greatest usize, here and in the calls below. None of these calls asks anything: what can't be met is
/// found when constraints are pruned. They borrow the decider as all calls on automata do.
pub fn reach<T: Structure>(
    alloc: Global,
    a: &Term,
    under: &Constraint,
    size: usize,
    chosen: &mut Chosen,
) -> Result<Term, NoMemory>
    requires levels { Fits size (tree a.now) }
    requires under { ConstraintFits size under.now }
    requires automaton { HoldsThroughout size under.now (IsAutomatonAt (tree a.now)) }
    ensures reached { IfOk result (λ r. HoldsThroughout size under.now (IsReachAt (tree a.now) (tree r))) }
    ensures set { IfOk result (λ r. IsColl (tree r)) }
    ensures levels { IfOk result (λ r. Fits size (tree r)) }
    ensures operators { IfOk result (λ r. (o : Bool) → AdmitsTerm o (tree a.now) → AdmitsConstraint o under.now → AdmitsTerm o (tree r)) }
    ensures widths { IfOk result (λ r. HasBoundedWidths (tree a.now) → HasBoundedWidths (tree r)) }
    ensures only_asked { HasOnlyAsked (λ b. (⟦<dyn Decider as Decider>⟧ b.vtable).kind_of b.value) (λ b. (⟦<dyn Decider as Decider>⟧ b.vtable).questions b.value) chosen.old chosen.new }
{
    let Some(sets) = five(a) else {
        return Ok(Term::Coll(Comps::new(alloc)));
    };
    let initial = Term::Coll(sets.initial.copy(alloc)?);
    let Term::Coll(moves) = project_steps(alloc, sets.steps, Projection::Move)? else {
        unreachable!()
    };
    reachable_set(alloc, sets.states, &initial, &moves, under, size)
}

/// A constraint that holds exactly where the automaton `a` accepts no word, of the choices that `under` admits: where none of its
/// final states is reachable. Where it doesn't hold, some word is accepted.
pub fn empty<T: Structure>(
    alloc: Global,
    a: &Term,
    under: &Constraint,
    size: usize,
    chosen: &mut Chosen,
) -> Result<Constraint, NoMemory>
    requires over { IsOver T.ordered size (tree a.now) }
    requires under { ConstraintIsOver T.ordered size under.now }
    requires automaton { HoldsThroughout size under.now (IsAutomatonAt (tree a.now)) }
    ensures empty { IfOk result (λ r. HoldsThroughout size under.now (λ c. IsTrue (holds c r) ↔ IsEmptyAt (tree a.now) c)) }
    ensures accepts { IfOk result (λ r. HoldsThroughout size under.now (λ c. IsFalse (holds c r) → AcceptsSomeAt (tree a.now) c)) }
    ensures levels { IfOk result (ConstraintFits size) }
    ensures operators { IfOk result (λ r. (o : Bool) → AdmitsTerm o (tree a.now) → AdmitsConstraint o under.now → AdmitsConstraint o r) }
    ensures only_asked { HasOnlyAsked (λ b. (⟦<dyn Decider as Decider>⟧ b.vtable).kind_of b.value) (λ b. (⟦<dyn Decider as Decider>⟧ b.vtable).questions b.value) chosen.old chosen.new }
{
    let Some(sets) = five(a) else {
        return Ok(Constraint::new(alloc));
    };
    let states = reach::<T>(alloc, a, under, size, chosen)?;
    let accepting = Term::Coll(sets.accepting.copy(alloc)?);
    let Term::Coll(found) = inter::<T>(alloc, &states, &accepting, size)? else {
        unreachable!()
    };
    let some = where_inhabited::<T>(alloc, &found, size)?;
    negate(alloc, &some)
}

/// The automaton that runs `a` and `b` side by side: it accepts exactly the words that both accept.
pub fn product<T: Structure>(
    alloc: Global,
    a: &Term,
    b: &Term,
    under: &Constraint,
    size: usize,
    chosen: &mut Chosen,
) -> Result<Term, NoMemory>
    requires over { IsOver T.ordered size (tree a.now) }
    requires other { IsOver T.ordered size (tree b.now) }
    requires automaton { HoldsThroughout size under.now (IsAutomatonAt (tree a.now)) }
    requires other_automaton { HoldsThroughout size under.now (IsAutomatonAt (tree b.now)) }
    ensures product { IfOk result (λ r. HoldsThroughout size under.now (IsProductAt (tree a.now) (tree b.now) (tree r))) }
    ensures words { IfOk result (λ r. HoldsThroughout size under.now (AcceptsBothAt (tree a.now) (tree b.now) (tree r))) }
    ensures levels { IfOk result (λ r. Fits size (tree r)) }
    ensures operators { IfOk result (λ r. (o : Bool) → AdmitsTerm o (tree a.now) → AdmitsTerm o (tree b.now) → AdmitsTerm o (tree r)) }
    ensures widths { IfOk result (λ r. HasBoundedWidths (tree a.now) → HasBoundedWidths (tree b.now) → HasBoundedWidths (tree r)) }
    ensures only_asked { HasOnlyAsked (λ b. (⟦<dyn Decider as Decider>⟧ b.vtable).kind_of b.value) (λ b. (⟦<dyn Decider as Decider>⟧ b.vtable).questions b.value) chosen.old chosen.new }
{
    let Some(one) = five(a) else {
        return a.copy(alloc);
    };
    let Some(other) = five(b) else {
        return a.copy(alloc);
    };
    let states = pairs(alloc, one.states, other.states, size)?;
    let common = in_both::<T>(alloc, one.letters, other.letters, size)?;
    let steps = pair_steps::<T>(alloc, one.steps, other.steps, size)?;
    let initial = pairs(alloc, one.initial, other.initial, size)?;
    let accepting = pairs(alloc, one.accepting, other.accepting, size)?;
    of_five(alloc, states, common, steps, initial, accepting)
}

// The members that the two sets have in common.
fn in_both<T: Structure>(
    alloc: Global,
    one: &Comps,
    other: &Comps,
    size: usize,
) -> Result<Term, NoMemory>
    requires first { ItemsAreOver T.ordered size (comps_of one.now) }
    requires second { ItemsAreOver T.ordered size (comps_of other.now) }
    ensures members { IfOk result (λ r. IsIntersection size (coll (comps_of one.now)) (coll (comps_of other.now)) (tree r)) }
    ensures set { IfOk result (λ r. IsColl (tree r)) }
    ensures levels { IfOk result (λ r. Fits size (tree r)) }
    ensures operators { IfOk result (λ r. (o : Bool) → AdmitsItems o (comps_of one.now) → AdmitsItems o (comps_of other.now) → AdmitsTerm o (tree r)) }
    ensures widths { IfOk result (λ r. ItemsHaveBoundedWidths (comps_of one.now) → HasBoundedWidths (tree r)) }
{
    let first = Term::Coll(one.copy(alloc)?);
    let second = Term::Coll(other.copy(alloc)?);
    inter::<T>(alloc, &first, &second, size)
}

/// The automaton `a` with the other states as final ones: it accepts exactly the words over the letters that `a` doesn't accept.
pub fn complement<T: Structure>(
    alloc: Global,
    a: &Term,
    under: &Constraint,
    size: usize,
    chosen: &mut Chosen,
) -> Result<Term, NoMemory>
    requires over { IsOver T.ordered size (tree a.now) }
    requires whole { HoldsThroughout size under.now (IsCompleteDeterministicAt (tree a.now)) }
    ensures complement { IfOk result (λ r. HoldsThroughout size under.now (IsComplementAt (tree a.now) (tree r))) }
    ensures words { IfOk result (λ r. HoldsThroughout size under.now (AcceptsOthersAt (tree a.now) (tree r))) }
    ensures levels { IfOk result (λ r. Fits size (tree r)) }
    ensures operators { IfOk result (λ r. (o : Bool) → AdmitsTerm o (tree a.now) → AdmitsTerm o (tree r)) }
    ensures widths { IfOk result (λ r. HasBoundedWidths (tree a.now) → HasBoundedWidths (tree r)) }
    ensures only_asked { HasOnlyAsked (λ b. (⟦<dyn Decider as Decider>⟧ b.vtable).kind_of b.value) (λ b. (⟦<dyn Decider as Decider>⟧ b.vtable).questions b.value) chosen.old chosen.new }
{
    let Some(sets) = five(a) else {
        return a.copy(alloc);
    };
    let states = Term::Coll(sets.states.copy(alloc)?);
    let letters = Term::Coll(sets.letters.copy(alloc)?);
    let steps = Term::Coll(sets.steps.copy(alloc)?);
    let initial = Term::Coll(sets.initial.copy(alloc)?);
    let accepting = Term::Coll(sets.accepting.copy(alloc)?);
    let others = minus::<T>(alloc, &states, &accepting, size)?;
    of_five(alloc, states, letters, steps, initial, others)
}

//! Whether a value is an automaton, deterministic, complete.

ghost use Rattle.std.specs.Prelude.{◌≡◌, ℕ, ◌+◌, Bool, List, IfOk, IsTrue};
ghost use Rattle.lois_base.specs.Atom.{Atom};
ghost use Rattle.lois_base.specs.Fits.{ConstraintFits};
ghost use Rattle.lois_base.specs.Over.{IsOver};
ghost use Rattle.lois_base.specs.Tree.{tree};
ghost use Rattle.lois_base.specs.Truth.{holds};
ghost use Rattle.lois_deciders.specs.OnlyAsked.{HasOnlyAsked};
ghost use Rattle.lois_automata.specs.Machines.{IsAutomatonAt, IsCompleteAt};
ghost use Rattle.lois_automata.specs.Deterministic.{IsDeterministicAt};
ghost use Rattle.lois_automata.specs.Throughout.{HoldsThroughout};
ghost use Rattle.lois_automata.specs.Verdicts.{IsVerdictOn};

use crate::conditions::{
    where_included, where_inhabited, where_inside, where_joined, where_single, where_targets_unique,
};
use crate::pairing::pairs;
use crate::parts::five;
use crate::projections::{Projection, project_steps};
use crate::verdicts::Verdict;
use lois_base::{Constraint, Decider, NoMemory, Structure, Term};
use lois_constraint::meet;
use lois_deciders::Chosen;
use std::alloc::Global;

/// Whether the value of `a` is an automaton at each choice that `under` admits.
pub fn check_automaton<T: Structure>(
    alloc: Global,
    a: &Term,
    under: &Constraint,
    size: usize,
    chosen: &mut Chosen,
) -> Result<Verdict, NoMemory>
    requires over { IsOver T.ordered size (tree a.now) }
    requires under { ConstraintFits size under.now }
    ensures verdict { IfOk result (IsVerdictOn size under.now (IsAutomatonAt (tree a.now))) }

    // whatever is answered
    ensures only_asked { HasOnlyAsked (λ b. (⟦<dyn Decider as Decider>⟧ b.vtable).kind_of b.value) (λ b. (⟦<dyn Decider as Decider>⟧ b.vtable).questions b.value) chosen.old chosen.new }
{
    let Some(sets) = five(a) else {
        let nowhere = Constraint::new(alloc);
        return asked(alloc, under, &nowhere, size, chosen);
    };
    let joined = where_joined::<T>(alloc, sets, size)?;
    let starts = where_inside::<T>(alloc, sets.initial, sets.states, size)?;
    let ends = where_inside::<T>(alloc, sets.accepting, sets.states, size)?;
    let both = meet(alloc, &starts, &ends)?;
    let wanted = meet(alloc, &joined, &both)?;
    asked(alloc, under, &wanted, size, chosen)
}

// Whether the constraint holds at each choice that `under` admits.
fn asked(
    alloc: Global,
    under: &Constraint,
    wanted: &Constraint,
    size: usize,
    chosen: &mut Chosen,
) -> Result<Verdict, NoMemory>
    requires under { ConstraintFits size under.now }
    requires wanted { ConstraintFits size wanted.now }
    ensures verdict { IfOk result (IsVerdictOn size under.now (λ c. IsTrue (holds c wanted.now))) }
    ensures only_asked { HasOnlyAsked (λ b. (⟦<dyn Decider as Decider>⟧ b.vtable).kind_of b.value) (λ b. (⟦<dyn Decider as Decider>⟧ b.vtable).questions b.value) chosen.old chosen.new }
{
    match chosen.entails(alloc, under, wanted, size)? {
        Some(sample) => Ok(Verdict::Fails(sample)),
        None => Ok(Verdict::Holds),
    }
}

/// Whether the automaton `a` has exactly one initial state, and at most one step for each state and letter, at each choice that
/// `under` admits.
pub fn check_deterministic<T: Structure>(
    alloc: Global,
    a: &Term,
    under: &Constraint,
    size: usize,
    chosen: &mut Chosen,
) -> Result<Verdict, NoMemory>
    requires over { IsOver T.ordered size (tree a.now) }
    requires under { ConstraintFits size under.now }
    requires automaton { HoldsThroughout size under.now (IsAutomatonAt (tree a.now)) }
    ensures verdict { IfOk result (IsVerdictOn size under.now (IsDeterministicAt (tree a.now))) }
    ensures only_asked { HasOnlyAsked (λ b. (⟦<dyn Decider as Decider>⟧ b.vtable).kind_of b.value) (λ b. (⟦<dyn Decider as Decider>⟧ b.vtable).questions b.value) chosen.old chosen.new }
{
    let Some(sets) = five(a) else {
        return Ok(Verdict::Holds);
    };
    let some = where_inhabited::<T>(alloc, sets.initial, size)?;
    let one = where_single::<T>(alloc, sets.initial, size)?;
    let led = where_targets_unique::<T>(alloc, sets.steps, size)?;
    let start = meet(alloc, &some, &one)?;
    let wanted = meet(alloc, &start, &led)?;
    asked(alloc, under, &wanted, size, chosen)
}

/// Whether the automaton `a` has at least one step for each state and letter, at each choice that `under` admits.
pub fn check_complete<T: Structure>(
    alloc: Global,
    a: &Term,
    under: &Constraint,
    size: usize,
    chosen: &mut Chosen,
) -> Result<Verdict, NoMemory>
    requires over { IsOver T.ordered size (tree a.now) }
    requires under { ConstraintFits size under.now }
    requires automaton { HoldsThroughout size under.now (IsAutomatonAt (tree a.now)) }
    ensures verdict { IfOk result (IsVerdictOn size under.now (IsCompleteAt (tree a.now))) }
    ensures only_asked { HasOnlyAsked (λ b. (⟦<dyn Decider as Decider>⟧ b.vtable).kind_of b.value) (λ b. (⟦<dyn Decider as Decider>⟧ b.vtable).questions b.value) chosen.old chosen.new }
{
    let Some(sets) = five(a) else {
        return Ok(Verdict::Holds);
    };
    let wanted = pairs(alloc, sets.states, sets.letters, size)?;
    let outgoing = project_steps(alloc, sets.steps, Projection::Outgoing)?;
    let found = where_included::<T>(alloc, &wanted, &outgoing, size)?;
    asked(alloc, under, &found, size, chosen)
}

//! The minimal automaton, from states with their classes.

ghost use Rattle.std.specs.Prelude.{Bool, IfOk};
ghost use Rattle.lois_base.specs.Data.{coll, comps_of};
ghost use Rattle.lois_base.specs.Fits.{Fits};
ghost use Rattle.lois_base.specs.Over.{IsOver, ItemsAreOver, ConstraintIsOver};
ghost use Rattle.lois_base.specs.Tree.{tree};
ghost use Rattle.lois_base.specs.Validity.{AdmitsConstraint, AdmitsTerm, AdmitsItems, HasBoundedWidths, ItemsHaveBoundedWidths};
ghost use Rattle.lois_deciders.specs.OnlyAsked.{HasOnlyAsked};
ghost use Rattle.lois_automata.specs.Machines.{IsCompleteDeterministicAt, IsReachAt};
ghost use Rattle.lois_automata.specs.Throughout.{HoldsThroughout};
ghost use Rattle.lois_minimise.specs.Classes.{IsQuotientTerm};
ghost use Rattle.lois_minimise.specs.Minimal.{IsMinimalAt, IsLeastAt};

use crate::classing::with_classes;
use crate::pairs::second_parts;
use crate::refining::indistinguishable_pairs;
use crate::transitions::class_steps;
use lois_automata::{FiveSets, five, of_five, targets_from};
use lois_base::{Comps, Constraint, Decider, NoMemory, Structure, Term};
use lois_deciders::Chosen;
use std::alloc::Global;

/// The minimal automaton of the complete deterministic automaton `a`, whose reachable states are the set `reached`, at each
/// choice that `under` admits. Errors: `NoMemory`, also where a level or the number of rounds would pass the greatest usize.
/// Nothing is asked: what can't be met is found when constraints are pruned. The decider is borrowed as by all calls on
/// automata.
pub fn minimise<T: Structure>(
    alloc: Global,
    a: &Term,
    reached: &Term,
    under: &Constraint,
    size: usize,
    chosen: &mut Chosen,
) -> Result<Term, NoMemory>
    requires over { IsOver T.ordered size (tree a.now) }
    requires reached_over { IsOver T.ordered size (tree reached.now) }
    requires under { ConstraintIsOver T.ordered size under.now }
    requires whole { HoldsThroughout size under.now (IsCompleteDeterministicAt (tree a.now)) }
    requires reached { HoldsThroughout size under.now (IsReachAt (tree a.now) (tree reached.now)) }
    ensures minimal { IfOk result (λ r. HoldsThroughout size under.now (IsMinimalAt (tree a.now) (tree r))) }
    ensures least { IfOk result (λ r. HoldsThroughout size under.now (IsLeastAt (tree a.now) (tree r))) }
    ensures levels { IfOk result (λ r. Fits size (tree r)) }
    ensures operators { IfOk result (λ r. (o : Bool) → AdmitsTerm o (tree a.now) → AdmitsTerm o (tree reached.now) → AdmitsConstraint o under.now → AdmitsTerm o (tree r)) }
    ensures widths { IfOk result (λ r. HasBoundedWidths (tree a.now) → HasBoundedWidths (tree reached.now) → HasBoundedWidths (tree r)) }

    // whatever is answered
    ensures only_asked { HasOnlyAsked (λ b. (⟦<dyn Decider as Decider>⟧ b.vtable).kind_of b.value) (λ b. (⟦<dyn Decider as Decider>⟧ b.vtable).questions b.value) chosen.old chosen.new }
{
    let Some(sets) = five(a) else {
        return a.copy(alloc);
    };
    let Term::Coll(nodes) = reached else {
        return a.copy(alloc);
    };
    let alike = indistinguishable_pairs::<T>(alloc, sets, nodes, size)?;
    let classes = with_classes::<T>(alloc, nodes, &alike, size)?;
    quotient::<T>(alloc, sets, &classes, size)
}

// The automaton whose five sets have the second parts of the pairs in the place of their first parts.
fn quotient<T: Structure>(
    alloc: Global,
    sets: FiveSets<'_>,
    classes: &Comps,
    size: usize,
) -> Result<Term, NoMemory>
    requires letters { ItemsAreOver T.ordered size (comps_of sets.letters.now) }
    requires steps { ItemsAreOver T.ordered size (comps_of sets.steps.now) }
    requires initial { ItemsAreOver T.ordered size (comps_of sets.initial.now) }
    requires accepting { ItemsAreOver T.ordered size (comps_of sets.accepting.now) }
    requires classes { ItemsAreOver T.ordered size (comps_of classes.now) }
    ensures quotient { IfOk result (λ r. IsQuotientTerm size (comps_of sets.entry.states.now) (comps_of sets.entry.letters.now) (comps_of sets.entry.steps.now) (comps_of sets.entry.initial.now) (comps_of sets.entry.accepting.now) (coll (comps_of classes.now)) (tree r)) }
    ensures levels { IfOk result (λ r. Fits size (tree r)) }
    ensures operators { IfOk result (λ r. (o : Bool) → AdmitsItems o (comps_of sets.entry.letters.now) → AdmitsItems o (comps_of sets.entry.steps.now) → AdmitsItems o (comps_of sets.entry.initial.now) → AdmitsItems o (comps_of sets.entry.accepting.now) → AdmitsItems o (comps_of classes.now) → AdmitsTerm o (tree r)) }
    ensures widths { IfOk result (λ r. ItemsHaveBoundedWidths (comps_of sets.entry.letters.now) → ItemsHaveBoundedWidths (comps_of classes.now) → HasBoundedWidths (tree r)) }
{
    let states = second_parts(alloc, classes)?;
    let letters = Term::Coll(sets.letters.copy(alloc)?);
    let steps = class_steps::<T>(alloc, classes, sets.letters, sets.steps, size)?;
    let starts = Term::Coll(sets.initial.copy(alloc)?);
    let initial = targets_from::<T>(alloc, classes, &starts, size)?;
    let ends = Term::Coll(sets.accepting.copy(alloc)?);
    let accepting = targets_from::<T>(alloc, classes, &ends, size)?;
    of_five(alloc, states, letters, steps, initial, accepting)
}

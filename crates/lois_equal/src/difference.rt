//! Words that one automaton accepts and another one doesn't.

ghost use Rattle.std.specs.Prelude.{Bool, IfOk, IfSome, IsNone, ◌↔◌};
ghost use Rattle.std.specs.List.{All};
ghost use Rattle.lois_base.specs.Over.{IsOver, ConstraintIsOver};
ghost use Rattle.lois_base.specs.Tree.{tree};
ghost use Rattle.lois_base.specs.Validity.{AdmitsTerm, HasBoundedWidths, IsStrictTerm};
ghost use Rattle.lois_deciders.specs.OnlyAsked.{HasOnlyAsked};
ghost use Rattle.lois_automata.specs.Machines.{IsAutomatonAt};
ghost use Rattle.lois_automata.specs.Deterministic.{IsDeterministicAt};
ghost use Rattle.lois_automata.specs.Throughout.{HoldsThroughout};
ghost use Rattle.lois_ranks.specs.Ranks.{AreRanks};
ghost use Rattle.lois_equal.specs.Differences.{IsLanguageIncluded, IsShortestDifference};

use crate::completion::complete_automaton;
use crate::splitting::split_found;
use lois_automata::{complement, five};
use lois_base::{Constraint, Decider, NoMemory, Structure, Term};
use lois_deciders::Chosen;
use lois_shortest_word::{Word, rank_found, shortest_common_word};
use std::alloc::Global;

/// A word that `a` accepts and `b` doesn't, at some choice that `under` admits, such that there is no shorter one at any choice
/// that `under` admits, or `None` where there is none at any. Its numbers are ranks. Errors: `NoMemory`, also where a level would
/// pass the greatest usize.
pub fn shortest_difference<T: Structure>(
    alloc: Global,
    a: &Term,
    b: &Term,
    under: &Constraint,
    size: usize,
    chosen: &mut Chosen,
) -> Result<Option<Word>, NoMemory>
    requires over { IsOver T.ordered size (tree a.now) }
    requires other { IsOver T.ordered size (tree b.now) }
    requires under { ConstraintIsOver T.ordered size under.now }
    requires automaton { HoldsThroughout size under.now (IsAutomatonAt (tree a.now)) }
    requires deterministic { HoldsThroughout size under.now (IsDeterministicAt (tree b.now)) }
    ensures none { IfOk result (λ o. IsNone o → IsLanguageIncluded size under.now (tree a.now) (tree b.now)) }
    ensures found { IfOk result (λ o. IfSome o (IsShortestDifference size under.now (tree a.now) (tree b.now))) }
    ensures operators { IfOk result (λ o. IfSome o (λ w. (o : Bool) → AdmitsTerm o (tree a.now) → AdmitsTerm o (tree b.now) → All (AdmitsTerm o) w.letters)) }
    ensures widths { IfOk result (λ o. IfSome o (λ w. HasBoundedWidths (tree a.now) → HasBoundedWidths (tree b.now) → All HasBoundedWidths w.letters)) }
    ensures strict { IfOk result (λ o. IfSome o (λ w. All IsStrictTerm w.letters)) }
    ensures ranked { IfOk result (λ o. IfSome o (λ w. AreRanks T.ordered w.sample)) }
    ensures only_asked { HasOnlyAsked (λ b. (⟦<dyn Decider as Decider>⟧ b.vtable).kind_of b.value) (λ b. (⟦<dyn Decider as Decider>⟧ b.vtable).questions b.value) chosen.old chosen.new }
{
    let found = find_difference::<T>(alloc, a, b, under, size, chosen)?;
    let split = split_found(alloc, found, size)?;
    rank_found::<T>(alloc, split)
}

// The same, with letters as the two automata and the complement give them.
fn find_difference<T: Structure>(
    alloc: Global,
    a: &Term,
    b: &Term,
    under: &Constraint,
    size: usize,
    chosen: &mut Chosen,
) -> Result<Option<Word>, NoMemory>
    requires over { IsOver T.ordered size (tree a.now) }
    requires other { IsOver T.ordered size (tree b.now) }
    requires under { ConstraintIsOver T.ordered size under.now }
    requires automaton { HoldsThroughout size under.now (IsAutomatonAt (tree a.now)) }
    requires deterministic { HoldsThroughout size under.now (IsDeterministicAt (tree b.now)) }
    ensures none { IfOk result (λ o. IsNone o → IsLanguageIncluded size under.now (tree a.now) (tree b.now)) }
    ensures found { IfOk result (λ o. IfSome o (IsShortestDifference size under.now (tree a.now) (tree b.now))) }
    ensures operators { IfOk result (λ o. IfSome o (λ w. (o : Bool) → AdmitsTerm o (tree a.now) → AdmitsTerm o (tree b.now) → All (AdmitsTerm o) w.letters)) }
    ensures widths { IfOk result (λ o. IfSome o (λ w. HasBoundedWidths (tree a.now) → HasBoundedWidths (tree b.now) → All HasBoundedWidths w.letters)) }
    ensures only_asked { HasOnlyAsked (λ b. (⟦<dyn Decider as Decider>⟧ b.vtable).kind_of b.value) (λ b. (⟦<dyn Decider as Decider>⟧ b.vtable).questions b.value) chosen.old chosen.new }
{
    let Some(sets) = five(a) else {
        return Ok(None);
    };
    let whole = complete_automaton::<T>(alloc, b, sets.letters, size)?;
    let others = complement::<T>(alloc, &whole, under, size, chosen)?;
    shortest_common_word::<T>(alloc, a, &others, under, size, chosen)
}

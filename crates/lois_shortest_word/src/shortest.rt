//! A shortest word that an automaton accepts.

ghost use Rattle.std.specs.Prelude.{◌≡◌, Bool, IfOk, IfSome, IsNone, ◌↔◌};
ghost use Rattle.std.specs.List.{All};
ghost use Rattle.lois_base.specs.Over.{IsOver, ConstraintIsOver};
ghost use Rattle.lois_base.specs.Tree.{tree};
ghost use Rattle.lois_base.specs.Validity.{AdmitsTerm, HasBoundedWidths};
ghost use Rattle.lois_automata.specs.Machines.{IsAutomatonAt, IsEmptyAt};
ghost use Rattle.lois_automata.specs.Throughout.{HoldsThroughout};
ghost use Rattle.lois_deciders.specs.OnlyAsked.{HasOnlyAsked};
ghost use Rattle.lois_shortest_word.specs.Shortest.{IsShortestWord};

use crate::shortening::drop_unused_numbers;
use crate::walking::word_of;
use crate::words::Word;
use lois_automata::{empty, five};
use lois_base::{Constraint, Decider, NoMemory, Structure, Term};
use lois_deciders::Chosen;
use std::alloc::Global;

/// A word that the automaton `a` accepts at some choice that `under` admits, such that at no choice that `under` admits it
/// accepts a shorter one, or `None` where it accepts no word at any. Behind the choice its sample has numbers only for levels
/// that letters use. Errors: `NoMemory`, also where a level would pass the greatest usize.
pub fn shortest_word<T: Structure>(
    alloc: Global,
    a: &Term,
    under: &Constraint,
    size: usize,
    chosen: &mut Chosen,
) -> Result<Option<Word>, NoMemory>
    requires over { IsOver T.ordered size (tree a.now) }
    requires under { ConstraintIsOver T.ordered size under.now }
    requires automaton { HoldsThroughout size under.now (IsAutomatonAt (tree a.now)) }
    ensures none { IfOk result (λ o. IsNone o ↔ HoldsThroughout size under.now (IsEmptyAt (tree a.now))) }
    ensures found { IfOk result (λ o. IfSome o (IsShortestWord size under.now (tree a.now))) }
    ensures operators { IfOk result (λ o. IfSome o (λ w. (o : Bool) → AdmitsTerm o (tree a.now) → All (AdmitsTerm o) w.letters)) }
    ensures widths { IfOk result (λ o. IfSome o (λ w. HasBoundedWidths (tree a.now) → All HasBoundedWidths w.letters)) }

    // whatever is answered
    ensures only_asked { HasOnlyAsked (λ b. (⟦<dyn Decider as Decider>⟧ b.vtable).kind_of b.value) (λ b. (⟦<dyn Decider as Decider>⟧ b.vtable).questions b.value) chosen.old chosen.new }
{
    let Some(sets) = five(a) else {
        return Ok(None);
    };
    let none = empty::<T>(alloc, a, under, size, chosen)?;
    if chosen.entails(alloc, under, &none, size)?.is_none() {
        return Ok(None);
    }
    let word = word_of::<T>(alloc, sets, under, size, chosen)?;
    let shorter = drop_unused_numbers(alloc, word, size)?;
    Ok(Some(shorter))
}

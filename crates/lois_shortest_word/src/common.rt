//! A shortest word that two automata accept.

ghost use Rattle.std.specs.Prelude.{◌≡◌, ◌↔◌, Bool, IfOk, IfSome, IsNone};
ghost use Rattle.std.specs.List.{All};
ghost use Rattle.lois_base.specs.Fits.{ConstraintFits};
ghost use Rattle.lois_base.specs.Over.{IsOver};
ghost use Rattle.lois_base.specs.Tree.{tree};
ghost use Rattle.lois_base.specs.Validity.{AdmitsTerm, HasBoundedWidths};
ghost use Rattle.lois_automata.specs.Machines.{IsAutomatonAt};
ghost use Rattle.lois_automata.specs.Throughout.{HoldsThroughout};
ghost use Rattle.lois_deciders.specs.OnlyAsked.{HasOnlyAsked};
ghost use Rattle.lois_shortest_word.specs.Common.{AcceptNoneInCommon, IsShortestCommonWord};

use crate::meeting::{Meeting, first_meeting};
use crate::shortening::drop_unused_numbers;
use crate::walking::word_of;
use crate::words::Word;
use lois_automata::{FiveSets, five, pairs};
use lois_base::{Comps, Constraint, Decider, NoMemory, Structure, Term};
use lois_deciders::Chosen;
use std::alloc::Global;

/// A word that the automata `a` and `b` both accept at some choice that `under` admits, such that at no choice that `under` admits
/// both accept a shorter one, or `None` where they have no word in common at any. Behind the choice its sample has numbers only
/// for levels that letters use. Errors: `NoMemory`, also where a level would pass the greatest usize.
pub fn shortest_common_word<T: Structure>(
    alloc: Global,
    a: &Term,
    b: &Term,
    under: &Constraint,
    size: usize,
    chosen: &mut Chosen,
) -> Result<Option<Word>, NoMemory>
    requires over { IsOver T.ordered size (tree a.now) }
    requires other { IsOver T.ordered size (tree b.now) }
    requires under { ConstraintFits size under.now }
    requires automaton { HoldsThroughout size under.now (IsAutomatonAt (tree a.now)) }
    requires other_automaton { HoldsThroughout size under.now (IsAutomatonAt (tree b.now)) }
    ensures none { IfOk result (λ o. IsNone o ↔ AcceptNoneInCommon size under.now (tree a.now) (tree b.now)) }
    ensures found { IfOk result (λ o. IfSome o (IsShortestCommonWord size under.now (tree a.now) (tree b.now))) }
    ensures operators { IfOk result (λ o. IfSome o (λ w. (o : Bool) → AdmitsTerm o (tree a.now) → AdmitsTerm o (tree b.now) → All (AdmitsTerm o) w.letters)) }
    ensures widths { IfOk result (λ o. IfSome o (λ w. HasBoundedWidths (tree a.now) → HasBoundedWidths (tree b.now) → All HasBoundedWidths w.letters)) }

    // whatever is answered
    ensures only_asked { HasOnlyAsked (λ b. (⟦<dyn Decider as Decider>⟧ b.vtable).kind_of b.value) (λ b. (⟦<dyn Decider as Decider>⟧ b.vtable).questions b.value) chosen.old chosen.new }
{
    let Some(one) = five(a) else {
        return Ok(None);
    };
    let Some(other) = five(b) else {
        return Ok(None);
    };
    let Term::Coll(starts) = pairs(alloc, one.initial, other.initial, size)? else {
        unreachable!()
    };
    let Some(met) = first_meeting::<T>(alloc, &starts, one, other, under, size, chosen)? else {
        return Ok(None);
    };
    let Meeting { steps, common } = met;
    let none = Comps::new(alloc);
    let sets = FiveSets {
        states: &none,
        letters: &none,
        steps: &steps,
        initial: &starts,
        accepting: &common,
    };
    let word = word_of::<T>(alloc, sets, under, size, chosen)?;
    let shorter = drop_unused_numbers(alloc, word, size)?;
    Ok(Some(shorter))
}

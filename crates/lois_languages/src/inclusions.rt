//! Whether each word that the one name's lines accept is accepted by the other's.

ghost use Rattle.std.specs.Prelude.{◌≡◌, true, length, IfOk, IfSome, IsNone};
ghost use Rattle.std.specs.List.{All};
ghost use Rattle.lois_answers.specs.CaseView.{case_of};
ghost use Rattle.lois_answers.specs.Sound.{IsSound, IsSoundCase};
ghost use Rattle.lois_deciders.specs.OnlyAsked.{HasOnlyAsked};
ghost use Rattle.lois_ranks.specs.Ranks.{AreRanks};
ghost use Rattle.lois_equal.specs.Differences.{AreBounded};
ghost use Rattle.lois_languages.specs.Faults.{HasFaultNumber};
ghost use Rattle.lois_languages.specs.Inclusions.{AreSuited, IsWithin, IsExcessWord, IsWithinReasonOrNone, IsFirstWithinReason, IsFirstBeyond, IsInclusion, IfBeyond, excess_of};

use crate::faults::{LineFault, is_automaton};
use lois_answers::{Case, Cases, Results};
use lois_base::{Decider, Name, NoMemory, Structure};
use lois_deciders::Chosen;
use lois_equal::{Difference, is_deterministic, shortest_difference};
use lois_shortest_word::Word;
use std::alloc::Global;

/// What is found where the lines of one name are compared with those of another.
#[derive(Drop)]
pub enum Inclusion {
    Within,
    // the number of the first case in which the first name's line accepts a word that the second's doesn't, from 1, and the first
    // name
    Beyond(usize, Difference, Name),
    Refused(LineFault),
}

/// Whether the second name's line accepts each word that the first's accepts, in each case, at each choice that the case admits;
/// otherwise a shortest word that the first's accepts and the second's doesn't, in the first case that has one. The word's numbers
/// are ranks. All cases are looked at before any is compared. Where a case has several lines of a name, the last one counts.
/// Errors: `NoMemory`, also where a level would pass the greatest usize.
pub fn inclusion_of<T: Structure>(
    alloc: Global,
    results: &Results,
    first: &Name,
    second: &Name,
    chosen: &mut Chosen,
) -> Result<Inclusion, NoMemory>
    requires sound { IsSound results.now }
    requires atoms { T.ordered ≡ results.now.order }
    ensures inclusion { IfOk result (IsInclusion (length results.now.parameters) first.now second.now results.now.cases) }
    ensures usual { IfOk result (IfBeyond (λ d. AreBounded T.ordered d.word)) }
    ensures ranked { IfOk result (IfBeyond (λ d. AreRanks T.ordered d.sample)) }

    // whatever is answered
    ensures only_asked { HasOnlyAsked (λ b. (⟦<dyn Decider as Decider>⟧ b.vtable).kind_of b.value) (λ b. (⟦<dyn Decider as Decider>⟧ b.vtable).questions b.value) chosen.old chosen.new }
{
    let size = results.parameters.len();
    let refused = first_unsuited::<T>(alloc, &results.cases, size, first, second, chosen)?;
    if let Some(fault) = refused {
        return Ok(Inclusion::Refused(fault));
    }
    first_excess::<T>(alloc, &results.cases, size, first, second, chosen)
}

// Why the first case can't be compared that can't.
fn first_unsuited<T: Structure>(
    alloc: Global,
    cases: &Cases,
    size: usize,
    first: &Name,
    second: &Name,
    chosen: &mut Chosen,
) -> Result<Option<LineFault>, NoMemory>
    requires { All (IsSoundCase T.ordered size) cases.now }
    ensures first { IfOk result (IsFirstWithinReason size first.now second.now cases.now) }
    ensures only_asked { HasOnlyAsked (λ b. (⟦<dyn Decider as Decider>⟧ b.vtable).kind_of b.value) (λ b. (⟦<dyn Decider as Decider>⟧ b.vtable).questions b.value) chosen.old chosen.new }
{
    for (index, case) in cases.as_slice().iter().enumerate() {
        let found = fault_in::<T>(alloc, case, index + 1, size, first, second, chosen)?;
        if let Some(fault) = found {
            return Ok(Some(fault));
        }
    }
    Ok(None)
}

// Why the case can't be compared, if it can't.
fn fault_in<T: Structure>(
    alloc: Global,
    case: &Case,
    number: usize,
    size: usize,
    first: &Name,
    second: &Name,
    chosen: &mut Chosen,
) -> Result<Option<LineFault>, NoMemory>
    requires { IsSoundCase T.ordered size (case_of case.now) }
    ensures reason { IfOk result (IsWithinReasonOrNone size first.now second.now (case_of case.now)) }
    ensures number { IfOk result (HasFaultNumber number) }
    ensures only_asked { HasOnlyAsked (λ b. (⟦<dyn Decider as Decider>⟧ b.vtable).kind_of b.value) (λ b. (⟦<dyn Decider as Decider>⟧ b.vtable).questions b.value) chosen.old chosen.new }
{
    let Some(one) = case.lines.last_named(first) else {
        let name = first.copy(alloc)?;
        return Ok(Some(LineFault::NoLine(name, number)));
    };
    let Some(other) = case.lines.last_named(second) else {
        let name = second.copy(alloc)?;
        return Ok(Some(LineFault::NoLine(name, number)));
    };
    if !is_automaton::<T>(alloc, &one.term, &case.when, size, chosen)? {
        let name = first.copy(alloc)?;
        return Ok(Some(LineFault::NotAutomaton(name, number)));
    }
    if !is_deterministic::<T>(alloc, &other.term, &case.when, size, chosen)? {
        let name = second.copy(alloc)?;
        return Ok(Some(LineFault::NotDeterministic(name, number)));
    }
    Ok(None)
}

// The first word beyond, of cases that can all be compared.
fn first_excess<T: Structure>(
    alloc: Global,
    cases: &Cases,
    size: usize,
    first: &Name,
    second: &Name,
    chosen: &mut Chosen,
) -> Result<Inclusion, NoMemory>
    requires sound { All (IsSoundCase T.ordered size) cases.now }
    requires suited { All (AreSuited size first.now second.now) cases.now }
    ensures first { IfOk result (IsFirstBeyond size first.now second.now cases.now) }
    ensures usual { IfOk result (IfBeyond (λ d. AreBounded T.ordered d.word)) }
    ensures ranked { IfOk result (IfBeyond (λ d. AreRanks T.ordered d.sample)) }
    ensures only_asked { HasOnlyAsked (λ b. (⟦<dyn Decider as Decider>⟧ b.vtable).kind_of b.value) (λ b. (⟦<dyn Decider as Decider>⟧ b.vtable).questions b.value) chosen.old chosen.new }
{
    for (index, case) in cases.as_slice().iter().enumerate() {
        let found = excess_in::<T>(alloc, case, size, first, second, chosen)?;
        if let Some(word) = found {
            return beyond(alloc, index + 1, word, first);
        }
    }
    Ok(Inclusion::Within)
}

// A shortest word that the first line of one case accepts and the second doesn't.
fn excess_in<T: Structure>(
    alloc: Global,
    case: &Case,
    size: usize,
    first: &Name,
    second: &Name,
    chosen: &mut Chosen,
) -> Result<Option<Word>, NoMemory>
    requires sound { IsSoundCase T.ordered size (case_of case.now) }
    requires suited { AreSuited size first.now second.now (case_of case.now) }
    ensures none { IfOk result (λ o. IsNone o → IsWithin size first.now second.now (case_of case.now)) }
    ensures found { IfOk result (λ o. IfSome o (λ w. IsExcessWord size first.now second.now w (case_of case.now))) }
    ensures usual { IfOk result (λ o. IfSome o (λ w. AreBounded T.ordered w.letters)) }
    ensures ranked { IfOk result (λ o. IfSome o (λ w. AreRanks T.ordered w.sample)) }
    ensures only_asked { HasOnlyAsked (λ b. (⟦<dyn Decider as Decider>⟧ b.vtable).kind_of b.value) (λ b. (⟦<dyn Decider as Decider>⟧ b.vtable).questions b.value) chosen.old chosen.new }
{
    let Some(one) = case.lines.last_named(first) else {
        unreachable!()
    };
    let Some(other) = case.lines.last_named(second) else {
        unreachable!()
    };
    shortest_difference::<T>(alloc, &one.term, &other.term, &case.when, size, chosen)
}

// The word as a difference in the case of that number, with the name of the line that accepts.
fn beyond(alloc: Global, number: usize, word: Word, first: &Name) -> Result<Inclusion, NoMemory>
    ensures { IfOk result (λ r. r ≡ Inclusion.Beyond number (excess_of word) first.now) }
{
    let name = first.copy(alloc)?;
    let difference = Difference {
        sample: word.sample,
        word: word.letters,
        left: true,
    };
    Ok(Inclusion::Beyond(number, difference, name))
}

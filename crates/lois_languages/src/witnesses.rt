//! A shortest word that the lines of a name accept.

ghost use Rattle.std.specs.Prelude.{◌≡◌, length, IfOk, IfSome, IsNone};
ghost use Rattle.std.specs.List.{All};
ghost use Rattle.lois_answers.specs.CaseView.{case_of};
ghost use Rattle.lois_answers.specs.Sound.{IsSound, IsSoundCase};
ghost use Rattle.lois_deciders.specs.OnlyAsked.{HasOnlyAsked};
ghost use Rattle.lois_ranks.specs.Ranks.{AreRanks};
ghost use Rattle.lois_equal.specs.Differences.{AreBounded};
ghost use Rattle.lois_languages.specs.Faults.{HasAutomaton, HasFaultNumber};
ghost use Rattle.lois_languages.specs.Witnesses.{AcceptsNone, AcceptsShortest, IsWordReasonOrNone, IsFirstWordReason, IsFirstWord, IsWitness, IfFound};

use crate::faults::{LineFault, is_automaton};
use lois_answers::{Case, Cases, Results};
use lois_base::{Decider, Name, NoMemory, Structure};
use lois_deciders::Chosen;
use lois_equal::split_found;
use lois_shortest_word::{Word, rank_found, shortest_word};
use std::alloc::Global;

/// What is found where the lines of a name are asked for a word.
#[derive(Drop)]
pub enum Witness {
    // no line accepts any
    Nothing,
    // the number of the first case in which the line accepts one, from 1
    Found(usize, Word),
    Refused(LineFault),
}

/// A shortest word that the line of the name accepts, at any choice that its case admits, in the first case in which it accepts
/// one. Its numbers are ranks. All cases are looked at before any is asked. Where a case has several lines of the name, the last
/// one counts. Errors: `NoMemory`, also where a level would pass the greatest usize.
pub fn word_of<T: Structure>(
    alloc: Global,
    results: &Results,
    name: &Name,
    chosen: &mut Chosen,
) -> Result<Witness, NoMemory>
    requires sound { IsSound results.now }
    requires atoms { T.ordered ≡ results.now.order }
    ensures witness { IfOk result (IsWitness (length results.now.parameters) name.now results.now.cases) }
    ensures usual { IfOk result (IfFound (λ w. AreBounded T.ordered w.letters)) }
    ensures ranked { IfOk result (IfFound (λ w. AreRanks T.ordered w.sample)) }

    // whatever is answered
    ensures only_asked { HasOnlyAsked (λ b. (⟦<dyn Decider as Decider>⟧ b.vtable).kind_of b.value) (λ b. (⟦<dyn Decider as Decider>⟧ b.vtable).questions b.value) chosen.old chosen.new }
{
    let size = results.parameters.len();
    let refused = first_without_automaton::<T>(alloc, &results.cases, size, name, chosen)?;
    if let Some(fault) = refused {
        return Ok(Witness::Refused(fault));
    }
    first_word::<T>(alloc, &results.cases, size, name, chosen)
}

// Why the first case can't be asked that can't.
fn first_without_automaton<T: Structure>(
    alloc: Global,
    cases: &Cases,
    size: usize,
    name: &Name,
    chosen: &mut Chosen,
) -> Result<Option<LineFault>, NoMemory>
    requires { All (IsSoundCase T.ordered size) cases.now }
    ensures first { IfOk result (IsFirstWordReason size name.now cases.now) }
    ensures only_asked { HasOnlyAsked (λ b. (⟦<dyn Decider as Decider>⟧ b.vtable).kind_of b.value) (λ b. (⟦<dyn Decider as Decider>⟧ b.vtable).questions b.value) chosen.old chosen.new }
{
    for (index, case) in cases.as_slice().iter().enumerate() {
        let found = automaton_fault_in::<T>(alloc, case, index + 1, size, name, chosen)?;
        if let Some(fault) = found {
            return Ok(Some(fault));
        }
    }
    Ok(None)
}

// Why the case can't be asked, if it can't.
fn automaton_fault_in<T: Structure>(
    alloc: Global,
    case: &Case,
    number: usize,
    size: usize,
    name: &Name,
    chosen: &mut Chosen,
) -> Result<Option<LineFault>, NoMemory>
    requires { IsSoundCase T.ordered size (case_of case.now) }
    ensures reason { IfOk result (IsWordReasonOrNone size name.now (case_of case.now)) }
    ensures number { IfOk result (HasFaultNumber number) }
    ensures only_asked { HasOnlyAsked (λ b. (⟦<dyn Decider as Decider>⟧ b.vtable).kind_of b.value) (λ b. (⟦<dyn Decider as Decider>⟧ b.vtable).questions b.value) chosen.old chosen.new }
{
    let Some(line) = case.lines.last_named(name) else {
        let name = name.copy(alloc)?;
        return Ok(Some(LineFault::NoLine(name, number)));
    };
    if !is_automaton::<T>(alloc, &line.term, &case.when, size, chosen)? {
        let name = name.copy(alloc)?;
        return Ok(Some(LineFault::NotAutomaton(name, number)));
    }
    Ok(None)
}

// The word of the first case that has one, of cases that can all be asked.
fn first_word<T: Structure>(
    alloc: Global,
    cases: &Cases,
    size: usize,
    name: &Name,
    chosen: &mut Chosen,
) -> Result<Witness, NoMemory>
    requires sound { All (IsSoundCase T.ordered size) cases.now }
    requires automata { All (HasAutomaton size name.now) cases.now }
    ensures first { IfOk result (IsFirstWord size name.now cases.now) }
    ensures usual { IfOk result (IfFound (λ w. AreBounded T.ordered w.letters)) }
    ensures ranked { IfOk result (IfFound (λ w. AreRanks T.ordered w.sample)) }
    ensures only_asked { HasOnlyAsked (λ b. (⟦<dyn Decider as Decider>⟧ b.vtable).kind_of b.value) (λ b. (⟦<dyn Decider as Decider>⟧ b.vtable).questions b.value) chosen.old chosen.new }
{
    for (index, case) in cases.as_slice().iter().enumerate() {
        let found = word_in::<T>(alloc, case, size, name, chosen)?;
        if let Some(word) = found {
            return Ok(Witness::Found(index + 1, word));
        }
    }
    Ok(Witness::Nothing)
}

// A shortest word of the line of one case.
fn word_in<T: Structure>(
    alloc: Global,
    case: &Case,
    size: usize,
    name: &Name,
    chosen: &mut Chosen,
) -> Result<Option<Word>, NoMemory>
    requires sound { IsSoundCase T.ordered size (case_of case.now) }
    requires automaton { HasAutomaton size name.now (case_of case.now) }
    ensures none { IfOk result (λ o. IsNone o → AcceptsNone size name.now (case_of case.now)) }
    ensures found { IfOk result (λ o. IfSome o (λ w. AcceptsShortest size name.now w (case_of case.now))) }
    ensures usual { IfOk result (λ o. IfSome o (λ w. AreBounded T.ordered w.letters)) }
    ensures ranked { IfOk result (λ o. IfSome o (λ w. AreRanks T.ordered w.sample)) }
    ensures only_asked { HasOnlyAsked (λ b. (⟦<dyn Decider as Decider>⟧ b.vtable).kind_of b.value) (λ b. (⟦<dyn Decider as Decider>⟧ b.vtable).questions b.value) chosen.old chosen.new }
{
    let Some(line) = case.lines.last_named(name) else {
        unreachable!()
    };
    let found = shortest_word::<T>(alloc, &line.term, &case.when, size, chosen)?;
    let split = split_found(alloc, found, size)?;
    rank_found::<T>(alloc, split)
}

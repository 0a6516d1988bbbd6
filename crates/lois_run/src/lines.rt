//! The commands about lines of results, and about register automata.

ghost use Rattle.std.specs.Prelude.{◌≡◌, length, IfOk};
ghost use Rattle.lois_answers.specs.Sound.{IsSound};
ghost use Rattle.lois_census.specs.Refusals.{IsCensusAnswer};
ghost use Rattle.lois_equal.specs.Comparing.{IsComparison, IfDiffer};
ghost use Rattle.lois_equal.specs.Differences.{AreBounded};
ghost use Rattle.lois_ranks.specs.Ranks.{AreRanks};
ghost use Rattle.lois_run.specs.TextAnswers.{AnswersText};
ghost use Rattle.lois_run.specs.Outcomes.{HasText};
ghost use Rattle.lois_run.specs.Lines.{compared_outcome, listed_outcome};
ghost use Rattle.lois_run.specs.declared.words.Command.TheVariants.{Equal, Registers, Census};

use crate::{Outcome, Refusal};
use lois_answers::Results;
use lois_base::{Name, Names, NoMemory};
use lois_census::{Answer, census_of};
use lois_command::{ResultsRead, place_at, results_of};
use lois_deciders::Chosen;
use lois_equal::{Comparison, ComparisonFault, compare};
use lois_equality::EqualityAtoms;
use lois_order::OrderAtoms;
use lois_registers::{RegistersError, read_registers, translate_to_results};
use std::alloc::Global;

/// What a results text comes to whose lines of two names are to be compared in each case.
pub(crate) fn compare_text(
    alloc: Global,
    text: &[u8],
    first: &Name,
    second: &Name,
    chosen: &mut Chosen,
) -> Result<Outcome, NoMemory>
    ensures answer { IfOk result (AnswersText (Equal first.now second.now) text.now) }
    ensures written { IfOk result HasText }
{
    let results = match results_of(alloc, text)? {
        ResultsRead::Results(results) => results,
        ResultsRead::NotResults(place) => return Ok(Outcome::Refused(Refusal::NotResults(place))),
    };
    let comparison = compared(alloc, &results, first, second, chosen)?;
    Ok(compared_outcome(results.parameters, comparison))
}

// Over atoms of the results' structure.
fn compared(
    alloc: Global,
    results: &Results,
    first: &Name,
    second: &Name,
    chosen: &mut Chosen,
) -> Result<Comparison, NoMemory>
    requires sound { IsSound results.now }
    ensures comparison { IfOk result (IsComparison (length results.now.parameters) first.now second.now results.now.cases) }
    ensures usual { IfOk result (IfDiffer (λ d. AreBounded results.now.order d.word)) }
    ensures ranked { IfOk result (IfDiffer (λ d. AreRanks results.now.order d.sample)) }
{
    if results.order {
        compare::<OrderAtoms>(alloc, results, first, second, chosen)
    } else {
        compare::<EqualityAtoms>(alloc, results, first, second, chosen)
    }
}

fn compared_outcome(parameters: Names, comparison: Comparison) -> Outcome
    ensures { result ≡ compared_outcome parameters comparison }
{
    match comparison {
        Comparison::Alike => Outcome::Same,
        Comparison::Differ(case, difference, name) => Outcome::Differ(
            case, difference, name, parameters,
        ),
        Comparison::Refused(ComparisonFault::NoLine(name, case)) => Outcome::Refused(
            Refusal::NoLine(name, case),
        ),
        Comparison::Refused(ComparisonFault::NotDeterministic(name, case)) => Outcome::Refused(
            Refusal::NotDeterministic(name, case),
        ),
    }
}

/// What a results text comes to, of whose sets of a name one member of each orbit is to be listed.
pub(crate) fn count_text(
    alloc: Global,
    text: &[u8],
    name: &Name,
    chosen: &mut Chosen,
) -> Result<Outcome, NoMemory>
    ensures answer { IfOk result (AnswersText (Census name.now) text.now) }
    ensures written { IfOk result HasText }
{
    let results = match results_of(alloc, text)? {
        ResultsRead::Results(results) => results,
        ResultsRead::NotResults(place) => return Ok(Outcome::Refused(Refusal::NotResults(place))),
    };
    let answer = counted(alloc, &results, name, chosen)?;
    Ok(counted_outcome(answer))
}

// Over atoms of the results' structure.
fn counted(
    alloc: Global,
    results: &Results,
    name: &Name,
    chosen: &mut Chosen,
) -> Result<Answer, NoMemory>
    requires sound { IsSound results.now }
    ensures answer { IfOk result (IsCensusAnswer results.now.order results.now name.now) }
{
    if results.order {
        census_of::<OrderAtoms>(alloc, results, name, chosen)
    } else {
        census_of::<EqualityAtoms>(alloc, results, name, chosen)
    }
}

fn counted_outcome(answer: Answer) -> Outcome
    ensures { result ≡ listed_outcome answer }
{
    match answer {
        Answer::Listed(censuses) => Outcome::Census(censuses),
        Answer::Refused(lois_census::Refusal::HasParameters) => {
            Outcome::Refused(Refusal::HasParameters)
        }
        Answer::Refused(lois_census::Refusal::NoLine(name, case)) => {
            Outcome::Refused(Refusal::NoLine(name, case))
        }
        Answer::Refused(lois_census::Refusal::NotASet(name, case)) => {
            Outcome::Refused(Refusal::NotASet(name, case))
        }
    }
}

/// What the text of a register automaton comes to.
#[tactic(auto, using(crate::proofs::LineAnswers::translated_is_answered, crate::proofs::LineAnswers::no_translation))]
pub(crate) fn translate_text(alloc: Global, text: &[u8]) -> Result<Outcome, NoMemory>
    ensures answer { IfOk result (AnswersText Registers text.now) }
    ensures written { IfOk result HasText }
{
    match read_registers(alloc, text) {
        Ok(automaton) => Ok(Outcome::Translated(translate_to_results(alloc, &automaton)?)),
        Err(RegistersError::NotRegisters(offset)) => {
            Ok(Outcome::Refused(Refusal::NotRegisters(place_at(text, offset))))
        }
        Err(RegistersError::NoMemory) => Err(NoMemory),
    }
}

//! The readers of whole texts.

ghost use Rattle.std.specs.Prelude.{◌≡◌, IfOk, IfErr, length};
ghost use Rattle.lois_answers.specs.ResultsText.{results_text};
ghost use Rattle.lois_answers.specs.Sound.{IsSound};
ghost use Rattle.lois_answers.specs.TraceText.{answer_text};
ghost use Rattle.lois_answers.specs.declared.faults.Answer.{Answer};
ghost use Rattle.lois_answers.specs.declared.results.Results.{Results};
ghost use Rattle.lois_reader.specs.Pieces.{results_pieces, answer_pieces};
ghost use Rattle.lois_reader.specs.Reading.{ResultIs};
ghost use Rattle.lois_reader.specs.Shape.{SpellsResults, SpellsAnswer, HasResultsShape, HasAnswerShape};
ghost use Rattle.lois_reader.specs.declared.ResultError.{ResultError};
ghost use Rattle.lois_reader.specs.Refusal.{IsSoundAnswer, IsOffsetInText, NoValueHolds, IsErrorPlace, IsResultsOf, IsAnswerOf};
ghost use Rattle.lois_reader.specs.WholeTexts.{results_reading, answer_reading, IsErrorOfHalt};

use crate::ResultError;
use crate::answer_ends::{answer_text_end, results_text_end};
use crate::answers::{answer_text_at, results_text_at};
use crate::parse_error::ParseError;
use lois_answers::{Answer, Results};
use std::alloc::Global;

// The shape is read first, since a text that leaves it is refused there, whatever rule it breaks before.
fn results_of(alloc: Global, text: &[u8]) -> Result<Results, ParseError>
    ensures { ResultIs (λ r. r) result (results_reading text.now) }
{
    results_text_end(text)?;
    results_text_at(alloc, text)
}

fn answer_of(alloc: Global, text: &[u8]) -> Result<Answer, ParseError>
    ensures { ResultIs (λ a. a) result (answer_reading text.now) }
{
    answer_text_end(text)?;
    answer_text_at(alloc, text)
}

// The error that a parse error becomes in a text of this length.
fn error_of(halt: ParseError, len: usize) -> ResultError
    ensures inside { IsOffsetInText len result }
    ensures error { IsErrorOfHalt len halt result }
{
    match halt {
        ParseError::Left(left) => ResultError::NotResults(len.saturating_sub(left)),
        ParseError::NoMemory => ResultError::NoMemory,
    }
}

/// The results whose text this is.
///
/// # Errors
/// `NotResults` where the text is that of no sound results, with the place of the first fault: where no text of the
/// shape goes on so, or the first side rule that a text of the shape breaks. `NoMemory` where memory ran out.
pub fn read_results(alloc: Global, text: &[u8]) -> Result<Results, ResultError>
    // Ok gives the results of the text, and comes exactly where it is that of some, unless memory ran out.
    ensures sound { IfOk result IsSound }
    ensures text { IfOk result (λ r. results_text r ≡ text.now) }
    ensures exact { (others : Results) → IsResultsOf text.now others → IfOk result (λ r. r ≡ others) }
    ensures accepts { (others : Results) → IsResultsOf text.now others → IfErr result (λ error. error ≡ ResultError.NoMemory) }

    // A refusal comes only where there are none, at the place of the first fault.
    ensures none { IfErr result (NoValueHolds (IsResultsOf text.now)) }
    ensures place { IfErr result (IsErrorPlace HasResultsShape SpellsResults results_pieces text.now) }
    ensures inside { IfErr result (IsOffsetInText (length text.now)) }
{
    let len = text.len();
    match results_of(alloc, text) {
        Ok(results) => Ok(results),
        Err(halt) => Err(error_of(halt, len)),
    }
}

/// The results or the trace whose text this is.
///
/// # Errors
/// `NotResults` where the text is that of no sound results and no sound trace, with the place of the first fault as
/// `read_results` says it of the shape of both. `NoMemory` where memory ran out.
pub fn read_answer(alloc: Global, text: &[u8]) -> Result<Answer, ResultError>
    // Ok gives the answer of the text, and comes exactly where it is that of one, unless memory ran out.
    ensures sound { IfOk result IsSoundAnswer }
    ensures text { IfOk result (λ a. answer_text a ≡ text.now) }
    ensures exact { (other : Answer) → IsAnswerOf text.now other → IfOk result (λ a. a ≡ other) }
    ensures accepts { (other : Answer) → IsAnswerOf text.now other → IfErr result (λ error. error ≡ ResultError.NoMemory) }

    // A refusal comes only where there is none, at the place of the first fault.
    ensures none { IfErr result (NoValueHolds (IsAnswerOf text.now)) }
    ensures place { IfErr result (IsErrorPlace HasAnswerShape SpellsAnswer answer_pieces text.now) }
    ensures inside { IfErr result (IsOffsetInText (length text.now)) }
{
    let len = text.len();
    match answer_of(alloc, text) {
        Ok(answer) => Ok(answer),
        Err(halt) => Err(error_of(halt, len)),
    }
}

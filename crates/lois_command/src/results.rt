//! From a text to the results that it spells.

ghost use Rattle.std.specs.Prelude.{IfOk};
ghost use Rattle.lois_command.specs.ResultsRead.{IsResultsRead};

use crate::places::place_at;
use lois_answers::Results;
use lois_base::NoMemory;
use lois_lexer::Place;
use lois_reader::{ResultError, read_results};
use std::alloc::Global;

/// What a text is that is to be results.
#[derive(Drop)]
pub enum ResultsRead {
    Results(Results),
    /// It is none: the first place at which it leaves the form of results, or breaks a rule of theirs.
    NotResults(Place),
}

/// The results that the text spells, or the place at which it spells none. Errors: `NoMemory`.
pub fn results_of(alloc: Global, text: &[u8]) -> Result<ResultsRead, NoMemory>
    ensures { IfOk result (IsResultsRead text.now) }
{
    match read_results(alloc, text) {
        Ok(results) => Ok(ResultsRead::Results(results)),
        Err(ResultError::NotResults(offset)) => {
            Ok(ResultsRead::NotResults(place_at(text, offset)))
        }
        Err(ResultError::NoMemory) => Err(NoMemory),
    }
}

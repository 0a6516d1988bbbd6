//! Words whose numbers are ranks.

ghost use Rattle.std.specs.Prelude.{IfOk};
ghost use Rattle.lois_shortest_word.specs.Ranked.{IsRankedWord, IsRankedOrNone};

use crate::words::Word;
use lois_base::{NoMemory, Structure};
use lois_ranks::rank_sample;
use std::alloc::Global;

/// The word with ranks for its numbers, which stand to one another as before. Errors: `NoMemory`.
fn rank_word<T: Structure>(alloc: Global, word: Word) -> Result<Word, NoMemory>
    ensures { IfOk result (IsRankedWord T.ordered word) }
{
    let Word { sample, letters } = word;
    let sample = rank_sample::<T>(alloc, sample.as_slice())?;
    Ok(Word { sample, letters })
}

/// The word, if there is one, with ranks for its numbers, which stand to one another as before. Errors: `NoMemory`.
pub fn rank_found<T: Structure>(
    alloc: Global,
    found: Option<Word>,
) -> Result<Option<Word>, NoMemory>
    ensures { IfOk result (IsRankedOrNone T.ordered found) }
{
    match found {
        Some(word) => Ok(Some(rank_word::<T>(alloc, word)?)),
        None => Ok(None),
    }
}

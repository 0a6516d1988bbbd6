//! Words whose letters have no `<=`.

ghost use Rattle.std.specs.Prelude.{◌≤◌, length, IfOk, IfSome};
ghost use Rattle.std.specs.List.{All, AllZip};
ghost use Rattle.lois_base.specs.Fits.{Fits};
ghost use Rattle.lois_equal.specs.SplitWords.{IsSplitWord, IsSplitOrNone, MaySplit, IsSplitLetter};

use lois_base::{NoMemory, Terms};
use lois_shortest_word::{Word, drop_unused_numbers};
use lois_strict::split_term;
use std::alloc::Global;

// The word with letters that have no `<=` and the same values.
fn split_word(alloc: Global, word: Word, size: usize) -> Result<Word, NoMemory>
    requires count { size ≤ length word.sample }
    requires levels { All (Fits (length word.sample)) word.letters }
    ensures { IfOk result (IsSplitWord size word) }
{
    let Word { sample, letters } = word;
    let letters = split_letters(alloc, &letters)?;
    let split = Word { sample, letters };
    let shorter = drop_unused_numbers(alloc, split, size)?;
    Ok(shorter)
}

fn split_letters(alloc: Global, letters: &Terms) -> Result<Terms, NoMemory>
    ensures { IfOk result (AllZip IsSplitLetter letters.now) }
{
    let mut split = Terms::new(alloc);
    for letter in letters.as_slice() {
        split.push(split_term(alloc, letter)?)?;
    }
    Ok(split)
}

/// The word, if there is one, with letters that have no `<=` and the same values. Numbers behind the first `size` at whose levels
/// no letter has an atom any more are left out. Errors: `NoMemory`.
pub fn split_found(
    alloc: Global,
    found: Option<Word>,
    size: usize,
) -> Result<Option<Word>, NoMemory>
    requires { IfSome found (MaySplit size) }
    ensures { IfOk result (IsSplitOrNone size found) }
{
    match found {
        Some(word) => Ok(Some(split_word(alloc, word, size)?)),
        None => Ok(None),
    }
}

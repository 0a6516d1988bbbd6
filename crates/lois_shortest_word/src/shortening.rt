//! Words without numbers that no letter uses.

ghost use Rattle.std.specs.Prelude.{◌≤◌, ◌<◌, length, IfOk, IsTrue, ◌↔◌};
ghost use Rattle.std.specs.List.{All};
ghost use Rattle.lois_base.specs.Data.{terms_of};
ghost use Rattle.lois_base.specs.Fits.{Fits};
ghost use Rattle.lois_base.specs.Normal.{OccursInPart};
ghost use Rattle.lois_shortest_word.specs.Shortened.{IsWithoutLevel, IsShortenedWord, IsShortenedEverywhere};
ghost use Rattle.lois_shortest_word.specs.Words.{AreUsedBetween};

use crate::lowering::lowered_terms;
use crate::words::Word;
use lois_base::{NoMemory, Numbers, Terms};
use lois_terms::occurs;
use std::alloc::Global;

/// The word without each number behind the first `size` at whose level no letter has an atom: the letters have the same values.
/// Errors: `NoMemory`.
pub fn drop_unused_numbers(alloc: Global, word: Word, size: usize) -> Result<Word, NoMemory>
    requires count { size ≤ length word.sample }
    requires levels { All (Fits (length word.sample)) word.letters }
    ensures shortened { IfOk result (IsShortenedWord size word) }
    ensures everywhere { IfOk result (IsShortenedEverywhere size word) }
    ensures used { IfOk result (λ r. AreUsedBetween size (length r.sample) r.letters) }
{
    let mut left = word.sample.len();
    let mut shorter = word;
    'dropping: while left > size {
        left -= 1;
        if !is_used(left, &shorter.letters) {
            shorter = without(alloc, shorter, left)?;
        }
    }
    Ok(shorter)
}

fn is_used(level: usize, letters: &Terms) -> bool
    ensures { IsTrue result ↔ OccursInPart level (terms_of letters.now) }
{
    for letter in letters.as_slice() {
        if occurs(level, letter) {
            return true;
        }
    }
    false
}

// The word without a level, and without the number of that level.
fn without(alloc: Global, word: Word, level: usize) -> Result<Word, NoMemory>
    requires { level < length word.sample }
    ensures { IfOk result (IsWithoutLevel level word) }
{
    let Word { sample, letters } = word;
    let letters = lowered_terms(alloc, &letters, level)?;
    let mut numbers = sample.into_vec();
    numbers.remove(level);
    Ok(Word {
        sample: Numbers::from_vec(numbers),
        letters,
    })
}

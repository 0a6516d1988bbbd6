//! Lines and their words.

ghost use Rattle.std.specs.Prelude.{◌≡◌, ℕ, List, ◌++◌, map, nat_eq, length, slice_index, ◌<◌, IfOk, IfErr, IfSome, IfNone, IsTrue, ◌↔◌};
ghost use Rattle.std.specs.List.{slice_split};
ghost use Rattle.lois_registers.specs.Reading.{AreWords, IsLeftAt};
ghost use Rattle.lois_registers.specs.Texts.{text_of_words};

use crate::parse_error::ParseError;
use std::alloc::{AllocError, Global};

/// Whether the word is this text.
pub fn is(word: &[u8], text: &[u8]) -> bool
    ensures { IsTrue result ↔ word.now ≡ text.now }
{
    word == text
}

fn split_words<'a>(alloc: Global, line: &'a [u8]) -> Result<Vec<&'a [u8]>, AllocError>
    ensures { IfOk result (λ v. map (λ w. w.now) v.items ≡ slice_split (λ b. nat_eq b 32) line.now) }
{
    line.split(|byte| *byte == b' ').collect(alloc)
}

/// Where the first line ends, without its last byte.
fn line_end(text: &[u8]) -> Option<usize>
    ensures inside { IfSome result (λ n. n < length text.now) }
    ensures found { IfSome result (λ n. slice_index text.now n ≡ 10) }
    ensures before { IfSome result (λ n. (k : ℕ) → k < n → slice_index text.now k ≡ 10 → ⊥) }
    ensures none { IfNone result ((k : ℕ) → k < length text.now → slice_index text.now k ≡ 10 → ⊥) }
{
    for (i, byte) in text.iter().enumerate() {
        if *byte == b'\n' {
            return Some(i);
        }
    }
    None
}

/// The words of the line at the front, and what follows the line. Stops where no line ends.
pub fn line_words<'a>(
    alloc: Global,
    text: &'a [u8],
) -> Result<(Vec<&'a [u8]>, &'a [u8]), ParseError>
    ensures read { IfOk result (λ x. AreWords (map (λ w. w.now) x.0.items) × (text.now ≡ text_of_words (map (λ w. w.now) x.0.items) ++ x.1.now)) }
    ensures left { IfErr result (IsLeftAt text.now ((words : List (List ℕ)) (more : List ℕ) → text.now ≡ text_of_words words ++ more → ⊥)) }
{
    let Some(end) = line_end(text) else {
        return Err(ParseError::Left(text.len()));
    };
    let words = split_words(alloc, &text[..end])?;
    Ok((words, &text[end + 1..]))
}

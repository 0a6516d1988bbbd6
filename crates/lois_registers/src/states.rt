//! The lines of the states: all of them, the initial one and the final ones.

ghost use Rattle.std.specs.Prelude.{◌≡◌, ℕ, List, ◌∷◌, ◌++◌, map, length, ◌≤◌, drop, IfOk, IfErr, IsTrue, IsFalse, ◌↔◌, Contains};
ghost use Rattle.std.specs.List.{All};
ghost use Rattle.lois_answers.specs.Sound.{AreDistinct};
ghost use Rattle.lois_base.specs.Names.{IsName};
ghost use Rattle.lois_registers.specs.Reading.{IsLeftAt, BeginsWithNoLine, HasNames, is_clean};
ghost use Rattle.lois_registers.specs.Texts.{text_of_words, states_words, initial_words, final_words};
ghost use Rattle.lois_registers.specs.Valid.{AreStates, AreListed};

use crate::lines::{is, line_words};
use crate::parse_error::ParseError;
use lois_base::{Name, Names, NoMemory, is_name};
use std::alloc::Global;

/// The most states.
const MOST_STATES: usize = 64;

fn are_names(words: &[&[u8]]) -> bool
    ensures { IsTrue result ↔ All (λ w. IsName w.now) words.now }
{
    words.iter().all(|word| is_name(word))
}

fn names_of(alloc: Global, words: &[&[u8]]) -> Result<Names, NoMemory>
    requires form { All (λ w. IsName w.now) words.now }
    ensures { IfOk result (λ names. names ≡ map (λ w. w.now) words.now) }
{
    let mut names = Names::new(alloc);
    for word in words {
        names.push(Name::from_bytes(alloc, word)?)?;
    }
    Ok(names)
}

/// Whether the first word is this one.
pub fn begins(words: &[&[u8]], first: &[u8]) -> bool
    ensures some { IsTrue result → (1 ≤ length words.now) × (map (λ w. w.now) words.now ≡ first.now ∷ map (λ w. w.now) (drop 1 words.now)) }
    ensures none { IsFalse result → (rest : List (List ℕ)) → map (λ w. w.now) words.now ≡ first.now ∷ rest → ⊥ }
{
    !words.is_empty() && is(words[0], first)
}

/// The names of a line that begins with this word, and what follows the line.
fn named<'a>(alloc: Global, first: &[u8], text: &'a [u8]) -> Result<(Names, &'a [u8]), ParseError>
    requires clean { IsTrue (is_clean first.now) }
    ensures read { IfOk result (λ x. All IsName x.0 × (text.now ≡ text_of_words (first.now ∷ x.0) ++ x.1.now)) }
    ensures only { IfOk result (λ x. (names : List (List ℕ)) → HasNames first.now names text.now → names ≡ x.0) }
    ensures left { IfErr result (IsLeftAt text.now ((names : List (List ℕ)) → HasNames first.now names text.now → ⊥)) }
{
    let (words, rest) = line_words(alloc, text)?;
    let words = words.as_slice();
    if !begins(words, first) || !are_names(&words[1..]) {
        return Err(ParseError::Left(text.len()));
    }
    Ok((names_of(alloc, &words[1..])?, rest))
}

/// Whether the word is one of the names.
pub fn is_among(names: &[Name], word: &[u8]) -> bool
    ensures { IsTrue result ↔ Contains names.now word.now }
{
    names.iter().any(|name| name.bytes() == word)
}

// Each name is compared with those after it: they are few.
fn are_distinct(names: &[Name]) -> bool
    ensures { IsTrue result ↔ AreDistinct names.now }
{
    for index in 0..names.len() {
        if is_among(&names[index + 1..], names[index].bytes()) {
            return false;
        }
    }
    true
}

fn are_among(states: &[Name], names: &[Name]) -> bool
    ensures { IsTrue result ↔ All (Contains states.now) names.now }
{
    for name in names {
        if !is_among(states, name.bytes()) {
            return false;
        }
    }
    true
}

/// The states, and what follows their line.
pub fn states_line(alloc: Global, text: &[u8]) -> Result<(Names, &[u8]), ParseError>
    ensures read { IfOk result (λ x. AreStates x.0 × (text.now ≡ text_of_words (states_words x.0) ++ x.1.now)) }
    ensures left { IfErr result (IsLeftAt text.now (BeginsWithNoLine AreStates states_words text.now)) }
{
    let (names, rest) = named(alloc, b"states", text)?;
    let count = names.len();
    if count == 0 || count > MOST_STATES || !are_distinct(names.as_slice()) {
        return Err(ParseError::Left(text.len()));
    }
    Ok((names, rest))
}

/// The initial state, and what follows its line.
pub fn initial_line<'a>(
    alloc: Global,
    states: &[Name],
    text: &'a [u8],
) -> Result<(Name, &'a [u8]), ParseError>
    requires form { All IsName states.now }
    ensures read { IfOk result (λ x. Contains states.now x.0 × (text.now ≡ text_of_words (initial_words x.0) ++ x.1.now)) }
    ensures left { IfErr result (IsLeftAt text.now (BeginsWithNoLine (Contains states.now) initial_words text.now)) }
{
    let (names, rest) = named(alloc, b"initial", text)?;
    let names = names.as_slice();
    if names.len() != 1 || !is_among(states, names[0].bytes()) {
        return Err(ParseError::Left(text.len()));
    }
    Ok((names[0].copy(alloc)?, rest))
}

/// The final states, and what follows their line.
pub fn final_line<'a>(
    alloc: Global,
    states: &[Name],
    text: &'a [u8],
) -> Result<(Names, &'a [u8]), ParseError>
    requires form { All IsName states.now }
    ensures read { IfOk result (λ x. AreListed states.now x.0 × (text.now ≡ text_of_words (final_words x.0) ++ x.1.now)) }
    ensures left { IfErr result (IsLeftAt text.now (BeginsWithNoLine (AreListed states.now) final_words text.now)) }
{
    let (names, rest) = named(alloc, b"final", text)?;
    if !are_among(states, names.as_slice()) || !are_distinct(names.as_slice()) {
        return Err(ParseError::Left(text.len()));
    }
    Ok((names, rest))
}

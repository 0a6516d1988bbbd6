//! Lines of which only a few are possible: the title, the structure and the number of registers.

ghost use Rattle.std.specs.Prelude.{◌≡◌, ℕ, Bool, List, ◌++◌, IfOk, IfErr, IfSome, IfNone};
ghost use Rattle.lois_registers.specs.Reading.{IsLeftAt, BeginsWithNoLine};
ghost use Rattle.lois_registers.specs.ReadParts.{IsCount};
ghost use Rattle.lois_registers.specs.Texts.{text_of_words, title_words, order_words, count_words};

use crate::lines::is;
use crate::parse_error::ParseError;

/// What follows the text at the front.
fn behind<'a>(text: &'a [u8], front: &[u8]) -> Option<&'a [u8]>
    ensures some { IfSome result (λ rest. text.now ≡ front.now ++ rest.now) }
    ensures none { IfNone result ((rest : List ℕ) → text.now ≡ front.now ++ rest → ⊥) }
{
    let len = front.len();
    if text.len() < len || !is(&text[..len], front) {
        return None;
    }
    Some(&text[len..])
}

/// What follows the title.
pub fn title(text: &[u8]) -> Result<&[u8], ParseError>
    ensures read { IfOk result (λ rest. text.now ≡ text_of_words title_words ++ rest.now) }
    ensures left { IfErr result (IsLeftAt text.now ((more : List ℕ) → text.now ≡ text_of_words title_words ++ more → ⊥)) }
{
    match behind(text, b"lois registers 1\n") {
        Some(rest) => Ok(rest),
        None => Err(ParseError::Left(text.len())),
    }
}

/// Whether atoms are ordered, and what follows the line.
pub fn order_line(text: &[u8]) -> Result<(bool, &[u8]), ParseError>
    ensures read { IfOk result (λ x. text.now ≡ text_of_words (order_words x.0) ++ x.1.now) }
    ensures left { IfErr result (IsLeftAt text.now ((order : Bool) (more : List ℕ) → text.now ≡ text_of_words (order_words order) ++ more → ⊥)) }
{
    if let Some(rest) = behind(text, b"atoms equality\n") {
        return Ok((false, rest));
    }
    match behind(text, b"atoms order\n") {
        Some(rest) => Ok((true, rest)),
        None => Err(ParseError::Left(text.len())),
    }
}

/// The number of registers, and what follows the line.
pub fn count_line(text: &[u8]) -> Result<(u32, &[u8]), ParseError>
    ensures read { IfOk result (λ x. IsCount x.0 × (text.now ≡ text_of_words (count_words x.0) ++ x.1.now)) }
    ensures left { IfErr result (IsLeftAt text.now (BeginsWithNoLine IsCount count_words text.now)) }
{
    if let Some(rest) = behind(text, b"registers 1\n") {
        return Ok((1, rest));
    }
    if let Some(rest) = behind(text, b"registers 2\n") {
        return Ok((2, rest));
    }
    if let Some(rest) = behind(text, b"registers 3\n") {
        return Ok((3, rest));
    }
    match behind(text, b"registers 4\n") {
        Some(rest) => Ok((4, rest)),
        None => Err(ParseError::Left(text.len())),
    }
}

//! Fixed texts, words and numbers at the front of bytes.

ghost use Rattle.std.specs.Prelude.{◌≡◌, ◌<◌, ◌≤◌, ◌||◌, length, IfOk, IfErr, IsTrue, ◌+◌};
ghost use Rattle.std.specs.List.{prefix_len};
ghost use Rattle.std.specs.Char.{is_ascii_digit, is_ascii_alphabetic};
ghost use Rattle.lois_lexer.specs.Bytes.{is_word_byte};
ghost use Rattle.lois_lexer.specs.Forms.{is_word_form};
ghost use Rattle.lois_reader.specs.Reading.{ResultIs, IsTextError, begins, first_byte, passes};
ghost use Rattle.lois_reader.specs.Ends.{fixed_end, word_at, word_end, number_at, number_end, level_end, operand_end, op_end, tag_end, begins_op};

use crate::parse_error::ParseError;

/// Whether the first byte is this one.
pub fn begins(bytes: &[u8], byte: u8) -> bool
    ensures { result ≡ begins byte bytes.now }
{
    !bytes.is_empty() && bytes[0] == byte
}

/// Whether an operator begins here.
pub fn begins_op(bytes: &[u8]) -> bool
    ensures { result ≡ begins_op bytes.now }
{
    begins(bytes, b'=') || begins(bytes, b'!') || begins(bytes, b'<')
}

fn begins_with_letter(bytes: &[u8]) -> bool
    ensures { result ≡ passes is_ascii_alphabetic (first_byte bytes.now) }
{
    !bytes.is_empty() && bytes[0].is_ascii_alphabetic()
}

fn begins_with_digit(bytes: &[u8]) -> bool
    ensures { result ≡ passes is_ascii_digit (first_byte bytes.now) }
{
    !bytes.is_empty() && bytes[0].is_ascii_digit()
}

/// How many bytes at the front may stand in a word.
fn word_len(bytes: &[u8]) -> usize
    ensures value { result ≡ prefix_len is_word_byte bytes.now }
    ensures within { result ≤ length bytes.now }
    ensures some { IsTrue (passes is_ascii_alphabetic (first_byte bytes.now)) → 0 < result }
{
    bytes
        .iter()
        .take_while(|b| b.is_ascii_alphanumeric() || **b == b'_')
        .count()
}

/// How many digits stand at the front.
fn digits_len(bytes: &[u8]) -> usize
    ensures value { result ≡ prefix_len is_ascii_digit bytes.now }
    ensures within { result ≤ length bytes.now }
    ensures some { IsTrue (passes is_ascii_digit (first_byte bytes.now)) → 0 < result }
{
    bytes.iter().take_while(|b| b.is_ascii_digit()).count()
}

/// What follows the text.
pub fn fixed_end<'a>(text: &[u8], bytes: &'a [u8]) -> Result<&'a [u8], ParseError>
    ensures end { ResultIs (λ r. r.now) result (fixed_end text.now bytes.now) }
    ensures shorter { IfOk result (λ r. length r.now + length text.now ≡ length bytes.now) }
    ensures sure { IfErr result IsTextError }
{
    let mut rest = bytes;
    for wanted in text {
        if !begins(rest, *wanted) {
            return Err(ParseError::Left(rest.len()));
        }
        rest = &rest[1..];
    }
    Ok(rest)
}

/// The word, and what follows it.
#[tactic(auto, unfolding(crate::specs::Ends::word_at))]
pub fn word_at(bytes: &[u8]) -> Result<(&[u8], &[u8]), ParseError>
    ensures word { ResultIs (λ x. (x.0.now, x.1.now)) result (word_at bytes.now) }
    ensures form { IfOk result (λ x. IsTrue (is_word_form x.0.now)) }
    ensures sure { IfErr result IsTextError }
    ensures shorter { IfOk result (λ x. length x.1.now < length bytes.now) }
{
    if !begins_with_letter(bytes) {
        return Err(ParseError::Left(bytes.len()));
    }
    Ok(bytes.split_at(word_len(bytes)))
}

/// What follows the word.
#[tactic(auto, unfolding(crate::specs::Ends::word_end))]
pub fn word_end(bytes: &[u8]) -> Result<&[u8], ParseError>
    ensures end { ResultIs (λ r. r.now) result (word_end bytes.now) }
    ensures shorter { IfOk result (λ r. length r.now < length bytes.now) }
{
    let (_, rest) = word_at(bytes)?;
    Ok(rest)
}

/// The digits of the number, and what follows it.
#[tactic(auto, unfolding(crate::specs::Ends::number_at))]
pub fn number_at(bytes: &[u8]) -> Result<(&[u8], &[u8]), ParseError>
    ensures number { ResultIs (λ x. (x.0.now, x.1.now)) result (number_at bytes.now) }
    ensures shorter { IfOk result (λ x. length x.1.now < length bytes.now) }
{
    if begins(bytes, b'0') {
        return Ok(bytes.split_at(1));
    }
    if !begins_with_digit(bytes) {
        return Err(ParseError::Left(bytes.len()));
    }
    Ok(bytes.split_at(digits_len(bytes)))
}

/// What follows the number.
#[tactic(auto, unfolding(crate::specs::Ends::number_end))]
pub fn number_end(bytes: &[u8]) -> Result<&[u8], ParseError>
    ensures end { ResultIs (λ r. r.now) result (number_end bytes.now) }
    ensures shorter { IfOk result (λ r. length r.now < length bytes.now) }
{
    let (_, rest) = number_at(bytes)?;
    Ok(rest)
}

/// What follows the level.
#[tactic(auto, unfolding(crate::specs::Ends::level_end))]
pub fn level_end(bytes: &[u8]) -> Result<&[u8], ParseError>
    ensures end { ResultIs (λ r. r.now) result (level_end bytes.now) }
    ensures shorter { IfOk result (λ r. length r.now < length bytes.now) }
{
    number_end(fixed_end(b"$", bytes)?)
}

/// What follows the word or the level.
#[tactic(auto, unfolding(crate::specs::Ends::operand_end))]
pub fn operand_end(bytes: &[u8]) -> Result<&[u8], ParseError>
    ensures end { ResultIs (λ r. r.now) result (operand_end bytes.now) }
    ensures shorter { IfOk result (λ r. length r.now < length bytes.now) }
{
    if begins(bytes, b'$') {
        level_end(bytes)
    } else {
        word_end(bytes)
    }
}

/// What follows the operator.
#[tactic(auto, unfolding(crate::specs::Ends::op_end))]
pub fn op_end(bytes: &[u8]) -> Result<&[u8], ParseError>
    ensures end { ResultIs (λ r. r.now) result (op_end bytes.now) }
    ensures shorter { IfOk result (λ r. length r.now < length bytes.now) }
{
    if begins(bytes, b'=') {
        fixed_end(b"=", bytes)
    } else if begins(bytes, b'!') {
        fixed_end(b"!=", bytes)
    } else {
        fixed_end(b"<", bytes)
    }
}

/// What follows the tag.
#[tactic(auto, unfolding(crate::specs::Ends::tag_end))]
pub fn tag_end(bytes: &[u8]) -> Result<&[u8], ParseError>
    ensures end { ResultIs (λ r. r.now) result (tag_end bytes.now) }
    ensures shorter { IfOk result (λ r. length r.now < length bytes.now) }
{
    word_end(fixed_end(b"'", bytes)?)
}

//! Where constraints end.

ghost use Rattle.std.specs.Prelude.{◌≡◌, ◌<◌, ◌≤◌, length, IfOk};
ghost use Rattle.lois_reader.specs.Reading.{ResultIs};
ghost use Rattle.lois_reader.specs.Ends.{joint_at, or_at, comparison_at, piece_at, constraint_end, is_and, is_start};

use crate::parse_error::ParseError;
use crate::words::{begins, begins_op, fixed_end, level_end, op_end, operand_end, word_at};

/// What stands before a piece of a constraint: nothing, `and` or `or`.
#[derive(Clone, Copy, Debug, PartialEq, Eq)]
pub enum Connective {
    Start,
    And,
    Or,
}

impl Connective {
    fn is_and(self) -> bool
        ensures { result ≡ is_and self }
    {
        matches!(self, Connective::And)
    }

    fn is_start(self) -> bool
        ensures { result ≡ is_start self }
    {
        matches!(self, Connective::Start)
    }
}

/// What joins another piece behind a literal, if one follows.
#[tactic(auto, unfolding(crate::specs::Ends::joint_at))]
fn joint_at(bytes: &[u8]) -> Result<(Option<Connective>, &[u8]), ParseError>
    ensures joint { ResultIs (λ x. (x.0, x.1.now)) result (joint_at bytes.now) }
    ensures shorter { IfOk result (λ x. length x.1.now ≤ length bytes.now) }
{
    if !begins(bytes, b' ') {
        return Ok((None, bytes));
    }
    let rest = fixed_end(b" ", bytes)?;
    if begins(rest, b'a') {
        Ok((Some(Connective::And), fixed_end(b"and ", rest)?))
    } else {
        Ok((Some(Connective::Or), fixed_end(b"or ", rest)?))
    }
}

/// What joins another piece behind `true`, if one follows.
#[tactic(auto, unfolding(crate::specs::Ends::or_at))]
fn or_at(bytes: &[u8]) -> Result<(Option<Connective>, &[u8]), ParseError>
    ensures joint { ResultIs (λ x. (x.0, x.1.now)) result (or_at bytes.now) }
    ensures shorter { IfOk result (λ x. length x.1.now ≤ length bytes.now) }
{
    if !begins(bytes, b' ') {
        return Ok((None, bytes));
    }
    Ok((Some(Connective::Or), fixed_end(b" or ", bytes)?))
}

/// What joins another piece behind the operator and the second operand that stand here.
#[tactic(auto, unfolding(crate::specs::Ends::comparison_at))]
fn comparison_at(bytes: &[u8]) -> Result<(Option<Connective>, &[u8]), ParseError>
    ensures joint { ResultIs (λ x. (x.0, x.1.now)) result (comparison_at bytes.now) }
    ensures shorter { IfOk result (λ x. length x.1.now < length bytes.now) }
{
    joint_at(operand_end(op_end(bytes)?)?)
}

/// What joins another piece behind the piece that stands here, which may be `true` but behind `and`, and `false` at the
/// start.
#[tactic(auto, unfolding(crate::specs::Ends::piece_at))]
fn piece_at(bytes: &[u8], joint: Connective) -> Result<(Option<Connective>, &[u8]), ParseError>
    ensures joint { ResultIs (λ x. (x.0, x.1.now)) result (piece_at joint bytes.now) }
    ensures shorter { IfOk result (λ x. length x.1.now < length bytes.now) }
{
    if begins(bytes, b'$') {
        return comparison_at(level_end(bytes)?);
    }
    let (word, rest) = word_at(bytes)?;
    if begins_op(rest) {
        comparison_at(rest)
    } else if !joint.is_and() && word == b"true".as_slice() {
        or_at(rest)
    } else if joint.is_start() && word == b"false".as_slice() {
        Ok((None, rest))
    } else {
        Err(ParseError::Left(rest.len()))
    }
}

/// What follows the constraint.
#[tactic(auto, unfolding(crate::specs::Ends::constraint_end))]
pub fn constraint_end(bytes: &[u8]) -> Result<&[u8], ParseError>
    ensures end { ResultIs (λ r. r.now) result (constraint_end bytes.now) }
    ensures shorter { IfOk result (λ r. length r.now < length bytes.now) }
{
    let mut rest = bytes;
    let mut joint = Connective::Start;
    loop {
        let (found, after) = piece_at(rest, joint)?;
        match found {
            None => return Ok(after),
            Some(next) => {
                rest = after;
                joint = next;
            }
        }
    }
}

//! What constraints stand for.

ghost use Rattle.std.specs.Prelude.{◌≡◌, ◌+◌, ◌-◌, ◌*◌, ◌^◌, ◌<◌, length, IfOk, IfSome, Some, None, option_map, nat_lt, if◌then◌else◌};
ghost use Rattle.lois_reader.specs.Pieces.{value};
ghost use Rattle.lois_reader.specs.Reading.{ResultIs};
ghost use Rattle.lois_reader.specs.Values.{value_within, level_at, parameter_at, operand_at, op_at, literal_at, keyword, follows, literals_at, cube_at, cubes_at, constraint_at};

use crate::parameters::Parameters;
use crate::parse_error::ParseError;
use crate::scope::Scope;
use crate::words::{begins, begins_op, fixed_end, number_at, word_at};
use lois_base::{Constraint, Cube, Lit, Op};
use std::alloc::Global;

/// The value with another digit behind it, where it is a usize.
fn with_digit(value: usize, digit: u8) -> Option<usize>
    ensures { result ≡ (if nat_lt (value * 10 + (digit - 48)) (2 ^ 64) then Some (value * 10 + (digit - 48)) else None) }
{
    let units = usize::from(digit.saturating_sub(b'0'));
    value.checked_mul(10)?.checked_add(units)
}

/// The value of the digits, where it is a usize.
pub fn value_of(digits: &[u8]) -> Option<usize>
    ensures { result ≡ value_within 0 (2 ^ 64) digits.now }
{
    let mut value: usize = 0;
    for digit in digits {
        value = with_digit(value, *digit)?;
    }
    Some(value)
}

/// The value of the digits, where it is at least `low` and below `high`.
pub fn value_within(digits: &[u8], low: usize, high: usize) -> Option<usize>
    ensures { result ≡ value_within low high digits.now }
{
    let value = value_of(digits)?;
    if low <= value && value < high {
        Some(value)
    } else {
        None
    }
}

/// The level that is written here: no parameter's, and below `levels`.
#[tactic(auto, unfolding(crate::specs::Values::level_at))]
fn level_at<'a>(
    names: &Parameters<'_>,
    levels: usize,
    bytes: &'a [u8],
) -> Result<(usize, &'a [u8]), ParseError>
    ensures level { ResultIs (λ x. (x.0, x.1.now)) result (level_at names.now levels bytes.now) }
    ensures shorter { IfOk result (λ x. length x.1.now < length bytes.now) }
{
    let (digits, rest) = number_at(fixed_end(b"$", bytes)?)?;
    let Some(level) = value_within(digits, names.len(), levels) else {
        return Err(ParseError::Left(bytes.len()));
    };
    Ok((level, rest))
}

/// The level of the parameter whose name stands here.
#[tactic(auto, unfolding(crate::specs::Values::parameter_at))]
fn parameter_at<'a>(
    names: &Parameters<'_>,
    bytes: &'a [u8],
) -> Result<(usize, &'a [u8]), ParseError>
    ensures level { ResultIs (λ x. (x.0, x.1.now)) result (parameter_at names.now bytes.now) }
    ensures shorter { IfOk result (λ x. length x.1.now < length bytes.now) }
{
    let (word, rest) = word_at(bytes)?;
    let Some(level) = names.place(word) else {
        return Err(ParseError::Left(bytes.len()));
    };
    Ok((level, rest))
}

/// The level that an operand stands for.
#[tactic(auto, unfolding(crate::specs::Values::operand_at))]
pub fn operand_at<'a>(
    scope: &Scope<'_>,
    levels: usize,
    bytes: &'a [u8],
) -> Result<(usize, &'a [u8]), ParseError>
    ensures level { ResultIs (λ x. (x.0, x.1.now)) result (operand_at scope.now levels bytes.now) }
    ensures shorter { IfOk result (λ x. length x.1.now < length bytes.now) }
{
    if begins(bytes, b'$') {
        level_at(&scope.names, levels, bytes)
    } else {
        parameter_at(&scope.names, bytes)
    }
}

#[tactic(auto, unfolding(crate::specs::Values::op_at))]
fn op_at(ordered: bool, bytes: &[u8]) -> Result<(Op, &[u8]), ParseError>
    ensures op { ResultIs (λ x. (x.0, x.1.now)) result (op_at ordered bytes.now) }
    ensures shorter { IfOk result (λ x. length x.1.now < length bytes.now) }
{
    if begins(bytes, b'=') {
        return Ok((Op::Eq, fixed_end(b"=", bytes)?));
    }
    if begins(bytes, b'!') {
        return Ok((Op::Ne, fixed_end(b"!=", bytes)?));
    }
    if ordered {
        return Ok((Op::Lt, fixed_end(b"<", bytes)?));
    }
    Err(ParseError::Left(bytes.len()))
}

#[tactic(auto, unfolding(crate::specs::Values::literal_at))]
fn literal_at<'a>(
    scope: &Scope<'_>,
    levels: usize,
    bytes: &'a [u8],
) -> Result<(Lit, &'a [u8]), ParseError>
    ensures literal { ResultIs (λ x. (x.0, x.1.now)) result (literal_at scope.now levels bytes.now) }
    ensures shorter { IfOk result (λ x. length x.1.now < length bytes.now) }
{
    let (left, rest) = operand_at(scope, levels, bytes)?;
    let (op, rest) = op_at(scope.ordered, rest)?;
    let (right, rest) = operand_at(scope, levels, rest)?;
    Ok((Lit { op, left, right }, rest))
}

/// What follows the word, where it stands here and isn't the operand of a literal.
#[tactic(auto, unfolding(crate::specs::Values::keyword))]
pub fn keyword<'a>(word: &[u8], bytes: &'a [u8]) -> Option<&'a [u8]>
    ensures rest { option_map (λ r. r.now) result ≡ keyword word.now bytes.now }
    ensures shorter { IfSome result (λ r. length r.now < length bytes.now) }
{
    let Ok((found, rest)) = word_at(bytes) else {
        return None;
    };
    if found == word && !begins_op(rest) {
        Some(rest)
    } else {
        None
    }
}

/// Whether a space and this byte stand here.
pub fn follows(bytes: &[u8], byte: u8) -> bool
    requires { 0 < byte }
    ensures { result ≡ follows byte bytes.now }
{
    bytes.len() > 1 && bytes[0] == b' ' && bytes[1] == byte
}

/// The literals of a cube.
#[tactic(auto, unfolding(crate::specs::Values::literals_at))]
fn literals_at<'a>(
    alloc: Global,
    scope: &Scope<'_>,
    levels: usize,
    bytes: &'a [u8],
) -> Result<(Cube, &'a [u8]), ParseError>
    ensures cube { ResultIs (λ x. (x.0, x.1.now)) result (literals_at scope.now levels bytes.now) }
    ensures shorter { IfOk result (λ x. length x.1.now < length bytes.now) }
{
    let mut cube = Cube::new(alloc);
    let mut rest = bytes;
    loop {
        let (literal, after) = literal_at(scope, levels, rest)?;
        cube.push(literal)?;
        if !follows(after, b'a') {
            return Ok((cube, after));
        }
        rest = fixed_end(b" and ", after)?;
    }
}

#[tactic(auto, unfolding(crate::specs::Values::cube_at))]
fn cube_at<'a>(
    alloc: Global,
    scope: &Scope<'_>,
    levels: usize,
    bytes: &'a [u8],
) -> Result<(Cube, &'a [u8]), ParseError>
    ensures cube { ResultIs (λ x. (x.0, x.1.now)) result (cube_at scope.now levels bytes.now) }
    ensures shorter { IfOk result (λ x. length x.1.now < length bytes.now) }
{
    if let Some(rest) = keyword(b"true", bytes) {
        return Ok((Cube::new(alloc), rest));
    }
    literals_at(alloc, scope, levels, bytes)
}

#[tactic(auto, unfolding(crate::specs::Values::cubes_at))]
fn cubes_at<'a>(
    alloc: Global,
    scope: &Scope<'_>,
    levels: usize,
    bytes: &'a [u8],
) -> Result<(Constraint, &'a [u8]), ParseError>
    ensures constraint { ResultIs (λ x. (x.0, x.1.now)) result (cubes_at scope.now levels bytes.now) }
    ensures shorter { IfOk result (λ x. length x.1.now < length bytes.now) }
{
    let mut constraint = Constraint::new(alloc);
    let mut rest = bytes;
    loop {
        let (cube, after) = cube_at(alloc, scope, levels, rest)?;
        constraint.push(cube)?;
        if !begins(after, b' ') {
            return Ok((constraint, after));
        }
        rest = fixed_end(b" or ", after)?;
    }
}

/// The constraint that is written here.
#[tactic(auto, unfolding(crate::specs::Values::constraint_at))]
pub fn constraint_at<'a>(
    alloc: Global,
    scope: &Scope<'_>,
    levels: usize,
    bytes: &'a [u8],
) -> Result<(Constraint, &'a [u8]), ParseError>
    ensures constraint { ResultIs (λ x. (x.0, x.1.now)) result (constraint_at scope.now levels bytes.now) }
    ensures shorter { IfOk result (λ x. length x.1.now < length bytes.now) }
{
    if let Some(rest) = keyword(b"false", bytes) {
        return Ok((Constraint::new(alloc), rest));
    }
    cubes_at(alloc, scope, levels, bytes)
}

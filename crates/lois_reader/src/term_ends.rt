//! Where terms end.

ghost use Rattle.std.specs.Prelude.{◌<◌, ◌≤◌, length, IfOk, suc};
ghost use Rattle.lois_reader.specs.Reading.{ResultIs};
ghost use Rattle.lois_reader.specs.Ends.{guard_end, binders_end, tail_end, more_parts_end, tuple_end, comp_end, more_comps_end, items_end, set_end, term_end};

use crate::constraint_ends::constraint_end;
use crate::parse_error::ParseError;
use crate::words::{begins, fixed_end, level_end, operand_end, tag_end};

#[tactic(auto, unfolding(crate::specs::Ends::guard_end))]
fn guard_end(bytes: &[u8]) -> Result<&[u8], ParseError>
    ensures end { ResultIs (λ r. r.now) result (guard_end bytes.now) }
    ensures shorter { IfOk result (λ r. length r.now < length bytes.now) }
{
    constraint_end(fixed_end(b"if ", bytes)?)
}

/// What follows the binders behind the first, and a guard behind them.
fn binders_end(bytes: &[u8]) -> Result<&[u8], ParseError>
    ensures end { ResultIs (λ r. r.now) result (binders_end (suc (length bytes.now)) bytes.now) }
    ensures shorter { IfOk result (λ r. length r.now ≤ length bytes.now) }
{
    let mut rest = bytes;
    while begins(rest, b' ') {
        let after = fixed_end(b" ", rest)?;
        if !begins(after, b'$') {
            return guard_end(after);
        }
        rest = level_end(after)?;
    }
    Ok(rest)
}

/// What follows the binders and the guard behind an item.
#[tactic(auto, unfolding(crate::specs::Ends::tail_end))]
fn tail_end(bytes: &[u8]) -> Result<&[u8], ParseError>
    ensures end { ResultIs (λ r. r.now) result (tail_end bytes.now) }
    ensures shorter { IfOk result (λ r. length r.now ≤ length bytes.now) }
{
    if !begins(bytes, b' ') {
        return Ok(bytes);
    }
    let rest = fixed_end(b" ", bytes)?;
    if begins(rest, b'f') {
        binders_end(level_end(fixed_end(b"for ", rest)?)?)
    } else {
        guard_end(rest)
    }
}

/// What follows the parts behind the second, each behind a comma.
#[cycle(term_ends)]
#[tactic(auto, unfolding(crate::specs::Ends::more_parts_end))]
fn more_parts_end(bytes: &[u8], brackets: usize) -> Result<&[u8], ParseError>
    ensures end { ResultIs (λ r. r.now) result (more_parts_end (term_end brackets) bytes.now) }
    ensures shorter { IfOk result (λ r. length r.now ≤ length bytes.now) }
{
    let mut rest = bytes;
    while begins(rest, b',') {
        rest = term_end(fixed_end(b", ", rest)?, brackets)?;
    }
    Ok(rest)
}

#[cycle(term_ends)]
#[tactic(auto, unfolding(crate::specs::Ends::tuple_end))]
fn tuple_end(bytes: &[u8], brackets: usize) -> Result<&[u8], ParseError>
    ensures end { ResultIs (λ r. r.now) result (tuple_end (term_end brackets) bytes.now) }
    ensures shorter { IfOk result (λ r. length r.now < length bytes.now) }
{
    let rest = term_end(fixed_end(b"(", bytes)?, brackets)?;
    let rest = term_end(fixed_end(b", ", rest)?, brackets)?;
    fixed_end(b")", more_parts_end(rest, brackets)?)
}

#[cycle(term_ends)]
#[tactic(auto, unfolding(crate::specs::Ends::comp_end))]
fn comp_end(bytes: &[u8], brackets: usize) -> Result<&[u8], ParseError>
    ensures end { ResultIs (λ r. r.now) result (comp_end (term_end brackets) bytes.now) }
    ensures shorter { IfOk result (λ r. length r.now < length bytes.now) }
{
    tail_end(term_end(bytes, brackets)?)
}

#[cycle(term_ends)]
#[tactic(auto, unfolding(crate::specs::Ends::more_comps_end))]
fn more_comps_end(bytes: &[u8], brackets: usize) -> Result<&[u8], ParseError>
    ensures end { ResultIs (λ r. r.now) result (more_comps_end (term_end brackets) bytes.now) }
    ensures shorter { IfOk result (λ r. length r.now ≤ length bytes.now) }
{
    let mut rest = bytes;
    while begins(rest, b',') {
        rest = comp_end(fixed_end(b", ", rest)?, brackets)?;
    }
    Ok(rest)
}

/// What follows the comprehensions of a set, at least one, and its brace.
#[cycle(term_ends)]
#[tactic(auto, unfolding(crate::specs::Ends::items_end))]
fn items_end(bytes: &[u8], brackets: usize) -> Result<&[u8], ParseError>
    ensures end { ResultIs (λ r. r.now) result (items_end (term_end brackets) bytes.now) }
    ensures shorter { IfOk result (λ r. length r.now < length bytes.now) }
{
    let rest = comp_end(bytes, brackets)?;
    fixed_end(b"}", more_comps_end(rest, brackets)?)
}

#[cycle(term_ends)]
#[tactic(auto, unfolding(crate::specs::Ends::set_end))]
fn set_end(bytes: &[u8], brackets: usize) -> Result<&[u8], ParseError>
    ensures end { ResultIs (λ r. r.now) result (set_end (term_end brackets) bytes.now) }
    ensures shorter { IfOk result (λ r. length r.now < length bytes.now) }
{
    let rest = fixed_end(b"{", bytes)?;
    if begins(rest, b'}') {
        return fixed_end(b"}", rest);
    }
    items_end(rest, brackets)
}

/// What follows the term, in which at most so many brackets are open at one place.
#[cycle(term_ends)]
#[tactic(auto, unfolding(crate::specs::Ends::term_end))]
pub fn term_end(bytes: &[u8], brackets: usize) -> Result<&[u8], ParseError>
    ensures end { ResultIs (λ r. r.now) result (term_end brackets bytes.now) }
    ensures shorter { IfOk result (λ r. length r.now < length bytes.now) }
{
    if begins(bytes, b'\'') {
        tag_end(bytes)
    } else if brackets > 0 && begins(bytes, b'(') {
        tuple_end(bytes, brackets - 1)
    } else if brackets > 0 && begins(bytes, b'{') {
        set_end(bytes, brackets - 1)
    } else {
        operand_end(bytes)
    }
}

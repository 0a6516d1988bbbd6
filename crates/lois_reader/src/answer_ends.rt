//! Where the lines of results and of traces end.

ghost use Rattle.std.specs.Prelude.{◌<◌, ◌≤◌, length, IfOk};
ghost use Rattle.lois_reader.specs.Reading.{ResultIs};
ghost use Rattle.lois_reader.specs.AnswerEnds.{structure_end, name_end, names_end, head_end, when_end, body_end, behind_case, assigned_end, behind_word, entry_at, opening_at, cases_end, not_a_end, not_end, no_end, kind_end, failure_end, choice_number_end, numbers_end, choice_end, element_end, elements_end, trace_end, results_end, ends_text, results_text_end, version_end, answer_text_end};

use crate::constraint_ends::constraint_end;
use crate::parse_error::ParseError;
use crate::term_ends::term_end;
use crate::words::{begins, fixed_end, number_end, word_at, word_end};
use lois_base::limits::MOST_OPEN_BRACKETS;

#[tactic(auto, unfolding(crate::specs::AnswerEnds::structure_end))]
fn structure_end(bytes: &[u8]) -> Result<&[u8], ParseError>
    ensures end { ResultIs (λ r. r.now) result (structure_end bytes.now) }
    ensures shorter { IfOk result (λ r. length r.now < length bytes.now) }
{
    if begins(bytes, b'o') {
        fixed_end(b"order\n", bytes)
    } else {
        fixed_end(b"equality\n", bytes)
    }
}

fn name_end(bytes: &[u8]) -> Result<&[u8], ParseError>
    ensures end { ResultIs (λ r. r.now) result (name_end bytes.now) }
    ensures shorter { IfOk result (λ r. length r.now < length bytes.now) }
{
    word_end(fixed_end(b" ", bytes)?)
}

/// What follows the parameters.
#[tactic(auto, unfolding(crate::specs::AnswerEnds::names_end))]
fn names_end(bytes: &[u8]) -> Result<&[u8], ParseError>
    ensures end { ResultIs (λ r. r.now) result (names_end bytes.now) }
    ensures shorter { IfOk result (λ r. length r.now ≤ length bytes.now) }
{
    let mut rest = bytes;
    while begins(rest, b' ') {
        rest = name_end(rest)?;
    }
    Ok(rest)
}

/// What follows the head, where this is behind the version.
#[tactic(auto, unfolding(crate::specs::AnswerEnds::head_end))]
fn head_end(bytes: &[u8]) -> Result<&[u8], ParseError>
    ensures end { ResultIs (λ r. r.now) result (head_end bytes.now) }
    ensures shorter { IfOk result (λ r. length r.now < length bytes.now) }
{
    let rest = structure_end(fixed_end(b"\natoms ", bytes)?)?;
    let rest = names_end(fixed_end(b"parameters", rest)?)?;
    fixed_end(b"\n", rest)
}

/// What follows the line, where this is behind `case when `.
#[tactic(auto, unfolding(crate::specs::AnswerEnds::when_end))]
fn when_end(bytes: &[u8]) -> Result<&[u8], ParseError>
    ensures end { ResultIs (λ r. r.now) result (when_end bytes.now) }
    ensures shorter { IfOk result (λ r. length r.now < length bytes.now) }
{
    fixed_end(b"\n", constraint_end(bytes)?)
}

/// What follows the line, where this is behind ` = `.
#[tactic(auto, unfolding(crate::specs::AnswerEnds::body_end))]
fn body_end(bytes: &[u8]) -> Result<&[u8], ParseError>
    ensures end { ResultIs (λ r. r.now) result (body_end bytes.now) }
    ensures shorter { IfOk result (λ r. length r.now < length bytes.now) }
{
    fixed_end(b"\n", term_end(bytes, MOST_OPEN_BRACKETS)?)
}

/// What follows the line, where this is behind `case`.
#[tactic(auto, unfolding(crate::specs::AnswerEnds::behind_case))]
fn behind_case(bytes: &[u8]) -> Result<&[u8], ParseError>
    ensures end { ResultIs (λ r. r.now) result (behind_case bytes.now) }
    ensures shorter { IfOk result (λ r. length r.now < length bytes.now) }
{
    let rest = fixed_end(b" ", bytes)?;
    if begins(rest, b'w') {
        when_end(fixed_end(b"when ", rest)?)
    } else {
        body_end(fixed_end(b"= ", rest)?)
    }
}

/// What follows the line, where this is behind its name.
#[tactic(auto, unfolding(crate::specs::AnswerEnds::assigned_end))]
fn assigned_end(bytes: &[u8]) -> Result<&[u8], ParseError>
    ensures end { ResultIs (λ r. r.now) result (assigned_end bytes.now) }
    ensures shorter { IfOk result (λ r. length r.now < length bytes.now) }
{
    body_end(fixed_end(b" = ", bytes)?)
}

/// What follows the line, where this is behind its first word.
#[tactic(auto, unfolding(crate::specs::AnswerEnds::behind_word))]
fn behind_word<'a>(word: &[u8], bytes: &'a [u8]) -> Result<&'a [u8], ParseError>
    ensures end { ResultIs (λ r. r.now) result (behind_word word.now bytes.now) }
    ensures shorter { IfOk result (λ r. length r.now < length bytes.now) }
{
    if word == b"case".as_slice() {
        behind_case(bytes)
    } else {
        assigned_end(bytes)
    }
}

/// Whether another line follows the one inside a case, and what follows it.
#[tactic(auto, unfolding(crate::specs::AnswerEnds::entry_at))]
fn entry_at(bytes: &[u8]) -> Result<(bool, &[u8]), ParseError>
    ensures end { ResultIs (λ x. (x.0, x.1.now)) result (entry_at bytes.now) }
    ensures shorter { IfOk result (λ x. length x.1.now < length bytes.now) }
{
    let (word, rest) = word_at(bytes)?;
    if word == b"end".as_slice() && begins(rest, b'\n') {
        return Ok((false, fixed_end(b"\n", rest)?));
    }
    Ok((true, behind_word(word, rest)?))
}

/// Whether another line follows the one before any case, and what follows it.
#[tactic(auto, unfolding(crate::specs::AnswerEnds::opening_at))]
fn opening_at(bytes: &[u8]) -> Result<(bool, &[u8]), ParseError>
    ensures end { ResultIs (λ x. (x.0, x.1.now)) result (opening_at bytes.now) }
    ensures shorter { IfOk result (λ x. length x.1.now < length bytes.now) }
{
    if begins(bytes, b'c') {
        Ok((true, when_end(fixed_end(b"case when ", bytes)?)?))
    } else {
        Ok((false, fixed_end(b"end\n", bytes)?))
    }
}

/// What follows the cases and the last line.
#[tactic(auto, unfolding(crate::specs::AnswerEnds::cases_end))]
fn cases_end(bytes: &[u8]) -> Result<&[u8], ParseError>
    ensures end { ResultIs (λ r. r.now) result (cases_end bytes.now) }
    ensures shorter { IfOk result (λ r. length r.now < length bytes.now) }
{
    let (mut goes_on, mut rest) = opening_at(bytes)?;
    while goes_on {
        (goes_on, rest) = entry_at(rest)?;
    }
    Ok(rest)
}

/// What follows the kind, where this is behind `not a`.
#[tactic(auto, unfolding(crate::specs::AnswerEnds::not_a_end))]
fn not_a_end(bytes: &[u8]) -> Result<&[u8], ParseError>
    ensures end { ResultIs (λ r. r.now) result (not_a_end bytes.now) }
    ensures shorter { IfOk result (λ r. length r.now < length bytes.now) }
{
    if begins(bytes, b'n') {
        return fixed_end(b"n automaton", bytes);
    }
    if begins(bytes, b't') {
        return fixed_end(b"toms", bytes);
    }
    let rest = fixed_end(b" ", bytes)?;
    if begins(rest, b's') {
        fixed_end(b"set", rest)
    } else {
        fixed_end(b"tuple", rest)
    }
}

/// What follows the kind, where this is behind `not `.
#[tactic(auto, unfolding(crate::specs::AnswerEnds::not_end))]
fn not_end(bytes: &[u8]) -> Result<&[u8], ParseError>
    ensures end { ResultIs (λ r. r.now) result (not_end bytes.now) }
    ensures shorter { IfOk result (λ r. length r.now < length bytes.now) }
{
    if begins(bytes, b'd') {
        fixed_end(b"deterministic", bytes)
    } else if begins(bytes, b'c') {
        fixed_end(b"complete", bytes)
    } else {
        not_a_end(fixed_end(b"a", bytes)?)
    }
}

/// What follows the kind, where this is behind `no`.
#[tactic(auto, unfolding(crate::specs::AnswerEnds::no_end))]
fn no_end(bytes: &[u8]) -> Result<&[u8], ParseError>
    ensures end { ResultIs (λ r. r.now) result (no_end bytes.now) }
    ensures shorter { IfOk result (λ r. length r.now < length bytes.now) }
{
    if begins(bytes, b' ') {
        fixed_end(b" such part", bytes)
    } else {
        not_end(fixed_end(b"t ", bytes)?)
    }
}

#[tactic(auto, unfolding(crate::specs::AnswerEnds::kind_end))]
fn kind_end(bytes: &[u8]) -> Result<&[u8], ParseError>
    ensures end { ResultIs (λ r. r.now) result (kind_end bytes.now) }
    ensures shorter { IfOk result (λ r. length r.now < length bytes.now) }
{
    if begins(bytes, b'a') {
        fixed_end(b"assertion failed", bytes)
    } else if begins(bytes, b't') {
        fixed_end(b"turn limit", bytes)
    } else if begins(bytes, b'd') {
        fixed_end(b"depth limit", bytes)
    } else {
        no_end(fixed_end(b"no", bytes)?)
    }
}

#[tactic(auto, unfolding(crate::specs::AnswerEnds::failure_end))]
fn failure_end(bytes: &[u8]) -> Result<&[u8], ParseError>
    ensures end { ResultIs (λ r. r.now) result (failure_end bytes.now) }
    ensures shorter { IfOk result (λ r. length r.now < length bytes.now) }
{
    let rest = number_end(fixed_end(b"failed at ", bytes)?)?;
    let rest = number_end(fixed_end(b":", rest)?)?;
    let rest = kind_end(fixed_end(b": ", rest)?)?;
    fixed_end(b"\n", rest)
}

fn choice_number_end(bytes: &[u8]) -> Result<&[u8], ParseError>
    ensures end { ResultIs (λ r. r.now) result (choice_number_end bytes.now) }
    ensures shorter { IfOk result (λ r. length r.now < length bytes.now) }
{
    number_end(fixed_end(b" ", bytes)?)
}

/// What follows the numbers of the choice.
#[tactic(auto, unfolding(crate::specs::AnswerEnds::numbers_end))]
fn numbers_end(bytes: &[u8]) -> Result<&[u8], ParseError>
    ensures end { ResultIs (λ r. r.now) result (numbers_end bytes.now) }
    ensures shorter { IfOk result (λ r. length r.now ≤ length bytes.now) }
{
    let mut rest = bytes;
    while begins(rest, b' ') {
        rest = choice_number_end(rest)?;
    }
    Ok(rest)
}

#[tactic(auto, unfolding(crate::specs::AnswerEnds::choice_end))]
fn choice_end(bytes: &[u8]) -> Result<&[u8], ParseError>
    ensures end { ResultIs (λ r. r.now) result (choice_end bytes.now) }
    ensures shorter { IfOk result (λ r. length r.now < length bytes.now) }
{
    fixed_end(b"\n", numbers_end(fixed_end(b"choice", bytes)?)?)
}

#[tactic(auto, unfolding(crate::specs::AnswerEnds::element_end))]
fn element_end(bytes: &[u8]) -> Result<&[u8], ParseError>
    ensures end { ResultIs (λ r. r.now) result (element_end bytes.now) }
    ensures shorter { IfOk result (λ r. length r.now < length bytes.now) }
{
    assigned_end(word_end(fixed_end(b"for ", bytes)?)?)
}

#[tactic(auto, unfolding(crate::specs::AnswerEnds::elements_end))]
fn elements_end(bytes: &[u8]) -> Result<&[u8], ParseError>
    ensures end { ResultIs (λ r. r.now) result (elements_end bytes.now) }
    ensures shorter { IfOk result (λ r. length r.now ≤ length bytes.now) }
{
    let mut rest = bytes;
    while begins(rest, b'f') {
        rest = element_end(rest)?;
    }
    Ok(rest)
}

/// What follows the trace, where this is behind the version.
#[tactic(auto, unfolding(crate::specs::AnswerEnds::trace_end))]
fn trace_end(bytes: &[u8]) -> Result<&[u8], ParseError>
    ensures end { ResultIs (λ r. r.now) result (trace_end bytes.now) }
    ensures shorter { IfOk result (λ r. length r.now < length bytes.now) }
{
    let rest = failure_end(head_end(bytes)?)?;
    let rest = elements_end(choice_end(rest)?)?;
    fixed_end(b"end\n", rest)
}

/// What follows the results, where this is behind the version.
#[tactic(auto, unfolding(crate::specs::AnswerEnds::results_end))]
fn results_end(bytes: &[u8]) -> Result<&[u8], ParseError>
    ensures end { ResultIs (λ r. r.now) result (results_end bytes.now) }
    ensures shorter { IfOk result (λ r. length r.now < length bytes.now) }
{
    cases_end(head_end(bytes)?)
}

/// Nothing, where nothing is left.
fn whole(bytes: &[u8]) -> Result<&[u8], ParseError>
    ensures end { ResultIs (λ r. r.now) result (ends_text bytes.now) }
    ensures shorter { IfOk result (λ r. length r.now ≤ length bytes.now) }
{
    if !bytes.is_empty() {
        return Err(ParseError::Left(bytes.len()));
    }
    Ok(bytes)
}

/// The end of a text of results.
#[tactic(auto, unfolding(crate::specs::AnswerEnds::results_text_end))]
pub fn results_text_end(bytes: &[u8]) -> Result<&[u8], ParseError>
    ensures end { ResultIs (λ r. r.now) result (results_text_end bytes.now) }
    ensures shorter { IfOk result (λ r. length r.now < length bytes.now) }
{
    whole(results_end(fixed_end(b"lois results 1", bytes)?)?)
}

#[tactic(auto, unfolding(crate::specs::AnswerEnds::version_end))]
fn version_end(bytes: &[u8]) -> Result<&[u8], ParseError>
    ensures end { ResultIs (λ r. r.now) result (version_end bytes.now) }
    ensures shorter { IfOk result (λ r. length r.now < length bytes.now) }
{
    if begins(bytes, b'2') {
        trace_end(fixed_end(b"2", bytes)?)
    } else {
        results_end(fixed_end(b"1", bytes)?)
    }
}

/// The end of a text of results, or of a trace.
#[tactic(auto, unfolding(crate::specs::AnswerEnds::answer_text_end))]
pub fn answer_text_end(bytes: &[u8]) -> Result<&[u8], ParseError>
    ensures end { ResultIs (λ r. r.now) result (answer_text_end bytes.now) }
    ensures shorter { IfOk result (λ r. length r.now < length bytes.now) }
{
    whole(version_end(fixed_end(b"lois results ", bytes)?)?)
}

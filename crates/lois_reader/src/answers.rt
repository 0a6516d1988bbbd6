//! What the texts of results and of traces stand for.

ghost use Rattle.std.specs.Prelude.{◌≡◌, ◌<◌, ◌≤◌, [], length, IfOk, suc};
ghost use Rattle.lois_answers.specs.CaseView.{case_of};
ghost use Rattle.lois_answers.specs.LineView.{line_of};
ghost use Rattle.lois_reader.specs.Pieces.{is_unreserved};
ghost use Rattle.lois_reader.specs.Reading.{ResultIs};
ghost use Rattle.lois_reader.specs.AnswerValues.{names_at, structure_at, parameters_at, head_at, name_at, line_at, starts_with, line_follows, lines_at, case_at, cases_at, results_at, place_at, kind_at, failure_at, number_of_choice_at, numbers_at, choice_at, element_at, elements_at, trace_at, results_text_at, version_at, answer_text_at};

use crate::constraints::{constraint_at, value_of, value_within};
use crate::parameters::Parameters;
use crate::parse_error::ParseError;
use crate::scope::Scope;
use crate::terms::{name_of, term_at};
use crate::words::{begins, fixed_end, number_at, word_at};
use lois_answers::{Answer, Case, Cases, FaultKind, Line, Lines, Results, Trace};
use lois_base::limits::{LONGEST_NAME, LONGEST_TEXT, MOST_OPEN_BRACKETS};
use lois_base::{Name, Numbers};
use lois_lexer::is_reserved;
use std::alloc::Global;

/// One more than the last place of the longest script, as a line or as a column.
const PLACES_END: usize = LONGEST_TEXT + 2;

/// Whether a name may be so: at most 64 bytes, and no word of the language.
fn is_free(word: &[u8]) -> bool
    ensures { result ≡ is_unreserved word.now }
{
    word.len() <= LONGEST_NAME && !is_reserved(word)
}

/// The parameters.
fn names_at(alloc: Global, bytes: &[u8]) -> Result<(Parameters<'_>, &[u8]), ParseError>
    ensures names { ResultIs (λ x. (x.0, x.1.now)) result (names_at (suc (length bytes.now)) [] bytes.now) }
    ensures shorter { IfOk result (λ x. length x.1.now ≤ length bytes.now) }
{
    let mut names = Parameters::new(alloc);
    let mut rest = bytes;
    while begins(rest, b' ') {
        let inside = fixed_end(b" ", rest)?;
        let (word, after) = word_at(inside)?;
        if !is_free(word) || names.contains(word) {
            return Err(ParseError::Left(inside.len()));
        }
        names = names.with(word, name_of(alloc, word)?)?;
        rest = after;
    }
    Ok((names, rest))
}

/// Whether the atoms are ordered.
#[tactic(auto, unfolding(crate::specs::AnswerValues::structure_at))]
fn structure_at(bytes: &[u8]) -> Result<(bool, &[u8]), ParseError>
    ensures ordered { ResultIs (λ x. (x.0, x.1.now)) result (structure_at bytes.now) }
    ensures shorter { IfOk result (λ x. length x.1.now < length bytes.now) }
{
    if begins(bytes, b'o') {
        Ok((true, fixed_end(b"order\n", bytes)?))
    } else {
        Ok((false, fixed_end(b"equality\n", bytes)?))
    }
}

#[tactic(auto, unfolding(crate::specs::AnswerValues::parameters_at))]
fn parameters_at(alloc: Global, bytes: &[u8]) -> Result<(Parameters<'_>, &[u8]), ParseError>
    ensures names { ResultIs (λ x. (x.0, x.1.now)) result (parameters_at bytes.now) }
    ensures shorter { IfOk result (λ x. length x.1.now < length bytes.now) }
{
    names_at(alloc, fixed_end(b"parameters", bytes)?)
}

/// The structure and the parameters, where this is behind the version.
#[tactic(auto, unfolding(crate::specs::AnswerValues::head_at))]
fn head_at(alloc: Global, bytes: &[u8]) -> Result<(Scope<'_>, &[u8]), ParseError>
    ensures scope { ResultIs (λ x. (x.0, x.1.now)) result (head_at bytes.now) }
    ensures shorter { IfOk result (λ x. length x.1.now < length bytes.now) }
{
    let (ordered, rest) = structure_at(fixed_end(b"\natoms ", bytes)?)?;
    let (names, rest) = parameters_at(alloc, rest)?;
    let rest = fixed_end(b"\n", rest)?;
    Ok((Scope { names, ordered }, rest))
}

/// The name of a line.
#[tactic(auto, unfolding(crate::specs::AnswerValues::name_at))]
fn name_at(alloc: Global, bytes: &[u8]) -> Result<(Name, &[u8]), ParseError>
    ensures name { ResultIs (λ x. (x.0, x.1.now)) result (name_at bytes.now) }
    ensures shorter { IfOk result (λ x. length x.1.now < length bytes.now) }
{
    let (word, rest) = word_at(bytes)?;
    if !is_free(word) {
        return Err(ParseError::Left(bytes.len()));
    }
    Ok((name_of(alloc, word)?, rest))
}

#[tactic(auto, unfolding(crate::specs::AnswerValues::line_at))]
fn line_at<'a>(
    alloc: Global,
    scope: &Scope<'_>,
    levels: usize,
    bytes: &'a [u8],
) -> Result<(Line, &'a [u8]), ParseError>
    ensures line { ResultIs (λ x. (line_of x.0, x.1.now)) result (line_at scope.now levels bytes.now) }
    ensures shorter { IfOk result (λ x. length x.1.now < length bytes.now) }
{
    let (name, rest) = name_at(alloc, bytes)?;
    let rest = fixed_end(b" = ", rest)?;
    let (term, rest) = term_at(alloc, scope, levels, MOST_OPEN_BRACKETS, rest)?;
    let rest = fixed_end(b"\n", rest)?;
    Ok((Line { name, term }, rest))
}

fn starts_with(bytes: &[u8], text: &[u8]) -> bool
    ensures { result ≡ starts_with text.now bytes.now }
{
    match fixed_end(text, bytes) {
        Ok(_) => true,
        Err(_) => false,
    }
}

/// Whether a line of a case follows: neither the next case nor the end.
#[tactic(auto, unfolding(crate::specs::AnswerValues::line_follows))]
fn line_follows(bytes: &[u8]) -> bool
    ensures { result ≡ line_follows bytes.now }
{
    !starts_with(bytes, b"end\n") && !starts_with(bytes, b"case when ")
}

#[tactic(auto, unfolding(crate::specs::AnswerValues::lines_at))]
fn lines_at<'a>(
    alloc: Global,
    scope: &Scope<'_>,
    levels: usize,
    bytes: &'a [u8],
) -> Result<(Lines, &'a [u8]), ParseError>
    ensures lines { ResultIs (λ x. (x.0, x.1.now)) result (lines_at scope.now levels bytes.now) }
    ensures shorter { IfOk result (λ x. length x.1.now ≤ length bytes.now) }
{
    let mut lines = Lines::new(alloc);
    let mut rest = bytes;
    while line_follows(rest) {
        let (line, after) = line_at(alloc, scope, levels, rest)?;
        lines.push(line)?;
        rest = after;
    }
    Ok((lines, rest))
}

#[tactic(auto, unfolding(crate::specs::AnswerValues::case_at))]
fn case_at<'a>(
    alloc: Global,
    scope: &Scope<'_>,
    bytes: &'a [u8],
) -> Result<(Case, &'a [u8]), ParseError>
    ensures case { ResultIs (λ x. (case_of x.0, x.1.now)) result (case_at scope.now bytes.now) }
    ensures shorter { IfOk result (λ x. length x.1.now < length bytes.now) }
{
    let levels = scope.names.len();
    let rest = fixed_end(b"case when ", bytes)?;
    let (when, rest) = constraint_at(alloc, scope, levels, rest)?;
    let rest = fixed_end(b"\n", rest)?;
    let (lines, rest) = lines_at(alloc, scope, levels, rest)?;
    Ok((Case { when, lines }, rest))
}

#[tactic(auto, unfolding(crate::specs::AnswerValues::cases_at))]
fn cases_at<'a>(
    alloc: Global,
    scope: &Scope<'_>,
    bytes: &'a [u8],
) -> Result<(Cases, &'a [u8]), ParseError>
    ensures cases { ResultIs (λ x. (x.0, x.1.now)) result (cases_at scope.now bytes.now) }
    ensures shorter { IfOk result (λ x. length x.1.now ≤ length bytes.now) }
{
    let mut cases = Cases::new(alloc);
    let mut rest = bytes;
    while begins(rest, b'c') {
        let (case, after) = case_at(alloc, scope, rest)?;
        cases.push(case)?;
        rest = after;
    }
    Ok((cases, rest))
}

/// The results, where this is behind the version.
#[tactic(auto, unfolding(crate::specs::AnswerValues::results_at))]
fn results_at(alloc: Global, bytes: &[u8]) -> Result<(Results, &[u8]), ParseError>
    ensures results { ResultIs (λ x. (x.0, x.1.now)) result (results_at bytes.now) }
    ensures shorter { IfOk result (λ x. length x.1.now < length bytes.now) }
{
    let (scope, rest) = head_at(alloc, bytes)?;
    let (cases, rest) = cases_at(alloc, &scope, rest)?;
    let rest = fixed_end(b"end\n", rest)?;
    let Scope { names, ordered } = scope;
    Ok((
        Results {
            order: ordered,
            parameters: names.into_names(),
            cases,
        },
        rest,
    ))
}

/// A line or a column of a script.
#[tactic(auto, unfolding(crate::specs::AnswerValues::place_at))]
fn place_at(bytes: &[u8]) -> Result<(usize, &[u8]), ParseError>
    ensures place { ResultIs (λ x. (x.0, x.1.now)) result (place_at bytes.now) }
    ensures shorter { IfOk result (λ x. length x.1.now < length bytes.now) }
{
    let (digits, rest) = number_at(bytes)?;
    let Some(place) = value_within(digits, 1, PLACES_END) else {
        return Err(ParseError::Left(bytes.len()));
    };
    Ok((place, rest))
}

/// The kind of a failure. No kind's text begins with another's.
#[tactic(auto, unfolding(crate::specs::AnswerValues::kind_at))]
fn kind_at(bytes: &[u8]) -> Result<(FaultKind, &[u8]), ParseError>
    ensures kind { ResultIs (λ x. (x.0, x.1.now)) result (kind_at bytes.now) }
    ensures shorter { IfOk result (λ x. length x.1.now ≤ length bytes.now) }
{
    let kinds = [
        FaultKind::Assertion,
        FaultKind::NotASet,
        FaultKind::NotAtoms,
        FaultKind::NotATuple,
        FaultKind::NoSuchPart,
        FaultKind::NotAutomaton,
        FaultKind::NotDeterministic,
        FaultKind::NotComplete,
        FaultKind::TurnLimit,
        FaultKind::DepthLimit,
    ];
    for kind in kinds {
        if let Ok(rest) = fixed_end(kind.text(), bytes) {
            return Ok((kind, rest));
        }
    }
    Err(ParseError::Left(bytes.len()))
}

/// The line, the column and the kind of a failure.
#[tactic(auto, unfolding(crate::specs::AnswerValues::failure_at))]
fn failure_at(bytes: &[u8]) -> Result<((usize, (usize, FaultKind)), &[u8]), ParseError>
    ensures failure { ResultIs (λ x. (x.0, x.1.now)) result (failure_at bytes.now) }
    ensures shorter { IfOk result (λ x. length x.1.now < length bytes.now) }
{
    let (line, rest) = place_at(fixed_end(b"failed at ", bytes)?)?;
    let (column, rest) = place_at(fixed_end(b":", rest)?)?;
    let (kind, rest) = kind_at(fixed_end(b": ", rest)?)?;
    Ok(((line, (column, kind)), fixed_end(b"\n", rest)?))
}

#[tactic(auto, unfolding(crate::specs::AnswerValues::number_of_choice_at))]
fn number_of_choice_at(bytes: &[u8]) -> Result<(u64, &[u8]), ParseError>
    ensures number { ResultIs (λ x. (x.0, x.1.now)) result (number_of_choice_at bytes.now) }
    ensures shorter { IfOk result (λ x. length x.1.now < length bytes.now) }
{
    let inside = fixed_end(b" ", bytes)?;
    let (digits, rest) = number_at(inside)?;
    let Some(number) = value_of(digits) else {
        return Err(ParseError::Left(inside.len()));
    };
    Ok((number as u64, rest))
}

#[tactic(auto, unfolding(crate::specs::AnswerValues::numbers_at))]
fn numbers_at(alloc: Global, bytes: &[u8]) -> Result<(Numbers, &[u8]), ParseError>
    ensures numbers { ResultIs (λ x. (x.0, x.1.now)) result (numbers_at bytes.now) }
    ensures shorter { IfOk result (λ x. length x.1.now ≤ length bytes.now) }
{
    let mut numbers = Numbers::new(alloc);
    let mut rest = bytes;
    while begins(rest, b' ') {
        let (number, after) = number_of_choice_at(rest)?;
        numbers.push(number)?;
        rest = after;
    }
    Ok((numbers, rest))
}

/// The choice, which has a number for each parameter at least.
#[tactic(auto, unfolding(crate::specs::AnswerValues::choice_at))]
fn choice_at(alloc: Global, fewest: usize, bytes: &[u8]) -> Result<(Numbers, &[u8]), ParseError>
    ensures choice { ResultIs (λ x. (x.0, x.1.now)) result (choice_at fewest bytes.now) }
    ensures shorter { IfOk result (λ x. length x.1.now < length bytes.now) }
{
    let (numbers, rest) = numbers_at(alloc, fixed_end(b"choice", bytes)?)?;
    if numbers.len() < fewest {
        return Err(ParseError::Left(rest.len()));
    }
    Ok((numbers, fixed_end(b"\n", rest)?))
}

#[tactic(auto, unfolding(crate::specs::AnswerValues::element_at))]
fn element_at<'a>(
    alloc: Global,
    scope: &Scope<'_>,
    levels: usize,
    bytes: &'a [u8],
) -> Result<(Line, &'a [u8]), ParseError>
    ensures element { ResultIs (λ x. (line_of x.0, x.1.now)) result (element_at scope.now levels bytes.now) }
    ensures shorter { IfOk result (λ x. length x.1.now < length bytes.now) }
{
    line_at(alloc, scope, levels, fixed_end(b"for ", bytes)?)
}

#[tactic(auto, unfolding(crate::specs::AnswerValues::elements_at))]
fn elements_at<'a>(
    alloc: Global,
    scope: &Scope<'_>,
    levels: usize,
    bytes: &'a [u8],
) -> Result<(Lines, &'a [u8]), ParseError>
    ensures elements { ResultIs (λ x. (x.0, x.1.now)) result (elements_at scope.now levels bytes.now) }
    ensures shorter { IfOk result (λ x. length x.1.now ≤ length bytes.now) }
{
    let mut elements = Lines::new(alloc);
    let mut rest = bytes;
    while begins(rest, b'f') {
        let (element, after) = element_at(alloc, scope, levels, rest)?;
        elements.push(element)?;
        rest = after;
    }
    Ok((elements, rest))
}

/// The trace, where this is behind the version.
#[tactic(auto, unfolding(crate::specs::AnswerValues::trace_at))]
fn trace_at(alloc: Global, bytes: &[u8]) -> Result<(Trace, &[u8]), ParseError>
    ensures trace { ResultIs (λ x. (x.0, x.1.now)) result (trace_at bytes.now) }
    ensures shorter { IfOk result (λ x. length x.1.now < length bytes.now) }
{
    let (scope, rest) = head_at(alloc, bytes)?;
    let ((line, (column, kind)), rest) = failure_at(rest)?;
    let (sample, rest) = choice_at(alloc, scope.names.len(), rest)?;
    let (elements, rest) = elements_at(alloc, &scope, sample.len(), rest)?;
    let rest = fixed_end(b"end\n", rest)?;
    let Scope { names, ordered } = scope;
    Ok((
        Trace {
            order: ordered,
            parameters: names.into_names(),
            line,
            column,
            kind,
            sample,
            elements,
        },
        rest,
    ))
}

/// The results that a text of their shape stands for.
#[tactic(auto, unfolding(crate::specs::AnswerValues::results_text_at))]
pub fn results_text_at(alloc: Global, text: &[u8]) -> Result<Results, ParseError>
    ensures { ResultIs (λ r. r) result (results_text_at text.now) }
{
    let (results, _) = results_at(alloc, fixed_end(b"lois results 1", text)?)?;
    Ok(results)
}

#[tactic(auto, unfolding(crate::specs::AnswerValues::version_at))]
fn version_at(alloc: Global, bytes: &[u8]) -> Result<Answer, ParseError>
    ensures { ResultIs (λ a. a) result (version_at bytes.now) }
{
    if begins(bytes, b'2') {
        let (trace, _) = trace_at(alloc, fixed_end(b"2", bytes)?)?;
        return Ok(Answer::Trace(trace));
    }
    let (results, _) = results_at(alloc, fixed_end(b"1", bytes)?)?;
    Ok(Answer::Results(results))
}

/// The results or the trace that a text of their shape stands for.
#[tactic(auto, unfolding(crate::specs::AnswerValues::answer_text_at))]
pub fn answer_text_at(alloc: Global, text: &[u8]) -> Result<Answer, ParseError>
    ensures { ResultIs (λ a. a) result (answer_text_at text.now) }
{
    version_at(alloc, fixed_end(b"lois results ", text)?)
}

//! What terms stand for.

ghost use Rattle.std.specs.Prelude.{◌≡◌, ◌+◌, ◌<◌, ◌≤◌, ◌^◌, length, IfOk, IsTrue, suc};
ghost use Rattle.lois_base.specs.Tree.{tree, comp_of};
ghost use Rattle.lois_lexer.specs.Forms.{is_word_form};
ghost use Rattle.lois_reader.specs.Ends.{term_end};
ghost use Rattle.lois_reader.specs.Reading.{ResultIs};
ghost use Rattle.lois_reader.specs.TermValues.{level_count, binder_count, binder_at, levels_from, binders_at, true_alone, behind_if, guard_at, tag_at, var_at, part_count, parts_at, closed_parts_at, tuple_at, comp_at, comps_at, closed_comps_at, set_at, term_at};

use crate::constraints::{constraint_at, follows, keyword, operand_at, value_within};
use crate::parse_error::ParseError;
use crate::scope::Scope;
use crate::term_ends::term_end;
use crate::words::{begins, fixed_end, level_end, number_at, word_at};
use lois_base::limits::{GREATEST_WIDTH, LONGEST_NAME};
use lois_base::{Comp, Comps, Constraint, Name, NoMemory, Term, Terms};
use std::alloc::Global;

/// How many levels are written here, each behind a space.
fn level_count(bytes: &[u8]) -> Result<usize, ParseError>
    ensures count { ResultIs (λ m. m) result (level_count (suc (length bytes.now)) bytes.now) }
{
    let mut rest = bytes;
    let mut count = 0;
    while follows(rest, b'$') {
        rest = level_end(fixed_end(b" ", rest)?)?;
        count += 1;
    }
    Ok(count)
}

/// How many binders are written here.
#[tactic(auto, unfolding(crate::specs::TermValues::binder_count))]
fn binder_count(bytes: &[u8]) -> Result<usize, ParseError>
    ensures count { ResultIs (λ m. m) result (binder_count bytes.now) }
{
    if !follows(bytes, b'f') {
        return Ok(0);
    }
    level_count(fixed_end(b" for", bytes)?)
}

/// What follows the binder of this number.
#[tactic(auto, unfolding(crate::specs::TermValues::binder_at))]
fn binder_at(level: usize, bytes: &[u8]) -> Result<&[u8], ParseError>
    requires { level + 1 < 2 ^ 64 }
    ensures end { ResultIs (λ r. r.now) result (binder_at level bytes.now) }
    ensures shorter { IfOk result (λ r. length r.now < length bytes.now) }
{
    let (digits, rest) = number_at(fixed_end(b"$", bytes)?)?;
    if value_within(digits, level, level + 1).is_none() {
        return Err(ParseError::Left(bytes.len()));
    }
    Ok(rest)
}

/// What follows the binders from this number on. No memory holds a choice of more levels than the greatest usize.
fn levels_from(first: usize, bytes: &[u8]) -> Result<&[u8], ParseError>
    ensures end { ResultIs (λ r. r.now) result (levels_from (suc (length bytes.now)) first bytes.now) }
    ensures shorter { IfOk result (λ r. length r.now ≤ length bytes.now) }
{
    let mut rest = bytes;
    let mut level = first;
    while follows(rest, b'$') {
        let next = level.checked_add(1).ok_or(ParseError::NoMemory)?;
        rest = binder_at(level, fixed_end(b" ", rest)?)?;
        level = next;
    }
    Ok(rest)
}

/// What follows the binders of a comprehension inside so many levels.
#[tactic(auto, unfolding(crate::specs::TermValues::binders_at))]
fn binders_at(levels: usize, bytes: &[u8]) -> Result<&[u8], ParseError>
    ensures end { ResultIs (λ r. r.now) result (binders_at levels bytes.now) }
    ensures shorter { IfOk result (λ r. length r.now ≤ length bytes.now) }
{
    if !follows(bytes, b'f') {
        return Ok(bytes);
    }
    levels_from(levels, fixed_end(b" for", bytes)?)
}

/// Whether `true` is the whole constraint that is written here.
#[tactic(auto, unfolding(crate::specs::TermValues::true_alone))]
fn true_alone(bytes: &[u8]) -> bool
    ensures { result ≡ true_alone bytes.now }
{
    match keyword(b"true", bytes) {
        Some(rest) => !begins(rest, b' '),
        None => false,
    }
}

#[tactic(auto, unfolding(crate::specs::TermValues::behind_if))]
fn behind_if<'a>(
    alloc: Global,
    scope: &Scope<'_>,
    levels: usize,
    bytes: &'a [u8],
) -> Result<(Constraint, &'a [u8]), ParseError>
    ensures guard { ResultIs (λ x. (x.0, x.1.now)) result (behind_if scope.now levels bytes.now) }
    ensures shorter { IfOk result (λ x. length x.1.now < length bytes.now) }
{
    if true_alone(bytes) {
        return Err(ParseError::Left(bytes.len()));
    }
    constraint_at(alloc, scope, levels, bytes)
}

/// The guard of a comprehension.
#[tactic(auto, unfolding(crate::specs::TermValues::guard_at))]
fn guard_at<'a>(
    alloc: Global,
    scope: &Scope<'_>,
    levels: usize,
    bytes: &'a [u8],
) -> Result<(Constraint, &'a [u8]), ParseError>
    ensures guard { ResultIs (λ x. (x.0, x.1.now)) result (guard_at scope.now levels bytes.now) }
    ensures shorter { IfOk result (λ x. length x.1.now ≤ length bytes.now) }
{
    if !begins(bytes, b' ') {
        return Ok((Constraint::always(alloc)?, bytes));
    }
    behind_if(alloc, scope, levels, fixed_end(b" if ", bytes)?)
}

/// The name that a word of at most 64 bytes is.
pub fn name_of(alloc: Global, word: &[u8]) -> Result<Name, NoMemory>
    requires form { IsTrue (is_word_form word.now) }
    requires short { length word.now ≤ 64 }
    ensures { IfOk result (λ name. name ≡ word.now) }
{
    Name::from_bytes(alloc, word)
}

#[tactic(auto, unfolding(crate::specs::TermValues::tag_at))]
fn tag_at(alloc: Global, bytes: &[u8]) -> Result<(Term, &[u8]), ParseError>
    ensures term { ResultIs (λ x. (tree x.0, x.1.now)) result (tag_at bytes.now) }
    ensures shorter { IfOk result (λ x. length x.1.now < length bytes.now) }
{
    let (word, rest) = word_at(fixed_end(b"'", bytes)?)?;
    if word.len() > LONGEST_NAME {
        return Err(ParseError::Left(bytes.len()));
    }
    Ok((Term::Tag(name_of(alloc, word)?), rest))
}

#[tactic(auto, unfolding(crate::specs::TermValues::var_at))]
fn var_at<'a>(
    scope: &Scope<'_>,
    levels: usize,
    bytes: &'a [u8],
) -> Result<(Term, &'a [u8]), ParseError>
    ensures term { ResultIs (λ x. (tree x.0, x.1.now)) result (var_at scope.now levels bytes.now) }
    ensures shorter { IfOk result (λ x. length x.1.now < length bytes.now) }
{
    let (level, rest) = operand_at(scope, levels, bytes)?;
    Ok((Term::Var(level), rest))
}

/// How many parts are written here, with commas between them.
fn part_count(bytes: &[u8], brackets: usize) -> Result<usize, ParseError>
    ensures count { ResultIs (λ m. m) result (part_count (term_end brackets) (suc (length bytes.now)) bytes.now) }
{
    let mut rest = term_end(bytes, brackets)?;
    let mut count = 1;
    while begins(rest, b',') {
        rest = term_end(fixed_end(b", ", rest)?, brackets)?;
        count += 1;
    }
    Ok(count)
}

/// The parts of a tuple.
#[cycle(terms)]
#[tactic(auto, unfolding(crate::specs::TermValues::parts_at))]
fn parts_at<'a>(
    alloc: Global,
    scope: &Scope<'_>,
    levels: usize,
    brackets: usize,
    bytes: &'a [u8],
) -> Result<(Terms, &'a [u8]), ParseError>
    ensures parts { ResultIs (λ x. (x.0, x.1.now)) result (parts_at (term_at brackets scope.now levels) bytes.now) }
    ensures shorter { IfOk result (λ x. length x.1.now < length bytes.now) }
{
    let mut parts = Terms::new(alloc);
    let mut rest = bytes;
    loop {
        let (part, after) = term_at(alloc, scope, levels, brackets, rest)?;
        parts.push(part)?;
        if !begins(after, b',') {
            return Ok((parts, after));
        }
        rest = fixed_end(b", ", after)?;
    }
}

#[cycle(terms)]
#[tactic(auto, unfolding(crate::specs::TermValues::closed_parts_at))]
fn closed_parts_at<'a>(
    alloc: Global,
    scope: &Scope<'_>,
    levels: usize,
    brackets: usize,
    bytes: &'a [u8],
) -> Result<(Term, &'a [u8]), ParseError>
    ensures term { ResultIs (λ x. (tree x.0, x.1.now)) result (closed_parts_at (term_at brackets scope.now levels) bytes.now) }
    ensures shorter { IfOk result (λ x. length x.1.now < length bytes.now) }
{
    let (parts, rest) = parts_at(alloc, scope, levels, brackets, bytes)?;
    Ok((Term::Tup(parts), fixed_end(b")", rest)?))
}

/// A tuple. It is judged by its width before its parts are.
#[cycle(terms)]
#[tactic(auto, unfolding(crate::specs::TermValues::tuple_at))]
fn tuple_at<'a>(
    alloc: Global,
    scope: &Scope<'_>,
    levels: usize,
    brackets: usize,
    bytes: &'a [u8],
) -> Result<(Term, &'a [u8]), ParseError>
    ensures term { ResultIs (λ x. (tree x.0, x.1.now)) result (tuple_at (term_end brackets) (term_at brackets scope.now levels) bytes.now) }
    ensures shorter { IfOk result (λ x. length x.1.now < length bytes.now) }
{
    let inside = fixed_end(b"(", bytes)?;
    if part_count(inside, brackets)? > GREATEST_WIDTH {
        return Err(ParseError::Left(bytes.len()));
    }
    closed_parts_at(alloc, scope, levels, brackets, inside)
}

/// A comprehension. Its item is read once its binders are counted, since they are levels of the item.
#[cycle(terms)]
#[tactic(auto, unfolding(crate::specs::TermValues::comp_at))]
fn comp_at<'a>(
    alloc: Global,
    scope: &Scope<'_>,
    levels: usize,
    brackets: usize,
    bytes: &'a [u8],
) -> Result<(Comp, &'a [u8]), ParseError>
    ensures comp { ResultIs (λ x. (comp_of x.0, x.1.now)) result (comp_at (term_end brackets) (term_at brackets scope.now) scope.now levels bytes.now) }
    ensures shorter { IfOk result (λ x. length x.1.now < length bytes.now) }
{
    let binders = binder_count(term_end(bytes, brackets)?)?;
    let inner = levels.checked_add(binders).ok_or(ParseError::NoMemory)?;
    let (item, rest) = term_at(alloc, scope, inner, brackets, bytes)?;
    let rest = binders_at(levels, rest)?;
    let (guard, rest) = guard_at(alloc, scope, inner, rest)?;
    Ok((
        Comp {
            binders,
            guard,
            item,
        },
        rest,
    ))
}

/// The comprehensions of a set.
#[cycle(terms)]
#[tactic(auto, unfolding(crate::specs::TermValues::comps_at))]
fn comps_at<'a>(
    alloc: Global,
    scope: &Scope<'_>,
    levels: usize,
    brackets: usize,
    bytes: &'a [u8],
) -> Result<(Comps, &'a [u8]), ParseError>
    ensures comps { ResultIs (λ x. (x.0, x.1.now)) result (comps_at (comp_at (term_end brackets) (term_at brackets scope.now) scope.now levels) bytes.now) }
    ensures shorter { IfOk result (λ x. length x.1.now < length bytes.now) }
{
    let mut comps = Comps::new(alloc);
    let mut rest = bytes;
    loop {
        let (comp, after) = comp_at(alloc, scope, levels, brackets, rest)?;
        comps.push(comp)?;
        if !begins(after, b',') {
            return Ok((comps, after));
        }
        rest = fixed_end(b", ", after)?;
    }
}

#[cycle(terms)]
#[tactic(auto, unfolding(crate::specs::TermValues::closed_comps_at))]
fn closed_comps_at<'a>(
    alloc: Global,
    scope: &Scope<'_>,
    levels: usize,
    brackets: usize,
    bytes: &'a [u8],
) -> Result<(Term, &'a [u8]), ParseError>
    ensures term { ResultIs
        (λ x. (tree x.0, x.1.now))
        result
        (closed_comps_at (comp_at (term_end brackets) (term_at brackets scope.now) scope.now levels) bytes.now) }
    ensures shorter { IfOk result (λ x. length x.1.now < length bytes.now) }
{
    let (comps, rest) = comps_at(alloc, scope, levels, brackets, bytes)?;
    Ok((Term::Coll(comps), fixed_end(b"}", rest)?))
}

#[cycle(terms)]
#[tactic(auto, unfolding(crate::specs::TermValues::set_at))]
fn set_at<'a>(
    alloc: Global,
    scope: &Scope<'_>,
    levels: usize,
    brackets: usize,
    bytes: &'a [u8],
) -> Result<(Term, &'a [u8]), ParseError>
    ensures term { ResultIs (λ x. (tree x.0, x.1.now)) result (set_at (comp_at (term_end brackets) (term_at brackets scope.now) scope.now levels) bytes.now) }
    ensures shorter { IfOk result (λ x. length x.1.now < length bytes.now) }
{
    let inside = fixed_end(b"{", bytes)?;
    if begins(inside, b'}') {
        return Ok((Term::Coll(Comps::new(alloc)), fixed_end(b"}", inside)?));
    }
    closed_comps_at(alloc, scope, levels, brackets, inside)
}

/// The term that is written here inside so many levels, where at most so many brackets are open at one place.
#[cycle(terms)]
#[tactic(auto, unfolding(crate::specs::TermValues::term_at))]
pub fn term_at<'a>(
    alloc: Global,
    scope: &Scope<'_>,
    levels: usize,
    brackets: usize,
    bytes: &'a [u8],
) -> Result<(Term, &'a [u8]), ParseError>
    ensures term { ResultIs (λ x. (tree x.0, x.1.now)) result (term_at brackets scope.now levels bytes.now) }
    ensures shorter { IfOk result (λ x. length x.1.now < length bytes.now) }
{
    if begins(bytes, b'\'') {
        tag_at(alloc, bytes)
    } else if brackets > 0 && begins(bytes, b'(') {
        tuple_at(alloc, scope, levels, brackets - 1, bytes)
    } else if brackets > 0 && begins(bytes, b'{') {
        set_at(alloc, scope, levels, brackets - 1, bytes)
    } else {
        var_at(scope, levels, bytes)
    }
}

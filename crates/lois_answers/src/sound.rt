//! Which results and traces have a text.

ghost use Rattle.std.specs.Prelude.{◌≡◌, ◌↔◌, ◌<◌, ◌≤◌, IsTrue, Contains};
ghost use Rattle.std.specs.List.{All};
ghost use Rattle.lois_base.specs.Data.{depth, terms_of, comps_of};
ghost use Rattle.lois_base.specs.ListDepth.{depth_of_terms, depth_of_comps};
ghost use Rattle.lois_base.specs.Tree.{tree, comp_of};
ghost use Rattle.lois_base.specs.Validity.{is_admitted, is_strict, AdmitsCube, AdmitsConstraint, AdmitsTerm, AdmitsParts, AdmitsItems, AdmitsComp, IsStrictCube, IsStrictConstraint, IsStrictTerm, PartsAreStrict, ItemsAreStrict, CompIsStrict, HasBoundedWidths, PartsHaveBoundedWidths, ItemsHaveBoundedWidths};
ghost use Rattle.lois_answers.specs.LineView.{line_of};
ghost use Rattle.lois_answers.specs.CaseView.{case_of};
ghost use Rattle.lois_answers.specs.Sound.{HasTags, PartsHaveTags, ItemsHaveTags, IsFreeName, IsSoundTerm, IsSoundLine, IsSoundCase, AreDistinct, AreParameters, IsSound, IsSoundTrace, IsPlaceNumber};

use crate::{Case, Cases, Line, Lines, Results, Trace};
use lois_base::limits::{GREATEST_WIDTH, LEAST_WIDTH, LONGEST_TEXT, MOST_OPEN_BRACKETS};
use lois_base::{Comp, Comps, Constraint, Cube, Name, Names, Op, Term, Terms};
use lois_lexer::is_reserved;

/// The last place of the longest script, as a line or as a column.
const LAST_PLACE: usize = LONGEST_TEXT + 1;

impl Results {
    /// Whether the results have a text: their parameters are distinct and no words of the language, and each case's
    /// constraint and terms are within the levels, the widths, the operators and the brackets of the format, without `<=`.
    pub fn sound(&self) -> bool
        ensures exact { IsTrue result ↔ IsSound self.now }
    {
        are_parameters(&self.parameters)
            && are_sound_cases(&self.cases, self.order, self.parameters.len())
    }
}

impl Trace {
    /// Whether the trace has a text: as results have one, where each line and column is one of a script, and the
    /// choice has at least a number for each parameter.
    pub fn sound(&self) -> bool
        ensures exact { IsTrue result ↔ IsSoundTrace self.now }
    {
        if !are_parameters(&self.parameters) {
            return false;
        }
        if !is_place(self.line, self.column) {
            return false;
        }
        let sample = self.sample.as_slice();
        if sample.len() < self.parameters.len() {
            return false;
        }
        are_sound_lines(&self.elements, self.order, sample.len())
    }
}

fn is_place(line: usize, column: usize) -> bool
    ensures exact { IsTrue result ↔ (IsPlaceNumber line × IsPlaceNumber column) }
{
    is_place_number(line) && is_place_number(column)
}

fn is_place_number(number: usize) -> bool
    ensures exact { IsTrue result ↔ IsPlaceNumber number }
{
    1 <= number && number <= LAST_PLACE
}

fn are_parameters(names: &Names) -> bool
    ensures exact { IsTrue result ↔ AreParameters names.now }
{
    names.as_slice().iter().all(|name| is_free_name(name)) && are_distinct(names.as_slice())
}

fn is_free_name(name: &Name) -> bool
    ensures exact { IsTrue result ↔ IsFreeName name.now }
{
    !is_reserved(name.bytes())
}

// Each name is compared with those after it, since a test without memory can't keep a table.
fn are_distinct(names: &[Name]) -> bool
    ensures exact { IsTrue result ↔ AreDistinct names.now }
{
    for index in 0..names.len() {
        if holds_name(&names[index + 1..], &names[index]) {
            return false;
        }
    }
    true
}

fn holds_name(names: &[Name], wanted: &Name) -> bool
    ensures exact { IsTrue result ↔ Contains names.now wanted.now }
{
    names.iter().any(|name| name.bytes() == wanted.bytes())
}

fn are_sound_cases(cases: &Cases, ordered: bool, levels: usize) -> bool
    ensures exact { IsTrue result ↔ All (IsSoundCase ordered levels) cases.now }
{
    for case in cases.as_slice() {
        if !is_sound_case(case, ordered, levels) {
            return false;
        }
    }
    true
}

fn is_sound_case(case: &Case, ordered: bool, levels: usize) -> bool
    ensures exact { IsTrue result ↔ IsSoundCase ordered levels (case_of case.now) }
{
    case.when.fits(levels)
        && admits_guard(&case.when, ordered)
        && is_strict_guard(&case.when)
        && are_sound_lines(&case.lines, ordered, levels)
}

fn are_sound_lines(lines: &Lines, ordered: bool, levels: usize) -> bool
    ensures exact { IsTrue result ↔ All (IsSoundLine ordered levels) lines.now }
{
    for line in lines.as_slice() {
        if !is_sound_line(line, ordered, levels) {
            return false;
        }
    }
    true
}

fn is_sound_line(line: &Line, ordered: bool, levels: usize) -> bool
    ensures exact { IsTrue result ↔ IsSoundLine ordered levels (line_of line.now) }
{
    is_free_name(&line.name) && is_sound_term(&line.term, ordered, levels)
}

/// Whether a term inside so many levels can be written: its levels, its operators, the widths of its tuples and its
/// brackets are those of the format, and no guard has `<=`.
pub fn is_sound_term(term: &Term, ordered: bool, levels: usize) -> bool
    ensures exact { IsTrue result ↔ IsSoundTerm ordered levels (tree term.now) }
{
    tags_are_names(term);
    term.fits(levels)
        && has_usual_widths(term)
        && admits_term(term, ordered)
        && is_strict_term(term)
        && opens_at_most(term, MOST_OPEN_BRACKETS)
}

/// Says of a whole term what the type of a tag says of each: that it has the form of a name. It does nothing.
#[cycle(tags)]
pub fn tags_are_names(term: &Term)
    ensures tags { HasTags (tree term.now) }
{
    match term {
        Term::Var(_) => {}
        Term::Tag(name) => {
            let _ = name.bytes();
        }
        Term::Tup(parts) => part_tags_are_names(parts),
        Term::Coll(comps) => item_tags_are_names(comps),
    }
}

#[cycle(tags)]
fn part_tags_are_names(parts: &Terms)
    ensures tags { PartsHaveTags (terms_of parts.now) }
{
    for part in parts.as_slice() {
        tags_are_names(part);
    }
}

#[cycle(tags)]
fn item_tags_are_names(comps: &Comps)
    ensures tags { ItemsHaveTags (comps_of comps.now) }
{
    for comp in comps.as_slice() {
        tags_are_names(&comp.item);
    }
}

#[cycle(widths)]
#[tactic(auto, using(lois_base::proofs::Lists::parts_counted))]
fn has_usual_widths(term: &Term) -> bool
    ensures exact { IsTrue result ↔ HasBoundedWidths (tree term.now) }
{
    match term {
        Term::Var(_) => true,
        Term::Tag(_) => true,
        Term::Tup(parts) => {
            LEAST_WIDTH <= parts.len()
                && parts.len() <= GREATEST_WIDTH
                && parts_have_usual_widths(parts)
        }
        Term::Coll(comps) => items_have_usual_widths(comps),
    }
}

#[cycle(widths)]
fn parts_have_usual_widths(parts: &Terms) -> bool
    ensures exact { IsTrue result ↔ PartsHaveBoundedWidths (terms_of parts.now) }
{
    for part in parts.as_slice() {
        if !has_usual_widths(part) {
            return false;
        }
    }
    true
}

#[cycle(widths)]
fn items_have_usual_widths(comps: &Comps) -> bool
    ensures exact { IsTrue result ↔ ItemsHaveBoundedWidths (comps_of comps.now) }
{
    for comp in comps.as_slice() {
        if !has_usual_widths(&comp.item) {
            return false;
        }
    }
    true
}

#[cycle(operators)]
fn admits_term(term: &Term, ordered: bool) -> bool
    ensures exact { IsTrue result ↔ AdmitsTerm ordered (tree term.now) }
{
    match term {
        Term::Var(_) => true,
        Term::Tag(_) => true,
        Term::Tup(parts) => admits_parts(parts, ordered),
        Term::Coll(comps) => admits_items(comps, ordered),
    }
}

#[cycle(operators)]
fn admits_parts(parts: &Terms, ordered: bool) -> bool
    ensures exact { IsTrue result ↔ AdmitsParts ordered (terms_of parts.now) }
{
    for part in parts.as_slice() {
        if !admits_term(part, ordered) {
            return false;
        }
    }
    true
}

#[cycle(operators)]
fn admits_items(comps: &Comps, ordered: bool) -> bool
    ensures exact { IsTrue result ↔ AdmitsItems ordered (comps_of comps.now) }
{
    for comp in comps.as_slice() {
        if !admits_comp(comp, ordered) {
            return false;
        }
    }
    true
}

#[cycle(operators)]
fn admits_comp(comp: &Comp, ordered: bool) -> bool
    ensures exact { IsTrue result ↔ AdmitsComp ordered (comp_of comp.now) }
{
    admits_guard(&comp.guard, ordered) && admits_term(&comp.item, ordered)
}

fn admits_guard(guard: &Constraint, ordered: bool) -> bool
    ensures exact { IsTrue result ↔ AdmitsConstraint ordered guard.now }
{
    guard
        .as_slice()
        .iter()
        .all(|cube| admits_cube(cube, ordered))
}

fn admits_cube(cube: &Cube, ordered: bool) -> bool
    ensures exact { IsTrue result ↔ AdmitsCube ordered cube.now }
{
    cube.as_slice().iter().all(|lit| admits_op(lit.op, ordered))
}

fn admits_op(op: Op, ordered: bool) -> bool
    ensures exact { result ≡ is_admitted ordered op }
{
    match op {
        Op::Lt | Op::AtMost => ordered,
        Op::Eq | Op::Ne => true,
    }
}

#[cycle(strict)]
fn is_strict_term(term: &Term) -> bool
    ensures exact { IsTrue result ↔ IsStrictTerm (tree term.now) }
{
    match term {
        Term::Var(_) => true,
        Term::Tag(_) => true,
        Term::Tup(parts) => are_strict_parts(parts),
        Term::Coll(comps) => are_strict_items(comps),
    }
}

#[cycle(strict)]
fn are_strict_parts(parts: &Terms) -> bool
    ensures exact { IsTrue result ↔ PartsAreStrict (terms_of parts.now) }
{
    for part in parts.as_slice() {
        if !is_strict_term(part) {
            return false;
        }
    }
    true
}

#[cycle(strict)]
fn are_strict_items(comps: &Comps) -> bool
    ensures exact { IsTrue result ↔ ItemsAreStrict (comps_of comps.now) }
{
    for comp in comps.as_slice() {
        if !is_strict_comp(comp) {
            return false;
        }
    }
    true
}

#[cycle(strict)]
fn is_strict_comp(comp: &Comp) -> bool
    ensures exact { IsTrue result ↔ CompIsStrict (comp_of comp.now) }
{
    is_strict_guard(&comp.guard) && is_strict_term(&comp.item)
}

fn is_strict_guard(guard: &Constraint) -> bool
    ensures exact { IsTrue result ↔ IsStrictConstraint guard.now }
{
    guard.as_slice().iter().all(|cube| is_strict_cube(cube))
}

fn is_strict_cube(cube: &Cube) -> bool
    ensures exact { IsTrue result ↔ IsStrictCube cube.now }
{
    cube.as_slice().iter().all(|lit| is_strict_op(lit.op))
}

fn is_strict_op(op: Op) -> bool
    ensures exact { result ≡ is_strict op }
{
    match op {
        Op::Eq | Op::Ne | Op::Lt => true,
        Op::AtMost => false,
    }
}

#[cycle(brackets)]
fn opens_at_most(term: &Term, brackets: usize) -> bool
    ensures exact { IsTrue result ↔ (depth (tree term.now) ≤ brackets) }
{
    match term {
        Term::Var(_) => true,
        Term::Tag(_) => true,
        Term::Tup(parts) => 0 < brackets && parts_open_at_most(parts, brackets - 1),
        Term::Coll(comps) => 0 < brackets && items_open_at_most(comps, brackets - 1),
    }
}

#[cycle(brackets)]
fn parts_open_at_most(parts: &Terms, brackets: usize) -> bool
    ensures exact { IsTrue result ↔ (depth_of_terms parts.now ≤ brackets) }
{
    for part in parts.as_slice() {
        if !opens_at_most(part, brackets) {
            return false;
        }
    }
    true
}

#[cycle(brackets)]
fn items_open_at_most(comps: &Comps, brackets: usize) -> bool
    ensures exact { IsTrue result ↔ (depth_of_comps comps.now ≤ brackets) }
{
    for comp in comps.as_slice() {
        if !opens_at_most(&comp.item, brackets) {
            return false;
        }
    }
    true
}

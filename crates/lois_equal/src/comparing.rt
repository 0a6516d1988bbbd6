//! Results, whose lines of two names are compared case by case.

ghost use Rattle.std.specs.Prelude.{◌≡◌, ◌+◌, ◌<◌, ◌^◌, length, IfOk};
ghost use Rattle.std.specs.List.{All};
ghost use Rattle.lois_base.specs.Fits.{ConstraintFits};
ghost use Rattle.lois_base.specs.Over.{IsOver};
ghost use Rattle.lois_base.specs.Tree.{tree};
ghost use Rattle.lois_answers.specs.CaseView.{case_of};
ghost use Rattle.lois_answers.specs.Sound.{IsSound, IsSoundCase};
ghost use Rattle.lois_deciders.specs.OnlyAsked.{HasOnlyAsked};
ghost use Rattle.lois_ranks.specs.Ranks.{AreRanks};
ghost use Rattle.lois_equal.specs.Comparing.{AreComparable, IsComparison, side_name, IfDiffer};
ghost use Rattle.lois_equal.specs.ComparedCases.{IsReasonOrNone, HasFaultNumber, IsFirstReason, IsFirstDifference, DecidesDeterminism, LinesAgreeOrDiffer};
ghost use Rattle.lois_equal.specs.Differences.{IfDiffers, AreBounded};

use crate::differing::{Difference, Equality, equal};
use lois_answers::{Case, Cases, Results};
use lois_automata::{Verdict, check_automaton, check_deterministic};
use lois_base::{Constraint, Decider, Name, NoMemory, Structure, Term};
use lois_deciders::Chosen;
use std::alloc::Global;

/// Why a case can't be compared, with a name and the case's number, from 1.
#[derive(Drop)]
pub enum ComparisonFault {
    // there is no line of that name
    NoLine(Name, usize),
    // at some choice that the case admits the line holds no deterministic automaton
    NotDeterministic(Name, usize),
}

/// What is found where the lines of two names are compared.
#[derive(Drop)]
pub enum Comparison {
    Alike,
    // the number of the first case in which they differ, from 1, and the name of the line that accepts
    Differ(usize, Difference, Name),
    Refused(ComparisonFault),
}

/// Whether the lines of the two names accept the same words in each case, at each choice that the case admits. All cases are
/// looked at before any is compared. Where a case has several lines of a name, the last one counts. Errors: `NoMemory`, also
/// where a level would pass the greatest usize.
pub fn compare<T: Structure>(
    alloc: Global,
    results: &Results,
    first: &Name,
    second: &Name,
    chosen: &mut Chosen,
) -> Result<Comparison, NoMemory>
    requires sound { IsSound results.now }
    requires atoms { T.ordered ≡ results.now.order }
    ensures comparison { IfOk result (IsComparison (length results.now.parameters) first.now second.now results.now.cases) }
    ensures usual { IfOk result (IfDiffer (λ d. AreBounded T.ordered d.word)) }
    ensures ranked { IfOk result (IfDiffer (λ d. AreRanks T.ordered d.sample)) }

    // whatever is answered
    ensures only_asked { HasOnlyAsked (λ b. (⟦<dyn Decider as Decider>⟧ b.vtable).kind_of b.value) (λ b. (⟦<dyn Decider as Decider>⟧ b.vtable).questions b.value) chosen.old chosen.new }
{
    let size = results.parameters.len();
    let refused = first_incomparable::<T>(alloc, &results.cases, size, first, second, chosen)?;
    if let Some(unfit) = refused {
        return Ok(Comparison::Refused(unfit));
    }
    first_difference::<T>(alloc, &results.cases, size, first, second, chosen)
}

// Why the first case can't be compared that can't.
fn first_incomparable<T: Structure>(
    alloc: Global,
    cases: &Cases,
    size: usize,
    first: &Name,
    second: &Name,
    chosen: &mut Chosen,
) -> Result<Option<ComparisonFault>, NoMemory>
    requires { All (IsSoundCase T.ordered size) cases.now }
    ensures first { IfOk result (IsFirstReason size first.now second.now cases.now) }
    ensures only_asked { HasOnlyAsked (λ b. (⟦<dyn Decider as Decider>⟧ b.vtable).kind_of b.value) (λ b. (⟦<dyn Decider as Decider>⟧ b.vtable).questions b.value) chosen.old chosen.new }
{
    for (index, case) in cases.as_slice().iter().enumerate() {
        let found = incomparable_in::<T>(alloc, case, index + 1, size, first, second, chosen)?;
        if let Some(unfit) = found {
            return Ok(Some(unfit));
        }
    }
    Ok(None)
}

// Why the case can't be compared, if it can't.
fn incomparable_in<T: Structure>(
    alloc: Global,
    case: &Case,
    number: usize,
    size: usize,
    first: &Name,
    second: &Name,
    chosen: &mut Chosen,
) -> Result<Option<ComparisonFault>, NoMemory>
    requires { IsSoundCase T.ordered size (case_of case.now) }
    ensures reason { IfOk result (IsReasonOrNone size first.now second.now (case_of case.now)) }
    ensures number { IfOk result (HasFaultNumber number) }
    ensures only_asked { HasOnlyAsked (λ b. (⟦<dyn Decider as Decider>⟧ b.vtable).kind_of b.value) (λ b. (⟦<dyn Decider as Decider>⟧ b.vtable).questions b.value) chosen.old chosen.new }
{
    let Some(one) = case.lines.last_named(first) else {
        let name = first.copy(alloc)?;
        return Ok(Some(ComparisonFault::NoLine(name, number)));
    };
    let Some(other) = case.lines.last_named(second) else {
        let name = second.copy(alloc)?;
        return Ok(Some(ComparisonFault::NoLine(name, number)));
    };
    if !is_deterministic::<T>(alloc, &one.term, &case.when, size, chosen)? {
        let name = first.copy(alloc)?;
        return Ok(Some(ComparisonFault::NotDeterministic(name, number)));
    }
    if !is_deterministic::<T>(alloc, &other.term, &case.when, size, chosen)? {
        let name = second.copy(alloc)?;
        return Ok(Some(ComparisonFault::NotDeterministic(name, number)));
    }
    Ok(None)
}

/// Whether the value is a deterministic automaton at each choice that `under` admits. Errors: `NoMemory`, also where a level would
/// pass the greatest usize.
pub fn is_deterministic<T: Structure>(
    alloc: Global,
    t: &Term,
    under: &Constraint,
    size: usize,
    chosen: &mut Chosen,
) -> Result<bool, NoMemory>
    requires over { IsOver T.ordered size (tree t.now) }
    requires under { ConstraintFits size under.now }
    ensures answer { IfOk result (DecidesDeterminism size under.now (tree t.now)) }
    ensures only_asked { HasOnlyAsked (λ b. (⟦<dyn Decider as Decider>⟧ b.vtable).kind_of b.value) (λ b. (⟦<dyn Decider as Decider>⟧ b.vtable).questions b.value) chosen.old chosen.new }
{
    match check_automaton::<T>(alloc, t, under, size, chosen)? {
        Verdict::Fails(_) => return Ok(false),
        Verdict::Holds => (),
    }
    match check_deterministic::<T>(alloc, t, under, size, chosen)? {
        Verdict::Fails(_) => Ok(false),
        Verdict::Holds => Ok(true),
    }
}

// The first difference, of cases that can all be compared.
fn first_difference<T: Structure>(
    alloc: Global,
    cases: &Cases,
    size: usize,
    first: &Name,
    second: &Name,
    chosen: &mut Chosen,
) -> Result<Comparison, NoMemory>
    requires sound { All (IsSoundCase T.ordered size) cases.now }
    requires fit { All (AreComparable size first.now second.now) cases.now }
    ensures first { IfOk result (IsFirstDifference size first.now second.now cases.now) }
    ensures usual { IfOk result (IfDiffer (λ d. AreBounded T.ordered d.word)) }
    ensures ranked { IfOk result (IfDiffer (λ d. AreRanks T.ordered d.sample)) }
    ensures only_asked { HasOnlyAsked (λ b. (⟦<dyn Decider as Decider>⟧ b.vtable).kind_of b.value) (λ b. (⟦<dyn Decider as Decider>⟧ b.vtable).questions b.value) chosen.old chosen.new }
{
    for (index, case) in cases.as_slice().iter().enumerate() {
        let found = compare_lines::<T>(alloc, case, size, first, second, chosen)?;
        if let Equality::Differs(difference) = found {
            return differs(alloc, index + 1, difference, first, second);
        }
    }
    Ok(Comparison::Alike)
}

// The lines of one case.
fn compare_lines<T: Structure>(
    alloc: Global,
    case: &Case,
    size: usize,
    first: &Name,
    second: &Name,
    chosen: &mut Chosen,
) -> Result<Equality, NoMemory>
    requires sound { IsSoundCase T.ordered size (case_of case.now) }
    requires fit { AreComparable size first.now second.now (case_of case.now) }
    ensures equality { IfOk result (LinesAgreeOrDiffer size first.now second.now (case_of case.now)) }
    ensures usual { IfOk result (IfDiffers (λ d. AreBounded T.ordered d.word)) }
    ensures ranked { IfOk result (IfDiffers (λ d. AreRanks T.ordered d.sample)) }
    ensures only_asked { HasOnlyAsked (λ b. (⟦<dyn Decider as Decider>⟧ b.vtable).kind_of b.value) (λ b. (⟦<dyn Decider as Decider>⟧ b.vtable).questions b.value) chosen.old chosen.new }
{
    let Some(one) = case.lines.last_named(first) else {
        unreachable!()
    };
    let Some(other) = case.lines.last_named(second) else {
        unreachable!()
    };
    equal::<T>(alloc, &one.term, &other.term, &case.when, size, chosen)
}

// The difference in the case of that number, with the name of the line that accepts.
fn differs(
    alloc: Global,
    number: usize,
    difference: Difference,
    first: &Name,
    second: &Name,
) -> Result<Comparison, NoMemory>
    ensures { IfOk result (λ r. r ≡ Comparison.Differ number difference (side_name difference.left first.now second.now)) }
{
    let accepting = if difference.left { first } else { second };
    let name = accepting.copy(alloc)?;
    Ok(Comparison::Differ(number, difference, name))
}

//! The cases of one results with those of another.

ghost use Rattle.std.specs.Prelude.{◌≡◌, ◌<◌, length, IfOk, IfSome};
ghost use Rattle.std.specs.List.{All};
ghost use Rattle.lois_base.specs.Fits.{ConstraintFits};
ghost use Rattle.lois_answers.specs.CaseView.{case_of};
ghost use Rattle.lois_answers.specs.Sound.{IsSoundCase};
ghost use Rattle.lois_cases.specs.Cases.{CaseFits};
ghost use Rattle.lois_deciders.specs.OnlyAsked.{HasOnlyAsked};
ghost use Rattle.lois_same.specs.Rows.{IsRowContrastOrNone, IsEntailedCase, IsCasesContrastOrNone};

use crate::contrasts::Contrast;
use crate::lines::{LinesContrast, compare_pair};
use lois_answers::{Case, Cases};
use lois_base::{Constraint, Decider, NoMemory, Structure};
use lois_cases::{Holding, find_case};
use lois_deciders::Chosen;
use std::alloc::Global;

/// How the lines of a case differ from those of another one, of that number, from 1.
#[derive(Drop)]
struct RowContrast {
    second: usize,
    contrast: LinesContrast,
}

/// How the lines of two cases of the one and of the other differ at some choice at which both hold, if there are such.
pub(crate) fn compare_cases<T: Structure>(
    alloc: Global,
    cases: &Cases,
    others: &Cases,
    size: usize,
    chosen: &mut Chosen,
) -> Result<Option<Contrast>, NoMemory>
    requires first { All (IsSoundCase T.ordered size) cases.now }
    requires second { All (IsSoundCase T.ordered size) others.now }
    ensures contrast { IfOk result (IsCasesContrastOrNone size cases.now others.now) }
    ensures only_asked { HasOnlyAsked (λ b. (⟦<dyn Decider as Decider>⟧ b.vtable).kind_of b.value) (λ b. (⟦<dyn Decider as Decider>⟧ b.vtable).questions b.value) chosen.old chosen.new }
{
    for (index, case) in cases.as_slice().iter().enumerate() {
        let found = compare_row::<T>(alloc, case, others, size, chosen)?;
        if let Some(row) = found {
            return Ok(Some(Contrast {
                first: index + 1,
                second: row.second,
                sample: row.contrast.sample,
                detail: row.contrast.detail,
            }));
        }
    }
    Ok(None)
}

// The same of one case. Where one of the others holds wherever it does, no further one has to be looked at: none holds beside that one.
fn compare_row<T: Structure>(
    alloc: Global,
    case: &Case,
    others: &Cases,
    size: usize,
    chosen: &mut Chosen,
) -> Result<Option<RowContrast>, NoMemory>
    requires first { IsSoundCase T.ordered size (case_of case.now) }
    requires second { All (IsSoundCase T.ordered size) others.now }
    ensures contrast { IfOk result (IsRowContrastOrNone size others.now (case_of case.now)) }
    ensures only_asked { HasOnlyAsked (λ b. (⟦<dyn Decider as Decider>⟧ b.vtable).kind_of b.value) (λ b. (⟦<dyn Decider as Decider>⟧ b.vtable).questions b.value) chosen.old chosen.new }
{
    match find_entailed(alloc, &case.when, others, size, chosen)? {
        Some(index) => compare_with_one::<T>(alloc, case, others, index, size, chosen),
        None => compare_with_all::<T>(alloc, case, others, size, chosen),
    }
}

// The index of a case that holds wherever the constraint does. It's looked for at one sample alone.
fn find_entailed(
    alloc: Global,
    when: &Constraint,
    cases: &Cases,
    size: usize,
    chosen: &mut Chosen,
) -> Result<Option<usize>, NoMemory>
    requires when { ConstraintFits size when.now }
    requires cases { All (CaseFits size) cases.now }
    ensures entailed { IfOk result (λ o. IfSome o (IsEntailedCase size when.now cases.now)) }
    ensures below { IfOk result (λ o. IfSome o (λ i. i < length cases.now)) }
    ensures only_asked { HasOnlyAsked (λ b. (⟦<dyn Decider as Decider>⟧ b.vtable).kind_of b.value) (λ b. (⟦<dyn Decider as Decider>⟧ b.vtable).questions b.value) chosen.old chosen.new }
{
    let Some(sample) = chosen.ask(alloc, when, size)? else {
        return Ok(None);
    };
    let Holding::Once(number) = find_case(cases, &sample) else {
        return Ok(None);
    };
    let case = &cases.as_slice()[number - 1];
    match chosen.entails(alloc, when, &case.when, size)? {
        Some(_) => Ok(None),
        None => Ok(Some(number - 1)),
    }
}

// The case with the one at the index, which holds wherever it does.
fn compare_with_one<T: Structure>(
    alloc: Global,
    case: &Case,
    others: &Cases,
    index: usize,
    size: usize,
    chosen: &mut Chosen,
) -> Result<Option<RowContrast>, NoMemory>
    requires first { IsSoundCase T.ordered size (case_of case.now) }
    requires second { All (IsSoundCase T.ordered size) others.now }
    requires entailed { IsEntailedCase size case.now.when others.now index }
    requires below { index < length others.now }
    ensures contrast { IfOk result (IsRowContrastOrNone size others.now (case_of case.now)) }
    ensures only_asked { HasOnlyAsked (λ b. (⟦<dyn Decider as Decider>⟧ b.vtable).kind_of b.value) (λ b. (⟦<dyn Decider as Decider>⟧ b.vtable).questions b.value) chosen.old chosen.new }
{
    let other = &others.as_slice()[index];
    match compare_pair::<T>(alloc, case, other, size, chosen)? {
        Some(contrast) => Ok(Some(RowContrast {
            second: index + 1,
            contrast,
        })),
        None => Ok(None),
    }
}

// The case with each of the others.
fn compare_with_all<T: Structure>(
    alloc: Global,
    case: &Case,
    others: &Cases,
    size: usize,
    chosen: &mut Chosen,
) -> Result<Option<RowContrast>, NoMemory>
    requires first { IsSoundCase T.ordered size (case_of case.now) }
    requires second { All (IsSoundCase T.ordered size) others.now }
    ensures contrast { IfOk result (IsRowContrastOrNone size others.now (case_of case.now)) }
    ensures only_asked { HasOnlyAsked (λ b. (⟦<dyn Decider as Decider>⟧ b.vtable).kind_of b.value) (λ b. (⟦<dyn Decider as Decider>⟧ b.vtable).questions b.value) chosen.old chosen.new }
{
    for (index, other) in others.as_slice().iter().enumerate() {
        let found = compare_pair::<T>(alloc, case, other, size, chosen)?;
        if let Some(contrast) = found {
            return Ok(Some(RowContrast {
                second: index + 1,
                contrast,
            }));
        }
    }
    Ok(None)
}

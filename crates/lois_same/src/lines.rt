//! Whether two cases have the same lines.

ghost use Rattle.std.specs.Prelude.{◌≡◌, length, IfOk, IfSome, IsNone, Some};
ghost use Rattle.lois_base.specs.Fits.{ConstraintFits};
ghost use Rattle.lois_answers.specs.CaseView.{case_of};
ghost use Rattle.lois_answers.specs.LineView.{line_of};
ghost use Rattle.lois_answers.specs.Sound.{IsSoundLine, IsSoundCase};
ghost use Rattle.lois_deciders.specs.OnlyAsked.{HasOnlyAsked};
ghost use Rattle.lois_deciders.specs.Satisfaction.{IsConstraintSample};
ghost use Rattle.std.specs.List.{All};
ghost use Rattle.lois_same.specs.Rows.{IsLineContrastOrNone, AreLinesContrastOrNone, IsPairContrastOrNone, line_contrast, names_contrast};
ghost use Rattle.lois_same.specs.declared.contrasts.Detail.{Detail};
ghost use Rattle.lois_same.specs.declared.contrasts.Detail.TheVariants.{Count};

use crate::contrasts::Detail;
use crate::values::{ValueContrast, compare_values};
use lois_answers::{Case, Line, Lines};
use lois_base::{Decider, Name, NoMemory, Numbers, Structure};
use lois_deciders::{Chosen, SampledConstraint};
use std::alloc::Global;

/// How the lines of two cases differ, at the first numbers of a sample.
#[derive(Drop)]
pub(crate) struct LinesContrast {
    pub sample: Numbers,
    pub detail: Detail,
}

/// How the lines of two cases differ at some choice at which both hold, if they do.
pub(crate) fn compare_pair<T: Structure>(
    alloc: Global,
    first: &Case,
    second: &Case,
    size: usize,
    chosen: &mut Chosen,
) -> Result<Option<LinesContrast>, NoMemory>
    requires first { IsSoundCase T.ordered size (case_of first.now) }
    requires second { IsSoundCase T.ordered size (case_of second.now) }
    ensures contrast { IfOk result (IsPairContrastOrNone size (case_of first.now) (case_of second.now)) }
    ensures only_asked { HasOnlyAsked (λ b. (⟦<dyn Decider as Decider>⟧ b.vtable).kind_of b.value) (λ b. (⟦<dyn Decider as Decider>⟧ b.vtable).questions b.value) chosen.old chosen.new }
{
    match chosen.meet(alloc, &first.when, &second.when, size)? {
        Some(both) => compare_lines::<T>(alloc, &first.lines, &second.lines, &both, size, chosen),
        None => Ok(None),
    }
}

// The same of lines, where a constraint holds that has a sample.
fn compare_lines<T: Structure>(
    alloc: Global,
    lines: &Lines,
    others: &Lines,
    under: &SampledConstraint,
    size: usize,
    chosen: &mut Chosen,
) -> Result<Option<LinesContrast>, NoMemory>
    requires first { All (IsSoundLine T.ordered size) lines.now }
    requires second { All (IsSoundLine T.ordered size) others.now }
    requires under { ConstraintFits size under.now.constraint }
    requires sample { IsConstraintSample size under.now.constraint under.now.sample }
    ensures contrast { IfOk result (AreLinesContrastOrNone size under.now.constraint lines.now others.now) }
    ensures only_asked { HasOnlyAsked (λ b. (⟦<dyn Decider as Decider>⟧ b.vtable).kind_of b.value) (λ b. (⟦<dyn Decider as Decider>⟧ b.vtable).questions b.value) chosen.old chosen.new }
{
    for (index, line) in lines.as_slice().iter().enumerate() {
        let Some(other) = others.get(index) else {
            return contrast_counts(alloc, lines, others, under);
        };
        let found = compare_line::<T>(alloc, index + 1, line, other, under, size, chosen)?;
        if let Some(contrast) = found {
            return Ok(Some(contrast));
        }
    }
    if lines.len() < others.len() {
        return contrast_counts(alloc, lines, others, under);
    }
    Ok(None)
}

// The two have different numbers of lines.
fn contrast_counts(
    alloc: Global,
    lines: &Lines,
    others: &Lines,
    under: &SampledConstraint,
) -> Result<Option<LinesContrast>, NoMemory>
    ensures sample { IfOk result (λ o. IfSome o (λ d. d.sample ≡ under.now.sample)) }
    ensures detail { IfOk result (λ o. IfSome o (λ d. d.detail ≡ Count (length lines.now) (length others.now))) }
    ensures some { IfOk result (λ o. IsNone o → ⊥) }
{
    Ok(Some(LinesContrast {
        sample: under.sample.copy(alloc)?,
        detail: Detail::Count(lines.len(), others.len()),
    }))
}

// How two lines of that number differ, if they do: names first, then values.
fn compare_line<T: Structure>(
    alloc: Global,
    number: usize,
    line: &Line,
    other: &Line,
    under: &SampledConstraint,
    size: usize,
    chosen: &mut Chosen,
) -> Result<Option<LinesContrast>, NoMemory>
    requires first { IsSoundLine T.ordered size (line_of line.now) }
    requires second { IsSoundLine T.ordered size (line_of other.now) }
    requires under { ConstraintFits size under.now.constraint }
    requires sample { IsConstraintSample size under.now.constraint under.now.sample }
    ensures contrast { IfOk result (IsLineContrastOrNone size under.now.constraint number (line_of line.now) (line_of other.now)) }
    ensures only_asked { HasOnlyAsked (λ b. (⟦<dyn Decider as Decider>⟧ b.vtable).kind_of b.value) (λ b. (⟦<dyn Decider as Decider>⟧ b.vtable).questions b.value) chosen.old chosen.new }
{
    if line.name == other.name {
        let found = compare_values::<T>(
            alloc,
            &line.term,
            &other.term,
            &under.constraint,
            size,
            chosen,
        )?;
        return match found {
            Some(contrast) => contrast_values(alloc, number, line, contrast),
            None => Ok(None),
        };
    }
    contrast_names(alloc, number, line, other, under)
}

// The two have different names.
fn contrast_names(
    alloc: Global,
    number: usize,
    line: &Line,
    other: &Line,
    under: &SampledConstraint,
) -> Result<Option<LinesContrast>, NoMemory>
    ensures { IfOk result (λ o. o ≡ Some (names_contrast number line.now.name other.now.name under.now.sample)) }
{
    let name = line.name.copy(alloc)?;
    let other_name = other.name.copy(alloc)?;
    let sample = under.sample.copy(alloc)?;
    Ok(Some(LinesContrast {
        sample,
        detail: Detail::Names(number, name, other_name),
    }))
}

// The two have one name and different values.
fn contrast_values(
    alloc: Global,
    number: usize,
    line: &Line,
    contrast: ValueContrast,
) -> Result<Option<LinesContrast>, NoMemory>
    ensures { IfOk result (λ o. o ≡ Some (line_contrast number line.now.name contrast)) }
{
    let name = line.name.copy(alloc)?;
    Ok(Some(line_contrast(number, name, contrast)))
}

fn line_contrast(number: usize, name: Name, contrast: ValueContrast) -> LinesContrast
    ensures { result ≡ line_contrast number name contrast }
{
    match contrast {
        ValueContrast::Values(sample) => LinesContrast {
            sample,
            detail: Detail::Values(number, name),
        },
        ValueContrast::Member(sample, item, first) => LinesContrast {
            sample,
            detail: Detail::Member(number, name, item, first),
        },
    }
}

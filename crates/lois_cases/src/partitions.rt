//! Whether exactly one case holds at each choice.

ghost use Rattle.std.specs.Prelude.{◌≡◌, ◌<◌, length, map, IfOk, IfSome, IsNone};
ghost use Rattle.std.specs.List.{All};
ghost use Rattle.lois_base.specs.Fits.{ConstraintFits};
ghost use Rattle.lois_answers.specs.CaseView.{case_of};
ghost use Rattle.lois_deciders.specs.Conjunction.{AreInconsistent};
ghost use Rattle.lois_deciders.specs.OnlyAsked.{HasOnlyAsked};
ghost use Rattle.lois_deciders.specs.Satisfaction.{IsConstraintSample};
ghost use Rattle.lois_deciders.specs.Satisfiability.{ConstraintIsSatisfiable};
ghost use Rattle.lois_cases.specs.Cases.{CaseFits};
ghost use Rattle.lois_cases.specs.Partitions.{IsPartitioned, IsCommonSample, IsMeetingOrNone, IsOverlapOrNone, HoldsWhereNone, IsGapOrNone};

use lois_answers::{Case, Cases};
use lois_base::{Constraint, Decider, NoMemory, Numbers};
use lois_constraint::{and, and_not};
use lois_deciders::Chosen;
use std::alloc::Global;

/// Whether cases are a partition of the choices; otherwise where two of them hold, by their numbers, from 1, or none does.
#[derive(Drop)]
pub enum Partition {
    Whole,
    // the earlier one first
    Overlap(usize, usize, Numbers),
    // no two of them ever hold
    Gap(Numbers),
}

// A case, by its index, that holds at the sample.
#[derive(Drop)]
struct Meeting {
    index: usize,
    sample: Numbers,
}

// Two cases, by their numbers, that hold at the sample.
#[derive(Drop)]
struct MeetingPair {
    first: usize,
    second: usize,
    sample: Numbers,
}

/// Whether exactly one case holds at each choice of `size` atoms; otherwise a sample of `size` numbers at which two or none do.
/// Errors: `NoMemory`.
pub fn check_partition(
    alloc: Global,
    cases: &Cases,
    size: usize,
    chosen: &mut Chosen,
) -> Result<Partition, NoMemory>
    requires { All (CaseFits size) cases.now }
    ensures partition { IfOk result (IsPartitioned size cases.now) }

    // whatever is answered
    ensures only_asked { HasOnlyAsked (λ b. (⟦<dyn Decider as Decider>⟧ b.vtable).kind_of b.value) (λ b. (⟦<dyn Decider as Decider>⟧ b.vtable).questions b.value) chosen.old chosen.new }
{
    let all = cases.as_slice();
    if let Some(pair) = find_overlap(alloc, all, size, chosen)? {
        return Ok(Partition::Overlap(pair.first, pair.second, pair.sample));
    }
    match find_gap(alloc, all, size, chosen)? {
        Some(sample) => Ok(Partition::Gap(sample)),
        None => Ok(Partition::Whole),
    }
}

// Two cases that hold at one choice.
fn find_overlap(
    alloc: Global,
    cases: &[Case],
    size: usize,
    chosen: &mut Chosen,
) -> Result<Option<MeetingPair>, NoMemory>
    requires { All (CaseFits size) (map case_of cases.now) }
    ensures overlap { IfOk result (IsOverlapOrNone size (map case_of cases.now)) }
    ensures only_asked { HasOnlyAsked (λ b. (⟦<dyn Decider as Decider>⟧ b.vtable).kind_of b.value) (λ b. (⟦<dyn Decider as Decider>⟧ b.vtable).questions b.value) chosen.old chosen.new }
{
    for (index, case) in cases.iter().enumerate() {
        let later = &cases[index + 1..];
        let found = find_meeting(alloc, &case.when, later, size, chosen)?;
        if let Some(meeting) = found {
            return Ok(Some(MeetingPair {
                first: index + 1,
                second: index + meeting.index + 2,
                sample: meeting.sample,
            }));
        }
    }
    Ok(None)
}

// The first of the cases that holds where `when` does.
fn find_meeting(
    alloc: Global,
    when: &Constraint,
    cases: &[Case],
    size: usize,
    chosen: &mut Chosen,
) -> Result<Option<Meeting>, NoMemory>
    requires when { ConstraintFits size when.now }
    requires cases { All (CaseFits size) (map case_of cases.now) }
    ensures meeting { IfOk result (IsMeetingOrNone size when.now (map case_of cases.now)) }
    ensures below { IfOk result (λ o. IfSome o (λ m. m.index < length cases.now)) }
    ensures only_asked { HasOnlyAsked (λ b. (⟦<dyn Decider as Decider>⟧ b.vtable).kind_of b.value) (λ b. (⟦<dyn Decider as Decider>⟧ b.vtable).questions b.value) chosen.old chosen.new }
{
    for (index, case) in cases.iter().enumerate() {
        let found = find_common_sample(alloc, when, &case.when, size, chosen)?;
        if let Some(sample) = found {
            return Ok(Some(Meeting { index, sample }));
        }
    }
    Ok(None)
}

// Numbers at which both hold. Single cubes are asked about as they are written: nearly all pairs exclude each other, and pruning what
// both say costs more than the question.
fn find_common_sample(
    alloc: Global,
    a: &Constraint,
    b: &Constraint,
    size: usize,
    chosen: &mut Chosen,
) -> Result<Option<Numbers>, NoMemory>
    requires first { ConstraintFits size a.now }
    requires second { ConstraintFits size b.now }
    ensures sample { IfOk result (λ o. IfSome o (IsCommonSample size a.now b.now)) }
    ensures none { IfOk result (λ o. IsNone o → AreInconsistent size a.now b.now) }
    ensures only_asked { HasOnlyAsked (λ b. (⟦<dyn Decider as Decider>⟧ b.vtable).kind_of b.value) (λ b. (⟦<dyn Decider as Decider>⟧ b.vtable).questions b.value) chosen.old chosen.new }
{
    if a.len() == 1 && b.len() == 1 {
        let both = and(alloc, a, b)?;
        return ask_for_numbers(alloc, &both, size, chosen);
    }
    match chosen.meet(alloc, a, b, size)? {
        Some(both) => Ok(Some(both.sample)),
        None => Ok(None),
    }
}

// Numbers at which the constraint holds.
fn ask_for_numbers(
    alloc: Global,
    c: &Constraint,
    size: usize,
    chosen: &mut Chosen,
) -> Result<Option<Numbers>, NoMemory>
    requires { ConstraintFits size c.now }
    ensures sample { IfOk result (λ o. IfSome o (IsConstraintSample size c.now)) }
    ensures none { IfOk result (λ o. IsNone o → ConstraintIsSatisfiable size c.now → ⊥) }
    ensures only_asked { HasOnlyAsked (λ b. (⟦<dyn Decider as Decider>⟧ b.vtable).kind_of b.value) (λ b. (⟦<dyn Decider as Decider>⟧ b.vtable).questions b.value) chosen.old chosen.new }
{
    match chosen.ask(alloc, c, size)? {
        Some(sample) => Ok(Some(Numbers::from_vec(sample))),
        None => Ok(None),
    }
}

// Numbers at which no case holds.
fn find_gap(
    alloc: Global,
    cases: &[Case],
    size: usize,
    chosen: &mut Chosen,
) -> Result<Option<Numbers>, NoMemory>
    requires { All (CaseFits size) (map case_of cases.now) }
    ensures gap { IfOk result (IsGapOrNone size (map case_of cases.now)) }
    ensures only_asked { HasOnlyAsked (λ b. (⟦<dyn Decider as Decider>⟧ b.vtable).kind_of b.value) (λ b. (⟦<dyn Decider as Decider>⟧ b.vtable).questions b.value) chosen.old chosen.new }
{
    let left = left_by(alloc, cases, size)?;
    ask_for_numbers(alloc, &left, size, chosen)
}

// Where no case holds.
fn left_by(alloc: Global, cases: &[Case], size: usize) -> Result<Constraint, NoMemory>
    requires { All (CaseFits size) (map case_of cases.now) }
    ensures truth { IfOk result (HoldsWhereNone (map case_of cases.now)) }
    ensures levels { IfOk result (ConstraintFits size) }
{
    let mut left = Constraint::always(alloc)?;
    for case in cases {
        left = and_not(alloc, &left, &case.when)?;
    }
    Ok(left)
}

//! The case that holds at a choice.

ghost use Rattle.std.specs.Prelude.{◌<◌, length, map, IfSome};
ghost use Rattle.std.specs.List.{All};
ghost use Rattle.lois_base.specs.Fits.{ConstraintFits};
ghost use Rattle.lois_base.specs.Truth.{sampled};
ghost use Rattle.lois_answers.specs.CaseView.{case_of};
ghost use Rattle.lois_cases.specs.Cases.{CaseFits};
ghost use Rattle.lois_cases.specs.Holding.{IsHolding, IsFirstHolding};

use lois_answers::{Case, Cases};

/// Which cases hold at a choice, by their numbers, from 1.
#[derive(Clone, Copy)]
pub enum Holding {
    Once(usize),
    Nowhere,
    // two that hold, the earlier one first
    Twice(usize, usize),
}

/// The case that holds where the parameters are the atoms that the numbers of the sample stand for.
pub fn find_case(cases: &Cases, sample: &[u64]) -> Holding
    requires { All (CaseFits (length sample.now)) cases.now }
    ensures { IsHolding (sampled sample.now) cases.now result }
{
    let all = cases.as_slice();
    let Some(first) = find_first(all, sample) else {
        return Holding::Nowhere;
    };
    match find_first(&all[first + 1..], sample) {
        None => Holding::Once(first + 1),
        Some(next) => Holding::Twice(first + 1, first + next + 2),
    }
}

// The index of the first case that holds.
fn find_first(cases: &[Case], sample: &[u64]) -> Option<usize>
    requires { All (CaseFits (length sample.now)) (map case_of cases.now) }
    ensures first { IsFirstHolding (sampled sample.now) (map case_of cases.now) result }
    ensures below { IfSome result (λ i. i < length cases.now) }
{
    for (index, case) in cases.iter().enumerate() {
        if case.when.at(sample) {
            return Some(index);
        }
    }
    None
}

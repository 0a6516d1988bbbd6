//! Where one more atom can stand among numbers: at one of them, or between two.

ghost use Rattle.std.specs.Prelude.{◌≡◌, ◌+◌, ◌<◌, ◌^◌, ◌∷◌, [], ◌++◌, length, map, IfOk, IfSome, IfNone, IsFalse};
ghost use Rattle.std.specs.List.{All};
ghost use Rattle.lois_base.specs.Atom.{Atom};
ghost use Rattle.lois_base.specs.Fits.{ConstraintFits};
ghost use Rattle.lois_base.specs.Truth.{holds, sampled};
ghost use Rattle.lois_deciders.specs.Satisfaction.{IsConstraintSample};
ghost use Rattle.lois_deciders.specs.Places.{raised_from};

use lois_base::{Constraint, NoMemory};
use std::alloc::Global;

// The numbers, and one of them again.
fn at_number(alloc: Global, sample: &[u64], number: u64) -> Result<Vec<u64>, NoMemory>
    ensures { IfOk result (λ r. r.items ≡ sample.now ++ number ∷ []) }
{
    let mut longer = Vec::from_slice(alloc, sample)?;
    longer.push(number)?;
    Ok(longer)
}

// The numbers, those from `number` on raised by one, and then that number.
fn before_number(alloc: Global, sample: &[u64], number: u64) -> Result<Vec<u64>, NoMemory>
    requires { All (λ i. i < 2 ^ 63) sample.now }
    ensures { IfOk result (λ r. r.items ≡ map (raised_from number) sample.now ++ number ∷ []) }
{
    let mut longer = Vec::with_capacity(alloc, sample.len())?;
    for other in sample {
        longer.push(if *other < number { *other } else { *other + 1 })?;
    }
    longer.push(number)?;
    Ok(longer)
}

/// The numbers with one more at which the constraint holds, or `None` where it holds with no atom at that level.
/// The numbers that were there may be others, but stand as they stood.
pub fn with_one_more(
    alloc: Global,
    sample: &[u64],
    c: &Constraint,
) -> Result<Option<Vec<u64>>, NoMemory>
    requires levels { ConstraintFits (length sample.now + 1) c.now }
    requires small { All (λ i. i < length sample.now) sample.now }
    ensures found { IfOk result (λ o. IfSome o (λ s. IsConstraintSample (length sample.now + 1) c.now s.items)) }
    ensures none { IfOk result (λ o. IfNone o ((a : Atom) → IsFalse (holds (sampled sample.now ++ a ∷ []) c.now))) }
{
    for place in 0..sample.len() + 1 {
        let number = place as u64;
        let same = at_number(alloc, sample, number)?;
        if c.at(&same) {
            return Ok(Some(same));
        }
        let between = before_number(alloc, sample, number)?;
        if c.at(&between) {
            return Ok(Some(between));
        }
    }
    Ok(None)
}

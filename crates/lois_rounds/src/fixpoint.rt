//! Rounds that are made until one leaves every member equivalent.

ghost use Rattle.std.specs.Prelude.{◌≡◌, ◌↔◌, Bool, IfOk, IfSome, IfNone};
ghost use Rattle.lois_rounds.specs.Families.{FamilyFits, AdmitsFamily, sizes};
ghost use Rattle.lois_rounds.specs.Rounds.{Changes, IsFirstUnchanged, LeavesEquivalent, LeadAlike, OnlyWeakens, OnlyStrengthens};

use crate::{Family, Round};
use lois_base::NoMemory;
use std::alloc::Global;

/// The first family, counted from `start`, that a round leaves equivalent. A round only makes members weaker.
pub fn grow<R: Round>(alloc: Global, round: &mut R, start: Family) -> Result<Family, NoMemory>
    requires { OnlyWeakens (R.leads round.old) }

    ensures first { IfOk result (IsFirstUnchanged (R.leads round.old) start) }
    ensures sizes { IfOk result (λ f. sizes f ≡ sizes start) }
    ensures fits { IfOk result FamilyFits }

    // The answer has `<` only where the round or the start has it.
    ensures operators { IfOk result (λ f. (ordered : Bool) → R.admits round.old ordered → AdmitsFamily ordered start → AdmitsFamily ordered f) }

    // No call changes what the round means, whatever this one answers.
    ensures same_leads { LeadAlike (R.leads round.old) (R.leads round.new) }
    ensures same_operators { (ordered : Bool) → R.admits round.old ordered ↔ R.admits round.new ordered }
{
    let mut family = start;
    'growing: while let Some(next) = advance(alloc, round, &family)? {
        family = next;
    }
    Ok(family)
}

/// The first family, counted from `start`, that a round leaves equivalent. A round only makes members stronger.
pub fn shrink<R: Round>(alloc: Global, round: &mut R, start: Family) -> Result<Family, NoMemory>
    requires { OnlyStrengthens (R.leads round.old) }

    ensures first { IfOk result (IsFirstUnchanged (R.leads round.old) start) }
    ensures sizes { IfOk result (λ f. sizes f ≡ sizes start) }
    ensures fits { IfOk result FamilyFits }

    // The answer has `<` only where the round or the start has it.
    ensures operators { IfOk result (λ f. (ordered : Bool) → R.admits round.old ordered → AdmitsFamily ordered start → AdmitsFamily ordered f) }

    // No call changes what the round means, whatever this one answers.
    ensures same_leads { LeadAlike (R.leads round.old) (R.leads round.new) }
    ensures same_operators { (ordered : Bool) → R.admits round.old ordered ↔ R.admits round.new ordered }
{
    let mut family = start;
    'shrinking: while let Some(next) = advance(alloc, round, &family)? {
        family = next;
    }
    Ok(family)
}

// One round. The slices are taken for what their clause tells of both families: their levels are below their sizes.
fn advance<R: Round>(
    alloc: Global,
    round: &mut R,
    family: &Family,
) -> Result<Option<Family>, NoMemory>
    ensures fits { FamilyFits family.now }
    ensures unchanged { IfOk result (λ o. IfNone o (LeavesEquivalent (R.leads round.old) family.now)) }
    ensures changed { IfOk result (λ o. IfSome o (Changes (R.leads round.old) family.now)) }
    ensures operators { IfOk result (λ o. IfSome o (λ f. (ordered : Bool) → R.admits round.old ordered → AdmitsFamily ordered family.now → AdmitsFamily ordered f)) }
    ensures same_leads { LeadAlike (R.leads round.old) (R.leads round.new) }
    ensures same_operators { (ordered : Bool) → R.admits round.old ordered ↔ R.admits round.new ordered }
{
    let _ = family.as_slice();
    match round.next(alloc, family)? {
        None => Ok(None),
        Some(next) => {
            let _ = next.as_slice();
            Ok(Some(next))
        }
    }
}

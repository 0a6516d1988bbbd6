//! Rounds: what makes a family of a family.

ghost use Rattle.std.specs.Prelude.{◌≡◌, Bool, IfOk, IfSome, IsNone, ◌↔◌};
ghost use Rattle.lois_rounds.specs.Families.{FamilyD, AdmitsFamily, sizes};
ghost use Rattle.lois_rounds.specs.Rounds.{LeavesEquivalent, LeadAlike, RespectsEquivalence};

use crate::Family;
use lois_base::NoMemory;
use std::alloc::Global;

/// Makes a family of a family, of the same sizes.
pub trait Round {
    // whether a family may be led to a family by one round
    ghost leads: { Self → FamilyD → FamilyD → Type 0 };

    // whether what the round brings in has only operators of atoms with `<`, for true, or of atoms without it
    ghost admits: { Self → Bool → Type 0 };

    /// The family after one round, or `None` where the round leaves every member equivalent.
    fn next(&mut self, alloc: Global, family: &Family) -> Result<Option<Family>, NoMemory>
        ensures none { IfOk result (λ o. IsNone o ↔ LeavesEquivalent (leads self.old) family.now) }
        ensures led { IfOk result (λ o. IfSome o (leads self.old family.now)) }
        ensures sizes { IfOk result (λ o. IfSome o (λ f. sizes f ≡ sizes family.now)) }

        // The answer has `<` only where the round or the family has it.
        ensures operators { IfOk result (λ o. IfSome o (λ f. (ordered : Bool) → admits self.old ordered → AdmitsFamily ordered family.now → AdmitsFamily ordered f)) }

        // No call changes what the round means, whatever it answers.
        ensures same_leads { LeadAlike (leads self.old) (leads self.new) }
        ensures same_operators { (ordered : Bool) → admits self.old ordered ↔ admits self.new ordered };

    // equivalent families are led to equivalent families
    ghost respects: { (r : Self) → RespectsEquivalence (leads r) };
}

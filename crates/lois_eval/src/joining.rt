//! Constraints put together.

ghost use Rattle.std.specs.Prelude.{◌≡◌, ◌&&◌, ◌||◌, ℕ, Bool, true, false, not, List, IfOk, if◌then◌else◌};
ghost use Rattle.lois_base.specs.Atom.{Atom};
ghost use Rattle.lois_base.specs.Fits.{ConstraintFits};
ghost use Rattle.lois_base.specs.Truth.{holds};
ghost use Rattle.lois_base.specs.Validity.{AdmitsConstraint};

use lois_base::{Constraint, NoMemory};
use lois_constraint::{and, and_not, meet, or};
use std::alloc::Global;

/// The constraint that has this truth at every choice.
pub(crate) fn unit(alloc: Global, truth: bool) -> Result<Constraint, NoMemory>
    ensures truth { IfOk result (λ r. (c : List Atom) → holds c r ≡ truth) }
    ensures levels { IfOk result (λ r. (n : ℕ) → ConstraintFits n r) }
    ensures operators { IfOk result (λ r. (o : Bool) → AdmitsConstraint o r) }
{
    if truth {
        return Constraint::always(alloc);
    }
    Ok(Constraint::new(alloc))
}

/// Where both hold, or one of them.
pub(crate) fn joined(
    alloc: Global,
    every: bool,
    a: &Constraint,
    b: &Constraint,
) -> Result<Constraint, NoMemory>
    ensures truth { IfOk result (λ r. (c : List Atom) → holds c r ≡ (if every then holds c a.now && holds c b.now else holds c a.now || holds c b.now)) }
    ensures levels { IfOk result (λ r. (n : ℕ) → ConstraintFits n a.now → ConstraintFits n b.now → ConstraintFits n r) }
    ensures operators { IfOk result (λ r. (o : Bool) → AdmitsConstraint o a.now → AdmitsConstraint o b.now → AdmitsConstraint o r) }
{
    if every {
        and(alloc, a, b)
    } else {
        or(alloc, a, b)
    }
}

/// Where the first holds, and the second has the wanted truth.
pub(crate) fn sought(
    alloc: Global,
    a: &Constraint,
    b: &Constraint,
    wanted: bool,
) -> Result<Constraint, NoMemory>
    ensures truth { IfOk result (λ r. (c : List Atom) → holds c r ≡ (holds c a.now && (if wanted then holds c b.now else not (holds c b.now)))) }
    ensures levels { IfOk result (λ r. (n : ℕ) → ConstraintFits n a.now → ConstraintFits n b.now → ConstraintFits n r) }
    ensures operators { IfOk result (λ r. (o : Bool) → AdmitsConstraint o a.now → AdmitsConstraint o b.now → AdmitsConstraint o r) }
{
    if wanted {
        return meet(alloc, a, b);
    }
    and_not(alloc, a, b)
}

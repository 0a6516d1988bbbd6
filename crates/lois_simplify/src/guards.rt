//! Guards that hold at each choice of atoms, seen from how they are written.

ghost use Rattle.std.specs.Prelude.{◌≡◌, ℕ, [], ◌∷◌, ◌&&◌, List, IfOk, IsTrue};
ghost use Rattle.lois_base.specs.Atom.{Atom};
ghost use Rattle.lois_base.specs.Fits.{ConstraintFits};
ghost use Rattle.lois_base.specs.Truth.{holds};

use lois_base::{Constraint, NoMemory};
use lois_constraint::meet;
use std::alloc::Global;

/// Whether the guard is one cube without literals.
pub(crate) fn is_always(alloc: Global, guard: &Constraint) -> Result<bool, NoMemory>
    ensures { IfOk result (λ b. IsTrue b → guard.now ≡ [] ∷ []) }
{
    let always = Constraint::always(alloc)?;
    Ok(guard.is_equal(&always))
}

/// What holds in a comprehension with the guard.
pub(crate) fn inside(
    alloc: Global,
    under: &Constraint,
    guard: &Constraint,
) -> Result<Constraint, NoMemory>
    ensures truth { IfOk result (λ r. (c : List Atom) → holds c r ≡ (holds c under.now && holds c guard.now)) }
    ensures fits { IfOk result (λ r. (n : ℕ) → ConstraintFits n under.now → ConstraintFits n guard.now → ConstraintFits n r) }
{
    if is_always(alloc, guard)? {
        return under.copy(alloc);
    }
    meet(alloc, under, guard)
}

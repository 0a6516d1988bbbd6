//! Constraints with their highest level bound: for some atom at it, and for each.

ghost use Rattle.std.specs.Prelude.{◌≡◌, ◌+◌, ◌<◌, ◌^◌, Bool, ◌++◌, IfOk, OnOk};
ghost use Rattle.lois_base.specs.Fits.{ConstraintFits};
ghost use Rattle.lois_base.specs.Validity.{AdmitsConstraint};
ghost use Rattle.lois_base.specs.Bound.{HoldsForSome, HoldsForEach};
ghost use Rattle.lois_base.specs.Over.{ConstraintIsOver};
ghost use Rattle.lois_elim.specs.Bound.{HoldsForSomeMore};

use lois_base::{Constraint, NoMemory, Structure};
use lois_constraint::{negate, prune};
use std::alloc::Global;

/// Puts the cubes of one constraint behind those of another.
pub(crate) fn append(cubes: &mut Constraint, more: Constraint) -> Result<(), NoMemory>
    ensures { OnOk result (cubes.new ≡ cubes.old ++ more) }
{
    for cube in more.into_vec() {
        cubes.push(cube)?;
    }
    Ok(())
}

/// A constraint over the levels below `size` that says that the given one holds for some atom at level `size`.
pub fn for_some<T: Structure>(
    alloc: Global,
    c: &Constraint,
    size: usize,
) -> Result<Constraint, NoMemory>
    requires over { ConstraintIsOver T.ordered (size + 1) c.now }
    ensures truth { IfOk result (HoldsForSome size c.now) }
    ensures levels { IfOk result (ConstraintFits size) }
    ensures operators { IfOk result (λ r. (o : Bool) → AdmitsConstraint o c.now → AdmitsConstraint o r) }
{
    let mut found = Constraint::new(alloc);
    for cube in c.as_slice() {
        append(&mut found, T::eliminate(alloc, cube, size)?)?;
    }
    prune(alloc, &found)
}

/// A constraint over the levels below `size` that says that the given one holds for some atoms at the `by` levels from there on.
pub fn for_some_more<T: Structure>(
    alloc: Global,
    c: Constraint,
    size: usize,
    by: usize,
) -> Result<Constraint, NoMemory>
    requires room { size + by < 2 ^ 64 }
    requires over { ConstraintIsOver T.ordered (size + by) c }
    ensures truth { IfOk result (HoldsForSomeMore size by c) }
    ensures levels { IfOk result (ConstraintFits size) }
    ensures operators { IfOk result (λ r. (o : Bool) → AdmitsConstraint o c → AdmitsConstraint o r) }
{
    let mut left = c;
    let mut more = by;
    'levels: while more > 0 {
        more -= 1;
        left = for_some::<T>(alloc, &left, size + more)?;
    }
    Ok(left)
}

/// A constraint over the levels below `size` that says that the given one holds for each atom at level `size`.
pub(crate) fn for_each<T: Structure>(
    alloc: Global,
    c: &Constraint,
    size: usize,
) -> Result<Constraint, NoMemory>
    requires over { ConstraintIsOver T.ordered (size + 1) c.now }
    ensures truth { IfOk result (HoldsForEach size c.now) }
    ensures levels { IfOk result (ConstraintFits size) }
    ensures operators { IfOk result (λ r. (o : Bool) → AdmitsConstraint o c.now → AdmitsConstraint o r) }
{
    let refuted = for_some::<T>(alloc, &negate(alloc, c)?, size)?;
    negate(alloc, &refuted)
}

//! Negation, one cube after another, pruned after each.

ghost use Rattle.std.specs.Prelude.{◌≡◌, ℕ, Bool, List, ◌∷◌, [], ◌++◌, ◌&&◌, not, map, IfOk, IsTrue, OnOk};
ghost use Rattle.lois_base.specs.Atom.{Atom};
ghost use Rattle.lois_base.specs.Fits.{ConstraintFits};
ghost use Rattle.lois_base.specs.Truth.{cube_holds, holds};
ghost use Rattle.lois_base.specs.Validity.{AdmitsConstraint};
ghost use Rattle.lois_base.specs.UsedLevels.{UsesOnly};
ghost use Rattle.lois_constraint.specs.Alternatives.{alternatives, denials};
ghost use Rattle.lois_constraint.specs.Entailment.{IsPruned};
ghost use Rattle.lois_constraint.specs.Rules.{Rule, CubeObeys, ConstraintObeys, IsKeptByDenial};

use crate::antichain::Antichain;
use crate::closed_cube::ClosedCube;
use crate::conflicts::alternatives;
use lois_base::{Constraint, Cube, Lit, NoMemory};
use std::alloc::Global;

// each alternative of the literal as a cube
fn deny(alloc: Global, denied: &mut Constraint, lit: Lit) -> Result<(), NoMemory>
    ensures { OnOk result (denied.new ≡ denied.old ++ map (λ m. m ∷ []) (alternatives lit)) }
{
    let others = alternatives(alloc, lit)?;
    for other in others.as_slice() {
        let mut cube = Cube::new(alloc);
        cube.push(*other)?;
        denied.push(cube)?;
    }
    Ok(())
}

fn denied(alloc: Global, cube: &Cube) -> Result<Constraint, NoMemory>
    ensures { IfOk result (λ r. r ≡ denials cube.now) }
{
    let mut denied = Constraint::new(alloc);
    for lit in cube.as_slice() {
        deny(alloc, &mut denied, *lit)?;
    }
    Ok(denied)
}

// The antichain without the cube.
fn take_off_cube(alloc: Global, antichain: Antichain, cube: &Cube) -> Result<Antichain, NoMemory>
    ensures truth { IfOk result (λ r. (e : List Atom) → holds e r ≡ (holds e antichain && not (cube_holds e cube.now))) }
    ensures rules { IfOk result (λ r. (rule : Rule) → IsKeptByDenial rule → ConstraintObeys rule antichain → CubeObeys rule cube.now → ConstraintObeys rule r) }
{
    let refused = denied(alloc, cube)?;
    Ok(antichain.meet(alloc, &refused)?)
}

// The antichain without the constraint, one cube after the other.
fn take_off(alloc: Global, antichain: Antichain, c: &Constraint) -> Result<Antichain, NoMemory>
    ensures truth { IfOk result (λ r. (e : List Atom) → holds e r ≡ (holds e antichain && not (holds e c.now))) }
    ensures rules { IfOk result (λ r. (rule : Rule) → IsKeptByDenial rule → ConstraintObeys rule antichain → ConstraintObeys rule c.now → ConstraintObeys rule r) }
{
    let mut rest = antichain;
    for cube in c.as_slice() {
        rest = take_off_cube(alloc, rest, cube)?;
    }
    Ok(rest)
}

// What is left of an antichain, or a part of it.
#[derive(Drop)]
struct Left {
    antichain: Antichain,
    whole: bool,
}

// The antichain without the constraint, of which only so many cubes are kept after each cube that is taken off.
fn take_off_partly(
    alloc: Global,
    antichain: Antichain,
    c: &Constraint,
    most: usize,
) -> Result<Left, NoMemory>
    ensures part { IfOk result (λ r. (e : List Atom) → IsTrue (holds e r.antichain) → IsTrue (holds e antichain && not (holds e c.now))) }
    ensures whole { IfOk result (λ r. IsTrue r.whole → (e : List Atom) → holds e r.antichain ≡ (holds e antichain && not (holds e c.now))) }
    ensures rules { IfOk result (λ r. (rule : Rule) → IsKeptByDenial rule → ConstraintObeys rule antichain → ConstraintObeys rule c.now → ConstraintObeys rule r.antichain) }
{
    let mut rest = antichain;
    let mut whole = true;
    for cube in c.as_slice() {
        rest = take_off_cube(alloc, rest, cube)?;
        if rest.len() > most {
            rest = rest.keep_first(most);
            whole = false;
        }
    }
    Ok(Left {
        antichain: rest,
        whole,
    })
}

/// A constraint that holds exactly where the given one doesn't, pruned.
pub fn negate(alloc: Global, c: &Constraint) -> Result<Constraint, NoMemory>
    ensures truth { IfOk result (λ r. (e : List Atom) → holds e r ≡ not (holds e c.now)) }
    ensures pruned { IfOk result IsPruned }
    ensures levels { IfOk result (UsesOnly c.now) }
    ensures fits { IfOk result (λ r. (n : ℕ) → ConstraintFits n c.now → ConstraintFits n r) }
    ensures operators { IfOk result (λ r. (o : Bool) → AdmitsConstraint o c.now → AdmitsConstraint o r) }
{
    let everywhere = Antichain::new(alloc).put(alloc, ClosedCube::new(alloc))?;
    let rest = take_off(alloc, everywhere, c)?;
    rest.into_constraint(alloc)
}

/// What `and_not` makes, or a part of it.
#[derive(Drop)]
pub struct Remainder {
    pub constraint: Constraint,
    pub whole: bool,
}

/// A constraint that holds only where `a` does and `c` doesn't. It stays small: at most `most` cubes are kept after each cube of
/// `c` that is taken off. Where none was dropped it is `whole`, and holds exactly there. Errors: `NoMemory`.
pub fn and_not_partly(
    alloc: Global,
    a: &Constraint,
    c: &Constraint,
    most: usize,
) -> Result<Remainder, NoMemory>
    ensures part { IfOk result (λ r. (e : List Atom) → IsTrue (holds e r.constraint) → IsTrue (holds e a.now && not (holds e c.now))) }
    ensures whole { IfOk result (λ r. IsTrue r.whole → (e : List Atom) → holds e r.constraint ≡ (holds e a.now && not (holds e c.now))) }
    ensures fits { IfOk result (λ r. (n : ℕ) → ConstraintFits n a.now → ConstraintFits n c.now → ConstraintFits n r.constraint) }
{
    let left = take_off_partly(alloc, Antichain::of(alloc, a)?, c, most)?;
    Ok(Remainder {
        constraint: left.antichain.into_constraint(alloc)?,
        whole: left.whole,
    })
}

/// A constraint that holds exactly where `a` does and `c` doesn't, pruned.
pub fn and_not(alloc: Global, a: &Constraint, c: &Constraint) -> Result<Constraint, NoMemory>
    ensures truth { IfOk result (λ r. (e : List Atom) → holds e r ≡ (holds e a.now && not (holds e c.now))) }
    ensures pruned { IfOk result IsPruned }
    ensures levels { IfOk result (UsesOnly (a.now ++ c.now)) }
    ensures fits { IfOk result (λ r. (n : ℕ) → ConstraintFits n a.now → ConstraintFits n c.now → ConstraintFits n r) }
    ensures operators { IfOk result (λ r. (o : Bool) → AdmitsConstraint o a.now → AdmitsConstraint o c.now → AdmitsConstraint o r) }
{
    let rest = take_off(alloc, Antichain::of(alloc, a)?, c)?;
    rest.into_constraint(alloc)
}

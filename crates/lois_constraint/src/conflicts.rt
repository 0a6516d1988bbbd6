//! Cubes that can't be met, and what follows from a cube.

ghost use Rattle.std.specs.Prelude.{◌≡◌, List, IfOk, IsTrue, IsFalse, ◌↔◌};
ghost use Rattle.lois_base.specs.Atom.{Atom};
ghost use Rattle.lois_base.specs.Truth.{lit_holds, cube_holds};
ghost use Rattle.lois_constraint.specs.Alternatives.{alternatives};
ghost use Rattle.lois_constraint.specs.Entailment.{CubeIsSatisfiable};

use crate::closed_cube::ClosedCube;
use crate::denying::denial;
use crate::pruning::tighten;
use lois_base::{Cube, Lit, NoMemory};
use smallvec::SmallVec;
use std::alloc::Global;

/// Whether the cube contradicts itself: it holds at no choice of atoms.
pub fn conflict(alloc: Global, cube: &Cube) -> Result<bool, NoMemory>
    ensures unmet { IfOk result (λ r. IsTrue r ↔ ((c : List Atom) → IsFalse (cube_holds c cube.now))) }
    ensures met { IfOk result (λ r. IsFalse r → CubeIsSatisfiable cube.now) }
{
    let tight = tighten(alloc, cube)?;
    Ok(tight.is_none())
}

/// The literals of which one holds exactly where the literal doesn't. No `<` or `<=` comes from `=` or `!=`.
pub fn alternatives(alloc: Global, lit: Lit) -> Result<SmallVec<Lit, 2>, NoMemory>
    ensures { IfOk result (λ r. r.items ≡ alternatives lit) }
{
    let mut found = SmallVec::new(alloc);
    found.push(denial(lit))?;
    Ok(found)
}

/// Whether the literal follows from the cube: it holds wherever the cube does.
pub fn implies(alloc: Global, cube: &Cube, lit: Lit) -> Result<bool, NoMemory>
    ensures { IfOk result (λ r. IsTrue r ↔ ((c : List Atom) → IsTrue (cube_holds c cube.now) → IsTrue (lit_holds c lit))) }
{
    match ClosedCube::of(alloc, cube)? {
        Some(closed) => Ok(closed.implies(lit)),
        None => Ok(true),
    }
}

/// Whether one cube entails another: `b` holds wherever `a` does.
pub fn entails(alloc: Global, a: &Cube, b: &Cube) -> Result<bool, NoMemory>
    ensures { IfOk result (λ r. IsTrue r ↔ ((c : List Atom) → IsTrue (cube_holds c a.now) → IsTrue (cube_holds c b.now))) }
{
    match ClosedCube::of(alloc, a)? {
        Some(closed) => Ok(closed.entails_cube(b)),
        None => Ok(true),
    }
}

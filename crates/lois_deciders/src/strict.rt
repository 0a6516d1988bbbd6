//! Cubes without `<=`.

ghost use Rattle.std.specs.Prelude.{◌≡◌, ◌↔◌, ℕ, List, ◌∷◌, ◌++◌, IfOk, IsTrue};
ghost use Rattle.lois_base.specs.Atom.{Atom};
ghost use Rattle.lois_base.specs.Fits.{CubeFits};
ghost use Rattle.lois_base.specs.Truth.{lit_holds};
ghost use Rattle.lois_base.specs.Validity.{IsStrictLit, IsStrictCube};
ghost use Rattle.lois_constraint.specs.Entailment.{CubeIsSatisfiable, Entails};

use lois_base::{Cube, Lit, NoMemory, Op};
use lois_constraint::tighten;
use std::alloc::Global;

/// Whether no literal has `<=`.
pub(crate) fn is_strict(cube: &Cube) -> bool
    ensures { IsTrue result ↔ IsStrictCube cube.now }
{
    cube.as_slice().iter().all(|lit| lit.op != Op::AtMost)
}

// Whether a literal says that the atoms at the levels are equal.
fn are_equated(cube: &Cube, left: usize, right: usize) -> bool {
    cube.as_slice().iter().any(|lit| {
        lit.op == Op::Eq
            && ((lit.left == left && lit.right == right)
                || (lit.left == right && lit.right == left))
    })
}

// The literal, with `<` for `<=`, or `=` where the cube has it.
fn tightest(cube: &Cube, lit: Lit) -> Lit
    ensures strict { IsStrictLit result }
    ensures entails { (c : List Atom) → IsTrue (lit_holds c result) → IsTrue (lit_holds c lit) }
    ensures left { result.left ≡ lit.left }
    ensures right { result.right ≡ lit.right }
{
    let Lit { op, left, right } = lit;
    if op != Op::AtMost {
        return lit;
    }
    let op = if are_equated(cube, left, right) {
        Op::Eq
    } else {
        Op::Lt
    };
    Lit { op, left, right }
}

/// The cube with `<` for each `<=`, or `=` where it says so too. Mostly it can be met where the cube can.
pub(crate) fn tightest_part(alloc: Global, cube: &Cube) -> Result<Cube, NoMemory>
    ensures strict { IfOk result IsStrictCube }
    ensures entails { IfOk result (λ r. Entails r cube.now) }
    ensures levels { IfOk result (λ r. (n : ℕ) → CubeFits n cube.now → CubeFits n r) }
{
    let mut part = Cube::new(alloc);
    for lit in cube.as_slice() {
        part.push(tightest(cube, *lit))?;
    }
    Ok(part)
}

// The literals of the cube, one more, and those behind it.
fn joined_literals(alloc: Global, before: &Cube, lit: Lit, behind: &[Lit]) -> Result<Cube, NoMemory>
    ensures { IfOk result (λ r. r ≡ before.now ++ lit ∷ behind.now) }
{
    let mut joined = before.copy(alloc)?;
    joined.push(lit)?;
    for other in behind {
        joined.push(*other)?;
    }
    Ok(joined)
}

// The literal, or `<` for `<=` where the literals around it can be met so, and otherwise `=`.
fn strict_literal(alloc: Global, before: &Cube, lit: Lit, behind: &[Lit]) -> Result<Lit, NoMemory>
    ensures strict { IfOk result IsStrictLit }
    ensures entails { IfOk result (λ r. (c : List Atom) → IsTrue (lit_holds c r) → IsTrue (lit_holds c lit)) }
    ensures met { IfOk result (λ r. CubeIsSatisfiable (before.now ++ lit ∷ behind.now) → CubeIsSatisfiable (before.now ++ r ∷ behind.now)) }
    ensures left { IfOk result (λ r. r.left ≡ lit.left) }
    ensures right { IfOk result (λ r. r.right ≡ lit.right) }
{
    let Lit { op, left, right } = lit;
    if op != Op::AtMost {
        return Ok(lit);
    }
    let below = Lit {
        op: Op::Lt,
        left,
        right,
    };
    let part = joined_literals(alloc, before, below, behind)?;
    match tighten(alloc, &part)? {
        Some(_) => Ok(below),
        None => Ok(Lit {
            op: Op::Eq,
            left,
            right,
        }),
    }
}

/// A cube without `<=` that entails the cube, and that can be met where the cube can.
pub(crate) fn strict_part(alloc: Global, cube: &Cube) -> Result<Cube, NoMemory>
    ensures strict { IfOk result IsStrictCube }
    ensures entails { IfOk result (λ r. Entails r cube.now) }
    ensures met { IfOk result (λ r. CubeIsSatisfiable cube.now → CubeIsSatisfiable r) }
    ensures levels { IfOk result (λ r. (n : ℕ) → CubeFits n cube.now → CubeFits n r) }
{
    let literals = cube.as_slice();
    let mut part = Cube::new(alloc);
    for (index, lit) in literals.iter().enumerate() {
        let strict = strict_literal(alloc, &part, *lit, &literals[index + 1..])?;
        part.push(strict)?;
    }
    Ok(part)
}

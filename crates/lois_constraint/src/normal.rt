//! Normalised constraints: turned, sorted, and without what is superfluous.

ghost use Rattle.std.specs.Prelude.{◌≡◌, ◌≢◌, ◌&&◌, ℕ, Bool, List, IfOk};
ghost use Rattle.std.specs.List.{All};
ghost use Rattle.lois_base.specs.Atom.{Atom};
ghost use Rattle.lois_base.specs.Fits.{ConstraintFits};
ghost use Rattle.lois_base.specs.Truth.{lit_holds, cube_holds, holds};
ghost use Rattle.lois_base.specs.Validity.{AdmitsConstraint, IsStrictConstraint};
ghost use Rattle.lois_base.specs.UsedLevels.{UsesOnly};
ghost use Rattle.lois_constraint.specs.Entailment.{CubeIsSatisfiable, IsPruned};
ghost use Rattle.lois_constraint.specs.Normalised.{IsOriented, IsNormalCube, IsNormalised};
ghost use Rattle.lois_constraint.specs.Rules.{Rule, Obeys, CubeObeys, ConstraintObeys};
ghost use Rattle.lois_constraint.specs.Steps.{is_step};

use crate::closed_cube::ClosedCube;
use crate::pruning::prune;
use crate::sorting::{sort_cubes, sort_literals};
use lois_base::{Constraint, Cube, Lit, NoMemory, Op};
use std::alloc::Global;

fn is_step(op: Op) -> bool
    ensures { result ≡ is_step op }
{
    match op {
        Op::Eq | Op::Ne => false,
        Op::Lt | Op::AtMost => true,
    }
}

// An equation or its opposite with the lower level on the left.
fn turned(lit: Lit) -> Lit
    ensures truth { (c : List Atom) → lit_holds c result ≡ lit_holds c lit }
    ensures turned { IsOriented result.op result.left result.right }
    ensures apart { (result.left ≡ result.right) → (lit.left ≡ lit.right) }
    ensures rules { (rule : Rule) → Obeys rule lit → Obeys rule result }
{
    let Lit { op, left, right } = lit;
    if !is_step(op) && right < left {
        return Lit {
            op,
            left: right,
            right: left,
        };
    }
    lit
}

// The literals turned, without those that join a level to itself.
fn turned_literals(alloc: Global, literals: &[Lit]) -> Result<Vec<Lit>, NoMemory>
    requires { CubeIsSatisfiable literals.now }
    ensures truth { IfOk result (λ r. (c : List Atom) → cube_holds c r.items ≡ cube_holds c literals.now) }
    ensures apart { IfOk result (λ r. All (λ l. l.left ≢ l.right) r.items) }
    ensures turned { IfOk result (λ r. All (λ l. IsOriented l.op l.left l.right) r.items) }
    ensures rules { IfOk result (λ r. (rule : Rule) → CubeObeys rule literals.now → CubeObeys rule r.items) }
{
    let mut turned_ones = Vec::with_capacity(alloc, literals.len())?;
    for lit in literals {
        if lit.left != lit.right {
            turned_ones.push(turned(*lit))?;
        }
    }
    Ok(turned_ones)
}

// The literals that don't follow from the known cube.
fn not_implied(alloc: Global, closed: &ClosedCube, literals: &[Lit]) -> Result<Vec<Lit>, NoMemory>
    ensures truth { IfOk result (λ r. (c : List Atom) → (cube_holds c closed.now && cube_holds c r.items) ≡ (cube_holds c closed.now && cube_holds c literals.now)) }
    ensures rules { IfOk result (λ r. (rule : Rule) → CubeObeys rule literals.now → CubeObeys rule r.items) }
{
    let mut kept = Vec::new(alloc);
    for lit in literals {
        if !closed.implies(*lit) {
            kept.push(*lit)?;
        }
    }
    Ok(kept)
}

// The literals without those that follow from the known cube, the others and the literals that stay. By halves, each
// beside the other one: so a literal is put into as many tables as the literals can be halved.
fn needed(
    alloc: Global,
    closed: &ClosedCube,
    others: &[Lit],
    literals: &[Lit],
) -> Result<Vec<Lit>, NoMemory>
    ensures truth { IfOk result (λ r. (c : List Atom) → (cube_holds c closed.now && (cube_holds c others.now && cube_holds c r.items)) ≡ (cube_holds c closed.now && (cube_holds c others.now && cube_holds c literals.now))) }
    ensures rules { IfOk result (λ r. (rule : Rule) → CubeObeys rule literals.now → CubeObeys rule r.items) }
{
    let Some(beside) = closed.copy(alloc)?.and_literals(alloc, others)? else {
        return Ok(Vec::new(alloc));
    };
    if literals.len() < 2 {
        return not_implied(alloc, &beside, literals);
    }
    let (low, high) = literals.split_at(literals.len() / 2);
    let mut kept = needed(alloc, &beside, high, low)?;
    let rest = needed(alloc, &beside, &kept, high)?;
    kept.extend_from_slice(&rest)?;
    Ok(kept)
}

fn thinned(alloc: Global, literals: &[Lit]) -> Result<Vec<Lit>, NoMemory>
    ensures truth { IfOk result (λ r. (c : List Atom) → cube_holds c r.items ≡ cube_holds c literals.now) }
    ensures rules { IfOk result (λ r. (rule : Rule) → CubeObeys rule literals.now → CubeObeys rule r.items) }
{
    needed(alloc, &ClosedCube::new(alloc), &[], literals)
}

fn cube_of(alloc: Global, literals: &[Lit]) -> Result<Cube, NoMemory>
    ensures { IfOk result (λ r. r ≡ literals.now) }
{
    let mut cube = Cube::new(alloc);
    for lit in literals {
        cube.push(*lit)?;
    }
    Ok(cube)
}

fn normal_cube(alloc: Global, cube: &Cube) -> Result<Cube, NoMemory>
    requires { CubeIsSatisfiable cube.now }
    ensures truth { IfOk result (λ r. (c : List Atom) → cube_holds c r ≡ cube_holds c cube.now) }
    ensures normal { IfOk result IsNormalCube }
    ensures rules { IfOk result (λ r. (rule : Rule) → CubeObeys rule cube.now → CubeObeys rule r) }
{
    let thin = thinned(alloc, cube.as_slice())?;
    let mut literals = turned_literals(alloc, &thin)?;
    sort_literals(&mut literals);
    cube_of(alloc, &literals)
}

// The cubes of a pruned constraint, each made normal.
fn normal_cubes(alloc: Global, pruned: &Constraint) -> Result<Vec<Cube>, NoMemory>
    requires { IsPruned pruned.now }
    ensures truth { IfOk result (λ r. (c : List Atom) → holds c r.items ≡ holds c pruned.now) }
    ensures normal { IfOk result (λ r. All IsNormalCube r.items) }
    ensures pruned { IfOk result (λ r. IsPruned r.items) }
    ensures rules { IfOk result (λ r. (rule : Rule) → ConstraintObeys rule pruned.now → ConstraintObeys rule r.items) }
{
    let mut cubes = Vec::with_capacity(alloc, pruned.len())?;
    for cube in pruned.as_slice() {
        cubes.push(normal_cube(alloc, cube)?)?;
    }
    Ok(cubes)
}

fn constraint_of(alloc: Global, cubes: Vec<Cube>) -> Result<Constraint, NoMemory>
    ensures { IfOk result (λ r. r ≡ cubes.items) }
{
    let mut constraint = Constraint::new(alloc);
    for cube in cubes {
        constraint.push(cube)?;
    }
    Ok(constraint)
}

/// The constraint pruned and normalised: `=` and `!=` have the lower level on the left, literals and cubes
/// are sorted, and no literal joins a level to itself.
pub fn normalise(alloc: Global, c: &Constraint) -> Result<Constraint, NoMemory>
    ensures truth { IfOk result (λ r. (e : List Atom) → holds e r ≡ holds e c.now) }
    ensures normalised { IfOk result IsNormalised }
    ensures pruned { IfOk result IsPruned }
    ensures levels { IfOk result (UsesOnly c.now) }
    ensures fits { IfOk result (λ r. (n : ℕ) → ConstraintFits n c.now → ConstraintFits n r) }
    ensures operators { IfOk result (λ r. (o : Bool) → AdmitsConstraint o c.now → AdmitsConstraint o r) }
    ensures strict { IfOk result (λ r. IsStrictConstraint c.now → IsStrictConstraint r) }
{
    let pruned = prune(alloc, c)?;
    let mut cubes = normal_cubes(alloc, &pruned)?;
    sort_cubes(&mut cubes);
    constraint_of(alloc, cubes)
}

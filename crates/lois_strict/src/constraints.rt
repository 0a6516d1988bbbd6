//! Constraints without `<=`.

ghost use Rattle.std.specs.Prelude.{◌≡◌, ℕ, Bool, List, not, ◌&&◌, ◌||◌, filter, IfOk, OnOk, IsTrue, Contains, ◌⊎◌};
ghost use Rattle.lois_base.specs.Atom.{Atom};
ghost use Rattle.lois_base.specs.Fits.{ConstraintFits};
ghost use Rattle.lois_base.specs.Truth.{lit_holds, cube_holds, holds};
ghost use Rattle.lois_base.specs.Validity.{is_strict, AdmitsConstraint, IsStrictConstraint};
ghost use Rattle.lois_base.specs.UsedLevels.{UsesOnly};
ghost use Rattle.lois_constraint.specs.Rules.{Rule, Obeys, CubeObeys, ConstraintObeys};
ghost use Rattle.lois_strict.specs.Literals.{with_less, with_equal, difference, a_part_holds};

use lois_base::{Constraint, Cube, Lit, NoMemory, Op};
use lois_constraint::conflict;
use std::alloc::Global;

// The literals of a cube with `<=`, and the others.
#[derive(Drop)]
struct Literals {
    strict: Cube,
    weak: Cube,
}

fn literals_of(alloc: Global, cube: &Cube) -> Result<Literals, NoMemory>
    ensures strict { IfOk result (λ r. r.strict ≡ filter (λ l. is_strict l.op) cube.now) }
    ensures weak { IfOk result (λ r. r.weak ≡ filter (λ l. not (is_strict l.op)) cube.now) }
{
    let mut strict = Cube::new(alloc);
    let mut weak = Cube::new(alloc);
    for lit in cube.as_slice() {
        match lit.op {
            Op::Eq | Op::Ne | Op::Lt => strict.push(*lit)?,
            Op::AtMost => weak.push(*lit)?,
        }
    }
    Ok(Literals { strict, weak })
}

// One more part, the cube with the literal.
fn push_longer(alloc: Global, parts: &mut Constraint, cube: &Cube, lit: Lit) -> Result<(), NoMemory>
    ensures truth { OnOk result ((e : List Atom) → holds e parts.new ≡ (holds e parts.old || (cube_holds e cube.now && lit_holds e lit))) }
    ensures rules { OnOk result ((rule : Rule) → ConstraintObeys rule parts.old → CubeObeys rule cube.now → Obeys rule lit → ConstraintObeys rule parts.new) }
{
    let mut part = cube.copy(alloc)?;
    part.push(lit)?;
    parts.push(part)?;
    Ok(())
}

// The same, unless the part can't be met.
fn push_part(alloc: Global, parts: &mut Constraint, cube: &Cube, lit: Lit) -> Result<(), NoMemory>
    ensures truth { OnOk result ((e : List Atom) → holds e parts.new ≡ (holds e parts.old || (cube_holds e cube.now && lit_holds e lit))) }
    ensures rules { OnOk result ((rule : Rule) → ConstraintObeys rule parts.old → CubeObeys rule cube.now → Obeys rule lit → ConstraintObeys rule parts.new) }
{
    let mut part = cube.copy(alloc)?;
    part.push(lit)?;
    if conflict(alloc, &part)? {
        return Ok(());
    }
    parts.push(part)?;
    Ok(())
}

// Each part with `<` between the levels of the literal, and with `=`.
fn split_parts(alloc: Global, parts: &Constraint, lit: Lit) -> Result<Constraint, NoMemory>
    ensures truth { IfOk result (λ r. (e : List Atom) → holds e r ≡ (holds e parts.now && a_part_holds e lit)) }
    ensures rules { IfOk result (λ r. (rule : Rule) → ConstraintObeys rule parts.now → Obeys rule (with_less lit) → Obeys rule (with_equal lit) → ConstraintObeys rule r) }
{
    let Lit { left, right, .. } = lit;
    let less = Lit {
        op: Op::Lt,
        left,
        right,
    };
    let equal = Lit {
        op: Op::Eq,
        left,
        right,
    };
    let mut split = Constraint::new(alloc);
    for part in parts.as_slice() {
        push_part(alloc, &mut split, part, less)?;
        push_part(alloc, &mut split, part, equal)?;
    }
    Ok(split)
}

// Each part with `<` between the levels of the literal. Nothing is asked about a part, since there are no more of them.
fn less_parts(alloc: Global, parts: &Constraint, lit: Lit) -> Result<Constraint, NoMemory>
    ensures truth { IfOk result (λ r. (e : List Atom) → holds e r ≡ (holds e parts.now && lit_holds e (with_less lit))) }
    ensures rules { IfOk result (λ r. (rule : Rule) → ConstraintObeys rule parts.now → Obeys rule (with_less lit) → ConstraintObeys rule r) }
{
    let less = Lit {
        op: Op::Lt,
        left: lit.left,
        right: lit.right,
    };
    let mut apart = Constraint::new(alloc);
    for part in parts.as_slice() {
        push_longer(alloc, &mut apart, part, less)?;
    }
    Ok(apart)
}

// Whether the cube says that the levels of the literal differ. Then `<` is all that is left of a `<=`.
fn tells_apart(cube: &Cube, lit: Lit) -> bool
    ensures { IsTrue result → Contains cube.now (difference lit.left lit.right) ⊎ Contains cube.now (difference lit.right lit.left) }
{
    let apart = Lit {
        op: Op::Ne,
        left: lit.left,
        right: lit.right,
    };
    let turned = Lit {
        op: Op::Ne,
        left: lit.right,
        right: lit.left,
    };
    cube.as_slice().contains(&apart) || cube.as_slice().contains(&turned)
}

// The parts behind a literal with `<=` of the cube.
fn next_parts(
    alloc: Global,
    cube: &Cube,
    parts: &Constraint,
    lit: Lit,
) -> Result<Constraint, NoMemory>
    requires weak { IsTrue (not (is_strict lit.op)) }
    ensures there { IfOk result (λ r. (e : List Atom) → IsTrue (cube_holds e cube.now) → IsTrue (lit_holds e lit) → IsTrue (holds e parts.now) → IsTrue (holds e r)) }
    ensures back { IfOk result (λ r. (e : List Atom) → IsTrue (holds e r) → IsTrue (holds e parts.now && lit_holds e lit)) }
    ensures rules { IfOk result (λ r. (rule : Rule) → ConstraintObeys rule parts.now → Obeys rule (with_less lit) → Obeys rule (with_equal lit) → ConstraintObeys rule r) }
{
    if tells_apart(cube, lit) {
        return less_parts(alloc, parts, lit);
    }
    split_parts(alloc, parts, lit)
}

// The parts of a cube. A cube without `<=` is its one part, and others begin with the literals that aren't split, so that parts
// that can't be met go early.
fn split_cube(alloc: Global, cube: &Cube) -> Result<Constraint, NoMemory>
    ensures truth { IfOk result (λ r. (e : List Atom) → holds e r ≡ cube_holds e cube.now) }
    ensures strict { IfOk result IsStrictConstraint }
    ensures rules { IfOk result (λ r. (rule : Rule) → CubeObeys rule cube.now → ConstraintObeys rule r) }
{
    let Literals { strict, weak } = literals_of(alloc, cube)?;
    let mut parts = Constraint::new(alloc);
    parts.push(strict)?;
    for lit in weak.as_slice() {
        parts = next_parts(alloc, cube, &parts, *lit)?;
    }
    Ok(parts)
}

// One more cube, in its parts.
fn push_split(alloc: Global, split: &mut Constraint, cube: &Cube) -> Result<(), NoMemory>
    ensures truth { OnOk result ((e : List Atom) → holds e split.new ≡ (holds e split.old || cube_holds e cube.now)) }
    ensures strict { OnOk result (IsStrictConstraint split.old → IsStrictConstraint split.new) }
    ensures rules { OnOk result ((rule : Rule) → ConstraintObeys rule split.old → CubeObeys rule cube.now → ConstraintObeys rule split.new) }
{
    let parts = split_cube(alloc, cube)?;
    for part in parts.into_vec() {
        split.push(part)?;
    }
    Ok(())
}

/// A constraint without `<=` that holds at the same choices: each `<=` is split into `<` and `=`, and parts that can't be met
/// are left out. Errors: `NoMemory`.
pub fn split_constraint(alloc: Global, c: &Constraint) -> Result<Constraint, NoMemory>
    ensures truth { IfOk result (λ r. (e : List Atom) → holds e r ≡ holds e c.now) }
    ensures strict { IfOk result IsStrictConstraint }
    ensures levels { IfOk result (UsesOnly c.now) }
    ensures fits { IfOk result (λ r. (n : ℕ) → ConstraintFits n c.now → ConstraintFits n r) }
    ensures operators { IfOk result (λ r. (o : Bool) → AdmitsConstraint o c.now → AdmitsConstraint o r) }
{
    let mut split = Constraint::new(alloc);
    for cube in c.as_slice() {
        push_split(alloc, &mut split, cube)?;
    }
    Ok(split)
}

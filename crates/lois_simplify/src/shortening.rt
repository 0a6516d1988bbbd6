//! Guards without what is known of the choices around them.

ghost use Rattle.std.specs.Prelude.{◌≡◌, ℕ, Bool, [], ◌∷◌, ◌++◌, false, ◌↔◌, List, IfOk, IsTrue, IsFalse};
ghost use Rattle.std.specs.List.{All, Any};
ghost use Rattle.lois_base.specs.Atom.{Atom};
ghost use Rattle.lois_base.specs.Fits.{ConstraintFits};
ghost use Rattle.lois_base.specs.Truth.{lit_holds, cube_holds, holds};
ghost use Rattle.lois_base.specs.Normal.{LitUses, GuardUses};
ghost use Rattle.lois_base.specs.Validity.{AdmitsCube, AdmitsConstraint, IsStrictCube, IsStrictConstraint};
ghost use Rattle.lois_base.specs.declared.guards.Lit.{Lit};
ghost use Rattle.lois_constraint.specs.Normalised.{IsNormalised};
ghost use Rattle.lois_simplify.specs.Plain.{IsPlain};
ghost use Rattle.lois_simplify.specs.Shortened.{IsWeakenedCube, IsShortened, SpeaksOfBoth, SpeaksOfAll};

use crate::orders::OrderTable;
use crate::parting::is_seen_inside;
use crate::refuting::is_refuted;
use crate::rewording::{is_worth_rewording, orders_for, reads_shorter, reworded};
use lois_base::{Constraint, Cube, Lit, NoMemory, Op};
use lois_constraint::{alternatives, and_not, covers_cube, meet, normalise, prune, singleton};
use lois_strict::split_constraint;
use std::alloc::Global;

// Each cube is compared with all others.
const MOST_SHORTENED: usize = 256;

/// A constraint of the cubes.
pub(crate) fn constraint_of(alloc: Global, cubes: Vec<Cube>) -> Result<Constraint, NoMemory>
    ensures { IfOk result (λ r. r ≡ cubes.items) }
{
    let mut constraint = Constraint::new(alloc);
    for cube in cubes {
        constraint.push(cube)?;
    }
    Ok(constraint)
}

/// A cube of the literals of the one, and those of the other behind them.
pub(crate) fn joined_literals(
    alloc: Global,
    before: &Cube,
    behind: &[Lit],
) -> Result<Cube, NoMemory>
    ensures { IfOk result (λ r. r ≡ before.now ++ behind.now) }
{
    let mut joined = before.copy(alloc)?;
    for lit in behind {
        joined.push(*lit)?;
    }
    Ok(joined)
}

/// A cube that is longer by the literal.
pub(crate) fn longer_cube(alloc: Global, cube: &Cube, lit: Lit) -> Result<Cube, NoMemory>
    ensures { IfOk result (λ r. r ≡ cube.now ++ lit ∷ []) }
{
    let mut longer = cube.copy(alloc)?;
    longer.push(lit)?;
    Ok(longer)
}

// Whether the others have, wherever `under` holds, what the cube gains where the literal is left out.
fn has_gained(
    alloc: Global,
    others: &Constraint,
    without: &Cube,
    lit: Lit,
    under: &Constraint,
) -> Result<bool, NoMemory>
    ensures { IfOk result (λ b. IsTrue b → (e : List Atom) → IsTrue (holds e under.now) → IsTrue (cube_holds e without.now) → IsFalse (lit_holds e lit) → IsTrue (holds e others.now)) }
{
    let turned = alternatives(alloc, lit)?;
    for other in turned.as_slice() {
        let gained = longer_cube(alloc, without, *other)?;
        if !covers_cube(alloc, others, &gained, under)? {
            return Ok(false);
        }
    }
    Ok(true)
}

// The cube without the literals that can be left out, one after the other. What it gains by that lies outside of the cube, so
// the others have to have it.
fn weakened(
    alloc: Global,
    cube: &Cube,
    others: &Constraint,
    under: &Constraint,
) -> Result<Cube, NoMemory>
    ensures { IfOk result (IsWeakenedCube under.now (cube.now ∷ others.now) cube.now) }
{
    let literals = cube.as_slice();
    let mut kept = Cube::new(alloc);
    for (index, lit) in literals.iter().enumerate() {
        let without = joined_literals(alloc, &kept, &literals[index + 1..])?;
        if !has_gained(alloc, others, &without, *lit, under)? {
            kept.push(*lit)?;
        }
    }
    Ok(kept)
}

// The first cube goes behind the others, with what they haven't of it.
fn turned(alloc: Global, constraint: Constraint, under: &Constraint) -> Result<Constraint, NoMemory>
    ensures { IfOk result (IsShortened under.now constraint) }
{
    if constraint.len() == 0 {
        return Ok(constraint);
    }
    let mut cubes = constraint.into_vec();
    let first = cubes.remove(0);
    let mut others = constraint_of(alloc, cubes)?;
    if covers_cube(alloc, &others, &first, under)? {
        return Ok(others);
    }
    let short = weakened(alloc, &first, &others, under)?;
    others.push(short)?;
    Ok(others)
}

// A constraint that holds at the same choices as the given one wherever `under` does, without cubes that others have there, and
// without literals that aren't needed there.
fn shortened(alloc: Global, c: &Constraint, under: &Constraint) -> Result<Constraint, NoMemory>
    ensures { IfOk result (IsShortened under.now c.now) }
{
    let mut held = prune(alloc, c)?;
    for _ in 0..held.len() {
        held = turned(alloc, held, under)?;
    }
    Ok(held)
}

/// Whether the guard holds wherever `under` does. One cube of `under` at which it fails is enough.
pub(crate) fn follows(
    alloc: Global,
    guard: &Constraint,
    under: &Constraint,
) -> Result<bool, NoMemory>
    ensures yes { IfOk result (λ b. IsTrue b → (e : List Atom) → IsTrue (holds e under.now) → IsTrue (holds e guard.now)) }
    ensures no { IfOk result (λ b. IsFalse b → (e : List Atom) × IsTrue (holds e under.now) × IsFalse (holds e guard.now)) }
{
    for cube in under.as_slice() {
        let part = singleton(alloc, cube)?;
        let beyond = and_not(alloc, &part, guard)?;
        if beyond.len() != 0 {
            return Ok(false);
        }
    }
    Ok(true)
}

// Whether the guard speaks of the level.
fn speaks_of(guard: &Constraint, level: usize) -> bool
    ensures { IsTrue result ↔ GuardUses level guard.now }
{
    guard
        .as_slice()
        .iter()
        .any(|cube| cube_speaks_of(cube, level))
}

fn cube_speaks_of(cube: &Cube, level: usize) -> bool
    ensures { IsTrue result ↔ Any (LitUses level) cube.now }
{
    cube.as_slice()
        .iter()
        .any(|lit| lit.left == level || lit.right == level)
}

// Whether the constraint speaks of no level that the guard doesn't speak of.
fn uses_only(constraint: &Constraint, guard: &Constraint) -> bool
    ensures { IsTrue result → SpeaksOfAll guard.now constraint.now }
{
    for cube in constraint.as_slice() {
        if !cube_uses_only(cube, guard) {
            return false;
        }
    }
    true
}

fn cube_uses_only(cube: &Cube, guard: &Constraint) -> bool
    ensures { IsTrue result → All (SpeaksOfBoth guard.now) cube.now }
{
    for lit in cube.as_slice() {
        if !lit_uses_only(lit, guard) {
            return false;
        }
    }
    true
}

fn lit_uses_only(lit: &Lit, guard: &Constraint) -> bool
    ensures { IsTrue result ↔ SpeaksOfBoth guard.now lit.now }
{
    speaks_of(guard, lit.left) && speaks_of(guard, lit.right)
}

// Whether the constraint has neither `<` nor `<=`.
fn is_order_free(constraint: &Constraint) -> bool
    ensures { IsTrue result ↔ AdmitsConstraint false constraint.now }
{
    constraint
        .as_slice()
        .iter()
        .all(|cube| is_order_free_cube(cube))
}

fn is_order_free_cube(cube: &Cube) -> bool
    ensures { IsTrue result ↔ AdmitsCube false cube.now }
{
    cube.as_slice()
        .iter()
        .all(|lit| lit.op != Op::Lt && lit.op != Op::AtMost)
}

// Whether the constraint compares by the order of atoms only if the guard does.
fn has_no_more_order(constraint: &Constraint, guard: &Constraint) -> bool
    ensures { IsTrue result → (o : Bool) → AdmitsConstraint o guard.now → AdmitsConstraint o constraint.now }
{
    if is_order_free(constraint) {
        return true;
    }
    !is_order_free(guard)
}

// Whether the outer constraint is seen to hold wherever the inner one does.
fn holds_inside(
    alloc: Global,
    table: &Option<OrderTable>,
    inner: &Constraint,
    outer: &Constraint,
) -> Result<bool, NoMemory>
    ensures { IfOk result (λ b. IsTrue b → (e : List Atom) → IsTrue (holds e inner.now) → IsTrue (holds e outer.now)) }
{
    match table {
        Some(table) => is_seen_inside(alloc, table, inner, outer),
        None => follows(alloc, outer, inner),
    }
}

// Whether the other constraint stands for the guard wherever `under` holds, and has no level or operator that the guard hasn't.
fn says_the_same(
    alloc: Global,
    table: &Option<OrderTable>,
    other: &Constraint,
    guard: &Constraint,
    under: &Constraint,
) -> Result<bool, NoMemory>
    ensures { IfOk result (λ b. IsTrue b → IsShortened under.now guard.now other.now) }
{
    if !uses_only(other, guard) {
        return Ok(false);
    }
    if !has_no_more_order(other, guard) {
        return Ok(false);
    }
    let at_guard = meet(alloc, under, guard)?;
    if !holds_inside(alloc, table, &at_guard, other)? {
        return Ok(false);
    }
    let at_other = meet(alloc, under, other)?;
    holds_inside(alloc, table, &at_other, guard)
}

// Of the two the one that is shorter to read, if the other stands for the guard wherever `under` holds.
fn shorter(
    alloc: Global,
    short: Constraint,
    guard: &Constraint,
    whole: &Constraint,
    under: &Constraint,
) -> Result<Constraint, NoMemory>
    requires { IsShortened under.now guard.now short }
    ensures { IfOk result (IsShortened under.now guard.now) }
{
    let table = orders_for(alloc, guard, whole, under)?;
    let other = reworded(alloc, &table, guard, whole, under)?;
    if reads_shorter(&other, &short) && says_the_same(alloc, &table, &other, guard, under)? {
        return Ok(other);
    }
    Ok(short)
}

// The same, where a few choices are tried first.
fn always_follows(alloc: Global, guard: &Constraint, under: &Constraint) -> Result<bool, NoMemory>
    ensures yes { IfOk result (λ b. IsTrue b → (e : List Atom) → IsTrue (holds e under.now) → IsTrue (holds e guard.now)) }
    ensures no { IfOk result (λ b. IsFalse b → (e : List Atom) × IsTrue (holds e under.now) × IsFalse (holds e guard.now)) }
{
    if is_refuted(alloc, guard, under)? {
        return Ok(false);
    }
    follows(alloc, guard, under)
}

// Whether the constraint has no `<=`.
fn is_strict(constraint: &Constraint) -> bool
    ensures { IsTrue result ↔ IsStrictConstraint constraint.now }
{
    constraint
        .as_slice()
        .iter()
        .all(|cube| is_strict_cube(cube))
}

fn is_strict_cube(cube: &Cube) -> bool
    ensures { IsTrue result ↔ IsStrictCube cube.now }
{
    cube.as_slice().iter().all(|lit| lit.op != Op::AtMost)
}

// The constraint as it is where it has no `<=`, and otherwise with cubes without `<=` in the place of those that have it.
fn made_strict(alloc: Global, constraint: Constraint) -> Result<Constraint, NoMemory>
    ensures shortened { IfOk result (λ r. (u : List (List Lit)) → IsShortened u constraint r) }
    ensures strict { IfOk result IsStrictConstraint }
{
    if is_strict(&constraint) {
        return Ok(constraint);
    }
    split_constraint(alloc, &constraint)
}

// The constraint shortened, where that takes little time.
fn soon_shortened(
    alloc: Global,
    constraint: &Constraint,
    under: &Constraint,
) -> Result<Constraint, NoMemory>
    ensures { IfOk result (IsShortened under.now constraint.now) }
{
    if constraint.len() > MOST_SHORTENED {
        return constraint.copy(alloc);
    }
    shortened(alloc, constraint, under)
}

// A short constraint for the guard. Its parts without `<=` often need fewer literals than the whole.
fn reread(alloc: Global, guard: &Constraint, under: &Constraint) -> Result<Constraint, NoMemory>
    ensures { IfOk result (IsShortened under.now guard.now) }
{
    let own = guard.copy(alloc)?;
    let whole = made_strict(alloc, own)?;
    let short = soon_shortened(alloc, &whole, under)?;
    if !is_worth_rewording(guard, &whole, under) {
        return Ok(short);
    }
    shorter(alloc, short, guard, &whole, under)
}

/// A short constraint without `<=` that holds at the same choices as the guard wherever `under` does: `true` where the guard
/// holds wherever `under` does. Errors: `NoMemory`.
pub fn shortest(
    alloc: Global,
    guard: &Constraint,
    under: &Constraint,
) -> Result<Constraint, NoMemory>
    ensures shortened { IfOk result (IsShortened under.now guard.now) }
    ensures normalised { IfOk result IsNormalised }
    ensures plain { IfOk result (λ r. (n : ℕ) → ConstraintFits n under.now → ConstraintFits n guard.now → IsPlain r under.now n) }
{
    if always_follows(alloc, guard, under)? {
        return Constraint::always(alloc);
    }
    let short = reread(alloc, guard, under)?;
    let strict = made_strict(alloc, short)?;
    normalise(alloc, &strict)
}

/// A constraint that holds at the same choices as the guard wherever `under` does. Where it is to be read it is the shortest
/// without `<=` that is found, and otherwise one that is found at once.
pub(crate) fn reduced(
    alloc: Global,
    guard: &Constraint,
    under: &Constraint,
    brief: bool,
) -> Result<Constraint, NoMemory>
    ensures shortened { IfOk result (IsShortened under.now guard.now) }
    ensures normalised { IfOk result IsNormalised }
    ensures plain { IfOk result (λ r. IsTrue brief → (n : ℕ) → ConstraintFits n under.now → ConstraintFits n guard.now → IsPlain r under.now n) }
{
    let short = shortened(alloc, guard, under)?;
    if brief {
        return shortest(alloc, &short, under);
    }
    normalise(alloc, &short)
}

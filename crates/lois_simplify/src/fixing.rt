//! Binders that a comprehension can do without: those that are fixed to an earlier level, and those that don't occur.

ghost use Rattle.std.specs.Prelude.{◌≡◌, ℕ, ◌<◌, ◌≤◌, ◌⊎◌, ◌↔◌, List, [], ◌∷◌, ◌&&◌, IfOk, IfSome, IsNone, IsTrue, IsFalse};
ghost use Rattle.std.specs.List.{All, Contains};
ghost use Rattle.lois_base.specs.Atom.{Atom, equal};
ghost use Rattle.lois_base.specs.Fits.{ConstraintFits};
ghost use Rattle.lois_base.specs.Normal.{Occurs};
ghost use Rattle.lois_base.specs.Tree.{tree};
ghost use Rattle.lois_base.specs.Truth.{atom_at, lit_holds, holds};
ghost use Rattle.lois_deciders.specs.Satisfaction.{IsConstraintSample};
ghost use Rattle.lois_deciders.specs.Satisfiability.{ConstraintIsSatisfiable};
ghost use Rattle.lois_simplify.specs.Fixed.{IsFixed, CanBeApart};

use crate::oracle::Oracle;
use lois_base::{Constraint, Cube, Lit, NoMemory, Op, Term};
use lois_constraint::and;
use lois_terms::occurs;
use std::alloc::Global;

/// A binder, and an earlier level that has the same atom throughout.
#[derive(Clone, Copy, PartialEq, Eq, Debug)]
pub(crate) struct Fixed {
    pub(crate) binder: usize,
    pub(crate) level: usize,
}

fn apart(alloc: Global, left: usize, right: usize) -> Result<Constraint, NoMemory>
    ensures { IfOk result (λ r. r ≡ (record { op = Op.Ne; left = left; right = right } ∷ []) ∷ []) }
{
    let mut cube = Cube::new(alloc);
    cube.push(Lit {
        op: Op::Ne,
        left,
        right,
    })?;
    let mut constraint = Constraint::new(alloc);
    constraint.push(cube)?;
    Ok(constraint)
}

// Whether the binder has the atom of the level wherever the constraint holds. The sample tells of most pairs that they can
// differ. A question needs no pruned constraint.
fn is_fixed<D: Oracle>(
    alloc: Global,
    here: &Constraint,
    size: usize,
    binder: usize,
    level: usize,
    sample: &[u64],
    decider: &mut D,
) -> Result<bool, NoMemory>
    requires sound { D.sound }
    requires here { ConstraintFits size here.now }
    requires binder { binder < size }
    requires level { level < size }
    requires sample { IsConstraintSample size here.now sample.now }
    ensures fixed { IfOk result (λ b. IsTrue b → IsFixed size here.now binder level) }
    ensures free { IfOk result (λ b. IsFalse b → CanBeApart size here.now binder level) }
    ensures asked { D.reaches decider.old decider.new }
{
    if sample[level] != sample[binder] {
        return Ok(false);
    }
    let different = and(alloc, here, &apart(alloc, binder, level)?)?;
    let other = decider.sample(alloc, &different, size)?;
    Ok(other.is_none())
}

fn fixed_level<D: Oracle>(
    alloc: Global,
    here: &Constraint,
    size: usize,
    binder: usize,
    sample: &[u64],
    decider: &mut D,
) -> Result<Option<usize>, NoMemory>
    requires sound { D.sound }
    requires here { ConstraintFits size here.now }
    requires binder { binder < size }
    requires sample { IsConstraintSample size here.now sample.now }
    ensures some { IfOk result (λ o. IfSome o (λ a. (a < binder) × IsFixed size here.now binder a)) }
    ensures none { IfOk result (λ o. IsNone o → (a : ℕ) → a < binder → CanBeApart size here.now binder a) }
    ensures asked { D.reaches decider.old decider.new }
{
    for level in 0..binder {
        if is_fixed(alloc, here, size, binder, level, sample, decider)? {
            return Ok(Some(level));
        }
    }
    Ok(None)
}

/// The first binder from `from` on that is fixed to an earlier level wherever the constraint holds, with that level.
pub(crate) fn fixed_binder<D: Oracle>(
    alloc: Global,
    here: &Constraint,
    from: usize,
    size: usize,
    sample: &[u64],
    decider: &mut D,
) -> Result<Option<Fixed>, NoMemory>
    requires sound { D.sound }
    requires here { ConstraintFits size here.now }
    requires sample { IsConstraintSample size here.now sample.now }
    ensures range { IfOk result (λ o. IfSome o (λ f. (from ≤ f.binder) × (f.binder < size) × (f.level < f.binder))) }
    ensures some { IfOk result (λ o. IfSome o (λ f. IsFixed size here.now f.binder f.level)) }
    ensures none { IfOk result (λ o. IsNone o → (b : ℕ) → from ≤ b → b < size → (a : ℕ) → a < b → CanBeApart size here.now b a) }
    ensures asked { D.reaches decider.old decider.new }
{
    for binder in from..size {
        if let Some(level) = fixed_level(alloc, here, size, binder, sample, decider)? {
            return Ok(Some(Fixed { binder, level }));
        }
    }
    Ok(None)
}

/// The first binder from `from` on that doesn't occur in the item.
pub(crate) fn unused_binder(item: &Term, from: usize, size: usize) -> Option<usize>
    ensures range { IfSome result (λ b. (from ≤ b) × (b < size)) }
    ensures some { IfSome result (λ b. Occurs b (tree item.now) → ⊥) }
    ensures none { IsNone result → (b : ℕ) → from ≤ b → b < size → Occurs b (tree item.now) }
{
    for binder in from..size {
        if !occurs(binder, item) {
            return Some(binder);
        }
    }
    None
}

fn has_literal(cube: &Cube, lit: Lit) -> bool
    ensures { IsTrue result ↔ Contains cube.now lit }
{
    cube.as_slice().contains(&lit)
}

fn each_has(constraint: &Constraint, lit: Lit) -> bool
    ensures { IsTrue result ↔ All (λ (k : List Lit). Contains k lit) constraint.now }
{
    for cube in constraint.as_slice() {
        if !has_literal(cube, lit) {
            return false;
        }
    }
    true
}

// The higher of two levels where it is a binder in `from..to`, with the lower one.
fn higher_of(one: usize, other: usize, from: usize, to: usize) -> Option<Fixed>
    ensures range { IfSome result (λ f. (from ≤ f.binder) × (f.binder < to) × (f.level < f.binder)) }
    ensures levels { IfSome result (λ f. ((f.binder ≡ one) × (f.level ≡ other)) ⊎ ((f.binder ≡ other) × (f.level ≡ one))) }
{
    if from <= one && one < to && other < one {
        return Some(Fixed {
            binder: one,
            level: other,
        });
    }
    if from <= other && other < to && one < other {
        return Some(Fixed {
            binder: other,
            level: one,
        });
    }
    None
}

// The binder in `from..to` that the literal says to be equal to an earlier level.
fn tie_of(lit: Lit, from: usize, to: usize) -> Option<Fixed>
    ensures range { IfSome result (λ f. (from ≤ f.binder) × (f.binder < to) × (f.level < f.binder)) }
    ensures tied { IfSome result (λ f. (c : List Atom) → IsTrue (lit_holds c lit) → IsTrue (equal (atom_at c f.binder) (atom_at c f.level))) }
{
    if lit.op != Op::Eq {
        return None;
    }
    higher_of(lit.left, lit.right, from, to)
}

/// A binder in `from..to` that each cube says to be equal to an earlier level, with that level.
pub(crate) fn tied_binder(guard: &Constraint, from: usize, to: usize) -> Option<Fixed>
    ensures range { IfSome result (λ f. (from ≤ f.binder) × (f.binder < to) × (f.level < f.binder)) }
    ensures tied { IfSome result (λ f. (n : ℕ) → IsFixed n guard.now f.binder f.level) }
{
    let Some(first) = guard.get(0) else {
        return None;
    };
    for lit in first.as_slice() {
        if let Some(tie) = tie_of(*lit, from, to) {
            if each_has(guard, *lit) {
                return Some(tie);
            }
        }
    }
    None
}

//! The order of literals in a cube, and of cubes in a constraint.

ghost use Rattle.std.specs.Prelude.{◌≡◌, ◌↔◌, IsTrue, IsFalse};
ghost use Rattle.std.specs.List.{AllPairs, Contains};
ghost use Rattle.std.specs.List.Sorted.{IsPermutation};
ghost use Rattle.std.specs.Ordering.{is_lt, is_eq};
ghost use Rattle.lois_base.specs.declared.guards.Lit.{Lit};
ghost use Rattle.lois_constraint.specs.Normalised.{lit_before, lit_same, cube_before, op_rank};

use lois_base::{Cube, Lit, Op};
use std::cmp::Ordering;

fn rank(op: Op) -> u8
    ensures { result ≡ op_rank op }
{
    match op {
        Op::Eq => 0,
        Op::Ne => 1,
        Op::Lt => 2,
        Op::AtMost => 3,
    }
}

fn compare_literals(a: Lit, b: Lit) -> Ordering
    ensures before { is_lt result ≡ lit_before a b }
    ensures same { is_eq result ≡ lit_same a b }
{
    (a.left, a.right, rank(a.op)).cmp(&(b.left, b.right, rank(b.op)))
}

fn compare_cubes(a: &Cube, b: &Cube) -> Ordering
    ensures { is_lt result ≡ cube_before a.now b.now }
{
    for (index, lit) in a.as_slice().iter().enumerate() {
        let Some(other) = b.get(index) else {
            return Ordering::Greater;
        };
        let order = compare_literals(*lit, *other);
        if order.is_ne() {
            return order;
        }
    }
    a.len().cmp(&b.len())
}

/// Sorts the literals, and leaves each once.
pub(crate) fn sort_literals(literals: &mut Vec<Lit>)
    ensures same { (l : Lit) → Contains literals.old.items l ↔ Contains literals.new.items l }
    ensures increasing { AllPairs (λ l m. IsTrue (lit_before l m)) literals.new.items }
{
    literals.sort_unstable_by(|a, b| compare_literals(*a, *b));
    literals.dedup();
}

/// Sorts the cubes.
pub(crate) fn sort_cubes(cubes: &mut Vec<Cube>)
    ensures permutation { IsPermutation cubes.old.items cubes.new.items }
    ensures sorted { AllPairs (λ a b. IsFalse (cube_before b a)) cubes.new.items }
{
    cubes.sort_unstable_by(|a, b| compare_cubes(a, b));
}

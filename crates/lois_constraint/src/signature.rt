//! What cubes show at a glance. Most cubes that don't entail another one are seen not to, by two reads of a word.

ghost use Rattle.std.specs.Prelude.{◌≡◌, ℕ, ◌<◌, IsTrue, ◌↔◌, IfOk};
ghost use Rattle.std.specs.Int.{bit_at};
ghost use Rattle.std.specs.List.{All};
ghost use Rattle.lois_base.specs.declared.guards.Lit.{Lit};
ghost use Rattle.lois_constraint.specs.Entailment.{Entails};
ghost use Rattle.lois_constraint.specs.Signature.{bit_index, RecordsLit, MatchesMask};

use crate::closed_cube::ClosedCube;
use lois_base::{Cube, Lit, NoMemory, Op};
use std::alloc::Global;
use std::boxed::Box;
use std::marker::Model;

// How many levels a signature tells of: each two of them have a bit of a word.
const LEVELS: usize = 8;

/// What a cube asks of the order of a cube that entails it: bits that it has, and bits that it lacks.
#[derive(Clone, Copy)]
struct SignatureMask {
    needed: u64,
    refused: u64,
}

// The bit that says that one level is at most another, or none where one of them has no bits.
fn bit(low: usize, high: usize) -> u64
    ensures { (i : ℕ) → bit_at result i ≡ 1 → (low < 8) × (high < 8) × (i ≡ bit_index low high) }
{
    if low < LEVELS && high < LEVELS {
        1_u64 << (LEVELS * low + high)
    } else {
        0
    }
}

impl SignatureMask {
    // What one literal asks.
    fn of_literal(lit: Lit) -> SignatureMask
        ensures { (order : ℕ) → RecordsLit order lit → MatchesMask order result.needed result.refused }
    {
        let up = bit(lit.left, lit.right);
        let down = bit(lit.right, lit.left);
        match lit.op {
            Op::Eq => SignatureMask {
                needed: up | down,
                refused: 0,
            },
            Op::Ne => SignatureMask {
                needed: 0,
                refused: 0,
            },
            Op::Lt => SignatureMask {
                needed: up,
                refused: down,
            },
            Op::AtMost => SignatureMask {
                needed: up,
                refused: 0,
            },
        }
    }

    // What both ask.
    fn and(self, other: SignatureMask) -> SignatureMask
        ensures { (order : ℕ) → MatchesMask order self.needed self.refused → MatchesMask order other.needed other.refused → MatchesMask order result.needed result.refused }
    {
        SignatureMask {
            needed: self.needed | other.needed,
            refused: self.refused | other.refused,
        }
    }

    // What the literals ask.
    fn of(cube: &Cube) -> SignatureMask
        ensures { (order : ℕ) → All (RecordsLit order) cube.now → MatchesMask order result.needed result.refused }
    {
        let mut demands = SignatureMask {
            needed: 0,
            refused: 0,
        };
        for lit in cube.as_slice() {
            demands = demands.and(SignatureMask::of_literal(*lit));
        }
        demands
    }

    // Whether the order has what it should have, and nothing that it shouldn't.
    fn are_met(self, order: u64) -> bool
        ensures { MatchesMask order self.needed self.refused → IsTrue result }
    {
        order & self.needed == self.needed && order & self.refused == 0
    }
}

/// A cube that can be met, with what it shows at a glance.
#[derive(Drop)]
pub(crate) struct IndexedCube {
    order: u64,
    demands: SignatureMask,
    closed: Box<ClosedCube>,
}

impl Model for IndexedCube {
    ghost use Rattle.std.specs.Prelude.{ℕ, List};
    ghost use Rattle.std.specs.List.{All};
    ghost use Rattle.lois_base.specs.declared.guards.Lit.{Lit};
    ghost use Rattle.lois_constraint.specs.Entailment.{CubeIsSatisfiable};
    ghost use Rattle.lois_constraint.specs.Signature.{EntailsLit, RecordsLit, MatchesMask};

    ghost Value = { List Lit };

    ghost view = { λ p. p.closed.value };

    ghost invariant = { λ p. CubeIsSatisfiable p.closed.value × ((l : Lit) → EntailsLit p.closed.value l → RecordsLit p.order l) × ((order : ℕ) → All (RecordsLit order) p.closed.value → MatchesMask order p.demands.needed p.demands.refused) };
}

impl IndexedCube {
    /// The cube with its signature.
    pub(crate) fn of(alloc: Global, closed: ClosedCube) -> Result<IndexedCube, NoMemory>
        ensures { IfOk result (λ r. r ≡ closed) }
    {
        Ok(IndexedCube {
            order: closed.order(),
            demands: SignatureMask::of(closed.cube()),
            closed: Box::new(alloc, closed)?,
        })
    }

    /// The cube.
    pub(crate) fn closed(&self) -> &ClosedCube
        ensures { result.now ≡ self.now }
    {
        &self.closed
    }

    /// The cube by itself.
    pub(crate) fn into_closed(self) -> ClosedCube
        ensures { result ≡ self }
    {
        let IndexedCube { closed, .. } = self;
        Box::into_inner(closed)
    }

    /// Whether the other cube holds wherever this one does.
    pub(crate) fn entails_cube(&self, other: &IndexedCube) -> bool
        ensures { IsTrue result ↔ Entails self.now other.now }
    {
        other.demands.are_met(self.order) && self.closed.entails_cube(other.closed.cube())
    }
}

//! The order that a cube puts its levels in: one word where all are low, and else rows.

ghost use Rattle.std.specs.Prelude.{◌≡◌, ℕ, ◌+◌, ◌*◌, List, ◌<◌, ◌==◌, false, IsFalse, IfOk, OnOk};
ghost use Rattle.std.specs.Int.{bit_at};
ghost use Rattle.lois_constraint.specs.Order.{is_implied, is_refuted, linked, extended};
ghost use Rattle.lois_constraint.specs.LevelOrders.{is_at_most};

use crate::denying::denial;
use crate::low_levels::{self, link_low, low_rows};
use crate::order_closure::{self, EACH_ITSELF, LOW_LEVELS, Row, copy_rows, link_rows, low_order};
use lois_base::{Cube, Lit, NoMemory, Op};
use std::alloc::Global;
use std::mem;

/// Which levels are at most which.
// Most cubes speak of low levels alone. Their order takes no allocation: bit 8 * a + b says that level a is at most b.
#[derive(Drop)]
pub(crate) enum LevelOrder {
    Low(u64),
    Far(Vec<Row>),
}

impl LevelOrder {
    /// Each level is at most itself alone.
    pub(crate) fn new() -> Self
        ensures { (a b : ℕ) → is_at_most result a b ≡ (a == b) }
    {
        LevelOrder::Low(0)
    }

    /// An equal order.
    pub(crate) fn copy(&self, alloc: Global) -> Result<Self, NoMemory>
        ensures { IfOk result (λ r. (a b : ℕ) → is_at_most r a b ≡ is_at_most self.now a b) }
    {
        match self {
            LevelOrder::Low(word) => Ok(LevelOrder::Low(*word)),
            LevelOrder::Far(rows) => Ok(LevelOrder::Far(copy_rows(alloc, rows)?)),
        }
    }

    /// The order of the levels below eight: bit 8 * a + b says whether level a is at most b.
    pub(crate) fn low_levels(&self) -> u64
        ensures { (a b : ℕ) → a < 8 → b < 8 → (bit_at result (8 * a + b) == 1) ≡ is_at_most self.now a b }
    {
        match self {
            LevelOrder::Low(word) => *word | EACH_ITSELF,
            LevelOrder::Far(rows) => low_order(rows),
        }
    }

    // `low` is at most `high`, in rows.
    #[cold]
    #[inline(never)]
    fn link_far(&mut self, alloc: Global, low: usize, high: usize) -> Result<(), NoMemory>
        ensures { OnOk result ((a b : ℕ) → is_at_most self.new a b ≡ linked low high (is_at_most self.old) a b) }
    {
        let rows = match mem::replace(self, LevelOrder::new()) {
            LevelOrder::Low(word) => low_rows(alloc, word)?,
            LevelOrder::Far(rows) => rows,
        };
        *self = LevelOrder::Far(link_rows(alloc, rows, low, high)?);
        Ok(())
    }

    // `low` is at most `high`.
    #[inline(always)]
    fn link(&mut self, alloc: Global, low: usize, high: usize) -> Result<(), NoMemory>
        ensures { OnOk result ((a b : ℕ) → is_at_most self.new a b ≡ linked low high (is_at_most self.old) a b) }
    {
        if let LevelOrder::Low(word) = self {
            if low < LOW_LEVELS && high < LOW_LEVELS {
                *word = link_low(*word | EACH_ITSELF, low, high);
                return Ok(());
            }
        }
        self.link_far(alloc, low, high)
    }

    /// One literal more of the cube.
    pub(crate) fn extend(&mut self, alloc: Global, lit: Lit) -> Result<(), NoMemory>
        ensures { OnOk result ((a b : ℕ) → is_at_most self.new a b ≡ extended lit.op lit.left lit.right (is_at_most self.old) a b) }
    {
        let Lit { op, left, right } = lit;
        match op {
            Op::Eq => {
                self.link(alloc, left, right)?;
                self.link(alloc, right, left)
            }
            Op::Ne => Ok(()),
            Op::Lt | Op::AtMost => self.link(alloc, left, right),
        }
    }
}

/// Whether the levels stand so in the order that the literal may follow: what takes no walk over literals.
#[inline(always)]
pub(crate) fn may_be_implied(order: &LevelOrder, lit: Lit) -> bool
    ensures { IsFalse result → (k : List Lit) → is_implied (is_at_most order.now) k lit.op lit.left lit.right ≡ false }
{
    match order {
        LevelOrder::Low(word) => low_levels::may_be_low_implied(*word, lit),
        LevelOrder::Far(rows) => order_closure::may_be_implied(rows, lit),
    }
}

/// Whether the literal follows from the cube, whose order this is.
#[inline(always)]
pub(crate) fn is_implied(order: &LevelOrder, cube: &Cube, lit: Lit) -> bool
    ensures { result ≡ is_implied (is_at_most order.now) cube.now lit.op lit.left lit.right }
{
    match order {
        LevelOrder::Low(word) => low_levels::is_low_implied(*word, cube, lit),
        LevelOrder::Far(rows) => order_closure::is_implied(rows, cube, lit),
    }
}

/// Whether the literal contradicts the cube, whose order this is.
#[inline(always)]
pub(crate) fn is_refuted(order: &LevelOrder, cube: &Cube, lit: Lit) -> bool
    ensures { result ≡ is_refuted (is_at_most order.now) cube.now lit.op lit.left lit.right }
{
    is_implied(order, cube, denial(lit))
}

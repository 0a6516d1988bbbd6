//! The order of the levels below eight, in one word: bit 8 * a + b says that level a is at most b.

ghost use Rattle.std.specs.Prelude.{◌≡◌, ℕ, ◌+◌, ◌*◌, ◌/◌, ◌^◌, List, bit_and, ◌<◌, ◌||◌, ◌&&◌, ◌==◌, false, IsFalse, IfOk};
ghost use Rattle.std.specs.Int.{bit_at};
ghost use Rattle.lois_constraint.specs.Order.{at_most, is_tied, is_apart, lies_between, joins, sets_apart, are_apart, is_implied, linked};
ghost use Rattle.lois_constraint.specs.LevelOrders.{has_bit, low_at_most};

use crate::order_closure::{EACH_ITSELF, LOW_LEVELS, Row, is_apart};
use lois_base::{Cube, Lit, NoMemory, Op};
use std::alloc::Global;

// The first bit of each row of the word.
const FIRST_BITS: u64 = 0x0101_0101_0101_0101;

// The levels of one row of the word.
const ALL_LOW: u64 = 0xFF;

// Whether the word says that the one low level is at most the other.
#[inline(always)]
fn has_bit(word: u64, low: usize, high: usize) -> bool
    requires low { low < 8 }
    requires high { high < 8 }
    ensures { result ≡ has_bit word low high }
{
    (word >> (LOW_LEVELS * low + high)) & 1 == 1
}

// Whether one low level is at most another.
#[inline(always)]
fn stands_below(word: u64, low: usize, high: usize) -> bool
    requires low { low < 8 }
    requires high { high < 8 }
    ensures { result ≡ low_at_most word low high }
{
    has_bit(word | EACH_ITSELF, low, high)
}

// Whether one level is at most another.
#[inline(always)]
fn low_at_most(word: u64, low: usize, high: usize) -> bool
    ensures { result ≡ low_at_most word low high }
{
    if low < LOW_LEVELS && high < LOW_LEVELS {
        stands_below(word, low, high)
    } else {
        low == high
    }
}

// The low levels that one of them is at most.
#[inline(always)]
#[tactic(auto, using(crate::proofs::LowOrders::row_bit, crate::proofs::Lows::low_bound))]
fn low_row(word: u64, level: usize) -> u64
    requires { level < 8 }
    ensures levels { (b : ℕ) → b < 8 → (bit_at result b == 1) ≡ has_bit word level b }
    ensures low { result < 2 ^ 8 }
    ensures same { result ≡ bit_and (word / 2 ^ (8 * level)) 255 }
{
    (word >> (LOW_LEVELS * level)) & ALL_LOW
}

/// The word with one low level at most another one: those at most the one are at most those that the other is at most.
// A word with one bit a row, times a row, has the row wherever the bit is.
pub(crate) fn link_low(order: u64, low: usize, high: usize) -> u64
    requires low { low < 8 }
    requires high { high < 8 }
    ensures { (a b : ℕ) → a < 8 → b < 8 → has_bit result a b ≡ linked low high (has_bit order) a b }
{
    let having_low = (order >> low) & FIRST_BITS;
    order | having_low * low_row(order, high)
}

/// The rows of the low levels.
pub(crate) fn low_rows(alloc: Global, word: u64) -> Result<Vec<Row>, NoMemory>
    ensures { IfOk result (λ r. (a b : ℕ) → at_most r.items a b ≡ low_at_most word a b) }
{
    let mut rows = Vec::with_capacity(alloc, LOW_LEVELS)?;
    for level in 0..LOW_LEVELS {
        rows.push_reserved(Row::of_word(alloc, low_row(word, level)));
    }
    Ok(rows)
}

// Whether both levels of the literal lie from the one level on up to the other.
#[inline(always)]
fn lies_between(word: u64, lit: Lit, low: usize, high: usize) -> bool
    ensures { result ≡ lies_between (low_at_most word) low high lit }
{
    (low_at_most(word, low, lit.left) && low_at_most(word, lit.left, high))
        && (low_at_most(word, low, lit.right) && low_at_most(word, lit.right, high))
}

// Whether each of two levels is at most the other.
#[inline(always)]
fn are_tied(word: u64, a: usize, b: usize) -> bool
    ensures { result ≡ is_tied (low_at_most word) a b }
{
    low_at_most(word, a, b) && low_at_most(word, b, a)
}

// Whether the levels of the literal are tied to the two levels.
#[inline(always)]
fn joins(word: u64, lit: Lit, a: usize, b: usize) -> bool
    ensures { result ≡ joins (low_at_most word) a b lit }
{
    are_tied(word, lit.left, a) && are_tied(word, lit.right, b)
}

// Whether one of the two levels is at most the third.
#[inline(always)]
fn is_above_one(word: u64, level: usize, a: usize, b: usize) -> bool
    ensures { result ≡ (low_at_most word a level || low_at_most word b level) }
{
    low_at_most(word, a, level) || low_at_most(word, b, level)
}

// Mostly a level of the literal lies above neither, which takes two looks.
#[inline(always)]
fn sets_apart(word: u64, lit: Lit, a: usize, b: usize) -> bool
    ensures { result ≡ sets_apart (low_at_most word) a b lit }
{
    if !is_apart(lit.op) {
        return false;
    }
    if !is_above_one(word, lit.left, a, b) {
        return false;
    }
    if !is_above_one(word, lit.right, a, b) {
        return false;
    }
    (lies_between(word, lit, a, b) || lies_between(word, lit, b, a))
        || (joins(word, lit, a, b) || joins(word, lit, b, a))
}

// Whether some literal sets the levels apart.
fn are_apart(word: u64, cube: &Cube, a: usize, b: usize) -> bool
    ensures { result ≡ are_apart (low_at_most word) cube.now a b }
{
    for lit in cube.as_slice() {
        if sets_apart(word, *lit, a, b) {
            return true;
        }
    }
    false
}

/// Whether the levels of the literal stand so that it may follow.
#[inline(always)]
pub(crate) fn may_be_low_implied(word: u64, lit: Lit) -> bool
    ensures { IsFalse result → (k : List Lit) → is_implied (low_at_most word) k lit.op lit.left lit.right ≡ false }
{
    match lit.op {
        Op::Eq => are_tied(word, lit.left, lit.right),
        Op::Ne => true,
        Op::Lt | Op::AtMost => low_at_most(word, lit.left, lit.right),
    }
}

/// Whether the literal follows from the cube, whose order the word has.
pub(crate) fn is_low_implied(word: u64, cube: &Cube, lit: Lit) -> bool
    ensures { result ≡ is_implied (low_at_most word) cube.now lit.op lit.left lit.right }
{
    match lit.op {
        Op::Eq => are_tied(word, lit.left, lit.right),
        Op::Ne => are_apart(word, cube, lit.left, lit.right),
        Op::Lt => {
            low_at_most(word, lit.left, lit.right) && are_apart(word, cube, lit.left, lit.right)
        }
        Op::AtMost => low_at_most(word, lit.left, lit.right),
    }
}

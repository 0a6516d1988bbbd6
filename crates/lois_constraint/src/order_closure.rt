//! The levels that a cube puts at most as high as others, in a table that levels index.

ghost use Rattle.std.specs.Prelude.{◌≡◌, ◌≢◌, ℕ, ◌+◌, ◌*◌, ◌^◌, Bool, List, [], ◌∷◌, length, max, vec_len, ◌<◌, ◌≤◌, get_or, bit_or, ◌||◌, ◌&&◌, ◌==◌, false, IsFalse, IfOk, OnOk};
ghost use Rattle.std.specs.Int.{bit_at};
ghost use Rattle.lois_constraint.specs.Order.{reaches, at_most, are_at_most, is_tied, is_apart, lies_between, joins, sets_apart, are_apart, is_implied, is_refuted, linked, extended};

use lois_base::{Cube, Lit, NoMemory, Op};
use std::alloc::Global;
use std::marker::Model;

// As many levels as a word has bits.
const WORD_LEVELS: usize = 64;

/// How many levels are low, so that one word has their order.
pub(crate) const LOW_LEVELS: usize = 8;

/// Each low level is at most itself: bit 8 * a + b of a word says that level a is at most b.
pub(crate) const EACH_ITSELF: u64 = 0x8040_2010_0804_0201;

/// Which levels are at least as high as one level: a bit for each, in words. Those beyond the end aren't.
// Most cubes speak of levels below 64 alone. Their rows take no allocation, and what is cold here is only for the words beyond the first.
#[derive(Drop)]
pub(crate) struct Row {
    first: u64,
    more: Vec<u64>,
}

impl Model for Row {
    ghost use Rattle.std.specs.Prelude.{ℕ, List, ◌∷◌};

    ghost Value = { List ℕ };

    ghost view = { λ r. r.first ∷ r.more.items };
}

impl Row {
    // The levels of one word.
    #[tactic(auto, using(crate::proofs::Words::beyond_first))]
    fn word(&self, index: usize) -> u64
        ensures { result ≡ get_or self.now index 0 }
    {
        if index == 0 {
            return self.first;
        }
        match self.more.get(index - 1) {
            Some(word) => *word,
            None => 0,
        }
    }

    #[inline(always)]
    #[tactic(auto, using(crate::proofs::Words::first_read))]
    fn reaches(&self, level: usize) -> bool
        ensures { result ≡ reaches self.now level }
    {
        if level < WORD_LEVELS {
            return (self.first >> level) & 1 == 1;
        }
        self.reaches_far(level)
    }

    // The same, by the word that has the level.
    #[cold]
    #[inline(never)]
    #[tactic(auto, using(crate::proofs::Words::bit_read))]
    fn reaches_far(&self, level: usize) -> bool
        ensures { result ≡ reaches self.now level }
    {
        (self.word(level / WORD_LEVELS) >> (level % WORD_LEVELS)) & 1 == 1
    }

    // The low levels that it has.
    #[tactic(auto, using(crate::proofs::Lows::low_bit, crate::proofs::Lows::low_bound))]
    fn low_levels(&self) -> u64
        ensures levels { (b : ℕ) → b < 8 → (bit_at result b == 1) ≡ reaches self.now b }
        ensures low { result < 2 ^ 8 }
    {
        self.first & 0xFF
    }

    // The row without levels.
    #[tactic(auto, using(crate::proofs::Words::reaches_no_bit))]
    fn empty(alloc: Global) -> Row
        ensures { (b : ℕ) → IsFalse (reaches result b) }
    {
        Row {
            first: 0,
            more: Vec::new(alloc),
        }
    }

    /// The row of the levels of one word.
    pub(crate) fn of_word(alloc: Global, word: u64) -> Row
        ensures { result ≡ word ∷ [] }
    {
        Row {
            first: word,
            more: Vec::new(alloc),
        }
    }

    // One level more.
    #[tactic(auto, using(crate::proofs::Words::put_first, crate::proofs::Words::put_beyond))]
    fn put(&mut self, level: usize) -> Result<(), NoMemory>
        ensures { OnOk result ((b : ℕ) → reaches self.new b ≡ (level == b || reaches self.old b)) }
    {
        let bit = 1_u64 << (level % WORD_LEVELS);
        if level < WORD_LEVELS {
            self.first |= bit;
            return Ok(());
        }
        put_word(&mut self.more, level / WORD_LEVELS - 1, bit)
    }

    // The levels of another row too.
    #[inline(always)]
    #[tactic(auto, using(crate::proofs::Words::rows_joined, crate::proofs::Words::first_joined))]
    fn join(&mut self, other: &Row) -> Result<(), NoMemory>
        ensures { OnOk result ((b : ℕ) → reaches self.new b ≡ (reaches self.old b || reaches other.now b)) }
    {
        self.first |= other.first;
        if other.more.is_empty() {
            return Ok(());
        }
        join_words(&mut self.more, &other.more)
    }

    // The levels of another row too, if it has the given one.
    fn raise(&mut self, level: usize, more: &Row) -> Result<(), NoMemory>
        ensures { OnOk result ((b : ℕ) → reaches self.new b ≡ (reaches self.old b || (reaches self.old level && reaches more.now b))) }
    {
        if self.reaches(level) {
            return self.join(more);
        }
        Ok(())
    }

    /// An equal row.
    #[inline(always)]
    fn copy(&self, alloc: Global) -> Result<Row, NoMemory>
        ensures { IfOk result (λ r. r ≡ self.now) }
    {
        Ok(Row {
            first: self.first,
            more: copy_words(alloc, &self.more)?,
        })
    }
}

// Equal words.
#[inline]
fn copy_words(alloc: Global, words: &[u64]) -> Result<Vec<u64>, NoMemory>
    ensures { IfOk result (λ w. w.items ≡ words.now) }
{
    if words.is_empty() {
        return Ok(Vec::new(alloc));
    }
    copy_some_words(alloc, words)
}

// The same, where there are some.
#[cold]
#[inline(never)]
fn copy_some_words(alloc: Global, words: &[u64]) -> Result<Vec<u64>, NoMemory>
    ensures { IfOk result (λ w. w.items ≡ words.now) }
{
    Ok(Vec::from_slice(alloc, words)?)
}

// As many zeros as are missing.
#[tactic(auto, using(crate::proofs::Words::zeros_more))]
fn grow(words: &mut Vec<u64>, length: usize) -> Result<(), NoMemory>
    ensures same { OnOk result ((i : ℕ) → get_or words.new.items i 0 ≡ get_or words.old.items i 0) }
    ensures there { OnOk result (length ≤ vec_len words.new) }
{
    if length <= words.len() {
        return Ok(());
    }
    words.resize(length, 0)?;
    Ok(())
}

// The bits of one word more.
#[cold]
#[inline(never)]
fn put_word(words: &mut Vec<u64>, index: usize, bits: u64) -> Result<(), NoMemory>
    requires { index < usize.MAX }
    ensures here { OnOk result (get_or words.new.items index 0 ≡ bit_or (get_or words.old.items index 0) bits) }
    ensures others { OnOk result ((i : ℕ) → i ≢ index → get_or words.new.items i 0 ≡ get_or words.old.items i 0) }
{
    grow(words, index + 1)?;
    words[index] |= bits;
    Ok(())
}

// The bits of other words, of which there aren't more.
fn join_all(words: &mut [u64], others: &[u64])
    requires { length others.now ≤ length words.old }
    ensures { (i : ℕ) → get_or words.new i 0 ≡ bit_or (get_or words.old i 0) (get_or others.now i 0) }
{
    for index in 0..others.len() {
        words[index] |= others[index];
    }
}

// The bits of other words too.
#[cold]
#[inline(never)]
fn join_words(words: &mut Vec<u64>, others: &[u64]) -> Result<(), NoMemory>
    ensures { OnOk result ((i : ℕ) → get_or words.new.items i 0 ≡ bit_or (get_or words.old.items i 0) (get_or others.now i 0)) }
{
    grow(words, others.len())?;
    join_all(words, others);
    Ok(())
}

/// Equal rows.
pub(crate) fn copy_rows(alloc: Global, rows: &[Row]) -> Result<Vec<Row>, NoMemory>
    ensures { IfOk result (λ r. r.items ≡ rows.now) }
{
    let mut copy = Vec::with_capacity(alloc, rows.len())?;
    for row in rows {
        let same = row.copy(alloc)?;
        copy.push_reserved(same);
    }
    Ok(copy)
}

// Whether the row of one level has another one.
#[inline(always)]
#[tactic(auto, using(crate::proofs::Words::reaches_nothing))]
fn are_at_most(rows: &[Row], low: usize, high: usize) -> bool
    ensures { result ≡ are_at_most rows.now low high }
{
    match rows.get(low) {
        Some(row) => row.reaches(high),
        None => false,
    }
}

// Whether one level is at most another.
fn at_most(rows: &[Row], low: usize, high: usize) -> bool
    ensures { result ≡ at_most rows.now low high }
{
    low == high || are_at_most(rows, low, high)
}

/// The order of the levels below eight: bit 8 * a + b says whether level a is at most b.
#[tactic(auto, using(crate::proofs::Lows::diagonal))]
pub(crate) fn low_order(rows: &[Row]) -> u64
    ensures { (a b : ℕ) → a < 8 → b < 8 → (bit_at result (8 * a + b) == 1) ≡ at_most rows.now a b }
{
    let mut order = EACH_ITSELF;
    for level in 0..rows.len().min(LOW_LEVELS) {
        order |= rows[level].low_levels() << (8 * level);
    }
    order
}

/// Whether the operator says that its levels differ.
pub(crate) fn is_apart(op: Op) -> bool
    ensures { result ≡ is_apart op }
{
    match op {
        Op::Ne | Op::Lt => true,
        Op::Eq | Op::AtMost => false,
    }
}

// Whether each of two levels is at most the other.
#[inline(always)]
fn are_tied(rows: &[Row], a: usize, b: usize) -> bool
    ensures { result ≡ is_tied (at_most rows.now) a b }
{
    at_most(rows, a, b) && at_most(rows, b, a)
}

// Whether both levels of the literal lie from the one level on up to the other.
fn lies_between(rows: &[Row], lit: Lit, low: usize, high: usize) -> bool
    ensures { result ≡ lies_between (at_most rows.now) low high lit }
{
    (at_most(rows, low, lit.left) && at_most(rows, lit.left, high))
        && (at_most(rows, low, lit.right) && at_most(rows, lit.right, high))
}

// Whether the levels of the literal are tied to the two levels.
fn joins(rows: &[Row], lit: Lit, a: usize, b: usize) -> bool
    ensures { result ≡ joins (at_most rows.now) a b lit }
{
    are_tied(rows, lit.left, a) && are_tied(rows, lit.right, b)
}

// Whether one of the two levels is at most the third.
#[inline(always)]
fn is_above_one(rows: &[Row], level: usize, a: usize, b: usize) -> bool
    ensures { result ≡ (at_most rows.now a level || at_most rows.now b level) }
{
    at_most(rows, a, level) || at_most(rows, b, level)
}

// Mostly a level of the literal lies above neither, which takes two looks.
fn sets_apart(rows: &[Row], lit: Lit, a: usize, b: usize) -> bool
    ensures { result ≡ sets_apart (at_most rows.now) a b lit }
{
    if !is_apart(lit.op) {
        return false;
    }
    if !is_above_one(rows, lit.left, a, b) {
        return false;
    }
    if !is_above_one(rows, lit.right, a, b) {
        return false;
    }
    (lies_between(rows, lit, a, b) || lies_between(rows, lit, b, a))
        || (joins(rows, lit, a, b) || joins(rows, lit, b, a))
}

// Whether some literal sets the levels apart.
fn are_apart(rows: &[Row], cube: &Cube, a: usize, b: usize) -> bool
    ensures { result ≡ are_apart (at_most rows.now) cube.now a b }
{
    cube.as_slice()
        .iter()
        .any(|lit| sets_apart(rows, *lit, a, b))
}

/// Whether the levels stand so in the rows that the literal may follow: what takes no walk over literals.
pub(crate) fn may_be_implied(rows: &[Row], lit: Lit) -> bool
    ensures { IsFalse result → (k : List Lit) → is_implied (at_most rows.now) k lit.op lit.left lit.right ≡ false }
{
    match lit.op {
        Op::Eq => are_tied(rows, lit.left, lit.right),
        Op::Ne => true,
        Op::Lt | Op::AtMost => at_most(rows, lit.left, lit.right),
    }
}

/// Whether the literal follows from the cube, whose rows these are.
// The rows are read first, since the literals are walked.
#[inline(always)]
pub(crate) fn is_implied(rows: &[Row], cube: &Cube, lit: Lit) -> bool
    ensures { result ≡ is_implied (at_most rows.now) cube.now lit.op lit.left lit.right }
{
    match lit.op {
        Op::Eq => are_tied(rows, lit.left, lit.right),
        Op::Ne => are_apart(rows, cube, lit.left, lit.right),
        Op::Lt => {
            at_most(rows, lit.left, lit.right) && are_apart(rows, cube, lit.left, lit.right)
        }
        Op::AtMost => at_most(rows, lit.left, lit.right),
    }
}

// The level, and those that are at least as high.
fn from_on(alloc: Global, rows: &[Row], level: usize) -> Result<Row, NoMemory>
    ensures { IfOk result (λ r. (b : ℕ) → reaches r b ≡ at_most rows.now level b) }
{
    let mut above = copy_row(alloc, rows, level)?;
    above.put(level)?;
    Ok(above)
}

// An equal row, or an empty one where there is none.
#[tactic(auto, using(crate::proofs::Words::no_row))]
fn copy_row(alloc: Global, rows: &[Row], level: usize) -> Result<Row, NoMemory>
    ensures { IfOk result (λ r. (b : ℕ) → reaches r b ≡ are_at_most rows.now level b) }
{
    match rows.get(level) {
        Some(row) => row.copy(alloc),
        None => Ok(Row::empty(alloc)),
    }
}

// More levels above those that are at most the given one.
fn raise(rows: &mut [Row], level: usize, more: &Row) -> Result<(), NoMemory>
    ensures { OnOk result ((a b : ℕ) → are_at_most rows.new a b ≡ (are_at_most rows.old a b || (are_at_most rows.old a level && reaches more.now b))) }
{
    for row in rows.iter_mut() {
        row.raise(level, more)?;
    }
    Ok(())
}

// As many empty rows as are missing below the level, and room for one more. The first get room for the low levels at once.
#[tactic(auto, using(crate::proofs::Raising::no_row_more))]
fn put_rows_below(alloc: Global, rows: &mut Vec<Row>, level: usize) -> Result<(), NoMemory>
    ensures same { OnOk result ((a b : ℕ) → are_at_most rows.new.items a b ≡ are_at_most rows.old.items a b) }
    ensures there { OnOk result (length rows.new.items ≡ max (length rows.old.items) level) }
{
    let missing = level.saturating_sub(rows.len());
    let more = if rows.is_empty() { LOW_LEVELS } else { 1 };
    rows.reserve(missing.saturating_add(more))?;
    for _ in 0..missing {
        rows.push(Row::empty(alloc))?;
    }
    Ok(())
}

// More levels above the given one.
#[tactic(auto, using(crate::proofs::Raising::row_put, crate::proofs::Raising::row_pushed))]
fn put_above(alloc: Global, rows: &mut Vec<Row>, level: usize, more: Row) -> Result<(), NoMemory>
    ensures { OnOk result ((a b : ℕ) → are_at_most rows.new.items a b ≡ (are_at_most rows.old.items a b || (a == level && reaches more b))) }
{
    if level < rows.len() {
        return rows[level].join(&more);
    }
    put_rows_below(alloc, rows, level)?;
    rows.push(more)?;
    Ok(())
}

/// The rows where `low` is at most `high`.
pub(crate) fn link_rows(
    alloc: Global,
    rows: Vec<Row>,
    low: usize,
    high: usize,
) -> Result<Vec<Row>, NoMemory>
    ensures { IfOk result (λ r. (a b : ℕ) → at_most r.items a b ≡ linked low high (at_most rows.items) a b) }
{
    let mut linked = rows;
    let above = from_on(alloc, &linked, high)?;
    raise(&mut linked, low, &above)?;
    put_above(alloc, &mut linked, low, above)?;
    Ok(linked)
}

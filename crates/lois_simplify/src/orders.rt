//! The orders in which a few levels can stand, each of them a bit of a set. A literal is the set of the orders in which it holds,
//! so what constraints say of the levels is looked up. Nothing rests on it: it tells what is worth asking.

use lois_base::{Constraint, Cube, Lit, NoMemory, Op};
use std::alloc::Global;

// There are 4683 orders of six levels, and ten times as many of one more.
const MOST_LEVELS: usize = 6;

/// So many orders are in one word of a set.
pub(crate) const WORD_BITS: usize = 64;

// The rank of each level. Levels with the same rank are equal.
type Order = Vec<usize>;

/// A set of orders, each a bit of a word.
pub(crate) type OrderSet = Vec<u64>;

// The literals of two levels in a table. The ones before say more.
const OF_TWO_LEVELS: usize = 4;

const EQUAL: usize = 0;

const BELOW: usize = 1;

const ABOVE: usize = 2;

const APART: usize = 3;

/// The literals of a few levels, each with the orders in which it holds.
#[derive(Drop)]
pub(crate) struct OrderTable {
    levels: Vec<usize>,
    literals: Vec<Lit>,
    sets: Vec<OrderSet>,
    all: OrderSet,
}

// A level, and where it stands in an order.
#[derive(Clone, Copy)]
struct Placed {
    level: usize,
    place: usize,
}

fn put_level(levels: &mut Vec<usize>, level: usize) -> Result<(), NoMemory> {
    if !levels.contains(&level) {
        levels.push(level)?;
    }
    Ok(())
}

fn put_levels_of_cube(levels: &mut Vec<usize>, cube: &Cube) -> Result<(), NoMemory> {
    for lit in cube.as_slice() {
        put_level(levels, lit.left)?;
        put_level(levels, lit.right)?;
    }
    Ok(())
}

fn put_levels(levels: &mut Vec<usize>, constraint: &Constraint) -> Result<(), NoMemory> {
    for cube in constraint.as_slice() {
        put_levels_of_cube(levels, cube)?;
    }
    Ok(())
}

// A rank above those of the order.
fn height(order: &Order) -> usize {
    let mut height = 0_usize;
    for rank in order.iter() {
        height = height.max(rank.saturating_add(1));
    }
    height
}

// The order with one more level, of the rank.
fn with_level_at(alloc: Global, order: &Order, rank: usize) -> Result<Order, NoMemory> {
    let mut longer = Vec::from_slice(alloc, order.as_slice())?;
    longer.push(rank)?;
    Ok(longer)
}

// The order with one more level, below those that had the rank.
fn with_level_below(alloc: Global, order: &Order, rank: usize) -> Result<Order, NoMemory> {
    let mut longer = Vec::new(alloc);
    for other in order.iter() {
        let raised = other.saturating_add(1);
        longer.push(if *other < rank { *other } else { raised })?;
    }
    longer.push(rank)?;
    Ok(longer)
}

fn put_longer(alloc: Global, longer: &mut Vec<Order>, order: &Order) -> Result<(), NoMemory> {
    let height = height(order);
    for rank in 0..height {
        longer.push(with_level_below(alloc, order, rank)?)?;
        longer.push(with_level_at(alloc, order, rank)?)?;
    }
    longer.push(with_level_at(alloc, order, height)?)?;
    Ok(())
}

fn with_one_more_level(alloc: Global, orders: &[Order]) -> Result<Vec<Order>, NoMemory> {
    let mut longer = Vec::new(alloc);
    for order in orders {
        put_longer(alloc, &mut longer, order)?;
    }
    Ok(longer)
}

fn orders_of(alloc: Global, count: usize) -> Result<Vec<Order>, NoMemory> {
    let mut orders = Vec::new(alloc);
    orders.push(Vec::new(alloc))?;
    for _level in 0..count {
        orders = with_one_more_level(alloc, &orders)?;
    }
    Ok(orders)
}

fn is_below(order: &Order, low: usize, high: usize) -> bool {
    match (order.get(low), order.get(high)) {
        (Some(below), Some(above)) => *below < *above,
        _ => false,
    }
}

// The orders in which the level at the one place is below the one at the other.
fn orders_below(
    alloc: Global,
    orders: &[Order],
    low: usize,
    high: usize,
) -> Result<OrderSet, NoMemory> {
    let mut set = Vec::new(alloc);
    let mut word = 0_u64;
    for (index, order) in orders.iter().enumerate() {
        let bit = index % WORD_BITS;
        if is_below(order, low, high) {
            word |= 1_u64 << bit;
        }
        if bit == WORD_BITS - 1 {
            set.push(word)?;
            word = 0;
        }
    }
    set.push(word)?;
    Ok(set)
}

fn all_orders(alloc: Global, orders: &[Order]) -> Result<OrderSet, NoMemory> {
    let mut set = Vec::new(alloc);
    let mut word = 0_u64;
    for (index, _order) in orders.iter().enumerate() {
        let bit = index % WORD_BITS;
        word |= 1_u64 << bit;
        if bit == WORD_BITS - 1 {
            set.push(word)?;
            word = 0;
        }
    }
    set.push(word)?;
    Ok(set)
}

/// An equal set.
pub(crate) fn copy_set(alloc: Global, set: &OrderSet) -> Result<OrderSet, NoMemory> {
    Ok(Vec::from_slice(alloc, set.as_slice())?)
}

fn empty_set(alloc: Global, alike: &OrderSet) -> Result<OrderSet, NoMemory> {
    let mut set = Vec::new(alloc);
    for _word in alike.iter() {
        set.push(0)?;
    }
    Ok(set)
}

/// Leaves the orders that the other set has too.
pub(crate) fn keep_common(set: &mut OrderSet, other: &OrderSet) {
    for (index, word) in other.iter().enumerate() {
        if let Some(own) = set.get_mut(index) {
            *own &= *word;
        }
    }
}

/// Puts in the orders of the other set.
pub(crate) fn put_orders(set: &mut OrderSet, other: &OrderSet) {
    for (index, word) in other.iter().enumerate() {
        if let Some(own) = set.get_mut(index) {
            *own |= *word;
        }
    }
}

/// Takes out the orders of the other set.
pub(crate) fn take_out(set: &mut OrderSet, other: &OrderSet) {
    for (index, word) in other.iter().enumerate() {
        if let Some(own) = set.get_mut(index) {
            *own &= !*word;
        }
    }
}

/// Whether the other set has all orders of the set.
pub(crate) fn is_inside(set: &OrderSet, other: &OrderSet) -> bool {
    for (index, word) in set.iter().enumerate() {
        if let Some(held) = other.get(index) {
            if *word & !*held != 0 {
                return false;
            }
        }
    }
    true
}

// Whether the sets have no order in common.
fn are_apart(set: &OrderSet, other: &OrderSet) -> bool {
    for (index, word) in set.iter().enumerate() {
        if let Some(held) = other.get(index) {
            if *word & *held != 0 {
                return false;
            }
        }
    }
    true
}

/// Whether the third set has all orders that the other two have in common.
pub(crate) fn are_common_inside(set: &OrderSet, other: &OrderSet, third: &OrderSet) -> bool {
    for (index, word) in set.iter().enumerate() {
        if let (Some(held), Some(allowed)) = (other.get(index), third.get(index)) {
            if *word & *held & !*allowed != 0 {
                return false;
            }
        }
    }
    true
}

/// How many orders both sets have.
pub(crate) fn count_common(set: &OrderSet, other: &OrderSet) -> usize {
    let mut count = 0_usize;
    for (index, word) in set.iter().enumerate() {
        if let Some(held) = other.get(index) {
            count = count.saturating_add((*word & *held).count_ones() as usize);
        }
    }
    count
}

/// Whether the set has no orders.
pub(crate) fn is_empty(set: &OrderSet) -> bool {
    for word in set.iter() {
        if *word != 0 {
            return false;
        }
    }
    true
}

/// The first order of the set, by its number.
pub(crate) fn first_order(set: &OrderSet) -> usize {
    for (index, word) in set.iter().enumerate() {
        if *word != 0 {
            let bit = word.trailing_zeros() as usize;
            return index.saturating_mul(WORD_BITS).saturating_add(bit);
        }
    }
    0
}

// Where the literals of the levels at two places begin in a table.
fn first_of_two_levels(low: usize, high: usize) -> usize {
    let before = high.saturating_mul(high.saturating_sub(1)) / 2;
    before.saturating_add(low).saturating_mul(OF_TWO_LEVELS)
}

fn place_of(levels: &[usize], level: usize) -> Option<usize> {
    for (place, own) in levels.iter().enumerate() {
        if *own == level {
            return Some(place);
        }
    }
    None
}

// `<` between the levels of the literal, the other way round.
fn turned_round(lit: Lit) -> Lit {
    Lit {
        op: Op::Lt,
        left: lit.right,
        right: lit.left,
    }
}

impl OrderTable {
    fn put(&mut self, lit: Lit, set: OrderSet) -> Result<(), NoMemory> {
        self.literals.push(lit)?;
        self.sets.push(set)?;
        Ok(())
    }

    // Puts in the four literals of two levels.
    fn put_two_levels(
        &mut self,
        alloc: Global,
        orders: &[Order],
        low: Placed,
        high: Placed,
    ) -> Result<(), NoMemory> {
        let (left, right) = (low.level, high.level);
        let below = orders_below(alloc, orders, low.place, high.place)?;
        let above = orders_below(alloc, orders, high.place, low.place)?;
        let mut apart = copy_set(alloc, &below)?;
        put_orders(&mut apart, &above);
        let mut equal = copy_set(alloc, &self.all)?;
        take_out(&mut equal, &apart);
        let lit = Lit {
            op: Op::Lt,
            left,
            right,
        };
        self.put(Lit { op: Op::Eq, ..lit }, equal)?;
        self.put(lit, below)?;
        self.put(turned_round(lit), above)?;
        self.put(Lit { op: Op::Ne, ..lit }, apart)
    }

    fn put_level(
        &mut self,
        alloc: Global,
        orders: &[Order],
        levels: &[usize],
        high: Placed,
    ) -> Result<(), NoMemory> {
        for (place, level) in levels.iter().enumerate() {
            let low = Placed {
                level: *level,
                place,
            };
            if place < high.place {
                self.put_two_levels(alloc, orders, low, high)?;
            }
        }
        Ok(())
    }

    fn put_levels(
        &mut self,
        alloc: Global,
        orders: &[Order],
        levels: &[usize],
    ) -> Result<(), NoMemory> {
        for (place, level) in levels.iter().enumerate() {
            let high = Placed {
                level: *level,
                place,
            };
            self.put_level(alloc, orders, levels, high)?;
        }
        Ok(())
    }

    /// The table for the levels of both constraints, or `None` where they are too many.
    pub(crate) fn of(
        alloc: Global,
        guard: &Constraint,
        under: &Constraint,
    ) -> Result<Option<OrderTable>, NoMemory> {
        let mut levels = Vec::new(alloc);
        put_levels(&mut levels, guard)?;
        put_levels(&mut levels, under)?;
        if levels.len() > MOST_LEVELS {
            return Ok(None);
        }
        levels.sort_unstable();
        let orders = orders_of(alloc, levels.len())?;
        let places = Vec::from_slice(alloc, levels.as_slice())?;
        let mut table = OrderTable {
            levels: places,
            literals: Vec::new(alloc),
            sets: Vec::new(alloc),
            all: all_orders(alloc, &orders)?,
        };
        table.put_levels(alloc, &orders, &levels)?;
        Ok(Some(table))
    }

    /// The literals. Of two levels those that say more come first.
    pub(crate) fn literals(&self) -> &[Lit] {
        self.literals.as_slice()
    }

    /// The literal at the index.
    pub(crate) fn literal(&self, index: usize) -> Option<Lit> {
        self.literals.get(index).copied()
    }

    /// The orders in which the literal at the index holds.
    pub(crate) fn orders(&self, index: usize) -> Option<&OrderSet> {
        self.sets.get(index)
    }

    /// All orders.
    pub(crate) fn all(&self) -> &OrderSet {
        &self.all
    }

    /// The place of the first literal of the next two levels.
    pub(crate) fn next_two(&self, index: usize) -> usize {
        (index / OF_TWO_LEVELS)
            .saturating_add(1)
            .saturating_mul(OF_TWO_LEVELS)
    }

    /// The place of `!=` in the place of `<`.
    pub(crate) fn difference(&self, index: usize) -> Option<usize> {
        let kind = index % OF_TWO_LEVELS;
        if kind == BELOW || kind == ABOVE {
            let first = index - kind;
            return Some(first.saturating_add(APART));
        }
        None
    }

    // The orders in which a literal holds that isn't `<=`.
    fn literal_orders(&self, lit: Lit) -> Option<&OrderSet> {
        let left = place_of(&self.levels, lit.left)?;
        let right = place_of(&self.levels, lit.right)?;
        let kind = match lit.op {
            Op::Eq => EQUAL,
            Op::Ne => APART,
            _ => { if left < right { BELOW } else { ABOVE } }
        };
        if left == right {
            return None;
        }
        let first = first_of_two_levels(left.min(right), left.max(right));
        self.sets.get(first.saturating_add(kind))
    }

    /// Whether the literal holds in all orders of the set.
    pub(crate) fn holds_in_all(&self, set: &OrderSet, lit: Lit) -> bool {
        if lit.op == Op::AtMost {
            match self.literal_orders(turned_round(lit)) {
                Some(denied) => are_apart(set, denied),
                None => true,
            }
        } else {
            match self.literal_orders(lit) {
                Some(held) => is_inside(set, held),
                None => true,
            }
        }
    }

    /// Leaves the orders in which the literal holds.
    pub(crate) fn keep_literal(&self, set: &mut OrderSet, lit: Lit) {
        if lit.op == Op::AtMost {
            if let Some(denied) = self.literal_orders(turned_round(lit)) {
                take_out(set, denied);
            }
        } else if let Some(held) = self.literal_orders(lit) {
            keep_common(set, held);
        }
    }

    /// The orders in which the cube holds.
    pub(crate) fn cube_orders(&self, alloc: Global, cube: &Cube) -> Result<OrderSet, NoMemory> {
        let mut set = copy_set(alloc, &self.all)?;
        for lit in cube.as_slice() {
            self.keep_literal(&mut set, *lit);
        }
        Ok(set)
    }

    /// The orders in which each of the cubes holds.
    pub(crate) fn each_cube_orders(
        &self,
        alloc: Global,
        constraint: &Constraint,
    ) -> Result<Vec<OrderSet>, NoMemory> {
        let mut sets = Vec::new(alloc);
        for cube in constraint.as_slice() {
            sets.push(self.cube_orders(alloc, cube)?)?;
        }
        Ok(sets)
    }

    /// The orders of all the sets.
    pub(crate) fn joined(&self, alloc: Global, sets: &[OrderSet]) -> Result<OrderSet, NoMemory> {
        let mut joined = empty_set(alloc, &self.all)?;
        for set in sets {
            put_orders(&mut joined, set);
        }
        Ok(joined)
    }
}

//! Slots and stores.

ghost use Rattle.std.specs.Prelude.{◌≡◌, ◌<◌, [], ◌∷◌, ◌++◌, length, map, take, slice_get, get_or, slice_set, option_map, ◌↔◌, IsTrue, IsFalse, IsNone, IfSome, IfOk, OnOk, OnErr};
ghost use Rattle.std.specs.List.{HoldsAt};

use crate::Content;
use lois_base::{Name, NoMemory, Term};
use std::alloc::Global;
use std::marker::Model;
use std::mem::replace;

/// A name and the term that it holds, which copies of the slot share. In a set that was made outside of the innermost loop, the first `from`
/// comprehensions stood there when that loop was entered.
#[derive(Drop)]
pub struct Slot {
    pub name: Name,
    pub term: Content,
    pub from: usize,
}

/// A list of slots, in the order in which their names were made.
#[derive(Drop)]
pub struct Store {
    items: Vec<Slot>,
}

impl Model for Store {
    ghost use Rattle.std.specs.Prelude.{List, map};
    ghost use Rattle.lois_context.specs.Slots.{SlotD, slots_code};
    ghost use Rattle.lois_context.specs.SlotView.{slot_of};

    ghost Value = { List SlotD };

    ghost coded = { slots_code };

    ghost view = { λ a. map slot_of a.items.items };
}

impl Slot {
    ghost use Rattle.lois_base.specs.Tree.{tree};
    ghost use Rattle.lois_context.specs.SlotView.{slot_of};

    /// The slot of a name that holds this term alone.
    pub fn new(alloc: Global, name: Name, term: Term, from: usize) -> Result<Self, NoMemory>
        ensures made { IfOk result (λ r. slot_of r ≡ record { name = name; term = tree term; from = from }) }
    {
        let term = Content::new(alloc, term)?;
        Ok(Slot { name, term, from })
    }

    /// An equal slot, which shares the term.
    pub fn copy(&self, alloc: Global) -> Result<Self, NoMemory>
        ensures same { IfOk result (λ r. slot_of r ≡ slot_of self.now) }
    {
        Ok(Slot {
            name: self.name.copy(alloc)?,
            term: self.term.share()?,
            from: self.from,
        })
    }

    /// Whether both have the same name, term and `from`.
    pub fn is_equal(&self, other: &Slot) -> bool
        ensures { IsTrue result ↔ slot_of self.now ≡ slot_of other.now }
    {
        self.name == other.name && self.from == other.from && self.term.is_equal(&other.term)
    }
}

impl Store {
    ghost use Rattle.lois_context.specs.SlotView.{slot_of};
    ghost use Rattle.lois_context.specs.Slots.{IsNew};

    /// A store without slots.
    pub fn new(alloc: Global) -> Self
        ensures empty { result ≡ [] }
    {
        Store {
            items: Vec::new(alloc),
        }
    }

    /// How many slots there are.
    pub fn len(&self) -> usize
        ensures counted { result ≡ length self.now }
    {
        self.items.len()
    }

    /// The slot at an index, counted from 0, if there is one.
    pub fn get(&self, index: usize) -> Option<&Slot>
        ensures item { option_map (λ s. slot_of s.now) result ≡ slice_get self.now index }
    {
        self.items.get(index)
    }

    /// The slots, first to last.
    pub fn as_slice(&self) -> &[Slot]
        ensures items { map slot_of result.now ≡ self.now }
    {
        &self.items
    }

    /// The slots by value, first to last.
    pub fn into_vec(self) -> Vec<Slot>
        ensures items { map slot_of result.items ≡ self }
    {
        let Store { items } = self;
        items
    }

    /// The index of the first slot with the name, counted from 0, if there is one.
    pub fn place_of(&self, name: &Name) -> Option<usize>
        ensures found { IfSome result (λ i. (i < length self.now) × HoldsAt (λ s. s.name ≡ name.now) self.now i) }
        ensures none { IsNone result ↔ IsNew name.now self.now }
    {
        let slots = self.as_slice();
        for index in 0..slots.len() {
            if slots[index].name == *name {
                return Some(index);
            }
        }
        None
    }

    /// Whether a slot has the name.
    pub fn has_name(&self, name: &Name) -> bool
        ensures none { IsFalse result ↔ IsNew name.now self.now }
    {
        self.place_of(name).is_some()
    }

    /// Puts a slot in the place of the one at an index.
    pub fn set(&mut self, index: usize, item: Slot)
        requires { index < length self.old }
        ensures { self.new ≡ slice_set self.old index (slot_of item) }
    {
        self.items[index] = item;
    }

    /// The same, and hands the slot back that stood there.
    pub fn replace(&mut self, index: usize, item: Slot) -> Slot
        requires { index < length self.old }
        ensures after { self.new ≡ slice_set self.old index (slot_of item) }
        ensures before { slot_of result ≡ get_or self.old index (slot_of result) }
    {
        replace(&mut self.items[index], item)
    }

    /// Keeps the first `count` slots alone, or all where there are fewer.
    pub fn truncate(&mut self, count: usize)
        ensures { self.new ≡ take count self.old }
    {
        self.items.truncate(count);
    }

    /// Whether both have equal slots in the same order.
    pub fn is_equal(&self, other: &Store) -> bool
        ensures { IsTrue result ↔ self.now ≡ other.now }
    {
        let slots = self.as_slice();
        let others = other.as_slice();
        if slots.len() != others.len() {
            return false;
        }
        for (i, slot) in slots.iter().enumerate() {
            if !slot.is_equal(&others[i]) {
                return false;
            }
        }
        true
    }

    /// Puts a slot at the end; fails for want of memory alone, and then nothing has changed.
    pub fn push(&mut self, item: Slot) -> Result<(), NoMemory>
        ensures appended { OnOk result (self.new ≡ self.old ++ slot_of item ∷ []) }
        ensures unchanged { OnErr result (self.new ≡ self.old) }
    {
        self.items.push(item).map_err(|_| NoMemory)
    }

    /// Equal slots, which share their terms.
    pub fn copy(&self, alloc: Global) -> Result<Self, NoMemory>
        ensures same { IfOk result (λ r. r ≡ self.now) }
    {
        let mut copy = Store::new(alloc);
        for item in &self.items {
            copy.push(item.copy(alloc)?)?;
        }
        Ok(copy)
    }
}

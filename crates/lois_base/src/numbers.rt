//! Lists of numbers: samples.

ghost use Rattle.std.specs.Prelude.{◌≡◌, IfOk, OnOk, OnErr, [], ◌∷◌, ◌++◌, length, slice_get, option_map};

use crate::NoMemory;
use std::alloc::Global;
use std::marker::Model;

/// A list of numbers.
#[derive(Drop)]
pub struct Numbers {
    items: Vec<u64>,
}

impl Model for Numbers {
    ghost use Rattle.std.specs.Prelude.{ℕ, List};

    ghost Value = { List ℕ };

    ghost view = { λ a. a.items.items };
}

impl Numbers {
    /// A list without numbers.
    pub fn new(alloc: Global) -> Self
        ensures { result ≡ [] }
    {
        Numbers {
            items: Vec::new(alloc),
        }
    }

    /// The numbers of a vector.
    pub fn from_vec(items: Vec<u64>) -> Self
        ensures { result ≡ items.items }
    {
        Numbers { items }
    }

    /// How many numbers there are.
    pub fn len(&self) -> usize
        ensures { result ≡ length self.now }
    {
        self.items.len()
    }

    /// The number at an index, or `None` where there is none.
    pub fn get(&self, index: usize) -> Option<&u64>
        ensures { option_map (λ n. n.now) result ≡ slice_get self.now index }
    {
        self.items.get(index)
    }

    /// The numbers, in order.
    pub fn as_slice(&self) -> &[u64]
        ensures { result.now ≡ self.now }
    {
        &self.items
    }

    /// The numbers by value, in order.
    pub fn into_vec(self) -> Vec<u64>
        ensures { result.items ≡ self }
    {
        let Numbers { items } = self;
        items
    }

    /// Appends a number.
    pub fn push(&mut self, item: u64) -> Result<(), NoMemory>
        ensures ok { OnOk result (self.new ≡ self.old ++ item ∷ []) }
        ensures err { OnErr result (self.new ≡ self.old) }
    {
        self.items.push(item).map_err(|_| NoMemory)
    }

    /// An equal list.
    pub fn copy(&self, alloc: Global) -> Result<Self, NoMemory>
        ensures { IfOk result (λ r. r ≡ self.now) }
    {
        Ok(Numbers {
            items: Vec::from_slice(alloc, &self.items)?,
        })
    }
}

//! Register automata as they are written.

ghost use Rattle.std.specs.Prelude.{◌≡◌, [], ◌∷◌, ◌++◌, length, slice_get, option_map, OnOk, OnErr};

use lois_base::{Cube, Name, Names, NoMemory};
use std::alloc::Global;
use std::marker::Model;

/// The registers that a step stores the letter in, counted from 1.
#[derive(Drop)]
pub struct Stores {
    items: Vec<u32>,
}

impl Model for Stores {
    ghost use Rattle.std.specs.Prelude.{ℕ, List};

    ghost Value = { List ℕ };

    ghost view = { λ a. a.items.items };
}

/// A step: from a state to a state by reading an atom, the letter. In the guard level 0 is the letter, and level i register i.
#[derive(Drop)]
pub struct RegStep {
    pub from: Name,
    pub to: Name,
    pub guard: Cube,
    pub stored: Stores,
}

/// A list of steps.
#[derive(Drop)]
pub struct RegSteps {
    items: Vec<RegStep>,
}

impl Model for RegSteps {
    ghost use Rattle.std.specs.Prelude.{List};
    ghost use Rattle.lois_registers.specs.declared.automata.RegStep.{RegStep};

    ghost Value = { List RegStep };

    ghost view = { λ a. a.items.items };
}

/// A register automaton: whether its atoms are ordered, how many registers it has, its states, the initial one, the final
/// ones and its steps.
#[derive(Drop)]
pub struct Registers {
    pub order: bool,
    pub registers: u32,
    pub states: Names,
    pub initial: Name,
    pub finals: Names,
    pub steps: RegSteps,
}

impl Stores {
    /// No registers.
    pub fn new(alloc: Global) -> Self
        ensures empty { result ≡ [] }
    {
        Stores {
            items: Vec::new(alloc),
        }
    }

    /// How many registers there are.
    pub fn len(&self) -> usize
        ensures counted { result ≡ length self.now }
    {
        self.items.len()
    }

    /// The register at an index, or `None` where there is none.
    pub fn get(&self, index: usize) -> Option<&u32>
        ensures item { option_map (λ t. t.now) result ≡ slice_get self.now index }
    {
        self.items.get(index)
    }

    /// The registers, in order.
    pub fn as_slice(&self) -> &[u32]
        ensures items { result.now ≡ self.now }
    {
        &self.items
    }

    /// Puts a register at the end; fails for want of memory alone, and then nothing has changed.
    pub fn push(&mut self, item: u32) -> Result<(), NoMemory>
        ensures appended { OnOk result (self.new ≡ self.old ++ item ∷ []) }
        ensures unchanged { OnErr result (self.new ≡ self.old) }
    {
        self.items.push(item).map_err(|_| NoMemory)
    }
}

impl RegSteps {
    /// No steps.
    pub fn new(alloc: Global) -> Self
        ensures empty { result ≡ [] }
    {
        RegSteps {
            items: Vec::new(alloc),
        }
    }

    /// How many steps there are.
    pub fn len(&self) -> usize
        ensures counted { result ≡ length self.now }
    {
        self.items.len()
    }

    /// The step at an index, or `None` where there is none.
    pub fn get(&self, index: usize) -> Option<&RegStep>
        ensures item { option_map (λ t. t.now) result ≡ slice_get self.now index }
    {
        self.items.get(index)
    }

    /// The steps, in order.
    pub fn as_slice(&self) -> &[RegStep]
        ensures items { result.now ≡ self.now }
    {
        &self.items
    }

    /// Puts a step at the end; fails for want of memory alone, and then nothing has changed.
    pub fn push(&mut self, item: RegStep) -> Result<(), NoMemory>
        ensures appended { OnOk result (self.new ≡ self.old ++ item ∷ []) }
        ensures unchanged { OnErr result (self.new ≡ self.old) }
    {
        self.items.push(item).map_err(|_| NoMemory)
    }
}

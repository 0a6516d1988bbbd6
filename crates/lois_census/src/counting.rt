//! The census of each case of results, and why there is none.

ghost use Rattle.std.specs.Prelude.{◌≡◌, [], ◌∷◌, ◌++◌, length, map, slice_get, option_map, OnOk, OnErr};

use crate::orbits::Orbits;
use lois_base::{Name, NoMemory};
use std::alloc::Global;
use std::marker::Model;

/// The number of a case, counted from 1, and one member of each orbit of its set.
#[derive(Drop)]
pub struct Census {
    pub case: usize,
    pub orbits: Orbits,
}

/// The censuses of several cases.
#[derive(Drop)]
pub struct Censuses {
    items: Vec<Census>,
}

impl Model for Censuses {
    ghost use Rattle.std.specs.Prelude.{List, map};
    ghost use Rattle.lois_census.specs.CensusData.{CensusD};
    ghost use Rattle.lois_census.specs.CensusCodes.{censuses_code};
    ghost use Rattle.lois_census.specs.CensusView.{entry_of};

    ghost Value = { List CensusD };

    ghost coded = { censuses_code };

    ghost view = { λ a. map entry_of a.items.items };
}

/// Why there is no census: there are parameters; the first case without a line of the name, or whose line of it is no set.
#[derive(Drop)]
pub enum Refusal {
    HasParameters,
    NoLine(Name, usize),
    NotASet(Name, usize),
}

/// The census of each case whose constraint holds, or why there is none.
#[derive(Drop)]
pub enum Answer {
    Listed(Censuses),
    Refused(Refusal),
}

impl Censuses {
    ghost use Rattle.lois_census.specs.CensusView.{entry_of};

    /// No censuses.
    pub fn new(alloc: Global) -> Self
        ensures empty { result ≡ [] }
    {
        Censuses {
            items: Vec::new(alloc),
        }
    }

    /// How many censuses there are.
    pub fn len(&self) -> usize
        ensures counted { result ≡ length self.now }
    {
        self.items.len()
    }

    /// The census at an index, counted from 0, if there is one.
    pub fn get(&self, index: usize) -> Option<&Census>
        ensures item { option_map (λ e. entry_of e.now) result ≡ slice_get self.now index }
    {
        self.items.get(index)
    }

    /// The censuses, first to last.
    pub fn as_slice(&self) -> &[Census]
        ensures items { map entry_of result.now ≡ self.now }
    {
        &self.items
    }

    /// Puts a census at the end; fails for want of memory alone, and then nothing has changed.
    pub fn push(&mut self, item: Census) -> Result<(), NoMemory>
        ensures appended { OnOk result (self.new ≡ self.old ++ entry_of item ∷ []) }
        ensures unchanged { OnErr result (self.new ≡ self.old) }
    {
        self.items.push(item).map_err(|_| NoMemory)
    }
}

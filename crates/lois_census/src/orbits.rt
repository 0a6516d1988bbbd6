//! Orbits, and lists of them.

ghost use Rattle.std.specs.Prelude.{◌≡◌, [], ◌∷◌, ◌++◌, length, map, slice_get, option_map, OnOk, OnErr};

use lois_base::{NoMemory, Numbers, Term};
use std::alloc::Global;
use std::marker::Model;

/// A member of a set that stands for its orbit: the value of the term at the choice of the numbers, one for each level.
#[derive(Drop)]
pub struct Orbit {
    pub item: Term,
    pub sample: Numbers,
}

/// A list of orbits.
#[derive(Drop)]
pub struct Orbits {
    items: Vec<Orbit>,
}

impl Model for Orbits {
    ghost use Rattle.std.specs.Prelude.{List, map};
    ghost use Rattle.lois_census.specs.OrbitData.{OrbitD};
    ghost use Rattle.lois_census.specs.CensusCodes.{orbits_code};
    ghost use Rattle.lois_census.specs.OrbitView.{orbit_of};

    ghost Value = { List OrbitD };

    ghost coded = { orbits_code };

    ghost view = { λ a. map orbit_of a.items.items };
}

impl Orbits {
    ghost use Rattle.lois_census.specs.OrbitView.{orbit_of};

    /// No orbits.
    pub fn new(alloc: Global) -> Self
        ensures empty { result ≡ [] }
    {
        Orbits {
            items: Vec::new(alloc),
        }
    }

    /// How many orbits there are.
    pub fn len(&self) -> usize
        ensures counted { result ≡ length self.now }
    {
        self.items.len()
    }

    /// The orbit at an index, counted from 0, if there is one.
    pub fn get(&self, index: usize) -> Option<&Orbit>
        ensures item { option_map (λ o. orbit_of o.now) result ≡ slice_get self.now index }
    {
        self.items.get(index)
    }

    /// The orbits, first to last.
    pub fn as_slice(&self) -> &[Orbit]
        ensures items { map orbit_of result.now ≡ self.now }
    {
        &self.items
    }

    /// Puts an orbit at the end; fails for want of memory alone, and then nothing has changed.
    pub fn push(&mut self, item: Orbit) -> Result<(), NoMemory>
        ensures appended { OnOk result (self.new ≡ self.old ++ orbit_of item ∷ []) }
        ensures unchanged { OnErr result (self.new ≡ self.old) }
    {
        self.items.push(item).map_err(|_| NoMemory)
    }
}

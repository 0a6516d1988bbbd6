//! Where comprehensions stand in a set that gets members one by one.

ghost use Rattle.std.specs.Prelude.{◌≡◌, map, IsTrue, Contains};
ghost use Rattle.lois_base.specs.Tree.{comp_of};

use crate::Shared;
use lois_base::{Comp, NoMemory};
use lois_terms::{Index, hash_written};
use std::alloc::Global;

// So many times the comprehensions are gone through one by one, before it is worth while to hash all of them.
const SEARCHES: usize = 8;

/// What is known of where comprehensions stand in a list that gets longer. It is only a help for a search: what it
/// finds is compared, and what it doesn't know of may stand there too.
#[derive(Drop)]
pub(crate) struct Places {
    index: Index,
    count: usize,
    searches: usize,
}

impl Places {
    /// Nothing is known.
    pub(crate) fn new(alloc: Global) -> Self {
        Places {
            index: Index::new(alloc),
            count: 0,
            searches: 0,
        }
    }

    /// Whether the comprehension was found among the others, as it is written.
    pub(crate) fn finds(&self, comp: &Comp, comps: &[Comp]) -> bool
        ensures { IsTrue result → Contains (map comp_of comps.now) (comp_of comp.now) }
    {
        if self.count == 0 || self.count > comps.len() {
            return is_written_in(comp, comps, 0);
        }
        is_written_at_some(comp, comps, self.index.positions(hash_written(comp)))
            || is_written_in(comp, comps, self.count)
    }

    // Before a search: takes in those that have come to stand there since.
    fn learn(&mut self, alloc: Global, comps: &[Comp]) -> Result<(), NoMemory> {
        if self.searches < SEARCHES {
            self.searches += 1;
            return Ok(());
        }
        for place in self.count..comps.len() {
            self.index.push(alloc, hash_written(&comps[place]))?;
        }
        self.count = comps.len();
        Ok(())
    }
}

/// What is known for a search: more than before where there is no other owner.
pub(crate) fn searched(
    alloc: Global,
    places: Shared<Places>,
    comps: &[Comp],
) -> Result<Shared<Places>, NoMemory> {
    match places.into_inner() {
        Ok(mut own) => {
            own.learn(alloc, comps)?;
            Shared::new(alloc, own)
        }
        Err(places) => Ok(places),
    }
}

pub(crate) fn is_written_in(comp: &Comp, comps: &[Comp], from: usize) -> bool
    ensures { IsTrue result → Contains (map comp_of comps.now) (comp_of comp.now) }
{
    for place in from..comps.len() {
        if is_written_as(comp, &comps[place]) {
            return true;
        }
    }
    false
}

fn is_written_at_some(comp: &Comp, comps: &[Comp], places: &[usize]) -> bool
    ensures { IsTrue result → Contains (map comp_of comps.now) (comp_of comp.now) }
{
    for place in places {
        if *place < comps.len() && is_written_as(comp, &comps[*place]) {
            return true;
        }
    }
    false
}

// The items are compared first: those of most comprehensions of a long list differ.
fn is_written_as(comp: &Comp, other: &Comp) -> bool
    ensures { IsTrue result → comp_of comp.now ≡ comp_of other.now }
{
    comp.item.is_equal(&other.item) && comp.is_equal(other)
}

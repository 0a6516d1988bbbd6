//! Comprehensions of a set that may have a value: few, where the shapes of the items differ.

ghost use Rattle.std.specs.Prelude.{◌≡◌, ◌<◌, map, length, IfOk};
ghost use Rattle.lois_base.specs.Tree.{tree, comp_of};
ghost use Rattle.lois_terms.specs.Shapes.{item_shape};
ghost use Rattle.lois_relate.specs.Candidates.{AreCandidates};
ghost use Rattle.lois_relate.specs.Named.{AreBelow, level_range};

use crate::naming::extend_names;
use lois_base::{Comp, NoMemory, Term};
use lois_terms::{Index, shape};
use std::alloc::Global;

/// The comprehensions of a set, and the places of some of them.
#[derive(Clone, Copy)]
pub struct Candidates<'a> {
    pub comps: &'a [Comp],
    pub places: &'a [usize],
}

/// The comprehensions of a set, with the index of their shapes.
#[derive(Clone, Copy)]
pub struct IndexedComps<'a> {
    pub comps: &'a [Comp],
    pub index: &'a Index,
}

impl<'a> IndexedComps<'a> {
    /// The places of those whose items have the shape of the term.
    pub fn candidates(self, s: &Term) -> &'a [usize]
        requires { self.index.now ≡ map item_shape (map comp_of self.comps.now) }
        ensures places { AreBelow (length self.entry.comps.now) result.now }
        ensures all { AreCandidates (map comp_of self.entry.comps.now) (tree s.now) result.now }
    {
        self.index.positions(shape(s))
    }
}

/// The places of so many comprehensions.
pub fn all_places(alloc: Global, count: usize) -> Result<Vec<usize>, NoMemory>
    ensures { IfOk result (λ r. r.items ≡ level_range 0 count) }
{
    extend_names(alloc, &[], 0, count)
}

//! Families: lists of constraints, each over as many levels as its size says.

ghost use Rattle.std.specs.Prelude.{◌≡◌, OnOk, OnErr, IfSome, [], ◌∷◌, ◌++◌, length, slice_get, option_map};
ghost use Rattle.lois_rounds.specs.Families.{MemberFits, FamilyFits};

use lois_base::{Constraint, NoMemory};
use std::alloc::Global;
use std::marker::Model;

/// A size, and a constraint whose levels are below it.
pub type Member = (usize, Constraint);

/// A list of members.
#[derive(Drop)]
pub struct Family {
    items: Vec<Member>,
}

impl Model for Family {
    ghost use Rattle.lois_rounds.specs.Families.{FamilyD, FamilyFits};

    ghost Value = { FamilyD };

    ghost view = { λ f. f.items.items };

    ghost invariant = { λ f. FamilyFits f.items.items };
}

impl Family {
    /// A list without members.
    pub fn new(alloc: Global) -> Self
        ensures { result ≡ [] }
    {
        Family {
            items: Vec::new(alloc),
        }
    }

    /// How many members there are.
    pub fn len(&self) -> usize
        ensures { result ≡ length self.now }
    {
        self.items.len()
    }

    /// The member at an index, or `None` where there is none.
    pub fn get(&self, index: usize) -> Option<&Member>
        ensures item { option_map (λ m. m.now) result ≡ slice_get self.now index }
        ensures fits { IfSome result (λ m. MemberFits m.now) }
    {
        self.items.get(index)
    }

    /// The members, in order.
    pub fn as_slice(&self) -> &[Member]
        ensures items { result.now ≡ self.now }
        ensures fits { FamilyFits self.now }
    {
        &self.items
    }

    /// Appends a member. The levels of its constraint are below its size.
    pub fn push(&mut self, item: Member) -> Result<(), NoMemory>
        requires { MemberFits item }
        ensures ok { OnOk result (self.new ≡ self.old ++ item ∷ []) }
        ensures err { OnErr result (self.new ≡ self.old) }
    {
        self.items.push(item).map_err(|_| NoMemory)
    }
}

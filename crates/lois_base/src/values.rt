//! Terms: atoms at levels, tags, tuples and sets by comprehensions.

ghost use Rattle.std.specs.Prelude.{◌≡◌, ◌+◌, ◌<◌, IfOk, OnOk, OnErr, [], ◌∷◌, ◌++◌, length, slice_get, option_map, map, IsTrue, ◌↔◌};
ghost use Rattle.lois_base.specs.Tree.{tree, comp_of};
ghost use Rattle.lois_base.specs.Fits.{Fits, PartsFit, CompFits, ItemsFit};
ghost use Rattle.lois_base.specs.Data.{terms_of, comps_of};

use crate::{Constraint, Name, NoMemory};
use std::alloc::Global;
use std::marker::Model;

/// A term: the atom at a level, a tag, a tuple or a set.
#[derive(Drop)]
#[cycle(term)]
pub enum Term {
    Var(usize),
    Tag(Name),
    Tup(Terms),
    Coll(Comps),
}

/// A comprehension. In a term of `size` levels its binders are the levels from `size` on, and its members are the item at each choice of them at which the guard holds.
#[derive(Drop)]
#[cycle(term)]
pub struct Comp {
    pub binders: usize,
    pub guard: Constraint,
    pub item: Term,
}

/// A list of terms.
#[derive(Drop)]
#[cycle(term)]
pub struct Terms {
    items: Vec<Term>,
}

/// A list of comprehensions, whose members are those of all of them.
#[derive(Drop)]
#[cycle(term)]
pub struct Comps {
    items: Vec<Comp>,
}

impl Model for Terms {
    ghost use Rattle.std.specs.Prelude.{List};
    ghost use Rattle.lois_base.specs.Data.{TermD};
    ghost use Rattle.lois_base.specs.Codes.{terms_code};

    ghost Value = { List TermD };

    ghost coded = { terms_code };

    ghost use Rattle.std.specs.Prelude.{map};
    ghost use Rattle.lois_base.specs.ListDepth.{depth_of_terms};
    ghost use Rattle.lois_base.specs.Tree.{tree};

    ghost view = { λ a. map tree a.items.items };

    ghost size = { depth_of_terms };

    ghost use Rattle.lois_base.specs.Depth.{terms_fall};

    ghost size_decreases = { λ a h. terms_fall a.items.items };
}

impl Model for Comps {
    ghost use Rattle.std.specs.Prelude.{List};
    ghost use Rattle.lois_base.specs.Data.{CompD};
    ghost use Rattle.lois_base.specs.Codes.{comps_code};

    ghost Value = { List CompD };

    ghost coded = { comps_code };

    ghost use Rattle.std.specs.Prelude.{map};
    ghost use Rattle.lois_base.specs.ListDepth.{depth_of_comps};
    ghost use Rattle.lois_base.specs.Tree.{comp_of};

    ghost view = { λ a. map comp_of a.items.items };

    ghost size = { depth_of_comps };

    ghost use Rattle.lois_base.specs.Depth.{comps_fall};

    ghost size_decreases = { λ a h. comps_fall a.items.items };
}

impl Terms {
    /// A list without terms.
    pub fn new(alloc: Global) -> Self
        ensures { result ≡ [] }
    {
        Terms {
            items: Vec::new(alloc),
        }
    }

    /// How many terms there are.
    pub fn len(&self) -> usize
        ensures { result ≡ length self.now }
    {
        self.items.len()
    }

    /// The term at an index, or `None` where there is none.
    pub fn get(&self, index: usize) -> Option<&Term>
        ensures { option_map (λ t. tree t.now) result ≡ slice_get self.now index }
    {
        self.items.get(index)
    }

    /// The terms, in order.
    pub fn as_slice(&self) -> &[Term]
        ensures { map tree result.now ≡ self.now }
    {
        &self.items
    }

    /// The terms by value, in order.
    pub fn into_vec(self) -> Vec<Term>
        ensures { map tree result.items ≡ self }
    {
        let Terms { items } = self;
        items
    }

    /// Appends a term.
    pub fn push(&mut self, item: Term) -> Result<(), NoMemory>
        ensures ok { OnOk result (self.new ≡ self.old ++ tree item ∷ []) }
        ensures err { OnErr result (self.new ≡ self.old) }
    {
        self.items.push(item).map_err(|_| NoMemory)
    }

    /// An equal list.
    #[cycle(copy)]
    pub fn copy(&self, alloc: Global) -> Result<Self, NoMemory>
        ensures { IfOk result (λ r. r ≡ self.now) }
    {
        let mut copy = Terms::new(alloc);
        for item in &self.items {
            copy.push(item.copy(alloc)?)?;
        }
        Ok(copy)
    }

    /// Whether both have the same terms in the same order.
    #[cycle(equal)]
    pub fn is_equal(&self, other: &Terms) -> bool
        ensures { IsTrue result ↔ self.now ≡ other.now }
    {
        let items = self.items.as_slice();
        let others = other.items.as_slice();
        if items.len() != others.len() {
            return false;
        }
        for (i, item) in items.iter().enumerate() {
            if !item.is_equal(&others[i]) {
                return false;
            }
        }
        true
    }

    /// Whether each part fits `size`.
    #[cycle(fits)]
    pub fn fits(&self, size: usize) -> bool
        ensures { IsTrue result ↔ PartsFit size (terms_of self.now) }
    {
        for item in &self.items {
            if !item.fits(size) {
                return false;
            }
        }
        true
    }
}

impl Comps {
    /// A list without comprehensions.
    pub fn new(alloc: Global) -> Self
        ensures { result ≡ [] }
    {
        Comps {
            items: Vec::new(alloc),
        }
    }

    /// How many comprehensions there are.
    pub fn len(&self) -> usize
        ensures { result ≡ length self.now }
    {
        self.items.len()
    }

    /// The comprehension at an index, or `None` where there is none.
    pub fn get(&self, index: usize) -> Option<&Comp>
        ensures { option_map (λ t. comp_of t.now) result ≡ slice_get self.now index }
    {
        self.items.get(index)
    }

    /// The comprehensions, in order.
    pub fn as_slice(&self) -> &[Comp]
        ensures { map comp_of result.now ≡ self.now }
    {
        &self.items
    }

    /// The comprehensions by value, in order.
    pub fn into_vec(self) -> Vec<Comp>
        ensures { map comp_of result.items ≡ self }
    {
        let Comps { items } = self;
        items
    }

    /// Appends a comprehension.
    pub fn push(&mut self, item: Comp) -> Result<(), NoMemory>
        ensures ok { OnOk result (self.new ≡ self.old ++ comp_of item ∷ []) }
        ensures err { OnErr result (self.new ≡ self.old) }
    {
        self.items.push(item).map_err(|_| NoMemory)
    }

    /// An equal list.
    #[cycle(copy)]
    pub fn copy(&self, alloc: Global) -> Result<Self, NoMemory>
        ensures { IfOk result (λ r. r ≡ self.now) }
    {
        let mut copy = Comps::new(alloc);
        for item in &self.items {
            copy.push(item.copy(alloc)?)?;
        }
        Ok(copy)
    }

    /// Whether both have the same comprehensions in the same order.
    #[cycle(equal)]
    pub fn is_equal(&self, other: &Comps) -> bool
        ensures { IsTrue result ↔ self.now ≡ other.now }
    {
        let items = self.items.as_slice();
        let others = other.items.as_slice();
        if items.len() != others.len() {
            return false;
        }
        for (i, item) in items.iter().enumerate() {
            if !item.is_equal(&others[i]) {
                return false;
            }
        }
        true
    }

    /// Whether each comprehension fits `size`.
    #[cycle(fits)]
    pub fn fits(&self, size: usize) -> bool
        ensures { IsTrue result ↔ ItemsFit size (comps_of self.now) }
    {
        for item in &self.items {
            if !item.fits(size) {
                return false;
            }
        }
        true
    }
}

impl Comp {
    /// An equal comprehension.
    #[cycle(copy)]
    pub fn copy(&self, alloc: Global) -> Result<Self, NoMemory>
        ensures { IfOk result (λ r. r ≡ self.now) }
    {
        Ok(Comp {
            binders: self.binders,
            guard: self.guard.copy(alloc)?,
            item: self.item.copy(alloc)?,
        })
    }

    /// Whether both are written alike.
    #[cycle(equal)]
    pub fn is_equal(&self, other: &Comp) -> bool
        ensures { IsTrue result ↔ comp_of self.now ≡ comp_of other.now }
    {
        self.binders == other.binders
            && self.guard.is_equal(&other.guard)
            && self.item.is_equal(&other.item)
    }

    /// Whether the guard and the item use only levels below `size` and the binders, and that sum is a usize.
    #[cycle(fits)]
    pub fn fits(&self, size: usize) -> bool
        ensures { IsTrue result ↔ CompFits size (comp_of self.now) }
    {
        match size.checked_add(self.binders) {
            Some(inner) => self.guard.fits(inner) && self.item.fits(inner),
            None => false,
        }
    }
}

impl Term {
    /// An equal term.
    #[cycle(copy)]
    pub fn copy(&self, alloc: Global) -> Result<Self, NoMemory>
        ensures { IfOk result (λ r. r ≡ self.now) }
    {
        match self {
            Term::Var(level) => Ok(Term::Var(*level)),
            Term::Tag(name) => Ok(Term::Tag(name.copy(alloc)?)),
            Term::Tup(parts) => Ok(Term::Tup(parts.copy(alloc)?)),
            Term::Coll(comps) => Ok(Term::Coll(comps.copy(alloc)?)),
        }
    }

    /// Whether both are written alike: the same tree.
    #[cycle(equal)]
    pub fn is_equal(&self, other: &Term) -> bool
        ensures { IsTrue result ↔ tree self.now ≡ tree other.now }
    {
        match (self, other) {
            (Term::Var(level), Term::Var(partner)) => level == partner,
            (Term::Tag(name), Term::Tag(partner)) => name == partner,
            (Term::Tup(parts), Term::Tup(partners)) => parts.is_equal(partners),
            (Term::Coll(comps), Term::Coll(partners)) => comps.is_equal(partners),
            _ => false,
        }
    }

    /// Whether the term uses only levels below `size`, where each comprehension adds its binders.
    #[cycle(fits)]
    pub fn fits(&self, size: usize) -> bool
        ensures { IsTrue result ↔ Fits size (tree self.now) }
    {
        match self {
            Term::Var(level) => *level < size,
            Term::Tag(_) => true,
            Term::Tup(parts) => parts.fits(size),
            Term::Coll(comps) => comps.fits(size),
        }
    }
}

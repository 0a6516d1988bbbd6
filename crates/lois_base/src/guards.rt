//! Literals, cubes and constraints: guards without quantifiers.

ghost use Rattle.std.specs.Prelude.{◌≡◌, ◌+◌, IfOk, OnOk, OnErr, [], ◌∷◌, ◌++◌, length, slice_get, option_map, IsTrue, ◌↔◌};
ghost use Rattle.lois_base.specs.Fits.{LitFits, CubeFits, ConstraintFits};
ghost use Rattle.lois_base.specs.Truth.{lit_holds, cube_holds, holds, sampled};

use crate::NoMemory;
use smallvec::SmallVec;
use std::alloc::Global;
use std::marker::Model;

// Most cubes are short, and take no allocation.
const INLINE_LITERALS: usize = 8;

/// How two atoms are compared: `=`, `!=`, `<`, `<=`.
#[derive(Clone, Copy, PartialEq, Eq, PartialOrd, Ord, Hash, Debug, Default)]
pub enum Op {
    #[default]
    Eq,
    Ne,
    Lt,
    AtMost,
}

/// A literal: a comparison of the atoms at two levels.
#[derive(Clone, Copy, PartialEq, Eq, PartialOrd, Ord, Hash, Debug, Default)]
pub struct Lit {
    pub op: Op,
    pub left: usize,
    pub right: usize,
}

/// A list of literals, which holds where all of them hold. Eight of them lie in the value itself.
#[derive(Drop)]
pub struct Cube {
    items: SmallVec<Lit, INLINE_LITERALS>,
}

impl Model for Cube {
    ghost use Rattle.std.specs.Prelude.{List};
    ghost use Rattle.lois_base.specs.declared.guards.Lit.{Lit};

    ghost Value = { List Lit };

    ghost view = { λ a. a.items.items };
}

/// A list of cubes, which holds where one of them holds. So one cube without literals is true, and no cube is false.
#[derive(Drop)]
pub struct Constraint {
    items: Vec<Cube>,
}

impl Model for Constraint {
    ghost use Rattle.std.specs.Prelude.{List};
    ghost use Rattle.lois_base.specs.declared.guards.Lit.{Lit};

    ghost Value = { List (List Lit) };

    ghost view = { λ a. a.items.items };
}

impl Lit {
    /// Whether the literal holds at the sample.
    pub fn at(self, sample: &[u64]) -> bool
        requires { LitFits (length sample.now) self }
        ensures { result ≡ lit_holds (sampled sample.now) self }
    {
        let left = sample[self.left];
        let right = sample[self.right];
        match self.op {
            Op::Eq => left == right,
            Op::Ne => left != right,
            Op::Lt => left < right,
            Op::AtMost => left <= right,
        }
    }

    /// Whether both levels are below `size`.
    pub fn fits(&self, size: usize) -> bool
        ensures { IsTrue result ↔ LitFits size self.now }
    {
        self.left < size && self.right < size
    }
}

impl Cube {
    /// A list without literals.
    pub fn new(alloc: Global) -> Self
        ensures { result ≡ [] }
    {
        Cube {
            items: SmallVec::new(alloc),
        }
    }

    /// How many literals there are.
    pub fn len(&self) -> usize
        ensures { result ≡ length self.now }
    {
        self.items.len()
    }

    /// The literal at an index, or `None` where there is none.
    pub fn get(&self, index: usize) -> Option<&Lit>
        ensures { option_map (λ t. t.now) result ≡ slice_get self.now index }
    {
        self.as_slice().get(index)
    }

    /// The literals, in order.
    pub fn as_slice(&self) -> &[Lit]
        ensures { result.now ≡ self.now }
    {
        self.items.as_slice()
    }

    /// Appends a literal.
    pub fn push(&mut self, item: Lit) -> Result<(), NoMemory>
        ensures ok { OnOk result (self.new ≡ self.old ++ item ∷ []) }
        ensures err { OnErr result (self.new ≡ self.old) }
    {
        self.items.push(item).map_err(|_| NoMemory)
    }

    /// An equal cube.
    pub fn copy(&self, alloc: Global) -> Result<Self, NoMemory>
        ensures { IfOk result (λ r. r ≡ self.now) }
    {
        Ok(Cube {
            items: SmallVec::from_slice(alloc, self.items.as_slice())?,
        })
    }

    /// Whether both have the same literals in the same order.
    pub fn is_equal(&self, other: &Cube) -> bool
        ensures { IsTrue result ↔ self.now ≡ other.now }
    {
        let literals = self.as_slice();
        let others = other.as_slice();
        if literals.len() != others.len() {
            return false;
        }
        for (i, lit) in literals.iter().enumerate() {
            if *lit != others[i] {
                return false;
            }
        }
        true
    }

    /// Whether each literal holds at the sample.
    pub fn at(&self, sample: &[u64]) -> bool
        requires { CubeFits (length sample.now) self.now }
        ensures { result ≡ cube_holds (sampled sample.now) self.now }
    {
        for lit in self.as_slice() {
            if !lit.at(sample) {
                return false;
            }
        }
        true
    }

    /// Whether each level is below `size`.
    pub fn fits(&self, size: usize) -> bool
        ensures { IsTrue result ↔ CubeFits size self.now }
    {
        self.as_slice().iter().all(|item| item.fits(size))
    }
}

impl Constraint {
    /// A list without cubes.
    pub fn new(alloc: Global) -> Self
        ensures { result ≡ [] }
    {
        Constraint {
            items: Vec::new(alloc),
        }
    }

    /// One cube without literals, which holds at every choice of atoms.
    pub fn always(alloc: Global) -> Result<Self, NoMemory>
        ensures { IfOk result (λ r. r ≡ [] ∷ []) }
    {
        let mut constraint = Constraint::new(alloc);
        constraint.push(Cube::new(alloc))?;
        Ok(constraint)
    }

    /// How many cubes there are.
    pub fn len(&self) -> usize
        ensures { result ≡ length self.now }
    {
        self.items.len()
    }

    /// The cube at an index, or `None` where there is none.
    pub fn get(&self, index: usize) -> Option<&Cube>
        ensures { option_map (λ t. t.now) result ≡ slice_get self.now index }
    {
        self.items.get(index)
    }

    /// The cubes, in order.
    pub fn as_slice(&self) -> &[Cube]
        ensures { result.now ≡ self.now }
    {
        &self.items
    }

    /// The cubes by value, in order.
    pub fn into_vec(self) -> Vec<Cube>
        ensures { result.items ≡ self }
    {
        let Constraint { items } = self;
        items
    }

    /// Appends a cube.
    pub fn push(&mut self, item: Cube) -> Result<(), NoMemory>
        ensures ok { OnOk result (self.new ≡ self.old ++ item ∷ []) }
        ensures err { OnErr result (self.new ≡ self.old) }
    {
        self.items.push(item).map_err(|_| NoMemory)
    }

    /// An equal constraint.
    pub fn copy(&self, alloc: Global) -> Result<Self, NoMemory>
        ensures { IfOk result (λ r. r ≡ self.now) }
    {
        let mut copy = Constraint::new(alloc);
        for item in &self.items {
            copy.push(item.copy(alloc)?)?;
        }
        Ok(copy)
    }

    /// Whether both have the same cubes in the same order.
    pub fn is_equal(&self, other: &Constraint) -> bool
        ensures { IsTrue result ↔ self.now ≡ other.now }
    {
        let cubes = self.as_slice();
        let others = other.as_slice();
        if cubes.len() != others.len() {
            return false;
        }
        for (i, cube) in cubes.iter().enumerate() {
            if !cube.is_equal(&others[i]) {
                return false;
            }
        }
        true
    }

    /// Whether some cube holds at the sample.
    pub fn at(&self, sample: &[u64]) -> bool
        requires { ConstraintFits (length sample.now) self.now }
        ensures { result ≡ holds (sampled sample.now) self.now }
    {
        for cube in &self.items {
            if cube.at(sample) {
                return true;
            }
        }
        false
    }

    /// Whether each level is below `size`.
    pub fn fits(&self, size: usize) -> bool
        ensures { IsTrue result ↔ ConstraintFits size self.now }
    {
        self.items.iter().all(|item| item.fits(size))
    }
}

//! Formulas with quantifiers.

ghost use Rattle.std.specs.Prelude.{◌≡◌, ◌+◌, ◌<◌, IfOk, OnOk, OnErr, [], ◌∷◌, ◌++◌, length, slice_get, option_map, map};
ghost use Rattle.lois_base.specs.FormulaView.{view, views};

use crate::{Lit, NoMemory};
use std::alloc::Global;

/// A formula. A quantifier in a formula of `size` levels binds level `size`, and its body has one level more.
#[derive(Drop)]
#[cycle(formula)]
pub enum Formula {
    Lit(Lit),
    All(Formulas),
    Any(Formulas),
    Not(Box<Formula>),
    Exists(Box<Formula>),
    Forall(Box<Formula>),
}

/// A list of formulas.
#[derive(Drop)]
#[cycle(formula)]
pub struct Formulas {
    items: Vec<Formula>,
}

impl Formulas {
    /// A list without formulas.
    pub fn new(alloc: Global) -> Self
        ensures { views result ≡ [] }
    {
        Formulas {
            items: Vec::new(alloc),
        }
    }

    /// How many formulas there are.
    pub fn len(&self) -> usize
        ensures { result ≡ length (views self.now) }
    {
        self.items.len()
    }

    /// The formula at an index, or `None` where there is none.
    pub fn get(&self, index: usize) -> Option<&Formula>
        ensures { option_map (λ f. view f.now) result ≡ slice_get (views self.now) index }
    {
        self.items.get(index)
    }

    /// The formulas, in order.
    #[tactic(auto, using(crate::proofs::FormulaViews::views_is))]
    pub fn as_slice(&self) -> &[Formula]
        ensures { map view result.now ≡ views self.now }
    {
        &self.items
    }

    /// The formulas by value, in order.
    #[tactic(auto, using(crate::proofs::FormulaViews::views_is))]
    pub fn into_vec(self) -> Vec<Formula>
        ensures { map view result.items ≡ views self }
    {
        let Formulas { items } = self;
        items
    }

    /// Appends a formula.
    pub fn push(&mut self, item: Formula) -> Result<(), NoMemory>
        ensures ok { OnOk result (views self.new ≡ views self.old ++ view item ∷ []) }
        ensures err { OnErr result (views self.new ≡ views self.old) }
    {
        self.items.push(item).map_err(|_| NoMemory)
    }

    /// An equal list.
    #[cycle(copy)]
    pub fn copy(&self, alloc: Global) -> Result<Self, NoMemory>
        ensures { IfOk result (λ r. views r ≡ views self.now) }
    {
        let mut copy = Formulas::new(alloc);
        for item in &self.items {
            copy.push(item.copy(alloc)?)?;
        }
        Ok(copy)
    }
}

impl Formula {
    /// The formula in a box, as the part of another.
    pub fn boxed(self, alloc: Global) -> Result<Box<Formula>, NoMemory>
        ensures { IfOk result (λ b. view b.value ≡ view self) }
    {
        Box::new(alloc, self).map_err(|_| NoMemory)
    }

    /// An equal formula.
    #[cycle(copy)]
    pub fn copy(&self, alloc: Global) -> Result<Self, NoMemory>
        ensures { IfOk result (λ r. view r ≡ view self.now) }
    {
        match self {
            Formula::Lit(lit) => Ok(Formula::Lit(*lit)),
            Formula::All(parts) => Ok(Formula::All(parts.copy(alloc)?)),
            Formula::Any(parts) => Ok(Formula::Any(parts.copy(alloc)?)),
            Formula::Not(body) => Ok(Formula::Not(body.copy(alloc)?.boxed(alloc)?)),
            Formula::Exists(body) => Ok(Formula::Exists(body.copy(alloc)?.boxed(alloc)?)),
            Formula::Forall(body) => Ok(Formula::Forall(body.copy(alloc)?.boxed(alloc)?)),
        }
    }
}

//! Values with several owners.

ghost use Rattle.std.specs.Prelude.{◌≡◌, IfOk, IfErr};
ghost use Rattle.lois_base.specs.Tree.{tree};

use lois_answers::Lines;
use lois_base::{Comps, NoMemory, Term};
use std::alloc::Global;
use std::marker::Model;
use std::rc::Rc;

/// A value with any number of owners, which a copy of the pointer shares.
#[derive(Drop)]
pub struct Shared<T> {
    inner: Rc<T, Global>,
}

impl<T> Model for Shared<T> {
    ghost Value = { T };

    ghost coded = { T.code };

    ghost view = { λ s. s.inner.value };
}

impl<T: Drop> Shared<T> {
    /// The value, with one owner.
    pub fn new(alloc: Global, value: T) -> Result<Self, NoMemory>
        ensures same { IfOk result (λ r. r ≡ value) }
    {
        match Rc::new(alloc, value) {
            Ok(inner) => Ok(Shared { inner }),
            Err(_) => Err(NoMemory),
        }
    }

    /// The value.
    pub fn get(&self) -> &T
        ensures same { result.now ≡ self.now }
    {
        self.inner.as_ref()
    }

    /// One owner more of the same value: nothing is copied.
    pub fn share(&self) -> Result<Self, NoMemory>
        ensures same { IfOk result (λ r. r ≡ self.now) }
    {
        match self.inner.clone() {
            Ok(inner) => Ok(Shared { inner }),
            Err(_) => Err(NoMemory),
        }
    }

    /// The value, moved. Errors: itself, where it has other owners too.
    pub(crate) fn into_inner(self) -> Result<T, Self>
        ensures moved { IfOk result (λ r. r ≡ self) }
        ensures kept { IfErr result (λ r. r ≡ self) }
    {
        let Shared { inner } = self;
        match Rc::try_unwrap(inner) {
            Ok(value) => Ok(value),
            Err(inner) => Err(Shared { inner }),
        }
    }
}

impl Shared<Term> {
    /// The term by value: moved where this is its only owner, and else copied.
    pub fn into_term(self, alloc: Global) -> Result<Term, NoMemory>
        ensures same { IfOk result (λ r. tree r ≡ tree self) }
    {
        match self.into_inner() {
            Ok(term) => Ok(term),
            Err(shared) => shared.get().copy(alloc),
        }
    }
}

impl Shared<Comps> {
    /// The comprehensions by value: moved where this is their only owner, and else copied.
    pub(crate) fn into_comps(self, alloc: Global) -> Result<Comps, NoMemory>
        ensures same { IfOk result (λ r. r ≡ self) }
    {
        match self.into_inner() {
            Ok(comps) => Ok(comps),
            Err(shared) => shared.get().copy(alloc),
        }
    }
}

impl Shared<Lines> {
    /// The lines by value: moved where this is their only owner, and else copied.
    pub fn into_lines(self, alloc: Global) -> Result<Lines, NoMemory>
        ensures same { IfOk result (λ r. r ≡ self) }
    {
        match self.into_inner() {
            Ok(lines) => Ok(lines),
            Err(shared) => shared.get().copy(alloc),
        }
    }
}

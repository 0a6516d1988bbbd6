//! What terms were carried to, for loops that are still to be entered.

ghost use Rattle.std.specs.Prelude.{◌≡◌, IfOk, IfSome};
ghost use Rattle.lois_base.specs.Tree.{tree};
ghost use Rattle.lois_context.specs.Raised.{IsRaised};

use crate::Shared;
use crate::content::Noted;
use lois_base::{NoMemory, Term};
use std::alloc::Global;
use std::cell::RefCell;
use std::marker::Model;

// Loops are nested seldom deeper. When there are so many, all are forgotten.
const MOST_REMEMBERED: usize = 32;

/// A term that levels were put into, with what is noted of it.
#[derive(Drop)]
pub(crate) struct Raised {
    pub(crate) term: Shared<Term>,
    pub(crate) noted: Noted,
}

impl Raised {
    /// The same, which shares the term.
    pub(crate) fn share(&self) -> Result<Self, NoMemory>
        ensures term { IfOk result (λ r. r.term ≡ self.now.term) }
        ensures noted { IfOk result (λ r. r.noted ≡ self.now.noted) }
    {
        Ok(Raised {
            term: self.term.share()?,
            noted: self.noted,
        })
    }
}

// A term, and what it became when `by` levels were put in after the first `size`.
#[derive(Drop)]
struct Remembered {
    source: Shared<Term>,
    size: usize,
    by: usize,
    raised: Raised,
}

impl Model for Remembered {
    ghost use Rattle.lois_base.specs.Tree.{tree};
    ghost use Rattle.lois_context.specs.Raised.{IsRaised};

    ghost Value = { Unit {0} };

    ghost view = { λ r. tt };

    ghost invariant = { λ r. IsRaised r.size r.by (tree r.source) r.raised };
}

impl Remembered {
    fn new(source: Shared<Term>, size: usize, by: usize, raised: Raised) -> Self
        requires { IsRaised size by (tree source) raised }
    {
        Remembered {
            source,
            size,
            by,
            raised,
        }
    }

    // What the term became, where it is the one that was carried.
    fn of(&self, source: &Term, size: usize, by: usize) -> Result<Option<Raised>, NoMemory>
        ensures { IfOk result (λ o. IfSome o (IsRaised size by (tree source.now))) }
    {
        if self.size != size || self.by != by {
            return Ok(None);
        }
        if !self.source.get().is_equal(source) {
            return Ok(None);
        }
        Ok(Some(self.raised.share()?))
    }
}

/// What terms were carried to. Nothing rests on which are remembered.
#[derive(Drop)]
pub(crate) struct Memo {
    cell: RefCell<Vec<Remembered>>,
}

impl Memo {
    /// Nothing is remembered.
    pub(crate) fn new(alloc: Global) -> Self {
        Memo {
            cell: RefCell::new(Vec::new(alloc)),
        }
    }

    /// What the term became with `by` levels put in after the first `size`, if that is remembered.
    pub(crate) fn known(
        &self,
        source: &Term,
        size: usize,
        by: usize,
    ) -> Result<Option<Raised>, NoMemory>
        ensures { IfOk result (λ o. IfSome o (IsRaised size by (tree source.now))) }
    {
        match self.cell.try_borrow() {
            Ok(all) => found(&all, source, size, by),
            Err(_) => Ok(None),
        }
    }

    /// Remembers what the term became.
    pub(crate) fn remember(
        &self,
        source: Shared<Term>,
        size: usize,
        by: usize,
        raised: Raised,
    ) -> Result<(), NoMemory>
        requires { IsRaised size by (tree source) raised }
    {
        let one = Remembered::new(source, size, by, raised);
        match self.cell.try_borrow_mut() {
            Ok(mut all) => put(&mut all, one),
            Err(_) => Ok(()),
        }
    }
}

fn found(
    all: &[Remembered],
    source: &Term,
    size: usize,
    by: usize,
) -> Result<Option<Raised>, NoMemory>
    ensures { IfOk result (λ o. IfSome o (IsRaised size by (tree source.now))) }
{
    for one in all {
        if let Some(raised) = one.of(source, size, by)? {
            return Ok(Some(raised));
        }
    }
    Ok(None)
}

fn put(all: &mut Vec<Remembered>, one: Remembered) -> Result<(), NoMemory> {
    if all.len() >= MOST_REMEMBERED {
        all.clear();
    }
    all.push(one)?;
    Ok(())
}

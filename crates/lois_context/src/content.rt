//! What slots hold.

ghost use Rattle.std.specs.Prelude.{◌≡◌, ◌+◌, ◌<◌, ◌≤◌, ◌^◌, ◌↔◌, List, [], ◌∷◌, ◌++◌, length, get_or, map, take, drop, IfOk, OnOk, IsTrue, Contains};
ghost use Rattle.lois_base.specs.Atom.{Atom};
ghost use Rattle.lois_base.specs.Data.{CompD, comps_of, depth};
ghost use Rattle.lois_base.specs.Fits.{Fits};
ghost use Rattle.lois_base.specs.ListDepth.{depth_of_comps};
ghost use Rattle.lois_base.specs.Shift.{shift};
ghost use Rattle.lois_base.specs.Tree.{tree, comp_of};
ghost use Rattle.lois_base.specs.Values.{point, IsDeeper};
ghost use Rattle.lois_base.specs.declared.limits.TheConstants.{GREATEST_DEPTH};
ghost use Rattle.lois_base.specs.declared.values.Term.{Term};
ghost use Rattle.lois_terms.specs.Binding.{BindsNothing, ItemsBindNothing};
ghost use Rattle.lois_terms.specs.Collections.{IsColl};
ghost use Rattle.lois_context.specs.Content.{with_comps};
ghost use Rattle.lois_context.specs.Entered.{comps_listed};
ghost use Rattle.lois_context.specs.Hash.{content_hash};
ghost use Rattle.lois_context.specs.Noted.{IsNotedOf};
ghost use Rattle.lois_context.specs.Put.{AreParts, IsWithOnce};
ghost use Rattle.lois_context.specs.Raised.{IsRaised};
ghost use Rattle.lois_context.specs.ItemCounts.{comps_in};

use crate::hashing::hash_comps;
use crate::memo::{Memo, Raised};
use crate::places::searched;
use crate::{Places, Shared};
use lois_base::limits::GREATEST_DEPTH;
use lois_base::{Comp, Comps, NoMemory, Term};
use lois_terms::{binds_nothing, hash_term, is_within_depth, shift_term};
use std::alloc::Global;
use std::marker::Model;

/// What is noted of a term, so that nobody goes through it again. Where it is `false`, nothing is known.
#[derive(Clone, Copy, Drop)]
pub(crate) struct Noted {
    binds_nothing: bool,
    is_shallow: bool,
}

/// What a slot holds: a term, and the comprehensions that were put behind its own while it had other owners. Copies share both,
/// so a set isn't copied where one of its owners gets members.
#[derive(Drop)]
pub struct Content {
    base: Shared<Term>,
    noted: Noted,
    base_places: Shared<Places>,
    added: Shared<Comps>,
    added_places: Shared<Places>,

    // what the term was carried to, for the loops that are still to be entered
    memo: Option<Shared<Memo>>,
}

impl Model for Content {
    ghost use Rattle.lois_base.specs.declared.values.Term.{Term};
    ghost use Rattle.std.specs.Prelude.{◌+◌, ◌<◌, ◌^◌, length};
    ghost use Rattle.lois_context.specs.Content.{own_count, with_comps, content_code};
    ghost use Rattle.lois_context.specs.Noted.{IsNotedOf};

    ghost Value = { Term };

    ghost coded = { content_code };

    ghost view = { λ c. with_comps c.base c.added };

    ghost invariant = { λ c. (own_count c.base + length c.added < 2 ^ 64) × IsNotedOf c.noted c.base };
}

impl Content {
    /// The term alone.
    pub fn new(alloc: Global, term: Term) -> Result<Self, NoMemory>
        ensures same { IfOk result (λ r. r ≡ term) }
    {
        Content::alone(alloc, Shared::new(alloc, term)?)
    }

    #[tactic(auto, using(crate::proofs::Contents::with_none))]
    fn alone(alloc: Global, base: Shared<Term>) -> Result<Self, NoMemory>
        ensures same { IfOk result (λ r. r ≡ base) }
    {
        let noted = note(base.get());
        let memo = memo_for(alloc, noted)?;
        Content::unadded(alloc, base, noted, memo)
    }

    // The term with what is noted of it, to which nothing was added.
    #[tactic(auto, using(crate::proofs::Contents::with_none))]
    fn unadded(
        alloc: Global,
        base: Shared<Term>,
        noted: Noted,
        memo: Option<Shared<Memo>>,
    ) -> Result<Self, NoMemory>
        requires { IsNotedOf noted base }
        ensures same { IfOk result (λ r. r ≡ base) }
    {
        let places = Shared::new(alloc, Places::new(alloc))?;
        let none = Shared::new(alloc, Places::new(alloc))?;
        let content = holding(alloc, base, noted, places, Comps::new(alloc), none)?;
        Ok(content.remembering(memo))
    }

    fn remembering(self, memo: Option<Shared<Memo>>) -> Self
        ensures { result ≡ self }
    {
        let Content {
            base,
            noted,
            base_places,
            added,
            added_places,
            ..
        } = self;
        Content {
            base,
            noted,
            base_places,
            added,
            added_places,
            memo,
        }
    }

    /// The same, which shares all that it has: nothing is copied.
    pub fn share(&self) -> Result<Self, NoMemory>
        ensures same { IfOk result (λ r. r ≡ self.now) }
    {
        Ok(Content {
            base: self.base.share()?,
            noted: self.noted,
            base_places: self.base_places.share()?,
            added: self.added.share()?,
            added_places: self.added_places.share()?,
            memo: shared_memo(&self.memo)?,
        })
    }

    /// The same term with `by` levels put in after the first `size`. It is made once, as long as that is remembered: so loops beside
    /// one another, and those inside of them, don't make it again.
    pub(crate) fn carried(&self, alloc: Global, size: usize, by: usize) -> Result<Self, NoMemory>
        requires fits { Fits size (tree self.now) }
        requires levels { size + by < 2 ^ 64 }
        ensures carried { IfOk result (λ r. tree r ≡ shift size by (tree self.now)) }
        ensures fits { IfOk result (λ r. Fits (size + by) (tree r)) }
    {
        let source = self.whole(alloc)?;
        let Raised { term, noted } = raised_by(alloc, &self.memo, source, size, by)?;
        let memo = shared_memo(&self.memo)?;
        Content::unadded(alloc, term, noted, memo)
    }

    /// The same, whose term is copied only where something was added to it: then that stands in the term.
    pub(crate) fn settled(&self, alloc: Global) -> Result<Self, NoMemory>
        ensures same { IfOk result (λ r. r ≡ self.now) }
    {
        if self.added.get().len() == 0 {
            return self.share();
        }
        Content::alone(alloc, self.whole(alloc)?)
    }

    /// The term, which is copied only where something was added to it.
    #[tactic(auto, using(crate::proofs::Contents::with_empty))]
    pub fn whole(&self, alloc: Global) -> Result<Shared<Term>, NoMemory>
        ensures same { IfOk result (λ r. r ≡ self.now) }
    {
        if self.added.get().len() == 0 {
            return self.base.share();
        }
        let term = self.base.get().copy(alloc)?;
        let added = self.added.get().copy(alloc)?;
        Shared::new(alloc, grown(term, added)?)
    }

    /// A copy of the term.
    pub fn copy(&self, alloc: Global) -> Result<Term, NoMemory>
        ensures same { IfOk result (λ r. tree r ≡ tree self.now) }
    {
        self.whole(alloc)?.into_term(alloc)
    }

    /// Whether both are the same term.
    pub fn is_equal(&self, other: &Self) -> bool
        ensures { IsTrue result ↔ tree self.now ≡ tree other.now }
    {
        if self.is_set() && other.is_set() {
            return are_equal(
                comps_of_set(self.base.get()),
                self.added.get().as_slice(),
                comps_of_set(other.base.get()),
                other.added.get().as_slice(),
            );
        }
        self.base.get().is_equal(other.base.get())
    }

    /// Whether it is a set.
    pub fn is_set(&self) -> bool
        ensures { IsTrue result ↔ IsColl (tree self.now) }
    {
        is_set(self.base.get())
    }

    /// How many comprehensions the set has; what is no set has none.
    pub fn count(&self) -> usize
        ensures { result ≡ comps_in (tree self.now) }
    {
        if !self.is_set() {
            return 0;
        }
        comps_of_set(self.base.get()).len() + self.added.get().len()
    }

    /// Whether the term is written at most `limit` deep. No value of such a term is deeper.
    pub fn is_within_depth(&self, limit: usize) -> bool
        ensures written { IsTrue result → depth (tree self.now) ≤ limit }
        ensures values { IsTrue result → (c : List Atom) → IsDeeper (point (tree self.now) c) limit → ⊥ }
    {
        is_noted_within_depth(self.base.get(), self.noted, limit)
            && are_within_depth(self.added.get().as_slice(), limit)
    }

    /// Whether no comprehension in the term has binders. Then it is the same term among more levels.
    pub(crate) fn binds_nothing(&self) -> bool
        ensures { IsTrue result → BindsNothing (tree self.now) }
    {
        is_noted_unbound(self.base.get(), self.noted) && bind_nothing(self.added.get().as_slice())
    }

    /// The hash of the term, which follows from `seed`.
    pub(crate) fn hash(&self, seed: u64) -> u64
        ensures { result ≡ content_hash seed (tree self.now) }
    {
        if !self.is_set() {
            return hash_term(seed, self.base.get());
        }
        let hash = hash_comps(seed, comps_of_set(self.base.get()));
        hash_comps(hash, self.added.get().as_slice())
    }

    /// The comprehensions of the set behind the first `from`: those of the term, and those that were added to it.
    pub(crate) fn behind(&self, from: usize) -> (&[Comp], &[Comp])
        ensures { map comp_of result.0.now ++ map comp_of result.1.now ≡ drop from (comps_listed (tree self.now)) }
    {
        if !self.is_set() {
            return (&[], &[]);
        }
        let own = comps_of_set(self.base.get());
        (
            from_index(own, from),
            from_index(self.added.get().as_slice(), from.saturating_sub(own.len())),
        )
    }

    /// The set with comprehensions at its end. What is no set stays as it is.
    #[tactic(auto, using(crate::proofs::Contents::with_twice))]
    pub(crate) fn with_more(self, alloc: Global, more: Comps) -> Result<Self, NoMemory>
        ensures { IfOk result (λ r. r ≡ with_comps self more) }
    {
        let Content {
            base,
            noted,
            base_places,
            added,
            added_places,
            ..
        } = self;
        let added = appended(added.into_comps(alloc)?, more)?;
        holding(alloc, base, noted, base_places, added, added_places)
    }

    /// The set with one comprehension at its end, but where one is there that is written alike: so what is added again and again
    /// makes no longer set.
    pub fn put_once(self, alloc: Global, comp: Comp) -> Result<Self, NoMemory>
        requires { IsColl (tree self) }
        ensures { IfOk result (λ r. IsWithOnce (tree self) (comp_of comp) (tree r)) }
    {
        let known = self.searched(alloc)?;
        if known.has(&comp) {
            return Ok(known);
        }
        known.with_comp(alloc, comp)
    }

    fn searched(self, alloc: Global) -> Result<Self, NoMemory>
        ensures { IfOk result (λ r. r ≡ self) }
    {
        let Content {
            base,
            noted,
            base_places,
            added,
            added_places,
            memo,
        } = self;
        let base_places = searched(alloc, base_places, comps_of_set(base.get()))?;
        let added_places = searched(alloc, added_places, added.get().as_slice())?;
        Ok(Content {
            base,
            noted,
            base_places,
            added,
            added_places,
            memo,
        })
    }

    fn has(&self, comp: &Comp) -> bool
        requires { IsColl (tree self.now) }
        ensures { IsTrue result → Contains (comps_listed (tree self.now)) (comp_of comp.now) }
    {
        self.base_places
            .get()
            .finds(comp, comps_of_set(self.base.get()))
            || self
                .added_places
                .get()
                .finds(comp, self.added.get().as_slice())
    }

    // A set that has no other owner grows in place.
    fn with_comp(self, alloc: Global, comp: Comp) -> Result<Self, NoMemory>
        requires { IsColl (tree self) }
        ensures { IfOk result (λ r. r ≡ with_comps self (comp_of comp ∷ [])) }
    {
        let Content {
            base,
            noted,
            base_places,
            added,
            added_places,
            ..
        } = self;
        let mut more = added.into_comps(alloc)?;
        more.push(comp)?;
        match base.into_inner() {
            Ok(term) => {
                let noted = note_more(noted, more.as_slice());
                let base = Shared::new(alloc, grown(term, more)?)?;
                let none = Shared::new(alloc, Places::new(alloc))?;
                holding(alloc, base, noted, base_places, Comps::new(alloc), none)
            }
            Err(base) => holding(alloc, base, noted, base_places, more, added_places),
        }
    }

    /// The set of the first comprehensions, and those behind them.
    pub fn parted(self, alloc: Global, first: usize) -> Result<(Self, Comps), NoMemory>
        requires { IsColl (tree self) }
        ensures set { IfOk result (λ r. IsColl (tree r.0)) }
        ensures old { IfOk result (λ r. comps_listed (tree r.0) ≡ take first (comps_listed (tree self))) }
        ensures added { IfOk result (λ r. r.1 ≡ drop first (comps_listed (tree self))) }
    {
        let Content {
            base,
            noted,
            base_places,
            added,
            ..
        } = self;
        let count = comps_of_set(base.get()).len();
        let more = added.into_comps(alloc)?;
        if first < count {
            let set = grown(base.into_term(alloc)?, more)?;
            return parted_whole(alloc, set, first);
        }
        let parts = parted(alloc, more, first - count)?;
        let (old, added) = parts;
        let none = Shared::new(alloc, Places::new(alloc))?;
        let content = holding(alloc, base, noted, base_places, old, none)?;
        Ok((content, added))
    }
}

// Errors: `NoMemory`, also where there were more comprehensions than the greatest usize.
fn holding(
    alloc: Global,
    base: Shared<Term>,
    noted: Noted,
    base_places: Shared<Places>,
    added: Comps,
    added_places: Shared<Places>,
) -> Result<Content, NoMemory>
    requires { IsNotedOf noted base }
    ensures { IfOk result (λ r. r ≡ with_comps base added) }
{
    if comps_of_set(base.get()).len() > usize::MAX - added.len() {
        return Err(NoMemory);
    }
    Ok(Content {
        base,
        noted,
        base_places,
        added: Shared::new(alloc, added)?,
        added_places,
        memo: None,
    })
}

// A term without binders is never made anew.
fn memo_for(alloc: Global, noted: Noted) -> Result<Option<Shared<Memo>>, NoMemory> {
    if noted.binds_nothing {
        return Ok(None);
    }
    Ok(Some(Shared::new(alloc, Memo::new(alloc))?))
}

fn shared_memo(memo: &Option<Shared<Memo>>) -> Result<Option<Shared<Memo>>, NoMemory> {
    match memo {
        Some(memo) => Ok(Some(memo.share()?)),
        None => Ok(None),
    }
}

// The term with `by` levels put in after the first `size`: as it is remembered, or made and remembered.
fn raised_by(
    alloc: Global,
    memo: &Option<Shared<Memo>>,
    source: Shared<Term>,
    size: usize,
    by: usize,
) -> Result<Raised, NoMemory>
    requires fits { Fits size (tree source) }
    requires levels { size + by < 2 ^ 64 }
    ensures { IfOk result (IsRaised size by (tree source)) }
{
    let Some(memo) = memo else {
        return made_raised(alloc, &source, size, by);
    };
    if let Some(known) = memo.get().known(source.get(), size, by)? {
        return Ok(known);
    }
    let made = made_raised(alloc, &source, size, by)?;
    memo.get().remember(source, size, by, made.share()?)?;
    Ok(made)
}

// Binders inside of the term may come to lie above the greatest usize.
fn made_raised(
    alloc: Global,
    source: &Shared<Term>,
    size: usize,
    by: usize,
) -> Result<Raised, NoMemory>
    requires fits { Fits size (tree source.now) }
    requires levels { size + by < 2 ^ 64 }
    ensures { IfOk result (IsRaised size by (tree source.now)) }
{
    let term = Shared::new(alloc, carried_term(alloc, source.get(), size, by)?)?;
    let noted = note(term.get());
    Ok(Raised { term, noted })
}

/// The term with `by` levels put in after the first `size`. Binders inside of it may come to lie above the greatest usize.
pub(crate) fn carried_term(
    alloc: Global,
    term: &Term,
    size: usize,
    by: usize,
) -> Result<Term, NoMemory>
    requires fits { Fits size (tree term.now) }
    requires levels { size + by < 2 ^ 64 }
    ensures carried { IfOk result (λ r. tree r ≡ shift size by (tree term.now)) }
    ensures fits { IfOk result (λ r. Fits (size + by) (tree r)) }
{
    if !term.fits(size + by) {
        return Err(NoMemory);
    }
    shift_term(alloc, term, size, by)
}

fn parted_whole(alloc: Global, set: Term, first: usize) -> Result<(Content, Comps), NoMemory>
    requires { IsColl (tree set) }
    ensures set { IfOk result (λ r. IsColl (tree r.0)) }
    ensures old { IfOk result (λ r. comps_listed (tree r.0) ≡ take first (comps_listed (tree set))) }
    ensures added { IfOk result (λ r. r.1 ≡ drop first (comps_listed (tree set))) }
{
    let Term::Coll(comps) = set else {
        unreachable!();
    };
    let parts = parted(alloc, comps, first)?;
    let (old, added) = parts;
    let content = Content::new(alloc, Term::Coll(old))?;
    Ok((content, added))
}

// The first comprehensions, and those behind them.
fn parted(alloc: Global, comps: Comps, first: usize) -> Result<(Comps, Comps), NoMemory>
    ensures old { IfOk result (λ r. r.0 ≡ take first comps) }
    ensures added { IfOk result (λ r. r.1 ≡ drop first comps) }
{
    let mut old = Comps::new(alloc);
    let mut added = Comps::new(alloc);
    for comp in comps.into_vec() {
        put_part(&mut old, &mut added, first, comp)?;
    }
    Ok((old, added))
}

// One comprehension more, behind the first ones while there are fewer than `first`.
fn put_part(old: &mut Comps, added: &mut Comps, first: usize, comp: Comp) -> Result<(), NoMemory>
    ensures { OnOk result ((ks : List CompD) → AreParts first ks old.old added.old → AreParts first (ks ++ comp_of comp ∷ []) old.new added.new) }
{
    if old.len() < first {
        return old.push(comp);
    }
    added.push(comp)
}

// Whether the term is a set.
fn is_set(term: &Term) -> bool
    ensures { IsTrue result ↔ IsColl (tree term.now) }
{
    matches!(term, Term::Coll(_))
}

// The comprehensions of a set; what is no set has none.
fn comps_of_set(term: &Term) -> &[Comp]
    ensures { map comp_of result.now ≡ comps_listed (tree term.now) }
{
    match term {
        Term::Coll(comps) => comps.as_slice(),
        _ => &[],
    }
}

// The comprehensions from an index on, if there are as many.
fn from_index(comps: &[Comp], from: usize) -> &[Comp]
    ensures { result.now ≡ drop from comps.now }
{
    if from < comps.len() {
        return &comps[from..];
    }
    &[]
}

// A term whose set has further comprehensions at its end.
fn grown(term: Term, more: Comps) -> Result<Term, NoMemory>
    ensures { IfOk result (λ r. r ≡ with_comps term more) }
{
    match term {
        Term::Coll(comps) => Ok(Term::Coll(appended(comps, more)?)),
        Term::Var(level) => Ok(Term::Var(level)),
        Term::Tag(name) => Ok(Term::Tag(name)),
        Term::Tup(parts) => Ok(Term::Tup(parts)),
    }
}

fn appended(comps: Comps, more: Comps) -> Result<Comps, NoMemory>
    ensures { IfOk result (λ r. r ≡ comps ++ more) }
{
    let mut all = comps;
    for comp in more.into_vec() {
        all.push(comp)?;
    }
    Ok(all)
}

fn are_within_depth(comps: &[Comp], limit: usize) -> bool
    ensures { IsTrue result → depth_of_comps (map comp_of comps.now) < limit }
{
    if limit == 0 {
        return false;
    }
    for comp in comps {
        if !is_within_depth(&comp.item, limit - 1) {
            return false;
        }
    }
    true
}

fn bind_nothing(comps: &[Comp]) -> bool
    ensures { IsTrue result → ItemsBindNothing (comps_of (map comp_of comps.now)) }
{
    for comp in comps {
        if comp.binders != 0 || !binds_nothing(&comp.item) {
            return false;
        }
    }
    true
}

fn is_noted_within_depth(term: &Term, noted: Noted, limit: usize) -> bool
    requires { IsNotedOf noted term.now }
    ensures { IsTrue result → depth (tree term.now) ≤ limit }
{
    if noted.is_shallow && limit >= GREATEST_DEPTH {
        return true;
    }
    is_within_depth(term, limit)
}

fn is_noted_unbound(term: &Term, noted: Noted) -> bool
    requires { IsNotedOf noted term.now }
    ensures { IsTrue result → BindsNothing (tree term.now) }
{
    noted.binds_nothing || binds_nothing(term)
}

fn note(term: &Term) -> Noted
    ensures { IsNotedOf result term.now }
{
    Noted {
        binds_nothing: binds_nothing(term),
        is_shallow: is_within_depth(term, GREATEST_DEPTH),
    }
}

// What is noted of a term whose set gets further comprehensions.
fn note_more(noted: Noted, more: &[Comp]) -> Noted
    ensures { (t : Term) → IsNotedOf noted t → IsNotedOf result (with_comps t (map comp_of more.now)) }
{
    Noted {
        binds_nothing: stays_unbound(noted, more),
        is_shallow: stays_shallow(noted, more),
    }
}

fn stays_unbound(noted: Noted, more: &[Comp]) -> bool
    ensures { IsTrue result → IsTrue noted.binds_nothing × ItemsBindNothing (comps_of (map comp_of more.now)) }
{
    noted.binds_nothing && bind_nothing(more)
}

fn stays_shallow(noted: Noted, more: &[Comp]) -> bool
    ensures { IsTrue result → IsTrue noted.is_shallow × (depth_of_comps (map comp_of more.now) < GREATEST_DEPTH) }
{
    noted.is_shallow && are_within_depth(more, GREATEST_DEPTH)
}

// Whether the first list with the second behind it is the third with the fourth behind it.
fn are_equal(first: &[Comp], second: &[Comp], third: &[Comp], fourth: &[Comp]) -> bool
    requires { length first.now + length second.now < 2 ^ 64 }
    ensures { IsTrue result ↔ map comp_of first.now ++ map comp_of second.now ≡ map comp_of third.now ++ map comp_of fourth.now }
{
    let count = first.len() + second.len();
    if count != third.len() + fourth.len() {
        return false;
    }
    for i in 0..count {
        if !comp_at(first, second, i).is_equal(comp_at(third, fourth, i)) {
            return false;
        }
    }
    true
}

fn comp_at<'a>(first: &'a [Comp], second: &'a [Comp], i: usize) -> &'a Comp
    requires { i < length first.now + length second.now }
    ensures { (d : CompD) → comp_of result.now ≡ get_or (map comp_of first.now ++ map comp_of second.now) i d }
{
    if i < first.len() {
        return &first[i];
    }
    &second[i - first.len()]
}

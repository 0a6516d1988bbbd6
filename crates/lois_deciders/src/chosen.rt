//! Several deciders, of which one is asked.

ghost use Rattle.std.specs.Prelude.{◌≡◌, ◌<◌, ◌≤◌, ◌↔◌, ◌&&◌, List, [], ◌∷◌, length, map, vec_len, IfOk, OnOk, IfSome, IsNone, IsTrue};
ghost use Rattle.std.specs.List.{All, HoldsAt};
ghost use Rattle.lois_base.specs.Atom.{Atom};
ghost use Rattle.lois_base.specs.Fits.{CubeFits, ConstraintFits};
ghost use Rattle.lois_base.specs.Theory.{IsSatisfiable, IsSampleOf, risen};
ghost use Rattle.lois_base.specs.Truth.{holds};
ghost use Rattle.lois_deciders.specs.Satisfaction.{IsConstraintSample, IsEntailed};
ghost use Rattle.lois_deciders.specs.Satisfiability.{ConstraintIsSatisfiable, IsCounterexample};
ghost use Rattle.lois_deciders.specs.QuestionCounts.{HasRisen, IsNoLower};
ghost use Rattle.lois_deciders.specs.Choice.{IsWanted, IsUnwanted};
ghost use Rattle.lois_deciders.specs.FirstWanted.{IsFirstWanted};
ghost use Rattle.lois_deciders.specs.Conjunction.{IsSampledConjunction, AreInconsistent};

use lois_base::{Constraint, Cube, Decider, Kind, NoMemory, Numbers};
use lois_constraint::{and, and_not, and_not_partly, meet, singleton};
use std::alloc::Global;

// A counterexample is looked for among so many cubes of what is left, before all that is left is made.
const MOST_CUBES: usize = 16;

/// A constraint, and numbers at which it holds.
#[derive(Drop)]
pub struct SampledConstraint {
    pub constraint: Constraint,
    pub sample: Numbers,
}

/// Deciders, and which of them is asked.
#[derive(Drop)]
pub struct Chosen {
    deciders: Vec<Box<dyn Decider>>,
    position: usize,
    ghost in_list: { position < vec_len deciders },
}

fn is_wanted(kind: Option<Kind>, decider: &Box<dyn Decider>) -> bool
    ensures { IsTrue result ↔ IsWanted kind (kind_of decider.now) }
{
    match kind {
        None => true,
        Some(kind) => kind == decider.name(),
    }
}

fn put_cube(
    decider: &mut Box<dyn Decider>,
    alloc: Global,
    cube: &Cube,
    size: usize,
) -> Result<Option<Vec<u64>>, NoMemory>
    requires { CubeFits size cube.now }
    ensures sample { IfOk result (λ o. IfSome o (λ s. IsSampleOf size cube.now s.items)) }
    ensures none { IfOk result (λ o. IsNone o ↔ (IsSatisfiable size cube.now → ⊥)) }
    ensures asked { questions decider.new ≡ risen (questions decider.old) }
    ensures kind { kind_of decider.new ≡ kind_of decider.old }
{
    decider.satisfiable(alloc, cube, size)
}

// A sample of the first cube that has one.
fn put(
    decider: &mut Box<dyn Decider>,
    alloc: Global,
    c: &Constraint,
    size: usize,
) -> Result<Option<Vec<u64>>, NoMemory>
    requires { ConstraintFits size c.now }
    ensures sample { IfOk result (λ o. IfSome o (λ s. IsConstraintSample size c.now s.items)) }
    ensures none { IfOk result (λ o. IsNone o ↔ (ConstraintIsSatisfiable size c.now → ⊥)) }
    ensures asked { OnOk result (0 < length c.now → HasRisen (questions decider.old) (questions decider.new)) }
    ensures kind { kind_of decider.new ≡ kind_of decider.old }
    ensures more { IsNoLower (questions decider.old) (questions decider.new) }
{
    for cube in c.as_slice() {
        if let Some(sample) = put_cube(decider, alloc, cube, size)? {
            return Ok(Some(sample));
        }
    }
    Ok(None)
}

impl Chosen {
    ghost use Rattle.lois_deciders.specs.OnlyAsked.{HasOnlyAsked};

    /// The first of the deciders that is of the kind, or where no kind is named the first of all. `None` where there
    /// is no such decider, and then all are dropped.
    pub fn choose(deciders: Vec<Box<dyn Decider>>, kind: Option<Kind>) -> Option<Chosen>
        ensures chosen { IfSome result (λ c. IsFirstWanted kind (map (λ b. kind_of b) deciders.items) c.position) }
        ensures kept { IfSome result (λ c. c.deciders.items ≡ deciders.items) }
        ensures none { IsNone result ↔ All (IsUnwanted kind) (map (λ b. kind_of b) deciders.items) }
    {
        for position in 0..deciders.len() {
            if is_wanted(kind, &deciders[position]) {
                return Some(Chosen { deciders, position });
            }
        }
        None
    }

    /// `size` numbers below `size` at which the constraint holds, or `None` where it holds at no choice of atoms.
    /// Errors: `NoMemory`.
    pub fn ask(
        &mut self,
        alloc: Global,
        c: &Constraint,
        size: usize,
    ) -> Result<Option<Vec<u64>>, NoMemory>
        requires { ConstraintFits size c.now }
        ensures sample { IfOk result (λ o. IfSome o (λ s. IsConstraintSample size c.now s.items)) }
        ensures none { IfOk result (λ o. IsNone o ↔ (ConstraintIsSatisfiable size c.now → ⊥)) }
        ensures asked { OnOk result (0 < length c.now → HoldsAt (λ b. HoldsAt (λ a. HasRisen ((⟦<dyn Decider as Decider>⟧ b.vtable).questions b.value) ((⟦<dyn Decider as Decider>⟧ a.vtable).questions a.value)) self.new.deciders.items self.new.position) self.old.deciders.items self.old.position) }
        ensures only_asked { HasOnlyAsked (λ b. kind_of b) (λ b. questions b) self.old self.new }
    {
        put(&mut self.deciders[self.position], alloc, c, size)
    }

    /// The pruned constraint that holds where `a` and `b` both do, with `size` numbers below `size` at which it holds, or `None`
    /// where the two exclude each other. Errors: `NoMemory`.
    pub fn meet(
        &mut self,
        alloc: Global,
        a: &Constraint,
        b: &Constraint,
        size: usize,
    ) -> Result<Option<SampledConstraint>, NoMemory>
        requires first { ConstraintFits size a.now }
        requires second { ConstraintFits size b.now }
        ensures met { IfOk result (λ o. IfSome o (λ m. IsSampledConjunction size a.now b.now m.constraint m.sample)) }
        ensures none { IfOk result (λ o. IsNone o ↔ AreInconsistent size a.now b.now) }
        ensures only_asked { HasOnlyAsked (λ b. kind_of b) (λ b. questions b) self.old self.new }
    {
        let constraint = meet(alloc, a, b)?;
        match self.ask_both(alloc, a, b, &constraint, size)? {
            Some(sample) => Ok(Some(SampledConstraint {
                constraint,
                sample: Numbers::from_vec(sample),
            })),
            None => Ok(None),
        }
    }

    // A sample at which both hold. A contradiction that `pruned` has lost is for the decider to refuse.
    fn ask_both(
        &mut self,
        alloc: Global,
        a: &Constraint,
        b: &Constraint,
        pruned: &Constraint,
        size: usize,
    ) -> Result<Option<Vec<u64>>, NoMemory>
        requires first { ConstraintFits size a.now }
        requires second { ConstraintFits size b.now }
        requires pruned { ConstraintFits size pruned.now }
        requires truth { (c : List Atom) → holds c pruned.now ≡ (holds c a.now && holds c b.now) }
        ensures sample { IfOk result (λ o. IfSome o (λ s. IsConstraintSample size pruned.now s.items)) }
        ensures none { IfOk result (λ o. IsNone o ↔ (ConstraintIsSatisfiable size pruned.now → ⊥)) }
        ensures only_asked { HasOnlyAsked (λ b. kind_of b) (λ b. questions b) self.old self.new }
    {
        if pruned.len() > 0 {
            return self.ask(alloc, pruned, size);
        }
        let product = and(alloc, a, b)?;
        self.ask(alloc, &product, size)
    }

    /// Whether `c` entails `d`, told by a counterexample: `size` numbers below `size` at which `c` holds and `d` doesn't, or
    /// `None` where `d` holds at every choice of atoms at which `c` does. Errors: `NoMemory`.
    pub fn entails(
        &mut self,
        alloc: Global,
        c: &Constraint,
        d: &Constraint,
        size: usize,
    ) -> Result<Option<Vec<u64>>, NoMemory>
        requires first { ConstraintFits size c.now }
        requires second { ConstraintFits size d.now }
        ensures sample { IfOk result (λ o. IfSome o (λ s. IsCounterexample size c.now d.now s.items)) }
        ensures none { IfOk result (λ o. IsNone o ↔ IsEntailed size c.now d.now) }
        ensures only_asked { HasOnlyAsked (λ b. kind_of b) (λ b. questions b) self.old self.new }
    {
        for cube in c.as_slice() {
            if let Some(sample) = self.ask_left(alloc, cube, d, size)? {
                return Ok(Some(sample));
            }
        }
        Ok(None)
    }

    // The same of one cube: what is left of it is asked about.
    fn ask_left(
        &mut self,
        alloc: Global,
        cube: &Cube,
        d: &Constraint,
        size: usize,
    ) -> Result<Option<Vec<u64>>, NoMemory>
        requires first { CubeFits size cube.now }
        requires second { ConstraintFits size d.now }
        ensures sample { IfOk result (λ o. IfSome o (λ s. IsCounterexample size (cube.now ∷ []) d.now s.items)) }
        ensures none { IfOk result (λ o. IsNone o ↔ IsEntailed size (cube.now ∷ []) d.now) }
        ensures only_asked { HasOnlyAsked (λ b. kind_of b) (λ b. questions b) self.old self.new }
    {
        let whole = singleton(alloc, cube)?;
        let part = and_not_partly(alloc, &whole, d, MOST_CUBES)?;
        if let Some(sample) = self.ask(alloc, &part.constraint, size)? {
            return Ok(Some(sample));
        }
        if part.whole {
            return Ok(None);
        }
        let left = and_not(alloc, &whole, d)?;
        self.ask(alloc, &left, size)
    }

    /// How many questions the chosen decider was asked, or the greatest u64 where there were more.
    pub fn asked(&self) -> u64
        ensures { HoldsAt (λ b. result ≡ (⟦<dyn Decider as Decider>⟧ b.vtable).questions b.value) self.now.deciders.items self.now.position }
    {
        self.deciders[self.position].asked()
    }
}

//! Lists of cubes that are pruned as they grow.

ghost use Rattle.std.specs.Prelude.{◌≡◌, List, [], ◌&&◌, ◌||◌, not, IfOk, IsTrue, IsFalse};
ghost use Rattle.std.specs.List.{All};
ghost use Rattle.lois_base.specs.Atom.{Atom};
ghost use Rattle.lois_base.specs.Truth.{cube_holds, holds};
ghost use Rattle.lois_constraint.specs.Entailment.{Entails, AreIncomparable, IsPruned};
ghost use Rattle.lois_constraint.specs.Rules.{Rule, CubeObeys, ConstraintObeys};
ghost use Rattle.lois_constraint.specs.Tight.{some_holds, SomeObeys};

use crate::closed_cube::ClosedCube;
use crate::signature::IndexedCube;
use lois_base::{Constraint, Cube, NoMemory};
use std::alloc::Global;
use std::marker::Model;

/// Cubes of which none entails another, each with its signature.
#[derive(Drop)]
pub(crate) struct Antichain {
    items: Vec<IndexedCube>,
}

impl Model for Antichain {
    ghost use Rattle.std.specs.Prelude.{List};
    ghost use Rattle.lois_base.specs.declared.guards.Lit.{Lit};
    ghost use Rattle.lois_constraint.specs.Entailment.{IsPruned};

    ghost Value = { List (List Lit) };

    ghost view = { λ p. p.items.items };

    ghost invariant = { λ p. IsPruned p.items.items };
}

// Whether one of the cubes entails the cube.
fn some_entails(cubes: &[IndexedCube], cube: &IndexedCube) -> bool
    ensures { IsFalse result → All (λ k. Entails k cube.now → ⊥) cubes.now }
{
    for other in cubes {
        if other.entails_cube(cube) {
            return true;
        }
    }
    false
}

// The cubes that don't entail the cube, moved together.
fn without_narrower(
    alloc: Global,
    cubes: Vec<IndexedCube>,
    cube: &IndexedCube,
) -> Result<Vec<IndexedCube>, NoMemory>
    ensures truth { IfOk result (λ r. (c : List Atom) → (holds c r.items || cube_holds c cube.now) ≡ (holds c cubes.items || cube_holds c cube.now)) }
    ensures outside { IfOk result (λ r. All (λ k. Entails k cube.now → ⊥) r.items) }
    ensures uncovered { IfOk result (λ r. All (λ k. Entails cube.now k → ⊥) cubes.items → All (λ k. Entails cube.now k → ⊥) r.items) }
    ensures pruned { IfOk result (λ r. IsPruned cubes.items → IsPruned r.items) }
    ensures rules { IfOk result (λ r. (rule : Rule) → ConstraintObeys rule cubes.items → ConstraintObeys rule r.items) }
{
    let mut kept = Vec::new(alloc);
    for other in cubes {
        if !other.entails_cube(cube) {
            kept.push(other)?;
        }
    }
    Ok(kept)
}

// The cubes that don't entail the cube. Mostly all of them, and then they stay where they are.
fn outside(
    alloc: Global,
    cubes: Vec<IndexedCube>,
    cube: &IndexedCube,
) -> Result<Vec<IndexedCube>, NoMemory>
    ensures truth { IfOk result (λ r. (c : List Atom) → (holds c r.items || cube_holds c cube.now) ≡ (holds c cubes.items || cube_holds c cube.now)) }
    ensures outside { IfOk result (λ r. All (λ k. Entails k cube.now → ⊥) r.items) }
    ensures uncovered { IfOk result (λ r. All (λ k. Entails cube.now k → ⊥) cubes.items → All (λ k. Entails cube.now k → ⊥) r.items) }
    ensures pruned { IfOk result (λ r. IsPruned cubes.items → IsPruned r.items) }
    ensures rules { IfOk result (λ r. (rule : Rule) → ConstraintObeys rule cubes.items → ConstraintObeys rule r.items) }
{
    if some_entails(&cubes, cube) {
        return without_narrower(alloc, cubes, cube);
    }
    Ok(cubes)
}

/// Whether the cube entails one of the others.
pub(crate) fn entails_one(closed: &ClosedCube, others: &Constraint) -> bool
    ensures inside { IsTrue result → (c : List Atom) → IsTrue (cube_holds c closed.now) → IsTrue (holds c others.now) }
    ensures outside { IsFalse result → All (λ k. Entails closed.now k → ⊥) others.now }
{
    for other in others.as_slice() {
        if closed.entails_cube(other) {
            return true;
        }
    }
    false
}

// The cubes that entail one of a constraint's cubes, and the others.
#[derive(Drop)]
struct Parts {
    within: Vec<IndexedCube>,
    others: Vec<IndexedCube>,
}

fn parted(alloc: Global, cubes: Vec<IndexedCube>, c: &Constraint) -> Result<Parts, NoMemory>
    ensures truth { IfOk result (λ r. (e : List Atom) → (holds e r.within.items || (holds e r.others.items && holds e c.now)) ≡ (holds e cubes.items && holds e c.now)) }
    ensures pruned { IfOk result (λ r. IsPruned cubes.items → IsPruned r.within.items) }
    ensures within_rules { IfOk result (λ r. (rule : Rule) → ConstraintObeys rule cubes.items → ConstraintObeys rule r.within.items) }
    ensures other_rules { IfOk result (λ r. (rule : Rule) → ConstraintObeys rule cubes.items → ConstraintObeys rule r.others.items) }
{
    let mut within = Vec::new(alloc);
    let mut others = Vec::new(alloc);
    for cube in cubes {
        if entails_one(cube.closed(), c) {
            within.push(cube)?;
        } else {
            others.push(cube)?;
        }
    }
    Ok(Parts { within, others })
}

// More cubes, each where the constraint holds too.
fn with_met(
    alloc: Global,
    antichain: Antichain,
    cubes: Vec<IndexedCube>,
    c: &Constraint,
) -> Result<Antichain, NoMemory>
    ensures truth { IfOk result (λ r. (e : List Atom) → holds e r ≡ (holds e antichain || (holds e cubes.items && holds e c.now))) }
    ensures rules { IfOk result (λ r. (rule : Rule) → ConstraintObeys rule antichain → ConstraintObeys rule cubes.items → ConstraintObeys rule c.now → ConstraintObeys rule r) }
{
    let mut met = antichain;
    for cube in cubes {
        met = met.put_with_all(alloc, cube.into_closed(), c)?;
    }
    Ok(met)
}

impl Antichain {
    /// No cubes.
    pub(crate) fn new(alloc: Global) -> Self
        ensures { result ≡ [] }
    {
        Antichain {
            items: Vec::new(alloc),
        }
    }

    // Whether the cube entails one of the antichain.
    fn covers(&self, cube: &IndexedCube) -> bool
        ensures covered { IsTrue result → (c : List Atom) → IsTrue (cube_holds c cube.now) → IsTrue (holds c self.now) }
        ensures uncovered { IsFalse result → All (λ k. Entails cube.now k → ⊥) self.now }
    {
        for other in &self.items {
            if cube.entails_cube(other) {
                return true;
            }
        }
        false
    }

    // One more cube, unless it adds nothing. It is compared with all the others, which signatures make quick.
    fn put_indexed(self, alloc: Global, cube: IndexedCube) -> Result<Self, NoMemory>
        ensures truth { IfOk result (λ r. (c : List Atom) → holds c r ≡ (holds c self || cube_holds c cube)) }
        ensures rules { IfOk result (λ r. (rule : Rule) → ConstraintObeys rule self → CubeObeys rule cube → ConstraintObeys rule r) }
    {
        if self.covers(&cube) {
            return Ok(self);
        }
        let Antichain { items } = self;
        let mut kept = outside(alloc, items, &cube)?;
        kept.push(cube)?;
        Ok(Antichain { items: kept })
    }

    /// One more cube, unless it adds nothing.
    pub(crate) fn put(self, alloc: Global, closed: ClosedCube) -> Result<Self, NoMemory>
        ensures truth { IfOk result (λ r. (c : List Atom) → holds c r ≡ (holds c self || cube_holds c closed)) }
        ensures rules { IfOk result (λ r. (rule : Rule) → ConstraintObeys rule self → CubeObeys rule closed → ConstraintObeys rule r) }
    {
        let cube = IndexedCube::of(alloc, closed)?;
        self.put_indexed(alloc, cube)
    }

    // One more cube, where there is one.
    fn put_some(self, alloc: Global, found: Option<ClosedCube>) -> Result<Self, NoMemory>
        ensures truth { IfOk result (λ r. (c : List Atom) → holds c r ≡ (holds c self || some_holds c found)) }
        ensures rules { IfOk result (λ r. (rule : Rule) → ConstraintObeys rule self → SomeObeys rule found → ConstraintObeys rule r) }
    {
        match found {
            Some(closed) => Ok(self.put(alloc, closed)?),
            None => Ok(self),
        }
    }

    /// The cubes of a constraint.
    pub(crate) fn of(alloc: Global, c: &Constraint) -> Result<Self, NoMemory>
        ensures truth { IfOk result (λ r. (e : List Atom) → holds e r ≡ holds e c.now) }
        ensures rules { IfOk result (λ r. (rule : Rule) → ConstraintObeys rule c.now → ConstraintObeys rule r) }
    {
        let mut antichain = Antichain::new(alloc);
        for cube in c.as_slice() {
            antichain = antichain.put_some(alloc, ClosedCube::of(alloc, cube)?)?;
        }
        Ok(antichain)
    }

    // The cube with each of the others.
    fn put_with_each(
        self,
        alloc: Global,
        closed: &ClosedCube,
        others: &Constraint,
    ) -> Result<Self, NoMemory>
        ensures truth { IfOk result (λ r. (c : List Atom) → holds c r ≡ (holds c self || (cube_holds c closed.now && holds c others.now))) }
        ensures rules { IfOk result (λ r. (rule : Rule) → ConstraintObeys rule self → CubeObeys rule closed.now → ConstraintObeys rule others.now → ConstraintObeys rule r) }
    {
        let mut antichain = self;
        for other in others.as_slice() {
            let both = closed.meet(alloc, other)?;
            antichain = antichain.put_some(alloc, both)?;
        }
        Ok(antichain)
    }

    // The cube with the other one.
    fn put_both(self, alloc: Global, closed: ClosedCube, other: &Cube) -> Result<Self, NoMemory>
        ensures truth { IfOk result (λ r. (c : List Atom) → holds c r ≡ (holds c self || (cube_holds c closed && cube_holds c other.now))) }
        ensures rules { IfOk result (λ r. (rule : Rule) → ConstraintObeys rule self → CubeObeys rule closed → CubeObeys rule other.now → ConstraintObeys rule r) }
    {
        let both = closed.and_literals(alloc, other.as_slice())?;
        self.put_some(alloc, both)
    }

    // The cube with each of the others. Mostly there is one other alone, and then the cube isn't copied.
    fn put_with_all(
        self,
        alloc: Global,
        closed: ClosedCube,
        others: &Constraint,
    ) -> Result<Self, NoMemory>
        ensures truth { IfOk result (λ r. (c : List Atom) → holds c r ≡ (holds c self || (cube_holds c closed && holds c others.now))) }
        ensures rules { IfOk result (λ r. (rule : Rule) → ConstraintObeys rule self → CubeObeys rule closed → ConstraintObeys rule others.now → ConstraintObeys rule r) }
    {
        match others.as_slice() {
            [other] => self.put_both(alloc, closed, other),
            _ => self.put_with_each(alloc, &closed, others),
        }
    }

    // One more cube where the constraint holds too: as it is where it entails one of the constraint's cubes, and else with each.
    fn put_met(self, alloc: Global, closed: ClosedCube, c: &Constraint) -> Result<Self, NoMemory>
        ensures truth { IfOk result (λ r. (e : List Atom) → holds e r ≡ (holds e self || (cube_holds e closed && holds e c.now))) }
        ensures rules { IfOk result (λ r. (rule : Rule) → ConstraintObeys rule self → CubeObeys rule closed → ConstraintObeys rule c.now → ConstraintObeys rule r) }
    {
        if entails_one(&closed, c) {
            return self.put(alloc, closed);
        }
        self.put_with_all(alloc, closed, c)
    }

    // One more cube where the constraint holds too, if there is one.
    fn put_some_met(
        self,
        alloc: Global,
        found: Option<ClosedCube>,
        c: &Constraint,
    ) -> Result<Self, NoMemory>
        ensures truth { IfOk result (λ r. (e : List Atom) → holds e r ≡ (holds e self || (some_holds e found && holds e c.now))) }
        ensures rules { IfOk result (λ r. (rule : Rule) → ConstraintObeys rule self → SomeObeys rule found → ConstraintObeys rule c.now → ConstraintObeys rule r) }
    {
        match found {
            Some(closed) => Ok(self.put_met(alloc, closed, c)?),
            None => Ok(self),
        }
    }

    /// What holds where two constraints do. The cubes of the first are not compared with one another: only what they are where the
    /// second holds is put into the antichain.
    pub(crate) fn of_both(alloc: Global, a: &Constraint, b: &Constraint) -> Result<Self, NoMemory>
        ensures truth { IfOk result (λ r. (e : List Atom) → holds e r ≡ (holds e a.now && holds e b.now)) }
        ensures rules { IfOk result (λ r. (rule : Rule) → ConstraintObeys rule a.now → ConstraintObeys rule b.now → ConstraintObeys rule r) }
    {
        let mut antichain = Antichain::new(alloc);
        if b.len() == 0 {
            return Ok(antichain);
        }
        for cube in a.as_slice() {
            antichain = antichain.put_some_met(alloc, ClosedCube::of(alloc, cube)?, b)?;
        }
        Ok(antichain)
    }

    /// The antichain where a constraint holds too. What entails one of its cubes stays as it is, and isn't compared with the rest
    /// of the antichain again: none of an antichain entails another.
    pub(crate) fn meet(self, alloc: Global, c: &Constraint) -> Result<Self, NoMemory>
        ensures truth { IfOk result (λ r. (e : List Atom) → holds e r ≡ (holds e self && holds e c.now)) }
        ensures rules { IfOk result (λ r. (rule : Rule) → ConstraintObeys rule self → ConstraintObeys rule c.now → ConstraintObeys rule r) }
    {
        let Antichain { items } = self;
        let Parts { within, others } = parted(alloc, items, c)?;
        with_met(alloc, Antichain { items: within }, others, c)
    }

    /// The first cubes, at most so many.
    pub(crate) fn keep_first(self, most: usize) -> Self
        ensures truth { (e : List Atom) → IsTrue (holds e result) → IsTrue (holds e self) }
        ensures rules { (rule : Rule) → ConstraintObeys rule self → ConstraintObeys rule result }
    {
        let Antichain { mut items } = self;
        items.truncate(most);
        Antichain { items }
    }

    /// How many cubes there are.
    pub(crate) fn len(&self) -> usize {
        self.items.len()
    }

    /// The cubes as a constraint.
    pub(crate) fn into_constraint(self, alloc: Global) -> Result<Constraint, NoMemory>
        ensures same { IfOk result (λ r. r ≡ self) }
        ensures pruned { IfOk result IsPruned }
    {
        let Antichain { items } = self;
        let mut c = Constraint::new(alloc);
        for cube in items {
            c.push(cube.into_closed().into_cube())?;
        }
        Ok(c)
    }
}

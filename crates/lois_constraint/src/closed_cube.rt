//! Cubes that can be met, with what they say of the order of their levels: what follows from one is looked up.

ghost use Rattle.std.specs.Prelude.{◌≡◌, ℕ, List, [], ◌∷◌, ◌++◌, ◌&&◌, IfOk, IsTrue, IsFalse, ◌↔◌};
ghost use Rattle.lois_base.specs.Atom.{Atom};
ghost use Rattle.lois_base.specs.Truth.{lit_holds, cube_holds};
ghost use Rattle.lois_base.specs.declared.guards.Lit.{Lit};
ghost use Rattle.lois_constraint.specs.Entailment.{CubeIsSatisfiable, Entails};
ghost use Rattle.lois_constraint.specs.Signature.{EntailsLit, RecordsLit};
ghost use Rattle.lois_constraint.specs.Rules.{Rule, Obeys, CubeObeys};
ghost use Rattle.lois_constraint.specs.Tight.{some_holds, SomeObeys};

use crate::level_order::{LevelOrder, is_implied, is_refuted, may_be_implied};
use lois_base::{Cube, Lit, NoMemory};
use std::alloc::Global;
use std::marker::Model;

/// A cube that can be met, with the order that it puts its levels in.
#[derive(Drop)]
pub(crate) struct ClosedCube {
    cube: Cube,
    order: LevelOrder,
}

impl Model for ClosedCube {
    ghost use Rattle.std.specs.Prelude.{List};
    ghost use Rattle.lois_base.specs.declared.guards.Lit.{Lit};
    ghost use Rattle.lois_constraint.specs.LevelOrders.{is_at_most};
    ghost use Rattle.lois_constraint.specs.Order.{IsOrderClosure};

    ghost Value = { List Lit };

    ghost view = { λ k. k.cube };

    ghost invariant = { λ k. IsOrderClosure (is_at_most k.order) k.cube };
}

impl ClosedCube {
    /// The cube without literals.
    #[tactic(auto, using(crate::proofs::Linked::no_order))]
    pub(crate) fn new(alloc: Global) -> Self
        ensures { result ≡ [] }
    {
        ClosedCube {
            cube: Cube::new(alloc),
            order: LevelOrder::new(),
        }
    }

    /// The cube by itself.
    pub(crate) fn into_cube(self) -> Cube
        ensures same { result ≡ self }
        ensures met { CubeIsSatisfiable self }
    {
        let ClosedCube { cube, .. } = self;
        cube
    }

    /// The cube.
    pub(crate) fn cube(&self) -> &Cube
        ensures same { result.now ≡ self.now }
        ensures met { CubeIsSatisfiable self.now }
    {
        &self.cube
    }

    /// An equal cube.
    pub(crate) fn copy(&self, alloc: Global) -> Result<Self, NoMemory>
        ensures { IfOk result (λ r. r ≡ self.now) }
    {
        Ok(ClosedCube {
            cube: self.cube.copy(alloc)?,
            order: self.order.copy(alloc)?,
        })
    }

    /// Whether the literal holds wherever the cube does.
    pub(crate) fn implies(&self, lit: Lit) -> bool
        ensures { IsTrue result ↔ ((c : List Atom) → IsTrue (cube_holds c self.now) → IsTrue (lit_holds c lit)) }
    {
        is_implied(&self.order, &self.cube, lit)
    }

    // Where this says no, which takes no walk over literals, the literal doesn't hold wherever the cube does.
    fn may_imply(&self, lit: Lit) -> bool
        ensures { IsFalse result → ((c : List Atom) → IsTrue (cube_holds c self.now) → IsTrue (lit_holds c lit)) → ⊥ }
    {
        may_be_implied(&self.order, lit)
    }

    // Whether the literal holds nowhere where the cube does.
    fn refutes(&self, lit: Lit) -> bool
        ensures { IsTrue result → (c : List Atom) → IsTrue (cube_holds c self.now) → IsFalse (lit_holds c lit) }
    {
        is_refuted(&self.order, &self.cube, lit)
    }

    /// How the cube orders the levels below eight, a bit for each two of them.
    pub(crate) fn order(&self) -> u64
        ensures { (l : Lit) → EntailsLit self.now l → RecordsLit result l }
    {
        self.order.low_levels()
    }

    /// Whether the other cube holds wherever this one does.
    pub(crate) fn entails_cube(&self, other: &Cube) -> bool
        ensures { IsTrue result ↔ Entails self.now other.now }
    {
        self.may_entail(other) && self.implies_all(other)
    }

    // Mostly some literal is out of order, which takes no walk over literals.
    fn may_entail(&self, other: &Cube) -> bool
        ensures { IsFalse result → Entails self.now other.now → ⊥ }
    {
        for lit in other.as_slice() {
            if !self.may_imply(*lit) {
                return false;
            }
        }
        true
    }

    fn implies_all(&self, other: &Cube) -> bool
        ensures { IsTrue result ↔ Entails self.now other.now }
    {
        for lit in other.as_slice() {
            if !self.implies(*lit) {
                return false;
            }
        }
        true
    }

    /// The cube and the literals, without those that follow, or `None` where they can't be met.
    pub(crate) fn and_literals(
        self,
        alloc: Global,
        literals: &[Lit],
    ) -> Result<Option<Self>, NoMemory>
        ensures truth { IfOk result (λ o. (c : List Atom) → some_holds c o ≡ (cube_holds c self && cube_holds c literals.now)) }
        ensures rules { IfOk result (λ o. (rule : Rule) → CubeObeys rule self → CubeObeys rule literals.now → SomeObeys rule o) }
    {
        let ClosedCube {
            mut cube,
            mut order,
        } = self;
        for lit in literals {
            if is_implied(&order, &cube, *lit) {
                continue;
            }
            if is_refuted(&order, &cube, *lit) {
                return Ok(None);
            }
            order.extend(alloc, *lit)?;
            cube.push(*lit)?;
        }
        Ok(Some(ClosedCube { cube, order }))
    }

    // Whether one of the literals holds nowhere where the cube does.
    fn refutes_one(&self, literals: &[Lit]) -> bool
        ensures { IsTrue result → (c : List Atom) → IsTrue (cube_holds c self.now) → IsFalse (cube_holds c literals.now) }
    {
        for lit in literals {
            if self.refutes(*lit) {
                return true;
            }
        }
        false
    }

    /// Both cubes, or `None` where they can't be met. Nothing is copied where a literal of the one refutes one of the other.
    pub(crate) fn meet(&self, alloc: Global, other: &Cube) -> Result<Option<Self>, NoMemory>
        ensures truth { IfOk result (λ o. (c : List Atom) → some_holds c o ≡ (cube_holds c self.now && cube_holds c other.now)) }
        ensures rules { IfOk result (λ o. (rule : Rule) → CubeObeys rule self.now → CubeObeys rule other.now → SomeObeys rule o) }
    {
        if self.refutes_one(other.as_slice()) {
            return Ok(None);
        }
        self.copy(alloc)?.and_literals(alloc, other.as_slice())
    }

    /// The cube without the literals that follow from earlier ones, or `None` where it can't be met.
    pub(crate) fn of(alloc: Global, cube: &Cube) -> Result<Option<Self>, NoMemory>
        ensures truth { IfOk result (λ o. (c : List Atom) → some_holds c o ≡ cube_holds c cube.now) }
        ensures rules { IfOk result (λ o. (rule : Rule) → CubeObeys rule cube.now → SomeObeys rule o) }
    {
        ClosedCube::new(alloc).and_literals(alloc, cube.as_slice())
    }
}

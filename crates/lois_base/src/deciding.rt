//! Deciders: which cubes can be met by some choice of atoms.

ghost use Rattle.std.specs.Prelude.{◌≡◌, ℕ, IfOk, IfSome, IsNone, ◌↔◌};
ghost use Rattle.lois_base.specs.Fits.{CubeFits};
ghost use Rattle.lois_base.specs.Theory.{IsSatisfiable, IsSampleOf, risen};
ghost use Rattle.lois_base.specs.declared.deciding.Kind.{Kind};

use crate::{Cube, NoMemory};
use std::alloc::Global;

/// The kinds of decider that a user can ask for.
#[derive(Clone, Copy, PartialEq, Eq, Debug)]
pub enum Kind {
    Plain,
    Graph,
    Memo,
}

/// Finds choices of atoms at which cubes hold.
pub trait Decider: Drop {
    ghost kind_of: { Self → Kind };

    // how many questions it was asked
    ghost questions: { Self → ℕ };

    /// Which kind of decider this is.
    fn name(&self) -> Kind
        ensures { result ≡ kind_of self.now };

    /// A list of `size` numbers below `size` at which the cube holds, or `None` where it holds at no choice of atoms.
    fn satisfiable(
        &mut self,
        alloc: Global,
        cube: &Cube,
        size: usize,
    ) -> Result<Option<Vec<u64>>, NoMemory>
        requires { CubeFits size cube.now }
        ensures sample { IfOk result (λ o. IfSome o (λ s. IsSampleOf size cube.now s.items)) }
        ensures none { IfOk result (λ o. IsNone o ↔ (IsSatisfiable size cube.now → ⊥)) }

        // It has been asked once more, whatever it answers.
        ensures asked { questions self.new ≡ risen (questions self.old) }
        ensures name { kind_of self.new ≡ kind_of self.old };

    /// How many questions it was asked, or the greatest u64 where there were more.
    fn asked(&self) -> u64
        ensures { result ≡ questions self.now };
}

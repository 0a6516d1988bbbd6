//! The structures of atoms: which operators they admit, and how a quantifier is eliminated.

ghost use Rattle.std.specs.Prelude.{◌≡◌, ◌+◌, IfOk, Bool};
ghost use Rattle.lois_base.specs.Fits.{CubeFits, ConstraintFits};
ghost use Rattle.lois_base.specs.Theory.{Eliminates};
ghost use Rattle.lois_base.specs.Validity.{is_admitted, AdmitsCube, AdmitsConstraint};
ghost use Rattle.lois_base.specs.OrderFree.{IsOrderFreeCube, IsOrderFree};

use crate::{Constraint, Cube, NoMemory, Op};
use std::alloc::Global;

/// Atoms with equality, and perhaps with an order.
pub trait Structure {
    // whether `<` and `<=` are admitted; `=` and `!=` always are
    ghost ordered: { Bool };

    /// Whether literals of this structure may have the operator.
    fn admits(op: Op) -> bool
        ensures { result ≡ is_admitted ordered op };

    /// A constraint over the levels below `size` that says that some atom at level `size` makes the cube hold.
    fn eliminate(alloc: Global, cube: &Cube, size: usize) -> Result<Constraint, NoMemory>
        requires levels { CubeFits (size + 1) cube.now }
        requires operators { AdmitsCube ordered cube.now }
        ensures equivalent { IfOk result (Eliminates size cube.now) }
        ensures levels { IfOk result (ConstraintFits size) }
        ensures operators { IfOk result (AdmitsConstraint ordered) }

        // The answer has `<` and `<=` only where the cube has one of them.
        ensures order { IfOk result (λ r. IsOrderFreeCube cube.now → IsOrderFree r) };
}

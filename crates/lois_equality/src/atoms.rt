//! The structure of the atoms with equality.

ghost use Rattle.std.specs.Prelude.{false};

use lois_base::{Constraint, Cube, NoMemory, Op, Structure};
use lois_order::OrderAtoms;
use std::alloc::Global;

/// The fractions, which admit `=` and `!=`.
#[derive(Clone, Copy, Debug)]
pub struct EqualityAtoms;

impl Structure for EqualityAtoms {
    ghost ordered = { false };

    /// False for `<` and `<=`.
    fn admits(op: Op) -> bool {
        match op {
            Op::Eq | Op::Ne => true,
            Op::Lt | Op::AtMost => false,
        }
    }

    /// At most one cube, without a literal twice. Errors: `NoMemory`.
    fn eliminate(alloc: Global, cube: &Cube, size: usize) -> Result<Constraint, NoMemory> {
        // The atoms are the same fractions, and an answer has an operator of their order only where the cube has one.
        OrderAtoms::eliminate(alloc, cube, size)
    }
}

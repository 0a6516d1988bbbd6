//! Literals, cubes, constraints and numbers for the tests.

ghost use Rattle.std.specs.Prelude.{◌<◌};

use lois_base::{Constraint, Cube, Lit, NoMemory, Op};
use std::alloc::Global;

/// A literal as tables have it: its left level, its operator and its right level.
pub(crate) type Comparison = (usize, Op, usize);

pub(crate) fn lit(comparison: Comparison) -> Lit {
    let (left, op, right) = comparison;
    Lit { op, left, right }
}

pub(crate) fn cube_of(alloc: Global, literals: &[Comparison]) -> Result<Cube, NoMemory> {
    let mut cube = Cube::new(alloc);
    for comparison in literals {
        cube.push(lit(*comparison))?;
    }
    Ok(cube)
}

pub(crate) fn constraint_of(
    alloc: Global,
    cubes: &[&[Comparison]],
) -> Result<Constraint, NoMemory> {
    let mut constraint = Constraint::new(alloc);
    for literals in cubes {
        constraint.push(cube_of(alloc, literals)?)?;
    }
    Ok(constraint)
}

/// Made numbers, the same in every run.
#[derive(Drop)]
pub(crate) struct Dice {
    pub(crate) state: u64,
}

impl Dice {
    /// A number below `sides`.
    pub(crate) fn roll(&mut self, sides: usize) -> usize
        requires { 0 < sides }
        ensures { result < sides }
    {
        self.state = self
            .state
            .wrapping_mul(6364136223846793005)
            .wrapping_add(1442695040888963407);
        (self.state >> 33) as usize % sides
    }

    /// A literal of `levels` levels. It may join a level to itself.
    pub(crate) fn lit(&mut self, levels: usize) -> Lit
        requires { 0 < levels }
    {
        let op = match self.roll(6) {
            0 => Op::Eq,
            1 => Op::Ne,
            2 => Op::AtMost,
            3 => Op::AtMost,
            _ => Op::Lt,
        };
        Lit {
            op,
            left: self.roll(levels),
            right: self.roll(levels),
        }
    }
}

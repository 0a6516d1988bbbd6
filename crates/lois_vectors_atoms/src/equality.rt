//! Worked eliminations.
ghost use Rattle.std.specs.Prelude.{false, IsTrue};
ghost use Rattle.lois_base.specs.Validity.{AdmitsCube};

use crate::making::{Comparison, constraint_of, cube_of};
use lois_base::Op::{AtMost, Eq, Lt, Ne};
use lois_base::{Cube, NoMemory, Structure};
use lois_equality::EqualityAtoms;
use std::alloc::Global;
use std::process::Abort;
use std::test::Fail;

fn is_admitted(cube: &Cube) -> bool
    ensures { IsTrue result → AdmitsCube false cube.now }
{
    cube.as_slice()
        .iter()
        .all(|lit| EqualityAtoms::admits(lit.op))
}

fn eliminates(
    rt: &impl Abort,
    alloc: Global,
    literals: &[Comparison],
    level: usize,
    answer: &[&[Comparison]],
) -> Result<(), NoMemory> {
    let cube = cube_of(alloc, literals)?;
    assert!(rt; level < 9 && cube.fits(level + 1) && is_admitted(&cube));
    let found = EqualityAtoms::eliminate(alloc, &cube, level)?;
    let wanted = constraint_of(alloc, answer)?;
    assert!(rt; found.is_equal(&wanted), "{literals:?}");
    Ok(())
}

// The literals, the level, and the cubes of the answer.
const ELIMINATED: [(&[Comparison], usize, &[&[Comparison]]); 6] = [
    (&[(2, Eq, 0), (2, Ne, 1)], 2, &[&[(0, Ne, 1)]]),
    (&[(2, Ne, 0), (1, Ne, 2)], 2, &[&[]]),
    (&[(2, Eq, 0), (1, Eq, 2)], 2, &[&[(1, Eq, 0)]]),
    (&[(1, Eq, 0), (0, Ne, 1)], 1, &[]),
    (&[(0, Ne, 1), (2, Ne, 2)], 2, &[]),
    (&[], 0, &[&[]]),
];

#[test]
fn levels_are_eliminated(rt: HostRuntime) -> Result<(), Fail> {
    for (literals, level, answer) in ELIMINATED {
        eliminates(&rt, rt.alloc(), literals, level, answer)?;
    }
    assert!(rt; EqualityAtoms::admits(Ne));
    assert!(rt; !EqualityAtoms::admits(Lt) && !EqualityAtoms::admits(AtMost));
    Ok(())
}

//! Worked eliminations.

use crate::making::{Comparison, constraint_of, cube_of};
use lois_base::Op::{AtMost, Eq, Lt, Ne};
use lois_base::{NoMemory, Structure};
use lois_order::OrderAtoms;
use std::alloc::Global;
use std::process::Abort;
use std::test::Fail;

fn eliminates(
    rt: &impl Abort,
    alloc: Global,
    literals: &[Comparison],
    level: usize,
    answer: &[&[Comparison]],
) -> Result<(), NoMemory> {
    let cube = cube_of(alloc, literals)?;
    assert!(rt; level < 9 && cube.fits(level + 1));
    let found = OrderAtoms::eliminate(alloc, &cube, level)?;
    let wanted = constraint_of(alloc, answer)?;
    assert!(rt; found.is_equal(&wanted), "{literals:?}");
    Ok(())
}

// The literals, the level, and the cubes of the answer.
const ELIMINATED: [(&[Comparison], usize, &[&[Comparison]]); 11] = [
    // the atoms between $0 and $1
    (&[(0, Lt, 2), (2, Lt, 1)], 2, &[&[(0, Lt, 1)]]),
    (&[(0, Lt, 2), (2, Ne, 1)], 2, &[&[]]),
    (&[(1, Lt, 0), (0, Lt, 1)], 1, &[]),
    (&[(2, Eq, 0), (2, Lt, 1)], 2, &[&[(0, Lt, 1)]]),
    (&[(2, Eq, 0), (2, Lt, 0)], 2, &[]),
    (&[(1, Eq, 1), (0, Lt, 1)], 1, &[&[]]),
    (&[(0, Lt, 1), (2, Lt, 2)], 2, &[]),
    // what stands there already isn't added
    (
        &[(0, Lt, 1), (0, Lt, 2), (2, Lt, 1), (1, Ne, 0)],
        2,
        &[&[(0, Lt, 1), (1, Ne, 0)]],
    ),
    (&[(0, AtMost, 2), (2, AtMost, 1)], 2, &[&[(0, AtMost, 1)]]),
    (&[(0, AtMost, 2), (2, Lt, 1)], 2, &[&[(0, Lt, 1)]]),
    (&[], 0, &[&[]]),
];

#[test]
fn levels_are_eliminated(rt: HostRuntime) -> Result<(), Fail> {
    for (literals, level, answer) in ELIMINATED {
        eliminates(&rt, rt.alloc(), literals, level, answer)?;
    }
    assert!(rt; OrderAtoms::admits(Lt) && OrderAtoms::admits(AtMost));
    Ok(())
}

//! Guards, comprehensions and sets of a few literals and items.

use lois_base::{Comp, Comps, Constraint, Cube, Lit, NoMemory, Op, Term, Terms};
use std::alloc::Global;

pub(crate) fn lit(op: Op, left: usize, right: usize) -> Lit {
    Lit { op, left, right }
}

/// The guard that holds where the literals do.
pub(crate) fn guard_of(alloc: Global, literals: &[Lit]) -> Result<Constraint, NoMemory> {
    let mut cube = Cube::new(alloc);
    for lit in literals {
        cube.push(*lit)?;
    }
    let mut constraint = Constraint::new(alloc);
    constraint.push(cube)?;
    Ok(constraint)
}

/// The item for so many binders, where the literals hold.
pub(crate) fn each(
    alloc: Global,
    binders: usize,
    literals: &[Lit],
    item: Term,
) -> Result<Comp, NoMemory> {
    Ok(Comp {
        binders,
        guard: guard_of(alloc, literals)?,
        item,
    })
}

pub(crate) fn comps_of<const N: usize>(alloc: Global, items: [Comp; N]) -> Result<Comps, NoMemory> {
    let mut comps = Comps::new(alloc);
    for comp in Vec::from_array(alloc, items)? {
        comps.push(comp)?;
    }
    Ok(comps)
}

/// The set of the item for so many binders, where the literals hold.
pub(crate) fn set_of(
    alloc: Global,
    binders: usize,
    literals: &[Lit],
    item: Term,
) -> Result<Comps, NoMemory> {
    comps_of(alloc, [each(alloc, binders, literals, item)?])
}

/// The two parts of a tuple.
pub(crate) fn pair(alloc: Global, first: Term, second: Term) -> Result<Terms, NoMemory> {
    let mut parts = Terms::new(alloc);
    parts.push(first)?;
    parts.push(second)?;
    Ok(parts)
}

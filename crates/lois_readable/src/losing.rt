//! Which parts of a comprehension need fewer binders. Nothing rests on what is found.

use crate::surroundings::{is_known, short_under};
use lois_base::{Comps, Constraint, Cube, Lit, NoMemory, Op, Term, Terms};
use lois_terms::occurs;
use std::alloc::Global;

#[cycle(leaves)]
fn is_leaf(level: usize, term: &Term) -> bool {
    match term {
        Term::Var(own) => *own == level,
        Term::Tag(_) => false,
        Term::Tup(parts) => is_leaf_of_parts(level, parts),
        Term::Coll(comps) => is_leaf_of_items(level, comps),
    }
}

#[cycle(leaves)]
fn is_leaf_of_parts(level: usize, parts: &Terms) -> bool {
    for part in parts.as_slice() {
        if is_leaf(level, part) {
            return true;
        }
    }
    false
}

#[cycle(leaves)]
fn is_leaf_of_items(level: usize, comps: &Comps) -> bool {
    for comp in comps.as_slice() {
        if is_leaf(level, &comp.item) {
            return true;
        }
    }
    false
}

/// Whether guards alone speak of one of the binders from `size` on: only such a one can become idle in a part.
pub(crate) fn has_loose_binder(item: &Term, size: usize, inner: usize) -> bool {
    for binder in size..inner {
        if !is_leaf(binder, item) {
            return true;
        }
    }
    false
}

fn speaks_of_equal(cube: &Cube, level: usize) -> bool {
    for lit in cube.as_slice() {
        if lit.op == Op::Eq && (lit.left == level || lit.right == level) {
            return true;
        }
    }
    false
}

fn all_speak_of_equal(here: &Constraint, level: usize) -> bool {
    for cube in here.as_slice() {
        if !speaks_of_equal(cube, level) {
            return false;
        }
    }
    true
}

// What is equal in a tight cube is so by literals with `=`.
fn is_fixed(alloc: Global, here: &Constraint, binder: usize) -> Result<bool, NoMemory> {
    if !all_speak_of_equal(here, binder) {
        return Ok(false);
    }
    for level in 0..binder {
        let equal = Lit {
            op: Op::Eq,
            left: level,
            right: binder,
        };
        if all_speak_of_equal(here, level) && is_known(alloc, here, equal)? {
            return Ok(true);
        }
    }
    Ok(false)
}

/// How many of the binders from `size` on are fixed where `here` holds.
pub(crate) fn count_fixed(
    alloc: Global,
    here: &Constraint,
    size: usize,
    inner: usize,
) -> Result<usize, NoMemory> {
    let mut count = 0_usize;
    for binder in size..inner {
        if is_fixed(alloc, here, binder)? {
            count = count.saturating_add(1);
        }
    }
    Ok(count)
}

/// How many of the binders from `size` on are fixed where `here` holds, or the item doesn't speak of them there.
pub(crate) fn count_lost(
    alloc: Global,
    item: &Term,
    here: &Constraint,
    size: usize,
    inner: usize,
) -> Result<usize, NoMemory> {
    let short = short_under(alloc, item, here)?;
    let mut count = 0_usize;
    for binder in size..inner {
        if !occurs(binder, &short) || is_fixed(alloc, here, binder)? {
            count = count.saturating_add(1);
        }
    }
    Ok(count)
}

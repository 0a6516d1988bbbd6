//! How long a term is to read.

use lois_base::{Comp, Comps, Constraint, Term, Terms};

/// How many literals the guard has.
pub(crate) fn guard_weight(guard: &Constraint) -> usize {
    let mut weight = 0_usize;
    for cube in guard.as_slice() {
        weight = weight.saturating_add(cube.len());
    }
    weight
}

/// How many literals, binders, atoms and tags the term has, and tuples and sets.
#[cycle(weights)]
pub(crate) fn weight(term: &Term) -> usize {
    match term {
        Term::Var(_) | Term::Tag(_) => 1,
        Term::Tup(parts) => parts_weight(parts),
        Term::Coll(comps) => items_weight(comps),
    }
}

#[cycle(weights)]
fn parts_weight(parts: &Terms) -> usize {
    let mut whole = 1_usize;
    for part in parts.as_slice() {
        whole = whole.saturating_add(weight(part));
    }
    whole
}

#[cycle(weights)]
fn items_weight(comps: &Comps) -> usize {
    let mut whole = 1_usize;
    for comp in comps.as_slice() {
        whole = whole.saturating_add(comp_weight(comp));
    }
    whole
}

#[cycle(weights)]
fn comp_weight(comp: &Comp) -> usize {
    weight(&comp.item)
        .saturating_add(comp.binders)
        .saturating_add(guard_weight(&comp.guard))
}

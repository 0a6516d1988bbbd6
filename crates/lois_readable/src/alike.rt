//! Whether a term has comprehensions with the same item, so that it is worth its time to join them. Nothing rests on the answer.

use lois_base::{Comps, NoMemory, Term, Terms};
use lois_terms::hash_term;
use std::alloc::Global;

// Whether two of the comprehensions have as many binders and items of one hash.
fn has_equal_hashes(alloc: Global, comps: &Comps) -> Result<bool, NoMemory> {
    let mut hashes = Vec::with_capacity(alloc, comps.len())?;
    for comp in comps.as_slice() {
        hashes.push(hash_term(comp.binders as u64, &comp.item))?;
    }
    hashes.sort_unstable();
    Ok(hashes.windows(2).any(|pair| pair[0] == pair[1]))
}

/// Whether some set of the term has two comprehensions with as many binders and, by their hashes, the same item.
#[cycle(alike)]
pub(crate) fn has_alike(alloc: Global, term: &Term) -> Result<bool, NoMemory> {
    match term {
        Term::Var(_) | Term::Tag(_) => Ok(false),
        Term::Tup(parts) => has_alike_in_parts(alloc, parts),
        Term::Coll(comps) => has_alike_comps(alloc, comps),
    }
}

#[cycle(alike)]
fn has_alike_in_parts(alloc: Global, parts: &Terms) -> Result<bool, NoMemory> {
    for part in parts.as_slice() {
        if has_alike(alloc, part)? {
            return Ok(true);
        }
    }
    Ok(false)
}

#[cycle(alike)]
fn has_alike_comps(alloc: Global, comps: &Comps) -> Result<bool, NoMemory> {
    for comp in comps.as_slice() {
        if has_alike(alloc, &comp.item)? {
            return Ok(true);
        }
    }
    has_equal_hashes(alloc, comps)
}

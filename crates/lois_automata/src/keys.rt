//! Where comprehensions of pairs stand by the shapes of their first parts: pairs of different shapes have no first part in common.

ghost use Rattle.std.specs.Prelude.{◌≡◌, map, IfOk};
ghost use Rattle.lois_base.specs.Tree.{tree, comp_of};
ghost use Rattle.lois_automata.specs.KeyShapes.{key_shape_of, comp_key_shape};

use crate::parts::pair_parts;
use lois_base::{Comp, NoMemory, Term};
use lois_terms::{Index, shape};
use std::alloc::Global;

/// The shape of the first part of a pair, and 0 of a term that is no pair.
pub(crate) fn key_shape(t: &Term) -> u64
    ensures { result ≡ key_shape_of (tree t.now) }
{
    match pair_parts(t) {
        Some((key, _)) => shape(key),
        None => 0,
    }
}

/// Where the comprehensions stand by the shapes of their items' first parts.
pub(crate) fn index_by_key(alloc: Global, comps: &[Comp]) -> Result<Index, NoMemory>
    ensures { IfOk result (λ r. r ≡ map comp_key_shape (map comp_of comps.now)) }
{
    let mut index = Index::new(alloc);
    for comp in comps {
        index.push(alloc, key_shape(&comp.item))?;
    }
    Ok(index)
}

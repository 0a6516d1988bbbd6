//! Comprehensions that are written alike.

ghost use Rattle.std.specs.Prelude.{◌≡◌, map, IfOk, OnOk, Contains};
ghost use Rattle.lois_base.specs.Data.{CompD};
ghost use Rattle.lois_base.specs.Tree.{comp_of};
ghost use Rattle.lois_terms.specs.Hash.{written_hash};
ghost use Rattle.lois_simplify.specs.Once.{KeepsOnce};

use lois_base::{Comp, Comps, NoMemory};
use lois_terms::{Index, hash_written, is_written_in};
use std::alloc::Global;

// Puts the comprehension behind those that are kept, unless it is written among them. The index has their hashes.
fn keep_once(alloc: Global, kept: &mut Comps, index: &mut Index, comp: Comp) -> Result<(), NoMemory>
    requires { index.old ≡ map written_hash kept.old }
    ensures index { OnOk result (index.new ≡ map written_hash kept.new) }
    ensures kept { OnOk result (KeepsOnce (comp_of comp) kept.old kept.new) }
{
    if is_written_in(&comp, kept.as_slice(), index) {
        return Ok(());
    }
    index.push(alloc, hash_written(&comp))?;
    kept.push(comp)
}

/// Each comprehension once, as it is written.
pub(crate) fn distinct(alloc: Global, comps: Comps) -> Result<Comps, NoMemory>
    ensures all { IfOk result (λ r. (k : CompD) → Contains comps k → Contains r k) }
    ensures only { IfOk result (λ r. (k : CompD) → Contains r k → Contains comps k) }
{
    let mut kept = Comps::new(alloc);
    let mut index = Index::new(alloc);
    for comp in comps.into_vec() {
        keep_once(alloc, &mut kept, &mut index, comp)?;
    }
    Ok(kept)
}

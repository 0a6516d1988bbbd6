//! Hashes of contexts: numbers by which contexts that differ are told apart without a look at their terms. The names of a store
//! are left out, since contexts that come to one place of a script have the same.

ghost use Rattle.std.specs.Prelude.{◌≡◌, map};
ghost use Rattle.lois_base.specs.Tree.{comp_of};
ghost use Rattle.lois_terms.specs.Hash.{mixed};
ghost use Rattle.lois_context.specs.Hash.{comps_hash, store_hash, lines_hash, context_hash};

use crate::{Context, Store};
use lois_answers::Lines;
use lois_base::Comp;
use lois_terms::{hash_name, hash_term, hash_written};

/// The hash of a context: equal where size, store and lines are.
pub(crate) fn hash_of(context: &Context) -> u64
    ensures { result ≡ context_hash context.now }
{
    let stored = hash_store(context.size as u64, &context.store);
    hash_lines(stored, context.lines.get())
}

fn hash_store(seed: u64, store: &Store) -> u64
    ensures { result ≡ store_hash seed store.now }
{
    let mut hash = seed;
    for slot in store.as_slice() {
        hash = slot.term.hash(hash);
    }
    hash
}

fn hash_lines(seed: u64, lines: &Lines) -> u64
    ensures { result ≡ lines_hash seed lines.now }
{
    let mut hash = seed;
    for line in lines.as_slice() {
        let named = hash_name(hash, &line.name);
        hash = hash_term(named, &line.term);
    }
    hash
}

// odd, so that no two numbers have one product
const FACTOR: u64 = 0x9E37_79B9_7F4A_7C15;

/// The hash with those of comprehensions.
pub(crate) fn hash_comps(seed: u64, comps: &[Comp]) -> u64
    ensures { result ≡ comps_hash seed (map comp_of comps.now) }
{
    let mut hash = seed;
    for comp in comps {
        hash = mix(hash, hash_written(comp));
    }
    hash
}

fn mix(hash: u64, number: u64) -> u64
    ensures { result ≡ mixed hash number }
{
    hash.wrapping_mul(FACTOR).wrapping_add(number)
}

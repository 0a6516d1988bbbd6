//! Contexts joined where nothing but their constraints differs.

ghost use Rattle.std.specs.Prelude.{◌≡◌, ℕ, ◌<◌, ◌↔◌, nat_eq, List, [], ◌∷◌, ◌++◌, length, map, IfOk, OnOk, IfSome, IsNone, IsTrue};
ghost use Rattle.std.specs.HashMap.{ContainsKey};
ghost use Rattle.std.specs.List.{All, HoldsAt};
ghost use Rattle.lois_base.specs.Atom.{Atom};
ghost use Rattle.lois_base.specs.Fits.{ConstraintFits};
ghost use Rattle.lois_base.specs.Truth.{holds};
ghost use Rattle.lois_answers.specs.LineView.{line_of};
ghost use Rattle.lois_context.specs.Merged.{AreMerged, HasSameContents, IsMergedInto};
ghost use Rattle.lois_context.specs.Hash.{context_hash};

use crate::Context;
use crate::hashing::hash_of;
use lois_answers::{Line, Lines};
use lois_base::{Constraint, NoMemory};
use std::alloc::Global;
use std::collections::HashMap;

/// Joins the contexts that have equal sizes, and equal lists as stores and as lines: their cubes stand one list after the other,
/// and the sample is that of the first. The answer is in the order of the first ones. Errors: `NoMemory`.
pub fn merge_equal(alloc: Global, contexts: Vec<Context>) -> Result<Vec<Context>, NoMemory>
    ensures { IfOk result (λ r. AreMerged contexts.items r.items) }
{
    // one context alone needs no hash
    if contexts.as_slice().len() <= 1 {
        return Ok(contexts);
    }
    let mut merged = Vec::new(alloc);
    let mut hashes = Vec::new(alloc);
    let mut places = HashMap::new(alloc);
    for context in contexts {
        put(alloc, &mut merged, &mut hashes, &mut places, context)?;
    }
    Ok(merged)
}

// Takes a context into the one that holds the same, or puts it behind the others where there is none. The hashes are those of
// the merged contexts, and each has a place, the index of a context with that hash.
fn put(
    alloc: Global,
    merged: &mut Vec<Context>,
    hashes: &mut Vec<u64>,
    places: &mut HashMap<u64, usize>,
    context: Context,
) -> Result<(), NoMemory>
    requires hashes { hashes.old.items ≡ map context_hash merged.old.items }
    requires places { All (ContainsKey nat_eq places.old) hashes.old.items }
    ensures merged { OnOk result ((ks : List Context) → AreMerged ks merged.old.items → AreMerged (ks ++ context ∷ []) merged.new.items) }
    ensures hashes { OnOk result (hashes.new.items ≡ map context_hash merged.new.items) }
    ensures places { OnOk result (All (ContainsKey nat_eq places.new) hashes.new.items) }
{
    let hash = hash_of(&context);
    if let Some(place) = partner_of(merged, hashes, places, &context, hash) {
        return merge_into(alloc, &mut merged[place], &context);
    }
    places.insert(hash, merged.len())?;
    merged.push(context)?;
    hashes.push(hash)?;
    Ok(())
}

// The index of a context with the same size, store and lines. Where the hash has no place there is none. Where it has one, that
// context is it, unless contexts that differ have one hash: then all of them are looked at.
fn partner_of(
    contexts: &[Context],
    hashes: &[u64],
    places: &HashMap<u64, usize>,
    context: &Context,
    hash: u64,
) -> Option<usize>
    requires hashes { hashes.now ≡ map context_hash contexts.now }
    requires places { All (ContainsKey nat_eq places.now) hashes.now }
    requires hash { hash ≡ context_hash context.now }
    ensures found { IfSome result (λ i. (i < length contexts.now) × HoldsAt (HasSameContents context.now) contexts.now i) }
    ensures none { IsNone result → All (λ d. HasSameContents context.now d → ⊥) contexts.now }
{
    let Some(place) = places.get(&hash) else {
        return None;
    };
    if has_same_contents_at(contexts, *place, context) {
        return Some(*place);
    }
    place_of(contexts, hashes, context, hash)
}

fn has_same_contents_at(contexts: &[Context], place: usize, context: &Context) -> bool
    ensures { IsTrue result → (place < length contexts.now) × HoldsAt (HasSameContents context.now) contexts.now place }
{
    match contexts.get(place) {
        Some(other) => has_same_contents(other, context),
        None => false,
    }
}

// The same, looked for among all. Those with other hashes are passed by.
fn place_of(contexts: &[Context], hashes: &[u64], context: &Context, hash: u64) -> Option<usize>
    requires hashes { hashes.now ≡ map context_hash contexts.now }
    requires hash { hash ≡ context_hash context.now }
    ensures found { IfSome result (λ i. (i < length contexts.now) × HoldsAt (HasSameContents context.now) contexts.now i) }
    ensures none { IsNone result → All (λ d. HasSameContents context.now d → ⊥) contexts.now }
{
    for index in 0..contexts.len() {
        if is_found(&contexts[index], hashes[index], context, hash) {
            return Some(index);
        }
    }
    None
}

// The contexts are compared only where their hashes are equal.
#[tactic(auto, using(crate::proofs::Merged::hashes_agree))]
fn is_found(other: &Context, others: u64, context: &Context, hash: u64) -> bool
    requires others { others ≡ context_hash other.now }
    requires hash { hash ≡ context_hash context.now }
    ensures { IsTrue result ↔ HasSameContents context.now other.now }
{
    others == hash && has_same_contents(other, context)
}

fn has_same_contents(context: &Context, other: &Context) -> bool
    ensures { IsTrue result ↔ HasSameContents other.now context.now }
{
    context.size == other.size
        && context.store.is_equal(&other.store)
        && are_equal(context.lines.get(), other.lines.get())
}

fn are_equal(lines: &Lines, partners: &Lines) -> bool
    ensures { IsTrue result ↔ lines.now ≡ partners.now }
{
    let items = lines.as_slice();
    let others = partners.as_slice();
    if items.len() != others.len() {
        return false;
    }
    for (i, line) in items.iter().enumerate() {
        if !is_equal(line, &others[i]) {
            return false;
        }
    }
    true
}

fn is_equal(line: &Line, other: &Line) -> bool
    ensures { IsTrue result ↔ line_of line.now ≡ line_of other.now }
{
    line.name == other.name && line.term.is_equal(&other.term)
}

// The context admits in addition what the other one does.
fn merge_into(alloc: Global, context: &mut Context, other: &Context) -> Result<(), NoMemory>
    requires { context.old.size ≡ other.now.size }
    ensures { OnOk result (IsMergedInto other.now context.old context.new) }
{
    add_cubes(alloc, &mut context.when, &other.when)
}

// Without memory for all of the cubes, some of them stand there.
fn add_cubes(alloc: Global, when: &mut Constraint, more: &Constraint) -> Result<(), NoMemory>
    ensures cubes { OnOk result (when.new ≡ when.old ++ more.now) }
    ensures levels { (n : ℕ) → ConstraintFits n when.old → ConstraintFits n more.now → ConstraintFits n when.new }
    ensures truth { (c : List Atom) → IsTrue (holds c when.old) → IsTrue (holds c when.new) }
{
    for cube in more.as_slice() {
        when.push(cube.copy(alloc)?)?;
    }
    Ok(())
}

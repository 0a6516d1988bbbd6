//! Automata that are made complete.

ghost use Rattle.std.specs.Prelude.{◌≡◌, ℕ, ◌<◌, ◌^◌, Bool, List, length, IfOk, IsTrue};
ghost use Rattle.lois_base.specs.Atom.{Atom};
ghost use Rattle.lois_base.specs.Data.{coll, comps_of};
ghost use Rattle.lois_base.specs.Fits.{Fits, ItemsFit};
ghost use Rattle.lois_base.specs.Over.{IsOver, ItemsAreOver};
ghost use Rattle.lois_base.specs.Tree.{tree};
ghost use Rattle.lois_base.specs.Validity.{AdmitsTerm, AdmitsItems, HasBoundedWidths, ItemsHaveBoundedWidths};
ghost use Rattle.lois_base.specs.Values.{point, IsIn};
ghost use Rattle.lois_algebra.specs.Sets.{IsUnion};
ghost use Rattle.lois_automata.specs.Deterministic.{IsDeterministicAt};
ghost use Rattle.lois_equal.specs.Completed.{IsCompletionAt, HasOneMore};

use crate::sink_steps::total_steps;
use lois_algebra::{push_comp, union};
use lois_automata::{five, of_five};
use lois_base::{Comp, Comps, Constraint, NoMemory, Structure, Term};
use lois_relate::clash;
use std::alloc::Global;

/// A complete automaton that accepts exactly the words that the deterministic automaton `t` accepts, over its letters and those
/// of the set `more`. It has a further state, the sink, to which each state and letter lead that had no step. Said of each
/// choice at which `t` is a deterministic automaton. Errors: `NoMemory`, also where a level would pass the greatest usize.
pub fn complete_automaton<T: Structure>(
    alloc: Global,
    t: &Term,
    more: &Comps,
    size: usize,
) -> Result<Term, NoMemory>
    requires over { IsOver T.ordered size (tree t.now) }
    requires more { ItemsAreOver T.ordered size (comps_of more.now) }
    ensures completion { IfOk result (λ r. (c : List Atom) → length c ≡ size → IsDeterministicAt (tree t.now) c → IsCompletionAt (tree t.now) (coll (comps_of more.now)) (tree r) c) }
    ensures levels { IfOk result (λ r. Fits size (tree r)) }
    ensures operators { IfOk result (λ r. (o : Bool) → AdmitsTerm o (tree t.now) → AdmitsItems o (comps_of more.now) → AdmitsTerm o (tree r)) }
    ensures widths { IfOk result (λ r. HasBoundedWidths (tree t.now) → ItemsHaveBoundedWidths (comps_of more.now) → HasBoundedWidths (tree r)) }
{
    let Some(sets) = five(t) else {
        return t.copy(alloc);
    };
    let sink = sink_of(alloc, sets.states)?;
    let states = with_item(alloc, sets.states, &sink)?;
    let letters = append_comps(alloc, sets.letters, more)?;
    let steps = total_steps::<T>(alloc, &states, &letters, sets.steps, &sink, size)?;
    let initial = Term::Coll(sets.initial.copy(alloc)?);
    let accepting = Term::Coll(sets.accepting.copy(alloc)?);
    of_five(
        alloc,
        Term::Coll(states),
        Term::Coll(letters),
        steps,
        initial,
        accepting,
    )
}

// A value that is no member of the set. The empty set is small, and no set is a member of itself.
fn sink_of(alloc: Global, states: &Comps) -> Result<Term, NoMemory>
    ensures apart { IfOk result (λ r. (c : List Atom) → IsIn (point (tree r) c) (point (coll (comps_of states.now)) c) → ⊥) }
    ensures levels { IfOk result (λ r. (n : ℕ) → ItemsFit n (comps_of states.now) → Fits n (tree r)) }
    ensures operators { IfOk result (λ r. (o : Bool) → AdmitsItems o (comps_of states.now) → AdmitsTerm o (tree r)) }
    ensures widths { IfOk result (λ r. ItemsHaveBoundedWidths (comps_of states.now) → HasBoundedWidths (tree r)) }
{
    let nothing = Term::Coll(Comps::new(alloc));
    if all_clash(states, &nothing) {
        return Ok(nothing);
    }
    Ok(Term::Coll(states.copy(alloc)?))
}

// Whether no item can have the value of the term.
fn all_clash(items: &Comps, t: &Term) -> bool
    ensures { IsTrue result → (c : List Atom) → IsIn (point (tree t.now) c) (point (coll (comps_of items.now)) c) → ⊥ }
{
    for comp in items.as_slice() {
        if !clash(&comp.item, t) {
            return false;
        }
    }
    true
}

// The members of both sets.
fn append_comps(alloc: Global, one: &Comps, other: &Comps) -> Result<Comps, NoMemory>
    ensures members { IfOk result (λ r. IsUnion (coll (comps_of one.now)) (coll (comps_of other.now)) (coll (comps_of r))) }
    ensures levels { IfOk result (λ r. (n : ℕ) → ItemsFit n (comps_of one.now) → ItemsFit n (comps_of other.now) → ItemsFit n (comps_of r)) }
    ensures operators { IfOk result (λ r. (o : Bool) → AdmitsItems o (comps_of one.now) → AdmitsItems o (comps_of other.now) → AdmitsItems o (comps_of r)) }
    ensures widths { IfOk result (λ r. ItemsHaveBoundedWidths (comps_of one.now) → ItemsHaveBoundedWidths (comps_of other.now) → ItemsHaveBoundedWidths (comps_of r)) }
{
    let first = Term::Coll(one.copy(alloc)?);
    let second = Term::Coll(other.copy(alloc)?);
    let Term::Coll(all) = union(alloc, &first, &second)? else {
        unreachable!()
    };
    Ok(all)
}

// The set, and one more member.
fn with_item(alloc: Global, items: &Comps, item: &Term) -> Result<Comps, NoMemory>
    ensures members { IfOk result (λ r. (c : List Atom) → HasOneMore (point (coll (comps_of items.now)) c) (point (tree item.now) c) (point (coll (comps_of r)) c)) }
    ensures levels { IfOk result (λ r. (n : ℕ) → n < 2 ^ 64 → ItemsFit n (comps_of items.now) → Fits n (tree item.now) → ItemsFit n (comps_of r)) }
    ensures operators { IfOk result (λ r. (o : Bool) → AdmitsItems o (comps_of items.now) → AdmitsTerm o (tree item.now) → AdmitsItems o (comps_of r)) }
    ensures widths { IfOk result (λ r. ItemsHaveBoundedWidths (comps_of items.now) → HasBoundedWidths (tree item.now) → ItemsHaveBoundedWidths (comps_of r)) }
{
    let mut all = items.copy(alloc)?;
    let guard = Constraint::always(alloc)?;
    let item = item.copy(alloc)?;
    push_comp(
        &mut all,
        Comp {
            binders: 0,
            guard,
            item,
        },
    )?;
    Ok(all)
}

//! What stands behind a loop. What the loop has added is simplified; what stood there before isn't looked at again.

ghost use Rattle.std.specs.Prelude.{◌≡◌, ◌<◌, ◌≤◌, length, get_or, ◌↔◌, IsTrue, IfOk};
ghost use Rattle.std.specs.List.{All};
ghost use Rattle.lois_base.specs.Over.{IsOver, ConstraintIsOver};
ghost use Rattle.lois_base.specs.Tree.{tree};
ghost use Rattle.lois_base.specs.Validity.{AdmitsTerm};
ghost use Rattle.lois_deciders.specs.Satisfiability.{ConstraintIsSatisfiable};
ghost use Rattle.lois_deciders.specs.OnlyAsked.{HasOnlyAsked};
ghost use Rattle.lois_terms.specs.Collections.{IsColl};
ghost use Rattle.lois_context.specs.Choices.{AdmitsContext};
ghost use Rattle.lois_context.specs.Joined.{IsEnd};
ghost use Rattle.lois_context.specs.Entered.{comps_listed};
ghost use Rattle.lois_context.specs.Kept.{AreSlots};
ghost use Rattle.lois_context.specs.ItemCounts.{comps_in};
ghost use Rattle.lois_context.specs.SlotView.{slot_of};
ghost use Rattle.lois_interp.specs.Members.{ArePutBehind};
ghost use Rattle.lois_interp.specs.Tidied.{IsTidied, IsTidiedSlot, AreTidied, AreCounted, counts_in, IsBehindLoop};

use lois_base::{Constraint, Decider, NoMemory, Structure, Term};
use lois_context::{Content, Context, Slot, Store, join_loop};
use lois_deciders::Chosen;
use lois_simplify::simplify;
use std::alloc::Global;

/// What stands behind a loop, from the context before it and the ends of its body.
pub(crate) fn behind_loop<T: Structure>(
    alloc: Global,
    before: Context,
    ends: Vec<Context>,
    chosen: &mut Chosen,
) -> Result<Context, NoMemory>
    requires ends { All (IsEnd before) ends.items }
    requires operators { AdmitsContext T.ordered before }
    requires end_operators { All (AdmitsContext T.ordered) ends.items }
    ensures behind { IfOk result (IsBehindLoop before ends.items) }

    // whatever is answered
    ensures only_asked { HasOnlyAsked (λ b. (⟦<dyn Decider as Decider>⟧ b.vtable).kind_of b.value) (λ b. (⟦<dyn Decider as Decider>⟧ b.vtable).questions b.value) chosen.old chosen.new }
{
    let counts = counts_of(alloc, &before.store)?;
    let joined = join_loop(alloc, before, ends)?;
    let Context {
        size,
        when,
        sample,
        store,
        lines,
    } = joined;
    let store = tidied_store::<T>(alloc, store, &counts, &when, size, chosen)?;
    Ok(Context {
        size,
        when,
        sample,
        store,
        lines,
    })
}

// How many comprehensions each slot's set has.
fn counts_of(alloc: Global, store: &Store) -> Result<Vec<usize>, NoMemory>
    ensures { IfOk result (λ r. r.items ≡ counts_in store.now) }
{
    let mut counts = Vec::new(alloc);
    for slot in store.as_slice() {
        counts.push(slot.term.count())?;
    }
    Ok(counts)
}

// The slots, in which the comprehensions behind so many are simplified.
fn tidied_store<T: Structure>(
    alloc: Global,
    store: Store,
    counts: &[usize],
    when: &Constraint,
    size: usize,
    chosen: &mut Chosen,
) -> Result<Store, NoMemory>
    requires counted { AreCounted counts.now store }
    requires slots { AreSlots size store }
    requires met { ConstraintIsSatisfiable size when.now }
    requires when { ConstraintIsOver T.ordered size when.now }
    requires operators { All (λ s. AdmitsTerm T.ordered s.term) store }
    ensures tidied { IfOk result (AreTidied size when.now counts.now store) }

    // whatever is answered
    ensures only_asked { HasOnlyAsked (λ b. (⟦<dyn Decider as Decider>⟧ b.vtable).kind_of b.value) (λ b. (⟦<dyn Decider as Decider>⟧ b.vtable).questions b.value) chosen.old chosen.new }
{
    let slots = store.into_vec();
    let mut tidied = Store::new(alloc);
    for slot in slots {
        let first = count_at(counts, tidied.len());
        tidied.push(tidied_slot::<T>(alloc, slot, first, when, size, chosen)?)?;
    }
    Ok(tidied)
}

fn count_at(counts: &[usize], index: usize) -> usize
    requires { index < length counts.now }
    ensures { result ≡ get_or counts.now index 0 }
{
    counts[index]
}

// A slot to which the loop has added nothing stays as it is.
fn tidied_slot<T: Structure>(
    alloc: Global,
    slot: Slot,
    first: usize,
    when: &Constraint,
    size: usize,
    chosen: &mut Chosen,
) -> Result<Slot, NoMemory>
    requires count { first ≤ comps_in (tree slot.term) }
    requires over { IsOver T.ordered size (tree slot.term) }
    requires met { ConstraintIsSatisfiable size when.now }
    requires when { ConstraintIsOver T.ordered size when.now }
    ensures tidied { IfOk result (λ r. IsTidiedSlot size when.now first (slot_of slot) (slot_of r)) }

    // whatever is answered
    ensures only_asked { HasOnlyAsked (λ b. (⟦<dyn Decider as Decider>⟧ b.vtable).kind_of b.value) (λ b. (⟦<dyn Decider as Decider>⟧ b.vtable).questions b.value) chosen.old chosen.new }
{
    if !has_more(&slot, first) {
        return Ok(slot);
    }
    let Slot { name, term, from } = slot;
    let lean = tidied_set::<T>(alloc, term, first, when, size, chosen)?;
    Ok(Slot {
        name,
        term: lean,
        from,
    })
}

// Whether there are comprehensions behind the first ones.
fn has_more(slot: &Slot, first: usize) -> bool
    ensures { IsTrue result ↔ first < comps_in (tree slot.now.term) }
{
    first < slot.term.count()
}

// A set in which the comprehensions behind the first ones are simplified.
fn tidied_set<T: Structure>(
    alloc: Global,
    set: Content,
    first: usize,
    when: &Constraint,
    size: usize,
    chosen: &mut Chosen,
) -> Result<Content, NoMemory>
    requires count { first < comps_in (tree set) }
    requires over { IsOver T.ordered size (tree set) }
    requires met { ConstraintIsSatisfiable size when.now }
    requires when { ConstraintIsOver T.ordered size when.now }
    ensures tidied { IfOk result (λ r. IsTidied size when.now first (tree set) (tree r)) }

    // whatever is answered
    ensures only_asked { HasOnlyAsked (λ b. (⟦<dyn Decider as Decider>⟧ b.vtable).kind_of b.value) (λ b. (⟦<dyn Decider as Decider>⟧ b.vtable).questions b.value) chosen.old chosen.new }
{
    let parts = set.parted(alloc, first)?;
    let (old, added) = parts;
    let added = Term::Coll(added);
    let lean = simplify::<T>(alloc, &added, when, size, chosen)?;
    with_items(alloc, old, lean)
}

// The comprehensions of a set behind others, without those that are written there already.
fn with_items(alloc: Global, first: Content, set: Term) -> Result<Content, NoMemory>
    requires set { IsColl (tree set) }
    requires first { IsColl (tree first) }
    ensures { IfOk result (λ r. ArePutBehind (comps_listed (tree first)) (comps_listed (tree set)) (tree r)) }
{
    let Term::Coll(more) = set else {
        unreachable!();
    };
    let mut all = first;
    for comp in more.into_vec() {
        all = all.put_once(alloc, comp)?;
    }
    Ok(all)
}

//! Contexts behind loops.

ghost use Rattle.std.specs.Prelude.{◌≡◌, ℕ, ◌+◌, ◌-◌, ◌<◌, ◌≤◌, Bool, List, [], length, get_or, map, Some, IfOk};
ghost use Rattle.std.specs.List.{All};
ghost use Rattle.lois_base.specs.Atom.{Atom};
ghost use Rattle.lois_base.specs.Data.{comps_of};
ghost use Rattle.lois_base.specs.Fits.{ConstraintFits, CompFits, ItemsFit};
ghost use Rattle.lois_base.specs.Tree.{comp_of};
ghost use Rattle.lois_base.specs.Values.{PointValue};
ghost use Rattle.lois_meaning.specs.Store.{looked_up};
ghost use Rattle.lois_context.specs.Choices.{IsAdmitted, AdmitsContext, ContextHasBoundedWidths};
ghost use Rattle.lois_context.specs.Joined.{IsEnd, AreEndSlots, IsMovedOutOfLoop, IsJoinedSlot, AreJoinedSlots, AreJoined, HasJoined, IsWithMoved, HoldsWithin, added_to};
ghost use Rattle.lois_context.specs.Kept.{IsSlot, AreSlots, HasDistinctNames};
ghost use Rattle.lois_context.specs.Slots.{store_at};
ghost use Rattle.lois_context.specs.SlotView.{slot_of};

use crate::{Context, Slot, Store};
use lois_base::{Comp, Comps, Constraint, NoMemory};
use lois_constraint::meet;
use std::alloc::Global;

/// Joins the ends of a loop's body: each set from before the loop has in addition what was added at each end, under what the
/// end's context asks for. Errors: `NoMemory`.
pub fn join_loop(alloc: Global, before: Context, ends: Vec<Context>) -> Result<Context, NoMemory>
    requires { All (IsEnd before) ends.items }
    ensures size { IfOk result (λ r. r.size ≡ before.size) }
    ensures when { IfOk result (λ r. r.when ≡ before.when) }
    ensures sample { IfOk result (λ r. r.sample ≡ before.sample) }
    ensures lines { IfOk result (λ r. r.lines ≡ before.lines) }
    ensures joined { IfOk result (λ r. AreJoined before.size ends.items before.store r.store) }
    ensures members { IfOk result (λ r. (c : List Atom) → IsAdmitted c before → (x : List ℕ) (v : PointValue) → looked_up x (store_at c before.store) ≡ Some v → HasJoined ends.items x c v r.store) }
    ensures operators { IfOk result (λ r. (ordered : Bool) → AdmitsContext ordered before → All (AdmitsContext ordered) ends.items → AdmitsContext ordered r) }
    ensures widths { IfOk result (λ r. ContextHasBoundedWidths before → All ContextHasBoundedWidths ends.items → ContextHasBoundedWidths r) }
    ensures depth { IfOk result (λ r. (x : List ℕ) (n : ℕ) → HoldsWithin x n before.store → All (λ d. HoldsWithin x n d.store) ends.items → HoldsWithin x n r.store) }
{
    let store = joined(alloc, before.store, &ends, before.size)?;
    Ok(Context {
        size: before.size,
        when: before.when,
        sample: before.sample,
        store,
        lines: before.lines,
    })
}

// The slots with what each end has added, one end after another.
fn joined(alloc: Global, store: Store, ends: &[Context], size: usize) -> Result<Store, NoMemory>
    requires slots { AreSlots size store }
    requires names { HasDistinctNames store }
    requires ends { All (λ d. size ≤ d.size × AreEndSlots size (d.size - size) store d.store) ends.now }
    ensures joined { IfOk result (AreJoined size ends.now store) }
    ensures slots { IfOk result (AreSlots size) }
    ensures names { IfOk result HasDistinctNames }
{
    let mut joined = store;
    for end in ends {
        joined = with_end(alloc, joined, end, size)?;
    }
    Ok(joined)
}

// The slots with what one end has added.
fn with_end(alloc: Global, store: Store, end: &Context, size: usize) -> Result<Store, NoMemory>
    requires slots { AreSlots size store }
    requires size { size ≤ end.now.size }
    requires count { length store ≤ length end.now.store }
    ensures joined { IfOk result (AreJoinedSlots end.now.when (end.now.size - size) end.now.store store) }
    ensures slots { IfOk result (AreSlots size) }
{
    let by = end.size - size;
    let ends = end.store.as_slice();
    let slots = store.into_vec();
    let mut joined = Store::new(alloc);
    for slot in slots {
        let partner = slot_at(ends, joined.len());
        joined.push(joined_slot(alloc, slot, partner, &end.when, size, by)?)?;
    }
    Ok(joined)
}

fn slot_at(slots: &[Slot], index: usize) -> &Slot
    requires { index < length slots.now }
    ensures { result.now ≡ get_or slots.now index result.now }
{
    &slots[index]
}

// A slot to which nothing was added is left as it is.
fn joined_slot(
    alloc: Global,
    slot: Slot,
    end: &Slot,
    when: &Constraint,
    size: usize,
    by: usize,
) -> Result<Slot, NoMemory>
    requires slot { IsSlot size (slot_of slot) }
    requires end { IsSlot (size + by) (slot_of end.now) }
    requires when { ConstraintFits (size + by) when.now }
    ensures joined { IfOk result (λ r. IsJoinedSlot when.now by (slot_of end.now) (slot_of slot) (slot_of r)) }
    ensures slot { IfOk result (λ r. IsSlot size (slot_of r)) }
{
    let added = moved_out(alloc, end, when, size, by)?;
    if added.len() == 0 {
        return Ok(slot);
    }
    let Slot { name, term, from } = slot;
    let term = term.with_more(alloc, added)?;
    Ok(Slot { name, term, from })
}

// What an end has added to its slot, for the end's levels too and where its constraint holds.
fn moved_out(
    alloc: Global,
    end: &Slot,
    when: &Constraint,
    size: usize,
    by: usize,
) -> Result<Comps, NoMemory>
    requires end { IsSlot (size + by) (slot_of end.now) }
    requires when { ConstraintFits (size + by) when.now }
    ensures { IfOk result (IsWithMoved size when.now by (added_to (slot_of end.now)) []) }
{
    let (first, second) = end.term.behind(end.from);
    let moved = with_moved(alloc, Comps::new(alloc), first, when, size, by)?;
    with_moved(alloc, moved, second, when, size, by)
}

// The comprehensions, and behind them those that an end has added, for its levels too and where its constraint holds.
fn with_moved(
    alloc: Global,
    comps: Comps,
    added: &[Comp],
    when: &Constraint,
    size: usize,
    by: usize,
) -> Result<Comps, NoMemory>
    requires fits { ItemsFit (size + by) (comps_of (map comp_of added.now)) }
    requires when { ConstraintFits (size + by) when.now }
    ensures { IfOk result (IsWithMoved size when.now by (map comp_of added.now) comps) }
{
    let mut joined = comps;
    for comp in added {
        joined.push(moved(alloc, comp, when, size, by)?)?;
    }
    Ok(joined)
}

fn moved(
    alloc: Global,
    comp: &Comp,
    when: &Constraint,
    size: usize,
    by: usize,
) -> Result<Comp, NoMemory>
    requires fits { CompFits (size + by) (comp_of comp.now) }
    requires when { ConstraintFits (size + by) when.now }
    ensures moved { IfOk result (λ r. IsMovedOutOfLoop when.now by (comp_of comp.now) (comp_of r)) }
    ensures fits { IfOk result (λ r. CompFits size (comp_of r)) }
{
    Ok(Comp {
        binders: by + comp.binders,
        guard: meet(alloc, when, &comp.guard)?,
        item: comp.item.copy(alloc)?,
    })
}

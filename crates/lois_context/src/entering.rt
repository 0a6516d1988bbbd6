//! Contexts for the members of a set.

ghost use Rattle.std.specs.Prelude.{◌≡◌, ◌+◌, ◌<◌, ◌^◌, [], ◌∷◌, ◌++◌, map, IfOk, OnOk, IfSome, IsNone, IsTrue};
ghost use Rattle.std.specs.List.{All, Contains};
ghost use Rattle.lois_base.specs.Data.{comps_of};
ghost use Rattle.lois_base.specs.Fits.{Fits, CompFits, ItemsFit};
ghost use Rattle.lois_base.specs.Shift.{shift};
ghost use Rattle.lois_base.specs.Tree.{tree, comp_of};
ghost use Rattle.lois_deciders.specs.OnlyAsked.{HasOnlyAsked};
ghost use Rattle.lois_terms.specs.Collections.{IsColl};
ghost use Rattle.lois_context.specs.Entered.{carried, carried_line, element_slot, IsCarried, IsMemberContext, HasNoMembers, AreMemberContexts, AreEntered};
ghost use Rattle.lois_context.specs.Kept.{IsSlot, AreSlots, LinesFit, HasDistinctNames};
ghost use Rattle.lois_context.specs.Slots.{IsNew};
ghost use Rattle.lois_context.specs.SlotView.{slot_of};

use crate::content::carried_term;
use crate::{Content, Context, Shared, Slot, Store};
use lois_answers::{Line, Lines};
use lois_base::{Comp, Comps, Decider, Name, NoMemory, Term};
use lois_deciders::Chosen;
use std::alloc::Global;

/// Enters a loop over a set: one context for each comprehension that has members where the context admits, in which `name`
/// holds the item, and the binders are new levels. Together they stand for exactly the members. Errors: `NoMemory`, also where
/// a level would pass the greatest usize.
pub fn enter_loop(
    alloc: Global,
    context: &Context,
    elements: &Term,
    name: &Name,
    chosen: &mut Chosen,
) -> Result<Vec<Context>, NoMemory>
    requires levels { Fits context.now.size (tree elements.now) }
    requires set { IsColl (tree elements.now) }
    requires new_name { IsNew name.now context.now.store }
    ensures entered { IfOk result (λ r. AreEntered context.now name.now (tree elements.now) r.items) }

    // whatever is answered
    ensures only_asked { HasOnlyAsked (λ b. (⟦<dyn Decider as Decider>⟧ b.vtable).kind_of b.value) (λ b. (⟦<dyn Decider as Decider>⟧ b.vtable).questions b.value) chosen.old chosen.new }
{
    match elements {
        Term::Coll(comps) => entries(alloc, context, comps, name, chosen),
        _ => unreachable!(),
    }
}

fn entries(
    alloc: Global,
    context: &Context,
    comps: &Comps,
    name: &Name,
    chosen: &mut Chosen,
) -> Result<Vec<Context>, NoMemory>
    requires levels { ItemsFit context.now.size (comps_of comps.now) }
    requires new_name { IsNew name.now context.now.store }
    ensures entries { IfOk result (λ r. AreMemberContexts context.now name.now comps.now r.items) }
    ensures only_asked { HasOnlyAsked (λ b. (⟦<dyn Decider as Decider>⟧ b.vtable).kind_of b.value) (λ b. (⟦<dyn Decider as Decider>⟧ b.vtable).questions b.value) chosen.old chosen.new }
{
    let mut inner = Vec::new(alloc);
    let mut known = Vec::new(alloc);
    for comp in comps.as_slice() {
        if let Some(inside) = entry_of(alloc, context, comp, name, &mut known, chosen)? {
            inner.push(inside)?;
        }
    }
    Ok(inner)
}

// What a context holds, with `by` levels put in behind its own. It is made once for all comprehensions that have so many binders.
#[derive(Drop)]
struct Held {
    by: usize,
    store: Store,
    lines: Shared<Lines>,
}

impl Held {
    // The same, which shares terms and lines.
    fn copy(&self, alloc: Global) -> Result<Self, NoMemory>
        ensures { IfOk result (λ r. (r.by ≡ self.now.by) × (r.store ≡ self.now.store) × (r.lines ≡ self.now.lines)) }
    {
        Ok(Held {
            by: self.by,
            store: self.store.copy(alloc)?,
            lines: self.lines.share()?,
        })
    }
}

// The context for the members of one comprehension, or `None` where it has none.
fn entry_of(
    alloc: Global,
    context: &Context,
    comp: &Comp,
    name: &Name,
    known: &mut Vec<Held>,
    chosen: &mut Chosen,
) -> Result<Option<Context>, NoMemory>
    requires levels { CompFits context.now.size (comp_of comp.now) }
    requires new_name { IsNew name.now context.now.store }
    requires known { All (IsCarried context.now) known.old.items }
    ensures known { OnOk result (All (IsCarried context.now) known.new.items) }
    ensures entry { IfOk result (λ o. IfSome o (IsMemberContext context.now name.now (comp_of comp.now))) }
    ensures none { IfOk result (λ o. IsNone o → HasNoMembers context.now (comp_of comp.now)) }
    ensures only_asked { HasOnlyAsked (λ b. (⟦<dyn Decider as Decider>⟧ b.vtable).kind_of b.value) (λ b. (⟦<dyn Decider as Decider>⟧ b.vtable).questions b.value) chosen.old chosen.new }
{
    let size = context.size + comp.binders;
    let Some(met) = chosen.meet(alloc, &context.when, &comp.guard, size)? else {
        return Ok(None);
    };
    let outside = carried_for(alloc, context, known, comp.binders)?;
    let Held { store, lines, .. } = outside;
    let store = inner_store(alloc, context, store, comp, name)?;
    Ok(Some(Context {
        size,
        when: met.constraint,
        sample: met.sample,
        store,
        lines,
    }))
}

// What the context holds, carried to `by` levels more: a copy of what is known, or made, and known from then on.
fn carried_for(
    alloc: Global,
    context: &Context,
    known: &mut Vec<Held>,
    by: usize,
) -> Result<Held, NoMemory>
    requires levels { context.now.size + by < 2 ^ 64 }
    requires known { All (IsCarried context.now) known.old.items }
    ensures known { OnOk result (All (IsCarried context.now) known.new.items) }
    ensures by { IfOk result (λ r. r.by ≡ by) }
    ensures carried { IfOk result (IsCarried context.now) }
{
    if let Some(found) = known_for(known, by) {
        return found.copy(alloc);
    }
    let made = carried(alloc, context, by)?;
    known.push(made.copy(alloc)?)?;
    Ok(made)
}

fn known_for(known: &[Held], by: usize) -> Option<&Held>
    ensures { IfSome result (λ r. Contains known.now r.now × (r.now.by ≡ by)) }
{
    for found in known {
        if found.by == by {
            return Some(found);
        }
    }
    None
}

fn carried(alloc: Global, context: &Context, by: usize) -> Result<Held, NoMemory>
    requires levels { context.now.size + by < 2 ^ 64 }
    ensures by { IfOk result (λ r. r.by ≡ by) }
    ensures carried { IfOk result (IsCarried context.now) }
{
    let store = carried_store(alloc, &context.store, context.size, by)?;
    let lines = carried_lines(alloc, &context.lines, context.size, by)?;
    Ok(Held { by, store, lines })
}

// The slots of the context, carried to more levels, and the item under the name.
fn inner_store(
    alloc: Global,
    context: &Context,
    outside: Store,
    comp: &Comp,
    name: &Name,
) -> Result<Store, NoMemory>
    requires levels { CompFits context.now.size (comp_of comp.now) }
    requires new_name { IsNew name.now context.now.store }
    requires outside { outside ≡ map (carried context.now.size comp.now.binders) context.now.store }
    requires slots { AreSlots (context.now.size + comp.now.binders) outside }
    ensures store { IfOk result (λ r. r ≡ map (carried context.now.size comp.now.binders) context.now.store ++ element_slot name.now (tree comp.now.item) ∷ []) }
    ensures slots { IfOk result (AreSlots (context.now.size + comp.now.binders)) }
    ensures names { IfOk result HasDistinctNames }
{
    let mut store = outside;
    store.push(bound_slot(alloc, name, &comp.item)?)?;
    Ok(store)
}

fn bound_slot(alloc: Global, name: &Name, item: &Term) -> Result<Slot, NoMemory>
    ensures { IfOk result (λ r. slot_of r ≡ element_slot name.now (tree item.now)) }
{
    Slot::new(alloc, name.copy(alloc)?, item.copy(alloc)?, 0)
}

// The slots with `by` levels put in after the first `size`.
fn carried_store(alloc: Global, store: &Store, size: usize, by: usize) -> Result<Store, NoMemory>
    requires slots { AreSlots size store.now }
    requires levels { size + by < 2 ^ 64 }
    ensures carried { IfOk result (λ r. r ≡ map (carried size by) store.now) }
    ensures slots { IfOk result (AreSlots (size + by)) }
{
    let mut moved = Store::new(alloc);
    for slot in store.as_slice() {
        moved.push(carried_slot(alloc, slot, size, by)?)?;
    }
    Ok(moved)
}

fn carried_slot(alloc: Global, slot: &Slot, size: usize, by: usize) -> Result<Slot, NoMemory>
    requires fits { Fits size (tree slot.now.term) }
    requires levels { size + by < 2 ^ 64 }
    ensures carried { IfOk result (λ r. slot_of r ≡ carried size by (slot_of slot.now)) }
    ensures slot { IfOk result (λ r. IsSlot (size + by) (slot_of r)) }
{
    Ok(Slot {
        name: slot.name.copy(alloc)?,
        term: carried_content(alloc, &slot.term, size, by)?,
        from: slot.term.count(),
    })
}

// A term that doesn't change is shared. So a loop over a set that lists its members holds each of the other sets once, and any
// loop does so with sets that list theirs.
fn carried_content(
    alloc: Global,
    content: &Content,
    size: usize,
    by: usize,
) -> Result<Content, NoMemory>
    requires fits { Fits size (tree content.now) }
    requires levels { size + by < 2 ^ 64 }
    ensures carried { IfOk result (λ r. tree r ≡ shift size by (tree content.now)) }
    ensures fits { IfOk result (λ r. Fits (size + by) (tree r)) }
{
    let settled = content.settled(alloc)?;
    if stays(&settled, size, by) {
        return Ok(settled);
    }
    settled.carried(alloc, size, by)
}

// Whether no level is put in, or the term has none that would move.
fn stays(content: &Content, size: usize, by: usize) -> bool
    requires fits { Fits size (tree content.now) }
    requires levels { size + by < 2 ^ 64 }
    ensures carried { IsTrue result → tree content.now ≡ shift size by (tree content.now) }
    ensures fits { IsTrue result → Fits (size + by) (tree content.now) }
{
    by == 0 || content.binds_nothing()
}

// The lines are shared where no level is put in. So a loop over a set that lists its members holds them once.
#[tactic(auto, using(crate::proofs::Unshifted::lines_none))]
fn carried_lines(
    alloc: Global,
    lines: &Shared<Lines>,
    size: usize,
    by: usize,
) -> Result<Shared<Lines>, NoMemory>
    requires fits { LinesFit size lines.now }
    requires levels { size + by < 2 ^ 64 }
    ensures carried { IfOk result (λ r. r ≡ map (carried_line size by) lines.now) }
    ensures fits { IfOk result (LinesFit (size + by)) }
{
    if by == 0 {
        return lines.share();
    }
    Shared::new(alloc, shifted_lines(alloc, lines.get(), size, by)?)
}

fn shifted_lines(alloc: Global, lines: &Lines, size: usize, by: usize) -> Result<Lines, NoMemory>
    requires fits { LinesFit size lines.now }
    requires levels { size + by < 2 ^ 64 }
    ensures carried { IfOk result (λ r. r ≡ map (carried_line size by) lines.now) }
    ensures fits { IfOk result (LinesFit (size + by)) }
{
    let mut moved = Lines::new(alloc);
    for line in lines.as_slice() {
        moved.push(Line {
            name: line.name.copy(alloc)?,
            term: carried_term(alloc, &line.term, size, by)?,
        })?;
    }
    Ok(moved)
}

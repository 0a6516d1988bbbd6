//! Contexts that are split, and loops that are entered and left.

ghost use Rattle.std.specs.Prelude.{◌≡◌, ℕ, List, map, IfOk};
ghost use Rattle.std.specs.List.{All};
ghost use Rattle.lois_context.specs.Joined.{IsEndSlot, AreEndSlots, IsEnd};
ghost use Rattle.lois_context.specs.Kept.{IsSlot, AreSlots};
ghost use Rattle.lois_context.specs.Slots.{SlotD, slot_name};
ghost use Rattle.lois_context.specs.SlotView.{slot_of};

use crate::making::{
    admits, chosen, compared, each, guard_of, name_of, opening, part, set_of, set_where,
};
use lois_base::{Comp, Constraint, Name, NoMemory, Op, Term};
use lois_context::{Context, Slot, Split, Store, enter_loop, join_loop, split};
use std::alloc::Global;
use std::process::Abort;
use std::test::Fail;

// the parts of the context where `$0` is `$1` and where it isn't
fn sides(rt: &impl Abort, alloc: Global, context: Context) -> Result<Split, Fail> {
    let equal = compared(alloc, Op::Eq, 0, 1)?;
    assert!(rt; equal.fits(context.size));
    let mut chosen = chosen(alloc)?;
    Ok(split(alloc, context, &equal, &mut chosen)?)
}

pub(crate) fn inside(
    rt: &impl Abort,
    alloc: Global,
    context: &Context,
    elements: &Term,
    name: &Name,
) -> Result<Vec<Context>, Fail>
    ensures { IfOk result (λ r. All (IsEnd context.now) r.items) }
{
    assert!(rt; elements.fits(context.size));
    assert!(rt; matches!(elements, Term::Coll(_)));
    assert!(rt; !context.store.has_name(name));
    let mut chosen = chosen(alloc)?;
    Ok(enter_loop(alloc, context, elements, name, &mut chosen)?)
}

#[test]
fn one_side_is_asked_alone(rt: HostRuntime) -> Result<(), Fail> {
    let alloc = rt.alloc();
    let mut chosen = chosen(alloc)?;
    let context = opening(&rt, alloc, 2)?;
    let yes = part(&rt, alloc, &context, (0, Op::Eq, 1), &mut chosen)?.ok_or("no side")?;
    assert!(rt; admits(&yes, &[4, 4]) && !admits(&yes, &[4, 7]));
    assert_eq!(rt; chosen.asked(), 1);
    let none = part(&rt, alloc, &yes, (0, Op::Ne, 1), &mut chosen)?;
    assert!(rt; none.is_none());
    Ok(())
}

#[test]
fn where_it_holds_there_is_one_side(rt: HostRuntime) -> Result<(), Fail> {
    let alloc = rt.alloc();
    let both = sides(&rt, alloc, opening(&rt, alloc, 2)?)?;
    let yes = both.yes.ok_or("no side where it holds")?;
    assert!(rt; admits(&yes, &[4, 4]) && !admits(&yes, &[4, 7]));
    assert!(rt; yes.store.len() == 0 && yes.lines.get().len() == 0);
    let again = sides(&rt, alloc, yes)?;
    assert!(rt; again.yes.is_some() && again.no.is_none());
    Ok(())
}

#[test]
fn where_it_does_not_hold_there_is_the_other_side(rt: HostRuntime) -> Result<(), Fail> {
    let alloc = rt.alloc();
    let both = sides(&rt, alloc, opening(&rt, alloc, 2)?)?;
    let no = both.no.ok_or("no side where it doesn't")?;
    assert!(rt; admits(&no, &[4, 7]) && !admits(&no, &[4, 4]));
    let other = sides(&rt, alloc, no)?;
    assert!(rt; other.yes.is_none() && other.no.is_some());
    Ok(())
}

// `{$3 for $3 if $3=$2}`
fn single(alloc: Global) -> Result<Term, NoMemory> {
    set_where(alloc, (3, Op::Eq, 2), Term::Var(3))
}

// `{{$3 for $3 if $3=$2} for $2 if $2!=$0}`, and a comprehension without members beside it
fn elements(alloc: Global) -> Result<Term, NoMemory> {
    let sets = each(compared(alloc, Op::Ne, 2, 0)?, single(alloc)?);
    let none = each(compared(alloc, Op::Ne, 2, 2)?, Term::Var(2));
    set_of(alloc, [sets, none])
}

// the only context inside of the loop
fn only_inside(
    rt: &impl Abort,
    alloc: Global,
    context: &Context,
    elements: &Term,
    name: &Name,
) -> Result<Context, Fail> {
    let mut entered = inside(rt, alloc, context, elements, name)?;
    assert!(rt; entered.len() == 1);
    Ok(entered.pop().ok_or("no context")?)
}

// `x` ranges over the elements
fn outer(rt: &impl Abort, alloc: Global, x: &Name) -> Result<Context, Fail> {
    let opening = opening(rt, alloc, 2)?;
    only_inside(rt, alloc, &opening, &elements(alloc)?, x)
}

#[test]
fn loops_have_a_context_for_each_comprehension(rt: HostRuntime) -> Result<(), Fail> {
    let alloc = rt.alloc();
    let x = name_of(&rt, alloc, b"x")?;
    let context = outer(&rt, alloc, &x)?;
    assert!(rt; context.size == 3 && context.store.len() == 1);
    assert!(rt; admits(&context, &[0, 1, 5]) && !admits(&context, &[5, 1, 5]));
    let held = context.store.get(0).ok_or("no slot")?;
    assert!(rt; held.name == x && held.from == 0);
    Ok(())
}

// `y` ranges over `x`
fn deepest(rt: &impl Abort, alloc: Global, x: &Name, y: &Name) -> Result<Context, Fail> {
    let context = outer(rt, alloc, x)?;
    let held = context.store.get(0).ok_or("no slot")?;
    let set = held.term.whole(alloc)?;
    only_inside(rt, alloc, &context, set.get(), y)
}

#[test]
fn loops_stand_in_loops(rt: HostRuntime) -> Result<(), Fail> {
    let alloc = rt.alloc();
    let x = name_of(&rt, alloc, b"x")?;
    let y = name_of(&rt, alloc, b"y")?;
    let deepest = deepest(&rt, alloc, &x, &y)?;
    assert!(rt; admits(&deepest, &[0, 1, 5, 5]) && !admits(&deepest, &[0, 1, 5, 6]));
    assert!(rt; holds_one_set(alloc, &deepest.store, &x)?);
    let last = deepest.store.get(1).ok_or("no slot")?;
    let atom = last.term.whole(alloc)?;
    assert!(rt; last.name == y && matches!(atom.get(), Term::Var(3)) && last.from == 0);
    let slots = deepest.store.into_vec();
    assert!(rt; slots.len() == 2 && slots[0].name == x && slots[1].name == y);
    Ok(())
}

// `{$4 for $4 if $4=$2}` under the name, of which all stood there before
fn holds_one_set(alloc: Global, store: &Store, name: &Name) -> Result<bool, NoMemory> {
    let Some(slot) = store.get(0) else {
        return Ok(false);
    };
    let set = slot.term.whole(alloc)?;
    Ok(slot.name == *name && slot.from == 1 && is_one_set(set.get()))
}

fn is_one_set(term: &Term) -> bool {
    match term {
        Term::Coll(comps) => match comps.as_slice() {
            [comp] => {
                comp.binders == 1
                    && matches!(comp.item, Term::Var(4))
                    && comp.guard.fits(5)
                    && comp.guard.at(&[0, 1, 5, 6, 5])
                    && !comp.guard.at(&[0, 1, 5, 6, 6])
            }
            _ => false,
        },
        _ => false,
    }
}

// `x` is `{$3 for $3 if $3=$2}` for an atom `$2`
fn with_a_set(rt: &impl Abort, alloc: Global, x: &Name) -> Result<Context, Fail> {
    let sets = set_where(alloc, (2, Op::Ne, 0), single(alloc)?)?;
    let mut contexts = inside(rt, alloc, &opening(rt, alloc, 2)?, &sets, x)?;
    Ok(contexts.pop().ok_or("no context")?)
}

// all atoms, as `$0` and those that are another
fn in_two_parts(alloc: Global) -> Result<Term, NoMemory> {
    let same = each(compared(alloc, Op::Eq, 3, 0)?, Term::Var(3));
    let other = each(compared(alloc, Op::Ne, 3, 0)?, Term::Var(3));
    set_of(alloc, [same, other])
}

// behind a loop over all atoms that adds nothing
fn behind_an_empty_body(rt: &impl Abort, alloc: Global, x: &Name) -> Result<Context, Fail> {
    let before = with_a_set(rt, alloc, x)?;
    let y = name_of(rt, alloc, b"y")?;
    let ends = inside(rt, alloc, &before, &in_two_parts(alloc)?, &y)?;
    Ok(join_loop(alloc, before, ends)?)
}

// whether only `x` is in the store, over three levels
fn holds_only(context: &Context, x: &Name) -> bool {
    context.size == 3
        && context.lines.get().len() == 0
        && match context.store.as_slice() {
            [held] => held.name == *x && held.from == 0,
            _ => false,
        }
}

#[test]
fn a_loop_that_adds_nothing_changes_nothing(rt: HostRuntime) -> Result<(), Fail> {
    let alloc = rt.alloc();
    let x = name_of(&rt, alloc, b"x")?;
    let behind = behind_an_empty_body(&rt, alloc, &x)?;
    assert!(rt; holds_only(&behind, &x));
    assert!(rt; admits(&behind, &[0, 1, 5]) && !admits(&behind, &[5, 1, 5]));
    let held = behind.store.get(0).ok_or("no slot")?;
    let set = held.term.whole(alloc)?;
    assert!(rt; has_one_comprehension(set.get()));
    Ok(())
}

fn has_one_comprehension(term: &Term) -> bool {
    match term {
        Term::Coll(comps) => match comps.as_slice() {
            [comp] => {
                comp.guard.fits(4) && comp.guard.at(&[0, 1, 5, 5]) && !comp.guard.at(&[0, 1, 5, 6])
            }
            _ => false,
        },
        _ => false,
    }
}

// the slot with one comprehension more in its set
fn grown_slot(
    rt: &impl Abort,
    alloc: Global,
    slot: &Slot,
    comp: &Comp,
    size: usize,
) -> Result<Slot, Fail>
    requires { IsSlot size (slot_of slot.now) }
    ensures slot { IfOk result (λ r. IsSlot size (slot_of r)) }
    ensures name { IfOk result (λ r. r.name ≡ slot.now.name) }
    ensures end { IfOk result (λ r. (n by : ℕ) (s : SlotD) → IsEndSlot n by s (slot_of slot.now) → IsEndSlot n by s (slot_of r)) }
{
    let set = slot.term.whole(alloc)?;
    let Term::Coll(comps) = set.get() else {
        return Err("no set".into());
    };
    let mut grown = comps.copy(alloc)?;
    grown.push(comp.copy(alloc)?)?;
    let term = Term::Coll(grown);
    assert!(rt; term.fits(size));
    Ok(Slot::new(alloc, slot.name.copy(alloc)?, term, slot.from)?)
}

// two slots, the first with one comprehension more in its set
fn grown_store(
    rt: &impl Abort,
    alloc: Global,
    store: &Store,
    comp: &Comp,
    size: usize,
) -> Result<Store, Fail>
    requires { AreSlots size store.now }
    ensures slots { IfOk result (AreSlots size) }
    ensures names { IfOk result (λ r. map slot_name r ≡ map slot_name store.now) }
    ensures end { IfOk result (λ r. (n by : ℕ) (ss : List SlotD) → AreEndSlots n by ss store.now → AreEndSlots n by ss r) }
{
    let [first, last] = store.as_slice() else {
        return Err("not two slots".into());
    };
    let mut grown = Store::new(alloc);
    grown.push(grown_slot(rt, alloc, first, comp, size)?)?;
    grown.push(last.copy(alloc)?)?;
    Ok(grown)
}

fn grown(rt: &impl Abort, alloc: Global, end: &Context, comp: &Comp) -> Result<Context, Fail>
    ensures { IfOk result (λ r. (before : Context) → IsEnd before end.now → IsEnd before r) }
{
    Ok(Context {
        size: end.size,
        when: end.when.copy(alloc)?,
        sample: end.sample.copy(alloc)?,
        store: grown_store(rt, alloc, &end.store, comp, end.size)?,
        lines: end.lines.share()?,
    })
}

// what a body comes to that adds the comprehension to the set of the first of two slots
fn all_grown(
    rt: &impl Abort,
    alloc: Global,
    ends: &[Context],
    comp: &Comp,
) -> Result<Vec<Context>, Fail>
    ensures { IfOk result (λ r. (before : Context) → All (IsEnd before) ends.now → All (IsEnd before) r.items) }
{
    let mut all = Vec::new(alloc);
    for end in ends {
        all.push(grown(rt, alloc, end, comp)?)?;
    }
    Ok(all)
}

// `$3` for no binder
fn atom(alloc: Global) -> Result<Comp, NoMemory> {
    Ok(Comp {
        binders: 0,
        guard: guard_of(alloc, &[])?,
        item: Term::Var(3),
    })
}

// behind a loop over all atoms whose body adds the loop's atom to `x`, once where it is `$0` and once where it is another
fn behind_a_body(rt: &impl Abort, alloc: Global, x: &Name) -> Result<Context, Fail> {
    let before = with_a_set(rt, alloc, x)?;
    let y = name_of(rt, alloc, b"y")?;
    let inner = inside(rt, alloc, &before, &in_two_parts(alloc)?, &y)?;
    let ends = all_grown(rt, alloc, &inner, &atom(alloc)?)?;
    assert!(rt; ends.len() == 2);
    Ok(join_loop(alloc, before, ends)?)
}

#[test]
fn what_ends_add_is_joined(rt: HostRuntime) -> Result<(), Fail> {
    let alloc = rt.alloc();
    let x = name_of(&rt, alloc, b"x")?;
    let behind = behind_a_body(&rt, alloc, &x)?;
    assert!(rt; holds_only(&behind, &x));
    let held = behind.store.get(0).ok_or("no slot")?;
    let set = held.term.whole(alloc)?;
    let Term::Coll(comps) = set.get() else {
        return Err("no set".into());
    };
    assert!(rt; are_three_parts(comps.as_slice()));
    Ok(())
}

// what stood there, the atom where it is `$0`, and where it is another
fn are_three_parts(comps: &[Comp]) -> bool {
    let [old, same, other] = comps else {
        return false;
    };
    is_part(old, &[0, 1, 5, 5], &[0, 1, 5, 6])
        && is_part(old, &[5, 1, 5, 5], &[5, 1, 5, 6])
        && is_part(same, &[0, 1, 5, 0], &[0, 1, 5, 6])
        && is_part(same, &[0, 1, 5, 0], &[5, 1, 5, 5])
        && is_part(other, &[0, 1, 5, 6], &[0, 1, 5, 0])
        && is_part(other, &[0, 1, 5, 6], &[5, 1, 5, 6])
}

// `$3` for one binder, with a guard that holds at the first choice and not at the second
fn is_part(comp: &Comp, yes: &[u64; 4], no: &[u64; 4]) -> bool {
    comp.binders == 1
        && matches!(comp.item, Term::Var(3))
        && comp.guard.fits(4)
        && comp.guard.at(yes)
        && !comp.guard.at(no)
}

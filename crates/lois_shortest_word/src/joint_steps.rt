//! Steps of two automata side by side, from pairs of states that are reached.

ghost use Rattle.std.specs.Prelude.{◌≡◌, ◌+◌, Bool, IfOk, OnOk};
ghost use Rattle.lois_base.specs.Data.{coll, comp, comps_of, no_comps, more};
ghost use Rattle.lois_base.specs.Fits.{ItemsFit};
ghost use Rattle.lois_base.specs.Over.{IsOver, CompIsOver, ItemsAreOver};
ghost use Rattle.lois_base.specs.Tree.{tree, comp_of};
ghost use Rattle.lois_base.specs.Validity.{AdmitsItems, ItemsHaveBoundedWidths};
ghost use Rattle.lois_shortest_word.specs.Layers.{IsReadable};
ghost use Rattle.lois_shortest_word.specs.Pairs.{AddsStepFrom, AddsStepsFrom, AddsJointSteps, AreJointSteps};

use lois_algebra::push_comp;
use lois_automata::{membership, pair_parts, pair_steps, step_parts};
use lois_base::{Comp, Comps, NoMemory, Structure, Term};
use lois_constraint::meet;
use std::alloc::Global;

/// The steps that both automata make from members of the set `pairs`, with the same letter. Only steps that can begin there are
/// put side by side.
pub fn joint_steps<T: Structure>(
    alloc: Global,
    pairs: &Comps,
    one: &Comps,
    other: &Comps,
    size: usize,
) -> Result<Comps, NoMemory>
    requires over { ItemsAreOver T.ordered size (comps_of pairs.now) }
    requires first { ItemsAreOver T.ordered size (comps_of one.now) }
    requires second { ItemsAreOver T.ordered size (comps_of other.now) }
    ensures members { IfOk result (λ r. AreJointSteps size (coll (comps_of pairs.now)) (coll (comps_of one.now)) (coll (comps_of other.now)) (coll (comps_of r))) }
    ensures levels { IfOk result (λ r. ItemsFit size (comps_of r)) }
    ensures operators { IfOk result (λ r. (o : Bool) → AdmitsItems o (comps_of pairs.now) → AdmitsItems o (comps_of one.now) → AdmitsItems o (comps_of other.now) → AdmitsItems o (comps_of r)) }
    ensures widths { IfOk result (λ r. ItemsHaveBoundedWidths (comps_of one.now) → ItemsHaveBoundedWidths (comps_of other.now) → ItemsHaveBoundedWidths (comps_of r)) }
{
    let mut made = Comps::new(alloc);
    for comp in pairs.as_slice() {
        add_joint_steps::<T>(alloc, &mut made, comp, one, other, size)?;
    }
    Ok(made)
}

fn add_joint_steps<T: Structure>(
    alloc: Global,
    made: &mut Comps,
    comp: &Comp,
    one: &Comps,
    other: &Comps,
    size: usize,
) -> Result<(), NoMemory>
    requires over { CompIsOver T.ordered size (comp_of comp.now) }
    requires first { ItemsAreOver T.ordered size (comps_of one.now) }
    requires second { ItemsAreOver T.ordered size (comps_of other.now) }
    ensures { OnOk result (AddsJointSteps size (comp_of comp.now) (comps_of one.now) (comps_of other.now) (comps_of made.old) (comps_of made.new)) }
{
    let Some((first, second)) = pair_parts(&comp.item) else {
        return Ok(());
    };
    let mine = steps_from::<T>(alloc, one, comp, first, size)?;
    let others = steps_from::<T>(alloc, other, comp, second, size)?;
    let Term::Coll(joint) = pair_steps::<T>(alloc, &mine, &others, size)? else {
        unreachable!()
    };
    let here = values_of(alloc, comp, &comp.item)?;
    add_steps_from::<T>(alloc, made, &joint, &here, size)
}

// The steps whose source is a value that the term has under the guard of the comprehension.
fn steps_from<T: Structure>(
    alloc: Global,
    steps: &Comps,
    origin: &Comp,
    part: &Term,
    size: usize,
) -> Result<Comps, NoMemory>
    requires over { CompIsOver T.ordered size (comp_of origin.now) }
    requires part { IsOver T.ordered (size + origin.now.binders) (tree part.now) }
    requires steps { ItemsAreOver T.ordered size (comps_of steps.now) }
    ensures { IfOk result (λ r. AddsStepsFrom size (coll (more (comp origin.now.binders origin.now.guard (tree part.now)) no_comps)) (comps_of steps.now) no_comps (comps_of r)) }
{
    let held = values_of(alloc, origin, part)?;
    let mut made = Comps::new(alloc);
    add_steps_from::<T>(alloc, &mut made, steps, &held, size)?;
    Ok(made)
}

// The set of the values that the term has under the guard of the comprehension.
fn values_of(alloc: Global, origin: &Comp, part: &Term) -> Result<Term, NoMemory>
    ensures { IfOk result (λ r. tree r ≡ coll (more (comp origin.now.binders origin.now.guard (tree part.now)) no_comps)) }
{
    let mut values = Comps::new(alloc);
    values.push(Comp {
        binders: origin.binders,
        guard: origin.guard.copy(alloc)?,
        item: part.copy(alloc)?,
    })?;
    Ok(Term::Coll(values))
}

// Adds the steps whose source is in the set `held`.
fn add_steps_from<T: Structure>(
    alloc: Global,
    made: &mut Comps,
    steps: &Comps,
    held: &Term,
    size: usize,
) -> Result<(), NoMemory>
    requires over { ItemsAreOver T.ordered size (comps_of steps.now) }
    requires held { IsReadable T.ordered size (tree held.now) }
    ensures { OnOk result (AddsStepsFrom size (tree held.now) (comps_of steps.now) (comps_of made.old) (comps_of made.new)) }
{
    for comp in steps.as_slice() {
        add_step_from::<T>(alloc, made, comp, held, size)?;
    }
    Ok(())
}

fn add_step_from<T: Structure>(
    alloc: Global,
    made: &mut Comps,
    comp: &Comp,
    held: &Term,
    size: usize,
) -> Result<(), NoMemory>
    requires over { CompIsOver T.ordered size (comp_of comp.now) }
    requires held { IsReadable T.ordered size (tree held.now) }
    ensures { OnOk result (AddsStepFrom size (comp_of comp.now) (tree held.now) (comps_of made.old) (comps_of made.new)) }
{
    let Some(step) = step_parts(&comp.item) else {
        return Ok(());
    };
    let found = membership::<T>(alloc, step.source, held, size, comp.binders)?;
    if found.len() == 0 {
        return Ok(());
    }
    let guard = meet(alloc, &comp.guard, &found)?;
    let item = comp.item.copy(alloc)?;
    push_comp(
        made,
        Comp {
            binders: comp.binders,
            guard,
            item,
        },
    )
}

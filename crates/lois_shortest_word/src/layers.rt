//! Layers of states: those from which a word of so many letters is accepted.

ghost use Rattle.std.specs.Prelude.{◌≡◌, ℕ, Bool, IfOk, OnOk};
ghost use Rattle.lois_base.specs.Data.{coll, comps_of};
ghost use Rattle.lois_base.specs.Over.{CompIsOver, ItemsAreOver};
ghost use Rattle.lois_base.specs.Tree.{tree, comp_of};
ghost use Rattle.lois_shortest_word.specs.Layers.{IsReadable, AreSources, AddsSource};

use lois_algebra::push_comp;
use lois_automata::{membership, step_parts};
use lois_base::{Comp, Comps, NoMemory, Structure, Term};
use lois_constraint::meet;
use std::alloc::Global;

/// The sources of the steps to members of the set `layer`.
pub fn sources<T: Structure>(
    alloc: Global,
    steps: &Comps,
    layer: &Term,
    size: usize,
) -> Result<Term, NoMemory>
    requires over { ItemsAreOver T.ordered size (comps_of steps.now) }
    requires layer { IsReadable T.ordered size (tree layer.now) }
    ensures members { IfOk result (λ r. AreSources size (coll (comps_of steps.now)) (tree layer.now) (tree r)) }
    ensures readable { IfOk result (λ r. IsReadable T.ordered size (tree r)) }
{
    let mut made = Comps::new(alloc);
    for comp in steps.as_slice() {
        add_source::<T>(alloc, &mut made, comp, layer, size)?;
    }
    Ok(Term::Coll(made))
}

fn add_source<T: Structure>(
    alloc: Global,
    made: &mut Comps,
    comp: &Comp,
    layer: &Term,
    size: usize,
) -> Result<(), NoMemory>
    requires over { CompIsOver T.ordered size (comp_of comp.now) }
    requires layer { IsReadable T.ordered size (tree layer.now) }
    ensures { OnOk result (AddsSource size (comp_of comp.now) (tree layer.now) (comps_of made.old) (comps_of made.new)) }
{
    let Some(step) = step_parts(&comp.item) else {
        return Ok(());
    };
    let found = membership::<T>(alloc, step.target, layer, size, comp.binders)?;
    let guard = meet(alloc, &comp.guard, &found)?;
    let item = step.source.copy(alloc)?;
    push_comp(
        made,
        Comp {
            binders: comp.binders,
            guard,
            item,
        },
    )
}

//! Sets of pairs, and the ends of their pairs.

ghost use Rattle.std.specs.Prelude.{[], IfOk, OnOk};
ghost use Rattle.lois_base.specs.Data.{coll, comps_of};
ghost use Rattle.lois_base.specs.Fits.{CompFits};
ghost use Rattle.lois_base.specs.Over.{ItemsAreOver};
ghost use Rattle.lois_base.specs.Tree.{tree, comp_of};
ghost use Rattle.lois_algebra.specs.Gathered.{IsPut};
ghost use Rattle.lois_deciders.specs.OnlyAsked.{HasOnlyAsked};
ghost use Rattle.lois_picture.specs.Drawing.{AddsEndsOrNot, AreEndsOrNone, end_comp};

use lois_algebra::push_comp;
use lois_automata::pair_parts;
use lois_base::{Comp, Comps, Decider, NoMemory, Structure, Term};
use lois_deciders::Chosen;
use std::alloc::Global;

/// The set of the first and the second parts of all pairs of the set, or `None` where some member is no pair.
pub fn ends_in<T: Structure>(
    alloc: Global,
    pairs: &Comps,
    chosen: &mut Chosen,
) -> Result<Option<Term>, NoMemory>
    requires over { ItemsAreOver T.ordered 0 (comps_of pairs.now) }
    ensures ends { IfOk result (AreEndsOrNone T.ordered (coll (comps_of pairs.now))) }
    ensures only_asked { HasOnlyAsked (λ b. (⟦<dyn Decider as Decider>⟧ b.vtable).kind_of b.value) (λ b. (⟦<dyn Decider as Decider>⟧ b.vtable).questions b.value) chosen.old chosen.new }
{
    let mut ends = Comps::new(alloc);
    for comp in pairs.as_slice() {
        if !add_ends(alloc, &mut ends, comp, chosen)? {
            return Ok(None);
        }
    }
    Ok(Some(Term::Coll(ends)))
}

// Puts in the ends of the comprehension's members, if they all are pairs.
fn add_ends(
    alloc: Global,
    ends: &mut Comps,
    comp: &Comp,
    chosen: &mut Chosen,
) -> Result<bool, NoMemory>
    requires { CompFits 0 (comp_of comp.now) }
    ensures added { IfOk result (AddsEndsOrNot (comp_of comp.now) (comps_of ends.old) (comps_of ends.new)) }
    ensures only_asked { HasOnlyAsked (λ b. (⟦<dyn Decider as Decider>⟧ b.vtable).kind_of b.value) (λ b. (⟦<dyn Decider as Decider>⟧ b.vtable).questions b.value) chosen.old chosen.new }
{
    let Some((first, second)) = pair_parts(&comp.item) else {
        let member = chosen.ask(alloc, &comp.guard, comp.binders)?;
        return Ok(member.is_none());
    };
    put_end(alloc, ends, comp, first)?;
    put_end(alloc, ends, comp, second)?;
    Ok(true)
}

// Puts in an end of the comprehension's members, as an item beside its guard.
fn put_end(alloc: Global, ends: &mut Comps, comp: &Comp, end: &Term) -> Result<(), NoMemory>
    ensures { OnOk result (IsPut (end_comp (comp_of comp.now) (tree end.now)) (comps_of ends.old) (comps_of ends.new)) }
{
    let guard = comp.guard.copy(alloc)?;
    let item = end.copy(alloc)?;
    push_comp(
        ends,
        Comp {
            binders: comp.binders,
            guard,
            item,
        },
    )
}

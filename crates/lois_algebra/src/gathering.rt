//! The members of the members of a set.

ghost use Rattle.std.specs.Prelude.{◌+◌, ◌≤◌, Bool, IfOk, OnOk};
ghost use Rattle.lois_base.specs.Data.{coll, comps_of, depth};
ghost use Rattle.lois_base.specs.ListDepth.{depth_of_comps};
ghost use Rattle.lois_base.specs.Fits.{ConstraintFits, Fits, CompFits, ItemsFit};
ghost use Rattle.lois_base.specs.Tree.{tree, comp_of};
ghost use Rattle.lois_base.specs.Validity.{AdmitsTerm, AdmitsItems, HasBoundedWidths, ItemsHaveBoundedWidths};
ghost use Rattle.lois_terms.specs.Collections.{IsColl};
ghost use Rattle.lois_algebra.specs.Gathered.{Gathers, GathersItems};
ghost use Rattle.lois_algebra.specs.Sets.{IsUnionOfMembers, ItemsAreSets, IsSetOfSets};

use crate::putting::push_comp;
use lois_base::{Comp, Comps, NoMemory, Term};
use lois_constraint::meet;
use std::alloc::Global;

/// The set that has the members of the members of the set `s`, whose members are sets.
pub fn collect_over(alloc: Global, s: &Term, size: usize) -> Result<Term, NoMemory>
    requires fits { Fits size (tree s.now) }
    requires sets { IsSetOfSets (tree s.now) }
    ensures members { IfOk result (λ r. IsUnionOfMembers size (tree s.now) (tree r)) }
    ensures set { IfOk result (λ r. IsColl (tree r)) }
    ensures levels { IfOk result (λ r. Fits size (tree r)) }
    ensures operators { IfOk result (λ r. (ordered : Bool) → AdmitsTerm ordered (tree s.now) → AdmitsTerm ordered (tree r)) }
    ensures widths { IfOk result (λ r. HasBoundedWidths (tree s.now) → HasBoundedWidths (tree r)) }
    ensures depth { IfOk result (λ r. depth (tree r) ≤ depth (tree s.now)) }
{
    match s {
        Term::Coll(comps) => Ok(Term::Coll(collected(alloc, comps, size)?)),
        _ => unreachable!(),
    }
}

fn collected(alloc: Global, comps: &Comps, size: usize) -> Result<Comps, NoMemory>
    requires fits { ItemsFit size (comps_of comps.now) }
    requires sets { ItemsAreSets (comps_of comps.now) }
    ensures members { IfOk result (λ r. IsUnionOfMembers size (coll (comps_of comps.now)) (coll (comps_of r))) }
    ensures levels { IfOk result (λ r. ItemsFit size (comps_of r)) }
    ensures operators { IfOk result (λ r. (ordered : Bool) → AdmitsItems ordered (comps_of comps.now) → AdmitsItems ordered (comps_of r)) }
    ensures widths { IfOk result (λ r. ItemsHaveBoundedWidths (comps_of comps.now) → ItemsHaveBoundedWidths (comps_of r)) }
    ensures depth { IfOk result (λ r. depth_of_comps r ≤ depth_of_comps comps.now) }
{
    let mut gathered = Comps::new(alloc);
    for comp in comps.as_slice() {
        gather(alloc, &mut gathered, comp, size)?;
    }
    Ok(gathered)
}

// One more comprehension for each of those inside of the item, for the binders of both.
fn gather(alloc: Global, gathered: &mut Comps, comp: &Comp, size: usize) -> Result<(), NoMemory>
    requires fits { CompFits size (comp_of comp.now) }
    requires set { IsColl (tree comp.now.item) }
    ensures { OnOk result (Gathers size (comp_of comp.now) (comps_of gathered.old) (comps_of gathered.new)) }
{
    match &comp.item {
        Term::Coll(inner) => gather_items(alloc, gathered, comp, inner, size),
        _ => unreachable!(),
    }
}

fn gather_items(
    alloc: Global,
    gathered: &mut Comps,
    comp: &Comp,
    items: &Comps,
    size: usize,
) -> Result<(), NoMemory>
    requires guard { ConstraintFits (size + comp.now.binders) comp.now.guard }
    requires items { ItemsFit (size + comp.now.binders) (comps_of items.now) }
    ensures { OnOk result (GathersItems size comp.now.binders comp.now.guard (comps_of items.now) (comps_of gathered.old) (comps_of gathered.new)) }
{
    for inner in items.as_slice() {
        let binders = comp.binders + inner.binders;
        let guard = meet(alloc, &comp.guard, &inner.guard)?;
        let item = inner.item.copy(alloc)?;
        push_comp(
            gathered,
            Comp {
                binders,
                guard,
                item,
            },
        )?;
    }
    Ok(())
}

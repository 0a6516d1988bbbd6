//! What contexts inside of a loop come to outside.

ghost use Rattle.std.specs.Prelude.{◌≡◌, ◌++◌, ◌≤◌, map, IfOk, OnOk};
ghost use Rattle.lois_base.specs.Over.{ConstraintIsOver};
ghost use Rattle.lois_base.specs.Tree.{comp_of};
ghost use Rattle.lois_context.specs.Choices.{AdmitsContext};
ghost use Rattle.lois_eval.specs.Folded.{outward, HasFoundToo};

use crate::joining::sought;
use lois_base::{Comp, Comps, Constraint, NoMemory, Structure};
use lois_constraint::or;
use lois_context::Context;
use lois_elim::for_some_more;
use std::alloc::Global;

/// Puts the comprehensions behind the others, each with `by` more binders in front of its own. Errors: `NoMemory`, also where a
/// count would pass the greatest usize.
pub(crate) fn put_outward(
    alloc: Global,
    comps: &mut Comps,
    more: &Comps,
    by: usize,
) -> Result<(), NoMemory>
    ensures { OnOk result (comps.new ≡ comps.old ++ map (outward by) more.now) }
{
    for comp in more.as_slice() {
        comps.push(moved(alloc, comp, by)?)?;
    }
    Ok(())
}

fn moved(alloc: Global, comp: &Comp, by: usize) -> Result<Comp, NoMemory>
    ensures { IfOk result (λ r. comp_of r ≡ outward by (comp_of comp.now)) }
{
    let Some(binders) = by.checked_add(comp.binders) else {
        return Err(NoMemory);
    };
    Ok(Comp {
        binders,
        guard: comp.guard.copy(alloc)?,
        item: comp.item.copy(alloc)?,
    })
}

/// Where the first holds, or the second has the wanted truth for some further atoms that the context admits.
pub(crate) fn found_too<T: Structure>(
    alloc: Global,
    found: Constraint,
    held: Constraint,
    wanted: bool,
    context: &Context,
    size: usize,
) -> Result<Constraint, NoMemory>
    requires longer { size ≤ context.now.size }
    requires over { ConstraintIsOver T.ordered context.now.size held }
    requires context_operators { AdmitsContext T.ordered context.now }
    ensures found { IfOk result (HasFoundToo context.now size wanted found held) }
{
    let there = sought(alloc, &context.when, &held, wanted)?;
    let one = for_some_more::<T>(alloc, there, size, context.size - size)?;
    Ok(or(alloc, &found, &one)?)
}

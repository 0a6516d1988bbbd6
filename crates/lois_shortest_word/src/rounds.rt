//! Rounds over the pairs of states that two automata reach side by side.

ghost use Rattle.std.specs.Prelude.{ℕ, Bool, IfOk, IfSome, IsNone, OnOk};
ghost use Rattle.lois_base.specs.Data.{coll, comps_of};
ghost use Rattle.lois_base.specs.Over.{CompIsOver, ItemsAreOver};
ghost use Rattle.lois_base.specs.Tree.{comp_of};
ghost use Rattle.lois_base.specs.Validity.{AdmitsItems, ItemsHaveBoundedWidths};
ghost use Rattle.lois_shortest_word.specs.Pairs.{AddsFresh, AreFresh};
ghost use Rattle.lois_shortest_word.specs.Rounds.{IsRound, IsLastRound, AdmitsReached, HasReachedLevels};

use crate::joint_steps::joint_steps;
use lois_algebra::{push_comp, union};
use lois_automata::{Projection, project_steps};
use lois_base::{Comp, Comps, NoMemory, Structure, Term};
use lois_constraint::and_not;
use lois_elim::quantifier_free;
use lois_relate::item_formula;
use std::alloc::Global;

/// The pairs that are reached, those of them that the last round found, and the steps from the others.
#[derive(Drop)]
pub struct Reached {
    pub steps: Comps,
    pub seen: Comps,
    pub frontier: Comps,
}

// Puts what is new of the members into the set `seen`, and answers it.
fn take_fresh<T: Structure>(
    alloc: Global,
    seen: &mut Comps,
    members: &Comps,
    size: usize,
) -> Result<Comps, NoMemory>
    requires over { ItemsAreOver T.ordered size (comps_of members.now) }
    requires seen { ItemsAreOver T.ordered size (comps_of seen.now) }
    ensures { IfOk result (λ r. AreFresh size (comps_of members.now) (comps_of seen.old) (comps_of seen.new) (comps_of r)) }
{
    let mut fresh = Comps::new(alloc);
    for comp in members.as_slice() {
        add_fresh::<T>(alloc, seen, &mut fresh, comp, size)?;
    }
    Ok(fresh)
}

fn add_fresh<T: Structure>(
    alloc: Global,
    seen: &mut Comps,
    fresh: &mut Comps,
    comp: &Comp,
    size: usize,
) -> Result<(), NoMemory>
    requires over { CompIsOver T.ordered size (comp_of comp.now) }
    requires seen { ItemsAreOver T.ordered size (comps_of seen.now) }
    ensures { OnOk result (AddsFresh size (comp_of comp.now) (comps_of seen.old) (comps_of fresh.old) (comps_of seen.new) (comps_of fresh.new)) }
{
    let formula = item_formula(alloc, &comp.item, seen.as_slice(), size, comp.binders)?;
    let found = quantifier_free::<T>(alloc, &formula, size + comp.binders)?;
    let guard = and_not(alloc, &comp.guard, &found)?;
    let rest = Comp {
        binders: comp.binders,
        guard,
        item: comp.item.copy(alloc)?,
    };
    let copied = rest.copy(alloc)?;
    push_comp(seen, rest)?;
    push_comp(fresh, copied)
}

/// What is reached by one more step, or `None` where that is nothing new.
pub fn next_round<T: Structure>(
    alloc: Global,
    reached: Reached,
    one: &Comps,
    other: &Comps,
    size: usize,
) -> Result<Option<Reached>, NoMemory>
    requires levels { HasReachedLevels size reached }
    requires operators { AdmitsReached T.ordered reached }
    requires first { ItemsAreOver T.ordered size (comps_of one.now) }
    requires second { ItemsAreOver T.ordered size (comps_of other.now) }
    ensures some { IfOk result (λ o. IfSome o (IsRound size (coll (comps_of one.now)) (coll (comps_of other.now)) reached)) }
    ensures none { IfOk result (λ o. IsNone o → IsLastRound size (coll (comps_of one.now)) (coll (comps_of other.now)) reached) }
    ensures levels { IfOk result (λ o. IfSome o (HasReachedLevels size)) }
    ensures operators { IfOk result (λ o. IfSome o (λ r. (o : Bool) → AdmitsReached o reached → AdmitsItems o (comps_of one.now) → AdmitsItems o (comps_of other.now) → AdmitsReached o r)) }
    ensures widths { IfOk result (λ o. IfSome o (λ r. ItemsHaveBoundedWidths (comps_of one.now) → ItemsHaveBoundedWidths (comps_of other.now) → ItemsHaveBoundedWidths (comps_of reached.steps) → ItemsHaveBoundedWidths (comps_of r.steps))) }
{
    let Reached {
        steps,
        seen,
        frontier,
    } = reached;
    let further = joint_steps::<T>(alloc, &frontier, one, other, size)?;
    let Term::Coll(targets) = project_steps(alloc, &further, Projection::Target)? else {
        unreachable!()
    };
    let mut all = seen;
    let fresh = take_fresh::<T>(alloc, &mut all, &targets, size)?;
    if fresh.len() == 0 {
        return Ok(None);
    }
    let before = Term::Coll(steps);
    let after = Term::Coll(further);
    let Term::Coll(whole) = union(alloc, &before, &after)? else {
        unreachable!()
    };
    Ok(Some(Reached {
        steps: whole,
        seen: all,
        frontier: fresh,
    }))
}

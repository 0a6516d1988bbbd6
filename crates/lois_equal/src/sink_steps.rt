//! Steps to a sink, for states and letters that have no step.

ghost use Rattle.std.specs.Prelude.{◌≡◌, ℕ, ◌+◌, Bool, List, length, IfOk, OnOk};
ghost use Rattle.lois_base.specs.Atom.{Atom};
ghost use Rattle.lois_base.specs.Data.{coll, comps_of};
ghost use Rattle.lois_base.specs.Fits.{Fits, ItemsFit};
ghost use Rattle.lois_base.specs.Over.{IsOver, CompIsOver, ItemsAreOver};
ghost use Rattle.lois_base.specs.Tree.{tree, comp_of};
ghost use Rattle.lois_base.specs.Validity.{AdmitsTerm, AdmitsItems, HasBoundedWidths, ItemsHaveBoundedWidths};
ghost use Rattle.lois_base.specs.Values.{point};
ghost use Rattle.lois_terms.specs.Collections.{IsColl};
ghost use Rattle.lois_equal.specs.Completed.{AreTotal, AddsSinkSteps, LeadToSink};

use lois_algebra::{push_comp, union};
use lois_automata::{
    Projection, insert_levels, membership, pair_parts, pairs, project_steps, triple,
};
use lois_base::{Comp, Comps, NoMemory, Structure, Term};
use lois_constraint::{meet, negate};
use std::alloc::Global;

/// The steps, and one to the sink for each state and letter that have none.
pub fn total_steps<T: Structure>(
    alloc: Global,
    states: &Comps,
    letters: &Comps,
    steps: &Comps,
    sink: &Term,
    size: usize,
) -> Result<Term, NoMemory>
    requires states { ItemsAreOver T.ordered size (comps_of states.now) }
    requires letters { ItemsAreOver T.ordered size (comps_of letters.now) }
    requires steps { ItemsAreOver T.ordered size (comps_of steps.now) }
    requires sink { Fits size (tree sink.now) }
    ensures total { IfOk result (λ r. (c : List Atom) → length c ≡ size → AreTotal (point (coll (comps_of states.now)) c) (point (coll (comps_of letters.now)) c) (point (coll (comps_of steps.now)) c) (point (tree sink.now) c) (point (tree r) c)) }
    ensures set { IfOk result (λ r. IsColl (tree r)) }
    ensures levels { IfOk result (λ r. Fits size (tree r)) }
    ensures operators { IfOk result (λ r. (o : Bool) → AdmitsItems o (comps_of states.now) → AdmitsItems o (comps_of letters.now) → AdmitsItems o (comps_of steps.now) → AdmitsTerm o (tree sink.now) → AdmitsTerm o (tree r)) }
    ensures widths { IfOk result (λ r. ItemsHaveBoundedWidths (comps_of states.now) → ItemsHaveBoundedWidths (comps_of letters.now) → ItemsHaveBoundedWidths (comps_of steps.now) → HasBoundedWidths (tree sink.now) → HasBoundedWidths (tree r)) }
{
    let Term::Coll(wanted) = pairs(alloc, states, letters, size)? else {
        unreachable!()
    };
    let there = project_steps(alloc, steps, Projection::Outgoing)?;
    let others = steps_to_sink::<T>(alloc, &wanted, &there, sink, size)?;
    let all = Term::Coll(steps.copy(alloc)?);
    let more = Term::Coll(others);
    union(alloc, &all, &more)
}

// What leads by the pairs of a set to the sink, but for the pairs that are in the set `there`.
fn steps_to_sink<T: Structure>(
    alloc: Global,
    pairs: &Comps,
    there: &Term,
    sink: &Term,
    size: usize,
) -> Result<Comps, NoMemory>
    requires pairs { ItemsAreOver T.ordered size (comps_of pairs.now) }
    requires there { IsOver T.ordered size (tree there.now) }
    requires there_set { IsColl (tree there.now) }
    requires sink { Fits size (tree sink.now) }
    ensures led { IfOk result (λ r. (c : List Atom) → length c ≡ size → LeadToSink (point (coll (comps_of pairs.now)) c) (point (tree there.now) c) (point (tree sink.now) c) (point (coll (comps_of r)) c)) }
    ensures levels { IfOk result (λ r. ItemsFit size (comps_of r)) }
    ensures operators { IfOk result (λ r. (o : Bool) → AdmitsItems o (comps_of pairs.now) → AdmitsTerm o (tree there.now) → AdmitsTerm o (tree sink.now) → AdmitsItems o (comps_of r)) }
    ensures widths { IfOk result (λ r. ItemsHaveBoundedWidths (comps_of pairs.now) → HasBoundedWidths (tree sink.now) → ItemsHaveBoundedWidths (comps_of r)) }
{
    let mut made = Comps::new(alloc);
    for comp in pairs.as_slice() {
        add_step_to_sink::<T>(alloc, &mut made, comp, there, sink, size)?;
    }
    Ok(made)
}

// One membership decides for each pair whether it is in the set or leads to the sink.
fn add_step_to_sink<T: Structure>(
    alloc: Global,
    made: &mut Comps,
    comp: &Comp,
    there: &Term,
    sink: &Term,
    size: usize,
) -> Result<(), NoMemory>
    requires over { CompIsOver T.ordered size (comp_of comp.now) }
    requires there { IsOver T.ordered size (tree there.now) }
    requires there_set { IsColl (tree there.now) }
    requires sink { Fits size (tree sink.now) }
    ensures { OnOk result (AddsSinkSteps size (comp_of comp.now) (tree there.now) (tree sink.now) (comps_of made.old) (comps_of made.new)) }
{
    let Some((state, letter)) = pair_parts(&comp.item) else {
        return Ok(());
    };
    let found = membership::<T>(alloc, &comp.item, there, size, comp.binders)?;
    let missing = negate(alloc, &found)?;
    let guard = meet(alloc, &comp.guard, &missing)?;
    let target = insert_levels(alloc, sink, size, comp.binders)?;
    let item = triple(alloc, state, letter, &target)?;
    push_comp(
        made,
        Comp {
            binders: comp.binders,
            guard,
            item,
        },
    )
}

//! Whether two automata reach a pair of accepting states side by side, and the steps that lead there.

ghost use Rattle.std.specs.Prelude.{◌≡◌, ℕ, ◌+◌, ◌<◌, ◌^◌, Bool, IfOk, IfSome, IsNone, OnOk};
ghost use Rattle.lois_base.specs.Data.{coll, comps_of, no_comps};
ghost use Rattle.lois_base.specs.Fits.{ConstraintFits, ItemsFit};
ghost use Rattle.lois_base.specs.Over.{CompIsOver, ItemsAreOver};
ghost use Rattle.lois_base.specs.Tree.{tree, comp_of};
ghost use Rattle.lois_base.specs.Validity.{AdmitsItems, ItemsHaveBoundedWidths};
ghost use Rattle.lois_automata.specs.Built.{ArePairs};
ghost use Rattle.lois_automata.specs.FiveSets.{automaton_of};
ghost use Rattle.lois_automata.specs.Projections.{automaton_at};
ghost use Rattle.lois_deciders.specs.OnlyAsked.{HasOnlyAsked};
ghost use Rattle.lois_shortest_word.specs.Layers.{IsReadable};
ghost use Rattle.lois_shortest_word.specs.Pairs.{AddsCommon, AreCommon};
ghost use Rattle.lois_shortest_word.specs.Rounds.{LeadsToCommon, HaveNoCommonWord};

use crate::rounds::{Reached, next_round};
use crate::symbolic_states::initial_state;
use lois_algebra::push_comp;
use lois_automata::{FiveSets, membership, pair_parts};
use lois_base::{Comp, Comps, Constraint, Decider, NoMemory, Structure, Term};
use lois_constraint::meet;
use lois_deciders::Chosen;
use std::alloc::Global;

/// Steps of two automata side by side from reached pairs, and reached pairs at which both accept.
#[derive(Drop)]
pub struct Meeting {
    pub steps: Comps,
    pub common: Comps,
}

/// The first round that reaches a pair of accepting states from the set `starts`, at a choice that `under` admits, or `None` where
/// no round does. A round looks at steps from what the one before it found. The search is proved to end since rounds are counted.
pub fn first_meeting<T: Structure>(
    alloc: Global,
    starts: &Comps,
    one: FiveSets<'_>,
    other: FiveSets<'_>,
    under: &Constraint,
    size: usize,
    chosen: &mut Chosen,
) -> Result<Option<Meeting>, NoMemory>
    requires starts { ItemsAreOver T.ordered size (comps_of starts.now) }
    requires pairs { ArePairs size (coll (comps_of one.initial.now)) (coll (comps_of other.initial.now)) (coll (comps_of starts.now)) }
    requires steps { ItemsAreOver T.ordered size (comps_of one.steps.now) }
    requires accepting { ItemsAreOver T.ordered size (comps_of one.accepting.now) }
    requires other_steps { ItemsAreOver T.ordered size (comps_of other.steps.now) }
    requires other_accepting { ItemsAreOver T.ordered size (comps_of other.accepting.now) }
    requires under { ConstraintFits size under.now }
    ensures some { IfOk result (λ o. IfSome o (λ r. LeadsToCommon size under.now (automaton_of one.entry) (automaton_of other.entry) (automaton_at no_comps no_comps (comps_of r.steps) (comps_of starts.now) (comps_of r.common)))) }
    ensures none { IfOk result (λ o. IsNone o → HaveNoCommonWord size under.now (automaton_of one.entry) (automaton_of other.entry)) }
    ensures levels { IfOk result (λ o. IfSome o (λ r. ItemsFit size (comps_of r.steps) × ItemsFit size (comps_of r.common))) }
    ensures common_operators { IfOk result (λ o. IfSome o (λ r. AdmitsItems T.ordered (comps_of r.common))) }
    ensures operators { IfOk result (λ o. IfSome o (λ r. (o : Bool) → AdmitsItems o (comps_of starts.now) → AdmitsItems o (comps_of one.entry.steps.now) → AdmitsItems o (comps_of other.entry.steps.now) → AdmitsItems o (comps_of r.steps))) }
    ensures widths { IfOk result (λ o. IfSome o (λ r. ItemsHaveBoundedWidths (comps_of one.entry.steps.now) → ItemsHaveBoundedWidths (comps_of other.entry.steps.now) → ItemsHaveBoundedWidths (comps_of r.steps))) }
    ensures only_asked { HasOnlyAsked (λ b. (⟦<dyn Decider as Decider>⟧ b.vtable).kind_of b.value) (λ b. (⟦<dyn Decider as Decider>⟧ b.vtable).questions b.value) chosen.old chosen.new }
{
    let seen = starts.copy(alloc)?;
    let frontier = starts.copy(alloc)?;
    let mut reached = Reached {
        steps: Comps::new(alloc),
        seen,
        frontier,
    };
    let mut count: usize = 0;
    'rounds: loop {
        let mine = Term::Coll(one.accepting.copy(alloc)?);
        let others = Term::Coll(other.accepting.copy(alloc)?);
        let common = common_pairs::<T>(alloc, &reached.frontier, &mine, &others, size)?;
        let layer = Term::Coll(common.copy(alloc)?);
        if let Some(_stage) = initial_state::<T>(alloc, &common, &layer, under, size, chosen)? {
            return Ok(Some(Meeting {
                steps: reached.steps,
                common,
            }));
        }
        let Some(next) = next_round::<T>(alloc, reached, one.steps, other.steps, size)? else {
            return Ok(None);
        };
        if count == usize::MAX {
            return Err(NoMemory);
        }
        count += 1;
        reached = next;
    }
}

// The members of the set `pairs` whose first part is in the one set, and whose second part is in the other.
fn common_pairs<T: Structure>(
    alloc: Global,
    pairs: &Comps,
    one: &Term,
    other: &Term,
    size: usize,
) -> Result<Comps, NoMemory>
    requires over { ItemsAreOver T.ordered size (comps_of pairs.now) }
    requires first { IsReadable T.ordered size (tree one.now) }
    requires second { IsReadable T.ordered size (tree other.now) }
    ensures members { IfOk result (λ r. AreCommon size (coll (comps_of pairs.now)) (tree one.now) (tree other.now) (coll (comps_of r))) }
    ensures levels { IfOk result (λ r. ItemsFit size (comps_of r)) }
    ensures operators { IfOk result (λ r. AdmitsItems T.ordered (comps_of r)) }
{
    let mut made = Comps::new(alloc);
    for comp in pairs.as_slice() {
        add_common::<T>(alloc, &mut made, comp, one, other, size)?;
    }
    Ok(made)
}

fn add_common<T: Structure>(
    alloc: Global,
    made: &mut Comps,
    comp: &Comp,
    one: &Term,
    other: &Term,
    size: usize,
) -> Result<(), NoMemory>
    requires over { CompIsOver T.ordered size (comp_of comp.now) }
    requires first { IsReadable T.ordered size (tree one.now) }
    requires second { IsReadable T.ordered size (tree other.now) }
    ensures { OnOk result (AddsCommon size (comp_of comp.now) (tree one.now) (tree other.now) (comps_of made.old) (comps_of made.new)) }
{
    let Some((first, second)) = pair_parts(&comp.item) else {
        return Ok(());
    };
    let here = membership::<T>(alloc, first, one, size, comp.binders)?;
    let there = membership::<T>(alloc, second, other, size, comp.binders)?;
    let both = meet(alloc, &here, &there)?;
    let guard = meet(alloc, &comp.guard, &both)?;
    let item = comp.item.copy(alloc)?;
    push_comp(
        made,
        Comp {
            binders: comp.binders,
            guard,
            item,
        },
    )
}

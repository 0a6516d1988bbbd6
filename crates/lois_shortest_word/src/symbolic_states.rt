//! Stages: where a word has come to.

ghost use Rattle.std.specs.Prelude.{◌≡◌, ℕ, Bool, IfOk, IfSome, IsNone};
ghost use Rattle.lois_base.specs.Data.{comps_of};
ghost use Rattle.lois_base.specs.Fits.{ConstraintFits};
ghost use Rattle.lois_base.specs.Over.{CompIsOver, ItemsAreOver};
ghost use Rattle.lois_base.specs.Tree.{tree, comp_of};
ghost use Rattle.lois_base.specs.Validity.{AdmitsTerm};
ghost use Rattle.lois_algebra.specs.Gathered.{IsAmong, IsCompMember};
ghost use Rattle.lois_deciders.specs.OnlyAsked.{HasOnlyAsked};
ghost use Rattle.lois_shortest_word.specs.Layers.{IsReadable};
ghost use Rattle.lois_shortest_word.specs.SymbolicStates.{IsInitialSymbolicState, HasNoInitialState};

use crate::narrowing::satisfiable_cube;
use lois_automata::membership;
use lois_base::{Comp, Comps, Constraint, Decider, NoMemory, Numbers, Structure, Term};
use lois_constraint::meet;
use lois_deciders::Chosen;
use std::alloc::Global;

/// A state where a constraint holds, which has `more` levels behind those of the automaton, and numbers that meet it.
#[derive(Drop)]
pub struct SymbolicState {
    pub more: usize,
    pub admitted: Constraint,
    pub state: Term,
    pub sample: Numbers,
}

/// A stage at an initial state that is in the set `layer`, at choices that `under` admits, or `None` where there is none at
/// any.
pub fn initial_state<T: Structure>(
    alloc: Global,
    starts: &Comps,
    layer: &Term,
    under: &Constraint,
    size: usize,
    chosen: &mut Chosen,
) -> Result<Option<SymbolicState>, NoMemory>
    requires over { ItemsAreOver T.ordered size (comps_of starts.now) }
    requires layer { IsReadable T.ordered size (tree layer.now) }
    requires under { ConstraintFits size under.now }
    ensures some { IfOk result (λ o. IfSome o (IsInitialSymbolicState size under.now (IsAmong (comps_of starts.now)) (tree layer.now))) }
    ensures none { IfOk result (λ o. IsNone o → HasNoInitialState size under.now (IsAmong (comps_of starts.now)) (tree layer.now)) }
    ensures operators { IfOk result (λ o. IfSome o (λ s. AdmitsTerm T.ordered (tree s.state))) }
    ensures only_asked { HasOnlyAsked (λ b. (⟦<dyn Decider as Decider>⟧ b.vtable).kind_of b.value) (λ b. (⟦<dyn Decider as Decider>⟧ b.vtable).questions b.value) chosen.old chosen.new }
{
    for comp in starts.as_slice() {
        if let Some(stage) = begun_by::<T>(alloc, comp, layer, under, size, chosen)? {
            return Ok(Some(stage));
        }
    }
    Ok(None)
}

fn begun_by<T: Structure>(
    alloc: Global,
    comp: &Comp,
    layer: &Term,
    under: &Constraint,
    size: usize,
    chosen: &mut Chosen,
) -> Result<Option<SymbolicState>, NoMemory>
    requires over { CompIsOver T.ordered size (comp_of comp.now) }
    requires layer { IsReadable T.ordered size (tree layer.now) }
    requires under { ConstraintFits size under.now }
    ensures some { IfOk result (λ o. IfSome o (IsInitialSymbolicState size under.now (IsCompMember (comp_of comp.now)) (tree layer.now))) }
    ensures none { IfOk result (λ o. IsNone o → HasNoInitialState size under.now (IsCompMember (comp_of comp.now)) (tree layer.now)) }
    ensures operators { IfOk result (λ o. IfSome o (λ s. AdmitsTerm T.ordered (tree s.state))) }
    ensures only_asked { HasOnlyAsked (λ b. (⟦<dyn Decider as Decider>⟧ b.vtable).kind_of b.value) (λ b. (⟦<dyn Decider as Decider>⟧ b.vtable).questions b.value) chosen.old chosen.new }
{
    let found = membership::<T>(alloc, &comp.item, layer, size, comp.binders)?;
    let admitted = meet(alloc, under, &comp.guard)?;
    let wanted = meet(alloc, &admitted, &found)?;
    let Some(met) = satisfiable_cube(alloc, &wanted, size + comp.binders, chosen)? else {
        return Ok(None);
    };
    let state = comp.item.copy(alloc)?;
    Ok(Some(SymbolicState {
        more: comp.binders,
        admitted: met.constraint,
        state,
        sample: met.sample,
    }))
}

//! Steps from one stage to the next.

ghost use Rattle.std.specs.Prelude.{◌≡◌, ℕ, ◌+◌, ◌<◌, ◌^◌, Bool, IfOk, IfSome, IsNone};
ghost use Rattle.lois_base.specs.Data.{comps_of};
ghost use Rattle.lois_base.specs.Fits.{ConstraintFits};
ghost use Rattle.lois_base.specs.Over.{IsOver, CompIsOver, ItemsAreOver};
ghost use Rattle.lois_base.specs.Tree.{tree, comp_of};
ghost use Rattle.lois_base.specs.Validity.{AdmitsTerm, AdmitsComp, AdmitsItems, HasBoundedWidths, CompHasBoundedWidths, ItemsHaveBoundedWidths};
ghost use Rattle.lois_algebra.specs.Gathered.{IsAmong, IsCompMember};
ghost use Rattle.lois_deciders.specs.OnlyAsked.{HasOnlyAsked};
ghost use Rattle.lois_shortest_word.specs.Layers.{IsReadable};
ghost use Rattle.lois_shortest_word.specs.SymbolicStates.{IsSymbolicState};
ghost use Rattle.lois_shortest_word.specs.Steps.{HoldsWhereAdvancing, IsSymbolicStep, NeverAdvances};

use crate::narrowing::satisfiable_cube;
use crate::symbolic_states::SymbolicState;
use lois_automata::{Step, insert_levels, membership, step_parts, where_same};
use lois_base::{Comp, Comps, Constraint, Decider, NoMemory, Structure, Term};
use lois_constraint::meet;
use lois_deciders::Chosen;
use lois_terms::instantiate;
use std::alloc::Global;

/// A letter, and the stage that a step with it leads to.
#[derive(Drop)]
pub struct SymbolicStep {
    pub letter: Term,
    pub stage: SymbolicState,
}

/// A step from the state of the stage to a member of the set `layer`, or `None` where there is none at any choice that the
/// stage admits.
pub fn step_from<T: Structure>(
    alloc: Global,
    stage: &SymbolicState,
    steps: &Comps,
    layer: &Term,
    size: usize,
    chosen: &mut Chosen,
) -> Result<Option<SymbolicStep>, NoMemory>
    requires stage { IsSymbolicState size stage.now }
    requires state_operators { AdmitsTerm T.ordered (tree stage.now.state) }
    requires over { ItemsAreOver T.ordered size (comps_of steps.now) }
    requires layer { IsReadable T.ordered size (tree layer.now) }
    ensures some { IfOk result (λ o. IfSome o (IsSymbolicStep size stage.now (IsAmong (comps_of steps.now)) (tree layer.now))) }
    ensures none { IfOk result (λ o. IsNone o → NeverAdvances size stage.now (IsAmong (comps_of steps.now)) (tree layer.now)) }
    ensures operators { IfOk result (λ o. IfSome o (λ r. (o : Bool) → AdmitsItems o (comps_of steps.now) → AdmitsTerm o (tree r.letter))) }
    ensures state_operators { IfOk result (λ o. IfSome o (λ r. AdmitsTerm T.ordered (tree r.stage.state))) }
    ensures widths { IfOk result (λ o. IfSome o (λ r. ItemsHaveBoundedWidths (comps_of steps.now) → HasBoundedWidths (tree r.letter))) }
    ensures only_asked { HasOnlyAsked (λ b. (⟦<dyn Decider as Decider>⟧ b.vtable).kind_of b.value) (λ b. (⟦<dyn Decider as Decider>⟧ b.vtable).questions b.value) chosen.old chosen.new }
{
    for comp in steps.as_slice() {
        if let Some(step) = step_by::<T>(alloc, stage, comp, layer, size, chosen)? {
            return Ok(Some(step));
        }
    }
    Ok(None)
}

fn step_by<T: Structure>(
    alloc: Global,
    stage: &SymbolicState,
    comp: &Comp,
    layer: &Term,
    size: usize,
    chosen: &mut Chosen,
) -> Result<Option<SymbolicStep>, NoMemory>
    requires stage { IsSymbolicState size stage.now }
    requires state_operators { AdmitsTerm T.ordered (tree stage.now.state) }
    requires over { CompIsOver T.ordered size (comp_of comp.now) }
    requires layer { IsReadable T.ordered size (tree layer.now) }
    ensures some { IfOk result (λ o. IfSome o (IsSymbolicStep size stage.now (IsCompMember (comp_of comp.now)) (tree layer.now))) }
    ensures none { IfOk result (λ o. IsNone o → NeverAdvances size stage.now (IsCompMember (comp_of comp.now)) (tree layer.now)) }
    ensures operators { IfOk result (λ o. IfSome o (λ r. (o : Bool) → AdmitsComp o (comp_of comp.now) → AdmitsTerm o (tree r.letter))) }
    ensures state_operators { IfOk result (λ o. IfSome o (λ r. AdmitsTerm T.ordered (tree r.stage.state))) }
    ensures widths { IfOk result (λ o. IfSome o (λ r. CompHasBoundedWidths (comp_of comp.now) → HasBoundedWidths (tree r.letter))) }
    ensures only_asked { HasOnlyAsked (λ b. (⟦<dyn Decider as Decider>⟧ b.vtable).kind_of b.value) (λ b. (⟦<dyn Decider as Decider>⟧ b.vtable).questions b.value) chosen.old chosen.new }
{
    let at = size + stage.more;
    if !comp.fits(at) {
        return Err(NoMemory);
    }
    let placed = instantiate(alloc, comp, size, at)?;
    let Some(step) = step_parts(&placed.item) else {
        return Ok(None);
    };
    let wanted = where_going::<T>(alloc, stage, &placed.guard, step, layer, size, comp.binders)?;
    let Some(met) = satisfiable_cube(alloc, &wanted, at + comp.binders, chosen)? else {
        return Ok(None);
    };
    let letter = step.letter.copy(alloc)?;
    let state = step.target.copy(alloc)?;
    Ok(Some(SymbolicStep {
        letter,
        stage: SymbolicState {
            more: stage.more + comp.binders,
            admitted: met.constraint,
            state,
            sample: met.sample,
        },
    }))
}

// Where the stage and the guard admit the choice, the step begins at the state, and it ends in the set `layer`.
fn where_going<T: Structure>(
    alloc: Global,
    stage: &SymbolicState,
    guard: &Constraint,
    step: Step<'_>,
    layer: &Term,
    size: usize,
    binders: usize,
) -> Result<Constraint, NoMemory>
    requires stage { IsSymbolicState size stage.now }
    requires state_operators { AdmitsTerm T.ordered (tree stage.now.state) }
    requires count { size + stage.now.more + binders < 2 ^ 64 }
    requires guard { ConstraintFits (size + stage.now.more + binders) guard.now }
    requires source { IsOver T.ordered (size + stage.now.more + binders) (tree step.source.now) }
    requires target { IsOver T.ordered (size + stage.now.more + binders) (tree step.target.now) }
    requires layer { IsReadable T.ordered size (tree layer.now) }
    ensures truth { IfOk result (HoldsWhereAdvancing size stage.now.more binders stage.now.admitted guard.now (tree stage.now.state) (tree step.entry.source.now) (tree step.entry.target.now) (tree layer.now)) }
    ensures levels { IfOk result (ConstraintFits (size + stage.now.more + binders)) }
{
    let at = size + stage.more;
    let state = insert_levels(alloc, &stage.state, at, binders)?;
    let begins = where_same::<T>(alloc, step.source, &state, at + binders)?;
    let ends = membership::<T>(alloc, step.target, layer, size, stage.more + binders)?;
    let admitted = meet(alloc, &stage.admitted, guard)?;
    let joins = meet(alloc, &begins, &ends)?;
    meet(alloc, &admitted, &joins)
}

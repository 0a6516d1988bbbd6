//! Whole scripts.

ghost use Rattle.std.specs.Prelude.{◌≡◌, ℕ, List, length, map, bytes_eq, IfOk, IfErr};
ghost use Rattle.std.specs.List.{IsDistinct};
ghost use Rattle.lois_deciders.specs.OnlyAsked.{HasOnlyAsked};
ghost use Rattle.lois_script.specs.Limits.{Spells};
ghost use Rattle.lois_script.specs.View.{params_list, script_tree, stmts_list, stmts_of};
ghost use Rattle.lois_eval.specs.Throughout.{IfFault};
ghost use Rattle.lois_eval.specs.WellFormed.{IsWellFormedIn};
ghost use Rattle.lois_interp.specs.Failed.{FailsBehind};
ghost use Rattle.lois_interp.specs.Interpreted.{AreResultsOf, parameter_name};
ghost use Rattle.lois_interp.specs.Failures.{ScriptFailsNowhere, IsFailureOf};
ghost use Rattle.lois_interp.specs.Opened.{IsOpening, opening_slots};
ghost use Rattle.lois_interp.specs.Reached.{RunsAs};
ghost use Rattle.lois_interp.specs.Retold.{AreJoined};
ghost use Rattle.lois_interp.specs.Run.{block_run};
ghost use Rattle.lois_interp.specs.Split.{IsSplitFrom};
ghost use Rattle.lois_interp.specs.WellScoped.{BlockIsWellScoped};

use crate::cases::results;
use crate::failures::split_stop;
use crate::printing::all_printed;
use crate::retelling::{retold, with_short_conditions};
use crate::running::run_block;
use lois_answers::{Lines, Results};
use lois_base::{Constraint, Decider, NoMemory, Numbers, Structure, Term};
use lois_context::{Context, Shared, Slot, Store, merge_equal};
use lois_deciders::Chosen;
use lois_meaning::Stop;
use lois_scope::Scoped;
use lois_script::{Params, Stmts};
use std::alloc::Global;

/// Runs a script at all choices of its parameters. At each choice exactly one case of the results holds, and its lines are those
/// that the script prints there. Constraints and guards are normalised, and one that always holds under what surrounds it is `true`.
/// Each term is normal under its case, and no two cases have equal lines. No `<=` is in results, nor in the elements of a fault. Ok
/// comes exactly where no choice fails. Errors: a fault at some choice, of a statement before which all others end at every choice,
/// and `NoMemory`, also where a level would pass the greatest usize.
pub fn interpret<T: Structure>(
    alloc: Global,
    script: &Scoped,
    chosen: &mut Chosen,
) -> Result<Results, Stop>
    requires spelled { (text : List ℕ) × Spells text (script_tree script.now) }
    requires structure { (script_tree script.now).ordered ≡ T.ordered }
    ensures results { IfOk result (AreResultsOf (script_tree script.now)) }
    ensures nowhere { IfOk result (λ r. ScriptFailsNowhere (script_tree script.now)) }
    ensures fault { IfErr result (λ s. IfFault s (IsFailureOf (script_tree script.now))) }

    // whatever is answered
    ensures only_asked { HasOnlyAsked (λ b. (⟦<dyn Decider as Decider>⟧ b.vtable).kind_of b.value) (λ b. (⟦<dyn Decider as Decider>⟧ b.vtable).questions b.value) chosen.old chosen.new }
{
    let script = script.script();
    let opening = opening(alloc, &script.parameters)?;
    let ends = run_body::<T>(alloc, &script.body, opening, chosen)?;
    let told = retold::<T>(alloc, ends, chosen)?;
    let joined = joined(alloc, told)?;
    let printed = all_printed::<T>(alloc, joined, chosen)?;
    let merged = merge_equal(alloc, printed)?;
    Ok(results(alloc, script, merged)?)
}

// Contexts that hold the same are merged. Where there are fewer then, their conditions are made short, since lines are simplified
// under them.
fn joined(alloc: Global, contexts: Vec<Context>) -> Result<Vec<Context>, NoMemory>
    ensures { IfOk result (λ r. AreJoined contexts.items r.items) }
{
    let count = contexts.len();
    let merged = merge_equal(alloc, contexts)?;
    if merged.len() == count {
        return Ok(merged);
    }
    with_short_conditions(alloc, merged)
}

// The contexts in which the body ends. The elements of a fault are split.
fn run_body<T: Structure>(
    alloc: Global,
    body: &Stmts,
    opening: Context,
    chosen: &mut Chosen,
) -> Result<Vec<Context>, Stop>
    requires { IsWellFormedIn (BlockIsWellScoped (stmts_of (stmts_list body.now))) T.ordered opening }
    ensures runs { IfOk result (λ r. RunsAs (block_run (stmts_of (stmts_list body.now))) opening r.items) }
    ensures fault { IfErr result (λ s. IfFault s (IsSplitFrom (FailsBehind T.ordered (stmts_list body.now) opening))) }
    ensures only_asked { HasOnlyAsked (λ b. (⟦<dyn Decider as Decider>⟧ b.vtable).kind_of b.value) (λ b. (⟦<dyn Decider as Decider>⟧ b.vtable).questions b.value) chosen.old chosen.new }
{
    match run_block::<T>(alloc, body, opening, chosen) {
        Ok(ends) => Ok(ends),
        Err(stop) => Err(split_stop(alloc, stop)),
    }
}

// Nothing is known of the parameters, of which each holds a level of its own.
fn opening(alloc: Global, parameters: &Params) -> Result<Context, NoMemory>
    requires { IsDistinct bytes_eq (map parameter_name (params_list parameters.now)) }
    ensures { IfOk result (IsOpening (params_list parameters.now)) }
{
    let size = parameters.len();
    let lines = Shared::new(alloc, Lines::new(alloc))?;
    Ok(Context {
        size,
        when: Constraint::always(alloc)?,
        sample: zeros(alloc, size)?,
        store: opening_store(alloc, parameters)?,
        lines,
    })
}

fn opening_store(alloc: Global, parameters: &Params) -> Result<Store, NoMemory>
    ensures { IfOk result (λ r. r ≡ opening_slots (params_list parameters.now) 0) }
{
    let mut store = Store::new(alloc);
    for parameter in parameters.as_slice() {
        let level = store.len();
        let slot = Slot::new(alloc, parameter.name.copy(alloc)?, Term::Var(level), 0)?;
        store.push(slot)?;
    }
    Ok(store)
}

fn zeros(alloc: Global, count: usize) -> Result<Numbers, NoMemory>
    ensures { IfOk result (λ r. length r ≡ count) }
{
    let mut numbers = Numbers::new(alloc);
    for _place in 0..count {
        numbers.push(0)?;
    }
    Ok(numbers)
}

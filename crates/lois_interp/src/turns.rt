//! Contexts before and behind the turns of a loop.

ghost use Rattle.std.specs.Prelude.{IfOk, IfErr};
ghost use Rattle.std.specs.List.{All};
ghost use Rattle.lois_script.specs.View.{cond_tree};
ghost use Rattle.lois_eval.specs.WellFormed.{IsWellFormedIn};
ghost use Rattle.lois_eval.specs.Throughout.{IfFault};
ghost use Rattle.lois_interp.specs.Failed.{FailsWithin, FailsFrom};
ghost use Rattle.lois_interp.specs.Reached.{RunsFrom, RunsAs};
ghost use Rattle.lois_interp.specs.Run.{leave_run};
ghost use Rattle.lois_interp.specs.WellScoped.{CondIsWellScoped};

use crate::blocks::{append, put};
use crate::oracle::Oracle;
use lois_answers::FaultKind;
use lois_base::Structure;
use lois_context::{Context, Split};
use lois_eval::fault_under;
use lois_meaning::Stop;
use lois_script::{Cond, Pos};
use std::alloc::Global;

/// Those that have left a loop, and those behind its last turn.
#[derive(Drop)]
pub(crate) struct Turn {
    pub(crate) left: Vec<Context>,
    pub(crate) going: Vec<Context>,
}

/// Leaves the loop from each of the contexts, after as many turns as it may do.
pub(crate) fn leave_all<T: Structure, S: Oracle<T>>(
    alloc: Global,
    pos: Pos,
    condition: &Cond,
    contexts: Vec<Context>,
    steps: &mut S,
) -> Result<Vec<Context>, Stop>
    requires sound { S.sound }
    requires placed { All (IsWellFormedIn (CondIsWellScoped (cond_tree condition.now)) T.ordered) contexts.items }
    ensures runs { IfOk result (λ r. RunsFrom (leave_run pos.offset (cond_tree condition.now)) contexts.items r.items) }
    ensures fault { IfErr result (λ s. IfFault s (FailsFrom T.ordered (leave_run pos.offset (cond_tree condition.now)) contexts.items)) }
    ensures asked { S.reaches steps.old steps.new }
{
    let mut left = Vec::new(alloc);
    for context in contexts {
        let more = leave::<T, S>(alloc, pos, condition, context, steps)?;
        append(&mut left, more)?;
    }
    Ok(left)
}

// Leaves the loop from one context. Errors: a fault where the condition is true still.
fn leave<T: Structure, S: Oracle<T>>(
    alloc: Global,
    pos: Pos,
    condition: &Cond,
    context: Context,
    steps: &mut S,
) -> Result<Vec<Context>, Stop>
    requires sound { S.sound }
    requires placed { IsWellFormedIn (CondIsWellScoped (cond_tree condition.now)) T.ordered context }
    ensures runs { IfOk result (λ r. RunsAs (leave_run pos.offset (cond_tree condition.now)) context r.items) }
    ensures fault { IfErr result (λ s. IfFault s (FailsWithin T.ordered (leave_run pos.offset (cond_tree condition.now)) context)) }
    ensures asked { S.reaches steps.old steps.new }
{
    let sides = steps.sides(alloc, condition, context)?;
    let Split { yes, no } = sides;
    match yes {
        Some(still) => Err(fault_under(alloc, pos, FaultKind::TurnLimit, &still.sample)),
        None => {
            let mut left = Vec::new(alloc);
            put(&mut left, no)?;
            Ok(left)
        }
    }
}

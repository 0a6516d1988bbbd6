//! The sides of a context on which a condition is true and false.

ghost use Rattle.std.specs.Prelude.{IfOk, IfErr};
ghost use Rattle.lois_deciders.specs.OnlyAsked.{HasOnlyAsked};
ghost use Rattle.lois_meaning.specs.Faults.{CondFails};
ghost use Rattle.lois_script.specs.View.{cond_tree};
ghost use Rattle.lois_eval.specs.WellFormed.{IsWellFormedIn, CondIsWellFormed};
ghost use Rattle.lois_eval.specs.Throughout.{IsFaultOf, IfFault};
ghost use Rattle.lois_interp.specs.Decided.{IsDecided};

use lois_base::{Decider, Structure};
use lois_context::{Context, Split, split};
use lois_deciders::Chosen;
use lois_eval::decide;
use lois_meaning::Stop;
use lois_script::Cond;
use std::alloc::Global;

/// The sides on which a condition is true and false.
pub(crate) fn sides_of<T: Structure>(
    alloc: Global,
    condition: &Cond,
    context: Context,
    chosen: &mut Chosen,
) -> Result<Split, Stop>
    requires { IsWellFormedIn (CondIsWellFormed (cond_tree condition.now)) T.ordered context }
    ensures decided { IfOk result (IsDecided (cond_tree condition.now) context) }
    ensures fault { IfErr result (λ s. IfFault s (IsFaultOf T.ordered context (CondFails (cond_tree condition.now)))) }

    // whatever is answered
    ensures only_asked { HasOnlyAsked (λ b. (⟦<dyn Decider as Decider>⟧ b.vtable).kind_of b.value) (λ b. (⟦<dyn Decider as Decider>⟧ b.vtable).questions b.value) chosen.old chosen.new }
{
    let decided = decide::<T>(alloc, condition, &context, chosen)?;
    Ok(split(alloc, context, &decided, chosen)?)
}

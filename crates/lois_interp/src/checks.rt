//! What is asked of the values that a statement needs.

ghost use Rattle.std.specs.Prelude.{◌≡◌, List, OnOk, IfErr};
ghost use Rattle.lois_base.specs.Atom.{Atom};
ghost use Rattle.lois_base.specs.Over.{IsOver};
ghost use Rattle.lois_base.specs.Tree.{tree};
ghost use Rattle.lois_base.specs.Values.{point};
ghost use Rattle.lois_deciders.specs.OnlyAsked.{HasOnlyAsked};
ghost use Rattle.lois_meaning.specs.Store.{IsShallow};
ghost use Rattle.lois_context.specs.Choices.{IsAdmitted};
ghost use Rattle.lois_eval.specs.Checks.{IsDepthFault};
ghost use Rattle.lois_eval.specs.Throughout.{IfFault};

use lois_answers::FaultKind;
use lois_base::limits::GREATEST_DEPTH;
use lois_base::{Decider, Structure};
use lois_context::{Content, Context};
use lois_deciders::Chosen;
use lois_eval::{fault, too_deep};
use lois_meaning::Stop;
use lois_script::Pos;
use std::alloc::Global;

/// Errors: a fault at the place where the value of the term is too deep at some choice that the context admits.
pub(crate) fn check_depth<T: Structure>(
    alloc: Global,
    pos: Pos,
    term: &Content,
    context: &Context,
    chosen: &mut Chosen,
) -> Result<(), Stop>
    requires over { IsOver T.ordered context.now.size (tree term.now) }
    ensures shallow { OnOk result ((c : List Atom) → IsAdmitted c context.now → IsShallow (point (tree term.now) c)) }
    ensures fault { IfErr result (λ s. IfFault s (IsDepthFault T.ordered context.now (tree term.now) pos.offset)) }

    // whatever is answered
    ensures only_asked { HasOnlyAsked (λ b. (⟦<dyn Decider as Decider>⟧ b.vtable).kind_of b.value) (λ b. (⟦<dyn Decider as Decider>⟧ b.vtable).questions b.value) chosen.old chosen.new }
{
    if term.is_within_depth(GREATEST_DEPTH) {
        return Ok(());
    }
    let whole = term.whole(alloc)?;
    let deep = too_deep::<T>(alloc, whole.get(), context.size)?;
    match chosen.meet(alloc, &context.when, &deep, context.size)? {
        Some(met) => Err(fault(alloc, pos, FaultKind::DepthLimit, met.sample.into_vec())),
        None => Ok(()),
    }
}

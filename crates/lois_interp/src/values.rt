//! The values of expressions as they are kept: as normal terms.

ghost use Rattle.std.specs.Prelude.{◌≤◌, Bool, IfOk, IfErr};
ghost use Rattle.lois_base.specs.Data.{depth};
ghost use Rattle.lois_base.specs.Fits.{Fits};
ghost use Rattle.lois_base.specs.Normal.{IsNormal};
ghost use Rattle.lois_base.specs.Tree.{tree as term_tree};
ghost use Rattle.lois_base.specs.Validity.{AdmitsTerm, HasBoundedWidths};
ghost use Rattle.lois_deciders.specs.OnlyAsked.{HasOnlyAsked};
ghost use Rattle.lois_meaning.specs.Faults.{Fails};
ghost use Rattle.lois_script.specs.View.{tree};
ghost use Rattle.lois_context.specs.Choices.{ContextHasBoundedWidths};
ghost use Rattle.lois_eval.specs.WellFormed.{IsWellFormedIn, IsWellFormed};
ghost use Rattle.lois_eval.specs.Throughout.{IsValueThroughout, IsFaultOf, IfFault};

use lois_base::{Decider, Structure, Term};
use lois_context::Context;
use lois_deciders::Chosen;
use lois_eval::eval;
use lois_meaning::Stop;
use lois_script::Expr;
use lois_simplify::simplify;
use std::alloc::Global;

/// The value of an expression, as a normal term, which is written within 64 brackets.
pub(crate) fn normal_value<T: Structure>(
    alloc: Global,
    e: &Expr,
    context: &Context,
    chosen: &mut Chosen,
) -> Result<Term, Stop>
    requires { IsWellFormedIn (IsWellFormed (tree e.now)) T.ordered context.now }
    ensures value { IfOk result (λ t. IsValueThroughout context.now (tree e.now) (term_tree t)) }
    ensures normal { IfOk result (λ t. IsNormal (term_tree t) context.now.when context.now.size) }
    ensures brackets { IfOk result (λ t. depth (term_tree t) ≤ 64) }
    ensures levels { IfOk result (λ t. Fits context.now.size (term_tree t)) }
    ensures operators { IfOk result (λ t. (ordered : Bool) → IsWellFormedIn (IsWellFormed (tree e.now)) ordered context.now → AdmitsTerm ordered (term_tree t)) }
    ensures widths { IfOk result (λ t. ContextHasBoundedWidths context.now → HasBoundedWidths (term_tree t)) }
    ensures fault { IfErr result (λ s. IfFault s (IsFaultOf T.ordered context.now (Fails (tree e.now)))) }

    // whatever is answered
    ensures only_asked { HasOnlyAsked (λ b. (⟦<dyn Decider as Decider>⟧ b.vtable).kind_of b.value) (λ b. (⟦<dyn Decider as Decider>⟧ b.vtable).questions b.value) chosen.old chosen.new }
{
    let term = eval::<T>(alloc, e, context, chosen)?;
    Ok(simplify::<T>(alloc, &term, &context.when, context.size, chosen)?)
}

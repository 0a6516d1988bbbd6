//! Into a loop over a set, and out again.

ghost use Rattle.std.specs.Prelude.{◌≡◌, Bool, List, if◌then◌else◌, not, IfOk, IfErr, IsOkAnd, IsErrAnd};
ghost use Rattle.lois_base.specs.Atom.{Atom};
ghost use Rattle.lois_base.specs.Fits.{Fits, ConstraintFits};
ghost use Rattle.lois_base.specs.Tree.{tree};
ghost use Rattle.lois_base.specs.Truth.{holds};
ghost use Rattle.lois_base.specs.Validity.{AdmitsConstraint};
ghost use Rattle.lois_context.specs.Entered.{AreEntered};
ghost use Rattle.lois_context.specs.Slots.{IsNew};
ghost use Rattle.lois_terms.specs.Collections.{IsColl};
ghost use Rattle.lois_eval.specs.Checks.{IsSetFault, IsTruncated};
ghost use Rattle.lois_eval.specs.Throughout.{IfFault};

use crate::checks::check_set;
use crate::faults::outside;
use crate::oracle::Oracle;
use lois_base::{Comps, Constraint, Name, Structure, Term};
use lois_constraint::negate;
use lois_context::Context;
use lois_meaning::Stop;
use lois_script::Pos;
use std::alloc::Global;

/// The contexts for the members of a set. Errors: a fault at the place where the term is no set.
pub(crate) fn entered<T: Structure, D: Oracle<T>>(
    alloc: Global,
    name: &Name,
    pos: Pos,
    elements: Term,
    context: &Context,
    decider: &mut D,
) -> Result<Vec<Context>, Stop>
    requires sound { D.sound }
    requires levels { Fits context.now.size (tree elements) }
    requires new_name { IsNew name.now context.now.store }
    ensures set { IfOk result (λ r. IsColl (tree elements)) }
    ensures entered { IfOk result (λ r. AreEntered context.now name.now (tree elements) r.items) }
    ensures fault { IfErr result (λ s. IfFault s (IsSetFault context.now (tree elements) pos.offset)) }
    ensures asked { D.reaches decider.old decider.new }
{
    check_set(alloc, pos, &elements, context)?;
    Ok(decider.enter(alloc, context, &elements, name)?)
}

/// What came of the contexts inside, outside, where there are `size` levels.
pub(crate) fn leave_loop_with_comps(given: Result<Comps, Stop>, size: usize) -> Result<Comps, Stop>
    ensures ok { IfOk result (λ r. IsOkAnd given (λ g. r ≡ g)) }
    ensures fault { IfErr result (λ s. IfFault s (λ f. IsErrAnd given (λ t. IsTruncated size f t))) }
{
    match given {
        Ok(comps) => Ok(comps),
        Err(stop) => Err(outside(stop, size)),
    }
}

/// The same of a constraint, or of its negation.
pub(crate) fn leave_loop_with_constraint(
    alloc: Global,
    given: Result<Constraint, Stop>,
    some: bool,
    size: usize,
) -> Result<Constraint, Stop>
    ensures truth { IfOk result (λ r. IsOkAnd given (λ g. (c : List Atom) → holds c r ≡ (if some then holds c g else not (holds c g)))) }
    ensures levels { IfOk result (λ r. IsOkAnd given (λ g. ConstraintFits size g → ConstraintFits size r)) }
    ensures operators { IfOk result (λ r. IsOkAnd given (λ g. (o : Bool) → AdmitsConstraint o g → AdmitsConstraint o r)) }
    ensures fault { IfErr result (λ s. IfFault s (λ f. IsErrAnd given (λ t. IsTruncated size f t))) }
{
    match given {
        Ok(found) => {
            if some {
                return Ok(found);
            }
            Ok(negate(alloc, &found)?)
        }
        Err(stop) => Err(outside(stop, size)),
    }
}

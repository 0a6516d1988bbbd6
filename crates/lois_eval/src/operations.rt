//! Operations on operands that have values.

ghost use Rattle.std.specs.Prelude.{◌≡◌, ◌⊎◌, [], ◌∷◌, Bool, length, IfOk, IfErr};
ghost use Rattle.lois_base.specs.Data.{terms_of};
ghost use Rattle.lois_base.specs.Fits.{Fits};
ghost use Rattle.lois_base.specs.Over.{IsOver, PartsAreOver};
ghost use Rattle.lois_base.specs.Tree.{tree};
ghost use Rattle.lois_base.specs.Validity.{AdmitsTerm, AdmitsParts, HasBoundedWidths, PartsHaveBoundedWidths};
ghost use Rattle.lois_script.specs.View.{exprs_of};
ghost use Rattle.lois_script.specs.Lists.{exprs_list};
ghost use Rattle.lois_script.specs.declared.syntax.Operation.TheVariants.{Flatten};
ghost use Rattle.lois_terms.specs.Collections.{IsColl};
ghost use Rattle.lois_context.specs.Choices.{AdmitsContext};
ghost use Rattle.lois_eval.specs.Checks.{IsSetFault};
ghost use Rattle.lois_eval.specs.Operands.{IsOfTwoSets, IsAppliedThroughout, IsUnfitFault, IsMemberFault};
ghost use Rattle.lois_eval.specs.WellFormed.{arity};
ghost use Rattle.lois_eval.specs.Throughout.{AreValuesThroughout, IfFault};

use crate::checks::check_set;
use crate::flattening::sets_in;
use crate::operands::{one_expr, one_term, two_exprs, two_terms};
use crate::oracle::Oracle;
use lois_algebra::{collect_over, inter, minus, union};
use lois_base::{NoMemory, Structure, Term, Terms};
use lois_context::Context;
use lois_meaning::Stop;
use lois_script::{Exprs, Operation, Pos};
use std::alloc::Global;

/// What the operation makes of operands with these values. Errors: a fault at an operand that is unfit for it.
pub(crate) fn applied<T: Structure, D: Oracle<T>>(
    alloc: Global,
    operation: Operation,
    operands: &Exprs,
    values: &Terms,
    context: &Context,
    decider: &mut D,
) -> Result<Term, Stop>
    requires sound { D.sound }
    requires operands { length (exprs_list operands.now) ≡ arity operation }
    requires count { length values.now ≡ arity operation }
    requires given { AreValuesThroughout context.now (exprs_of (exprs_list operands.now)) values.now }
    requires over { PartsAreOver T.ordered context.now.size (terms_of values.now) }
    requires context_operators { AdmitsContext T.ordered context.now }
    ensures applied { IfOk result (λ r. IsAppliedThroughout context.now operation values.now (tree r)) }
    ensures levels { IfOk result (λ r. Fits context.now.size (tree r)) }
    ensures operators { IfOk result (λ r. (o : Bool) → AdmitsContext o context.now → AdmitsParts o (terms_of values.now) → AdmitsTerm o (tree r)) }
    ensures widths { IfOk result (λ r. PartsHaveBoundedWidths (terms_of values.now) → HasBoundedWidths (tree r)) }
    ensures fault { IfErr result (λ s. IfFault s (IsUnfitFault T.ordered context.now operation (exprs_of (exprs_list operands.now)) (terms_of values.now))) }
    ensures asked { D.reaches decider.old decider.new }
{
    match operation {
        Operation::Union => combined::<T>(alloc, operation, operands, values, context),
        Operation::Inter => combined::<T>(alloc, operation, operands, values, context),
        Operation::Minus => combined::<T>(alloc, operation, operands, values, context),
        Operation::Flatten => {
            let pos = one_expr(operands).pos();
            flattened::<T, D>(alloc, pos, one_term(values), context, decider)
        }
        // those on automata
        _ => decider.apply(alloc, operation, operands, values, context),
    }
}

// What an operation on two sets makes, once both operands are known to be sets.
fn combined<T: Structure>(
    alloc: Global,
    operation: Operation,
    operands: &Exprs,
    values: &Terms,
    context: &Context,
) -> Result<Term, Stop>
    requires operation { IsOfTwoSets operation }
    requires operands { length (exprs_list operands.now) ≡ 2 }
    requires count { length values.now ≡ 2 }
    requires over { PartsAreOver T.ordered context.now.size (terms_of values.now) }
    ensures applied { IfOk result (λ r. IsAppliedThroughout context.now operation values.now (tree r)) }
    ensures levels { IfOk result (λ r. Fits context.now.size (tree r)) }
    ensures operators { IfOk result (λ r. (o : Bool) → AdmitsParts o (terms_of values.now) → AdmitsTerm o (tree r)) }
    ensures widths { IfOk result (λ r. PartsHaveBoundedWidths (terms_of values.now) → HasBoundedWidths (tree r)) }
    ensures fault { IfErr result (λ s. IfFault s (IsUnfitFault T.ordered context.now operation (exprs_of (exprs_list operands.now)) (terms_of values.now))) }
{
    let (e, f) = two_exprs(operands);
    let (s, t) = two_terms(values);
    check_set(alloc, e.pos(), s, context)?;
    check_set(alloc, f.pos(), t, context)?;
    Ok(combination::<T>(alloc, operation, s, t, context)?)
}

// The same of two sets, which can't fail any more.
fn combination<T: Structure>(
    alloc: Global,
    operation: Operation,
    s: &Term,
    t: &Term,
    context: &Context,
) -> Result<Term, NoMemory>
    requires operation { IsOfTwoSets operation }
    requires left { IsOver T.ordered context.now.size (tree s.now) }
    requires left_set { IsColl (tree s.now) }
    requires right { IsOver T.ordered context.now.size (tree t.now) }
    requires right_set { IsColl (tree t.now) }
    ensures applied { IfOk result (λ r. IsAppliedThroughout context.now operation (tree s.now ∷ tree t.now ∷ []) (tree r)) }
    ensures levels { IfOk result (λ r. Fits context.now.size (tree r)) }
    ensures operators { IfOk result (λ r. (o : Bool) → AdmitsTerm o (tree s.now) → AdmitsTerm o (tree t.now) → AdmitsTerm o (tree r)) }
    ensures widths { IfOk result (λ r. HasBoundedWidths (tree s.now) → HasBoundedWidths (tree t.now) → HasBoundedWidths (tree r)) }
{
    match operation {
        Operation::Union => union(alloc, s, t),
        Operation::Inter => inter::<T>(alloc, s, t, context.size),
        Operation::Minus => minus::<T>(alloc, s, t, context.size),
        _ => unreachable!(),
    }
}

// The members of the members of a set. Errors: a fault at the place where the term is no set, or a member isn't one.
fn flattened<T: Structure, D: Oracle<T>>(
    alloc: Global,
    pos: Pos,
    set: &Term,
    context: &Context,
    decider: &mut D,
) -> Result<Term, Stop>
    requires sound { D.sound }
    requires over { IsOver T.ordered context.now.size (tree set.now) }
    ensures applied { IfOk result (λ r. IsAppliedThroughout context.now Flatten (tree set.now ∷ []) (tree r)) }
    ensures levels { IfOk result (λ r. Fits context.now.size (tree r)) }
    ensures operators { IfOk result (λ r. (o : Bool) → AdmitsTerm o (tree set.now) → AdmitsTerm o (tree r)) }
    ensures widths { IfOk result (λ r. HasBoundedWidths (tree set.now) → HasBoundedWidths (tree r)) }
    ensures fault { IfErr result (λ s. IfFault s (λ f. IsSetFault context.now (tree set.now) pos.offset f ⊎ IsMemberFault T.ordered context.now (tree set.now) pos.offset f)) }
    ensures asked { D.reaches decider.old decider.new }
{
    check_set(alloc, pos, set, context)?;
    let sets = sets_in::<T, D>(alloc, pos, set, context, decider)?;
    Ok(collect_over(alloc, &sets, context.size)?)
}

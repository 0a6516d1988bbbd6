//! Operations on automata, and where an automaton accepts no word.

ghost use Rattle.std.specs.Prelude.{[], ◌∷◌, IfOk, IfErr};
ghost use Rattle.lois_base.specs.Data.{terms_of};
ghost use Rattle.lois_base.specs.Over.{IsOver};
ghost use Rattle.lois_base.specs.Tree.{tree};
ghost use Rattle.lois_deciders.specs.OnlyAsked.{HasOnlyAsked};
ghost use Rattle.lois_meaning.specs.Faults.{IsNoAutomaton, IsInvalidOperand};
ghost use Rattle.lois_script.specs.Tree.{pos};
ghost use Rattle.lois_script.specs.View.{tree as expr_tree, exprs_of};
ghost use Rattle.lois_script.specs.Lists.{exprs_list};
ghost use Rattle.lois_script.specs.declared.syntax.Operation.TheVariants.{Reach, Product, Complement, Minimise};
ghost use Rattle.lois_context.specs.Choices.{AdmitsContext};
ghost use Rattle.lois_eval.specs.Automata.{AreOperands, IsEmptiness, IsOperationResult, IsOfOneAutomaton, IsValueFault, IsProductFault};
ghost use Rattle.lois_eval.specs.Operands.{IsUnfitFault};
ghost use Rattle.lois_eval.specs.Throughout.{IfFault, IsValueThroughout};

use crate::machine_checks::{check_machine, check_whole};
use crate::operands::{one_expr, one_term, two_exprs, two_terms};
use lois_automata::{complement, empty, product, reach};
use lois_base::{Constraint, Decider, Structure, Term, Terms};
use lois_context::Context;
use lois_deciders::Chosen;
use lois_meaning::Stop;
use lois_minimise::minimise;
use lois_script::{Expr, Exprs, Operation};
use std::alloc::Global;

/// What an operation on automata makes of operands with these values. Errors: a fault at an operand that is unfit for it.
pub(crate) fn applied_to_automata<T: Structure>(
    alloc: Global,
    operation: Operation,
    operands: &Exprs,
    values: &Terms,
    context: &Context,
    chosen: &mut Chosen,
) -> Result<Term, Stop>
    requires operands { AreOperands T.ordered context.now operation (exprs_list operands.now) values.now }
    ensures made { IfOk result (λ r. IsOperationResult context.now operation values.now (tree r)) }
    ensures fault { IfErr result (λ s. IfFault s (IsUnfitFault T.ordered context.now operation (exprs_of (exprs_list operands.now)) (terms_of values.now))) }
    ensures only_asked { HasOnlyAsked (λ b. (⟦<dyn Decider as Decider>⟧ b.vtable).kind_of b.value) (λ b. (⟦<dyn Decider as Decider>⟧ b.vtable).questions b.value) chosen.old chosen.new }
{
    match operation {
        Operation::Product => {
            let (e, f) = two_exprs(operands);
            let (a, b) = two_terms(values);
            product_of::<T>(alloc, e, a, f, b, context, chosen)
        }
        _ => of_one::<T>(
            alloc,
            operation,
            one_expr(operands),
            one_term(values),
            context,
            chosen,
        ),
    }
}

fn of_one<T: Structure>(
    alloc: Global,
    operation: Operation,
    operand: &Expr,
    automaton: &Term,
    context: &Context,
    chosen: &mut Chosen,
) -> Result<Term, Stop>
    requires operation { IsOfOneAutomaton operation }
    requires given { IsValueThroughout context.now (expr_tree operand.now) (tree automaton.now) }
    requires over { IsOver T.ordered context.now.size (tree automaton.now) }
    requires context_operators { AdmitsContext T.ordered context.now }
    ensures made { IfOk result (λ r. IsOperationResult context.now operation (tree automaton.now ∷ []) (tree r)) }
    ensures fault { IfErr result (λ s. IfFault s (IsValueFault T.ordered context.now (IsInvalidOperand operation) (tree automaton.now) (pos (expr_tree operand.now)))) }
    ensures only_asked { HasOnlyAsked (λ b. (⟦<dyn Decider as Decider>⟧ b.vtable).kind_of b.value) (λ b. (⟦<dyn Decider as Decider>⟧ b.vtable).questions b.value) chosen.old chosen.new }
{
    match operation {
        Operation::Reach => reach_of::<T>(alloc, operand, automaton, context, chosen),
        Operation::Complement => complement_of::<T>(alloc, operand, automaton, context, chosen),
        Operation::Minimise => minimal_of::<T>(alloc, operand, automaton, context, chosen),
        _ => unreachable!(),
    }
}

fn reach_of<T: Structure>(
    alloc: Global,
    operand: &Expr,
    automaton: &Term,
    context: &Context,
    chosen: &mut Chosen,
) -> Result<Term, Stop>
    requires given { IsValueThroughout context.now (expr_tree operand.now) (tree automaton.now) }
    requires over { IsOver T.ordered context.now.size (tree automaton.now) }
    requires context_operators { AdmitsContext T.ordered context.now }
    ensures made { IfOk result (λ r. IsOperationResult context.now Reach (tree automaton.now ∷ []) (tree r)) }
    ensures fault { IfErr result (λ s. IfFault s (IsValueFault T.ordered context.now (IsInvalidOperand Reach) (tree automaton.now) (pos (expr_tree operand.now)))) }
    ensures only_asked { HasOnlyAsked (λ b. (⟦<dyn Decider as Decider>⟧ b.vtable).kind_of b.value) (λ b. (⟦<dyn Decider as Decider>⟧ b.vtable).questions b.value) chosen.old chosen.new }
{
    check_machine::<T>(alloc, operand, automaton, context, chosen)?;
    Ok(reach::<T>(alloc, automaton, &context.when, context.size, chosen)?)
}

fn product_of<T: Structure>(
    alloc: Global,
    left: &Expr,
    a: &Term,
    right: &Expr,
    b: &Term,
    context: &Context,
    chosen: &mut Chosen,
) -> Result<Term, Stop>
    requires given { IsValueThroughout context.now (expr_tree left.now) (tree a.now) }
    requires over { IsOver T.ordered context.now.size (tree a.now) }
    requires other_given { IsValueThroughout context.now (expr_tree right.now) (tree b.now) }
    requires other { IsOver T.ordered context.now.size (tree b.now) }
    requires context_operators { AdmitsContext T.ordered context.now }
    ensures made { IfOk result (λ r. IsOperationResult context.now Product (tree a.now ∷ tree b.now ∷ []) (tree r)) }
    ensures fault { IfErr result (λ s. IfFault s (IsProductFault T.ordered context.now (tree a.now) (pos (expr_tree left.now)) (tree b.now) (pos (expr_tree right.now)))) }
    ensures only_asked { HasOnlyAsked (λ b. (⟦<dyn Decider as Decider>⟧ b.vtable).kind_of b.value) (λ b. (⟦<dyn Decider as Decider>⟧ b.vtable).questions b.value) chosen.old chosen.new }
{
    check_machine::<T>(alloc, left, a, context, chosen)?;
    check_machine::<T>(alloc, right, b, context, chosen)?;
    Ok(product::<T>(alloc, a, b, &context.when, context.size, chosen)?)
}

fn complement_of<T: Structure>(
    alloc: Global,
    operand: &Expr,
    automaton: &Term,
    context: &Context,
    chosen: &mut Chosen,
) -> Result<Term, Stop>
    requires given { IsValueThroughout context.now (expr_tree operand.now) (tree automaton.now) }
    requires over { IsOver T.ordered context.now.size (tree automaton.now) }
    requires context_operators { AdmitsContext T.ordered context.now }
    ensures made { IfOk result (λ r. IsOperationResult context.now Complement (tree automaton.now ∷ []) (tree r)) }
    ensures fault { IfErr result (λ s. IfFault s (IsValueFault T.ordered context.now (IsInvalidOperand Complement) (tree automaton.now) (pos (expr_tree operand.now)))) }
    ensures only_asked { HasOnlyAsked (λ b. (⟦<dyn Decider as Decider>⟧ b.vtable).kind_of b.value) (λ b. (⟦<dyn Decider as Decider>⟧ b.vtable).questions b.value) chosen.old chosen.new }
{
    check_whole::<T>(alloc, operand, automaton, context, chosen)?;
    Ok(complement::<T>(alloc, automaton, &context.when, context.size, chosen)?)
}

fn minimal_of<T: Structure>(
    alloc: Global,
    operand: &Expr,
    automaton: &Term,
    context: &Context,
    chosen: &mut Chosen,
) -> Result<Term, Stop>
    requires given { IsValueThroughout context.now (expr_tree operand.now) (tree automaton.now) }
    requires over { IsOver T.ordered context.now.size (tree automaton.now) }
    requires context_operators { AdmitsContext T.ordered context.now }
    ensures made { IfOk result (λ r. IsOperationResult context.now Minimise (tree automaton.now ∷ []) (tree r)) }
    ensures fault { IfErr result (λ s. IfFault s (IsValueFault T.ordered context.now (IsInvalidOperand Minimise) (tree automaton.now) (pos (expr_tree operand.now)))) }
    ensures only_asked { HasOnlyAsked (λ b. (⟦<dyn Decider as Decider>⟧ b.vtable).kind_of b.value) (λ b. (⟦<dyn Decider as Decider>⟧ b.vtable).questions b.value) chosen.old chosen.new }
{
    check_whole::<T>(alloc, operand, automaton, context, chosen)?;
    let reached = reach::<T>(alloc, automaton, &context.when, context.size, chosen)?;
    Ok(minimise::<T>(
        alloc,
        automaton,
        &reached,
        &context.when,
        context.size,
        chosen,
    )?)
}

/// Where the automaton accepts no word. Errors: a fault at the operand where its value is no automaton.
pub(crate) fn where_empty<T: Structure>(
    alloc: Global,
    operand: &Expr,
    automaton: &Term,
    context: &Context,
    chosen: &mut Chosen,
) -> Result<Constraint, Stop>
    requires given { IsValueThroughout context.now (expr_tree operand.now) (tree automaton.now) }
    requires over { IsOver T.ordered context.now.size (tree automaton.now) }
    requires context_operators { AdmitsContext T.ordered context.now }
    ensures emptiness { IfOk result (IsEmptiness context.now (tree automaton.now)) }
    ensures fault { IfErr result (λ s. IfFault s (IsValueFault T.ordered context.now IsNoAutomaton (tree automaton.now) (pos (expr_tree operand.now)))) }
    ensures only_asked { HasOnlyAsked (λ b. (⟦<dyn Decider as Decider>⟧ b.vtable).kind_of b.value) (λ b. (⟦<dyn Decider as Decider>⟧ b.vtable).questions b.value) chosen.old chosen.new }
{
    check_machine::<T>(alloc, operand, automaton, context, chosen)?;
    Ok(empty::<T>(alloc, automaton, &context.when, context.size, chosen)?)
}

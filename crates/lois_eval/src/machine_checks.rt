//! What is asked of values that operations on automata take.

ghost use Rattle.std.specs.Prelude.{◌≡◌, IfErr, IsTrue, OnOk};
ghost use Rattle.lois_base.specs.Over.{IsOver};
ghost use Rattle.lois_base.specs.Tree.{tree};
ghost use Rattle.lois_deciders.specs.OnlyAsked.{HasOnlyAsked};
ghost use Rattle.lois_automata.specs.Machines.{IsAutomatonAt, IsCompleteDeterministicAt};
ghost use Rattle.lois_automata.specs.Throughout.{HoldsThroughout};
ghost use Rattle.lois_automata.specs.declared.verdicts.Verdict.TheVariants.{Holds};
ghost use Rattle.lois_meaning.specs.Faults.{IsNoAutomaton, IsInvalidOperand};
ghost use Rattle.lois_script.specs.Tree.{pos};
ghost use Rattle.lois_script.specs.View.{tree as expr_tree};
ghost use Rattle.lois_script.specs.declared.syntax.Operation.TheVariants.{Minimise};
ghost use Rattle.lois_context.specs.Choices.{AdmitsContext};
ghost use Rattle.lois_eval.specs.Automata.{GivesAutomata, MakesAutomaton, IsFailureOfVerdict, IsValueFault};
ghost use Rattle.lois_eval.specs.Throughout.{IfFault, IsValueThroughout};

use crate::faults::fault;
use lois_answers::FaultKind;
use lois_automata::{Verdict, check_automaton, check_complete, check_deterministic};
use lois_base::{Decider, Structure, Term};
use lois_context::Context;
use lois_deciders::Chosen;
use lois_meaning::Stop;
use lois_script::{Expr, Operation, Pos};
use std::alloc::Global;

/// Errors: a fault at the operand where its value is no automaton at some choice that the context admits. What an operation
/// makes of automata is one, and isn't looked at.
pub(crate) fn check_machine<T: Structure>(
    alloc: Global,
    operand: &Expr,
    value: &Term,
    context: &Context,
    chosen: &mut Chosen,
) -> Result<(), Stop>
    requires given { IsValueThroughout context.now (expr_tree operand.now) (tree value.now) }
    requires over { IsOver T.ordered context.now.size (tree value.now) }
    requires context_operators { AdmitsContext T.ordered context.now }
    ensures automaton { OnOk result (HoldsThroughout context.now.size context.now.«when» (IsAutomatonAt (tree value.now))) }
    ensures fault { IfErr result (λ s. IfFault s (IsValueFault T.ordered context.now IsNoAutomaton (tree value.now) (pos (expr_tree operand.now)))) }
    ensures only_asked { HasOnlyAsked (λ b. (⟦<dyn Decider as Decider>⟧ b.vtable).kind_of b.value) (λ b. (⟦<dyn Decider as Decider>⟧ b.vtable).questions b.value) chosen.old chosen.new }
{
    if gives_automata(operand) {
        return Ok(());
    }
    let verdict = check_automaton::<T>(alloc, value, &context.when, context.size, chosen)?;
    passed(alloc, operand.pos(), FaultKind::NotAutomaton, verdict)
}

// Whether the expression is an operation that makes an automaton.
fn gives_automata(e: &Expr) -> bool
    ensures { IsTrue result → GivesAutomata (expr_tree e.now) }
{
    match e {
        Expr::Apply(_, operation, _) => makes_automaton(*operation),
        _ => false,
    }
}

fn makes_automaton(operation: Operation) -> bool
    ensures { IsTrue result → MakesAutomaton operation }
{
    match operation {
        Operation::Product => true,
        Operation::Complement => true,
        Operation::Minimise => true,
        _ => false,
    }
}

/// Errors: the same, and where it is no deterministic one, or no complete one.
pub(crate) fn check_whole<T: Structure>(
    alloc: Global,
    operand: &Expr,
    value: &Term,
    context: &Context,
    chosen: &mut Chosen,
) -> Result<(), Stop>
    requires given { IsValueThroughout context.now (expr_tree operand.now) (tree value.now) }
    requires over { IsOver T.ordered context.now.size (tree value.now) }
    requires context_operators { AdmitsContext T.ordered context.now }
    ensures whole { OnOk result (HoldsThroughout context.now.size context.now.«when» (IsCompleteDeterministicAt (tree value.now))) }
    ensures fault { IfErr result (λ s. IfFault s (IsValueFault T.ordered context.now (IsInvalidOperand Minimise) (tree value.now) (pos (expr_tree operand.now)))) }
    ensures only_asked { HasOnlyAsked (λ b. (⟦<dyn Decider as Decider>⟧ b.vtable).kind_of b.value) (λ b. (⟦<dyn Decider as Decider>⟧ b.vtable).questions b.value) chosen.old chosen.new }
{
    check_machine::<T>(alloc, operand, value, context, chosen)?;
    let single = check_deterministic::<T>(alloc, value, &context.when, context.size, chosen)?;
    passed(alloc, operand.pos(), FaultKind::NotDeterministic, single)?;
    let total = check_complete::<T>(alloc, value, &context.when, context.size, chosen)?;
    passed(alloc, operand.pos(), FaultKind::NotComplete, total)
}

// Errors: a fault of this kind where the verdict is that the property fails.
fn passed(alloc: Global, pos: Pos, kind: FaultKind, verdict: Verdict) -> Result<(), Stop>
    ensures holds { OnOk result (verdict ≡ Holds) }
    ensures fault { IfErr result (λ s. IfFault s (IsFailureOfVerdict verdict pos kind)) }
{
    match verdict {
        Verdict::Holds => Ok(()),
        Verdict::Fails(sample) => Err(fault(alloc, pos, kind, sample)),
    }
}

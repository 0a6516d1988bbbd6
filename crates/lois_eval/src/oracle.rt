//! What is asked of a decider. A trait stands between, since functions that call one another can't have a boxed decider in
//! their signatures.

ghost use Rattle.std.specs.Prelude.{◌↔◌, Bool, List, IfOk, IfErr, IfSome, IsNone, IsTrue};
ghost use Rattle.lois_base.specs.Atom.{Atom};
ghost use Rattle.lois_base.specs.Data.{terms_of};
ghost use Rattle.lois_base.specs.Fits.{ConstraintFits, Fits};
ghost use Rattle.lois_base.specs.Over.{IsOver};
ghost use Rattle.lois_base.specs.Tree.{tree};
ghost use Rattle.lois_base.specs.Truth.{holds};
ghost use Rattle.lois_base.specs.Validity.{AdmitsConstraint};
ghost use Rattle.lois_deciders.specs.Conjunction.{AreInconsistent};
ghost use Rattle.lois_deciders.specs.OnlyAsked.{HasOnlyAsked};
ghost use Rattle.lois_meaning.specs.Faults.{IsNoAutomaton};
ghost use Rattle.lois_script.specs.Tree.{pos};
ghost use Rattle.lois_script.specs.View.{tree as expr_tree, exprs_of};
ghost use Rattle.lois_script.specs.Lists.{exprs_list};
ghost use Rattle.lois_terms.specs.Collections.{IsColl};
ghost use Rattle.lois_context.specs.Choices.{IsAdmitted, IsAdmittedBy, AdmitsContext};
ghost use Rattle.lois_context.specs.Entered.{AreEntered};
ghost use Rattle.lois_context.specs.Sides.{IsSide};
ghost use Rattle.lois_context.specs.Slots.{IsNew};
ghost use Rattle.lois_eval.specs.Automata.{AreOperands, IsEmptiness, IsOperationResult, IsValueFault};
ghost use Rattle.lois_eval.specs.Checks.{MeetsBoth};
ghost use Rattle.lois_eval.specs.Operands.{IsUnfitFault};
ghost use Rattle.lois_eval.specs.Throughout.{IfFault, IsValueThroughout};

use lois_base::{Constraint, Decider, Name, NoMemory, Structure, Term, Terms};
use lois_context::Context;
use lois_deciders::Chosen;
use lois_meaning::Stop;
use lois_script::{Expr, Exprs, Operation};
use std::alloc::Global;

pub(crate) trait Oracle<T: Structure> {
    // what is needed for its answers to be right
    ghost sound: { Type 0 };

    // questions lead from one to the other
    ghost reaches: { Self → Self → Type 0 };

    /// `size` numbers below `size` at which both constraints hold, or `None` where they exclude each other.
    fn sample(
        &mut self,
        alloc: Global,
        a: &Constraint,
        b: &Constraint,
        size: usize,
    ) -> Result<Option<Vec<u64>>, NoMemory>
        requires sound { sound }
        requires first { ConstraintFits size a.now }
        requires second { ConstraintFits size b.now }
        ensures some { IfOk result (λ o. IfSome o (λ s. MeetsBoth size a.now b.now s.items)) }
        ensures none { IfOk result (λ o. IsNone o ↔ AreInconsistent size a.now b.now) }
        ensures asked { reaches self.old self.new };

    /// The contexts for the members of a set.
    fn enter(
        &mut self,
        alloc: Global,
        context: &Context,
        elements: &Term,
        name: &Name,
    ) -> Result<Vec<Context>, NoMemory>
        requires sound { sound }
        requires levels { Fits context.now.size (tree elements.now) }
        requires set { IsColl (tree elements.now) }
        requires new_name { IsNew name.now context.now.store }
        ensures entered { IfOk result (λ r. AreEntered context.now name.now (tree elements.now) r.items) }
        ensures asked { reaches self.old self.new };

    /// The context where the condition holds too, or `None` where that is nowhere.
    fn keep(
        &mut self,
        alloc: Global,
        context: &Context,
        condition: &Constraint,
    ) -> Result<Option<Context>, NoMemory>
        requires sound { sound }
        requires levels { ConstraintFits context.now.size condition.now }
        ensures side { IfOk result (λ o. IfSome o (IsSide context.now (λ c. holds c condition.now))) }
        ensures choices { IfOk result (λ o. (c : List Atom) → IsAdmittedBy c o ↔ (IsAdmitted c context.now × IsTrue (holds c condition.now))) }
        ensures operators { IfOk result (λ o. (ordered : Bool) → AdmitsContext ordered context.now → AdmitsConstraint ordered condition.now → IfSome o (AdmitsContext ordered)) }
        ensures asked { reaches self.old self.new };

    /// What an operation on automata makes of operands with these values.
    fn apply(
        &mut self,
        alloc: Global,
        operation: Operation,
        operands: &Exprs,
        values: &Terms,
        context: &Context,
    ) -> Result<Term, Stop>
        requires sound { sound }
        requires operands { AreOperands T.ordered context.now operation (exprs_list operands.now) values.now }
        ensures made { IfOk result (λ r. IsOperationResult context.now operation values.now (tree r)) }
        ensures fault { IfErr result (λ s. IfFault s (IsUnfitFault T.ordered context.now operation (exprs_of (exprs_list operands.now)) (terms_of values.now))) }
        ensures asked { reaches self.old self.new };

    /// Where the automaton that is the operand's value accepts no word.
    fn empty(
        &mut self,
        alloc: Global,
        operand: &Expr,
        automaton: &Term,
        context: &Context,
    ) -> Result<Constraint, Stop>
        requires sound { sound }
        requires given { IsValueThroughout context.now (expr_tree operand.now) (tree automaton.now) }
        requires over { IsOver T.ordered context.now.size (tree automaton.now) }
        requires context_operators { AdmitsContext T.ordered context.now }
        ensures emptiness { IfOk result (IsEmptiness context.now (tree automaton.now)) }
        ensures fault { IfErr result (λ s. IfFault s (IsValueFault T.ordered context.now IsNoAutomaton (tree automaton.now) (pos (expr_tree operand.now)))) }
        ensures asked { reaches self.old self.new };

    ghost reaches_itself: { (a : Self) → reaches a a };

    ghost reaches_then: { (a b c : Self) → reaches a b → reaches b c → reaches a c };
}

/// A decider, and functions that ask it. Its type isn't named.
#[derive(Drop)]
pub(crate) struct Queries<'a, D, S, E, K, A, W> {
    pub(crate) decider: &'a mut D,
    pub(crate) sample: S,
    pub(crate) enter: E,
    pub(crate) keep: K,
    pub(crate) apply: A,
    pub(crate) empty: W,
}

impl<
    'a,
    T: Structure,
    D,
    S: Fn(&mut D, Global, &Constraint, &Constraint, usize) -> Result<Option<Vec<u64>>, NoMemory>,
    E: Fn(&mut D, Global, &Context, &Term, &Name) -> Result<Vec<Context>, NoMemory>,
    K: Fn(&mut D, Global, &Context, &Constraint) -> Result<Option<Context>, NoMemory>,
    A: Fn(&mut D, Global, Operation, &Exprs, &Terms, &Context) -> Result<Term, Stop>,
    W: Fn(&mut D, Global, &Expr, &Term, &Context) -> Result<Constraint, Stop>,
> Oracle<T> for Queries<'a, D, S, E, K, A, W> {
    ghost use Rattle.std.specs.Prelude.{◌≡◌, ◌⊎◌};
    ghost use Rattle.lois_deciders.specs.Oracle.{AnswersPairs, LeadsByTwo};
    ghost use Rattle.lois_deciders.specs.Conjunction.{AreInconsistent};
    ghost use Rattle.lois_deciders.specs.Reached.{IsInClosure, still_reached, reached_further};
    ghost use Rattle.lois_eval.specs.Oracle.{EntersLoops, KeepsSides, AppliesToAutomata, FindsEmptiness, LeadsByLoop, LeadsBySide, LeadsByApplying, LeadsByEmptiness};
    ghost use Rattle.lois_eval.specs.Checks.{MeetsBoth};

    ghost sound = { AnswersPairs S.pre S.post (λ n a b s. MeetsBoth n a b s.items) AreInconsistent × EntersLoops E.pre E.post × KeepsSides K.pre K.post × AppliesToAutomata T.ordered A.pre A.post × FindsEmptiness T.ordered W.pre W.post };

    ghost reaches = { λ a b. IsInClosure (λ p q. LeadsByTwo S.post p q ⊎ (LeadsByLoop E.post p q ⊎ (LeadsBySide K.post p q ⊎ (LeadsByApplying A.post p q ⊎ LeadsByEmptiness W.post p q)))) a.decider.now b.decider.now × (b.decider.ghost_name ≡ a.decider.ghost_name) };

    ghost reaches_itself = { λ a. still_reached _ a.decider };

    ghost reaches_then = { λ a b c h k. reached_further _ a.decider b.decider c.decider h k };

    fn sample(
        &mut self,
        alloc: Global,
        a: &Constraint,
        b: &Constraint,
        size: usize,
    ) -> Result<Option<Vec<u64>>, NoMemory> {
        (self.sample)(self.decider, alloc, a, b, size)
    }

    fn enter(
        &mut self,
        alloc: Global,
        context: &Context,
        elements: &Term,
        name: &Name,
    ) -> Result<Vec<Context>, NoMemory> {
        (self.enter)(self.decider, alloc, context, elements, name)
    }

    fn keep(
        &mut self,
        alloc: Global,
        context: &Context,
        condition: &Constraint,
    ) -> Result<Option<Context>, NoMemory> {
        (self.keep)(self.decider, alloc, context, condition)
    }

    fn apply(
        &mut self,
        alloc: Global,
        operation: Operation,
        operands: &Exprs,
        values: &Terms,
        context: &Context,
    ) -> Result<Term, Stop> {
        (self.apply)(self.decider, alloc, operation, operands, values, context)
    }

    fn empty(
        &mut self,
        alloc: Global,
        operand: &Expr,
        automaton: &Term,
        context: &Context,
    ) -> Result<Constraint, Stop> {
        (self.empty)(self.decider, alloc, operand, automaton, context)
    }
}

/// Numbers at which both constraints hold, of the chosen decider.
pub(crate) fn sample(
    chosen: &mut Chosen,
    alloc: Global,
    a: &Constraint,
    b: &Constraint,
    size: usize,
) -> Result<Option<Vec<u64>>, NoMemory>
    requires first { ConstraintFits size a.now }
    requires second { ConstraintFits size b.now }
    ensures some { IfOk result (λ o. IfSome o (λ s. MeetsBoth size a.now b.now s.items)) }
    ensures none { IfOk result (λ o. IsNone o ↔ AreInconsistent size a.now b.now) }
    ensures only_asked { HasOnlyAsked (λ b. (⟦<dyn Decider as Decider>⟧ b.vtable).kind_of b.value) (λ b. (⟦<dyn Decider as Decider>⟧ b.vtable).questions b.value) chosen.old chosen.new }
{
    match chosen.meet(alloc, a, b, size)? {
        Some(met) => Ok(Some(met.sample.into_vec())),
        None => Ok(None),
    }
}

//! The steps that ask a decider. A trait stands between them and the statements that hold others, since functions that call one
//! another can't have a boxed decider in their signatures.

ghost use Rattle.std.specs.Prelude.{IfOk, IfErr};
ghost use Rattle.std.specs.List.{All};
ghost use Rattle.lois_meaning.specs.Faults.{CondFails};
ghost use Rattle.lois_script.specs.View.{tree, cond_tree};
ghost use Rattle.lois_script.specs.Lists.{stmt_tree};
ghost use Rattle.lois_context.specs.Choices.{AdmitsContext};
ghost use Rattle.lois_context.specs.Joined.{IsEnd};
ghost use Rattle.lois_context.specs.Slots.{IsNew};
ghost use Rattle.lois_eval.specs.WellFormed.{IsWellFormedIn, IsWellFormed, CondIsWellFormed};
ghost use Rattle.lois_eval.specs.Throughout.{IsFaultOf, IfFault};
ghost use Rattle.lois_interp.specs.Decided.{IsDecided};
ghost use Rattle.lois_interp.specs.Elements.{SetFails};
ghost use Rattle.lois_interp.specs.Entered.{IsEntered};
ghost use Rattle.lois_interp.specs.Failed.{FailsWithin};
ghost use Rattle.lois_interp.specs.Leaves.{IsLeaf};
ghost use Rattle.lois_interp.specs.Reached.{RunsAs};
ghost use Rattle.lois_interp.specs.Run.{stmt_run};
ghost use Rattle.lois_interp.specs.WellScoped.{StmtIsWellScoped};
ghost use Rattle.lois_interp.specs.Tidied.{IsBehindLoop};

use lois_base::{Name, NoMemory, Structure};
use lois_context::{Context, Split};
use lois_meaning::Stop;
use lois_script::{Cond, Expr, Stmt};
use std::alloc::Global;

pub(crate) trait Oracle<T: Structure> {
    // what is needed for its answers to be right
    ghost sound: { Type 0 };

    // steps lead from one to the other
    ghost reaches: { Self → Self → Type 0 };

    /// One context for each comprehension of the set that an expression gives.
    fn enter(
        &mut self,
        alloc: Global,
        elements: &Expr,
        name: &Name,
        context: &Context,
    ) -> Result<Vec<Context>, Stop>
        requires sound { sound }
        requires placed { IsWellFormedIn (IsWellFormed (tree elements.now)) T.ordered context.now }
        requires new_name { IsNew name.now context.now.store }
        ensures entered { IfOk result (λ r. IsEntered (tree elements.now) name.now context.now r.items) }
        ensures fault { IfErr result (λ s. IfFault s (IsFaultOf T.ordered context.now (SetFails (tree elements.now)))) }
        ensures asked { reaches self.old self.new };

    /// The sides on which a condition is true and false.
    fn sides(&mut self, alloc: Global, condition: &Cond, context: Context) -> Result<Split, Stop>
        requires sound { sound }
        requires placed { IsWellFormedIn (CondIsWellFormed (cond_tree condition.now)) T.ordered context }
        ensures decided { IfOk result (IsDecided (cond_tree condition.now) context) }
        ensures fault { IfErr result (λ s. IfFault s (IsFaultOf T.ordered context (CondFails (cond_tree condition.now)))) }
        ensures asked { reaches self.old self.new };

    /// Runs a statement that holds no others.
    fn simple(&mut self, alloc: Global, stmt: &Stmt, context: Context) -> Result<Vec<Context>, Stop>
        requires sound { sound }
        requires leaf { IsLeaf (stmt_tree stmt.now) }
        requires placed { IsWellFormedIn (StmtIsWellScoped (stmt_tree stmt.now)) T.ordered context }
        ensures runs { IfOk result (λ r. RunsAs (stmt_run (stmt_tree stmt.now)) context r.items) }
        ensures fault { IfErr result (λ s. IfFault s (FailsWithin T.ordered (stmt_run (stmt_tree stmt.now)) context)) }
        ensures asked { reaches self.old self.new };

    /// What stands behind a loop.
    fn join(
        &mut self,
        alloc: Global,
        before: Context,
        ends: Vec<Context>,
    ) -> Result<Context, NoMemory>
        requires sound { sound }
        requires ends { All (IsEnd before) ends.items }
        requires operators { AdmitsContext T.ordered before }
        requires end_operators { All (AdmitsContext T.ordered) ends.items }
        ensures behind { IfOk result (IsBehindLoop before ends.items) }
        ensures asked { reaches self.old self.new };

    ghost reaches_itself: { (a : Self) → reaches a a };

    ghost reaches_then: { (a b c : Self) → reaches a b → reaches b c → reaches a c };
}

/// A decider, and functions that do the steps by asking it. Its type isn't named.
#[derive(Drop)]
pub(crate) struct Queries<'a, D, E, C, R, J> {
    pub(crate) decider: &'a mut D,
    pub(crate) enter: E,
    pub(crate) sides: C,
    pub(crate) simple: R,
    pub(crate) join: J,
}

impl<
    'a,
    T: Structure,
    D,
    E: Fn(&mut D, Global, &Expr, &Name, &Context) -> Result<Vec<Context>, Stop>,
    C: Fn(&mut D, Global, &Cond, Context) -> Result<Split, Stop>,
    R: Fn(&mut D, Global, &Stmt, Context) -> Result<Vec<Context>, Stop>,
    J: Fn(&mut D, Global, Context, Vec<Context>) -> Result<Context, NoMemory>,
> Oracle<T> for Queries<'a, D, E, C, R, J> {
    ghost use Rattle.std.specs.Prelude.{◌≡◌, ◌⊎◌};
    ghost use Rattle.lois_deciders.specs.Reached.{IsInClosure, still_reached, reached_further};
    ghost use Rattle.lois_interp.specs.Oracle.{EntersMembers, DecidesSides, RunsStatements, JoinsLoops, LeadsByEnter, LeadsBySides, LeadsByStatement, LeadsByJoin};

    ghost sound = { EntersMembers T.ordered E.pre E.post × DecidesSides T.ordered C.pre C.post × RunsStatements T.ordered R.pre R.post × JoinsLoops T.ordered J.pre J.post };

    ghost reaches = { λ a b. IsInClosure (λ p q. LeadsByEnter E.post p q ⊎ (LeadsBySides C.post p q ⊎ (LeadsByStatement R.post p q ⊎ LeadsByJoin J.post p q))) a.decider.now b.decider.now × (b.decider.ghost_name ≡ a.decider.ghost_name) };

    ghost reaches_itself = { λ a. still_reached _ a.decider };

    ghost reaches_then = { λ a b c h k. reached_further _ a.decider b.decider c.decider h k };

    fn enter(
        &mut self,
        alloc: Global,
        elements: &Expr,
        name: &Name,
        context: &Context,
    ) -> Result<Vec<Context>, Stop> {
        (self.enter)(self.decider, alloc, elements, name, context)
    }

    fn sides(&mut self, alloc: Global, condition: &Cond, context: Context) -> Result<Split, Stop> {
        (self.sides)(self.decider, alloc, condition, context)
    }

    fn simple(
        &mut self,
        alloc: Global,
        stmt: &Stmt,
        context: Context,
    ) -> Result<Vec<Context>, Stop> {
        (self.simple)(self.decider, alloc, stmt, context)
    }

    fn join(
        &mut self,
        alloc: Global,
        before: Context,
        ends: Vec<Context>,
    ) -> Result<Context, NoMemory> {
        (self.join)(self.decider, alloc, before, ends)
    }
}

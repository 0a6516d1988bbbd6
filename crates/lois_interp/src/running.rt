//! Statements, from one context to those that they come to.

ghost use Rattle.std.specs.Prelude.{◌≡◌, ◌∷◌, [], IfOk, IfSome, IfErr};
ghost use Rattle.std.specs.List.{All, Contains};
ghost use Rattle.lois_deciders.specs.OnlyAsked.{HasOnlyAsked};
ghost use Rattle.lois_script.specs.Tree.{for, if, while};
ghost use Rattle.lois_meaning.specs.Faults.{CondFails};
ghost use Rattle.lois_script.specs.View.{tree, binding_tree, cond_tree, stmts_of, stmts_list};
ghost use Rattle.lois_script.specs.Lists.{stmt_tree};
ghost use Rattle.lois_context.specs.Choices.{AdmitsContext};
ghost use Rattle.lois_context.specs.Joined.{IsEnd};
ghost use Rattle.lois_context.specs.Merged.{AreDisjoint};
ghost use Rattle.lois_context.specs.Slots.{IsNew};
ghost use Rattle.lois_context.specs.declared.contexts.Context.{Context};
ghost use Rattle.lois_eval.specs.WellFormed.{IsWellFormedIn, IsWellFormed, CondIsWellFormed};
ghost use Rattle.lois_eval.specs.Throughout.{FailsNowhere, IsFaultOf, IfFault};
ghost use Rattle.lois_interp.specs.Decided.{IsDecided, listed_context};
ghost use Rattle.lois_interp.specs.Elements.{SetFails};
ghost use Rattle.lois_interp.specs.Entered.{IsEntered};
ghost use Rattle.lois_interp.specs.Failed.{FailsWithin, FailsBehind, FailsAlongSome, FailsFrom};
ghost use Rattle.lois_interp.specs.Leaves.{IsLeaf};
ghost use Rattle.lois_interp.specs.Looped.{LoopRuns, FailsInside, HoldsElement};
ghost use Rattle.lois_interp.specs.Reached.{RunsFrom, RunsAs, HaveDifferentContents};
ghost use Rattle.lois_interp.specs.Run.{stmt_run, block_run, turn_run};
ghost use Rattle.lois_interp.specs.WellScoped.{StmtIsWellScoped, BlockIsWellScoped, TurnIsWellScoped};
ghost use Rattle.lois_interp.specs.Tidied.{IsBehindLoop};
ghost use Rattle.lois_interp.specs.Turned.{IsTurn};

use crate::blocks::{append, cut_all, one, put};
use crate::elements::{enter_members, item_of, named_inside};
use crate::joining::behind_loop;
use crate::leaves::run_simple;
use crate::oracle::{Oracle, Queries};
use crate::sides::sides_of;
use crate::turns::{Turn, leave_all};
use lois_base::{Decider, Name, Structure};
use lois_context::{Context, Split, merge_equal};
use lois_deciders::Chosen;
use lois_meaning::Stop;
use lois_script::{Binding, Cond, Expr, Pos, Stmt, Stmts};
use std::alloc::Global;

/// Runs a block at all choices that a context admits. The contexts of the answer share them out: each is admitted by exactly
/// one, whose store and lines are those with which the block ends there. Ok comes exactly where the block fails at none of
/// them. Errors: a fault at some choice that the context admits, of a statement before which all others end at each of them,
/// and `NoMemory`, also where a level would pass the greatest usize.
pub fn run_block<T: Structure>(
    alloc: Global,
    body: &Stmts,
    context: Context,
    chosen: &mut Chosen,
) -> Result<Vec<Context>, Stop>
    requires { IsWellFormedIn (BlockIsWellScoped (stmts_of (stmts_list body.now))) T.ordered context }
    ensures runs { IfOk result (λ r. RunsAs (block_run (stmts_of (stmts_list body.now))) context r.items) }
    ensures different { IfOk result (λ r. HaveDifferentContents r.items) }
    ensures nowhere { IfOk result (λ r. FailsNowhere context (FailsAlongSome (block_run (stmts_of (stmts_list body.now))))) }
    ensures fault { IfErr result (λ s. IfFault s (FailsWithin T.ordered (block_run (stmts_of (stmts_list body.now))) context)) }
    ensures first { IfErr result (λ s. IfFault s (FailsBehind T.ordered (stmts_list body.now) context)) }

    // whatever is answered
    ensures only_asked { HasOnlyAsked (λ b. (⟦<dyn Decider as Decider>⟧ b.vtable).kind_of b.value) (λ b. (⟦<dyn Decider as Decider>⟧ b.vtable).questions b.value) chosen.old chosen.new }
{
    let mut asking = Queries {
        decider: chosen,
        enter: |asked: &mut Chosen, alloc: Global, e: &Expr, name: &Name, context: &Context|
            requires placed { IsWellFormedIn (IsWellFormed (tree e.now)) T.ordered context.now }
            requires new_name { IsNew name.now context.now.store }
            ensures entered { IfOk result (λ r. IsEntered (tree e.now) name.now context.now r.items) }
            ensures fault { IfErr result (λ s. IfFault s (IsFaultOf T.ordered context.now (SetFails (tree e.now)))) }
            ensures only_asked { HasOnlyAsked (λ b. kind_of (b.vtable, b.value)) (λ b. questions (b.vtable, b.value)) asked.old asked.new }
        { enter_members::<T>(alloc, e, name, context, asked) },
        sides: |asked: &mut Chosen, alloc: Global, condition: &Cond, context: Context|
            requires placed { IsWellFormedIn (CondIsWellFormed (cond_tree condition.now)) T.ordered context }
            ensures decided { IfOk result (IsDecided (cond_tree condition.now) context) }
            ensures fault { IfErr result (λ s. IfFault s (IsFaultOf T.ordered context (CondFails (cond_tree condition.now)))) }
            ensures only_asked { HasOnlyAsked (λ b. kind_of (b.vtable, b.value)) (λ b. questions (b.vtable, b.value)) asked.old asked.new }
        { sides_of::<T>(alloc, condition, context, asked) },
        simple: |asked: &mut Chosen, alloc: Global, stmt: &Stmt, context: Context|
            requires leaf { IsLeaf (stmt_tree stmt.now) }
            requires placed { IsWellFormedIn (StmtIsWellScoped (stmt_tree stmt.now)) T.ordered context }
            ensures runs { IfOk result (λ r. RunsAs (stmt_run (stmt_tree stmt.now)) context r.items) }
            ensures fault { IfErr result (λ s. IfFault s (FailsWithin T.ordered (stmt_run (stmt_tree stmt.now)) context)) }
            ensures only_asked { HasOnlyAsked (λ b. kind_of (b.vtable, b.value)) (λ b. questions (b.vtable, b.value)) asked.old asked.new }
        { run_simple::<T>(alloc, stmt, context, asked) },
        join: |asked: &mut Chosen, alloc: Global, before: Context, ends: Vec<Context>|
            requires ends { All (IsEnd before) ends.items }
            requires operators { AdmitsContext T.ordered before }
            requires end_operators { All (AdmitsContext T.ordered) ends.items }
            ensures behind { IfOk result (IsBehindLoop before ends.items) }
            ensures only_asked { HasOnlyAsked (λ b. kind_of (b.vtable, b.value)) (λ b. questions (b.vtable, b.value)) asked.old asked.new }
        { behind_loop::<T>(alloc, before, ends, asked) },
    };
    run_stmts::<T, _>(alloc, body, context, &mut asking)
}

#[cycle(running)]
fn run_stmts<T: Structure, S: Oracle<T>>(
    alloc: Global,
    body: &Stmts,
    context: Context,
    steps: &mut S,
) -> Result<Vec<Context>, Stop>
    requires sound { S.sound }
    requires placed { IsWellFormedIn (BlockIsWellScoped (stmts_of (stmts_list body.now))) T.ordered context }
    ensures runs { IfOk result (λ r. RunsAs (block_run (stmts_of (stmts_list body.now))) context r.items) }
    ensures different { IfOk result (λ r. HaveDifferentContents r.items) }
    ensures fault { IfErr result (λ s. IfFault s (FailsWithin T.ordered (block_run (stmts_of (stmts_list body.now))) context)) }
    ensures first { IfErr result (λ s. IfFault s (FailsBehind T.ordered (stmts_list body.now) context)) }
    ensures asked { S.reaches steps.old steps.new }
{
    let outside = context.store.len();
    let mut contexts = one(alloc, context)?;
    for stmt in body.as_slice() {
        contexts = run_each::<T, S>(alloc, stmt, contexts, steps)?;
    }
    let cut = cut_all(alloc, contexts, outside)?;
    Ok(merge_equal(alloc, cut)?)
}

// Runs a statement from each of the contexts.
#[cycle(running)]
fn run_each<T: Structure, S: Oracle<T>>(
    alloc: Global,
    stmt: &Stmt,
    contexts: Vec<Context>,
    steps: &mut S,
) -> Result<Vec<Context>, Stop>
    requires sound { S.sound }
    requires placed { All (IsWellFormedIn (StmtIsWellScoped (stmt_tree stmt.now)) T.ordered) contexts.items }
    requires apart { AreDisjoint contexts.items }
    ensures runs { IfOk result (λ r. RunsFrom (stmt_run (stmt_tree stmt.now)) contexts.items r.items) }
    ensures fault { IfErr result (λ s. IfFault s (FailsFrom T.ordered (stmt_run (stmt_tree stmt.now)) contexts.items)) }
    ensures asked { S.reaches steps.old steps.new }
{
    let mut next = Vec::new(alloc);
    for context in contexts {
        let ends = run_stmt::<T, S>(alloc, stmt, context, steps)?;
        append(&mut next, ends)?;
    }
    Ok(merge_equal(alloc, next)?)
}

#[cycle(running)]
fn run_stmt<T: Structure, S: Oracle<T>>(
    alloc: Global,
    stmt: &Stmt,
    context: Context,
    steps: &mut S,
) -> Result<Vec<Context>, Stop>
    requires sound { S.sound }
    requires placed { IsWellFormedIn (StmtIsWellScoped (stmt_tree stmt.now)) T.ordered context }
    ensures runs { IfOk result (λ r. RunsAs (stmt_run (stmt_tree stmt.now)) context r.items) }
    ensures fault { IfErr result (λ s. IfFault s (FailsWithin T.ordered (stmt_run (stmt_tree stmt.now)) context)) }
    ensures asked { S.reaches steps.old steps.new }
{
    match stmt {
        Stmt::For(binding, guard, body) => {
            run_for::<T, S>(alloc, binding, guard, body, context, steps)
        }
        Stmt::If(condition, yes, no) => {
            run_if::<T, S>(alloc, condition, yes, no, context, steps)
        }
        Stmt::While(pos, condition, turns, body) => {
            run_while::<T, S>(alloc, *pos, condition, *turns, body, context, steps)
        }
        _ => steps.simple(alloc, stmt, context),
    }
}

#[cycle(running)]
fn run_for<T: Structure, S: Oracle<T>>(
    alloc: Global,
    binding: &Binding,
    guard: &Cond,
    body: &Stmts,
    context: Context,
    steps: &mut S,
) -> Result<Vec<Context>, Stop>
    requires sound { S.sound }
    requires placed { IsWellFormedIn (StmtIsWellScoped (for (binding_tree binding.now) (cond_tree guard.now) (stmts_of (stmts_list body.now)))) T.ordered context }
    ensures runs { IfOk result (λ r. RunsAs (stmt_run (for (binding_tree binding.now) (cond_tree guard.now) (stmts_of (stmts_list body.now)))) context r.items) }
    ensures fault { IfErr result (λ s. IfFault s (FailsWithin T.ordered (stmt_run (for (binding_tree binding.now) (cond_tree guard.now) (stmts_of (stmts_list body.now)))) context)) }
    ensures asked { S.reaches steps.old steps.new }
{
    let inside = steps.enter(alloc, &binding.from, &binding.name, &context)?;
    let ends = run_inside::<T, S>(alloc, &binding.name, guard, body, inside, steps)?;
    let behind = steps.join(alloc, context, ends)?;
    Ok(one(alloc, behind)?)
}

// Runs the body from each context that stands for members.
#[cycle(running)]
fn run_inside<T: Structure, S: Oracle<T>>(
    alloc: Global,
    name: &Name,
    guard: &Cond,
    body: &Stmts,
    inside: Vec<Context>,
    steps: &mut S,
) -> Result<Vec<Context>, Stop>
    requires sound { S.sound }
    requires placed { All (IsWellFormedIn (TurnIsWellScoped (cond_tree guard.now) (stmts_of (stmts_list body.now))) T.ordered) inside.items }
    requires elements { All (λ d. HoldsElement name.now d.store) inside.items }
    ensures runs { IfOk result (λ r. LoopRuns (cond_tree guard.now) (stmts_of (stmts_list body.now)) inside.items r.items) }
    ensures fault { IfErr result (λ s. IfFault s (λ f. (d : Context) × Contains inside.items d × FailsInside T.ordered name.now (cond_tree guard.now) (stmts_of (stmts_list body.now)) d f)) }
    ensures asked { S.reaches steps.old steps.new }
{
    let mut ends = Vec::new(alloc);
    for context in inside {
        let more = run_member::<T, S>(alloc, name, guard, body, context, steps)?;
        append(&mut ends, more)?;
    }
    Ok(ends)
}

// Runs the body from one such context. A fault names the member.
#[cycle(running)]
fn run_member<T: Structure, S: Oracle<T>>(
    alloc: Global,
    name: &Name,
    guard: &Cond,
    body: &Stmts,
    context: Context,
    steps: &mut S,
) -> Result<Vec<Context>, Stop>
    requires sound { S.sound }
    requires placed { IsWellFormedIn (TurnIsWellScoped (cond_tree guard.now) (stmts_of (stmts_list body.now))) T.ordered context }
    requires element { HoldsElement name.now context.store }
    ensures runs { IfOk result (λ r. LoopRuns (cond_tree guard.now) (stmts_of (stmts_list body.now)) (context ∷ []) r.items) }
    ensures fault { IfErr result (λ s. IfFault s (FailsInside T.ordered name.now (cond_tree guard.now) (stmts_of (stmts_list body.now)) context)) }
    ensures asked { S.reaches steps.old steps.new }
{
    let item = item_of(alloc, &context.store, name)?;
    let size = context.size;
    match run_passing::<T, S>(alloc, guard, body, context, steps) {
        Ok(ends) => Ok(ends),
        Err(stop) => Err(named_inside(alloc, name, &item, size, stop)),
    }
}

// Runs the body where the condition holds.
#[cycle(running)]
fn run_passing<T: Structure, S: Oracle<T>>(
    alloc: Global,
    guard: &Cond,
    body: &Stmts,
    context: Context,
    steps: &mut S,
) -> Result<Vec<Context>, Stop>
    requires sound { S.sound }
    requires placed { IsWellFormedIn (TurnIsWellScoped (cond_tree guard.now) (stmts_of (stmts_list body.now))) T.ordered context }
    ensures runs { IfOk result (λ r. LoopRuns (cond_tree guard.now) (stmts_of (stmts_list body.now)) (context ∷ []) r.items) }
    ensures fault { IfErr result (λ s. IfFault s (FailsWithin T.ordered (turn_run (cond_tree guard.now) (stmts_of (stmts_list body.now))) context)) }
    ensures asked { S.reaches steps.old steps.new }
{
    let sides = steps.sides(alloc, guard, context)?;
    let Split { yes, .. } = sides;
    match yes {
        Some(passing) => run_stmts::<T, S>(alloc, body, passing, steps),
        None => Ok(Vec::new(alloc)),
    }
}

#[cycle(running)]
fn run_if<T: Structure, S: Oracle<T>>(
    alloc: Global,
    condition: &Cond,
    yes: &Stmts,
    no: &Stmts,
    context: Context,
    steps: &mut S,
) -> Result<Vec<Context>, Stop>
    requires sound { S.sound }
    requires placed { IsWellFormedIn (StmtIsWellScoped ((if) (cond_tree condition.now) (stmts_of (stmts_list yes.now)) (stmts_of (stmts_list no.now)))) T.ordered context }
    ensures runs { IfOk result (λ r. RunsAs (stmt_run ((if) (cond_tree condition.now) (stmts_of (stmts_list yes.now)) (stmts_of (stmts_list no.now)))) context r.items) }
    ensures fault { IfErr result (λ s. IfFault s (FailsWithin T.ordered (stmt_run ((if) (cond_tree condition.now) (stmts_of (stmts_list yes.now)) (stmts_of (stmts_list no.now)))) context)) }
    ensures asked { S.reaches steps.old steps.new }
{
    let sides = steps.sides(alloc, condition, context)?;
    let Split {
        yes: passing,
        no: failing,
    } = sides;
    let mut ends = run_side::<T, S>(alloc, yes, passing, steps)?;
    let others = run_side::<T, S>(alloc, no, failing, steps)?;
    append(&mut ends, others)?;
    Ok(ends)
}

// Runs a block from a context that may be missing.
#[cycle(running)]
fn run_side<T: Structure, S: Oracle<T>>(
    alloc: Global,
    body: &Stmts,
    side: Option<Context>,
    steps: &mut S,
) -> Result<Vec<Context>, Stop>
    requires sound { S.sound }
    requires placed { IfSome side (IsWellFormedIn (BlockIsWellScoped (stmts_of (stmts_list body.now))) T.ordered) }
    ensures runs { IfOk result (λ r. RunsFrom (block_run (stmts_of (stmts_list body.now))) (listed_context side) r.items) }
    ensures fault { IfErr result (λ s. IfFault s (FailsFrom T.ordered (block_run (stmts_of (stmts_list body.now))) (listed_context side))) }
    ensures asked { S.reaches steps.old steps.new }
{
    match side {
        Some(context) => run_stmts::<T, S>(alloc, body, context, steps),
        None => Ok(Vec::new(alloc)),
    }
}

// The contexts that have left the loop wait while the others do the next turn.
#[cycle(running)]
fn run_while<T: Structure, S: Oracle<T>>(
    alloc: Global,
    pos: Pos,
    condition: &Cond,
    turns: u32,
    body: &Stmts,
    context: Context,
    steps: &mut S,
) -> Result<Vec<Context>, Stop>
    requires sound { S.sound }
    requires placed { IsWellFormedIn (StmtIsWellScoped (while pos.offset (cond_tree condition.now) turns (stmts_of (stmts_list body.now)))) T.ordered context }
    ensures runs { IfOk result (λ r. RunsAs (stmt_run (while pos.offset (cond_tree condition.now) turns (stmts_of (stmts_list body.now)))) context r.items) }
    ensures fault { IfErr result (λ s. IfFault s (FailsWithin T.ordered (stmt_run (while pos.offset (cond_tree condition.now) turns (stmts_of (stmts_list body.now)))) context)) }
    ensures asked { S.reaches steps.old steps.new }
{
    let mut done = Vec::new(alloc);
    let mut going = one(alloc, context)?;
    for _turn in 0..turns {
        if going.is_empty() {
            return Ok(done);
        }
        let behind = run_turn::<T, S>(alloc, condition, body, going, steps)?;
        let Turn {
            left,
            going: further,
        } = behind;
        append(&mut done, left)?;
        going = further;
    }
    let last = leave_all::<T, S>(alloc, pos, condition, going, steps)?;
    append(&mut done, last)?;
    Ok(done)
}

// One turn from each of the contexts.
#[cycle(running)]
fn run_turn<T: Structure, S: Oracle<T>>(
    alloc: Global,
    condition: &Cond,
    body: &Stmts,
    contexts: Vec<Context>,
    steps: &mut S,
) -> Result<Turn, Stop>
    requires sound { S.sound }
    requires placed { All (IsWellFormedIn (TurnIsWellScoped (cond_tree condition.now) (stmts_of (stmts_list body.now))) T.ordered) contexts.items }
    requires apart { AreDisjoint contexts.items }
    ensures turn { IfOk result (IsTurn (cond_tree condition.now) (stmts_of (stmts_list body.now)) contexts.items) }
    ensures fault { IfErr result (λ s. IfFault s (FailsFrom T.ordered (turn_run (cond_tree condition.now) (stmts_of (stmts_list body.now))) contexts.items)) }
    ensures asked { S.reaches steps.old steps.new }
{
    let mut left = Vec::new(alloc);
    let mut going = Vec::new(alloc);
    for context in contexts {
        let sides = steps.sides(alloc, condition, context)?;
        let Split { yes, no } = sides;
        put(&mut left, no)?;
        let more = run_side::<T, S>(alloc, body, yes, steps)?;
        append(&mut going, more)?;
    }
    let going = merge_equal(alloc, going)?;
    Ok(Turn { left, going })
}

//! Statements that hold no others.

ghost use Rattle.std.specs.Prelude.{◌≡◌, ◌<◌, ◌≤◌, Bool, [], ◌∷◌, ◌++◌, length, slice_set, IfOk, IfErr};
ghost use Rattle.std.specs.List.{HoldsAt};
ghost use Rattle.lois_base.specs.Fits.{Fits};
ghost use Rattle.lois_base.specs.Tree.{tree as term_tree};
ghost use Rattle.lois_deciders.specs.OnlyAsked.{HasOnlyAsked};
ghost use Rattle.lois_script.specs.Tree.{«let», assign, add, assert, print};
ghost use Rattle.lois_script.specs.View.{tree, cond_tree};
ghost use Rattle.lois_script.specs.Lists.{stmt_tree};
ghost use Rattle.lois_context.specs.Slots.{IsNew};
ghost use Rattle.lois_context.specs.ItemCounts.{comps_in};
ghost use Rattle.lois_context.specs.SlotView.{slot_of};
ghost use Rattle.lois_eval.specs.WellFormed.{IsWellFormedIn};
ghost use Rattle.lois_eval.specs.Throughout.{IfFault};
ghost use Rattle.lois_interp.specs.Failed.{FailsWithin};
ghost use Rattle.lois_interp.specs.Leaves.{IsWithStore, IsWithLine, IsLeaf, IsTaken};
ghost use Rattle.lois_interp.specs.Reached.{RunsAs};
ghost use Rattle.lois_interp.specs.Run.{stmt_run};
ghost use Rattle.lois_interp.specs.WellScoped.{StmtIsWellScoped};

use crate::blocks::one;
use crate::checks::check_depth;
use crate::elements::item_of;
use crate::members::with_member;
use crate::values::normal_value;
use lois_answers::{FaultKind, Line};
use lois_base::{Comps, Decider, Name, NoMemory, Structure, Term};
use lois_context::{Content, Context, Shared, Slot};
use lois_deciders::Chosen;
use lois_eval::{decide, fault, fault_under};
use lois_meaning::Stop;
use lois_script::{Cond, Expr, Pos, Stmt};
use std::alloc::Global;

/// Runs a statement that holds no others.
pub(crate) fn run_simple<T: Structure>(
    alloc: Global,
    stmt: &Stmt,
    context: Context,
    chosen: &mut Chosen,
) -> Result<Vec<Context>, Stop>
    requires leaf { IsLeaf (stmt_tree stmt.now) }
    requires placed { IsWellFormedIn (StmtIsWellScoped (stmt_tree stmt.now)) T.ordered context }
    ensures runs { IfOk result (λ r. RunsAs (stmt_run (stmt_tree stmt.now)) context r.items) }
    ensures fault { IfErr result (λ s. IfFault s (FailsWithin T.ordered (stmt_run (stmt_tree stmt.now)) context)) }

    // whatever is answered
    ensures only_asked { HasOnlyAsked (λ b. (⟦<dyn Decider as Decider>⟧ b.vtable).kind_of b.value) (λ b. (⟦<dyn Decider as Decider>⟧ b.vtable).questions b.value) chosen.old chosen.new }
{
    match stmt {
        Stmt::Let(pos, name, e) => run_let::<T>(alloc, *pos, name, e, context, chosen),
        Stmt::Assign(pos, name, e) => run_assign::<T>(alloc, *pos, name, e, context, chosen),
        Stmt::Add(e, pos, name) => run_add::<T>(alloc, e, *pos, name, context, chosen),
        Stmt::Assert(pos, condition) => run_assert::<T>(alloc, *pos, condition, context, chosen),
        Stmt::Print(pos, place, name) => run_print(alloc, *pos, *place, name, context),
        Stmt::For(_, _, _) | Stmt::If(_, _, _) | Stmt::While(_, _, _, _) => unreachable!(),
    }
}

fn run_let<T: Structure>(
    alloc: Global,
    pos: Pos,
    name: &Name,
    e: &Expr,
    context: Context,
    chosen: &mut Chosen,
) -> Result<Vec<Context>, Stop>
    requires { IsWellFormedIn (StmtIsWellScoped («let» pos.offset name.now (tree e.now))) T.ordered context }
    ensures runs { IfOk result (λ r. RunsAs (stmt_run («let» pos.offset name.now (tree e.now))) context r.items) }
    ensures fault { IfErr result (λ s. IfFault s (FailsWithin T.ordered (stmt_run («let» pos.offset name.now (tree e.now))) context)) }
    ensures only_asked { HasOnlyAsked (λ b. (⟦<dyn Decider as Decider>⟧ b.vtable).kind_of b.value) (λ b. (⟦<dyn Decider as Decider>⟧ b.vtable).questions b.value) chosen.old chosen.new }
{
    let term = normal_value::<T>(alloc, e, &context, chosen)?;
    let slot = Slot::new(alloc, name.copy(alloc)?, term, 0)?;
    Ok(one(alloc, with_slot(context, slot)?)?)
}

fn run_assign<T: Structure>(
    alloc: Global,
    pos: Pos,
    name: &Name,
    e: &Expr,
    context: Context,
    chosen: &mut Chosen,
) -> Result<Vec<Context>, Stop>
    requires { IsWellFormedIn (StmtIsWellScoped (assign pos.offset name.now (tree e.now))) T.ordered context }
    ensures runs { IfOk result (λ r. RunsAs (stmt_run (assign pos.offset name.now (tree e.now))) context r.items) }
    ensures fault { IfErr result (λ s. IfFault s (FailsWithin T.ordered (stmt_run (assign pos.offset name.now (tree e.now))) context)) }
    ensures only_asked { HasOnlyAsked (λ b. (⟦<dyn Decider as Decider>⟧ b.vtable).kind_of b.value) (λ b. (⟦<dyn Decider as Decider>⟧ b.vtable).questions b.value) chosen.old chosen.new }
{
    let term = normal_value::<T>(alloc, e, &context, chosen)?;
    let Some(index) = context.store.place_of(name) else {
        unreachable!();
    };
    let slot = Slot::new(alloc, name.copy(alloc)?, term, 0)?;
    Ok(one(alloc, with_slot_at(context, index, slot))?)
}

fn run_add<T: Structure>(
    alloc: Global,
    e: &Expr,
    pos: Pos,
    name: &Name,
    context: Context,
    chosen: &mut Chosen,
) -> Result<Vec<Context>, Stop>
    requires { IsWellFormedIn (StmtIsWellScoped (add (tree e.now) pos.offset name.now)) T.ordered context }
    ensures runs { IfOk result (λ r. RunsAs (stmt_run (add (tree e.now) pos.offset name.now)) context r.items) }
    ensures fault { IfErr result (λ s. IfFault s (FailsWithin T.ordered (stmt_run (add (tree e.now) pos.offset name.now)) context)) }
    ensures only_asked { HasOnlyAsked (λ b. (⟦<dyn Decider as Decider>⟧ b.vtable).kind_of b.value) (λ b. (⟦<dyn Decider as Decider>⟧ b.vtable).questions b.value) chosen.old chosen.new }
{
    let item = normal_value::<T>(alloc, e, &context, chosen)?;
    let Some(index) = context.store.place_of(name) else {
        unreachable!();
    };
    let out = take_out(alloc, context, index, name)?;
    let Taken {
        rest,
        name,
        term,
        from,
    } = out;
    let extended = with_member(alloc, term, item)?;
    let Some(set) = extended else {
        return Err(fault_under(alloc, pos, FaultKind::NotASet, &rest.sample));
    };
    check_depth::<T>(alloc, pos, &set, &rest, chosen)?;
    let slot = Slot {
        name,
        term: set,
        from,
    };
    Ok(one(alloc, with_slot_at(rest, index, slot))?)
}

fn run_assert<T: Structure>(
    alloc: Global,
    pos: Pos,
    condition: &Cond,
    context: Context,
    chosen: &mut Chosen,
) -> Result<Vec<Context>, Stop>
    requires { IsWellFormedIn (StmtIsWellScoped (assert pos.offset (cond_tree condition.now))) T.ordered context }
    ensures runs { IfOk result (λ r. RunsAs (stmt_run (assert pos.offset (cond_tree condition.now))) context r.items) }
    ensures fault { IfErr result (λ s. IfFault s (FailsWithin T.ordered (stmt_run (assert pos.offset (cond_tree condition.now))) context)) }
    ensures only_asked { HasOnlyAsked (λ b. (⟦<dyn Decider as Decider>⟧ b.vtable).kind_of b.value) (λ b. (⟦<dyn Decider as Decider>⟧ b.vtable).questions b.value) chosen.old chosen.new }
{
    let decided = decide::<T>(alloc, condition, &context, chosen)?;
    match chosen.entails(alloc, &context.when, &decided, context.size)? {
        Some(sample) => Err(fault(alloc, pos, FaultKind::Assertion, sample)),
        None => Ok(one(alloc, context)?),
    }
}

fn run_print(
    alloc: Global,
    pos: Pos,
    place: Pos,
    name: &Name,
    context: Context,
) -> Result<Vec<Context>, Stop>
    requires { (ordered : Bool) × IsWellFormedIn (StmtIsWellScoped (print pos.offset place.offset name.now)) ordered context }
    ensures runs { IfOk result (λ r. RunsAs (stmt_run (print pos.offset place.offset name.now)) context r.items) }
    ensures fault { IfErr result (λ s. IfFault s (λ f. ⊥)) }
{
    let line = Line {
        name: name.copy(alloc)?,
        term: item_of(alloc, &context.store, name)?,
    };
    Ok(one(alloc, with_line(alloc, context, line)?)?)
}

// The context with a slot more.
fn with_slot(context: Context, slot: Slot) -> Result<Context, NoMemory>
    requires levels { Fits context.size (term_tree slot.term) }
    requires from { slot.from ≤ comps_in (term_tree slot.term) }
    requires new_name { IsNew slot.name context.store }
    ensures { IfOk result (IsWithStore (context.store ++ slot_of slot ∷ []) context) }
{
    let Context {
        size,
        when,
        sample,
        mut store,
        lines,
    } = context;
    store.push(slot)?;
    Ok(Context {
        size,
        when,
        sample,
        store,
        lines,
    })
}

// What a slot of a context held, and the context, whose slot of that name is empty meanwhile.
#[derive(Drop)]
struct Taken {
    rest: Context,
    name: Name,
    term: Content,
    from: usize,
}

// Takes out what the slot at an index holds: so it isn't copied where no other context holds it.
fn take_out(alloc: Global, context: Context, index: usize, name: &Name) -> Result<Taken, NoMemory>
    requires index { index < length context.store }
    requires name { HoldsAt (λ s. s.name ≡ name.now) context.store index }
    ensures { IfOk result (IsTaken index context) }
{
    let Context {
        size,
        when,
        sample,
        mut store,
        lines,
    } = context;
    let empty = Slot::new(alloc, name.copy(alloc)?, Term::Coll(Comps::new(alloc)), 0)?;
    let Slot { name, term, from } = store.replace(index, empty);
    Ok(Taken {
        rest: Context {
            size,
            when,
            sample,
            store,
            lines,
        },
        name,
        term,
        from,
    })
}

// The context with another term under a name.
fn with_slot_at(context: Context, index: usize, slot: Slot) -> Context
    requires levels { Fits context.size (term_tree slot.term) }
    requires from { slot.from ≤ comps_in (term_tree slot.term) }
    requires index { index < length context.store }
    requires name { HoldsAt (λ s. s.name ≡ slot.name) context.store index }
    ensures { IsWithStore (slice_set context.store index (slot_of slot)) context result }
{
    let Context {
        size,
        when,
        sample,
        mut store,
        lines,
    } = context;
    store.set(index, slot);
    Context {
        size,
        when,
        sample,
        store,
        lines,
    }
}

// The context with a line more.
fn with_line(alloc: Global, context: Context, line: Line) -> Result<Context, NoMemory>
    requires { Fits context.size (term_tree line.term) }
    ensures { IfOk result (IsWithLine line context) }
{
    let Context {
        size,
        when,
        sample,
        store,
        lines,
    } = context;
    let mut printed = lines.into_lines(alloc)?;
    printed.push(line)?;
    let lines = Shared::new(alloc, printed)?;
    Ok(Context {
        size,
        when,
        sample,
        store,
        lines,
    })
}

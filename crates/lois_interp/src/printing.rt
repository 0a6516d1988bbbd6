//! The lines with which a script ends, as they are printed.

ghost use Rattle.std.specs.Prelude.{◌≡◌, IfOk};
ghost use Rattle.std.specs.List.{All, AllZip};
ghost use Rattle.lois_base.specs.Over.{IsOver, ConstraintIsOver};
ghost use Rattle.lois_base.specs.Tree.{tree};
ghost use Rattle.lois_answers.specs.LineView.{line_of};
ghost use Rattle.lois_deciders.specs.OnlyAsked.{HasOnlyAsked};
ghost use Rattle.lois_context.specs.Choices.{AdmitsContext};
ghost use Rattle.lois_interp.specs.Printed.{IsPrintedLine, IsPrinted};

use lois_answers::{Line, Lines, tags_are_names};
use lois_base::{Constraint, Decider, NoMemory, Structure};
use lois_context::{Context, Shared, Store};
use lois_deciders::Chosen;
use lois_readable::make_readable;
use std::alloc::Global;

/// The contexts without their stores, each line normal where its context admits a choice.
pub(crate) fn all_printed<T: Structure>(
    alloc: Global,
    contexts: Vec<Context>,
    chosen: &mut Chosen,
) -> Result<Vec<Context>, NoMemory>
    requires { All (AdmitsContext T.ordered) contexts.items }
    ensures printed { IfOk result (λ r. AllZip IsPrinted contexts.items r.items) }

    // whatever is answered
    ensures only_asked { HasOnlyAsked (λ b. (⟦<dyn Decider as Decider>⟧ b.vtable).kind_of b.value) (λ b. (⟦<dyn Decider as Decider>⟧ b.vtable).questions b.value) chosen.old chosen.new }
{
    let mut printed = Vec::new(alloc);
    for context in contexts {
        printed.push(one_printed::<T>(alloc, context, chosen)?)?;
    }
    Ok(printed)
}

fn one_printed<T: Structure>(
    alloc: Global,
    context: Context,
    chosen: &mut Chosen,
) -> Result<Context, NoMemory>
    requires { AdmitsContext T.ordered context }
    ensures printed { IfOk result (IsPrinted context) }
    ensures only_asked { HasOnlyAsked (λ b. (⟦<dyn Decider as Decider>⟧ b.vtable).kind_of b.value) (λ b. (⟦<dyn Decider as Decider>⟧ b.vtable).questions b.value) chosen.old chosen.new }
{
    let printed = printed_lines::<T>(alloc, &context, chosen)?;
    let lines = Shared::new(alloc, printed)?;
    let Context {
        size,
        when,
        sample,
        ..
    } = context;
    Ok(Context {
        size,
        when,
        sample,
        store: Store::new(alloc),
        lines,
    })
}

fn printed_lines<T: Structure>(
    alloc: Global,
    context: &Context,
    chosen: &mut Chosen,
) -> Result<Lines, NoMemory>
    requires { AdmitsContext T.ordered context.now }
    ensures printed { IfOk result (λ r. AllZip (IsPrintedLine context.now.size context.now.when) context.now.lines r) }
    ensures only_asked { HasOnlyAsked (λ b. (⟦<dyn Decider as Decider>⟧ b.vtable).kind_of b.value) (λ b. (⟦<dyn Decider as Decider>⟧ b.vtable).questions b.value) chosen.old chosen.new }
{
    let mut lines = Lines::new(alloc);
    for line in context.lines.get().as_slice() {
        lines.push(printed_line::<T>(alloc, line, &context.when, context.size, chosen)?)?;
    }
    Ok(lines)
}

fn printed_line<T: Structure>(
    alloc: Global,
    line: &Line,
    under: &Constraint,
    size: usize,
    chosen: &mut Chosen,
) -> Result<Line, NoMemory>
    requires over { IsOver T.ordered size (tree line.now.term) }
    requires under { ConstraintIsOver T.ordered size under.now }
    ensures printed { IfOk result (λ r. IsPrintedLine size under.now (line_of line.now) (line_of r)) }
    ensures only_asked { HasOnlyAsked (λ b. (⟦<dyn Decider as Decider>⟧ b.vtable).kind_of b.value) (λ b. (⟦<dyn Decider as Decider>⟧ b.vtable).questions b.value) chosen.old chosen.new }
{
    let term = make_readable::<T>(alloc, &line.term, under, size, chosen)?;
    tags_are_names(&term);
    Ok(Line {
        name: line.name.copy(alloc)?,
        term,
    })
}

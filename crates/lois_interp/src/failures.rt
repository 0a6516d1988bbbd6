//! What a run has stopped for, as it is told: the elements of a fault have no `<=`.

ghost use Rattle.std.specs.Prelude.{IfOk};
ghost use Rattle.std.specs.List.{AllZip};
ghost use Rattle.lois_answers.specs.LineView.{line_of};
ghost use Rattle.lois_interp.specs.Split.{IsSplitLine, IsSplitFault, IsSplitStop};

use lois_answers::{Line, Lines};
use lois_base::NoMemory;
use lois_meaning::{Fault, Stop};
use lois_strict::split_term;
use std::alloc::Global;

/// What a run has stopped for, where the elements of a fault have the same values without `<=`.
pub(crate) fn split_stop(alloc: Global, stop: Stop) -> Stop
    ensures { IsSplitStop stop result }
{
    match stop {
        Stop::NoMemory => Stop::NoMemory,
        Stop::Fault(fault) => match split_fault(alloc, fault) {
            Ok(split) => Stop::Fault(split),
            Err(_) => Stop::NoMemory,
        },
    }
}

fn split_fault(alloc: Global, fault: Fault) -> Result<Fault, NoMemory>
    ensures { IfOk result (IsSplitFault fault) }
{
    let elements = split_lines(alloc, &fault.elements)?;
    Ok(Fault {
        pos: fault.pos,
        kind: fault.kind,
        sample: fault.sample,
        elements,
    })
}

fn split_lines(alloc: Global, lines: &Lines) -> Result<Lines, NoMemory>
    ensures { IfOk result (λ r. AllZip IsSplitLine lines.now r) }
{
    let mut split = Lines::new(alloc);
    for line in lines.as_slice() {
        split.push(split_line(alloc, line)?)?;
    }
    Ok(split)
}

fn split_line(alloc: Global, line: &Line) -> Result<Line, NoMemory>
    ensures { IfOk result (λ r. IsSplitLine (line_of line.now) (line_of r)) }
{
    Ok(Line {
        name: line.name.copy(alloc)?,
        term: split_term(alloc, &line.term)?,
    })
}

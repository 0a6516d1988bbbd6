//! The text of results and of traces.

ghost use Rattle.std.specs.Prelude.{◌≡◌, ◌++◌, OnOk, IfOk, length};
ghost use Rattle.std.specs.List.{All, flat_map};
ghost use Rattle.lois_answers.specs.CaseView.{case_of};
ghost use Rattle.lois_answers.specs.LineView.{line_of};
ghost use Rattle.lois_answers.specs.ResultsText.{structure_text, parameters_text, line_text, case_text, results_text};
ghost use Rattle.lois_answers.specs.Sound.{IsSound, IsSoundTrace};
ghost use Rattle.lois_answers.specs.TraceText.{failure_text, element_text, trace_text};
ghost use Rattle.lois_printer.specs.Inside.{LineFits, CaseFits};

use crate::guards::append_constraint;
use crate::lines::append_choice;
use crate::pieces::{append, append_number};
use crate::terms::append_term;
use lois_answers::{Case, Cases, FaultKind, Line, Lines, Results, Trace};
use lois_base::{Names, NoMemory};
use std::alloc::Global;

fn structure_line(order: bool) -> &'static [u8]
    ensures { result.now ≡ structure_text order }
{
    if order {
        b"atoms order\n"
    } else {
        b"atoms equality\n"
    }
}

fn append_parameters(text: &mut Vec<u8>, parameters: &Names) -> Result<(), NoMemory>
    ensures { OnOk result (text.new.items ≡ text.old.items ++ parameters_text parameters.now) }
{
    append(text, b"parameters")?;
    for name in parameters.as_slice() {
        append(text, b" ")?;
        append(text, name.bytes())?;
    }
    append(text, b"\n")
}

// The line, whose term is inside `size` levels.
fn append_line(
    alloc: Global,
    text: &mut Vec<u8>,
    parameters: &Names,
    size: usize,
    line: &Line,
) -> Result<(), NoMemory>
    requires { LineFits size (line_of line.now) }
    ensures { OnOk result (text.new.items ≡ text.old.items ++ line_text parameters.now size (line_of line.now)) }
{
    append(text, line.name.bytes())?;
    append(text, b" = ")?;
    append_term(alloc, text, parameters, size, &line.term)?;
    append(text, b"\n")
}

fn append_lines(
    alloc: Global,
    text: &mut Vec<u8>,
    parameters: &Names,
    size: usize,
    lines: &Lines,
) -> Result<(), NoMemory>
    requires { All (LineFits size) lines.now }
    ensures { OnOk result (text.new.items ≡ text.old.items ++ flat_map (line_text parameters.now size) lines.now) }
{
    for line in lines.as_slice() {
        append_line(alloc, text, parameters, size, line)?;
    }
    Ok(())
}

fn append_case(
    alloc: Global,
    text: &mut Vec<u8>,
    parameters: &Names,
    case: &Case,
) -> Result<(), NoMemory>
    requires { All (LineFits (length parameters.now)) (case_of case.now).lines }
    ensures { OnOk result (text.new.items ≡ text.old.items ++ case_text parameters.now (case_of case.now)) }
{
    append(text, b"case when ")?;
    append_constraint(alloc, text, parameters, &case.when)?;
    append(text, b"\n")?;
    append_lines(alloc, text, parameters, parameters.len(), &case.lines)
}

fn append_cases(
    alloc: Global,
    text: &mut Vec<u8>,
    parameters: &Names,
    cases: &Cases,
) -> Result<(), NoMemory>
    requires { All (CaseFits (length parameters.now)) cases.now }
    ensures { OnOk result (text.new.items ≡ text.old.items ++ flat_map (case_text parameters.now) cases.now) }
{
    for case in cases.as_slice() {
        append_case(alloc, text, parameters, case)?;
    }
    Ok(())
}

/// The text of the results. Errors: `NoMemory`.
pub fn print_results(alloc: Global, results: &Results) -> Result<Vec<u8>, NoMemory>
    requires { IsSound results.now }
    ensures text { IfOk result (λ t. t.items ≡ results_text results.now) }
{
    let mut text = Vec::new(alloc);
    append(&mut text, b"lois results 1\n")?;
    append(&mut text, structure_line(results.order))?;
    append_parameters(&mut text, &results.parameters)?;
    append_cases(alloc, &mut text, &results.parameters, &results.cases)?;
    append(&mut text, b"end\n")?;
    Ok(text)
}

fn append_failure(
    alloc: Global,
    text: &mut Vec<u8>,
    line: usize,
    column: usize,
    kind: FaultKind,
) -> Result<(), NoMemory>
    ensures { OnOk result (text.new.items ≡ text.old.items ++ failure_text line column kind) }
{
    append(text, b"failed at ")?;
    append_number(alloc, text, line as u64)?;
    append(text, b":")?;
    append_number(alloc, text, column as u64)?;
    append(text, b": ")?;
    append(text, kind.text())?;
    append(text, b"\n")
}

fn append_elements(
    alloc: Global,
    text: &mut Vec<u8>,
    parameters: &Names,
    size: usize,
    elements: &Lines,
) -> Result<(), NoMemory>
    requires { All (LineFits size) elements.now }
    ensures { OnOk result (text.new.items ≡ text.old.items ++ flat_map (element_text parameters.now size) elements.now) }
{
    for element in elements.as_slice() {
        append(text, b"for ")?;
        append_line(alloc, text, parameters, size, element)?;
    }
    Ok(())
}

/// The text of the trace. Errors: `NoMemory`.
pub fn print_trace(alloc: Global, trace: &Trace) -> Result<Vec<u8>, NoMemory>
    requires { IsSoundTrace trace.now }
    ensures text { IfOk result (λ t. t.items ≡ trace_text trace.now) }
{
    let mut text = Vec::new(alloc);
    append(&mut text, b"lois results 2\n")?;
    append(&mut text, structure_line(trace.order))?;
    append_parameters(&mut text, &trace.parameters)?;
    append_failure(alloc, &mut text, trace.line, trace.column, trace.kind)?;
    append_choice(alloc, &mut text, &trace.sample)?;
    append_elements(
        alloc,
        &mut text,
        &trace.parameters,
        trace.sample.len(),
        &trace.elements,
    )?;
    append(&mut text, b"end\n")?;
    Ok(text)
}

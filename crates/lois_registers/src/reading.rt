//! The reader of register automata.

ghost use Rattle.std.specs.Prelude.{◌≡◌, ◌≤◌, ◌++◌, length, map, IfOk, IfErr};
ghost use Rattle.std.specs.List.{All, flat_map};
ghost use Rattle.lois_base.specs.Names.{IsName};
ghost use Rattle.lois_registers.specs.Places.{IsRegistersOf, IsFaultPlace, SpellsNoRegisters};
ghost use Rattle.lois_registers.specs.Stops.{IsOnlyPlace, StopsIn};
ghost use Rattle.lois_registers.specs.Reading.{BeginsWithNoLine};
ghost use Rattle.lois_registers.specs.Texts.{text_of_words, step_words};
ghost use Rattle.lois_registers.specs.Valid.{IsRegStep};
ghost use Rattle.lois_registers.specs.ReadParts.{IsCount};
ghost use Rattle.lois_registers.specs.declared.automata.Registers.{Registers};
ghost use Rattle.std.specs.Prelude.{◌⊎◌};

use crate::fixed::{count_line, order_line, title};
use crate::lines::is;
use crate::parse_error::ParseError;
use crate::states::{final_line, initial_line, states_line};
use crate::steps::{Header, step_line};
use crate::{RegSteps, Registers, RegistersError};
use lois_base::NoMemory;
use std::alloc::Global;

/// The most steps.
const MOST_STEPS: usize = 256;

/// As many steps as there are, but not more than the most, and what follows their lines.
fn steps<'a>(
    alloc: Global,
    frame: Header<'_>,
    text: &'a [u8],
) -> Result<(RegSteps, &'a [u8]), NoMemory>
    requires count { IsCount frame.registers }
    requires form { All IsName frame.states.now }
    ensures few { IfOk result (λ x. length x.0 ≤ 256) }
    ensures valid { IfOk result (λ x. All (IsRegStep frame.entry.order frame.entry.registers frame.entry.states.now) x.0) }
    ensures read { IfOk result (λ x. text.now ≡ flat_map text_of_words (map step_words x.0) ++ x.1.now) }
    ensures all { IfOk result (λ x. (length x.0 ≡ 256)
        ⊎ BeginsWithNoLine (IsRegStep frame.entry.order frame.entry.registers frame.entry.states.now) step_words x.1.now) }
{
    let mut steps = RegSteps::new(alloc);
    let mut rest = text;
    for _step in 0..MOST_STEPS {
        match step_line(alloc, frame, rest) {
            Ok((step, after)) => {
                steps.push(step)?;
                rest = after;
            }
            Err(ParseError::Left(_)) => return Ok((steps, rest)),
            Err(ParseError::NoMemory) => return Err(NoMemory),
        }
    }
    Ok((steps, rest))
}

fn registers_of(alloc: Global, text: &[u8]) -> Result<Registers, ParseError>
    ensures exact { IfOk result (IsRegistersOf text.now) }
    ensures left { IfErr result (StopsIn text.now) }
{
    let rest = title(text)?;
    let (order, rest) = order_line(rest)?;
    let (registers, rest) = count_line(rest)?;
    let (states, rest) = states_line(alloc, rest)?;
    let (initial, rest) = initial_line(alloc, states.as_slice(), rest)?;
    let (finals, rest) = final_line(alloc, states.as_slice(), rest)?;
    let frame = Header {
        order,
        registers,
        states: states.as_slice(),
    };
    let (steps, rest) = steps(alloc, frame, rest)?;
    if !is(rest, b"end\n") {
        return Err(ParseError::Left(rest.len()));
    }
    Ok(Registers {
        order,
        registers,
        states,
        initial,
        finals,
        steps,
    })
}

/// The register automaton whose text this is.
///
/// # Errors
/// `NotRegisters` where the text is that of none, with the offset of the first byte of the first line, in order, that isn't of
/// its form, breaks its rule or doesn't end with LF, or the text's length where a line is missing. `NoMemory` where memory ran
/// out.
pub fn read_registers(alloc: Global, text: &[u8]) -> Result<Registers, RegistersError>
    // Ok gives the register automaton of the text, which is the only one.
    ensures exact { IfOk result (IsRegistersOf text.now) }
    ensures alone { IfOk result (λ r. (s : Registers) → IsRegistersOf text.now s → s ≡ r) }

    // A refusal comes only where there is none, at the first line at fault.
    ensures none { IfErr result (SpellsNoRegisters text.now) }
    ensures place { IfErr result (IsFaultPlace text.now) }
    ensures only { IfErr result (IsOnlyPlace text.now) }
{
    let len = text.len();
    match registers_of(alloc, text) {
        Ok(registers) => Ok(registers),
        Err(ParseError::Left(left)) => Err(RegistersError::NotRegisters(len.saturating_sub(left))),
        Err(ParseError::NoMemory) => Err(RegistersError::NoMemory),
    }
}

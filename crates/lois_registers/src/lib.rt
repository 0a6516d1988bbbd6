//! Register automata: their texts, and the orbit-finite automata that they become.
#![tactic(auto)]

ghost use Rattle.lois_registers.specs.declared.RegistersError.TheVariants.{NoMemory};

mod automata;
mod fixed;
mod lines;
mod parse_error;
mod placements;
mod reading;
mod results;
mod states;
mod steps;
mod translating;

pub use automata::{RegStep, RegSteps, Registers, Stores};
pub use reading::read_registers;
pub use results::translate_to_results;
use thiserror::Error;
pub use translating::translate;

/// Why a text gives no register automaton.
#[derive(Clone, Copy, Debug, PartialEq, Eq, Error)]
pub enum RegistersError {
    /// The text isn't one of a register automaton. The offset is that of the first byte of the first line at fault, or the
    /// text's length where a line is missing.
    #[error("no register automaton at {0}")]
    NotRegisters(usize),
    /// Memory ran out. It says nothing of the text.
    #[error("out of memory")]
    NoMemory,
}

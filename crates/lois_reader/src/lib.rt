//! Reads the texts of results and of traces, and says exactly where a text is none.
#![tactic(auto)]

ghost use Rattle.lois_reader.specs.declared.ResultError.TheVariants.{NoMemory};

mod answer_ends;
mod answers;
mod constraint_ends;
mod constraints;
pub mod laws;
mod parameters;
mod parse_error;
mod reading;
mod scope;
mod term_ends;
mod terms;
mod words;

pub use reading::{read_answer, read_results};
use thiserror::Error;

/// Why a text gives no answer.
#[derive(Clone, Copy, Debug, PartialEq, Eq, Error)]
pub enum ResultError {
    /// The text isn't one of results, or of a trace, with the offset of the first byte at fault, or its length.
    #[error("not results at {0}")]
    NotResults(usize),
    /// Memory ran out. It says nothing of the text.
    #[error("out of memory")]
    NoMemory,
}

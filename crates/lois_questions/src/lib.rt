//! The top call of `lois_ask`: from words and the text of results to the answer of a question, its text and the status.
#![tactic(auto)]

mod answers;
mod command_line;
pub mod laws;
mod outcomes;
mod top;

pub use outcomes::{Input, Outcome, Refusal};
pub use top::{lois_ask, outcome};

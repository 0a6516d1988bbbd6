//! The top call: from words and bytes to the answer, its text and the status.
#![tactic(auto)]

mod elements;
pub mod laws;
mod lines;
mod made;
mod outcomes;
mod reading;
mod running;
mod texts;
mod top;
mod words;

pub use lois_make::make_script;
pub use outcomes::{Made, Outcome, Refusal};
pub use top::{lois, outcome};

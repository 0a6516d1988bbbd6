//! Prints results and traces: each sound one has one text.
#![tactic(auto)]

mod answers;
mod guards;
mod lines;
mod pieces;
mod terms;

pub use answers::{print_results, print_trace};
pub use lines::{append_choice, append_count, append_term_line};
pub use pieces::{append, append_number};
pub use terms::append_term;

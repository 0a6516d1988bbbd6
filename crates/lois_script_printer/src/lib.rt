//! The printed form of a script: its tokens, each with a byte behind it.
#![tactic(auto)]

mod forms;
mod script;
mod statements;
mod tokens;

pub use script::print_script;

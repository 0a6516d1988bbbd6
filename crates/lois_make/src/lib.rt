//! The script that `make` runs, and what it means.
#![tactic(auto)]

pub mod laws;
mod making;

pub use making::make_script;

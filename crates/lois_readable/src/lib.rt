//! Answers that a person can read: normal terms whose comprehensions are split where each part needs fewer binders.
#![tactic(auto)]

mod alike;
mod joining;
mod lines;
mod losing;
mod ordering;
mod reading;
mod splitting;
mod strengthening;
mod surroundings;
mod weights;

pub use reading::make_readable;

//! The minimal automaton: its states are the classes of reachable states from which the same words are accepted.
#![tactic(auto)]

mod classing;
mod indexed;
mod members;
mod minimising;
mod moving;
mod naming;
mod ordering;
mod pairs;
mod partitioning;
mod refining;
mod telling;
mod transitions;
mod tying;

pub use minimising::minimise;

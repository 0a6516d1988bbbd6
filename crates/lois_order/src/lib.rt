//! Atoms with an order: the fractions.
#![tactic(auto)]

mod atoms;
mod cubes;
mod rule;

pub use atoms::OrderAtoms;

//! Atoms with equality alone.
#![tactic(auto)]

mod atoms;

pub use atoms::EqualityAtoms;

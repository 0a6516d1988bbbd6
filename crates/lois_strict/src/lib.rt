//! Constraints and terms without `<=`.
#![tactic(auto)]

mod constraints;
mod terms;

pub use constraints::split_constraint;
pub use terms::split_term;

//! Equality, membership and inclusion of the values of terms, as formulas.
#![tactic(auto)]

pub mod building;
mod candidates;
mod clashes;
mod comparing;
mod matching;
mod naming;
mod relating;

pub use clashes::clash;
pub use relating::{
    equal_formula, included_formula, item_formula, item_formula_among, item_formula_indexed,
    member_formula,
};

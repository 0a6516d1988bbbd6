//! Elimination of quantifiers: each formula has an equivalent constraint.
#![tactic(auto)]

mod elimination;
mod forced;
mod levels;
mod names;
mod turns;

pub use elimination::quantifier_free;
pub use levels::{for_some, for_some_more};

//! Rounds over families of constraints, made until a round changes nothing any more.
#![tactic(auto)]

mod families;
mod fixpoint;
mod rounds;

pub use families::{Family, Member};
pub use fixpoint::{grow, shrink};
pub use rounds::Round;

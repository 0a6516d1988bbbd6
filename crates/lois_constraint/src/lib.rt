//! Constraints over atoms: conjunction, disjunction, negation, and constraints that stay small.
//!
//! [`and`], [`or`] and [`conjoin_cube`] put together what they are given and drop nothing. [`prune`],
//! [`meet`], [`negate`], [`and_not`] and [`normalise`] drop the cubes that can't be met and those that others cover.
#![tactic(auto)]

mod antichain;
mod closed_cube;
mod conflicts;
mod covering;
mod denying;
mod level_order;
mod levels;
mod low_levels;
mod negation;
mod normal;
mod order_closure;
mod products;
mod pruning;
mod signature;
mod sorting;

pub use conflicts::{alternatives, conflict, entails, implies};
pub use covering::covers_cube;
pub use levels::{shift, substitute, substitute_cube};
pub use negation::{Remainder, and_not, and_not_partly, negate};
pub use normal::normalise;
pub use products::{and, conjoin_cube, or, singleton};
pub use pruning::{meet, prune, tighten};

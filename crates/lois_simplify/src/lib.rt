//! Normal terms: the same values with as few comprehensions and binders as they need.
#![tactic(auto)]

mod covering;
mod distinct;
mod fixing;
mod guards;
mod moving;
mod oracle;
mod orders;
mod parting;
mod refuting;
mod rewording;
mod rounds;
mod sampling;
mod shortening;
mod simplifying;
mod wide_cubes;
mod witness;

pub use shortening::shortest;
pub use simplifying::{simplify, simplify_to_read};

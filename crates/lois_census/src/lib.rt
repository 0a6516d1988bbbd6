//! The census of a set: one member of each orbit.
#![tactic(auto)]

mod alike;
mod answering;
mod cells;
mod counting;
mod inside;
mod listing;
mod orbits;
mod texts;

pub use answering::census_of;
pub use counting::{Answer, Census, Censuses, Refusal};
pub use inside::in_orbit;
pub use listing::census;
pub use orbits::{Orbit, Orbits};
pub use texts::print_censuses;

//! The numbers of a sample as ranks.
#![tactic(auto)]

mod ranking;

pub use ranking::rank_sample;

//! Shortest words that automata accept.
#![tactic(auto)]

mod common;
mod joint_steps;
mod layers;
mod lowering;
mod meeting;
mod narrowing;
mod ranking;
mod rounds;
mod shortening;
mod shortest;
mod steps;
mod symbolic_states;
mod walking;
mod words;

pub use common::shortest_common_word;
pub use ranking::rank_found;
pub use shortening::drop_unused_numbers;
pub use shortest::shortest_word;
pub use words::Word;

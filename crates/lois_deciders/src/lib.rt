//! Deciders: whether some choice of atoms meets a cube, with a sample where one does.
#![tactic(auto)]

mod chosen;
mod graph;
mod labels;
mod memo;
mod places;
mod plain;
mod questions;
mod ranks;
mod stages;
mod strict;

pub use chosen::{Chosen, SampledConstraint};
pub use graph::GraphDecider;
pub use memo::MemoDecider;
pub use plain::PlainDecider;

//! Which case of results holds at a choice of atoms, and whether exactly one does at each.
#![tactic(auto)]

mod holding;
mod partitions;

pub use holding::{Holding, find_case};
pub use partitions::{Partition, check_partition};

//! Terms at other levels and under further guards, and which levels occur in them.
#![tactic(auto)]

mod guarding;
mod hashing;
mod indexing;
mod placing;
mod reading;
mod shifting;

pub use guarding::with_guard;
pub use hashing::{hash_name, hash_term, hash_written, shape};
pub use indexing::{Index, index_as_written, index_by_shape, is_written_in};
pub use placing::{Placed, instantiate};
pub use reading::{binds_nothing, height, is_within_depth, occurs};
pub use shifting::shift_term;

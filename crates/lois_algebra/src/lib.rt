//! Operations on sets, parts of tuples, and the depth of values.
#![tactic(auto)]

mod depth;
mod gathering;
mod parts;
mod putting;
mod selecting;
mod uniting;

pub use depth::depth_formula;
pub use gathering::collect_over;
pub use parts::project;
pub use putting::push_comp;
pub use selecting::{inter, minus, selected_guard};
pub use uniting::{all_atoms, union};

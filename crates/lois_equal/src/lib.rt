//! Whether two automata accept the same words, or a shortest word that tells them apart.
#![tactic(auto)]

mod comparing;
mod completion;
mod difference;
mod differing;
mod sink_steps;
mod splitting;
mod texts;

pub use comparing::{Comparison, ComparisonFault, compare, is_deterministic};
pub use difference::shortest_difference;
pub use differing::{Difference, Equality, equal};
pub use splitting::split_found;
pub use texts::{append_letters, print_difference};

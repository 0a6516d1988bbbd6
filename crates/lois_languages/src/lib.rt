//! Words of lines of results, case by case: a shortest one that a line accepts, and one that a line accepts and another doesn't.
#![tactic(auto)]

mod faults;
mod inclusions;
mod texts;
mod witnesses;

pub use faults::LineFault;
pub use inclusions::{Inclusion, inclusion_of};
pub use texts::print_word;
pub use witnesses::{Witness, word_of};

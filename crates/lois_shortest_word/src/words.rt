//! Words as they are answered.

use lois_base::{Numbers, Terms};

/// A word that an automaton accepts at a choice of atoms: letters as terms, and numbers for all levels that they use. The first
/// numbers are the choice.
#[derive(Drop)]
pub struct Word {
    pub sample: Numbers,
    pub letters: Terms,
}

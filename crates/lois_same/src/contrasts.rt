//! Where two results differ.

use lois_base::{Name, Numbers, Term};

/// Two cases, by their numbers, from 1, that hold at one choice and whose lines differ there. The choice is that of the sample's
/// first numbers, one for each parameter.
#[derive(Drop)]
pub struct Contrast {
    pub first: usize,
    pub second: usize,
    pub sample: Numbers,
    pub detail: Detail,
}

/// How the lines of two cases differ. Lines count from 1.
#[derive(Drop)]
pub enum Detail {
    // how many lines the first has, and the second
    Count(usize, usize),
    // the lines of this number have different names
    Names(usize, Name, Name),
    // the lines of this number and name have different values, and not both are sets
    Values(usize, Name),
    // the lines of this number and name are sets of which only one has the term, read at the sample, as a member: the first, where
    // the last part is true
    Member(usize, Name, Term, bool),
}

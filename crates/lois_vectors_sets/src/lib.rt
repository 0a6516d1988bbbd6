//! Tests of the crates on terms, relations between values, operations on sets and normal terms, by their public calls.
#![tactic(auto)]

#[cfg(test)]
mod algebra;
#[cfg(test)]
mod making;
#[cfg(test)]
mod readable;
#[cfg(test)]
mod relate;
#[cfg(test)]
mod simplify;
#[cfg(test)]
mod terms;

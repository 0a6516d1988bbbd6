//! Tests of the questions about answers, through the public calls of their crates.
#![tactic(auto)]

#[cfg(test)]
mod asking;
#[cfg(test)]
mod languages;

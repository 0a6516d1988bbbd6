//! Worked rows of the whole program: words and a script in, status and output out.
#![tactic(auto)]

#[cfg(test)]
mod questions;
#[cfg(test)]
mod tests;

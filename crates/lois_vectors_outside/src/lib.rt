//! Tests of `lois_outside` through its public calls.
#![tactic(auto)]

#[cfg(test)]
mod outside;

//! Families through each call of `lois_rounds`, and rounds of the tests' own.
#![tactic(auto)]

#[cfg(test)]
mod rounds;

//! Tests of statements and whole scripts, over the public calls of their crate: worked tables, from texts to results and faults.
#![tactic(auto)]

#[cfg(test)]
mod blocks;
#[cfg(test)]
mod completing;
#[cfg(test)]
mod failing;
#[cfg(test)]
mod making;

//! Tests of expressions and conditions, over the public calls of their crate: worked tables, from texts to values.
#![tactic(auto)]

#[cfg(test)]
mod conditions;
#[cfg(test)]
mod expressions;
#[cfg(test)]
mod failures;
#[cfg(test)]
mod making;
#[cfg(test)]
mod standing;

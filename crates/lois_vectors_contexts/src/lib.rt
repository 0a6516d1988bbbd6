//! Contexts that are split, entered into loops, joined behind them and merged, by the public calls of their crate.
#![tactic(auto)]

#[cfg(test)]
mod contexts;
#[cfg(test)]
mod making;
#[cfg(test)]
mod merging;

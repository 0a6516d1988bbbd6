//! Worked rows and made ones of the crates of atoms, constraints and what decides them, by their public calls.
#![tactic(auto)]

#[cfg(test)]
mod base;
#[cfg(test)]
mod constraint;
#[cfg(test)]
mod deciders;
#[cfg(test)]
mod elim;
#[cfg(test)]
mod equality;
#[cfg(test)]
mod making;
#[cfg(test)]
mod order;
#[cfg(test)]
mod weak;

//! Tests of the crates that read and write texts, and of the trees and answers between them, through their public calls.
#![tactic(auto)]

#[cfg(test)]
mod answers;
#[cfg(test)]
mod lexing;
#[cfg(test)]
mod making;
#[cfg(test)]
mod printing;
#[cfg(test)]
mod reading;
#[cfg(test)]
mod scoping;
#[cfg(test)]
mod scripts;
#[cfg(test)]
mod syntax;

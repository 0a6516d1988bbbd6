//! Reads the tokens of a text as a script, by recursive descent.
#![tactic(auto)]

mod conditions;
mod expressions;
mod grammar;
mod nesting;
mod rest;
mod script;
mod statements;
mod trees;

pub use script::read_tokens;

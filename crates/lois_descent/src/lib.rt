//! The descent that a reader of scripts follows, over lists of tokens, and that it judges all tokens rightly.
#![tactic(auto)]

pub mod laws;
pub mod lexemes;
pub mod parse_error;

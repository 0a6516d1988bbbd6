//! Which scripts are well scoped: each name is declared once before it is used, a loop changes what was made outside it by
//! `add` alone and prints nothing, and `<` stands only where the atoms have an order.
#![tactic(auto)]

mod breaks;
mod checking;
mod expressions;
mod names;
mod statements;
mod walk;

pub use checking::{ScopeError, Scoped, check};

//! Statements at all choices of a context.
#![tactic(auto)]

mod blocks;
mod cases;
mod checks;
mod elements;
mod failures;
mod interpreting;
mod joining;
mod leaves;
mod members;
mod oracle;
mod printing;
mod retelling;
mod running;
mod sides;
mod turns;
mod values;

pub use cases::parameter_names;
pub use interpreting::interpret;
pub use running::run_block;

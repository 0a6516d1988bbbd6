//! What expressions give and which truth conditions have, at all choices that a context admits at once.
#![tactic(auto)]

mod checks;
mod entering;
mod evaluating;
mod faults;
mod flattening;
mod folding;
mod forms;
mod joining;
mod machine_checks;
mod machines;
mod making;
mod operands;
mod operations;
mod oracle;
mod relations;

pub use checks::too_deep;
pub use evaluating::{decide, eval};
pub use faults::{fault, fault_under};

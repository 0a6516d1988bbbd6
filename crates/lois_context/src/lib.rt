//! Contexts: finitely many stand for the runs at all choices of atoms. They are split by conditions, entered into loops, joined
//! behind them and merged.
#![tactic(auto)]

mod content;
mod contexts;
mod entering;
mod hashing;
mod joining;
mod memo;
mod merging;
mod places;
mod shared;
mod slots;
mod splitting;

pub use content::Content;
pub use contexts::{Context, Split};
pub use entering::enter_loop;
pub use joining::join_loop;
pub use merging::merge_equal;
pub(crate) use places::Places;
pub use shared::Shared;
pub use slots::{Slot, Store};
pub use splitting::{side, split};

//! The edge to the outside: where bytes come from, where they go, and when either fails.
//!
//! A [`Source`] gives bytes and a [`Sink`] takes them. Both count their faults, and answer [`Failed`]
//! only where that count rose, so that a fault is told only where one happened. [`read_all`] and
//! [`write_all`] work over any of them.
#![tactic(auto)]

mod fault;
mod memory;
mod putting;
mod reading;
mod standard;
mod sure;
mod taking;
mod writing;

pub use fault::{Failed, NoMemory};
pub use memory::{MemorySink, MemorySource};
pub use putting::Sink;
pub use reading::{ReadError, read_all};
pub use standard::{StdSink, StdSource};
pub use sure::{SureSink, SureSource};
pub use taking::Source;
pub use writing::write_all;

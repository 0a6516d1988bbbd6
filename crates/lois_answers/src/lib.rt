//! What runs answer: results and traces, which of them have a text, and which bytes that text is.
#![tactic(auto)]

mod faults;
mod results;
mod sound;
pub mod texts;

pub use faults::{Answer, FaultKind, Trace};
pub use results::{Case, Cases, Line, Lines, Results};
pub use sound::{is_sound_term, tags_are_names};

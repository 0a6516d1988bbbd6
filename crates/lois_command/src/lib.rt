//! What the top calls of the programs share: places in texts, results that are read, free names, and lines of answers.
#![tactic(auto)]

mod lines;
mod names;
mod places;
mod results;

pub use lines::{case_line, refused_line, text_line};
pub use names::{are_plain, free_name, is_dashed};
pub use places::place_at;
pub use results::{ResultsRead, results_of};

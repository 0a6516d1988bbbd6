//! Whether two results say the same, and where they differ.
#![tactic(auto)]

mod comparing;
mod contrasts;
pub mod laws;
mod lines;
mod members;
mod rows;
mod texts;
mod two_texts;
mod values;

pub use comparing::{Likeness, compare_results};
pub use contrasts::{Contrast, Detail};
pub use texts::print_contrast;
pub use two_texts::first_length;

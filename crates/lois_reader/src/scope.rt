//! What the parts of a text are judged by.

use crate::parameters::Parameters;

/// The parameters of a text, and whether its atoms are ordered.
#[derive(Drop)]
pub struct Scope<'a> {
    pub names: Parameters<'a>,
    pub ordered: bool,
}

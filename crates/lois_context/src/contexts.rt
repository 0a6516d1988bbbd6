//! Contexts.

ghost use Rattle.std.specs.Prelude.{◌≡◌, length, IsTrue};
ghost use Rattle.lois_base.specs.Fits.{ConstraintFits};
ghost use Rattle.lois_base.specs.Truth.{holds, sampled};
ghost use Rattle.lois_context.specs.Kept.{AreSlots, LinesFit, HasDistinctNames, are_slots_prop, lines_fit_prop, names_prop};

use crate::{Shared, Store};
use lois_answers::Lines;
use lois_base::{Constraint, Numbers};

/// What a run has come to at all choices of `size` atoms at which `when` holds. It holds at the sample, so no context is empty.
/// The sides of a split share its lines, and so do the contexts of a loop that puts no levels in.
#[derive(Drop)]
pub struct Context {
    pub size: usize,
    pub when: Constraint,
    pub sample: Numbers,
    pub store: Store,
    pub lines: Shared<Lines>,
    ghost levels: { ConstraintFits size when },
    ghost count: { length sample ≡ size },
    ghost met: { IsTrue (holds (sampled sample) when) },
    ghost slots: { AreSlots size store } by { are_slots_prop size store },
    ghost fitting: { LinesFit size lines } by { lines_fit_prop size lines },
    ghost names: { HasDistinctNames store } by { names_prop store },
}

/// The two sides of a context: where a condition holds and where it doesn't. A side that can't be met is missing.
#[derive(Drop)]
pub struct Split {
    pub yes: Option<Context>,
    pub no: Option<Context>,
}

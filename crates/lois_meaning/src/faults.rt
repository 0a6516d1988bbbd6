//! How a run fails.

ghost use Rattle.std.specs.Prelude.{◌≡◌};
ghost use Rattle.lois_meaning.specs.declared.faults.Stop.TheVariants.{NoMemory};

use lois_answers::{FaultKind, Lines};
use lois_base::NoMemory;
use lois_script::Pos;

/// A failure of a run: its place and kind, a choice of atoms under which it happens, and the elements of the loops
/// that it stands in, outermost first, each by its loop's name.
#[derive(Drop)]
pub struct Fault {
    pub pos: Pos,
    pub kind: FaultKind,
    pub sample: Vec<u64>,
    pub elements: Lines,
}

/// Why a run stopped before its end.
#[derive(Drop)]
pub enum Stop {
    Fault(Fault),
    NoMemory,
}

impl From<NoMemory> for Stop {
    ghost from_gives = { λ _ s. s ≡ NoMemory };

    fn from(_: NoMemory) -> Stop {
        Stop::NoMemory
    }
}

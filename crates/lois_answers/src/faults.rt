//! The trace of a failed run.

use crate::{Lines, Results};
use lois_base::{Names, Numbers};

/// The kinds of failure of a run.
#[derive(Clone, Copy, PartialEq, Eq, Debug)]
pub enum FaultKind {
    Assertion,
    NotASet,
    NotAtoms,
    NotATuple,
    NoSuchPart,
    NotAutomaton,
    NotDeterministic,
    NotComplete,
    TurnLimit,
    DepthLimit,
}

impl FaultKind {
    ghost use Rattle.std.specs.Prelude.{◌≡◌};
    ghost use Rattle.lois_answers.specs.TraceText.{kind_text};

    /// The words that tell the kind in a trace.
    pub fn text(self) -> &'static [u8]
        ensures exact { result.now ≡ kind_text self }
    {
        match self {
            FaultKind::Assertion => b"assertion failed",
            FaultKind::NotASet => b"not a set",
            FaultKind::NotAtoms => b"not atoms",
            FaultKind::NotATuple => b"not a tuple",
            FaultKind::NoSuchPart => b"no such part",
            FaultKind::NotAutomaton => b"not an automaton",
            FaultKind::NotDeterministic => b"not deterministic",
            FaultKind::NotComplete => b"not complete",
            FaultKind::TurnLimit => b"turn limit",
            FaultKind::DepthLimit => b"depth limit",
        }
    }
}

/// What a failed run gives: whether the atoms are ordered, the parameters, the line and the column of the failure,
/// its kind, a choice of atoms that begins with the parameters, and the elements of the loops, outermost first.
#[derive(Drop)]
pub struct Trace {
    pub order: bool,
    pub parameters: Names,
    pub line: usize,
    pub column: usize,
    pub kind: FaultKind,
    pub sample: Numbers,
    pub elements: Lines,
}

/// What a run gives that is written as a text.
#[derive(Drop)]
pub enum Answer {
    Results(Results),
    Trace(Trace),
}

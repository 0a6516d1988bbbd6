//! Faults.

ghost use Rattle.lois_eval.specs.Checks.{IsFaultWith, IsTruncated};
ghost use Rattle.lois_eval.specs.Throughout.{IfFault};

use lois_answers::{FaultKind, Lines};
use lois_base::{NoMemory, Numbers};
use lois_meaning::{Fault, Stop};
use lois_script::Pos;
use std::alloc::Global;

/// The fault of this kind at the place, under a sample. It names no elements.
pub fn fault(alloc: Global, pos: Pos, kind: FaultKind, sample: Vec<u64>) -> Stop
    ensures { IfFault result (IsFaultWith pos kind sample.items) }
{
    Stop::Fault(Fault {
        pos,
        kind,
        sample,
        elements: Lines::new(alloc),
    })
}

/// The same under a copy of these numbers, or `NoMemory`.
pub fn fault_under(alloc: Global, pos: Pos, kind: FaultKind, sample: &Numbers) -> Stop
    ensures { IfFault result (IsFaultWith pos kind sample.now) }
{
    match Vec::from_slice(alloc, sample.as_slice()) {
        Ok(numbers) => fault(alloc, pos, kind, numbers),
        Err(_) => Stop::NoMemory,
    }
}

/// The fault as it is outside, where there are `size` levels.
pub(crate) fn outside(stop: Stop, size: usize) -> Stop
    ensures { IfFault result (λ f. IsTruncated size f stop) }
{
    match stop {
        Stop::Fault(mut found) => {
            found.sample.truncate(size);
            Stop::Fault(found)
        }
        Stop::NoMemory => Stop::NoMemory,
    }
}

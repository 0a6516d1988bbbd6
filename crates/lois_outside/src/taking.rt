// Where bytes come from.
ghost use Rattle.std.specs.Prelude.{◌≡◌, ◌≤◌, ◌<◌, ℕ, List, Option, length, take, ⊤, Ok, IfOk, OnErr};
ghost use Rattle.std.specs.Io.KnownBytes.{Consumes, IsAtEnd, Keeps};
ghost use Rattle.lois_outside.specs.GivenBytes.{given_bytes};
ghost use Rattle.lois_outside.specs.Faults.{Rose};

use crate::Failed;

/// Gives bytes, a piece at a call, and counts its faults.
pub trait Source {
    /// The bytes that are left, where the source tells them.
    ghost left: { Self → Option (List ℕ) };

    /// How many faults there were. The count never falls, and stands still at the greatest `u64`.
    ghost faults: { Self → ℕ };

    /// Whether one call may lead from a source to a source: how many bytes it asked for, and what it
    /// was given, or `None` where it failed. A caller comes by this fact only by making the call.
    ghost takes: { Self → ℕ → Option (List ℕ) → Self → Type 0 } = { λ _ _ _ _. ⊤ };

    /// Puts the first bytes that are left at the front of `into`, and answers how many. `Ok(0)` for a
    /// slice that isn't empty is the end of the input. A call that fails has taken nothing.
    fn take(&mut self, into: &mut [u8]) -> Result<usize, Failed>
        ensures within { IfOk result (λ n. n ≤ length into.old) }
        ensures front { IfOk result (λ n. Consumes (left self.old) (left self.new) (take n into.new)) }
        ensures end { result ≡ Ok 0 → 0 < length into.old → IsAtEnd (left self.new) }

        ensures fault { OnErr result (Rose (faults self.old) (faults self.new)) }
        ensures nothing_taken { OnErr result (Keeps (left self.old) (left self.new)) }
        ensures count_never_falls { faults self.old ≤ faults self.new }

        ensures call { takes self.old (length into.old) (given_bytes result into.new) self.new };
}

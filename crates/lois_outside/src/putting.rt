// Where bytes go.
ghost use Rattle.std.specs.Prelude.{◌≤◌, ◌<◌, ℕ, List, Option, length, take, ⊤, IfOk, OnErr};
ghost use Rattle.std.specs.Io.KnownBytes.{Appends, Keeps};
ghost use Rattle.std.specs.Result.{result_ok};
ghost use Rattle.lois_outside.specs.Faults.{Rose};

use crate::Failed;

/// Takes bytes, a piece at a call, and counts its faults.
pub trait Sink {
    /// The bytes that the sink holds, where it tells them.
    ghost held: { Self → Option (List ℕ) };

    /// How many faults there were. The count never falls, and stands still at the greatest `u64`.
    ghost faults: { Self → ℕ };

    /// Whether one call may lead from a sink to a sink: the piece that it was handed, and how many
    /// of its bytes it took, or `None` where it failed. A caller comes by this fact only by making
    /// the call.
    ghost puts: { Self → List ℕ → Option ℕ → Self → Type 0 } = { λ _ _ _ _. ⊤ };

    /// Appends the first bytes of `piece`, and answers how many: at least one where the piece isn't
    /// empty. A call that fails has appended nothing.
    fn put(&mut self, piece: &[u8]) -> Result<usize, Failed>
        ensures within { IfOk result (λ n. n ≤ length piece.now) }
        ensures some { IfOk result (λ n. 0 < length piece.now → 0 < n) }
        ensures appended { IfOk result (λ n. Appends (held self.old) (held self.new) (take n piece.now)) }

        ensures fault { OnErr result (Rose (faults self.old) (faults self.new)) }
        ensures nothing_appended { OnErr result (Keeps (held self.old) (held self.new)) }
        ensures count_never_falls { faults self.old ≤ faults self.new }

        ensures call { puts self.old piece.now (result_ok result) self.new };
}

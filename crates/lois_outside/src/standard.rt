// Std's readers and writers as a source and a sink: the trusted edge.
ghost use Rattle.std.specs.Prelude.{◌≡◌, ◌<◌, ◌≤◌, IfOk, Ok, OnErr, OnOk, length, take};
ghost use Rattle.std.specs.Io.KnownBytes.{Appends, Consumes, IsAtEnd, Keeps};
ghost use Rattle.lois_outside.specs.Faults.{Rose, next_count};

use crate::{Failed, Sink, Source};
use std::io::{Read, Write};
use std::marker::Model;

/// A reader of std. Each of its errors is a fault. What is left is what the reader tells of it: over
/// a terminal, a pipe or a file it tells nothing.
#[derive(Drop)]
pub struct StdSource<R: Read> {
    inner: R,
    faults: u64,
}

/// The source is seen as its reader and its count of faults.
impl<R: Read> Model for StdSource<R> {
    ghost use Rattle.lois_outside.specs.Standard.{Counted};

    ghost Value = { Counted R };

    ghost view = { λ s. record { inner = s.inner; faults = s.faults } };
}

impl<R: Read> StdSource<R> {
    /// Reads from this reader. No fault is counted yet.
    pub fn new(inner: R) -> StdSource<R>
        ensures state { result ≡ record { inner = inner; faults = 0 } }
        ensures told { ⟦<StdSource<R> as Source>⟧.left result ≡ R.remaining inner }
        ensures no_fault { ⟦<StdSource<R> as Source>⟧.faults result ≡ 0 }
    {
        StdSource { inner, faults: 0 }
    }
}

impl<R: Read> Source for StdSource<R> {
    ghost left = { λ s. R.remaining s.inner };

    ghost faults = { λ s. s.faults };

    /// One read. The count rises by one where it fails, and nowhere else.
    fn take(&mut self, into: &mut [u8]) -> Result<usize, Failed>
        ensures within { IfOk result (λ n. n ≤ length into.old) }
        ensures front { IfOk result (λ n. Consumes (R.remaining self.old.inner) (R.remaining self.new.inner) (take n into.new)) }
        ensures end { result ≡ Ok 0 → 0 < length into.old → IsAtEnd (R.remaining self.new.inner) }
        ensures nothing_taken { OnErr result (Keeps (R.remaining self.old.inner) (R.remaining self.new.inner)) }

        ensures counted { OnErr result (self.new.faults ≡ next_count self.old.faults) }
        ensures not_counted { OnOk result (self.new.faults ≡ self.old.faults) }
        ensures fault { OnErr result (Rose self.old.faults self.new.faults) }
        ensures count_never_falls { self.old.faults ≤ self.new.faults }
    {
        match self.inner.read(into) {
            Ok(count) => Ok(count),
            Err(_) => {
                self.faults = self.faults.saturating_add(1);
                Err(Failed)
            }
        }
    }
}

/// A writer of std. Each of its errors is a fault, and so is a write that takes nothing of a piece
/// that isn't empty. What is held is what the writer tells of it: over a terminal, a pipe or a file
/// it tells nothing.
#[derive(Drop)]
pub struct StdSink<W: Write> {
    inner: W,
    faults: u64,
}

/// The sink is seen as its writer and its count of faults.
impl<W: Write> Model for StdSink<W> {
    ghost use Rattle.lois_outside.specs.Standard.{Counted};

    ghost Value = { Counted W };

    ghost view = { λ s. record { inner = s.inner; faults = s.faults } };
}

impl<W: Write> StdSink<W> {
    /// Writes to this writer. No fault is counted yet.
    pub fn new(inner: W) -> StdSink<W>
        ensures state { result ≡ record { inner = inner; faults = 0 } }
        ensures told { ⟦<StdSink<W> as Sink>⟧.held result ≡ W.contents inner }
        ensures no_fault { ⟦<StdSink<W> as Sink>⟧.faults result ≡ 0 }
    {
        StdSink { inner, faults: 0 }
    }
}

impl<W: Write> Sink for StdSink<W> {
    ghost held = { λ s. W.contents s.inner };

    ghost faults = { λ s. s.faults };

    /// One write. The count rises by one where it fails or takes nothing, and nowhere else.
    fn put(&mut self, piece: &[u8]) -> Result<usize, Failed>
        ensures within { IfOk result (λ n. n ≤ length piece.now) }
        ensures some { IfOk result (λ n. 0 < length piece.now → 0 < n) }
        ensures appended { IfOk result (λ n. Appends (W.contents self.old.inner) (W.contents self.new.inner) (take n piece.now)) }
        ensures nothing_appended { OnErr result (Keeps (W.contents self.old.inner) (W.contents self.new.inner)) }

        ensures counted { OnErr result (self.new.faults ≡ next_count self.old.faults) }
        ensures not_counted { OnOk result (self.new.faults ≡ self.old.faults) }
        ensures fault { OnErr result (Rose self.old.faults self.new.faults) }
        ensures count_never_falls { self.old.faults ≤ self.new.faults }
    {
        match self.inner.write(piece) {
            Ok(count) if count > 0 || piece.is_empty() => Ok(count),
            _ => {
                self.faults = self.faults.saturating_add(1);
                Err(Failed)
            }
        }
    }
}

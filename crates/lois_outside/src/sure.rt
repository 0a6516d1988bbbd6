// A source and a sink that never fail.
ghost use Rattle.std.specs.Prelude.{◌≡◌, ℕ, ◌≤◌, IfOk, List, None, Ok, Some, drop, length, min, take};

use crate::{Failed, Sink, Source};
use std::marker::Model;

/// Gives the bytes of a `Vec`, as many at a call as the slice has room for. It never fails, and its
/// count of faults is always 0.
#[derive(Drop)]
pub struct SureSource {
    bytes: Vec<u8>,
    next: usize,
}

/// A source is seen as the bytes that are left.
impl Model for SureSource {
    ghost Value = { List ℕ };

    ghost view = { λ s. drop s.next s.bytes.items };

    ghost invariant = { λ s. s.next ≤ length s.bytes.items };
}

impl SureSource {
    /// A source of these bytes.
    pub fn new(bytes: Vec<u8>) -> SureSource
        ensures left { result ≡ bytes.items }
        ensures told { ⟦<SureSource as Source>⟧.left result ≡ Some bytes.items }
        ensures no_fault { ⟦<SureSource as Source>⟧.faults result ≡ 0 }
    {
        SureSource { bytes, next: 0 }
    }
}

impl Source for SureSource {
    ghost left = { λ s. Some s };

    ghost faults = { λ _. 0 };

    fn take(&mut self, into: &mut [u8]) -> Result<usize, Failed>
        ensures count { result ≡ Ok (min (length into.old) (length self.old)) }
        ensures front { IfOk result (λ n. take n into.new ≡ take n self.old) }
        ensures rest { IfOk result (λ n. drop n into.new ≡ drop n into.old) }
        ensures left { IfOk result (λ n. self.new ≡ drop n self.old) }
    {
        let count = into.len().min(self.bytes.len() - self.next);
        into[..count].copy_from_slice(&self.bytes[self.next..self.next + count]);
        self.next += count;
        Ok(count)
    }
}

/// Takes every piece whole and tells no content. It never fails, and its count of faults is always 0.
#[derive(Drop)]
pub struct SureSink;

impl SureSink {
    /// A sink.
    pub fn new() -> SureSink
        ensures untold { ⟦<SureSink as Sink>⟧.held result ≡ None }
        ensures no_fault { ⟦<SureSink as Sink>⟧.faults result ≡ 0 }
    {
        SureSink
    }
}

impl Sink for SureSink {
    ghost held = { λ _. None };

    ghost faults = { λ _. 0 };

    fn put(&mut self, piece: &[u8]) -> Result<usize, Failed>
        ensures { result ≡ Ok (length piece.now) }
    {
        Ok(piece.len())
    }
}

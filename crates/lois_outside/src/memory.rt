// A source and a sink over memory, whose steps and faults the caller chooses.
ghost use Rattle.std.specs.Prelude.{◌≡◌, ◌<◌, ◌≤◌, ◌↔◌, [], IfOk, IsErr, Ok, OnErr, Some, drop, length, take};
ghost use Rattle.lois_outside.specs.Memory.{FailsNext, RefusesNext, after_failed_put, after_failed_take, after_put, after_take, given_count, taken_count};

use crate::{Failed, NoMemory, Sink, Source};
use std::alloc::Global;
use std::marker::Model;

/// Gives the bytes of a `Vec`, at most `step` at a call. The calls whose numbers, from 0, stand in
/// `failing` fail.
#[derive(Drop)]
pub struct MemorySource {
    bytes: Vec<u8>,
    next: usize,
    step: usize,
    failing: Vec<u64>,
    calls: u64,
    faults: u64,
}

/// A source is seen as the bytes that are left, its step, its list, and how many calls and faults
/// there were.
impl Model for MemorySource {
    ghost use Rattle.std.specs.Prelude.{◌<◌, ◌≤◌, ◌^◌, drop, length};
    ghost use Rattle.lois_outside.specs.Memory.{SourceState};

    ghost Value = { SourceState };

    ghost view = { λ s. record { left = drop s.next s.bytes.items; step = s.step; failing = s.failing.items; calls = s.calls; faults = s.faults } };

    ghost invariant = { λ s. (s.next ≤ length s.bytes.items) × (0 < s.step) × (s.calls < 2 ^ 64) × (s.faults < 2 ^ 64) };
}

impl MemorySource {
    /// A source of these bytes. `step` is at least 1.
    pub fn new(bytes: Vec<u8>, step: usize, failing: Vec<u64>) -> MemorySource
        requires { 1 ≤ step }
        ensures state { result ≡ record { left = bytes.items; step = step; failing = failing.items; calls = 0; faults = 0 } }
        ensures told { ⟦<MemorySource as Source>⟧.left result ≡ Some bytes.items }
        ensures no_fault { ⟦<MemorySource as Source>⟧.faults result ≡ 0 }
    {
        MemorySource {
            bytes,
            next: 0,
            step,
            failing,
            calls: 0,
            faults: 0,
        }
    }
}

impl Source for MemorySource {
    ghost left = { λ s. Some s.left };

    ghost faults = { λ s. s.faults };

    /// A call that doesn't fail gives as many bytes as the least of the step, the slice's length and
    /// what is left.
    fn take(&mut self, into: &mut [u8]) -> Result<usize, Failed>
        ensures fails { IsErr result ↔ FailsNext self.old }
        ensures count { IfOk result (λ n. n ≡ given_count self.old (length into.old)) }
        ensures front { IfOk result (λ n. take n into.new ≡ take n self.old.left) }
        ensures rest { IfOk result (λ n. drop n into.new ≡ drop n into.old) }
        ensures after { IfOk result (λ n. self.new ≡ after_take self.old n) }

        // The end of the input is told where nothing is left, and nowhere else.
        ensures end { result ≡ Ok 0 → 0 < length into.old → self.old.left ≡ [] }

        ensures slice_stays { OnErr result (into.new ≡ into.old) }
        ensures after_fault { OnErr result (self.new ≡ after_failed_take self.old) }
        ensures count_never_falls { self.old.faults ≤ self.new.faults }
    {
        let fails = self.failing.contains(&self.calls);
        self.calls = self.calls.saturating_add(1);
        if fails {
            self.faults = self.faults.saturating_add(1);
            return Err(Failed);
        }
        let count = self.step.min(into.len()).min(self.bytes.len() - self.next);
        into[..count].copy_from_slice(&self.bytes[self.next..self.next + count]);
        self.next += count;
        Ok(count)
    }
}

/// Holds at most `room` bytes, and takes at most `step` at a call. The calls whose numbers, from 0,
/// stand in `failing` fail, and so does a call with a piece that isn't empty where no room is left.
#[derive(Drop)]
pub struct MemorySink {
    held: Vec<u8>,
    room: usize,
    step: usize,
    failing: Vec<u64>,
    calls: u64,
    faults: u64,
}

/// A sink is seen as the bytes that it holds, its room, its step, its list, and how many calls and
/// faults there were.
impl Model for MemorySink {
    ghost use Rattle.std.specs.Prelude.{◌<◌, ◌≤◌, ◌^◌, vec_capacity, vec_len};
    ghost use Rattle.lois_outside.specs.Memory.{SinkState};

    ghost Value = { SinkState };

    ghost view = { λ k. record { held = k.held.items; room = k.room; step = k.step; failing = k.failing.items; calls = k.calls; faults = k.faults } };

    ghost invariant = { λ k. (vec_len k.held ≤ k.room) × (k.room ≤ vec_capacity k.held) × (0 < k.step) × (k.calls < 2 ^ 64) × (k.faults < 2 ^ 64) };
}

impl MemorySink {
    /// A sink that holds nothing yet. `step` is at least 1. The room is reserved here.
    pub fn new(
        alloc: Global,
        room: usize,
        step: usize,
        failing: Vec<u64>,
    ) -> Result<MemorySink, NoMemory>
        requires { 1 ≤ step }
        ensures state { IfOk result (λ k. k ≡ record { held = []; room = room; step = step; failing = failing.items; calls = 0; faults = 0 }) }
        ensures no_fault { IfOk result (λ k. ⟦<MemorySink as Sink>⟧.faults k ≡ 0) }
    {
        let held = Vec::with_capacity(alloc, room).map_err(|_| NoMemory)?;
        Ok(MemorySink {
            held,
            room,
            step,
            failing,
            calls: 0,
            faults: 0,
        })
    }

    /// The bytes that it holds.
    pub fn held(&self) -> &[u8]
        ensures held { result.now ≡ self.now.held }
        ensures told { ⟦<MemorySink as Sink>⟧.held self.now ≡ Some result.now }
    {
        &self.held
    }
}

impl Sink for MemorySink {
    ghost held = { λ k. Some k.held };

    ghost faults = { λ k. k.faults };

    /// A call that doesn't fail appends as many bytes as the least of the step, the piece's length
    /// and the room that is left.
    fn put(&mut self, piece: &[u8]) -> Result<usize, Failed>
        ensures fails { IsErr result ↔ RefusesNext self.old piece.now }
        ensures count { IfOk result (λ n. n ≡ taken_count self.old piece.now) }
        ensures after { IfOk result (λ n. self.new ≡ after_put self.old piece.now n) }
        ensures some { IfOk result (λ n. 0 < length piece.now → 0 < n) }
        ensures after_fault { OnErr result (self.new ≡ after_failed_put self.old) }
        ensures count_never_falls { self.old.faults ≤ self.new.faults }
    {
        let left = self.room - self.held.len();
        let fails = self.failing.contains(&self.calls) || (left == 0 && !piece.is_empty());
        self.calls = self.calls.saturating_add(1);
        if fails {
            self.faults = self.faults.saturating_add(1);
            return Err(Failed);
        }
        let count = self.step.min(piece.len()).min(left);
        self.held.extend_from_slice(&piece[..count]).unwrap();
        Ok(count)
    }
}

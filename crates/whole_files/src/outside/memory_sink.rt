//! A sink in memory, for tests and for whoever wants the bytes.
ghost use Rattle.std.specs.Prelude.{◌≡◌, ◌≤◌, ◌<◌, ◌^◌, ◌-◌, ◌+◌, ◌↔◌, ◌++◌, [], ℕ, Option, Some, take, length, min, if◌then◌else◌, IsTrue, IfOk, OnOk, OnErr, IsErr, ◌⊎◌, Contains, vec_len, vec_capacity};
ghost use Rattle.std.specs.Io.KnownBytes.{Keeps, Appends};
ghost use Rattle.whole_files.specs.Outside.{LAST_COUNT, Rose};

use super::{Failed, Sink};
use lin_report::NoMemory;
use std::alloc::Global;
use std::marker::Model;

/// A sink that tells its bytes and takes no more than its room. A call fails exactly where its number,
/// counted from 0, is in the list of failing calls, or where its piece has bytes and no room is left.
#[derive(Drop)]
pub struct SinkInMemory {
    bytes: Vec<u8>,
    room: usize,
    fails: Vec<u64>,
    most: usize,
    calls: u64,
    faults: u64,
}

impl Model for SinkInMemory {
    ghost use Rattle.std.specs.Prelude.{◌≤◌, ◌<◌, length, vec_len, vec_capacity};
    ghost use Rattle.whole_files.specs.MemorySink.{MemorySink};

    ghost Value = { MemorySink };

    ghost view = { λ s. record { bytes = s.bytes.items; room = s.room; fails = s.fails.items; most = s.most; calls = s.calls; faults = s.faults } };

    ghost invariant = { λ s. (vec_len s.bytes ≤ s.room) × (s.room ≤ vec_capacity s.bytes) × (0 < s.most) };
}

impl SinkInMemory {
    /// A sink that takes as much of a piece as there is room for.
    pub fn with_room(alloc: Global, room: usize, fails: Vec<u64>) -> Result<Self, NoMemory>
        ensures { IfOk result (λ s. s ≡ record { bytes = []; room = room; fails = fails.items; most = 2 ^ 64 - 1; calls = 0; faults = 0 }) }
    {
        Self::in_pieces(alloc, room, fails, usize::MAX)
    }

    /// A sink that takes at most `most` bytes of a piece.
    pub fn in_pieces(
        alloc: Global,
        room: usize,
        fails: Vec<u64>,
        most: usize,
    ) -> Result<Self, NoMemory>
        requires { 0 < most }
        ensures { IfOk result (λ s. s ≡ record { bytes = []; room = room; fails = fails.items; most = most; calls = 0; faults = 0 }) }
    {
        let Ok(bytes) = Vec::with_capacity(alloc, room) else {
            return Err(NoMemory);
        };
        Ok(SinkInMemory {
            bytes,
            room,
            fails,
            most,
            calls: 0,
            faults: 0,
        })
    }

    /// The bytes written so far.
    pub fn bytes(&self) -> &[u8]
        ensures { result.now ≡ self.now.bytes }
    {
        self.bytes.as_slice()
    }

    /// How many calls of `put` were made.
    pub fn calls(&self) -> u64
        ensures { result ≡ self.now.calls }
    {
        self.calls
    }

    /// Counts a call, and answers whether it is one that fails.
    fn count_call(&mut self) -> bool
        ensures fails { IsTrue result ↔ Contains self.old.fails self.old.calls }
        ensures counted { self.new ≡ record self.old { calls = min (self.old.calls + 1) LAST_COUNT } }
    {
        let fails = self.fails.contains(&self.calls);
        self.calls = self.calls.saturating_add(1);
        fails
    }

    /// Counts a fault.
    fn count_fault(&mut self)
        ensures { self.new ≡ record self.old { faults = min (self.old.faults + 1) LAST_COUNT } }
    {
        self.faults = self.faults.saturating_add(1);
    }

    /// Takes the first bytes of a piece that there is room for, and answers how many.
    fn take(&mut self, piece: &[u8]) -> usize
        ensures count { result ≡ min (min (length piece.now) self.old.most) (self.old.room - length self.old.bytes) }
        ensures taken { self.new ≡ record self.old { bytes = self.old.bytes ++ take result piece.now } }
        ensures most { 0 < self.old.most }
    {
        let room = self.room - self.bytes.len();
        let count = piece.len().min(self.most).min(room);
        append_reserved(&mut self.bytes, &piece[..count]);
        count
    }
}

impl Sink for SinkInMemory {
    ghost use Rattle.std.specs.Prelude.{Some};

    ghost written = { λ s. Some s.bytes };

    ghost faults = { λ s. s.faults };

    fn put(&mut self, bytes: &[u8]) -> Result<usize, Failed>
        ensures fits { IfOk result (λ n. n ≤ length bytes.now) }
        ensures some { IfOk result (λ n. 0 < length bytes.now → 0 < n) }
        ensures writes { IfOk result (λ n. self.new.bytes ≡ self.old.bytes ++ take n bytes.now) }
        ensures kept { OnErr result (self.new.bytes ≡ self.old.bytes) }
        ensures calm { OnOk result (self.new.faults ≡ self.old.faults) }
        ensures fault { OnErr result (Rose self.old.faults self.new.faults) }

        // It fails exactly where it is to, or where a piece with bytes finds no room, and takes as many
        // bytes as there are, fit and may be taken.
        ensures fails { IsErr result ↔ (Contains self.old.fails self.old.calls ⊎ ((0 < length bytes.now) × (self.old.room ≤ length self.old.bytes))) }
        ensures count { IfOk result (λ n. n ≡ min (min (length bytes.now) self.old.most) (self.old.room - length self.old.bytes)) }
        ensures counted { self.new.calls ≡ min (self.old.calls + 1) LAST_COUNT }
        ensures same { (self.new.room ≡ self.old.room) × (self.new.fails ≡ self.old.fails) × (self.new.most ≡ self.old.most) }
    {
        if self.count_call() {
            self.count_fault();
            return Err(Failed);
        }
        let count = self.take(bytes);
        if count == 0 && !bytes.is_empty() {
            self.count_fault();
            return Err(Failed);
        }
        Ok(count)
    }
}

/// Appends bytes that there is room for.
fn append_reserved(bytes: &mut Vec<u8>, piece: &[u8])
    requires { vec_len bytes.old + length piece.now ≤ vec_capacity bytes.old }
    ensures items { bytes.new.items ≡ bytes.old.items ++ piece.now }
    ensures len { vec_len bytes.new ≡ vec_len bytes.old + length piece.now }
    ensures capacity { vec_capacity bytes.old ≤ vec_capacity bytes.new }
{
    bytes.extend_from_slice(piece).unwrap();
}

// A source and a sink in memory, with pieces of a chosen size and chosen calls that fail.
ghost use Rattle.std.specs.Prelude.{◌≡◌, ℕ, ◌<◌, ◌≤◌, ◌↔◌, [], ◌++◌, length, take, min, Some, IfOk, IsErr, IsTrue, OnOk, OnErr};
ghost use Rattle.ml_base.specs.Faults.{Rose};
ghost use Rattle.ml_base.specs.Memory.{Feed, Store, is_due, refuses, given_count, taken_count, after_read, after_write};

use crate::no_memory::NoMemory;
use crate::sink::Sink;
use crate::source::{Failed, Source};
use std::alloc::Global;
use std::marker::Model;

/// Bytes in memory as a source that tells them. Contracts see a `Feed`.
#[derive(Debug, Drop)]
pub struct MemSource {
    bytes: Vec<u8>,
    given: usize,
    piece: u32,
    fails: Vec<u64>,
    calls: u64,
    faults: u64,
}

impl Model for MemSource {
    ghost use Rattle.std.specs.Prelude.{◌≡◌, ◌≤◌, ◌<◌, [], drop, vec_len};
    ghost use Rattle.ml_base.specs.Memory.{Feed};

    ghost Value = { Feed };

    ghost view = { λ s. record {
      left = drop s.given s.bytes.items;
      piece = s.piece;
      fails = s.fails.items;
      calls = s.calls;
      faults = s.faults;
    } };

    ghost invariant = { λ s. (s.given ≤ vec_len s.bytes) × (0 < s.piece)
        × (s.fails.items ≡ [] → s.faults ≡ 0) };
}

impl MemSource {
    /// A source that gives these bytes, at most `piece` in a call. Exactly the calls whose numbers, counted from 1,
    /// stand in `fails` fail; after 2^64 - 1 calls none does.
    pub fn new(bytes: Vec<u8>, piece: u32, fails: Vec<u64>) -> MemSource
        requires { 1 ≤ piece }
        ensures { result ≡ record { left = bytes.items; piece = piece; fails = fails.items; calls = 0; faults = 0 } }
    {
        MemSource {
            bytes,
            given: 0,
            piece,
            fails,
            calls: 0,
            faults: 0,
        }
    }
}

impl Source for MemSource {
    ghost remaining = { λ s. Some s.left };

    ghost faults = { λ s. s.faults };

    fn read(&mut self, buf: &mut [u8]) -> Result<usize, Failed>
        requires { 0 < length buf.old }

        // As for every source.
        ensures within { IfOk result (λ count. count ≤ length buf.old) }
        ensures given { IfOk result (λ count. self.old.left ≡ take count buf.new ++ self.new.left) }
        ensures end { IfOk result (λ count. (count ≡ 0) ↔ (self.old.left ≡ [])) }
        ensures kept { OnErr result (self.new.left ≡ self.old.left) }
        ensures calm { OnOk result (self.new.faults ≡ self.old.faults) }
        ensures fault { OnErr result (Rose self.old.faults self.new.faults) }

        // What this source does, exactly.
        ensures fails { IsErr result ↔ IsTrue (is_due self.old.fails self.old.calls) }
        ensures count { IfOk result (λ count. count ≡ given_count self.old (length buf.old)) }
        ensures untouched { OnErr result (buf.new ≡ buf.old) }
        ensures faultless { self.old.fails ≡ [] → self.new.faults ≡ 0 }
        ensures after { self.new ≡ after_read self.old (length buf.old) }
    {
        let is_due = is_due(&self.fails, self.calls);
        self.calls = self.calls.saturating_add(1);
        if is_due {
            self.faults = self.faults.saturating_add(1);
            return Err(Failed);
        }
        let count = copy_front(&self.bytes[self.given..], self.piece, buf);
        self.given += count;
        Ok(count)
    }
}

/// Room in memory as a sink that tells what it took. Contracts see a `Store`.
#[derive(Debug, Drop)]
pub struct MemSink {
    taken: Vec<u8>,
    room: usize,
    piece: u32,
    fails: Vec<u64>,
    calls: u64,
    faults: u64,
}

impl Model for MemSink {
    ghost use Rattle.std.specs.Prelude.{◌≡◌, ◌≤◌, ◌<◌, [], vec_len, vec_capacity};
    ghost use Rattle.ml_base.specs.Memory.{Store};

    ghost Value = { Store };

    ghost view = { λ s. record {
      taken = s.taken.items;
      room = s.room;
      piece = s.piece;
      fails = s.fails.items;
      calls = s.calls;
      faults = s.faults;
    } };

    ghost invariant = { λ s. (vec_len s.taken ≤ s.room) × (s.room ≤ vec_capacity s.taken) × (0 < s.piece)
        × (s.fails.items ≡ [] → vec_len s.taken < s.room → s.faults ≡ 0) };
}

impl MemSink {
    /// A sink with room for so many bytes, which takes at most `piece` in a call. Exactly these calls fail: those
    /// whose numbers, counted from 1, stand in `fails` (after 2^64 - 1 calls none does by its number), and those that
    /// come while the room is taken.
    ///
    /// # Errors
    /// `NoMemory` alone: the sink takes its memory here, and none in writing.
    pub fn new(alloc: Global, piece: u32, fails: Vec<u64>, room: u64) -> Result<MemSink, NoMemory>
        requires { 1 ≤ piece }
        ensures { IfOk result (λ sink.
            sink ≡ record { taken = []; room = room; piece = piece; fails = fails.items; calls = 0; faults = 0 }) }
    {
        Ok(MemSink {
            taken: Vec::with_capacity(alloc, room as usize)?,
            room: room as usize,
            piece,
            fails,
            calls: 0,
            faults: 0,
        })
    }

    /// The bytes taken so far, at most as many as there is room for.
    pub fn taken(&self) -> &[u8]
        ensures value { result.now ≡ self.now.taken }
        ensures fits { length result.now ≤ self.now.room }
    {
        self.taken.as_slice()
    }
}

impl Sink for MemSink {
    ghost taken = { λ s. Some s.taken };

    ghost faults = { λ s. s.faults };

    fn write(&mut self, piece: &[u8]) -> Result<usize, Failed>
        requires { 0 < length piece.now }

        // As for every sink.
        ensures some { IfOk result (λ count. 0 < count) }
        ensures within { IfOk result (λ count. count ≤ length piece.now) }
        ensures appended { IfOk result (λ count. self.new.taken ≡ self.old.taken ++ take count piece.now) }
        ensures kept { OnErr result (self.new.taken ≡ self.old.taken) }
        ensures calm { OnOk result (self.new.faults ≡ self.old.faults) }
        ensures fault { OnErr result (Rose self.old.faults self.new.faults) }

        // What this sink does, exactly.
        ensures fails { IsErr result ↔ IsTrue (refuses self.old) }
        ensures count { IfOk result (λ count. count ≡ taken_count self.old (length piece.now)) }
        ensures faultless { self.old.fails ≡ [] → length self.old.taken < self.old.room → self.new.faults ≡ 0 }
        ensures after { self.new ≡ after_write self.old piece.now }
    {
        let is_due = is_due(&self.fails, self.calls);
        self.calls = self.calls.saturating_add(1);
        let free = self.room - self.taken.len();
        if is_due || free == 0 {
            self.faults = self.faults.saturating_add(1);
            return Err(Failed);
        }
        let count = free.min(piece.len()).min(self.piece as usize);
        self.taken.extend_from_slice(&piece[..count]).unwrap();
        Ok(count)
    }
}

// Copies as many bytes as the piece and the buffer allow to the front of the buffer, and says how many.
fn copy_front(left: &[u8], piece: u32, buf: &mut [u8]) -> usize
    ensures count { result ≡ min piece (min (length buf.old) (length left.now)) }
    ensures copied { take result buf.new ≡ take result left.now }
{
    let count = left.len().min(buf.len()).min(piece as usize);
    buf[..count].copy_from_slice(&left[..count]);
    count
}

// After so many calls, the number of the next one stands in the list.
fn is_due(fails: &[u64], calls: u64) -> bool
    ensures { result ≡ is_due fails.now calls }
{
    match calls.checked_add(1) {
        Some(call) => fails.contains(&call),
        None => false,
    }
}

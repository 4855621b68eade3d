//! A source and a sink in memory that fail when they are told to.
ghost use Rattle.std.specs.Prelude.{◌≡◌, ◌-◌, ◌<◌, ◌≤◌, ◌↔◌, ◌++◌, ℕ, List, Option, Some, [], min, length, take, drop, IsErr, IfOk, IfSome, OnErr, vec_len, vec_capacity};
ghost use Rattle.nest_io.specs.Faults.{Rose, next_count};
ghost use Rattle.nest_io.specs.Bytes.{Takes, Appends};
ghost use Rattle.nest_io.specs.Memory.{MemorySource, MemorySink, ReadFails, WriteFails};

use crate::{Failed, Sink, Source};
use std::alloc::{AllocError, Global};
use std::marker::Model;

/// A source that gives bytes of memory, a few at a time, and fails at chosen reads.
#[derive(Debug, Drop)]
pub struct MemSource {
    bytes: Vec<u8>,
    given: usize,
    most: usize,
    failing: Vec<u64>,
    reads: u64,
    faults: u64,
}

impl Model for MemSource {
    ghost Value = { MemorySource };

    ghost view = { λ s. record {
      left = drop s.given s.bytes.items;
      most = s.most;
      failing = s.failing.items;
      reads = s.reads;
      faults = s.faults;
    } };

    ghost invariant = { λ s. (s.given ≤ vec_len s.bytes) × (1 ≤ s.most) };
}

impl MemSource {
    /// A source of these bytes that gives at most `most`, one or more, a read. The reads whose numbers are
    /// in `failing` fail, where the first read is 1. Reads and faults are counted up to 2^64 - 1.
    pub fn new(bytes: Vec<u8>, most: usize, failing: Vec<u64>) -> MemSource
        requires { 1 ≤ most }
        ensures { result ≡ record {
          left = bytes.items;
          most = most;
          failing = failing.items;
          reads = 0;
          faults = 0;
        } }
    {
        MemSource {
            bytes,
            given: 0,
            most,
            failing,
            reads: 0,
            faults: 0,
        }
    }
}

// Copies the first bytes, at most `most`, to the front of `into`, and says how many.
fn copy_front(bytes: &[u8], into: &mut [u8], most: usize) -> usize
    ensures count { result ≡ min (min (length bytes.now) (length into.old)) most }
    ensures bytes { into.new ≡ take result bytes.now ++ drop result into.old }
{
    let count = bytes.len().min(into.len()).min(most);
    into[..count].copy_from_slice(&bytes[..count]);
    count
}

impl Source for MemSource {
    ghost left = { λ s. Some s.left };

    ghost faults = { λ s. s.faults };

    fn read(&mut self, into: &mut [u8]) -> Result<usize, Failed>
        ensures fails { IsErr result ↔ ReadFails self.old }
        ensures count { IfOk result (λ count.
            count ≡ min (min (length self.old.left) (length into.old)) self.old.most) }
        ensures bytes { IfOk result (λ count. into.new ≡ take count self.old.left ++ drop count into.old) }
        ensures ok { IfOk result (λ count. self.new ≡ record self.old {
          left = drop count self.old.left;
          reads = next_count self.old.reads;
        }) }
        ensures err { OnErr result (self.new ≡ record self.old {
          reads = next_count self.old.reads;
          faults = next_count self.old.faults;
        }) }
        ensures same { OnErr result (into.new ≡ into.old) }

        // What every source ensures.
        ensures room { IfOk result (λ count. count ≤ length into.new) }
        ensures taken { IfOk result (λ count.
            Takes (Some self.old.left) (Some self.new.left) (take count into.new)) }
        ensures end { IfOk result (λ count.
            0 < length into.new → (count ≡ 0) ↔ (self.old.left ≡ [])) }
        ensures nothing { OnErr result (Takes (Some self.old.left) (Some self.new.left) []) }
        ensures cause { OnErr result (Rose self.old.faults self.new.faults) }
        ensures never_falls { self.old.faults ≤ self.new.faults }
    {
        self.reads = self.reads.saturating_add(1);
        if self.failing.contains(&self.reads) {
            self.faults = self.faults.saturating_add(1);
            return Err(Failed);
        }
        let count = copy_front(&self.bytes[self.given..], into, self.most);
        self.given += count;
        Ok(count)
    }
}

/// A sink that keeps bytes in memory, takes a few at a time, and fails at chosen writes.
#[derive(Debug, Drop)]
pub struct MemSink {
    bytes: Vec<u8>,
    room: usize,
    most: usize,
    failing: Vec<u64>,
    writes: u64,
    faults: u64,
}

impl Model for MemSink {
    ghost Value = { MemorySink };

    ghost view = { λ s. record {
      held = s.bytes.items;
      room = s.room;
      most = s.most;
      failing = s.failing.items;
      writes = s.writes;
      faults = s.faults;
    } };

    // It has the memory for all that it may hold, so a write takes none.
    ghost invariant = { λ s.
        (vec_len s.bytes ≤ s.room) × (s.room ≤ vec_capacity s.bytes) × (1 ≤ s.most) };
}

impl MemSink {
    /// A sink that holds nothing, has room for `room` bytes, and takes at most `most`, one or more, a
    /// write. A write whose number is in `failing`, where the first write is 1, or that finds no room left
    /// fails. Writes and faults are counted up to 2^64 - 1. All memory is taken here.
    pub fn new(
        alloc: Global,
        room: usize,
        most: usize,
        failing: Vec<u64>,
    ) -> Result<MemSink, AllocError>
        requires { 1 ≤ most }
        ensures { IfOk result (λ sink. sink ≡ record {
          held = [];
          room = room;
          most = most;
          failing = failing.items;
          writes = 0;
          faults = 0;
        }) }
    {
        Ok(MemSink {
            bytes: Vec::with_capacity(alloc, room)?,
            room,
            most,
            failing,
            writes: 0,
            faults: 0,
        })
    }

    /// The bytes that it holds.
    pub fn bytes(&self) -> &[u8]
        ensures { result.now ≡ self.now.held }
    {
        &self.bytes
    }
}

impl Sink for MemSink {
    ghost held = { λ s. Some s.held };

    ghost faults = { λ s. s.faults };

    fn write(&mut self, piece: &[u8]) -> Result<usize, Failed>
        ensures fails { IsErr result ↔ WriteFails self.old }
        ensures count { IfOk result (λ count.
            count ≡ min (min (length piece.now) (self.old.room - length self.old.held)) self.old.most) }
        ensures ok { IfOk result (λ count. self.new ≡ record self.old {
          held = self.old.held ++ take count piece.now;
          writes = next_count self.old.writes;
        }) }
        ensures err { OnErr result (self.new ≡ record self.old {
          writes = next_count self.old.writes;
          faults = next_count self.old.faults;
        }) }

        // What every sink ensures.
        ensures most { IfOk result (λ count. count ≤ length piece.now) }
        ensures least { IfOk result (λ count. 0 < length piece.now → 1 ≤ count) }
        ensures put { IfOk result (λ count.
            Appends (Some self.old.held) (Some self.new.held) (take count piece.now)) }
        ensures nothing { OnErr result (Appends (Some self.old.held) (Some self.new.held) []) }
        ensures cause { OnErr result (Rose self.old.faults self.new.faults) }
        ensures never_falls { self.old.faults ≤ self.new.faults }
    {
        self.writes = self.writes.saturating_add(1);
        let room = self.room - self.bytes.len();
        if room == 0 || self.failing.contains(&self.writes) {
            self.faults = self.faults.saturating_add(1);
            return Err(Failed);
        }
        let count = piece.len().min(room).min(self.most);
        self.bytes.extend_from_slice(&piece[..count]).unwrap();
        Ok(count)
    }
}

//! A source and a sink in memory, which tell all that they hold and fail where they are told to.
ghost use Rattle.std.specs.Prelude.{ℕ, List, [], ◌++◌, ◌≡◌, ◌+◌, ◌-◌, ◌<◌, ◌≤◌, Some, IfOk, length, take, drop, min, vec_capacity};
ghost use Rattle.outside.specs.Counting.{StaysAtEnd};
ghost use Rattle.outside.specs.Reading.{Reads, CountsFailedRead};
ghost use Rattle.outside.specs.Writing.{Writes, CountsFailedWrite};
ghost use Rattle.outside.specs.InMemory.{SourceData, SinkData, source_state, sink_state, read_step, room_after, write_step};

use super::sinks::{Sink, Wrote};
use super::sources::{Read, Source};
use std::alloc::{AllocError, Global};
use std::marker::Model;

/// A source in memory: bytes, and the numbers of the reads that fail.
///
/// A contract sees what is left, the numbers of the failing reads, the number of reads so far, and
/// the count of faults.
#[derive(Drop)]
pub struct MemSource {
    bytes: Vec<u8>,
    at: usize,
    failing: Vec<u64>,
    reads: u64,
    faults: u64,
}

impl Model for MemSource {
    ghost Value = { SourceData };

    ghost view = { λ s. record {
      left = drop s.at s.bytes.items;
      failing = s.failing.items;
      reads = s.reads;
      faults = s.faults;
    } };

    ghost invariant = { λ s. s.at ≤ length s.bytes.items };
}

impl MemSource {
    /// A source that gives `bytes`. The reads with the numbers in `failing` fail; the first read has
    /// the number 1.
    pub fn new(bytes: Vec<u8>, failing: Vec<u64>) -> Self
        ensures left { result.left ≡ bytes.items }
        ensures failing { result.failing ≡ failing.items }
        ensures reads { result.reads ≡ 0 }
        ensures faults { result.faults ≡ 0 }
    {
        MemSource {
            bytes,
            at: 0,
            failing,
            reads: 0,
            faults: 0,
        }
    }
}

impl Source for MemSource {
    ghost state = { λ s. source_state s };

    /// Reads as many bytes as are left and the room has place for. A read that fails takes none.
    fn read(&mut self, room: &mut [u8]) -> Read
        requires { 0 < length room.old }
        ensures step { read_step self.old (length room.old) ≡ (result, self.new) }
        ensures room { room.new ≡ room_after result self.old.left room.old }
        ensures bytes { Reads result room.new (source_state self.old) (source_state self.new) }
        ensures failed { CountsFailedRead result (source_state self.old) (source_state self.new) }
        ensures grows { self.old.faults ≤ self.new.faults }
        ensures stays { StaysAtEnd self.old.faults self.new.faults }
    {
        self.reads = self.reads.saturating_add(1);
        if self.failing.contains(&self.reads) {
            self.faults = self.faults.saturating_add(1);
            return Read::Failed;
        }
        let (_, left) = self.bytes.split_at(self.at);
        let count = copy_front(left, room);
        if count == 0 {
            return Read::End;
        }
        self.at += count;
        Read::Got(count)
    }
}

// Copies as many bytes as both have, and returns how many.
fn copy_front(from: &[u8], to: &mut [u8]) -> usize
    ensures count { result ≡ min (length from.now) (length to.old) }
    ensures copied { to.new ≡ take result from.now ++ drop result to.old }
    ensures front { from.now ≡ take result to.new ++ drop result from.now }
{
    let count = from.len().min(to.len());
    to[..count].copy_from_slice(&from[..count]);
    count
}

/// A sink in memory: room for a number of bytes, and the numbers of the writes that fail.
///
/// A contract sees what was written, the number of bytes that it can hold, the numbers of the failing
/// writes, the number of writes so far, and the count of faults.
#[derive(Drop)]
pub struct MemSink {
    bytes: Vec<u8>,
    capacity: usize,
    failing: Vec<u64>,
    writes: u64,
    faults: u64,
}

impl Model for MemSink {
    ghost Value = { SinkData };

    ghost view = { λ s. record {
      written = s.bytes.items;
      capacity = s.capacity;
      failing = s.failing.items;
      writes = s.writes;
      faults = s.faults;
    } };

    ghost invariant = { λ s. (length s.bytes.items ≤ s.capacity) × (s.capacity ≤ vec_capacity s.bytes) };
}

impl MemSink {
    /// A sink that can hold `capacity` bytes, for which it takes the memory here. The writes with the
    /// numbers in `failing` fail; the first write has the number 1.
    ///
    /// # Errors
    ///
    /// Want of memory.
    pub fn new(alloc: Global, capacity: usize, failing: Vec<u64>) -> Result<Self, AllocError>
        ensures written { IfOk result (λ sink. sink.written ≡ []) }
        ensures capacity { IfOk result (λ sink. sink.capacity ≡ capacity) }
        ensures failing { IfOk result (λ sink. sink.failing ≡ failing.items) }
        ensures writes { IfOk result (λ sink. sink.writes ≡ 0) }
        ensures faults { IfOk result (λ sink. sink.faults ≡ 0) }
    {
        let bytes = Vec::with_capacity(alloc, capacity)?;
        Ok(MemSink {
            bytes,
            capacity,
            failing,
            writes: 0,
            faults: 0,
        })
    }

    /// The bytes that were written so far.
    pub fn as_slice(&self) -> &[u8]
        ensures { result.now ≡ self.now.written }
    {
        self.bytes.as_slice()
    }
}

impl Sink for MemSink {
    ghost state = { λ s. sink_state s };

    /// Takes as many bytes of `piece` as still fit. Where none fits of a piece that isn't empty, the
    /// count of faults rises. A write that fails takes none.
    fn write(&mut self, piece: &[u8]) -> Wrote
        ensures step { write_step self.old piece.now ≡ (result, self.new) }
        ensures bytes { Writes result piece.now (sink_state self.old) (sink_state self.new) }
        ensures failed { CountsFailedWrite result piece.now (sink_state self.old) (sink_state self.new) }
        ensures grows { self.old.faults ≤ self.new.faults }
        ensures stays { StaysAtEnd self.old.faults self.new.faults }
    {
        self.writes = self.writes.saturating_add(1);
        if self.failing.contains(&self.writes) {
            self.faults = self.faults.saturating_add(1);
            return Wrote::Failed;
        }
        let count = piece.len().min(self.capacity - self.bytes.len());
        let (front, _) = piece.split_at(count);
        self.bytes.extend_from_slice(front).unwrap();
        if count == 0 && !piece.is_empty() {
            self.faults = self.faults.saturating_add(1);
        }
        Wrote::Took(count)
    }
}

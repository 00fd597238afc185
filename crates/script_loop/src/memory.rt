// Streams in memory, that fail where they are told to.
ghost use Rattle.std.specs.Prelude.{◌≡◌, ◌⊎◌, ◌↔◌, ℕ, ◌+◌, ◌-◌, ◌^◌, ◌<◌, ◌≤◌, min, max, List, [], length, take, Some, slice_get, Contains, IsErr, IfOk, vec_len, vec_capacity};
ghost use Rattle.script_loop.specs.Calls.{Raises, most_of};
ghost use Rattle.script_loop.specs.Stream.{Counts, Reads, Writes};

use crate::{Sink, Source};
use sd_names::{Failed, NoMemory, push_all};
use std::alloc::Global;

/// Bytes in memory. It gives them in pieces, and fails in the calls that it is told to fail in.
#[derive(Drop)]
pub struct MemorySource {
    bytes: Vec<u8>,
    at: usize,
    pieces: Vec<usize>,
    failing: Vec<u64>,
    calls: u64,
    faults: u64,
    ghost within: { at ≤ vec_len bytes },
}

impl MemorySource {
    ghost use Rattle.script_loop.specs.Memory.{source_left, source_faults, source_pieces, source_failing, source_calls};

    /// A source of these bytes. The n-th read gives at most as many bytes as `pieces` says, where 0 counts as 1; past its
    /// end a read gives as many as fit. The reads whose numbers, from 0, stand in `failing` fail.
    pub fn new(bytes: Vec<u8>, pieces: Vec<usize>, failing: Vec<u64>) -> MemorySource
        ensures left { source_left result ≡ bytes.items }
        ensures pieces { source_pieces result ≡ pieces.items }
        ensures failing { source_failing result ≡ failing.items }
        ensures calls { source_calls result ≡ 0 }
        ensures faults { source_faults result ≡ 0 }
    {
        MemorySource {
            bytes,
            at: 0,
            pieces,
            failing,
            calls: 0,
            faults: 0,
        }
    }

    // How many bytes the next read gives at most into so much room.
    fn most(&self, size: usize) -> usize
        ensures some { 0 < size → 0 < result }
        ensures pieces { result ≡ most_of (source_pieces self.now) (source_calls self.now) size }
    {
        match self.pieces.get(self.calls_made()) {
            Some(most) => (*most).max(1),
            None => size,
        }
    }

    fn calls_made(&self) -> usize
        ensures { result ≡ source_calls self.now }
    {
        self.calls as usize
    }
}

impl Source for MemorySource {
    ghost use Rattle.std.specs.Prelude.{Some};
    ghost use Rattle.script_loop.specs.Memory.{source_left, source_faults, source_pieces, source_failing, source_calls};

    ghost left = { λ s. Some (source_left s) };

    ghost faults = { source_faults };

    fn read(&mut self, into: &mut [u8]) -> Result<usize, Failed>
        ensures bound { IfOk result (λ count. count ≤ length into.old) }
        ensures counts { Counts (source_faults self.old) (source_faults self.new) result }
        ensures moved { (before : List ℕ) → Some (source_left self.old) ≡ Some before
            → (after : List ℕ) × (Some (source_left self.new) ≡ Some after) × Reads before after into.new (length into.old) result }
        ensures fails { IsErr result ↔ Contains (source_failing self.old) (source_calls self.old) }
        ensures rises { Raises (source_faults self.old) (source_faults self.new) result }
        ensures pieces { IfOk result (λ count. count ≡ min (min (most_of (source_pieces self.old) (source_calls self.old) (length into.old)) (length into.old)) (length (source_left self.old))) }
        ensures calls { source_calls self.new ≡ min (source_calls self.old + 1) (2 ^ 64 - 1) }
        ensures kept { (source_pieces self.new ≡ source_pieces self.old) × (source_failing self.new ≡ source_failing self.old) }
    {
        let faults = self.faults;
        let most = self.most(into.len());
        let fails = self.failing.contains(&self.calls);
        self.calls = self.calls.saturating_add(1);
        if fails {
            self.faults = faults.saturating_add(1);
            return Err(Failed);
        }
        let count = copy_front(&self.bytes[self.at..], into, most);
        self.at += count;
        Ok(count)
    }
}

/// Copies bytes to the front of some room, at most so many, and answers how many.
pub fn copy_front(bytes: &[u8], into: &mut [u8], most: usize) -> usize
    requires { 0 < length into.old → 0 < most }
    ensures count { result ≡ min (min most (length into.old)) (length bytes.now) }
    ensures front { take result into.new ≡ take result bytes.now }
    ensures end { result ≡ 0 → 0 < length into.old → bytes.now ≡ [] }
{
    let count = most.min(into.len()).min(bytes.len());
    into[..count].copy_from_slice(&bytes[..count]);
    count
}

/// Room in memory for the bytes that are given. It fails in the calls that it is told to fail in, and where it is full.
#[derive(Drop)]
pub struct MemorySink {
    bytes: Vec<u8>,
    room: usize,
    failing: Vec<u64>,
    calls: u64,
    faults: u64,
    ghost within: { vec_len bytes ≤ room },
    ghost reserved: { room ≤ vec_capacity bytes },
}

impl MemorySink {
    ghost use Rattle.script_loop.specs.Memory.{sink_given, sink_faults, sink_room, sink_failing, sink_calls};

    /// A sink with room for so many bytes. The writes whose numbers, from 0, stand in `failing` fail.
    pub fn new(alloc: Global, room: usize, failing: Vec<u64>) -> Result<MemorySink, NoMemory>
        ensures given { IfOk result (λ sink. sink_given sink ≡ []) }
        ensures room { IfOk result (λ sink. sink_room sink ≡ room) }
        ensures failing { IfOk result (λ sink. sink_failing sink ≡ failing.items) }
        ensures calls { IfOk result (λ sink. sink_calls sink ≡ 0) }
        ensures faults { IfOk result (λ sink. sink_faults sink ≡ 0) }
    {
        match Vec::with_capacity(alloc, room) {
            Ok(bytes) => Ok(MemorySink {
                bytes,
                room,
                failing,
                calls: 0,
                faults: 0,
            }),
            Err(_) => Err(NoMemory),
        }
    }

    /// The bytes that were given.
    pub fn bytes(&self) -> &[u8]
        ensures { result.now ≡ sink_given self.now }
    {
        &self.bytes
    }
}

impl Sink for MemorySink {
    ghost use Rattle.std.specs.Prelude.{Some};
    ghost use Rattle.script_loop.specs.Memory.{sink_given, sink_faults, sink_room, sink_failing, sink_calls};

    ghost given = { λ s. Some (sink_given s) };

    ghost faults = { sink_faults };

    fn write(&mut self, piece: &[u8]) -> Result<usize, Failed>
        ensures bound { IfOk result (λ count. count ≤ length piece.now) }
        ensures some { 0 < length piece.now → IfOk result (λ count. 0 < count) }
        ensures counts { Counts (sink_faults self.old) (sink_faults self.new) result }
        ensures taken { (before : List ℕ) → Some (sink_given self.old) ≡ Some before
            → (after : List ℕ) × (Some (sink_given self.new) ≡ Some after) × Writes before after piece.now result }
        ensures fails { IsErr result ↔ (Contains (sink_failing self.old) (sink_calls self.old)
            ⊎ ((0 < length piece.now) × (length (sink_given self.old) ≡ sink_room self.old))) }
        ensures rises { Raises (sink_faults self.old) (sink_faults self.new) result }
        ensures fits { IfOk result (λ count. count ≡ min (length piece.now) (sink_room self.old - length (sink_given self.old))) }
        ensures calls { sink_calls self.new ≡ min (sink_calls self.old + 1) (2 ^ 64 - 1) }
        ensures kept { (sink_room self.new ≡ sink_room self.old) × (sink_failing self.new ≡ sink_failing self.old) }
    {
        let faults = self.faults;
        let fails = self.failing.contains(&self.calls);
        self.calls = self.calls.saturating_add(1);
        if fails {
            self.faults = faults.saturating_add(1);
            return Err(Failed);
        }
        if self.bytes.len() == self.room && !piece.is_empty() {
            self.faults = faults.saturating_add(1);
            return Err(Failed);
        }
        let count = piece.len().min(self.room - self.bytes.len());
        push_all(&mut self.bytes, &piece[..count]);
        Ok(count)
    }
}

//! Sources and sinks in memory, which fail on demand.

ghost use Rattle.std.specs.Prelude.{◌≡◌, ◌≤◌, ◌<◌, Some, [], drop, take, length, min, IfOk, vec_len, vec_capacity};
ghost use Rattle.bus_open.specs.Memory.{SourceState, SinkState};

use crate::stream::{Read, Sink, Source, WriteFailed};
use react_core::outside::OutOfMemory;
use std::alloc::Global;
use std::marker::Model;

/// A source that gives its bytes in pieces, and whose calls fail where they are told to.
#[derive(Drop)]
pub struct MemSource {
    bytes: Vec<u8>,
    at: usize,
    most: usize,
    faults: Vec<u64>,
    calls: u64,
    failed: u64,
}

impl Model for MemSource {
    ghost Value = { SourceState };

    ghost view = { λ s. record {
      rest = drop s.at s.bytes.items;
      most = s.most;
      faults = s.faults.items;
      calls = s.calls;
      failed = s.failed;
    } };

    ghost invariant = { λ s. (s.at ≤ vec_len s.bytes) × (0 < s.most) };
}

impl MemSource {
    /// Gives at most `most` bytes a read; the calls with these numbers, counted from 1, fail.
    pub fn new(bytes: Vec<u8>, most: usize, faults: Vec<u64>) -> MemSource
        requires { 0 < most }
        ensures { result ≡ record { rest = bytes.items; most = most; faults = faults.items; calls = 0; failed = 0 } }
    {
        MemSource {
            bytes,
            at: 0,
            most,
            faults,
            calls: 0,
            failed: 0,
        }
    }
}

/// Puts as many bytes at the front of the slice as fit, but at most so many.
#[tactic(auto, using(crate::proofs::Cuts::copied))]
fn copy_front(from: &[u8], into: &mut [u8], most: usize) -> usize
    ensures count { result ≡ min (min (length from.now) most) (length into.new) }
    ensures copied { take result into.new ≡ take result from.now }
    ensures room { length into.new ≡ length into.old }
{
    let count = from.len().min(most).min(into.len());
    into[..count].copy_from_slice(&from[..count]);
    count
}

impl Source for MemSource {
    ghost use Rattle.bus_open.specs.Streams.{CountsRead, Gives, Tells};
    ghost use Rattle.bus_open.specs.Memory.{read_answer, after_read};

    ghost left = { λ s. Some s.rest };

    ghost read_faults = { λ s. s.failed };

    #[tactic(auto, using(crate::proofs::Cuts::given))]
    fn read(&mut self, into: &mut [u8]) -> Read
        ensures tells { Tells (Some self.old.rest) (Some self.new.rest) }
        ensures bytes { Gives (Some self.old.rest) (Some self.new.rest) into.new result }
        ensures room { length into.new ≡ length into.old }
        ensures faults { CountsRead self.old.failed self.new.failed result }
        ensures answer { result ≡ read_answer self.old (length into.old) }
        ensures state { self.new ≡ after_read self.old result }
    {
        self.calls = self.calls.saturating_add(1);
        if self.faults.contains(&self.calls) {
            self.failed = self.failed.saturating_add(1);
            return Read::Failed;
        }
        let (_, rest) = self.bytes.as_slice().split_at(self.at);
        if rest.is_empty() {
            return Read::End;
        }
        let count = copy_front(rest, into, self.most);
        self.at += count;
        Read::Got(count)
    }
}

/// A sink with room for so many bytes, whose calls fail where they are told to.
#[derive(Drop)]
pub struct MemSink {
    bytes: Vec<u8>,
    room: usize,
    most: usize,
    faults: Vec<u64>,
    calls: u64,
    failed: u64,
}

impl Model for MemSink {
    ghost Value = { SinkState };

    ghost view = { λ s. record {
      held = s.bytes.items;
      room = s.room;
      most = s.most;
      faults = s.faults.items;
      calls = s.calls;
      failed = s.failed;
    } };

    ghost invariant = { λ s. (vec_len s.bytes ≤ s.room) × (s.room ≤ vec_capacity s.bytes) × (0 < s.most) };
}

impl MemSink {
    /// Reserves room for `room` bytes and takes at most `most` a write; the calls with these numbers, counted from 1,
    /// fail, and so do those that find no room left.
    pub fn new(
        alloc: Global,
        room: usize,
        most: usize,
        faults: Vec<u64>,
    ) -> Result<MemSink, OutOfMemory>
        requires { 0 < most }
        ensures { IfOk result
            (λ s. s ≡ record { held = []; room = room; most = most; faults = faults.items; calls = 0; failed = 0 }) }
    {
        let bytes = Vec::with_capacity(alloc, room)?;
        Ok(MemSink {
            bytes,
            room,
            most,
            faults,
            calls: 0,
            failed: 0,
        })
    }

    /// The bytes that it took.
    pub fn bytes(&self) -> &[u8]
        ensures { result.now ≡ self.now.held }
    {
        self.bytes.as_slice()
    }
}

impl Sink for MemSink {
    ghost use Rattle.bus_open.specs.Streams.{CountsWrite, Takes, Tells};
    ghost use Rattle.bus_open.specs.Memory.{write_answer, after_write};

    ghost held = { λ s. Some s.held };

    ghost write_faults = { λ s. s.failed };

    fn write(&mut self, bytes: &[u8]) -> Result<usize, WriteFailed>
        ensures tells { Tells (Some self.old.held) (Some self.new.held) }
        ensures bytes { Takes (Some self.old.held) (Some self.new.held) bytes.now result }
        ensures faults { CountsWrite self.old.failed self.new.failed result }
        ensures answer { result ≡ write_answer self.old (length bytes.now) }
        ensures state { self.new ≡ after_write self.old bytes.now result }
    {
        self.calls = self.calls.saturating_add(1);
        let space = self.room - self.bytes.len();
        if self.faults.contains(&self.calls) || (space == 0 && !bytes.is_empty()) {
            self.failed = self.failed.saturating_add(1);
            return Err(WriteFailed);
        }
        let count = bytes.len().min(self.most).min(space);
        self.bytes.extend_from_slice(&bytes[..count]).unwrap();
        Ok(count)
    }
}

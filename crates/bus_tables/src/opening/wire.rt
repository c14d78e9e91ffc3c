//! A wire in memory, a side that is polled over it, and what is said.

use crate::support::GUID;
use bus_address::Guid;
use bus_opening::{Authenticated, Handshake, Step, Verdict};
use react_core::outside::{Fault, OutOfMemory, Received, Sent, Tells, Wire};
use std::alloc::Global;
use std::test::Fail;

// A wire in memory. Each fault stands at its count's end, so that this wire may fail as the test wants it.
#[derive(Drop)]
pub(crate) struct Memory {
    input: Vec<u8>,
    at: usize,
    chunk: usize,
    rests: bool,
    rested: bool,
    pub(crate) closed: bool,
    pub(crate) sent: Vec<u8>,
    pub(crate) sends: u64,
    pub(crate) most: usize,
    pub(crate) room: usize,
    // The place of the call that meets this trouble, counted from 0; every other one goes on.
    pub(crate) trouble: Option<(u64, Trouble)>,
    calls: u64,
}

// What a wire answers in place of bytes.
#[derive(Clone, Copy)]
pub(crate) enum Trouble {
    Waits,
    Fails,
    LacksMemory,
}

impl Memory {
    // The trouble of this call.
    fn trouble_now(&mut self) -> Option<Trouble> {
        let call = self.calls;
        self.calls = call.saturating_add(1);
        match self.trouble {
            Some((at, trouble)) if at == call => Some(trouble),
            _ => None,
        }
    }
}

impl Tells for Memory {
    ghost use Rattle.std.specs.Prelude.{None, [], false, ◌^◌, ◌-◌};
    ghost use Rattle.std.proofs.Math.Nat.{le_refl};
    ghost use Rattle.std.proofs.lemmas.Nat.{pow_pos};

    type Origin = ();

    ghost outer = { λ s. record {
      origin = tt;
      events = None;
      moment = 0;
      poller_faults = 0;
      rooms = None;
      wire_faults = λ w. 2 ^ 64 - 1;
      dial_faults = λ w. 0;
      doors = record { faults = 0; arrivals = [] };
      ample = false;
    } };

    ghost counts_fit = { λ s. record {
      poller = pow_pos 64;
      wires = λ _. le_refl (2 ^ 64);
      dials = λ _. pow_pos 64;
      doors = pow_pos 64;
    } };
}

impl Wire for Memory {
    fn recv(&mut self, _wire: u32, into: &mut [u8]) -> Result<Received, Fault> {
        match self.trouble_now() {
            Some(Trouble::Waits) => return Ok(Received::NotReady),
            Some(Trouble::Fails) => return Err(Fault::Failed),
            Some(Trouble::LacksMemory) => return Err(Fault::OutOfMemory),
            None => {}
        }
        if self.rests && !self.rested {
            self.rested = true;
            return Ok(Received::NotReady);
        }
        self.rested = false;
        if self.at >= self.input.len() {
            return Ok(if self.closed {
                Received::End
            } else {
                Received::NotReady
            });
        }
        let left = self.input.len() - self.at;
        let count = left.min(into.len()).min(self.chunk.max(1));
        into[..count].copy_from_slice(&self.input[self.at..self.at + count]);
        self.at += count;
        Ok(Received::Got(count))
    }

    fn send(&mut self, _wire: u32, bytes: &[u8]) -> Result<Sent, Fault> {
        match self.trouble_now() {
            Some(Trouble::Waits) => return Ok(Sent::NotReady),
            Some(Trouble::Fails) => return Err(Fault::Failed),
            Some(Trouble::LacksMemory) => return Err(Fault::OutOfMemory),
            None => {}
        }
        if self.sent.len() >= self.room {
            return Err(Fault::Failed);
        }
        let count = bytes.len().min(self.most.max(1));
        if self.sent.extend_from_slice(&bytes[..count]).is_err() {
            return Err(Fault::OutOfMemory);
        }
        self.sends = self.sends.saturating_add(1);
        Ok(Sent::Took(count))
    }

    fn close(&mut self, _wire: u32) -> Result<(), OutOfMemory> {
        Ok(())
    }
}

// A wire on which these bytes come at once, and which takes all that is offered.
pub(crate) fn holding(alloc: Global, input: &[u8]) -> Result<Memory, OutOfMemory> {
    Ok(Memory {
        input: Vec::from_slice(alloc, input)?,
        at: 0,
        chunk: 1024,
        rests: false,
        rested: false,
        closed: false,
        sent: Vec::new(alloc),
        sends: 0,
        most: 1024,
        room: 4096,
        trouble: None,
        calls: 0,
    })
}

// The same, where so many bytes come and go at a time; single ones come with a pause before each.
pub(crate) fn by_chunks(alloc: Global, input: &[u8], chunk: usize) -> Result<Memory, OutOfMemory> {
    let mut wire = holding(alloc, input)?;
    wire.chunk = chunk;
    wire.most = chunk;
    wire.rests = chunk == 1;
    Ok(wire)
}

// Polls until an ending, at most as often as a test needs.
pub(crate) fn ending<H: Handshake>(
    alloc: Global,
    opening: &mut H,
    wire: &mut Memory,
) -> Option<Verdict> {
    for _ in 0..1000 {
        if opening.is_done() {
            return None;
        }
        match opening.poll(alloc, wire, 0) {
            Step::Done(verdict) => return Some(verdict),
            Step::WantRead | Step::WantWrite => {}
            Step::OutOfMemory => return None,
        }
    }
    None
}

pub(crate) const OK: &str = "OK 1234deadbeef1234deadbeef12345678|";

pub(crate) const OTHER: &str = "00000000000000000000000000000000";

// Adds a text in which each `|` stands for the end of a line.
pub(crate) fn add_lines(bytes: &mut Vec<u8>, text: &str) -> Result<(), OutOfMemory> {
    for byte in text.as_bytes() {
        if *byte == b'|' {
            bytes.extend_from_slice("\r\n".as_bytes())?;
        } else {
            bytes.extend_from_slice(&[*byte])?;
        }
    }
    Ok(())
}

pub(crate) fn lines(alloc: Global, text: &str) -> Result<Vec<u8>, OutOfMemory> {
    let mut bytes = Vec::new(alloc);
    add_lines(&mut bytes, text)?;
    Ok(bytes)
}

// How a conversation ends.
#[derive(Clone, Copy)]
pub(crate) enum End {
    Waits,
    Refused,
    Opens(bool),
}

pub(crate) fn verdict_of(end: End) -> Result<Option<Verdict>, Fail> {
    Ok(match end {
        End::Waits => None,
        End::Refused => Some(Verdict::Handshake),
        End::Opens(cap_unix_fd) => Some(Verdict::Authenticated(Authenticated {
            guid: Guid::from_str(GUID)?,
            cap_unix_fd,
        })),
    })
}

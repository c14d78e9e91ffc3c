//! Pieces that are to be sent.

ghost use Rattle.std.specs.Prelude.{◌≡◌, ◌≢◌, ◌≤◌, ◌<◌, ◌++◌, ◌↔◌, List, [], ℕ};
ghost use Rattle.std.specs.Prelude.{length, take, OnOk, OnErr, IfOk, IsTrue, get_or};
ghost use Rattle.bus_opening.specs.Client.{piece};
ghost use Rattle.bus_opening.specs.Standing.{rests};
ghost use Rattle.bus_opening.specs.Outboxes.{first_piece};

use std::alloc::{AllocError, Global};
use std::marker::Model;

/// What is to be sent.
#[derive(Drop)]
pub(crate) struct Outbox {
    said: Vec<u8>,
    taken: usize,
    first_end: usize,
}

impl Model for Outbox {
    ghost use Rattle.bus_opening.specs.Outboxes.{Sending};

    ghost Value = { Sending };

    ghost use Rattle.bus_opening.specs.OutboxFields.{sending_of, IsWithin};

    ghost view = { sending_of };

    ghost invariant = { IsWithin };
}

impl Outbox {
    pub(crate) fn written(&self) -> &[u8]
        ensures { result.now ≡ self.now.written }
    {
        &self.said[..self.taken]
    }

    pub(crate) fn is_waiting(&self) -> bool
        ensures { IsTrue result ↔ (0 < length self.now.waiting) }
    {
        self.taken < self.said.len()
    }

    /// The rest of the first piece.
    pub(crate) fn offer(&self) -> &[u8]
        requires { 0 < length self.now.waiting }
        ensures bytes { result.now ≡ first_piece self.now.waiting }
        ensures some { 0 < length result.now }
    {
        if self.taken < self.first_end {
            &self.said[self.taken..self.first_end]
        } else {
            &self.said[self.taken..]
        }
    }

    pub(crate) fn mark_taken(&mut self, count: usize)
        requires some { 0 < length self.old.waiting }
        requires bound { count ≤ length (first_piece self.old.waiting) }
        ensures waiting { self.new.waiting ≡ rests count self.old.waiting }
        ensures written { self.new.written ≡ self.old.written ++ take count (first_piece self.old.waiting) }
    {
        self.taken += count;
    }

    /// Says a piece where nothing waits. An `Err` changes nothing.
    pub(crate) fn say(&mut self, bytes: &[u8]) -> Result<(), AllocError>
        requires { self.old.waiting ≡ [] }
        ensures ok { OnOk result (self.new ≡ record self.old { waiting = piece bytes.now }) }
        ensures err { OnErr result (self.new ≡ self.old) }
    {
        self.said.extend_from_slice(bytes)
    }

    /// A nonce and a line, which are pieces of their own.
    pub(crate) fn begun(alloc: Global, nonce: &[u8], line: &[u8]) -> Result<Outbox, AllocError>
        ensures { IfOk result (λ o. (o.waiting ≡ piece nonce.now ++ piece line.now) × (o.written ≡ [])) }
    {
        let mut said = Vec::from_slice(alloc, nonce)?;
        said.extend_from_slice(line)?;
        Ok(Outbox {
            said,
            taken: 0,
            first_end: nonce.len(),
        })
    }
}

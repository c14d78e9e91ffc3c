//! Bytes that came and were not looked at.

ghost use Rattle.std.specs.Prelude.{◌≡◌, ◌==◌, ◌≤◌, ◌+◌, ◌-◌, ◌++◌, List, [], ℕ};
ghost use Rattle.std.specs.Prelude.{length, take, drop, position, IfOk, OnOk};
ghost use Rattle.std.specs.List.{flat_map};
ghost use Rattle.std.specs.Vec.{vec_capacity};
ghost use Rattle.bus_opening.specs.Limits.{line_limit, read_size, buffer_limit};
ghost use Rattle.bus_opening.specs.Lines.{feed_at};
ghost use Rattle.react_core.specs.Told.{told, recv_told, Counted, IsReceived};
ghost use Rattle.react_core.specs.Outer.{Keeps};
ghost use Rattle.react_core.specs.Outer as part;
ghost use Rattle.bus_opening.specs.Polling.{bytes_got};

use crate::limits::{BUFFER_LIMIT, READ_SIZE};
use react_core::outside::{Fault, Received, Wire};
use std::alloc::{AllocError, Global};
use std::marker::Model;

/// What came and was not looked at.
#[derive(Drop)]
pub(crate) struct Inbox {
    bytes: Vec<u8>,
    start: usize,
    searched: usize,
}

impl Model for Inbox {
    ghost use Rattle.std.specs.Prelude.{ℕ, List};

    ghost Value = { List ℕ };

    ghost use Rattle.bus_opening.specs.Inboxes.{rest_of, IsSearched};

    ghost view = { rest_of };

    ghost invariant = { IsSearched };
}

// Where the first line feed stands.
fn feed_in(bytes: &[u8]) -> Option<usize>
    ensures { result ≡ position (λ c. c == 10) bytes.now }
{
    bytes.iter().position(|b| *b == 10)
}

// How many bytes stand before the first line feed.
fn feed_len(bytes: &[u8]) -> usize
    ensures { result ≡ feed_at bytes.now }
{
    feed_in(bytes).unwrap_or(bytes.len())
}

// The same, where none stands among the first ones.
fn feed_from(bytes: &[u8], searched: usize) -> usize
    requires searched { searched ≤ feed_at bytes.now }
    requires few { length bytes.now ≤ buffer_limit }
    ensures { result ≡ feed_at bytes.now }
{
    searched + feed_len(&bytes[searched..])
}

// Lets the first bytes go.
fn remove_front(bytes: &mut Vec<u8>, count: usize)
    requires { count ≤ length bytes.old.items }
    ensures items { bytes.new.items ≡ drop count bytes.old.items }
    ensures room { vec_capacity bytes.new ≡ vec_capacity bytes.old }
{
    if count == 0 {
        return;
    }
    let len = bytes.len();
    bytes.as_mut_slice().copy_within(count..len, 0);
    bytes.truncate(len - count);
}

// The capacity for a read behind so many bytes: twice what there was, and no more than is ever needed.
fn room_for_read(len: usize, capacity: usize) -> usize
    requires few { len ≤ line_limit }
    requires within { capacity ≤ buffer_limit }
    ensures enough { len + read_size ≤ result }
    ensures within { result ≤ buffer_limit }
{
    (len + READ_SIZE).max(capacity * 2).min(BUFFER_LIMIT)
}

// Makes room for a read. A `Vec` left to itself would double past the most that is ever kept.
fn make_room(bytes: &mut Vec<u8>) -> Result<(), AllocError>
    requires few { length bytes.old.items ≤ line_limit }
    requires within { vec_capacity bytes.old ≤ buffer_limit }
    ensures items { bytes.new.items ≡ bytes.old.items }
    ensures within { vec_capacity bytes.new ≤ buffer_limit }
    ensures room { OnOk result (length bytes.new.items + read_size ≤ vec_capacity bytes.new) }
{
    let len = bytes.len();
    if len + READ_SIZE <= bytes.capacity() {
        return Ok(());
    }
    bytes.reserve_exact(room_for_read(len, bytes.capacity()) - len)
}

// Puts bytes behind those that are there, in the room that they have. `extend_from_slice` doesn't say what room it
// leaves.
fn append(bytes: &mut Vec<u8>, came: &[u8])
    requires room { length bytes.old.items + length came.now ≤ vec_capacity bytes.old }
    ensures items { bytes.new.items ≡ bytes.old.items ++ came.now }
    ensures room { vec_capacity bytes.new ≡ vec_capacity bytes.old }
{
    for byte in came {
        bytes.push_reserved(*byte);
    }
}

// Reads behind the bytes that are there. Memory is there before the wire is asked, so that no byte that came is lost;
// where none came and none were there it is given back.
fn receive<W: Wire>(bytes: &mut Vec<u8>, outside: &mut W, wire: u32) -> Result<Received, Fault>
    requires few { length bytes.old.items ≤ line_limit }
    requires within { vec_capacity bytes.old ≤ buffer_limit }
    ensures amount { IfOk result (IsReceived read_size) }
    ensures told { (into : List ℕ) × (length into ≡ read_size)
        × ((W.outer outside.new).events ≡ told (W.outer outside.old).events (recv_told wire into result))
        × (bytes.new.items ≡ bytes.old.items ++ flat_map bytes_got (recv_told wire into result)) }
    ensures cause { Counted result ((W.outer outside.old).wire_faults wire) ((W.outer outside.new).wire_faults wire) }
    ensures keeps { Keeps (part.Wire wire) (W.outer outside.old) (W.outer outside.new) }
    ensures few { length bytes.new.items ≤ buffer_limit }
    ensures within { vec_capacity bytes.new ≤ buffer_limit }
    ensures frees { OnOk result (length bytes.new.items ≡ 0 → vec_capacity bytes.new ≡ 0) }
{
    if make_room(bytes).is_err() {
        return Err(Fault::OutOfMemory);
    }
    let mut buffer = [0u8; READ_SIZE];
    let received = outside.recv(wire, &mut buffer);
    if let Ok(Received::Got(count)) = received {
        append(bytes, &buffer[..count]);
    }
    if bytes.is_empty() {
        bytes.shrink_to_fit();
    }
    received
}

impl Inbox {
    pub(crate) fn new(alloc: Global) -> Inbox
        ensures { result ≡ [] }
    {
        Inbox {
            bytes: Vec::new(alloc),
            start: 0,
            searched: 0,
        }
    }

    pub(crate) fn as_slice(&self) -> &[u8]
        ensures value { result.now ≡ self.now }
        ensures few { length result.now ≤ buffer_limit }
    {
        &self.bytes[self.start..]
    }

    /// How many bytes stand before the first line feed; no byte is looked at twice.
    pub(crate) fn feed(&mut self) -> usize
        ensures same { self.new ≡ self.old }
        ensures feed { result ≡ feed_at self.old }
    {
        let feed = feed_from(self.as_slice(), self.searched);
        self.searched = feed;
        feed
    }

    /// Lets bytes go that were looked at.
    pub(crate) fn pass(&mut self, count: usize)
        requires { count ≤ length self.old }
        ensures { self.new ≡ drop count self.old }
    {
        self.start += count;
        self.searched = 0;
    }

    pub(crate) fn recv<W: Wire>(&mut self, outside: &mut W, wire: u32) -> Result<Received, Fault>
        requires { length self.old ≤ line_limit }
        ensures amount { IfOk result (IsReceived read_size) }
        ensures told { (into : List ℕ) × (length into ≡ read_size)
            × ((W.outer outside.new).events ≡ told (W.outer outside.old).events (recv_told wire into result))
            × (self.new ≡ self.old ++ flat_map bytes_got (recv_told wire into result)) }
        ensures cause { Counted result ((W.outer outside.old).wire_faults wire)
            ((W.outer outside.new).wire_faults wire) }
        ensures keeps { Keeps (part.Wire wire) (W.outer outside.old) (W.outer outside.new) }
    {
        remove_front(&mut self.bytes, self.start);
        self.start = 0;
        receive(&mut self.bytes, outside, wire)
    }
}

//! What is asked of this outside alone: listening sockets, datagrams, and looks at what is to be read.
//!
//! Each call counts its faults under the first wire number that it is given.

ghost use Rattle.std.specs.Prelude.{◌≡◌, ℕ, length, IfOk};
ghost use Rattle.react_core.specs.Outer.{Keeps};
ghost use Rattle.react_core.specs.Outer as part;
ghost use Rattle.react_core.specs.Told.{Counted, IsReceived};
ghost use Rattle.bus_edges.specs.Seen.{outer_of};
ghost use Rattle.bus_edges.specs.Amounts.{IsArrived, IsFrom, IsPosted};

use crate::dialling::{bind_datagrams, listen_tcp, listen_unix};
use crate::edges::Edges;
use crate::sockets::Socket;
use react_core::outside::{Fault, Peer, Received, Sent};
use std::net::Net;
use std::process::Processes;
use std::rt::Files;

/// Whether a connection came to a listening socket.
#[derive(Clone, Copy, Debug, PartialEq, Eq)]
pub enum Accepted {
    Got,
    NotReady,
}

impl<R: Processes> Edges<R> {
    /// Puts a bound socket under a wire number that has a place.
    #[tactic(auto, using(crate::proofs::Keeping::keeps_itself))]
    fn bound<T>(
        &mut self,
        wire: u32,
        socket: Result<(Socket<R::Started>, T), Fault>,
    ) -> Result<T, Fault>
        ensures cause { Counted result ((outer_of self.old.counts).wire_faults wire)
            ((outer_of self.new.counts).wire_faults wire) }
        ensures keeps { Keeps (part.Wire wire) (outer_of self.old.counts) (outer_of self.new.counts) }
    {
        let (socket, found) = self.counts.of_wire(wire, socket)?;
        self.table.put(wire, socket, false);
        Ok(found)
    }
}

impl<R: Net + Processes + Files> Edges<R> {
    /// Listens at a path, where the file must not be there yet. What stood under the wire number is closed.
    #[tactic(auto, using(crate::proofs::Keeping::same_keeps, crate::proofs::Keeping::keeps_after_same))]
    pub fn bind_unix(&mut self, wire: u32, path: &str) -> Result<(), Fault>
        ensures cause { Counted result ((outer_of self.old.counts).wire_faults wire)
            ((outer_of self.new.counts).wire_faults wire) }
        ensures keeps { Keeps (part.Wire wire) (outer_of self.old.counts) (outer_of self.new.counts) }
    {
        self.make_room(wire)?;
        let socket = listen_unix(&self.rt, path).map(|socket| (socket, ()));
        self.bound(wire, socket)
    }
}

impl<R: Net + Processes> Edges<R> {
    /// Listens over TCP, and answers the address, whose port the system chose where it was asked for port 0.
    #[tactic(auto, using(crate::proofs::Keeping::same_keeps, crate::proofs::Keeping::keeps_after_same))]
    pub fn bind_tcp(&mut self, wire: u32, peer: Peer) -> Result<Peer, Fault>
        ensures cause { Counted result ((outer_of self.old.counts).wire_faults wire)
            ((outer_of self.new.counts).wire_faults wire) }
        ensures keeps { Keeps (part.Wire wire) (outer_of self.old.counts) (outer_of self.new.counts) }
    {
        self.make_room(wire)?;
        let socket = listen_tcp(&self.rt, peer);
        self.bound(wire, socket)
    }

    /// Binds a socket for datagrams, and answers the address, whose port the system chose where it was asked for
    /// port 0.
    #[tactic(auto, using(crate::proofs::Keeping::same_keeps, crate::proofs::Keeping::keeps_after_same))]
    pub fn bind_udp(&mut self, wire: u32, peer: Peer) -> Result<Peer, Fault>
        ensures cause { Counted result ((outer_of self.old.counts).wire_faults wire)
            ((outer_of self.new.counts).wire_faults wire) }
        ensures keeps { Keeps (part.Wire wire) (outer_of self.old.counts) (outer_of self.new.counts) }
    {
        self.make_room(wire)?;
        let socket = bind_datagrams(&self.rt, peer);
        self.bound(wire, socket)
    }
}

impl<R: Processes> Edges<R> {
    /// Gives a wire the next connection of a listening socket, where one waits. `accept` of the dialer then opens it.
    #[tactic(auto, using(crate::proofs::Keeping::same_keeps, crate::proofs::Keeping::keeps_after_same))]
    pub fn accept_on(&mut self, listener: u32, wire: u32) -> Result<Accepted, Fault>
        ensures cause { Counted result ((outer_of self.old.counts).wire_faults listener)
            ((outer_of self.new.counts).wire_faults listener) }
        ensures keeps { Keeps (part.Wire listener) (outer_of self.old.counts) (outer_of self.new.counts) }
    {
        self.make_room(wire)?;
        let answer = self.table.accept(listener);
        match self.counts.of_wire(listener, answer)? {
            Some(socket) => {
                self.table.put(wire, socket, true);
                Ok(Accepted::Got)
            }
            None => Ok(Accepted::NotReady),
        }
    }

    /// Fixes the peer of a bound socket for datagrams.
    pub fn connect_udp(&mut self, wire: u32, peer: Peer) -> Result<(), Fault>
        ensures cause { Counted result ((outer_of self.old.counts).wire_faults wire)
            ((outer_of self.new.counts).wire_faults wire) }
        ensures keeps { Keeps (part.Wire wire) (outer_of self.old.counts) (outer_of self.new.counts) }
    {
        let answer = self.table.connect_udp(wire, peer);
        self.counts.of_wire(wire, answer)
    }

    /// Looks at a stream's next bytes, which stay there.
    pub fn peek(&mut self, wire: u32, into: &mut [u8]) -> Result<Received, Fault>
        ensures amount { IfOk result (IsReceived (length into.old)) }
        ensures room { length into.new ≡ length into.old }
        ensures cause { Counted result ((outer_of self.old.counts).wire_faults wire)
            ((outer_of self.new.counts).wire_faults wire) }
        ensures keeps { Keeps (part.Wire wire) (outer_of self.old.counts) (outer_of self.new.counts) }
    {
        let answer = self.table.peek(wire, into);
        self.counts.of_wire(wire, answer)
    }

    /// Takes the next datagram of the socket's peer. What doesn't fit into the slice is lost.
    pub fn recv_udp(&mut self, wire: u32, into: &mut [u8]) -> Result<Received, Fault>
        ensures amount { IfOk result (IsArrived (length into.old)) }
        ensures room { length into.new ≡ length into.old }
        ensures cause { Counted result ((outer_of self.old.counts).wire_faults wire)
            ((outer_of self.new.counts).wire_faults wire) }
        ensures keeps { Keeps (part.Wire wire) (outer_of self.old.counts) (outer_of self.new.counts) }
    {
        let answer = self.table.recv_udp(wire, into);
        self.counts.of_wire(wire, answer)
    }

    /// Looks at the next datagram of the socket's peer, which stays there.
    pub fn peek_udp(&mut self, wire: u32, into: &mut [u8]) -> Result<Received, Fault>
        ensures amount { IfOk result (IsArrived (length into.old)) }
        ensures room { length into.new ≡ length into.old }
        ensures cause { Counted result ((outer_of self.old.counts).wire_faults wire)
            ((outer_of self.new.counts).wire_faults wire) }
        ensures keeps { Keeps (part.Wire wire) (outer_of self.old.counts) (outer_of self.new.counts) }
    {
        let answer = self.table.peek_udp(wire, into);
        self.counts.of_wire(wire, answer)
    }

    /// Takes the next datagram, and tells who sent it. What doesn't fit into the slice is lost.
    pub fn recv_from(
        &mut self,
        wire: u32,
        into: &mut [u8],
    ) -> Result<(Received, Option<Peer>), Fault>
        ensures amount { IfOk result (λ r. IsArrived (length into.old) r.0) }
        ensures sender { IfOk result (λ r. IsFrom r.0 r.1) }
        ensures room { length into.new ≡ length into.old }
        ensures cause { Counted result ((outer_of self.old.counts).wire_faults wire)
            ((outer_of self.new.counts).wire_faults wire) }
        ensures keeps { Keeps (part.Wire wire) (outer_of self.old.counts) (outer_of self.new.counts) }
    {
        let answer = self.table.recv_from(wire, into);
        self.counts.of_wire(wire, answer)
    }

    /// Looks at the next datagram, which stays there, and tells who sent it.
    pub fn peek_from(
        &mut self,
        wire: u32,
        into: &mut [u8],
    ) -> Result<(Received, Option<Peer>), Fault>
        ensures amount { IfOk result (λ r. IsArrived (length into.old) r.0) }
        ensures sender { IfOk result (λ r. IsFrom r.0 r.1) }
        ensures room { length into.new ≡ length into.old }
        ensures cause { Counted result ((outer_of self.old.counts).wire_faults wire)
            ((outer_of self.new.counts).wire_faults wire) }
        ensures keeps { Keeps (part.Wire wire) (outer_of self.old.counts) (outer_of self.new.counts) }
    {
        let answer = self.table.peek_from(wire, into);
        self.counts.of_wire(wire, answer)
    }

    /// Sends a datagram to the socket's peer.
    pub fn send_udp(&mut self, wire: u32, bytes: &[u8]) -> Result<Sent, Fault>
        ensures amount { IfOk result (IsPosted (length bytes.now)) }
        ensures cause { Counted result ((outer_of self.old.counts).wire_faults wire)
            ((outer_of self.new.counts).wire_faults wire) }
        ensures keeps { Keeps (part.Wire wire) (outer_of self.old.counts) (outer_of self.new.counts) }
    {
        let answer = self.table.send_udp(wire, bytes);
        self.counts.of_wire(wire, answer)
    }

    /// Sends a datagram to a peer.
    pub fn send_to(&mut self, wire: u32, bytes: &[u8], peer: Peer) -> Result<Sent, Fault>
        ensures amount { IfOk result (IsPosted (length bytes.now)) }
        ensures cause { Counted result ((outer_of self.old.counts).wire_faults wire)
            ((outer_of self.new.counts).wire_faults wire) }
        ensures keeps { Keeps (part.Wire wire) (outer_of self.old.counts) (outer_of self.new.counts) }
    {
        let answer = self.table.send_to(wire, bytes, peer);
        self.counts.of_wire(wire, answer)
    }
}

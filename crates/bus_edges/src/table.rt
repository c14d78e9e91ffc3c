//! What stands under each wire number, and what the poller is to tell of it.

ghost use Rattle.std.specs.Prelude.{◌≡◌, ◌≤◌, ◌&&◌, not, false, length, IfOk, IfSome, IfNone};
ghost use Rattle.react_core.specs.Told.{IsReceived, IsSent};
ghost use Rattle.bus_edges.specs.Amounts.{IsArrived, IsFrom, IsPosted};

use crate::sockets::Socket;
use mio::event::Event;
use mio::{Events, Interest, Registry, Token};
use react_core::outside::{Fault, Peer, Received, Report, Sent};
use std::alloc::{AllocError, Global};
use std::process::{Child, OpenProcess};

/// The token of notices, which no wire has: theirs are their numbers.
pub(crate) const NOTICE: Token = Token(usize::MAX);

/// A key, which directions are of interest under it, and whether the system knows the socket.
#[derive(Clone, Copy)]
struct Source {
    key: usize,
    read: bool,
    write: bool,
    known: bool,
}

impl Source {
    /// The report that is due where the system found these directions ready. It ends the interest in what it names.
    fn report(&mut self, read: bool, write: bool) -> Option<Report>
        ensures key { self.new.key ≡ self.old.key }
        ensures read { self.new.read ≡ (self.old.read && not read) }
        ensures write { self.new.write ≡ (self.old.write && not write) }
        ensures named { IfSome result (λ r. (r.key ≡ self.old.key)
            × (r.read ≡ (self.old.read && read)) × (r.write ≡ (self.old.write && write))) }
        ensures nothing { IfNone result (((self.old.read && read) ≡ false) × ((self.old.write && write) ≡ false)) }
    {
        let reads = self.read && read;
        let writes = self.write && write;
        self.read = self.read && !read;
        self.write = self.write && !write;
        if reads || writes {
            Some(Report {
                key: self.key,
                read: reads,
                write: writes,
            })
        } else {
            None
        }
    }
}

/// A wire number's place.
#[derive(Drop)]
struct Slot<P: OpenProcess> {
    socket: Option<Socket<P>>,
    source: Option<Source>,
    // Whether the socket came to a listening one, and nobody has asked for it.
    came: bool,
}

impl<P: OpenProcess + Drop> Slot<P> {
    fn add(&mut self, key: usize) -> Result<(), Fault> {
        if self.socket.is_none() || self.source.is_some() {
            return Err(Fault::Failed);
        }
        self.source = Some(Source {
            key,
            read: false,
            write: false,
            known: false,
        });
        Ok(())
    }

    fn modify(
        &mut self,
        registry: &Registry,
        token: Token,
        key: usize,
        read: bool,
        write: bool,
    ) -> Result<(), Fault> {
        let Some(source) = self.source else {
            return Err(Fault::Failed);
        };
        let Some(socket) = &mut self.socket else {
            return Err(Fault::Failed);
        };
        let known = socket.tell(registry, token, interest(read, write), source.known)?;
        self.source = Some(Source {
            key,
            read,
            write,
            known,
        });
        Ok(())
    }

    fn delete(&mut self, registry: &Registry) -> Result<(), Fault> {
        let Some(source) = self.source.take() else {
            return Err(Fault::Failed);
        };
        let Some(socket) = &mut self.socket else {
            return Err(Fault::Failed);
        };
        socket.tell(registry, NOTICE, None, source.known)?;
        Ok(())
    }

    fn take_arrival(&mut self) -> Result<bool, Fault> {
        if !self.came {
            return Err(Fault::Failed);
        }
        self.came = false;
        Ok(matches!(&self.socket, Some(Socket::Unix(_))))
    }

    /// Empties the place, and answers what stood there.
    fn clear(&mut self) -> Option<Socket<P>> {
        self.source = None;
        self.came = false;
        self.socket.take()
    }
}

/// The places of all wire numbers that were used, and the programs whose wires were closed.
#[derive(Drop)]
pub(crate) struct Table<P: OpenProcess> {
    slots: Vec<Slot<P>>,
    closed: Vec<Child<P>>,
}

impl<P: OpenProcess + Drop> Table<P> {
    pub(crate) fn new(alloc: Global) -> Self {
        Table {
            slots: Vec::new(alloc),
            closed: Vec::new(alloc),
        }
    }

    /// Has a place for this wire.
    pub(crate) fn make_room(&mut self, wire: u32) -> Result<(), AllocError> {
        let places = wire as usize + 1;
        self.slots.reserve(places.saturating_sub(self.slots.len()))?;
        for _ in self.slots.len()..places {
            self.slots.push(Slot {
                socket: None,
                source: None,
                came: false,
            })?;
        }
        Ok(())
    }

    /// Has a place for each program whose wire may be closed.
    pub(crate) fn make_room_for_programs(&mut self) -> Result<(), AllocError> {
        self.closed.reserve(self.slots.len())
    }

    /// Puts a socket under a wire number that has a place. What stood there is closed.
    pub(crate) fn put(&mut self, wire: u32, socket: Socket<P>, came: bool) {
        self.close(wire);
        if let Some(slot) = self.slots.get_mut(wire as usize) {
            slot.socket = Some(socket);
            slot.came = came;
        }
    }

    /// Closes what stands under a wire number. A program's pipes are closed, and its end is awaited by later calls.
    pub(crate) fn close(&mut self, wire: u32) {
        let Some(slot) = self.slots.get_mut(wire as usize) else {
            return;
        };
        if let Some(Socket::Program(mut child)) = slot.clear() {
            child.stdin = None;
            child.stdout = None;
            // The place was made when the program was started; without one it would go unreaped.
            let _ = self.closed.push(child);
        }
        self.reap();
    }

    /// Reaps the programs with a closed wire that have ended. It doesn't wait.
    pub(crate) fn reap(&mut self) {
        self.closed
            .retain_mut(|child| matches!(child.try_wait(), Ok(None)));
    }

    /// How many programs with a closed wire have not been found to have ended.
    pub(crate) fn unended(&self) -> usize {
        self.closed.len()
    }

    /// Whether the connection that came under this wire number is over a Unix socket. It is asked for once.
    pub(crate) fn take_arrival(&mut self, wire: u32) -> Result<bool, Fault> {
        match self.slots.get_mut(wire as usize) {
            Some(slot) => slot.take_arrival(),
            None => Err(Fault::Failed),
        }
    }

    /// What stands under a wire number.
    pub(crate) fn socket(&mut self, wire: u32) -> Result<&mut Socket<P>, Fault> {
        match self.slots.get_mut(wire as usize) {
            Some(slot) => slot.socket.as_mut().ok_or(Fault::Failed),
            None => Err(Fault::Failed),
        }
    }

    /// Reads what there is on a wire.
    pub(crate) fn recv(&mut self, wire: u32, into: &mut [u8]) -> Result<Received, Fault>
        ensures amount { IfOk result (IsReceived (length into.old)) }
        ensures room { length into.new ≡ length into.old }
    {
        self.socket(wire)?.recv(into)
    }

    /// Writes what fits on a wire.
    pub(crate) fn send(&mut self, wire: u32, bytes: &[u8]) -> Result<Sent, Fault>
        ensures amount { IfOk result (IsSent (length bytes.now)) }
    {
        self.socket(wire)?.send(bytes)
    }

    /// Takes the next connection of a listening socket, where one waits.
    pub(crate) fn accept(&mut self, listener: u32) -> Result<Option<Socket<P>>, Fault> {
        self.socket(listener)?.accept()
    }

    pub(crate) fn connect_udp(&mut self, wire: u32, peer: Peer) -> Result<(), Fault> {
        self.socket(wire)?.connect_udp(peer)
    }

    pub(crate) fn peek(&mut self, wire: u32, into: &mut [u8]) -> Result<Received, Fault>
        ensures amount { IfOk result (IsReceived (length into.old)) }
        ensures room { length into.new ≡ length into.old }
    {
        self.socket(wire)?.peek(into)
    }

    pub(crate) fn recv_udp(&mut self, wire: u32, into: &mut [u8]) -> Result<Received, Fault>
        ensures amount { IfOk result (IsArrived (length into.old)) }
        ensures room { length into.new ≡ length into.old }
    {
        self.socket(wire)?.recv_udp(into)
    }

    pub(crate) fn peek_udp(&mut self, wire: u32, into: &mut [u8]) -> Result<Received, Fault>
        ensures amount { IfOk result (IsArrived (length into.old)) }
        ensures room { length into.new ≡ length into.old }
    {
        self.socket(wire)?.peek_udp(into)
    }

    pub(crate) fn recv_from(
        &mut self,
        wire: u32,
        into: &mut [u8],
    ) -> Result<(Received, Option<Peer>), Fault>
        ensures amount { IfOk result (λ r. IsArrived (length into.old) r.0) }
        ensures sender { IfOk result (λ r. IsFrom r.0 r.1) }
        ensures room { length into.new ≡ length into.old }
    {
        self.socket(wire)?.recv_from(into)
    }

    pub(crate) fn peek_from(
        &mut self,
        wire: u32,
        into: &mut [u8],
    ) -> Result<(Received, Option<Peer>), Fault>
        ensures amount { IfOk result (λ r. IsArrived (length into.old) r.0) }
        ensures sender { IfOk result (λ r. IsFrom r.0 r.1) }
        ensures room { length into.new ≡ length into.old }
    {
        self.socket(wire)?.peek_from(into)
    }

    pub(crate) fn send_udp(&mut self, wire: u32, bytes: &[u8]) -> Result<Sent, Fault>
        ensures amount { IfOk result (IsPosted (length bytes.now)) }
    {
        self.socket(wire)?.send_udp(bytes)
    }

    pub(crate) fn send_to(&mut self, wire: u32, bytes: &[u8], peer: Peer) -> Result<Sent, Fault>
        ensures amount { IfOk result (IsPosted (length bytes.now)) }
    {
        self.socket(wire)?.send_to(bytes, peer)
    }

    /// Puts a wire under a key, with no interest.
    pub(crate) fn add(&mut self, wire: u32, key: usize) -> Result<(), Fault> {
        match self.slots.get_mut(wire as usize) {
            Some(slot) => slot.add(key),
            None => Err(Fault::Failed),
        }
    }

    /// Sets what is of interest, and has the system tell anew what is ready.
    pub(crate) fn modify(
        &mut self,
        registry: &Registry,
        wire: u32,
        key: usize,
        read: bool,
        write: bool,
    ) -> Result<(), Fault> {
        match self.slots.get_mut(wire as usize) {
            Some(slot) => slot.modify(registry, Token(wire as usize), key, read, write),
            None => Err(Fault::Failed),
        }
    }

    /// Takes a wire out of the poller.
    pub(crate) fn delete(&mut self, registry: &Registry, wire: u32) -> Result<(), Fault> {
        match self.slots.get_mut(wire as usize) {
            Some(slot) => slot.delete(registry),
            None => Err(Fault::Failed),
        }
    }

    /// What an event says of a wire that is of interest.
    fn report(&mut self, event: &Event) -> Option<Report> {
        match self.slots.get_mut(event.token().0) {
            Some(slot) => match &mut slot.source {
                Some(source) => source.report(reads(event), writes(event)),
                None => None,
            },
            None => None,
        }
    }

    /// Puts at the front of the slice what the events say, and answers how many reports these are.
    pub(crate) fn reports(&mut self, events: &Events<Global>, reports: &mut [Report]) -> usize
        ensures bound { result ≤ length reports.old }
        ensures room { length reports.new ≡ length reports.old }
    {
        let mut count = 0;
        for event in events.iter() {
            if count < reports.len() {
                if let Some(report) = self.report(event) {
                    reports[count] = report;
                    count += 1;
                }
            }
        }
        count
    }
}

/// Whether a read need not wait: also where it would fail, or find the end.
fn reads(event: &Event) -> bool {
    event.is_readable() || event.is_read_closed() || event.is_error()
}

/// Whether a write need not wait: also where it would fail.
fn writes(event: &Event) -> bool {
    event.is_writable() || event.is_write_closed() || event.is_error()
}

/// The interest in these directions.
fn interest(read: bool, write: bool) -> Option<Interest> {
    match (read, write) {
        (true, true) => Some(Interest::READABLE | Interest::WRITABLE),
        (true, false) => Some(Interest::READABLE),
        (false, true) => Some(Interest::WRITABLE),
        (false, false) => None,
    }
}

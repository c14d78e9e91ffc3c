//! The outside itself: the traits over what stands under the wire numbers.

ghost use Rattle.std.specs.Prelude.{◌≡◌, ℕ, length, IfOk, IsErr};
ghost use Rattle.react_core.specs.Outer.{Keeps};
ghost use Rattle.react_core.specs.Outer as part;
ghost use Rattle.react_core.specs.Told.{Counted};
ghost use Rattle.bus_edges.specs.Seen.{count_at, seen_of, outer_of};

use crate::clock::reading;
use crate::counts::Counts;
use crate::dialling::{connect_tcp, connect_unix, ibus, looked_up, nonce_in, started};
use crate::sockets::Socket;
use crate::streams::fault_of;
use crate::table::{NOTICE, Table};
use mio::{Events, Poll, Waker};
use react_core::outside::{
    Args, Bytes, Clock, Dialer, Fault, Notifier, Opened, OutOfMemory, Output, Outside, Peer, Peers,
    Poller, Received, Registrar, Report, Sent, Tells, Waited, Waiter, Wire,
};
use std::alloc::Global;
use std::net::Net;
use std::process::Processes;
use std::rt::Files;
use std::time::{Clock as SystemClock, Duration};

/// How many events a poller has places for before its first wait.
const FIRST_PLACES: usize = 64;

/// The real outside: sockets and programs under wire numbers, a poller, and a clock that never falls. It tells nothing.
///
/// Wire numbers are to be small: each up to the greatest one that was used takes a place. A socket that is put under a
/// number closes what stood there, and an `Edges` that is let go closes all. A program whose wire is closed loses its
/// pipes and is neither ended nor waited for; once it has ended, the next `close`, `start` or `wait` reaps it.
#[derive(Drop)]
pub struct Edges<R: Processes> {
    pub(crate) rt: R,
    alloc: Global,
    poll: Poll,
    waker: Waker,
    events: Events<Global>,
    pub(crate) table: Table<R::Started>,
    pub(crate) counts: Counts,
}

impl<R: Net + Processes + Drop> Edges<R> {
    /// Makes an outside without wires and without faults, which keeps the runtime.
    pub fn new(rt: R, alloc: Global) -> Result<Edges<R>, Fault>
        ensures moment { IfOk result (λ edges. (outer_of edges.counts).moment ≡ 0) }
        ensures poller { IfOk result (λ edges. (outer_of edges.counts).poller_faults ≡ 0) }
    {
        let poll = Poll::new(&rt).map_err(fault_of)?;
        let waker = Waker::new(poll.registry(), NOTICE).map_err(fault_of)?;
        let events = Events::with_capacity(alloc, FIRST_PLACES).map_err(OutOfMemory::from)?;
        Ok(Edges {
            rt,
            alloc,
            poll,
            waker,
            events,
            table: Table::new(alloc),
            counts: Counts::new(alloc),
        })
    }
}

impl<R: Processes> Edges<R> {
    /// How many programs whose wire was closed have not been found to have ended.
    pub fn unended(&self) -> usize {
        self.table.unended()
    }
}

impl<R: Processes> Tells for Edges<R> {
    ghost use Rattle.bus_edges.specs.Seen.{outer_of, seen_counts_fit};

    type Origin = ();

    ghost outer = { λ edges. outer_of edges.counts };

    ghost counts_fit = { λ edges. seen_counts_fit edges.counts };
}

impl<R: Processes + SystemClock> Clock for Edges<R> {
    fn now(&mut self) -> Result<u64, OutOfMemory> {
        Ok(self.counts.read(reading(&self.rt)))
    }
}

impl<R: Processes> Registrar for Edges<R> {
    fn add(&mut self, wire: u32, key: usize) -> Result<(), Fault> {
        self.counts.of_poller(self.table.add(wire, key))
    }

    fn modify(&mut self, wire: u32, key: usize, read: bool, write: bool) -> Result<(), Fault> {
        let registry = self.poll.registry();
        let answer = self.table.modify(registry, wire, key, read, write);
        self.counts.of_poller(answer)
    }

    fn delete(&mut self, wire: u32, _key: usize) -> Result<(), Fault> {
        let answer = self.table.delete(self.poll.registry(), wire);
        self.counts.of_poller(answer)
    }
}

impl<R: Processes> Notifier for Edges<R> {
    fn notify(&mut self) -> Result<(), Fault> {
        self.counts.of_poller(self.waker.wake().map_err(fault_of))
    }
}

impl<R: Processes> Edges<R> {
    /// Waits until the buffer of events has what the system tells. The buffer gets as many places as are asked for.
    fn poll(&mut self, timeout: Option<u64>, places: usize) -> Result<(), Fault>
        ensures counts { self.new.counts ≡ self.old.counts }
    {
        if self.events.capacity() != places {
            self.events = Events::with_capacity(self.alloc, places).map_err(OutOfMemory::from)?;
        }
        let timeout = timeout.map(Duration::from_nanos);
        self.poll.poll(&mut self.events, timeout).map_err(fault_of)
    }
}

impl<R: Processes> Waiter for Edges<R> {
    #[tactic(auto, using(crate::proofs::Keeping::keeps_itself, crate::proofs::Keeping::wait_keeps))]
    fn wait(&mut self, timeout: Option<u64>, reports: &mut [Report]) -> Result<Waited, Fault> {
        if reports.is_empty() {
            return Ok(Waited::Reported(0));
        }
        let answer = self.poll(timeout, reports.len());
        self.counts.of_poller(answer)?;
        self.table.reap();
        Ok(Waited::Reported(self.table.reports(&self.events, reports)))
    }
}

impl<R: Processes> Poller for Edges<R> {}

impl<R: Processes> Wire for Edges<R> {
    fn recv(&mut self, wire: u32, into: &mut [u8]) -> Result<Received, Fault> {
        let answer = self.table.recv(wire, into);
        self.counts.of_wire(wire, answer)
    }

    fn send(&mut self, wire: u32, bytes: &[u8]) -> Result<Sent, Fault> {
        let answer = self.table.send(wire, bytes);
        self.counts.of_wire(wire, answer)
    }

    #[tactic(auto, using(crate::proofs::Keeping::keeps_itself))]
    fn close(&mut self, wire: u32) -> Result<(), OutOfMemory> {
        self.table.close(wire);
        Ok(())
    }
}

impl<R: Processes> Edges<R> {
    /// Has places for what is kept of a wire.
    pub(crate) fn make_room(&mut self, wire: u32) -> Result<(), OutOfMemory>
        ensures same { seen_of self.new.counts ≡ seen_of self.old.counts }
        ensures each_wire { (w : ℕ) → count_at self.new.counts.wires.items w
            ≡ count_at self.old.counts.wires.items w }
        ensures each_dial { (w : ℕ) → count_at self.new.counts.dials.items w
            ≡ count_at self.old.counts.dials.items w }
    {
        self.table.make_room(wire).map_err(OutOfMemory::from)?;
        self.counts.make_room(wire)
    }

    /// Puts a dialled socket under a wire number that has a place.
    #[tactic(auto, using(crate::proofs::Keeping::keeps_itself))]
    fn dialled(
        &mut self,
        wire: u32,
        socket: Result<Socket<R::Started>, Fault>,
        passes: bool,
    ) -> Result<Opened, Fault>
        ensures cause { Counted result ((outer_of self.old.counts).dial_faults wire)
            ((outer_of self.new.counts).dial_faults wire) }
        ensures keeps { Keeps (part.Dial wire) (outer_of self.old.counts) (outer_of self.new.counts) }
        ensures passes { IfOk result (λ opened. opened.passes ≡ passes) }
    {
        let socket = self.counts.of_dial(wire, socket)?;
        self.table.put(wire, socket, false);
        Ok(Opened { passes })
    }
}

impl<R: Net + Processes + Files> Dialer for Edges<R> {
    #[tactic(auto, using(crate::proofs::Keeping::same_keeps, crate::proofs::Keeping::keeps_after_same))]
    fn dial_unix(&mut self, wire: u32, path: &str) -> Result<Opened, Fault> {
        self.make_room(wire)?;
        let socket = connect_unix(&self.rt, path);
        self.dialled(wire, socket, true)
    }

    fn dial_abstract(&mut self, wire: u32, _name: &[u8]) -> Result<Opened, Fault> {
        self.counts.of_dial(wire, Err(Fault::Failed))
    }

    fn lookup(&mut self, alloc: Global, wire: u32, host: &str, port: u16) -> Result<Peers, Fault> {
        let answer = looked_up(&self.rt, alloc, host, port);
        self.counts.of_dial(wire, answer)
    }

    #[tactic(auto, using(crate::proofs::Keeping::same_keeps, crate::proofs::Keeping::keeps_after_same))]
    fn dial_tcp(&mut self, wire: u32, peer: Peer) -> Result<Opened, Fault> {
        self.make_room(wire)?;
        let socket = connect_tcp(&self.rt, peer);
        self.dialled(wire, socket, false)
    }

    fn read_nonce(&mut self, alloc: Global, wire: u32, path: &str) -> Result<Bytes, Fault> {
        let answer = nonce_in(&self.rt, alloc, path);
        self.counts.of_dial(wire, answer)
    }

    #[tactic(auto, using(crate::proofs::Keeping::same_keeps, crate::proofs::Keeping::keeps_after_same))]
    fn start(
        &mut self,
        wire: u32,
        program: &str,
        arg0: Option<&str>,
        args: &Args,
    ) -> Result<Opened, Fault> {
        self.make_room(wire)?;
        self.table
            .make_room_for_programs()
            .map_err(OutOfMemory::from)?;
        let socket = match arg0 {
            Some(_) => Err(Fault::Failed),
            None => started(&self.rt, self.alloc, program, args),
        };
        self.dialled(wire, socket, false)
    }

    fn run_ibus(&mut self, alloc: Global, wire: u32) -> Result<Output, Fault> {
        let answer = ibus(&self.rt, alloc);
        self.counts.of_dial(wire, answer)
    }

    fn accept(&mut self, wire: u32) -> Result<Opened, Fault> {
        let answer = self.table.take_arrival(wire);
        let passes = self.counts.of_dial(wire, answer)?;
        Ok(Opened { passes })
    }
}

impl<R: Net + Processes + Files + SystemClock> Outside for Edges<R> {}

//! Polled reads and writes over an outside that answers as a test wants it.

use futures::task::Poll;
use react_async::async_io::Async;
use react_core::outside::{
    Fault, OutOfMemory, Received, Registrar, Report, Sent, Tells, Wakes, Wire,
};
use react_core::reactor::{Dir, ReactError, Reactor};
use std::alloc::Global;
use std::test::Fail;

/// What a wire answers. It gives or takes one byte where it is ready.
#[derive(Clone, Copy)]
enum Says {
    Ready,
    NotReady,
    Refused(Fault),
}

/// An outside that tells nothing. Its counts of faults stand at their type's end, where it may answer what it likes.
#[derive(Drop)]
struct Piped {
    /// What the wire says to the next two calls; it is ready at the later ones.
    says: (Says, Says),
    /// The last wire that was asked, and how many calls asked one.
    wire: u32,
    asked: u64,
    /// What the next two armings are refused for.
    refusals: (Option<Fault>, Option<Fault>),
    /// The directions, read and write, of the last arming, and how many came.
    armed: (bool, bool),
    armings: u64,
}

impl Piped {
    fn says(&mut self, wire: u32) -> Says {
        let (next, later) = self.says;
        self.says = (later, Says::Ready);
        self.wire = wire;
        self.asked = self.asked.saturating_add(1);
        next
    }
}

impl Tells for Piped {
    ghost use Rattle.std.specs.Prelude.{None, [], false, ◌^◌, ◌-◌};
    ghost use Rattle.std.proofs.Math.Nat.{le_refl};
    ghost use Rattle.std.proofs.lemmas.Nat.{pow_pos};

    type Origin = ();

    ghost outer = { λ _. record {
      origin = tt;
      events = None;
      moment = 0;
      poller_faults = 2 ^ 64 - 1;
      rooms = None;
      wire_faults = λ _. 2 ^ 64 - 1;
      dial_faults = λ _. 0;
      doors = record { faults = 0; arrivals = [] };
      ample = false;
    } };

    ghost counts_fit = { λ _. record {
      poller = le_refl (2 ^ 64);
      wires = λ _. le_refl (2 ^ 64);
      dials = λ _. pow_pos 64;
      doors = pow_pos 64;
    } };
}

impl Wire for Piped {
    fn recv(&mut self, wire: u32, into: &mut [u8]) -> Result<Received, Fault> {
        match self.says(wire) {
            Says::NotReady => return Ok(Received::NotReady),
            Says::Refused(Fault::Failed) => return Err(Fault::Failed),
            Says::Refused(Fault::OutOfMemory) => return Err(Fault::OutOfMemory),
            Says::Ready => {}
        }
        let count = into.len().min(1);
        into[..count].copy_from_slice(&b"a"[..count]);
        Ok(Received::Got(count))
    }

    fn send(&mut self, wire: u32, bytes: &[u8]) -> Result<Sent, Fault> {
        match self.says(wire) {
            Says::NotReady => Ok(Sent::NotReady),
            Says::Refused(Fault::Failed) => Err(Fault::Failed),
            Says::Refused(Fault::OutOfMemory) => Err(Fault::OutOfMemory),
            Says::Ready => Ok(Sent::Took(bytes.len().min(1))),
        }
    }

    fn close(&mut self, _wire: u32) -> Result<(), OutOfMemory> {
        Ok(())
    }
}

impl Registrar for Piped {
    fn add(&mut self, _wire: u32, _key: usize) -> Result<(), Fault> {
        Ok(())
    }

    fn modify(&mut self, _wire: u32, _key: usize, read: bool, write: bool) -> Result<(), Fault> {
        self.armed = (read, write);
        self.armings = self.armings.saturating_add(1);
        let (next, later) = self.refusals;
        self.refusals = (later, None);
        match next {
            None => Ok(()),
            Some(Fault::Failed) => Err(Fault::Failed),
            Some(Fault::OutOfMemory) => Err(Fault::OutOfMemory),
        }
    }

    fn delete(&mut self, _wire: u32, _key: usize) -> Result<(), Fault> {
        Ok(())
    }
}

/// How many tasks were woken, and the last of them.
#[derive(Drop)]
struct Woken {
    count: u64,
    last: u64,
}

impl Wakes for Woken {
    ghost woke = { λ _ _ _. Unit {0} };

    fn wake(&mut self, task: u64) {
        self.count = self.count.saturating_add(1);
        self.last = task;
    }
}

/// A reactor with the handle of wire 3, its outside and the tasks that it woke.
#[derive(Drop)]
struct Bench {
    alloc: Global,
    reactor: Reactor,
    outside: Piped,
    woken: Woken,
    handle: Async<()>,
    /// What was read.
    into: [u8; 2],
}

type Read = Option<Result<Poll<Result<Received, Fault>>, ReactError>>;

type Written = Option<Result<Poll<Result<Sent, Fault>>, ReactError>>;

impl Bench {
    fn new(alloc: Global) -> Result<Bench, ReactError> {
        let mut reactor = Reactor::new(alloc, 4)?;
        let mut outside = Piped {
            says: (Says::Ready, Says::Ready),
            wire: 0,
            asked: 0,
            refusals: (None, None),
            armed: (false, false),
            armings: 0,
        };
        let made = Async::new(alloc, &mut reactor, &mut outside, 3, ());
        let handle = made.map_err(|(_, refusal)| refusal)?;
        Ok(Bench {
            alloc,
            reactor,
            outside,
            woken: Woken { count: 0, last: 0 },
            handle,
            into: [0, 0],
        })
    }

    /// A polled read, where the wire says this to its first and to its second call.
    fn read(&mut self, first: Says, second: Says, task: u64) -> Read {
        if !self.reactor.contains(self.handle.key()) {
            return None;
        }
        self.outside.says = (first, second);
        let (reactor, outside, woken) = (&mut self.reactor, &mut self.outside, &mut self.woken);
        let into = &mut self.into;
        Some(self.handle.poll_read(reactor, outside, woken, into, task))
    }

    /// A polled write of two bytes, where the wire says this to its first and to its second call.
    fn write(&mut self, first: Says, second: Says, task: u64) -> Written {
        if !self.reactor.contains(self.handle.key()) {
            return None;
        }
        self.outside.says = (first, second);
        let (reactor, outside, woken) = (&mut self.reactor, &mut self.outside, &mut self.woken);
        Some(self.handle.poll_write(reactor, outside, woken, b"xy", task))
    }

    /// A round that reports both directions of the source. Whether it went well.
    fn round(&mut self) -> bool {
        if self.reactor.round_open() || self.reactor.begin_round(self.alloc, 0, None).is_err() {
            return false;
        }
        let reports = [Report {
            key: self.handle.key(),
            read: true,
            write: true,
        }];
        let (reactor, outside, woken) = (&mut self.reactor, &mut self.outside, &mut self.woken);
        reactor
            .finish_round(self.alloc, outside, woken, &reports, None)
            .is_ok()
    }

    /// How often the wire was asked, how many armings came, and how many tasks were woken.
    fn counts(&self) -> (u64, u64, u64) {
        (self.outside.asked, self.outside.armings, self.woken.count)
    }
}

const GOT: Read = Some(Ok(Poll::Ready(Ok(Received::Got(1)))));

const UNREAD: Read = Some(Ok(Poll::Pending));

const TOOK: Written = Some(Ok(Poll::Ready(Ok(Sent::Took(1)))));

const UNWRITTEN: Written = Some(Ok(Poll::Pending));

#[test]
fn a_wire_that_is_ready_is_asked_once(rt: HostRuntime) -> Result<(), Fail> {
    let mut bench = Bench::new(rt.alloc())?;
    assert!(rt; bench.read(Says::Ready, Says::NotReady, 5) == GOT);
    assert_eq!(rt; bench.into, [97, 0]);
    assert_eq!(rt; bench.outside.wire, 3);
    assert!(rt; bench.write(Says::Ready, Says::NotReady, 5) == TOOK);
    assert_eq!(rt; bench.counts(), (2, 0, 0), "the source wasn't polled");
    Ok(())
}

#[test]
fn a_task_waits_where_neither_is_ready(rt: HostRuntime) -> Result<(), Fail> {
    let mut bench = Bench::new(rt.alloc())?;
    assert!(rt; bench.read(Says::NotReady, Says::Ready, 5) == UNREAD);
    assert_eq!(rt; bench.outside.armed, (true, false));
    assert!(rt; bench.write(Says::NotReady, Says::Ready, 6) == UNWRITTEN);
    assert_eq!(rt; bench.outside.armed, (true, true));
    assert_eq!(rt; bench.counts(), (2, 2, 0));
    assert!(rt; bench.read(Says::NotReady, Says::Ready, 7) == UNREAD);
    assert_eq!(rt; bench.counts(), (3, 2, 1), "the task that waited is woken");
    assert_eq!(rt; bench.woken.last, 5);
    assert!(rt; bench.round());
    assert_eq!(rt;
        (bench.woken.count, bench.woken.last),
        (3, 7),
        "write before read"
    );
    Ok(())
}

#[test]
fn a_wire_is_asked_again_where_its_source_is_ready(rt: HostRuntime) -> Result<(), Fail> {
    let mut bench = Bench::new(rt.alloc())?;
    assert!(rt; bench.read(Says::NotReady, Says::Ready, 5) == UNREAD);
    assert!(rt; bench.write(Says::NotReady, Says::Ready, 6) == UNWRITTEN);
    assert!(rt; bench.round());
    assert_eq!(rt; bench.counts(), (2, 2, 2));
    assert!(rt; bench.read(Says::NotReady, Says::Ready, 5) == GOT);
    assert_eq!(rt; bench.counts(), (4, 2, 2));
    assert!(rt; bench.write(Says::NotReady, Says::Ready, 6) == TOOK);
    assert_eq!(rt; bench.counts(), (6, 2, 2));
    assert!(rt;
        bench.read(Says::NotReady, Says::Ready, 5) == UNREAD,
        "it is used up"
    );
    assert_eq!(rt; bench.counts(), (7, 3, 2));
    Ok(())
}

#[test]
fn a_task_waits_where_a_ready_source_has_no_ready_wire(rt: HostRuntime) -> Result<(), Fail> {
    let mut bench = Bench::new(rt.alloc())?;
    assert!(rt; bench.read(Says::NotReady, Says::Ready, 5) == UNREAD);
    assert!(rt; bench.round());
    assert!(rt; bench.read(Says::NotReady, Says::NotReady, 5) == UNREAD);
    assert_eq!(rt; bench.counts(), (3, 2, 1), "asked twice, and armed again");
    assert!(rt; bench.round());
    assert_eq!(rt; (bench.woken.count, bench.woken.last), (2, 5));
    assert!(rt; bench.write(Says::NotReady, Says::Ready, 6) == UNWRITTEN);
    assert!(rt; bench.round());
    assert!(rt; bench.write(Says::NotReady, Says::NotReady, 6) == UNWRITTEN);
    assert!(rt; bench.round());
    assert_eq!(rt; (bench.woken.count, bench.woken.last), (4, 6));
    Ok(())
}

#[test]
fn faults_of_the_wire_are_answers(rt: HostRuntime) -> Result<(), Fail> {
    for fault in [Fault::Failed, Fault::OutOfMemory] {
        let mut bench = Bench::new(rt.alloc())?;
        let read: Read = Some(Ok(Poll::Ready(Err(fault))));
        let written: Written = Some(Ok(Poll::Ready(Err(fault))));
        assert!(rt;
            bench.read(Says::Refused(fault), Says::Ready, 5) == read,
            "{fault}"
        );
        assert!(rt;
            bench.write(Says::Refused(fault), Says::Ready, 5) == written,
            "{fault}"
        );
        assert_eq!(rt; bench.counts(), (2, 0, 0), "{fault}");
        assert!(rt;
            bench.read(Says::NotReady, Says::Ready, 5) == UNREAD,
            "{fault}"
        );
        assert!(rt; bench.round(), "{fault}");
        assert!(rt;
            bench.read(Says::NotReady, Says::Refused(fault), 5) == read,
            "{fault}"
        );
    }
    Ok(())
}

#[test]
fn refusals_of_the_poller_are_errors(rt: HostRuntime) -> Result<(), Fail> {
    for (fault, refusal) in [
        (Fault::Failed, ReactError::Poller),
        (Fault::OutOfMemory, ReactError::OutOfMemory),
    ] {
        let mut bench = Bench::new(rt.alloc())?;
        bench.outside.refusals = (Some(fault), Some(fault));
        assert!(rt;
            bench.read(Says::NotReady, Says::Ready, 5) == Some(Err(refusal)),
            "{refusal}"
        );
        assert!(rt;
            bench.write(Says::NotReady, Says::Ready, 5) == Some(Err(refusal)),
            "{refusal}"
        );
        assert_eq!(rt; bench.reactor.interests_begun(), 0, "{refusal}");
        assert!(rt;
            bench.read(Says::NotReady, Says::Ready, 5) == UNREAD,
            "{refusal}"
        );
        assert_eq!(rt;
            bench.outside.armed,
            (true, false),
            "nobody waits for writing"
        );
        assert!(rt; bench.round(), "{refusal}");
        bench.outside.refusals = (Some(fault), None);
        assert!(rt;
            bench.read(Says::NotReady, Says::NotReady, 5) == Some(Err(refusal)),
            "{refusal}"
        );
        assert!(rt;
            bench.read(Says::NotReady, Says::Ready, 5) == UNREAD,
            "it is used up"
        );
    }
    Ok(())
}

//! The reactor over an outside that answers as a test wants it.

mod handles;

use futures::task::Poll;
use react_core::outside::{
    Clock, Fault, Notifier, OutOfMemory, Poller, Registrar, Report, Tells, Waited, Waiter, Wakes,
};
use react_core::reactor::{Begun, Dir, ReactError, Reactor};
use std::alloc::Global;
use std::test::Fail;

/// How the wait of a `Small` ends.
#[derive(Clone, Copy)]
enum Ends {
    Empty,
    With(Report),
    Interrupted,
    Refused(Fault),
}

/// An outside that tells nothing, and answers as a test wants it. The count of its poller's faults stands at its type's
/// end, where it may answer what it likes.
#[derive(Drop)]
struct Small {
    /// What the next two calls of the registrar are refused for; the later ones go well.
    refusals: (Option<Fault>, Option<Fault>),
    /// The key and the directions, read and write, of the last arming that went well, and how many did.
    armed: (usize, bool, bool),
    armings: u64,
    ends: Ends,
    readings: u64,
    /// The readings from this one on find no memory.
    unread_from: u64,
}

impl Small {
    ghost use Rattle.std.specs.Prelude.{◌≡◌, ◌^◌, ◌-◌, false};
    ghost use Rattle.react_core.specs.Told.{Counted, OnLack};

    fn new() -> Self {
        Small {
            refusals: (None, None),
            armed: (0, false, false),
            armings: 0,
            ends: Ends::Empty,
            readings: 0,
            unread_from: u64::MAX,
        }
    }

    fn answer(&mut self) -> Result<(), Fault>
        ensures cause { Counted result (2 ^ 64 - 1) (2 ^ 64 - 1) }
        ensures memory { OnLack result (false ≡ false) }
    {
        let (next, later) = self.refusals;
        self.refusals = (later, None);
        match next {
            None => Ok(()),
            Some(Fault::Failed) => Err(Fault::Failed),
            Some(Fault::OutOfMemory) => Err(Fault::OutOfMemory),
        }
    }
}

impl Tells for Small {
    ghost use Rattle.std.specs.Prelude.{None, [], false, ◌^◌, ◌-◌};
    ghost use Rattle.std.proofs.Math.Nat.{le_refl};
    ghost use Rattle.std.proofs.lemmas.Nat.{pow_pos};

    type Origin = ();

    ghost outer = { λ s. record {
      origin = tt;
      events = None;
      moment = 0;
      poller_faults = 2 ^ 64 - 1;
      rooms = None;
      wire_faults = λ _. 0;
      dial_faults = λ _. 0;
      doors = record { faults = 0; arrivals = [] };
      ample = false;
    } };

    ghost counts_fit = { λ s. record {
      poller = le_refl (2 ^ 64);
      wires = λ _. pow_pos 64;
      dials = λ _. pow_pos 64;
      doors = pow_pos 64;
    } };
}

impl Clock for Small {
    fn now(&mut self) -> Result<u64, OutOfMemory> {
        self.readings = self.readings.saturating_add(1);
        if self.unread_from <= self.readings {
            return Err(OutOfMemory);
        }
        Ok(0)
    }
}

impl Registrar for Small {
    fn add(&mut self, _wire: u32, _key: usize) -> Result<(), Fault> {
        self.answer()
    }

    fn modify(&mut self, _wire: u32, key: usize, read: bool, write: bool) -> Result<(), Fault> {
        let answer = self.answer();
        if answer.is_ok() {
            self.armed = (key, read, write);
            self.armings = self.armings.saturating_add(1);
        }
        answer
    }

    fn delete(&mut self, _wire: u32, _key: usize) -> Result<(), Fault> {
        self.answer()
    }
}

impl Notifier for Small {
    fn notify(&mut self) -> Result<(), Fault> {
        Ok(())
    }
}

impl Waiter for Small {
    fn wait(&mut self, _timeout: Option<u64>, reports: &mut [Report]) -> Result<Waited, Fault> {
        match self.ends {
            Ends::Empty => Ok(Waited::Reported(0)),
            Ends::With(report) => match reports.first_mut() {
                Some(place) => {
                    *place = report;
                    Ok(Waited::Reported(1))
                }
                None => Ok(Waited::Reported(0)),
            },
            Ends::Interrupted => Ok(Waited::Interrupted),
            Ends::Refused(Fault::Failed) => Err(Fault::Failed),
            Ends::Refused(Fault::OutOfMemory) => Err(Fault::OutOfMemory),
        }
    }
}

impl Poller for Small {}

/// How many tasks were woken, and the last two of them, the last one second.
#[derive(Drop)]
struct Woken {
    count: u64,
    last: (u64, u64),
}

impl Wakes for Woken {
    ghost woke = { λ _ _ _. Unit {0} };

    fn wake(&mut self, task: u64) {
        self.count = self.count.saturating_add(1);
        self.last = (self.last.1, task);
    }
}

/// A reactor with its outside and the tasks that it woke. A call that the reactor's state forbids gives None.
#[derive(Drop)]
struct Rig {
    alloc: Global,
    reactor: Reactor,
    outside: Small,
    woken: Woken,
}

impl Rig {
    fn new(alloc: Global, tick: u64) -> Result<Rig, OutOfMemory> {
        Ok(Rig {
            alloc,
            reactor: Reactor::starting_at(alloc, 4, tick, 0)?,
            outside: Small::new(),
            woken: Woken {
                count: 0,
                last: (0, 0),
            },
        })
    }

    fn insert(&mut self, wire: u32) -> Result<usize, ReactError> {
        self.reactor.insert_io(self.alloc, &mut self.outside, wire)
    }

    fn remove(&mut self, key: usize) -> Option<Result<(), ReactError>> {
        if !self.reactor.contains(key) {
            return None;
        }
        Some(self.reactor.remove_io(&mut self.outside, key))
    }

    fn poll(&mut self, key: usize, dir: Dir, task: u64) -> Option<Result<Poll<()>, ReactError>> {
        if !self.reactor.contains(key) {
            return None;
        }
        Some(
            self.reactor
                .poll_ready(&mut self.outside, &mut self.woken, key, dir, task),
        )
    }

    fn begin(&mut self, timeout: Option<u64>) -> Option<Result<Begun, ReactError>> {
        if self.reactor.round_open() {
            return None;
        }
        Some(self.reactor.begin_round(self.alloc, 0, timeout))
    }

    fn finish(&mut self, reports: &[Report]) -> Option<Result<(), ReactError>> {
        if !self.reactor.round_open() {
            return None;
        }
        Some(
            self.reactor.finish_round(
                self.alloc,
                &mut self.outside,
                &mut self.woken,
                reports,
                None,
            ),
        )
    }

    fn react(&mut self, timeout: Option<u64>) -> Option<Result<(), ReactError>> {
        if self.reactor.round_open() {
            return None;
        }
        Some(
            self.reactor
                .react(self.alloc, &mut self.outside, &mut self.woken, timeout),
        )
    }

    /// How many tasks were woken, and the last of them.
    fn woken(&self) -> (u64, u64) {
        (self.woken.count, self.woken.last.1)
    }
}

fn report(key: usize, read: bool, write: bool) -> Report {
    Report { key, read, write }
}

const DONE: Option<Result<(), ReactError>> = Some(Ok(()));

const READY: Option<Result<Poll<()>, ReactError>> = Some(Ok(Poll::Ready(())));

const PENDING: Option<Result<Poll<()>, ReactError>> = Some(Ok(Poll::Pending));

#[test]
fn a_report_of_an_older_round_is_not_fresh(rt: HostRuntime) -> Result<(), Fail> {
    let mut rig = Rig::new(rt.alloc(), 6)?;
    let key = rig.insert(3)?;
    let reports = [report(key, true, false)];
    let begun = rig.begin(Some(5));
    let seventh = Begun {
        round: 7,
        timeout: Some(5),
    };
    assert!(rt; begun == Some(Ok(seventh)));
    assert!(rt; rig.poll(key, Dir::Read, 5) == PENDING);
    assert_eq!(rt; rig.outside.armed, (key, true, false));
    assert!(rt; rig.finish(&reports) == DONE);
    assert_eq!(rt; rig.woken(), (1, 5));
    let stale = rig.poll(key, Dir::Read, 5);
    assert!(rt; stale == PENDING, "round 7 ran when the interest began");
    assert!(rt; rig.begin(None).is_some());
    assert!(rt; rig.finish(&reports) == DONE);
    assert!(rt; rig.poll(key, Dir::Read, 5) == READY);
    assert_eq!(rt; (rig.reactor.ticker(), rig.reactor.rounds_begun()), (8, 8));
    assert_eq!(rt; rig.reactor.interests_begun(), 2);
    Ok(())
}

#[test]
fn removals_leave_it_idle(rt: HostRuntime) -> Result<(), Fail> {
    let mut rig = Rig::new(rt.alloc(), 0)?;
    assert!(rt; rig.reactor.is_idle());
    assert_eq!(rt; rig.reactor.timers_made(), 0);
    assert_eq!(rt; (rig.insert(0)?, rig.insert(1)?), (0, 1));
    assert!(rt; rig.remove(0) == DONE);
    assert!(rt; rig.poll(0, Dir::Read, 5).is_none());
    assert_eq!(rt; rig.insert(2)?, 0, "a freed key comes first");
    rig.outside.refusals = (Some(Fault::Failed), Some(Fault::OutOfMemory));
    assert!(rt; rig.remove(0) == Some(Err(ReactError::Poller)));
    assert!(rt; !rig.reactor.is_idle());
    assert!(rt; rig.remove(1) == Some(Err(ReactError::OutOfMemory)));
    assert!(rt; rig.reactor.is_idle());
    Ok(())
}

#[test]
fn a_report_of_a_key_that_was_given_on_wakes_its_new_owner(rt: HostRuntime) -> Result<(), Fail> {
    let mut rig = Rig::new(rt.alloc(), 0)?;
    let key = rig.insert(1)?;
    assert!(rt; rig.poll(key, Dir::Read, 5) == PENDING);
    assert!(rt; rig.remove(key) == DONE);
    assert_eq!(rt; rig.insert(2)?, key);
    assert!(rt; rig.poll(key, Dir::Read, 6) == PENDING);
    assert!(rt; rig.begin(None).is_some());
    assert!(rt; rig.finish(&[report(key, true, false)]) == DONE);
    assert_eq!(rt; rig.woken(), (1, 6), "the first owner has gone");
    assert!(rt; rig.poll(key, Dir::Read, 6) == READY);
    assert!(rt; rig.poll(key, Dir::Read, 6) == PENDING);
    assert_eq!(rt; rig.outside.armed, (key, true, false));
    Ok(())
}

#[test]
fn a_refused_insertion_or_poll_changes_nothing(rt: HostRuntime) -> Result<(), Fail> {
    for (fault, refusal) in [
        (Fault::Failed, ReactError::Poller),
        (Fault::OutOfMemory, ReactError::OutOfMemory),
    ] {
        let mut rig = Rig::new(rt.alloc(), 0)?;
        rig.outside.refusals = (Some(fault), None);
        assert!(rt; rig.insert(0) == Err(refusal), "{refusal}");
        assert!(rt; rig.reactor.is_idle(), "{refusal}");
        let key = rig.insert(0)?;
        rig.outside.refusals = (Some(fault), None);
        assert!(rt;
            rig.poll(key, Dir::Read, 5) == Some(Err(refusal)),
            "{refusal}"
        );
        assert_eq!(rt; rig.reactor.interests_begun(), 0, "{refusal}");
        assert!(rt; rig.poll(key, Dir::Write, 6) == PENDING, "{refusal}");
        assert_eq!(rt;
            rig.outside.armed,
            (key, false, true),
            "no task waits for reading"
        );
        assert!(rt; rig.poll(key, Dir::Read, 7) == PENDING, "{refusal}");
        assert_eq!(rt; rig.outside.armed, (key, true, true), "{refusal}");
        assert_eq!(rt; rig.woken(), (0, 0), "{refusal}");
    }
    Ok(())
}

/// Three tasks wait for reading, 0 to 2, and 9 for writing to the second source. The round's armings, of source 2 after
/// the first report and of source 1 after the third, are refused so. Gives the answer, and the tasks that were woken.
fn finish_refused(
    alloc: Global,
    refusals: (Option<Fault>, Option<Fault>),
) -> Result<(Option<Result<(), ReactError>>, u64, (u64, u64)), ReactError> {
    let mut rig = Rig::new(alloc, 0)?;
    for task in 0..3 {
        let key = rig.insert(task)?;
        let _asked = rig.poll(key, Dir::Read, u64::from(task));
    }
    let _asked = rig.poll(1, Dir::Write, 9);
    let _begun = rig.begin(None);
    rig.outside.refusals = refusals;
    let reports = [
        report(2, false, true),
        report(0, true, false),
        report(1, true, false),
    ];
    let answer = rig.finish(&reports);
    Ok((answer, rig.woken.count, rig.woken.last))
}

#[test]
fn a_refused_arming_ends_no_round_early(rt: HostRuntime) -> Result<(), Fail> {
    let (failed, lacked) = (Some(Fault::Failed), Some(Fault::OutOfMemory));
    for (refusals, answer) in [
        ((None, None), Ok(())),
        ((failed, None), Err(ReactError::Poller)),
        ((None, failed), Err(ReactError::Poller)),
        ((lacked, failed), Err(ReactError::Poller)),
        ((failed, lacked), Err(ReactError::Poller)),
        ((lacked, None), Err(ReactError::OutOfMemory)),
        ((None, lacked), Err(ReactError::OutOfMemory)),
    ] {
        let seen = finish_refused(rt.alloc(), refusals)?;
        assert!(rt; seen == (Some(answer), 2, (0, 1)), "{refusals:?}");
    }
    Ok(())
}

/// A round in which a task waits for reading, and then one whose wait reports it. Gives the first round's answer, how
/// often the clock was read in it and how many armings there were up to its end; and of both rounds the last one's
/// number and what was woken.
fn rounds_after(
    alloc: Global,
    ends: Ends,
    timeout: Option<u64>,
) -> Result<(Option<Result<(), ReactError>>, u64, u64, u64, (u64, u64)), ReactError> {
    let mut rig = Rig::new(alloc, 0)?;
    let key = rig.insert(0)?;
    let _asked = rig.poll(key, Dir::Read, 5);
    rig.outside.ends = ends;
    let answer = rig.react(timeout);
    let (readings, armings) = (rig.outside.readings, rig.outside.armings);
    rig.outside.ends = Ends::With(report(key, true, false));
    let _next = rig.react(timeout);
    Ok((answer, readings, armings, rig.reactor.ticker(), rig.woken()))
}

#[test]
fn the_clock_is_read_again_where_nothing_came_in_time(rt: HostRuntime) -> Result<(), Fail> {
    let failed = Ends::Refused(Fault::Failed);
    let lacked = Ends::Refused(Fault::OutOfMemory);
    let stray = Ends::With(report(7, true, true));
    let other = Ends::With(report(0, false, true));
    for (name, ends, timeout, answer, readings, armings) in [
        ("no end", Ends::Empty, None, Ok(()), 2, 1),
        ("passed", Ends::Empty, Some(1), Ok(()), 2, 1),
        ("zero", Ends::Empty, Some(0), Ok(()), 1, 1),
        ("interrupted", Ends::Interrupted, Some(1), Ok(()), 1, 1),
        ("failed", failed, Some(1), Err(ReactError::Poller), 1, 1),
        (
            "no memory",
            lacked,
            Some(1),
            Err(ReactError::OutOfMemory),
            1,
            1,
        ),
        ("no source", stray, Some(1), Ok(()), 1, 1),
        ("writing", other, Some(1), Ok(()), 1, 2),
    ] {
        let seen = rounds_after(rt.alloc(), ends, timeout)?;
        assert!(rt;
            seen == (Some(answer), readings, armings, 2, (1, 5)),
            "{name}"
        );
    }
    Ok(())
}

#[test]
fn a_clock_without_memory_ends_a_round_or_bars_it(rt: HostRuntime) -> Result<(), Fail> {
    for (unread_from, ticker) in [(1, 0), (2, 1)] {
        let mut rig = Rig::new(rt.alloc(), 0)?;
        rig.outside.unread_from = unread_from;
        assert!(rt;
            rig.react(None) == Some(Err(ReactError::OutOfMemory)),
            "{unread_from}"
        );
        assert_eq!(rt; rig.reactor.ticker(), ticker, "{unread_from}");
        assert!(rt; rig.reactor.is_idle(), "{unread_from}");
    }
    Ok(())
}

/// Tasks 1 and 2 wait for reading and writing when a report comes. Gives how many are woken and the last two, the last
/// arming and how many there were.
fn both_waiting(
    alloc: Global,
    read: bool,
    write: bool,
) -> Result<(u64, (u64, u64), (usize, bool, bool), u64), ReactError> {
    let mut rig = Rig::new(alloc, 0)?;
    let key = rig.insert(0)?;
    let _reading = rig.poll(key, Dir::Read, 1);
    let _writing = rig.poll(key, Dir::Write, 2);
    rig.outside.ends = Ends::With(report(key, read, write));
    let _done = rig.react(Some(1));
    Ok((
        rig.woken.count,
        rig.woken.last,
        rig.outside.armed,
        rig.outside.armings,
    ))
}

#[test]
fn writing_is_woken_before_reading_and_the_rest_armed_anew(rt: HostRuntime) -> Result<(), Fail> {
    for (read, write, count, last, armed, armings) in [
        (true, true, 2, (2, 1), (0, true, true), 2),
        (false, true, 1, (0, 2), (0, true, false), 3),
        (true, false, 1, (0, 1), (0, false, true), 3),
        (false, false, 0, (0, 0), (0, true, true), 3),
    ] {
        let seen = both_waiting(rt.alloc(), read, write)?;
        assert!(rt;
            seen == (count, last, armed, armings),
            "read {read}, write {write}"
        );
    }
    Ok(())
}

#[test]
fn whatever_allocation_fails_the_next_try_goes_well(rt: HostRuntime) -> Result<(), Fail> {
    let mut rig = match Rig::new(rt.alloc(), 0) {
        Ok(rig) => rig,
        Err(OutOfMemory) => Rig::new(rt.alloc(), 0)?,
    };
    for wire in 0..5 {
        let before = (rig.reactor.ticker(), rig.reactor.interests_begun());
        let key = match rig.insert(wire) {
            Ok(key) => key,
            Err(refusal) => {
                assert!(rt; refusal == ReactError::OutOfMemory, "{wire}");
                let after = (rig.reactor.ticker(), rig.reactor.interests_begun());
                assert_eq!(rt; after, before, "{wire}");
                rig.insert(wire)?
            }
        };
        // No polls and no rounds take memory.
        let task = u64::from(wire);
        assert!(rt; rig.poll(key, Dir::Read, task) == PENDING, "{wire}");
        assert!(rt; rig.poll(key, Dir::Write, task) == PENDING, "{wire}");
        rig.outside.ends = Ends::With(report(key, true, true));
        assert!(rt; rig.react(None) == DONE, "{wire}");
        assert_eq!(rt; rig.woken(), (2 * task + 2, task), "{wire}");
    }
    Ok(())
}

#[test]
fn each_refusal_prints_its_cause(rt: HostRuntime) -> Result<(), Fail> {
    let alloc = rt.alloc();
    let mut reactor = Reactor::starting_at(alloc, 1, u64::MAX, 0)?;
    assert!(rt; !reactor.round_open());
    match reactor.begin_round(alloc, 0, None) {
        Ok(_) => assert!(rt; false, "no number was left"),
        Err(refusal) => {
            let text = format!(in alloc; "{refusal}")?;
            assert_eq!(rt;
                text.as_str(),
                "the round counter stands at its end, 18446744073709551615"
            );
        }
    }
    let text = format!(in alloc; "{}, {}", ReactError::Poller, ReactError::OutOfMemory)?;
    assert_eq!(rt; text.as_str(), "the poller failed, out of memory");
    Ok(())
}

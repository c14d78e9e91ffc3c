//! Timers over a reactor, whose rounds wake the tasks that they are polled for. Moments are in nanoseconds.

use futures::task::Poll;
use react_async::timer::Timer;
use react_core::outside::{Fault, Notifier, OutOfMemory, Registrar, Tells, Wakes};
use react_core::reactor::{Counter, ReactError, Reactor};
use std::alloc::Global;
use std::test::Fail;

/// An outside that tells nothing. The count of its poller's faults stands at its type's end, where it may answer what
/// it likes.
#[derive(Drop)]
struct Noticed {
    /// What the next notice is refused for; the later ones go well.
    refusal: Option<Fault>,
    /// How many notices went well.
    notices: u64,
}

impl Tells for Noticed {
    ghost use Rattle.std.specs.Prelude.{None, [], false, ◌^◌, ◌-◌};
    ghost use Rattle.std.proofs.Math.Nat.{le_refl};
    ghost use Rattle.std.proofs.lemmas.Nat.{pow_pos};

    type Origin = ();

    ghost outer = { λ _. record {
      origin = tt;
      events = None;
      moment = 0;
      poller_faults = 2 ^ 64 - 1;
      rooms = None;
      wire_faults = λ _. 0;
      dial_faults = λ _. 0;
      doors = record { faults = 0; arrivals = [] };
      ample = false;
    } };

    ghost counts_fit = { λ _. record {
      poller = le_refl (2 ^ 64);
      wires = λ _. pow_pos 64;
      dials = λ _. pow_pos 64;
      doors = pow_pos 64;
    } };
}

impl Registrar for Noticed {
    fn add(&mut self, _wire: u32, _key: usize) -> Result<(), Fault> {
        Ok(())
    }

    fn modify(&mut self, _wire: u32, _key: usize, _read: bool, _write: bool) -> Result<(), Fault> {
        Ok(())
    }

    fn delete(&mut self, _wire: u32, _key: usize) -> Result<(), Fault> {
        Ok(())
    }
}

impl Notifier for Noticed {
    fn notify(&mut self) -> Result<(), Fault> {
        let refusal = self.refusal;
        self.refusal = None;
        match refusal {
            Some(Fault::Failed) => Err(Fault::Failed),
            Some(Fault::OutOfMemory) => Err(Fault::OutOfMemory),
            None => {
                self.notices = self.notices.saturating_add(1);
                Ok(())
            }
        }
    }
}

/// How many tasks were woken and the last of them, and whether each was one more than the one before, the first one 1.
#[derive(Drop)]
struct Woken {
    count: u64,
    last: u64,
    in_order: bool,
}

impl Wakes for Woken {
    ghost woke = { λ _ _ _. Unit {0} };

    fn wake(&mut self, task: u64) {
        self.in_order = self.in_order && task == self.last.saturating_add(1);
        self.count = self.count.saturating_add(1);
        self.last = task;
    }
}

/// What is done with one timer and its reactor, and what comes of it.
#[derive(Clone, Copy)]
enum Step {
    /// A poll at this moment for this task is pending.
    Pending(u64, u64),
    /// A poll at this moment for this task is ready with the last one.
    Ready(u64, u64, u64),
    /// A poll at this moment for this task is refused for this.
    Refused(u64, u64, ReactError),
    /// Setting this moment is refused for this.
    Unset(u64, ReactError),
    /// This moment can be set.
    SetAt(u64),
    /// The moment that comes so long after now, in this order, can be set.
    SetAfter(u64, u64),
    /// So can now's next moment with this period.
    SetInterval(u64, u64),
    /// So can this first moment with this period.
    SetIntervalAt(u64, u64),
    Clear,
    WillFire(bool),
    /// A round at this moment may wait so long.
    Round(u64, Option<u64>),
    /// So many timers were made and so many tasks woken, this one last.
    Counts(u64, u64, u64),
    /// So many notices went well.
    Notices(u64),
    /// The next notice is refused for this.
    Refuse(Fault),
    /// No source and no timer is left.
    Idle,
}

/// A reactor with its outside and the tasks that it woke.
#[derive(Drop)]
struct Rig {
    alloc: Global,
    reactor: Reactor,
    outside: Noticed,
    woken: Woken,
}

impl Rig {
    /// A rig whose next timer has the number after this one.
    fn new(alloc: Global, timer: u64) -> Result<Rig, OutOfMemory> {
        Ok(Rig {
            alloc,
            reactor: Reactor::starting_at(alloc, 4, 0, timer)?,
            outside: Noticed {
                refusal: None,
                notices: 0,
            },
            woken: Woken {
                count: 0,
                last: 0,
                in_order: true,
            },
        })
    }

    fn poll(&mut self, timer: &mut Timer, now: u64, task: u64) -> Result<Poll<u64>, ReactError> {
        let (reactor, outside) = (&mut self.reactor, &mut self.outside);
        timer.poll(self.alloc, reactor, outside, now, task)
    }

    /// A round at this moment. Gives how long it may wait, where it went well.
    fn round(&mut self, now: u64) -> Option<Option<u64>> {
        if self.reactor.round_open() {
            return None;
        }
        let Ok(begun) = self.reactor.begin_round(self.alloc, now, None) else {
            return None;
        };
        let (reactor, outside, woken) = (&mut self.reactor, &mut self.outside, &mut self.woken);
        let finished = reactor.finish_round(self.alloc, outside, woken, &[], None);
        if finished.is_err() {
            return None;
        }
        Some(begun.timeout)
    }

    /// How many timers were made, how many tasks were woken, and the last of them.
    fn counts(&self) -> (u64, u64, u64) {
        (
            self.reactor.timers_made(),
            self.woken.count,
            self.woken.last,
        )
    }

    /// Takes a step. Tells whether it came as it is written.
    fn takes(&mut self, timer: &mut Timer, step: Step) -> bool {
        let alloc = self.alloc;
        match step {
            Step::Pending(now, task) => self.poll(timer, now, task) == Ok(Poll::Pending),
            Step::Ready(now, task, moment) => self.poll(timer, now, task)
                == Ok(Poll::Ready(moment)),
            Step::Refused(now, task, refusal) => self.poll(timer, now, task) == Err(refusal),
            Step::Clear => timer.clear(alloc, &mut self.reactor).is_ok(),
            Step::WillFire(will) => timer.will_fire() == will,
            Step::Round(now, waits) => self.round(now) == Some(waits),
            Step::Counts(made, count, last) => self.counts() == (made, count, last),
            Step::Notices(notices) => self.outside.notices == notices,
            Step::Idle => self.reactor.is_idle(),
            Step::Refuse(fault) => {
                self.outside.refusal = Some(fault);
                true
            }
            set => self.sets(timer, set),
        }
    }

    /// The same for a step that sets a moment.
    fn sets(&mut self, timer: &mut Timer, step: Step) -> bool {
        let (alloc, reactor, outside) = (self.alloc, &mut self.reactor, &mut self.outside);
        match step {
            Step::Unset(moment, refusal) => {
                timer.set_at(alloc, reactor, outside, moment) == Err(refusal)
            }
            Step::SetAt(moment) => timer.set_at(alloc, reactor, outside, moment).is_ok(),
            Step::SetAfter(now, duration) => {
                timer
                    .set_after(alloc, reactor, outside, now, duration)
                    .is_ok()
            }
            Step::SetInterval(now, period) => {
                timer
                    .set_interval(alloc, reactor, outside, now, period)
                    .is_ok()
            }
            Step::SetIntervalAt(start, period) => {
                timer
                    .set_interval_at(alloc, reactor, outside, start, period)
                    .is_ok()
            }
            _ => false,
        }
    }

    /// Takes steps, one after the other. Gives the place of the first one that comes otherwise than it is written.
    fn first_wrong(&mut self, timer: &mut Timer, steps: &[Step]) -> Option<u64> {
        let mut place = 0u64;
        for step in steps {
            if !self.takes(timer, *step) {
                return Some(place);
            }
            place = place.wrapping_add(1);
        }
        None
    }
}

#[test]
fn an_interval_goes_on_from_its_moment(rt: HostRuntime) -> Result<(), Fail> {
    let steps = [
        Step::Pending(9, 7),
        Step::Round(9, Some(1)),
        Step::Ready(12, 7, 10),
        Step::Pending(12, 7),
        Step::Counts(2, 0, 0),
        Step::Round(12, Some(3)),
        Step::Round(15, Some(0)),
        Step::Counts(2, 1, 7),
        Step::Ready(40, 7, 15),
        Step::Ready(40, 7, 20),
        Step::WillFire(true),
    ];
    let mut timer = Timer::interval_at(10, 5);
    assert_eq!(rt;
        Rig::new(rt.alloc(), 0)?.first_wrong(&mut timer, &steps),
        None
    );
    Ok(())
}

#[test]
fn a_moment_without_a_period_fires_once(rt: HostRuntime) -> Result<(), Fail> {
    let steps = [
        Step::Ready(12, 7, 10),
        Step::Pending(12, 7),
        Step::Round(12, Some(3)),
        Step::SetAt(20),
        Step::Round(12, Some(8)),
        Step::Ready(20, 7, 20),
        Step::Pending(100, 7),
        Step::WillFire(false),
        Step::Counts(2, 0, 0),
        Step::SetAt(120),
        Step::WillFire(true),
        Step::Counts(2, 0, 0),
        Step::Idle,
    ];
    let mut timer = Timer::interval_at(10, 5);
    assert_eq!(rt;
        Rig::new(rt.alloc(), 0)?.first_wrong(&mut timer, &steps),
        None
    );
    Ok(())
}

#[test]
fn a_cleared_timer_keeps_its_task(rt: HostRuntime) -> Result<(), Fail> {
    let steps = [
        Step::Pending(0, 7),
        Step::Clear,
        Step::WillFire(false),
        Step::Idle,
        Step::Round(10, None),
        Step::Counts(1, 0, 0),
        Step::SetIntervalAt(30, 5),
        Step::Round(29, Some(1)),
        Step::Round(30, Some(0)),
        Step::Counts(2, 1, 7),
        Step::Notices(2),
        Step::SetAt(50),
        Step::SetAt(60),
        Step::Round(59, Some(1)),
        Step::Counts(4, 1, 7),
        Step::Round(60, Some(0)),
        Step::Counts(4, 2, 7),
    ];
    let mut timer = Timer::at(10);
    assert_eq!(rt;
        Rig::new(rt.alloc(), 0)?.first_wrong(&mut timer, &steps),
        None
    );
    Ok(())
}

#[test]
fn the_last_task_that_polled_is_woken_alone(rt: HostRuntime) -> Result<(), Fail> {
    let steps = [
        Step::Pending(4, 7),
        Step::Pending(5, 8),
        Step::Counts(2, 0, 0),
        Step::Round(10, Some(0)),
        Step::Counts(2, 1, 8),
    ];
    let mut timer = Timer::after(4, 6);
    assert_eq!(rt;
        Rig::new(rt.alloc(), 0)?.first_wrong(&mut timer, &steps),
        None
    );
    Ok(())
}

/// A poll that is made again where memory was wanting.
fn polled(rig: &mut Rig, timer: &mut Timer, now: u64) -> Result<Poll<u64>, ReactError> {
    match rig.poll(timer, now, 7) {
        Err(ReactError::OutOfMemory) => rig.poll(timer, now, 7),
        answer => answer,
    }
}

/// No memory is refused here; `bench/refusals` runs this with each growth refused in its turn.
#[test]
fn a_poll_that_lacked_memory_goes_on_from_its_moment(rt: HostRuntime) -> Result<(), Fail> {
    let mut rig = Rig::new(rt.alloc(), 0)?;
    let mut timer = Timer::interval_at(10, 5);
    assert_eq!(rt; polled(&mut rig, &mut timer, 12)?, Poll::Ready(10));
    assert_eq!(rt; polled(&mut rig, &mut timer, 12)?, Poll::Pending);
    if !rig.takes(&mut timer, Step::SetAt(20)) {
        assert!(rt; rig.takes(&mut timer, Step::SetAt(20)));
    }
    assert_eq!(rt; polled(&mut rig, &mut timer, 20)?, Poll::Ready(20));
    assert_eq!(rt; polled(&mut rig, &mut timer, 100)?, Poll::Pending);
    assert!(rt; !timer.will_fire());
    Ok(())
}

#[test]
fn an_ended_timer_wakes_nobody(rt: HostRuntime) -> Result<(), Fail> {
    let alloc = rt.alloc();
    let mut rig = Rig::new(alloc, 0)?;
    let mut timer = Timer::interval(5, 5);
    let waits = [Step::Pending(5, 7), Step::Round(9, Some(1))];
    assert_eq!(rt; rig.first_wrong(&mut timer, &waits), None);
    assert!(rt; timer.cancel(alloc, &mut rig.reactor).is_ok());
    let rests = [Step::Round(10, None), Step::Counts(1, 0, 0), Step::Idle];
    assert_eq!(rt; rig.first_wrong(&mut Timer::never(), &rests), None);
    Ok(())
}

#[test]
fn more_timers_than_a_queue_holds_are_woken_in_order(rt: HostRuntime) -> Result<(), Fail> {
    let mut rig = Rig::new(rt.alloc(), 0)?;
    let mut pending = 0u64;
    for task in 1..1002u64 {
        let mut timer = Timer::at(5);
        if rig.takes(&mut timer, Step::Pending(0, task)) {
            pending = pending.saturating_add(1);
        }
    }
    assert_eq!(rt; pending, 1001);
    let steps = [
        Step::Round(5, Some(0)),
        Step::Counts(1001, 1001, 1001),
        Step::Idle,
    ];
    assert_eq!(rt; rig.first_wrong(&mut Timer::never(), &steps), None);
    assert!(rt; rig.woken.in_order);
    Ok(())
}

#[test]
fn removed_timers_leave_few_entries(rt: HostRuntime) -> Result<(), Fail> {
    let alloc = rt.alloc();
    let mut rig = Rig::new(alloc, 0)?;
    for pair in 0..100_000u64 {
        let (reactor, outside) = (&mut rig.reactor, &mut rig.outside);
        let number = reactor.insert_timer(alloc, outside, 1_000_000, 7)?;
        reactor.remove_timer(alloc, 1_000_000, number)?;
        if pair % 500 == 499 {
            assert_eq!(rt; rig.round(0), Some(None));
            assert!(rt; rig.reactor.timer_entries() <= 1000);
        }
    }
    assert_eq!(rt; rig.counts(), (100_000, 0, 0));
    assert!(rt; rig.reactor.is_idle());
    Ok(())
}

#[test]
fn a_sum_past_the_end_sets_no_moment(rt: HostRuntime) -> Result<(), Fail> {
    let end = u64::MAX;
    let steps = [
        Step::Ready(end, 7, end - 1),
        Step::WillFire(false),
        Step::SetAt(end),
        Step::Pending(0, 7),
        Step::SetAfter(1, end),
        Step::WillFire(false),
        Step::Idle,
        Step::SetAfter(1, 2),
        Step::SetInterval(end, 1),
        Step::WillFire(false),
        Step::Idle,
        Step::SetInterval(3, 4),
        Step::Round(7, Some(0)),
        Step::Counts(3, 1, 7),
        Step::Ready(7, 7, 7),
        Step::Round(8, Some(3)),
    ];
    let mut timer = Timer::interval_at(end - 1, 2);
    assert_eq!(rt;
        Rig::new(rt.alloc(), 0)?.first_wrong(&mut timer, &steps),
        None
    );
    let unset = [Step::WillFire(false)];
    let mut rig = Rig::new(rt.alloc(), 0)?;
    assert_eq!(rt; rig.first_wrong(&mut Timer::after(end, 1), &unset), None);
    assert_eq!(rt; rig.first_wrong(&mut Timer::interval(1, end), &unset), None);
    Ok(())
}

#[test]
fn a_refused_call_leaves_the_timer(rt: HostRuntime) -> Result<(), Fail> {
    for (fault, refusal, made) in [
        (Fault::Failed, ReactError::Poller, 2),
        (Fault::OutOfMemory, ReactError::OutOfMemory, 1),
    ] {
        let steps = [
            Step::Pending(0, 7),
            Step::Refuse(fault),
            Step::Refused(0, 8, refusal),
            Step::Counts(made, 0, 0),
            Step::Refuse(fault),
            Step::Refused(10, 7, refusal),
            Step::Refuse(fault),
            Step::Unset(11, refusal),
            Step::Round(9, Some(1)),
            Step::Pending(9, 7),
            Step::Notices(1),
            Step::Ready(10, 7, 10),
        ];
        let mut timer = Timer::interval_at(10, 5);
        let wrong = Rig::new(rt.alloc(), 0)?.first_wrong(&mut timer, &steps);
        assert_eq!(rt; wrong, None, "{refusal}");
    }
    Ok(())
}

#[test]
fn no_number_is_left(rt: HostRuntime) -> Result<(), Fail> {
    let exhausted = ReactError::Exhausted {
        counter: Counter::Timer,
        value: u64::MAX,
    };
    let mut rig = Rig::new(rt.alloc(), u64::MAX - 1)?;
    let steps = [
        Step::Pending(0, 7),
        Step::Pending(0, 7),
        Step::Refused(0, 8, exhausted),
        Step::Refused(12, 7, exhausted),
        Step::Unset(20, exhausted),
        Step::Round(9, Some(1)),
        Step::Clear,
        Step::Unset(20, exhausted),
        Step::WillFire(false),
    ];
    assert_eq!(rt;
        rig.first_wrong(&mut Timer::interval_at(10, 5), &steps),
        None
    );
    // What inserts nothing needs no number.
    let single = [
        Step::Ready(12, 7, 12),
        Step::SetAt(20),
        Step::WillFire(true),
    ];
    assert_eq!(rt; rig.first_wrong(&mut Timer::at(12), &single), None);
    Ok(())
}

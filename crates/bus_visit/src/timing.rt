//! The look at the clock of a session that would sleep: its deadline has come, or its timer is to wake it then.

ghost use Rattle.std.specs.Prelude.{◌≡◌, ◌≤◌, IfOk, OnErr};
ghost use Rattle.react_core.specs.Outer.{Keeps};
ghost use Rattle.react_core.specs.Outer as part;
ghost use Rattle.react_core.specs.Round.{OnExhausted};
ghost use Rattle.bus_visit.specs.Failing.{OnPoller};
ghost use Rattle.bus_visit.specs.Shown.{IsBetweenCalls, tags};
ghost use Rattle.bus_visit.specs.Timed.{Looked, reading_of, NoticeFails, TimerRunsOut, TimedCounted, forgotten};
ghost use Rattle.bus_visit.specs.Visited.{KeepsCall};

use react_core::outside::{Clock, Notifier};
use react_core::reactor::{ReactError, Reactor};
use std::alloc::Global;

/// The deadline of a session whose wire is registered, and the number of its timer, where one was made. Moments are
/// nanoseconds.
#[derive(Clone, Copy)]
pub struct Limit {
    pub deadline: u64,
    pub number: Option<u64>,
}

/// What wakes a session that sleeps, beside its wire.
#[derive(Clone, Copy)]
pub struct Alarm {
    pub deadline: u64,
    /// The number of the timer in the reactor.
    pub number: u64,
    /// The clock's reading in the session's last visit.
    pub moment: u64,
}

/// What a look at the clock comes to.
#[derive(Clone, Copy)]
pub(crate) enum Look {
    /// The deadline has come, at this reading.
    Late(u64),
    /// The session sleeps on.
    Early(Alarm),
}

/// Reads the clock. The first reading below the deadline makes the session's timer, whose task is its wire.
pub(crate) fn look_at_clock<O: Clock + Notifier>(
    alloc: Global,
    reactor: &mut Reactor,
    outside: &mut O,
    wire: u32,
    limit: Limit,
) -> Result<Look, ReactError>
    requires rests { IsBetweenCalls reactor.old.core }
    ensures looked { IfOk result
        (Looked wire limit ((O.outer outside.old).events) ((O.outer outside.new).events) reactor.old.core
        reactor.new.core) }
    ensures forward { IfOk result
        (λ look. ((O.outer outside.old).moment ≤ reading_of look) × ((O.outer outside.new).moment ≡ reading_of look)) }
    ensures refused { OnErr result
        (KeepsCall (tags reactor.old.core.sources) ((O.outer outside.old).events) ((O.outer outside.new).events)
        reactor.old.core reactor.new.core) }
    ensures failed { OnPoller result
        (NoticeFails limit ((O.outer outside.old).events) ((O.outer outside.new).events)) }
    ensures exhausted { OnExhausted result
        (TimerRunsOut limit ((O.outer outside.old).events) ((O.outer outside.new).events) reactor.old.core) }
    ensures cause { TimedCounted result ((O.outer outside.old).poller_faults) ((O.outer outside.new).poller_faults) }
    ensures keeps { Keeps (part.Visit wire) (O.outer outside.old) (O.outer outside.new) }
    ensures reports { reactor.new.events ≡ reactor.old.events }
{
    let Limit { deadline, number } = limit;
    let moment = outside.now()?;
    if deadline <= moment {
        return Ok(Look::Late(moment));
    }
    let number = match number {
        Some(number) => number,
        None => reactor.insert_timer(alloc, outside, deadline, u64::from(wire))?,
    };
    Ok(Look::Early(Alarm {
        deadline,
        number,
        moment,
    }))
}

/// Takes out a session's timer, where one was made.
pub(crate) fn forget(alloc: Global, reactor: &mut Reactor, limit: Option<Limit>)
    ensures core { reactor.new ≡ record reactor.old { core = forgotten limit reactor.old.core } }
{
    if let Some(
        Limit {
            deadline,
            number: Some(number),
        },
    ) = limit
    {
        let _ = reactor.remove_timer(alloc, deadline, number);
    }
}

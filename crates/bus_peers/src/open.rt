//! Opening many sessions over one reactor.

ghost use Rattle.std.specs.Prelude.{◌≡◌, ◌≢◌, ◌≤◌, ◌<◌, ◌^◌, ◌++◌, ◌+◌, ℕ, List, [], true, length, vec_capacity};
ghost use Rattle.std.specs.Prelude.{OnOk, IfOk};
ghost use Rattle.react_core.specs.Core.{IsIdle, timers_applied};
ghost use Rattle.react_core.specs.Outer.{Keeps};
ghost use Rattle.react_core.specs.Outer as part;
ghost use Rattle.react_core.specs.Told.{told, Rose};
ghost use Rattle.react_core.specs.declared.outside.Event.{Event};
ghost use Rattle.bus_record.specs.Pieces.{Pieces};
ghost use Rattle.bus_peers.specs.Faults.{EndedsCounted};
ghost use Rattle.bus_peers.specs.inside.Failures.{OnPoller, CallFails, CallRunsOut, OnTimerExhausted, Halts};
ghost use Rattle.bus_peers.specs.inside.Alarms.{Alarmed};
ghost use Rattle.bus_peers.specs.inside.SlotFaults.{AllCounted};
ghost use Rattle.bus_peers.specs.Headline.{Opened, RefusedWith, OpenCounted, Completes, MadeTold};
ghost use Rattle.bus_visit.specs.Shown.{IsBetweenCalls, tags};
ghost use Rattle.bus_peers.specs.inside.Slots.{Owned, AllOpen, CallStandsAfter, CallSettled, Refuses};

use crate::closing::{close, endeds_in};
use crate::rounds::{Nobody, go_rounds};
use bus_session::{Ended, Session};
use bus_visit::{Slot, first_visit};
use react_core::outside::{OutOfMemory, Outside};
use react_core::reactor::{Counter, ReactError, Reactor};
use std::alloc::{AllocError, AllocFailed, Global};
use thiserror::Error;

/// Why `open_all` was refused.
#[derive(Clone, Copy, Debug, Error, PartialEq, Eq)]
pub enum OpenError {
    #[error("out of memory")]
    OutOfMemory,
    /// The poller failed, and counted it.
    #[error("the poller failed")]
    Poller,
    /// The next number of this counter was needed, and it stood at this value, its type's end.
    #[error("the {counter} counter stands at its end, {value}")]
    Exhausted { counter: Counter, value: u64 },
}

impl From<OutOfMemory> for OpenError {
    ghost use Rattle.bus_peers.specs.declared.open.OpenError.TheVariants.{OutOfMemory};

    ghost from_gives = { λ _ e. e ≡ OutOfMemory };

    fn from(_: OutOfMemory) -> Self {
        OpenError::OutOfMemory
    }
}

impl From<ReactError> for OpenError {
    ghost use Rattle.bus_peers.specs.Headline.{open_error};

    ghost from_gives = { λ r e. e ≡ open_error r };

    fn from(refusal: ReactError) -> Self {
        match refusal {
            ReactError::OutOfMemory => OpenError::OutOfMemory,
            ReactError::Poller => OpenError::Poller,
            ReactError::Exhausted { counter, value } => OpenError::Exhausted { counter, value },
        }
    }
}

impl From<AllocError> for OpenError {
    ghost use Rattle.bus_peers.specs.declared.open.OpenError.TheVariants.{OutOfMemory};

    ghost from_gives = { λ _ e. e ≡ OutOfMemory };

    fn from(_: AllocError) -> Self {
        OpenError::OutOfMemory
    }
}

impl From<AllocFailed<Ended>> for OpenError {
    ghost use Rattle.bus_peers.specs.declared.open.OpenError.TheVariants.{OutOfMemory};

    ghost from_gives = { λ _ e. e ≡ OutOfMemory };

    fn from(_: AllocFailed<Ended>) -> Self {
        OpenError::OutOfMemory
    }
}

/// The first visits of all sessions, in order. Session i has wire i.
fn open_first<O: Outside>(
    alloc: Global,
    reactor: &mut Reactor,
    outside: &mut O,
    sessions: &Vec<Session>,
    slots: &mut Vec<Slot>,
) -> Result<(), OpenError>
    requires few { length sessions.now.items < 2 ^ 32 }
    requires rests { IsBetweenCalls reactor.old.core }
    requires empty { reactor.old.core.sources ≡ [] }
    requires timeless { timers_applied reactor.old.core ≡ [] }
    requires unused { slots.old.items ≡ [] }
    requires room { length sessions.now.items ≤ vec_capacity slots.old }
    ensures went { OnOk result
        ((rounds : ℕ)
        → CallStandsAfter sessions.now.items rounds [] 0 reactor.old.core ((O.outer outside.old).events)
        ((O.outer outside.new).events) reactor.new.core slots.new.items) }
    ensures rests { OnOk result (IsBetweenCalls reactor.new.core) }
    ensures stands { OnOk result (AllOpen slots.new.items) }
    ensures len { OnOk result (length slots.new.items ≡ length sessions.now.items) }
    ensures few { length slots.new.items < 2 ^ 32 }
    ensures owned { Owned slots.new.items (tags reactor.new.core.sources) }
    ensures alarmed { OnOk result
        (Alarmed (O.outer outside.new).moment reactor.new.core [] slots.new.items) }
    ensures refused { Refuses result ((O.outer outside.old).events) ((O.outer outside.new).events) reactor.old.core
        reactor.new.core }
    ensures failed { OnPoller result
        ((rounds : ℕ) → CallFails sessions.now.items rounds (O.outer outside.old).ample reactor.old.core
        ((O.outer outside.old).events) ((O.outer outside.new).events) reactor.new.core) }
    ensures within { length slots.new.items ≤ length sessions.now.items }
    ensures exhausted { OnTimerExhausted result
        ((rounds : ℕ) → CallRunsOut sessions.now.items rounds (O.outer outside.old).ample reactor.old.core
        ((O.outer outside.old).events) ((O.outer outside.new).events) reactor.new.core) }
    ensures cause { OpenCounted result ((O.outer outside.old).poller_faults) ((O.outer outside.new).poller_faults) }
    ensures counted { OnOk result (AllCounted 0 slots.new.items (O.outer outside.old) (O.outer outside.new)) }
    ensures timers { MadeTold reactor.old.core reactor.new.core ((O.outer outside.old).events)
        ((O.outer outside.new).events) }
    ensures keeps { (room : ℕ) → Keeps (part.All room) (O.outer outside.old) (O.outer outside.new) }
    ensures reports { reactor.new.events ≡ reactor.old.events }
{
    let mut wire = 0u32;
    for session in sessions {
        slots.push_reserved(first_visit(alloc, reactor, outside, &mut Nobody, wire, session)?);
        wire += 1;
    }
    Ok(())
}

/// All visits and rounds.
fn open_rounds<O: Outside>(
    alloc: Global,
    reactor: &mut Reactor,
    outside: &mut O,
    sessions: &Vec<Session>,
    rounds: u64,
    slots: &mut Vec<Slot>,
) -> Result<(), OpenError>
    requires few { length sessions.now.items < 2 ^ 32 }
    requires rests { IsBetweenCalls reactor.old.core }
    requires empty { reactor.old.core.sources ≡ [] }
    requires timeless { timers_applied reactor.old.core ≡ [] }
    requires unused { slots.old.items ≡ [] }
    requires room { length sessions.now.items ≤ vec_capacity slots.old }
    ensures rested { OnOk result
        ((past : Pieces)
        × CallSettled sessions.now.items rounds reactor.old.core ((O.outer outside.old).events)
        ((O.outer outside.new).events) reactor.new.core slots.new.items past) }
    ensures halted { Halts result sessions.now.items rounds (O.outer outside.old).ample reactor.old.core
        ((O.outer outside.old).events) ((O.outer outside.new).events) reactor.new.core slots.new.items }
    ensures len { OnOk result (length slots.new.items ≡ length sessions.now.items) }
    ensures few { length slots.new.items < 2 ^ 32 }
    ensures owned { Owned slots.new.items (tags reactor.new.core.sources) }
    ensures refused { Refuses result ((O.outer outside.old).events) ((O.outer outside.new).events) reactor.old.core
        reactor.new.core }
    ensures failed { OnPoller result
        (CallFails sessions.now.items rounds (O.outer outside.old).ample reactor.old.core
        ((O.outer outside.old).events) ((O.outer outside.new).events) reactor.new.core) }
    ensures within { length slots.new.items ≤ length sessions.now.items }
    ensures cause { OpenCounted result ((O.outer outside.old).poller_faults) ((O.outer outside.new).poller_faults) }
    ensures counted { OnOk result (AllCounted 0 slots.new.items (O.outer outside.old) (O.outer outside.new)) }
    ensures timers { MadeTold reactor.old.core reactor.new.core ((O.outer outside.old).events)
        ((O.outer outside.new).events) }
    ensures keeps { Keeps (part.All reactor.old.events) (O.outer outside.old) (O.outer outside.new) }
    ensures reports { reactor.new.events ≡ reactor.old.events }
{
    open_first(alloc, reactor, outside, sessions, slots)?;
    go_rounds(alloc, reactor, outside, slots, rounds)
}

/// All visits and rounds, the removals, and the endings.
fn open_over<O: Outside>(
    alloc: Global,
    reactor: &mut Reactor,
    outside: &mut O,
    sessions: &Vec<Session>,
    rounds: u64,
) -> Result<Vec<Ended>, OpenError>
    requires idle { IsIdle reactor.old.core }
    requires few { length sessions.now.items < 2 ^ 32 }
    ensures opened { (r : List Event) × ((O.outer outside.new).events ≡ told ((O.outer outside.old).events) r)
        × IfOk result (λ endeds. Opened sessions.now.items rounds reactor.old.core reactor.new.core endeds.items r)
        × RefusedWith sessions.now.items rounds (O.outer outside.old).ample reactor.old.core reactor.new.core
        result r }
    ensures idle { IsIdle reactor.new.core }
    ensures cause { OpenCounted result ((O.outer outside.old).poller_faults) ((O.outer outside.new).poller_faults) }
    ensures faults { IfOk result (λ endeds. EndedsCounted 0 endeds.items (O.outer outside.old) (O.outer outside.new)) }
    ensures timers { MadeTold reactor.old.core reactor.new.core ((O.outer outside.old).events)
        ((O.outer outside.new).events) }
    ensures keeps { Keeps (part.All reactor.old.events) (O.outer outside.old) (O.outer outside.new) }
    ensures reports { reactor.new.events ≡ reactor.old.events }
{
    // How many interests were begun fits its type.
    reactor.fits();
    let mut slots = Vec::with_capacity(alloc, sessions.len())?;
    let opened = open_rounds(alloc, reactor, outside, sessions, rounds, &mut slots);
    let removed = close(reactor, outside, &slots);
    opened?;
    removed?;
    endeds_in(alloc, slots)
}

/// Opens the sessions over any outside. Session i has wire i.
///
/// Each is visited once, in order: it dials or takes the connection that its peer opened, registers its wire in the
/// reactor, and has its conversation until that ends or its wire isn't ready. Then the clock is read, where it has a
/// deadline (a moment in nanoseconds): a reading at or after it ends the session as TimedOut, one before it makes the
/// timer that wakes the session then. While one sleeps and fewer than `rounds` rounds came, one more comes, which waits
/// no longer than to the nearest deadline, and those that it makes due are visited. At the end the sources and timers
/// of those that still sleep are taken out.
///
/// At Ok, where the outside tells its record, each session has what its own part of the record alone decides, and
/// the record is settled. Whether it tells or not, an ending is Connection only where the count of its wire's
/// dialling rose, and Io only where that or the count of the wire's own faults did.
///
/// Poller: the poller failed. Exhausted: the number of a round or of a timer was needed, and the reactor's counter stood
/// at its end. After every answer the reactor is idle, and each timer that was made was notified.
pub fn open_all<O: Outside>(
    alloc: Global,
    reactor: &mut Reactor,
    outside: &mut O,
    sessions: Vec<Session>,
    rounds: u64,
) -> Result<Vec<Ended>, OpenError>
    requires idle { IsIdle reactor.old.core }
    requires few { length sessions.items < 2 ^ 32 }
    ensures opened { (r : List Event) × ((O.outer outside.new).events ≡ told ((O.outer outside.old).events) r)
        × IfOk result (λ endeds. Opened sessions.items rounds reactor.old.core reactor.new.core endeds.items r)
        × RefusedWith sessions.items rounds (O.outer outside.old).ample reactor.old.core reactor.new.core result r }
    ensures cause { OpenCounted result ((O.outer outside.old).poller_faults) ((O.outer outside.new).poller_faults) }
    ensures complete { ¬ Rose ((O.outer outside.old).poller_faults) ((O.outer outside.new).poller_faults)
        → reactor.old.core.ticker + rounds < 2 ^ 64 → reactor.old.core.made + length sessions.items < 2 ^ 64
        → Completes result }
    ensures idle { IsIdle reactor.new.core }
    ensures faults { IfOk result (λ endeds. EndedsCounted 0 endeds.items (O.outer outside.old) (O.outer outside.new)) }
    ensures timers { MadeTold reactor.old.core reactor.new.core ((O.outer outside.old).events)
        ((O.outer outside.new).events) }
    ensures keeps { Keeps (part.All reactor.old.events) (O.outer outside.old) (O.outer outside.new) }
    ensures reports { reactor.new.events ≡ reactor.old.events }
{
    open_over(alloc, reactor, outside, &sessions, rounds)
}

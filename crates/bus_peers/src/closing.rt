//! The end of a call: the sources of the sessions that sleep are taken out, and each session has its ending.

ghost use Rattle.std.specs.Prelude.{◌≡◌, ◌<◌, ◌^◌, [], length, map, true, Err, IfOk, OnOk, OnErr};
ghost use Rattle.std.specs.List.{list_all};
ghost use Rattle.react_core.specs.Outer.{Keeps};
ghost use Rattle.react_core.specs.Outer as part;
ghost use Rattle.react_core.specs.Told.{told};
ghost use Rattle.bus_peers.specs.declared.open.OpenError.TheVariants as open_err;
ghost use Rattle.bus_peers.specs.inside.Rounds.{is_kept, cleared, AllEnd, EndsIn, IsHeld, without_slot, removal_told};
ghost use Rattle.bus_peers.specs.inside.Closing.{closing};
ghost use Rattle.bus_peers.specs.inside.Failures.{Removes};
ghost use Rattle.bus_visit.specs.Shown.{shown, tags};
ghost use Rattle.bus_visit.specs.Timed.{moment_after};
ghost use Rattle.bus_peers.specs.inside.Slots.{Owned};
ghost use Rattle.bus_peers.specs.inside.SlotFaults.{VisitsCounted};

use crate::open::OpenError;
use bus_session::{Ended, Ending};
use bus_visit::{Sleeper, Slot, ended_of};
use react_core::outside::Registrar;
use react_core::reactor::Reactor;
use std::alloc::Global;

/// Takes out the source of a session that sleeps, if it does.
fn remove_source<R: Registrar>(
    reactor: &mut Reactor,
    registrar: &mut R,
    slot: &Slot,
) -> Result<(), OpenError>
    requires held { IsHeld slot.now reactor.old.core }
    ensures removed { reactor.new ≡ record reactor.old { core = without_slot slot.now reactor.old.core } }
    ensures told { OnOk result
        ((R.outer registrar.new).events
        ≡ told ((R.outer registrar.old).events) (removal_told slot.now reactor.old.core)) }
    ensures removals { Removes (R.outer registrar.old).ample (removal_told slot.now reactor.old.core) result
        ((R.outer registrar.old).events) ((R.outer registrar.new).events) }
    ensures cause { VisitsCounted result ((R.outer registrar.old).poller_faults)
        ((R.outer registrar.new).poller_faults) }
    ensures keeps { Keeps part.Poller (R.outer registrar.old) (R.outer registrar.new) }
{
    if let Slot::Asleep(sleeper) = slot {
        reactor.remove_io(registrar, sleeper.key)?;
    }
    Ok(())
}

/// Takes out the sources of the sessions that sleep, in order, and goes on where one is refused. The first refusal is
/// answered.
fn remove_sources<R: Registrar>(
    reactor: &mut Reactor,
    registrar: &mut R,
    slots: &Vec<Slot>,
) -> Result<(), OpenError>
    requires owned { Owned slots.now.items (tags reactor.old.core.sources) }
    ensures reactor { reactor.new ≡ record reactor.old { core = record reactor.old.core { sources = [] } } }
    ensures told { OnOk result
        ((R.outer registrar.new).events
        ≡ told ((R.outer registrar.old).events)
        (closing (length slots.now.items) 0 (map shown reactor.old.core.sources))) }
    ensures removals { Removes (R.outer registrar.old).ample
        (closing (length slots.now.items) 0 (map shown reactor.old.core.sources)) result
        ((R.outer registrar.old).events) ((R.outer registrar.new).events) }
    ensures cause { VisitsCounted result ((R.outer registrar.old).poller_faults)
        ((R.outer registrar.new).poller_faults) }
    ensures keeps { Keeps part.Poller (R.outer registrar.old) (R.outer registrar.new) }
{
    let mut answer = Ok(());
    for slot in slots {
        answer = answer.and(remove_source(reactor, registrar, slot));
    }
    answer
}

/// Takes out the sources of the sessions that sleep, in order, and all timers.
pub(crate) fn close<R: Registrar>(
    reactor: &mut Reactor,
    registrar: &mut R,
    slots: &Vec<Slot>,
) -> Result<(), OpenError>
    requires owned { Owned slots.now.items (tags reactor.old.core.sources) }
    ensures reactor { reactor.new ≡ record reactor.old { core = cleared reactor.old.core } }
    ensures told { OnOk result
        ((R.outer registrar.new).events
        ≡ told ((R.outer registrar.old).events)
        (closing (length slots.now.items) 0 (map shown reactor.old.core.sources))) }
    ensures removals { Removes (R.outer registrar.old).ample
        (closing (length slots.now.items) 0 (map shown reactor.old.core.sources)) result
        ((R.outer registrar.old).events) ((R.outer registrar.new).events) }
    ensures cause { VisitsCounted result ((R.outer registrar.old).poller_faults)
        ((R.outer registrar.new).poller_faults) }
    ensures keeps { Keeps part.Poller (R.outer registrar.old) (R.outer registrar.new) }
{
    let removed = remove_sources(reactor, registrar, slots);
    reactor.clear_timers();
    removed
}

/// The clock's reading in the last visit of a session that sleeps, where it has a deadline.
fn moment_of(sleeper: &Sleeper) -> Option<u64>
    ensures { result ≡ moment_after sleeper.now.alarm }
{
    match &sleeper.alarm {
        Some(alarm) => Some(alarm.moment),
        None => None,
    }
}

/// What the session of a slot has come to: one that sleeps still waits.
fn ended_in(alloc: Global, wire: u32, slot: Slot) -> Result<Ended, OpenError>
    requires kept { is_kept slot ≡ true }
    ensures ended { IfOk result (EndsIn wire slot) }
    ensures err { OnErr result (result ≡ Err open_err.OutOfMemory) }
{
    match slot {
        Slot::Ended(ended) => Ok(ended),
        Slot::Asleep(sleeper) => {
            let mut ended = ended_of(alloc, wire, Ending::Waiting, &sleeper.client)?;
            ended.moment = moment_of(&sleeper);
            Ok(ended)
        }
        Slot::Refused => unreachable!(),
    }
}

/// What each session has come to.
pub(crate) fn endeds_in(alloc: Global, slots: Vec<Slot>) -> Result<Vec<Ended>, OpenError>
    requires few { length slots.items < 2 ^ 32 }
    requires kept { list_all is_kept slots.items ≡ true }
    ensures ended { IfOk result (λ endeds. AllEnd 0 slots.items endeds.items) }
    ensures err { OnErr result (result ≡ Err open_err.OutOfMemory) }
{
    let mut endeds = Vec::with_capacity(alloc, slots.len())?;
    let mut wire = 0u32;
    for slot in slots {
        endeds.push(ended_in(alloc, wire, slot)?)?;
        wire += 1;
    }
    Ok(endeds)
}

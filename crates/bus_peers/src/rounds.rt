//! Rounds: the reactor waits for all sessions that sleep, and those that a round wakes are visited.

ghost use Rattle.std.specs.Prelude.{◌≡◌, ◌≢◌, ◌<◌, ◌^◌, ◌++◌, ◌∷◌, [], List, ℕ, map, length, true, false, Err};
ghost use Rattle.std.specs.Prelude.{IfOk, OnOk, OnErr};
ghost use Rattle.bus_peers.specs.inside.RoundEvents.{Round};
ghost use Rattle.react_core.specs.Outer.{Keeps};
ghost use Rattle.react_core.specs.Outer as part;
ghost use Rattle.react_core.specs.declared.outside.Event.{Event};
ghost use Rattle.bus_peers.specs.inside.SlotFaults.{CountsOn};
ghost use Rattle.bus_peers.specs.Headline.{OpenCounted, MadeTold};
ghost use Rattle.bus_peers.specs.inside.Alarms.{Alarmed};
ghost use Rattle.bus_peers.specs.inside.Rounds.{Rounded, WokenBy, HaveWires, OnExhausted};
ghost use Rattle.bus_peers.specs.inside.Due.{RisesFrom};
ghost use Rattle.bus_peers.specs.inside.Failures.{OnPoller, RoundFailed, VisitsFailCall, RoundFailsCall};
ghost use Rattle.bus_peers.specs.inside.Failures.{RoundsFailCall};
ghost use Rattle.bus_peers.specs.declared.open.OpenError.TheVariants as open_err;
ghost use Rattle.bus_peers.specs.inside.Due.{is_in};
ghost use Rattle.bus_visit.specs.Shown.{IsBetweenCalls, tags, has_wire};
ghost use Rattle.bus_peers.specs.inside.Slots.{Owned, AllOpen, VisitsKeepCall, RoundKeepsCall, RoundsSettleCall};
ghost use Rattle.bus_peers.specs.inside.Slots.{Told, Refuses, Stuck};
ghost use Rattle.bus_peers.specs.inside.SlotFaults.{VisitsCounted};

use crate::open::OpenError;
use bus_session::Session;
use bus_visit::{Sleeper, Slot, visit};
use react_core::outside::{Clock, Notifier, Outside, Poller, Registrar, Wakes, Wire};
use react_core::reactor::Reactor;
use std::alloc::Global;
use std::mem;

/// The tasks that a round wakes, in the order in which it wakes them.
#[derive(Drop)]
pub(crate) struct Woken {
    tasks: Vec<u64>,
    /// Memory ran out, and some task is missing.
    lost: bool,
}

impl Wakes for Woken {
    ghost woke = { WokenBy };

    fn wake(&mut self, task: u64) {
        if self.tasks.push(task).is_err() {
            self.lost = true;
        }
    }
}

/// Takes no task: a poll of `open_all` wakes nobody, since each direction has one task.
#[derive(Drop)]
pub(crate) struct Nobody;

impl Wakes for Nobody {
    ghost woke = { λ _ _ _. Unit {0} };

    fn wake(&mut self, _task: u64) {}
}

/// The tasks that were woken, each once and in order.
fn in_order(woken: Woken) -> Result<Vec<u64>, OpenError>
    ensures ordered { IfOk result
        (λ tasks. (woken.lost ≡ false) × RisesFrom 0 tasks.items
        × ((w : ℕ) → is_in w tasks.items ≡ is_in w woken.tasks.items)) }
    ensures err { OnErr result (result ≡ Err open_err.OutOfMemory) }
{
    if woken.lost {
        return Err(OpenError::OutOfMemory);
    }
    let mut tasks = woken.tasks;
    if tasks.sort().is_err() {
        return Err(OpenError::OutOfMemory);
    }
    tasks.dedup();
    Ok(tasks)
}

/// One round: the sessions that it makes due, in order.
fn round<O: Clock + Poller>(
    alloc: Global,
    reactor: &mut Reactor,
    outside: &mut O,
) -> Result<Vec<u64>, OpenError>
    requires rests { IsBetweenCalls reactor.old.core }
    ensures rounded { IfOk result
        (λ woken. (r : Round)
        × Rounded ((O.outer outside.old).events) ((O.outer outside.new).events) (O.outer outside.old).moment
        (O.outer outside.new).moment reactor.old.core reactor.new.core woken.items r) }
    ensures refused { Refuses result ((O.outer outside.old).events) ((O.outer outside.new).events) reactor.old.core
        reactor.new.core }
    ensures tags { tags reactor.new.core.sources ≡ tags reactor.old.core.sources }
    ensures exhausted { OnExhausted result
        (reactor.new ≡ reactor.old × (O.outer outside.new).events ≡ (O.outer outside.old).events) }
    ensures failed { OnPoller result
        ((r : Round) × (rearmed : List Event)
        × RoundFailed (O.outer outside.old).ample ((O.outer outside.old).events)
        ((O.outer outside.new).events) reactor.old.core reactor.new.core r rearmed) }
    ensures cause { OpenCounted result ((O.outer outside.old).poller_faults) ((O.outer outside.new).poller_faults) }
    ensures timers { MadeTold reactor.old.core reactor.new.core ((O.outer outside.old).events)
        ((O.outer outside.new).events) }
    ensures keeps { Keeps (part.Round reactor.old.events) (O.outer outside.old) (O.outer outside.new) }
    ensures reports { reactor.new.events ≡ reactor.old.events }
{
    // The keys of the sources rise, so a report names at most one of them.
    reactor.fits();
    let mut woken = Woken {
        tasks: Vec::new(alloc),
        lost: false,
    };
    reactor.react(alloc, outside, &mut woken, None)?;
    in_order(woken)
}

/// A visit of the session of this wire, which sleeps.
fn visit_slot<O: Wire + Registrar + Clock + Notifier>(
    alloc: Global,
    reactor: &mut Reactor,
    outside: &mut O,
    slots: &mut Vec<Slot>,
    wire: u32,
) -> Result<(), OpenError>
    requires rests { IsBetweenCalls reactor.old.core }
    requires owned { Owned slots.old.items (tags reactor.old.core.sources) }
    requires stands { AllOpen slots.old.items }
    requires registered { has_wire wire (tags reactor.old.core.sources) ≡ true }
    ensures went { OnOk result
        ((pending : List ℕ)
        → VisitsKeepCall (wire ∷ pending) pending ((O.outer outside.old).events) ((O.outer outside.new).events)
        reactor.old.core reactor.new.core slots.old.items slots.new.items) }
    ensures rests { OnOk result (IsBetweenCalls reactor.new.core) }
    ensures stands { OnOk result (AllOpen slots.new.items) }
    ensures owned { Owned slots.new.items (tags reactor.new.core.sources) }
    ensures alarmed { OnOk result
        ((pending : List ℕ)
        → Alarmed (O.outer outside.old).moment reactor.old.core (wire ∷ pending) slots.old.items
        → Alarmed (O.outer outside.new).moment reactor.new.core pending slots.new.items) }
    ensures others { (w : ℕ) → w ≢ wire → has_wire w (tags reactor.new.core.sources)
        ≡ has_wire w (tags reactor.old.core.sources) }
    ensures len { length slots.new.items ≡ length slots.old.items }
    ensures told { OnOk result
        ((more : List Event)
        × Told ((O.outer outside.old).events) ((O.outer outside.new).events) reactor.old.core reactor.new.core more) }
    ensures refused { Refuses result ((O.outer outside.old).events) ((O.outer outside.new).events) reactor.old.core
        reactor.new.core }
    ensures failed { OnPoller result
        ((pending : List ℕ)
        → VisitsFailCall (O.outer outside.old).ample (wire ∷ pending) ((O.outer outside.old).events)
        ((O.outer outside.new).events) reactor.old.core reactor.new.core slots.old.items) }
    ensures cause { VisitsCounted result ((O.outer outside.old).poller_faults) ((O.outer outside.new).poller_faults) }
    ensures counted { OnOk result
        (CountsOn slots.old.items slots.new.items (O.outer outside.old) (O.outer outside.new)) }
    ensures timers { MadeTold reactor.old.core reactor.new.core ((O.outer outside.old).events)
        ((O.outer outside.new).events) }
    ensures keeps { (room : ℕ) → Keeps (part.All room) (O.outer outside.old) (O.outer outside.new) }
    ensures reports { reactor.new.events ≡ reactor.old.events }
{
    let slot = mem::replace(&mut slots[wire as usize], Slot::Refused);
    let Slot::Asleep(sleeper) = slot else {
        unreachable!()
    };
    slots[wire as usize] = visit(alloc, reactor, outside, &mut Nobody, wire, sleeper)?;
    Ok(())
}

/// Visits the sessions of these wires, which sleep, in order.
fn visit_woken<O: Wire + Registrar + Clock + Notifier>(
    alloc: Global,
    reactor: &mut Reactor,
    outside: &mut O,
    slots: &mut Vec<Slot>,
    woken: &[u64],
) -> Result<(), OpenError>
    requires rests { IsBetweenCalls reactor.old.core }
    requires owned { Owned slots.old.items (tags reactor.old.core.sources) }
    requires stands { AllOpen slots.old.items }
    requires few { length slots.old.items < 2 ^ 32 }
    requires alarmed { Alarmed (O.outer outside.old).moment reactor.old.core woken.now slots.old.items }
    requires rise { RisesFrom 0 woken.now }
    requires registered { HaveWires woken.now (tags reactor.old.core.sources) }
    ensures went { OnOk result
        (VisitsKeepCall woken.now [] ((O.outer outside.old).events) ((O.outer outside.new).events) reactor.old.core
        reactor.new.core slots.old.items slots.new.items) }
    ensures rests { OnOk result (IsBetweenCalls reactor.new.core) }
    ensures stands { OnOk result (AllOpen slots.new.items) }
    ensures owned { Owned slots.new.items (tags reactor.new.core.sources) }
    ensures alarmed { OnOk result
        (Alarmed (O.outer outside.new).moment reactor.new.core [] slots.new.items) }
    ensures len { length slots.new.items ≡ length slots.old.items }
    ensures told { OnOk result
        ((more : List Event)
        × Told ((O.outer outside.old).events) ((O.outer outside.new).events) reactor.old.core reactor.new.core more) }
    ensures refused { Refuses result ((O.outer outside.old).events) ((O.outer outside.new).events) reactor.old.core
        reactor.new.core }
    ensures failed { OnPoller result
        (VisitsFailCall (O.outer outside.old).ample woken.now ((O.outer outside.old).events)
        ((O.outer outside.new).events) reactor.old.core reactor.new.core slots.old.items) }
    ensures cause { VisitsCounted result ((O.outer outside.old).poller_faults) ((O.outer outside.new).poller_faults) }
    ensures counted { OnOk result
        (CountsOn slots.old.items slots.new.items (O.outer outside.old) (O.outer outside.new)) }
    ensures timers { MadeTold reactor.old.core reactor.new.core ((O.outer outside.old).events)
        ((O.outer outside.new).events) }
    ensures keeps { (room : ℕ) → Keeps (part.All room) (O.outer outside.old) (O.outer outside.new) }
    ensures reports { reactor.new.events ≡ reactor.old.events }
{
    for wire in woken {
        visit_slot(alloc, reactor, outside, slots, *wire as u32)?;
    }
    Ok(())
}

/// One round, and a visit of each session that it makes due.
fn go_round<O: Outside>(
    alloc: Global,
    reactor: &mut Reactor,
    outside: &mut O,
    slots: &mut Vec<Slot>,
) -> Result<(), OpenError>
    requires rests { IsBetweenCalls reactor.old.core }
    requires owned { Owned slots.old.items (tags reactor.old.core.sources) }
    requires alarmed { Alarmed (O.outer outside.old).moment reactor.old.core [] slots.old.items }
    requires stands { AllOpen slots.old.items }
    requires few { length slots.old.items < 2 ^ 32 }
    ensures went { OnOk result
        (RoundKeepsCall ((O.outer outside.old).events) ((O.outer outside.new).events) reactor.old.core
        reactor.new.core slots.old.items slots.new.items) }
    ensures rests { OnOk result (IsBetweenCalls reactor.new.core) }
    ensures stands { OnOk result (AllOpen slots.new.items) }
    ensures owned { Owned slots.new.items (tags reactor.new.core.sources) }
    ensures alarmed { OnOk result
        (Alarmed (O.outer outside.new).moment reactor.new.core [] slots.new.items) }
    ensures len { length slots.new.items ≡ length slots.old.items }
    ensures told { OnOk result
        ((more : List Event)
        × Told ((O.outer outside.old).events) ((O.outer outside.new).events) reactor.old.core reactor.new.core more) }
    ensures refused { Refuses result ((O.outer outside.old).events) ((O.outer outside.new).events) reactor.old.core
        reactor.new.core }
    ensures exhausted { OnExhausted result
        (reactor.new ≡ reactor.old × (O.outer outside.new).events ≡ (O.outer outside.old).events × slots.new.items
        ≡ slots.old.items) }
    ensures failed { OnPoller result
        (RoundFailsCall (O.outer outside.old).ample ((O.outer outside.old).events)
        ((O.outer outside.new).events) reactor.old.core reactor.new.core slots.old.items) }
    ensures cause { OpenCounted result ((O.outer outside.old).poller_faults) ((O.outer outside.new).poller_faults) }
    ensures counted { OnOk result
        (CountsOn slots.old.items slots.new.items (O.outer outside.old) (O.outer outside.new)) }
    ensures timers { MadeTold reactor.old.core reactor.new.core ((O.outer outside.old).events)
        ((O.outer outside.new).events) }
    ensures keeps { Keeps (part.All reactor.old.events) (O.outer outside.old) (O.outer outside.new) }
    ensures reports { reactor.new.events ≡ reactor.old.events }
{
    let woken = round(alloc, reactor, outside)?;
    visit_woken(alloc, reactor, outside, slots, woken.as_slice())
}

/// Rounds, while a session sleeps and one is left.
pub(crate) fn go_rounds<O: Outside>(
    alloc: Global,
    reactor: &mut Reactor,
    outside: &mut O,
    slots: &mut Vec<Slot>,
    rounds: u64,
) -> Result<(), OpenError>
    requires rests { IsBetweenCalls reactor.old.core }
    requires owned { Owned slots.old.items (tags reactor.old.core.sources) }
    requires alarmed { Alarmed (O.outer outside.old).moment reactor.old.core [] slots.old.items }
    requires stands { AllOpen slots.old.items }
    requires few { length slots.old.items < 2 ^ 32 }
    ensures went { OnOk result
        (RoundsSettleCall rounds ((O.outer outside.old).events) ((O.outer outside.new).events) reactor.old.core
        reactor.new.core slots.old.items slots.new.items) }
    ensures rests { OnOk result (IsBetweenCalls reactor.new.core) }
    ensures owned { Owned slots.new.items (tags reactor.new.core.sources) }
    ensures len { length slots.new.items ≡ length slots.old.items }
    ensures refused { Refuses result ((O.outer outside.old).events) ((O.outer outside.new).events) reactor.old.core
        reactor.new.core }
    ensures stuck { Stuck result rounds ((O.outer outside.old).events) ((O.outer outside.new).events)
        reactor.old.core reactor.new.core slots.old.items slots.new.items }
    ensures failed { OnPoller result
        (RoundsFailCall (O.outer outside.old).ample rounds ((O.outer outside.old).events)
        ((O.outer outside.new).events) reactor.old.core reactor.new.core slots.old.items) }
    ensures cause { OpenCounted result ((O.outer outside.old).poller_faults) ((O.outer outside.new).poller_faults) }
    ensures counted { OnOk result
        (CountsOn slots.old.items slots.new.items (O.outer outside.old) (O.outer outside.new)) }
    ensures timers { MadeTold reactor.old.core reactor.new.core ((O.outer outside.old).events)
        ((O.outer outside.new).events) }
    ensures keeps { Keeps (part.All reactor.old.events) (O.outer outside.old) (O.outer outside.new) }
    ensures reports { reactor.new.events ≡ reactor.old.events }
{
    let mut done = 0;
    while done < rounds && !reactor.is_idle() {
        go_round(alloc, reactor, outside, slots)?;
        done += 1;
    }
    Ok(())
}

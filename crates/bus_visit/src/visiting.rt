//! The visits of a session: it dials, is registered, and asks its wire until it has ended or has to wait.

ghost use Rattle.std.specs.Prelude.{◌≡◌, [], ◌∷◌, List, None, Some, true, false, IfOk, OnErr};
ghost use Rattle.react_core.specs.Core.{removed};
ghost use Rattle.react_core.specs.Outer.{Keeps};
ghost use Rattle.react_core.specs.Outer as part;
ghost use Rattle.react_core.specs.Round.{OnExhausted};
ghost use Rattle.react_core.specs.Told.{told};
ghost use Rattle.react_core.specs.declared.outside.Event.{Event};
ghost use Rattle.react_core.specs.declared.outside.Event.TheVariants as event;
ghost use Rattle.bus_session.specs.Dialling.{expects};
ghost use Rattle.bus_visit.specs.Dialled.{as_opened};
ghost use Rattle.bus_visit.specs.Failing.{OnPoller, TurnsFail, RemovalTold, RegisteredVisitFails, VisitFails};
ghost use Rattle.bus_visit.specs.Failing.{VisitRunsOut, FailsVisit, RunsOutOfVisit, OpenedFails, RegisteredRunsOut};
ghost use Rattle.bus_visit.specs.Failing.{FirstVisitFails, FirstVisitRunsOut};
ghost use Rattle.bus_visit.specs.Faults.{OverCounted, SlotCounted};
ghost use Rattle.bus_visit.specs.First.{Registers, FirstVisits, FirstTags};
ghost use Rattle.bus_visit.specs.Noted.{Holds};
ghost use Rattle.bus_visit.specs.Shown.{IsBetweenCalls, tags, without_tag, has_wire};
ghost use Rattle.bus_visit.specs.Timed.{timed_out, limit_of, limit_after, EndsVisit, TimedVisit, MakesVisit};
ghost use Rattle.bus_visit.specs.Timed.{GoesForward, TimedCounted};
ghost use Rattle.bus_visit.specs.Visited.{VisitCounted, KeepsCall, Turns, last_turn, MakesRegisteredVisit};
ghost use Rattle.bus_visit.specs.declared.visiting.Slot.TheVariants as slot;

use crate::conversation::Conversation;
use crate::conversing::{Conversed, converse};
use crate::dialling::{Dialled, OpenWire, dial};
use crate::noting::note_not_ready;
use crate::timing::{Alarm, Limit, Look, forget, look_at_clock};
use bus_address::Guid;
use bus_opening::Handshake;
use bus_session::{Ended, Ending, Session};
use react_core::outside::{Bytes, Clock, Dialer, Notifier, OutOfMemory, Registrar, Wakes, Wire};
use react_core::reactor::{ReactError, Reactor};
use std::alloc::Global;

/// A session that sleeps: its key in the reactor, its conversation, and its timer, where it has a deadline.
#[derive(Drop)]
pub struct Sleeper {
    pub key: usize,
    pub client: Conversation,
    pub alarm: Option<Alarm>,
}

/// Where a session stands between its visits.
#[derive(Drop)]
pub enum Slot {
    Ended(Ended),
    Asleep(Sleeper),
    /// Its visit was refused, and so is the whole call.
    Refused,
}

/// A copy of these bytes.
fn copied(alloc: Global, bytes: &[u8]) -> Result<Bytes, OutOfMemory>
    ensures { IfOk result (λ b. b ≡ bytes.now) }
{
    Ok(Bytes::from_vec(Vec::from_slice(alloc, bytes)?))
}

/// What a conversation came to that stands there.
pub fn ended_of(
    alloc: Global,
    wire: u32,
    ending: Ending,
    client: &Conversation,
) -> Result<Ended, OutOfMemory>
    ensures value { IfOk result
        (λ e. e
        ≡ record
        { ending = ending; written = client.now.written; leftover = client.now.rest; wire = wire; moment = None }) }
{
    Ok(Ended {
        ending,
        written: copied(alloc, client.written())?,
        leftover: copied(alloc, client.leftover())?,
        wire,
        moment: None,
    })
}

/// What a session comes to whose dialling failed so.
fn unconnected(alloc: Global, wire: u32, ending: Ending) -> Ended
    ensures value { result
        ≡ record { ending = ending; written = []; leftover = []; wire = wire; moment = None } }
{
    Ended {
        ending,
        written: Bytes::from_vec(Vec::new(alloc)),
        leftover: Bytes::from_vec(Vec::new(alloc)),
        wire,
        moment: None,
    }
}

/// Goes on with a conversation until it has ended or the session sleeps. None where it sleeps.
fn resume<O: Wire + Registrar, W: Wakes>(
    alloc: Global,
    reactor: &mut Reactor,
    outside: &mut O,
    wakes: &mut W,
    wire: u32,
    key: usize,
    client: &mut Conversation,
) -> Result<Option<Ending>, ReactError>
    requires holds { Holds reactor.old.core key wire }
    requires rests { IsBetweenCalls reactor.old.core }
    requires open { client.old.ended ≡ false }
    ensures resumed { IfOk result
        (λ r. Turns wire key ((O.outer outside.old).events) ((O.outer outside.new).events) reactor.old.core
        reactor.new.core client.old client.new (last_turn r)) }
    ensures refused { OnErr result
        (KeepsCall (tags reactor.old.core.sources) ((O.outer outside.old).events) ((O.outer outside.new).events)
        reactor.old.core reactor.new.core) }
    ensures failed { OnPoller result
        (TurnsFail wire key ((O.outer outside.old).events) ((O.outer outside.new).events) reactor.old.core
        client.old) }
    ensures cause { VisitCounted result ((O.outer outside.old).poller_faults) ((O.outer outside.new).poller_faults) }
    ensures counted { IfOk result
        (λ r. OverCounted wire r (O.outer outside.old) (O.outer outside.new)) }
    ensures unread { (O.outer outside.new).moment ≡ (O.outer outside.old).moment }
    ensures keeps { Keeps (part.Visit wire) (O.outer outside.old) (O.outer outside.new) }
    ensures reports { reactor.new.events ≡ reactor.old.events }
{
    loop {
        match converse(alloc, outside, wire, client)? {
            Conversed::Over(ending) => return Ok(Some(ending)),
            Conversed::Paused(dir) => {
                if !note_not_ready(reactor, outside, wakes, wire, key, dir)? {
                    return Ok(None);
                }
            }
        }
    }
}

/// A visit over a registered wire, up to the look at the clock. Where the session has ended, or the visit is refused,
/// its source is taken out.
fn visit_wire<O: Wire + Registrar, W: Wakes>(
    alloc: Global,
    reactor: &mut Reactor,
    outside: &mut O,
    wakes: &mut W,
    wire: u32,
    key: usize,
    mut client: Conversation,
) -> Result<Slot, ReactError>
    requires holds { Holds reactor.old.core key wire }
    requires rests { IsBetweenCalls reactor.old.core }
    requires open { client.ended ≡ false }
    ensures visited { IfOk result
        (λ slot. MakesRegisteredVisit wire key ((O.outer outside.old).events) ((O.outer outside.new).events)
        reactor.old.core reactor.new.core client slot) }
    ensures refused { OnErr result
        (KeepsCall (without_tag (tags reactor.old.core.sources) key) ((O.outer outside.old).events)
        ((O.outer outside.new).events) reactor.old.core reactor.new.core) }
    ensures failed { OnPoller result
        (RegisteredVisitFails wire key (O.outer outside.old).ample ((O.outer outside.old).events)
        ((O.outer outside.new).events) reactor.old.core client) }
    ensures cause { VisitCounted result ((O.outer outside.old).poller_faults) ((O.outer outside.new).poller_faults) }
    ensures counted { IfOk result (λ slot. SlotCounted wire slot (O.outer outside.old) (O.outer outside.new)) }
    ensures unread { (O.outer outside.new).moment ≡ (O.outer outside.old).moment }
    ensures keeps { Keeps (part.Visit wire) (O.outer outside.old) (O.outer outside.new) }
    ensures reports { reactor.new.events ≡ reactor.old.events }
{
    match resume(alloc, reactor, outside, wakes, wire, key, &mut client) {
        Ok(None) => Ok(Slot::Asleep(Sleeper {
            key,
            client,
            alarm: None,
        })),
        Ok(Some(ending)) => {
            reactor.remove_io(outside, key)?;
            Ok(Slot::Ended(ended_of(alloc, wire, ending, &client)?))
        }
        Err(refusal) => {
            let _ = reactor.remove_io(outside, key);
            Err(refusal)
        }
    }
}

/// Ends a session whose deadline has come at this reading, and takes its source out.
fn time_out<R: Registrar>(
    alloc: Global,
    reactor: &mut Reactor,
    registrar: &mut R,
    wire: u32,
    sleeper: Sleeper,
    moment: u64,
) -> Result<Slot, ReactError>
    requires holds { Holds reactor.old.core sleeper.key wire }
    ensures ended { IfOk result (λ s. s ≡ slot.Ended (timed_out sleeper wire moment)) }
    ensures told { IfOk result
        (λ s. (R.outer registrar.new).events
        ≡ told ((R.outer registrar.old).events) (event.Delete wire sleeper.key true ∷ [])) }
    ensures refused { OnErr result
        ((own : List Event) × RemovalTold (R.outer registrar.old).ample wire sleeper.key own
        × ((R.outer registrar.new).events ≡ told ((R.outer registrar.old).events) own)) }
    ensures failed { OnPoller result
        ((R.outer registrar.new).events
        ≡ told ((R.outer registrar.old).events) (event.Delete wire sleeper.key false ∷ [])) }
    ensures removed { reactor.new ≡ record reactor.old { core = removed reactor.old.core sleeper.key } }
    ensures cause { VisitCounted result ((R.outer registrar.old).poller_faults)
        ((R.outer registrar.new).poller_faults) }
    ensures keeps { Keeps part.Poller (R.outer registrar.old) (R.outer registrar.new) }
{
    reactor.remove_io(registrar, sleeper.key)?;
    let mut ended = ended_of(alloc, wire, Ending::TimedOut, &sleeper.client)?;
    ended.moment = Some(moment);
    Ok(Slot::Ended(ended))
}

/// What becomes of a session that waits for its wire, by its deadline.
fn wait_or_time_out<O: Registrar + Clock + Notifier>(
    alloc: Global,
    reactor: &mut Reactor,
    outside: &mut O,
    wire: u32,
    sleeper: Sleeper,
    limit: Limit,
) -> Result<Slot, ReactError>
    requires holds { Holds reactor.old.core sleeper.key wire }
    requires rests { IsBetweenCalls reactor.old.core }
    ensures visited { IfOk result
        (EndsVisit wire limit sleeper ((O.outer outside.old).events) ((O.outer outside.new).events) reactor.old.core
        reactor.new.core) }
    ensures refused { OnErr result
        (KeepsCall (without_tag (tags reactor.old.core.sources) sleeper.key) ((O.outer outside.old).events)
        ((O.outer outside.new).events) reactor.old.core reactor.new.core) }
    ensures failed { OnPoller result
        (FailsVisit wire limit sleeper (O.outer outside.old).ample ((O.outer outside.old).events)
        ((O.outer outside.new).events) reactor.old.core) }
    ensures exhausted { OnExhausted result
        (RunsOutOfVisit wire limit sleeper (O.outer outside.old).ample ((O.outer outside.old).events)
        ((O.outer outside.new).events) reactor.old.core) }
    ensures cause { TimedCounted result ((O.outer outside.old).poller_faults) ((O.outer outside.new).poller_faults) }
    ensures counted { IfOk result (λ slot. SlotCounted wire slot (O.outer outside.old) (O.outer outside.new)) }
    ensures forward { IfOk result
        (λ slot. GoesForward (O.outer outside.old).moment slot (O.outer outside.new).moment) }
    ensures keeps { Keeps (part.Visit wire) (O.outer outside.old) (O.outer outside.new) }
    ensures reports { reactor.new.events ≡ reactor.old.events }
{
    match look_at_clock(alloc, reactor, outside, wire, limit) {
        Ok(Look::Late(moment)) => time_out(alloc, reactor, outside, wire, sleeper, moment),
        Ok(Look::Early(alarm)) => Ok(Slot::Asleep(Sleeper {
            key: sleeper.key,
            client: sleeper.client,
            alarm: Some(alarm),
        })),
        Err(refusal) => {
            let _ = reactor.remove_io(outside, sleeper.key);
            Err(refusal)
        }
    }
}

/// A visit over a registered wire. The timer of a session that has ended is left.
fn visit_timed<O: Wire + Registrar + Clock + Notifier, W: Wakes>(
    alloc: Global,
    reactor: &mut Reactor,
    outside: &mut O,
    wakes: &mut W,
    wire: u32,
    key: usize,
    client: Conversation,
    limit: Option<Limit>,
) -> Result<Slot, ReactError>
    requires holds { Holds reactor.old.core key wire }
    requires rests { IsBetweenCalls reactor.old.core }
    requires open { client.ended ≡ false }
    ensures visited { IfOk result
        (λ slot. TimedVisit wire key limit ((O.outer outside.old).events) ((O.outer outside.new).events)
        reactor.old.core reactor.new.core client slot) }
    ensures refused { OnErr result
        (KeepsCall (without_tag (tags reactor.old.core.sources) key) ((O.outer outside.old).events)
        ((O.outer outside.new).events) reactor.old.core reactor.new.core) }
    ensures failed { OnPoller result
        (VisitFails wire key limit (O.outer outside.old).ample ((O.outer outside.old).events)
        ((O.outer outside.new).events) reactor.old.core client) }
    ensures exhausted { OnExhausted result
        (VisitRunsOut wire key limit (O.outer outside.old).ample ((O.outer outside.old).events)
        ((O.outer outside.new).events) reactor.old.core client) }
    ensures cause { TimedCounted result ((O.outer outside.old).poller_faults) ((O.outer outside.new).poller_faults) }
    ensures counted { IfOk result (λ slot. SlotCounted wire slot (O.outer outside.old) (O.outer outside.new)) }
    ensures forward { IfOk result
        (λ slot. GoesForward (O.outer outside.old).moment slot (O.outer outside.new).moment) }
    ensures keeps { Keeps (part.Visit wire) (O.outer outside.old) (O.outer outside.new) }
    ensures reports { reactor.new.events ≡ reactor.old.events }
{
    let slot = visit_wire(alloc, reactor, outside, wakes, wire, key, client)?;
    match slot {
        Slot::Asleep(sleeper) => match limit {
            Some(limit) => wait_or_time_out(alloc, reactor, outside, wire, sleeper, limit),
            None => Ok(Slot::Asleep(sleeper)),
        },
        Slot::Ended(ended) => Ok(Slot::Ended(ended)),
        Slot::Refused => unreachable!(),
    }
}

/// A visit over a registered wire, of a session with this deadline and timer. Where the session has ended, or the visit
/// is refused, its source is taken out; where it has ended, its timer is.
fn visit_registered<O: Wire + Registrar + Clock + Notifier, W: Wakes>(
    alloc: Global,
    reactor: &mut Reactor,
    outside: &mut O,
    wakes: &mut W,
    wire: u32,
    key: usize,
    client: Conversation,
    limit: Option<Limit>,
) -> Result<Slot, ReactError>
    requires holds { Holds reactor.old.core key wire }
    requires rests { IsBetweenCalls reactor.old.core }
    requires open { client.ended ≡ false }
    ensures visited { IfOk result
        (λ slot. MakesVisit wire key limit ((O.outer outside.old).events) ((O.outer outside.new).events)
        reactor.old.core reactor.new.core client slot) }
    ensures refused { OnErr result
        (KeepsCall (without_tag (tags reactor.old.core.sources) key) ((O.outer outside.old).events)
        ((O.outer outside.new).events) reactor.old.core reactor.new.core) }
    ensures failed { OnPoller result
        (VisitFails wire key limit (O.outer outside.old).ample ((O.outer outside.old).events)
        ((O.outer outside.new).events) reactor.old.core client) }
    ensures exhausted { OnExhausted result
        (VisitRunsOut wire key limit (O.outer outside.old).ample ((O.outer outside.old).events)
        ((O.outer outside.new).events) reactor.old.core client) }
    ensures cause { TimedCounted result ((O.outer outside.old).poller_faults) ((O.outer outside.new).poller_faults) }
    ensures counted { IfOk result (λ slot. SlotCounted wire slot (O.outer outside.old) (O.outer outside.new)) }
    ensures forward { IfOk result
        (λ slot. GoesForward (O.outer outside.old).moment slot (O.outer outside.new).moment) }
    ensures keeps { Keeps (part.Visit wire) (O.outer outside.old) (O.outer outside.new) }
    ensures reports { reactor.new.events ≡ reactor.old.events }
{
    let slot = visit_timed(alloc, reactor, outside, wakes, wire, key, client, limit)?;
    if let Slot::Ended(_) = &slot {
        forget(alloc, reactor, limit);
    }
    Ok(slot)
}

/// The deadline and the timer of a session that sleeps.
fn limit_after(alarm: Option<Alarm>) -> Option<Limit>
    ensures { result ≡ limit_after alarm }
{
    match alarm {
        Some(alarm) => Some(Limit {
            deadline: alarm.deadline,
            number: Some(alarm.number),
        }),
        None => None,
    }
}

/// A visit of a session that sleeps.
pub fn visit<O: Wire + Registrar + Clock + Notifier, W: Wakes>(
    alloc: Global,
    reactor: &mut Reactor,
    outside: &mut O,
    wakes: &mut W,
    wire: u32,
    sleeper: Sleeper,
) -> Result<Slot, ReactError>
    requires holds { Holds reactor.old.core sleeper.key wire }
    requires rests { IsBetweenCalls reactor.old.core }
    requires open { sleeper.client.ended ≡ false }
    ensures visited { IfOk result
        (λ slot. MakesVisit wire sleeper.key (limit_after sleeper.alarm) ((O.outer outside.old).events) ((O.outer outside.new).events)
        reactor.old.core reactor.new.core sleeper.client slot) }
    ensures refused { OnErr result
        (KeepsCall (without_tag (tags reactor.old.core.sources) sleeper.key) ((O.outer outside.old).events)
        ((O.outer outside.new).events) reactor.old.core reactor.new.core) }
    ensures failed { OnPoller result
        (VisitFails wire sleeper.key (limit_after sleeper.alarm) (O.outer outside.old).ample ((O.outer outside.old).events)
        ((O.outer outside.new).events) reactor.old.core sleeper.client) }
    ensures exhausted { OnExhausted result
        (VisitRunsOut wire sleeper.key (limit_after sleeper.alarm) (O.outer outside.old).ample ((O.outer outside.old).events)
        ((O.outer outside.new).events) reactor.old.core sleeper.client) }
    ensures cause { TimedCounted result ((O.outer outside.old).poller_faults) ((O.outer outside.new).poller_faults) }
    ensures counted { IfOk result (λ slot. SlotCounted wire slot (O.outer outside.old) (O.outer outside.new)) }
    ensures forward { IfOk result
        (λ slot. GoesForward (O.outer outside.old).moment slot (O.outer outside.new).moment) }
    ensures keeps { Keeps (part.Visit wire) (O.outer outside.old) (O.outer outside.new) }
    ensures reports { reactor.new.events ≡ reactor.old.events }
{
    let Sleeper { key, client, alarm } = sleeper;
    let limit = limit_after(alarm);
    visit_registered(alloc, reactor, outside, wakes, wire, key, client, limit)
}

/// The deadline of a session that has no timer yet.
fn limit_of(session: &Session) -> Option<Limit>
    ensures { result ≡ limit_of session.now.deadline }
{
    match session.deadline {
        Some(deadline) => Some(Limit {
            deadline,
            number: None,
        }),
        None => None,
    }
}

/// The first visit of a session whose dialling opened a wire.
fn visit_opened<O: Wire + Registrar + Clock + Notifier, W: Wakes>(
    alloc: Global,
    reactor: &mut Reactor,
    outside: &mut O,
    wakes: &mut W,
    wire: u32,
    session: &Session,
    expected: Option<Guid>,
    opened: &OpenWire,
) -> Result<Slot, ReactError>
    requires expected { expected ≡ expects session.now.party }
    requires rests { IsBetweenCalls reactor.old.core }
    requires new { has_wire wire (tags reactor.old.core.sources) ≡ false }
    ensures visited { IfOk result
        (λ slot. Registers session.now wire (as_opened opened.now) ((O.outer outside.old).events)
        ((O.outer outside.new).events) reactor.old.core reactor.new.core slot) }
    ensures tags { IfOk result (FirstTags wire (tags reactor.old.core.sources) (tags reactor.new.core.sources)) }
    ensures refused { OnErr result
        (KeepsCall (tags reactor.old.core.sources) ((O.outer outside.old).events) ((O.outer outside.new).events)
        reactor.old.core reactor.new.core) }
    ensures failed { OnPoller result
        (OpenedFails session.now wire (as_opened opened.now) (O.outer outside.old).ample ((O.outer outside.old).events)
        ((O.outer outside.new).events) reactor.old.core) }
    ensures exhausted { OnExhausted result
        (RegisteredRunsOut session.now wire (as_opened opened.now) (O.outer outside.old).ample ((O.outer outside.old).events)
        ((O.outer outside.new).events) reactor.old.core) }
    ensures cause { TimedCounted result ((O.outer outside.old).poller_faults) ((O.outer outside.new).poller_faults) }
    ensures counted { IfOk result (λ slot. SlotCounted wire slot (O.outer outside.old) (O.outer outside.new)) }
    ensures forward { IfOk result
        (λ slot. GoesForward (O.outer outside.old).moment slot (O.outer outside.new).moment) }
    ensures keeps { Keeps (part.Visit wire) (O.outer outside.old) (O.outer outside.new) }
    ensures reports { reactor.new.events ≡ reactor.old.events }
{
    let client = Conversation::begin(alloc, &session.party, expected, opened)?;
    let key = reactor.insert_io(alloc, outside, wire)?;
    let limit = limit_of(session);
    visit_registered(alloc, reactor, outside, wakes, wire, key, client, limit)
}

/// The first visit of a session.
pub fn first_visit<O: Wire + Dialer + Registrar + Clock + Notifier, W: Wakes>(
    alloc: Global,
    reactor: &mut Reactor,
    outside: &mut O,
    wakes: &mut W,
    wire: u32,
    session: &Session,
) -> Result<Slot, ReactError>
    requires rests { IsBetweenCalls reactor.old.core }
    requires new { has_wire wire (tags reactor.old.core.sources) ≡ false }
    ensures visited { IfOk result
        (λ slot. FirstVisits session.now wire ((O.outer outside.old).events) ((O.outer outside.new).events)
        reactor.old.core reactor.new.core slot) }
    ensures tags { IfOk result (FirstTags wire (tags reactor.old.core.sources) (tags reactor.new.core.sources)) }
    ensures refused { OnErr result
        (KeepsCall (tags reactor.old.core.sources) ((O.outer outside.old).events) ((O.outer outside.new).events)
        reactor.old.core reactor.new.core) }
    ensures failed { OnPoller result
        (FirstVisitFails session.now wire (O.outer outside.old).ample ((O.outer outside.old).events)
        ((O.outer outside.new).events) reactor.old.core) }
    ensures exhausted { OnExhausted result
        (FirstVisitRunsOut session.now wire (O.outer outside.old).ample ((O.outer outside.old).events)
        ((O.outer outside.new).events) reactor.old.core) }
    ensures cause { TimedCounted result ((O.outer outside.old).poller_faults) ((O.outer outside.new).poller_faults) }
    ensures counted { IfOk result (λ slot. SlotCounted wire slot (O.outer outside.old) (O.outer outside.new)) }
    ensures forward { IfOk result
        (λ slot. GoesForward (O.outer outside.old).moment slot (O.outer outside.new).moment) }
    ensures keeps { Keeps (part.Visit wire) (O.outer outside.old) (O.outer outside.new) }
    ensures reports { reactor.new.events ≡ reactor.old.events }
{
    let reached = dial(alloc, outside, wire, &session.party)?;
    match &reached.dialled {
        Dialled::Opened(opened) => {
            let expected = reached.expected;
            visit_opened(
                alloc, reactor, outside, wakes, wire, session, expected, opened,
            )
        }
        Dialled::Failed(ending) => Ok(Slot::Ended(unconnected(alloc, wire, *ending))),
    }
}

//! A wire is asked, then its source's readiness, then the wire once more: what polled reads and writes of a handle do.

ghost use Rattle.std.specs.Prelude.{◌≡◌, false, Ok, IfSome, OnErr, length};
ghost use Rattle.react_core.specs.declared.outside.Received.TheVariants as received;
ghost use Rattle.react_core.specs.declared.outside.Sent.TheVariants as sent;
ghost use Rattle.react_core.specs.declared.reactor.Dir.TheVariants as dir;
ghost use Rattle.react_core.specs.Causes.{ReactCounted};
ghost use Rattle.react_core.specs.Core.{HasSource};
ghost use Rattle.react_core.specs.Outer.{Keeps};
ghost use Rattle.react_core.specs.Outer as part;
ghost use Rattle.react_core.specs.Readiness.{fresh};
ghost use Rattle.react_core.specs.Steps.{CoreSteps};
ghost use Rattle.react_core.specs.Told.{told, recv_told, send_told, Counted, OnLack};
ghost use Rattle.react_async.specs.Polls.{reading, writing, answer_of, Ending, Ends, Course, Goes, IfReady, OnPending};
ghost use Rattle.react_async.specs.Polls.{WireCounted, OnPollLack, IsStored, IsRead, IsWritten, without_readiness};
ghost use Rattle.react_async.specs.Telling.{AsksAtMostTwice};

use futures::task::Poll;
use react_core::outside::{Fault, Received, Registrar, Sent, Wakes, Wire};
use react_core::reactor::{Dir, ReactError, Reactor};

/// Asks the wire once for bytes. None: it isn't ready.
fn read_once<O: Wire>(
    outside: &mut O,
    wire: u32,
    into: &mut [u8],
) -> Option<Result<Received, Fault>>
    ensures told { (O.outer outside.new).events
        ≡ told (O.outer outside.old).events (recv_told wire into.new (answer_of received.NotReady result)) }
    ensures answered { IfSome result (IsRead (length into.old)) }
    ensures room { length into.new ≡ length into.old }
    ensures cause { Counted (answer_of received.NotReady result) ((O.outer outside.old).wire_faults wire)
        ((O.outer outside.new).wire_faults wire) }
    ensures memory { OnLack (answer_of received.NotReady result) ((O.outer outside.old).ample ≡ false) }
    ensures keeps { Keeps (part.Wire wire) (O.outer outside.old) (O.outer outside.new) }
{
    match outside.recv(wire, into) {
        Ok(Received::NotReady) => None,
        answer => Some(answer),
    }
}

/// Reads from a wire whose source isn't ready. Pending: the wire isn't ready either, and the task waits.
///
/// Poller: the poller refused to report the source.
fn read_or_wait<O: Wire + Registrar, W: Wakes>(
    reactor: &mut Reactor,
    outside: &mut O,
    wakes: &mut W,
    key: usize,
    wire: u32,
    into: &mut [u8],
    task: u64,
) -> Result<Poll<Result<Received, Fault>>, ReactError>
    requires known { HasSource reactor.old.core key }
    requires unready { fresh reactor.old.core key dir.Read ≡ false }
    ensures ends { (ending : Ending Received) × Ends W.woke (reading key wire task into.new)
        (record { events = (O.outer outside.old).events; core = reactor.old.core; wakes = wakes.old })
        (record { events = (O.outer outside.new).events; core = reactor.new.core; wakes = wakes.new }) result ending }
    ensures ready { IfReady result (IsRead (length into.old)) }
    ensures room { length into.new ≡ length into.old }
    ensures stored { OnPending result (IsStored reactor.new.core key dir.Read task) }
    ensures steps { CoreSteps reactor.old.core reactor.new.core }
    ensures err { OnErr result (reactor.new.core ≡ reactor.old.core × wakes.new ≡ wakes.old) }
    ensures reports { reactor.new.events ≡ reactor.old.events }
    ensures cause { WireCounted result ((O.outer outside.old).wire_faults wire)
        ((O.outer outside.new).wire_faults wire) }
    ensures poller { ReactCounted result (O.outer outside.old).poller_faults (O.outer outside.new).poller_faults }
    ensures memory { OnPollLack result ((O.outer outside.old).ample ≡ false) }
    ensures clock { (O.outer outside.new).moment ≡ (O.outer outside.old).moment }
    ensures dials { (O.outer outside.new).dial_faults ≡ (O.outer outside.old).dial_faults }
    ensures keeps { Keeps (part.Visit wire) (O.outer outside.old) (O.outer outside.new) }
{
    if let Some(second) = read_once(outside, wire, into) {
        return Ok(Poll::Ready(second));
    }
    // Its interest was forgotten when it was ready, so that this one is pending.
    reactor.poll_ready(outside, wakes, key, Dir::Read, task)?;
    Ok(Poll::Pending)
}

/// Reads from a wire, for a task that is to be woken otherwise when the source under this key can be read.
///
/// The wire is asked first. Only where it isn't ready the source's readiness is polled, and only where that is ready
/// the wire is asked once more. Ready: what the wire answered last, which never is that it isn't ready; its fault is
/// handed on. Pending: neither the wire is ready nor the source, and the task waits for the source. Where the wire
/// isn't ready although its source was, that readiness is used up, so the source is polled again, for the task to wait:
/// it is pending then.
///
/// Poller: the poller refused to report the source. OutOfMemory: there was no memory for that report. The task doesn't
/// wait then, and the reactor stays as it was after every `Err`, but that a readiness that was used up stays so.
pub(crate) fn poll_read<O: Wire + Registrar, W: Wakes>(
    reactor: &mut Reactor,
    outside: &mut O,
    wakes: &mut W,
    key: usize,
    wire: u32,
    into: &mut [u8],
    task: u64,
) -> Result<Poll<Result<Received, Fault>>, ReactError>
    requires { HasSource reactor.old.core key }
    ensures goes { (course : Course Received) × Goes W.woke (reading key wire task into.new)
        (record { events = (O.outer outside.old).events; core = reactor.old.core; wakes = wakes.old })
        (record { events = (O.outer outside.new).events; core = reactor.new.core; wakes = wakes.new }) result course }
    ensures twice { AsksAtMostTwice (fresh reactor.old.core key dir.Read)
        (recv_told wire into.new (Ok received.NotReady)) (O.outer outside.old).events (O.outer outside.new).events }
    ensures ready { IfReady result (IsRead (length into.old)) }
    ensures room { length into.new ≡ length into.old }
    ensures stored { OnPending result (IsStored reactor.new.core key dir.Read task) }
    ensures steps { CoreSteps reactor.old.core reactor.new.core }
    ensures err { OnErr result (reactor.new.core ≡ without_readiness reactor.old.core key dir.Read task
        × wakes.new ≡ wakes.old) }
    ensures reports { reactor.new.events ≡ reactor.old.events }
    ensures cause { WireCounted result ((O.outer outside.old).wire_faults wire)
        ((O.outer outside.new).wire_faults wire) }
    ensures poller { ReactCounted result (O.outer outside.old).poller_faults (O.outer outside.new).poller_faults }
    ensures memory { OnPollLack result ((O.outer outside.old).ample ≡ false) }
    ensures clock { (O.outer outside.new).moment ≡ (O.outer outside.old).moment }
    ensures dials { (O.outer outside.new).dial_faults ≡ (O.outer outside.old).dial_faults }
    ensures keeps { Keeps (part.Visit wire) (O.outer outside.old) (O.outer outside.new) }
{
    if let Some(first) = read_once(outside, wire, into) {
        return Ok(Poll::Ready(first));
    }
    match reactor.poll_ready(outside, wakes, key, Dir::Read, task)? {
        Poll::Ready(()) => read_or_wait(reactor, outside, wakes, key, wire, into, task),
        Poll::Pending => Ok(Poll::Pending),
    }
}

/// Offers the wire a piece once. None: it isn't ready.
fn write_once<O: Wire>(outside: &mut O, wire: u32, bytes: &[u8]) -> Option<Result<Sent, Fault>>
    ensures told { (O.outer outside.new).events
        ≡ told (O.outer outside.old).events (send_told wire bytes.now (answer_of sent.NotReady result)) }
    ensures answered { IfSome result (IsWritten (length bytes.now)) }
    ensures cause { Counted (answer_of sent.NotReady result) ((O.outer outside.old).wire_faults wire)
        ((O.outer outside.new).wire_faults wire) }
    ensures memory { OnLack (answer_of sent.NotReady result) ((O.outer outside.old).ample ≡ false) }
    ensures keeps { Keeps (part.Wire wire) (O.outer outside.old) (O.outer outside.new) }
{
    match outside.send(wire, bytes) {
        Ok(Sent::NotReady) => None,
        answer => Some(answer),
    }
}

/// Writes to a wire whose source isn't ready. Pending: the wire isn't ready either, and the task waits.
///
/// Poller: the poller refused to report the source.
fn write_or_wait<O: Wire + Registrar, W: Wakes>(
    reactor: &mut Reactor,
    outside: &mut O,
    wakes: &mut W,
    key: usize,
    wire: u32,
    bytes: &[u8],
    task: u64,
) -> Result<Poll<Result<Sent, Fault>>, ReactError>
    requires known { HasSource reactor.old.core key }
    requires unready { fresh reactor.old.core key dir.Write ≡ false }
    ensures ends { (ending : Ending Sent) × Ends W.woke (writing key wire task bytes.now)
        (record { events = (O.outer outside.old).events; core = reactor.old.core; wakes = wakes.old })
        (record { events = (O.outer outside.new).events; core = reactor.new.core; wakes = wakes.new }) result ending }
    ensures ready { IfReady result (IsWritten (length bytes.now)) }
    ensures stored { OnPending result (IsStored reactor.new.core key dir.Write task) }
    ensures steps { CoreSteps reactor.old.core reactor.new.core }
    ensures err { OnErr result (reactor.new.core ≡ reactor.old.core × wakes.new ≡ wakes.old) }
    ensures reports { reactor.new.events ≡ reactor.old.events }
    ensures cause { WireCounted result ((O.outer outside.old).wire_faults wire)
        ((O.outer outside.new).wire_faults wire) }
    ensures poller { ReactCounted result (O.outer outside.old).poller_faults (O.outer outside.new).poller_faults }
    ensures memory { OnPollLack result ((O.outer outside.old).ample ≡ false) }
    ensures clock { (O.outer outside.new).moment ≡ (O.outer outside.old).moment }
    ensures dials { (O.outer outside.new).dial_faults ≡ (O.outer outside.old).dial_faults }
    ensures keeps { Keeps (part.Visit wire) (O.outer outside.old) (O.outer outside.new) }
{
    if let Some(second) = write_once(outside, wire, bytes) {
        return Ok(Poll::Ready(second));
    }
    // Its interest was forgotten when it was ready, so that this one is pending.
    reactor.poll_ready(outside, wakes, key, Dir::Write, task)?;
    Ok(Poll::Pending)
}

/// Offers a wire a piece, for a task that is to be woken otherwise when the source under this key can be written.
///
/// It goes as `poll_read` does, with the other direction. Ready: what the wire answered last, which never is that it
/// isn't ready; its fault is handed on. Pending: neither the wire is ready nor the source, and the task waits.
///
/// Poller: the poller refused to report the source. OutOfMemory: there was no memory for that report. The task doesn't
/// wait then, and the reactor stays as it was after every `Err`, but that a readiness that was used up stays so.
pub(crate) fn poll_write<O: Wire + Registrar, W: Wakes>(
    reactor: &mut Reactor,
    outside: &mut O,
    wakes: &mut W,
    key: usize,
    wire: u32,
    bytes: &[u8],
    task: u64,
) -> Result<Poll<Result<Sent, Fault>>, ReactError>
    requires { HasSource reactor.old.core key }
    ensures goes { (course : Course Sent) × Goes W.woke (writing key wire task bytes.now)
        (record { events = (O.outer outside.old).events; core = reactor.old.core; wakes = wakes.old })
        (record { events = (O.outer outside.new).events; core = reactor.new.core; wakes = wakes.new }) result course }
    ensures twice { AsksAtMostTwice (fresh reactor.old.core key dir.Write)
        (send_told wire bytes.now (Ok sent.NotReady)) (O.outer outside.old).events (O.outer outside.new).events }
    ensures ready { IfReady result (IsWritten (length bytes.now)) }
    ensures stored { OnPending result (IsStored reactor.new.core key dir.Write task) }
    ensures steps { CoreSteps reactor.old.core reactor.new.core }
    ensures err { OnErr result (reactor.new.core ≡ without_readiness reactor.old.core key dir.Write task
        × wakes.new ≡ wakes.old) }
    ensures reports { reactor.new.events ≡ reactor.old.events }
    ensures cause { WireCounted result ((O.outer outside.old).wire_faults wire)
        ((O.outer outside.new).wire_faults wire) }
    ensures poller { ReactCounted result (O.outer outside.old).poller_faults (O.outer outside.new).poller_faults }
    ensures memory { OnPollLack result ((O.outer outside.old).ample ≡ false) }
    ensures clock { (O.outer outside.new).moment ≡ (O.outer outside.old).moment }
    ensures dials { (O.outer outside.new).dial_faults ≡ (O.outer outside.old).dial_faults }
    ensures keeps { Keeps (part.Visit wire) (O.outer outside.old) (O.outer outside.new) }
{
    if let Some(first) = write_once(outside, wire, bytes) {
        return Ok(Poll::Ready(first));
    }
    match reactor.poll_ready(outside, wakes, key, Dir::Write, task)? {
        Poll::Ready(()) => write_or_wait(reactor, outside, wakes, key, wire, bytes, task),
        Poll::Pending => Ok(Poll::Pending),
    }
}

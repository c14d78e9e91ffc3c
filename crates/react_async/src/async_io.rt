//! A handle beside a registered source.
ghost use Rattle.std.specs.Prelude.{◌≡◌, ℕ, ◌==◌, false, if◌then◌else◌, None, Some, [], IfOk, IfErr, OnOk, OnErr};
ghost use Rattle.react_core.specs.Causes.{ReactCounted, OnReactLack};
ghost use Rattle.react_core.specs.Core.{HasSource};
ghost use Rattle.react_core.specs.Outer.{Keeps};
ghost use Rattle.react_core.specs.Outer as part;
ghost use Rattle.react_core.specs.Sources.{source_of};
ghost use Rattle.react_core.specs.Steps.{CoreSteps};

use crate::polled;
use futures::task::Poll;
use react_core::outside::{Fault, Received, Registrar, Sent, Wakes, Wire};
use react_core::reactor::{Dir, ReactError, Reactor};
use std::alloc::Global;
use std::marker::Model;

/// A handle beside a registered source. Dropping it leaves its source in the reactor; `into_inner` ends both.
#[derive(Drop)]
pub struct Async<T> {
    io: T,
    key: usize,
    wire: u32,
}

impl<T> Model for Async<T> {
    ghost use Rattle.react_async.specs.Registered.{Registered};

    ghost Value = { Registered T };

    ghost view = { λ a. record { io = a.io; key = a.key; wire = a.wire } };
}

impl<T> Async<T> {
    ghost use Rattle.react_core.specs.Causes.{InsertTold};
    ghost use Rattle.react_core.specs.Core.{inserted, removed};
    ghost use Rattle.react_core.specs.Sources.{new_source};
    ghost use Rattle.react_core.specs.Step.{Step, Insert, Done};
    ghost use Rattle.react_async.specs.Registered.{insertion};

    /// Registers a wire with the poller, for this handle, under a key that no source has.
    ///
    /// Every `Err` gives the handle back, and the reactor stays as it was. Poller: the registration failed.
    pub fn new<R: Registrar>(
        alloc: Global,
        reactor: &mut Reactor,
        registrar: &mut R,
        wire: u32,
        io: T,
    ) -> Result<Async<T>, (T, ReactError)>
        ensures handle { IfOk result (λ made. made.io ≡ io) }
        ensures wire { IfOk result (λ made. made.wire ≡ wire) }
        ensures free { IfOk result (λ made. source_of reactor.old.core.sources made.key ≡ None) }
        ensures steps { CoreSteps reactor.old.core reactor.new.core }
        ensures step { IfOk result (λ made.
            Step reactor.old.core (Insert wire made.key) Done [] reactor.new.core) }
        ensures inserted { IfOk result (λ made.
            reactor.new ≡ record reactor.old { core = inserted reactor.old.core made.key wire }) }
        ensures undone { IfOk result (λ made. removed reactor.new.core made.key ≡ reactor.old.core) }
        ensures others { IfOk result (λ made. (other : ℕ) → source_of reactor.new.core.sources other ≡
            (if made.key == other then Some (new_source wire) else source_of reactor.old.core.sources other)) }
        ensures back { IfErr result (λ refusal. refusal.0 ≡ io) }
        ensures err { OnErr result (reactor.new ≡ reactor.old) }
        ensures told { InsertTold reactor.old.core wire (insertion result) (R.outer registrar.old).events
            (R.outer registrar.new).events }
        ensures cause { ReactCounted (insertion result) (R.outer registrar.old).poller_faults
            (R.outer registrar.new).poller_faults }
        ensures reports { reactor.new.events ≡ reactor.old.events }
        ensures keeps { Keeps part.Poller (R.outer registrar.old) (R.outer registrar.new) }
    {
        match reactor.insert_io(alloc, registrar, wire) {
            Ok(key) => Ok(Async { io, key, wire }),
            Err(error) => Err((io, error)),
        }
    }

    /// Registers as `new` does, a handle that never waits. Here `new` asks the handle for nothing either, so that the
    /// two are the same.
    ///
    /// Every `Err` gives the handle back, and the reactor stays as it was. Poller: the registration failed.
    pub fn new_nonblocking<R: Registrar>(
        alloc: Global,
        reactor: &mut Reactor,
        registrar: &mut R,
        wire: u32,
        io: T,
    ) -> Result<Async<T>, (T, ReactError)>
        ensures handle { IfOk result (λ made. made.io ≡ io) }
        ensures wire { IfOk result (λ made. made.wire ≡ wire) }
        ensures free { IfOk result (λ made. source_of reactor.old.core.sources made.key ≡ None) }
        ensures steps { CoreSteps reactor.old.core reactor.new.core }
        ensures step { IfOk result (λ made.
            Step reactor.old.core (Insert wire made.key) Done [] reactor.new.core) }
        ensures inserted { IfOk result (λ made.
            reactor.new ≡ record reactor.old { core = inserted reactor.old.core made.key wire }) }
        ensures undone { IfOk result (λ made. removed reactor.new.core made.key ≡ reactor.old.core) }
        ensures others { IfOk result (λ made. (other : ℕ) → source_of reactor.new.core.sources other ≡
            (if made.key == other then Some (new_source wire) else source_of reactor.old.core.sources other)) }
        ensures back { IfErr result (λ refusal. refusal.0 ≡ io) }
        ensures err { OnErr result (reactor.new ≡ reactor.old) }
        ensures told { InsertTold reactor.old.core wire (insertion result) (R.outer registrar.old).events
            (R.outer registrar.new).events }
        ensures cause { ReactCounted (insertion result) (R.outer registrar.old).poller_faults
            (R.outer registrar.new).poller_faults }
        ensures reports { reactor.new.events ≡ reactor.old.events }
        ensures keeps { Keeps part.Poller (R.outer registrar.old) (R.outer registrar.new) }
    {
        Async::new(alloc, reactor, registrar, wire, io)
    }

    /// The handle.
    pub fn get_ref(&self) -> &T
        ensures { result.now ≡ self.now.io }
    {
        &self.io
    }

    /// The key of the source.
    pub fn key(&self) -> usize
        ensures { result ≡ self.now.key }
    {
        self.key
    }

    /// The number of the wire.
    pub fn wire(&self) -> u32
        ensures { result ≡ self.now.wire }
    {
        self.wire
    }
}

impl<T> Async<T> {
    ghost use Rattle.react_core.specs.Causes.{RemoveTold};
    ghost use Rattle.react_core.specs.Core.{removed};
    ghost use Rattle.react_core.specs.Step.{Step, Remove, Done};

    /// Takes the source out, with all that waits for it, and gives the handle, both in every case.
    ///
    /// Poller: the poller failed to take it out.
    pub fn into_inner<R: Registrar>(
        self,
        reactor: &mut Reactor,
        registrar: &mut R,
    ) -> (T, Result<(), ReactError>)
        requires { HasSource reactor.old.core self.key }
        ensures handle { result.0 ≡ self.io }
        ensures steps { CoreSteps reactor.old.core reactor.new.core }
        ensures step { Step reactor.old.core (Remove self.key) Done [] reactor.new.core }
        ensures removed { reactor.new ≡ record reactor.old { core = removed reactor.old.core self.key } }
        ensures others { (other : ℕ) → source_of reactor.new.core.sources other ≡
            (if self.key == other then None else source_of reactor.old.core.sources other) }
        ensures memory { OnReactLack result.1 ((R.outer registrar.old).ample ≡ false) }
        ensures told { RemoveTold (source_of reactor.old.core.sources self.key) self.key result.1
            (R.outer registrar.old).events (R.outer registrar.new).events }
        ensures cause { ReactCounted result.1 (R.outer registrar.old).poller_faults
            (R.outer registrar.new).poller_faults }
        ensures reports { reactor.new.events ≡ reactor.old.events }
        ensures keeps { Keeps part.Poller (R.outer registrar.old) (R.outer registrar.new) }
    {
        let Async { io, key, wire: _ } = self;
        let removed = reactor.remove_io(registrar, key);
        (io, removed)
    }
}

impl<T> Async<T> {
    ghost use Rattle.std.specs.Prelude.{IsTrue};
    ghost use Rattle.react_core.specs.declared.reactor.Dir.TheVariants.{Read, Write};
    ghost use Rattle.react_core.specs.Readiness.{fresh, is_ready, arms, woken_by, poll_outcome, poll_told};
    ghost use Rattle.react_core.specs.Step.{Step, PolledPoll, Polled, WokeAll};
    ghost use Rattle.react_core.specs.Told.{told};

    /// Asks whether the source is ready to be read, for a task that is to be woken otherwise.
    ///
    /// Ready exactly where a round that was begun after this interest was last begun has reported the direction; the
    /// interest is then forgotten. Else Pending: the same task stays as it is. A different task takes the stored one's
    /// place, the stored one is woken, and the interest begins anew. Where no task waited for the direction, the poller
    /// is asked to report all directions that a task waits for.
    ///
    /// Poller: the poller refused. The reactor stays as it was after every `Err`.
    pub fn poll_readable<R: Registrar, W: Wakes>(
        &self,
        reactor: &mut Reactor,
        registrar: &mut R,
        wakes: &mut W,
        task: u64,
    ) -> Result<Poll<()>, ReactError>
        requires { HasSource reactor.old.core self.now.key }
        ensures ready { IfOk result (λ answer. is_ready answer ≡ fresh reactor.old.core self.now.key Read) }
        ensures steps { CoreSteps reactor.old.core reactor.new.core }
        ensures step { IfOk result (λ answer. Step reactor.old.core (PolledPoll self.now.key Read task) (Polled answer)
            (woken_by (poll_outcome reactor.old.core self.now.key Read task)) reactor.new.core) }
        ensures woken { OnOk result (WokeAll W.woke wakes.old
            (woken_by (poll_outcome reactor.old.core self.now.key Read task)) wakes.new) }
        ensures err { OnErr result (reactor.new ≡ reactor.old × wakes.new ≡ wakes.old) }
        ensures memory { OnReactLack result ((R.outer registrar.old).ample ≡ false) }
        ensures refused { OnErr result (IsTrue (arms (poll_outcome reactor.old.core self.now.key Read task))) }
        ensures told { (R.outer registrar.new).events ≡ told (R.outer registrar.old).events
            (poll_told reactor.old.core self.now.key Read task result) }
        ensures cause { ReactCounted result (R.outer registrar.old).poller_faults
            (R.outer registrar.new).poller_faults }
        ensures reports { reactor.new.events ≡ reactor.old.events }
        ensures keeps { Keeps part.Poller (R.outer registrar.old) (R.outer registrar.new) }
    {
        reactor.poll_ready(registrar, wakes, self.key, Dir::Read, task)
    }

    /// Asks whether the source is ready to be written, as `poll_readable` asks whether it is ready to be read.
    ///
    /// Poller: the poller refused. The reactor stays as it was after every `Err`.
    pub fn poll_writable<R: Registrar, W: Wakes>(
        &self,
        reactor: &mut Reactor,
        registrar: &mut R,
        wakes: &mut W,
        task: u64,
    ) -> Result<Poll<()>, ReactError>
        requires { HasSource reactor.old.core self.now.key }
        ensures ready { IfOk result (λ answer. is_ready answer ≡ fresh reactor.old.core self.now.key Write) }
        ensures steps { CoreSteps reactor.old.core reactor.new.core }
        ensures step { IfOk result (λ answer. Step reactor.old.core (PolledPoll self.now.key Write task) (Polled answer)
            (woken_by (poll_outcome reactor.old.core self.now.key Write task)) reactor.new.core) }
        ensures woken { OnOk result (WokeAll W.woke wakes.old
            (woken_by (poll_outcome reactor.old.core self.now.key Write task)) wakes.new) }
        ensures err { OnErr result (reactor.new ≡ reactor.old × wakes.new ≡ wakes.old) }
        ensures memory { OnReactLack result ((R.outer registrar.old).ample ≡ false) }
        ensures refused { OnErr result (IsTrue (arms (poll_outcome reactor.old.core self.now.key Write task))) }
        ensures told { (R.outer registrar.new).events ≡ told (R.outer registrar.old).events
            (poll_told reactor.old.core self.now.key Write task result) }
        ensures cause { ReactCounted result (R.outer registrar.old).poller_faults
            (R.outer registrar.new).poller_faults }
        ensures reports { reactor.new.events ≡ reactor.old.events }
        ensures keeps { Keeps part.Poller (R.outer registrar.old) (R.outer registrar.new) }
    {
        reactor.poll_ready(registrar, wakes, self.key, Dir::Write, task)
    }
}

impl<T> Async<T> {
    ghost use Rattle.futures.specs.declared.task.Poll.TheVariants.{Ready};

    /// Ready at once: a handle keeps nothing back that was written. It asks nothing.
    pub fn poll_flush(&self) -> Poll<()>
        ensures { result ≡ Ready tt }
    {
        Poll::Ready(())
    }

    /// Ready at once: the source stays until `into_inner`. It asks nothing.
    pub fn poll_close(&self) -> Poll<()>
        ensures { result ≡ Ready tt }
    {
        Poll::Ready(())
    }
}

impl<T> Async<T> {
    ghost use Rattle.std.specs.Prelude.{Ok, length};
    ghost use Rattle.react_core.specs.declared.outside.Received.TheVariants as received;
    ghost use Rattle.react_core.specs.declared.outside.Sent.TheVariants as sent;
    ghost use Rattle.react_core.specs.declared.reactor.Dir.TheVariants as dir;
    ghost use Rattle.react_core.specs.Readiness.{fresh};
    ghost use Rattle.react_core.specs.Told.{recv_told, send_told};
    ghost use Rattle.react_async.specs.Polls.{reading, writing, Course, Goes, IfReady, OnPending, WireCounted};
    ghost use Rattle.react_async.specs.Polls.{OnPollLack, IsStored, IsRead, IsWritten, without_readiness};
    ghost use Rattle.react_async.specs.Telling.{AsksAtMostTwice};

    /// Reads from the wire, for a task that is to be woken otherwise when the source can be read.
    ///
    /// The wire is asked first. Only where it isn't ready the source's readiness is polled, and only where that is
    /// ready the wire is asked once more. Ready: what the wire answered last, which never is that it isn't ready; its
    /// fault is handed on. Pending: neither the wire is ready nor the source, and the task waits for the source. Where
    /// the wire isn't ready although its source was, that readiness is used up, so the source is polled again, for the
    /// task to wait: it is pending then.
    ///
    /// Poller: the poller refused to report the source. OutOfMemory: there was no memory for that report. The task
    /// doesn't wait then, and the reactor stays as it was after every `Err`, but that a readiness that was used up stays
    /// so.
    pub fn poll_read<O: Wire + Registrar, W: Wakes>(
        &self,
        reactor: &mut Reactor,
        outside: &mut O,
        wakes: &mut W,
        into: &mut [u8],
        task: u64,
    ) -> Result<Poll<Result<Received, Fault>>, ReactError>
        requires { HasSource reactor.old.core self.now.key }
        ensures goes { (course : Course Received) × Goes W.woke (reading self.now.key self.now.wire task into.new)
            (record { events = (O.outer outside.old).events; core = reactor.old.core; wakes = wakes.old })
            (record { events = (O.outer outside.new).events; core = reactor.new.core; wakes = wakes.new }) result
            course }
        ensures twice { AsksAtMostTwice (fresh reactor.old.core self.now.key dir.Read)
            (recv_told self.now.wire into.new (Ok received.NotReady)) (O.outer outside.old).events
            (O.outer outside.new).events }
        ensures ready { IfReady result (IsRead (length into.old)) }
        ensures room { length into.new ≡ length into.old }
        ensures stored { OnPending result (IsStored reactor.new.core self.now.key dir.Read task) }
        ensures steps { CoreSteps reactor.old.core reactor.new.core }
        ensures err { OnErr result (reactor.new.core ≡ without_readiness reactor.old.core self.now.key dir.Read task
            × wakes.new ≡ wakes.old) }
        ensures reports { reactor.new.events ≡ reactor.old.events }
        ensures cause { WireCounted result ((O.outer outside.old).wire_faults self.now.wire)
            ((O.outer outside.new).wire_faults self.now.wire) }
        ensures poller { ReactCounted result (O.outer outside.old).poller_faults (O.outer outside.new).poller_faults }
        ensures memory { OnPollLack result ((O.outer outside.old).ample ≡ false) }
        ensures clock { (O.outer outside.new).moment ≡ (O.outer outside.old).moment }
        ensures dials { (O.outer outside.new).dial_faults ≡ (O.outer outside.old).dial_faults }
        ensures keeps { Keeps (part.Visit self.now.wire) (O.outer outside.old) (O.outer outside.new) }
    {
        polled::poll_read(reactor, outside, wakes, self.key, self.wire, into, task)
    }

    /// Offers the wire a piece, for a task that is to be woken otherwise when the source can be written.
    ///
    /// It goes as `poll_read` does, with the other direction. Ready: what the wire answered last, which never is that
    /// it isn't ready; its fault is handed on. Pending: neither the wire is ready nor the source, and the task waits.
    ///
    /// Poller: the poller refused to report the source. OutOfMemory: there was no memory for that report. The task
    /// doesn't wait then, and the reactor stays as it was after every `Err`, but that a readiness that was used up stays
    /// so.
    pub fn poll_write<O: Wire + Registrar, W: Wakes>(
        &self,
        reactor: &mut Reactor,
        outside: &mut O,
        wakes: &mut W,
        bytes: &[u8],
        task: u64,
    ) -> Result<Poll<Result<Sent, Fault>>, ReactError>
        requires { HasSource reactor.old.core self.now.key }
        ensures goes { (course : Course Sent) × Goes W.woke (writing self.now.key self.now.wire task bytes.now)
            (record { events = (O.outer outside.old).events; core = reactor.old.core; wakes = wakes.old })
            (record { events = (O.outer outside.new).events; core = reactor.new.core; wakes = wakes.new }) result
            course }
        ensures twice { AsksAtMostTwice (fresh reactor.old.core self.now.key dir.Write)
            (send_told self.now.wire bytes.now (Ok sent.NotReady)) (O.outer outside.old).events
            (O.outer outside.new).events }
        ensures ready { IfReady result (IsWritten (length bytes.now)) }
        ensures stored { OnPending result (IsStored reactor.new.core self.now.key dir.Write task) }
        ensures steps { CoreSteps reactor.old.core reactor.new.core }
        ensures err { OnErr result (reactor.new.core ≡ without_readiness reactor.old.core self.now.key dir.Write task
            × wakes.new ≡ wakes.old) }
        ensures reports { reactor.new.events ≡ reactor.old.events }
        ensures cause { WireCounted result ((O.outer outside.old).wire_faults self.now.wire)
            ((O.outer outside.new).wire_faults self.now.wire) }
        ensures poller { ReactCounted result (O.outer outside.old).poller_faults (O.outer outside.new).poller_faults }
        ensures memory { OnPollLack result ((O.outer outside.old).ample ≡ false) }
        ensures clock { (O.outer outside.new).moment ≡ (O.outer outside.old).moment }
        ensures dials { (O.outer outside.new).dial_faults ≡ (O.outer outside.old).dial_faults }
        ensures keeps { Keeps (part.Visit self.now.wire) (O.outer outside.old) (O.outer outside.new) }
    {
        polled::poll_write(reactor, outside, wakes, self.key, self.wire, bytes, task)
    }
}

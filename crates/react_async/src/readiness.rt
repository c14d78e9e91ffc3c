//! The futures that wait until a source is ready.
ghost use Rattle.std.specs.Prelude.{◌≡◌, false, None, Some, IsSome, [], IfOk, OnOk, OnErr};
ghost use Rattle.futures.specs.declared.task.Poll.TheVariants.{Pending};
ghost use Rattle.react_core.specs.declared.reactor.Dir.TheVariants.{Read, Write};
ghost use Rattle.react_core.specs.Causes.{ReactCounted, OnReactLack};
ghost use Rattle.react_core.specs.Core.{HasSource};
ghost use Rattle.react_core.specs.Futures.{direction_at, future_fresh, IsFutureRefusal};
ghost use Rattle.react_core.specs.Outer.{Keeps};
ghost use Rattle.react_core.specs.Outer as part;
ghost use Rattle.react_core.specs.Readiness.{is_ready};
ghost use Rattle.react_core.specs.Step.{Step, FuturePoll, Polled};
ghost use Rattle.react_core.specs.Steps.{CoreSteps};
ghost use Rattle.react_core.specs.Told.{told};
ghost use Rattle.react_async.specs.Waits.{held, entry, waits, place_of, given_up, waiting_told, KeepsPlace, Ends};

use crate::async_io::Async;
use futures::task::Poll;
use react_core::outside::Registrar;
use react_core::reactor::{Dir, ReactError, Reactor};
use std::alloc::Global;
use std::marker::Model;
use std::rc::Rc;

/// Polls the future of this direction that keeps this place, which is its own from its first poll on.
///
/// The place and the reactor stay as they were after every `Err`.
pub(crate) fn poll_kept<R: Registrar>(
    alloc: Global,
    reactor: &mut Reactor,
    registrar: &mut R,
    key: usize,
    dir: Dir,
    place: &mut Option<usize>,
    task: u64,
) -> Result<Poll<()>, ReactError>
    requires { HasSource reactor.old.core key }
    ensures place { OnOk result (KeepsPlace reactor.old.core dir (waits key place.old) (waits key place.new)) }
    ensures ready { IfOk result (λ answer.
        is_ready answer ≡ future_fresh reactor.old.core key dir (place_of (waits key place.new))) }
    ensures first { held reactor.old.core dir (waits key place.old) ≡ None →
        IfOk result (λ answer. answer ≡ Pending) }
    ensures steps { CoreSteps reactor.old.core reactor.new.core }
    ensures step { IfOk result (λ answer. Step reactor.old.core
        (FuturePoll key dir (place_of (waits key place.new)) task) (Polled answer) [] reactor.new.core) }
    ensures err { OnErr result (place.new ≡ place.old × reactor.new ≡ reactor.old) }
    ensures memory { IsSome (held reactor.old.core dir (waits key place.old)) →
        OnReactLack result ((R.outer registrar.old).ample ≡ false) }
    ensures refused { IsFutureRefusal result (direction_at reactor.old.core key dir)
        (entry reactor.old.core dir (waits key place.old)) }
    ensures told { (R.outer registrar.new).events ≡ told (R.outer registrar.old).events
        (waiting_told reactor.old.core dir (waits key place.new) result) }
    ensures cause { ReactCounted result (R.outer registrar.old).poller_faults (R.outer registrar.new).poller_faults }
    ensures reports { reactor.new.events ≡ reactor.old.events }
    ensures keeps { Keeps part.Poller (R.outer registrar.old) (R.outer registrar.new) }
{
    let (at, answer) = reactor.poll_future(alloc, registrar, key, dir, *place, task)?;
    *place = Some(at);
    Ok(answer)
}

/// Ends the future of this direction that keeps this place.
pub(crate) fn cancel_kept(reactor: &mut Reactor, key: usize, dir: Dir, place: Option<usize>)
    ensures core { reactor.new ≡ record reactor.old { core = given_up reactor.old.core dir (waits key place) } }
    ensures absent { entry reactor.old.core dir (waits key place) ≡ None → reactor.new ≡ reactor.old }
    ensures gone { entry reactor.new.core dir (waits key place) ≡ None }
    ensures stays { HasSource reactor.old.core key → HasSource reactor.new.core key }
    ensures steps { CoreSteps reactor.old.core reactor.new.core }
    ensures step { Ends reactor.old.core dir (waits key place) reactor.new.core }
{
    if let Some(place) = place {
        reactor.cancel_future(key, dir, place);
    }
}

/// The future of a source that waits until it is ready to be read. Dropping it leaves its place taken.
pub struct Readable<'a, T> {
    source: &'a Async<T>,
    place: Option<usize>,
}

impl<'a, T> Model for Readable<'a, T> {
    ghost use Rattle.react_async.specs.Waits.{Waits};

    ghost Value = { Waits };

    ghost view = { λ f. record { key = f.source.now.key; place = f.place } };
}

// Written out: it lends the handle, which it doesn't drop.
impl<'a, T> Drop for Readable<'a, T> {
    fn drop(self) {
        let Readable {
            source: _,
            place: _,
        } = self;
    }
}

/// The future of a source that waits until it is ready to be written. Dropping it leaves its place taken.
pub struct Writable<'a, T> {
    source: &'a Async<T>,
    place: Option<usize>,
}

impl<'a, T> Model for Writable<'a, T> {
    ghost use Rattle.react_async.specs.Waits.{Waits};

    ghost Value = { Waits };

    ghost view = { λ f. record { key = f.source.now.key; place = f.place } };
}

// Written out: it lends the handle, which it doesn't drop.
impl<'a, T> Drop for Writable<'a, T> {
    fn drop(self) {
        let Writable {
            source: _,
            place: _,
        } = self;
    }
}

/// A `Readable` that owns its share of the handle.
#[derive(Drop)]
pub struct ReadableOwned<T> {
    source: Rc<Async<T>>,
    place: Option<usize>,
}

impl<T> Model for ReadableOwned<T> {
    ghost use Rattle.react_async.specs.Waits.{Waits};

    ghost Value = { Waits };

    ghost view = { λ f. record { key = f.source.value.key; place = f.place } };
}

/// A `Writable` that owns its share of the handle.
#[derive(Drop)]
pub struct WritableOwned<T> {
    source: Rc<Async<T>>,
    place: Option<usize>,
}

impl<T> Model for WritableOwned<T> {
    ghost use Rattle.react_async.specs.Waits.{Waits};

    ghost Value = { Waits };

    ghost view = { λ f. record { key = f.source.value.key; place = f.place } };
}

impl<T> Async<T> {
    /// A future that waits until the source is ready to be read. It has no place yet.
    pub fn readable(&self) -> Readable<'_, T>
        ensures { result ≡ record { key = self.now.key; place = None } }
    {
        Readable {
            source: self,
            place: None,
        }
    }

    /// A future that waits until the source is ready to be written. It has no place yet.
    pub fn writable(&self) -> Writable<'_, T>
        ensures { result ≡ record { key = self.now.key; place = None } }
    {
        Writable {
            source: self,
            place: None,
        }
    }

    /// A `readable` that owns its share of the handle.
    pub fn readable_owned(this: Rc<Async<T>>) -> ReadableOwned<T>
        ensures { result ≡ record { key = this.value.key; place = None } }
    {
        ReadableOwned {
            source: this,
            place: None,
        }
    }

    /// A `writable` that owns its share of the handle.
    pub fn writable_owned(this: Rc<Async<T>>) -> WritableOwned<T>
        ensures { result ≡ record { key = this.value.key; place = None } }
    {
        WritableOwned {
            source: this,
            place: None,
        }
    }
}

impl<'a, T> Readable<'a, T> {
    /// Asks whether the source is ready to be read, for a task that is to be woken otherwise.
    ///
    /// The first poll takes a free place at the source for the future, and is Pending. A later one is Ready exactly
    /// where a round that was begun after the first has reported the direction, and stays so; while it is Pending its
    /// task is stored in place of the last poll's, which nobody wakes. Where no task waited for the direction, the
    /// poller is asked to report all directions that a task waits for. Where the source doesn't hold the future's
    /// place, as after a removal of the source, this is a first poll again.
    ///
    /// Poller: the poller refused. The future and the reactor stay as they were after every `Err`.
    pub fn poll<R: Registrar>(
        &mut self,
        alloc: Global,
        reactor: &mut Reactor,
        registrar: &mut R,
        task: u64,
    ) -> Result<Poll<()>, ReactError>
        requires { HasSource reactor.old.core self.old.key }
        ensures key { self.new.key ≡ self.old.key }
        ensures place { OnOk result (KeepsPlace reactor.old.core Read self.old self.new) }
        ensures ready { IfOk result (λ answer.
            is_ready answer ≡ future_fresh reactor.old.core self.old.key Read (place_of self.new)) }
        ensures first { held reactor.old.core Read self.old ≡ None → IfOk result (λ answer. answer ≡ Pending) }
        ensures steps { CoreSteps reactor.old.core reactor.new.core }
        ensures step { IfOk result (λ answer. Step reactor.old.core
            (FuturePoll self.old.key Read (place_of self.new) task) (Polled answer) [] reactor.new.core) }
        ensures err { OnErr result (self.new ≡ self.old × reactor.new ≡ reactor.old) }
        ensures memory { IsSome (held reactor.old.core Read self.old) →
            OnReactLack result ((R.outer registrar.old).ample ≡ false) }
        ensures refused { IsFutureRefusal result (direction_at reactor.old.core self.old.key Read)
            (entry reactor.old.core Read self.old) }
        ensures told { (R.outer registrar.new).events ≡ told (R.outer registrar.old).events
            (waiting_told reactor.old.core Read self.new result) }
        ensures cause { ReactCounted result (R.outer registrar.old).poller_faults
            (R.outer registrar.new).poller_faults }
        ensures reports { reactor.new.events ≡ reactor.old.events }
        ensures keeps { Keeps part.Poller (R.outer registrar.old) (R.outer registrar.new) }
    {
        poll_kept(
            alloc,
            reactor,
            registrar,
            self.source.key(),
            Dir::Read,
            &mut self.place,
            task,
        )
    }

    /// Ends the future: takes its place out of the source. It wakes nobody, and the poller isn't asked.
    ///
    /// Where the future was never polled, or its source doesn't hold its place, this changes nothing.
    pub fn cancel(self, reactor: &mut Reactor)
        ensures core { reactor.new ≡ record reactor.old { core = given_up reactor.old.core Read self.entry } }
        ensures absent { entry reactor.old.core Read self.entry ≡ None → reactor.new ≡ reactor.old }
        ensures gone { entry reactor.new.core Read self.entry ≡ None }
        ensures steps { CoreSteps reactor.old.core reactor.new.core }
        ensures step { Ends reactor.old.core Read self.entry reactor.new.core }
    {
        cancel_kept(reactor, self.source.key(), Dir::Read, self.place);
    }
}

impl<'a, T> Writable<'a, T> {
    /// Asks whether the source is ready to be written, as `Readable::poll` does.
    ///
    /// Poller: the poller refused. The future and the reactor stay as they were after every `Err`.
    pub fn poll<R: Registrar>(
        &mut self,
        alloc: Global,
        reactor: &mut Reactor,
        registrar: &mut R,
        task: u64,
    ) -> Result<Poll<()>, ReactError>
        requires { HasSource reactor.old.core self.old.key }
        ensures key { self.new.key ≡ self.old.key }
        ensures place { OnOk result (KeepsPlace reactor.old.core Write self.old self.new) }
        ensures ready { IfOk result (λ answer.
            is_ready answer ≡ future_fresh reactor.old.core self.old.key Write (place_of self.new)) }
        ensures first { held reactor.old.core Write self.old ≡ None → IfOk result (λ answer. answer ≡ Pending) }
        ensures steps { CoreSteps reactor.old.core reactor.new.core }
        ensures step { IfOk result (λ answer. Step reactor.old.core
            (FuturePoll self.old.key Write (place_of self.new) task) (Polled answer) [] reactor.new.core) }
        ensures err { OnErr result (self.new ≡ self.old × reactor.new ≡ reactor.old) }
        ensures memory { IsSome (held reactor.old.core Write self.old) →
            OnReactLack result ((R.outer registrar.old).ample ≡ false) }
        ensures refused { IsFutureRefusal result (direction_at reactor.old.core self.old.key Write)
            (entry reactor.old.core Write self.old) }
        ensures told { (R.outer registrar.new).events ≡ told (R.outer registrar.old).events
            (waiting_told reactor.old.core Write self.new result) }
        ensures cause { ReactCounted result (R.outer registrar.old).poller_faults
            (R.outer registrar.new).poller_faults }
        ensures reports { reactor.new.events ≡ reactor.old.events }
        ensures keeps { Keeps part.Poller (R.outer registrar.old) (R.outer registrar.new) }
    {
        poll_kept(
            alloc,
            reactor,
            registrar,
            self.source.key(),
            Dir::Write,
            &mut self.place,
            task,
        )
    }

    /// Ends the future, as `Readable::cancel` does.
    pub fn cancel(self, reactor: &mut Reactor)
        ensures core { reactor.new ≡ record reactor.old { core = given_up reactor.old.core Write self.entry } }
        ensures absent { entry reactor.old.core Write self.entry ≡ None → reactor.new ≡ reactor.old }
        ensures gone { entry reactor.new.core Write self.entry ≡ None }
        ensures steps { CoreSteps reactor.old.core reactor.new.core }
        ensures step { Ends reactor.old.core Write self.entry reactor.new.core }
    {
        cancel_kept(reactor, self.source.key(), Dir::Write, self.place);
    }
}

impl<T> ReadableOwned<T> {
    /// Asks whether the source is ready to be read, as `Readable::poll` does.
    ///
    /// Poller: the poller refused. The future and the reactor stay as they were after every `Err`.
    pub fn poll<R: Registrar>(
        &mut self,
        alloc: Global,
        reactor: &mut Reactor,
        registrar: &mut R,
        task: u64,
    ) -> Result<Poll<()>, ReactError>
        requires { HasSource reactor.old.core self.old.key }
        ensures key { self.new.key ≡ self.old.key }
        ensures place { OnOk result (KeepsPlace reactor.old.core Read self.old self.new) }
        ensures ready { IfOk result (λ answer.
            is_ready answer ≡ future_fresh reactor.old.core self.old.key Read (place_of self.new)) }
        ensures first { held reactor.old.core Read self.old ≡ None → IfOk result (λ answer. answer ≡ Pending) }
        ensures steps { CoreSteps reactor.old.core reactor.new.core }
        ensures step { IfOk result (λ answer. Step reactor.old.core
            (FuturePoll self.old.key Read (place_of self.new) task) (Polled answer) [] reactor.new.core) }
        ensures err { OnErr result (self.new ≡ self.old × reactor.new ≡ reactor.old) }
        ensures memory { IsSome (held reactor.old.core Read self.old) →
            OnReactLack result ((R.outer registrar.old).ample ≡ false) }
        ensures refused { IsFutureRefusal result (direction_at reactor.old.core self.old.key Read)
            (entry reactor.old.core Read self.old) }
        ensures told { (R.outer registrar.new).events ≡ told (R.outer registrar.old).events
            (waiting_told reactor.old.core Read self.new result) }
        ensures cause { ReactCounted result (R.outer registrar.old).poller_faults
            (R.outer registrar.new).poller_faults }
        ensures reports { reactor.new.events ≡ reactor.old.events }
        ensures keeps { Keeps part.Poller (R.outer registrar.old) (R.outer registrar.new) }
    {
        poll_kept(
            alloc,
            reactor,
            registrar,
            self.source.key(),
            Dir::Read,
            &mut self.place,
            task,
        )
    }
}

impl<T: Drop> ReadableOwned<T> {
    /// Ends the future, as `Readable::cancel` does.
    pub fn cancel(self, reactor: &mut Reactor)
        ensures core { reactor.new ≡ record reactor.old { core = given_up reactor.old.core Read self } }
        ensures absent { entry reactor.old.core Read self ≡ None → reactor.new ≡ reactor.old }
        ensures gone { entry reactor.new.core Read self ≡ None }
        ensures steps { CoreSteps reactor.old.core reactor.new.core }
        ensures step { Ends reactor.old.core Read self reactor.new.core }
    {
        cancel_kept(reactor, self.source.key(), Dir::Read, self.place);
    }
}

impl<T> WritableOwned<T> {
    /// Asks whether the source is ready to be written, as `Readable::poll` does.
    ///
    /// Poller: the poller refused. The future and the reactor stay as they were after every `Err`.
    pub fn poll<R: Registrar>(
        &mut self,
        alloc: Global,
        reactor: &mut Reactor,
        registrar: &mut R,
        task: u64,
    ) -> Result<Poll<()>, ReactError>
        requires { HasSource reactor.old.core self.old.key }
        ensures key { self.new.key ≡ self.old.key }
        ensures place { OnOk result (KeepsPlace reactor.old.core Write self.old self.new) }
        ensures ready { IfOk result (λ answer.
            is_ready answer ≡ future_fresh reactor.old.core self.old.key Write (place_of self.new)) }
        ensures first { held reactor.old.core Write self.old ≡ None → IfOk result (λ answer. answer ≡ Pending) }
        ensures steps { CoreSteps reactor.old.core reactor.new.core }
        ensures step { IfOk result (λ answer. Step reactor.old.core
            (FuturePoll self.old.key Write (place_of self.new) task) (Polled answer) [] reactor.new.core) }
        ensures err { OnErr result (self.new ≡ self.old × reactor.new ≡ reactor.old) }
        ensures memory { IsSome (held reactor.old.core Write self.old) →
            OnReactLack result ((R.outer registrar.old).ample ≡ false) }
        ensures refused { IsFutureRefusal result (direction_at reactor.old.core self.old.key Write)
            (entry reactor.old.core Write self.old) }
        ensures told { (R.outer registrar.new).events ≡ told (R.outer registrar.old).events
            (waiting_told reactor.old.core Write self.new result) }
        ensures cause { ReactCounted result (R.outer registrar.old).poller_faults
            (R.outer registrar.new).poller_faults }
        ensures reports { reactor.new.events ≡ reactor.old.events }
        ensures keeps { Keeps part.Poller (R.outer registrar.old) (R.outer registrar.new) }
    {
        poll_kept(
            alloc,
            reactor,
            registrar,
            self.source.key(),
            Dir::Write,
            &mut self.place,
            task,
        )
    }
}

impl<T: Drop> WritableOwned<T> {
    /// Ends the future, as `Readable::cancel` does.
    pub fn cancel(self, reactor: &mut Reactor)
        ensures core { reactor.new ≡ record reactor.old { core = given_up reactor.old.core Write self } }
        ensures absent { entry reactor.old.core Write self ≡ None → reactor.new ≡ reactor.old }
        ensures gone { entry reactor.new.core Write self ≡ None }
        ensures steps { CoreSteps reactor.old.core reactor.new.core }
        ensures step { Ends reactor.old.core Write self reactor.new.core }
    {
        cancel_kept(reactor, self.source.key(), Dir::Write, self.place);
    }
}

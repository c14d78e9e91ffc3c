//! Operations that are called again once their source may be ready.
ghost use Rattle.std.specs.Prelude.{◌≡◌, None, IfOk, OnOk, OnErr};
ghost use Rattle.std.specs.Fn.{CalledAt};
ghost use Rattle.react_core.specs.declared.reactor.Dir.TheVariants.{Read, Write};
ghost use Rattle.react_core.specs.Causes.{ReactCounted};
ghost use Rattle.react_core.specs.Core.{HasSource};
ghost use Rattle.react_core.specs.Futures.{direction_at, IsFutureRefusal};
ghost use Rattle.react_core.specs.Outer.{Keeps};
ghost use Rattle.react_core.specs.Outer as part;
ghost use Rattle.react_core.specs.Steps.{CoreSteps};
ghost use Rattle.react_core.specs.Told.{told};
ghost use Rattle.react_async.specs.Operation.{io_answer, operation_told, FirstPoll, OnPending, OnReady};
ghost use Rattle.react_async.specs.Waits.{entry, given_up, waits, Ends};

use crate::async_io::Async;
use crate::readiness::{cancel_kept, poll_kept};
use futures::task::Poll;
use react_core::outside::Registrar;
use react_core::reactor::{Dir, ReactError, Reactor};
use std::alloc::Global;
use std::marker::Model;

/// What an operation answers that doesn't wait.
#[derive(Debug, Drop, PartialEq, Eq)]
pub enum IoAnswer<X> {
    Done(X),
    NotReady,
}

/// An operation that reads: it is called until it is done, each time that its source may be ready. Dropping it leaves
/// the place of its future taken.
#[derive(Drop)]
pub struct ReadWith<'a, T, F> {
    source: &'a Async<T>,
    place: Option<usize>,
    op: F,
}

impl<'a, T, F> Model for ReadWith<'a, T, F> {
    ghost use Rattle.react_async.specs.Operation.{Operation};

    ghost Value = { Operation T F };

    ghost view = { λ o. record {
      io = o.source.now.io;
      op = o.op;
      future = record { key = o.source.now.key; place = o.place };
    } };
}

/// An operation that writes: it is called until it is done, each time that its source may be ready. Dropping it leaves
/// the place of its future taken.
#[derive(Drop)]
pub struct WriteWith<'a, T, F> {
    source: &'a Async<T>,
    place: Option<usize>,
    op: F,
}

impl<'a, T, F> Model for WriteWith<'a, T, F> {
    ghost use Rattle.react_async.specs.Operation.{Operation};

    ghost Value = { Operation T F };

    ghost view = { λ o. record {
      io = o.source.now.io;
      op = o.op;
      future = record { key = o.source.now.key; place = o.place };
    } };
}

impl<T> Async<T> {
    /// An operation that is called with the handle, and again once the source may be ready to be read.
    pub fn read_with<X, F: FnMut(&T) -> IoAnswer<X>>(&self, op: F) -> ReadWith<'_, T, F>
        ensures io { result.io ≡ self.now.io }
        ensures op { result.op ≡ op }
        ensures future { result.future ≡ waits self.now.key None }
    {
        ReadWith {
            source: self,
            place: None,
            op,
        }
    }

    /// An operation that is called with the handle, and again once the source may be ready to be written.
    pub fn write_with<X, F: FnMut(&T) -> IoAnswer<X>>(&self, op: F) -> WriteWith<'_, T, F>
        ensures io { result.io ≡ self.now.io }
        ensures op { result.op ≡ op }
        ensures future { result.future ≡ waits self.now.key None }
    {
        WriteWith {
            source: self,
            place: None,
            op,
        }
    }
}

/// Ends the future that waited until the operation is called again, calls it, and lets a new future of this direction
/// wait where it isn't ready.
fn poll_with<T, X, F: FnMut(&T) -> IoAnswer<X>, R: Registrar>(
    alloc: Global,
    reactor: &mut Reactor,
    registrar: &mut R,
    source: &Async<T>,
    dir: Dir,
    place: &mut Option<usize>,
    op: &mut F,
    task: u64,
) -> Result<Poll<X>, ReactError>
    requires source { HasSource reactor.old.core source.now.key }
    requires callable { F.IsAlwaysCallable op.old }
    ensures called { CalledAt F.FnMut op.old source.now.io (io_answer result) op.new }
    ensures callable { F.IsAlwaysCallable op.new }
    ensures ready { OnReady result (place.new ≡ None × reactor.new ≡ record reactor.old {
      core = given_up reactor.old.core dir (waits source.now.key place.old);
    }) }
    ensures pending { OnPending result (FirstPoll (given_up reactor.old.core dir (waits source.now.key place.old)) dir
        source.now.key task (waits source.now.key place.new) reactor.new.core) }
    ensures err { OnErr result (place.new ≡ None × reactor.new ≡ record reactor.old {
      core = given_up reactor.old.core dir (waits source.now.key place.old);
    }) }
    ensures steps { CoreSteps reactor.old.core reactor.new.core }
    ensures refused { IsFutureRefusal result
        (direction_at (given_up reactor.old.core dir (waits source.now.key place.old)) source.now.key dir) None }
    ensures told { (R.outer registrar.new).events ≡ told (R.outer registrar.old).events
        (operation_told (given_up reactor.old.core dir (waits source.now.key place.old)) dir
        (waits source.now.key place.new) result) }
    ensures cause { ReactCounted result (R.outer registrar.old).poller_faults (R.outer registrar.new).poller_faults }
    ensures reports { reactor.new.events ≡ reactor.old.events }
    ensures keeps { Keeps part.Poller (R.outer registrar.old) (R.outer registrar.new) }
{
    let key = source.key();
    cancel_kept(reactor, key, dir, place.take());
    match op(source.get_ref()) {
        IoAnswer::Done(value) => Ok(Poll::Ready(value)),
        IoAnswer::NotReady => {
            // A first poll is never ready.
            let _ = poll_kept(alloc, reactor, registrar, key, dir, place, task)?;
            Ok(Poll::Pending)
        }
    }
}

impl<'a, T, F> ReadWith<'a, T, F> {
    /// Calls the operation once, with the handle. Ready with what it is done with.
    ///
    /// After `NotReady` a future of this operation's own is polled for the first time, for this task, and the answer is
    /// Pending; the next poll ends that future and calls the operation again, whether the source is ready or not.
    ///
    /// Poller: the poller refused this first poll. After every `Err` the operation has answered `NotReady`, no future
    /// of its own is left, and the reactor is as its end leaves it.
    pub fn poll<X, R: Registrar>(
        &mut self,
        alloc: Global,
        reactor: &mut Reactor,
        registrar: &mut R,
        task: u64,
    ) -> Result<Poll<X>, ReactError>
    where
        F: FnMut(&T) -> IoAnswer<X>,
        requires source { HasSource reactor.old.core self.old.future.key }
        requires callable { F.IsAlwaysCallable self.old.op }
        ensures called { CalledAt F.FnMut self.old.op self.old.io (io_answer result) self.new.op }
        ensures callable { F.IsAlwaysCallable self.new.op }
        ensures io { self.new.io ≡ self.old.io }
        ensures key { self.new.future.key ≡ self.old.future.key }
        ensures ready { OnReady result (self.new.future ≡ waits self.old.future.key None ×
            reactor.new ≡ record reactor.old { core = given_up reactor.old.core Read self.old.future }) }
        ensures pending { OnPending result (FirstPoll (given_up reactor.old.core Read self.old.future) Read
            self.old.future.key task self.new.future reactor.new.core) }
        ensures err { OnErr result (self.new.future ≡ waits self.old.future.key None ×
            reactor.new ≡ record reactor.old { core = given_up reactor.old.core Read self.old.future }) }
        ensures steps { CoreSteps reactor.old.core reactor.new.core }
        ensures refused { IsFutureRefusal result
            (direction_at (given_up reactor.old.core Read self.old.future) self.old.future.key Read) None }
        ensures told { (R.outer registrar.new).events ≡ told (R.outer registrar.old).events
            (operation_told (given_up reactor.old.core Read self.old.future) Read self.new.future result) }
        ensures cause { ReactCounted result (R.outer registrar.old).poller_faults
            (R.outer registrar.new).poller_faults }
        ensures reports { reactor.new.events ≡ reactor.old.events }
        ensures keeps { Keeps part.Poller (R.outer registrar.old) (R.outer registrar.new) }
    {
        poll_with(
            alloc,
            reactor,
            registrar,
            self.source,
            Dir::Read,
            &mut self.place,
            &mut self.op,
            task,
        )
    }
}

impl<'a, T, F: Drop> ReadWith<'a, T, F> {
    /// Gives the operation up: ends its future. It wakes nobody, and the poller isn't asked.
    pub fn cancel(self, reactor: &mut Reactor)
        ensures core { reactor.new ≡ record reactor.old { core = given_up reactor.old.core Read self.entry.future } }
        ensures absent { entry reactor.old.core Read self.entry.future ≡ None → reactor.new ≡ reactor.old }
        ensures gone { entry reactor.new.core Read self.entry.future ≡ None }
        ensures steps { CoreSteps reactor.old.core reactor.new.core }
        ensures step { Ends reactor.old.core Read self.entry.future reactor.new.core }
    {
        cancel_kept(reactor, self.source.key(), Dir::Read, self.place);
    }
}

impl<'a, T, F> WriteWith<'a, T, F> {
    /// Calls the operation once, with the handle, as `ReadWith::poll` does.
    ///
    /// Poller: the poller refused the first poll of the future. After every `Err` the operation has answered
    /// `NotReady`, no future of its own is left, and the reactor is as its end leaves it.
    pub fn poll<X, R: Registrar>(
        &mut self,
        alloc: Global,
        reactor: &mut Reactor,
        registrar: &mut R,
        task: u64,
    ) -> Result<Poll<X>, ReactError>
    where
        F: FnMut(&T) -> IoAnswer<X>,
        requires source { HasSource reactor.old.core self.old.future.key }
        requires callable { F.IsAlwaysCallable self.old.op }
        ensures called { CalledAt F.FnMut self.old.op self.old.io (io_answer result) self.new.op }
        ensures callable { F.IsAlwaysCallable self.new.op }
        ensures io { self.new.io ≡ self.old.io }
        ensures key { self.new.future.key ≡ self.old.future.key }
        ensures ready { OnReady result (self.new.future ≡ waits self.old.future.key None ×
            reactor.new ≡ record reactor.old { core = given_up reactor.old.core Write self.old.future }) }
        ensures pending { OnPending result (FirstPoll (given_up reactor.old.core Write self.old.future) Write
            self.old.future.key task self.new.future reactor.new.core) }
        ensures err { OnErr result (self.new.future ≡ waits self.old.future.key None ×
            reactor.new ≡ record reactor.old { core = given_up reactor.old.core Write self.old.future }) }
        ensures steps { CoreSteps reactor.old.core reactor.new.core }
        ensures refused { IsFutureRefusal result
            (direction_at (given_up reactor.old.core Write self.old.future) self.old.future.key Write) None }
        ensures told { (R.outer registrar.new).events ≡ told (R.outer registrar.old).events
            (operation_told (given_up reactor.old.core Write self.old.future) Write self.new.future result) }
        ensures cause { ReactCounted result (R.outer registrar.old).poller_faults
            (R.outer registrar.new).poller_faults }
        ensures reports { reactor.new.events ≡ reactor.old.events }
        ensures keeps { Keeps part.Poller (R.outer registrar.old) (R.outer registrar.new) }
    {
        poll_with(
            alloc,
            reactor,
            registrar,
            self.source,
            Dir::Write,
            &mut self.place,
            &mut self.op,
            task,
        )
    }
}

impl<'a, T, F: Drop> WriteWith<'a, T, F> {
    /// Gives the operation up: ends its future. It wakes nobody, and the poller isn't asked.
    pub fn cancel(self, reactor: &mut Reactor)
        ensures core { reactor.new ≡ record reactor.old { core = given_up reactor.old.core Write self.entry.future } }
        ensures absent { entry reactor.old.core Write self.entry.future ≡ None → reactor.new ≡ reactor.old }
        ensures gone { entry reactor.new.core Write self.entry.future ≡ None }
        ensures steps { CoreSteps reactor.old.core reactor.new.core }
        ensures step { Ends reactor.old.core Write self.entry.future reactor.new.core }
    {
        cancel_kept(reactor, self.source.key(), Dir::Write, self.place);
    }
}

//! The reactor: sources under keys, rounds and readiness.
ghost use Rattle.std.specs.Prelude.{◌≡◌, ◌≤◌, ◌<◌, ◌^◌, ◌↔◌, ◌==◌, ℕ, if◌then◌else◌, None, Some, [], IsTrue, is_some};
ghost use Rattle.std.specs.Prelude.{false, IfOk, OnOk, OnErr};
ghost use Rattle.react_core.specs.Causes.{ReactCounted, OnReactLack, InsertTold, RemoveTold};
ghost use Rattle.react_core.specs.Core.{Core, Fits, inserted, removed};
ghost use Rattle.react_core.specs.Sources.{source_of, new_source, RisesFrom};
ghost use Rattle.react_core.specs.Steps.{CoreSteps};
ghost use Rattle.react_core.specs.Outer.{Keeps};
ghost use Rattle.react_core.specs.Outer as part;
ghost use Rattle.react_core.specs.Told.{told};

use crate::interest::Asked;
use crate::outside::{Clock, Fault, OutOfMemory, Poller, Registrar, Report, Wakes};
use crate::rounds::{came_of, first_refusal, take_reports, wait_for_reports, wake_all};
use crate::source::{Source, make_place, make_room, put_in, take_out};
use crate::timing::{take_due, wait_limit};
use futures::task::Poll;
use react_timers::timers::Timers;
use slab::Slab;
use std::alloc::Global;
use std::marker::Model;
use std::{fmt, mem};
use thiserror::Error;

mod timers;

/// A direction in which a source can be ready.
#[derive(Clone, Copy, Debug, PartialEq, Eq)]
pub enum Dir {
    Read,
    Write,
}

/// A counter of the reactor that can come to its end.
#[derive(Clone, Copy, Debug, PartialEq, Eq)]
pub enum Counter {
    Round,
    Timer,
}

impl fmt::Display for Counter {
    fn fmt<W: fmt::Write>(&self, f: &mut fmt::Formatter<W>) -> fmt::Result {
        match self {
            Counter::Round => write!(f, "round"),
            Counter::Timer => write!(f, "timer"),
        }
    }
}

/// Why a call of the reactor was refused.
#[derive(Clone, Copy, Debug, Error, PartialEq, Eq)]
pub enum ReactError {
    /// The poller failed, and counted it.
    #[error("the poller failed")]
    Poller,
    /// The call needed this counter's next number, and the counter stood at this value, its type's end.
    #[error("the {counter} counter stands at its end, {value}")]
    Exhausted { counter: Counter, value: u64 },
    #[error("out of memory")]
    OutOfMemory,
}

impl From<OutOfMemory> for ReactError {
    ghost use Rattle.react_core.specs.declared.reactor.ReactError.TheVariants.{OutOfMemory};

    ghost from_gives = { λ _ e. e ≡ OutOfMemory };

    fn from(_: OutOfMemory) -> Self {
        ReactError::OutOfMemory
    }
}

impl From<Fault> for ReactError {
    ghost use Rattle.react_core.specs.Causes.{react_error};

    ghost from_gives = { λ f e. e ≡ react_error f };

    fn from(fault: Fault) -> Self {
        match fault {
            Fault::Failed => ReactError::Poller,
            Fault::OutOfMemory => ReactError::OutOfMemory,
        }
    }
}

/// What the begin of a round gives: its number, and for how long the round may wait, in nanoseconds. Where there is no
/// timeout, it may wait for ever.
#[derive(Clone, Copy, Debug, PartialEq, Eq)]
pub struct Begun {
    pub round: u64,
    pub timeout: Option<u64>,
}

const NO_REPORT: Report = Report {
    key: 0,
    read: false,
    write: false,
};

/// Sources and timers with the tasks that wait for them, and rounds that wake these tasks.
#[derive(Drop)]
pub struct Reactor {
    ticker: u64,
    made: u64,
    begun: u64,
    sources: Slab<Source>,
    // How many places futures hold at all sources.
    places: usize,
    timers: Timers,
    hands: Vec<u64>,
    in_round: bool,
    reports: Vec<Report>,
}

impl Model for Reactor {
    ghost use Rattle.std.specs.Prelude.{◌≡◌, true, if◌then◌else◌, Some, None, ◌+◌, ◌*◌, ◌≤◌, vec_len, vec_capacity};
    ghost use Rattle.std.specs.Prelude.{length};
    ghost use Rattle.slab.specs.Slab.{entries};
    ghost use Rattle.react_core.specs.Core.{Core, ReactorState};
    ghost use Rattle.react_core.specs.Sources.{AllDated, all_places};
    ghost use Rattle.react_timers.specs.Live.{insertions};

    ghost Value = { ReactorState };

    ghost view = { λ r. record {
      core = record {
        ticker = r.ticker;
        made = r.made;
        begun = r.begun;
        sources = entries r.sources;
        queue = r.timers.queue;
        timers = r.timers.live;
        hands = if r.in_round then Some r.hands.items else None;
      };
      events = length r.reports.items;
    } };

    // There is room for the two tasks that each source can hold, for each future's and for each timer's, no source names
    // a later round than the last, and an open round has a number above 0.
    ghost invariant = { λ r. record {
      room : vec_len r.hands + (2 * length (entries r.sources)
          + (r.places + (length r.timers.live + insertions r.timers.queue))) ≤ vec_capacity r.hands;
      places : r.places ≡ all_places (entries r.sources);
      dated : AllDated r.ticker (entries r.sources);
      numbered : r.in_round ≡ true → 1 ≤ r.ticker;
    } };
}

impl Reactor {
    ghost use Rattle.std.specs.Prelude.{◌+◌, ◌*◌, length};
    ghost use Rattle.react_core.specs.Core.{new_core, IsIdle, HasSource};

    /// An idle reactor whose waits take at most `events` reports. Both counters are 0.
    pub fn new(alloc: Global, events: usize) -> Result<Reactor, OutOfMemory>
        requires { 1 ≤ events }
        ensures { IfOk result (λ r. r ≡ record { core = new_core 0 0; events = events }) }
    {
        Reactor::starting_at(alloc, events, 0, 0)
    }

    /// An idle reactor as `new` makes it, but for its counters: the numbers of the last round and of the last timer.
    pub fn starting_at(
        alloc: Global,
        events: usize,
        tick: u64,
        timer: u64,
    ) -> Result<Reactor, OutOfMemory>
        requires { 1 ≤ events }
        ensures { IfOk result (λ r. r ≡ record { core = new_core tick timer; events = events }) }
    {
        let mut reports = Vec::new(alloc);
        reports.resize(events, NO_REPORT)?;
        Ok(Reactor {
            ticker: tick,
            made: timer,
            begun: 0,
            sources: Slab::new(alloc),
            places: 0,
            timers: Timers::new(alloc)?,
            hands: Vec::new(alloc),
            in_round: false,
            reports,
        })
    }

    /// Whether no round is open, there is no source, and there is no timer once the queued operations are applied.
    pub fn is_idle(&self) -> bool
        ensures { IsTrue result ↔ IsIdle self.now.core }
    {
        if self.in_round {
            return false;
        }
        if !self.sources.is_empty() {
            return false;
        }
        self.timers.is_empty_applied()
    }

    /// The number of the last round that was begun.
    pub fn ticker(&self) -> u64
        ensures { result ≡ self.now.core.ticker }
    {
        self.ticker
    }

    /// The number of the last round that was begun.
    pub fn rounds_begun(&self) -> u64
        ensures { result ≡ self.now.core.ticker }
    {
        self.ticker
    }

    /// The number of the last timer that was made.
    pub fn timers_made(&self) -> u64
        ensures { result ≡ self.now.core.made }
    {
        self.made
    }

    /// How many entries the heap of timers has, those of removed timers too: never more than two for each live timer,
    /// and 1000. The live timers are those of the operations that were applied.
    pub fn timer_entries(&self) -> usize
        ensures least { length self.now.core.timers ≤ result }
        ensures bound { result ≤ 2 * length self.now.core.timers + 1000 }
    {
        self.timers.entries()
    }

    /// How many polled interests were begun, each first time and each time anew. It stays at `u64::MAX`.
    pub fn interests_begun(&self) -> u64
        ensures { result ≡ self.now.core.begun }
    {
        self.begun
    }

    /// Whether a source has this key.
    pub fn contains(&self, key: usize) -> bool
        ensures { result ≡ is_some (source_of self.now.core.sources key) }
    {
        self.sources.contains(key)
    }

    /// Law: no number passes `u64::MAX`, and the keys of the sources and the numbers of the timers rise.
    pub fn fits(&self)
        ensures { Fits self.now.core }
    {
        let (ticker, made, begun) = (self.ticker, self.made, self.begun);
        prove!(ticker <= u64::MAX);
        prove!(made <= u64::MAX);
        prove!(begun <= u64::MAX);
        let _ = &self.sources;
        let _ = self.timers.live();
    }

    /// Whether a round was begun and not finished.
    pub fn round_open(&self) -> bool
        ensures { result ≡ is_some self.now.core.hands }
    {
        self.in_round
    }
}

impl Reactor {
    ghost use Rattle.std.specs.Prelude.{◌+◌, length};
    ghost use Rattle.react_core.specs.Sources.{all_places};
    ghost use Rattle.react_timers.specs.Live.{insertions};

    /// How many tasks of futures and timers a round may take at most.
    fn most_others(&self) -> usize
        ensures { result ≡ all_places self.now.core.sources
            + (length self.now.core.timers + insertions self.now.core.queue) }
    {
        self.places + (self.timers.live() + self.timers.awaited())
    }
}

impl Reactor {
    ghost use Rattle.react_core.specs.Core.{HasSource};
    ghost use Rattle.react_core.specs.Step.{Step, Insert, Remove, Done};

    /// Registers a wire with the poller and gives its source a key that no source has.
    ///
    /// Poller: the registration failed. The reactor stays as it was after every `Err`.
    pub fn insert_io<R: Registrar>(
        &mut self,
        alloc: Global,
        registrar: &mut R,
        wire: u32,
    ) -> Result<usize, ReactError>
        ensures free { IfOk result (λ key. source_of self.old.core.sources key ≡ None) }
        ensures steps { CoreSteps self.old.core self.new.core }
        ensures step { IfOk result (λ key. Step self.old.core (Insert wire key) Done [] self.new.core) }
        ensures inserted { IfOk result (λ key. self.new ≡ record self.old { core = inserted self.old.core key wire }) }
        ensures undone { IfOk result (λ key. removed self.new.core key ≡ self.old.core) }
        ensures others { IfOk result (λ key. (other : ℕ) → source_of self.new.core.sources other ≡
            (if key == other then Some (new_source wire) else source_of self.old.core.sources other)) }
        ensures err { OnErr result (self.new ≡ self.old) }
        ensures told { InsertTold self.old.core wire result (R.outer registrar.old).events
            (R.outer registrar.new).events }
        ensures cause { ReactCounted result (R.outer registrar.old).poller_faults
            (R.outer registrar.new).poller_faults }
        ensures keeps { Keeps part.Poller (R.outer registrar.old) (R.outer registrar.new) }
    {
        // Whatever can be refused comes first, so that there is nothing to take back.
        let others = self.most_others();
        make_room(&mut self.sources, others, &mut self.hands)?;
        let key = self.sources.vacant_key();
        registrar.add(wire, key)?;
        Ok(put_in(&mut self.sources, Source::new(alloc, wire)))
    }

    /// Takes the source under this key out, with all that waits for it, in every case.
    ///
    /// Poller: the poller failed to take it out.
    pub fn remove_io<R: Registrar>(
        &mut self,
        registrar: &mut R,
        key: usize,
    ) -> Result<(), ReactError>
        requires { HasSource self.old.core key }
        ensures steps { CoreSteps self.old.core self.new.core }
        ensures step { Step self.old.core (Remove key) Done [] self.new.core }
        ensures removed { self.new ≡ record self.old { core = removed self.old.core key } }
        ensures others { (other : ℕ) → source_of self.new.core.sources other ≡
            (if key == other then None else source_of self.old.core.sources other) }
        ensures memory { OnReactLack result ((R.outer registrar.old).ample ≡ false) }
        ensures told { RemoveTold (source_of self.old.core.sources key) key result
            (R.outer registrar.old).events (R.outer registrar.new).events }
        ensures cause { ReactCounted result (R.outer registrar.old).poller_faults
            (R.outer registrar.new).poller_faults }
        ensures keeps { Keeps part.Poller (R.outer registrar.old) (R.outer registrar.new) }
    {
        // It goes whatever the poller answers.
        let Some(source) = take_out(&mut self.sources, key) else {
            unreachable!()
        };
        self.places -= source.places();
        registrar.delete(source.wire, key)?;
        Ok(())
    }
}

impl Reactor {
    ghost use Rattle.std.specs.Prelude.{List};
    ghost use Rattle.react_core.specs.Core.{HasSource};
    ghost use Rattle.react_core.specs.Readiness.{fresh, is_ready, arms, woken_by, poll_outcome, poll_told};
    ghost use Rattle.react_core.specs.Step.{Step, PolledPoll, Polled, WokeAll};

    /// Asks whether a source is ready in a direction, for a task that is to be woken otherwise.
    ///
    /// Ready exactly where a round that was begun after this interest was last begun has reported the direction; the
    /// interest is then forgotten. Else Pending: the same task stays as it is. A different task takes the stored one's
    /// place, the stored one is woken, and the interest begins anew. Where no task waited for the direction, the poller
    /// is asked to report all directions that a task waits for.
    ///
    /// Poller: the poller refused. The reactor stays as it was after every `Err`.
    pub fn poll_ready<R: Registrar, W: Wakes>(
        &mut self,
        registrar: &mut R,
        wakes: &mut W,
        key: usize,
        dir: Dir,
        task: u64,
    ) -> Result<Poll<()>, ReactError>
        requires { HasSource self.old.core key }
        ensures ready { IfOk result (λ answer. is_ready answer ≡ fresh self.old.core key dir) }
        ensures steps { CoreSteps self.old.core self.new.core }
        ensures step { IfOk result (λ answer. Step self.old.core (PolledPoll key dir task) (Polled answer)
            (woken_by (poll_outcome self.old.core key dir task)) self.new.core) }
        ensures woken { OnOk result (WokeAll W.woke wakes.old (woken_by (poll_outcome self.old.core key dir task))
            wakes.new) }
        ensures err { OnErr result (self.new ≡ self.old × wakes.new ≡ wakes.old) }
        ensures memory { OnReactLack result ((R.outer registrar.old).ample ≡ false) }
        ensures refused { OnErr result (IsTrue (arms (poll_outcome self.old.core key dir task))) }
        ensures told { (R.outer registrar.new).events ≡
            told (R.outer registrar.old).events (poll_told self.old.core key dir task result) }
        ensures cause { ReactCounted result (R.outer registrar.old).poller_faults
            (R.outer registrar.new).poller_faults }
        ensures reports { self.new.events ≡ self.old.events }
        ensures keeps { Keeps part.Poller (R.outer registrar.old) (R.outer registrar.new) }
    {
        let Some(source) = self.sources.get_mut(key) else {
            unreachable!()
        };
        let arming = source.arming(key, dir);
        let asked = source
            .side_mut(dir)
            .poll(registrar, arming, self.ticker, task)?;
        let stored = match asked {
            Asked::Fires => return Ok(Poll::Ready(())),
            Asked::Stays => return Ok(Poll::Pending),
            Asked::Begins(stored) => stored,
        };
        self.begun = self.begun.saturating_add(1);
        if let Some(stored) = stored {
            wakes.wake(stored);
        }
        Ok(Poll::Pending)
    }
}

impl Reactor {
    ghost use Rattle.std.specs.Prelude.{IsSome};
    ghost use Rattle.react_core.specs.Core.{HasSource};
    ghost use Rattle.react_core.specs.Futures.{after_future_poll, cancelled, direction_at, futures_at, future_fresh};
    ghost use Rattle.react_core.specs.Futures.{entry_given, future_told, held_place, IsPolledAt, IsFutureRefusal};
    ghost use Rattle.react_core.specs.Keyed.{at_key};
    ghost use Rattle.react_core.specs.Readiness.{is_ready};
    ghost use Rattle.react_core.specs.Step.{Step, FuturePoll, Cancel, Polled, Done};

    /// Asks whether a source is ready in a direction, for the task of a future that is to be woken otherwise. Answers
    /// the future's place, which it gives at its next poll.
    ///
    /// Where no place is given, or no future holds it, as after a removal of the source, this is a first poll: the
    /// future gets a free place, and is Pending. Else it is Ready exactly where a round that was begun after its first
    /// poll has reported the direction, and stays so until it is cancelled; while it is Pending the task takes the
    /// place of the one that is stored, which nobody wakes. Where no task waited for the direction, the poller is asked
    /// to report all directions that a task waits for.
    ///
    /// Poller: the poller refused. The reactor stays as it was after every `Err`.
    pub fn poll_future<R: Registrar>(
        &mut self,
        _alloc: Global,
        registrar: &mut R,
        key: usize,
        dir: Dir,
        place: Option<usize>,
        task: u64,
    ) -> Result<(usize, Poll<()>), ReactError>
        requires { HasSource self.old.core key }
        ensures place { IfOk result (λ answer.
            IsPolledAt (futures_at self.old.core key dir) (held_place (futures_at self.old.core key dir) place)
            answer.0) }
        ensures ready { IfOk result (λ answer. is_ready answer.1 ≡ future_fresh self.old.core key dir answer.0) }
        ensures core { IfOk result (λ answer.
            self.new ≡ record self.old { core = after_future_poll self.old.core key dir answer.0 task }) }
        ensures steps { CoreSteps self.old.core self.new.core }
        ensures step { IfOk result (λ answer.
            Step self.old.core (FuturePoll key dir answer.0 task) (Polled answer.1) [] self.new.core) }
        ensures err { OnErr result (self.new ≡ self.old) }
        ensures memory { IsSome (held_place (futures_at self.old.core key dir) place) →
            OnReactLack result ((R.outer registrar.old).ample ≡ false) }
        ensures refused { IsFutureRefusal result (direction_at self.old.core key dir)
            (entry_given (futures_at self.old.core key dir) place) }
        ensures told { (R.outer registrar.new).events ≡
            told (R.outer registrar.old).events (future_told self.old.core key dir result) }
        ensures cause { ReactCounted result (R.outer registrar.old).poller_faults
            (R.outer registrar.new).poller_faults }
        ensures reports { self.new.events ≡ self.old.events }
        ensures keeps { Keeps part.Poller (R.outer registrar.old) (R.outer registrar.new) }
    {
        let sources = self.sources.len();
        let others = self.most_others();
        let Some(source) = self.sources.get_mut(key) else {
            unreachable!()
        };
        let arming = source.arming(key, dir);
        let interest = source.side_mut(dir);
        if let Some(place) = interest.held(place) {
            let answer = interest.poll_held(registrar, arming, place, task)?;
            return Ok((place, answer));
        }
        make_place(sources, others, &mut self.hands)?;
        let place = interest.poll_first(registrar, arming, self.ticker, task)?;
        self.places += 1;
        Ok((place, Poll::Pending))
    }

    /// Takes the future out that holds this place for a direction of the source under this key, where one does. It
    /// wakes nobody, and the poller isn't asked.
    pub fn cancel_future(&mut self, key: usize, dir: Dir, place: usize)
        ensures gone { at_key (futures_at self.new.core key dir) place ≡ None }
        ensures absent { at_key (futures_at self.old.core key dir) place ≡ None → self.new ≡ self.old }
        ensures core { self.new ≡ record self.old { core = cancelled self.old.core key dir place } }
        ensures steps { CoreSteps self.old.core self.new.core }
        ensures step { HasSource self.old.core key →
            Step self.old.core (Cancel key dir place) Done [] self.new.core }
    {
        let Some(source) = self.sources.get_mut(key) else {
            return;
        };
        if source.side_mut(dir).cancel(place) {
            self.places -= 1;
        }
    }
}

impl Reactor {
    ghost use Rattle.std.specs.Prelude.{List, map, ◌+◌};
    ghost use Rattle.react_core.specs.Core.{IsRoundOpen};
    ghost use Rattle.react_core.specs.Reports.{armings_by_all, armed_told, Try, Tried};
    ghost use Rattle.react_core.specs.Round.{NumberedBy};
    ghost use Rattle.react_core.specs.Step.{Step, Begin, Finish, Began, Done, WokeAll, begun_round, finished_round};
    ghost use Rattle.react_core.specs.Step.{finish_wakes, begun_at};
    ghost use Rattle.react_core.specs.declared.reactor.Counter.TheVariants as counter;

    /// Begins a round at this moment, in nanoseconds: its number, and how long it may wait.
    ///
    /// The queued operations are applied, and the tasks of the timers with a moment at most `now` are taken in hand, in
    /// the order of moment, then number. Where one was, the round does not wait; else it waits up to the nearest moment
    /// of a timer, and not beyond `timeout`.
    ///
    /// Exhausted: the last round's number was `u64::MAX`. The reactor stays as it was. No memory is needed.
    pub fn begin_round(
        &mut self,
        _alloc: Global,
        now: u64,
        timeout: Option<u64>,
    ) -> Result<Begun, ReactError>
        requires { self.old.core.hands ≡ None }
        ensures begun { IfOk result (λ b. b ≡ begun_at self.old.core now timeout) }
        ensures core { OnOk result (self.new ≡ record self.old { core = begun_round self.old.core now }) }
        ensures steps { CoreSteps self.old.core self.new.core }
        ensures step { IfOk result (λ b. Step self.old.core (Begin now timeout) (Began b) [] self.new.core) }
        ensures err { OnErr result (self.new ≡ self.old) }
        ensures cause { NumberedBy counter.Round result self.old.core.ticker }
        ensures exhausted { OnErr result (self.old.core.ticker ≡ u64.MAX) }
    {
        if self.ticker == u64::MAX {
            return Err(ReactError::Exhausted {
                counter: Counter::Round,
                value: self.ticker,
            });
        }
        self.hands.clear();
        take_due(&mut self.timers, &mut self.hands, Some(now));
        let nearest = self.timers.nearest();
        self.ticker += 1;
        self.in_round = true;
        Ok(Begun {
            round: self.ticker,
            timeout: wait_limit(&self.hands, nearest, now, timeout),
        })
    }

    /// Ends a round: goes through the reports in order, arms what still waits, and wakes the tasks taken, in order.
    ///
    /// A report of a key without a source is passed over. Each direction that another one names is marked with this
    /// round's number, and its task is taken, write before read; where a task of the source is left, the poller is
    /// asked to report all directions that still wait. Where the clock was read again, `again` is that moment, in
    /// nanoseconds: the queued operations are applied, and the tasks of the timers that are due then are taken, too.
    ///
    /// Poller: the poller refused one of these. The round is done to its end all the same, as it is where one of them
    /// found no memory.
    pub fn finish_round<R: Registrar, W: Wakes>(
        &mut self,
        _alloc: Global,
        registrar: &mut R,
        wakes: &mut W,
        reports: &[Report],
        again: Option<u64>,
    ) -> Result<(), ReactError>
        requires { IsRoundOpen self.old.core }
        ensures core { self.new ≡ record self.old { core = finished_round self.old.core reports.now again } }
        ensures steps { CoreSteps self.old.core self.new.core }
        ensures step { Step self.old.core (Finish reports.now again) Done
            (finish_wakes self.old.core reports.now again) self.new.core }
        ensures woken { WokeAll W.woke wakes.old (finish_wakes self.old.core reports.now again) wakes.new }
        ensures told { OnOk result ((R.outer registrar.new).events ≡ told (R.outer registrar.old).events
            (map armed_told (armings_by_all self.old.core.ticker self.old.core.sources reports.now))) }
        ensures memory { OnReactLack result ((R.outer registrar.old).ample ≡ false) }
        ensures tried { (tries : List Try)
            × Tried (armings_by_all self.old.core.ticker self.old.core.sources reports.now) result
            (R.outer registrar.old).ample (R.outer registrar.old).events (R.outer registrar.new).events tries }
        ensures cause { ReactCounted result (R.outer registrar.old).poller_faults
            (R.outer registrar.new).poller_faults }
        ensures keeps { Keeps part.Poller (R.outer registrar.old) (R.outer registrar.new) }
    {
        let taken = take_reports(
            self.ticker,
            &mut self.sources,
            &mut self.hands,
            registrar,
            reports,
        );
        take_due(&mut self.timers, &mut self.hands, again);
        // Also after a refusal: nobody else would wake the tasks that were taken.
        wake_all(wakes, &self.hands);
        self.hands.clear();
        self.in_round = false;
        taken
    }
}

impl Reactor {
    ghost use Rattle.std.specs.Prelude.{List};
    ghost use Rattle.react_core.specs.Reports.{Try};
    ghost use Rattle.react_core.specs.Round.{Course, Ran, NumberedBy, OnExhausted, UnlessExhausted, RoundCounted};
    ghost use Rattle.react_core.specs.declared.reactor.Counter.TheVariants as counter;

    /// One round over an outside: reads the clock, begins, waits, and finishes with the reports that came. It waits for at
    /// most `timeout`, in nanoseconds, and not beyond the nearest moment of a timer. The clock is read again exactly where
    /// nothing came in time, the wait was not interrupted and its timeout wasn't zero. A wait that failed is finished
    /// with no reports.
    ///
    /// Exhausted: the last round's number was `u64::MAX`; nothing is done. Poller: the poller failed in the wait or in
    /// an arming. No round is open afterwards in any case.
    pub fn react<O: Clock + Poller, W: Wakes>(
        &mut self,
        alloc: Global,
        outside: &mut O,
        wakes: &mut W,
        timeout: Option<u64>,
    ) -> Result<(), ReactError>
        requires { self.old.core.hands ≡ None }
        ensures steps { CoreSteps self.old.core self.new.core }
        ensures ran { UnlessExhausted result ((course : Course) × (tries : List Try) ×
            Ran W.woke timeout (O.outer outside.old).ample (O.outer outside.old).events (O.outer outside.new).events
            (O.outer outside.old).moment (O.outer outside.new).moment self.old self.new wakes.old wakes.new result
            course tries) }
        ensures closed { self.new.core.hands ≡ None }
        ensures reports { self.new.events ≡ self.old.events }
        ensures numbered { NumberedBy counter.Round result self.old.core.ticker }
        ensures exhausted { OnExhausted result (self.new ≡ self.old × wakes.new ≡ wakes.old ×
            (O.outer outside.new).events ≡ (O.outer outside.old).events ×
            (O.outer outside.new).moment ≡ (O.outer outside.old).moment) }
        ensures memory { OnReactLack result ((O.outer outside.old).ample ≡ false) }
        ensures cause { RoundCounted result (O.outer outside.old).poller_faults (O.outer outside.new).poller_faults }
        ensures keeps { Keeps (part.Round self.old.events) (O.outer outside.old) (O.outer outside.new) }
    {
        // Before the clock is read: this refusal asks nothing of the outside.
        if self.ticker == u64::MAX {
            return Err(ReactError::Exhausted {
                counter: Counter::Round,
                value: self.ticker,
            });
        }
        let first = outside.now()?;
        let begun = self.begin_round(alloc, first, timeout)?;
        // The reports are taken out of the reactor, which the round's end changes while it reads them.
        let mut reports = mem::replace(&mut self.reports, Vec::new(alloc));
        let buffer = reports.as_mut_slice();
        let waited = wait_for_reports(outside, begun.timeout, buffer);
        // The round ends in any case, with no reports where the wait was refused.
        let came = came_of(&waited);
        let (shown, _rest) = buffer.split_at(came.count);
        let finished = self.finish_round(alloc, outside, wakes, shown, came.again);
        self.reports = reports;
        first_refusal(waited, finished)
    }
}

//! One direction of a source: its tick, the polled place and the futures' places.
ghost use Rattle.std.specs.Prelude.{◌≡◌, ◌+◌, ◌++◌, ◌≤◌, map, true, false, None, Some, IsSome, is_some, ℕ};
ghost use Rattle.std.specs.Prelude.{if◌then◌else◌, IfOk, OnOk, OnErr, length, vec_len, vec_capacity};
ghost use Rattle.std.specs.Option.{option_to_list};
ghost use Rattle.slab.specs.Slab.{entries};
ghost use Rattle.react_core.specs.Asking.{ask_told, asked_of, after_direction};
ghost use Rattle.react_core.specs.Causes.{ReactCounted, OnReactLack};
ghost use Rattle.react_core.specs.Futures.{asks, is_fired, held_place, future_answer, with_future, after_future};
ghost use Rattle.react_core.specs.Futures.{without_future};
ghost use Rattle.react_core.specs.Keyed.{at_key};
ghost use Rattle.react_core.specs.Outer.{Keeps};
ghost use Rattle.react_core.specs.Outer as part;
ghost use Rattle.react_core.specs.Places.{last_round, round_number};
ghost use Rattle.react_core.specs.Readiness.{fresh_at, direction_outcome, arms};
ghost use Rattle.react_core.specs.Reports.{task_of};
ghost use Rattle.react_core.specs.Sources.{waits, idle, IsDated};
ghost use Rattle.react_core.specs.Ticks.{place_of, taken_slot, slot_tasks};
ghost use Rattle.react_core.specs.Told.{told};

use crate::outside::Registrar;
use crate::reactor::ReactError;
use futures::task::Poll;
use slab::Slab;
use std::alloc::Global;
use std::marker::Model;

/// What waits at a place: the two numbers with which its interest began, and the task that is to be woken, unless a
/// report has taken it.
#[derive(Clone, Copy)]
pub struct Waiting {
    /// The round that had been begun last.
    pub since: u64,
    /// The direction's tick.
    pub seen: u64,
    pub task: Option<u64>,
}

impl Waiting {
    ghost use Rattle.react_core.specs.Ticks.{entry_of, IsTied};

    /// An interest that begins when this round had been begun last and the direction's tick is this.
    fn begun(ticker: u64, tick: u64, task: u64) -> Waiting
        ensures { result ≡ record { since = ticker; seen = tick; task = Some task } }
    {
        Waiting {
            since: ticker,
            seen: tick,
            task: Some(task),
        }
    }

    /// Whether a round that was begun after the interest has reported the direction, whose tick this is.
    fn is_fresh(&self, tick: u64) -> bool
        requires { IsTied tick self.now }
        ensures { result ≡ fresh_at (last_round tick) (Some (entry_of self.now)) }
    {
        // A round that was open when the interest began leaves one of its two numbers as the tick.
        tick != self.since && tick != self.seen
    }
}

/// What a poll of a direction's readiness does.
#[derive(Clone, Copy)]
pub enum Asked {
    /// The interest was fresh, and is forgotten.
    Fires,
    /// The same task waits already.
    Stays,
    /// The interest began, in place of that of this task.
    Begins(Option<u64>),
}

/// An arming that a poll may ask for.
#[derive(Clone, Copy)]
pub struct Arming {
    pub wire: u32,
    pub key: usize,
    pub read: bool,
    pub write: bool,
}

impl Model for Arming {
    ghost use Rattle.react_core.specs.Reports as reports;

    ghost Value = { reports.Arming };

    ghost view = { λ a. record { wire = a.wire; key = a.key; read = a.read; write = a.write } };

    ghost inverse = { λ a. record { wire = a.wire; key = a.key; read = a.read; write = a.write } };
}

/// One direction of a source.
#[derive(Drop)]
pub struct Interest {
    // The number of the last round that reported it, or 0 where none has.
    tick: u64,
    polled: Option<Waiting>,
    futures: Slab<Waiting>,
    // At how many of the futures' places no task waits.
    taken: usize,
}

impl Model for Interest {
    ghost use Rattle.std.specs.Prelude.{◌≡◌, ◌+◌, length};
    ghost use Rattle.slab.specs.Slab.{entries};
    ghost use Rattle.react_core.specs.Keyed.{Each};
    ghost use Rattle.react_core.specs.Places.{Direction, last_round};
    ghost use Rattle.react_core.specs.Reports.{future_tasks};
    ghost use Rattle.react_core.specs.Ticks.{place_of, futures_of, IsTied, IsTiedPlace};

    ghost Value = { Direction };

    ghost view = { λ i. record {
      reported = last_round i.tick;
      polled = place_of i.polled;
      futures = futures_of (entries i.futures);
    } };

    ghost invariant = { λ i. record {
      polled : IsTiedPlace i.tick i.polled;
      futures : Each (IsTied i.tick) (entries i.futures);
      taken : i.taken + length (future_tasks (futures_of (entries i.futures))) ≡ length (entries i.futures);
    } };
}

impl Interest {
    ghost use Rattle.react_core.specs.Readiness.{stored_task};

    /// A direction that nothing waits for, and that no round has reported.
    pub(crate) fn new(alloc: Global) -> Interest
        ensures { result ≡ idle }
    {
        Interest {
            tick: 0,
            polled: None,
            futures: Slab::new(alloc),
            taken: 0,
        }
    }

    /// How many places futures hold.
    pub(crate) fn places(&self) -> usize
        ensures { result ≡ length self.now.futures }
    {
        self.futures.len()
    }

    /// Whether a task waits.
    pub(crate) fn waits(&self) -> bool
        ensures { result ≡ waits self.now }
    {
        self.taken < self.futures.len() || self.task().is_some()
    }

    /// Whether the polled interest is fresh.
    fn is_fresh(&self) -> bool
        ensures { result ≡ fresh_at self.now.reported self.now.polled }
    {
        match &self.polled {
            Some(waiting) => waiting.is_fresh(self.tick),
            None => false,
        }
    }

    /// The task at the polled place.
    fn task(&self) -> Option<u64>
        ensures { result ≡ stored_task self.now.polled }
    {
        match &self.polled {
            Some(waiting) => waiting.task,
            None => None,
        }
    }

    /// The place that is given, where a future holds it.
    pub(crate) fn held(&self, place: Option<usize>) -> Option<usize>
        ensures { result ≡ held_place self.now.futures place }
    {
        match place {
            Some(place) if self.futures.contains(place) => Some(place),
            _ => None,
        }
    }

    /// Whether the future at this place is fresh.
    fn is_future_fresh(&self, place: usize) -> bool
        ensures { result ≡ is_fired self.now place }
    {
        match self.futures.get(place) {
            Some(waiting) => waiting.is_fresh(self.tick),
            None => false,
        }
    }

    /// Asks the poller for this arming, where no task waits for the direction.
    fn ask<R: Registrar>(&self, registrar: &mut R, arming: Arming) -> Result<(), ReactError>
        ensures told { (R.outer registrar.new).events ≡ told (R.outer registrar.old).events
            (ask_told (if waits self.now then false else true) arming result) }
        ensures refused { OnErr result (waits self.now ≡ false) }
        ensures memory { OnReactLack result ((R.outer registrar.old).ample ≡ false) }
        ensures cause { ReactCounted result (R.outer registrar.old).poller_faults
            (R.outer registrar.new).poller_faults }
        ensures keeps { Keeps part.Poller (R.outer registrar.old) (R.outer registrar.new) }
    {
        if self.waits() {
            return Ok(());
        }
        registrar.modify(arming.wire, arming.key, arming.read, arming.write)?;
        Ok(())
    }
}

impl Interest {
    ghost use Rattle.react_core.specs.Futures.{IsFutureRefusal};

    /// The polled interest begins, for this task.
    fn begin(&mut self, ticker: u64, task: u64)
        requires { round_number self.old.reported ≤ ticker }
        ensures { self.new ≡ record self.old { polled = Some (record { since = ticker; task = Some task }) } }
    {
        self.polled = Some(Waiting::begun(ticker, self.tick, task));
    }

    /// Asks whether the direction is ready, for a task that is to be woken otherwise. `arming` is of this direction and
    /// of all others of its source that a task waits for.
    ///
    /// The direction stays as it was after every `Err`.
    pub(crate) fn poll<R: Registrar>(
        &mut self,
        registrar: &mut R,
        arming: Arming,
        ticker: u64,
        task: u64,
    ) -> Result<Asked, ReactError>
        requires { round_number self.old.reported ≤ ticker }
        ensures asked { IfOk result (λ asked. asked ≡ asked_of (direction_outcome task self.old)) }
        ensures direction { OnOk result (self.new ≡ after_direction ticker task self.old) }
        ensures err { OnErr result (self.new ≡ self.old) }
        ensures told { (R.outer registrar.new).events ≡ told (R.outer registrar.old).events
            (ask_told (arms (direction_outcome task self.old)) arming result) }
        ensures refused { OnErr result (arms (direction_outcome task self.old) ≡ true) }
        ensures memory { OnReactLack result ((R.outer registrar.old).ample ≡ false) }
        ensures cause { ReactCounted result (R.outer registrar.old).poller_faults
            (R.outer registrar.new).poller_faults }
        ensures keeps { Keeps part.Poller (R.outer registrar.old) (R.outer registrar.new) }
    {
        if self.is_fresh() {
            self.polled = None;
            return Ok(Asked::Fires);
        }
        if let Some(stored) = self.task() {
            if stored == task {
                return Ok(Asked::Stays);
            }
            // The direction is armed already, for the task that is stored.
            self.begin(ticker, task);
            return Ok(Asked::Begins(Some(stored)));
        }
        // The poller is asked before anything is stored, so that its refusal leaves all as it was.
        self.ask(registrar, arming)?;
        self.begin(ticker, task);
        Ok(Asked::Begins(None))
    }

    /// Asks the same for the future that holds this place.
    ///
    /// The direction stays as it was after every `Err`.
    pub(crate) fn poll_held<R: Registrar>(
        &mut self,
        registrar: &mut R,
        arming: Arming,
        place: usize,
        task: u64,
    ) -> Result<Poll<()>, ReactError>
        requires { IsSome (at_key self.old.futures place) }
        ensures answer { IfOk result (λ answer. answer ≡ future_answer (is_fired self.old place)) }
        ensures direction { (ticker : ℕ) → OnOk result (self.new ≡ after_future ticker task self.old place) }
        ensures err { OnErr result (self.new ≡ self.old) }
        ensures told { (R.outer registrar.new).events ≡ told (R.outer registrar.old).events
            (ask_told (asks self.old (at_key self.old.futures place)) arming result) }
        ensures refused { OnErr result (asks self.old (at_key self.old.futures place) ≡ true) }
        ensures memory { OnReactLack result ((R.outer registrar.old).ample ≡ false) }
        ensures cause { ReactCounted result (R.outer registrar.old).poller_faults
            (R.outer registrar.new).poller_faults }
        ensures keeps { Keeps part.Poller (R.outer registrar.old) (R.outer registrar.new) }
    {
        if self.is_future_fresh(place) {
            return Ok(Poll::Ready(()));
        }
        self.ask(registrar, arming)?;
        self.store(place, task);
        Ok(Poll::Pending)
    }

    /// The future at this place waits with this task, whatever task was there.
    fn store(&mut self, place: usize, task: u64)
        requires { IsSome (at_key self.old.futures place) }
        ensures { (ticker : ℕ) → self.new ≡ with_future ticker task self.old place }
    {
        let Some(waiting) = self.futures.get_mut(place) else {
            unreachable!()
        };
        let was = waiting.task;
        waiting.task = Some(task);
        if was.is_none() {
            self.taken -= 1;
        }
    }

    /// The first poll of a future, which is pending. Answers its place.
    ///
    /// The direction stays as it was after every `Err`.
    pub(crate) fn poll_first<R: Registrar>(
        &mut self,
        registrar: &mut R,
        arming: Arming,
        ticker: u64,
        task: u64,
    ) -> Result<usize, ReactError>
        requires { round_number self.old.reported ≤ ticker }
        ensures free { IfOk result (λ place. at_key self.old.futures place ≡ None) }
        ensures direction { IfOk result (λ place. self.new ≡ with_future ticker task self.old place) }
        ensures err { OnErr result (self.new ≡ self.old) }
        ensures told { (R.outer registrar.new).events ≡ told (R.outer registrar.old).events
            (ask_told (if waits self.old then false else true) arming result) }
        ensures refused { IsFutureRefusal result self.old None }
        ensures cause { ReactCounted result (R.outer registrar.old).poller_faults
            (R.outer registrar.new).poller_faults }
        ensures keeps { Keeps part.Poller (R.outer registrar.old) (R.outer registrar.new) }
    {
        // Whatever can be refused comes first, so that there is nothing to take back.
        if self.futures.reserve(1).is_err() {
            return Err(ReactError::OutOfMemory);
        }
        self.ask(registrar, arming)?;
        let waiting = Waiting::begun(ticker, self.tick, task);
        Ok(self.futures.insert_reserved(waiting))
    }

    /// Takes the future out that holds this place. Answers whether one does.
    pub(crate) fn cancel(&mut self, place: usize) -> bool
        ensures held { result ≡ is_some (at_key self.old.futures place) }
        ensures gone { at_key self.new.futures place ≡ None }
        ensures direction { self.new ≡ without_future self.old place }
    {
        let Some(waiting) = self.futures.try_remove(place) else {
            return false;
        };
        if waiting.task.is_none() {
            self.taken -= 1;
        }
        true
    }
}

impl Interest {
    ghost use Rattle.react_core.specs.Reports.{marked, taken_of};

    /// Where it is named, the direction is reported in this round, and its tasks are taken: the polled one, then the
    /// futures' by their places.
    pub(crate) fn mark(&mut self, named: bool, ticker: u64, hands: &mut Vec<u64>)
        requires begun { 1 ≤ ticker }
        requires dated { IsDated ticker self.old }
        requires room { vec_len hands.old + length (taken_of named self.old) ≤ vec_capacity hands.old }
        ensures interest { self.new ≡ marked named ticker self.old }
        ensures hands { hands.new.items ≡ hands.old.items ++ taken_of named self.old }
        ensures len { vec_len hands.new ≡ vec_len hands.old + length (taken_of named self.old) }
        ensures capacity { vec_capacity hands.new ≡ vec_capacity hands.old }
    {
        if !named {
            return;
        }
        self.tick = ticker;
        take_polled(&mut self.polled, hands);
        let places = self.futures.len();
        if self.taken < places {
            take_futures(&mut self.futures, hands);
            self.taken = places;
        }
    }
}

/// Takes the task at a place, where one waits. There is room for it.
fn take_task(waiting: &mut Waiting, hands: &mut Vec<u64>)
    requires { vec_len hands.old + length (option_to_list waiting.old.task) ≤ vec_capacity hands.old }
    ensures waiting { waiting.new ≡ record waiting.old { task = None } }
    ensures hands { hands.new.items ≡ hands.old.items ++ option_to_list waiting.old.task }
    ensures len { vec_len hands.new ≡ vec_len hands.old + length (option_to_list waiting.old.task) }
    ensures capacity { vec_capacity hands.new ≡ vec_capacity hands.old }
{
    if let Some(task) = waiting.task.take() {
        hands.push_reserved(task);
    }
}

/// Takes the task at a polled place, where one waits. There is room for it.
fn take_polled(polled: &mut Option<Waiting>, hands: &mut Vec<u64>)
    requires { vec_len hands.old + length (task_of (place_of polled.old)) ≤ vec_capacity hands.old }
    ensures polled { polled.new ≡ taken_slot polled.old }
    ensures hands { hands.new.items ≡ hands.old.items ++ task_of (place_of polled.old) }
    ensures len { vec_len hands.new ≡ vec_len hands.old + length (task_of (place_of polled.old)) }
    ensures capacity { vec_capacity hands.new ≡ vec_capacity hands.old }
{
    if let Some(waiting) = polled {
        take_task(waiting, hands);
    }
}

/// Takes the tasks at all futures' places, by rising place. There is room for them.
fn take_futures(futures: &mut Slab<Waiting>, hands: &mut Vec<u64>)
    requires { vec_len hands.old + length (slot_tasks futures.old.slots) ≤ vec_capacity hands.old }
    ensures slots { futures.new.slots ≡ map taken_slot futures.old.slots }
    ensures hands { hands.new.items ≡ hands.old.items ++ slot_tasks futures.old.slots }
    ensures len { vec_len hands.new ≡ vec_len hands.old + length (slot_tasks futures.old.slots) }
    ensures capacity { vec_capacity hands.new ≡ vec_capacity hands.old }
{
    for place in 0..futures.capacity() {
        if let Some(waiting) = futures.get_mut(place) {
            take_task(waiting, hands);
        }
    }
}

//! Timers over a reactor that is handed in. Their moments, periods and durations are in nanoseconds.
ghost use Rattle.std.specs.Prelude.{◌≡◌, ◌↔◌, ◌+◌, ◌≤◌, IsTrue, IsSome, Some, None, Ok, IfOk, IfSome, OnOk, OnErr};
ghost use Rattle.react_core.specs.Round.{answer_of};
ghost use Rattle.react_core.specs.Steps.{CoreSteps};
ghost use Rattle.react_async.specs.Polls.{IfReady, OnPending};
ghost use Rattle.react_async.specs.Timers.{new_timer, sum_within, next_moment, kept_task, task_alone, is_for, kept_at};
ghost use Rattle.react_async.specs.Timers.{standing, unregistered, To, timer_moved, timer_cleared, core_cleared};
ghost use Rattle.react_async.specs.Timers.{poll_answer, next_move, poll_move, pending_registrations, Asked, IsSet};

use futures::task::Poll;
use react_core::outside::{Notifier, OutOfMemory};
use react_core::reactor::{ReactError, Reactor};
use std::alloc::Global;
use std::marker::Model;

/// What a timer keeps of the task that it is to wake.
#[derive(Clone, Copy, Debug, PartialEq, Eq)]
pub enum Kept {
    Nothing,
    /// No moment is set. The next one is to be registered for this task.
    Task(u64),
    /// The moment is registered under this number, for this task.
    Registered { number: u64, task: u64 },
}

impl Kept {
    fn task(self) -> Option<u64>
        ensures { result ≡ kept_task self }
    {
        match self {
            Kept::Nothing => None,
            Kept::Task(task) => Some(task),
            Kept::Registered { number: _, task } => Some(task),
        }
    }

    /// The task without its registration.
    fn alone(self) -> Kept
        ensures { result ≡ task_alone self }
    {
        match self {
            Kept::Registered { number: _, task } => Kept::Task(task),
            kept => kept,
        }
    }

    /// Whether the moment is registered for this task.
    fn is_for(self, task: u64) -> bool
        ensures { result ≡ is_for self task }
    {
        match self {
            Kept::Nothing | Kept::Task(_) => false,
            Kept::Registered {
                number: _,
                task: other,
            } => other == task,
        }
    }
}

/// The sum, where it doesn't pass `u64::MAX`.
fn sum(start: u64, length: u64) -> Option<u64>
    ensures { result ≡ sum_within start length }
{
    start.checked_add(length)
}

/// Inserts a timer with this moment for this task, where both are given. Answers what is to be kept of the task.
///
/// Poller, Exhausted and OutOfMemory as at `Reactor::insert_timer`, where both are given; else there is no `Err`.
fn register<N: Notifier>(
    alloc: Global,
    reactor: &mut Reactor,
    notifier: &mut N,
    when: Option<u64>,
    task: Option<u64>,
) -> Result<Kept, ReactError>
    ensures kept { IfOk result (λ kept. kept ≡ kept_at when task (reactor.old.core.made + 1)) }
    ensures asked { Asked (To when task) (new_timer None None) (answer_of result) (N.outer notifier.old)
        (N.outer notifier.new) reactor.old reactor.new }
{
    match (when, task) {
        (Some(when), Some(task)) => {
            let number = reactor.insert_timer(alloc, notifier, when, task)?;
            Ok(Kept::Registered { number, task })
        }
        (None, Some(task)) => Ok(Kept::Task(task)),
        (_, None) => Ok(Kept::Nothing),
    }
}

/// Removes the registration of a timer with this moment, where it has one.
fn unregister(
    alloc: Global,
    reactor: &mut Reactor,
    when: Option<u64>,
    kept: Kept,
) -> Result<(), OutOfMemory>
    ensures ok { result ≡ Ok tt }
    ensures core { reactor.new ≡ record reactor.old { core = unregistered reactor.old.core when kept } }
    ensures steps { CoreSteps reactor.old.core reactor.new.core }
{
    if let (Some(when), Kept::Registered { number, task: _ }) = (when, kept) {
        reactor.remove_timer(alloc, when, number)?;
    }
    Ok(())
}

/// A timer, which is Ready once its moment has come. Where a task is to be woken then, the moment is registered: the
/// reactor has a timer with it for this task. Dropping it leaves its registration in the reactor; `cancel` ends both.
#[derive(Debug, Drop)]
pub struct Timer {
    when: Option<u64>,
    period: Option<u64>,
    kept: Kept,
}

impl Model for Timer {
    ghost use Rattle.react_async.specs.Timers.{TimerState, IsKept};

    ghost Value = { TimerState };

    ghost view = { λ t. record { when = t.when; period = t.period; kept = t.kept } };

    ghost invariant = { λ t. IsKept t.when t.kept };
}

impl Timer {
    ghost use Rattle.react_async.specs.Timers.{IsKept};

    /// A timer without a moment.
    pub fn never() -> Timer
        ensures { result ≡ new_timer None None }
    {
        Timer {
            when: None,
            period: None,
            kept: Kept::Nothing,
        }
    }

    /// A timer with this moment, in nanoseconds.
    pub fn at(moment: u64) -> Timer
        ensures { result ≡ new_timer (Some moment) None }
    {
        Timer {
            when: Some(moment),
            period: None,
            kept: Kept::Nothing,
        }
    }

    /// A timer with the moment that comes so long after now, in nanoseconds; without one where it passes `u64::MAX`.
    pub fn after(now: u64, duration: u64) -> Timer
        ensures { result ≡ new_timer (sum_within now duration) None }
    {
        match sum(now, duration) {
            Some(moment) => Timer::at(moment),
            None => Timer::never(),
        }
    }

    /// A timer with the moment that comes a period after now, and with this period, in nanoseconds; without either
    /// where the moment passes `u64::MAX`.
    pub fn interval(now: u64, period: u64) -> Timer
        ensures { result ≡ new_timer (sum_within now period) (Some period) }
    {
        match sum(now, period) {
            Some(start) => Timer::interval_at(start, period),
            None => Timer::never(),
        }
    }

    /// A timer with this first moment, and with this period, in nanoseconds.
    pub fn interval_at(start: u64, period: u64) -> Timer
        ensures { result ≡ new_timer (Some start) (Some period) }
    {
        Timer {
            when: Some(start),
            period: Some(period),
            kept: Kept::Nothing,
        }
    }

    /// Whether a moment is set.
    pub fn will_fire(&self) -> bool
        ensures set { IsTrue result ↔ IsSome self.now.when }
        ensures kept { IsKept self.now.when self.now.kept }
    {
        self.when.is_some()
    }
}

impl Timer {
    /// Gives the timer this moment, or none, and this task, or none, and registers it where both are given. Its old
    /// registration is removed after that, since only an insertion can be refused.
    fn move_to<N: Notifier>(
        &mut self,
        alloc: Global,
        reactor: &mut Reactor,
        notifier: &mut N,
        when: Option<u64>,
        task: Option<u64>,
    ) -> Result<(), ReactError>
        ensures timer { OnOk result (self.new ≡ timer_moved reactor.old.core self.old (To when task)) }
        ensures err { OnErr result (self.new ≡ self.old) }
        ensures asked { Asked (To when task) self.old result (N.outer notifier.old) (N.outer notifier.new)
            reactor.old reactor.new }
    {
        let kept = register(alloc, reactor, notifier, when, task)?;
        unregister(alloc, reactor, self.when, self.kept)?;
        self.when = when;
        self.kept = kept;
        Ok(())
    }

    /// Sets the moment and the period, and registers the moment for the task that is kept. Where no moment is given the
    /// timer is cleared.
    fn set<N: Notifier>(
        &mut self,
        alloc: Global,
        reactor: &mut Reactor,
        notifier: &mut N,
        when: Option<u64>,
        period: Option<u64>,
    ) -> Result<(), ReactError>
        ensures { IsSet when period result (N.outer notifier.old) (N.outer notifier.new)
            self.old self.new reactor.old reactor.new }
    {
        let task = self.kept.task();
        self.move_to(alloc, reactor, notifier, when, task)?;
        if when.is_some() {
            self.period = period;
        }
        Ok(())
    }

    /// Sets this moment, in nanoseconds, without a period. Where a task is kept the new moment is registered for it,
    /// and the old one is no more; else the reactor isn't touched.
    ///
    /// Poller, Exhausted and OutOfMemory as at `Reactor::insert_timer`, where a task is kept; else there is no `Err`.
    /// The timer stays as it was after every `Err`, and the reactor is as `insert_timer` leaves it.
    pub fn set_at<N: Notifier>(
        &mut self,
        alloc: Global,
        reactor: &mut Reactor,
        notifier: &mut N,
        moment: u64,
    ) -> Result<(), ReactError>
        ensures { IsSet (Some moment) None result (N.outer notifier.old) (N.outer notifier.new)
            self.old self.new reactor.old reactor.new }
    {
        self.set(alloc, reactor, notifier, Some(moment), None)
    }

    /// Sets the moment that comes so long after now, in nanoseconds, without a period, as `set_at` does. Where it
    /// passes `u64::MAX` the timer is cleared, as by `clear`, and there is no `Err`.
    pub fn set_after<N: Notifier>(
        &mut self,
        alloc: Global,
        reactor: &mut Reactor,
        notifier: &mut N,
        now: u64,
        duration: u64,
    ) -> Result<(), ReactError>
        ensures { IsSet (sum_within now duration) None result (N.outer notifier.old) (N.outer notifier.new)
            self.old self.new reactor.old reactor.new }
    {
        self.set(alloc, reactor, notifier, sum(now, duration), None)
    }

    /// Sets the moment that comes a period after now, and this period, in nanoseconds, as `set_at` does. Where it
    /// passes `u64::MAX` the timer is cleared, as by `clear`, and there is no `Err`.
    pub fn set_interval<N: Notifier>(
        &mut self,
        alloc: Global,
        reactor: &mut Reactor,
        notifier: &mut N,
        now: u64,
        period: u64,
    ) -> Result<(), ReactError>
        ensures { IsSet (sum_within now period) (Some period) result (N.outer notifier.old) (N.outer notifier.new)
            self.old self.new reactor.old reactor.new }
    {
        self.set(alloc, reactor, notifier, sum(now, period), Some(period))
    }

    /// Sets this first moment and this period, in nanoseconds, as `set_at` does.
    pub fn set_interval_at<N: Notifier>(
        &mut self,
        alloc: Global,
        reactor: &mut Reactor,
        notifier: &mut N,
        start: u64,
        period: u64,
    ) -> Result<(), ReactError>
        ensures { IsSet (Some start) (Some period) result (N.outer notifier.old) (N.outer notifier.new)
            self.old self.new reactor.old reactor.new }
    {
        self.set(alloc, reactor, notifier, Some(start), Some(period))
    }

    /// Clears the timer: removes its registration. The task stays kept, so that a setter registers the next moment for
    /// it. No memory is needed.
    pub fn clear(&mut self, alloc: Global, reactor: &mut Reactor) -> Result<(), OutOfMemory>
        ensures ok { result ≡ Ok tt }
        ensures timer { self.new ≡ timer_cleared self.old }
        ensures task { kept_task self.new.kept ≡ kept_task self.old.kept }
        ensures core { reactor.new ≡ record reactor.old { core = core_cleared reactor.old.core self.old } }
        ensures gone { standing reactor.new.core self.old ≡ None }
        ensures steps { CoreSteps reactor.old.core reactor.new.core }
        ensures reports { reactor.new.events ≡ reactor.old.events }
    {
        unregister(alloc, reactor, self.when, self.kept)?;
        self.when = None;
        self.kept = self.kept.alone();
        Ok(())
    }

    /// Ends the timer: removes its registration. No memory is needed.
    pub fn cancel(self, alloc: Global, reactor: &mut Reactor) -> Result<(), (Timer, OutOfMemory)>
        ensures ok { result ≡ Ok tt }
        ensures core { reactor.new ≡ record reactor.old { core = core_cleared reactor.old.core self } }
        ensures gone { standing reactor.new.core self ≡ None }
        ensures steps { CoreSteps reactor.old.core reactor.new.core }
        ensures reports { reactor.new.events ≡ reactor.old.events }
    {
        match unregister(alloc, reactor, self.when, self.kept) {
            Ok(()) => Ok(()),
            Err(lack) => Err((self, lack)),
        }
    }

    /// The moment that comes a period after this one.
    fn next(&self, when: u64) -> Option<u64>
        ensures { result ≡ next_moment when self.now.period }
    {
        match self.period {
            Some(period) => sum(when, period),
            None => None,
        }
    }

    /// Gives the timer its next moment, where there is one, and registers it for this task.
    fn move_next<N: Notifier>(
        &mut self,
        alloc: Global,
        reactor: &mut Reactor,
        notifier: &mut N,
        next: Option<u64>,
        task: u64,
    ) -> Result<(), ReactError>
        ensures timer { OnOk result (self.new ≡ timer_moved reactor.old.core self.old (next_move next task)) }
        ensures err { OnErr result (self.new ≡ self.old) }
        ensures asked { Asked (next_move next task) self.old result (N.outer notifier.old) (N.outer notifier.new)
            reactor.old reactor.new }
    {
        let task = match next {
            Some(_) => Some(task),
            None => None,
        };
        self.move_to(alloc, reactor, notifier, next, task)
    }

    /// Asks whether the timer's moment has come, for a task that is to be woken otherwise. Now is in nanoseconds.
    ///
    /// Ready with the moment exactly where one is set that is at most `now`. Its registration is removed, with the task
    /// that was kept. The next moment comes a period after this one, and is registered for this task; without a period,
    /// or where the sum passes `u64::MAX`, there is none. Else Pending: the moment, where one is set, is registered for
    /// this task and no other; where it was already, it stays under its number.
    ///
    /// Poller, Exhausted and OutOfMemory as at `Reactor::insert_timer`, where a moment is to be registered; else there
    /// is no `Err`. The timer stays as it was after every `Err`, and the reactor is as `insert_timer` leaves it.
    pub fn poll_next<N: Notifier>(
        &mut self,
        alloc: Global,
        reactor: &mut Reactor,
        notifier: &mut N,
        now: u64,
        task: u64,
    ) -> Result<Poll<u64>, ReactError>
        ensures answer { IfOk result (λ answer. answer ≡ poll_answer self.old.when now) }
        ensures early { IfReady result (λ moment. moment ≤ now) }
        ensures gone { IfReady result (λ _. standing reactor.new.core self.old ≡ None) }
        ensures waits { OnPending result (IfSome self.old.when (λ _. IsTrue (is_for self.new.kept task))) }
        ensures once { OnPending result
            (reactor.new.core.made ≡ reactor.old.core.made + pending_registrations self.old task) }
        ensures timer { OnOk result (self.new ≡ timer_moved reactor.old.core self.old (poll_move self.old now task)) }
        ensures err { OnErr result (self.new ≡ self.old) }
        ensures asked { Asked (poll_move self.old now task) self.old (answer_of result) (N.outer notifier.old)
            (N.outer notifier.new) reactor.old reactor.new }
    {
        let Some(when) = self.when else {
            return Ok(Poll::Pending);
        };
        if when <= now {
            let next = self.next(when);
            self.move_next(alloc, reactor, notifier, next, task)?;
            return Ok(Poll::Ready(when));
        }
        if !self.kept.is_for(task) {
            self.move_to(alloc, reactor, notifier, Some(when), Some(task))?;
        }
        Ok(Poll::Pending)
    }

    /// Asks whether the timer's moment has come, as `poll_next` does: a timer with a period goes on to its next one.
    ///
    /// Poller, Exhausted and OutOfMemory as at `poll_next`.
    pub fn poll<N: Notifier>(
        &mut self,
        alloc: Global,
        reactor: &mut Reactor,
        notifier: &mut N,
        now: u64,
        task: u64,
    ) -> Result<Poll<u64>, ReactError>
        ensures answer { IfOk result (λ answer. answer ≡ poll_answer self.old.when now) }
        ensures early { IfReady result (λ moment. moment ≤ now) }
        ensures gone { IfReady result (λ _. standing reactor.new.core self.old ≡ None) }
        ensures waits { OnPending result (IfSome self.old.when (λ _. IsTrue (is_for self.new.kept task))) }
        ensures once { OnPending result
            (reactor.new.core.made ≡ reactor.old.core.made + pending_registrations self.old task) }
        ensures timer { OnOk result (self.new ≡ timer_moved reactor.old.core self.old (poll_move self.old now task)) }
        ensures err { OnErr result (self.new ≡ self.old) }
        ensures asked { Asked (poll_move self.old now task) self.old (answer_of result) (N.outer notifier.old)
            (N.outer notifier.new) reactor.old reactor.new }
    {
        self.poll_next(alloc, reactor, notifier, now, task)
    }
}

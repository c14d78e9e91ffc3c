//! The calls on timers: operations on them wait in a queue, which a round applies.
ghost use Rattle.std.specs.Prelude.{◌≡◌, ◌+◌, ◌++◌, ◌∷◌, [], List, Ok, IfOk, OnOk, OnErr, length};
ghost use Rattle.std.specs.Prelude.{◌<◌};
ghost use Rattle.react_timers.specs.declared.timer.TimerOp.{TimerOp};
ghost use Rattle.react_core.specs.Outer.{Keeps};
ghost use Rattle.react_core.specs.Outer as part;
ghost use Rattle.react_core.specs.Round.{NumberedBy, RoundCounted};
ghost use Rattle.react_core.specs.Steps.{CoreSteps};
ghost use Rattle.react_core.specs.Timing.{drawn, queued, with_place, timer_inserted, timer_removed, timers_cleared};
ghost use Rattle.react_core.specs.Timing.{insertion_refused, insertion_told};
ghost use Rattle.react_core.specs.Told.{told, notify_told, Counted};
ghost use Rattle.react_core.specs.declared.reactor.Counter.TheVariants as counter;

use crate::outside::{Fault, Notifier, OutOfMemory};
use crate::reactor::{Counter, ReactError, Reactor};
use crate::source::make_place;
use react_timers::timer::TimerOp;
use std::alloc::Global;

impl Reactor {
    /// Queues the insertion of a timer that wakes the task in the first round with a moment of at least `when`, in
    /// nanoseconds, and notifies, since a wait may be under way that would end too late. Answers the timer's number.
    ///
    /// A full queue is applied before, and stays applied after a refusal.
    ///
    /// Exhausted: the last timer's number was `u64::MAX`. The reactor stays as it was. Poller: the notice failed; the
    /// insertion is taken back, and the number stays used. After want of memory it does not.
    pub fn insert_timer<N: Notifier>(
        &mut self,
        _alloc: Global,
        notifier: &mut N,
        when: u64,
        task: u64,
    ) -> Result<u64, ReactError>
        ensures number { IfOk result (λ number. number ≡ self.old.core.made + 1) }
        ensures core { OnOk result (self.new ≡ record self.old { core = timer_inserted self.old.core when task }) }
        ensures err { OnErr result (self.new ≡ record self.old { core = insertion_refused self.old.core result }) }
        ensures steps { CoreSteps self.old.core self.new.core }
        ensures numbered { NumberedBy counter.Timer result self.old.core.made }
        ensures told { (N.outer notifier.new).events ≡ told (N.outer notifier.old).events (insertion_told result) }
        ensures cause { RoundCounted result (N.outer notifier.old).poller_faults (N.outer notifier.new).poller_faults }
        ensures keeps { Keeps part.Poller (N.outer notifier.old) (N.outer notifier.new) }
    {
        let number = self.draw_timer()?;
        match self.queue_and_notify(notifier, TimerOp::Insert { when, number, task }) {
            Ok(()) => Ok(number),
            Err(Fault::Failed) => Err(ReactError::Poller),
            Err(Fault::OutOfMemory) => {
                self.made = number - 1;
                Err(ReactError::OutOfMemory)
            }
        }
    }

    /// Queues the removal of the timer with this moment and number. Where there is none, it changes nothing. No memory
    /// is needed.
    pub fn remove_timer(
        &mut self,
        _alloc: Global,
        when: u64,
        number: u64,
    ) -> Result<(), OutOfMemory>
        ensures ok { result ≡ Ok tt }
        ensures core { self.new ≡ record self.old { core = timer_removed self.old.core when number } }
        ensures steps { CoreSteps self.old.core self.new.core }
    {
        self.make_queue_place();
        self.timers.push(TimerOp::Remove { when, number });
        Ok(())
    }

    /// Takes out all timers and all queued operations.
    pub fn clear_timers(&mut self)
        ensures core { self.new ≡ record self.old { core = timers_cleared self.old.core } }
    {
        self.timers.clear();
    }

    /// Uses the next timer's number.
    ///
    /// Exhausted: the last one was `u64::MAX`. The reactor stays as it was.
    fn draw_timer(&mut self) -> Result<u64, ReactError>
        ensures number { IfOk result (λ number. number ≡ self.old.core.made + 1) }
        ensures core { OnOk result (self.new ≡ record self.old { core = drawn self.old.core }) }
        ensures err { OnErr result (self.new ≡ self.old) }
        ensures steps { CoreSteps self.old.core self.new.core }
        ensures numbered { NumberedBy counter.Timer result self.old.core.made }
        ensures exhausted { OnErr result (self.old.core.made ≡ u64.MAX) }
    {
        if self.made == u64::MAX {
            return Err(ReactError::Exhausted {
                counter: Counter::Timer,
                value: self.made,
            });
        }
        self.made += 1;
        Ok(self.made)
    }

    /// Queues an insertion and notifies. After a refusal it is taken back.
    fn queue_and_notify<N: Notifier>(&mut self, notifier: &mut N, op: TimerOp) -> Result<(), Fault>
        ensures core { OnOk result (self.new ≡ record self.old { core = queued (with_place self.old.core) op }) }
        ensures err { OnErr result (self.new ≡ record self.old { core = with_place self.old.core }) }
        ensures told { (N.outer notifier.new).events ≡ told (N.outer notifier.old).events (notify_told result) }
        ensures cause { Counted result (N.outer notifier.old).poller_faults (N.outer notifier.new).poller_faults }
        ensures keeps { Keeps part.Poller (N.outer notifier.old) (N.outer notifier.new) }
    {
        self.queue_timer(op)?;
        let notified = notifier.notify();
        if notified.is_err() {
            self.take_back();
        }
        notified
    }

    /// Queues an operation, in memory that it reserves.
    fn queue_timer(&mut self, op: TimerOp) -> Result<(), OutOfMemory>
        ensures core { OnOk result (self.new ≡ record self.old { core = queued (with_place self.old.core) op }) }
        ensures err { OnErr result (self.new ≡ record self.old { core = with_place self.old.core }) }
    {
        self.make_queue_place();
        self.timers.reserve(1)?;
        let others = self.most_others();
        make_place(self.sources.len(), others, &mut self.hands)?;
        self.timers.push(op);
        Ok(())
    }

    /// Takes the last operation back out of the queue.
    fn take_back(&mut self)
        ensures core { (before : List TimerOp) → (op : TimerOp) → self.old.core.queue ≡ before ++ op ∷ [] →
            self.new ≡ record self.old { core = record self.old.core { queue = before } } }
    {
        let _ = self.timers.take_back();
    }

    /// Applies a full queue, so that one more operation has its place.
    fn make_queue_place(&mut self)
        ensures core { self.new ≡ record self.old { core = with_place self.old.core } }
        ensures place { length self.new.core.queue < 1000 }
        ensures steps { CoreSteps self.old.core self.new.core }
    {
        if !self.timers.can_push() {
            self.timers.apply();
        }
    }
}

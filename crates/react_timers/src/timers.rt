//! The timers and their queue.
ghost use Rattle.std.specs.Prelude.{◌≡◌, ◌+◌, ◌*◌, ◌≤◌, ◌<◌, ◌++◌, ◌∷◌, ◌↔◌, [], length, nat_lt, IfOk, OnOk, IsSome};
ghost use Rattle.std.specs.Prelude.{IsTrue, MatchOption, option_to_list, vec_len, vec_capacity};
ghost use Rattle.react_timers.specs.Live.{Rises, applied, applied_all, due, later, tasks, insertions, insertions_of};
ghost use Rattle.react_timers.specs.Live.{nearest_moment, IsNearest};

use crate::entries::Entries;
use crate::live::Live;
use crate::timer::TimerOp;
use crate::{held, moments};
use std::alloc::{AllocError, Global};
use std::marker::Model;

/// How many operations the queue holds.
pub const QUEUE: usize = 1000;

/// Timers: a heap of moments in nanoseconds beside the live timers by rising number, and a queue of operations.
#[derive(Drop)]
pub struct Timers {
    entries: Entries,
    live: Live,
    queue: Vec<TimerOp>,
    /// How many operations of the queue are insertions.
    awaited: usize,
}

impl Model for Timers {
    ghost use Rattle.std.specs.Prelude.{◌≡◌, ◌+◌, ◌*◌, ◌≤◌, length, vec_len, vec_capacity};
    ghost use Rattle.react_timers.specs.Timetable.{Timetable, room_in};
    ghost use Rattle.react_timers.specs.Held.{Held};
    ghost use Rattle.react_timers.specs.Live.{insertions};

    ghost Value = { Timetable };

    ghost view = { λ t. record {
      live = t.live.items;
      queue = t.queue.items;
      entries = length t.entries.items;
      room = room_in t.entries.places (length t.entries.items) t.live.places t.live.used
          (insertions t.queue.items);
    } };

    ghost invariant = { λ t. record {
      held : Held t.entries.items t.live.items;
      entry_room : length t.entries.items + insertions t.queue.items ≤ t.entries.places;
      live_room : t.live.used + insertions t.queue.items ≤ t.live.places;
      queue_room : 1000 ≤ vec_capacity t.queue;
      awaited : t.awaited ≡ insertions t.queue.items;
      few : length t.entries.items ≤ 2 * length t.live.items + 1000;
    } };
}

impl Timers {
    /// No timers, and an empty queue with its places.
    pub fn new(alloc: Global) -> Result<Timers, AllocError>
        ensures { IfOk result (λ t. (t.live ≡ []) × (t.queue ≡ []) × (t.entries ≡ 0)) }
    {
        Ok(Timers {
            entries: Entries::new(alloc),
            live: Live::new(alloc),
            queue: Vec::with_capacity(alloc, QUEUE)?,
            awaited: 0,
        })
    }

    /// Whether the queue has a place.
    pub fn can_push(&self) -> bool
        ensures { result ≡ nat_lt (length self.now.queue) 1000 }
    {
        self.queue.len() < QUEUE
    }

    /// Whether there is memory for an insertion more.
    pub fn has_room(&self) -> bool
        ensures { result ≡ nat_lt 0 self.now.room }
    {
        self.awaited < self.entries.capacity() - self.entries.len()
            && self.awaited < self.live.capacity() - self.live.used()
    }

    /// How many operations of the queue are insertions.
    pub fn awaited(&self) -> usize
        ensures { result ≡ insertions self.now.queue }
    {
        self.awaited
    }

    /// Whether no timer is left once the queue is applied. It is not applied, and no memory is taken.
    pub fn is_empty_applied(&self) -> bool
        ensures { IsTrue result ↔ (applied_all self.now.live self.now.queue ≡ []) }
    {
        moments::is_empty_after(&self.live, &self.queue)
    }

    /// How many entries the heap has, stale ones too. They are never more than two for each live timer, and 1000.
    pub fn entries(&self) -> usize
        ensures count { result ≡ self.now.entries }
        ensures least { length self.now.live ≤ result }
        ensures bound { result ≤ 2 * length self.now.live + 1000 }
    {
        self.entries.len()
    }

    /// How many timers are live. Their numbers rise.
    pub fn live(&self) -> usize
        ensures live { result ≡ length self.now.live }
        ensures rises { Rises self.now.live }
    {
        let _ = &self.entries;
        self.live.len()
    }

    /// Makes room for so many insertions more than the queue has. Timers and queue stay, also where there is no memory.
    pub fn reserve(&mut self, additional: usize) -> Result<(), AllocError>
        ensures live { self.new.live ≡ self.old.live }
        ensures queue { self.new.queue ≡ self.old.queue }
        ensures entries { self.new.entries ≡ self.old.entries }
        ensures kept { self.old.room ≤ self.new.room }
        ensures room { OnOk result (additional ≤ self.new.room) }
    {
        let Some(all) = self.awaited.checked_add(additional) else {
            return Err(AllocError);
        };
        self.entries.reserve(all)?;
        self.live.reserve(all)
    }

    /// Queues an operation as the last one, without memory. The timers stay.
    #[tactic(auto, using(crate::proofs::Covers::queue_steps))]
    pub fn push(&mut self, op: TimerOp)
        requires place { length self.old.queue < 1000 }
        requires room { insertions_of op ≤ self.old.room }
        ensures live { self.new.live ≡ self.old.live }
        ensures queue { self.new.queue ≡ self.old.queue ++ op ∷ [] }
        ensures awaited { insertions self.new.queue ≡ insertions self.old.queue + insertions_of op }
        ensures entries { self.new.entries ≡ self.old.entries }
        ensures room { self.new.room + insertions_of op ≡ self.old.room }
    {
        self.awaited += op.insertions();
        self.queue.push_reserved(op);
    }

    /// Takes the last operation back out of the queue. The timers stay.
    #[tactic(auto, using(crate::proofs::Covers::queue_steps))]
    pub fn take_back(&mut self) -> Option<TimerOp>
        ensures live { self.new.live ≡ self.old.live }
        ensures queue { self.old.queue ≡ self.new.queue ++ option_to_list result }
        ensures awaited { insertions self.new.queue + insertions (option_to_list result) ≡ insertions self.old.queue }
        ensures some { IsSome result ↔ (0 < length self.old.queue) }
        ensures entries { self.new.entries ≡ self.old.entries }
        ensures room { self.new.room ≡ self.old.room + insertions (option_to_list result) }
    {
        let op = self.queue.pop()?;
        self.awaited -= op.insertions();
        Some(op)
    }

    /// Applies the queue in order and empties it, without memory.
    pub fn apply(&mut self)
        ensures live { self.new.live ≡ applied_all self.old.live self.old.queue }
        ensures queue { self.new.queue ≡ [] }
        ensures len { length self.new.live ≤ length self.old.live + insertions self.old.queue }
        ensures entries { self.new.entries ≤ 2 * length self.new.live + 1000 }
        ensures room { self.old.room ≤ self.new.room }
    {
        held::apply_all(&mut self.entries, &mut self.live, &self.queue);
        self.queue.clear();
        self.awaited = 0;
        held::trim(&mut self.entries, &mut self.live);
    }

    /// Applies one operation past the queue, without memory. The queue stays.
    pub fn apply_timer(&mut self, op: TimerOp)
        requires { insertions_of op ≤ self.old.room }
        ensures live { self.new.live ≡ applied self.old.live op }
        ensures queue { self.new.queue ≡ self.old.queue }
        ensures len { length self.new.live ≤ length self.old.live + insertions_of op }
        ensures entries { self.new.entries ≤ 2 * length self.new.live + 1000 }
        ensures room { self.old.room ≤ self.new.room + insertions_of op }
    {
        held::apply_op(&mut self.entries, &mut self.live, op);
        held::trim(&mut self.entries, &mut self.live);
    }

    /// Moves the tasks of the timers with a moment of at most `now` nanoseconds behind those in the hands, in the order
    /// of moment, then number, and takes these timers out, without memory. The queue stays.
    pub fn take_due(&mut self, now: u64, hands: &mut Vec<u64>)
        requires { vec_len hands.old + length self.old.live ≤ vec_capacity hands.old }
        ensures hands { hands.new.items ≡ hands.old.items ++ tasks (due now self.old.live) }
        ensures len { vec_len hands.new + length self.new.live ≡ vec_len hands.old + length self.old.live }
        ensures capacity { vec_capacity hands.new ≡ vec_capacity hands.old }
        ensures live { self.new.live ≡ later now self.old.live }
        ensures queue { self.new.queue ≡ self.old.queue }
        ensures entries { self.new.entries ≤ self.old.entries }
        ensures room { self.old.room ≤ self.new.room }
    {
        held::take_due(&mut self.entries, &mut self.live, now, hands);
        held::trim(&mut self.entries, &mut self.live);
    }

    /// The least moment of a live timer, in nanoseconds. Stale entries on the way are dropped, timers and queue stay.
    pub fn nearest(&mut self) -> Option<u64>
        ensures moment { result ≡ nearest_moment self.old.live }
        ensures nearest { MatchOption result (self.old.live ≡ []) (λ when. IsNearest when self.old.live) }
        ensures live { self.new.live ≡ self.old.live }
        ensures queue { self.new.queue ≡ self.old.queue }
        ensures entries { self.new.entries ≤ self.old.entries }
        ensures room { self.old.room ≤ self.new.room }
    {
        held::nearest(&mut self.entries, &self.live)
    }

    /// Takes out all timers and all queued operations. Their memory stays.
    pub fn clear(&mut self)
        ensures live { self.new.live ≡ [] }
        ensures queue { self.new.queue ≡ [] }
        ensures entries { self.new.entries ≡ 0 }
        ensures room { self.old.room ≤ self.new.room }
    {
        self.entries.clear();
        self.live.clear();
        self.queue.clear();
        self.awaited = 0;
    }
}

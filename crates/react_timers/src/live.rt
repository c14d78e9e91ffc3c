//! The live timers, in the order of their numbers. One that is taken out leaves its place, so that none behind it moves.
ghost use Rattle.std.specs.Prelude.{◌≡◌, ◌+◌, ◌≤◌, ◌<◌, [], true, false, suc, length, OnOk, MatchOption, if◌then◌else◌};
ghost use Rattle.std.specs.Prelude.{option_to_list, vec_len, vec_capacity};
ghost use Rattle.react_timers.specs.Live.{Rises, added, without, task_at};
ghost use Rattle.react_timers.specs.Moments.{moment_of};
ghost use Rattle.react_timers.specs.Places.{place, IsNowhere, StandsAt};
ghost use Rattle.react_timers.specs.Slots.{timers_in, lives};

use crate::slot::Slot;
use crate::timer::LiveTimer;
use std::alloc::{AllocError, Global};
use std::marker::Model;

/// Live timers by rising number.
#[derive(Drop)]
pub(crate) struct Live {
    slots: Vec<Slot>,
    /// How many places have a live timer.
    count: usize,
}

impl Model for Live {
    ghost use Rattle.std.specs.Prelude.{◌≡◌, length, vec_len, vec_capacity};
    ghost use Rattle.react_timers.specs.Live.{Rises};
    ghost use Rattle.react_timers.specs.Slots.{timers_in, lives, LiveTable};

    ghost Value = { LiveTable };

    ghost view = { λ l. record {
      items = lives l.slots.items;
      used = vec_len l.slots;
      places = vec_capacity l.slots;
    } };

    ghost invariant = { λ l. record {
      rises : Rises (timers_in l.slots.items);
      count : l.count ≡ length (lives l.slots.items);
    } };
}

/// How many of the timers have a lower number, found by halves.
fn place_of(slots: &[Slot], number: u64) -> usize
    requires { Rises (timers_in slots.now) }
    ensures place { result ≡ place number (timers_in slots.now) }
    ensures within { result ≤ length slots.now }
{
    slots.partition_point(|slot| slot.timer.number < number)
}

/// Where the live timer with this number and this moment stands.
fn position(slots: &[Slot], when: u64, number: u64) -> Option<usize>
    requires { Rises (timers_in slots.now) }
    ensures { MatchOption result (IsNowhere when number slots.now) (λ at. StandsAt when number slots.now at) }
{
    let at = place_of(slots, number);
    if at == slots.len() {
        return None;
    }
    if slots[at].has_at(when, number) {
        Some(at)
    } else {
        None
    }
}

/// Puts a timer at the place of its number in reserved room, unless a live one is there, and tells whether it did.
fn store(slots: &mut Vec<Slot>, timer: LiveTimer) -> bool
    requires rises { Rises (timers_in slots.old.items) }
    requires room { vec_len slots.old < vec_capacity slots.old }
    ensures lives { lives slots.new.items ≡ added timer (lives slots.old.items) }
    ensures rises { Rises (timers_in slots.new.items) }
    ensures kept { result ≡ false → lives slots.new.items ≡ lives slots.old.items }
    ensures more { result ≡ true → length (lives slots.new.items) ≡ suc (length (lives slots.old.items)) }
    ensures len { vec_len slots.new ≤ (if result then vec_len slots.old + 1 else vec_len slots.old) }
    ensures capacity { vec_capacity slots.new ≡ vec_capacity slots.old }
{
    let at = place_of(slots, timer.number);
    let slot = Slot {
        timer,
        is_live: true,
    };
    if at == slots.len() || slots[at].timer.number != timer.number {
        let _ = slots.insert(at, slot);
        return true;
    }
    if slots[at].is_live {
        return false;
    }
    slots[at] = slot;
    true
}

impl Live {
    pub(crate) fn new(alloc: Global) -> Live
        ensures { result.items ≡ [] }
    {
        Live {
            slots: Vec::new(alloc),
            count: 0,
        }
    }

    /// How many timers are live.
    pub(crate) fn len(&self) -> usize
        ensures { result ≡ length self.now.items }
    {
        self.count
    }

    /// The places, those that were left too.
    pub(crate) fn slots(&self) -> &[Slot]
        ensures { lives result.now ≡ self.now.items }
    {
        &self.slots
    }

    pub(crate) fn used(&self) -> usize
        ensures { result ≡ self.now.used }
    {
        self.slots.len()
    }

    pub(crate) fn capacity(&self) -> usize
        ensures { result ≡ self.now.places }
    {
        self.slots.capacity()
    }

    /// Makes room for so many timers more. The timers stay.
    pub(crate) fn reserve(&mut self, additional: usize) -> Result<(), AllocError>
        ensures items { self.new.items ≡ self.old.items }
        ensures used { self.new.used ≡ self.old.used }
        ensures places { self.old.places ≤ self.new.places }
        ensures room { OnOk result (self.new.used + additional ≤ self.new.places) }
    {
        self.slots.reserve(additional)
    }

    pub(crate) fn clear(&mut self)
        ensures items { self.new.items ≡ [] }
        ensures used { self.new.used ≡ 0 }
        ensures places { self.new.places ≡ self.old.places }
    {
        self.slots.clear();
        self.count = 0;
    }

    /// Closes the places up that were left, where they are more than those of live timers.
    pub(crate) fn close_up(&mut self)
        ensures items { self.new.items ≡ self.old.items }
        ensures used { self.new.used ≤ self.old.used }
        ensures places { self.new.places ≡ self.old.places }
    {
        if self.count < self.slots.len() - self.count {
            self.slots.retain(|slot| slot.is_live);
        }
    }

    /// The task of the timer with this number and this moment.
    pub(crate) fn find(&self, when: u64, number: u64) -> Option<u64>
        ensures { result ≡ task_at when number self.now.items }
    {
        let at = position(&self.slots, when, number)?;
        Some(self.slots[at].timer.task)
    }

    /// The moment of the timer with this number.
    pub(crate) fn moment_of(&self, number: u64) -> Option<u64>
        ensures { result ≡ moment_of number self.now.items }
    {
        let at = place_of(&self.slots, number);
        if at == self.slots.len() {
            return None;
        }
        if self.slots[at].has(number) {
            Some(self.slots[at].timer.when)
        } else {
            None
        }
    }

    /// Takes out the timer with this number and this moment, and gives its task.
    pub(crate) fn take_out(&mut self, when: u64, number: u64) -> Option<u64>
        ensures items { self.new.items ≡ without when number self.old.items }
        ensures task { result ≡ task_at when number self.old.items }
        ensures len { length self.new.items + length (option_to_list result) ≡ length self.old.items }
        ensures used { self.new.used ≡ self.old.used }
        ensures places { self.new.places ≡ self.old.places }
    {
        let at = position(&self.slots, when, number)?;
        let slot = self.slots[at];
        self.slots[at] = Slot {
            timer: slot.timer,
            is_live: false,
        };
        self.count -= 1;
        Some(slot.timer.task)
    }

    /// Adds a timer in reserved room, unless one has its number, and tells whether it did.
    pub(crate) fn put_in(&mut self, timer: LiveTimer) -> bool
        requires { self.old.used < self.old.places }
        ensures items { self.new.items ≡ added timer self.old.items }
        ensures kept { result ≡ false → self.new.items ≡ self.old.items }
        ensures len { length self.new.items ≡ (if result then length self.old.items + 1 else length self.old.items) }
        ensures used { self.new.used ≤ (if result then self.old.used + 1 else self.old.used) }
        ensures places { self.new.places ≡ self.old.places }
    {
        let is_new = store(&mut self.slots, timer);
        if is_new {
            self.count += 1;
        }
        is_new
    }
}

//! The heap of moments and numbers.
ghost use Rattle.std.specs.Prelude.{◌≡◌, ◌+◌, ◌≤◌, ◌<◌, ◌∷◌, [], length, vec_capacity, map, All, OnOk, MatchOption};
ghost use Rattle.std.specs.Prelude.{IfNone, IsPermutation};
ghost use Rattle.react_timers.specs.Heaped.{IsSoonest, NoneDue, Pops, PopsDue};
ghost use Rattle.react_timers.specs.Held.{entry_of};
ghost use Rattle.react_timers.specs.Slots.{lives};

use crate::entry::Entry;
use crate::sift::{order, rise, sink};
use crate::slot::Slot;
use std::alloc::{AllocError, Global};
use std::marker::Model;

/// A heap of entries, the soonest on top.
#[derive(Drop)]
pub(crate) struct Entries {
    items: Vec<Entry>,
}

impl Model for Entries {
    ghost use Rattle.std.specs.Prelude.{vec_len, vec_capacity};
    ghost use Rattle.react_timers.specs.Heaped.{Heaped};
    ghost use Rattle.react_timers.specs.Ordered.{IsOrdered};

    ghost Value = { Heaped };

    ghost view = { λ e. record { items = e.items.items; places = vec_capacity e.items } };

    ghost invariant = { λ e. IsOrdered e.items.items 0 (vec_len e.items) };
}

impl Entries {
    pub(crate) fn new(alloc: Global) -> Entries
        ensures { result.items ≡ [] }
    {
        Entries {
            items: Vec::new(alloc),
        }
    }

    pub(crate) fn len(&self) -> usize
        ensures { result ≡ length self.now.items }
    {
        self.items.len()
    }

    pub(crate) fn capacity(&self) -> usize
        ensures { result ≡ self.now.places }
    {
        self.items.capacity()
    }

    /// Makes room for so many entries more. The entries stay.
    pub(crate) fn reserve(&mut self, additional: usize) -> Result<(), AllocError>
        ensures items { self.new.items ≡ self.old.items }
        ensures places { self.old.places ≤ self.new.places }
        ensures room { OnOk result (length self.new.items + additional ≤ self.new.places) }
    {
        self.items.reserve(additional)
    }

    pub(crate) fn clear(&mut self)
        ensures items { self.new.items ≡ [] }
        ensures places { self.new.places ≡ self.old.places }
    {
        self.items.clear();
    }

    /// Adds an entry, in reserved room.
    pub(crate) fn add(&mut self, entry: Entry)
        requires { length self.old.items < self.old.places }
        ensures items { IsPermutation (entry ∷ self.old.items) self.new.items }
        ensures places { self.new.places ≡ self.old.places }
    {
        let at = self.items.len();
        self.items.push_reserved(entry);
        rise(&mut self.items, at);
    }

    /// One entry for each timer, in linear time and in place.
    pub(crate) fn rebuild(&mut self, slots: &[Slot])
        requires { length (lives slots.now) ≤ self.old.places }
        ensures items { IsPermutation (map entry_of (lives slots.now)) self.new.items }
        ensures places { self.new.places ≡ self.old.places }
    {
        fill(&mut self.items, slots);
        order(&mut self.items);
    }

    /// The soonest entry, by moment, then number.
    pub(crate) fn soonest(&self) -> Option<Entry>
        ensures { MatchOption result (self.now.items ≡ []) (λ e. IsSoonest e self.now.items) }
    {
        if self.items.is_empty() {
            return None;
        }
        let entry = self.items[0];
        Some(entry)
    }

    /// Takes the soonest entry out.
    pub(crate) fn pop(&mut self) -> Option<Entry>
        ensures popped { MatchOption result (self.old.items ≡ []) (λ e. Pops self.old.items e self.new.items) }
        ensures none { IfNone result (self.new.items ≡ []) }
        ensures places { self.new.places ≡ self.old.places }
    {
        if self.items.is_empty() {
            return None;
        }
        let entry = self.items.swap_remove(0);
        sink(&mut self.items, 0);
        Some(entry)
    }

    /// Takes the soonest entry out, where its moment is at most `now` nanoseconds.
    pub(crate) fn pop_due(&mut self, now: u64) -> Option<Entry>
        ensures popped { MatchOption result (NoneDue now self.new.items) (PopsDue now self.old.items self.new.items) }
        ensures none { IfNone result (self.new.items ≡ self.old.items) }
        ensures places { self.new.places ≡ self.old.places }
    {
        let entry = self.soonest()?;
        if entry.when <= now { self.pop() } else { None }
    }
}

/// The entries of the live timers, in the order of the timers.
fn fill(items: &mut Vec<Entry>, slots: &[Slot])
    requires { length (lives slots.now) ≤ vec_capacity items.old }
    ensures items { items.new.items ≡ map entry_of (lives slots.now) }
    ensures capacity { vec_capacity items.new ≡ vec_capacity items.old }
{
    items.clear();
    for slot in slots {
        if slot.is_live {
            items.push_reserved(Entry {
                when: slot.timer.when,
                number: slot.timer.number,
            });
        }
    }
}

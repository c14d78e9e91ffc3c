//! Sources, and the table that holds them by their keys.
ghost use Rattle.std.specs.Prelude.{◌≡◌, ◌+◌, ◌++◌, ◌*◌, ◌≤◌, ◌<◌, ◌^◌, false, None, Some, IfSome, OnOk, length};
ghost use Rattle.std.specs.Prelude.{vec_len, vec_capacity};
ghost use Rattle.std.specs.Borrow.{sem};
ghost use Rattle.slab.specs.Slab.{entries, HasRoomFor};
ghost use Rattle.react_core.specs.Sources.{source_of, with_new, without, places_of, new_source, side, IsDatedSource};

use crate::interest::{Arming, Interest};
use crate::outside::{Fault, OutOfMemory, Registrar, Report};
use crate::reactor::Dir;
use slab::Slab;
use std::alloc::Global;
use std::marker::Model;

/// A registered wire, with both its directions.
#[derive(Drop)]
pub struct Source {
    pub(crate) wire: u32,
    pub(crate) read: Interest,
    pub(crate) write: Interest,
}

impl Model for Source {
    ghost use Rattle.react_core.specs.Places as places;

    ghost Value = { places.Source };

    ghost view = { λ s. record { wire = s.wire; read = s.read; write = s.write } };
}

impl Source {
    ghost use Rattle.react_core.specs.Asking.{arming_for};
    ghost use Rattle.react_core.specs.Lending.{LendsSide};
    ghost use Rattle.react_core.specs.Reports.{reported, taken_by_of};

    /// A source that nothing waits for, and that no round has reported.
    pub(crate) fn new(alloc: Global, wire: u32) -> Source
        ensures { result ≡ new_source wire }
    {
        Source {
            wire,
            read: Interest::new(alloc),
            write: Interest::new(alloc),
        }
    }

    /// How many places futures hold.
    pub(crate) fn places(&self) -> usize
        requires { places_of self.now < 2 ^ 64 }
        ensures { result ≡ places_of self.now }
    {
        self.read.places() + self.write.places()
    }

    /// The arming of this direction and of all others that a task waits for.
    pub(crate) fn arming(&self, key: usize, dir: Dir) -> Arming
        ensures { result ≡ arming_for key dir self.now }
    {
        let (read, write) = match dir {
            Dir::Read => (true, self.write.waits()),
            Dir::Write => (self.read.waits(), true),
        };
        Arming {
            wire: self.wire,
            key,
            read,
            write,
        }
    }

    /// Lends a direction.
    pub(crate) fn side_mut(&mut self, dir: Dir) -> &mut Interest
        ensures* lends { sem 𝓛 (LendsSide dir self.entry result) }
        ensures value { result.now ≡ side dir self.old }
    {
        match dir {
            Dir::Read => &mut self.read,
            Dir::Write => &mut self.write,
        }
    }

    /// The directions that a report names are reported in this round, and their tasks are taken, write before read.
    pub(crate) fn mark(&mut self, ticker: u64, report: Report, hands: &mut Vec<u64>)
        requires begun { 1 ≤ ticker }
        requires dated { IsDatedSource ticker self.old }
        requires room { vec_len hands.old + length (taken_by_of report (Some self.old)) ≤ vec_capacity hands.old }
        ensures source { self.new ≡ reported ticker report self.old }
        ensures hands { hands.new.items ≡ hands.old.items ++ taken_by_of report (Some self.old) }
        ensures len { vec_len hands.new ≡ vec_len hands.old + length (taken_by_of report (Some self.old)) }
        ensures capacity { vec_capacity hands.new ≡ vec_capacity hands.old }
    {
        self.write.mark(report.write, ticker, hands);
        self.read.mark(report.read, ticker, hands);
    }
}

impl Source {
    ghost use Rattle.react_core.specs.Outer.{Keeps};
    ghost use Rattle.react_core.specs.Outer as part;
    ghost use Rattle.react_core.specs.Reports.{arming_of, tries_told, tries_of, AnswersArming};
    ghost use Rattle.react_core.specs.Told.{told, Counted, OnLack};

    /// Asks the poller for all directions that a task waits for, where there is one.
    pub(crate) fn arm<R: Registrar>(&self, registrar: &mut R, key: usize) -> Result<(), Fault>
        ensures told { (R.outer registrar.new).events ≡ told (R.outer registrar.old).events
            (tries_told (tries_of (arming_of key self.now) result)) }
        ensures answers { AnswersArming (arming_of key self.now) result }
        ensures memory { OnLack result ((R.outer registrar.old).ample ≡ false) }
        ensures cause { Counted result (R.outer registrar.old).poller_faults (R.outer registrar.new).poller_faults }
        ensures keeps { Keeps part.Poller (R.outer registrar.old) (R.outer registrar.new) }
    {
        let read = self.read.waits();
        let write = self.write.waits();
        if !read && !write {
            return Ok(());
        }
        // An arming names all directions of its key in place of those that it named before.
        registrar.modify(self.wire, key, read, write)
    }
}

/// How many tasks can wait at so many sources and others, futures' places or timers, where that is a number of the type.
fn most_tasks(sources: usize, others: usize) -> Option<usize>
    ensures { IfSome result (λ tasks. tasks ≡ 2 * sources + others) }
{
    sources.checked_mul(2)?.checked_add(others)
}

/// Reserves what one source more needs: its own place, and in `hands` two for each source that has one, beside one for
/// each other task, a future's or a timer's.
pub(crate) fn make_room(
    sources: &mut Slab<Source>,
    others: usize,
    hands: &mut Vec<u64>,
) -> Result<(), OutOfMemory>
    ensures sources { entries sources.new ≡ entries sources.old }
    ensures hands { hands.new.items ≡ hands.old.items }
    ensures place { OnOk result (HasRoomFor sources.new 1) }
    ensures tasks { OnOk result
        (vec_len hands.new + (2 * (length (entries sources.old) + 1) + others) ≤ vec_capacity hands.new) }
    ensures kept { vec_capacity hands.old ≤ vec_capacity hands.new }
{
    sources.reserve(1)?;
    // For all places of the table, so that the hands grow as seldom as it does.
    let Some(tasks) = most_tasks(sources.capacity(), others) else {
        return Err(OutOfMemory);
    };
    hands.reserve(tasks)?;
    Ok(())
}

/// Reserves what one other task more needs, in `hands`.
pub(crate) fn make_place(
    sources: usize,
    others: usize,
    hands: &mut Vec<u64>,
) -> Result<(), OutOfMemory>
    ensures hands { hands.new.items ≡ hands.old.items }
    ensures tasks { OnOk result (vec_len hands.new + (2 * sources + (others + 1)) ≤ vec_capacity hands.new) }
    ensures kept { vec_capacity hands.old ≤ vec_capacity hands.new }
{
    let Some(more) = others.checked_add(1) else {
        return Err(OutOfMemory);
    };
    let Some(tasks) = most_tasks(sources, more) else {
        return Err(OutOfMemory);
    };
    hands.reserve(tasks)?;
    Ok(())
}

/// Puts a source into the table, under a key that has none.
pub(crate) fn put_in(sources: &mut Slab<Source>, source: Source) -> usize
    requires { HasRoomFor sources.old 1 }
    ensures key { result ≡ sources.old.vacant_key }
    ensures free { source_of (entries sources.old) result ≡ None }
    ensures entries { entries sources.new ≡ with_new (entries sources.old) result source }
{
    sources.insert_reserved(source)
}

/// Takes the source under this key out of the table.
pub(crate) fn take_out(sources: &mut Slab<Source>, key: usize) -> Option<Source>
    ensures source { result ≡ source_of (entries sources.old) key }
    ensures entries { entries sources.new ≡ without (entries sources.old) key }
{
    sources.try_remove(key)
}

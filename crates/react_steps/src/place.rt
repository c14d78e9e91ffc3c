//! A source with what waits for its directions, and what a poll or a report does to them.
ghost use Rattle.std.specs.Prelude.{◌≡◌, ◌++◌, IfOk, OnOk};
ghost use Rattle.std.specs.Option.{option_to_list};
ghost use Rattle.react_core.specs.Asking.{asked_of, after_direction};
ghost use Rattle.react_core.specs.Futures.{asks, is_fired, polled_futures, after_future, without_future};
ghost use Rattle.react_core.specs.Keyed.{at_key, KeysRiseFrom};
ghost use Rattle.react_core.specs.Readiness.{fresh_at, stored_task, direction_outcome, arms};
ghost use Rattle.react_core.specs.Reports.{marked, taken_of, without_task, future_tasks, without_tasks};
ghost use Rattle.react_core.specs.Sources.{waits, some_task, has_task, idle, new_source, side, with_side};

use crate::armed::Armed;
use crate::table::{find, place_of, take_row};
use react_core::interest::Asked;
use react_core::outside::{OutOfMemory, Report};
use react_core::reactor::Dir;
use std::alloc::Global;
use std::marker::Model;

/// What waits at a place: the round that had been begun last when its interest began, and the task that is to be woken,
/// unless a report has taken it.
#[derive(Clone, Copy)]
pub(crate) struct Entry {
    pub(crate) since: u64,
    pub(crate) task: Option<u64>,
}

impl Model for Entry {
    ghost use Rattle.react_core.specs.Places as places;

    ghost Value = { places.Entry };

    ghost view = { λ e. record { since = e.since; task = e.task } };

    ghost inverse = { λ e. record { since = e.since; task = e.task } };
}

/// One direction of a source.
#[derive(Drop)]
pub(crate) struct Direction {
    // The last round that reported it.
    reported: Option<u64>,
    polled: Option<Entry>,
    // By rising place.
    futures: Vec<(usize, Entry)>,
}

impl Model for Direction {
    ghost use Rattle.react_core.specs.Keyed.{KeysRiseFrom};
    ghost use Rattle.react_core.specs.Places as places;

    ghost Value = { places.Direction };

    ghost view = { λ d. record { reported = d.reported; polled = d.polled; futures = d.futures.items } };

    ghost invariant = { λ d. KeysRiseFrom 0 d.futures.items };
}

/// Whether a round after the interest's begin has reported the direction.
fn is_fresh(reported: Option<u64>, entry: Option<Entry>) -> bool
    ensures { result ≡ fresh_at reported entry }
{
    match (reported, entry) {
        (Some(round), Some(entry)) => entry.since < round,
        _ => false,
    }
}

/// The task at a place.
fn task_at(entry: Option<Entry>) -> Option<u64>
    ensures { result ≡ stored_task entry }
{
    match entry {
        Some(entry) => entry.task,
        None => None,
    }
}

/// Whether a task waits at a place.
fn waits_at(entry: Option<Entry>) -> bool
    ensures { result ≡ has_task entry }
{
    match entry {
        Some(entry) => entry.task.is_some(),
        None => false,
    }
}

/// Whether a task waits at one of these places.
fn waits_in(futures: &[(usize, Entry)]) -> bool
    ensures { result ≡ some_task futures.now }
{
    for row in futures {
        if row.1.task.is_some() {
            return true;
        }
    }
    false
}

/// What stands at a future's place.
fn entry_at(futures: &[(usize, Entry)], place: usize) -> Option<Entry>
    requires { KeysRiseFrom 0 futures.now }
    ensures { result ≡ at_key futures.now place }
{
    match find(futures, place) {
        Some(at) => Some(futures[at].1),
        None => None,
    }
}

/// The interest begins at a future's place, or, where it has begun, is asked for by another task.
fn store(
    futures: &mut Vec<(usize, Entry)>,
    ticker: u64,
    place: usize,
    task: u64,
) -> Result<(), OutOfMemory>
    requires { KeysRiseFrom 0 futures.old.items }
    ensures items { OnOk result
        (futures.new.items ≡ polled_futures ticker task futures.old.items place (at_key futures.old.items place)) }
    ensures rises { KeysRiseFrom 0 futures.new.items }
{
    if let Some(at) = find(futures, place) {
        let since = futures[at].1.since;
        let entry = Entry {
            since,
            task: Some(task),
        };
        futures[at] = (place, entry);
        return Ok(());
    }
    let entry = Entry {
        since: ticker,
        task: Some(task),
    };
    let at = place_of(futures, place);
    if futures.insert(at, (place, entry)).is_err() {
        return Err(OutOfMemory);
    }
    Ok(())
}

/// Adds a task to those in hand, where there is one.
pub(crate) fn take_task(task: Option<u64>, hands: &mut Vec<u64>) -> Result<(), OutOfMemory>
    ensures { OnOk result (hands.new.items ≡ hands.old.items ++ option_to_list task) }
{
    let Some(task) = task else {
        return Ok(());
    };
    if hands.push(task).is_err() {
        return Err(OutOfMemory);
    }
    Ok(())
}

/// Adds the tasks at the futures' places to those in hand, by rising place.
fn take_tasks(futures: &[(usize, Entry)], hands: &mut Vec<u64>) -> Result<(), OutOfMemory>
    ensures { OnOk result (hands.new.items ≡ hands.old.items ++ future_tasks futures.now) }
{
    for row in futures {
        take_task(row.1.task, hands)?;
    }
    Ok(())
}

/// No task is left at the futures' places.
fn clear_tasks(futures: &mut Vec<(usize, Entry)>)
    ensures { futures.new.items ≡ without_tasks futures.old.items }
{
    for at in 0..futures.len() {
        let row = &mut futures[at];
        let since = row.1.since;
        row.1 = Entry { since, task: None };
    }
}

/// The entry without its task.
fn cleared(entry: Option<Entry>) -> Option<Entry>
    ensures { result ≡ without_task entry }
{
    match entry {
        Some(entry) => {
            let since = entry.since;
            Some(Entry { since, task: None })
        }
        None => None,
    }
}

impl Direction {
    /// A direction that nothing waits for, and that no round has reported.
    fn new(alloc: Global) -> Direction
        ensures { result ≡ idle }
    {
        Direction {
            reported: None,
            polled: None,
            futures: Vec::new(alloc),
        }
    }

    /// Whether a task waits for the direction.
    fn waits(&self) -> bool
        ensures { result ≡ waits self.now }
    {
        waits_in(&self.futures) || waits_at(self.polled)
    }

    /// What a poll of the polled place does.
    fn asked(&self, task: u64) -> Asked
        ensures { result ≡ asked_of (direction_outcome task self.now) }
    {
        if is_fresh(self.reported, self.polled) {
            return Asked::Fires;
        }
        match task_at(self.polled) {
            Some(stored) if stored == task => Asked::Stays,
            stored => Asked::Begins(stored),
        }
    }

    /// Whether a poll of the polled place asks the poller for the direction.
    fn poll_arms(&self, task: u64) -> bool
        ensures { result ≡ arms (direction_outcome task self.now) }
    {
        match self.asked(task) {
            Asked::Begins(None) => !waits_in(&self.futures),
            _ => false,
        }
    }

    /// A poll of the polled place.
    fn poll(&mut self, ticker: u64, task: u64) -> Asked
        ensures asked { result ≡ asked_of (direction_outcome task self.old) }
        ensures direction { self.new ≡ after_direction ticker task self.old }
    {
        let asked = self.asked(task);
        match asked {
            Asked::Fires => self.polled = None,
            Asked::Stays => {}
            Asked::Begins(_) => {
                self.polled = Some(Entry {
                    since: ticker,
                    task: Some(task),
                });
            }
        }
        asked
    }

    /// Whether a poll at this future's place asks the poller for the direction.
    fn future_arms(&self, place: usize) -> bool
        ensures { result ≡ asks self.now (at_key self.now.futures place) }
    {
        !is_fresh(self.reported, entry_at(&self.futures, place)) && !self.waits()
    }

    /// A poll at this future's place. Answers whether it is ready.
    fn poll_future(&mut self, ticker: u64, place: usize, task: u64) -> Result<bool, OutOfMemory>
        ensures ready { IfOk result (λ ready. ready ≡ is_fired self.old place) }
        ensures direction { OnOk result (self.new ≡ after_future ticker task self.old place) }
    {
        if is_fresh(self.reported, entry_at(&self.futures, place)) {
            return Ok(true);
        }
        store(&mut self.futures, ticker, place, task)?;
        Ok(false)
    }

    /// The future at this place ends, where there is one.
    fn cancel(&mut self, place: usize)
        ensures { self.new ≡ without_future self.old place }
    {
        take_row(&mut self.futures, place);
    }

    /// Where it is named, the direction is reported in this round, and its tasks are taken: the polled one, then the
    /// futures' by their places.
    fn mark(&mut self, named: bool, ticker: u64, hands: &mut Vec<u64>) -> Result<(), OutOfMemory>
        ensures direction { OnOk result (self.new ≡ marked named ticker self.old) }
        ensures hands { OnOk result (hands.new.items ≡ hands.old.items ++ taken_of named self.old) }
    {
        if !named {
            return Ok(());
        }
        self.reported = Some(ticker);
        take_task(task_at(self.polled), hands)?;
        self.polled = cleared(self.polled);
        take_tasks(&self.futures, hands)?;
        clear_tasks(&mut self.futures);
        Ok(())
    }
}

/// A registered wire, with both its directions.
#[derive(Drop)]
pub(crate) struct Source {
    wire: u32,
    read: Direction,
    write: Direction,
}

impl Model for Source {
    ghost use Rattle.react_core.specs.Places as places;

    ghost Value = { places.Source };

    ghost view = { λ s. record { wire = s.wire; read = s.read; write = s.write } };
}

impl Source {
    ghost use Rattle.react_core.specs.Reports.{reported, taken_by_of};

    /// A source that nothing waits for, and that no round has reported.
    pub(crate) fn new(alloc: Global, wire: u32) -> Source
        ensures { result ≡ new_source wire }
    {
        Source {
            wire,
            read: Direction::new(alloc),
            write: Direction::new(alloc),
        }
    }

    /// The directions that a task waits for.
    pub(crate) fn waiting(&self) -> Armed
        ensures { result ≡ record { read = waits self.now.read; write = waits self.now.write } }
    {
        Armed {
            read: self.read.waits(),
            write: self.write.waits(),
        }
    }

    /// Whether a poll of a direction's polled place asks the poller.
    pub(crate) fn poll_arms(&self, dir: Dir, task: u64) -> bool
        ensures { result ≡ arms (direction_outcome task (side dir self.now)) }
    {
        match dir {
            Dir::Read => self.read.poll_arms(task),
            Dir::Write => self.write.poll_arms(task),
        }
    }

    /// A poll of a direction's polled place.
    pub(crate) fn poll(&mut self, dir: Dir, ticker: u64, task: u64) -> Asked
        ensures asked { result ≡ asked_of (direction_outcome task (side dir self.old)) }
        ensures source { self.new ≡ with_side dir self.old (after_direction ticker task (side dir self.old)) }
    {
        match dir {
            Dir::Read => self.read.poll(ticker, task),
            Dir::Write => self.write.poll(ticker, task),
        }
    }

    /// Whether a poll at a future's place of a direction asks the poller.
    pub(crate) fn future_arms(&self, dir: Dir, place: usize) -> bool
        ensures { result ≡ asks (side dir self.now) (at_key (side dir self.now).futures place) }
    {
        match dir {
            Dir::Read => self.read.future_arms(place),
            Dir::Write => self.write.future_arms(place),
        }
    }

    /// A poll at a future's place of a direction. Answers whether it is ready.
    pub(crate) fn poll_future(
        &mut self,
        dir: Dir,
        ticker: u64,
        place: usize,
        task: u64,
    ) -> Result<bool, OutOfMemory>
        ensures ready { IfOk result (λ ready. ready ≡ is_fired (side dir self.old) place) }
        ensures source { OnOk result
            (self.new ≡ with_side dir self.old (after_future ticker task (side dir self.old) place)) }
    {
        match dir {
            Dir::Read => self.read.poll_future(ticker, place, task),
            Dir::Write => self.write.poll_future(ticker, place, task),
        }
    }

    /// The future at this place of a direction ends, where there is one.
    pub(crate) fn cancel(&mut self, dir: Dir, place: usize)
        ensures { self.new ≡ with_side dir self.old (without_future (side dir self.old) place) }
    {
        match dir {
            Dir::Read => self.read.cancel(place),
            Dir::Write => self.write.cancel(place),
        }
    }

    /// The directions that a report names are reported in this round, and their tasks are taken, write before read.
    pub(crate) fn mark(
        &mut self,
        ticker: u64,
        report: Report,
        hands: &mut Vec<u64>,
    ) -> Result<(), OutOfMemory>
        ensures source { OnOk result (self.new ≡ reported ticker report self.old) }
        ensures hands { OnOk result (hands.new.items ≡ hands.old.items ++ taken_by_of report (Some self.old)) }
    {
        self.write.mark(report.write, ticker, hands)?;
        self.read.mark(report.read, ticker, hands)
    }
}

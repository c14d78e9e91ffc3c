//! The machine as plain data: the sources, what is armed, and the open round.
ghost use Rattle.std.specs.Prelude.{◌≡◌, ◌++◌, ◌&&◌, ℕ, [], ◌∷◌, Some, None, IfOk, OnOk, if◌then◌else◌};
ghost use Rattle.react_core.specs.Keyed.{with_at, KeysRiseFrom};
ghost use Rattle.react_core.specs.Reports.{arming_of, armings_by, armings_by_all, after_report, after_reports};
ghost use Rattle.react_core.specs.Reports.{taken_by, taken_by_all};
ghost use Rattle.react_core.specs.Asking.{asked_of, first_task};
ghost use Rattle.react_core.specs.Futures.{future_answer};
ghost use Rattle.react_core.specs.Readiness.{Outcome, poll_answer, woken_by};
ghost use Rattle.react_steps.specs.Machine.{begun_after};
ghost use Rattle.react_steps.specs.World.{with_armings, without_report, without_reports, polled, done_or_failed};
ghost use Rattle.react_steps.specs.World.{made_of, fails_of};

use crate::armed::Armed;
use crate::kind::{Answer, Kind, Tasks};
use crate::place::{Source, take_task};
use crate::table::{find, has, put_row, take_row};
use react_core::interest::Asked;
use react_core::outside::{OutOfMemory, Report, Reports};
use react_core::reactor::{Begun, Dir};
use std::alloc::Global;

/// What a step gave: its answer, and the tasks that it woke, in order.
#[derive(Drop)]
pub(crate) struct Made {
    pub(crate) answer: Answer,
    pub(crate) woken: Tasks,
}

impl Made {
    /// A step that woke nobody.
    fn quiet(alloc: Global, answer: Answer) -> Made
        ensures answer { result.answer ≡ answer }
        ensures woken { result.woken ≡ [] }
    {
        Made {
            answer,
            woken: Tasks::from_vec(Vec::new(alloc)),
        }
    }
}

/// The reactor's core as plain data, by keys that the steps give, with what stands around it.
#[derive(Drop)]
pub(crate) struct Machine {
    ticker: u64,
    begun: u64,
    // By rising key, as what is armed of each.
    sources: Vec<(usize, Source)>,
    armed: Vec<(usize, Armed)>,
    notice: bool,
    in_round: bool,
    returned: Option<Reports>,
}

/// The poller is to report these directions of the key, in place of those that it was to report before.
fn arm(armed: &mut Vec<(usize, Armed)>, key: usize, directions: Armed)
    requires { KeysRiseFrom 0 armed.old.items }
    ensures armed { armed.new.items ≡ with_at armed.old.items key directions }
    ensures rises { KeysRiseFrom 0 armed.new.items }
{
    if let Some(at) = find(armed, key) {
        armed[at] = (key, directions);
    }
}

/// Where a poll arms, the poller is to report the directions of its key that a task waits for.
fn arm_waiting(armed: &mut Vec<(usize, Armed)>, arms: bool, key: usize, source: &Source)
    requires { KeysRiseFrom 0 armed.old.items }
    ensures armed { armed.new.items ≡
        (if arms then with_armings armed.old.items (arming_of key source.now) else armed.old.items) }
    ensures rises { KeysRiseFrom 0 armed.new.items }
{
    if !arms {
        return;
    }
    let waiting = source.waiting();
    if waiting.read || waiting.write {
        arm(armed, key, waiting);
    }
}

/// A report ends the arming of the directions that it names.
fn disarm(armed: &mut Vec<(usize, Armed)>, report: Report)
    requires { KeysRiseFrom 0 armed.old.items }
    ensures armed { armed.new.items ≡ without_report armed.old.items report }
    ensures rises { KeysRiseFrom 0 armed.new.items }
{
    if let Some(at) = find(armed, report.key) {
        let before = armed[at].1;
        let left = Armed {
            read: before.read && !report.read,
            write: before.write && !report.write,
        };
        armed[at] = (report.key, left);
    }
}

/// So do all reports of a wait, in order.
fn disarm_all(armed: &mut Vec<(usize, Armed)>, reports: &[Report])
    requires { KeysRiseFrom 0 armed.old.items }
    ensures armed { armed.new.items ≡ without_reports armed.old.items reports.now }
    ensures rises { KeysRiseFrom 0 armed.new.items }
{
    for report in reports {
        disarm(armed, *report);
    }
}

/// What a poll of a polled place answers.
fn answer_of(asked: Asked) -> Answer
    ensures { (o : Outcome) → asked ≡ asked_of o → result ≡ polled (poll_answer o) }
{
    match asked {
        Asked::Fires => Answer::Ready,
        Asked::Stays | Asked::Begins(_) => Answer::Pending,
    }
}

/// The task that a poll of a polled place wakes, since another one takes its place.
fn displaced(asked: Asked) -> Option<u64>
    ensures { (o : Outcome) → asked ≡ asked_of o → result ≡ first_task (woken_by o) }
{
    match asked {
        Asked::Fires | Asked::Stays => None,
        Asked::Begins(stored) => stored,
    }
}

/// How many polled interests were begun after a poll of a polled place. The count stays at its type's end.
fn count_of(begun: u64, asked: Asked) -> u64
    ensures { (o : Outcome) → asked ≡ asked_of o → result ≡ begun_after begun o }
{
    match asked {
        Asked::Fires | Asked::Stays => begun,
        Asked::Begins(_) => begun.saturating_add(1),
    }
}

/// What a step answers that is done all the same where the poller fails.
fn done_or_failed(failed: bool) -> Answer
    ensures { result ≡ done_or_failed failed }
{
    if failed { Answer::Failed } else { Answer::Done }
}

/// What a poll at a future's place answers.
fn future_answer(ready: bool) -> Answer
    ensures { result ≡ polled (future_answer ready) }
{
    if ready {
        Answer::Ready
    } else {
        Answer::Pending
    }
}

impl Machine {
    ghost use Rattle.react_core.specs.Core.{HasSource};
    ghost use Rattle.react_steps.specs.Machine.{world_of, Sound, Makes};
    ghost use Rattle.react_steps.specs.World.{idle};
    ghost use Rattle.react_steps.specs.declared.kind.Kind.TheVariants.{Poll, PollFuture, Cancel, Insert, Remove};

    /// The machine with nothing in it.
    pub(crate) fn idle(alloc: Global) -> Machine
        ensures world { world_of result ≡ idle }
        ensures sound { Sound result }
        ensures ticker { result.ticker ≡ 0 }
    {
        Machine {
            ticker: 0,
            begun: 0,
            sources: Vec::new(alloc),
            armed: Vec::new(alloc),
            notice: false,
            in_round: false,
            returned: None,
        }
    }

    /// A poll of the polled place of a key's direction, for a task.
    fn poll(
        &mut self,
        alloc: Global,
        key: usize,
        dir: Dir,
        task: u64,
        fault: bool,
    ) -> Result<Option<Made>, OutOfMemory>
        requires { Sound self.old }
        ensures makes { IfOk result (λ made. Makes self.old (Poll key dir task fault) made self.new) }
        ensures sound { OnOk result (Sound self.new) }
        ensures ticker { self.new.ticker ≡ self.old.ticker }
    {
        let Some(at) = find(&self.sources, key) else {
            return Ok(None);
        };
        let row = &mut self.sources[at];
        let arms = row.1.poll_arms(dir, task);
        if fault && arms {
            return Ok(Some(Made::quiet(alloc, Answer::Failed)));
        }
        let asked = row.1.poll(dir, self.ticker, task);
        arm_waiting(&mut self.armed, arms, key, &row.1);
        self.begun = count_of(self.begun, asked);
        let mut woken = Vec::new(alloc);
        take_task(displaced(asked), &mut woken)?;
        Ok(Some(Made {
            answer: answer_of(asked),
            woken: Tasks::from_vec(woken),
        }))
    }

    /// A poll of the future at a place of a key's direction, for a task.
    fn poll_future(
        &mut self,
        alloc: Global,
        key: usize,
        dir: Dir,
        place: u32,
        task: u64,
        fault: bool,
    ) -> Result<Option<Made>, OutOfMemory>
        requires { Sound self.old }
        ensures makes { IfOk result (λ made. Makes self.old (PollFuture key dir place task fault) made self.new) }
        ensures sound { OnOk result (Sound self.new) }
        ensures ticker { self.new.ticker ≡ self.old.ticker }
    {
        let Some(at) = find(&self.sources, key) else {
            return Ok(None);
        };
        let place = place as usize;
        let row = &mut self.sources[at];
        let arms = row.1.future_arms(dir, place);
        if fault && arms {
            return Ok(Some(Made::quiet(alloc, Answer::Failed)));
        }
        let ready = row.1.poll_future(dir, self.ticker, place, task)?;
        arm_waiting(&mut self.armed, arms, key, &row.1);
        Ok(Some(Made::quiet(alloc, future_answer(ready))))
    }

    /// The end of the future at a place of a key's direction, where there is one.
    fn cancel(&mut self, alloc: Global, key: usize, dir: Dir, place: u32) -> Made
        requires { Sound self.old }
        ensures makes { Makes self.old (Cancel key dir place) (Some result) self.new }
        ensures sound { Sound self.new }
        ensures ticker { self.new.ticker ≡ self.old.ticker }
    {
        let Some(at) = find(&self.sources, key) else {
            return Made::quiet(alloc, Answer::Done);
        };
        let row = &mut self.sources[at];
        row.1.cancel(dir, place as usize);
        Made::quiet(alloc, Answer::Done)
    }

    /// A new source of this wire, under this key.
    fn insert(
        &mut self,
        alloc: Global,
        wire: u32,
        key: usize,
        fault: bool,
    ) -> Result<Option<Made>, OutOfMemory>
        requires { Sound self.old }
        ensures makes { IfOk result (λ made. Makes self.old (Insert wire key fault) made self.new) }
        ensures sound { OnOk result (Sound self.new) }
        ensures ticker { self.new.ticker ≡ self.old.ticker }
    {
        if has(&self.sources, key) {
            return Ok(None);
        }
        if fault {
            return Ok(Some(Made::quiet(alloc, Answer::Failed)));
        }
        put_row(&mut self.sources, key, Source::new(alloc, wire))?;
        let unarmed = Armed {
            read: false,
            write: false,
        };
        put_row(&mut self.armed, key, unarmed)?;
        Ok(Some(Made::quiet(alloc, Answer::Done)))
    }

    /// The removal of the source under this key, with all that it holds. It goes whatever the poller answers.
    fn remove(&mut self, alloc: Global, key: usize, fault: bool) -> Option<Made>
        requires { Sound self.old }
        ensures makes { Makes self.old (Remove key fault) result self.new }
        ensures sound { Sound self.new }
        ensures ticker { self.new.ticker ≡ self.old.ticker }
    {
        if !has(&self.sources, key) {
            return None;
        }
        take_row(&mut self.sources, key);
        take_row(&mut self.armed, key);
        Some(Made::quiet(alloc, done_or_failed(fault)))
    }
}

/// Takes one report: marks the directions that it names, takes their tasks, and arms what is left. Where the poller's
/// call fails, nothing is armed. Answers whether it did.
fn take_report(
    ticker: u64,
    sources: &mut Vec<(usize, Source)>,
    armed: &mut Vec<(usize, Armed)>,
    hands: &mut Vec<u64>,
    report: Report,
    fails: bool,
) -> Result<bool, OutOfMemory>
    requires sources { KeysRiseFrom 0 sources.old.items }
    requires armed { KeysRiseFrom 0 armed.old.items }
    ensures sources { OnOk result (sources.new.items ≡ after_report ticker sources.old.items report) }
    ensures hands { OnOk result (hands.new.items ≡ hands.old.items ++ taken_by sources.old.items report) }
    ensures armed { OnOk result (armed.new.items ≡
        with_armings armed.old.items (made_of fails (armings_by ticker sources.old.items report))) }
    ensures failed { IfOk result (λ failed. failed ≡ fails_of fails (armings_by ticker sources.old.items report)) }
    ensures rises { KeysRiseFrom 0 armed.new.items }
{
    let Some(at) = find(sources, report.key) else {
        return Ok(false);
    };
    let row = &mut sources[at];
    row.1.mark(ticker, report, hands)?;
    let waiting = row.1.waiting();
    if !waiting.read && !waiting.write {
        return Ok(false);
    }
    if fails {
        return Ok(true);
    }
    arm(armed, report.key, waiting);
    Ok(false)
}

/// Goes through the reports in order, to their end where the poller refuses one too. Where `fault` is set, the first
/// call of the poller fails. Answers whether one did.
fn take_reports(
    ticker: u64,
    sources: &mut Vec<(usize, Source)>,
    armed: &mut Vec<(usize, Armed)>,
    hands: &mut Vec<u64>,
    reports: &[Report],
    fault: bool,
) -> Result<bool, OutOfMemory>
    requires sources { KeysRiseFrom 0 sources.old.items }
    requires armed { KeysRiseFrom 0 armed.old.items }
    ensures sources { OnOk result (sources.new.items ≡ after_reports ticker sources.old.items reports.now) }
    ensures hands { OnOk result
        (hands.new.items ≡ hands.old.items ++ taken_by_all ticker sources.old.items reports.now) }
    ensures armed { OnOk result (armed.new.items ≡
        with_armings armed.old.items (made_of fault (armings_by_all ticker sources.old.items reports.now))) }
    ensures failed { IfOk result (λ failed. failed ≡
        fails_of fault (armings_by_all ticker sources.old.items reports.now)) }
    ensures rises { KeysRiseFrom 0 armed.new.items }
{
    let mut failed = false;
    let mut fails = fault;
    for report in reports {
        if take_report(ticker, sources, armed, hands, *report, fails)? {
            failed = true;
            fails = false;
        }
    }
    Ok(failed)
}

impl Machine {
    ghost use Rattle.std.specs.Prelude.{◌<◌, ◌≤◌, ◌+◌, ◌-◌, ◌^◌};
    ghost use Rattle.react_steps.specs.Machine.{world_of, Sound, Makes};
    ghost use Rattle.react_steps.specs.declared.kind.Kind.TheVariants.{Begin, Returned, Finish};

    /// The begin of a round.
    fn begin(&mut self, alloc: Global, now: u64, timeout: Option<u64>) -> Option<Made>
        requires sound { Sound self.old }
        requires ticker { self.old.ticker < 2 ^ 64 - 1 }
        ensures makes { Makes self.old (Begin now timeout) result self.new }
        ensures sound { Sound self.new }
        ensures ticker { self.new.ticker ≤ self.old.ticker + 1 }
    {
        // No timer is due, and none is awaited.
        let _ = now;
        if self.in_round {
            return None;
        }
        self.ticker += 1;
        self.in_round = true;
        self.returned = None;
        let round = self.ticker;
        Some(Made::quiet(alloc, Answer::Begun(Begun { round, timeout })))
    }

    /// The return of the open round's wait, with these reports, and with none where it failed.
    fn returned(
        &mut self,
        alloc: Global,
        reports: &Reports,
        fault: bool,
    ) -> Result<Option<Made>, OutOfMemory>
        requires { Sound self.old }
        ensures makes { IfOk result (λ made. Makes self.old (Returned reports.now fault) made self.new) }
        ensures sound { OnOk result (Sound self.new) }
        ensures ticker { self.new.ticker ≡ self.old.ticker }
    {
        if !self.in_round || self.returned.is_some() {
            return Ok(None);
        }
        if fault {
            self.returned = Some(Reports::from_vec(Vec::new(alloc)));
            return Ok(Some(Made::quiet(alloc, Answer::Failed)));
        }
        let kept = Vec::from_slice(alloc, reports.as_slice())?;
        disarm_all(&mut self.armed, reports.as_slice());
        self.notice = false;
        self.returned = Some(Reports::from_vec(kept));
        Ok(Some(Made::quiet(alloc, Answer::Done)))
    }

    /// The end of the open round, with the reports of its wait.
    fn finish(
        &mut self,
        alloc: Global,
        later: Option<u64>,
        fault: bool,
    ) -> Result<Option<Made>, OutOfMemory>
        requires { Sound self.old }
        ensures makes { IfOk result (λ made. Makes self.old (Finish later fault) made self.new) }
        ensures sound { OnOk result (Sound self.new) }
        ensures ticker { self.new.ticker ≡ self.old.ticker }
    {
        // No timer is due at the second reading.
        let _ = later;
        let Some(reports) = self.returned.take() else {
            return Ok(None);
        };
        let mut woken = Vec::new(alloc);
        let failed = take_reports(
            self.ticker,
            &mut self.sources,
            &mut self.armed,
            &mut woken,
            reports.as_slice(),
            fault,
        )?;
        self.in_round = false;
        Ok(Some(Made {
            answer: done_or_failed(failed),
            woken: Tasks::from_vec(woken),
        }))
    }
}

impl Machine {
    ghost use Rattle.std.specs.Prelude.{◌<◌, ◌≤◌, ◌+◌, ◌-◌, ◌^◌};
    ghost use Rattle.react_steps.specs.Machine.{Sound, Makes};

    /// Makes a step of this kind, where there is one.
    pub(crate) fn make(&mut self, alloc: Global, kind: &Kind) -> Result<Option<Made>, OutOfMemory>
        requires sound { Sound self.old }
        requires ticker { self.old.ticker < 2 ^ 64 - 1 }
        ensures makes { IfOk result (λ made. Makes self.old kind.now made self.new) }
        ensures sound { OnOk result (Sound self.new) }
        ensures ticker { self.new.ticker ≤ self.old.ticker + 1 }
    {
        match kind {
            Kind::Poll {
                key,
                dir,
                task,
                fault,
            } => self.poll(alloc, *key, *dir, *task, *fault),
            Kind::PollFuture {
                key,
                dir,
                place,
                task,
                fault,
            } => self.poll_future(alloc, *key, *dir, *place, *task, *fault),
            Kind::Cancel { key, dir, place } => Ok(Some(self.cancel(alloc, *key, *dir, *place))),
            Kind::Insert { wire, key, fault } => self.insert(alloc, *wire, *key, *fault),
            Kind::Remove { key, fault } => Ok(self.remove(alloc, *key, *fault)),
            Kind::Begin { now, timeout } => Ok(self.begin(alloc, *now, *timeout)),
            Kind::Returned { reports, fault } => self.returned(alloc, reports, *fault),
            Kind::Finish { later, fault } => self.finish(alloc, *later, *fault),
        }
    }
}

//! The parts of a round: its wait, its reports and its wakes.
ghost use Rattle.std.specs.Prelude.{◌≡◌, ◌+◌, ◌*◌, ◌++◌, ◌≤◌, false, List, [], length, take, vec_len, vec_capacity};
ghost use Rattle.react_core.specs.Pausing.{came_of};
ghost use Rattle.slab.specs.Slab.{entries};
ghost use Rattle.react_core.specs.Causes.{ReactCounted, OnReactLack};
ghost use Rattle.react_core.specs.Reports.{after_report, after_reports, taken_by, taken_by_all, armings_by};
ghost use Rattle.react_core.specs.Reports.{armings_by_all, Try, Tried, tries_of, tries_told, AnswersArming, worse};
ghost use Rattle.react_core.specs.Reports.{try_answer};
ghost use Rattle.react_core.specs.Round.{Pause, Paused, not_zero, answer_of, then_answer};
ghost use Rattle.react_core.specs.Sources.{AllDated, all_places};
ghost use Rattle.react_core.specs.Step.{WokeAll};
ghost use Rattle.react_core.specs.Outer.{Keeps};
ghost use Rattle.react_core.specs.Outer as part;
ghost use Rattle.react_core.specs.Told.{told, Counted, OnLack};

use crate::outside::{Clock, Fault, Registrar, Report, Waited, Waiter, Wakes};
use crate::reactor::ReactError;
use crate::source::Source;
use slab::Slab;

/// What a wait gave: how many reports, and the second reading of the clock, in nanoseconds, where there was one.
#[derive(Clone, Copy)]
pub(crate) struct Came {
    pub(crate) count: usize,
    pub(crate) again: Option<u64>,
}

/// Where a wait was refused.
const NOTHING: Came = Came {
    count: 0,
    again: None,
};

/// What a wait gave, and nothing where it was refused.
pub(crate) fn came_of(waited: &Result<Came, ReactError>) -> Came
    ensures { result ≡ came_of waited.now }
{
    match waited {
        Ok(came) => *came,
        Err(_) => NOTHING,
    }
}

/// The wait's refusal, else the answer to its reports.
pub(crate) fn first_refusal(
    waited: Result<Came, ReactError>,
    taken: Result<(), ReactError>,
) -> Result<(), ReactError>
    ensures { result ≡ then_answer (answer_of waited) taken }
{
    match waited {
        Ok(_) => taken,
        Err(refusal) => Err(refusal),
    }
}

/// Waits, and reads the clock again where nothing came in time.
pub(crate) fn wait_for_reports<O: Clock + Waiter>(
    outside: &mut O,
    timeout: Option<u64>,
    reports: &mut [Report],
) -> Result<Came, ReactError>
    ensures pause { (p : Pause) × Paused timeout (O.outer outside.old).events (O.outer outside.new).events
        (O.outer outside.old).moment (O.outer outside.new).moment (take (came_of result).count reports.new)
        (came_of result).again result p }
    ensures within { (came_of result).count ≤ length reports.old }
    ensures memory { OnReactLack result ((O.outer outside.old).ample ≡ false) }
    ensures cause { ReactCounted result (O.outer outside.old).poller_faults (O.outer outside.new).poller_faults }
    ensures keeps { Keeps (part.Round (length reports.old)) (O.outer outside.old) (O.outer outside.new) }
{
    let count = match outside.wait(timeout, reports)? {
        // The timeout need not have passed.
        Waited::Interrupted => return Ok(NOTHING),
        Waited::Reported(count) => count,
    };
    if count == 0 && may_pass(timeout) {
        let again = outside.now()?;
        return Ok(Came {
            count,
            again: Some(again),
        });
    }
    Ok(Came { count, again: None })
}

/// Whether a wait of this length doesn't end at once.
fn may_pass(timeout: Option<u64>) -> bool
    ensures { result ≡ not_zero timeout }
{
    match timeout {
        None => true,
        Some(length) => 0 < length,
    }
}

/// Wakes these tasks, in order.
pub(crate) fn wake_all<W: Wakes>(wakes: &mut W, tasks: &[u64])
    ensures { WokeAll W.woke wakes.old tasks.now wakes.new }
{
    for task in tasks {
        wakes.wake(*task);
    }
}

/// Goes through the reports in order, to their end where the poller refuses one too.
pub(crate) fn take_reports<R: Registrar>(
    ticker: u64,
    sources: &mut Slab<Source>,
    hands: &mut Vec<u64>,
    registrar: &mut R,
    reports: &[Report],
) -> Result<(), ReactError>
    requires begun { 1 ≤ ticker }
    requires dated { AllDated ticker (entries sources.old) }
    requires room { vec_len hands.old + (2 * length (entries sources.old) + all_places (entries sources.old))
        ≤ vec_capacity hands.old }
    ensures sources { entries sources.new ≡ after_reports ticker (entries sources.old) reports.now }
    ensures len { length (entries sources.new) ≡ length (entries sources.old) }
    ensures hands { hands.new.items ≡ hands.old.items ++ taken_by_all ticker (entries sources.old) reports.now }
    ensures capacity { vec_capacity hands.new ≡ vec_capacity hands.old }
    ensures room { vec_len hands.new ≤ vec_len hands.old + (2 * length (entries sources.old)
        + all_places (entries sources.old)) }
    ensures tried { (tries : List Try) × Tried (armings_by_all ticker (entries sources.old) reports.now) result
        (R.outer registrar.old).ample (R.outer registrar.old).events (R.outer registrar.new).events tries }
    ensures memory { OnReactLack result ((R.outer registrar.old).ample ≡ false) }
    ensures cause { ReactCounted result (R.outer registrar.old).poller_faults (R.outer registrar.new).poller_faults }
    ensures keeps { Keeps part.Poller (R.outer registrar.old) (R.outer registrar.new) }
{
    let mut answer = Ok(());
    for report in reports {
        // A refusal ends nothing: the later reports hold tasks, too.
        let armed = take_report(ticker, sources, hands, registrar, *report);
        answer = worse_of(answer, armed);
    }
    answer
}

/// The poller's failure where one of the two is that, else want of memory where one is that.
fn worse_of(first: Result<(), ReactError>, second: Result<(), Fault>) -> Result<(), ReactError>
    ensures { result ≡ worse first (try_answer second) }
{
    match second {
        Ok(()) => first,
        Err(Fault::Failed) => Err(ReactError::Poller),
        Err(Fault::OutOfMemory) => match first {
            Ok(()) => Err(ReactError::OutOfMemory),
            Err(refusal) => Err(refusal),
        },
    }
}

/// Takes one report: marks the directions that it names, takes their tasks, and arms what is left.
fn take_report<R: Registrar>(
    ticker: u64,
    sources: &mut Slab<Source>,
    hands: &mut Vec<u64>,
    registrar: &mut R,
    report: Report,
) -> Result<(), Fault>
    requires begun { 1 ≤ ticker }
    requires dated { AllDated ticker (entries sources.old) }
    requires room { vec_len hands.old + length (taken_by (entries sources.old) report) ≤ vec_capacity hands.old }
    ensures sources { entries sources.new ≡ after_report ticker (entries sources.old) report }
    ensures hands { hands.new.items ≡ hands.old.items ++ taken_by (entries sources.old) report }
    ensures len { vec_len hands.new ≡ vec_len hands.old + length (taken_by (entries sources.old) report) }
    ensures capacity { vec_capacity hands.new ≡ vec_capacity hands.old }
    ensures told { (R.outer registrar.new).events ≡ told (R.outer registrar.old).events
        (tries_told (tries_of (armings_by ticker (entries sources.old) report) result)) }
    ensures answers { AnswersArming (armings_by ticker (entries sources.old) report) result }
    ensures memory { OnLack result ((R.outer registrar.old).ample ≡ false) }
    ensures cause { Counted result (R.outer registrar.old).poller_faults (R.outer registrar.new).poller_faults }
    ensures keeps { Keeps part.Poller (R.outer registrar.old) (R.outer registrar.new) }
{
    let Some(source) = sources.get_mut(report.key) else {
        return Ok(());
    };
    source.mark(ticker, report, hands);
    source.arm(registrar, report.key)
}

//! The timers in a round: those that are due, and for how long the round may wait.
ghost use Rattle.std.specs.Prelude.{◌≡◌, ◌+◌, ◌++◌, ◌≤◌, length, vec_len, vec_capacity};
ghost use Rattle.react_timers.specs.Live.{insertions};
ghost use Rattle.react_core.specs.Timing.{limit_by, pass_tasks, pass_timers, pass_queue};

use react_timers::timers::Timers;

/// Where a moment is given, in nanoseconds: applies the queue, and moves the tasks of the timers that are due then into
/// the hands, in the order of moment, then number.
pub(crate) fn take_due(timers: &mut Timers, hands: &mut Vec<u64>, at: Option<u64>)
    requires room { vec_len hands.old + (length timers.old.live + insertions timers.old.queue)
        ≤ vec_capacity hands.old }
    ensures hands { hands.new.items ≡ hands.old.items ++ pass_tasks at timers.old.live timers.old.queue }
    ensures live { timers.new.live ≡ pass_timers at timers.old.live timers.old.queue }
    ensures queue { timers.new.queue ≡ pass_queue at timers.old.queue }
    ensures len { vec_len hands.new + (length timers.new.live + insertions timers.new.queue)
        ≤ vec_len hands.old + (length timers.old.live + insertions timers.old.queue) }
    ensures fewer { length timers.new.live + insertions timers.new.queue
        ≤ length timers.old.live + insertions timers.old.queue }
    ensures capacity { vec_capacity hands.new ≡ vec_capacity hands.old }
{
    if let Some(now) = at {
        timers.apply();
        timers.take_due(now, hands);
    }
}

/// For how long a round may wait that has these tasks in hand at its begin, in nanoseconds; without an answer for ever.
pub(crate) fn wait_limit(
    hands: &[u64],
    nearest: Option<u64>,
    now: u64,
    timeout: Option<u64>,
) -> Option<u64>
    ensures { result ≡ limit_by hands.now nearest now timeout }
{
    if !hands.is_empty() {
        return Some(0);
    }
    let Some(when) = nearest else {
        return timeout;
    };
    match timeout {
        None => Some(when.saturating_sub(now)),
        Some(timeout) => Some(timeout.min(when.saturating_sub(now))),
    }
}

//! Whether a timer is left after a queue of operations, found without applying them.
ghost use Rattle.std.specs.Prelude.{◌≡◌, ◌↔◌, [], IsTrue, is_some};
ghost use Rattle.std.specs.List.{list_any};
ghost use Rattle.react_timers.specs.Live.{Rises, applied_all};
ghost use Rattle.react_timers.specs.Moments.{moment_of, moment_after, stays, insertion_passes};

use crate::live::Live;
use crate::timer::TimerOp;

/// The number's moment after the operation, by its moment before.
fn moment_after(number: u64, moment: Option<u64>, op: TimerOp) -> Option<u64>
    ensures { result ≡ moment_after number moment op }
{
    match op {
        TimerOp::Insert {
            when,
            number: other,
            ..
        } if other == number => moment.or(Some(when)),
        TimerOp::Remove {
            when,
            number: other,
        } if other == number && moment == Some(when) => None,
        _ => moment,
    }
}

/// Whether the number has a timer after the queue.
fn stays(live: &Live, queue: &[TimerOp], number: u64) -> bool
    requires { Rises live.now.items }
    ensures { result ≡ stays live.now.items queue.now number }
{
    let mut moment = live.moment_of(number);
    for op in queue {
        moment = moment_after(number, moment, *op);
    }
    moment.is_some()
}

/// Whether the number of a live timer has one after the queue.
fn any_stays(live: &Live, queue: &[TimerOp]) -> bool
    requires { Rises live.now.items }
    ensures { result ≡ list_any (λ t. stays live.now.items queue.now t.number) live.now.items }
{
    for slot in live.slots() {
        if slot.is_live && stays(live, queue, slot.timer.number) {
            return true;
        }
    }
    false
}

/// Whether the number of a queued insertion has a timer after the queue.
fn any_insertion_stays(live: &Live, queue: &[TimerOp]) -> bool
    requires { Rises live.now.items }
    ensures { result ≡ list_any (insertion_passes (stays live.now.items queue.now)) queue.now }
{
    for op in queue {
        if let TimerOp::Insert { number, .. } = op {
            if stays(live, queue, *number) {
                return true;
            }
        }
    }
    false
}

/// Whether no timer is left after the queue. At most as many live timers are looked up as the queue has removals, and
/// one more.
pub(crate) fn is_empty_after(live: &Live, queue: &[TimerOp]) -> bool
    requires { Rises live.now.items }
    ensures { IsTrue result ↔ (applied_all live.now.items queue.now ≡ []) }
{
    !any_stays(live, queue) && !any_insertion_stays(live, queue)
}

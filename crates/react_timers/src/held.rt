//! The heap beside the live timers: operations, due timers and the nearest one.
ghost use Rattle.std.specs.Prelude.{◌≡◌, ◌+◌, ◌-◌, ◌*◌, ◌≤◌, ◌<◌, ◌++◌, [], length, MatchOption, vec_len, vec_capacity};
ghost use Rattle.react_timers.specs.Held.{Held};
ghost use Rattle.react_timers.specs.Live.{applied, applied_all, due, later, tasks, insertions, insertions_of};
ghost use Rattle.react_timers.specs.Live.{nearest_moment, IsNearest};

use crate::entries::Entries;
use crate::entry::Entry;
use crate::live::Live;
use crate::timer::{LiveTimer, TimerOp};

/// How many entries the heap may have beside two for each live timer.
const SPARE: usize = 1000;

/// Applies one operation, in reserved room.
pub(crate) fn apply_op(entries: &mut Entries, live: &mut Live, op: TimerOp)
    requires held { Held entries.old.items live.old.items }
    requires entry_room { length entries.old.items + insertions_of op ≤ entries.old.places }
    requires live_room { live.old.used + insertions_of op ≤ live.old.places }
    ensures live { live.new.items ≡ applied live.old.items op }
    ensures held { Held entries.new.items live.new.items }
    ensures entry_room { length entries.new.items ≤ length entries.old.items + insertions_of op }
    ensures len { length live.new.items ≤ length live.old.items + insertions_of op }
    ensures live_room { live.new.used ≤ live.old.used + insertions_of op }
    ensures places { entries.old.places ≤ entries.new.places }
    ensures live_places { live.new.places ≡ live.old.places }
{
    match op {
        TimerOp::Insert { when, number, task } => {
            if live.put_in(LiveTimer { number, when, task }) {
                entries.add(Entry { when, number });
            }
        }
        TimerOp::Remove { when, number } => {
            let _ = live.take_out(when, number);
        }
    }
}

/// Applies operations in order, in reserved room.
pub(crate) fn apply_all(entries: &mut Entries, live: &mut Live, queue: &[TimerOp])
    requires held { Held entries.old.items live.old.items }
    requires entry_room { length entries.old.items + insertions queue.now ≤ entries.old.places }
    requires live_room { live.old.used + insertions queue.now ≤ live.old.places }
    ensures live { live.new.items ≡ applied_all live.old.items queue.now }
    ensures held { Held entries.new.items live.new.items }
    ensures entry_room { length entries.new.items ≤ length entries.old.items + insertions queue.now }
    ensures len { length live.new.items ≤ length live.old.items + insertions queue.now }
    ensures live_room { live.new.used ≤ live.old.used + insertions queue.now }
    ensures places { entries.old.places ≤ entries.new.places }
    ensures live_places { live.new.places ≡ live.old.places }
{
    for op in queue {
        apply_op(entries, live, *op);
    }
}

/// Closes up places and rebuilds the heap, each where too many are stale. The timers stay.
pub(crate) fn trim(entries: &mut Entries, live: &mut Live)
    requires held { Held entries.old.items live.old.items }
    requires room { length entries.old.items ≤ entries.old.places }
    ensures live { live.new.items ≡ live.old.items }
    ensures used { live.new.used ≤ live.old.used }
    ensures live_places { live.new.places ≡ live.old.places }
    ensures held { Held entries.new.items live.new.items }
    ensures bound { length entries.new.items ≤ 2 * length live.new.items + 1000 }
    ensures fewer { length entries.new.items ≤ length entries.old.items }
    ensures places { entries.old.places ≤ entries.new.places }
{
    live.close_up();
    if SPARE < entries.len() && live.len() < (entries.len() - SPARE).div_ceil(2) {
        entries.rebuild(live.slots());
    }
}

/// Moves the tasks of the timers that are due at `now` nanoseconds into the hands, in reserved room.
pub(crate) fn take_due(entries: &mut Entries, live: &mut Live, now: u64, hands: &mut Vec<u64>)
    requires held { Held entries.old.items live.old.items }
    requires room { vec_len hands.old + length live.old.items ≤ vec_capacity hands.old }
    ensures hands { hands.new.items ≡ hands.old.items ++ tasks (due now live.old.items) }
    ensures live { live.new.items ≡ later now live.old.items }
    ensures held { Held entries.new.items live.new.items }
    ensures fewer { length entries.new.items ≤ length entries.old.items }
    ensures len { length live.new.items ≤ length live.old.items }
    ensures used { live.new.used ≤ live.old.used }
    ensures places { entries.old.places ≡ entries.new.places }
    ensures live_places { live.new.places ≡ live.old.places }
    ensures hands_len { vec_len hands.new + length live.new.items ≡ vec_len hands.old + length live.old.items }
    ensures hands_capacity { vec_capacity hands.new ≡ vec_capacity hands.old }
{
    while let Some(entry) = entries.pop_due(now) {
        if let Some(task) = live.take_out(entry.when, entry.number) {
            hands.push_reserved(task);
        }
    }
}

/// The least moment of a live timer, in nanoseconds. Stale entries on the way are dropped, the timers stay.
pub(crate) fn nearest(entries: &mut Entries, live: &Live) -> Option<u64>
    requires held { Held entries.old.items live.now.items }
    ensures moment { result ≡ nearest_moment live.now.items }
    ensures nearest { MatchOption result (live.now.items ≡ []) (λ when. IsNearest when live.now.items) }
    ensures held { Held entries.new.items live.now.items }
    ensures fewer { length entries.new.items ≤ length entries.old.items }
    ensures places { entries.old.places ≡ entries.new.places }
{
    while let Some(entry) = entries.soonest() {
        if live.find(entry.when, entry.number).is_some() {
            return Some(entry.when);
        }
        let _ = entries.pop();
    }
    None
}

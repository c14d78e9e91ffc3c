//! Laws of timers. A function does nothing: its contract is the law.
ghost use Rattle.std.specs.Prelude.{◌++◌, nat_le, filter, IsPermutation};
ghost use Rattle.react_timers.specs.Live.{IsInOrder, due, later};

use crate::timer::LiveTimer;

/// The due timers are those with a moment of at most `now` nanoseconds, each once, in the order of moment, then number.
/// Each live timer is due or later.
pub fn due_timers_are_in_order(now: u64, live: &[LiveTimer])
    ensures in_order { IsInOrder (due now live.now) }
    ensures exact { IsPermutation (filter (λ x. nat_le x.when now) live.now) (due now live.now) }
    ensures whole { IsPermutation live.now (due now live.now ++ later now live.now) }
{
    let _ = now;
    let _ = live;
}

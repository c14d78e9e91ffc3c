//! The note in a reactor that a wire isn't ready.

ghost use Rattle.std.specs.Prelude.{◌≡◌, IfOk, OnErr};
ghost use Rattle.react_core.specs.Outer.{Keeps};
ghost use Rattle.react_core.specs.Outer as part;
ghost use Rattle.bus_visit.specs.Failing.{OnPoller, NoteFails};
ghost use Rattle.bus_visit.specs.Noted.{Holds, NotReadyNoted};
ghost use Rattle.bus_visit.specs.Registry.{Held};
ghost use Rattle.bus_visit.specs.Shown.{IsBetweenCalls, tags};
ghost use Rattle.bus_visit.specs.Visited.{VisitCounted, KeepsCall};

use futures::task::Poll;
use react_core::outside::{Registrar, Wakes};
use react_core::reactor::{Dir, ReactError, Reactor};

/// Notes that a wire isn't ready. True: the direction was reported, and the wire is to be asked again. False: it
/// waits now.
///
/// Poller: the poller failed. No number is needed, so that none is exhausted.
pub fn note_not_ready<R: Registrar, W: Wakes>(
    reactor: &mut Reactor,
    registrar: &mut R,
    wakes: &mut W,
    wire: u32,
    key: usize,
    dir: Dir,
) -> Result<bool, ReactError>
    requires holds { Holds reactor.old.core key wire }
    requires rests { IsBetweenCalls reactor.old.core }
    ensures readied { IfOk result
        (λ again. (h : Held)
        × NotReadyNoted wire key dir ((R.outer registrar.old).events) ((R.outer registrar.new).events)
        reactor.old.core reactor.new.core again h) }
    ensures refused { OnErr result
        (KeepsCall (tags reactor.old.core.sources) ((R.outer registrar.old).events) ((R.outer registrar.new).events)
        reactor.old.core reactor.new.core) }
    ensures failed { OnPoller result
        (NoteFails wire key dir ((R.outer registrar.old).events) ((R.outer registrar.new).events) reactor.old.core) }
    ensures cause { VisitCounted result ((R.outer registrar.old).poller_faults)
        ((R.outer registrar.new).poller_faults) }
    ensures keeps { Keeps part.Poller (R.outer registrar.old) (R.outer registrar.new) }
    ensures reports { reactor.new.events ≡ reactor.old.events }
{
    match reactor.poll_ready(registrar, wakes, key, dir, u64::from(wire))? {
        Poll::Ready(()) => Ok(true),
        Poll::Pending => Ok(false),
    }
}

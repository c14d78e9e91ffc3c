//! What a session comes to.

ghost use Rattle.std.specs.Prelude.{◌≡◌, IfOk};
ghost use Rattle.std.specs.Option.{option_map};
ghost use Rattle.bus_session.specs.Alone.{has_reached, course, alone};
ghost use Rattle.bus_reference.specs.Goings.{as_outcome, as_course};

use crate::going::{Course, Outcome, first_course, goes_through, outcome_of};
use bus_session::Session;
use react_core::outside::{Event, OutOfMemory};
use std::alloc::Global;

// Whether a reading has reached a deadline.
fn has_reached(deadline: Option<u64>, moment: Option<u64>) -> bool
    ensures value { result ≡ has_reached deadline moment }
{
    match (deadline, moment) {
        (Some(deadline), Some(moment)) => deadline <= moment,
        _ => false,
    }
}

// How far a session has come by these events of its own; none where they are not those that it asks.
fn course<'a>(
    alloc: Global,
    session: &'a Session,
    events: &[Event],
) -> Result<Option<Course<'a>>, OutOfMemory>
    ensures value { IfOk result (λ c. option_map as_course c ≡ course session.now events.now) }
{
    let first = first_course(alloc, session)?;
    goes_through(alloc, Some(first), events)
}

/// What a session comes to by the events of its own part and its last reading, in nanoseconds; none where they are not
/// those that it asks.
///
/// This is the slow way to work it out, to be compared with: the bytes that came are copied at each read, and each
/// question is looked for from the first line on.
///
/// # Errors
///
/// Memory ran out.
pub fn alone(
    alloc: Global,
    session: &Session,
    part: &[Event],
    moment: Option<u64>,
) -> Result<Option<Outcome>, OutOfMemory>
    ensures value { IfOk result (λ o. option_map as_outcome o ≡ alone session.now part.now moment) }
{
    match course(alloc, session, part)? {
        Some(course) => outcome_of(alloc, has_reached(session.deadline, moment), course),
        None => Ok(None),
    }
}

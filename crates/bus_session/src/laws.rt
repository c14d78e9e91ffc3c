//! Laws of sessions. A function does nothing: its contract is the law.

ghost use Rattle.bus_session.specs.Laws.{IsIsolated};

use crate::session::Session;

/// A session comes to the same by the same part, but for its wire's number, and the same last reading.
pub fn session_is_isolated(session: &Session)
    ensures { IsIsolated session.now }
{
    let _deadline = &session.deadline;
}

//! Readings of the system's clock.

use std::time::Clock;

/// The system's moment in nanoseconds, or none where it can't be read or doesn't fit.
pub(crate) fn reading(rt: &impl Clock) -> Option<u64> {
    match rt.monotonic() {
        Ok(moment) => u64::try_from(moment.as_nanos()).ok(),
        Err(_) => None,
    }
}

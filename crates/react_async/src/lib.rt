//! Handles of sources over a reactor that is handed in: their readiness, the futures that wait for it, and polled reads
//! and writes. Beside them, timers over such a reactor.
#![tactic(auto)]

pub mod async_io;
pub mod operation;
mod polled;
pub mod readiness;
pub mod timer;

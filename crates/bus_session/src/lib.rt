//! Sessions: who opens a connection, from what, and what comes of it.
//!
//! [`Session`] is what is asked for, and [`Ended`] what came of it. `specs/` says what a session comes to by its own
//! events and its last reading alone.
#![tactic(auto)]

mod ended;
mod laws;
mod session;

pub use ended::{AddressReason, Ended, Ending};
pub use laws::session_is_isolated;
pub use session::{Party, Session};

//! Many sessions opened at once over one reactor.
#![tactic(auto)]

mod closing;
mod open;
mod rounds;

pub use bus_scene::{Played, QueuedAnswers, Scene};
pub use bus_script::{Reason, ScriptError, ScriptForm};
pub use bus_session::{Ended, Ending, Party, Session};
pub use open::{OpenError, open_all};

#[cfg(test)]
mod tests;

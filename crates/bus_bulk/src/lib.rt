//! Bulk runs: a script of any number of sessions, and the line that sums up what came of them.
//!
//! [`bulk_script`] makes the script, in which six kinds of sessions take turns, and `specs/` says which script that is.
//! [`summary`] counts the endings.
//!
//! Three laws say what holds of the script. Reading its text gives it back ([`bulk_is_a_script`]), it has as many
//! sessions as were asked for ([`bulk_has_its_sessions`]), and no call of the poller fails in it
//! ([`bulk_has_no_poller_fault`]).
#![tactic(auto)]

mod generator;
mod kind;
mod laws;
mod totals;

pub use generator::bulk_script;
pub use laws::{bulk_has_its_sessions, bulk_has_no_poller_fault, bulk_is_a_script};
pub use totals::summary;

#[cfg(test)]
mod tests;

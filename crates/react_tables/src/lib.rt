//! Worked tables of timers, of the reactor, of handles of its sources, of what waits for them and of the machine of all
//! parties, as tests over public calls.
//!
//! They stand apart from the crates below, so that these are proved once, and from `bus_tables`, so that a change of
//! the conversation proves none of them again. Nothing stands on this crate.
#![tactic(auto)]

#[cfg(test)]
mod polled;
#[cfg(test)]
mod reactor;
#[cfg(test)]
mod steps;
#[cfg(test)]
mod timed;
#[cfg(test)]
mod timers;

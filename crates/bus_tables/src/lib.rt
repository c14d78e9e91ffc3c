//! Worked tables of the conversation, as tests over public calls alone.
//!
//! Each table checks what is defined against the formats themselves, and that calls succeed. They stand here so that
//! the crates below are proved once. Nothing stands on this crate.
#![tactic(auto)]

#[cfg(test)]
mod opening;
#[cfg(test)]
mod support;

//! What a session comes to by its own events and its last reading alone, worked out as it is defined.
//!
//! This is the slow way: nothing is kept from one event to the next but the bytes that came and those that were taken,
//! and each question is looked for anew from the first line on. It is there to be compared with.
#![tactic(auto)]

mod answering;
mod asking;
mod dialling;
mod going;
mod lines;
mod questions;
mod reading;
mod serving;
mod sessions;
mod speaking;
mod talking;
mod turns;

pub use asking::{Asked, ask};
pub use dialling::Opened;
pub use going::Outcome;
pub use sessions::alone;

#[cfg(test)]
mod tests;

//! The real outside: sockets under wire numbers, programs, a poller, and a clock.
#![tactic(auto)]

mod beyond;
mod clock;
mod counts;
mod dialling;
mod edges;
mod peers;
mod sockets;
mod streams;
mod table;

pub use beyond::Accepted;
pub use edges::Edges;

#[cfg(test)]
mod tests;

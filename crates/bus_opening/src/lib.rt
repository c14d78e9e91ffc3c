//! The opening of a D-Bus connection (D-Bus specification, Authentication Protocol).
#![tactic(auto)]

mod client;
mod client_answers;
mod command;
mod config;
mod exchange;
mod handshake;
mod hexadecimal;
mod inbox;
mod limits;
mod line;
mod mechanism;
mod outbox;
mod part;
mod printing;
mod server;
mod server_answers;
mod verdict;
mod words;

pub use client::Client;
pub use command::{Command, CommandError};
pub use config::{ClientConfig, ServerConfig};
pub use handshake::Handshake;
pub use hexadecimal::Hexadecimal;
pub use mechanism::{AuthMechanism, UnsupportedMechanism};
pub use server::Server;
pub use verdict::{Authenticated, Step, Verdict};

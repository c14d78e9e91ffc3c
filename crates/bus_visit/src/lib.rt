//! One session over any outside: it dials, has its conversation, and notes in a reactor where its wire isn't ready.
#![tactic(auto)]

mod conversation;
mod conversing;
mod dialling;
mod noting;
mod timing;
mod visiting;

pub use conversation::Conversation;
pub use conversing::{Conversed, converse};
pub use dialling::{Dialled, OpenWire, Reached};
pub use noting::note_not_ready;
pub use timing::{Alarm, Limit};
pub use visiting::{Sleeper, Slot, ended_of, first_visit, visit};

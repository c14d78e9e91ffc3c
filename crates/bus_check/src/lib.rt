//! What a text is: a signature, an address or a name, and the line that tells it.
#![tactic(auto)]

mod kind;
mod reading;

pub use kind::Kind;
pub use reading::{Checked, check};

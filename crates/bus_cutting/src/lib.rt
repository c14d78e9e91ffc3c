//! That the cutting of a conversation does not matter.
//!
//! A wire gives what comes in and takes what goes out in pieces of any size, and pauses where it likes. What becomes of
//! a session that opened a wire, and what it wrote, is nonetheless a function of the whole bytes that came in, of what
//! followed them, and of how many bytes the wire took before it failed.
#![tactic(auto)]

mod laws;

pub use laws::{
    calls_are_few, cutting_does_not_matter, cutting_does_not_matter_in_runs, same_bytes_end_alike,
    small_conversations,
};

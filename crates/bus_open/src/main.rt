//! Opens D-Bus connections over sockets, plays a script of such openings, or of its own making, or says what a text is.
//!
//! [`program::run`] is the program over any source, sink and outside; `main` hands it the real ones.
#![tactic(auto)]

mod bulk;
mod checking;
pub mod command;
mod endings;
pub mod memory;
mod opening;
mod playing;
pub mod program;
mod refusal;
pub mod standard;
pub mod status;
pub mod stream;
#[cfg(test)]
mod tests;
pub mod whole;

use bus_edges::Edges;
use react_core::outside::Fault;
use standard::{StandardInput, StandardOutput};
use std::process::ExitCode;
use std::{env, io};

/// The words after the program's name. Words that are no text are no words at all; none where memory ran out.
fn words(rt: &HostRuntime) -> Option<Vec<String>> {
    match env::args(rt) {
        Ok(args) => args.skip(1).collect(rt.alloc()).ok(),
        Err(error) if error.kind() == io::ErrorKind::OutOfMemory => None,
        Err(_) => Some(Vec::new(rt.alloc())),
    }
}

/// Where there is no poller, or no memory for the outside, the run ends before it begins.
fn main(rt: HostRuntime) -> ExitCode {
    let alloc = rt.alloc();
    let Some(words) = words(&rt) else {
        return ExitCode::from(status::OUT_OF_MEMORY);
    };
    let mut real = match Edges::new(rt, alloc) {
        Ok(edges) => edges,
        Err(Fault::Failed) => return ExitCode::from(status::POLLER),
        Err(Fault::OutOfMemory) => return ExitCode::from(status::OUT_OF_MEMORY),
    };
    let mut source = StandardInput::new(rt.stdin());
    let mut sink = StandardOutput::new(rt.stdout());
    ExitCode::from(program::run(alloc, words.as_slice(), &mut source, &mut sink, &mut real))
}

//! A line, and the command that it says.

ghost use Rattle.std.specs.Prelude.{◌≡◌, IfOk};
ghost use Rattle.std.specs.Option.{option_map};
ghost use Rattle.bus_opening.specs.Client.{text_of_line, command_in};

use crate::command::{Command, CommandError};
use std::alloc::{AllocError, Global};
use std::str;

// The text of a line, which stands before CR and a line feed.
fn line_text(line: &[u8]) -> Option<&str>
    ensures { option_map (λ t. t.now) result ≡ text_of_line line.now }
{
    if line.len() < 2 {
        return None;
    }
    let end = line.len() - 2;
    if line[end] != 13 {
        return None;
    }
    match str::from_utf8(&line[..end]) {
        Ok(text) => Some(text),
        Err(_) => None,
    }
}

/// The command that a line says.
pub(crate) fn read_line(alloc: Global, line: &[u8]) -> Result<Option<Command>, AllocError>
    ensures { IfOk result (λ c. c ≡ command_in (text_of_line line.now)) }
{
    let Some(text) = line_text(line) else {
        return Ok(None);
    };
    match Command::from_str(alloc, text) {
        Ok(command) => Ok(Some(command)),
        Err(CommandError::Handshake) => Ok(None),
        Err(CommandError::OutOfMemory) => Err(AllocError),
    }
}

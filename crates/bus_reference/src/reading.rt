//! The command that a line says.

ghost use Rattle.std.specs.Prelude.{◌≡◌, IfOk};
ghost use Rattle.std.specs.Option.{option_map};
ghost use Rattle.bus_opening.specs.Client.{text_of_line, command_in};

use bus_opening::{Command, CommandError};
use std::alloc::{AllocError, Global};
use std::str;

// The text of a line with its line feed.
fn text_of_line(line: &[u8]) -> Option<&str>
    ensures value { option_map (λ t. t.now) result ≡ text_of_line line.now }
{
    if line.len() < 2 {
        return None;
    }
    let end = line.len() - 2;
    if line[end] != 13 {
        return None;
    }
    match str::from_utf8(&line[..end]) {
        Ok(text) => Some(text),
        Err(_) => None,
    }
}

/// The command, where the line says one.
pub(crate) fn command_in(alloc: Global, line: &[u8]) -> Result<Option<Command>, AllocError>
    ensures value { IfOk result (λ c. c ≡ command_in (text_of_line line.now)) }
{
    let Some(text) = text_of_line(line) else {
        return Ok(None);
    };
    match Command::from_str(alloc, text) {
        Ok(command) => Ok(Some(command)),
        Err(CommandError::Handshake) => Ok(None),
        Err(CommandError::OutOfMemory) => Err(AllocError),
    }
}

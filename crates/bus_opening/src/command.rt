//! Commands as they are read.

ghost use Rattle.std.specs.Prelude.{◌≡◌, Some};
ghost use Rattle.bus_opening.specs.Words.{words};
ghost use Rattle.bus_opening.specs.declared.command.CommandError.TheVariants.{Handshake, OutOfMemory};

use crate::mechanism::AuthMechanism;
use crate::words::split_word;
use bus_address::{Guid, Text};
use hex::FromHexError;
use react_core::outside::Bytes;
use std::alloc::{AllocError, Global};
use thiserror::Error;

/// A command of either side, as a line of the conversation says it (D-Bus specification, Authentication Protocol).
#[derive(Debug, Drop)]
pub enum Command {
    /// `AUTH` with the mechanism and the initial response, where it names them.
    Auth(Option<AuthMechanism>, Option<Bytes>),
    /// `CANCEL`.
    Cancel,
    /// `BEGIN`.
    Begin,
    /// `DATA` with the bytes that it carries in hexadecimal digits.
    Data(Option<Bytes>),
    /// `ERROR` with its explanation.
    Error(Text),
    /// `NEGOTIATE_UNIX_FD`.
    NegotiateUnixFD,
    /// `AGREE_UNIX_FD`.
    AgreeUnixFD,
    /// `REJECTED` with the names of the mechanisms, joined by one space.
    Rejected(Text),
    /// `OK` with the server's GUID.
    Ok(Guid),
}

/// Why a line was not read.
#[derive(Debug, Drop, Error)]
pub enum CommandError {
    /// The line is no command.
    #[error("not a command")]
    Handshake,
    /// Memory ran out; nothing is known of the line.
    #[error("out of memory")]
    OutOfMemory,
}

// The first word of a command.
#[derive(Clone, Copy)]
pub(crate) enum Keyword {
    Auth,
    Cancel,
    Begin,
    Data,
    Error,
    NegotiateUnixFD,
    AgreeUnixFD,
    Rejected,
    Ok,
}

impl Keyword {
    ghost use Rattle.bus_opening.specs.Commands.{keyword};

    fn from_word(word: &str) -> Option<Keyword>
        ensures { result ≡ keyword word.now }
    {
        match word {
            "AUTH" => Some(Keyword::Auth),
            "CANCEL" => Some(Keyword::Cancel),
            "BEGIN" => Some(Keyword::Begin),
            "DATA" => Some(Keyword::Data),
            "ERROR" => Some(Keyword::Error),
            "NEGOTIATE_UNIX_FD" => Some(Keyword::NegotiateUnixFD),
            "AGREE_UNIX_FD" => Some(Keyword::AgreeUnixFD),
            "REJECTED" => Some(Keyword::Rejected),
            "OK" => Some(Keyword::Ok),
            _ => None,
        }
    }
}

impl From<AllocError> for CommandError {
    ghost from_gives = { λ _ e. e ≡ OutOfMemory };

    fn from(_error: AllocError) -> CommandError {
        CommandError::OutOfMemory
    }
}

impl Command {
    ghost use Rattle.std.specs.List.{join_with_byte};
    ghost use Rattle.bus_opening.specs.declared.command.Command.TheVariants.{Rejected, Error};
    ghost use Rattle.bus_opening.specs.Words.{trimmed};
    ghost use Rattle.bus_opening.specs.Reads.{Reads};
    ghost use Rattle.bus_opening.specs.Commands.{hex_bytes, auth, data_of, ok_of, command_of, command};

    fn read_hex(alloc: Global, word: &str) -> Result<Bytes, CommandError>
        ensures { Reads result (hex_bytes word.now) }
    {
        match hex::decode(alloc, word) {
            Ok(bytes) => Ok(Bytes::from_vec(bytes)),
            Err(FromHexError::OutOfMemory) => Err(CommandError::OutOfMemory),
            Err(_) => Err(CommandError::Handshake),
        }
    }

    fn read_auth(alloc: Global, rest: &str) -> Result<Command, CommandError>
        ensures { Reads result (auth (words rest.now)) }
    {
        let Some((name, rest)) = split_word(rest) else {
            return Ok(Command::Auth(None, None));
        };
        let Ok(mechanism) = AuthMechanism::from_str(name) else {
            return Err(CommandError::Handshake);
        };
        let Some((word, _)) = split_word(rest) else {
            return Ok(Command::Auth(Some(mechanism), None));
        };
        let bytes = Command::read_hex(alloc, word)?;
        Ok(Command::Auth(Some(mechanism), Some(bytes)))
    }

    fn read_data(alloc: Global, rest: &str) -> Result<Command, CommandError>
        ensures { Reads result (data_of (words rest.now)) }
    {
        let Some((word, _)) = split_word(rest) else {
            return Ok(Command::Data(None));
        };
        let bytes = Command::read_hex(alloc, word)?;
        Ok(Command::Data(Some(bytes)))
    }

    fn read_ok(rest: &str) -> Result<Command, CommandError>
        ensures { Reads result (ok_of (words rest.now)) }
    {
        let Some((word, _)) = split_word(rest) else {
            return Err(CommandError::Handshake);
        };
        match Guid::from_str(word) {
            Ok(guid) => Ok(Command::Ok(guid)),
            Err(_) => Err(CommandError::Handshake),
        }
    }

    // The words, joined by one space.
    fn read_rejected(alloc: Global, rest: &str) -> Result<Command, CommandError>
        ensures { Reads result (Some (Rejected (join_with_byte 32 (words rest.now)))) }
    {
        let mut text = String::new(alloc);
        let mut rest = rest;
        while let Some((word, after)) = split_word(rest) {
            if !text.is_empty() {
                text.push_str(" ")?;
            }
            text.push_str(word)?;
            rest = after;
        }
        Ok(Command::Rejected(Text::from_string(text)))
    }

    fn read_error(alloc: Global, rest: &str) -> Result<Command, CommandError>
        ensures { Reads result (Some (Error (trimmed rest.now))) }
    {
        let text = String::from_str(alloc, rest.trim_ascii())?;
        Ok(Command::Error(Text::from_string(text)))
    }

    fn read(alloc: Global, keyword: Keyword, rest: &str) -> Result<Command, CommandError>
        ensures { Reads result (command_of keyword rest.now) }
    {
        match keyword {
            Keyword::Auth => Command::read_auth(alloc, rest),
            Keyword::Cancel => Ok(Command::Cancel),
            Keyword::Begin => Ok(Command::Begin),
            Keyword::Data => Command::read_data(alloc, rest),
            Keyword::Error => Command::read_error(alloc, rest),
            Keyword::NegotiateUnixFD => Ok(Command::NegotiateUnixFD),
            Keyword::AgreeUnixFD => Ok(Command::AgreeUnixFD),
            Keyword::Rejected => Command::read_rejected(alloc, rest),
            Keyword::Ok => Command::read_ok(rest),
        }
    }

    /// Reads a line without its end. Words are parted by ASCII white space, and words that a command does not need are
    /// ignored.
    ///
    /// # Errors
    ///
    /// `Handshake` where the line is no command, and `OutOfMemory`.
    pub fn from_str(alloc: Global, line: &str) -> Result<Command, CommandError>
        ensures { Reads result (command line.now) }
    {
        let Some((word, rest)) = split_word(line) else {
            return Err(CommandError::Handshake);
        };
        let Some(keyword) = Keyword::from_word(word) else {
            return Err(CommandError::Handshake);
        };
        Command::read(alloc, keyword, rest)
    }
}

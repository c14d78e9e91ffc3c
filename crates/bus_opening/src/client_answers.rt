//! What a client does with a command.

ghost use Rattle.std.specs.Prelude.{◌≡◌, ◌<◌, ℕ, List, [], length, Some, None, IfOk, OnOk, OnErr, IsSome};
ghost use Rattle.bus_opening.specs.Client.{is_expected, piece};
ghost use Rattle.bus_opening.specs.ClientReplies.{client_pieces, AnswerIs, IsAfterOk, IsAtAsking, IsAtBegun, ok_guid};
ghost use Rattle.bus_opening.specs.declared.exchange.ClientStage.TheVariants.{First};

use crate::command::Command;
use crate::exchange::{ClientStage, Stage};
use bus_address::Guid;
use std::alloc::{AllocError, Global};

/// What is said after a line.
#[derive(Clone, Copy)]
pub(crate) enum ClientReply {
    Nothing,
    Negotiate,
    Begin,
    Both,
}

fn is_expected(expected: &Option<Guid>, guid: &Guid) -> bool
    ensures { result ≡ is_expected expected.now guid.now }
{
    match expected {
        None => true,
        Some(wanted) => *wanted == *guid,
    }
}

fn after_ok(
    expected: &Option<Guid>,
    flatpak: bool,
    passes: bool,
    guid: Guid,
) -> (Stage, ClientReply)
    ensures { IsAfterOk expected.now flatpak passes guid result.0 result.1 }
{
    if !is_expected(expected, &guid) {
        return (Stage::Refused, ClientReply::Nothing);
    }
    if !passes {
        return (Stage::Done(guid, false), ClientReply::Begin);
    }
    if flatpak {
        return (
            Stage::Client(ClientStage::Asking(guid)),
            ClientReply::Negotiate,
        );
    }
    (Stage::Client(ClientStage::Begun(guid)), ClientReply::Both)
}

// The GUID of an OK.
fn ok_guid(command: &Option<Command>) -> Option<Guid>
    ensures { result ≡ ok_guid command.now }
{
    match command {
        Some(Command::Ok(guid)) => Some(*guid),
        _ => None,
    }
}

fn at_first(
    expected: &Option<Guid>,
    flatpak: bool,
    passes: bool,
    command: &Option<Command>,
) -> (Stage, ClientReply)
    ensures { AnswerIs expected.now flatpak passes First command.now result.0 result.1 }
{
    match ok_guid(command) {
        Some(guid) => after_ok(expected, flatpak, passes, guid),
        None => (Stage::Refused, ClientReply::Nothing),
    }
}

fn at_asking(guid: Guid, command: &Option<Command>) -> (Stage, ClientReply)
    ensures { IsAtAsking guid command.now result.0 result.1 }
{
    match command {
        Some(Command::AgreeUnixFD) => (Stage::Done(guid, true), ClientReply::Begin),
        Some(Command::Error(_)) => (Stage::Done(guid, false), ClientReply::Begin),
        _ => (Stage::Refused, ClientReply::Nothing),
    }
}

fn at_begun(guid: Guid, command: &Option<Command>) -> (Stage, ClientReply)
    ensures { IsAtBegun guid command.now result.0 result.1 }
{
    match command {
        Some(Command::AgreeUnixFD) => (Stage::Done(guid, true), ClientReply::Nothing),
        Some(Command::Error(_)) => (Stage::Done(guid, false), ClientReply::Nothing),
        Some(Command::Ok(again)) => {
            if guid == *again {
                (Stage::Done(guid, false), ClientReply::Nothing)
            } else {
                (Stage::Refused, ClientReply::Nothing)
            }
        }
        _ => (Stage::Refused, ClientReply::Nothing),
    }
}

/// What a command does.
pub(crate) fn answer(
    expected: &Option<Guid>,
    flatpak: bool,
    passes: bool,
    stage: ClientStage,
    command: &Option<Command>,
) -> (Stage, ClientReply)
    ensures { AnswerIs expected.now flatpak passes stage command.now result.0 result.1 }
{
    match stage {
        ClientStage::First => at_first(expected, flatpak, passes, command),
        ClientStage::Asking(guid) => at_asking(guid, command),
        ClientStage::Begun(guid) => at_begun(guid, command),
    }
}

/// The bytes that are said.
pub(crate) fn client_bytes(
    alloc: Global,
    hello: &[u8],
    reply: ClientReply,
) -> Result<Vec<u8>, AllocError>
    ensures { IfOk result (λ v. piece v.items ≡ client_pieces hello.now reply) }
{
    let said = match reply {
        ClientReply::Nothing => return Ok(Vec::new(alloc)),
        ClientReply::Negotiate => return Vec::from_slice(alloc, "NEGOTIATE_UNIX_FD\r\n".as_bytes()),
        ClientReply::Begin => "BEGIN\r\n",
        ClientReply::Both => "NEGOTIATE_UNIX_FD\r\nBEGIN\r\n",
    };
    let mut bytes = Vec::from_slice(alloc, said.as_bytes())?;
    bytes.extend_from_slice(hello)?;
    Ok(bytes)
}

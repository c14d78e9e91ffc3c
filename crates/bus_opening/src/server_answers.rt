//! What a server does with a command.

ghost use Rattle.std.specs.Prelude.{◌≡◌, IfOk};
ghost use Rattle.std.specs.Option.{option_map};
ghost use Rattle.bus_opening.specs.Client.{piece};
ghost use Rattle.bus_opening.specs.Server.{user_of, is_permitted, is_mechanism, line_of, by_user};
ghost use Rattle.bus_opening.specs.Server.{with_data, in_auth, in_data, in_begin, step_server};
ghost use Rattle.bus_opening.specs.Parts.{phase_in, terms_in};
ghost use Rattle.bus_opening.specs.ServerReplies.{server_pieces, ServerTurns};

use crate::command::Command;
use crate::exchange::{ServerStage, Stage};
use crate::mechanism::AuthMechanism;
use crate::part::ServerPart;
use std::alloc::{AllocError, Global};
use std::str;

/// What a server says after a line.
#[derive(Clone, Copy)]
pub(crate) enum ServerReply {
    Nothing,
    Rejected,
    Accepted,
    Data,
    Agree,
    NoPassing,
    Misplaced,
}

/// The line as its command is read: the first one without its NUL.
pub(crate) fn line_at(stage: ServerStage, line: &[u8]) -> Option<&[u8]>
    ensures { option_map (λ l. l.now) result ≡ line_of (phase_in stage) line.now }
{
    match stage {
        ServerStage::Start => match line {
            [0, rest @ ..] => Some(rest),
            _ => None,
        },
        _ => Some(line),
    }
}

// The user number that bytes spell.
fn user_of(bytes: &[u8]) -> Option<u32>
    ensures { result ≡ user_of bytes.now }
{
    let Ok(text) = str::from_utf8(bytes) else {
        return None;
    };
    text.parse::<u32>().ok()
}

fn is_permitted(permitted: Option<u32>, user: u32) -> bool
    ensures { result ≡ is_permitted permitted user }
{
    match permitted {
        Some(permitted) => permitted == user,
        None => false,
    }
}

fn is_mechanism(named: AuthMechanism, wanted: AuthMechanism) -> bool
    ensures { result ≡ is_mechanism named wanted }
{
    match named {
        AuthMechanism::External => matches!(wanted, AuthMechanism::External),
        AuthMechanism::Anonymous => matches!(wanted, AuthMechanism::Anonymous),
    }
}

fn by_user(part: &ServerPart, flag: bool, user: Option<u32>) -> (Stage, ServerReply)
    ensures { ServerTurns part.now result.0 result.1 (by_user (terms_in part.now) flag user) }
{
    match user {
        None => (Stage::Refused, ServerReply::Nothing),
        Some(user) if is_permitted(part.permitted, user) => {
            (
                Stage::Server(ServerStage::Begin(flag)),
                ServerReply::Accepted,
            )
        }
        Some(_) => (
            Stage::Server(ServerStage::Auth(flag)),
            ServerReply::Rejected,
        ),
    }
}

fn with_data(
    part: &ServerPart,
    flag: bool,
    mechanism: AuthMechanism,
    bytes: &[u8],
) -> (Stage, ServerReply)
    ensures { ServerTurns part.now result.0 result.1 (with_data (terms_in part.now) flag mechanism bytes.now) }
{
    match mechanism {
        AuthMechanism::Anonymous => {
            (
                Stage::Server(ServerStage::Begin(flag)),
                ServerReply::Accepted,
            )
        }
        AuthMechanism::External => by_user(part, flag, user_of(bytes)),
    }
}

fn in_auth(part: &ServerPart, flag: bool, command: &Command) -> (Stage, ServerReply)
    ensures { ServerTurns part.now result.0 result.1 (in_auth (terms_in part.now) flag command.now) }
{
    let again = Stage::Server(ServerStage::Auth(flag));
    match command {
        Command::Auth(Some(named), None) => {
            if is_mechanism(*named, part.mechanism) {
                (Stage::Server(ServerStage::Data(flag)), ServerReply::Data)
            } else {
                (again, ServerReply::Rejected)
            }
        }
        Command::Auth(Some(named), Some(bytes)) => {
            if is_mechanism(*named, part.mechanism) {
                with_data(part, flag, *named, bytes.as_slice())
            } else {
                (again, ServerReply::Rejected)
            }
        }
        Command::Auth(None, _) => (again, ServerReply::Rejected),
        Command::Cancel => (again, ServerReply::Rejected),
        Command::Error(_) => (again, ServerReply::Rejected),
        _ => (again, ServerReply::Misplaced),
    }
}

fn in_data(part: &ServerPart, flag: bool, command: &Command) -> (Stage, ServerReply)
    ensures { ServerTurns part.now result.0 result.1 (in_data (terms_in part.now) flag command.now) }
{
    match command {
        Command::Data(Some(bytes)) => with_data(part, flag, part.mechanism, bytes.as_slice()),
        Command::Data(None) => (
            Stage::Server(ServerStage::Begin(flag)),
            ServerReply::Accepted,
        ),
        _ => (
            Stage::Server(ServerStage::Data(flag)),
            ServerReply::Misplaced,
        ),
    }
}

fn in_begin(part: &ServerPart, flag: bool, command: &Command) -> (Stage, ServerReply)
    ensures { ServerTurns part.now result.0 result.1 (in_begin (terms_in part.now) flag command.now) }
{
    let anew = Stage::Server(ServerStage::Auth(flag));
    match command {
        Command::Begin => (Stage::Done(part.guid, flag), ServerReply::Nothing),
        Command::Cancel => (anew, ServerReply::Rejected),
        Command::Error(_) => (anew, ServerReply::Rejected),
        Command::NegotiateUnixFD => {
            if part.passes {
                (Stage::Server(ServerStage::Begin(true)), ServerReply::Agree)
            } else {
                (
                    Stage::Server(ServerStage::Begin(flag)),
                    ServerReply::NoPassing,
                )
            }
        }
        _ => (
            Stage::Server(ServerStage::Begin(flag)),
            ServerReply::Misplaced,
        ),
    }
}

/// What a command does.
pub(crate) fn answer_at(
    part: &ServerPart,
    stage: ServerStage,
    command: &Command,
) -> (Stage, ServerReply)
    ensures { ServerTurns part.now result.0 result.1 (step_server (terms_in part.now) (phase_in stage) command.now) }
{
    match stage {
        ServerStage::Start => in_auth(part, false, command),
        ServerStage::Auth(flag) => in_auth(part, flag, command),
        ServerStage::Data(flag) => in_data(part, flag, command),
        ServerStage::Begin(flag) => in_begin(part, flag, command),
    }
}

/// The bytes that are said.
pub(crate) fn server_bytes(
    alloc: Global,
    part: &ServerPart,
    reply: ServerReply,
) -> Result<Vec<u8>, AllocError>
    ensures { IfOk result (λ v. piece v.items ≡ server_pieces part.now reply) }
{
    let mechanism = part.mechanism;
    let guid = part.guid;
    let said = match reply {
        ServerReply::Nothing => return Ok(Vec::new(alloc)),
        ServerReply::Rejected => {
            return Ok(format!(in alloc; "REJECTED {mechanism}\r\n")?.into_bytes());
        }
        ServerReply::Accepted => return Ok(format!(in alloc; "OK {guid}\r\n")?.into_bytes()),
        ServerReply::Data => "DATA\r\n",
        ServerReply::Agree => "AGREE_UNIX_FD\r\n",
        ServerReply::NoPassing => "ERROR FD-passing not possible on this socket type\r\n",
        ServerReply::Misplaced => "ERROR Unsupported or misplaced command\r\n",
    };
    Vec::from_slice(alloc, said.as_bytes())
}

//! What a server says after lines.

ghost use Rattle.std.specs.Prelude.{◌≡◌, ◌∷◌, [], Some, IfOk};
ghost use Rattle.std.specs.Option.{option_map, option_and_then};
ghost use Rattle.bus_opening.specs.declared.command.Command.TheVariants as cmd;
ghost use Rattle.bus_opening.specs.Client.{text_of_line, command_in};
ghost use Rattle.bus_opening.specs.Talk.{goes, turn_from, said_of};
ghost use Rattle.bus_opening.specs.Server.{begin, auth, server_terms_of, rejected, accepted, misplaced, user_of};
ghost use Rattle.bus_opening.specs.Server.{is_permitted, by_user, is_mechanism, with_data, in_auth, in_data};
ghost use Rattle.bus_opening.specs.Server.{in_begin, step_server, line_of, server_step, server};
ghost use Rattle.bus_reference.specs.Views.{as_terms, as_stage, as_reply, as_said};

use crate::reading::command_in;
use crate::turns::{Said, Status, Turn, ahead, only};
use bus_address::Guid;
use bus_opening::{AuthMechanism, Command, ServerConfig};
use react_core::outside::Bytes;
use std::alloc::{AllocError, Global};
use std::str;

/// How a server takes a connection, over a wire that passes descriptors or not.
#[derive(Clone, Copy)]
pub(crate) struct Terms {
    guid: Guid,
    mechanism: AuthMechanism,
    permitted: Option<u32>,
    passes: bool,
}

/// Which command a server waits for, and whether it agreed to pass descriptors.
#[derive(Clone, Copy)]
pub(crate) enum Stage {
    /// The first line, which begins with NUL.
    Start,
    Auth(bool),
    DataWanted(bool),
    Begin(bool),
}

// One piece with this text.
fn piece_of(alloc: Global, text: &str) -> Result<Vec<Bytes>, AllocError>
    ensures value { IfOk result (λ v. v.items ≡ text.now ∷ []) }
{
    let piece = Vec::from_slice(alloc, text.as_bytes())?;
    only(alloc, piece)
}

// The mechanism is refused, and another may be tried.
fn rejects(alloc: Global, terms: &Terms, flag: bool) -> Result<Turn<Stage>, AllocError>
    ensures value { IfOk result (λ t. as_reply t ≡ goes (rejected (as_terms terms.now)) (auth flag)) }
{
    let mechanism = terms.mechanism;
    let line = format!(in alloc; "REJECTED {mechanism}\r\n")?;
    let pieces = only(alloc, line.into_bytes())?;
    Ok(Turn::Goes(pieces, Stage::Auth(flag)))
}

// The client is let in.
fn accepts(alloc: Global, terms: &Terms, flag: bool) -> Result<Turn<Stage>, AllocError>
    ensures value { IfOk result (λ t. as_reply t ≡ goes (accepted (as_terms terms.now)) (begin flag)) }
{
    let guid = terms.guid;
    let line = format!(in alloc; "OK {guid}\r\n")?;
    let pieces = only(alloc, line.into_bytes())?;
    Ok(Turn::Goes(pieces, Stage::Begin(flag)))
}

// A command that is not for this stage.
fn misplaces(alloc: Global, stage: Stage) -> Result<Turn<Stage>, AllocError>
    ensures value { IfOk result (λ t. as_reply t ≡ goes misplaced (as_stage stage)) }
{
    let pieces = piece_of(alloc, "ERROR Unsupported or misplaced command\r\n")?;
    Ok(Turn::Goes(pieces, stage))
}

// The user number that bytes spell.
fn user_of(bytes: &[u8]) -> Option<u32>
    ensures value { result ≡ user_of bytes.now }
{
    let Ok(text) = str::from_utf8(bytes) else {
        return None;
    };
    text.parse::<u32>().ok()
}

fn is_permitted(permitted: Option<u32>, user: u32) -> bool
    ensures value { result ≡ is_permitted permitted user }
{
    match permitted {
        Some(permitted) => permitted == user,
        None => false,
    }
}

fn is_mechanism(named: AuthMechanism, wanted: AuthMechanism) -> bool
    ensures value { result ≡ is_mechanism named wanted }
{
    match named {
        AuthMechanism::External => matches!(wanted, AuthMechanism::External),
        AuthMechanism::Anonymous => matches!(wanted, AuthMechanism::Anonymous),
    }
}

// What comes of a user that EXTERNAL names.
fn by_user(
    alloc: Global,
    terms: &Terms,
    flag: bool,
    user: Option<u32>,
) -> Result<Turn<Stage>, AllocError>
    ensures value { IfOk result (λ t. as_reply t ≡ by_user (as_terms terms.now) flag user) }
{
    let Some(user) = user else {
        return Ok(Turn::Ends(Vec::new(alloc), Status::Refused));
    };
    if is_permitted(terms.permitted, user) {
        return accepts(alloc, terms, flag);
    }
    rejects(alloc, terms, flag)
}

// What comes of the response to a mechanism.
fn with_data(
    alloc: Global,
    terms: &Terms,
    flag: bool,
    mechanism: AuthMechanism,
    bytes: &[u8],
) -> Result<Turn<Stage>, AllocError>
    ensures value { IfOk result (λ t. as_reply t ≡ with_data (as_terms terms.now) flag mechanism bytes.now) }
{
    match mechanism {
        AuthMechanism::Anonymous => accepts(alloc, terms, flag),
        AuthMechanism::External => by_user(alloc, terms, flag, user_of(bytes)),
    }
}

// AUTH with a mechanism, and the response to it where there is one.
fn with_mechanism(
    alloc: Global,
    terms: &Terms,
    flag: bool,
    named: AuthMechanism,
    response: &Option<Bytes>,
) -> Result<Turn<Stage>, AllocError>
    ensures value { IfOk result
        (λ t. as_reply t ≡ in_auth (as_terms terms.now) flag (cmd.Auth (Some named) response.now)) }
{
    if !is_mechanism(named, terms.mechanism) {
        return rejects(alloc, terms, flag);
    }
    match response {
        Some(bytes) => with_data(alloc, terms, flag, named, bytes.as_slice()),
        None => {
            let pieces = piece_of(alloc, "DATA\r\n")?;
            Ok(Turn::Goes(pieces, Stage::DataWanted(flag)))
        }
    }
}

// A command where AUTH is waited for.
fn in_auth(
    alloc: Global,
    terms: &Terms,
    flag: bool,
    command: &Command,
) -> Result<Turn<Stage>, AllocError>
    ensures value { IfOk result (λ t. as_reply t ≡ in_auth (as_terms terms.now) flag command.now) }
{
    match command {
        Command::Auth(Some(named), response) => {
            with_mechanism(alloc, terms, flag, *named, response)
        }
        Command::Auth(None, _) => rejects(alloc, terms, flag),
        Command::Cancel => rejects(alloc, terms, flag),
        Command::Error(_) => rejects(alloc, terms, flag),
        _ => misplaces(alloc, Stage::Auth(flag)),
    }
}

// A command where DATA is waited for.
fn in_data(
    alloc: Global,
    terms: &Terms,
    flag: bool,
    command: &Command,
) -> Result<Turn<Stage>, AllocError>
    ensures value { IfOk result (λ t. as_reply t ≡ in_data (as_terms terms.now) flag command.now) }
{
    match command {
        Command::Data(Some(bytes)) => {
            with_data(alloc, terms, flag, terms.mechanism, bytes.as_slice())
        }
        Command::Data(None) => accepts(alloc, terms, flag),
        _ => misplaces(alloc, Stage::DataWanted(flag)),
    }
}

// The answer to NEGOTIATE_UNIX_FD.
fn negotiates(alloc: Global, terms: &Terms, flag: bool) -> Result<Turn<Stage>, AllocError>
    ensures value { IfOk result (λ t. as_reply t ≡ in_begin (as_terms terms.now) flag cmd.NegotiateUnixFD) }
{
    if terms.passes {
        let pieces = piece_of(alloc, "AGREE_UNIX_FD\r\n")?;
        return Ok(Turn::Goes(pieces, Stage::Begin(true)));
    }
    let refusal = "ERROR FD-passing not possible on this socket type\r\n";
    let pieces = piece_of(alloc, refusal)?;
    Ok(Turn::Goes(pieces, Stage::Begin(flag)))
}

// A command where BEGIN is waited for.
fn in_begin(
    alloc: Global,
    terms: &Terms,
    flag: bool,
    command: &Command,
) -> Result<Turn<Stage>, AllocError>
    ensures value { IfOk result (λ t. as_reply t ≡ in_begin (as_terms terms.now) flag command.now) }
{
    match command {
        Command::Begin => {
            let done = Status::Done(terms.guid, flag);
            Ok(Turn::Ends(Vec::new(alloc), done))
        }
        Command::Cancel => rejects(alloc, terms, flag),
        Command::Error(_) => rejects(alloc, terms, flag),
        Command::NegotiateUnixFD => negotiates(alloc, terms, flag),
        _ => misplaces(alloc, Stage::Begin(flag)),
    }
}

// What a server does with a command.
fn step_command(
    alloc: Global,
    terms: &Terms,
    stage: Stage,
    command: &Command,
) -> Result<Turn<Stage>, AllocError>
    ensures value { IfOk result (λ t. as_reply t ≡ step_server (as_terms terms.now) (as_stage stage) command.now) }
{
    match stage {
        Stage::Start => in_auth(alloc, terms, false, command),
        Stage::Auth(flag) => in_auth(alloc, terms, flag, command),
        Stage::DataWanted(flag) => in_data(alloc, terms, flag, command),
        Stage::Begin(flag) => in_begin(alloc, terms, flag, command),
    }
}

// The line as its command is read: the first one without its NUL.
fn line_of(stage: Stage, line: &[u8]) -> Option<&[u8]>
    ensures value { option_map (λ l. l.now) result ≡ line_of (as_stage stage) line.now }
{
    match stage {
        Stage::Start => match line {
            [0, rest @ ..] => Some(rest),
            _ => None,
        },
        _ => Some(line),
    }
}

// The command of a line.
fn command_at(alloc: Global, stage: Stage, line: &[u8]) -> Result<Option<Command>, AllocError>
    ensures value { IfOk result
        (λ c. c ≡ command_in (option_and_then text_of_line (line_of (as_stage stage) line.now))) }
{
    match line_of(stage, line) {
        Some(line) => command_in(alloc, line),
        None => Ok(None),
    }
}

// What a server does with a line.
fn step(alloc: Global, terms: &Terms, stage: Stage, line: &[u8]) -> Result<Turn<Stage>, AllocError>
    ensures value { IfOk result (λ t. as_reply t ≡ server_step (as_terms terms.now) (as_stage stage) line.now) }
{
    match command_at(alloc, stage, line)? {
        Some(command) => step_command(alloc, terms, stage, &command),
        None => Ok(Turn::Ends(Vec::new(alloc), Status::Refused)),
    }
}

// What is said from here on, after these lines.
fn said_from(
    alloc: Global,
    terms: &Terms,
    stage: Stage,
    lines: &[Bytes],
) -> Result<Said, AllocError>
    ensures value { IfOk result
        (λ s. as_said s ≡ said_of (turn_from (server_step (as_terms terms.now)) (as_stage stage) lines.now)) }
{
    let Some((line, others)) = lines.split_first() else {
        return Ok(Said {
            pieces: Vec::new(alloc),
            status: Status::More,
        });
    };
    match step(alloc, terms, stage, line.as_slice())? {
        Turn::Goes(pieces, next) => {
            let after = said_from(alloc, terms, next, others)?;
            ahead(pieces, after)
        }
        Turn::Ends(pieces, status) => Ok(Said { pieces, status }),
    }
}

/// What a server says after these lines.
pub(crate) fn server_says(
    alloc: Global,
    config: &ServerConfig,
    passes: bool,
    lines: &[Bytes],
) -> Result<Said, AllocError>
    ensures value { IfOk result (λ s. as_said s ≡ server (server_terms_of config.now passes) lines.now) }
{
    let terms = Terms {
        guid: config.guid,
        mechanism: config.mechanism,
        permitted: config.permitted,
        passes,
    };
    said_from(alloc, &terms, Stage::Start, lines)
}

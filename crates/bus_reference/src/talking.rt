//! What a client says after lines.

ghost use Rattle.std.specs.Prelude.{◌≡◌, ◌++◌, [], ◌∷◌, ℕ, List, Option, unwrap_or, string_bytes, IfOk};
ghost use Rattle.bus_opening.specs.Talk.{ends, turn_from, said_of};
ghost use Rattle.bus_opening.specs.Client as clients;
ghost use Rattle.bus_opening.specs.Client.{auth_line, end, piece, mechanism_of, opening, client};
ghost use Rattle.bus_opening.specs.Client.{first, asking, begun, is_expected, after_ok, step_command, step};
ghost use Rattle.bus_reference.specs.Views.{terms, as_settings, as_status, as_phase, as_turn, as_said};

use crate::dialling::Opened;
use crate::reading::command_in;
use crate::turns::{Said, Status, Turn, ahead, only};
use bus_address::Guid;
use bus_opening::{AuthMechanism, ClientConfig, Command};
use react_core::outside::Bytes;
use std::alloc::{AllocError, Global};

/// What the answers to lines rest on.
#[derive(Clone, Copy)]
pub(crate) struct Settings<'a> {
    /// What is sent behind `BEGIN`.
    hello: &'a [u8],
    flatpak: bool,
    /// The GUID that is expected, where one is.
    expected: Option<Guid>,
    /// Whether descriptors could be passed over the wire.
    passes: bool,
}

/// Which command a client waits for.
#[derive(Clone, Copy)]
pub(crate) enum Phase {
    First,
    Asking(Guid),
    Begun(Guid),
}

// The mechanism that is taken, where the wire is one of TCP or not.
fn mechanism_of(named: Option<AuthMechanism>, tcp: bool) -> AuthMechanism
    ensures value { result ≡ mechanism_of named tcp }
{
    match named {
        Some(mechanism) => mechanism,
        None if tcp => AuthMechanism::Anonymous,
        None => AuthMechanism::External,
    }
}

// A piece, if it is not empty.
fn piece(alloc: Global, bytes: &[u8]) -> Result<Vec<Bytes>, AllocError>
    ensures value { IfOk result (λ v. v.items ≡ piece bytes.now) }
{
    if bytes.is_empty() {
        return Ok(Vec::new(alloc));
    }
    let bytes = Vec::from_slice(alloc, bytes)?;
    only(alloc, bytes)
}

// The line with which a client names its mechanism: EXTERNAL shows the number of its user, ANONYMOUS shows `zbus`.
fn auth_line(alloc: Global, mechanism: AuthMechanism, user: u32) -> Result<String, AllocError>
    ensures value { IfOk result (λ s. string_bytes s ≡ auth_line mechanism user) }
{
    match mechanism {
        AuthMechanism::External => {
            let shown = Bytes::from_vec(user.to_string(alloc)?.into_bytes());
            let command = Command::Auth(Some(AuthMechanism::External), Some(shown));
            Ok(command.to_string(alloc)?)
        }
        AuthMechanism::Anonymous => Ok(String::from_str(alloc, "AUTH ANONYMOUS 7a627573")?),
    }
}

// The first line with the NUL before it.
fn first_line(alloc: Global, mechanism: AuthMechanism, user: u32) -> Result<Vec<u8>, AllocError>
    ensures value { IfOk result (λ v. v.items ≡ 0 ∷ auth_line mechanism user ++ end) }
{
    let line = auth_line(alloc, mechanism, user)?;
    let line = format!(in alloc; "\0{line}\r\n")?;
    Ok(line.into_bytes())
}

// What a client says first: the nonce of the wire, where there is one, and the first line.
fn opening(alloc: Global, config: &ClientConfig, opened: &Opened) -> Result<Vec<Bytes>, AllocError>
    ensures value { (expected : Option (List ℕ)) →
        IfOk result (λ v. v.items ≡ opening (terms config.now expected opened.now)) }
{
    let mut pieces = piece(alloc, opened.nonce.as_slice())?;
    let mechanism = mechanism_of(config.mechanism, opened.tcp);
    let line = first_line(alloc, mechanism, config.user)?;
    pieces.push(Bytes::from_vec(line))?;
    Ok(pieces)
}

// What is sent behind BEGIN.
fn hello_of(config: &ClientConfig) -> &[u8]
    ensures value { result.now ≡ unwrap_or config.now.hello [] }
{
    match &config.hello {
        Some(hello) => hello.as_slice(),
        None => &[],
    }
}

// A text with the bytes that are sent behind BEGIN.
fn with_hello(alloc: Global, text: &str, hello: &[u8]) -> Result<Vec<u8>, AllocError>
    ensures value { IfOk result (λ v. v.items ≡ text.now ++ hello.now) }
{
    let mut bytes = Vec::from_slice(alloc, text.as_bytes())?;
    bytes.extend_from_slice(hello)?;
    Ok(bytes)
}

// Whether a GUID is the one that is expected.
fn is_expected(expected: &Option<Guid>, guid: &Guid) -> bool
    ensures value { result ≡ is_expected expected.now guid.now }
{
    match expected {
        None => true,
        Some(wanted) => *wanted == *guid,
    }
}

// After the first OK.
fn after_ok(alloc: Global, settings: &Settings<'_>, guid: Guid) -> Result<Turn<Phase>, AllocError>
    ensures value { IfOk result (λ t. as_turn t ≡ after_ok (as_settings settings.now) guid) }
{
    if !is_expected(&settings.expected, &guid) {
        return Ok(Turn::Ends(Vec::new(alloc), Status::Refused));
    }
    if !settings.passes {
        let piece = with_hello(alloc, "BEGIN\r\n", settings.hello)?;
        let pieces = only(alloc, piece)?;
        return Ok(Turn::Ends(pieces, Status::Done(guid, false)));
    }
    if settings.flatpak {
        let piece = Vec::from_slice(alloc, "NEGOTIATE_UNIX_FD\r\n".as_bytes())?;
        let pieces = only(alloc, piece)?;
        return Ok(Turn::Goes(pieces, Phase::Asking(guid)));
    }
    let piece = with_hello(alloc, "NEGOTIATE_UNIX_FD\r\nBEGIN\r\n", settings.hello)?;
    let pieces = only(alloc, piece)?;
    Ok(Turn::Goes(pieces, Phase::Begun(guid)))
}

// The first command.
fn at_first(
    alloc: Global,
    settings: &Settings<'_>,
    command: &Command,
) -> Result<Turn<Phase>, AllocError>
    ensures value { IfOk result (λ t. as_turn t ≡ step_command (as_settings settings.now) first command.now) }
{
    match command {
        Command::Ok(guid) => after_ok(alloc, settings, *guid),
        _ => Ok(Turn::Ends(Vec::new(alloc), Status::Refused)),
    }
}

// The answer to NEGOTIATE_UNIX_FD, before BEGIN.
fn at_asking(
    alloc: Global,
    settings: &Settings<'_>,
    guid: Guid,
    command: &Command,
) -> Result<Turn<Phase>, AllocError>
    ensures value { IfOk result (λ t. as_turn t ≡ step_command (as_settings settings.now) (asking guid) command.now) }
{
    let agreed = match command {
        Command::AgreeUnixFD => true,
        Command::Error(_) => false,
        _ => return Ok(Turn::Ends(Vec::new(alloc), Status::Refused)),
    };
    let piece = with_hello(alloc, "BEGIN\r\n", settings.hello)?;
    let pieces = only(alloc, piece)?;
    Ok(Turn::Ends(pieces, Status::Done(guid, agreed)))
}

// How the conversation stands with the answer to NEGOTIATE_UNIX_FD, where BEGIN was sent already.
fn begun_status(guid: Guid, command: &Command) -> Status
    ensures value { (settings : clients.Settings) →
        ends [] (as_status result) ≡ step_command settings (begun guid) command.now }
{
    match command {
        Command::AgreeUnixFD => Status::Done(guid, true),
        Command::Error(_) => Status::Done(guid, false),
        Command::Ok(again) => {
            if guid == *again {
                Status::Done(guid, false)
            } else {
                Status::Refused
            }
        }
        _ => Status::Refused,
    }
}

// What a client does with a command.
fn step_command(
    alloc: Global,
    settings: &Settings<'_>,
    phase: Phase,
    command: &Command,
) -> Result<Turn<Phase>, AllocError>
    ensures value { IfOk result (λ t. as_turn t
        ≡ step_command (as_settings settings.now) (as_phase phase) command.now) }
{
    match phase {
        Phase::First => at_first(alloc, settings, command),
        Phase::Asking(guid) => at_asking(alloc, settings, guid, command),
        Phase::Begun(guid) => Ok(Turn::Ends(Vec::new(alloc), begun_status(guid, command))),
    }
}

// What a client does with a line.
fn step(
    alloc: Global,
    settings: &Settings<'_>,
    phase: Phase,
    line: &[u8],
) -> Result<Turn<Phase>, AllocError>
    ensures value { IfOk result (λ t. as_turn t ≡ step (as_settings settings.now) (as_phase phase) line.now) }
{
    match command_in(alloc, line)? {
        Some(command) => step_command(alloc, settings, phase, &command),
        None => Ok(Turn::Ends(Vec::new(alloc), Status::Refused)),
    }
}

// What is said from here on, after these lines.
fn said_from(
    alloc: Global,
    settings: &Settings<'_>,
    phase: Phase,
    lines: &[Bytes],
) -> Result<Said, AllocError>
    ensures value { IfOk result (λ s. as_said s
        ≡ said_of (turn_from (step (as_settings settings.now)) (as_phase phase) lines.now)) }
{
    let Some((line, others)) = lines.split_first() else {
        return Ok(Said {
            pieces: Vec::new(alloc),
            status: Status::More,
        });
    };
    match step(alloc, settings, phase, line.as_slice())? {
        Turn::Goes(pieces, next) => {
            let after = said_from(alloc, settings, next, others)?;
            ahead(pieces, after)
        }
        Turn::Ends(pieces, status) => Ok(Said { pieces, status }),
    }
}

/// What a client says after these lines, where it expects this GUID, over this wire.
pub(crate) fn client_says(
    alloc: Global,
    config: &ClientConfig,
    expected: Option<Guid>,
    opened: &Opened,
    lines: &[Bytes],
) -> Result<Said, AllocError>
    ensures value { IfOk result (λ s. as_said s ≡ client (terms config.now expected opened.now) lines.now) }
{
    let settings = Settings {
        hello: hello_of(config),
        flatpak: config.flatpak,
        expected,
        passes: opened.passes,
    };
    let before = opening(alloc, config, opened)?;
    let after = said_from(alloc, &settings, Phase::First, lines)?;
    ahead(before, after)
}

//! What the answers of either side rest on.

ghost use Rattle.std.specs.Prelude.{IfOk};
ghost use Rattle.bus_opening.specs.Parts.{LineAnswered, ClientAnswered, ServerAnswered};

use crate::client_answers::{answer, client_bytes};
use crate::exchange::Stage;
use crate::line::read_line;
use crate::mechanism::AuthMechanism;
use crate::server_answers::{ServerReply, answer_at, line_at, server_bytes};
use bus_address::Guid;
use react_core::outside::Bytes;
use std::alloc::{AllocError, Global};

/// A client's part.
#[derive(Drop)]
pub(crate) struct ClientPart {
    pub(crate) hello: Bytes,
    pub(crate) flatpak: bool,
    pub(crate) expected: Option<Guid>,
    pub(crate) passes: bool,
}

/// A server's part.
#[derive(Clone, Copy)]
pub(crate) struct ServerPart {
    pub(crate) guid: Guid,
    pub(crate) mechanism: AuthMechanism,
    pub(crate) permitted: Option<u32>,
    pub(crate) passes: bool,
}

/// The part of one side.
#[derive(Drop)]
pub(crate) enum Part {
    Client(ClientPart),
    Server(ServerPart),
}

fn client_reply(
    alloc: Global,
    part: &ClientPart,
    stage: Stage,
    line: &[u8],
) -> Result<(Stage, Vec<u8>), AllocError>
    ensures { IfOk result (λ x. ClientAnswered part.now stage line.now x.0 x.1.items) }
{
    let Stage::Client(stage) = stage else {
        return Ok((Stage::Refused, Vec::new(alloc)));
    };
    let command = read_line(alloc, line)?;
    let (stage, said) = answer(&part.expected, part.flatpak, part.passes, stage, &command);
    let bytes = client_bytes(alloc, part.hello.as_slice(), said)?;
    Ok((stage, bytes))
}

fn server_reply(
    alloc: Global,
    part: &ServerPart,
    stage: Stage,
    line: &[u8],
) -> Result<(Stage, Vec<u8>), AllocError>
    ensures { IfOk result (λ x. ServerAnswered part.now stage line.now x.0 x.1.items) }
{
    let Stage::Server(stage) = stage else {
        return Ok((Stage::Refused, Vec::new(alloc)));
    };
    let Some(line) = line_at(stage, line) else {
        return Ok((Stage::Refused, Vec::new(alloc)));
    };
    let Some(command) = read_line(alloc, line)? else {
        return Ok((Stage::Refused, Vec::new(alloc)));
    };
    let (stage, said) = answer_at(part, stage, &command);
    let bytes = server_bytes(alloc, part, said)?;
    Ok((stage, bytes))
}

/// The stage after a line, and what is said to it.
pub(crate) fn reply(
    alloc: Global,
    part: &Part,
    stage: Stage,
    line: &[u8],
) -> Result<(Stage, Vec<u8>), AllocError>
    ensures { IfOk result (λ x. LineAnswered part.now stage line.now x.0 x.1.items) }
{
    match part {
        Part::Client(part) => client_reply(alloc, part, stage, line),
        Part::Server(part) => server_reply(alloc, part, stage, line),
    }
}

//! What is asked of a wire next.

ghost use Rattle.std.specs.Prelude.{◌≡◌, ◌+◌, ◌≤◌, IfOk, Some, None, nat_lt, if◌then◌else◌, sum_by, length};
ghost use Rattle.std.specs.Option.{option_map};
ghost use Rattle.bus_opening.specs.Talk.{piece_rest, ask_more, ask_by, ask_now, ask_from, ask, looked_from, left};
ghost use Rattle.bus_session.specs.Dialling.{conversation};
ghost use Rattle.bus_reference.specs.Views.{as_status, as_ask};
ghost use Rattle.bus_reference.specs.Diallings.{as_opened};

use crate::dialling::Opened;
use crate::lines::{feed_at, first_lines, following};
use crate::speaking::talk;
use crate::turns::Status;
use bus_address::Guid;
use bus_session::Party;
use react_core::outside::{Bytes, OutOfMemory};
use std::alloc::{AllocError, Global};

/// What is asked of the wire, or the ending.
#[derive(Debug, Drop)]
pub enum Asked {
    /// To send this, the rest of a piece.
    Send(Bytes),
    /// To read.
    Recv,
    /// The connection stands: the server's GUID, and whether descriptors may be passed over it.
    Opens(Guid, bool),
    /// The peer broke the protocol.
    Handshake,
    /// The peer gave too many commands.
    TooManyCommands,
    /// A line of the peer was too long.
    LineTooLong,
}

// The rest of the piece in which the byte at `taken` lies, where there is one.
fn piece_rest(taken: usize, pieces: &[Bytes]) -> Option<&[u8]>
    ensures value { option_map (λ p. p.now) result
        ≡ (if nat_lt taken (sum_by length pieces.now) then Some (piece_rest taken pieces.now) else None) }
{
    let (piece, others) = pieces.split_first()?;
    let bytes = piece.as_slice();
    if taken < bytes.len() {
        return Some(&bytes[taken..]);
    }
    piece_rest(taken - bytes.len(), others)
}

// What is asked once all pieces are taken, where `more` further commands may come.
fn ask_more(more: usize, after: &[u8]) -> Option<Asked>
    ensures value { option_map as_ask result ≡ ask_more more after.now }
{
    if more == 0 {
        return Some(Asked::TooManyCommands);
    }
    let feed = feed_at(after);
    if feed > 16384 {
        return Some(Asked::LineTooLong);
    }
    if feed < after.len() {
        return None;
    }
    Some(Asked::Recv)
}

fn ask_by(status: Status, more: usize, after: &[u8]) -> Option<Asked>
    ensures value { option_map as_ask result ≡ ask_by (as_status status) more after.now }
{
    match status {
        Status::More => ask_more(more, after),
        Status::Done(guid, flag) => Some(Asked::Opens(guid, flag)),
        Status::Refused => Some(Asked::Handshake),
    }
}

// What is asked where the first lines were looked at; none where the next line is to be looked at.
fn ask_now(
    alloc: Global,
    party: &Party,
    opened: &Opened,
    got: &[u8],
    taken: usize,
    more: usize,
    looked: usize,
) -> Result<Option<Asked>, AllocError>
    ensures value { IfOk result (λ a. option_map as_ask a
        ≡ ask_now (conversation party.now (as_opened opened.now)) got.now taken more looked) }
{
    let lines = first_lines(alloc, got, looked)?;
    let said = talk(alloc, party, opened, lines.as_slice())?;
    if let Some(rest) = piece_rest(taken, said.pieces.as_slice()) {
        let rest = Vec::from_slice(alloc, rest)?;
        return Ok(Some(Asked::Send(Bytes::from_vec(rest))));
    }
    Ok(ask_by(said.status, more, following(looked, got)))
}

// The next question from these lines on.
fn ask_from(
    alloc: Global,
    party: &Party,
    opened: &Opened,
    got: &[u8],
    taken: usize,
    more: usize,
    looked: usize,
) -> Result<Asked, AllocError>
    requires few { more + looked ≤ 64 }
    ensures value { IfOk result (λ a. as_ask a
        ≡ ask_from (conversation party.now (as_opened opened.now)) got.now taken more looked) }
{
    let asked = ask_now(alloc, party, opened, got, taken, more, looked)?;
    if let Some(asked) = asked {
        return Ok(asked);
    }
    if more == 0 {
        return Ok(Asked::TooManyCommands);
    }
    ask_from(alloc, party, opened, got, taken, more - 1, looked + 1)
}

/// What a party asks over its wire, once these bytes came and so many of its own were taken: to read or to send, or how
/// the conversation ends (D-Bus specification, Authentication Protocol). A client expects the GUID that its address
/// names.
///
/// # Errors
///
/// Memory ran out.
pub fn ask(
    alloc: Global,
    party: &Party,
    opened: &Opened,
    got: &[u8],
    taken: usize,
) -> Result<Asked, OutOfMemory>
    ensures value { IfOk result (λ a. as_ask a ≡ ask (conversation party.now (as_opened opened.now)) got.now taken) }
{
    let asked = ask_from(alloc, party, opened, got, taken, 64, 0)?;
    Ok(asked)
}

// How many lines were looked at when that is asked.
fn looked_from(
    alloc: Global,
    party: &Party,
    opened: &Opened,
    got: &[u8],
    taken: usize,
    more: usize,
    looked: usize,
) -> Result<usize, AllocError>
    requires few { more + looked ≤ 64 }
    ensures value { IfOk result (λ j. j
        ≡ looked_from (conversation party.now (as_opened opened.now)) got.now taken more looked) }
{
    if more == 0 {
        return Ok(looked);
    }
    let asked = ask_now(alloc, party, opened, got, taken, more, looked)?;
    if asked.is_some() {
        return Ok(looked);
    }
    looked_from(alloc, party, opened, got, taken, more - 1, looked + 1)
}

/// What came and was not looked at.
pub(crate) fn left(
    alloc: Global,
    party: &Party,
    opened: &Opened,
    got: &[u8],
    taken: usize,
) -> Result<Bytes, AllocError>
    ensures value { IfOk result (λ b. b ≡ left (conversation party.now (as_opened opened.now)) got.now taken) }
{
    let looked = looked_from(alloc, party, opened, got, taken, 64, 0)?;
    let rest = Vec::from_slice(alloc, following(looked, got))?;
    Ok(Bytes::from_vec(rest))
}

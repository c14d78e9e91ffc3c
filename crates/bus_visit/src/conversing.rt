//! The wire asked until a conversation ends or the wire isn't ready: no reactor, and no other session.

ghost use Rattle.std.specs.Prelude.{◌≡◌, false, IfOk, OnErr};
ghost use Rattle.react_core.specs.Outer.{Keeps};
ghost use Rattle.react_core.specs.Outer as part;
ghost use Rattle.bus_visit.specs.Conversed.{ending_of, ConversesTo, IsInterrupted, ConversedCounted};

use crate::conversation::Conversation;
use bus_opening::{Handshake, Step, Verdict};
use bus_session::Ending;
use react_core::outside::{OutOfMemory, Wire};
use react_core::reactor::Dir;
use std::alloc::Global;

/// What a conversation came to.
#[derive(Clone, Copy)]
pub enum Conversed {
    /// The session has ended.
    Over(Ending),
    /// The wire isn't ready in this direction.
    Paused(Dir),
}

/// The ending that a verdict is.
fn ending_of(verdict: Verdict) -> Ending
    ensures { result ≡ ending_of verdict }
{
    match verdict {
        Verdict::Authenticated(settled) => Ending::Open {
            guid: settled.guid,
            cap_unix_fd: settled.cap_unix_fd,
        },
        Verdict::Handshake => Ending::Handshake,
        Verdict::Io => Ending::Io,
        Verdict::LineTooLong => Ending::LineTooLong,
        Verdict::TooManyCommands => Ending::TooManyCommands,
    }
}

/// Asks a wire what its conversation asks, one question after another, until the conversation ends or the wire
/// isn't ready (D-Bus specification, Authentication Protocol).
///
/// OutOfMemory: memory ran out. The conversation stands where the last call of the wire left it, and may go on.
pub fn converse<W: Wire>(
    alloc: Global,
    outside: &mut W,
    wire: u32,
    client: &mut Conversation,
) -> Result<Conversed, OutOfMemory>
    requires open { client.old.ended ≡ false }
    ensures conversed { IfOk result
        (ConversesTo wire ((W.outer outside.old).events) ((W.outer outside.new).events) client.old client.new) }
    ensures interrupted { OnErr result
        (IsInterrupted wire ((W.outer outside.old).events) ((W.outer outside.new).events) client.old client.new) }
    ensures cause { ConversedCounted result ((W.outer outside.old).wire_faults wire)
        ((W.outer outside.new).wire_faults wire) }
    ensures keeps { Keeps (part.Wire wire) (W.outer outside.old) (W.outer outside.new) }
{
    match client.poll(alloc, outside, wire) {
        Step::Done(verdict) => Ok(Conversed::Over(ending_of(verdict))),
        Step::WantRead => Ok(Conversed::Paused(Dir::Read)),
        Step::WantWrite => Ok(Conversed::Paused(Dir::Write)),
        Step::OutOfMemory => Err(OutOfMemory),
    }
}

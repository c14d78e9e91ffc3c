//! What the side that a session takes says after lines.

ghost use Rattle.std.specs.Prelude.{◌≡◌, IfOk};
ghost use Rattle.bus_session.specs.Dialling.{conversation};
ghost use Rattle.bus_reference.specs.Views.{as_said};
ghost use Rattle.bus_reference.specs.Diallings.{as_opened};

use crate::dialling::{Opened, address, guid_in};
use crate::serving::server_says;
use crate::talking::client_says;
use crate::turns::Said;
use bus_session::Party;
use react_core::outside::Bytes;
use std::alloc::{AllocError, Global};

/// What a party says after these lines, over this wire. A client expects the GUID that its address names.
pub(crate) fn talk(
    alloc: Global,
    party: &Party,
    opened: &Opened,
    lines: &[Bytes],
) -> Result<Said, AllocError>
    ensures value { IfOk result (λ s. as_said s ≡ conversation party.now (as_opened opened.now) lines.now) }
{
    match party {
        Party::Client {
            address: text,
            config,
        } => {
            let read = address(alloc, text.as_str())?;
            client_says(alloc, config, guid_in(&read), opened, lines)
        }
        Party::Server(config) => server_says(alloc, config, opened.passes, lines),
    }
}

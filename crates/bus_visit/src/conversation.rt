//! The conversation of a session, on whichever side it is.

ghost use Rattle.std.specs.Prelude.{◌≡◌, [], false, IfOk};
ghost use Rattle.bus_opening.specs.Openings.{Opening, StandsIn, written_of, rest_of, ended_of};
ghost use Rattle.bus_visit.specs.Conversations.{opening_of};
ghost use Rattle.bus_visit.specs.Dialled.{as_opened};
ghost use Rattle.bus_session.specs.Dialling.{conversation, expects};

use crate::dialling::OpenWire;
use bus_address::Guid;
use bus_opening::{Client, Handshake, Server, Step};
use bus_session::Party;
use react_core::outside::{OutOfMemory, Wire};
use std::alloc::Global;
use std::marker::Model;

/// A client or a server in the middle of its opening.
#[derive(Drop)]
pub(crate) enum Side {
    Client(Client),
    Server(Server),
}

/// A conversation. Contracts see where it stands, whichever side it is.
#[derive(Drop)]
pub struct Conversation {
    side: Side,
}

impl Model for Conversation {
    ghost Value = { Opening };

    ghost view = { λ c. opening_of c.side };
}

impl Conversation {
    /// The conversation of a session over a wire that was just opened.
    pub fn begin(
        alloc: Global,
        party: &Party,
        expected: Option<Guid>,
        opened: &OpenWire,
    ) -> Result<Conversation, OutOfMemory>
        requires expected { expected ≡ expects party.now }
        ensures stands { IfOk result (λ c. StandsIn (conversation party.now (as_opened opened.now)) [] c) }
        ensures written { IfOk result (λ c. c.written ≡ []) }
        ensures open { IfOk result (λ c. c.ended ≡ false) }
    {
        let side = match party {
            Party::Client { config, .. } => {
                let nonce = opened.nonce.as_slice();
                let (passes, tcp) = (opened.passes, opened.tcp);
                Side::Client(Client::new(alloc, config, expected, passes, tcp, nonce)?)
            }
            Party::Server(config) => Side::Server(Server::new(alloc, config, opened.passes)?),
        };
        Ok(Conversation { side })
    }
}

impl Handshake for Conversation {
    ghost stands = { StandsIn };

    ghost written = { written_of };

    ghost unlooked = { rest_of };

    ghost ended = { ended_of };

    fn poll<W: Wire>(&mut self, alloc: Global, outside: &mut W, wire: u32) -> Step {
        match &mut self.side {
            Side::Client(client) => client.poll(alloc, outside, wire),
            Side::Server(server) => server.poll(alloc, outside, wire),
        }
    }

    fn written(&self) -> &[u8] {
        match &self.side {
            Side::Client(client) => client.written(),
            Side::Server(server) => server.written(),
        }
    }

    fn leftover(&self) -> &[u8] {
        match &self.side {
            Side::Client(client) => client.leftover(),
            Side::Server(server) => server.leftover(),
        }
    }

    fn is_done(&self) -> bool {
        match &self.side {
            Side::Client(client) => client.is_done(),
            Side::Server(server) => server.is_done(),
        }
    }
}

//! The server's side of the conversation.

ghost use Rattle.std.specs.Prelude.{◌≡◌, [], IfOk};
ghost use Rattle.bus_opening.specs.Server.{server, server_terms_of};

use crate::config::ServerConfig;
use crate::exchange::{Exchange, ServerStage, Stage};
use crate::handshake::Handshake;
use crate::outbox::Outbox;
use crate::part::{Part, ServerPart};
use crate::verdict::Step;
use react_core::outside::{OutOfMemory, Wire};
use std::alloc::Global;
use std::marker::Model;

/// A server in the middle of an opening (D-Bus specification, Authentication Protocol).
#[derive(Drop)]
pub struct Server {
    exchange: Exchange,
}

impl Model for Server {
    ghost use Rattle.bus_opening.specs.Openings.{Opening};

    ghost Value = { Opening };

    ghost view = { λ s. s.exchange };
}

impl Server {
    ghost use Rattle.std.specs.Prelude.{false};
    ghost use Rattle.bus_opening.specs.Openings.{StandsIn};

    /// A server at the start of its conversation over a wire that was just opened: `passes` where the wire could pass
    /// descriptors. A client that sends `DATA` without bytes under EXTERNAL is let in without a test of who it is, so
    /// the peer's credentials are to be checked by whoever opened the wire.
    ///
    /// # Errors
    ///
    /// Memory ran out.
    pub fn new(alloc: Global, config: &ServerConfig, passes: bool) -> Result<Server, OutOfMemory>
        ensures stands { IfOk result (λ s. StandsIn (server (server_terms_of config.now passes)) [] s) }
        ensures written { IfOk result (λ s. s.written ≡ []) }
        ensures rest { IfOk result (λ s. s.rest ≡ []) }
        ensures open { IfOk result (λ s. s.ended ≡ false) }
    {
        let outbox = Outbox::begun(alloc, &[], &[])?;
        let part = Part::Server(ServerPart {
            guid: config.guid,
            mechanism: config.mechanism,
            permitted: config.permitted,
            passes,
        });
        let stage = Stage::Server(ServerStage::Start);
        Ok(Server {
            exchange: Exchange::new(alloc, part, stage, outbox),
        })
    }
}

impl Handshake for Server {
    ghost use Rattle.bus_opening.specs.Openings.{StandsIn, written_of, rest_of, ended_of};

    ghost stands = { StandsIn };

    ghost written = { written_of };

    ghost unlooked = { rest_of };

    ghost ended = { ended_of };

    fn poll<W: Wire>(&mut self, alloc: Global, outside: &mut W, wire: u32) -> Step {
        self.exchange.poll(alloc, outside, wire)
    }

    fn written(&self) -> &[u8] {
        self.exchange.written()
    }

    fn leftover(&self) -> &[u8] {
        self.exchange.leftover()
    }

    fn is_done(&self) -> bool {
        self.exchange.is_done()
    }
}

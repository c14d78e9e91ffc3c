//! The client's side of the conversation.

ghost use Rattle.std.specs.Prelude.{◌≡◌, ◌++◌, [], ◌∷◌, unwrap_or, IfOk};
ghost use Rattle.bus_opening.specs.Client.{auth_line, client, end, mechanism_of, terms_of};

use crate::command::Command;
use crate::config::ClientConfig;
use crate::exchange::{ClientStage, Exchange, Stage};
use crate::handshake::Handshake;
use crate::mechanism::AuthMechanism;
use crate::outbox::Outbox;
use crate::part::{ClientPart, Part};
use crate::verdict::Step;
use bus_address::Guid;
use react_core::outside::{Bytes, OutOfMemory, Wire};
use std::alloc::{AllocError, Global};
use std::marker::Model;

/// A client in the middle of its opening (D-Bus specification, Authentication Protocol).
#[derive(Drop)]
pub struct Client {
    exchange: Exchange,
}

impl Model for Client {
    ghost use Rattle.bus_opening.specs.Openings.{Opening};

    ghost Value = { Opening };

    ghost view = { λ c. c.exchange };
}

// The mechanism that is taken.
fn mechanism_of(mechanism: Option<AuthMechanism>, tcp: bool) -> AuthMechanism
    ensures { result ≡ mechanism_of mechanism tcp }
{
    match mechanism {
        Some(mechanism) => mechanism,
        None if tcp => AuthMechanism::Anonymous,
        None => AuthMechanism::External,
    }
}

// The first line with the NUL before it.
#[tactic(auto, unfolding(hex::specs::Hex::encode_with))]
fn first_line(alloc: Global, mechanism: AuthMechanism, user: u32) -> Result<Vec<u8>, AllocError>
    ensures { IfOk result (λ v. v.items ≡ 0 ∷ auth_line mechanism user ++ end) }
{
    let shown = match mechanism {
        AuthMechanism::External => user.to_string(alloc)?.into_bytes(),
        AuthMechanism::Anonymous => Vec::from_slice(alloc, "zbus".as_bytes())?,
    };
    let command = Command::Auth(Some(mechanism), Some(Bytes::from_vec(shown)));
    let line = format!(in alloc; "\0{command}\r\n")?;
    Ok(line.into_bytes())
}

// The bytes that are sent behind BEGIN.
fn hello_of(alloc: Global, config: &ClientConfig) -> Result<Bytes, AllocError>
    ensures { IfOk result (λ b. b ≡ unwrap_or config.now.hello []) }
{
    let bytes = match &config.hello {
        Some(bytes) => Vec::from_slice(alloc, bytes.as_slice())?,
        None => Vec::new(alloc),
    };
    Ok(Bytes::from_vec(bytes))
}

impl Client {
    ghost use Rattle.std.specs.Prelude.{false};
    ghost use Rattle.bus_opening.specs.Openings.{StandsIn};

    /// A client at the start of its conversation over a wire that was just opened: `passes` where the wire could pass
    /// descriptors, `tcp` where it is one of TCP. The GUID that is expected is the one of the server's address, and the
    /// nonce that of a `nonce-tcp:` address, or empty.
    ///
    /// # Errors
    ///
    /// Memory ran out.
    pub fn new(
        alloc: Global,
        config: &ClientConfig,
        expected: Option<Guid>,
        passes: bool,
        tcp: bool,
        nonce: &[u8],
    ) -> Result<Client, OutOfMemory>
        ensures stands { IfOk result (λ c. StandsIn (client (terms_of config.now expected passes tcp nonce.now)) [] c) }
        ensures written { IfOk result (λ c. c.written ≡ []) }
        ensures rest { IfOk result (λ c. c.rest ≡ []) }
        ensures open { IfOk result (λ c. c.ended ≡ false) }
    {
        let mechanism = mechanism_of(config.mechanism, tcp);
        let line = first_line(alloc, mechanism, config.user)?;
        let outbox = Outbox::begun(alloc, nonce, line.as_slice())?;
        let hello = hello_of(alloc, config)?;
        let part = Part::Client(ClientPart {
            hello,
            flatpak: config.flatpak,
            expected,
            passes,
        });
        let stage = Stage::Client(ClientStage::First);
        Ok(Client {
            exchange: Exchange::new(alloc, part, stage, outbox),
        })
    }
}

impl Handshake for Client {
    ghost use Rattle.bus_opening.specs.Openings.{StandsIn, written_of, rest_of, ended_of};

    ghost stands = { StandsIn };

    ghost written = { written_of };

    ghost unlooked = { rest_of };

    ghost ended = { ended_of };

    fn poll<W: Wire>(&mut self, alloc: Global, outside: &mut W, wire: u32) -> Step {
        self.exchange.poll(alloc, outside, wire)
    }

    fn written(&self) -> &[u8] {
        self.exchange.written()
    }

    fn leftover(&self) -> &[u8] {
        self.exchange.leftover()
    }

    fn is_done(&self) -> bool {
        self.exchange.is_done()
    }
}

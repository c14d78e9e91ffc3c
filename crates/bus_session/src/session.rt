//! A session: who opens a connection, from what, and until when.

ghost use Rattle.std.specs.Prelude.{◌≡◌, string_bytes};
ghost use Rattle.bus_session.specs.declared.session.Party.TheVariants as party;

use bus_address::Text;
use bus_opening::{ClientConfig, ServerConfig};

/// The side of the conversation that a session takes.
#[derive(Debug, Drop)]
pub enum Party {
    /// A client of the bus at an address.
    Client { address: Text, config: ClientConfig },
    /// A server, for a connection that a peer opened.
    Server(ServerConfig),
}

/// A connection that is to be opened.
#[derive(Debug, Drop)]
pub struct Session {
    pub party: Party,
    /// The moment, in nanoseconds, at which the session stops waiting.
    pub deadline: Option<u64>,
}

impl Session {
    /// A client's session.
    pub fn client(address: String, config: ClientConfig, deadline: Option<u64>) -> Session
        ensures value { result ≡ record { party = party.Client (string_bytes address) config; deadline = deadline } }
    {
        Session {
            party: Party::Client {
                address: Text::from_string(address),
                config,
            },
            deadline,
        }
    }

    /// A server's session.
    pub fn server(config: ServerConfig, deadline: Option<u64>) -> Session
        ensures value { result ≡ record { party = party.Server config; deadline = deadline } }
    {
        Session {
            party: Party::Server(config),
            deadline,
        }
    }
}

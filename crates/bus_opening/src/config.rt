//! What an opening is set up with.

use crate::mechanism::AuthMechanism;
use bus_address::Guid;
use react_core::outside::Bytes;

/// How a client opens its connection.
#[derive(Debug, Drop)]
pub struct ClientConfig {
    /// The mechanism; without one a TCP wire takes ANONYMOUS and any other EXTERNAL.
    pub mechanism: Option<AuthMechanism>,
    /// The user number that EXTERNAL names.
    pub user: u32,
    /// What is sent behind `BEGIN`, in one piece with it.
    pub hello: Option<Bytes>,
    /// Whether `BEGIN` waits for the answer to `NEGOTIATE_UNIX_FD`, as a flatpak portal's proxy wants it.
    pub flatpak: bool,
}

/// How a server takes a connection.
#[derive(Clone, Copy, Debug)]
pub struct ServerConfig {
    /// The server's own GUID.
    pub guid: Guid,
    /// The one mechanism that it accepts.
    pub mechanism: AuthMechanism,
    /// The only user whom EXTERNAL lets in by its number, in the bytes of `AUTH EXTERNAL` or of `DATA`; without one no
    /// number lets anybody in. It does not bound who gets in: `DATA` without bytes names no user, and is let in
    /// whoever is permitted, also where nobody is. There the client asks for the identity that the transport has for
    /// it (D-Bus specification, Authentication Protocol, on EXTERNAL; RFC 4422, appendix A), and an opening does not
    /// see the transport. So whoever hands in a wire checks the credentials of its peer.
    pub permitted: Option<u32>,
}

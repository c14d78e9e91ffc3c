//! How a bus is reached.

use crate::ibus::Ibus;
use crate::tcp::Tcp;
use crate::unix::Unix;
use crate::unixexec::Unixexec;
use std::fmt;

/// How a bus is reached (D-Bus specification, Transports).
#[derive(Debug, Drop, PartialEq, Eq)]
pub enum Transport {
    /// A Unix domain socket.
    Unix(Unix),
    /// TCP, with a nonce or without.
    Tcp(Tcp),
    /// The standard input and output of a program.
    Unixexec(Unixexec),
    /// The bus of IBus.
    Ibus(Ibus),
}

impl Transport {
    ghost use Rattle.std.specs.Prelude.{◌≡◌, IsTrue};
    ghost use Rattle.bus_address.specs.ReadBack.{is_readable_transport, IsReadableTransport};

    pub(crate) fn is_readable(&self) -> bool
        ensures value { result ≡ is_readable_transport self.now }
        ensures readable { IsTrue result → IsReadableTransport self.now }
    {
        match self {
            Transport::Unix(unix) => unix.path().is_readable(),
            Transport::Tcp(tcp) => tcp.is_readable(),
            Transport::Unixexec(unixexec) => unixexec.is_readable(),
            Transport::Ibus(_) => true,
        }
    }
}

impl fmt::Display for Transport {
    ghost use Rattle.std.specs.Prelude.{Some};
    ghost use Rattle.bus_address.specs.Address.{transport_text};

    ghost output = { λ transport. Some (transport_text transport) };

    fn fmt<W: fmt::Write>(&self, f: &mut fmt::Formatter<W>) -> fmt::Result {
        match self {
            Transport::Unix(unix) => write!(f, "{unix}"),
            Transport::Tcp(tcp) => write!(f, "{tcp}"),
            Transport::Unixexec(unixexec) => write!(f, "{unixexec}"),
            Transport::Ibus(ibus) => write!(f, "{ibus}"),
        }
    }
}

//! Unix domain sockets (D-Bus specification, Unix Domain Sockets).

ghost use Rattle.std.specs.Prelude.{◌≡◌, ◌++◌, codes, IsTrue, Some};

use crate::escapes::Escaped;
use crate::octets::{Octets, has_bytes};
use std::fmt;
use std::marker::Model;

/// Where a Unix domain socket is.
#[derive(Debug, Drop, PartialEq, Eq)]
pub enum UnixSocket {
    /// A file.
    File(Octets),
    /// A name in the abstract name space.
    Abstract(Octets),
    /// A folder in which a server makes a socket file. It can't be dialled.
    Dir(Octets),
    /// A folder in which a server makes a socket file or an abstract name. It can't be dialled.
    TmpDir(Octets),
}

impl UnixSocket {
    ghost use Rattle.bus_address.specs.ReadBack.{is_readable_socket, IsReadableSocket};

    pub(crate) fn is_readable(&self) -> bool
        ensures value { result ≡ is_readable_socket self.now }
        ensures readable { IsTrue result → IsReadableSocket self.now }
    {
        match self {
            UnixSocket::File(path) => has_bytes(path.as_slice()),
            UnixSocket::Abstract(name) => has_bytes(name.as_slice()),
            UnixSocket::Dir(path) => has_bytes(path.as_slice()),
            UnixSocket::TmpDir(path) => has_bytes(path.as_slice()),
        }
    }
}

impl fmt::Display for UnixSocket {
    ghost use Rattle.std.specs.Prelude.{Some};
    ghost use Rattle.bus_address.specs.Entries.{entry_text};
    ghost use Rattle.bus_address.specs.Printed.{socket_entry};

    ghost output = { λ socket. Some (entry_text (socket_entry socket)) };

    fn fmt<W: fmt::Write>(&self, f: &mut fmt::Formatter<W>) -> fmt::Result {
        match self {
            UnixSocket::File(path) => write!(f, "path={}", Escaped(path.as_slice())),
            UnixSocket::Abstract(name) => write!(f, "abstract={}", Escaped(name.as_slice())),
            UnixSocket::Dir(path) => write!(f, "dir={}", Escaped(path.as_slice())),
            UnixSocket::TmpDir(path) => write!(f, "tmpdir={}", Escaped(path.as_slice())),
        }
    }
}

/// The address of a Unix domain socket.
#[derive(Debug, Drop, PartialEq, Eq)]
pub struct Unix {
    socket: UnixSocket,
}

impl Model for Unix {
    ghost use Rattle.bus_address.specs.declared.unix.UnixSocket.{UnixSocket};

    ghost Value = { UnixSocket };

    ghost view = { λ u. u.socket };

    ghost inverse = { λ s. record { socket = s } };
}

impl Unix {
    /// The address of a socket.
    pub fn new(socket: UnixSocket) -> Unix
        ensures { result ≡ socket }
    {
        Unix { socket }
    }

    /// The socket.
    pub fn path(&self) -> &UnixSocket
        ensures { result.now ≡ self.now }
    {
        &self.socket
    }

    /// The socket, taken out.
    pub fn take_path(self) -> UnixSocket
        ensures { result ≡ self }
    {
        self.socket
    }
}

impl fmt::Display for Unix {
    ghost use Rattle.std.specs.Prelude.{Some, codes, ◌++◌};
    ghost use Rattle.bus_address.specs.Printed.{unix_text};

    ghost output = { λ socket. Some (unix_text socket) };

    fn fmt<W: fmt::Write>(&self, f: &mut fmt::Formatter<W>) -> fmt::Result {
        let socket = &self.socket;
        write!(f, "unix:{socket}")
    }
}

//! What a wire is: a socket that doesn't wait, or a program's pipes.

ghost use Rattle.std.specs.Prelude.{◌≡◌, ◌≤◌, length, IfOk};
ghost use Rattle.react_core.specs.Told.{IsReceived, IsSent};
ghost use Rattle.bus_edges.specs.Amounts.{IsArrived, IsFrom, IsPosted};

use crate::peers::address_of;
use crate::streams::{
    arrived, arrived_from, fault_of, may_come, peek_unix, posted, read_from, read_pipe, received,
    write_pipe, write_to,
};
use mio::net::{TcpListener, TcpStream, UdpSocket, UnixListener, UnixStream};
use mio::{Interest, Registry, Token, event};
use react_core::outside::{Fault, Peer, Received, Sent};
use std::process::{Child, OpenProcess};

/// What a wire is.
#[derive(Drop)]
pub(crate) enum Socket<P: OpenProcess> {
    Unix(UnixStream),
    UnixListener(UnixListener),
    Tcp(TcpStream),
    TcpListener(TcpListener),
    Udp(UdpSocket),
    Program(Child<P>),
}

impl<P: OpenProcess + Drop> Socket<P> {
    /// Reads what there is; from a program it may wait.
    pub(crate) fn recv(&mut self, into: &mut [u8]) -> Result<Received, Fault>
        ensures amount { IfOk result (IsReceived (length into.old)) }
        ensures room { length into.new ≡ length into.old }
    {
        match self {
            Socket::Unix(stream) => read_from(stream, into),
            Socket::Tcp(stream) => read_from(stream, into),
            Socket::Program(child) => match &mut child.stdout {
                Some(pipe) => read_pipe(pipe, into),
                None => Err(Fault::Failed),
            },
            _ => Err(Fault::Failed),
        }
    }

    /// Writes what fits; to a program it may wait.
    pub(crate) fn send(&mut self, bytes: &[u8]) -> Result<Sent, Fault>
        ensures amount { IfOk result (IsSent (length bytes.now)) }
    {
        match self {
            Socket::Unix(stream) => write_to(stream, bytes),
            Socket::Tcp(stream) => write_to(stream, bytes),
            Socket::Program(child) => match &mut child.stdin {
                Some(pipe) => write_pipe(pipe, bytes),
                None => Err(Fault::Failed),
            },
            _ => Err(Fault::Failed),
        }
    }

    /// Looks at a stream's next bytes, which stay there.
    pub(crate) fn peek(&mut self, into: &mut [u8]) -> Result<Received, Fault>
        ensures amount { IfOk result (IsReceived (length into.old)) }
        ensures room { length into.new ≡ length into.old }
    {
        match self {
            Socket::Unix(stream) => {
                let answer = peek_unix(stream, into);
                received(answer, into.len())
            }
            Socket::Tcp(stream) => {
                let answer = stream.peek(into);
                received(answer, into.len())
            }
            _ => Err(Fault::Failed),
        }
    }

    /// Takes the next connection of a listening socket, where one waits.
    pub(crate) fn accept(&mut self) -> Result<Option<Socket<P>>, Fault> {
        match self {
            Socket::UnixListener(listener) => match listener.accept() {
                Ok((stream, _)) => Ok(Some(Socket::Unix(stream))),
                Err(error) if may_come(&error) => Ok(None),
                Err(error) => Err(fault_of(error)),
            },
            Socket::TcpListener(listener) => match listener.accept() {
                Ok((stream, _)) => Ok(Some(Socket::Tcp(stream))),
                Err(error) if may_come(&error) => Ok(None),
                Err(error) => Err(fault_of(error)),
            },
            _ => Err(Fault::Failed),
        }
    }

    fn datagrams(&mut self) -> Result<&mut UdpSocket, Fault> {
        match self {
            Socket::Udp(socket) => Ok(socket),
            _ => Err(Fault::Failed),
        }
    }

    pub(crate) fn connect_udp(&mut self, peer: Peer) -> Result<(), Fault> {
        let socket = self.datagrams()?;
        socket.connect(address_of(peer)).map_err(fault_of)
    }

    pub(crate) fn recv_udp(&mut self, into: &mut [u8]) -> Result<Received, Fault>
        ensures amount { IfOk result (IsArrived (length into.old)) }
        ensures room { length into.new ≡ length into.old }
    {
        let socket = self.datagrams()?;
        let answer = socket.recv(into);
        arrived(answer, into.len())
    }

    pub(crate) fn peek_udp(&mut self, into: &mut [u8]) -> Result<Received, Fault>
        ensures amount { IfOk result (IsArrived (length into.old)) }
        ensures room { length into.new ≡ length into.old }
    {
        let socket = self.datagrams()?;
        let answer = socket.peek(into);
        arrived(answer, into.len())
    }

    pub(crate) fn recv_from(&mut self, into: &mut [u8]) -> Result<(Received, Option<Peer>), Fault>
        ensures amount { IfOk result (λ r. IsArrived (length into.old) r.0) }
        ensures sender { IfOk result (λ r. IsFrom r.0 r.1) }
        ensures room { length into.new ≡ length into.old }
    {
        let socket = self.datagrams()?;
        let answer = socket.recv_from(into);
        arrived_from(answer, into.len())
    }

    pub(crate) fn peek_from(&mut self, into: &mut [u8]) -> Result<(Received, Option<Peer>), Fault>
        ensures amount { IfOk result (λ r. IsArrived (length into.old) r.0) }
        ensures sender { IfOk result (λ r. IsFrom r.0 r.1) }
        ensures room { length into.new ≡ length into.old }
    {
        let socket = self.datagrams()?;
        let answer = socket.peek_from(into);
        arrived_from(answer, into.len())
    }

    pub(crate) fn send_udp(&mut self, bytes: &[u8]) -> Result<Sent, Fault>
        ensures amount { IfOk result (IsPosted (length bytes.now)) }
    {
        let socket = self.datagrams()?;
        posted(socket.send(bytes), bytes.len())
    }

    pub(crate) fn send_to(&mut self, bytes: &[u8], peer: Peer) -> Result<Sent, Fault>
        ensures amount { IfOk result (IsPosted (length bytes.now)) }
    {
        let socket = self.datagrams()?;
        posted(socket.send_to(bytes, address_of(peer)), bytes.len())
    }

    /// Tells the system what is of interest, and answers whether it now knows the socket. It knows no program.
    pub(crate) fn tell(
        &mut self,
        registry: &Registry,
        token: Token,
        interest: Option<Interest>,
        known: bool,
    ) -> Result<bool, Fault> {
        match self {
            Socket::Unix(source) => tell(source, registry, token, interest, known),
            Socket::UnixListener(source) => tell(source, registry, token, interest, known),
            Socket::Tcp(source) => tell(source, registry, token, interest, known),
            Socket::TcpListener(source) => tell(source, registry, token, interest, known),
            Socket::Udp(source) => tell(source, registry, token, interest, known),
            Socket::Program(_) => Ok(false),
        }
    }
}

/// Registers a source that isn't known, and one that is anew, so that what is ready already is told again.
fn tell<S: event::Source>(
    source: &mut S,
    registry: &Registry,
    token: Token,
    interest: Option<Interest>,
    known: bool,
) -> Result<bool, Fault> {
    match (interest, known) {
        (Some(interest), true) => registry
            .reregister(source, token, interest)
            .map_err(fault_of)?,
        (Some(interest), false) => registry
            .register(source, token, interest)
            .map_err(fault_of)?,
        (None, true) => registry.deregister(source).map_err(fault_of)?,
        (None, false) => {}
    }
    Ok(interest.is_some())
}

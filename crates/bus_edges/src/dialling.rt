//! Connections, listening sockets and files, as the system gives them. A connection may wait, without a limit of time.

ghost use Rattle.std.specs.Prelude.{◌≤◌, length, IfOk};

use crate::peers::{address_of, peer_at};
use crate::sockets::Socket;
use crate::streams::fault_of;
use libc::types::pollfd;
use mio::net::{TcpListener, TcpStream, UdpSocket};
use react_core::outside::{Args, Bytes, Fault, OutOfMemory, Output, Peer, Peers};
use std::alloc::Global;
use std::io::Read;
use std::net::{Net, ToSocketAddrs};
use std::os::fd::AsRawFd;
use std::os::unix::net::{UnixListener, UnixStream};
use std::process::{Child, Command, OpenProcess, Processes, Stdio};
use std::rt::Files;
use std::{fs, io, str};

/// The most bytes that a nonce file may have.
const NONCE_LIMIT: usize = 65536;

fn unix_stream(rt: &impl Net, path: &str) -> io::Result<UnixStream> {
    let stream = UnixStream::connect(rt, path)?;
    stream.set_nonblocking(true)?;
    Ok(stream)
}

/// Connects to the Unix socket at a path (D-Bus specification, "Unix Domain Sockets").
///
/// The socket connects while it may wait: a connect that doesn't wait is refused where the listener has no room. It
/// doesn't wait from then on.
pub(crate) fn connect_unix<P: OpenProcess>(rt: &impl Net, path: &str) -> Result<Socket<P>, Fault> {
    let stream = unix_stream(rt, path).map_err(fault_of)?;
    Ok(Socket::Unix(mio::net::UnixStream::from_std(stream)))
}

/// Waits until a socket that connects is writable, or has failed.
fn wait_writable(fd: i32) -> io::Result<()> {
    for _ in 0..u64::MAX {
        let mut asked = [pollfd {
            fd,
            events: libc::net::POLLOUT,
            revents: 0,
        }];
        if libc::net::poll(&mut asked, -1) > 0 {
            return Ok(());
        }
        let error = os::errno();
        if error != libc::EINTR {
            return Err(io::Error::from_raw_os_error(error));
        }
    }
    Err(io::Error::from(io::ErrorKind::TimedOut))
}

fn tcp_stream(rt: &impl Net, peer: Peer) -> io::Result<TcpStream> {
    let stream = TcpStream::connect(rt, address_of(peer))?;
    wait_writable(stream.as_raw_fd())?;
    match stream.take_error()? {
        Some(error) => Err(error),
        None => Ok(stream),
    }
}

/// Connects over TCP (D-Bus specification, "TCP Sockets").
pub(crate) fn connect_tcp<P: OpenProcess>(rt: &impl Net, peer: Peer) -> Result<Socket<P>, Fault> {
    Ok(Socket::Tcp(tcp_stream(rt, peer).map_err(fault_of)?))
}

/// Listens at a path.
pub(crate) fn listen_unix<R: Files + Net, P: OpenProcess>(
    rt: &R,
    path: &str,
) -> Result<Socket<P>, Fault> {
    let listener = UnixListener::bind(rt, path).map_err(fault_of)?;
    listener.set_nonblocking(true).map_err(fault_of)?;
    let listener = mio::net::UnixListener::from_std(listener);
    Ok(Socket::UnixListener(listener))
}

/// Listens over TCP, and tells the address.
pub(crate) fn listen_tcp<P: OpenProcess>(
    rt: &impl Net,
    peer: Peer,
) -> Result<(Socket<P>, Peer), Fault> {
    let listener = TcpListener::bind(rt, address_of(peer)).map_err(fault_of)?;
    let bound = peer_at(listener.local_addr().map_err(fault_of)?);
    Ok((Socket::TcpListener(listener), bound))
}

/// Binds a socket for datagrams, and tells the address.
pub(crate) fn bind_datagrams<P: OpenProcess>(
    rt: &impl Net,
    peer: Peer,
) -> Result<(Socket<P>, Peer), Fault> {
    let socket = UdpSocket::bind(rt, address_of(peer)).map_err(fault_of)?;
    let bound = peer_at(socket.local_addr().map_err(fault_of)?);
    Ok((Socket::Udp(socket), bound))
}

/// The addresses of a host, in the system's order.
pub(crate) fn looked_up(
    rt: &impl Net,
    alloc: Global,
    host: &str,
    port: u16,
) -> Result<Peers, Fault> {
    let mut peers = Vec::new(alloc);
    for address in (host, port).to_socket_addrs(rt).map_err(fault_of)? {
        if peers.push(peer_at(address)).is_err() {
            return Err(Fault::OutOfMemory);
        }
    }
    Ok(Peers::from_vec(peers))
}

/// The bytes of a nonce file, of which there may be no more than the limit (D-Bus specification,
/// "Nonce-authenticated TCP Sockets").
pub(crate) fn nonce_in<R: Files>(rt: &R, alloc: Global, path: &str) -> Result<Bytes, Fault>
    ensures few { IfOk result (λ bytes. length bytes ≤ 65536) }
{
    let mut file = fs::open(rt, path).map_err(fault_of)?;
    let mut bytes = Vec::new(alloc);
    let mut piece = [0u8; 1024];
    for _ in 0..u64::MAX {
        let count = file.read(&mut piece).map_err(fault_of)?;
        if count == 0 {
            return Ok(Bytes::from_vec(bytes));
        }
        if bytes.len().saturating_add(count) > NONCE_LIMIT {
            return Err(Fault::Failed);
        }
        bytes
            .extend_from_slice(&piece[..count])
            .map_err(OutOfMemory::from)?;
    }
    Err(Fault::Failed)
}

/// The command of a program with its arguments. One that isn't UTF-8 is a fault.
fn command_of(alloc: Global, program: &str, args: &Args) -> Result<Command, Fault> {
    let mut command = Command::new(alloc, program).map_err(OutOfMemory::from)?;
    for arg in args.as_slice() {
        match str::from_utf8(arg.as_slice()) {
            Ok(text) => {
                command.arg(text).map_err(OutOfMemory::from)?;
            }
            Err(_) => return Err(Fault::Failed),
        }
    }
    Ok(command)
}

/// Starts a program, whose standard input and output are the connection (D-Bus specification, "Executed Subprocesses
/// on Unix"). Its standard error stays this process's.
pub(crate) fn started<R: Processes>(
    rt: &R,
    alloc: Global,
    program: &str,
    args: &Args,
) -> Result<Socket<R::Started>, Fault> {
    let mut command = command_of(alloc, program, args)?;
    command.stdin(Stdio::piped()).stdout(Stdio::piped());
    let child: Child<R::Started> = command.spawn(rt).map_err(fault_of)?;
    Ok(Socket::Program(child))
}

/// What the ibus daemon's own program prints, as it ends.
pub(crate) fn ibus<R: Processes>(rt: &R, alloc: Global) -> Result<Output, Fault> {
    let mut command = Command::new(alloc, "ibus").map_err(OutOfMemory::from)?;
    command.arg("address").map_err(OutOfMemory::from)?;
    let output = command.output(rt).map_err(fault_of)?;
    Ok(Output {
        success: output.status.success(),
        text: Bytes::from_vec(output.stdout),
    })
}

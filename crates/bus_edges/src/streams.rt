//! Reads and writes as the traits answer them: one that would wait is NotReady, and one that failed a fault.

ghost use Rattle.std.specs.Prelude.{◌≡◌, ◌≢◌, ◌↔◌, ◌≤◌, true, length, IfOk, IfErr, IsErr, Ok};
ghost use Rattle.react_core.specs.declared.outside.Received.TheVariants as received;
ghost use Rattle.react_core.specs.declared.outside.Sent.TheVariants as sent;
ghost use Rattle.react_core.specs.Told.{IsReceived, IsSent};
ghost use Rattle.bus_edges.specs.Amounts.{IsArrived, IsFrom, IsPosted, MayCome};

use crate::peers::peer_at;
use mio::net::UnixStream;
use react_core::outside::{Fault, Peer, Received, Sent};
use std::io;
use std::io::{Error, ErrorKind, Read, Write};
use std::net::SocketAddr;
use std::os::fd::AsRawFd;

/// The refusal that an error of the system is.
pub(crate) fn fault_of(error: Error) -> Fault {
    match error.kind() {
        ErrorKind::OutOfMemory => Fault::OutOfMemory,
        _ => Fault::Failed,
    }
}

/// Whether the call may succeed later: it would wait, or a signal ended it.
pub(crate) fn may_come(error: &Error) -> bool
    ensures { (result ≡ true) ↔ MayCome error.now }
{
    matches!(error.kind(), ErrorKind::WouldBlock | ErrorKind::Interrupted)
}

/// What a read of a stream found, which asked for so many bytes.
pub(crate) fn received(answer: io::Result<usize>, asked: usize) -> Result<Received, Fault>
    requires most { IfOk answer (λ n. n ≤ asked) }
    ensures got { IfOk answer (λ n. n ≢ 0 → result ≡ Ok (received.Got n)) }
    ensures end { IfOk answer (λ n. n ≡ 0 → asked ≢ 0 → result ≡ Ok received.End) }
    ensures later { IfErr answer (λ e. MayCome e → result ≡ Ok received.NotReady) }
    ensures failed { IfErr answer (λ e. ¬ (MayCome e) → IsErr result) }
    ensures amount { IfOk result (IsReceived asked) }
{
    match answer {
        Ok(0) if asked != 0 => Ok(Received::End),
        Ok(count) => Ok(Received::Got(count)),
        Err(error) if may_come(&error) => Ok(Received::NotReady),
        Err(error) => Err(fault_of(error)),
    }
}

/// What a write to a stream did, which offered so many bytes. One that took none of them is a fault.
fn taken(answer: io::Result<usize>, offered: usize) -> Result<Sent, Fault>
    requires most { IfOk answer (λ n. n ≤ offered) }
    ensures took { IfOk answer (λ n. n ≢ 0 → result ≡ Ok (sent.Took n)) }
    ensures nothing { IfOk answer (λ n. n ≡ 0 → offered ≢ 0 → IsErr result) }
    ensures later { IfErr answer (λ e. MayCome e → result ≡ Ok sent.NotReady) }
    ensures failed { IfErr answer (λ e. ¬ (MayCome e) → IsErr result) }
    ensures amount { IfOk result (IsSent offered) }
{
    match answer {
        Ok(0) if offered != 0 => Err(Fault::Failed),
        Ok(count) => Ok(Sent::Took(count)),
        Err(error) if may_come(&error) => Ok(Sent::NotReady),
        Err(error) => Err(fault_of(error)),
    }
}

/// Reads what there is.
pub(crate) fn read_from<S: Read>(stream: &mut S, into: &mut [u8]) -> Result<Received, Fault>
    ensures amount { IfOk result (IsReceived (length into.old)) }
    ensures room { length into.new ≡ length into.old }
{
    let answer = stream.read(into);
    received(answer, into.len())
}

/// Writes what fits.
pub(crate) fn write_to<S: Write>(stream: &mut S, bytes: &[u8]) -> Result<Sent, Fault>
    ensures amount { IfOk result (IsSent (length bytes.now)) }
{
    taken(stream.write(bytes), bytes.len())
}

/// Reads from a program, which may wait. A signal that ends the wait is a fault.
pub(crate) fn read_pipe<S: Read>(pipe: &mut S, into: &mut [u8]) -> Result<Received, Fault>
    ensures amount { IfOk result (IsReceived (length into.old)) }
    ensures room { length into.new ≡ length into.old }
{
    match pipe.read(into) {
        Ok(0) if !into.is_empty() => Ok(Received::End),
        Ok(count) => Ok(Received::Got(count)),
        Err(error) => Err(fault_of(error)),
    }
}

/// Writes to a program, which may wait. A signal that ends the wait is a fault.
pub(crate) fn write_pipe<S: Write>(pipe: &mut S, bytes: &[u8]) -> Result<Sent, Fault>
    ensures amount { IfOk result (IsSent (length bytes.now)) }
{
    match pipe.write(bytes) {
        Ok(0) if !bytes.is_empty() => Err(Fault::Failed),
        Ok(count) => Ok(Sent::Took(count)),
        Err(error) => Err(fault_of(error)),
    }
}

/// Looks at a Unix stream's next bytes, which stay there.
pub(crate) fn peek_unix(stream: &UnixStream, into: &mut [u8]) -> io::Result<usize>
    ensures amount { IfOk result (λ n. n ≤ length into.old) }
    ensures room { length into.new ≡ length into.old }
{
    let got = unsafe { libc::net::recv(stream.as_raw_fd(), into, libc::net::MSG_PEEK) };
    match usize::try_from(got) {
        Ok(count) => Ok(count),
        Err(_) => Err(Error::from_raw_os_error(os::errno())),
    }
}

/// What came of the arrival of a datagram, which may be empty.
pub(crate) fn arrived(answer: io::Result<usize>, asked: usize) -> Result<Received, Fault>
    requires most { IfOk answer (λ n. n ≤ asked) }
    ensures got { IfOk answer (λ n. result ≡ Ok (received.Got n)) }
    ensures later { IfErr answer (λ e. MayCome e → result ≡ Ok received.NotReady) }
    ensures failed { IfErr answer (λ e. ¬ (MayCome e) → IsErr result) }
    ensures amount { IfOk result (IsArrived asked) }
{
    match answer {
        Ok(count) => Ok(Received::Got(count)),
        Err(error) if may_come(&error) => Ok(Received::NotReady),
        Err(error) => Err(fault_of(error)),
    }
}

/// What came of the arrival of a datagram, and its sender.
pub(crate) fn arrived_from(
    answer: io::Result<(usize, SocketAddr)>,
    asked: usize,
) -> Result<(Received, Option<Peer>), Fault>
    requires most { IfOk answer (λ r. r.0 ≤ asked) }
    ensures amount { IfOk result (λ r. IsArrived asked r.0) }
    ensures sender { IfOk result (λ r. IsFrom r.0 r.1) }
{
    match answer {
        Ok((count, address)) => Ok((Received::Got(count), Some(peer_at(address)))),
        Err(error) if may_come(&error) => Ok((Received::NotReady, None)),
        Err(error) => Err(fault_of(error)),
    }
}

/// What came of a datagram's departure.
pub(crate) fn posted(answer: io::Result<usize>, offered: usize) -> Result<Sent, Fault>
    requires most { IfOk answer (λ n. n ≤ offered) }
    ensures took { IfOk answer (λ n. result ≡ Ok (sent.Took n)) }
    ensures later { IfErr answer (λ e. MayCome e → result ≡ Ok sent.NotReady) }
    ensures failed { IfErr answer (λ e. ¬ (MayCome e) → IsErr result) }
    ensures amount { IfOk result (IsPosted offered) }
{
    match answer {
        Ok(count) => Ok(Sent::Took(count)),
        Err(error) if may_come(&error) => Ok(Sent::NotReady),
        Err(error) => Err(fault_of(error)),
    }
}

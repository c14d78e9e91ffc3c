//! What an answer to a dialling's question comes to.

ghost use Rattle.std.specs.Prelude.{◌≡◌, false, filter, IfOk, [], if◌then◌else◌, Some, None};
ghost use Rattle.std.specs.Option.{option_map};
ghost use Rattle.std.specs.Str.{is_utf8};
ghost use Rattle.react_core.specs.declared.outside.DialAnswer.TheVariants as dial_answer;
ghost use Rattle.bus_session.specs.Dialling.{to_given, is_of, fits, to_peers, over_tcp, given, printed};
ghost use Rattle.bus_session.specs.Dialling.{answered, dialled};
ghost use Rattle.bus_reference.specs.Diallings.{as_opened, as_purpose, as_dialling};

use crate::dialling::{Dialling, Opened, Purpose, address, copied, to_host, to_program, to_socket};
use crate::questions::is_same;
use bus_address::{Address, AddressKind, TcpTransportFamily, Transport};
use bus_session::{AddressReason, Ending};
use react_core::outside::{Bytes, DialAnswer, Peer, Peers, Question};
use std::alloc::{AllocError, Global};
use std::str;

const IBUS_FAILED: Ending = Ending::Address(AddressReason::IbusFailed);

const NO_ADDRESS: Ending = Ending::Address(AddressReason::NoAddress);

// An address that ibus gave; it may not name ibus again.
fn to_given(alloc: Global, transport: &Transport) -> Result<Dialling, AllocError>
    ensures value { IfOk result (λ d. as_dialling d ≡ to_given transport.now) }
{
    match transport {
        Transport::Unix(unix) => to_socket(alloc, unix.path()),
        Transport::Tcp(tcp) => to_host(alloc, tcp),
        Transport::Unixexec(program) => to_program(alloc, program),
        Transport::Ibus(_) => Ok(Dialling::Fails(Ending::Unsupported)),
    }
}

// Whether a peer is of a family.
fn is_of(family: TcpTransportFamily, peer: &Peer) -> bool
    ensures value { result ≡ is_of family peer.now }
{
    match (family, peer) {
        (TcpTransportFamily::Ipv4, Peer::V4 { .. }) => true,
        (TcpTransportFamily::Ipv6, Peer::V6 { .. }) => true,
        _ => false,
    }
}

// Whether a peer is of the family that an address names, if it names one.
fn fits(wanted: Option<TcpTransportFamily>, peer: &Peer) -> bool
    ensures value { result ≡ fits wanted peer.now }
{
    match wanted {
        Some(family) => is_of(family, peer),
        None => true,
    }
}

// The peers that are of the family that an address names.
fn fitting(
    alloc: Global,
    wanted: Option<TcpTransportFamily>,
    peers: &[Peer],
) -> Result<Vec<Peer>, AllocError>
    ensures value { IfOk result (λ v. v.items ≡ filter (fits wanted) peers.now) }
{
    peers
        .iter()
        .copied()
        .filter(|peer| fits(wanted, peer))
        .collect(alloc)
}

// The first of these peers is asked; where none is left, it ends so.
fn to_peers(
    alloc: Global,
    none: Ending,
    file: Option<Bytes>,
    peers: &[Peer],
) -> Result<Dialling, AllocError>
    ensures value { IfOk result (λ d. as_dialling d ≡ to_peers none file peers.now) }
{
    match peers.split_first() {
        Some((peer, left)) => {
            let left = Peers::from_vec(Vec::from_slice(alloc, left)?);
            Ok(Dialling::Asks(Question::Tcp(*peer), Purpose::APeer(left, file)))
        }
        None => Ok(Dialling::Fails(none)),
    }
}

// A wire, which may be one of TCP, without a nonce.
fn wire(alloc: Global, passes: bool, tcp: bool) -> Opened
    ensures value { as_opened result ≡ record { passes = passes; tcp = tcp; nonce = [] } }
{
    Opened {
        passes,
        tcp,
        nonce: Bytes::from_vec(Vec::new(alloc)),
    }
}

// The wire to a peer is open: the nonce is read, where the address names its file.
fn over_tcp(alloc: Global, file: Option<Bytes>, passes: bool) -> Dialling
    ensures value { as_dialling result ≡ over_tcp file passes }
{
    match file {
        Some(file) => Dialling::Asks(Question::Nonce(file), Purpose::TheNonce(passes)),
        None => Dialling::Opens(wire(alloc, passes, true)),
    }
}

// The text that ibus printed, as an address.
fn given(alloc: Global, read: &Result<Address, AddressKind>) -> Result<Dialling, AllocError>
    ensures value { IfOk result (λ d. as_dialling d ≡ given read.now) }
{
    match read {
        Ok(read) => to_given(alloc, read.transport()),
        Err(_) => Ok(Dialling::Fails(IBUS_FAILED)),
    }
}

// Bytes as a text, where they are UTF-8.
fn text_of(bytes: &[u8]) -> Option<&str>
    ensures value { option_map (λ t. t.now) result ≡ (if is_utf8 bytes.now then Some bytes.now else None) }
{
    match str::from_utf8(bytes) {
        Ok(text) => Some(text),
        Err(_) => None,
    }
}

// What ibus printed: an address with white space around it, if it ended in success.
fn printed(alloc: Global, success: bool, text: &[u8]) -> Result<Dialling, AllocError>
    ensures value { IfOk result (λ d. as_dialling d ≡ printed success text.now) }
{
    if !success {
        return Ok(Dialling::Fails(IBUS_FAILED));
    }
    let Some(text) = text_of(text) else {
        return Ok(Dialling::Fails(IBUS_FAILED));
    };
    let read = address(alloc, text.trim())?;
    given(alloc, &read)
}

// What an answer without a connection comes to.
fn failed(alloc: Global, purpose: Purpose) -> Result<Dialling, AllocError>
    ensures value { IfOk result (λ d. Some (as_dialling d) ≡ answered (as_purpose purpose) dial_answer.Failed) }
{
    match purpose {
        Purpose::TheWire | Purpose::ThePeers(..) => Ok(Dialling::Fails(Ending::Connection)),
        Purpose::APeer(left, file) => to_peers(alloc, Ending::Connection, file, left.as_slice()),
        Purpose::TheNonce(_) => Ok(Dialling::Fails(Ending::Io)),
        Purpose::TheAddress => Ok(Dialling::Fails(IBUS_FAILED)),
    }
}

// What the answer comes to; none where it is of another question.
fn answered(
    alloc: Global,
    purpose: Purpose,
    answer: &DialAnswer,
) -> Result<Option<Dialling>, AllocError>
    ensures value { IfOk result (λ d. option_map as_dialling d ≡ answered (as_purpose purpose) answer.now) }
{
    match (purpose, answer) {
        (purpose, DialAnswer::Failed) => Ok(Some(failed(alloc, purpose)?)),
        (Purpose::TheWire, DialAnswer::Opened { passes }) => {
            Ok(Some(Dialling::Opens(wire(alloc, *passes, false))))
        }
        (Purpose::ThePeers(wanted, file), DialAnswer::Found(peers)) => {
            let peers = fitting(alloc, wanted, peers.as_slice())?;
            Ok(Some(to_peers(alloc, NO_ADDRESS, file, peers.as_slice())?))
        }
        (Purpose::APeer(_, file), DialAnswer::Opened { passes }) => {
            Ok(Some(over_tcp(alloc, file, *passes)))
        }
        (Purpose::TheNonce(passes), DialAnswer::Nonce(bytes)) => {
            let nonce = copied(alloc, bytes.as_slice())?;
            Ok(Some(Dialling::Opens(Opened {
                passes,
                tcp: true,
                nonce,
            })))
        }
        (Purpose::TheAddress, DialAnswer::Output { success, text }) => {
            Ok(Some(printed(alloc, *success, text.as_slice())?))
        }
        _ => Ok(None),
    }
}

/// The dialling after one more question and its answer, if that question is asked.
pub(crate) fn dialled(
    alloc: Global,
    dialling: Dialling,
    asked: &Question,
    answer: &DialAnswer,
) -> Result<Option<Dialling>, AllocError>
    ensures value { IfOk result (λ d. option_map as_dialling d
        ≡ dialled (as_dialling dialling) asked.now answer.now) }
{
    let Dialling::Asks(wanted, purpose) = dialling else {
        return Ok(None);
    };
    if !is_same(&wanted, asked) {
        return Ok(None);
    }
    answered(alloc, purpose, answer)
}

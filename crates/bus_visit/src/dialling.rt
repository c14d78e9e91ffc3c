//! Dialling: how a session comes to an open wire (D-Bus specification, Server Addresses).

ghost use Rattle.std.specs.Prelude.{◌≡◌, [], true, false, IfOk, MatchOption, map, filter};
ghost use Rattle.std.specs.List.{list_all};
ghost use Rattle.std.specs.Str.{is_utf8};
ghost use Rattle.std.specs.Option.{option_copied};
ghost use Rattle.react_core.specs.Outer.{Keeps};
ghost use Rattle.react_core.specs.Outer as part;
ghost use Rattle.react_core.specs.declared.outside.Question.TheVariants as question;
ghost use Rattle.bus_session.specs.declared.ended.AddressReason.TheVariants as reason;
ghost use Rattle.bus_session.specs.declared.ended.Ending.TheVariants as ending;
ghost use Rattle.bus_address.specs.Reading.{address};
ghost use Rattle.bus_session.specs.Dialling.{asks, the_address, begins, expects, guid_in, is_text, fits, to_socket};
ghost use Rattle.bus_session.specs.Dialling.{to_host, to_program, to_given, to_address, to_read, to_peers, over_tcp};
ghost use Rattle.bus_session.specs.Dialling.{printed};
ghost use Rattle.bus_visit.specs.Dialled.{DialTold, ReachTold, OpenedAs};
ghost use Rattle.bus_visit.specs.Faults.{DialCounted};

use bus_address::{
    Address, AddressError, Guid, Tcp, TcpTransportFamily, Transport, UnixSocket, Unixexec,
};
use bus_session::{AddressReason, Ending, Party};
use react_core::outside::{Args, Bytes, Dialer, Fault, Opened, OutOfMemory, Output, Peer};
use std::alloc::{AllocError, Global};

/// An open wire.
#[derive(Drop)]
pub struct OpenWire {
    /// Whether descriptors could be passed over it.
    pub passes: bool,
    /// Whether it is one of TCP.
    pub tcp: bool,
    /// The nonce that was read for it; empty where none was.
    pub nonce: Bytes,
}

/// What a dialling came to.
#[derive(Drop)]
pub enum Dialled {
    Opened(OpenWire),
    Failed(Ending),
}

/// What a session's dialling came to, and the GUID that its address names.
#[derive(Drop)]
pub struct Reached {
    pub dialled: Dialled,
    pub expected: Option<Guid>,
}

/// No bytes.
fn nothing(alloc: Global) -> Bytes
    ensures value { result ≡ [] }
{
    Bytes::from_vec(Vec::new(alloc))
}

/// A wire that is none of TCP, or the failure to open it.
fn plain_wire(alloc: Global, answer: Result<Opened, Fault>) -> Result<Dialled, OutOfMemory>
    ensures value { OpenedAs answer result }
{
    match answer {
        Ok(opened) => Ok(Dialled::Opened(OpenWire {
            passes: opened.passes,
            tcp: false,
            nonce: nothing(alloc),
        })),
        Err(Fault::Failed) => Ok(Dialled::Failed(Ending::Connection)),
        Err(Fault::OutOfMemory) => Err(OutOfMemory),
    }
}

/// Bytes as text, where they are UTF-8.
fn text_of(bytes: &[u8]) -> Option<&str>
    ensures text { MatchOption result (is_utf8 bytes.now ≡ false)
        (λ text. (is_utf8 bytes.now ≡ true) × (text.now ≡ bytes.now)) }
{
    match str::from_utf8(bytes) {
        Ok(text) => Some(text),
        Err(_) => None,
    }
}

/// Dials a Unix socket.
fn dial_socket<D: Dialer>(
    alloc: Global,
    dialer: &mut D,
    wire: u32,
    socket: &UnixSocket,
) -> Result<Dialled, OutOfMemory>
    ensures told { DialTold wire (to_socket socket.now) result ((D.outer dialer.old).events)
        ((D.outer dialer.new).events) }
    ensures counted { IfOk result (λ d. DialCounted wire d (D.outer dialer.old) (D.outer dialer.new)) }
    ensures poller { (D.outer dialer.new).poller_faults ≡ (D.outer dialer.old).poller_faults }
    ensures unread { (D.outer dialer.new).moment ≡ (D.outer dialer.old).moment }
    ensures keeps { Keeps (part.Visit wire) (D.outer dialer.old) (D.outer dialer.new) }
{
    match socket {
        UnixSocket::File(path) => match text_of(path.as_slice()) {
            Some(path) => plain_wire(alloc, dialer.dial_unix(wire, path)),
            None => Ok(Dialled::Failed(Ending::Unsupported)),
        },
        UnixSocket::Abstract(name) => {
            plain_wire(alloc, dialer.dial_abstract(wire, name.as_slice()))
        }
        UnixSocket::Dir(_) | UnixSocket::TmpDir(_) => Ok(Dialled::Failed(Ending::Unsupported)),
    }
}

/// What may be there, as text, if it is UTF-8.
fn optional_text(bytes: Option<&[u8]>) -> Option<Option<&str>>
    ensures text { MatchOption result (is_text (option_copied bytes.entry) ≡ false)
        (λ text. (is_text (option_copied bytes.entry) ≡ true)
        × (option_copied text ≡ option_copied bytes.entry)) }
{
    match bytes {
        None => Some(None),
        Some(bytes) => match text_of(bytes) {
            Some(text) => Some(Some(text)),
            None => None,
        },
    }
}

/// Whether bytes are UTF-8.
fn is_text(bytes: &[u8]) -> bool
    ensures value { result ≡ is_utf8 bytes.now }
{
    text_of(bytes).is_some()
}

/// Whether each of these is UTF-8.
fn all_text(all: &[Vec<u8>]) -> bool
    ensures value { result ≡ list_all (λ v. is_utf8 v.items) all.now }
{
    all.iter().all(|bytes| is_text(bytes.as_slice()))
}

/// A copy of the arguments of a program.
fn args_of(alloc: Global, all: &[Vec<u8>]) -> Result<Args, AllocError>
    ensures value { IfOk result (λ args. args ≡ map (λ v. v.items) all.now) }
{
    let mut args = Vec::new(alloc);
    for bytes in all {
        args.push(Bytes::from_vec(Vec::from_slice(alloc, bytes.as_slice())?))?;
    }
    Ok(Args::from_vec(args))
}

/// Starts a program whose standard streams are the wire.
fn dial_program<D: Dialer>(
    alloc: Global,
    dialer: &mut D,
    wire: u32,
    program: &Unixexec,
) -> Result<Dialled, OutOfMemory>
    ensures told { DialTold wire (to_program program.now) result ((D.outer dialer.old).events)
        ((D.outer dialer.new).events) }
    ensures counted { IfOk result (λ d. DialCounted wire d (D.outer dialer.old) (D.outer dialer.new)) }
    ensures poller { (D.outer dialer.new).poller_faults ≡ (D.outer dialer.old).poller_faults }
    ensures unread { (D.outer dialer.new).moment ≡ (D.outer dialer.old).moment }
    ensures keeps { Keeps (part.Visit wire) (D.outer dialer.old) (D.outer dialer.new) }
{
    let Some(path) = text_of(program.path()) else {
        return Ok(Dialled::Failed(Ending::Unsupported));
    };
    let Some(arg0) = optional_text(program.arg0()) else {
        return Ok(Dialled::Failed(Ending::Unsupported));
    };
    if !all_text(program.args()) {
        return Ok(Dialled::Failed(Ending::Unsupported));
    }
    let args = args_of(alloc, program.args())?;
    plain_wire(alloc, dialer.start(wire, path, arg0, &args))
}

/// A wire of TCP with this nonce.
fn over_tcp(passes: bool, nonce: Bytes) -> OpenWire
    ensures value { result ≡ record { passes = passes; tcp = true; nonce = nonce } }
{
    OpenWire {
        passes,
        tcp: true,
        nonce,
    }
}

/// Reads the nonce for an open wire of TCP, where its address names a file of it.
fn read_nonce<D: Dialer>(
    alloc: Global,
    dialer: &mut D,
    wire: u32,
    passes: bool,
    file: Option<&str>,
) -> Result<Dialled, OutOfMemory>
    ensures told { DialTold wire (over_tcp (option_copied file.entry) passes) result ((D.outer dialer.old).events)
        ((D.outer dialer.new).events) }
    ensures counted { IfOk result (λ d. DialCounted wire d (D.outer dialer.old) (D.outer dialer.new)) }
    ensures poller { (D.outer dialer.new).poller_faults ≡ (D.outer dialer.old).poller_faults }
    ensures unread { (D.outer dialer.new).moment ≡ (D.outer dialer.old).moment }
    ensures keeps { Keeps (part.Visit wire) (D.outer dialer.old) (D.outer dialer.new) }
{
    let Some(file) = file else {
        return Ok(Dialled::Opened(over_tcp(passes, nothing(alloc))));
    };
    match dialer.read_nonce(alloc, wire, file) {
        Ok(nonce) => Ok(Dialled::Opened(over_tcp(passes, nonce))),
        Err(Fault::Failed) => Ok(Dialled::Failed(Ending::Io)),
        Err(Fault::OutOfMemory) => Err(OutOfMemory),
    }
}

/// Whether a peer is of the family that an address names, if it names one.
fn fits(family: Option<TcpTransportFamily>, peer: Peer) -> bool
    ensures value { result ≡ fits family peer }
{
    match (family, peer) {
        (None, _) => true,
        (Some(TcpTransportFamily::Ipv4), Peer::V4 { .. }) => true,
        (Some(TcpTransportFamily::Ipv6), Peer::V6 { .. }) => true,
        (Some(_), _) => false,
    }
}

/// Dials the peers of a host that are of the address's family, in order, until one opens.
fn dial_peers<D: Dialer>(
    alloc: Global,
    dialer: &mut D,
    wire: u32,
    peers: &[Peer],
    family: Option<TcpTransportFamily>,
    file: Option<&str>,
) -> Result<Dialled, OutOfMemory>
    ensures told { DialTold wire
        (to_peers (ending.Address reason.NoAddress) (option_copied file.entry) (filter (fits family) peers.now)) result
        ((D.outer dialer.old).events) ((D.outer dialer.new).events) }
    ensures counted { IfOk result (λ d. DialCounted wire d (D.outer dialer.old) (D.outer dialer.new)) }
    ensures poller { (D.outer dialer.new).poller_faults ≡ (D.outer dialer.old).poller_faults }
    ensures unread { (D.outer dialer.new).moment ≡ (D.outer dialer.old).moment }
    ensures keeps { Keeps (part.Visit wire) (D.outer dialer.old) (D.outer dialer.new) }
{
    let mut ending = Ending::Address(AddressReason::NoAddress);
    for peer in peers {
        if !fits(family, *peer) {
            continue;
        }
        match dialer.dial_tcp(wire, *peer) {
            Ok(opened) => return read_nonce(alloc, dialer, wire, opened.passes, file),
            Err(Fault::Failed) => ending = Ending::Connection,
            Err(Fault::OutOfMemory) => return Err(OutOfMemory),
        }
    }
    Ok(Dialled::Failed(ending))
}

/// Looks up a host, and dials its peers.
fn dial_host<D: Dialer>(
    alloc: Global,
    dialer: &mut D,
    wire: u32,
    host: &Tcp,
) -> Result<Dialled, OutOfMemory>
    ensures told { DialTold wire (to_host host.now) result ((D.outer dialer.old).events)
        ((D.outer dialer.new).events) }
    ensures counted { IfOk result (λ d. DialCounted wire d (D.outer dialer.old) (D.outer dialer.new)) }
    ensures poller { (D.outer dialer.new).poller_faults ≡ (D.outer dialer.old).poller_faults }
    ensures unread { (D.outer dialer.new).moment ≡ (D.outer dialer.old).moment }
    ensures keeps { Keeps (part.Visit wire) (D.outer dialer.old) (D.outer dialer.new) }
{
    let Some(file) = optional_text(host.nonce_file()) else {
        return Ok(Dialled::Failed(Ending::Unsupported));
    };
    match dialer.lookup(alloc, wire, host.host(), host.port()) {
        Ok(peers) => dial_peers(alloc, dialer, wire, peers.as_slice(), host.family(), file),
        Err(Fault::Failed) => Ok(Dialled::Failed(Ending::Connection)),
        Err(Fault::OutOfMemory) => Err(OutOfMemory),
    }
}

/// Dials at an address that ibus gave, which may not name ibus again.
fn dial_given<D: Dialer>(
    alloc: Global,
    dialer: &mut D,
    wire: u32,
    transport: &Transport,
) -> Result<Dialled, OutOfMemory>
    ensures told { DialTold wire (to_given transport.now) result ((D.outer dialer.old).events)
        ((D.outer dialer.new).events) }
    ensures counted { IfOk result (λ d. DialCounted wire d (D.outer dialer.old) (D.outer dialer.new)) }
    ensures poller { (D.outer dialer.new).poller_faults ≡ (D.outer dialer.old).poller_faults }
    ensures unread { (D.outer dialer.new).moment ≡ (D.outer dialer.old).moment }
    ensures keeps { Keeps (part.Visit wire) (D.outer dialer.old) (D.outer dialer.new) }
{
    match transport {
        Transport::Unix(unix) => dial_socket(alloc, dialer, wire, unix.path()),
        Transport::Tcp(host) => dial_host(alloc, dialer, wire, host),
        Transport::Unixexec(program) => dial_program(alloc, dialer, wire, program),
        Transport::Ibus(_) => Ok(Dialled::Failed(Ending::Unsupported)),
    }
}

/// Dials at the address that ibus printed, with white space around it.
fn dial_printed<D: Dialer>(
    alloc: Global,
    dialer: &mut D,
    wire: u32,
    output: &Output,
) -> Result<Dialled, OutOfMemory>
    ensures told { DialTold wire (printed output.now.success output.now.text) result ((D.outer dialer.old).events)
        ((D.outer dialer.new).events) }
    ensures counted { IfOk result (λ d. DialCounted wire d (D.outer dialer.old) (D.outer dialer.new)) }
    ensures poller { (D.outer dialer.new).poller_faults ≡ (D.outer dialer.old).poller_faults }
    ensures unread { (D.outer dialer.new).moment ≡ (D.outer dialer.old).moment }
    ensures keeps { Keeps (part.Visit wire) (D.outer dialer.old) (D.outer dialer.new) }
{
    const FAILED: Ending = Ending::Address(AddressReason::IbusFailed);
    if !output.success {
        return Ok(Dialled::Failed(FAILED));
    }
    let Some(text) = text_of(output.text.as_slice()) else {
        return Ok(Dialled::Failed(FAILED));
    };
    match Address::from_str(alloc, text.trim()) {
        Ok(address) => dial_given(alloc, dialer, wire, address.transport()),
        Err(AddressError::Kind(_)) => Ok(Dialled::Failed(FAILED)),
        Err(AddressError::OutOfMemory) => Err(OutOfMemory),
    }
}

/// Has ibus print its address, and dials there.
fn dial_ibus<D: Dialer>(alloc: Global, dialer: &mut D, wire: u32) -> Result<Dialled, OutOfMemory>
    ensures told { DialTold wire (asks question.Ibus the_address) result ((D.outer dialer.old).events)
        ((D.outer dialer.new).events) }
    ensures counted { IfOk result (λ d. DialCounted wire d (D.outer dialer.old) (D.outer dialer.new)) }
    ensures poller { (D.outer dialer.new).poller_faults ≡ (D.outer dialer.old).poller_faults }
    ensures unread { (D.outer dialer.new).moment ≡ (D.outer dialer.old).moment }
    ensures keeps { Keeps (part.Visit wire) (D.outer dialer.old) (D.outer dialer.new) }
{
    match dialer.run_ibus(alloc, wire) {
        Ok(output) => dial_printed(alloc, dialer, wire, &output),
        Err(Fault::Failed) => Ok(Dialled::Failed(Ending::Address(AddressReason::IbusFailed))),
        Err(Fault::OutOfMemory) => Err(OutOfMemory),
    }
}

/// Dials at an address; where it names ibus, ibus is asked for another.
fn dial_address<D: Dialer>(
    alloc: Global,
    dialer: &mut D,
    wire: u32,
    transport: &Transport,
) -> Result<Dialled, OutOfMemory>
    ensures told { DialTold wire (to_address transport.now) result ((D.outer dialer.old).events)
        ((D.outer dialer.new).events) }
    ensures counted { IfOk result (λ d. DialCounted wire d (D.outer dialer.old) (D.outer dialer.new)) }
    ensures poller { (D.outer dialer.new).poller_faults ≡ (D.outer dialer.old).poller_faults }
    ensures unread { (D.outer dialer.new).moment ≡ (D.outer dialer.old).moment }
    ensures keeps { Keeps (part.Visit wire) (D.outer dialer.old) (D.outer dialer.new) }
{
    match transport {
        Transport::Ibus(_) => dial_ibus(alloc, dialer, wire),
        _ => dial_given(alloc, dialer, wire, transport),
    }
}

/// Reads the address of a client, and dials there.
fn dial_text<D: Dialer>(
    alloc: Global,
    dialer: &mut D,
    wire: u32,
    text: &str,
) -> Result<Reached, OutOfMemory>
    ensures told { ReachTold wire (to_read (address text.now)) result ((D.outer dialer.old).events)
        ((D.outer dialer.new).events) }
    ensures expected { IfOk result (λ r. r.expected ≡ guid_in (address text.now)) }
    ensures counted { IfOk result (λ r. DialCounted wire r.dialled (D.outer dialer.old) (D.outer dialer.new)) }
    ensures poller { (D.outer dialer.new).poller_faults ≡ (D.outer dialer.old).poller_faults }
    ensures unread { (D.outer dialer.new).moment ≡ (D.outer dialer.old).moment }
    ensures keeps { Keeps (part.Visit wire) (D.outer dialer.old) (D.outer dialer.new) }
{
    match Address::from_str(alloc, text) {
        Ok(address) => Ok(Reached {
            dialled: dial_address(alloc, dialer, wire, address.transport())?,
            expected: address.guid(),
        }),
        Err(AddressError::Kind(kind)) => Ok(Reached {
            dialled: Dialled::Failed(Ending::Address(AddressReason::Text(kind))),
            expected: None,
        }),
        Err(AddressError::OutOfMemory) => Err(OutOfMemory),
    }
}

/// Dials for a session: a client at its address, a server for the connection that a peer opened.
pub fn dial<D: Dialer>(
    alloc: Global,
    dialer: &mut D,
    wire: u32,
    party: &Party,
) -> Result<Reached, OutOfMemory>
    ensures told { ReachTold wire (begins party.now) result ((D.outer dialer.old).events)
        ((D.outer dialer.new).events) }
    ensures expected { IfOk result (λ r. r.expected ≡ expects party.now) }
    ensures counted { IfOk result (λ r. DialCounted wire r.dialled (D.outer dialer.old) (D.outer dialer.new)) }
    ensures poller { (D.outer dialer.new).poller_faults ≡ (D.outer dialer.old).poller_faults }
    ensures unread { (D.outer dialer.new).moment ≡ (D.outer dialer.old).moment }
    ensures keeps { Keeps (part.Visit wire) (D.outer dialer.old) (D.outer dialer.new) }
{
    match party {
        Party::Client { address, .. } => dial_text(alloc, dialer, wire, address.as_str()),
        Party::Server(_) => Ok(Reached {
            dialled: plain_wire(alloc, dialer.accept(wire))?,
            expected: None,
        }),
    }
}

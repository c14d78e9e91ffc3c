//! How far a dialling has come, and where it begins (D-Bus specification, Server Addresses).

ghost use Rattle.std.specs.Prelude.{◌≡◌, Ok, Err, map, IfOk};
ghost use Rattle.std.specs.List.{list_all};
ghost use Rattle.std.specs.Option.{option_copied};
ghost use Rattle.std.specs.Str.{is_utf8};
ghost use Rattle.bus_address.specs.Reading.{address};
ghost use Rattle.bus_session.specs.Dialling.{is_text, asks_if, to_socket, to_host, to_program, to_address};
ghost use Rattle.bus_session.specs.Dialling.{to_read, begins, guid_in};
ghost use Rattle.bus_reference.specs.Diallings.{as_purpose, as_dialling};

use bus_address::{
    Address, AddressError, AddressKind, Guid, Tcp, TcpTransportFamily, Transport, UnixSocket,
    Unixexec,
};
use bus_session::{AddressReason, Ending, Party};
use react_core::outside::{Args, Bytes, Peers, Question};
use std::alloc::{AllocError, Global};
use std::str;

/// An open wire.
#[derive(Debug, Drop)]
pub struct Opened {
    /// Whether descriptors could be passed over it.
    pub passes: bool,
    /// Whether it is one of TCP.
    pub tcp: bool,
    /// The nonce that was read for it; empty where none was.
    pub nonce: Bytes,
}

/// What a question is asked for.
#[derive(Drop)]
pub(crate) enum Purpose {
    /// The wire itself, which is not one of TCP.
    TheWire,
    /// The peers of a host that are of this family; the nonce is in this file.
    ThePeers(Option<TcpTransportFamily>, Option<Bytes>),
    /// The wire to a peer, where these are left to be asked; the nonce is in this file.
    APeer(Peers, Option<Bytes>),
    /// The nonce for a wire that passes descriptors or not.
    TheNonce(bool),
    /// The address that ibus prints.
    TheAddress,
}

/// How far a dialling has come.
#[derive(Drop)]
pub(crate) enum Dialling {
    /// This is asked next.
    Asks(Question, Purpose),
    /// It failed, and the session ends so.
    Fails(Ending),
    /// This wire stands.
    Opens(Opened),
}

/// A copy of bytes.
pub(crate) fn copied(alloc: Global, bytes: &[u8]) -> Result<Bytes, AllocError>
    ensures value { IfOk result (λ b. b ≡ bytes.now) }
{
    Ok(Bytes::from_vec(Vec::from_slice(alloc, bytes)?))
}

// A copy of what may be there.
fn copied_option(alloc: Global, bytes: Option<&[u8]>) -> Result<Option<Bytes>, AllocError>
    ensures value { IfOk result (λ b. b ≡ option_copied bytes.entry) }
{
    match bytes {
        Some(bytes) => Ok(Some(copied(alloc, bytes)?)),
        None => Ok(None),
    }
}

// A copy of arguments.
fn copied_args(alloc: Global, args: &[Vec<u8>]) -> Result<Args, AllocError>
    ensures value { IfOk result (λ a. a ≡ map (λ v. v.items) args.now) }
{
    let mut all = Vec::new(alloc);
    for arg in args {
        let copy = copied(alloc, arg.as_slice())?;
        all.push(copy)?;
    }
    Ok(Args::from_vec(all))
}

// Whether bytes are UTF-8.
fn is_utf8(bytes: &[u8]) -> bool
    ensures value { result ≡ is_utf8 bytes.now }
{
    match str::from_utf8(bytes) {
        Ok(_) => true,
        Err(_) => false,
    }
}

// Whether what may be there is UTF-8 where it is.
fn is_text(bytes: Option<&[u8]>) -> bool
    ensures value { result ≡ is_text (option_copied bytes.entry) }
{
    match bytes {
        Some(bytes) => is_utf8(bytes),
        None => true,
    }
}

// Whether all arguments are UTF-8.
fn are_text(args: &[Vec<u8>]) -> bool
    ensures value { result ≡ list_all is_utf8 (map (λ v. v.items) args.now) }
{
    let Some((arg, others)) = args.split_first() else {
        return true;
    };
    is_utf8(arg.as_slice()) && are_text(others)
}

// This is asked, where all names in it are UTF-8.
fn asks_if(named: bool, question: Question, purpose: Purpose) -> Dialling
    ensures value { as_dialling result ≡ asks_if named question (as_purpose purpose) }
{
    if named {
        Dialling::Asks(question, purpose)
    } else {
        Dialling::Fails(Ending::Unsupported)
    }
}

/// A Unix socket: the folders are for listeners.
pub(crate) fn to_socket(alloc: Global, socket: &UnixSocket) -> Result<Dialling, AllocError>
    ensures value { IfOk result (λ d. as_dialling d ≡ to_socket socket.now) }
{
    match socket {
        UnixSocket::File(path) => {
            let question = Question::Unix(copied(alloc, path.as_slice())?);
            Ok(asks_if(is_utf8(path.as_slice()), question, Purpose::TheWire))
        }
        UnixSocket::Abstract(name) => {
            let question = Question::Abstract(copied(alloc, name.as_slice())?);
            Ok(Dialling::Asks(question, Purpose::TheWire))
        }
        UnixSocket::Dir(_) | UnixSocket::TmpDir(_) => Ok(Dialling::Fails(Ending::Unsupported)),
    }
}

/// A host over TCP: its peers are looked up first.
pub(crate) fn to_host(alloc: Global, tcp: &Tcp) -> Result<Dialling, AllocError>
    ensures value { IfOk result (λ d. as_dialling d ≡ to_host tcp.now) }
{
    let question = Question::Lookup {
        host: copied(alloc, tcp.host().as_bytes())?,
        port: tcp.port(),
    };
    let file = copied_option(alloc, tcp.nonce_file())?;
    let purpose = Purpose::ThePeers(tcp.family(), file);
    Ok(asks_if(is_text(tcp.nonce_file()), question, purpose))
}

/// A program whose standard streams are the wire.
pub(crate) fn to_program(alloc: Global, program: &Unixexec) -> Result<Dialling, AllocError>
    ensures value { IfOk result (λ d. as_dialling d ≡ to_program program.now) }
{
    let named = is_utf8(program.path()) && is_text(program.arg0()) && are_text(program.args());
    let question = Question::Start {
        program: copied(alloc, program.path())?,
        arg0: copied_option(alloc, program.arg0())?,
        args: copied_args(alloc, program.args())?,
    };
    Ok(asks_if(named, question, Purpose::TheWire))
}

// An address: where it names ibus, ibus is asked for another.
fn to_address(alloc: Global, transport: &Transport) -> Result<Dialling, AllocError>
    ensures value { IfOk result (λ d. as_dialling d ≡ to_address transport.now) }
{
    match transport {
        Transport::Unix(unix) => to_socket(alloc, unix.path()),
        Transport::Tcp(tcp) => to_host(alloc, tcp),
        Transport::Unixexec(program) => to_program(alloc, program),
        Transport::Ibus(_) => Ok(Dialling::Asks(Question::Ibus, Purpose::TheAddress)),
    }
}

/// The address that a text says, or why it is refused.
pub(crate) fn address(alloc: Global, text: &str) -> Result<Result<Address, AddressKind>, AllocError>
    ensures value { IfOk result (λ read. read ≡ address text.now) }
{
    match Address::from_str(alloc, text) {
        Ok(read) => Ok(Ok(read)),
        Err(AddressError::Kind(kind)) => Ok(Err(kind)),
        Err(AddressError::OutOfMemory) => Err(AllocError),
    }
}

// A text that was read as an address.
fn to_read(alloc: Global, read: &Result<Address, AddressKind>) -> Result<Dialling, AllocError>
    ensures value { IfOk result (λ d. as_dialling d ≡ to_read read.now) }
{
    match read {
        Ok(read) => to_address(alloc, read.transport()),
        Err(kind) => Ok(Dialling::Fails(Ending::Address(AddressReason::Text(*kind)))),
    }
}

/// Where a party begins: a client at its address, a server with a connection that a peer opens.
pub(crate) fn begins(alloc: Global, party: &Party) -> Result<Dialling, AllocError>
    ensures value { IfOk result (λ d. as_dialling d ≡ begins party.now) }
{
    match party {
        Party::Client { address: text, .. } => {
            let read = address(alloc, text.as_str())?;
            to_read(alloc, &read)
        }
        Party::Server(_) => Ok(Dialling::Asks(Question::Accept, Purpose::TheWire)),
    }
}

/// The GUID that an address names.
pub(crate) fn guid_in(read: &Result<Address, AddressKind>) -> Option<Guid>
    ensures value { result ≡ guid_in read.now }
{
    match read {
        Ok(read) => read.guid(),
        Err(_) => None,
    }
}

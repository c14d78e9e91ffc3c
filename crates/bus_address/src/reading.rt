//! Reading the transport of an address from its keys and values.

ghost use Rattle.std.specs.Prelude.{◌≡◌, ◌<◌, ◌^◌, ℕ, List, Some, None, Ok, Err, IfOk, map, codes, string_bytes};
ghost use Rattle.std.specs.Option.{option_copied, option_map};
ghost use Rattle.bus_address.specs.Entries.{argument_key};
ghost use Rattle.bus_address.specs.Values.{decoded, host_text, port, family, guid_value, optional};
ghost use Rattle.bus_address.specs.Errors.{Gives, GivesBy};
ghost use Rattle.bus_address.specs.Reading.{socket, unix, host, port_value, nonce_file, tcp};
ghost use Rattle.bus_address.specs.Reading.{program_path, arguments, program, transport};
ghost use Rattle.bus_address.specs.Lookups.{found};

use crate::error::{AddressError, AddressKind};
use crate::escapes::decode_percents;
use crate::guid::Guid;
use crate::ibus::Ibus;
use crate::octets::Octets;
use crate::options::Options;
use crate::tcp::{Tcp, TcpTransportFamily};
use crate::text::Text;
use crate::transport::Transport;
use crate::unix::{Unix, UnixSocket};
use crate::unixexec::Unixexec;
use std::alloc::{AllocError, Global};

fn octets(alloc: Global, value: &str) -> Result<Octets, AddressError>
    ensures { Gives result (decoded value.now) }
{
    Ok(Octets::from_vec(decode_percents(alloc, value)?))
}

fn optional_octets(alloc: Global, value: Option<&str>) -> Result<Option<Octets>, AddressError>
    ensures { Gives result (optional decoded (option_copied value.entry)) }
{
    match value {
        Some(value) => Ok(Some(octets(alloc, value)?)),
        None => Ok(None),
    }
}

/// The GUID of the server, where the key is there.
pub(crate) fn guid(options: &Options<'_>) -> Result<Option<Guid>, AddressError>
    ensures { Gives result (optional guid_value (found options.now.values (codes "guid"))) }
{
    match options.get("guid") {
        Some(value) => match Guid::from_str(value) {
            Ok(guid) => Ok(Some(guid)),
            Err(_) => Err(AddressError::Kind(AddressKind::BadGuid)),
        },
        None => Ok(None),
    }
}

/// The transport of that name. `len` is the length of the address's text.
pub(crate) fn transport(
    alloc: Global,
    name: &str,
    len: usize,
    options: &Options<'_>,
) -> Result<Transport, AddressError>
    ensures { Gives result (transport name.now len (found options.now.values)) }
{
    match name {
        "unix" => Ok(Transport::Unix(unix(alloc, options)?)),
        "tcp" => Ok(Transport::Tcp(tcp(alloc, false, options)?)),
        "nonce-tcp" => Ok(Transport::Tcp(tcp(alloc, true, options)?)),
        "unixexec" => Ok(Transport::Unixexec(unixexec(alloc, len, options)?)),
        "ibus" => Ok(Transport::Ibus(Ibus::new())),
        _ => Err(AddressError::Kind(AddressKind::UnknownTransport)),
    }
}

fn unix(alloc: Global, options: &Options<'_>) -> Result<Unix, AddressError>
    ensures { Gives result (unix (found options.now.values)) }
{
    let path = options.get("path");
    let name = options.get("abstract");
    let dir = options.get("dir");
    let tmpdir = options.get("tmpdir");
    Ok(Unix::new(socket(alloc, path, name, dir, tmpdir)?))
}

fn socket(
    alloc: Global,
    path: Option<&str>,
    name: Option<&str>,
    dir: Option<&str>,
    tmpdir: Option<&str>,
) -> Result<UnixSocket, AddressError>
    ensures { Gives result
        (socket (option_copied path.entry) (option_copied name.entry) (option_copied dir.entry)
        (option_copied tmpdir.entry)) }
{
    match (path, name, dir, tmpdir) {
        (Some(path), None, None, None) => Ok(UnixSocket::File(octets(alloc, path)?)),
        (None, Some(name), None, None) => Ok(UnixSocket::Abstract(octets(alloc, name)?)),
        (None, None, Some(dir), None) => Ok(UnixSocket::Dir(octets(alloc, dir)?)),
        (None, None, None, Some(dir)) => Ok(UnixSocket::TmpDir(octets(alloc, dir)?)),
        _ => Err(AddressError::Kind(AddressKind::Keys)),
    }
}

/// A TCP address, which `needs` a nonce file or not.
fn tcp(alloc: Global, needs: bool, options: &Options<'_>) -> Result<Tcp, AddressError>
    ensures { Gives result (tcp needs (found options.now.values)) }
{
    if options.get("bind").is_some() {
        return Err(AddressError::Kind(AddressKind::Bind));
    }
    let host = host(alloc, options)?;
    let port = port(options)?;
    let family = family(options)?;
    let nonce_file = nonce_file(alloc, needs, options)?;
    Ok(Tcp::from_parts(host, port, family, nonce_file))
}

fn host(alloc: Global, options: &Options<'_>) -> Result<Text, AddressError>
    ensures { Gives result (host (found options.now.values)) }
{
    match options.get("host") {
        Some(value) => host_text(decode_percents(alloc, value)?),
        None => Err(AddressError::Kind(AddressKind::MissingHost)),
    }
}

fn host_text(bytes: Vec<u8>) -> Result<Text, AddressError>
    ensures { Gives result (host_text bytes.items) }
{
    match String::from_utf8(bytes) {
        Ok(text) => Ok(Text::from_string(text)),
        Err(_) => Err(AddressError::Kind(AddressKind::HostText)),
    }
}

fn port(options: &Options<'_>) -> Result<u16, AddressError>
    ensures { Gives result (port_value (found options.now.values)) }
{
    match options.get("port") {
        Some(value) => port_number(value),
        None => Err(AddressError::Kind(AddressKind::MissingPort)),
    }
}

fn port_number(text: &str) -> Result<u16, AddressError>
    ensures { Gives result (port text.now) }
{
    match text.parse::<u16>() {
        Ok(port) => Ok(port),
        Err(_) => Err(AddressError::Kind(AddressKind::BadPort)),
    }
}

fn family(options: &Options<'_>) -> Result<Option<TcpTransportFamily>, AddressError>
    ensures { Gives result (optional family (found options.now.values (codes "family"))) }
{
    match options.get("family") {
        Some(value) => match TcpTransportFamily::from_str(value) {
            Ok(family) => Ok(Some(family)),
            Err(kind) => Err(AddressError::Kind(kind)),
        },
        None => Ok(None),
    }
}

fn nonce_file(
    alloc: Global,
    needs: bool,
    options: &Options<'_>,
) -> Result<Option<Octets>, AddressError>
    ensures { Gives result (nonce_file needs (found options.now.values)) }
{
    let file = optional_octets(alloc, options.get("noncefile"))?;
    if needs && file.is_none() {
        return Err(AddressError::Kind(AddressKind::MissingNonceFile));
    }
    Ok(file)
}

/// A program. `len` is the length of the address's text.
fn unixexec(alloc: Global, len: usize, options: &Options<'_>) -> Result<Unixexec, AddressError>
    ensures { Gives result (program len (found options.now.values)) }
{
    let path = program_path(alloc, options)?;
    let arg0 = optional_octets(alloc, options.get("argv0"))?;
    let args = arguments(alloc, len, options)?;
    Ok(Unixexec::from_parts(path, arg0, args))
}

fn program_path(alloc: Global, options: &Options<'_>) -> Result<Octets, AddressError>
    ensures { Gives result (program_path (found options.now.values)) }
{
    match options.get("path") {
        Some(value) => octets(alloc, value),
        None => Err(AddressError::Kind(AddressKind::MissingPath)),
    }
}

/// The arguments from argv1 on up to the first that is missing. An address of `len` bytes has
/// fewer than `len` of them.
fn arguments(alloc: Global, len: usize, options: &Options<'_>) -> Result<Vec<Vec<u8>>, AddressError>
    ensures { GivesBy (λ v. map (λ x. x.items) v.items) result (arguments len (found options.now.values)) }
{
    let mut arguments = Vec::new(alloc);
    for index in 0..len {
        match argument(alloc, index + 1, options) {
            Ok(Some(bytes)) => arguments.push(bytes)?,
            Ok(None) => return Ok(arguments),
            Err(error) => return Err(error),
        }
    }
    Ok(arguments)
}

/// The argument of that number, where the key is there.
fn argument(
    alloc: Global,
    number: usize,
    options: &Options<'_>,
) -> Result<Option<Vec<u8>>, AddressError>
    ensures { GivesBy (λ o. option_map (λ v. v.items) o) result
        (optional decoded (found options.now.values (argument_key number))) }
{
    let key = argument_key(alloc, number)?;
    match options.get(key.as_str()) {
        Some(value) => Ok(Some(decode_percents(alloc, value)?)),
        None => Ok(None),
    }
}

fn argument_key(alloc: Global, number: usize) -> Result<String, AllocError>
    ensures { IfOk result (λ key. string_bytes key ≡ argument_key number) }
{
    format!(in alloc; "argv{number}")
}

//! A bus address.

ghost use Rattle.std.specs.Prelude.{◌≡◌, Ok, Some, None, IfOk, IsTrue};
ghost use Rattle.std.specs.Option.{option_copied};
ghost use Rattle.bus_address.specs.Address.{guid_front};
ghost use Rattle.bus_address.specs.Defaults.{file_address, session_socket};

use crate::error::{AddressError, AddressKind};
use crate::guid::Guid;
use crate::octets::Octets;
use crate::options::{self, Options};
use crate::reading;
use crate::transport::Transport;
use crate::unix::{Unix, UnixSocket};
use std::alloc::{AllocError, Global};
use std::fmt;
use std::marker::Model;

/// The address of a bus: how it is reached, and the GUID of the server where it is known
/// (D-Bus specification, Server Addresses).
#[derive(Debug, Drop, PartialEq, Eq)]
pub struct Address {
    transport: Transport,
    guid: Option<Guid>,
}

impl Model for Address {
    ghost use Rattle.bus_address.specs.Address.{AddressParts};

    ghost Value = { AddressParts };

    ghost view = { λ a. record { transport = a.transport; guid = a.guid } };

    ghost inverse = { λ a. record { transport = a.transport; guid = a.guid } };
}

impl Address {
    ghost use Rattle.bus_address.specs.Address.{AddressParts, says};
    ghost use Rattle.bus_address.specs.ReadBack.{is_readable, IsReadable};
    ghost use Rattle.bus_address.specs.Errors.{Gives};
    ghost use Rattle.bus_address.specs.Reading.{address, address_with};
    ghost use Rattle.bus_address.specs.Lookups.{found};
    ghost use Rattle.bus_address.specs.Defaults.{session_address, system_address};

    /// The address of a transport, without a GUID.
    pub fn new(transport: Transport) -> Address
        ensures { result ≡ record { transport = transport; guid = None } }
    {
        Address {
            transport,
            guid: None,
        }
    }

    /// The same address with a GUID.
    pub fn set_guid(mut self, guid: Guid) -> Address
        ensures { result ≡ record self { guid = Some guid } }
    {
        self.guid = Some(guid);
        self
    }

    /// Reads the text of an address.
    ///
    /// The first of these that applies refuses it: `Form`, `BadGuid`, `UnknownTransport`, and then
    /// for each transport, in this order: `Keys` and `BadEscape` for a Unix socket; `Bind`,
    /// `MissingHost`, `BadEscape` and `HostText` of the host, `MissingPort`, `BadPort`,
    /// `BadFamily`, `BadEscape` of the nonce file and `MissingNonceFile` for TCP; `MissingPath` and
    /// `BadEscape` for a program. Of equal keys the last counts, and unknown keys are ignored.
    ///
    /// The printed text of an address without `bind` and without an empty value is read back as
    /// that address.
    pub fn from_str(alloc: Global, text: &str) -> Result<Address, AddressError>
        ensures value { Gives result (address text.now) }
        ensures read_back { (a : AddressParts) → IsReadable a → says a ≡ text.now → Gives result (Ok a) }
    {
        Address::from_text(alloc, text)
    }

    /// Reads the text of an address, as `from_str` does.
    pub fn try_from_text(alloc: Global, text: &str) -> Result<Address, AddressError>
        ensures value { Gives result (address text.now) }
        ensures read_back { (a : AddressParts) → IsReadable a → says a ≡ text.now → Gives result (Ok a) }
    {
        Address::from_str(alloc, text)
    }

    fn from_text(alloc: Global, text: &str) -> Result<Address, AddressError>
        ensures { Gives result (address text.now) }
    {
        match options::transport_and_rest(text) {
            Some((name, rest)) => {
                let options = Options::read(alloc, rest)?;
                Address::from_options(alloc, name, text.len(), &options)
            }
            None => Err(AddressError::Kind(AddressKind::Form)),
        }
    }

    /// The address of a transport's name and options, in a text of `len` bytes.
    fn from_options(
        alloc: Global,
        name: &str,
        len: usize,
        options: &Options<'_>,
    ) -> Result<Address, AddressError>
        ensures { Gives result (address_with name.now len (found options.now.values)) }
    {
        let guid = reading::guid(options)?;
        let transport = reading::transport(alloc, name, len, options)?;
        Ok(Address { transport, guid })
    }

    /// The address of the session bus: the one that the environment's variable
    /// `DBUS_SESSION_BUS_ADDRESS` says, or the socket `bus` in the user's folder for such files,
    /// which is `/run/user/` and the user's number where none is known.
    pub fn session(
        alloc: Global,
        env: Option<&str>,
        runtime_dir: Option<&[u8]>,
        user: u32,
    ) -> Result<Address, AddressError>
        ensures { Gives result (session_address (option_copied env.entry) (option_copied runtime_dir.entry) user) }
    {
        match env {
            Some(text) => Address::from_str(alloc, text),
            None => Ok(file(session_socket(alloc, runtime_dir, user)?)),
        }
    }

    /// The address of the system bus: the one that the environment's variable
    /// `DBUS_SYSTEM_BUS_ADDRESS` says, or the socket `/var/run/dbus/system_bus_socket`.
    pub fn system(alloc: Global, env: Option<&str>) -> Result<Address, AddressError>
        ensures { Gives result (system_address (option_copied env.entry)) }
    {
        match env {
            Some(text) => Address::from_str(alloc, text),
            None => Ok(file(Vec::from_slice(alloc, b"/var/run/dbus/system_bus_socket")?)),
        }
    }

    /// Whether the printed text is read back as the address: there is no `bind`, and no value is empty.
    pub fn is_readable(&self) -> bool
        ensures value { result ≡ is_readable self.now }
        ensures readable { IsTrue result → IsReadable self.now }
    {
        if let Some(guid) = &self.guid {
            guid.holds_digits();
        }
        self.transport.is_readable()
    }

    /// How the bus is reached.
    pub fn transport(&self) -> &Transport
        ensures { result.now ≡ self.now.transport }
    {
        &self.transport
    }

    /// The GUID of the server, where it is known.
    pub fn guid(&self) -> Option<Guid>
        ensures { result ≡ self.now.guid }
    {
        self.guid
    }
}

/// The address of a socket file.
fn file(path: Vec<u8>) -> Address
    ensures { result ≡ file_address path.items }
{
    Address::new(Transport::Unix(Unix::new(UnixSocket::File(Octets::from_vec(path)))))
}

/// The socket of the session bus where no variable says another.
fn session_socket(
    alloc: Global,
    runtime_dir: Option<&[u8]>,
    user: u32,
) -> Result<Vec<u8>, AllocError>
    ensures { IfOk result (λ path. path.items ≡ session_socket (option_copied runtime_dir.entry) user) }
{
    let mut path = match runtime_dir {
        Some(dir) => Vec::from_slice(alloc, dir)?,
        None => format!(in alloc; "/run/user/{user}")?.into_bytes(),
    };
    path.extend_from_slice(b"/bus")?;
    Ok(path)
}

/// What stands before the GUID of an address.
fn guid_front(transport: &Transport) -> &'static str
    ensures { result.now ≡ guid_front transport.now }
{
    match transport {
        Transport::Ibus(_) => "guid=",
        _ => ",guid=",
    }
}

impl fmt::Display for Address {
    ghost use Rattle.std.specs.Prelude.{Some};
    ghost use Rattle.bus_address.specs.Address.{says};

    ghost output = { λ address. Some (says address) };

    fn fmt<W: fmt::Write>(&self, f: &mut fmt::Formatter<W>) -> fmt::Result {
        let transport = &self.transport;
        match self.guid {
            Some(guid) => write!(f, "{transport}{}{guid}", guid_front(transport)),
            None => write!(f, "{transport}"),
        }
    }
}

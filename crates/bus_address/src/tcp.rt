//! TCP addresses, with a nonce or without (D-Bus specification, TCP Sockets and
//! Nonce-authenticated TCP Sockets).

ghost use Rattle.std.specs.Prelude.{◌≡◌, Some, None, Ok, Err, IfOk, IsTrue, MatchResult, string_bytes};
ghost use Rattle.std.specs.Option.{option_copied, option_map};

use crate::error::{AddressKind, OutOfMemory};
use crate::escapes::Escaped;
use crate::octets::{Octets, has_bytes, has_bytes_if_some};
use crate::printing::Behind;
use crate::text::Text;
use std::alloc::Global;
use std::fmt;
use std::marker::Model;
use std::str::FromStr;

/// The kind of IP address that a host's name is looked up as.
#[derive(Clone, Copy, Debug, PartialEq, Eq)]
pub enum TcpTransportFamily {
    /// IP version 4.
    Ipv4,
    /// IP version 6.
    Ipv6,
}

impl TcpTransportFamily {
    ghost use Rattle.bus_address.specs.Printed.{family_name};
    ghost use Rattle.bus_address.specs.Values.{family};

    /// Reads `ipv4` or `ipv6`; any other text is `BadFamily`.
    pub fn from_str(text: &str) -> Result<TcpTransportFamily, AddressKind>
        ensures { result ≡ family text.now }
    {
        match text {
            "ipv4" => Ok(TcpTransportFamily::Ipv4),
            "ipv6" => Ok(TcpTransportFamily::Ipv6),
            _ => Err(AddressKind::BadFamily),
        }
    }

    fn as_str(&self) -> &'static str
        ensures { result.now ≡ family_name self.now }
    {
        match self {
            TcpTransportFamily::Ipv4 => "ipv4",
            TcpTransportFamily::Ipv6 => "ipv6",
        }
    }
}

impl FromStr for TcpTransportFamily {
    ghost use Rattle.bus_address.specs.Values.{family};

    type Err = AddressKind;

    ghost from_str_gives = { λ text result. result ≡ family text };

    fn from_str(text: &str) -> Result<TcpTransportFamily, AddressKind> {
        TcpTransportFamily::from_str(text)
    }
}

impl fmt::Display for TcpTransportFamily {
    ghost use Rattle.std.specs.Prelude.{Some};
    ghost use Rattle.bus_address.specs.Printed.{family_name};

    ghost output = { λ family. Some (family_name family) };

    fn fmt<W: fmt::Write>(&self, f: &mut fmt::Formatter<W>) -> fmt::Result {
        f.write_str(self.as_str())
    }
}

/// The address of a TCP server: the host's name or number and the port.
#[derive(Debug, Drop, PartialEq, Eq)]
pub struct Tcp {
    host: Text,
    bind: Option<Text>,
    port: u16,
    family: Option<TcpTransportFamily>,
    nonce_file: Option<Octets>,
}

impl Model for Tcp {
    ghost use Rattle.bus_address.specs.Parts.{TcpParts};

    ghost Value = { TcpParts };

    ghost view = { λ t.
        record { host = t.host; bind = t.bind; port = t.port; family = t.family; nonce_file = t.nonce_file } };

    ghost inverse = { λ t.
        record { host = t.host; bind = t.bind; port = t.port; family = t.family; nonce_file = t.nonce_file } };
}

impl Tcp {
    ghost use Rattle.bus_address.specs.Parts.{TcpParts};
    ghost use Rattle.bus_address.specs.ReadBack.{is_readable_tcp, IsReadableTcp};

    /// A host and a port alone.
    pub fn new(alloc: Global, host: &str, port: u16) -> Result<Tcp, OutOfMemory>
        ensures { IfOk result
            (λ tcp. tcp ≡ record { host = host.now; bind = None; port = port; family = None; nonce_file = None }) }
    {
        let host = Text::from_string(String::from_str(alloc, host)?);
        Ok(Tcp {
            host,
            bind: None,
            port,
            family: None,
            nonce_file: None,
        })
    }

    pub(crate) fn from_parts(
        host: Text,
        port: u16,
        family: Option<TcpTransportFamily>,
        nonce_file: Option<Octets>,
    ) -> Tcp
        ensures { result ≡ record { host = host; bind = None; port = port; family = family; nonce_file = nonce_file } }
    {
        Tcp {
            host,
            bind: None,
            port,
            family,
            nonce_file,
        }
    }

    /// The same address with another address to listen at.
    pub fn set_bind(mut self, bind: Option<String>) -> Tcp
        ensures { result ≡ record self { bind = option_map string_bytes bind } }
    {
        self.bind = bind.map(|text| Text::from_string(text));
        self
    }

    /// The same address with another family.
    pub fn set_family(mut self, family: Option<TcpTransportFamily>) -> Tcp
        ensures { result ≡ record self { family = family } }
    {
        self.family = family;
        self
    }

    /// The same address with another file for the nonce.
    pub fn set_nonce_file(mut self, file: Option<Vec<u8>>) -> Tcp
        ensures { result ≡ record self { nonce_file = option_map (λ v. v.items) file } }
    {
        self.nonce_file = file.map(|bytes| Octets::from_vec(bytes));
        self
    }

    /// The name or number of the host.
    pub fn host(&self) -> &str
        ensures { result.now ≡ self.now.host }
    {
        self.host.as_str()
    }

    /// The address to listen at.
    pub fn bind(&self) -> Option<&str>
        ensures { option_copied result ≡ self.now.bind }
    {
        match &self.bind {
            Some(text) => Some(text.as_str()),
            None => None,
        }
    }

    /// The port.
    pub fn port(&self) -> u16
        ensures { result ≡ self.now.port }
    {
        self.port
    }

    /// The family that the host's name is looked up in.
    pub fn family(&self) -> Option<TcpTransportFamily>
        ensures { result ≡ self.now.family }
    {
        self.family
    }

    /// The file whose bytes are sent first.
    pub fn nonce_file(&self) -> Option<&[u8]>
        ensures { option_copied result ≡ self.now.nonce_file }
    {
        match &self.nonce_file {
            Some(file) => Some(file.as_slice()),
            None => None,
        }
    }

    pub(crate) fn is_readable(&self) -> bool
        ensures value { result ≡ is_readable_tcp self.now }
        ensures readable { IsTrue result → IsReadableTcp self.now }
    {
        if !has_bytes(self.host().as_bytes()) {
            return false;
        }
        if self.bind().is_some() {
            return false;
        }
        // The proof takes from this that a port has 16 bits.
        let _port = self.port();
        has_bytes_if_some(self.nonce_file())
    }

    /// Takes the file for the nonce out.
    pub fn take_nonce_file(&mut self) -> Option<Vec<u8>>
        ensures file { option_map (λ v. v.items) result ≡ self.old.nonce_file }
        ensures rest { self.new ≡ record self.old { nonce_file = None } }
    {
        let file = self.nonce_file.take();
        file.map(|bytes| bytes.into_vec())
    }
}

/// The text of a TCP address up to its host.
#[derive(Clone, Copy)]
struct Front<'a>(Option<&'a [u8]>);

impl fmt::Display for Front<'_> {
    ghost use Rattle.std.specs.Prelude.{Some};
    ghost use Rattle.std.specs.Option.{option_copied};
    ghost use Rattle.bus_address.specs.Printed.{tcp_front};

    ghost output = { λ front. Some (tcp_front (option_copied front.0)) };

    fn fmt<W: fmt::Write>(&self, f: &mut fmt::Formatter<W>) -> fmt::Result {
        match self.0 {
            Some(file) => write!(f, "nonce-tcp:noncefile={},", Escaped(file)),
            None => f.write_str("tcp:"),
        }
    }
}

impl fmt::Display for Tcp {
    ghost use Rattle.std.specs.Prelude.{Some};
    ghost use Rattle.bus_address.specs.Printed.{tcp_text};

    ghost output = { λ tcp. Some (tcp_text tcp) };

    fn fmt<W: fmt::Write>(&self, f: &mut fmt::Formatter<W>) -> fmt::Result {
        let front = Front(self.nonce_file());
        let host = Escaped(self.host().as_bytes());
        let port = self.port();
        let bind = Behind {
            key: "bind",
            value: self.bind().map(|text| text.as_bytes()),
        };
        let family = Behind {
            key: "family",
            value: self.family().map(|family| family.as_str().as_bytes()),
        };
        write!(f, "{front}host={host},port={port}{bind}{family}")
    }
}

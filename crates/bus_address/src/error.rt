//! Why an address is refused.

ghost use Rattle.std.specs.Prelude.{◌≡◌, Some};
ghost use Rattle.bus_address.specs.declared.error.AddressError.TheVariants.{Kind as refused};
ghost use Rattle.bus_address.specs.declared.error.AddressError.TheVariants.{OutOfMemory as out_of_memory};

use std::alloc::{AllocError, AllocFailed};
use std::error::Error;
use std::fmt;

/// There was no memory for the answer.
#[derive(Clone, Copy, Debug, PartialEq, Eq, thiserror::Error)]
#[error("out of memory")]
pub struct OutOfMemory;

/// What is wrong with the text of an address. Where several are, the first of this list that
/// applies is told, with the exceptions that `Address::from_str` names.
#[derive(Clone, Copy, Debug, PartialEq, Eq)]
pub enum AddressKind {
    /// The text is not a transport, a colon and keys with values.
    Form = 1,
    /// The GUID is not 32 hexadecimal digits.
    BadGuid,
    /// The transport is none that this crate knows.
    UnknownTransport,
    /// A Unix socket has not exactly one of path, abstract, dir and tmpdir.
    Keys,
    /// A program has no path.
    MissingPath,
    /// A TCP address has the key bind, which is not supported.
    Bind,
    /// A TCP address has no host.
    MissingHost,
    /// A TCP address has no port.
    MissingPort,
    /// The port is not a number up to 65535.
    BadPort,
    /// The family is neither ipv4 nor ipv6.
    BadFamily,
    /// A TCP address with a nonce has no file for it.
    MissingNonceFile,
    /// A value is not escaped as it must be.
    BadEscape,
    /// The host is not UTF-8.
    HostText,
}

impl AddressKind {
    ghost use Rattle.bus_address.specs.Errors.{kind_number};

    /// The number of the kind, from 1 for `Form` to 13 for `HostText`.
    pub fn number(&self) -> u8
        ensures { result ≡ kind_number self.now }
    {
        *self as u8
    }
}

impl Error for AddressKind {}

impl fmt::Display for AddressKind {
    ghost use Rattle.std.specs.Prelude.{Some};
    ghost use Rattle.bus_address.specs.Errors.{kind_name};

    ghost output = { λ kind. Some (kind_name kind) };

    fn fmt<W: fmt::Write>(&self, f: &mut fmt::Formatter<W>) -> fmt::Result {
        let name = match self {
            AddressKind::Form => "Form",
            AddressKind::BadGuid => "BadGuid",
            AddressKind::UnknownTransport => "UnknownTransport",
            AddressKind::Keys => "Keys",
            AddressKind::MissingPath => "MissingPath",
            AddressKind::Bind => "Bind",
            AddressKind::MissingHost => "MissingHost",
            AddressKind::MissingPort => "MissingPort",
            AddressKind::BadPort => "BadPort",
            AddressKind::BadFamily => "BadFamily",
            AddressKind::MissingNonceFile => "MissingNonceFile",
            AddressKind::BadEscape => "BadEscape",
            AddressKind::HostText => "HostText",
        };
        f.write_str(name)
    }
}

/// Why the text of an address is refused.
#[derive(Clone, Copy, Debug, PartialEq, Eq, thiserror::Error)]
pub enum AddressError {
    /// The text is wrong.
    #[error("{0}")]
    Kind(AddressKind),
    /// There was no memory for the answer.
    #[error("out of memory")]
    OutOfMemory,
}

impl From<AllocError> for AddressError {
    ghost from_gives = { λ _ e. e ≡ out_of_memory };

    fn from(_e: AllocError) -> AddressError {
        AddressError::OutOfMemory
    }
}

impl<T: Drop> From<AllocFailed<T>> for AddressError {
    ghost from_gives = { λ _ e. e ≡ out_of_memory };

    fn from(_e: AllocFailed<T>) -> AddressError {
        AddressError::OutOfMemory
    }
}

impl From<OutOfMemory> for AddressError {
    ghost from_gives = { λ _ e. e ≡ out_of_memory };

    fn from(_e: OutOfMemory) -> AddressError {
        AddressError::OutOfMemory
    }
}

impl From<AddressKind> for AddressError {
    ghost from_gives = { λ kind e. e ≡ refused kind };

    fn from(kind: AddressKind) -> AddressError {
        AddressError::Kind(kind)
    }
}

impl From<AllocError> for OutOfMemory {
    fn from(_e: AllocError) -> OutOfMemory {
        OutOfMemory
    }
}

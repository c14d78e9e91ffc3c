//! Why a call has no answer.

ghost use Rattle.std.specs.Prelude.{◌≡◌, Some};
ghost use Rattle.bus_signature.specs.declared.error.Error.{Error};
ghost use Rattle.bus_signature.specs.declared.error.Error.TheVariants as error;
ghost use Rattle.bus_signature.specs.Errors.{error_text};

use std::alloc::{AllocError, AllocFailed};
use std::fmt;

/// Why a text or a value gives no signature.
#[derive(Clone, Copy, Debug, PartialEq, Eq)]
pub enum Error {
    /// The bytes are no signature's.
    InvalidSignature,
    /// There is not enough memory.
    OutOfMemory,
}

// By hand, since a derived one does not state its text.
impl fmt::Display for Error {
    ghost output = { λ e. Some (error_text e) };

    fn fmt<W: fmt::Write>(&self, f: &mut fmt::Formatter<W>) -> fmt::Result {
        match self {
            Error::InvalidSignature => f.write_str("Invalid signature"),
            Error::OutOfMemory => f.write_str("out of memory"),
        }
    }
}

impl std::error::Error for Error {}

impl From<OutOfMemory> for Error {
    ghost from_gives = { λ _ e. e ≡ error.OutOfMemory };

    fn from(_error: OutOfMemory) -> Error {
        Error::OutOfMemory
    }
}

/// The bytes are no signature's.
#[derive(Clone, Copy, Debug, PartialEq, Eq, thiserror::Error)]
#[error("Invalid signature")]
pub struct InvalidSignature;

impl From<InvalidSignature> for Error {
    ghost from_gives = { λ _ e. e ≡ error.InvalidSignature };

    fn from(_error: InvalidSignature) -> Error {
        Error::InvalidSignature
    }
}

/// There is not enough memory.
#[derive(Clone, Copy, Debug, PartialEq, Eq, thiserror::Error)]
#[error("out of memory")]
pub struct OutOfMemory;

impl From<AllocError> for OutOfMemory {
    fn from(_error: AllocError) -> OutOfMemory {
        OutOfMemory
    }
}

impl<T: Drop> From<AllocFailed<T>> for OutOfMemory {
    fn from(_error: AllocFailed<T>) -> OutOfMemory {
        OutOfMemory
    }
}

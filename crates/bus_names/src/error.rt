//! Why there is no name.

ghost use Rattle.std.specs.Prelude.{◌≡◌, ◌==◌, Some};
ghost use Rattle.std.specs.Cmp.Rules.{comparing};
ghost use Rattle.std.specs.Ordering.{on};
ghost use Rattle.std.proofs.Common.{rules};
ghost use Rattle.bus_names.specs.Errors.{error_text, variant};
ghost use Rattle.bus_names.specs.declared.error.Error.TheVariants.{OutOfMemory};

use std::alloc::AllocError;
use std::fmt;

/// Why a text or a name was not made into a name.
///
/// Two errors are equal where they are of the same variant, whatever texts they hold.
#[derive(Clone, Copy, Debug)]
pub enum Error {
    /// The text is not in the grammar of the kind. The message names the kind.
    InvalidName(&'static str),
    /// A bus name is of the kind `from`, and was asked for as one of the kind `to`.
    InvalidNameConversion {
        from: &'static str,
        to: &'static str,
    },
    /// The memory for an owned name was not given.
    OutOfMemory,
}

impl From<AllocError> for Error {
    ghost from_gives = { λ _ e. e ≡ OutOfMemory };

    fn from(_: AllocError) -> Error {
        Error::OutOfMemory
    }
}

impl PartialEq for Error {
    ghost eq = { on variant (λ m n. m == n) };

    ghost laws = { Prim.search (comparing, rules) };

    fn eq(&self, other: &Error) -> bool {
        matches!(
            (self, other),
            (Error::InvalidName(_), Error::InvalidName(_))
                | (
                    Error::InvalidNameConversion { .. },
                    Error::InvalidNameConversion { .. }
                )
                | (Error::OutOfMemory, Error::OutOfMemory)
        )
    }
}

impl Eq for Error {
    ghost laws = { Prim.search (comparing, rules) };
}

impl fmt::Display for Error {
    ghost output = { λ e. Some (error_text e) };

    fn fmt<W: fmt::Write>(&self, f: &mut fmt::Formatter<W>) -> fmt::Result {
        match self {
            Error::InvalidName(text) => write!(f, "{text}"),
            Error::InvalidNameConversion { from, to } => {
                write!(f, "Invalid conversion from `{from}` to `{to}`")
            }
            Error::OutOfMemory => write!(f, "out of memory"),
        }
    }
}

impl std::error::Error for Error {}

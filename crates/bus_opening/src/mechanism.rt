//! The mechanisms of authentication.

ghost use Rattle.std.specs.Prelude.{◌≡◌, Some};
ghost use Rattle.std.specs.Result.{result_ok};

use std::fmt;
use thiserror::Error;

/// The text names no mechanism that is known here.
#[derive(Debug, Drop, Error)]
#[error("unsupported mechanism")]
pub struct UnsupportedMechanism;

/// How a client shows who it is (D-Bus specification, Authentication Protocol).
#[derive(Clone, Copy, Debug, PartialEq, Eq)]
pub enum AuthMechanism {
    /// `EXTERNAL`: the user whom the transport knows, named by its number.
    External,
    /// `ANONYMOUS`: nobody in particular.
    Anonymous,
}

impl AuthMechanism {
    ghost use Rattle.bus_opening.specs.Mechanisms.{mechanism, name_of};

    /// Reads a name.
    pub fn from_str(text: &str) -> Result<AuthMechanism, UnsupportedMechanism>
        ensures { result_ok result ≡ mechanism text.now }
    {
        if text == "EXTERNAL" {
            Ok(AuthMechanism::External)
        } else if text == "ANONYMOUS" {
            Ok(AuthMechanism::Anonymous)
        } else {
            Err(UnsupportedMechanism)
        }
    }

    /// The name.
    pub fn as_str(&self) -> &'static str
        ensures { result.now ≡ name_of self.now }
    {
        match self {
            AuthMechanism::External => "EXTERNAL",
            AuthMechanism::Anonymous => "ANONYMOUS",
        }
    }
}

impl fmt::Display for AuthMechanism {
    ghost use Rattle.bus_opening.specs.Mechanisms.{name_of};

    ghost output = { λ m. Some (name_of m) };

    fn fmt<W: fmt::Write>(&self, f: &mut fmt::Formatter<W>) -> fmt::Result {
        f.write_str(self.as_str())
    }
}

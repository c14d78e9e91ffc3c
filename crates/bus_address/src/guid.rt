//! The GUID that names a server (D-Bus specification, UUIDs).

ghost use Rattle.std.specs.Prelude.{◌≡◌, IsTrue, Some};
ghost use Rattle.std.specs.List.{list_all};
ghost use Rattle.std.specs.Char.{is_ascii_hexdigit};
ghost use Rattle.std.specs.Result.{result_ok};
ghost use Rattle.bus_address.specs.Guid.{guid, is_guid};

use std::fmt;
use std::marker::Model;
use std::str::FromStr;
use thiserror::Error;

/// The text is not 32 hexadecimal digits.
#[derive(Clone, Copy, Debug, Error, PartialEq, Eq)]
#[error("not 32 hexadecimal digits")]
pub struct InvalidGuid;

/// The number of a server, written as 32 hexadecimal digits (D-Bus specification, UUIDs).
///
/// It is kept and printed in lower case, whatever the case it was read in. Two are equal, ordered
/// and hashed as these digits.
#[derive(Clone, Copy, Debug, PartialEq, Eq, PartialOrd, Ord, Hash)]
pub struct Guid {
    digits: [u8; 32],
}

impl Model for Guid {
    ghost use Rattle.std.specs.Prelude.{ℕ, List, IsTrue};
    ghost use Rattle.bus_address.specs.Guid.{is_guid};

    ghost Value = { List ℕ };

    ghost view = { λ g. g.digits };

    ghost invariant = { λ g. IsTrue (is_guid g.digits) };

    ghost inverse = { λ text. record { digits = text } };
}

impl Guid {
    /// Reads 32 hexadecimal digits, in either case. Any other text is refused.
    pub fn from_str(text: &str) -> Result<Guid, InvalidGuid>
        ensures { result_ok result ≡ guid text.now }
    {
        let bytes = text.as_bytes();
        if bytes.len() != 32 || !is_hexadecimal(bytes) {
            return Err(InvalidGuid);
        }
        let mut digits = [0u8; 32];
        digits.copy_from_slice(bytes);
        digits.make_ascii_lowercase();
        Ok(Guid { digits })
    }

    /// The 32 digits in lower case, which `from_str` reads back.
    pub fn as_str(&self) -> &str
        ensures value { result.now ≡ self.now }
        ensures valid { IsTrue (is_guid self.now) }
        ensures read_back { guid result.now ≡ Some self.now }
    {
        str::from_utf8(&self.digits).unwrap()
    }

    /// What each GUID is made of, for the proofs of callers: 32 digits in lower case.
    pub(crate) fn holds_digits(&self)
        ensures { IsTrue (is_guid self.now) }
    {
        let _digits = &self.digits;
    }
}

fn is_hexadecimal(bytes: &[u8]) -> bool
    ensures { result ≡ list_all is_ascii_hexdigit bytes.now }
{
    bytes.iter().all(|b| b.is_ascii_hexdigit())
}

impl FromStr for Guid {
    type Err = InvalidGuid;

    ghost from_str_gives = { λ text result. result_ok result ≡ guid text };

    fn from_str(text: &str) -> Result<Guid, InvalidGuid> {
        Guid::from_str(text)
    }
}

impl fmt::Display for Guid {
    ghost output = { λ g. Some g };

    fn fmt<W: fmt::Write>(&self, f: &mut fmt::Formatter<W>) -> fmt::Result {
        f.write_str(self.as_str())
    }
}

//! Commands as they are printed.

ghost use Rattle.std.specs.Prelude.{◌≡◌, IfOk};

use crate::command::Command;
use crate::hexadecimal::Hexadecimal;
use react_core::outside::OutOfMemory;
use std::alloc::Global;
use std::fmt;

impl fmt::Display for Command {
    ghost use Rattle.std.specs.Prelude.{Some};
    ghost use Rattle.bus_opening.specs.Commands.{text_of};

    ghost output = { λ c. Some (text_of c) };

    fn fmt<W: fmt::Write>(&self, f: &mut fmt::Formatter<W>) -> fmt::Result {
        match self {
            Command::Auth(None, _) => f.write_str("AUTH"),
            Command::Auth(Some(mechanism), None) => write!(f, "AUTH {mechanism}"),
            Command::Auth(Some(mechanism), Some(bytes)) => {
                let digits = Hexadecimal(bytes.as_slice());
                write!(f, "AUTH {mechanism} {digits}")
            }
            Command::Cancel => f.write_str("CANCEL"),
            Command::Begin => f.write_str("BEGIN"),
            Command::Data(None) => f.write_str("DATA"),
            Command::Data(Some(bytes)) => {
                let digits = Hexadecimal(bytes.as_slice());
                write!(f, "DATA {digits}")
            }
            Command::Error(text) => write!(f, "ERROR {text}"),
            Command::NegotiateUnixFD => f.write_str("NEGOTIATE_UNIX_FD"),
            Command::AgreeUnixFD => f.write_str("AGREE_UNIX_FD"),
            Command::Rejected(text) => write!(f, "REJECTED {text}"),
            Command::Ok(guid) => write!(f, "OK {guid}"),
        }
    }
}

impl Command {
    ghost use Rattle.bus_opening.specs.Commands.{text_of};

    /// The printed text, without the end of a line.
    ///
    /// # Errors
    ///
    /// Memory ran out.
    pub fn to_bytes(&self, alloc: Global) -> Result<Vec<u8>, OutOfMemory>
        ensures { IfOk result (λ bytes. bytes.items ≡ text_of self.now) }
    {
        Ok(self.to_string(alloc)?.into_bytes())
    }
}

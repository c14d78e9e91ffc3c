//! The wire format of messages.

ghost use Rattle.std.specs.Prelude.{◌≡◌, Some, codes};
ghost use Rattle.bus_signature.specs.declared.format.Format.TheVariants.{DBus};

use std::fmt;

/// How values are laid out in a message.
#[derive(Clone, Copy, Debug, PartialEq, Eq)]
pub enum Format {
    /// As the D-Bus specification says under Marshaling.
    DBus,
}

impl Default for Format {
    ghost is_default = { λ format. format ≡ DBus };

    fn default() -> Format {
        Format::DBus
    }
}

impl fmt::Display for Format {
    ghost output = { λ _. Some (codes "D-Bus") };

    fn fmt<W: fmt::Write>(&self, f: &mut fmt::Formatter<W>) -> fmt::Result {
        f.write_str("D-Bus")
    }
}

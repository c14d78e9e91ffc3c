//! The daemon of the input method framework IBus, which is asked for its address.

use std::fmt;

/// The bus of IBus. It is asked for its address when it is dialled.
#[derive(Clone, Copy, Debug, Default, PartialEq, Eq)]
pub struct Ibus;

impl Ibus {
    /// The bus of IBus.
    pub fn new() -> Ibus {
        Ibus
    }
}

impl fmt::Display for Ibus {
    ghost use Rattle.std.specs.Prelude.{Some, codes};

    ghost output = { λ _. Some (codes "ibus:") };

    fn fmt<W: fmt::Write>(&self, f: &mut fmt::Formatter<W>) -> fmt::Result {
        f.write_str("ibus:")
    }
}

//! Parts of a printed address that are there or not.

ghost use Rattle.std.specs.Prelude.{Some};
ghost use Rattle.std.specs.Option.{option_copied};
ghost use Rattle.bus_address.specs.Printed.{behind};

use crate::escapes::Escaped;
use std::fmt;

/// `,key=value` where there is a value, else nothing.
#[derive(Clone, Copy)]
pub(crate) struct Behind<'a> {
    pub key: &'a str,
    pub value: Option<&'a [u8]>,
}

impl fmt::Display for Behind<'_> {
    ghost output = { λ e. Some (behind e.key.now (option_copied e.value)) };

    fn fmt<W: fmt::Write>(&self, f: &mut fmt::Formatter<W>) -> fmt::Result {
        match self.value {
            Some(value) => {
                let key = self.key;
                write!(f, ",{key}={}", Escaped(value))
            }
            None => Ok(()),
        }
    }
}

//! Programs that are started to talk to them (D-Bus specification, Executed Subprocesses on Unix).

ghost use Rattle.std.specs.Prelude.{◌≡◌, map, IsTrue};
ghost use Rattle.std.specs.Option.{option_copied, option_map};

use crate::escapes::Escaped;
use crate::octets::{OctetList, Octets, all_have_bytes, has_bytes, has_bytes_if_some};
use crate::printing::Behind;
use std::fmt;
use std::marker::Model;

/// A program and the arguments that it is started with.
#[derive(Debug, Drop, PartialEq, Eq)]
pub struct Unixexec {
    path: Octets,
    arg0: Option<Octets>,
    args: OctetList,
}

impl Model for Unixexec {
    ghost use Rattle.bus_address.specs.Parts.{ProgramParts};

    ghost Value = { ProgramParts };

    ghost view = { λ p. record { path = p.path; arg0 = p.arg0; args = p.args } };

    ghost inverse = { λ p. record { path = p.path; arg0 = p.arg0; args = p.args } };
}

impl Unixexec {
    ghost use Rattle.bus_address.specs.Parts.{ProgramParts};
    ghost use Rattle.bus_address.specs.ReadBack.{is_readable_program, IsReadableProgram};

    /// A program, the name that it is told for itself, and its other arguments.
    pub fn new(path: Vec<u8>, arg0: Option<Vec<u8>>, args: Vec<Vec<u8>>) -> Unixexec
        ensures { result
            ≡ record {
              path = path.items;
              arg0 = option_map (λ v. v.items) arg0;
              args = map (λ v. v.items) args.items;
            } }
    {
        Unixexec {
            path: Octets::from_vec(path),
            arg0: arg0.map(|bytes| Octets::from_vec(bytes)),
            args: OctetList::from_vec(args),
        }
    }

    pub(crate) fn from_parts(path: Octets, arg0: Option<Octets>, args: Vec<Vec<u8>>) -> Unixexec
        ensures { result ≡ record { path = path; arg0 = arg0; args = map (λ v. v.items) args.items } }
    {
        Unixexec {
            path,
            arg0,
            args: OctetList::from_vec(args),
        }
    }

    /// The file of the program.
    pub fn path(&self) -> &[u8]
        ensures { result.now ≡ self.now.path }
    {
        self.path.as_slice()
    }

    /// The name that the program is told for itself, where it is not the path.
    pub fn arg0(&self) -> Option<&[u8]>
        ensures { option_copied result ≡ self.now.arg0 }
    {
        match &self.arg0 {
            Some(arg0) => Some(arg0.as_slice()),
            None => None,
        }
    }

    /// The other arguments in order.
    pub fn args(&self) -> &[Vec<u8>]
        ensures { map (λ v. v.items) result.now ≡ self.now.args }
    {
        self.args.as_slice()
    }

    pub(crate) fn is_readable(&self) -> bool
        ensures value { result ≡ is_readable_program self.now }
        ensures readable { IsTrue result → IsReadableProgram self.now }
    {
        if !has_bytes(self.path()) {
            return false;
        }
        if !has_bytes_if_some(self.arg0()) {
            return false;
        }
        all_have_bytes(self.args())
    }
}

/// Arguments with their numbers from 1 on, each behind a comma.
#[derive(Clone, Copy)]
struct Arguments<'a>(&'a [Vec<u8>]);

impl fmt::Display for Arguments<'_> {
    ghost use Rattle.std.specs.Prelude.{Some, map};
    ghost use Rattle.bus_address.specs.Printed.{arguments_text};

    ghost output = { λ arguments. Some (arguments_text (map (λ v. v.items) arguments.0.now)) };

    fn fmt<W: fmt::Write>(&self, f: &mut fmt::Formatter<W>) -> fmt::Result {
        for (index, argument) in self.0.iter().enumerate() {
            let number = index + 1;
            write!(f, ",argv{number}={}", Escaped(argument.as_slice()))?;
        }
        Ok(())
    }
}

impl fmt::Display for Unixexec {
    ghost use Rattle.std.specs.Prelude.{Some};
    ghost use Rattle.bus_address.specs.Printed.{program_text};

    ghost output = { λ program. Some (program_text program) };

    fn fmt<W: fmt::Write>(&self, f: &mut fmt::Formatter<W>) -> fmt::Result {
        let path = Escaped(self.path());
        let arg0 = Behind {
            key: "argv0",
            value: self.arg0(),
        };
        let arguments = Arguments(self.args());
        write!(f, "unixexec:path={path}{arg0}{arguments}")
    }
}

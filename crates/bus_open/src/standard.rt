//! The standard streams of the process as a source and a sink, which tell nothing and count their faults.
//!
//! This is the trusted edge: what really comes in and goes out is for no contract to say.

ghost use Rattle.std.specs.Prelude.{◌≡◌, ℕ, None};

use crate::stream::{Read, Sink, Source, WriteFailed};
use std::io;
use std::io::ErrorKind;
use std::marker::Model;

/// Standard input, or a reader that stands for it. Contracts see the count of its faults.
#[derive(Drop)]
pub struct StandardInput<R: io::Read + Drop> {
    reader: R,
    faults: u64,
}

impl<R: io::Read + Drop> Model for StandardInput<R> {
    ghost Value = { ℕ };

    ghost view = { λ s. s.faults };
}

impl<R: io::Read + Drop> StandardInput<R> {
    /// A source that hasn't failed yet.
    pub fn new(reader: R) -> Self
        ensures { result ≡ 0 }
    {
        StandardInput { reader, faults: 0 }
    }
}

impl<R: io::Read + Drop> Source for StandardInput<R> {
    ghost left = { λ _. None };

    ghost read_faults = { λ faults. faults };

    /// A read that a signal interrupted is tried again.
    fn read(&mut self, into: &mut [u8]) -> Read {
        for _ in 0..u64::MAX {
            match self.reader.read(into) {
                Ok(0) if !into.is_empty() => return Read::End,
                Ok(count) => return Read::Got(count),
                Err(error) if error.kind() == ErrorKind::Interrupted => {}
                Err(_) => break,
            }
        }
        self.faults = self.faults.saturating_add(1);
        Read::Failed
    }
}

/// Standard output, or a writer that stands for it. Contracts see the count of its faults.
#[derive(Drop)]
pub struct StandardOutput<W: io::Write + Drop> {
    writer: W,
    faults: u64,
}

impl<W: io::Write + Drop> Model for StandardOutput<W> {
    ghost Value = { ℕ };

    ghost view = { λ s. s.faults };
}

impl<W: io::Write + Drop> StandardOutput<W> {
    /// A sink that hasn't failed yet.
    pub fn new(writer: W) -> Self
        ensures { result ≡ 0 }
    {
        StandardOutput { writer, faults: 0 }
    }
}

impl<W: io::Write + Drop> Sink for StandardOutput<W> {
    ghost held = { λ _. None };

    ghost write_faults = { λ faults. faults };

    /// A write that a signal interrupted is tried again; one that took nothing of a piece has failed.
    fn write(&mut self, bytes: &[u8]) -> Result<usize, WriteFailed> {
        for _ in 0..u64::MAX {
            match self.writer.write(bytes) {
                Ok(0) if !bytes.is_empty() => break,
                Ok(count) => return Ok(count),
                Err(error) if error.kind() == ErrorKind::Interrupted => {}
                Err(_) => break,
            }
        }
        self.faults = self.faults.saturating_add(1);
        Err(WriteFailed)
    }
}

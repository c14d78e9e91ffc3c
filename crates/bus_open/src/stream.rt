//! Where bytes come from and where they go to.

ghost use Rattle.std.specs.Prelude.{ℕ, List, Option};

use thiserror::Error;

/// What a read gave.
#[derive(Clone, Copy, Debug, PartialEq, Eq)]
pub enum Read {
    /// So many bytes, at the front of the slice.
    Got(usize),
    /// No byte is left.
    End,
    /// The source failed, and counted it.
    Failed,
}

/// The sink failed, and counted it.
#[derive(Clone, Copy, Debug, Error, PartialEq, Eq)]
#[error("the sink failed")]
pub struct WriteFailed;

/// A source of bytes, which may tell what it has left.
pub trait Source {
    ghost use Rattle.std.specs.Prelude.{◌≡◌, length};
    ghost use Rattle.bus_open.specs.Streams.{CountsRead, Gives, Tells};

    /// The bytes that are left, where the source tells them.
    ghost left: { Self → Option (List ℕ) };

    /// How often the source has failed.
    ghost read_faults: { Self → ℕ };

    /// Puts the next bytes at the front of the slice: at least one and at most the slice's length, where the slice
    /// isn't empty. After a fault the same bytes are left as before.
    fn read(&mut self, into: &mut [u8]) -> Read
        ensures tells { Tells (left self.old) (left self.new) }
        ensures bytes { Gives (left self.old) (left self.new) into.new result }
        ensures room { length into.new ≡ length into.old }
        ensures faults { CountsRead (read_faults self.old) (read_faults self.new) result };
}

/// A sink of bytes, which may tell what it holds.
pub trait Sink {
    ghost use Rattle.bus_open.specs.Streams.{CountsWrite, Takes, Tells};

    /// The bytes that it took, where the sink tells them.
    ghost held: { Self → Option (List ℕ) };

    /// How often the sink has failed.
    ghost write_faults: { Self → ℕ };

    /// Takes a first part of the bytes and answers its length: at least one byte, where there is one. After a fault the
    /// sink holds the same bytes as before.
    fn write(&mut self, bytes: &[u8]) -> Result<usize, WriteFailed>
        ensures tells { Tells (held self.old) (held self.new) }
        ensures bytes { Takes (held self.old) (held self.new) bytes.now result }
        ensures faults { CountsWrite (write_faults self.old) (write_faults self.new) result };
}

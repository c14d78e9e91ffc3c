//! How an opening ends, and what a poll of it answers.

use bus_address::Guid;

/// What a conversation settled (D-Bus specification, Authentication Protocol).
#[derive(Clone, Copy, Debug, PartialEq, Eq)]
pub struct Authenticated {
    /// The GUID that the server sent.
    pub guid: Guid,
    /// Whether both sides agreed to pass Unix file descriptors.
    pub cap_unix_fd: bool,
}

/// How an opening ended.
#[derive(Clone, Copy, Debug, PartialEq, Eq)]
pub enum Verdict {
    /// The connection stands.
    Authenticated(Authenticated),
    /// The peer said what it may not say, or ended the stream.
    Handshake,
    /// The wire failed.
    Io,
    /// A line of more than 16384 bytes before its line feed.
    LineTooLong,
    /// 64 commands came without an ending.
    TooManyCommands,
}

/// What a poll answers.
#[derive(Clone, Copy, Debug, PartialEq, Eq)]
pub enum Step {
    /// The opening ended.
    Done(Verdict),
    /// The wire has no bytes yet.
    WantRead,
    /// The wire takes no bytes yet.
    WantWrite,
    /// Memory ran out; the opening stands where the last call of the wire left it, and may be polled again.
    OutOfMemory,
}

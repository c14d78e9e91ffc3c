//! What came of a session.

use bus_address::{AddressKind, Guid};
use react_core::outside::Bytes;

/// Why an address leads nowhere.
#[derive(Clone, Copy, Debug, PartialEq, Eq)]
pub enum AddressReason {
    /// The text of the address was refused.
    Text(AddressKind),
    /// Ibus could not be run, ended without success, or printed no address.
    IbusFailed,
    /// The host has no address of the family that the address names, or none at all.
    NoAddress,
}

/// How a session ended.
#[derive(Clone, Copy, Debug, PartialEq, Eq)]
pub enum Ending {
    /// The connection stands: the server's GUID, and whether descriptors may be passed over it.
    Open { guid: Guid, cap_unix_fd: bool },
    /// The address leads nowhere.
    Address(AddressReason),
    /// The address asks for what can't be dialled: a folder, a name that is no UTF-8, or ibus by way of ibus.
    Unsupported,
    /// Dialling failed.
    Connection,
    /// The wire failed.
    Io,
    /// The peer broke the protocol.
    Handshake,
    /// A line of the peer was too long.
    LineTooLong,
    /// The peer gave too many commands.
    TooManyCommands,
    /// The deadline was reached.
    TimedOut,
    /// The session still waited once all rounds were run.
    Waiting,
}

/// What came of the session of a wire. A moment is a reading of the clock in nanoseconds.
#[derive(Debug, Drop)]
pub struct Ended {
    pub ending: Ending,
    /// What the wire took.
    pub written: Bytes,
    /// What came behind the last line that was looked at.
    pub leftover: Bytes,
    pub wire: u32,
    /// The reading of the session's last visit, where it made one.
    pub moment: Option<u64>,
}

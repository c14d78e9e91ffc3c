//! The limits of a conversation, which the D-Bus specification leaves open.

/// The most bytes that a line may have before its line feed.
pub(crate) const LINE_LIMIT: usize = 16384;

/// The most lines that are looked at.
pub(crate) const COMMAND_LIMIT: usize = 64;

/// How many bytes a read asks for.
pub(crate) const READ_SIZE: usize = 1024;

/// The most bytes that are kept of what came: the front of a line that may still end, and a read.
pub(crate) const BUFFER_LIMIT: usize = LINE_LIMIT + READ_SIZE;

//! The statuses that the program ends with.

/// Every session is open, or the text is one of its kind.
pub const ALL_WELL: u8 = 0;
/// Some session ended otherwise, or the text is none of its kind.
pub const NOT_ALL_WELL: u8 = 1;
/// The words or the script are refused.
pub const REFUSED: u8 = 2;
/// The source failed.
pub const READ_FAULT: u8 = 3;
/// The sink failed while the results were written.
pub const WRITE_FAULT: u8 = 4;
/// Memory ran out.
pub const OUT_OF_MEMORY: u8 = 5;
/// The poller failed.
pub const POLLER: u8 = 6;
/// A counter of the reactor came to its end.
pub const EXHAUSTED: u8 = 7;

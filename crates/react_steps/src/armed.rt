//! The directions of a key in which the poller is to report it.

/// The directions of a key in which the poller is to report it once.
#[derive(Clone, Copy, Debug, PartialEq, Eq)]
pub struct Armed {
    pub read: bool,
    pub write: bool,
}

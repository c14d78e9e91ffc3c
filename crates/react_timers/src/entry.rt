//! An entry of the heap.
ghost use Rattle.std.specs.Prelude.{◌≡◌};

/// A timer's moment in nanoseconds, and its number.
#[derive(Clone, Copy, Debug, PartialEq, Eq)]
pub(crate) struct Entry {
    pub(crate) when: u64,
    pub(crate) number: u64,
}

impl Entry {
    ghost use Rattle.react_timers.specs.Heaped.{is_sooner};

    /// Whether it comes before the other: by moment, then by number.
    pub(crate) fn is_sooner(&self, other: &Entry) -> bool
        ensures { result ≡ is_sooner self.now other.now }
    {
        self.when < other.when || (self.when == other.when && self.number < other.number)
    }
}

//! A timer, and the operations on timers.
ghost use Rattle.std.specs.Prelude.{◌≡◌};

/// A live timer: its number, its moment in nanoseconds, and the task that it wakes.
#[derive(Clone, Copy, Debug, PartialEq, Eq)]
pub struct LiveTimer {
    pub number: u64,
    pub when: u64,
    pub task: u64,
}

/// An operation on the timers, which waits in a queue. Its moment is in nanoseconds.
#[derive(Clone, Copy, Debug, PartialEq, Eq)]
pub enum TimerOp {
    /// Adds a timer, unless one has its number.
    Insert { when: u64, number: u64, task: u64 },
    /// Takes out the timer with this number, where this is its moment.
    Remove { when: u64, number: u64 },
}

impl TimerOp {
    ghost use Rattle.react_timers.specs.Live.{insertions_of};

    /// How many timers the operation may add.
    pub(crate) fn insertions(&self) -> usize
        ensures { result ≡ insertions_of self.now }
    {
        match self {
            TimerOp::Insert { .. } => 1,
            TimerOp::Remove { .. } => 0,
        }
    }
}

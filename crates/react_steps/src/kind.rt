//! The kinds of steps, their answers, and the steps that were taken.

use react_core::outside::Reports;
use react_core::reactor::{Begun, Dir};
use std::marker::Model;
use thiserror::Error;

/// A step that a party asks for. Moments and timeouts are nanoseconds. Where `fault` is set, the call that the step
/// makes of the poller fails.
#[derive(Debug, Drop)]
pub enum Kind {
    /// A poll of the polled place of a key's direction, for a task.
    Poll {
        key: usize,
        dir: Dir,
        task: u64,
        fault: bool,
    },
    /// A poll of the future at a place of a key's direction, for a task. At a free place it is the future's first.
    PollFuture {
        key: usize,
        dir: Dir,
        place: u32,
        task: u64,
        fault: bool,
    },
    /// The end of the future at a place of a key's direction, where there is one.
    Cancel {
        key: usize,
        dir: Dir,
        place: u32,
    },
    /// A new source of this wire, under this key.
    Insert {
        wire: u32,
        key: usize,
        fault: bool,
    },
    /// The removal of the source under this key, with all that it holds.
    Remove {
        key: usize,
        fault: bool,
    },
    /// The begin of a round, which may wait for so long, and for ever where there is no timeout.
    Begin {
        now: u64,
        timeout: Option<u64>,
    },
    /// The return of the open round's wait, with these reports.
    Returned {
        reports: Reports,
        fault: bool,
    },
    /// The end of the open round. Where the clock was read again after its wait, `later` is that moment.
    Finish {
        later: Option<u64>,
        fault: bool,
    },
}

/// What a step answers.
#[derive(Clone, Copy, Debug, PartialEq, Eq)]
pub enum Answer {
    /// A poll found that a round since the begin of its interest has reported its direction.
    Ready,
    /// A poll did not, and its task waits.
    Pending,
    /// A round was begun.
    Begun(Begun),
    Done,
    /// The poller failed.
    Failed,
}

/// Tasks, which contracts see as their list.
#[derive(Debug, Drop)]
pub struct Tasks(Vec<u64>);

impl Model for Tasks {
    ghost use Rattle.std.specs.Prelude.{List, ℕ};

    ghost Value = { List ℕ };

    ghost view = { λ l. l.0.items };
}

impl Tasks {
    ghost use Rattle.std.specs.Prelude.{◌≡◌};

    /// Takes the items over, without memory.
    pub fn from_vec(v: Vec<u64>) -> Self
        ensures items { result ≡ v.items }
    {
        Tasks(v)
    }

    /// Lends the items.
    pub fn as_slice(&self) -> &[u64]
        ensures items { result.now ≡ self.now }
    {
        self.0.as_slice()
    }
}

/// A step that was taken, with its answer and the tasks that it woke, in order.
#[derive(Debug, Drop)]
pub struct Taken {
    pub kind: Kind,
    pub answer: Answer,
    pub woken: Tasks,
}

/// Why a list of steps was refused.
#[derive(Clone, Copy, Debug, Error, PartialEq, Eq)]
pub enum StepError {
    /// No step of the kind at this index can be taken after the steps before it.
    #[error("step {index} can't be taken")]
    Disabled { index: usize },
    #[error("out of memory")]
    OutOfMemory,
}

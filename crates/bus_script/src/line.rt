//! What a line of a script says.

ghost use Rattle.std.specs.Prelude.{◌≡◌, Some};
ghost use Rattle.bus_script.specs.declared.line.LineError.TheVariants.{Refused, OutOfMemory};

use bus_session::Session;
use react_core::outside::{DialAnswer, RecvAnswer, SendAnswer};
use std::alloc::{AllocError, AllocFailed};
use std::fmt;
use std::marker::Model;

/// Why a command or a script is refused.
#[derive(Clone, Copy, Debug, PartialEq, Eq)]
pub enum Reason {
    /// The words of the command name nothing.
    Words,
    /// The script has more than 16777216 bytes.
    Length,
    /// The script is not UTF-8.
    Text,
    /// The line has none of the forms.
    Form,
    /// The line stands at a wrong place.
    Order,
    /// The answer names a session that is not there.
    Session,
    /// The reading is below the one before.
    Clock,
}

impl fmt::Display for Reason {
    ghost use Rattle.std.specs.Prelude.{Some};
    ghost use Rattle.bus_script.specs.Reasons.{reason_word};

    ghost output = { λ r. Some (reason_word r) };

    fn fmt<W: fmt::Write>(&self, f: &mut fmt::Formatter<W>) -> fmt::Result {
        match self {
            Reason::Words => f.write_str("words"),
            Reason::Length => f.write_str("length"),
            Reason::Text => f.write_str("text"),
            Reason::Form => f.write_str("form"),
            Reason::Order => f.write_str("order"),
            Reason::Session => f.write_str("session"),
            Reason::Clock => f.write_str("clock"),
        }
    }
}

/// Why a line was not taken.
#[derive(Debug, Drop)]
pub(crate) enum LineError {
    Refused(Reason),
    OutOfMemory,
}

impl From<Reason> for LineError {
    ghost from_gives = { λ r e. e ≡ Refused r };

    fn from(r: Reason) -> LineError {
        LineError::Refused(r)
    }
}

impl From<AllocError> for LineError {
    ghost from_gives = { λ _ e. e ≡ OutOfMemory };

    fn from(_e: AllocError) -> LineError {
        LineError::OutOfMemory
    }
}

impl<T: Drop> From<AllocFailed<T>> for LineError {
    ghost from_gives = { λ _ e. e ≡ OutOfMemory };

    fn from(_e: AllocFailed<T>) -> LineError {
        LineError::OutOfMemory
    }
}

/// Whose source a wait reports: a session's, or that of a key.
#[derive(Clone, Copy, Debug, PartialEq, Eq)]
pub enum ReadySource {
    Session(u32),
    Key(usize),
}

/// A report of a wait: a source, and in which directions it is ready.
#[derive(Clone, Copy, Debug, PartialEq, Eq)]
pub struct Ready {
    pub source: ReadySource,
    pub read: bool,
    pub write: bool,
}

/// The reports of one wait, in order.
#[derive(Debug, Drop)]
pub struct Readies(Vec<Ready>);

impl Model for Readies {
    ghost use Rattle.std.specs.Prelude.{List};
    ghost use Rattle.bus_script.specs.declared.line.Ready.{Ready};

    ghost Value = { List Ready };

    ghost view = { λ l. l.0.items };
}

impl Readies {
    /// Takes the items over, without memory.
    pub fn from_vec(v: Vec<Ready>) -> Self
        ensures items { result ≡ v.items }
    {
        Readies(v)
    }

    /// Lends the items.
    pub fn as_slice(&self) -> &[Ready]
        ensures items { result.now ≡ self.now }
    {
        self.0.as_slice()
    }
}

/// What a wait answers.
#[derive(Debug, Drop)]
pub enum ScriptWait {
    Reported(Readies),
    Interrupted,
    Failed,
}

/// An answer of the outside, as its line gives it. A moment is a reading of the clock in nanoseconds; where an answer
/// is a `bool`, `false` is a fault.
#[derive(Debug, Drop)]
pub enum Answer {
    Dial { session: u32, answer: DialAnswer },
    Recv { session: u32, answer: RecvAnswer },
    Send { session: u32, answer: SendAnswer },
    Now(u64),
    Add(bool),
    Modify(bool),
    Delete(bool),
    Notify(bool),
    Wait(ScriptWait),
}

/// Where the reactor's numbers begin.
#[derive(Clone, Copy, Debug, PartialEq, Eq)]
pub struct Start {
    pub tick: u64,
    pub timer: u64,
}

/// A line of a script.
#[derive(Debug, Drop)]
pub enum Line {
    Rounds(u64),
    Start { tick: u64, timer: u64 },
    Session(Session),
    Answer(Answer),
}

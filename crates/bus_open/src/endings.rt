//! What `play` and `open` share: how long a script may be, and what is written and answered of their sessions.

ghost use Rattle.std.specs.Prelude.{◌≡◌, ◌⊎◌, true, false};
ghost use Rattle.std.specs.Io.KnownBytes.{Appends};
ghost use Rattle.react_core.specs.Told.{Rose};
ghost use Rattle.bus_open.specs.Streams.{GainsFront};
ghost use Rattle.bus_open.specs.Run.{all_open, is_open, status_of};

use crate::status;
use crate::stream::Sink;
use crate::whole::write_all;
use bus_peers::{Ended, Ending, OpenError};

/// A script has at most so many bytes.
pub(crate) const LONGEST_SCRIPT: usize = 16_777_216;

/// The reactor takes at most so many reports a wait.
pub(crate) const MOST_REPORTS: usize = 64;

fn is_open(ended: &Ended) -> bool
    ensures { result ≡ is_open ended.now.ending }
{
    matches!(ended.ending, Ending::Open { .. })
}

fn all_open(endeds: &[Ended]) -> bool
    ensures { result ≡ all_open endeds.now }
{
    endeds.iter().all(is_open)
}

/// Writes the text that is printed of these endings, and answers whether all are open.
pub(crate) fn write_endings<K: Sink>(sink: &mut K, endeds: &[Ended], text: &str) -> u8
    ensures status { (result ≡ 0) ⊎ (result ≡ 1) ⊎ (result ≡ 4) }
    ensures all_open { result ≡ 0 →
        (all_open endeds.now ≡ true) × Appends (K.held sink.old) (K.held sink.new) text.now }
    ensures other { result ≡ 1 →
        (all_open endeds.now ≡ false) × Appends (K.held sink.old) (K.held sink.new) text.now }
    ensures failed { result ≡ 4 →
        Rose (K.write_faults sink.old) (K.write_faults sink.new)
        × GainsFront (K.held sink.old) (K.held sink.new) text.now }
{
    if write_all(sink, text.as_bytes()).is_err() {
        return status::WRITE_FAULT;
    }
    if all_open(endeds) {
        status::ALL_WELL
    } else {
        status::NOT_ALL_WELL
    }
}

/// The status of a refusal.
pub(crate) fn status_of(refusal: OpenError) -> u8
    ensures { result ≡ status_of refusal }
{
    match refusal {
        OpenError::OutOfMemory => status::OUT_OF_MEMORY,
        OpenError::Poller => status::POLLER,
        OpenError::Exhausted { .. } => status::EXHAUSTED,
    }
}

//! Checking a text: what it is, written as one line.

ghost use Rattle.std.specs.Prelude.{◌≡◌, ◌⊎◌, ℕ, Bool, List, true, false};
ghost use Rattle.std.specs.Io.KnownBytes.{Appends, Keeps};
ghost use Rattle.react_core.specs.Told.{Rose};
ghost use Rattle.bus_check.specs.Says.{Says};
ghost use Rattle.bus_open.specs.Streams.{GainsFront};

use crate::status;
use crate::stream::Sink;
use crate::whole::write_all;
use bus_check::{Kind, check};
use std::alloc::Global;

/// Reads the text as one of its kind, and writes what it is.
pub(crate) fn check_text<K: Sink>(alloc: Global, sink: &mut K, kind: Kind, text: &str) -> u8
    ensures status { (result ≡ 0) ⊎ (result ≡ 1) ⊎ (result ≡ 4) ⊎ (result ≡ 5) }
    ensures accepted { result ≡ 0 →
        (line : List ℕ) × Says kind text.now true line × Appends (K.held sink.old) (K.held sink.new) line }
    ensures refused { result ≡ 1 →
        (line : List ℕ) × Says kind text.now false line × Appends (K.held sink.old) (K.held sink.new) line }
    ensures failed { result ≡ 4 →
        (accepted : Bool) × (line : List ℕ) × Says kind text.now accepted line
        × Rose (K.write_faults sink.old) (K.write_faults sink.new)
        × GainsFront (K.held sink.old) (K.held sink.new) line }
    ensures nothing { result ≡ 5 → Keeps (K.held sink.old) (K.held sink.new) }
{
    let Ok(checked) = check(alloc, kind, text) else {
        return status::OUT_OF_MEMORY;
    };
    if write_all(sink, checked.line.as_str().as_bytes()).is_err() {
        return status::WRITE_FAULT;
    }
    if checked.is_accepted {
        status::ALL_WELL
    } else {
        status::NOT_ALL_WELL
    }
}

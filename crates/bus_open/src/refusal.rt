//! Refusing the words or the script.

ghost use Rattle.std.specs.Prelude.{◌≡◌, ◌⊎◌};
ghost use Rattle.std.specs.Io.KnownBytes.{Keeps};
ghost use Rattle.bus_script.specs.Printed.{refusal};
ghost use Rattle.bus_open.specs.Streams.{GainsOrFails, Tells};

use crate::status;
use crate::stream::Sink;
use crate::whole::write_all;
use bus_script::{Reason, refusal};
use react_core::outside::OutOfMemory;
use std::alloc::Global;

/// Writes where and why the words or the script are refused, as far as the sink takes it. Line 0 is the words, or the
/// script as a whole.
pub(crate) fn refuse<K: Sink>(alloc: Global, sink: &mut K, line: u64, reason: Reason) -> u8
    ensures status { (result ≡ 2) ⊎ (result ≡ 5) }
    ensures tells { Tells (K.held sink.old) (K.held sink.new) }
    ensures text { result ≡ 2
        → GainsOrFails (K.held sink.old) (K.held sink.new) (K.write_faults sink.old) (K.write_faults sink.new)
        (refusal line reason) }
    ensures nothing { result ≡ 5 → Keeps (K.held sink.old) (K.held sink.new) }
{
    match refusal(alloc, line, reason) {
        Ok(text) => {
            let _ = write_all(sink, text.as_str().as_bytes());
            status::REFUSED
        }
        Err(OutOfMemory) => status::OUT_OF_MEMORY,
    }
}

//! Bulk runs: sessions of the program's own making, and one line that sums up how they ended.

ghost use Rattle.std.specs.Prelude.{◌≡◌, ◌≤◌, ◌⊎◌, List, true, false};
ghost use Rattle.std.specs.Io.KnownBytes.{Appends, Keeps};
ghost use Rattle.react_core.specs.Told.{Rose};
ghost use Rattle.react_core.specs.declared.outside.Event.{Event};
ghost use Rattle.bus_session.specs.declared.ended.Ended.{Ended};
ghost use Rattle.bus_bulk.specs.Bulk.{bulk};
ghost use Rattle.bus_bulk.specs.Summary.{summary_text};
ghost use Rattle.bus_open.specs.Streams.{GainsFront};
ghost use Rattle.bus_open.specs.Run.{FollowFrom, all_open};

use crate::playing::{Report, perform};
use crate::status;
use crate::stream::Sink;
use bus_bulk::{bulk_has_its_sessions, bulk_has_no_poller_fault, bulk_is_a_script, bulk_script};
use bus_peers::{Scene, ScriptError, ScriptForm};
use std::alloc::Global;
use std::mem;

/// Opens so many sessions over the scene of the script that a bulk run has, and writes one line of their endings.
pub(crate) fn run_bulk<K: Sink>(alloc: Global, sink: &mut K, sessions: u32) -> u8
    requires { sessions ≤ 10000 }
    ensures status { (result ≡ 0) ⊎ (result ≡ 1) ⊎ (result ≡ 4) ⊎ (result ≡ 5) }
    ensures opened { result ≡ 0 →
        (endeds : List Ended) × (r : List Event) × FollowFrom (bulk sessions) endeds r × (all_open endeds ≡ true)
        × Appends (K.held sink.old) (K.held sink.new) (summary_text sessions endeds) }
    ensures other { result ≡ 1 →
        (endeds : List Ended) × (r : List Event) × FollowFrom (bulk sessions) endeds r × (all_open endeds ≡ false)
        × Appends (K.held sink.old) (K.held sink.new) (summary_text sessions endeds) }
    ensures failed { result ≡ 4 →
        (endeds : List Ended) × (r : List Event) × FollowFrom (bulk sessions) endeds r
        × Rose (K.write_faults sink.old) (K.write_faults sink.new)
        × GainsFront (K.held sink.old) (K.held sink.new) (summary_text sessions endeds) }
    ensures nothing { result ≡ 5 → Keeps (K.held sink.old) (K.held sink.new) }
{
    bulk_is_a_script(sessions);
    bulk_has_its_sessions(sessions);
    bulk_has_no_poller_fault(sessions);
    let Ok(text) = bulk_script(alloc, sessions) else {
        return status::OUT_OF_MEMORY;
    };
    match Scene::from_script(alloc, text.as_slice(), ScriptForm::Play) {
        Ok(played) => {
            // The scene has what it needs of the text, whose memory the record can use.
            mem::drop(text);
            perform(alloc, sink, Report::Summary(sessions), played)
        }
        Err(ScriptError::Refused { .. }) => unreachable!(),
        Err(ScriptError::OutOfMemory) => status::OUT_OF_MEMORY,
    }
}

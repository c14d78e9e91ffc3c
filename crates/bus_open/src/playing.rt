//! Playing a script: its sessions are opened over its scene, and the endings and the events are written.

ghost use Rattle.std.specs.Prelude.{◌≡◌, ◌≢◌, ◌≤◌, ◌<◌, ◌^◌, ◌⊎◌, [], ℕ, List, length, true, false, Some, Err};
ghost use Rattle.std.specs.List.{list_all};
ghost use Rattle.std.specs.Io.KnownBytes.{Appends, Keeps};
ghost use Rattle.react_core.specs.Told.{Rose};
ghost use Rattle.react_core.specs.declared.outside.Event.{Event};
ghost use Rattle.react_core.specs.declared.outside.Rooms.TheVariants as rooms;
ghost use Rattle.bus_script.specs.Script.{Script, Refused, script};
ghost use Rattle.std.specs.Prelude.{IfOk, string_bytes};
ghost use Rattle.bus_script.specs.Printed.{printed, refusal};
ghost use Rattle.bus_session.specs.declared.ended.Ended.{Ended};
ghost use Rattle.bus_printed.specs.Names.{Names};
ghost use Rattle.bus_open.specs.Streams.{GainsFront, GainsOrFails, LosesFront};
ghost use Rattle.bus_open.specs.Run.{ComesTo, Plays, Reads, PollerFails, ScriptFails, RefusesScript, RunsOut};
ghost use Rattle.bus_open.specs.Run.{ScriptRunsOut};
ghost use Rattle.bus_open.specs.Run.{all_open, reported};
ghost use Rattle.bus_script.specs.declared.reading.ScriptForm.TheVariants as forms;

use crate::endings::{LONGEST_SCRIPT, MOST_REPORTS, status_of, write_endings};
use crate::refusal::refuse;
use crate::status;
use crate::stream::{Sink, Source};
use crate::whole::{ReadError, read_all};
use bus_bulk::summary;
use bus_peers::{Ended, Played, Scene, ScriptError, ScriptForm, open_all};
use bus_printed::names_alone;
use bus_script::printed;
use react_core::outside::{Event, OutOfMemory};
use react_core::reactor::Reactor;
use std::alloc::Global;
use std::mem;

/// What is written of the sessions that were opened.
#[derive(Clone, Copy, Debug)]
pub(crate) enum Report {
    /// A line for each session and one for each event.
    Whole,
    /// One line that sums so many sessions up.
    Summary(u32),
}

fn report_text(
    alloc: Global,
    report: Report,
    endeds: &[Ended],
    events: &[Event],
) -> Result<String, OutOfMemory>
    ensures { IfOk result (λ text. string_bytes text ≡ reported report endeds.now events.now) }
{
    match report {
        Report::Whole => Ok(printed(alloc, endeds, events)?),
        Report::Summary(sessions) => summary(alloc, sessions, endeds),
    }
}

/// Writes what is to be written of the endings and the events.
fn write_report<K: Sink>(
    alloc: Global,
    sink: &mut K,
    report: Report,
    endeds: &[Ended],
    events: &[Event],
) -> u8
    ensures status { (result ≡ 0) ⊎ (result ≡ 1) ⊎ (result ≡ 4) ⊎ (result ≡ 5) }
    ensures all_open { result ≡ 0 →
        (all_open endeds.now ≡ true)
        × Appends (K.held sink.old) (K.held sink.new) (reported report endeds.now events.now) }
    ensures other { result ≡ 1 →
        (all_open endeds.now ≡ false)
        × Appends (K.held sink.old) (K.held sink.new) (reported report endeds.now events.now) }
    ensures failed { result ≡ 4 →
        Rose (K.write_faults sink.old) (K.write_faults sink.new)
        × GainsFront (K.held sink.old) (K.held sink.new) (reported report endeds.now events.now) }
    ensures nothing { result ≡ 5 → Keeps (K.held sink.old) (K.held sink.new) }
    ensures named { Names (printed endeds.now events.now) endeds.now events.now }
{
    names_alone(endeds, events);
    let Ok(text) = report_text(alloc, report, endeds, events) else {
        return status::OUT_OF_MEMORY;
    };
    write_endings(sink, endeds, text.as_str())
}

/// Opens the sessions of a script over its scene, and writes what is to be written of them.
pub(crate) fn perform<K: Sink>(alloc: Global, sink: &mut K, wanted: Report, played: Played) -> u8
    requires new { played.scene.told ≡ [] }
    requires unwaited { played.scene.rooms ≡ rooms.Unwaited }
    requires few { length played.sessions.items < 2 ^ 32 }
    ensures status { (result ≡ 0) ⊎ (result ≡ 1) ⊎ (result ≡ 4) ⊎ (result ≡ 5) ⊎ (result ≡ 6) ⊎ (result ≡ 7) }
    ensures opened { result ≡ 0 →
        (endeds : List Ended) × (r : List Event)
        × ComesTo played.scene.script played.sessions.items played.rounds endeds r × (all_open endeds ≡ true)
        × Appends (K.held sink.old) (K.held sink.new) (reported wanted endeds r) }
    ensures other { result ≡ 1 →
        (endeds : List Ended) × (r : List Event)
        × ComesTo played.scene.script played.sessions.items played.rounds endeds r × (all_open endeds ≡ false)
        × Appends (K.held sink.old) (K.held sink.new) (reported wanted endeds r) }
    ensures failed { result ≡ 4 →
        (endeds : List Ended) × (r : List Event)
        × ComesTo played.scene.script played.sessions.items played.rounds endeds r
        × Rose (K.write_faults sink.old) (K.write_faults sink.new)
        × GainsFront (K.held sink.old) (K.held sink.new) (reported wanted endeds r) }
    ensures nothing { result ≡ 5 → Keeps (K.held sink.old) (K.held sink.new) }
    ensures poller { result ≡ 6 →
        PollerFails played.scene.script played.sessions.items played.rounds
        × Keeps (K.held sink.old) (K.held sink.new) }
    ensures exhausted { result ≡ 7 →
        RunsOut played.scene.script played.sessions.items played.tick played.timer played.rounds
        × Keeps (K.held sink.old) (K.held sink.new) }
{
    let Played {
        mut scene,
        sessions,
        rounds,
        tick,
        timer,
    } = played;
    let Ok(mut reactor) = Reactor::starting_at(alloc, MOST_REPORTS, tick, timer) else {
        return status::OUT_OF_MEMORY;
    };
    let opened = open_all(alloc, &mut reactor, &mut scene, sessions, rounds);
    let events = scene.events();
    match opened {
        Ok(endeds) => write_report(alloc, sink, wanted, endeds.as_slice(), events),
        Err(refusal) => status_of(refusal),
    }
}

/// Reads a script, opens its sessions over its scene, and writes the endings and the events.
pub(crate) fn play<S: Source, K: Sink>(alloc: Global, source: &mut S, sink: &mut K) -> u8
    ensures status { result ≤ 7 }

    // Every session of the script is open.
    ensures opened { result ≡ 0 →
        (endeds : List Ended) × (r : List Event) × Plays (S.left source.old) (S.left source.new) endeds r
        × (all_open endeds ≡ true) × Appends (K.held sink.old) (K.held sink.new) (printed endeds r) }

    // Some session ended otherwise.
    ensures other { result ≡ 1 →
        (endeds : List Ended) × (r : List Event) × Plays (S.left source.old) (S.left source.new) endeds r
        × (all_open endeds ≡ false) × Appends (K.held sink.old) (K.held sink.new) (printed endeds r) }

    // The script is refused; the line is written as far as the sink takes it.
    ensures refused { result ≡ 2 →
        (refused : Refused) × RefusesScript forms.Play (S.left source.old) (S.left source.new) refused
        × GainsOrFails (K.held sink.old) (K.held sink.new) (K.write_faults sink.old) (K.write_faults sink.new)
        (refusal refused.line refused.reason) }

    // A script that the source holds, and that is none, is refused, where neither the source nor memory fails.
    ensures refused_script { (text : List ℕ) (refused : Refused) →
        S.left source.old ≡ Some text → script forms.Play text ≡ Err refused →
        (result ≡ 2) ⊎ (result ≡ 3) ⊎ (result ≡ 5) }

    // The source failed, and nothing was written.
    ensures read_fault { result ≡ 3 →
        Rose (S.read_faults source.old) (S.read_faults source.new)
        × LosesFront (S.left source.old) (S.left source.new) × Keeps (K.held sink.old) (K.held sink.new) }

    // The sink failed while the results were written, and gained a first part of them.
    ensures write_fault { result ≡ 4 →
        (endeds : List Ended) × (r : List Event) × Plays (S.left source.old) (S.left source.new) endeds r
        × Rose (K.write_faults sink.old) (K.write_faults sink.new)
        × GainsFront (K.held sink.old) (K.held sink.new) (printed endeds r) }

    // Memory ran out, and nothing was written.
    ensures memory { result ≡ 5 → Keeps (K.held sink.old) (K.held sink.new) }

    // A call of the poller failed, as an answer of the script has it, and nothing was written.
    ensures poller { result ≡ 6 →
        (s : Script) × Reads forms.Play (S.left source.old) (S.left source.new) s
        × ScriptFails s × Keeps (K.held sink.old) (K.held sink.new) }

    // The numbers of the rounds or of the timers ran out, and nothing was written.
    ensures exhausted { result ≡ 7 →
        (s : Script) × Reads forms.Play (S.left source.old) (S.left source.new) s
        × ScriptRunsOut s × Keeps (K.held sink.old) (K.held sink.new) }
    ensures complete { ¬ Rose (S.read_faults source.old) (S.read_faults source.new) →
        ¬ Rose (K.write_faults sink.old) (K.write_faults sink.new) →
        (result ≡ 0) ⊎ (result ≡ 1) ⊎ (result ≡ 2) ⊎ (result ≡ 5) ⊎ (result ≡ 6) ⊎ (result ≡ 7) }
    ensures read_faults { result ≢ 3 → S.read_faults source.new ≡ S.read_faults source.old }
{
    let text = match read_all(alloc, source, LONGEST_SCRIPT) {
        Ok(text) => text,
        Err(ReadError::Failed) => return status::READ_FAULT,
        Err(ReadError::OutOfMemory) => return status::OUT_OF_MEMORY,
    };
    match Scene::from_script(alloc, text.as_slice(), ScriptForm::Play) {
        Ok(played) => {
            // The scene has what it needs of the text, whose memory the record can use.
            mem::drop(text);
            perform(alloc, sink, Report::Whole, played)
        }
        Err(ScriptError::Refused { line, reason }) => refuse(alloc, sink, line, reason),
        Err(ScriptError::OutOfMemory) => status::OUT_OF_MEMORY,
    }
}

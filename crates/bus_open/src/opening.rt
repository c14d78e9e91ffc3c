//! Opening the sessions of a script over the real outside: the endings are written.

ghost use Rattle.std.specs.Prelude.{◌≡◌, ◌≢◌, ◌≤◌, ◌<◌, ◌^◌, ◌⊎◌, [], ℕ, List, length, true, false, Some, Err};
ghost use Rattle.std.specs.List.{list_all};
ghost use Rattle.std.specs.Io.KnownBytes.{Appends, Keeps};
ghost use Rattle.react_core.specs.Told.{Rose};
ghost use Rattle.bus_script.specs.Script.{Refused, script};
ghost use Rattle.bus_script.specs.Printed.{session_lines, refusal};
ghost use Rattle.bus_script.specs.declared.reading.ScriptForm.TheVariants as forms;
ghost use Rattle.bus_session.specs.declared.ended.Ended.{Ended};
ghost use Rattle.bus_printed.specs.Names.{Names};
ghost use Rattle.bus_open.specs.Streams.{GainsFront, GainsOrFails, LosesFront};
ghost use Rattle.bus_open.specs.Run.{all_open, Opens, OpensTo, OpeningFails, OpeningScriptFails, RefusesScript};
ghost use Rattle.bus_open.specs.Run.{KeepsOutside};

use crate::endings::{LONGEST_SCRIPT, MOST_REPORTS, status_of, write_endings};
use crate::refusal::refuse;
use crate::status;
use crate::stream::{Sink, Source};
use crate::whole::{ReadError, read_all};
use bus_peers::{Ended, ScriptError, ScriptForm, Session, open_all};
use bus_printed::names_alone;
use bus_script::{printed, read};
use react_core::outside::Outside;
use react_core::reactor::Reactor;
use std::alloc::Global;

/// Writes the endings.
#[tactic(auto, using(crate::proofs::OverReal::no_events, crate::proofs::OverReal::named_alone))]
fn report<K: Sink>(alloc: Global, sink: &mut K, endeds: &[Ended]) -> u8
    ensures status { (result ≡ 0) ⊎ (result ≡ 1) ⊎ (result ≡ 4) ⊎ (result ≡ 5) }
    ensures all_open { result ≡ 0 →
        (all_open endeds.now ≡ true) × Appends (K.held sink.old) (K.held sink.new) (session_lines endeds.now) }
    ensures other { result ≡ 1 →
        (all_open endeds.now ≡ false) × Appends (K.held sink.old) (K.held sink.new) (session_lines endeds.now) }
    ensures failed { result ≡ 4 →
        Rose (K.write_faults sink.old) (K.write_faults sink.new)
        × GainsFront (K.held sink.old) (K.held sink.new) (session_lines endeds.now) }
    ensures nothing { result ≡ 5 → Keeps (K.held sink.old) (K.held sink.new) }
    ensures named { Names (session_lines endeds.now) endeds.now [] }
{
    names_alone(endeds, &[]);
    let Ok(text) = printed(alloc, endeds, &[]) else {
        return status::OUT_OF_MEMORY;
    };
    write_endings(sink, endeds, text.as_str())
}

/// Opens the sessions over the real outside, and writes how they ended.
#[tactic(auto, using(crate::proofs::OverReal::kept, crate::proofs::OverReal::kept_with))]
fn perform<K: Sink, O: Outside>(
    alloc: Global,
    sink: &mut K,
    real: &mut O,
    sessions: Vec<Session>,
    rounds: u64,
) -> u8
    requires few { length sessions.items < 2 ^ 32 }
    ensures status { (result ≡ 0) ⊎ (result ≡ 1) ⊎ (result ≡ 4) ⊎ (result ≡ 5) ⊎ (result ≡ 6) }
    ensures opened { result ≡ 0 →
        (endeds : List Ended) × OpensTo (O.outer real.old) (O.outer real.new) sessions.items rounds endeds
        × (all_open endeds ≡ true) × Names (session_lines endeds) endeds []
        × Appends (K.held sink.old) (K.held sink.new) (session_lines endeds) }
    ensures other { result ≡ 1 →
        (endeds : List Ended) × OpensTo (O.outer real.old) (O.outer real.new) sessions.items rounds endeds
        × (all_open endeds ≡ false) × Names (session_lines endeds) endeds []
        × Appends (K.held sink.old) (K.held sink.new) (session_lines endeds) }
    ensures failed { result ≡ 4 →
        (endeds : List Ended) × OpensTo (O.outer real.old) (O.outer real.new) sessions.items rounds endeds
        × Names (session_lines endeds) endeds [] × Rose (K.write_faults sink.old) (K.write_faults sink.new)
        × GainsFront (K.held sink.old) (K.held sink.new) (session_lines endeds) }
    ensures nothing { result ≡ 5 → Keeps (K.held sink.old) (K.held sink.new) }
    ensures poller { result ≡ 6 →
        OpeningFails (O.outer real.old) (O.outer real.new) sessions.items rounds
        × Keeps (K.held sink.old) (K.held sink.new) }
    ensures keeps { KeepsOutside (O.outer real.old) (O.outer real.new) }
{
    let Ok(mut reactor) = Reactor::starting_at(alloc, MOST_REPORTS, 0, 0) else {
        return status::OUT_OF_MEMORY;
    };
    match open_all(alloc, &mut reactor, real, sessions, rounds) {
        Ok(endeds) => report(alloc, sink, endeds.as_slice()),
        Err(refusal) => status_of(refusal),
    }
}

/// Reads a script of sessions alone, opens them over the real outside, and writes how they ended.
#[tactic(auto, using(crate::proofs::OverReal::kept, crate::proofs::OverReal::few_parts))]
pub(crate) fn open_script<S: Source, K: Sink, O: Outside>(
    alloc: Global,
    source: &mut S,
    sink: &mut K,
    real: &mut O,
) -> u8
    ensures status { result ≤ 6 }

    // Every session of the script is open.
    ensures opened { result ≡ 0 →
        (endeds : List Ended)
        × Opens (S.left source.old) (S.left source.new) (O.outer real.old) (O.outer real.new) endeds
        × (all_open endeds ≡ true) × Names (session_lines endeds) endeds []
        × Appends (K.held sink.old) (K.held sink.new) (session_lines endeds) }

    // Some session ended otherwise.
    ensures other { result ≡ 1 →
        (endeds : List Ended)
        × Opens (S.left source.old) (S.left source.new) (O.outer real.old) (O.outer real.new) endeds
        × (all_open endeds ≡ false) × Names (session_lines endeds) endeds []
        × Appends (K.held sink.old) (K.held sink.new) (session_lines endeds) }

    // The script is refused; the line is written as far as the sink takes it.
    ensures refused { result ≡ 2 →
        (refused : Refused) × RefusesScript forms.Open (S.left source.old) (S.left source.new) refused
        × GainsOrFails (K.held sink.old) (K.held sink.new) (K.write_faults sink.old) (K.write_faults sink.new)
        (refusal refused.line refused.reason) }

    // A script that the source holds, and that is none, is refused, where neither the source nor memory fails.
    ensures refused_script { (text : List ℕ) (refused : Refused) →
        S.left source.old ≡ Some text → script forms.Open text ≡ Err refused →
        (result ≡ 2) ⊎ (result ≡ 3) ⊎ (result ≡ 5) }

    // The source failed, and nothing was written.
    ensures read_fault { result ≡ 3 →
        Rose (S.read_faults source.old) (S.read_faults source.new)
        × LosesFront (S.left source.old) (S.left source.new) × Keeps (K.held sink.old) (K.held sink.new) }

    // The sink failed while the results were written, and gained a first part of them.
    ensures write_fault { result ≡ 4 →
        (endeds : List Ended)
        × Opens (S.left source.old) (S.left source.new) (O.outer real.old) (O.outer real.new) endeds
        × Names (session_lines endeds) endeds [] × Rose (K.write_faults sink.old) (K.write_faults sink.new)
        × GainsFront (K.held sink.old) (K.held sink.new) (session_lines endeds) }

    // Memory ran out, and nothing was written.
    ensures memory { result ≡ 5 → Keeps (K.held sink.old) (K.held sink.new) }

    // A call of the real poller failed, and nothing was written.
    ensures poller { result ≡ 6 →
        OpeningScriptFails (S.left source.old) (S.left source.new) (O.outer real.old) (O.outer real.new)
        × Keeps (K.held sink.old) (K.held sink.new) }
    ensures complete { ¬ Rose (S.read_faults source.old) (S.read_faults source.new) →
        ¬ Rose (K.write_faults sink.old) (K.write_faults sink.new) →
        (result ≡ 0) ⊎ (result ≡ 1) ⊎ (result ≡ 2) ⊎ (result ≡ 5) ⊎ (result ≡ 6) }
    ensures read_faults { result ≢ 3 → S.read_faults source.new ≡ S.read_faults source.old }
    ensures unopened { (result ≡ 2) ⊎ (result ≡ 3) → real.new ≡ real.old }
    ensures keeps { KeepsOutside (O.outer real.old) (O.outer real.new) }
{
    let text = match read_all(alloc, source, LONGEST_SCRIPT) {
        Ok(text) => text,
        Err(ReadError::Failed) => return status::READ_FAULT,
        Err(ReadError::OutOfMemory) => return status::OUT_OF_MEMORY,
    };
    match read(alloc, text.as_slice(), ScriptForm::Open) {
        Ok(script) => {
            let parts = script.into_parts();
            perform(alloc, sink, real, parts.sessions, parts.rounds)
        }
        Err(ScriptError::Refused { line, reason }) => refuse(alloc, sink, line, reason),
        Err(ScriptError::OutOfMemory) => status::OUT_OF_MEMORY,
    }
}

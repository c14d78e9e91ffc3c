//! The program: words and what they ask to be read in, results and a status out.

ghost use Rattle.std.specs.Prelude.{◌≡◌, ◌≢◌, ◌≤◌, ◌⊎◌, ℕ, Bool, List, length, true, false, map, string_bytes};
ghost use Rattle.std.specs.Prelude.{Some, Ok, Err};
ghost use Rattle.std.specs.Io.KnownBytes.{Appends, Keeps};
ghost use Rattle.react_core.specs.Told.{Rose};
ghost use Rattle.bus_script.specs.Script.{Script, Refused, script};
ghost use Rattle.bus_script.specs.Printed.{refusal};
ghost use Rattle.bus_script.specs.declared.line.Reason.{Reason};
ghost use Rattle.bus_open.specs.Streams.{GainsFront, GainsOrFails, LosesFront};
ghost use Rattle.bus_open.specs.Commands.{asked};
ghost use Rattle.bus_open.specs.Run.{Results, Reads, ScriptRunsOut, IsRefused, HasPollerFailed, KeepsOutside};
ghost use Rattle.bus_open.specs.Run.{command_of};
ghost use Rattle.bus_script.specs.declared.reading.ScriptForm.{ScriptForm};
ghost use Rattle.bus_script.specs.declared.reading.ScriptForm.TheVariants as forms;
ghost use Rattle.bus_open.specs.declared.command.Command.TheVariants.{Play, Open};

use crate::bulk::run_bulk;
use crate::checking::check_text;
use crate::command::{Command, asked, checked_text};
use crate::opening::open_script;
use crate::playing::play;
use crate::refusal::refuse;
use crate::stream::{Sink, Source};
use react_core::outside::Outside;
use std::alloc::Global;

/// Runs the program on these words, and answers its status.
///
/// `play` reads a script from the source, opens its sessions over the scene that the script makes, and writes the
/// endings and the record of the events into the sink. `open` reads a script of sessions alone, opens them over the
/// real outside, and writes the endings. `bulk` makes a script of so many sessions, opens them as `play` does, and
/// writes one line that sums their endings up. `check` reads a text as one of its kind and writes what it is.
#[tactic(auto, using(crate::proofs::OverReal::kept))]
pub fn run<S: Source, K: Sink, O: Outside>(
    alloc: Global,
    words: &[String],
    source: &mut S,
    sink: &mut K,
    real: &mut O,
) -> u8
    ensures status { result ≤ 7 }

    // All is well: every session of the script is open, or the text is one of its kind.
    ensures well { result ≡ 0 →
        (text : List ℕ) × Results (map string_bytes words.now) (S.left source.old) (S.left source.new)
        (O.outer real.old) (O.outer real.new) true text × Appends (K.held sink.old) (K.held sink.new) text }

    // Some session ended otherwise, or the text is none of its kind.
    ensures other { result ≡ 1 →
        (text : List ℕ) × Results (map string_bytes words.now) (S.left source.old) (S.left source.new)
        (O.outer real.old) (O.outer real.new) false text × Appends (K.held sink.old) (K.held sink.new) text }

    // The words or the script are refused; the line is written as far as the sink takes it.
    ensures refused { result ≡ 2 →
        (refused : Refused) × IsRefused (map string_bytes words.now) (S.left source.old) (S.left source.new) refused
        × GainsOrFails (K.held sink.old) (K.held sink.new) (K.write_faults sink.old) (K.write_faults sink.new)
        (refusal refused.line refused.reason) }
    ensures refused_words { (reason : Reason) →
        asked (map string_bytes words.now) ≡ Err reason → (result ≡ 2) ⊎ (result ≡ 5) }

    // A script that the source holds, and that is none, is refused, where neither the source nor memory fails.
    ensures refused_script { (form : ScriptForm) (text : List ℕ) (refused : Refused) →
        asked (map string_bytes words.now) ≡ Ok (command_of form) → S.left source.old ≡ Some text →
        script form text ≡ Err refused →
        (result ≡ 2) ⊎ (result ≡ 3) ⊎ (result ≡ 5) }

    // The source failed, and nothing was written.
    ensures read_fault { result ≡ 3 →
        ((form : ScriptForm) × (asked (map string_bytes words.now) ≡ Ok (command_of form)))
        × Rose (S.read_faults source.old) (S.read_faults source.new)
        × LosesFront (S.left source.old) (S.left source.new) × Keeps (K.held sink.old) (K.held sink.new) }

    // The sink failed while the results were written, and gained a first part of them.
    ensures write_fault { result ≡ 4 →
        (well : Bool) × (text : List ℕ)
        × Results (map string_bytes words.now) (S.left source.old) (S.left source.new) (O.outer real.old)
        (O.outer real.new) well text × Rose (K.write_faults sink.old) (K.write_faults sink.new)
        × GainsFront (K.held sink.old) (K.held sink.new) text }

    // Memory ran out, and nothing was written.
    ensures memory { result ≡ 5 → Keeps (K.held sink.old) (K.held sink.new) }

    // A call of the poller failed: as an answer of the script has it, or a call of the real one, whose count rose. The
    // record is the script's up to that call and the removals behind it. Nothing was written.
    ensures poller { result ≡ 6 →
        HasPollerFailed (map string_bytes words.now) (S.left source.old) (S.left source.new) (O.outer real.old)
        (O.outer real.new) × Keeps (K.held sink.old) (K.held sink.new) }

    // The numbers of the rounds or of the timers ran out where one more was due, as only a script that is played has it.
    // Nothing was written.
    ensures exhausted { result ≡ 7 →
        (asked (map string_bytes words.now) ≡ Ok Play)
        × ((s : Script) × Reads forms.Play (S.left source.old) (S.left source.new) s
        × ScriptRunsOut s × Keeps (K.held sink.old) (K.held sink.new)) }

    // A run without a fault of its streams ends with the results, a refusal, want of memory, or as its script makes the
    // poller or the numbers of rounds or timers fail.
    ensures complete { ¬ Rose (S.read_faults source.old) (S.read_faults source.new) →
        ¬ Rose (K.write_faults sink.old) (K.write_faults sink.new) →
        (result ≡ 0) ⊎ (result ≡ 1) ⊎ (result ≡ 2) ⊎ (result ≡ 5) ⊎ (result ≡ 6) ⊎ (result ≡ 7) }
    ensures read_faults { result ≢ 3 → S.read_faults source.new ≡ S.read_faults source.old }

    // No other command touches the real outside, and `open` does only once it has a script.
    ensures untouched { asked (map string_bytes words.now) ≢ Ok Open → real.new ≡ real.old }
    ensures unopened { (result ≡ 2) ⊎ (result ≡ 3) → real.new ≡ real.old }
    ensures keeps { KeepsOutside (O.outer real.old) (O.outer real.new) }
{
    match asked(words) {
        Ok(Command::Play) => play(alloc, source, sink),
        Ok(Command::Open) => open_script(alloc, source, sink, real),
        Ok(Command::Check(kind)) => check_text(alloc, sink, kind, checked_text(words)),
        Ok(Command::Bulk(sessions)) => run_bulk(alloc, sink, sessions),
        Err(reason) => refuse(alloc, sink, 0, reason),
    }
}

//! The laws. A function does nothing: its contract is the law.

ghost use Rattle.std.specs.Prelude.{◌≡◌, ◌≤◌, length, Ok};
ghost use Rattle.bus_scene.specs.Plays.{HasNoPollerFault};
ghost use Rattle.bus_scene.specs.Queues.{queues};
ghost use Rattle.bus_script.specs.Script.{script};
ghost use Rattle.bus_script.specs.declared.reading.ScriptForm.TheVariants as forms;
ghost use Rattle.bus_bulk.specs.Bulk.{bulk, bulk_text};

/// The text that `bulk_script` makes is a script of `play`: reading it gives `bulk n`, and refuses no line of it.
#[tactic(auto, using(crate::proofs::Whole::is_script))]
pub fn bulk_is_a_script(n: u32)
    requires { n ≤ 10000 }
    ensures { script forms.Play (bulk_text n) ≡ Ok (bulk n) }
{}

/// The script has as many sessions as were asked for.
#[tactic(auto, using(crate::proofs::Whole::has_sessions))]
pub fn bulk_has_its_sessions(n: u32)
    ensures { length (bulk n).sessions ≡ n }
{}

/// The script answers no call of the poller with a fault.
pub fn bulk_has_no_poller_fault(n: u32)
    ensures { HasNoPollerFault (queues (length (bulk n).sessions) (bulk n).answers) }
{}

//! The law. A function does nothing: its contract is the law.

ghost use Rattle.std.specs.Prelude.{◌≡◌, List};
ghost use Rattle.react_core.specs.declared.outside.Event.{Event};
ghost use Rattle.bus_session.specs.declared.ended.Ended.{Ended};
ghost use Rattle.bus_script.specs.Printed.{printed};
ghost use Rattle.bus_printed.specs.Fits.{Fits};

/// The printed text of a run names one list of endings and one record: of two runs whose values fit their types, equal
/// texts have equal endings and equal events.
#[tactic(auto, using(crate::proofs::Runs::one_run))]
pub fn printed_names_one_run()
    ensures { (endeds endeds' : List Ended) (events events' : List Event) →
        Fits endeds events → Fits endeds' events' →
        printed endeds events ≡ printed endeds' events' → (endeds ≡ endeds') × (events ≡ events') }
{}

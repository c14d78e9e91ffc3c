//! What the printed text of a run says: one list of endings and one record of events, and no other.
//!
//! A run prints a line for each session, which says how its connection came out, and a line for each call of the
//! outside with its answer. So whoever has the text knows all endings and all events: no two are printed alike.
//!
//! [`printed_names_one_run`] is that law, for endings and events whose numbers lie within their types, whose bytes are
//! bytes and whose GUIDs are GUIDs. Those that a program holds are such, so [`names_alone`] says it of them.
#![tactic(auto)]

mod fits;
mod laws;

pub use fits::names_alone;
pub use laws::printed_names_one_run;

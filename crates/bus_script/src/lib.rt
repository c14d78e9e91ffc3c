//! Scripts: what the outside answers to the sessions of a run, as a text, and the text of what came of it.
//!
//! [`read`] says which script a text spells, or where and why it spells none. [`printed`] is the text of the endings
//! and of the events.
#![tactic(auto)]

mod forms;
mod line;
mod number;
mod print;
mod reading;
mod words;

pub use line::{Answer, Line, Readies, Ready, ReadySource, Reason, ScriptWait, Start};
pub use number::number_below;
pub use print::{EndedLine, EventLine, printed, refusal};
pub use reading::{Parts, Script, ScriptError, ScriptForm, read};

#[cfg(test)]
mod tests;

//! An outside in memory that follows a script.
#![tactic(auto)]

mod from_script;
mod queues;
mod scene;

pub use from_script::Played;
pub use queues::QueuedAnswers;
pub use scene::Scene;

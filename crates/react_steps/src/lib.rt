//! The machine of all parties: whichever steps they take, and in whichever order.
#![tactic(auto)]

pub mod armed;
pub mod kind;
mod machine;
mod place;
mod table;
pub mod world;

//! Type signatures of D-Bus messages: read, checked, printed, measured and compared by one grammar
//! (D-Bus specification, Type System).
#![tactic(auto)]

mod boxed;
mod building;
mod comparing;
mod error;
mod format;
mod items;
pub mod laws;
mod measuring;
mod printing;
mod reading;
mod signature;
mod validating;

pub use boxed::Boxed;
pub use error::{Error, InvalidSignature, OutOfMemory};
pub use format::Format;
pub use items::Items;
pub use signature::{Child, Fields, FieldsIter, Signature};
pub use validating::validate;

//! The names of the D-Bus: texts that are known to be valid (D-Bus specification, Valid Names).
//!
//! There are six kinds of single names, each lent and owned: [`UniqueName`], [`WellKnownName`],
//! [`InterfaceName`], [`MemberName`], [`PropertyName`] and [`ErrorName`]. They differ in their
//! grammar and in what a refusal says, and are one type, [`Name`], over a [`kind::Kind`].
//! A [`BusName`] is a unique or a well-known name.
//!
//! In contracts a single name is its text.
#![tactic(auto)]

mod bus_name;
mod error;
mod grammar;
pub mod kind;
pub mod laws;
mod name;
mod owned_name;

pub use bus_name::{BusName, OwnedBusName};
pub use error::Error;
pub use name::{
    ErrorName, InterfaceName, MemberName, Name, PropertyName, UniqueName, WellKnownName,
};
pub use owned_name::{
    OwnedErrorName, OwnedInterfaceName, OwnedMemberName, OwnedName, OwnedPropertyName,
    OwnedUniqueName, OwnedWellKnownName,
};

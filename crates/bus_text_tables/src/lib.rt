//! Worked tables of addresses, names and signatures, as tests over public calls alone.
//!
//! Each table checks what is defined against the formats themselves, and that calls succeed. They stand apart from the
//! crates below, so that these are proved once, and from `bus_tables`, so that a change of the reactor proves none of
//! them again. Nothing stands on this crate.
#![tactic(auto)]

#[cfg(test)]
mod address;
#[cfg(test)]
mod names;
#[cfg(test)]
mod signature;

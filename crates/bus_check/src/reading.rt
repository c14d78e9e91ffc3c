//! Reading a text as one of its kind, and saying what it is.

ghost use Rattle.std.specs.Prelude.{◌≡◌, ℕ, List, IfOk, true, false, string_bytes, codes};
ghost use Rattle.bus_check.specs.Says.{Says, SignatureSays, AddressSays, BusNameSays, NameSays, refused_line};

use crate::kind::Kind;
use bus_address::{Address, AddressError};
use bus_names::{
    BusName, ErrorName, InterfaceName, MemberName, PropertyName, UniqueName, WellKnownName,
};
use bus_signature::{Error, Format, Signature};
use std::alloc::{AllocError, Global};
use std::convert::TryFrom;

/// What a text was found to be.
#[derive(Debug, Drop)]
pub struct Checked {
    /// Whether the text is one of its kind.
    pub is_accepted: bool,
    /// What it is or why it is none, and a line feed.
    pub line: String,
}

fn accepted(line: String) -> Checked
    ensures { (result.is_accepted ≡ true) × (string_bytes result.line ≡ string_bytes line) }
{
    Checked {
        is_accepted: true,
        line,
    }
}

fn refused(line: String) -> Checked
    ensures { (result.is_accepted ≡ false) × (string_bytes result.line ≡ string_bytes line) }
{
    Checked {
        is_accepted: false,
        line,
    }
}

fn check_signature(alloc: Global, text: &str) -> Result<Checked, AllocError>
    ensures says { IfOk result (λ c. SignatureSays text.now c.is_accepted (string_bytes c.line)) }
{
    match Signature::from_str(alloc, text) {
        Ok(signature) => {
            let length = signature.string_len();
            let alignment = signature.alignment(Format::DBus);
            let line = format!(in alloc; "ok {signature} {length} {alignment}\n")?;
            Ok(accepted(line))
        }
        Err(Error::InvalidSignature) => {
            let line = format!(in alloc; "refused InvalidSignature\n")?;
            Ok(refused(line))
        }
        Err(Error::OutOfMemory) => Err(AllocError),
    }
}

fn check_address(alloc: Global, text: &str) -> Result<Checked, AllocError>
    ensures says { IfOk result (λ c. AddressSays text.now c.is_accepted (string_bytes c.line)) }
{
    match Address::from_str(alloc, text) {
        Ok(address) => {
            let line = format!(in alloc; "ok {address}\n")?;
            Ok(accepted(line))
        }
        Err(AddressError::Kind(kind)) => {
            let line = format!(in alloc; "refused {kind}\n")?;
            Ok(refused(line))
        }
        Err(AddressError::OutOfMemory) => Err(AllocError),
    }
}

/// The line of a name of one kind alone.
fn name_line(alloc: Global, is_name: bool) -> Result<Checked, AllocError>
    ensures accepted { IfOk result (λ c. c.is_accepted ≡ is_name) }
    ensures ok { is_name ≡ true → IfOk result (λ c. string_bytes c.line ≡ codes "ok\n") }
    ensures refused { is_name ≡ false → IfOk result (λ c. string_bytes c.line ≡ refused_line (codes "InvalidName")) }
{
    if is_name {
        Ok(accepted(format!(in alloc; "ok\n")?))
    } else {
        Ok(refused(format!(in alloc; "refused InvalidName\n")?))
    }
}

fn check_bus_name(alloc: Global, text: &str) -> Result<Checked, AllocError>
    ensures says { IfOk result (λ c. BusNameSays text.now c.is_accepted (string_bytes c.line)) }
{
    match BusName::try_from(text) {
        Ok(BusName::Unique(_)) => Ok(accepted(format!(in alloc; "ok unique\n")?)),
        Ok(BusName::WellKnown(_)) => Ok(accepted(format!(in alloc; "ok well-known\n")?)),
        Err(_) => name_line(alloc, false),
    }
}

/// Reads the text as one of its kind. None where memory ran out.
///
/// The line is `ok` and what the text is: the printed text of an address; that of a signature, its length in bytes and
/// the alignment of its values in bytes; whether a bus name is unique or well-known; nothing more of other names. Of a
/// text that is none of its kind it is `refused`, and why.
pub fn check(alloc: Global, kind: Kind, text: &str) -> Result<Checked, AllocError>
    ensures says { IfOk result (λ c. Says kind text.now c.is_accepted (string_bytes c.line)) }
{
    match kind {
        Kind::Signature => check_signature(alloc, text),
        Kind::Address => check_address(alloc, text),
        Kind::BusName => check_bus_name(alloc, text),
        Kind::UniqueName => name_line(alloc, UniqueName::is_valid(text)),
        Kind::WellKnownName => name_line(alloc, WellKnownName::is_valid(text)),
        Kind::InterfaceName => name_line(alloc, InterfaceName::is_valid(text)),
        Kind::MemberName => name_line(alloc, MemberName::is_valid(text)),
        Kind::PropertyName => name_line(alloc, PropertyName::is_valid(text)),
        Kind::ErrorName => name_line(alloc, ErrorName::is_valid(text)),
    }
}

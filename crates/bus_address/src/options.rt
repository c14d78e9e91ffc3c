//! The keys of an address and their values.

ghost use Rattle.std.specs.Prelude.{◌≡◌, ◌==◌, ℕ, List, Some, None, Ok, IfOk, IfErr};
ghost use Rattle.std.specs.Prelude.{OnOk, map, length, IsSomeAnd, ok_or, if◌then◌else◌};
ghost use Rattle.std.specs.Option.{option_copied, option_map};
ghost use Rattle.std.specs.List.{list_all, slice_split};
ghost use Rattle.std.specs.Char.{is_ascii_alphanumeric};
ghost use Rattle.std.specs.Str.{bytes_eq};
ghost use Rattle.bus_address.specs.Entries.{is_key, entry, parts, entries, entries_of, transport_and_rest, value_of};
ghost use Rattle.bus_address.specs.Errors.{Refuses};
ghost use Rattle.bus_address.specs.Lookups.{found};

use crate::error::{AddressError, AddressKind};
use std::alloc::{AllocError, Global};
use std::collections::BTreeMap;

/// The name of the transport, and what follows the first colon.
pub(crate) fn transport_and_rest(text: &str) -> Option<(&str, &str)>
    ensures { option_map (λ cut. (cut.0.now, cut.1.now)) result ≡ transport_and_rest text.now }
{
    let (name, rest) = text.split_once(':')?;
    if name.is_empty() {
        return None;
    }
    Some((name, rest))
}

/// Whether a text is one or more letters and digits.
fn is_key(key: &str) -> bool
    ensures { result ≡ is_key key.now }
{
    if key.is_empty() {
        return false;
    }
    is_alphanumeric(key.as_bytes())
}

fn is_alphanumeric(key: &[u8]) -> bool
    ensures { result ≡ list_all is_ascii_alphanumeric key.now }
{
    key.iter().all(|byte| byte.is_ascii_alphanumeric())
}

/// The key and the value of `key=value`.
fn entry(text: &str) -> Option<(&str, &str)>
    ensures { option_map (λ cut. (cut.0.now, cut.1.now)) result ≡ entry text.now }
{
    let (key, value) = text.split_once('=')?;
    if !is_key(key) {
        return None;
    }
    if value.is_empty() {
        return None;
    }
    Some((key, value))
}

fn comma_parts(alloc: Global, text: &str) -> Result<Vec<&str>, AllocError>
    ensures { IfOk result (λ v. map (λ x. x.now) v.items ≡ slice_split (λ b. b == 44) text.now) }
{
    text.split(',').collect(alloc)
}

/// The parts of a text between its commas. An empty text has none.
#[tactic(auto, using(crate::proofs::EntryLemmas::parts_none, crate::proofs::EntryLemmas::parts_some))]
fn parts(alloc: Global, text: &str) -> Result<Vec<&str>, AllocError>
    ensures { IfOk result (λ v. map (λ x. x.now) v.items ≡ parts text.now) }
{
    if text.is_empty() {
        return Ok(Vec::new(alloc));
    }
    comma_parts(alloc, text)
}

/// The values of an address by their keys.
#[derive(Drop)]
pub(crate) struct Options<'a> {
    values: BTreeMap<&'a str, &'a str>,
}

impl<'a> Options<'a> {
    fn new(alloc: Global) -> Options<'a>
        ensures { (key : List ℕ) → found result.values key ≡ None }
    {
        Options {
            values: BTreeMap::new(alloc),
        }
    }

    /// Sets the value of a key, in place of the one it had.
    fn insert(&mut self, key: &'a str, value: &'a str) -> Result<(), AddressError>
        ensures ok { OnOk result
            ((asked : List ℕ)
            → found self.new.values asked
            ≡ (if bytes_eq key.now asked then Some value.now else found self.old.values asked)) }
        ensures err { IfErr result (λ e. e ≡ AddressError.OutOfMemory) }
    {
        self.values.insert(key, value)?;
        Ok(())
    }

    /// The value of a key.
    pub fn get(&self, key: &str) -> Option<&'a str>
        ensures { option_copied result ≡ found self.now.values key.now }
    {
        self.values.get(key).copied()
    }

    /// Reads keys with their values, parted by commas. Of equal keys the last counts.
    pub fn read(alloc: Global, text: &'a str) -> Result<Options<'a>, AddressError>
        ensures ok { IfOk result
            (λ options.
            IsSomeAnd (entries text.now) (λ es. (key : List ℕ) → found options.values key ≡ value_of es key)) }
        ensures err { IfErr result (λ e. Refuses e (ok_or (entries text.now) AddressKind.Form)) }
    {
        let parts = parts(alloc, text)?;
        let mut options = Options::new(alloc);
        for part in &parts {
            match entry(part) {
                None => return Err(AddressError::Kind(AddressKind::Form)),
                Some((key, value)) => options.insert(key, value)?,
            }
        }
        Ok(options)
    }
}

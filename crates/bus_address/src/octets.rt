//! Bytes that an address holds.

ghost use Rattle.std.specs.Prelude.{◌≡◌, nat_eq, map, IsTrue};
ghost use Rattle.std.specs.List.{list_all};
ghost use Rattle.std.specs.Option.{option_copied};
ghost use Rattle.std.specs.Cmp.Lexicographic.{pointwise};
ghost use Rattle.std.specs.Cmp.Rules.{comparing};
ghost use Rattle.std.proofs.Common.{rules};
ghost use Rattle.bus_address.specs.ReadBack.{has_bytes, has_bytes_if_some, IsValue, IsOptionalValue, AreValues};

use std::marker::Model;

/// A string of bytes, as a path or a name, which contracts see as the list of its bytes.
#[derive(Debug, Drop)]
pub struct Octets {
    bytes: Vec<u8>,
}

impl Model for Octets {
    ghost use Rattle.std.specs.Prelude.{ℕ, List};

    ghost Value = { List ℕ };

    ghost view = { λ o. o.bytes.items };
}

impl Octets {
    /// The bytes of a vector.
    pub fn from_vec(v: Vec<u8>) -> Octets
        ensures { result ≡ v.items }
    {
        Octets { bytes: v }
    }

    /// The bytes.
    pub fn as_slice(&self) -> &[u8]
        ensures { result.now ≡ self.now }
    {
        self.bytes.as_slice()
    }

    /// The bytes, as a vector.
    pub fn into_vec(self) -> Vec<u8>
        ensures { result.items ≡ self }
    {
        self.bytes
    }
}

impl PartialEq for Octets {
    ghost eq = { pointwise nat_eq };

    ghost laws = { Prim.search (comparing, rules) };

    fn eq(&self, other: &Octets) -> bool {
        self.as_slice() == other.as_slice()
    }
}

impl Eq for Octets {
    ghost laws = { Prim.search (comparing, rules) };
}

/// Strings of bytes in order, which contracts see as a list of lists.
#[derive(Debug, Drop)]
pub(crate) struct OctetList {
    items: Vec<Vec<u8>>,
}

impl Model for OctetList {
    ghost use Rattle.std.specs.Prelude.{ℕ, List, map};

    ghost Value = { List (List ℕ) };

    ghost view = { λ l. map (λ v. v.items) l.items.items };
}

impl OctetList {
    pub fn from_vec(items: Vec<Vec<u8>>) -> OctetList
        ensures { result ≡ map (λ v. v.items) items.items }
    {
        OctetList { items }
    }

    pub fn as_slice(&self) -> &[Vec<u8>]
        ensures { map (λ v. v.items) result.now ≡ self.now }
    {
        self.items.as_slice()
    }
}

impl PartialEq for OctetList {
    ghost eq = { pointwise (pointwise nat_eq) };

    ghost laws = { Prim.search (comparing, rules) };

    fn eq(&self, other: &OctetList) -> bool {
        self.as_slice() == other.as_slice()
    }
}

impl Eq for OctetList {
    ghost laws = { Prim.search (comparing, rules) };
}

/// Whether there are bytes, so that a key can have them as its value.
pub(crate) fn has_bytes(bytes: &[u8]) -> bool
    ensures value { result ≡ has_bytes bytes.now }
    ensures readable { IsTrue result → IsValue bytes.now }
{
    !bytes.is_empty()
}

/// Whether there are bytes in what is there.
pub(crate) fn has_bytes_if_some(bytes: Option<&[u8]>) -> bool
    ensures value { result ≡ has_bytes_if_some (option_copied bytes.entry) }
    ensures readable { IsTrue result → IsOptionalValue (option_copied bytes.entry) }
{
    match bytes {
        Some(bytes) => has_bytes(bytes),
        None => true,
    }
}

/// Whether each string has bytes.
pub(crate) fn all_have_bytes(all: &[Vec<u8>]) -> bool
    ensures value { result ≡ list_all has_bytes (map (λ v. v.items) all.now) }
    ensures readable { IsTrue result → AreValues (map (λ v. v.items) all.now) }
{
    for bytes in all {
        if !has_bytes(bytes.as_slice()) {
            return false;
        }
    }
    true
}

//! What holds of signatures beyond single calls: equality, order, hashes, and reading back what was printed.

ghost use Rattle.std.specs.Prelude.{◌≡◌, ◌↔◌, IsTrue, Some, fold};
ghost use Rattle.std.specs.declared.cmp.Ordering.TheVariants.{Equal};
ghost use Rattle.bus_signature.specs.declared.signature.Signature.{Signature};
ghost use Rattle.bus_signature.specs.Grammar.{complete, AreComplete, IsReadable, ReadAs};
ghost use Rattle.bus_signature.specs.Feeding.{feed};
ghost use Rattle.bus_signature.specs.Order.{IsSignatureOrder};

use crate::error::Error;
use crate::reading::MAX_DEPTH;
use crate::signature::Signature;
use std::alloc::Global;
use std::cmp::Ordering;
use std::hash::{Hash, Hasher};

/// `==` is `PartialEq`'s own test, and says true exactly for one value.
pub fn are_equal(a: &Signature, b: &Signature) -> bool
    ensures own { result ≡ ⟦<Signature as PartialEq>⟧.eq a.now b.now }
    ensures value { IsTrue result ↔ (a.now ≡ b.now) }
{
    *a == *b
}

/// `Ord`'s own order: total, by kind and then by what is inside, and `Equal` exactly where `==` holds.
pub fn order(a: &Signature, b: &Signature) -> Ordering
    ensures own { result ≡ ⟦<Signature as Ord>⟧.cmp a.now b.now }
    ensures order { IsSignatureOrder ⟦<Signature as Ord>⟧.cmp }
    ensures equal { (s t : Signature) →
        (⟦<Signature as Ord>⟧.cmp s t ≡ Equal) ↔ IsTrue (⟦<Signature as PartialEq>⟧.eq s t) }
{
    a.cmp(b)
}

/// `PartialOrd` answers what `Ord` does.
pub fn partial_order(a: &Signature, b: &Signature) -> Option<Ordering>
    ensures own { result ≡ ⟦<Signature as PartialOrd>⟧.partial_cmp a.now b.now }
    ensures order { result ≡ Some (⟦<Signature as Ord>⟧.cmp a.now b.now) }
{
    a.partial_cmp(b)
}

/// `Hash`'s own writes: the number of the signature's kind, and then what is inside. So equal signatures take hashers
/// in one state to one state.
pub fn hash_both<H: Hasher>(a: &Signature, b: &Signature, first: &mut H, second: &mut H)
    ensures own { (s : Signature) → ⟦<Signature as Hash>⟧.hash_input s ≡ feed s }
    ensures first { first.new ≡ fold H.write first.old (feed a.now) }
    ensures second { second.new ≡ fold H.write second.old (feed b.now) }
    ensures alike { a.now ≡ b.now → first.old ≡ second.old → first.new ≡ second.new }
{
    a.hash(first);
    b.hash(second);
}

/// Prints a signature and reads it again: it comes back, want of memory aside.
pub fn read_back(alloc: Global, signature: &Signature) -> Result<Signature, Error>
    requires { IsReadable signature.now }
    ensures { ReadAs signature.now result }
{
    let printed = signature.to_string(alloc)?;
    Signature::from_str(alloc, printed.as_str())
}

impl Signature {
    /// Whether the signature is read back from its text: it is `Unit`, or nothing inside is `Unit`, no structure
    /// is empty, and at most 32 arrays and dictionaries and at most 32 structures stand one in another.
    pub fn is_readable(&self) -> bool
        ensures { IsTrue result ↔ IsReadable self.now }
    {
        match self {
            Signature::Unit => true,
            other => is_complete(other, MAX_DEPTH, MAX_DEPTH),
        }
    }
}

// Whether this is a single complete type within both depths.
#[cycle(completing)]
fn is_complete(signature: &Signature, arrays: usize, structures: usize) -> bool
    ensures { result ≡ complete signature.now arrays structures }
{
    match signature {
        Signature::Unit => false,
        Signature::Array(child) => {
            if arrays == 0 {
                return false;
            }
            is_complete(child.get(), arrays - 1, structures)
        }
        Signature::Dict { key, value } => {
            if arrays == 0 {
                return false;
            }
            if !is_complete(key.get(), arrays - 1, structures) {
                return false;
            }
            is_complete(value.get(), arrays - 1, structures)
        }
        Signature::Structure(fields) => {
            if structures == 0 {
                return false;
            }
            if fields.is_empty() {
                return false;
            }
            are_complete(fields.as_slice(), arrays, structures - 1)
        }
        _ => true,
    }
}

#[cycle(completing)]
fn are_complete(signatures: &[Signature], arrays: usize, structures: usize) -> bool
    ensures { IsTrue result ↔ AreComplete arrays structures signatures.now }
{
    for signature in signatures {
        if !is_complete(signature, arrays, structures) {
            return false;
        }
    }
    true
}

//! Laws of the readings, the grammars and comparison.

ghost use Rattle.std.specs.Prelude.{◌≡◌, ℕ, pos, List, ◌++◌, IsTrue, ◌↔◌, string_bytes};
ghost use Rattle.std.specs.Cmp.Lexicographic.{slice_cmp};
ghost use Rattle.std.specs.Hash as fed;
ghost use Rattle.std.specs.Ordering.{nat_cmp};
ghost use Rattle.std.specs.declared.cmp.Ordering.TheVariants.{Less, Greater};
ghost use Rattle.bus_names.specs.declared.bus_name.BusName.{BusName as Lent};
ghost use Rattle.bus_names.specs.declared.bus_name.OwnedBusName.{OwnedBusName as Owned};
ghost use Rattle.bus_names.specs.declared.error.Error.{Error as Why};
ghost use Rattle.bus_names.specs.BusNames.{lent};
ghost use Rattle.bus_names.specs.Errors.{variant};
ghost use Rattle.bus_names.specs.Answers.{Reads};
ghost use Rattle.bus_names.specs.Refusals.{no_error, no_interface, no_member, no_property, no_unique, no_well_known};
ghost use Rattle.bus_names.specs.ValidNames.{IsBusName, IsErrorName, IsInterfaceName, IsMemberName};
ghost use Rattle.bus_names.specs.ValidNames.{IsPropertyName, IsUniqueName, IsWellKnownName};
ghost use Rattle.bus_names.specs.Grammar.{is_bus_name, is_error_name, is_interface_name};

use crate::bus_name::{BusName, OwnedBusName};
use crate::error::Error;
use crate::kind::Kind;
use crate::name::{
    ErrorName, InterfaceName, MemberName, Name, PropertyName, UniqueName, WellKnownName,
};
use crate::owned_name::{
    OwnedErrorName, OwnedInterfaceName, OwnedMemberName, OwnedName, OwnedPropertyName,
    OwnedUniqueName, OwnedWellKnownName,
};
use std::convert::TryFrom;
use std::hash::Hash;

/// Unique names are read exactly where a text is one, and have no other text.
pub fn unique_names<'t, 'n>(
    text: &'t str,
    name: &'n UniqueName<'_>,
) -> (Result<UniqueName<'t>, Error>, &'n str)
    ensures reading { Reads IsUniqueName no_unique text.now result.0 }
    ensures text { result.1.now ≡ name.now }
    ensures valid { IsUniqueName result.1.now }
{
    (UniqueName::try_from(text), name.as_str())
}

/// Owned ones likewise.
pub fn owned_unique_names(
    text: String,
    name: &OwnedUniqueName,
) -> (Result<OwnedUniqueName, Error>, &str)
    ensures reading { Reads IsUniqueName no_unique (string_bytes text) result.0 }
    ensures text { result.1.now ≡ name.now }
    ensures valid { IsUniqueName result.1.now }
{
    (OwnedUniqueName::try_from(text), name.as_str())
}

/// Well-known names are read exactly where a text is one, and have no other text.
pub fn well_known_names<'t, 'n>(
    text: &'t str,
    name: &'n WellKnownName<'_>,
) -> (Result<WellKnownName<'t>, Error>, &'n str)
    ensures reading { Reads IsWellKnownName no_well_known text.now result.0 }
    ensures text { result.1.now ≡ name.now }
    ensures valid { IsWellKnownName result.1.now }
{
    (WellKnownName::try_from(text), name.as_str())
}

/// Owned ones likewise.
pub fn owned_well_known_names(
    text: String,
    name: &OwnedWellKnownName,
) -> (Result<OwnedWellKnownName, Error>, &str)
    ensures reading { Reads IsWellKnownName no_well_known (string_bytes text) result.0 }
    ensures text { result.1.now ≡ name.now }
    ensures valid { IsWellKnownName result.1.now }
{
    (OwnedWellKnownName::try_from(text), name.as_str())
}

/// Interface names are read exactly where a text is one, and have no other text.
pub fn interface_names<'t, 'n>(
    text: &'t str,
    name: &'n InterfaceName<'_>,
) -> (Result<InterfaceName<'t>, Error>, &'n str)
    ensures reading { Reads IsInterfaceName no_interface text.now result.0 }
    ensures text { result.1.now ≡ name.now }
    ensures valid { IsInterfaceName result.1.now }
{
    (InterfaceName::try_from(text), name.as_str())
}

/// Owned ones likewise.
pub fn owned_interface_names(
    text: String,
    name: &OwnedInterfaceName,
) -> (Result<OwnedInterfaceName, Error>, &str)
    ensures reading { Reads IsInterfaceName no_interface (string_bytes text) result.0 }
    ensures text { result.1.now ≡ name.now }
    ensures valid { IsInterfaceName result.1.now }
{
    (OwnedInterfaceName::try_from(text), name.as_str())
}

/// Member names are read exactly where a text is one, and have no other text.
pub fn member_names<'t, 'n>(
    text: &'t str,
    name: &'n MemberName<'_>,
) -> (Result<MemberName<'t>, Error>, &'n str)
    ensures reading { Reads IsMemberName no_member text.now result.0 }
    ensures text { result.1.now ≡ name.now }
    ensures valid { IsMemberName result.1.now }
{
    (MemberName::try_from(text), name.as_str())
}

/// Owned ones likewise.
pub fn owned_member_names(
    text: String,
    name: &OwnedMemberName,
) -> (Result<OwnedMemberName, Error>, &str)
    ensures reading { Reads IsMemberName no_member (string_bytes text) result.0 }
    ensures text { result.1.now ≡ name.now }
    ensures valid { IsMemberName result.1.now }
{
    (OwnedMemberName::try_from(text), name.as_str())
}

/// Property names are read exactly where a text is one, and have no other text.
pub fn property_names<'t, 'n>(
    text: &'t str,
    name: &'n PropertyName<'_>,
) -> (Result<PropertyName<'t>, Error>, &'n str)
    ensures reading { Reads IsPropertyName no_property text.now result.0 }
    ensures text { result.1.now ≡ name.now }
    ensures valid { IsPropertyName result.1.now }
{
    (PropertyName::try_from(text), name.as_str())
}

/// Owned ones likewise.
pub fn owned_property_names(
    text: String,
    name: &OwnedPropertyName,
) -> (Result<OwnedPropertyName, Error>, &str)
    ensures reading { Reads IsPropertyName no_property (string_bytes text) result.0 }
    ensures text { result.1.now ≡ name.now }
    ensures valid { IsPropertyName result.1.now }
{
    (OwnedPropertyName::try_from(text), name.as_str())
}

/// Error names are read exactly where a text is one, and have no other text.
pub fn error_names<'t, 'n>(
    text: &'t str,
    name: &'n ErrorName<'_>,
) -> (Result<ErrorName<'t>, Error>, &'n str)
    ensures reading { Reads IsErrorName no_error text.now result.0 }
    ensures text { result.1.now ≡ name.now }
    ensures valid { IsErrorName result.1.now }
{
    (ErrorName::try_from(text), name.as_str())
}

/// Owned ones likewise.
pub fn owned_error_names(
    text: String,
    name: &OwnedErrorName,
) -> (Result<OwnedErrorName, Error>, &str)
    ensures reading { Reads IsErrorName no_error (string_bytes text) result.0 }
    ensures text { result.1.now ≡ name.now }
    ensures valid { IsErrorName result.1.now }
{
    (OwnedErrorName::try_from(text), name.as_str())
}

/// Interface and error names accept the same texts.
pub fn interfaces_and_errors_alike(text: &str) -> bool
    ensures same { IsTrue result }
    ensures tests { (text : List ℕ) → is_interface_name text ≡ is_error_name text }
{
    InterfaceName::try_from(text).is_ok() == ErrorName::try_from(text).is_ok()
}

/// A text is a bus name exactly where it is a unique or a well-known name.
pub fn bus_names_decide()
    ensures { (text : List ℕ) → IsTrue (is_bus_name text) ↔ IsBusName text }
{}

/// Lent names of one kind are equal, ordered and hashed as their texts.
pub fn names_compare_as_texts<K: Kind>()
    ensures equal { (a b : List ℕ) → IsTrue (⟦<Name<'static, K> as PartialEq>⟧.eq a b) ↔ (a ≡ b) }
    ensures order { (a b : List ℕ) → ⟦<Name<'static, K> as Ord>⟧.cmp a b ≡ slice_cmp nat_cmp a b }
    ensures hash { (a : List ℕ) → ⟦<Name<'static, K> as Hash>⟧.hash_input a ≡ fed.str a }
{}

/// Owned names of one kind are equal, ordered and hashed as their texts.
pub fn owned_names_compare_as_texts<K: Kind>()
    ensures equal { (a b : List ℕ) → IsTrue (⟦<OwnedName<K> as PartialEq>⟧.eq a b) ↔ (a ≡ b) }
    ensures order { (a b : List ℕ) → ⟦<OwnedName<K> as Ord>⟧.cmp a b ≡ slice_cmp nat_cmp a b }
    ensures hash { (a : List ℕ) → ⟦<OwnedName<K> as Hash>⟧.hash_input a ≡ fed.str a }
{}

/// Lent bus names are equal, ordered and hashed by kind and then text, unique ones first.
pub fn bus_names_compare_by_kind_and_text()
    ensures equal { (a b : Lent) → IsTrue (⟦<BusName<'static> as PartialEq>⟧.eq a b) ↔ (a ≡ b) }
    ensures unique_first { (x y : List ℕ)
        → ⟦<BusName<'static> as Ord>⟧.cmp (BusName.Unique x) (BusName.WellKnown y) ≡ Less }
    ensures well_known_last { (x y : List ℕ)
        → ⟦<BusName<'static> as Ord>⟧.cmp (BusName.WellKnown x) (BusName.Unique y) ≡ Greater }
    ensures unique_by_text { (x y : List ℕ)
        → ⟦<BusName<'static> as Ord>⟧.cmp (BusName.Unique x) (BusName.Unique y) ≡ slice_cmp nat_cmp x y }
    ensures well_known_by_text { (x y : List ℕ)
        → ⟦<BusName<'static> as Ord>⟧.cmp (BusName.WellKnown x) (BusName.WellKnown y) ≡ slice_cmp nat_cmp x y }
    ensures hash_unique { (x : List ℕ)
        → ⟦<BusName<'static> as Hash>⟧.hash_input (BusName.Unique x) ≡ fed.isize (pos 0) ++ fed.str x }
    ensures hash_well_known { (x : List ℕ)
        → ⟦<BusName<'static> as Hash>⟧.hash_input (BusName.WellKnown x) ≡ fed.isize (pos 1) ++ fed.str x }
{}

/// Owned bus names are equal, ordered and hashed as lent ones.
pub fn owned_bus_names_compare_as_lent()
    ensures equal { (a b : Owned)
        → ⟦<OwnedBusName as PartialEq>⟧.eq a b ≡ ⟦<BusName<'static> as PartialEq>⟧.eq (lent a) (lent b) }
    ensures order { (a b : Owned)
        → ⟦<OwnedBusName as Ord>⟧.cmp a b ≡ ⟦<BusName<'static> as Ord>⟧.cmp (lent a) (lent b) }
    ensures hash { (a : Owned)
        → ⟦<OwnedBusName as Hash>⟧.hash_input a ≡ ⟦<BusName<'static> as Hash>⟧.hash_input (lent a) }
{}

/// Two errors are equal where they are of the same variant.
pub fn errors_compare_by_variant()
    ensures { (a b : Why) → IsTrue (⟦<Error as PartialEq>⟧.eq a b) ↔ (variant a ≡ variant b) }
{}

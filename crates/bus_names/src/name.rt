//! A lent name of one kind.

ghost use Rattle.std.specs.Prelude.{◌≡◌, IsTrue, ◌↔◌, Some, nat_eq, refl};
ghost use Rattle.std.specs.Cmp.Lexicographic.{pointwise, slice_cmp, nat_list_eq_equiv};
ghost use Rattle.std.specs.Cmp.Lexicographic.{nat_list_cmp_total, texts_ties, texts_po};
ghost use Rattle.std.specs.Cmp.{partial_equiv_from_equiv};
ghost use Rattle.std.specs.Cmp.Rules.{hashing};
ghost use Rattle.std.specs.Fmt.{styled_text};
ghost use Rattle.std.specs.Hash as fed;
ghost use Rattle.std.specs.Ordering.{nat_cmp};
ghost use Rattle.std.proofs.Common.{rules};
ghost use Rattle.bus_names.specs.Answers.{Copies, Reads};

use crate::error::Error;
use crate::kind::{Failure, Interface, Kind, Member, Property, Unique, WellKnown};
use crate::owned_name::OwnedName;
use std::alloc::Global;
use std::cmp::Ordering;
use std::convert::TryFrom;
use std::fmt;
use std::hash::{Hash, Hasher};
use std::marker::{Model, PhantomData};

/// A lent text that is a name of the kind `K`.
///
/// It is shown, compared, ordered and hashed as its text.
#[derive(Drop)]
#[derive_where(Debug)]
pub struct Name<'a, K: Kind> {
    text: &'a str,
    kind: PhantomData<K>,
}

/// The name that a bus gave to a connection, as `:1.42`, or that of the bus itself.
pub type UniqueName<'a> = Name<'a, Unique>;

/// A name that a connection asked a bus for, as `org.example.Clock`.
pub type WellKnownName<'a> = Name<'a, WellKnown>;

/// The name of an interface, as `org.example.Alarm`.
pub type InterfaceName<'a> = Name<'a, Interface>;

/// The name of a method or a signal, as `SetAlarm`.
pub type MemberName<'a> = Name<'a, Member>;

/// The name of a property, as `Volume`.
pub type PropertyName<'a> = Name<'a, Property>;

/// The name of an error, as `org.example.Alarm.NoSuchTime`.
pub type ErrorName<'a> = Name<'a, Failure>;

impl<'a, K: Kind> Model for Name<'a, K> {
    ghost use Rattle.std.specs.Prelude.{ℕ, List, IsTrue};

    ghost Value = { List ℕ };

    ghost view = { λ n. n.text.now };

    ghost invariant = { λ n. IsTrue (K.grammar n.text.now) };
}

impl<'a, K: Kind> TryFrom<&'a str> for Name<'a, K> {
    type Error = Error;

    ghost try_from_gives = { λ text r. Reads K.IsName K.refusal text.now r };

    fn try_from(text: &'a str) -> Result<Self, Error> {
        if K::is_valid(text) {
            Ok(Name::from_str_unchecked(text))
        } else {
            Err(Error::InvalidName(K::refusal(text)))
        }
    }
}

impl<'a, K: Kind> Name<'a, K> {
    /// Whether the text is a name of this kind.
    pub fn is_valid(text: &str) -> bool
        ensures test { result ≡ K.grammar text.now }
        ensures relation { IsTrue result ↔ K.IsName text.now }
    {
        K::is_valid(text)
    }

    /// The name with this text, which `is_valid` has to accept: it is not tested again.
    pub fn from_str_unchecked(text: &'a str) -> Self
        requires { IsTrue (K.grammar text.now) }
        ensures { result ≡ text.now }
    {
        Name {
            text,
            kind: PhantomData,
        }
    }

    /// The name with this text, as `try_from`, at a text that is never given back.
    ///
    /// # Errors
    ///
    /// `InvalidName` where the text is not in the grammar.
    pub fn from_static_str(text: &'static str) -> Result<Name<'static, K>, Error>
        ensures { Reads K.IsName K.refusal text.now result }
    {
        Name::try_from(text)
    }

    /// The name with this text, as `from_str_unchecked`, at a text that is never given back.
    pub fn from_static_str_unchecked(text: &'static str) -> Name<'static, K>
        requires { IsTrue (K.grammar text.now) }
        ensures { result ≡ text.now }
    {
        Name::from_str_unchecked(text)
    }

    /// The text.
    pub fn as_str(&self) -> &str
        ensures text { result.now ≡ self.now }
        ensures valid { IsTrue (K.grammar result.now) }
        ensures name { K.IsName result.now }
    {
        self.text
    }

    /// The same name, lent again.
    pub fn as_ref(&self) -> Name<'_, K>
        ensures { result ≡ self.now }
    {
        Name::from_str_unchecked(self.text)
    }

    /// A copy of the name with a text of its own.
    ///
    /// # Errors
    ///
    /// `OutOfMemory` alone.
    pub fn to_owned(&self, alloc: Global) -> Result<OwnedName<K>, Error>
        ensures { Copies self.now result }
    {
        let text = String::from_str(alloc, self.text)?;
        Ok(OwnedName::from_string_unchecked(text))
    }

    /// The name with a text of its own.
    ///
    /// # Errors
    ///
    /// `OutOfMemory` alone.
    pub fn into_owned(self, alloc: Global) -> Result<OwnedName<K>, Error>
        ensures { Copies self.entry result }
    {
        self.to_owned(alloc)
    }

    /// Whether the name has this text.
    pub fn eq_text(&self, text: &str) -> bool
        ensures { IsTrue result ↔ (self.now ≡ text.now) }
    {
        self.text == text
    }

    /// Whether both names have the same text.
    pub fn eq_owned(&self, other: &OwnedName<K>) -> bool
        ensures { IsTrue result ↔ (self.now ≡ other.now) }
    {
        self.text == other.as_str()
    }
}

impl<K: Kind> fmt::Display for Name<'_, K> {
    ghost output = { λ n. Some n };

    ghost styled_output = { λ n spec. Some (styled_text spec n) };

    fn fmt<W: fmt::Write>(&self, f: &mut fmt::Formatter<W>) -> fmt::Result {
        f.pad(self.text)
    }
}

impl<K: Kind> PartialEq for Name<'_, K> {
    ghost eq = { pointwise nat_eq };

    ghost laws = { partial_equiv_from_equiv nat_list_eq_equiv };

    fn eq(&self, other: &Self) -> bool {
        self.text == other.text
    }
}

impl<K: Kind> Eq for Name<'_, K> {
    ghost laws = { nat_list_eq_equiv };
}

impl<K: Kind> PartialOrd for Name<'_, K> {
    ghost partial_cmp = { λ a b. Some (slice_cmp nat_cmp a b) };

    ghost laws = { texts_po };

    fn partial_cmp(&self, other: &Self) -> Option<Ordering> {
        Some(self.cmp(other))
    }
}

impl<K: Kind> Ord for Name<'_, K> {
    ghost cmp = { slice_cmp nat_cmp };

    ghost total = { nat_list_cmp_total };

    ghost matches_partial_cmp = { λ a b. refl };

    ghost matches_eq = { texts_ties };

    fn cmp(&self, other: &Self) -> Ordering {
        self.text.cmp(other.text)
    }
}

impl<K: Kind> Hash for Name<'_, K> {
    ghost hash_input = { fed.str };

    ghost respects_eq = { Prim.search (hashing, rules) };

    fn hash<H: Hasher>(&self, state: &mut H) {
        self.text.hash(state);
    }
}

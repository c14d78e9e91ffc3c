//! An owned name of one kind.

ghost use Rattle.std.specs.Prelude.{◌≡◌, IsTrue, ◌↔◌, Some, nat_eq, refl, string_bytes};
ghost use Rattle.std.specs.Cmp.Lexicographic.{pointwise, slice_cmp, nat_list_eq_equiv};
ghost use Rattle.std.specs.Cmp.Lexicographic.{nat_list_cmp_total, texts_ties, texts_po};
ghost use Rattle.std.specs.Cmp.{partial_equiv_from_equiv};
ghost use Rattle.std.specs.Cmp.Rules.{hashing};
ghost use Rattle.std.specs.Fmt.{styled_text};
ghost use Rattle.std.specs.Hash as fed;
ghost use Rattle.std.specs.Ordering.{nat_cmp};
ghost use Rattle.std.proofs.Common.{rules};
ghost use Rattle.bus_names.specs.Answers.{Reads, ReadsOwned};

use crate::error::Error;
use crate::kind::{Failure, Interface, Kind, Member, Property, Unique, WellKnown};
use crate::name::Name;
use std::alloc::Global;
use std::cmp::Ordering;
use std::convert::TryFrom;
use std::fmt;
use std::hash::{Hash, Hasher};
use std::marker::{Model, PhantomData};

/// A text of its own that is a name of the kind `K`.
///
/// It is shown, compared, ordered and hashed as its text.
#[derive(Drop)]
#[derive_where(Debug)]
pub struct OwnedName<K: Kind> {
    text: String,
    kind: PhantomData<K>,
}

/// A [`UniqueName`](crate::UniqueName) with a text of its own.
pub type OwnedUniqueName = OwnedName<Unique>;

/// A [`WellKnownName`](crate::WellKnownName) with a text of its own.
pub type OwnedWellKnownName = OwnedName<WellKnown>;

/// An [`InterfaceName`](crate::InterfaceName) with a text of its own.
pub type OwnedInterfaceName = OwnedName<Interface>;

/// A [`MemberName`](crate::MemberName) with a text of its own.
pub type OwnedMemberName = OwnedName<Member>;

/// A [`PropertyName`](crate::PropertyName) with a text of its own.
pub type OwnedPropertyName = OwnedName<Property>;

/// An [`ErrorName`](crate::ErrorName) with a text of its own.
pub type OwnedErrorName = OwnedName<Failure>;

impl<K: Kind> Model for OwnedName<K> {
    ghost use Rattle.std.specs.Prelude.{ℕ, List, IsTrue, string_bytes};

    ghost Value = { List ℕ };

    ghost view = { λ n. string_bytes n.text };

    ghost invariant = { λ n. IsTrue (K.grammar (string_bytes n.text)) };
}

impl<K: Kind> TryFrom<String> for OwnedName<K> {
    type Error = Error;

    ghost try_from_gives = { λ text r. Reads K.IsName K.refusal (string_bytes text) r };

    fn try_from(text: String) -> Result<Self, Error> {
        if K::is_valid(text.as_str()) {
            Ok(OwnedName::from_string_unchecked(text))
        } else {
            Err(Error::InvalidName(K::refusal(text.as_str())))
        }
    }
}

impl<K: Kind> OwnedName<K> {
    /// A name with a copy of this text.
    ///
    /// # Errors
    ///
    /// `InvalidName` where the text is not in the grammar, else `OutOfMemory` alone.
    pub fn try_from_text(alloc: Global, text: &str) -> Result<OwnedName<K>, Error>
        ensures { ReadsOwned K.IsName K.refusal text.now result }
    {
        Name::try_from(text)?.into_owned(alloc)
    }

    /// The name with this text, as `try_from`: the text itself, no copy. It is dropped where it is
    /// refused.
    ///
    /// # Errors
    ///
    /// `InvalidName` where the text is not in the grammar.
    pub fn try_from_string(text: String) -> Result<OwnedName<K>, Error>
        ensures { Reads K.IsName K.refusal (string_bytes text) result }
    {
        OwnedName::try_from(text)
    }

    /// The name with this text, which `is_valid` of the lent kind has to accept: it is not tested
    /// again.
    pub fn from_string_unchecked(text: String) -> OwnedName<K>
        requires { IsTrue (K.grammar (string_bytes text)) }
        ensures { result ≡ string_bytes text }
    {
        OwnedName {
            text,
            kind: PhantomData,
        }
    }

    /// The text.
    pub fn as_str(&self) -> &str
        ensures text { result.now ≡ self.now }
        ensures valid { IsTrue (K.grammar result.now) }
        ensures name { K.IsName result.now }
    {
        self.text.as_str()
    }

    /// The name, lent.
    pub fn as_ref(&self) -> Name<'_, K>
        ensures { result ≡ self.now }
    {
        Name::from_str_unchecked(self.text.as_str())
    }

    /// The name, lent, as `as_ref`.
    pub fn inner(&self) -> Name<'_, K>
        ensures { result ≡ self.now }
    {
        self.as_ref()
    }

    /// The text, given away.
    pub fn into_inner(self) -> String
        ensures text { string_bytes result ≡ self }
        ensures valid { IsTrue (K.grammar (string_bytes result)) }
        ensures name { K.IsName (string_bytes result) }
    {
        self.text
    }

    /// Whether the name has this text.
    pub fn eq_text(&self, text: &str) -> bool
        ensures { IsTrue result ↔ (self.now ≡ text.now) }
    {
        self.text.as_str() == text
    }

    /// Whether both names have the same text.
    pub fn eq_owned(&self, other: &OwnedName<K>) -> bool
        ensures { IsTrue result ↔ (self.now ≡ other.now) }
    {
        self == other
    }
}

impl<K: Kind> fmt::Display for OwnedName<K> {
    ghost output = { λ n. Some n };

    ghost styled_output = { λ n spec. Some (styled_text spec n) };

    fn fmt<W: fmt::Write>(&self, f: &mut fmt::Formatter<W>) -> fmt::Result {
        f.pad(self.text.as_str())
    }
}

impl<K: Kind> PartialEq for OwnedName<K> {
    ghost eq = { pointwise nat_eq };

    ghost laws = { partial_equiv_from_equiv nat_list_eq_equiv };

    fn eq(&self, other: &Self) -> bool {
        self.text.as_str() == other.text.as_str()
    }
}

impl<K: Kind> Eq for OwnedName<K> {
    ghost laws = { nat_list_eq_equiv };
}

impl<K: Kind> PartialOrd for OwnedName<K> {
    ghost partial_cmp = { λ a b. Some (slice_cmp nat_cmp a b) };

    ghost laws = { texts_po };

    fn partial_cmp(&self, other: &Self) -> Option<Ordering> {
        Some(self.cmp(other))
    }
}

impl<K: Kind> Ord for OwnedName<K> {
    ghost cmp = { slice_cmp nat_cmp };

    ghost total = { nat_list_cmp_total };

    ghost matches_partial_cmp = { λ a b. refl };

    ghost matches_eq = { texts_ties };

    fn cmp(&self, other: &Self) -> Ordering {
        self.text.as_str().cmp(other.text.as_str())
    }
}

impl<K: Kind> Hash for OwnedName<K> {
    ghost hash_input = { fed.str };

    ghost respects_eq = { Prim.search (hashing, rules) };

    fn hash<H: Hasher>(&self, state: &mut H) {
        self.text.as_str().hash(state);
    }
}

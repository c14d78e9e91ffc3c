//! Bus names: unique or well-known ones (D-Bus specification, Bus names).

ghost use Rattle.std.specs.Prelude.{◌≡◌, ◌↔◌, IsTrue, Some, string_bytes};
ghost use Rattle.bus_names.specs.Answers.{Copies};
ghost use Rattle.bus_names.specs.BusNames.{CopiesBus, GivesUnique, GivesWellKnown};
ghost use Rattle.bus_names.specs.BusNames.{ReadsBus, TakesBus, lent, owned_of, text_of};
ghost use Rattle.bus_names.specs.Grammar.{is_bus_name};
ghost use Rattle.bus_names.specs.ValidNames.{IsBusName};

use crate::error::Error;
use crate::name::{Name, UniqueName, WellKnownName};
use crate::owned_name::{OwnedName, OwnedUniqueName, OwnedWellKnownName};
use std::alloc::Global;
use std::convert::TryFrom;
use std::fmt;

const INVALID_BUS_NAME: &str =
    "Invalid bus name. See https://dbus.freedesktop.org/doc/dbus-specification.html#message-protocol-names-bus";

const NOT_UNIQUE: Error = Error::InvalidNameConversion {
    from: "WellKnownName",
    to: "UniqueName",
};

const NOT_WELL_KNOWN: Error = Error::InvalidNameConversion {
    from: "UniqueName",
    to: "WellKnownName",
};

/// A lent bus name: whom a message is from or for.
///
/// It is compared and hashed by kind and text. In order all unique names come before all
/// well-known ones, and names of one kind are ordered as their texts.
#[derive(PartialEq, Eq, PartialOrd, Ord, Hash, Debug, Drop)]
pub enum BusName<'a> {
    /// The name that a bus gave to a connection, or that of the bus itself.
    Unique(UniqueName<'a>),
    /// A name that a connection asked for.
    WellKnown(WellKnownName<'a>),
}

/// A [`BusName`] with a text of its own.
#[derive(PartialEq, Eq, PartialOrd, Ord, Hash, Debug, Drop)]
pub enum OwnedBusName {
    /// The name that a bus gave to a connection, or that of the bus itself.
    Unique(OwnedUniqueName),
    /// A name that a connection asked for.
    WellKnown(OwnedWellKnownName),
}

impl<'a> TryFrom<&'a str> for BusName<'a> {
    ghost use Rattle.bus_names.specs.BusNames.{ReadsBus};

    type Error = Error;

    ghost try_from_gives = { λ text r. ReadsBus text.now r };

    fn try_from(text: &'a str) -> Result<Self, Error> {
        if UniqueName::is_valid(text) {
            Ok(BusName::Unique(Name::from_str_unchecked(text)))
        } else if WellKnownName::is_valid(text) {
            Ok(BusName::WellKnown(Name::from_str_unchecked(text)))
        } else {
            Err(Error::InvalidName(INVALID_BUS_NAME))
        }
    }
}

impl<'a> BusName<'a> {
    /// The bus name with this text, as `try_from`, at a text that is never given back.
    ///
    /// # Errors
    ///
    /// `InvalidName` where the text is neither a unique nor a well-known name.
    pub fn from_static_str(text: &'static str) -> Result<BusName<'static>, Error>
        ensures { ReadsBus text.now result }
    {
        BusName::try_from(text)
    }

    /// This unique name.
    pub fn from_unique(name: UniqueName<'a>) -> BusName<'a>
        ensures { result ≡ BusName.Unique name.entry }
    {
        BusName::Unique(name)
    }

    /// This well-known name.
    pub fn from_well_known(name: WellKnownName<'a>) -> BusName<'a>
        ensures { result ≡ BusName.WellKnown name.entry }
    {
        BusName::WellKnown(name)
    }

    /// The text.
    pub fn as_str(&self) -> &str
        ensures text { result.now ≡ text_of self.now }
        ensures valid { IsTrue (is_bus_name result.now) }
        ensures name { IsBusName result.now }
    {
        match self {
            BusName::Unique(name) => name.as_str(),
            BusName::WellKnown(name) => name.as_str(),
        }
    }

    /// The same name, lent again.
    pub fn as_ref(&self) -> BusName<'_>
        ensures { result ≡ self.now }
    {
        match self {
            BusName::Unique(name) => BusName::Unique(name.as_ref()),
            BusName::WellKnown(name) => BusName::WellKnown(name.as_ref()),
        }
    }

    /// A copy of the name with a text of its own.
    ///
    /// # Errors
    ///
    /// `OutOfMemory` alone.
    pub fn to_owned(&self, alloc: Global) -> Result<OwnedBusName, Error>
        ensures { Copies (owned_of self.now) result }
    {
        match self {
            BusName::Unique(name) => Ok(OwnedBusName::Unique(name.to_owned(alloc)?)),
            BusName::WellKnown(name) => Ok(OwnedBusName::WellKnown(name.to_owned(alloc)?)),
        }
    }

    /// The name with a text of its own.
    ///
    /// # Errors
    ///
    /// `OutOfMemory` alone.
    pub fn into_owned(self, alloc: Global) -> Result<OwnedBusName, Error>
        ensures { Copies (owned_of self.entry) result }
    {
        self.to_owned(alloc)
    }

    /// The unique name.
    ///
    /// # Errors
    ///
    /// `InvalidNameConversion` where this is a well-known name.
    pub fn into_unique(self) -> Result<UniqueName<'a>, Error>
        ensures { GivesUnique self.entry result }
    {
        match self {
            BusName::Unique(name) => Ok(name),
            BusName::WellKnown(_) => Err(NOT_UNIQUE),
        }
    }

    /// The well-known name.
    ///
    /// # Errors
    ///
    /// `InvalidNameConversion` where this is a unique name.
    pub fn into_well_known(self) -> Result<WellKnownName<'a>, Error>
        ensures { GivesWellKnown self.entry result }
    {
        match self {
            BusName::Unique(_) => Err(NOT_WELL_KNOWN),
            BusName::WellKnown(name) => Ok(name),
        }
    }

    /// Whether the name has this text, whatever its kind.
    pub fn eq_text(&self, text: &str) -> bool
        ensures { IsTrue result ↔ (text_of self.now ≡ text.now) }
    {
        self.as_str() == text
    }

    /// Whether both names have the same kind and text.
    pub fn eq_owned(&self, other: &OwnedBusName) -> bool
        ensures { IsTrue result ↔ (self.now ≡ lent other.now) }
    {
        match (self, other) {
            (BusName::Unique(name), OwnedBusName::Unique(other)) => name.eq_owned(other),
            (BusName::WellKnown(name), OwnedBusName::WellKnown(other)) => name.eq_owned(other),
            _ => false,
        }
    }

    /// Whether this is that unique name.
    pub fn eq_unique(&self, name: &UniqueName<'_>) -> bool
        ensures { IsTrue result ↔ (self.now ≡ BusName.Unique name.now) }
    {
        match self {
            BusName::Unique(own) => own == name,
            BusName::WellKnown(_) => false,
        }
    }

    /// Whether this is that well-known name.
    pub fn eq_well_known(&self, name: &WellKnownName<'_>) -> bool
        ensures { IsTrue result ↔ (self.now ≡ BusName.WellKnown name.now) }
    {
        match self {
            BusName::Unique(_) => false,
            BusName::WellKnown(own) => own == name,
        }
    }
}

impl fmt::Display for BusName<'_> {
    ghost use Rattle.std.specs.Fmt.{styled_text};
    ghost use Rattle.std.specs.Prelude.{Some};
    ghost use Rattle.bus_names.specs.BusNames.{text_of};

    ghost output = { λ n. Some (text_of n) };

    ghost styled_output = { λ n spec. Some (styled_text spec (text_of n)) };

    fn fmt<W: fmt::Write>(&self, f: &mut fmt::Formatter<W>) -> fmt::Result {
        f.pad(self.as_str())
    }
}

impl TryFrom<String> for OwnedBusName {
    ghost use Rattle.bus_names.specs.BusNames.{TakesBus};

    type Error = Error;

    ghost try_from_gives = { λ text r. TakesBus (string_bytes text) r };

    fn try_from(text: String) -> Result<Self, Error> {
        if UniqueName::is_valid(text.as_str()) {
            Ok(OwnedBusName::Unique(OwnedName::from_string_unchecked(text)))
        } else if WellKnownName::is_valid(text.as_str()) {
            Ok(OwnedBusName::WellKnown(OwnedName::from_string_unchecked(text)))
        } else {
            Err(Error::InvalidName(INVALID_BUS_NAME))
        }
    }
}

impl OwnedBusName {
    /// A bus name with a copy of this text.
    ///
    /// # Errors
    ///
    /// `InvalidName` where the text is neither a unique nor a well-known name, else `OutOfMemory`
    /// alone.
    pub fn try_from_text(alloc: Global, text: &str) -> Result<OwnedBusName, Error>
        ensures { CopiesBus text.now result }
    {
        BusName::try_from(text)?.into_owned(alloc)
    }

    /// The bus name with this text, as `try_from`: the text itself, no copy. It is dropped where it
    /// is refused.
    ///
    /// # Errors
    ///
    /// `InvalidName` where the text is neither a unique nor a well-known name.
    pub fn try_from_string(text: String) -> Result<OwnedBusName, Error>
        ensures { TakesBus (string_bytes text) result }
    {
        OwnedBusName::try_from(text)
    }

    /// This unique name.
    pub fn from_unique(name: OwnedUniqueName) -> OwnedBusName
        ensures { result ≡ OwnedBusName.Unique name }
    {
        OwnedBusName::Unique(name)
    }

    /// This well-known name.
    pub fn from_well_known(name: OwnedWellKnownName) -> OwnedBusName
        ensures { result ≡ OwnedBusName.WellKnown name }
    {
        OwnedBusName::WellKnown(name)
    }

    /// The text.
    pub fn as_str(&self) -> &str
        ensures text { result.now ≡ text_of (lent self.now) }
        ensures valid { IsTrue (is_bus_name result.now) }
        ensures name { IsBusName result.now }
    {
        match self {
            OwnedBusName::Unique(name) => name.as_str(),
            OwnedBusName::WellKnown(name) => name.as_str(),
        }
    }

    /// The name, lent.
    pub fn as_ref(&self) -> BusName<'_>
        ensures { result ≡ lent self.now }
    {
        match self {
            OwnedBusName::Unique(name) => BusName::Unique(name.as_ref()),
            OwnedBusName::WellKnown(name) => BusName::WellKnown(name.as_ref()),
        }
    }

    /// The name, lent, as `as_ref`.
    pub fn inner(&self) -> BusName<'_>
        ensures { result ≡ lent self.now }
    {
        self.as_ref()
    }

    /// The text, given away.
    pub fn into_inner(self) -> String
        ensures text { string_bytes result ≡ text_of (lent self) }
        ensures valid { IsTrue (is_bus_name (string_bytes result)) }
        ensures name { IsBusName (string_bytes result) }
    {
        match self {
            OwnedBusName::Unique(name) => name.into_inner(),
            OwnedBusName::WellKnown(name) => name.into_inner(),
        }
    }

    /// The unique name.
    ///
    /// # Errors
    ///
    /// `InvalidNameConversion` where this is a well-known name.
    pub fn into_unique(self) -> Result<OwnedUniqueName, Error>
        ensures { GivesUnique (lent self) result }
    {
        match self {
            OwnedBusName::Unique(name) => Ok(name),
            OwnedBusName::WellKnown(_) => Err(NOT_UNIQUE),
        }
    }

    /// The well-known name.
    ///
    /// # Errors
    ///
    /// `InvalidNameConversion` where this is a unique name.
    pub fn into_well_known(self) -> Result<OwnedWellKnownName, Error>
        ensures { GivesWellKnown (lent self) result }
    {
        match self {
            OwnedBusName::Unique(_) => Err(NOT_WELL_KNOWN),
            OwnedBusName::WellKnown(name) => Ok(name),
        }
    }

    /// Whether the name has this text, whatever its kind.
    pub fn eq_text(&self, text: &str) -> bool
        ensures { IsTrue result ↔ (text_of (lent self.now) ≡ text.now) }
    {
        self.as_str() == text
    }

    /// Whether both names have the same kind and text.
    pub fn eq_owned(&self, other: &OwnedBusName) -> bool
        ensures { IsTrue result ↔ (self.now ≡ other.now) }
    {
        self == other
    }

    /// Whether this is that unique name.
    pub fn eq_unique(&self, name: &OwnedUniqueName) -> bool
        ensures { IsTrue result ↔ (self.now ≡ OwnedBusName.Unique name.now) }
    {
        match self {
            OwnedBusName::Unique(own) => own == name,
            OwnedBusName::WellKnown(_) => false,
        }
    }

    /// Whether this is that well-known name.
    pub fn eq_well_known(&self, name: &OwnedWellKnownName) -> bool
        ensures { IsTrue result ↔ (self.now ≡ OwnedBusName.WellKnown name.now) }
    {
        match self {
            OwnedBusName::Unique(_) => false,
            OwnedBusName::WellKnown(own) => own == name,
        }
    }
}

impl fmt::Display for OwnedBusName {
    ghost use Rattle.std.specs.Fmt.{styled_text};
    ghost use Rattle.std.specs.Prelude.{Some};
    ghost use Rattle.bus_names.specs.BusNames.{lent, text_of};

    ghost output = { λ n. Some (text_of (lent n)) };

    ghost styled_output = { λ n spec. Some (styled_text spec (text_of (lent n))) };

    fn fmt<W: fmt::Write>(&self, f: &mut fmt::Formatter<W>) -> fmt::Result {
        f.pad(self.as_str())
    }
}

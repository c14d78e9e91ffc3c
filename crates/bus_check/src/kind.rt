//! What a text can be read as.

/// What a text is read as.
#[derive(Clone, Copy, Debug, PartialEq, Eq)]
pub enum Kind {
    /// The type signature of a message's body (D-Bus specification, Type System).
    Signature,
    /// The address of a bus (D-Bus specification, Server Addresses).
    Address,
    /// A unique or a well-known name (D-Bus specification, Bus names).
    BusName,
    UniqueName,
    WellKnownName,
    /// D-Bus specification, Interface names.
    InterfaceName,
    /// D-Bus specification, Member names.
    MemberName,
    PropertyName,
    /// D-Bus specification, Error names.
    ErrorName,
}

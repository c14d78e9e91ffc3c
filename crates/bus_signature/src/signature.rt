//! Signatures as values.

use crate::boxed::Boxed;
use crate::items::Items;
use std::slice;

/// A type signature: the types of the values in a message's body, or in a part of it (D-Bus specification, Type
/// System).
///
/// Signatures are ordered by kind, in the order of the variants here, and then by what is inside.
#[derive(Debug, Drop, PartialEq, Eq, PartialOrd, Ord, Hash)]
pub enum Signature {
    /// No value; the empty text.
    Unit,
    /// An unsigned byte, `y`.
    U8,
    /// A truth value, `b`.
    Bool,
    /// A signed integer of 16 bits, `n`.
    I16,
    /// An unsigned integer of 16 bits, `q`.
    U16,
    /// A signed integer of 32 bits, `i`.
    I32,
    /// An unsigned integer of 32 bits, `u`.
    U32,
    /// A signed integer of 64 bits, `x`.
    I64,
    /// An unsigned integer of 64 bits, `t`.
    U64,
    /// A floating-point number of 64 bits, `d`.
    F64,
    /// A text, `s`.
    Str,
    /// A signature, `g`.
    Signature,
    /// The name of an object, `o`.
    ObjectPath,
    /// A value that brings its own signature, `v`.
    Variant,
    /// The index of a file descriptor, `h`.
    Fd,
    /// Values of one type: `a` and the type.
    Array(Child),
    /// Pairs of a key and a value: `a{`, both types and `}`.
    Dict { key: Child, value: Child },
    /// Values one after another: the types in parentheses.
    Structure(Fields),
}

/// A signature inside another.
pub type Child = Boxed<Signature>;

/// The signatures of a structure's fields, in order.
pub type Fields = Items<Signature>;

/// Goes over the signatures of a structure's fields.
pub type FieldsIter<'a> = slice::Iter<'a, Signature>;

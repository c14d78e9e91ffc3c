//! Signatures read from text (D-Bus specification, Type System).

ghost use Rattle.std.specs.Prelude.{◌≡◌, ◌∷◌, ◌++◌, ◌<◌, ◌↔◌, IfOk, IsTrue, None};
ghost use Rattle.bus_signature.specs.declared.signature.Signature.{Signature};
ghost use Rattle.bus_signature.specs.Texts.{text as printed, texts};
ghost use Rattle.bus_signature.specs.Measures.{Fits};
ghost use Rattle.bus_signature.specs.Grammar.{AreComplete, Spells, Read, ReadAs, IsReadable};
ghost use Rattle.bus_signature.specs.Taking.{letter, Took, TookAll, Stops};

use crate::error::Error;
use crate::signature::{Child, Fields, Signature};
use std::alloc::Global;

/// How many arrays and dictionaries may stand one in another, and as many structures.
pub(crate) const MAX_DEPTH: usize = 32;

// The type of one letter.
pub(crate) fn simple(byte: u8) -> Option<Signature>
    ensures { result ≡ letter byte }
{
    match byte {
        b'y' => Some(Signature::U8),
        b'b' => Some(Signature::Bool),
        b'n' => Some(Signature::I16),
        b'q' => Some(Signature::U16),
        b'i' => Some(Signature::I32),
        b'u' => Some(Signature::U32),
        b'x' => Some(Signature::I64),
        b't' => Some(Signature::U64),
        b'd' => Some(Signature::F64),
        b's' => Some(Signature::Str),
        b'g' => Some(Signature::Signature),
        b'o' => Some(Signature::ObjectPath),
        b'v' => Some(Signature::Variant),
        b'h' => Some(Signature::Fd),
        _ => None,
    }
}

// Whether no further type can begin here.
pub(crate) fn stops(bytes: &[u8]) -> bool
    ensures { IsTrue result ↔ Stops bytes.now }
{
    match bytes.split_first() {
        None => true,
        Some((first, _)) => *first == b')',
    }
}

// One complete type at the front of the bytes, and what follows it. Most types are one letter, and this reads those
// without a call.
#[cycle(reading)]
#[inline(always)]
fn read_type(
    alloc: Global,
    arrays: usize,
    structures: usize,
    bytes: &[u8],
) -> Result<(Signature, &[u8]), Error>
    ensures { Took arrays structures bytes.now result }
{
    let Some((first, rest)) = bytes.split_first() else {
        return Err(Error::InvalidSignature);
    };
    match simple(*first) {
        Some(signature) => Ok((signature, rest)),
        None => read_container(alloc, arrays, structures, *first, rest),
    }
}

// An array, a dictionary or a structure, behind its first byte.
#[cycle(reading)]
#[inline(never)]
fn read_container(
    alloc: Global,
    arrays: usize,
    structures: usize,
    first: u8,
    bytes: &[u8],
) -> Result<(Signature, &[u8]), Error>
    requires { letter first ≡ None }
    ensures { Took arrays structures (first ∷ bytes.now) result }
{
    match first {
        b'a' => read_array(alloc, arrays, structures, bytes),
        b'(' => read_structure(alloc, arrays, structures, bytes),
        _ => Err(Error::InvalidSignature),
    }
}

// An array or a dictionary, behind its `a`.
#[cycle(reading)]
fn read_array(
    alloc: Global,
    arrays: usize,
    structures: usize,
    bytes: &[u8],
) -> Result<(Signature, &[u8]), Error>
    ensures { Took arrays structures (97 ∷ bytes.now) result }
{
    if arrays == 0 {
        return Err(Error::InvalidSignature);
    }
    let Some((first, rest)) = bytes.split_first() else {
        return Err(Error::InvalidSignature);
    };
    if *first == b'{' {
        return read_dict(alloc, arrays, structures, rest);
    }
    let (child, rest) = read_type(alloc, arrays - 1, structures, bytes)?;
    Ok((Signature::Array(Child::new(alloc, child)?), rest))
}

// A dictionary, behind its `a{`.
#[cycle(reading)]
fn read_dict(
    alloc: Global,
    arrays: usize,
    structures: usize,
    bytes: &[u8],
) -> Result<(Signature, &[u8]), Error>
    requires { 0 < arrays }
    ensures { Took arrays structures (97 ∷ 123 ∷ bytes.now) result }
{
    let (key, rest) = read_type(alloc, arrays - 1, structures, bytes)?;
    let (value, rest) = read_type(alloc, arrays - 1, structures, rest)?;
    let Some((last, rest)) = rest.split_first() else {
        return Err(Error::InvalidSignature);
    };
    if *last != b'}' {
        return Err(Error::InvalidSignature);
    }
    let key = Child::new(alloc, key)?;
    let value = Child::new(alloc, value)?;
    Ok((Signature::Dict { key, value }, rest))
}

// A structure, behind its parenthesis.
#[cycle(reading)]
fn read_structure(
    alloc: Global,
    arrays: usize,
    structures: usize,
    bytes: &[u8],
) -> Result<(Signature, &[u8]), Error>
    ensures { Took arrays structures (40 ∷ bytes.now) result }
{
    if structures == 0 {
        return Err(Error::InvalidSignature);
    }
    let (fields, rest) = read_types(alloc, arrays, structures - 1, Fields::new(alloc), bytes)?;
    let Some((_, rest)) = rest.split_first() else {
        return Err(Error::InvalidSignature);
    };
    if fields.is_empty() {
        return Err(Error::InvalidSignature);
    }
    Ok((Signature::Structure(fields), rest))
}

// The complete types up to the end or a closing parenthesis, behind those that were read before, and what follows them.
#[cycle(reading)]
fn read_types(
    alloc: Global,
    arrays: usize,
    structures: usize,
    mut types: Fields,
    bytes: &[u8],
) -> Result<(Fields, &[u8]), Error>
    requires { AreComplete arrays structures types }
    ensures { TookAll arrays structures (texts types ++ bytes.now) result }
{
    let mut rest = bytes;
    while !stops(rest) {
        let (one, after) = read_type(alloc, arrays, structures, rest)?;
        types.push(one)?;
        rest = after;
    }
    Ok((types, rest))
}

// The signature that the bytes spell. One type alone takes no vector.
fn read(alloc: Global, bytes: &[u8]) -> Result<Signature, Error>
    ensures { Read bytes.now result }
{
    if bytes.is_empty() {
        return Ok(Signature::Unit);
    }
    let (first, others) = read_type(alloc, MAX_DEPTH, MAX_DEPTH, bytes)?;
    if others.is_empty() {
        return Ok(first);
    }
    let mut types = Fields::new(alloc);
    types.push(first)?;
    let (types, rest) = read_types(alloc, MAX_DEPTH, MAX_DEPTH, types, others)?;
    if !rest.is_empty() {
        return Err(Error::InvalidSignature);
    }
    Ok(Signature::Structure(types))
}

impl Signature {
    /// Reads a signature from the bytes of its text (D-Bus specification, Type System).
    ///
    /// [`Error::InvalidSignature`] exactly where the bytes are no signature's. The text of what is read has a length
    /// that fits.
    pub fn from_bytes(alloc: Global, bytes: &[u8]) -> Result<Signature, Error>
        ensures grammar { Read bytes.now result }
        ensures only { (signature : Signature) → Spells bytes.now signature → ReadAs signature result }
        ensures back { (signature : Signature) → IsReadable signature → bytes.now ≡ printed signature
            → ReadAs signature result }
        ensures fits { IfOk result (λ signature. Fits signature) }
    {
        read(alloc, bytes)
    }

    /// The same as [`from_bytes`](Signature::from_bytes).
    pub fn try_from_bytes(alloc: Global, bytes: &[u8]) -> Result<Signature, Error>
        ensures grammar { Read bytes.now result }
        ensures only { (signature : Signature) → Spells bytes.now signature → ReadAs signature result }
        ensures back { (signature : Signature) → IsReadable signature → bytes.now ≡ printed signature
            → ReadAs signature result }
        ensures fits { IfOk result (λ signature. Fits signature) }
    {
        Signature::from_bytes(alloc, bytes)
    }

    /// Reads a signature from its text, as [`from_bytes`](Signature::from_bytes) does from the text's bytes.
    pub fn from_str(alloc: Global, text: &str) -> Result<Signature, Error>
        ensures grammar { Read text.now result }
        ensures only { (signature : Signature) → Spells text.now signature → ReadAs signature result }
        ensures back { (signature : Signature) → IsReadable signature → text.now ≡ printed signature
            → ReadAs signature result }
        ensures fits { IfOk result (λ signature. Fits signature) }
    {
        Signature::from_bytes(alloc, text.as_bytes())
    }

    /// The same as [`from_str`](Signature::from_str).
    pub fn try_from_text(alloc: Global, text: &str) -> Result<Signature, Error>
        ensures grammar { Read text.now result }
        ensures only { (signature : Signature) → Spells text.now signature → ReadAs signature result }
        ensures back { (signature : Signature) → IsReadable signature → text.now ≡ printed signature
            → ReadAs signature result }
        ensures fits { IfOk result (λ signature. Fits signature) }
    {
        Signature::from_str(alloc, text)
    }
}

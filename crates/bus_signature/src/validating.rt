//! Signatures checked without memory.

ghost use Rattle.std.specs.Prelude.{◌≡◌, ◌∷◌, ◌<◌, false, is_some};
ghost use Rattle.bus_signature.specs.Taking.{letter, Skipped, SkippedAll};
ghost use Rattle.bus_signature.specs.Grammar.{Validated};

use crate::error::InvalidSignature;
use crate::reading::{MAX_DEPTH, simple, stops};

fn is_letter(byte: u8) -> bool
    ensures { result ≡ is_some (letter byte) }
{
    simple(byte).is_some()
}

// What follows the complete type at the front of the bytes. Most types are one letter, and this skips those without a
// call.
#[cycle(skipping)]
#[inline(always)]
fn skip_type(arrays: usize, structures: usize, bytes: &[u8]) -> Option<&[u8]>
    ensures { Skipped arrays structures bytes.now result }
{
    let Some((first, rest)) = bytes.split_first() else {
        return None;
    };
    if is_letter(*first) {
        return Some(rest);
    }
    skip_container(arrays, structures, *first, rest)
}

// What follows an array, a dictionary or a structure, behind its first byte.
#[cycle(skipping)]
#[inline(never)]
fn skip_container(arrays: usize, structures: usize, first: u8, bytes: &[u8]) -> Option<&[u8]>
    requires { is_some (letter first) ≡ false }
    ensures { Skipped arrays structures (first ∷ bytes.now) result }
{
    match first {
        b'a' => skip_array(arrays, structures, bytes),
        b'(' => skip_structure(arrays, structures, bytes),
        _ => None,
    }
}

// What follows an array or a dictionary, behind its `a`.
#[cycle(skipping)]
fn skip_array(arrays: usize, structures: usize, bytes: &[u8]) -> Option<&[u8]>
    ensures { Skipped arrays structures (97 ∷ bytes.now) result }
{
    if arrays == 0 {
        return None;
    }
    let Some((first, rest)) = bytes.split_first() else {
        return None;
    };
    if *first == b'{' {
        return skip_dict(arrays, structures, rest);
    }
    skip_type(arrays - 1, structures, bytes)
}

// What follows a dictionary, behind its `a{`.
#[cycle(skipping)]
fn skip_dict(arrays: usize, structures: usize, bytes: &[u8]) -> Option<&[u8]>
    requires { 0 < arrays }
    ensures { Skipped arrays structures (97 ∷ 123 ∷ bytes.now) result }
{
    let Some(behind_key) = skip_type(arrays - 1, structures, bytes) else {
        return None;
    };
    let Some(behind_value) = skip_type(arrays - 1, structures, behind_key) else {
        return None;
    };
    let Some((last, rest)) = behind_value.split_first() else {
        return None;
    };
    if *last != b'}' {
        return None;
    }
    Some(rest)
}

// What follows a structure, behind its parenthesis.
#[cycle(skipping)]
fn skip_structure(arrays: usize, structures: usize, bytes: &[u8]) -> Option<&[u8]>
    ensures { Skipped arrays structures (40 ∷ bytes.now) result }
{
    if structures == 0 {
        return None;
    }
    if stops(bytes) {
        return None;
    }
    let Some(behind_fields) = skip_types(arrays, structures - 1, bytes) else {
        return None;
    };
    let Some((_, rest)) = behind_fields.split_first() else {
        return None;
    };
    Some(rest)
}

// What follows the complete types up to the end or a closing parenthesis.
#[cycle(skipping)]
fn skip_types(arrays: usize, structures: usize, bytes: &[u8]) -> Option<&[u8]>
    ensures { SkippedAll arrays structures bytes.now result }
{
    let mut rest = bytes;
    while !stops(rest) {
        let Some(after) = skip_type(arrays, structures, rest) else {
            return None;
        };
        rest = after;
    }
    Some(rest)
}

/// Whether the bytes are a signature's text (D-Bus specification, Type System); this takes no memory.
///
/// [`InvalidSignature`] exactly where they are not.
pub fn validate(bytes: &[u8]) -> Result<(), InvalidSignature>
    ensures { Validated bytes.now result }
{
    let Some(rest) = skip_types(MAX_DEPTH, MAX_DEPTH, bytes) else {
        return Err(InvalidSignature);
    };
    if !rest.is_empty() {
        return Err(InvalidSignature);
    }
    Ok(())
}

//! Escapes in the values of an address (D-Bus specification, Server Addresses).

ghost use Rattle.std.specs.Prelude.{◌≡◌, ◌≤◌, ◌<◌, ◌*◌, ◌+◌, ◌++◌, IfOk, IfErr, MatchOption, Some, None};
ghost use Rattle.std.specs.Prelude.{true, false, length, take, ◌∷◌, string_bytes, slice_index, IsAscii};
ghost use Rattle.std.specs.Char.{is_ascii_hexdigit, digit_value};
ghost use Rattle.std.specs.List.{list_all};
ghost use Rattle.std.specs.Option.{ok_or};
ghost use Rattle.bus_address.specs.Escapes.{is_plain, escape, escaped, unescaped, with_first, with_front};
ghost use Rattle.bus_address.specs.Errors.{GivesBy, Refuses};
ghost use Rattle.bus_address.specs.declared.error.AddressKind.TheVariants.{BadEscape};

use crate::error::{AddressError, AddressKind, OutOfMemory};
use std::alloc::Global;
use std::{fmt, str};

/// Each byte that stands for itself at its own place, and a comma at every other place.
static PLAIN_BYTES: [u8; 256] = *b"\
    ,,,,,,,,,,,,,,,,,,,,,,,,,,,,,,,,\
    ,,,,,,,,,,*,,-./0123456789,,,,,,\
    ,ABCDEFGHIJKLMNOPQRSTUVWXYZ,\\,,_\
    ,abcdefghijklmnopqrstuvwxyz,,,,,\
    ,,,,,,,,,,,,,,,,,,,,,,,,,,,,,,,,\
    ,,,,,,,,,,,,,,,,,,,,,,,,,,,,,,,,\
    ,,,,,,,,,,,,,,,,,,,,,,,,,,,,,,,,\
    ,,,,,,,,,,,,,,,,,,,,,,,,,,,,,,,,";

/// The hexadecimal digits, as they are written.
static DIGITS: [u8; 16] = *b"0123456789abcdef";

/// How many escapes are written at once.
const MOST_ESCAPES: usize = 16;

/// The bytes of that many escapes.
type EscapeBuffer = [u8; 48];

/// Whether a byte stands for itself in an escaped value.
#[inline]
pub(crate) fn is_plain(byte: u8) -> bool
    ensures { result ≡ is_plain byte }
{
    PLAIN_BYTES[usize::from(byte)] != b','
}

/// How many bytes at the front stand for themselves.
pub(crate) fn plain_len(bytes: &[u8]) -> usize
    ensures in_range { result ≤ length bytes.now }
    ensures plain { list_all is_plain (take result bytes.now) ≡ true }
    ensures longest { result < length bytes.now → is_plain (slice_index bytes.now result) ≡ false }
{
    for (index, byte) in bytes.iter().enumerate() {
        if !is_plain(*byte) {
            return index;
        }
    }
    bytes.len()
}

/// Writes the escapes of the bytes at the front that do not stand for themselves, at most sixteen, and gives their
/// number.
fn fill_escapes(bytes: &[u8], buffer: &mut EscapeBuffer) -> usize
    ensures in_range { result ≤ length bytes.now }
    ensures fits { result ≤ 16 }
    ensures some { 0 < length bytes.now → is_plain (slice_index bytes.now 0) ≡ false → 0 < result }
    ensures text { take (3 * result) buffer.new ≡ escaped (take result bytes.now) }
{
    for (index, byte) in bytes.iter().enumerate() {
        if index == MOST_ESCAPES || is_plain(*byte) {
            return index;
        }
        let at = 3 * index;
        buffer[at] = b'%';
        buffer[at + 1] = DIGITS[usize::from(*byte / 16)];
        buffer[at + 2] = DIGITS[usize::from(*byte % 16)];
    }
    bytes.len()
}

/// Escapes, as a text.
fn escapes_text(escapes: &[u8]) -> &str
    requires { IsAscii escapes.now }
    ensures { result.now ≡ escapes.now }
{
    str::from_utf8(escapes).unwrap()
}

/// Bytes that stand for themselves, as a text.
fn plain_text(bytes: &[u8]) -> &str
    requires { list_all is_plain bytes.now ≡ true }
    ensures { result.now ≡ bytes.now }
{
    str::from_utf8(bytes).unwrap()
}

/// The text of the first bytes, and their number: those that stand for themselves, or else as many escapes as the
/// buffer takes.
fn first_piece<'b, 'a: 'b>(bytes: &'a [u8], buffer: &'b mut EscapeBuffer) -> (&'b str, usize)
    requires { 0 < length bytes.now }
    ensures some { 0 < result.1 }
    ensures in_range { result.1 ≤ length bytes.now }
    ensures text { result.0.now ≡ escaped (take result.1 bytes.now) }
{
    if is_plain(bytes[0]) {
        let len = plain_len(bytes);
        return (plain_text(&bytes[..len]), len);
    }
    let count = fill_escapes(bytes, buffer);
    (escapes_text(&buffer[..3 * count]), count)
}

fn hexadecimal_value(digit: u8) -> Option<u8>
    ensures { MatchOption result (is_ascii_hexdigit digit ≡ false)
        (λ value. (is_ascii_hexdigit digit ≡ true) × (value ≡ digit_value digit) × (value < 16)) }
{
    match digit {
        b'0'..=b'9' => Some(digit - b'0'),
        b'a'..=b'f' => Some(digit - b'a' + 10),
        b'A'..=b'F' => Some(digit - b'A' + 10),
        _ => None,
    }
}

/// The byte that an escape writes which begins with `first`, and the text behind it.
fn escaped_byte(first: u8, rest: &[u8]) -> Option<(u8, &[u8])>
    requires { is_plain first ≡ false }
    ensures { MatchOption result (unescaped (first ∷ rest.now) ≡ None)
        (λ x. (unescaped (first ∷ rest.now) ≡ with_first x.0 (unescaped x.1.now))
        × (length x.1.now ≤ length rest.now)) }
{
    if first != b'%' {
        return None;
    }
    if rest.len() < 2 {
        return None;
    }
    let (digits, rest) = rest.split_at(2);
    let high = hexadecimal_value(digits[0])?;
    let low = hexadecimal_value(digits[1])?;
    Some((16 * high + low, rest))
}

/// Adds what the front of a text writes, and gives the text behind it. The text begins with `first`; its front is a
/// run of bytes that stand for themselves, or one escape.
fn read_piece<'a>(bytes: &mut Vec<u8>, first: u8, rest: &'a [u8]) -> Result<&'a [u8], AddressError>
    ensures ok { IfOk result (λ behind. with_front bytes.new.items (unescaped behind.now)
        ≡ with_front bytes.old.items (unescaped (first ∷ rest.now))) }
    ensures shorter { IfOk result (λ behind. length behind.now ≤ length rest.now) }
    ensures err { IfErr result (λ e. Refuses e (ok_or (unescaped (first ∷ rest.now)) BadEscape)) }
{
    if !is_plain(first) {
        let Some((byte, behind)) = escaped_byte(first, rest) else {
            return Err(AddressError::Kind(AddressKind::BadEscape));
        };
        bytes.push(byte)?;
        return Ok(behind);
    }
    bytes.push(first)?;
    let (plain, behind) = rest.split_at(plain_len(rest));
    bytes.extend_from_slice(plain)?;
    Ok(behind)
}

/// The bytes that an escaped value writes. Hexadecimal digits are read in either case, and the
/// escape of a byte that could stand for itself is read too. `BadEscape` comes exactly where the
/// text writes no bytes.
pub fn decode_percents(alloc: Global, text: &str) -> Result<Vec<u8>, AddressError>
    ensures { GivesBy (λ v. v.items) result (ok_or (unescaped text.now) BadEscape) }
{
    let mut rest = text.as_bytes();
    let mut bytes = Vec::with_capacity(alloc, rest.len())?;
    while let Some((first, others)) = rest.split_first() {
        rest = read_piece(&mut bytes, *first, others)?;
    }
    Ok(bytes)
}

/// Bytes as they stand in an address: the escaped text. Hexadecimal digits are in lower case.
pub fn encode_percents(alloc: Global, bytes: &[u8]) -> Result<String, OutOfMemory>
    ensures value { IfOk result (λ text. string_bytes text ≡ escaped bytes.now) }
    ensures read_back { IfOk result (λ text. unescaped (string_bytes text) ≡ Some bytes.now) }
{
    let mut text = String::with_capacity(alloc, bytes.len().saturating_mul(3))?;
    write!(text, "{}", Escaped(bytes))?;
    Ok(text)
}

/// Bytes as they stand in an address.
#[derive(Clone, Copy)]
pub(crate) struct Escaped<'a>(pub &'a [u8]);

impl fmt::Display for Escaped<'_> {
    ghost output = { λ e. Some (escaped e.0.now) };

    fn fmt<W: fmt::Write>(&self, f: &mut fmt::Formatter<W>) -> fmt::Result {
        let mut buffer = [0u8; 48];
        let mut rest = self.0;
        while !rest.is_empty() {
            let (text, len) = first_piece(rest, &mut buffer);
            f.write_str(text)?;
            rest = &rest[len..];
        }
        Ok(())
    }
}

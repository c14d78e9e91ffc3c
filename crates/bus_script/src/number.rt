//! Numbers without a sign and without a zero in front.

ghost use Rattle.std.specs.Prelude.{◌≡◌, ◌^◌, ◌<◌, IfSome};
ghost use Rattle.bus_script.specs.Words.{number_of, number};

use crate::line::Reason;

/// The number that the text writes out, where it writes one.
#[tactic(auto, using(crate::proofs::Numbers::number_empty, crate::proofs::Numbers::number_plus, crate::proofs::Numbers::number_zero, crate::proofs::Numbers::number_parsed))]
fn plain_number(word: &str) -> Option<u64>
    ensures { result ≡ number_of (2 ^ 64) word.now }
{
    let bytes = word.as_bytes();
    if bytes.is_empty() {
        return None;
    }
    if bytes[0] == b'+' {
        return None;
    }
    if bytes[0] == b'0' && bytes.len() != 1 {
        return None;
    }
    word.parse::<u64>().ok()
}

/// The number that the text writes out, where it writes one below the limit. It has no sign, and no zero in front of
/// other digits.
#[tactic(auto, using(crate::proofs::Numbers::narrow_some, crate::proofs::Numbers::narrow_beyond, crate::proofs::Numbers::narrow_none))]
pub fn number_below(word: &str, limit: u64) -> Option<u64>
    ensures value { result ≡ number_of limit word.now }
    ensures below { IfSome result (λ n. n < limit) }
{
    let Some(n) = plain_number(word) else {
        return None;
    };
    if n < limit { Some(n) } else { None }
}

pub(crate) fn number_u64(word: &str) -> Result<u64, Reason>
    ensures { result ≡ number (2 ^ 64) word.now }
{
    plain_number(word).ok_or(Reason::Form)
}

pub(crate) fn number_usize(word: &str) -> Result<usize, Reason>
    ensures { result ≡ number (2 ^ 64) word.now }
{
    match plain_number(word) {
        Some(n) => Ok(n as usize),
        None => Err(Reason::Form),
    }
}

pub(crate) fn number_u32(word: &str) -> Result<u32, Reason>
    ensures { result ≡ number (2 ^ 32) word.now }
{
    match number_below(word, 0x1_0000_0000) {
        Some(n) => Ok(n as u32),
        None => Err(Reason::Form),
    }
}

pub(crate) fn number_u16(word: &str) -> Result<u16, Reason>
    ensures { result ≡ number (2 ^ 16) word.now }
{
    match number_below(word, 0x1_0000) {
        Some(n) => Ok(n as u16),
        None => Err(Reason::Form),
    }
}

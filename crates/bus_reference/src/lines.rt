//! The lines of bytes, cut at line feeds.

ghost use Rattle.std.specs.Prelude.{◌≡◌, ◌==◌, take, position, IfOk};
ghost use Rattle.bus_opening.specs.Lines.{lines, feed_at, following};

use react_core::outside::Bytes;
use std::alloc::{AllocError, Global};

// Where the first line feed stands.
fn feed_in(bytes: &[u8]) -> Option<usize>
    ensures value { result ≡ position (λ c. c == 10) bytes.now }
{
    bytes.iter().position(|b| *b == 10)
}

/// How many bytes stand before the first line feed.
pub(crate) fn feed_at(bytes: &[u8]) -> usize
    ensures value { result ≡ feed_at bytes.now }
{
    feed_in(bytes).unwrap_or(bytes.len())
}

/// The first lines, each with its line feed.
pub(crate) fn first_lines(
    alloc: Global,
    bytes: &[u8],
    count: usize,
) -> Result<Vec<Bytes>, AllocError>
    ensures value { IfOk result (λ ls. ls.items ≡ take count (lines bytes.now).whole) }
{
    if count == 0 {
        return Ok(Vec::new(alloc));
    }
    let feed = feed_at(bytes);
    if feed >= bytes.len() {
        return Ok(Vec::new(alloc));
    }
    let (line, others) = bytes.split_at(feed + 1);
    let line = Vec::from_slice(alloc, line)?;
    let mut cut = first_lines(alloc, others, count - 1)?;
    cut.insert(0, Bytes::from_vec(line))?;
    Ok(cut)
}

/// What follows the first lines.
pub(crate) fn following(count: usize, bytes: &[u8]) -> &[u8]
    ensures value { result.now ≡ following count bytes.now }
{
    if count == 0 {
        return bytes;
    }
    let feed = feed_at(bytes);
    if feed >= bytes.len() {
        return bytes;
    }
    let (_, others) = bytes.split_at(feed + 1);
    following(count - 1, others)
}

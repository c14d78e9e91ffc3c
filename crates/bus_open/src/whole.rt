//! A source to its end, and the whole of a text.

ghost use Rattle.std.specs.Prelude.{◌+◌, ◌≤◌, length, OnOk, OnErr, IfOk};
ghost use Rattle.std.specs.Io.KnownBytes.{Appends, Consumes, IsAtEnd};
ghost use Rattle.bus_open.specs.Streams.{CountsWrite, GainsFront, LosesFront, Tells};
ghost use Rattle.bus_open.specs.Whole.{CountsReadAll};

use crate::stream::{Read, Sink, Source, WriteFailed};
use std::alloc::Global;
use thiserror::Error;

/// Writes all of it, in as many calls as it takes. After a fault the sink has gained a first part of it.
pub fn write_all<K: Sink>(sink: &mut K, bytes: &[u8]) -> Result<(), WriteFailed>
    ensures tells { Tells (K.held sink.old) (K.held sink.new) }
    ensures ok { OnOk result (Appends (K.held sink.old) (K.held sink.new) bytes.now) }
    ensures err { OnErr result (GainsFront (K.held sink.old) (K.held sink.new) bytes.now) }
    ensures faults { CountsWrite (K.write_faults sink.old) (K.write_faults sink.new) result }
{
    let mut rest = bytes;
    while !rest.is_empty() {
        let count = sink.write(rest)?;
        (_, rest) = rest.split_at(count);
    }
    Ok(())
}

/// Why a source was not read to its end.
#[derive(Clone, Copy, Debug, Error, PartialEq, Eq)]
pub enum ReadError {
    #[error("the source failed")]
    Failed,
    #[error("out of memory")]
    OutOfMemory,
}

/// As many bytes are asked of the source at once.
const PIECE: usize = 4096;

/// Reads to the end, or until more than `limit` bytes have come. What was read before a refusal is lost.
pub fn read_all<S: Source>(
    alloc: Global,
    source: &mut S,
    limit: usize,
) -> Result<Vec<u8>, ReadError>
    ensures tells { Tells (S.left source.old) (S.left source.new) }
    ensures bytes { IfOk result (λ v. Consumes (S.left source.old) (S.left source.new) v.items) }
    ensures end { IfOk result (λ v. length v.items ≤ limit → IsAtEnd (S.left source.new)) }
    ensures bound { IfOk result (λ v. length v.items ≤ limit + 4096) }
    ensures lost { LosesFront (S.left source.old) (S.left source.new) }
    ensures faults { CountsReadAll (S.read_faults source.old) (S.read_faults source.new) result }
{
    let mut piece = [0u8; PIECE];
    let mut text = Vec::new(alloc);
    while text.len() <= limit {
        match source.read(&mut piece) {
            Read::Got(count) => {
                if text.extend_from_slice(&piece[..count]).is_err() {
                    return Err(ReadError::OutOfMemory);
                }
            }
            Read::End => return Ok(text),
            Read::Failed => return Err(ReadError::Failed),
        }
    }
    Ok(text)
}

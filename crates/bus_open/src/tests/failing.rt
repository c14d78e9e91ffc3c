//! Each read and each write of a run that fails in its turn, and streams that move one byte a call.

ghost use Rattle.std.specs.Prelude.{◌<◌};

use super::program::{TWO_CLIENTS, TWO_OPEN, texts, unused};
use crate::memory::{MemSink, MemSource};
use crate::program::run;
use std::alloc::Global;
use std::test::Fail;

/// How many bytes a call moves.
const PIECE: usize = 50;

/// Plays two clients over streams that move so many bytes a call, and fail at these calls, counted from 1: what is
/// written, and the status.
fn played(
    alloc: Global,
    piece: usize,
    read_faults: &[u64],
    write_faults: &[u64],
) -> Result<(MemSink, u8), Fail>
    requires { 0 < piece }
{
    let words = texts(alloc, &["play"])?;
    let script = TWO_CLIENTS.as_bytes().to_vec(alloc)?;
    let mut source = MemSource::new(script, piece, read_faults.to_vec(alloc)?);
    let mut sink = MemSink::new(alloc, 5000, piece, write_faults.to_vec(alloc)?)?;
    let mut real = unused(alloc)?;
    let status = run(alloc, words.as_slice(), &mut source, &mut sink, &mut real);
    Ok((sink, status))
}

/// How many calls it takes to move so many bytes.
fn calls(bytes: usize) -> u64 {
    bytes.div_ceil(PIECE) as u64
}

#[test]
fn each_read_that_fails_leaves_nothing_written(rt: HostRuntime) -> Result<(), Fail> {
    // The last read finds the end.
    let reads = calls(TWO_CLIENTS.len()).saturating_add(1);
    for call in 1..reads.saturating_add(1) {
        let (sink, status) = played(rt.alloc(), PIECE, &[call], &[])?;
        assert_eq!(rt; (sink.bytes().len(), status), (0, 3), "read {call}");
    }
    let (sink, status) = played(rt.alloc(), PIECE, &[reads.saturating_add(1)], &[])?;
    assert_eq!(rt; sink.bytes(), TWO_OPEN.as_bytes());
    assert_eq!(rt; status, 0);
    Ok(())
}

#[test]
fn each_write_that_fails_leaves_what_was_taken_before_it(rt: HostRuntime) -> Result<(), Fail> {
    let writes = calls(TWO_OPEN.len());
    let mut taken = 0usize;
    for call in 1..writes.saturating_add(1) {
        let (sink, status) = played(rt.alloc(), PIECE, &[], &[call])?;
        let before = TWO_OPEN.as_bytes().get(..taken);
        assert!(rt; before == Some(sink.bytes()), "write {call}");
        assert_eq!(rt; status, 4, "write {call}");
        taken = taken.saturating_add(PIECE);
    }
    let (sink, status) = played(rt.alloc(), PIECE, &[], &[writes.saturating_add(1)])?;
    assert_eq!(rt; sink.bytes(), TWO_OPEN.as_bytes());
    assert_eq!(rt; status, 0);
    Ok(())
}

#[test]
fn streams_that_move_one_byte_a_call_change_nothing(rt: HostRuntime) -> Result<(), Fail> {
    let (sink, status) = played(rt.alloc(), 1, &[], &[])?;
    assert_eq!(rt; sink.bytes(), TWO_OPEN.as_bytes());
    assert_eq!(rt; status, 0);
    Ok(())
}

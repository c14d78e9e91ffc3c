//! Streams in memory, and streams that stand for those of the process.

ghost use Rattle.std.specs.Prelude.{◌≤◌, IfOk};

use crate::memory::{MemSink, MemSource};
use crate::standard::{StandardInput, StandardOutput};
use crate::stream::{Read, Sink, Source, WriteFailed};
use std::io;
use std::test::Fail;

#[test]
fn a_source_gives_its_pieces_and_fails_where_it_is_told_to(rt: HostRuntime) -> Result<(), Fail> {
    let faults = [2u64].to_vec(rt.alloc())?;
    let mut source = MemSource::new(b"hello".to_vec(rt.alloc())?, 2, faults);
    let rows = [
        (Read::Got(2), "he"),
        (Read::Failed, ""),
        (Read::Got(2), "ll"),
        (Read::Got(1), "o"),
        (Read::End, ""),
    ];
    for (answer, text) in rows {
        let mut into = [0u8; 8];
        assert_eq!(rt; source.read(&mut into), answer, "{text}");
        assert_eq!(rt; &into[..text.len()], text.as_bytes());
    }
    Ok(())
}

#[test]
fn a_sink_takes_pieces_until_its_room_is_used_up(rt: HostRuntime) -> Result<(), Fail> {
    let faults = [2u64].to_vec(rt.alloc())?;
    let mut sink = MemSink::new(rt.alloc(), 3, 2, faults)?;
    let rows = [
        ("abc", Ok(2)),
        ("c", Err(WriteFailed)),
        ("cd", Ok(1)),
        ("d", Err(WriteFailed)),
        ("", Ok(0)),
    ];
    for (piece, answer) in rows {
        assert_eq!(rt; sink.write(piece.as_bytes()), answer, "{piece}");
    }
    assert_eq!(rt; sink.bytes(), b"abc".as_slice());
    Ok(())
}

/// A stream whose calls are interrupted, move nothing, succeed and fail, in this order.
#[derive(Drop)]
struct Uneven {
    calls: u8,
}

impl Uneven {
    fn next(&mut self, room: usize) -> io::Result<usize>
        ensures { IfOk result (λ n. n ≤ room) }
    {
        self.calls = self.calls.saturating_add(1);
        match self.calls {
            1 | 3 => Err(io::Error::from(io::ErrorKind::Interrupted)),
            2 => Ok(0),
            4 => Ok(room.min(1)),
            _ => Err(io::Error::from(io::ErrorKind::BrokenPipe)),
        }
    }
}

impl io::Read for Uneven {
    fn read(&mut self, buf: &mut [u8]) -> io::Result<usize> {
        self.next(buf.len())
    }
}

impl io::Write for Uneven {
    fn write(&mut self, buf: &[u8]) -> io::Result<usize> {
        self.next(buf.len())
    }

    fn flush(&mut self) -> io::Result<()> {
        Ok(())
    }
}

#[test]
fn an_interrupted_read_is_tried_again(rt: HostRuntime) {
    let mut source = StandardInput::new(Uneven { calls: 0 });
    for answer in [Read::End, Read::Got(1), Read::Failed] {
        assert_eq!(rt; source.read(&mut [0u8; 4]), answer);
    }
}

#[test]
fn an_interrupted_write_is_tried_again_and_one_that_takes_nothing_failed(rt: HostRuntime) {
    let mut sink = StandardOutput::new(Uneven { calls: 0 });
    for answer in [Err(WriteFailed), Ok(1), Err(WriteFailed)] {
        assert_eq!(rt; sink.write(b"ab"), answer);
    }
}

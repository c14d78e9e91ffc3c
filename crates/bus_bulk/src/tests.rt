use super::*;
use bus_address::Guid;
use bus_session::{AddressReason, Ended, Ending};
use react_core::outside::Bytes;
use std::alloc::Global;
use std::test::Fail;

/// The script of no session: the round, and the readings before and behind the wait.
const NONE: &str = "rounds 1
now 0
now 100
";

/// The script of one session of each kind.
const SIX: &str = "rounds 1
client EXTERNAL 1000 - n - unix:path=/run/a
client EXTERNAL 1000 - n - unix:path=/run/a
server 1234deadbeef1234deadbeef12345678 EXTERNAL 1000 -
client EXTERNAL 1000 - n - unix:path=/run/a
client EXTERNAL 1000 - n - unix:path=/run/a
client EXTERNAL 1000 - n 100 unix:path=/run/a
dial 0 open n
recv 0 bytes 4f4b2031323334646561646265656631323334646561646265656631323334353637380d0a
dial 1 open n
recv 1 bytes 4f
recv 1 bytes 4b
recv 1 bytes 20
recv 1 bytes 31
recv 1 bytes 32
recv 1 bytes 33
recv 1 bytes 34
recv 1 bytes 64
recv 1 bytes 65
recv 1 bytes 61
recv 1 bytes 64
recv 1 bytes 62
recv 1 bytes 65
recv 1 bytes 65
recv 1 bytes 66
recv 1 bytes 31
recv 1 bytes 32
recv 1 bytes 33
recv 1 bytes 34
recv 1 bytes 64
recv 1 bytes 65
recv 1 bytes 61
recv 1 bytes 64
recv 1 bytes 62
recv 1 bytes 65
recv 1 bytes 65
recv 1 bytes 66
recv 1 bytes 31
recv 1 bytes 32
recv 1 bytes 33
recv 1 bytes 34
recv 1 bytes 35
recv 1 bytes 36
recv 1 bytes 37
recv 1 bytes 38
recv 1 bytes 0d
recv 1 bytes 0a
dial 2 open n
recv 2 bytes 00415554482045585445524e414c0d0a444154410d0a424547494e0d0a
dial 3 fault
dial 4 open n
recv 4 bytes 4f4b2031323334646561
recv 4 end
dial 5 open n
now 0
now 0
now 100
";

/// The script, where there may be so many sessions.
fn script(alloc: Global, n: u32) -> Result<Vec<u8>, Fail> {
    if n > 10_000 {
        return Err("sessions".into());
    }
    Ok(bulk_script(alloc, n)?)
}

#[test]
fn small_scripts_are_these(rt: HostRuntime) -> Result<(), Fail> {
    for (n, wanted) in [(0, NONE), (6, SIX)] {
        let text = script(rt.alloc(), n)?;
        assert_eq!(rt; text.as_slice(), wanted.as_bytes());
    }
    Ok(())
}

/// A session has a line, and 2, 38, 2, 1, 3 or 1 lines of replies by its kind. Beside these stand the round, a reading
/// for each session of the last kind, and two more.
#[test]
fn each_session_has_its_lines(rt: HostRuntime) -> Result<(), Fail> {
    for (n, lines) in [(1, 6), (2, 45), (100, 914), (10_000, 90_014)] {
        let text = script(rt.alloc(), n)?;
        assert_eq!(rt; text.iter().filter(|b| **b == b'\n').count(), lines);
    }
    Ok(())
}

/// A session that wrote so many bytes and ended so.
fn ended(alloc: Global, ending: Ending, written: usize) -> Result<Ended, Fail> {
    Ok(Ended {
        ending,
        written: Bytes::from_vec(vec![in alloc; 7; written]?),
        leftover: Bytes::from_vec(Vec::new(alloc)),
        wire: 3,
        moment: None,
    })
}

fn open(cap_unix_fd: bool) -> Result<Ending, Fail> {
    let guid = Guid::from_str("1234deadbeef1234deadbeef12345678")
        .ok()
        .ok_or("guid")?;
    Ok(Ending::Open { guid, cap_unix_fd })
}

#[test]
fn a_summary_counts_four_endings_and_all_bytes(rt: HostRuntime) -> Result<(), Fail> {
    let rows = [
        (open(false)?, 2),
        (open(true)?, 3),
        (open(false)?, 0),
        (Ending::Connection, 0),
        (Ending::Connection, 1),
        (Ending::Handshake, 4),
        (Ending::Handshake, 0),
        (Ending::Handshake, 1),
        (Ending::Handshake, 2),
        (Ending::TimedOut, 5),
        (Ending::Waiting, 6),
        (Ending::Waiting, 1),
        (Ending::Address(AddressReason::NoAddress), 0),
        (Ending::Unsupported, 0),
        (Ending::Io, 2),
        (Ending::LineTooLong, 8),
        (Ending::TooManyCommands, 10),
    ];
    let mut endeds = Vec::new(rt.alloc());
    for (ending, written) in rows {
        endeds.push(ended(rt.alloc(), ending, written)?)?;
    }
    let text = summary(rt.alloc(), 9999, endeds.as_slice())?;
    let wanted = "bulk 9999 open 3 connection 2 handshake 4 timed-out 1 written 45\n";
    assert_eq!(rt; text.as_str(), wanted);
    Ok(())
}

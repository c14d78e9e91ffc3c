//! Sessions that are opened over an outside that is handed in: one that follows a script, and the real one.

use crate::memory::{MemSink, MemSource};
use crate::program::run;
use crate::tests::program::texts;
use bus_edges::Edges;
use bus_peers::{Scene, ScriptForm};
use react_core::outside::Outside;
use std::alloc::Global;
use std::test::Fail;

/// Opens the sessions of this script over this outside: what is written into so much room, and the status.
fn opened<O: Outside>(
    alloc: Global,
    script: &str,
    room: usize,
    real: &mut O,
) -> Result<(MemSink, u8), Fail> {
    let words = texts(alloc, &["open"])?;
    let mut source = MemSource::new(script.as_bytes().to_vec(alloc)?, 1000, Vec::new(alloc));
    let mut sink = MemSink::new(alloc, room, 700, Vec::new(alloc))?;
    let status = run(alloc, words.as_slice(), &mut source, &mut sink, real);
    Ok((sink, status))
}

/// What a client under EXTERNAL as the user 1000 sends first, in hexadecimal digits.
const AUTH: &str = "00415554482045585445524e414c2033313330333033300d0a";

const TWO: &str = "rounds 5
client EXTERNAL 1000 - n - unix:path=/run/a
client EXTERNAL 1000 - n - unix:path=/run/b
";

const ANSWERS: &str = "dial 0 open n
dial 1 open n
recv 0 bytes 4f4b2031323334646561646265656631323334646561646265656631323334353637380d0a
";

const SECOND_OPENS: &str =
    "recv 1 bytes 4f4b2031323334646561646265656631323334646561646265656631323334353637380d0a\n";

const FIRST_OPEN: &str =
    "session 0 open:1234deadbeef1234deadbeef12345678:n 00415554482045585445524e414c2033313330333033300d0a424547494e0d0a . -\n";

const SECOND_OPEN: &str =
    "session 1 open:1234deadbeef1234deadbeef12345678:n 00415554482045585445524e414c2033313330333033300d0a424547494e0d0a . -\n";

const SECOND_WAITING: &str =
    "session 1 waiting 00415554482045585445524e414c2033313330333033300d0a . -\n";

#[test]
fn sessions_alone_are_written_of_an_outside_that_follows_a_script(
    rt: HostRuntime,
) -> Result<(), Fail> {
    // What the second peer answers besides, its line, and the status.
    let rows = [
        (SECOND_OPENS, SECOND_OPEN, 0),
        ("", SECOND_WAITING, 1),
        ("modify fault\n", "", 6),
    ];
    let alloc = rt.alloc();
    for (answer, second, wanted) in rows {
        let played = format!(in alloc; "{TWO}{ANSWERS}{answer}")?;
        let mut scene = Scene::from_script(alloc, played.as_bytes(), ScriptForm::Play)?.scene;
        let (sink, status) = opened(alloc, TWO, 1000, &mut scene)?;
        let first = if wanted == 6 { "" } else { FIRST_OPEN };
        let text = format!(in alloc; "{first}{second}")?;
        assert_eq!(rt; sink.bytes(), text.as_bytes(), "{answer}");
        assert_eq!(rt; status, wanted, "{answer}");
    }
    Ok(())
}

#[test]
fn a_script_that_is_opened_has_sessions_alone(rt: HostRuntime) -> Result<(), Fail> {
    let client = "client EXTERNAL 1000 - n - unix:path=/nowhere/bus\n";
    let rows = [
        ("rounds 1\nstart 0 0\n", "", "refused 2 form\n"),
        ("rounds 1\nnow 0\n", "", "refused 2 form\n"),
        ("rounds 1\n", "dial 0 open n\n", "refused 3 form\n"),
        ("start 0 0\n", "", "refused 1 form\n"),
        ("", "rounds 1\n", "refused 1 order\n"),
        ("# nothing\n", "", "refused 2 order\n"),
    ];
    let alloc = rt.alloc();
    let mut real = Edges::new(rt, alloc)?;
    for (before, behind, text) in rows {
        let script = format!(in alloc; "{before}{client}{behind}")?;
        let (sink, status) = opened(alloc, script.as_str(), 100, &mut real)?;
        assert_eq!(rt; sink.bytes(), text.as_bytes(), "{before}");
        assert_eq!(rt; status, 2, "{before}");
    }
    Ok(())
}

#[test]
fn real_things_that_are_not_there_end_their_sessions(rt: HostRuntime) -> Result<(), Fail> {
    // An address, how its session ends, and what it wrote.
    let rows = [
        ("unix:path=/nowhere/bus", "connection", "."),
        ("unixexec:path=/nowhere/program", "connection", "."),
        // A program that sends back what it got: a line that begins with NUL.
        ("unixexec:path=cat", "handshake", AUTH),
        ("foo:a=b", "address:UnknownTransport", "."),
    ];
    let alloc = rt.alloc();
    let mut real = Edges::new(rt, alloc)?;
    for (address, ending, written) in rows {
        let script = format!(in alloc; "rounds 10\nclient EXTERNAL 1000 - n - {address}\n")?;
        let text = format!(in alloc; "session 0 {ending} {written} . -\n")?;
        let (sink, status) = opened(alloc, script.as_str(), 200, &mut real)?;
        assert_eq!(rt; sink.bytes(), text.as_bytes(), "{address}");
        assert_eq!(rt; status, 1, "{address}");
    }
    Ok(())
}

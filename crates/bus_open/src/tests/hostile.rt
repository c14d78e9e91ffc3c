//! Peers and pollers that do what they like, played.

use super::program::outcome;
use std::alloc::Global;
use std::test::Fail;

/// A session whose peer says nothing, and one round.
const SILENT: &str = "rounds 1
client EXTERNAL 1000 - n - unix:path=/run/a
dial 0 open n
";

/// What is printed of it, up to its sleep.
const ASLEEP: &str = "session 0 waiting 00415554482045585445524e414c2033313330333033300d0a . -
dial 0 unix 2f72756e2f61 = open n
add 0 0 ok
send 0 00415554482045585445524e414c2033313330333033300d0a took 25
recv 0 1024 again
modify 0 0 r ok
now 0
";

/// What its wait gives, and what is printed then.
const WAITS: [(&str, &str); 3] = [
    (
        "wait reports 0r 0r\n",
        "wait - reports 0r 0r\nrecv 0 1024 again\nrecv 0 1024 again\nmodify 0 0 r ok\ndelete 0 0 ok\n",
    ),
    ("wait reports k7r\n", "wait - reports 7r\ndelete 0 0 ok\n"),
    ("wait interrupted\n", "wait - interrupted\ndelete 0 0 ok\n"),
];

#[test]
fn a_poller_that_reports_what_it_likes_wakes_no_more_than_it_names(
    rt: HostRuntime,
) -> Result<(), Fail> {
    for (wait, then) in WAITS {
        let script = text(rt.alloc(), &[SILENT, wait])?;
        let printed = text(rt.alloc(), &[ASLEEP, then])?;
        let (sink, status) = outcome(rt.alloc(), &["play"], script.as_bytes(), &[], 4000)?;
        assert_eq!(rt; sink.bytes(), printed.as_bytes(), "{wait}");
        assert_eq!(rt; status, 1, "{wait}");
    }
    Ok(())
}

/// Two clients, the first of which is let in.
const PAIR: &str = "rounds 5
client EXTERNAL 1000 - n - unix:path=/run/a
client EXTERNAL 1000 - n - unix:path=/run/b
dial 0 open n
dial 1 open n
recv 0 bytes 4f4b2031323334646561646265656631323334646561646265656631323334353637380d0a
";

/// Scripts whose poller fails.
const FAILURES: [(&str, &str); 3] = [
    (SILENT, "wait fault\n"),
    (PAIR, "add fault\n"),
    (PAIR, "delete fault\n"),
];

#[test]
fn a_poller_that_fails_leaves_nothing_printed(rt: HostRuntime) -> Result<(), Fail> {
    for (script, line) in FAILURES {
        let script = text(rt.alloc(), &[script, line])?;
        let (sink, status) = outcome(rt.alloc(), &["play"], script.as_bytes(), &[], 4000)?;
        assert_eq!(rt; sink.bytes().len(), 0, "{line}");
        assert_eq!(rt; status, 6, "{line}");
    }
    Ok(())
}

const CLIENT: &str = "client EXTERNAL 1000 - n - unix:path=/run/a\ndial 0 open n\n";

const SERVER: &str = "server 1234deadbeef1234deadbeef12345678 EXTERNAL 1000 -\ndial 0 open n\n";

/// What a server says that lets its client in.
const ACCEPTANCE: &[u8] = b"OK 1234deadbeef1234deadbeef12345678\r\n";

/// The line of a client that was let in.
const OPEN: &str =
    "session 0 open:1234deadbeef1234deadbeef12345678:n 00415554482045585445524e414c2033313330333033300d0a424547494e0d0a . -\n";

/// These texts, one after the other.
fn text(alloc: Global, parts: &[&str]) -> Result<String, Fail> {
    let mut text = String::new(alloc);
    for part in parts {
        text.push_str(part)?;
    }
    Ok(text)
}

/// The acceptance, a byte a read, with a pause after each; each further byte has a second one.
fn paused_acceptance(alloc: Global) -> Result<String, Fail> {
    let mut script = text(alloc, &["rounds 40\n", CLIENT])?;
    let mut pauses = "recv 0 again\n";
    for byte in ACCEPTANCE {
        writeln!(script, "recv 0 bytes {byte:02x}")?;
        script.push_str(pauses)?;
        pauses = "recv 0 again\nrecv 0 again\n";
    }
    for _ in 0..40u8 {
        script.push_str("wait reports 0r\n")?;
    }
    Ok(script)
}

/// A wire that takes one byte a send.
fn narrow_wire(alloc: Global) -> Result<String, Fail> {
    let mut script = text(alloc, &["rounds 5\n", CLIENT])?;
    script.push_str(
        "recv 0 bytes 4f4b2031323334646561646265656631323334646561646265656631323334353637380d0a\n",
    )?;
    for _ in 0..32u8 {
        script.push_str("send 0 took 1\n")?;
    }
    Ok(script)
}

#[test]
fn single_bytes_and_pauses_change_no_ending(rt: HostRuntime) -> Result<(), Fail> {
    let alloc = rt.alloc();
    let server = [
        "rounds 5\n",
        SERVER,
        "recv 0 bytes 415554482045585445524e414c2033313330333033300d0a\n",
    ];
    let cut_off = ["rounds 0\n", CLIENT, "recv 0 bytes 4f\nrecv 0 end\n"];
    let rows = [
        (paused_acceptance(alloc)?, OPEN, 0),
        (narrow_wire(alloc)?, OPEN, 0),
        (
            text(alloc, &cut_off)?,
            "session 0 handshake 00415554482045585445524e414c2033313330333033300d0a 4f -\n",
            1,
        ),
        (text(alloc, &server)?, "session 0 handshake . . -\n", 1),
    ];
    for (script, line, wanted) in &rows {
        let (sink, status) = outcome(alloc, &["play"], script.as_bytes(), &[], 20_000)?;
        assert!(rt; sink.bytes().starts_with(line.as_bytes()), "{line}");
        assert_eq!(rt; status, *wanted, "{line}");
    }
    Ok(())
}

/// So many bytes 00 in hexadecimal.
fn push_zeros(script: &mut String, count: usize) -> Result<(), Fail> {
    for _ in 0..count {
        script.push_str("00")?;
    }
    Ok(())
}

#[test]
fn a_line_of_16385_zeros_is_too_long_and_left_over(rt: HostRuntime) -> Result<(), Fail> {
    let mut script = text(rt.alloc(), &["rounds 5\n", SERVER])?;
    let mut printed = text(rt.alloc(), &["session 0 line-too-long . "])?;
    for _ in 0..16u8 {
        script.push_str("recv 0 bytes ")?;
        push_zeros(&mut script, 1024)?;
        script.push_str("\n")?;
        push_zeros(&mut printed, 1024)?;
    }
    script.push_str("recv 0 bytes 00\n")?;
    printed.push_str("00 -\n")?;
    let (sink, status) = outcome(rt.alloc(), &["play"], script.as_bytes(), &[], 100_000)?;
    assert!(rt; sink.bytes().starts_with(printed.as_bytes()));
    assert_eq!(rt; status, 1);
    Ok(())
}

//! The program on whole scripts, over streams in memory.

use crate::memory::{MemSink, MemSource};
use crate::program::run;
use bus_peers::{Scene, ScriptForm};
use std::alloc::Global;
use std::test::Fail;

pub(crate) fn texts(alloc: Global, list: &[&str]) -> Result<Vec<String>, Fail> {
    let mut words = Vec::new(alloc);
    for word in list {
        words.push(String::from_str(alloc, word)?)?;
    }
    Ok(words)
}

/// An outside that none of these commands uses.
pub(crate) fn unused(alloc: Global) -> Result<Scene, Fail> {
    Ok(Scene::from_script(alloc, b"rounds 0", ScriptForm::Play)?.scene)
}

/// Runs the program on this script: what it writes into so much room, and its status.
pub(crate) fn outcome(
    alloc: Global,
    words: &[&str],
    script: &[u8],
    read_faults: &[u64],
    room: usize,
) -> Result<(MemSink, u8), Fail> {
    let words = texts(alloc, words)?;
    let mut source = MemSource::new(script.to_vec(alloc)?, 1000, read_faults.to_vec(alloc)?);
    let mut sink = MemSink::new(alloc, room, 700, Vec::new(alloc))?;
    let mut real = unused(alloc)?;
    let status = run(alloc, words.as_slice(), &mut source, &mut sink, &mut real);
    Ok((sink, status))
}

const CLIENT: &str = "client EXTERNAL 1000 - n - unix:path=/run/a\n";

#[test]
fn words_and_scripts_are_refused_with_their_line_and_reason(rt: HostRuntime) -> Result<(), Fail> {
    let words: [(&[&str], &str); 14] = [
        (&[], "refused 0 words\n"),
        (&["play", "x"], "refused 0 words\n"),
        (&["playing"], "refused 0 words\n"),
        (&["open", "x"], "refused 0 words\n"),
        (&["Open"], "refused 0 words\n"),
        (&["bulk", "10001"], "refused 0 words\n"),
        (&["bulk", "06"], "refused 0 words\n"),
        (&["bulk", "+6"], "refused 0 words\n"),
        (&["bulk", ""], "refused 0 words\n"),
        (&["bulk"], "refused 0 words\n"),
        (&["check", "signature", "xs", ""], "refused 0 words\n"),
        (&["check", "Signature", "xs"], "refused 0 words\n"),
        (&["check", "colour", "red"], "refused 0 words\n"),
        (&["check", "signature"], "refused 0 words\n"),
    ];
    for (words, text) in words {
        let (sink, status) = outcome(rt.alloc(), words, b"rounds 5\n", &[], 100)?;
        assert_eq!(rt; sink.bytes(), text.as_bytes());
        assert_eq!(rt; status, 2, "{text}");
    }
    let scripts = [
        ("", "refused 0 order\n"),
        ("rounds 1\nclient", "refused 2 form\n"),
        ("rounds 1\nrecv 0 again", "refused 2 session\n"),
        ("rounds 0\nnow 5\nnow 4\n", "refused 3 clock\n"),
    ];
    for (script, text) in scripts {
        let (sink, status) = outcome(rt.alloc(), &["play"], script.as_bytes(), &[], 100)?;
        assert_eq!(rt; sink.bytes(), text.as_bytes(), "{script}");
        assert_eq!(rt; status, 2, "{script}");
    }
    Ok(())
}

/// What a client under EXTERNAL as the user 1000 sends first, and `OK` with a GUID, in hexadecimal digits.
const AUTH: &str = "00415554482045585445524e414c2033313330333033300d0a";

const OK: &str = "4f4b2031323334646561646265656631323334646561646265656631323334353637380d0a";

pub(crate) const TWO_CLIENTS: &str = "rounds 5
client EXTERNAL 1000 - n - unix:path=/run/a
client EXTERNAL 1000 - n - unix:path=/run/b
dial 0 open n
dial 1 open n
recv 0 bytes 4f4b2031323334646561646265656631323334646561646265656631323334353637380d0a
recv 1 bytes 4f4b2031323334646561646265656631323334646561646265656631323334353637380d0a
";

pub(crate) const TWO_OPEN: &str =
    "session 0 open:1234deadbeef1234deadbeef12345678:n 00415554482045585445524e414c2033313330333033300d0a424547494e0d0a . -
session 1 open:1234deadbeef1234deadbeef12345678:n 00415554482045585445524e414c2033313330333033300d0a424547494e0d0a . -
dial 0 unix 2f72756e2f61 = open n
add 0 0 ok
send 0 00415554482045585445524e414c2033313330333033300d0a took 25
recv 0 1024 bytes 4f4b2031323334646561646265656631323334646561646265656631323334353637380d0a
send 0 424547494e0d0a took 7
delete 0 0 ok
dial 1 unix 2f72756e2f62 = open n
add 1 0 ok
send 1 00415554482045585445524e414c2033313330333033300d0a took 25
recv 1 1024 bytes 4f4b2031323334646561646265656631323334646561646265656631323334353637380d0a
send 1 424547494e0d0a took 7
delete 1 0 ok
";

/// What is told of the second of two clients, whatever the first one's peer says.
const ALONE_OPEN: &str =
    "session 1 open:1234deadbeef1234deadbeef12345678:n 00415554482045585445524e414c2033313330333033300d0a424547494e0d0a . -
dial 1 unix 2f72756e2f62 = open n
send 1 00415554482045585445524e414c2033313330333033300d0a took 25
recv 1 1024 bytes 4f4b2031323334646561646265656631323334646561646265656631323334353637380d0a
send 1 424547494e0d0a took 7
";

/// A client whose peer says nothing, and who is left waiting at once.
const ASLEEP: &str = "rounds 0
client EXTERNAL 1000 - n - unix:path=/run/a
dial 0 open n
";

const LEFT_WAITING: &str = "session 0 waiting 00415554482045585445524e414c2033313330333033300d0a . -
dial 0 unix 2f72756e2f61 = open n
add 0 0 ok
send 0 00415554482045585445524e414c2033313330333033300d0a took 25
recv 0 1024 again
modify 0 0 r ok
delete 0 0 ok
";

/// The same client, of whom a round reports the direction that does not wait.
const REPORTED: &str = "rounds 1
client EXTERNAL 1000 - n - unix:path=/run/a
dial 0 open n
wait reports 0w
";

const ARMED_AGAIN: &str = "session 0 waiting 00415554482045585445524e414c2033313330333033300d0a . -
dial 0 unix 2f72756e2f61 = open n
add 0 0 ok
send 0 00415554482045585445524e414c2033313330333033300d0a took 25
recv 0 1024 again
modify 0 0 r ok
now 0
wait - reports 0w
modify 0 0 r ok
delete 0 0 ok
";

/// Two clients that sleep: the second is reported first, then a wait is interrupted, then the first is reported.
const TWO_ASLEEP: &str = "rounds 3
client EXTERNAL 1000 - n - unix:path=/run/a
client EXTERNAL 1000 - n - unix:path=/run/b
dial 0 open n
dial 1 open n
recv 0 again
recv 0 bytes 4f4b2031323334646561646265656631323334646561646265656631323334353637380d0a
recv 1 again
recv 1 end
wait reports 1r
wait interrupted
wait reports k0r
";

const EACH_REPORTED: &str =
    "session 0 open:1234deadbeef1234deadbeef12345678:n 00415554482045585445524e414c2033313330333033300d0a424547494e0d0a . -
session 1 handshake 00415554482045585445524e414c2033313330333033300d0a . -
dial 0 unix 2f72756e2f61 = open n
add 0 0 ok
send 0 00415554482045585445524e414c2033313330333033300d0a took 25
recv 0 1024 again
modify 0 0 r ok
dial 1 unix 2f72756e2f62 = open n
add 1 1 ok
send 1 00415554482045585445524e414c2033313330333033300d0a took 25
recv 1 1024 again
modify 1 1 r ok
now 0
wait - reports 1r
recv 1 1024 end
delete 1 1 ok
now 0
wait - interrupted
now 0
wait - reports 0r
recv 0 1024 bytes 4f4b2031323334646561646265656631323334646561646265656631323334353637380d0a
send 0 424547494e0d0a took 7
delete 0 0 ok
";

/// The poller fails where the client is to wait.
const REFUSED_ARMING: &str = "rounds 1
client EXTERNAL 1000 - n - unix:path=/run/a
dial 0 open n
modify fault
";

/// A server whose client gives its name at the second try.
const SERVED: &str = "rounds 5
server 1234deadbeef1234deadbeef12345678 EXTERNAL 1000 -
dial 0 open n
recv 0 bytes 00415554482045585445524e414c0d0a444154410d0a424547494e0d0a
";

const SERVED_OPEN: &str =
    "session 0 open:1234deadbeef1234deadbeef12345678:n 444154410d0a4f4b2031323334646561646265656631323334646561646265656631323334353637380d0a . -
dial 0 accept = open n
add 0 0 ok
recv 0 1024 bytes 00415554482045585445524e414c0d0a444154410d0a424547494e0d0a
send 0 444154410d0a took 6
send 0 4f4b2031323334646561646265656631323334646561646265656631323334353637380d0a took 37
delete 0 0 ok
";

/// A server over a wire that passes descriptors, which its client asks for.
const PASSING: &str = "rounds 5
server 1234deadbeef1234deadbeef12345678 EXTERNAL 1000 -
dial 0 open y
recv 0 bytes 00415554482045585445524e414c2033313330333033300d0a4e45474f54494154455f554e49585f46440d0a424547494e0d0a
";

const PASSING_OPEN: &str =
    "session 0 open:1234deadbeef1234deadbeef12345678:y 4f4b2031323334646561646265656631323334646561646265656631323334353637380d0a41475245455f554e49585f46440d0a . -
dial 0 accept = open y
add 0 0 ok
recv 0 1024 bytes 00415554482045585445524e414c2033313330333033300d0a4e45474f54494154455f554e49585f46440d0a424547494e0d0a
send 0 4f4b2031323334646561646265656631323334646561646265656631323334353637380d0a took 37
send 0 41475245455f554e49585f46440d0a took 15
delete 0 0 ok
";

/// A wire that takes three bytes of the first piece, and then none.
const CUT_SEND: &str = "rounds 0
client EXTERNAL 1000 - n - unix:path=/run/a
dial 0 open n
send 0 took 3
send 0 took 0
";

const CUT_IO: &str = "session 0 io 004155 . -
dial 0 unix 2f72756e2f61 = open n
add 0 0 ok
send 0 00415554482045585445524e414c2033313330333033300d0a took 3
send 0 54482045585445524e414c2033313330333033300d0a fault
delete 0 0 ok
";

#[test]
fn played_scripts_print_their_endings_and_events(rt: HostRuntime) -> Result<(), Fail> {
    let rows = [
        ("rounds 5\n", "", 0),
        (TWO_CLIENTS, TWO_OPEN, 0),
        (ASLEEP, LEFT_WAITING, 1),
        (REPORTED, ARMED_AGAIN, 1),
        (TWO_ASLEEP, EACH_REPORTED, 1),
        (REFUSED_ARMING, "", 6),
        (SERVED, SERVED_OPEN, 0),
        (PASSING, PASSING_OPEN, 0),
        (CUT_SEND, CUT_IO, 1),
    ];
    for (script, text, status) in rows {
        let (sink, answer) = outcome(rt.alloc(), &["play"], script.as_bytes(), &[], 5000)?;
        assert_eq!(rt; sink.bytes(), text.as_bytes(), "{script}");
        assert_eq!(rt; answer, status, "{script}");
    }
    Ok(())
}

#[test]
fn a_bulk_run_sums_its_sessions_up(rt: HostRuntime) -> Result<(), Fail> {
    let rows = [
        (
            "0",
            "bulk 0 open 0 connection 0 handshake 0 timed-out 0 written 0\n",
            0,
        ),
        (
            "6",
            "bulk 6 open 3 connection 1 handshake 1 timed-out 1 written 157\n",
            1,
        ),
        (
            "10000",
            "bulk 10000 open 5001 connection 1667 handshake 1666 timed-out 1666 written 261669\n",
            1,
        ),
        ("10001", "refused 0 words\n", 2),
    ];
    for (count, text, wanted) in rows {
        let (sink, status) = outcome(rt.alloc(), &["bulk", count], b"rounds 5\n", &[], 100)?;
        assert_eq!(rt; sink.bytes(), text.as_bytes(), "{count}");
        assert_eq!(rt; status, wanted, "{count}");
    }
    Ok(())
}

/// One client whose peer says 16383 times `A`, CR and LF: a line as long as one may be.
#[test]
fn a_longest_line_is_read_1024_bytes_at_a_time(rt: HostRuntime) -> Result<(), Fail> {
    let alloc = rt.alloc();
    let mut script = String::new(alloc);
    let mut text = String::new(alloc);
    writeln!(script, "rounds 5\n{CLIENT}dial 0 open n")?;
    write!(script, "recv 0 bytes ")?;
    push_times(&mut script, "41", 16383)?;
    writeln!(script, "0d0a")?;
    writeln!(text, "session 0 handshake {AUTH} . -")?;
    writeln!(
        text,
        "dial 0 unix 2f72756e2f61 = open n\nadd 0 0 ok\nsend 0 {AUTH} took 25"
    )?;
    for _ in 0..15 {
        write!(text, "recv 0 1024 bytes ")?;
        push_times(&mut text, "41", 1024)?;
        writeln!(text, "")?;
    }
    write!(text, "recv 0 1024 bytes ")?;
    push_times(&mut text, "41", 1023)?;
    writeln!(text, "0d\nrecv 0 1024 bytes 0a\ndelete 0 0 ok")?;
    let (sink, status) = outcome(alloc, &["play"], script.as_str().as_bytes(), &[], 50_000)?;
    assert_eq!(rt; sink.bytes(), text.as_str().as_bytes());
    assert_eq!(rt; status, 1);
    Ok(())
}

/// A wait whose answer names 70 keys gives the first 64.
#[test]
fn a_wait_gives_as_many_reports_as_the_reactor_takes(rt: HostRuntime) -> Result<(), Fail> {
    let alloc = rt.alloc();
    let mut script = String::new(alloc);
    let mut text = String::new(alloc);
    write!(script, "rounds 1\n{CLIENT}dial 0 open n\nwait reports")?;
    writeln!(text, "session 0 waiting {AUTH} . -")?;
    writeln!(
        text,
        "dial 0 unix 2f72756e2f61 = open n\nadd 0 0 ok\nsend 0 {AUTH} took 25"
    )?;
    write!(
        text,
        "recv 0 1024 again\nmodify 0 0 r ok\nnow 0\nwait - reports"
    )?;
    for key in 100..170 {
        write!(script, " k{key}r")?;
        if key < 164 {
            write!(text, " {key}r")?;
        }
    }
    writeln!(script, "")?;
    writeln!(text, "\ndelete 0 0 ok")?;
    let (sink, status) = outcome(alloc, &["play"], script.as_str().as_bytes(), &[], 5000)?;
    assert_eq!(rt; sink.bytes(), text.as_str().as_bytes());
    assert_eq!(rt; status, 1);
    Ok(())
}

fn push_times(text: &mut String, piece: &str, count: usize) -> Result<(), Fail> {
    for _ in 0..count {
        text.push_str(piece)?;
    }
    Ok(())
}

/// What a run told of the second session: its ending and its part of the record.
fn told_of_the_second(alloc: Global, script: &str) -> Result<String, Fail> {
    let (sink, _status) = outcome(alloc, &["play"], script.as_bytes(), &[], 200_000)?;
    let text = String::from_utf8(sink.bytes().to_vec(alloc)?)?;
    let mut told = String::new(alloc);
    for line in text.as_str().split('\n') {
        for word in ["session 1 ", "dial 1 ", "send 1 ", "recv 1 "] {
            if line.starts_with(word) {
                writeln!(told, "{line}")?;
            }
        }
    }
    Ok(told)
}

/// Two clients of which the first meets a hostile peer, and the second one that opens.
fn beside(alloc: Global, first: &str) -> Result<String, Fail> {
    let mut script = String::new(alloc);
    write!(
        script,
        "rounds 5\n{CLIENT}client EXTERNAL 1000 - n - unix:path=/run/b\n"
    )?;
    write!(script, "{first}dial 1 open n\nrecv 1 bytes {OK}\n")?;
    Ok(script)
}

#[test]
fn a_hostile_peer_changes_nothing_for_its_neighbour(rt: HostRuntime) -> Result<(), Fail> {
    let alloc = rt.alloc();
    let alone = beside(alloc, "dial 0 fault\n")?;
    let wanted = told_of_the_second(alloc, alone.as_str())?;
    assert_eq!(rt; wanted.as_str(), ALONE_OPEN);

    // A piece in hexadecimal digits, and how often the peer says it: nonsense in 64 lines, half a line, NUL bytes, 16385
    // bytes without a line feed, and nothing.
    let pieces = [
        ("41410d0a", 64),
        ("4f4b20", 1),
        ("00", 40),
        ("41", 16385),
        ("41", 0),
    ];
    for (piece, count) in pieces {
        let mut first = String::new(alloc);
        write!(first, "dial 0 open n\n")?;
        if count > 0 {
            write!(first, "recv 0 bytes ")?;
            push_times(&mut first, piece, count)?;
            write!(first, "\n")?;
        }
        let script = beside(alloc, first.as_str())?;
        let told = told_of_the_second(alloc, script.as_str())?;
        assert_eq!(rt; told.as_str(), wanted.as_str(), "{piece}");
    }
    Ok(())
}

#[test]
fn a_read_fault_writes_nothing(rt: HostRuntime) -> Result<(), Fail> {
    for call in [1, 2] {
        let (sink, status) = outcome(rt.alloc(), &["play"], TWO_CLIENTS.as_bytes(), &[call], 5000)?;
        assert_eq!(rt; sink.bytes(), b"".as_slice());
        assert_eq!(rt; status, 3);
    }
    Ok(())
}

#[test]
fn a_sink_that_fails_holds_the_first_bytes(rt: HostRuntime) -> Result<(), Fail> {
    let (sink, status) = outcome(rt.alloc(), &["play"], TWO_CLIENTS.as_bytes(), &[], 10)?;
    assert_eq!(rt; sink.bytes(), b"session 0 ".as_slice());
    assert_eq!(rt; status, 4);
    let (sink, status) = outcome(rt.alloc(), &["play", "x"], b"", &[], 10)?;
    assert_eq!(rt; sink.bytes(), b"refused 0 ".as_slice());
    assert_eq!(rt; status, 2);
    Ok(())
}

#[test]
fn a_text_is_said_to_be_what_it_is(rt: HostRuntime) -> Result<(), Fail> {
    // The kind and the text, and the line and the status.
    let rows: [(&str, &str, &str, u8); 30] = [
        ("signature", "a{sv}", "ok a{sv} 5 4\n", 0),
        ("signature", "xs", "ok (xs) 4 8\n", 0),
        ("signature", "(xs)", "ok (xs) 4 8\n", 0),
        ("signature", "a{vs}", "ok a{vs} 5 4\n", 0),
        ("signature", "", "ok  0 8\n", 0),
        ("signature", "()", "refused InvalidSignature\n", 1),
        ("signature", "a{y}", "refused InvalidSignature\n", 1),
        ("signature", "xs)", "refused InvalidSignature\n", 1),
        ("signature", "a", "refused InvalidSignature\n", 1),
        ("bus", "org.freedesktop.DBus", "ok unique\n", 0),
        ("bus", ":1.42", "ok unique\n", 0),
        ("bus", "org.example.Clock", "ok well-known\n", 0),
        ("bus", "org", "refused InvalidName\n", 1),
        ("well-known", "org.freedesktop.DBus", "ok\n", 0),
        ("unique", ":1.42", "ok\n", 0),
        ("unique", ":1", "refused InvalidName\n", 1),
        ("interface", "org.example.Alarm", "ok\n", 0),
        ("error", "org.example.Alarm.NoSuchTime", "ok\n", 0),
        ("member", "SetAlarm", "ok\n", 0),
        ("member", "a.b", "refused InvalidName\n", 1),
        ("property", "", "refused InvalidName\n", 1),
        ("property", "\u{1}\"\u{e9}'", "ok\n", 0),
        (
            "address",
            "ibus:guid=1234deadbeef1234deadbeef12345678",
            "ok ibus:guid=1234deadbeef1234deadbeef12345678\n",
            0,
        ),
        (
            "address",
            "ibus:,guid=1234deadbeef1234deadbeef12345678",
            "refused Form\n",
            1,
        ),
        ("address", "", "refused Form\n", 1),
        (
            "address",
            "unix:path=/tmp,abstract=foo",
            "refused Keys\n",
            1,
        ),
        ("address", "tcp:host=localhost", "refused MissingPort\n", 1),
        ("address", "unix:path=/a b", "refused BadEscape\n", 1),
        ("address", "unix:path=/a,path=/b", "ok unix:path=/b\n", 0),
        (
            "address",
            "nonce-tcp:host=localhost,port=4142,family=ipv6,noncefile=/a/file/path%20to%20file%201234",
            "ok nonce-tcp:noncefile=/a/file/path%20to%20file%201234,host=localhost,port=4142,family=ipv6\n",
            0,
        ),
    ];
    for (kind, text, line, wanted) in rows {
        let (sink, status) = outcome(rt.alloc(), &["check", kind, text], b"", &[1], 200)?;
        assert_eq!(rt; sink.bytes(), line.as_bytes(), "{kind} {text}");
        assert_eq!(rt; status, wanted, "{kind} {text}");
    }
    Ok(())
}

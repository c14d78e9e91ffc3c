use crate::forms::line_of;
use crate::line::LineError;
use crate::reading::Draft;
use crate::words::words;
use crate::*;
use bus_address::Guid;
use bus_opening::AuthMechanism;
use bus_session::{Ended, Ending, Party, Session};
use react_core::outside::{
    Args, Bytes, DialAnswer, Event, Peer, Peers, Question, RecvAnswer, Report, Reports, SendAnswer,
    WaitAnswer,
};
use std::alloc::Global;
use std::test::Fail;

const GUID: &str = "1234deadbeef1234deadbeef12345678";

const CLIENT: &str = "client EXTERNAL 1000 - n - unix:path=/run/a";

/// The text of the refusal, or nothing where the script is read.
fn refusal_of(alloc: Global, text: &[u8]) -> Result<String, Fail> {
    match read(alloc, text, ScriptForm::Play) {
        Ok(_) => Ok(String::new(alloc)),
        Err(ScriptError::Refused { line, reason }) => Ok(refusal(alloc, line, reason)?),
        Err(ScriptError::OutOfMemory) => Err(Fail::from("memory")),
    }
}

#[test]
fn whole_scripts_are_read_or_refused_at_their_first_bad_line(rt: HostRuntime) -> Result<(), Fail> {
    let rows = [
        ("", "refused 0 order\n"),
        ("# nothing\n\n", "refused 0 order\n"),
        ("rounds 5", ""),
        ("\n# first\nrounds 5\n", ""),
        ("rounds 1\nclient", "refused 2 form\n"),
        ("rounds 1\nrecv 0 end", "refused 2 session\n"),
        ("rounds 1\n\n# skipped\nrecv 0 end", "refused 4 session\n"),
        ("# first\nrecv 0 end\nrounds 1", "refused 2 order\n"),
        ("what\nrounds 1", "refused 1 form\n"),
        ("notify ok\nrounds 1", "refused 1 order\n"),
        (
            "client EXTERNAL 1000 - n 9 unix:path=/run/a\nrounds 1",
            "refused 1 order\n",
        ),
        ("rounds 0\nnow 5\nnow 4", "refused 3 clock\n"),
        ("rounds 1\nstart 18446744073709551615 0", ""),
        ("start 0 0\nrounds 1", "refused 1 order\n"),
        ("rounds 0\nrounds 1", "refused 2 order\n"),
        ("rounds 1\r\n", "refused 1 form\n"),
        ("rounds 1\n\r\n", "refused 2 form\n"),
        ("rounds 05", "refused 1 form\n"),
        ("rounds +5", "refused 1 form\n"),
        ("rounds 18446744073709551615", ""),
        ("rounds 18446744073709551616", "refused 1 form\n"),
        ("rounds 1\nclient ANONYMOUS 1000 - n - unix:path=/run/a", ""),
        ("rounds 1\nclient EXTERNAL 1000 - n 9 unix:path=/run/a", ""),
        (
            "rounds 1\nclient EXTERNAL 1 - n - unix:path=/a\nrecv 0 end\nclient EXTERNAL 1 - n - unix:path=/a",
            "refused 4 order\n",
        ),
    ];
    for (text, wanted) in rows {
        let found = refusal_of(rt.alloc(), text.as_bytes())?;
        assert_eq!(rt; found.as_str(), wanted, "{text}");
    }
    let found = refusal_of(rt.alloc(), b"rounds 1\n# \xff")?;
    assert_eq!(rt; found.as_str(), "refused 0 text\n");
    Ok(())
}

#[test]
fn a_script_may_have_16777216_bytes(rt: HostRuntime) -> Result<(), Fail> {
    let mut text = vec![in rt.alloc(); b'#'; 16_777_216]?;
    let found = refusal_of(rt.alloc(), text.as_slice())?;
    assert_eq!(rt; found.as_str(), "refused 0 order\n");
    text.push(b'#')?;
    let found = refusal_of(rt.alloc(), text.as_slice())?;
    assert_eq!(rt; found.as_str(), "refused 0 length\n");
    Ok(())
}

#[test]
fn each_form_of_a_line_is_read_or_refused(rt: HostRuntime) -> Result<(), Fail> {
    let built = [
        "",
        "# recv 9 what",
        "dial 0 open n",
        "dial 0 open y",
        "dial 0 fault",
        "dial 0 peers",
        "dial 0 peers 4-7F000001-4142 6-00000000000000000000000000000001-65535",
        "dial 0 nonce .",
        "dial 0 nonce 00fF",
        "dial 0 output y 2f61",
        "dial 0 output n .",
        "recv 0 bytes 0aFf",
        "recv 0 end",
        "recv 0 again",
        "recv 0 fault",
        "send 0 took 18446744073709551615",
        "send 0 again",
        "send 0 fault",
        "add ok",
        "now 0",
        "notify fault",
        "modify fault",
        "delete ok",
        "wait reports",
        "wait reports 0rw k18446744073709551615w",
        "wait interrupted",
        "wait fault",
        "client EXTERNAL 4294967295 - n - unix:path=/a-_./\\*Z9",
        "client - 1000 - n - unix:path=/run/a",
        "client ANONYMOUS 1000 6c01 y - unix:path=/run/a",
        "client EXTERNAL 1000 . n - unix:path=/run/a",
        "client EXTERNAL 1000 - n - ",
        "client EXTERNAL 1000 - n - unix:path=",
        "client EXTERNAL 1000 - n - unix:path=/run/a b",
        "client EXTERNAL 1000 - n - unix:path=/run/a\r",
        "client EXTERNAL 1000 - n -  unix:path=/run/a",
        "server 1234DEADbeef1234deadbeef12345678 EXTERNAL 1000 -",
        "server 1234deadbeef1234deadbeef12345678 ANONYMOUS - -",
        "client - 0 . y 5 ",
        "client EXTERNAL 1000 - n 50 unix:path=/run/a",
        "server 1234deadbeef1234deadbeef12345678 ANONYMOUS - 5",
    ];
    let formless = [
        " ",
        "what",
        "rounds",
        "start 0",
        "start 0 0 0",
        "start 0 x",
        "client",
        "client EXTERNAL 1000 - n -",
        "client KERBEROS 1000 - n - x",
        "client EXTERNAL 4294967296 - n - x",
        "client EXTERNAL 1000  n - x",
        "client EXTERNAL 1000 - n . x",
        "server 12 EXTERNAL - -",
        "server 1234deadbeef1234deadbeef12345678 - - -",
        "server 1234deadbeef1234deadbeef12345678 EXTERNAL 4294967296 -",
        "server 1234deadbeef1234deadbeef12345678 EXTERNAL - - -",
        "dial",
        "dial 0",
        "dial 00 fault",
        "dial 4294967296 fault",
        "dial 0 open",
        "dial 0 open x",
        "dial 0 open n n",
        "dial 0 peers ",
        "dial 0 peers 4-7f000001",
        "dial 0 peers 4-7f00001-1",
        "dial 0 peers 5-7f000001-1",
        "dial 0 peers 6-7f000001-1",
        "dial 0 peers 4-7f000001-65536",
        "dial 0 peers 4-7f000001-01",
        "dial 0 nonce 0",
        "dial 0 nonce 00 00",
        "dial 0 output y",
        "dial 0 output 2f61 y",
        "dial 0 output y 2f61 .",
        "dial 0 fault fault",
        "recv 0 bytes .",
        "recv 0 bytes 0g",
        "recv 0 bytes 012",
        "recv 0 bytes",
        "recv 0 end ",
        "recv  0 end",
        " recv 0 end",
        "recv 0 end\r",
        "send 0 took",
        "send 0 took 18446744073709551616",
        "send 0 end",
        "now",
        "now -1",
        "add",
        "add yes",
        "modify ok ok",
        "notify",
        "wait",
        "wait reports 0",
        "wait reports 0n",
        "wait reports 0wr",
        "wait reports kr",
        "wait reports 4294967296r",
        "wait interrupted 0r",
    ];
    let sessions = [
        "dial 1 fault",
        "recv 1 end",
        "recv 4294967295 bytes 00",
        "wait reports 0rw 9r",
    ];
    let alloc = rt.alloc();
    assert!(rt; first_other(alloc, &built, "")?.is_none());
    assert!(rt; first_other(alloc, &formless, "refused 3 form\n")?.is_none());
    assert!(rt; first_other(alloc, &sessions, "refused 3 session\n")?.is_none());
    Ok(())
}

/// The text of the first of the lines that is not answered so, each as the third behind the rounds and one client.
fn first_other(alloc: Global, lines: &[&str], wanted: &str) -> Result<Option<String>, Fail> {
    for line in lines {
        let text = format!(in alloc; "rounds 1\n{CLIENT}\n{line}")?;
        let found = refusal_of(alloc, text.as_str().as_bytes())?;
        if found.as_str() != wanted {
            return Ok(Some(text));
        }
    }
    Ok(None)
}

/// The lines one after another: nothing, or the first refusal.
fn drafted(alloc: Global, lines: &[&str]) -> Result<Option<Reason>, Fail> {
    let mut draft = Draft::new(alloc);
    for line in lines {
        let words = words(alloc, line)?;
        let Ok(said) = line_of(alloc, words.as_slice()) else {
            return Ok(Some(Reason::Form));
        };
        match draft.add(said) {
            Ok(()) => {}
            Err(LineError::Refused(reason)) => return Ok(Some(reason)),
            Err(LineError::OutOfMemory) => return Err(Fail::from("memory")),
        }
    }
    Ok(None)
}

#[test]
fn lines_have_their_order_session_and_clock(rt: HostRuntime) -> Result<(), Fail> {
    let server = "server 1234deadbeef1234deadbeef12345678 EXTERNAL 1000 -";
    let rows: [(&[&str], Option<Reason>); 11] = [
        (&["rounds 0", "now 5", "now 4"], Some(Reason::Clock)),
        (&["rounds 0", "now 5", "add ok", "now 5", "now 6"], None),
        (
            &["rounds 0", "start 1 2", server, "wait reports 0r k7w"],
            None,
        ),
        (&["rounds 0", "start 1 2", "start 1 2"], Some(Reason::Order)),
        (&["rounds 0", server, "start 1 2"], Some(Reason::Order)),
        (&["rounds 0", "add ok", "start 1 2"], Some(Reason::Order)),
        (&["start 1 2"], Some(Reason::Order)),
        (&["rounds 0", "send 0 again"], Some(Reason::Session)),
        (
            &["rounds 0", server, "wait reports 0r 1w"],
            Some(Reason::Session),
        ),
        (&["rounds 0", "add fault", server], Some(Reason::Order)),
        (&["now 5", "rounds 0"], Some(Reason::Order)),
    ];
    for (lines, wanted) in rows {
        let found = drafted(rt.alloc(), lines)?;
        assert!(rt; found == wanted);
    }
    Ok(())
}

#[test]
fn a_script_gives_its_parts(rt: HostRuntime) -> Result<(), Fail> {
    let text =
        b"rounds 5\nclient EXTERNAL 1000 - n - unix:path=/run/a\nclient EXTERNAL 7 - n - unix:path=/run/b\n\
          dial 0 open n\ndial 1 fault\nrecv 0 bytes 4F4b\n";
    let Ok(script) = read(rt.alloc(), text, ScriptForm::Play) else {
        return Err(Fail::from("refused"));
    };
    assert_eq!(rt; script.rounds(), 5);
    assert!(rt; script.start() == Start { tick: 0, timer: 0 });
    assert_eq!(rt; script.sessions().len(), 2);
    assert_eq!(rt; script.answers().len(), 3);
    let parts = script.into_parts();
    assert_eq!(rt; parts.rounds, 5);
    assert_eq!(rt; parts.tick, 0);
    assert_eq!(rt; parts.timer, 0);
    let Some(
        Session {
            party: Party::Client { address, config },
            deadline,
        },
    ) = parts.sessions.get(1)
    else {
        return Err(Fail::from("no client"));
    };
    assert_eq!(rt; address.as_str(), "unix:path=/run/b");
    assert!(rt; config.mechanism == Some(AuthMechanism::External));
    assert_eq!(rt; config.user, 7);
    assert!(rt; config.hello.is_none());
    assert!(rt; !config.flatpak);
    assert!(rt; deadline.is_none());
    let Some(
        Answer::Recv {
            session,
            answer: RecvAnswer::Got(bytes),
        },
    ) = parts.answers.get(2)
    else {
        return Err(Fail::from("no bytes"));
    };
    assert_eq!(rt; *session, 0);
    assert_eq!(rt; bytes.as_slice(), b"OK".as_slice());
    Ok(())
}

fn bytes(alloc: Global, text: &[u8]) -> Result<Bytes, Fail> {
    Ok(Bytes::from_vec(text.to_vec(alloc)?))
}

fn dialled(question: Question, answer: DialAnswer) -> Event {
    Event::Dial {
        wire: 4_294_967_295,
        question,
        answer,
    }
}

fn dialled_sockets(alloc: Global) -> Result<Vec<Event>, Fail> {
    let peer = Peer::V4 {
        ip: 0x7f00_0001,
        port: 4142,
    };
    let other = Peer::V6 {
        ip: 0xfe80_0000_0000_0000_0000_0000_0000_00ab,
        port: 0,
    };
    let none = Peers::from_vec(Vec::new(alloc));
    let peers = Peers::from_vec(Vec::from_slice(alloc, &[peer, other])?);
    let closed = DialAnswer::Opened { passes: false };
    let passing = DialAnswer::Opened { passes: true };
    let mut events = Vec::new(alloc);
    events.push(dialled(Question::Unix(bytes(alloc, b"/run/a")?), closed))?;
    events.push(dialled(Question::Abstract(bytes(alloc, b"\xff")?), passing))?;
    let host = bytes(alloc, b"h")?;
    events.push(dialled(
        Question::Lookup { host, port: 65535 },
        DialAnswer::Found(peers),
    ))?;
    let host = bytes(alloc, b"")?;
    events.push(dialled(Question::Lookup { host, port: 0 }, DialAnswer::Found(none)))?;
    events.push(dialled(Question::Tcp(peer), DialAnswer::Failed))?;
    Ok(events)
}

fn dialled_programs(alloc: Global) -> Result<Vec<Event>, Fail> {
    let mut args = Vec::new(alloc);
    args.push(bytes(alloc, b"-v")?)?;
    args.push(bytes(alloc, b"")?)?;
    let mut events = Vec::new(alloc);
    let nonce = DialAnswer::Nonce(bytes(alloc, b"VERILY")?);
    events.push(dialled(Question::Nonce(bytes(alloc, b"/n")?), nonce))?;
    let bare = Question::Start {
        program: bytes(alloc, b"p")?,
        arg0: None,
        args: Args::from_vec(args),
    };
    events.push(dialled(bare, DialAnswer::Failed))?;
    let named = Question::Start {
        program: bytes(alloc, b"p")?,
        arg0: Some(bytes(alloc, b"q")?),
        args: Args::from_vec(Vec::new(alloc)),
    };
    events.push(dialled(named, DialAnswer::Failed))?;
    let text = bytes(alloc, b"x\n")?;
    events.push(dialled(
        Question::Ibus,
        DialAnswer::Output {
            success: true,
            text,
        },
    ))?;
    let text = bytes(alloc, b"")?;
    events.push(dialled(
        Question::Accept,
        DialAnswer::Output {
            success: false,
            text,
        },
    ))?;
    Ok(events)
}

#[test]
fn each_question_and_answer_of_a_dialler_is_printed(rt: HostRuntime) -> Result<(), Fail> {
    let sockets = dialled_sockets(rt.alloc())?;
    let text = printed(rt.alloc(), &[], sockets.as_slice())?;
    let wanted = "dial 4294967295 unix 2f72756e2f61 = open n
dial 4294967295 abstract ff = open y
dial 4294967295 lookup 68 65535 = peers 4-7f000001-4142 6-fe8000000000000000000000000000ab-0
dial 4294967295 lookup . 0 = peers
dial 4294967295 tcp 4-7f000001-4142 = fault
";
    assert_eq!(rt; text.as_str(), wanted);
    let programs = dialled_programs(rt.alloc())?;
    let text = printed(rt.alloc(), &[], programs.as_slice())?;
    let wanted = "dial 4294967295 nonce 2f6e = nonce 564552494c59
dial 4294967295 start 70 - 2d76 . = fault
dial 4294967295 start 70 71 = fault
dial 4294967295 ibus = output y 780a
dial 4294967295 accept = output n .
";
    assert_eq!(rt; text.as_str(), wanted);
    Ok(())
}

fn wire_events(alloc: Global) -> Result<Vec<Event>, Fail> {
    let wire = 2;
    let asked = 1024;
    let mut events = Vec::new(alloc);
    let answer = RecvAnswer::Got(bytes(alloc, b"\x0aZ")?);
    events.push(Event::Recv {
        wire,
        asked,
        answer,
    })?;
    for answer in [RecvAnswer::End, RecvAnswer::NotReady, RecvAnswer::Failed] {
        events.push(Event::Recv {
            wire,
            asked,
            answer,
        })?;
    }
    let offered = bytes(alloc, b"\x00AU")?;
    events.push(Event::Send {
        wire,
        offered,
        answer: SendAnswer::Took(3),
    })?;
    let offered = bytes(alloc, b"U")?;
    events.push(Event::Send {
        wire,
        offered,
        answer: SendAnswer::NotReady,
    })?;
    let offered = bytes(alloc, b"")?;
    events.push(Event::Send {
        wire,
        offered,
        answer: SendAnswer::Failed,
    })?;
    events.push(Event::Close { wire })?;
    Ok(events)
}

fn poller_events(alloc: Global) -> Result<Vec<Event>, Fail> {
    let (wire, key) = (2, 7);
    let reports = [
        Report {
            key: 0,
            read: true,
            write: true,
        },
        Report {
            key: 18_446_744_073_709_551_615,
            read: false,
            write: false,
        },
    ];
    let reports = Reports::from_vec(Vec::from_slice(alloc, &reports)?);
    let none = Reports::from_vec(Vec::new(alloc));
    let mut events = Vec::new(alloc);
    events.push(Event::Now {
        moment: 18_446_744_073_709_551_615,
    })?;
    for ok in [true, false] {
        events.push(Event::Add { wire, key, ok })?;
        events.push(Event::Modify {
            wire,
            key,
            read: ok,
            write: !ok,
            ok,
        })?;
        events.push(Event::Delete { wire, key, ok })?;
        events.push(Event::Notify { ok })?;
    }
    events.push(Event::Wait {
        timeout: None,
        answer: WaitAnswer::Reported(reports),
    })?;
    events.push(Event::Wait {
        timeout: Some(40),
        answer: WaitAnswer::Reported(none),
    })?;
    events.push(Event::Wait {
        timeout: Some(0),
        answer: WaitAnswer::Interrupted,
    })?;
    events.push(Event::Wait {
        timeout: None,
        answer: WaitAnswer::Failed,
    })?;
    Ok(events)
}

#[test]
fn each_event_is_printed(rt: HostRuntime) -> Result<(), Fail> {
    let events = wire_events(rt.alloc())?;
    let text = printed(rt.alloc(), &[], events.as_slice())?;
    let wanted = "recv 2 1024 bytes 0a5a
recv 2 1024 end
recv 2 1024 again
recv 2 1024 fault
send 2 004155 took 3
send 2 55 again
send 2 . fault
close 2
";
    assert_eq!(rt; text.as_str(), wanted);
    let events = poller_events(rt.alloc())?;
    let text = printed(rt.alloc(), &[], events.as_slice())?;
    let wanted = "now 18446744073709551615
add 2 7 ok
modify 2 7 r ok
delete 2 7 ok
notify ok
add 2 7 fault
modify 2 7 w fault
delete 2 7 fault
notify fault
wait - reports 0rw 18446744073709551615n
wait 40 reports
wait 0 interrupted
wait - fault
";
    assert_eq!(rt; text.as_str(), wanted);
    Ok(())
}

#[test]
fn sessions_are_printed_before_events(rt: HostRuntime) -> Result<(), Fail> {
    let guid = Guid::from_str(GUID).ok().ok_or("guid")?;
    let rows = [
        (
            Ending::Open {
                guid,
                cap_unix_fd: false,
            },
            None,
        ),
        (
            Ending::Open {
                guid,
                cap_unix_fd: true,
            },
            None,
        ),
        (Ending::Unsupported, None),
        (Ending::Connection, None),
        (Ending::Io, None),
        (Ending::Handshake, None),
        (Ending::LineTooLong, None),
        (Ending::TooManyCommands, None),
        (Ending::TimedOut, Some(50)),
        (Ending::Waiting, Some(0)),
    ];
    let mut endeds = Vec::new(rt.alloc());
    for (ending, moment) in rows {
        endeds.push(Ended {
            ending,
            written: bytes(rt.alloc(), b"\x00AU")?,
            leftover: bytes(rt.alloc(), b"")?,
            wire: 3,
            moment,
        })?;
    }
    let events = [Event::Close { wire: 3 }];
    let text = printed(rt.alloc(), endeds.as_slice(), &events)?;
    let wanted = "session 3 open:1234deadbeef1234deadbeef12345678:n 004155 . -
session 3 open:1234deadbeef1234deadbeef12345678:y 004155 . -
session 3 unsupported 004155 . -
session 3 connection 004155 . -
session 3 io 004155 . -
session 3 handshake 004155 . -
session 3 line-too-long 004155 . -
session 3 too-many-commands 004155 . -
session 3 timed-out 004155 . 50
session 3 waiting 004155 . 0
close 3
";
    assert_eq!(rt; text.as_str(), wanted);
    Ok(())
}

use super::*;
use bus_address::Guid;
use bus_opening::{AuthMechanism, ClientConfig, ServerConfig};
use bus_session::{Ending, Session};
use react_core::outside::{Bytes, DialAnswer, Event, Question, RecvAnswer, SendAnswer};
use std::alloc::Global;
use std::test::Fail;

mod addresses;

const AUTH: &[u8] = b"\0AUTH EXTERNAL 31303030\r\n";

const OK: &[u8] = b"OK 1234deadbeef1234deadbeef12345678\r\n";

const BEGIN: &[u8] = b"BEGIN\r\n";

const REJECTED: &[u8] = b"REJECTED EXTERNAL\r\n";

/// An event of a session's part, in short.
#[derive(Clone, Copy)]
enum Told<'a> {
    /// The socket is found.
    Opened,
    /// The socket is not found.
    Fault,
    /// The connection of a peer is taken.
    Accepted,
    /// No connection is taken.
    Unaccepted,
    /// This was offered, and so many bytes of it were taken.
    Took(&'a [u8], usize),
    /// This was offered, and the wire was not ready.
    Full(&'a [u8]),
    /// So many bytes were asked for, and these came.
    Got(usize, &'a [u8]),
    /// None had come yet.
    Idle,
}

fn bytes(alloc: Global, from: &[u8]) -> Result<Bytes, Fail> {
    Ok(Bytes::from_vec(Vec::from_slice(alloc, from)?))
}

fn dial(alloc: Global, answer: DialAnswer) -> Result<Event, Fail> {
    let question = Question::Unix(bytes(alloc, b"/run/a")?);
    Ok(Event::Dial {
        wire: 0,
        question,
        answer,
    })
}

fn accept(answer: DialAnswer) -> Event {
    Event::Dial {
        wire: 0,
        question: Question::Accept,
        answer,
    }
}

fn event(alloc: Global, told: Told<'_>) -> Result<Event, Fail> {
    let (asked, answer) = match told {
        Told::Opened => return dial(alloc, DialAnswer::Opened { passes: false }),
        Told::Fault => return dial(alloc, DialAnswer::Failed),
        Told::Accepted => return Ok(accept(DialAnswer::Opened { passes: false })),
        Told::Unaccepted => return Ok(accept(DialAnswer::Failed)),
        Told::Took(piece, count) => {
            return Ok(Event::Send {
                wire: 0,
                offered: bytes(alloc, piece)?,
                answer: SendAnswer::Took(count),
            });
        }
        Told::Full(piece) => {
            return Ok(Event::Send {
                wire: 0,
                offered: bytes(alloc, piece)?,
                answer: SendAnswer::NotReady,
            });
        }
        Told::Got(asked, piece) => (asked, RecvAnswer::Got(bytes(alloc, piece)?)),
        Told::Idle => (1024, RecvAnswer::NotReady),
    };
    Ok(Event::Recv {
        wire: 0,
        asked,
        answer,
    })
}

fn config(flatpak: bool) -> ClientConfig {
    ClientConfig {
        mechanism: Some(AuthMechanism::External),
        user: 1000,
        hello: None,
        flatpak,
    }
}

fn client(alloc: Global, flatpak: bool) -> Result<Session, Fail> {
    let address = String::from_str(alloc, "unix:path=/run/a")?;
    Ok(Session::client(address, config(flatpak), None))
}

fn guid() -> Result<Guid, Fail> {
    let Ok(guid) = Guid::from_str("1234deadbeef1234deadbeef12345678") else {
        return Err("guid".into());
    };
    Ok(guid)
}

fn server() -> Result<Session, Fail> {
    let config = ServerConfig {
        guid: guid()?,
        mechanism: AuthMechanism::External,
        permitted: Some(1000),
    };
    Ok(Session::server(config, None))
}

fn comes_to(
    alloc: Global,
    session: &Session,
    part: &[Told<'_>],
    moment: Option<u64>,
) -> Result<Option<Outcome>, Fail> {
    let mut events = Vec::new(alloc);
    for told in part {
        events.push(event(alloc, *told)?)?;
    }
    Ok(alone(alloc, session, events.as_slice(), moment)?)
}

#[test]
fn a_part_comes_to_its_outcome(rt: HostRuntime) -> Result<(), Fail> {
    let open = Ending::Open {
        guid: guid()?,
        cap_unix_fd: false,
    };
    let alloc = rt.alloc();
    let rows: [(&[Told<'_>], Option<(Ending, usize)>); 9] = [
        (
            &[
                Told::Opened,
                Told::Took(AUTH, 25),
                Told::Got(1024, OK),
                Told::Took(BEGIN, 7),
            ],
            Some((open, 32)),
        ),
        (
            &[Told::Opened, Told::Took(AUTH, 25), Told::Idle],
            Some((Ending::Waiting, 25)),
        ),
        (
            &[Told::Opened, Told::Full(AUTH)],
            Some((Ending::Waiting, 0)),
        ),
        (&[Told::Fault], Some((Ending::Connection, 0))),
        (&[], None),
        (&[Told::Opened, Told::Took(AUTH, 25)], None),
        (
            &[Told::Opened, Told::Took(AUTH, 25), Told::Got(512, OK)],
            None,
        ),
        (&[Told::Opened, Told::Took(BEGIN, 7)], None),
        (&[Told::Fault, Told::Idle], None),
    ];
    for (part, expected) in rows {
        let outcome = comes_to(alloc, &client(alloc, false)?, part, None)?;
        match (outcome, expected) {
            (None, None) => {}
            (Some(outcome), Some((ending, written))) => {
                assert!(rt; outcome.ending == ending);
                assert_eq!(rt; outcome.written.as_slice().len(), written);
                assert!(rt; outcome.leftover.as_slice().is_empty());
            }
            _ => return Err("one of the two is none".into()),
        }
    }
    Ok(())
}

const LET_IN: &[Told<'static>] = &[
    Told::Accepted,
    Told::Got(1024, b"\0AUTH EXTERNAL 31303030\r\nBEGIN\r\n"),
    Told::Took(OK, 37),
];

const TURNED_AWAY: &[Told<'static>] = &[
    Told::Accepted,
    Told::Got(1024, b"\0AUTH EXTERNAL 31303031\r\n"),
    Told::Took(REJECTED, 19),
    Told::Idle,
];

const WITHOUT_NUL: &[Told<'static>] = &[
    Told::Accepted,
    Told::Got(1024, b"AUTH EXTERNAL 31303030\r\n"),
];

#[test]
fn a_part_of_a_server_comes_to_its_outcome(rt: HostRuntime) -> Result<(), Fail> {
    let open = Ending::Open {
        guid: guid()?,
        cap_unix_fd: false,
    };
    let alloc = rt.alloc();
    let rows: [(&[Told<'_>], Ending, &[u8]); 4] = [
        (LET_IN, open, OK),
        (TURNED_AWAY, Ending::Waiting, REJECTED),
        (WITHOUT_NUL, Ending::Handshake, b""),
        (&[Told::Unaccepted], Ending::Connection, b""),
    ];
    for (part, ending, written) in rows {
        let Some(outcome) = comes_to(alloc, &server()?, part, None)? else {
            return Err("none".into());
        };
        assert!(rt; outcome.ending == ending);
        assert_eq!(rt; outcome.written.as_slice(), written);
        assert!(rt; outcome.leftover.as_slice().is_empty());
    }
    Ok(())
}

#[test]
fn a_deadline_decides_how_a_pause_ends(rt: HostRuntime) -> Result<(), Fail> {
    let alloc = rt.alloc();
    let idle: &[Told<'_>] = &[Told::Opened, Told::Took(AUTH, 25), Told::Idle];
    let full: &[Told<'_>] = &[Told::Opened, Told::Full(AUTH)];
    let rows: [(&[Told<'_>], Option<u64>, Option<u64>, Ending); 7] = [
        (idle, Some(1000), Some(999), Ending::Waiting),
        (idle, Some(1000), Some(1000), Ending::TimedOut),
        (full, Some(1000), Some(1001), Ending::TimedOut),
        (full, Some(1000), Some(0), Ending::Waiting),
        (idle, Some(1000), None, Ending::Waiting),
        (idle, None, Some(1000), Ending::Waiting),
        (&[Told::Fault], Some(1000), Some(1000), Ending::Connection),
    ];
    for (part, deadline, moment, ending) in rows {
        let mut session = client(alloc, false)?;
        session.deadline = deadline;
        let Some(outcome) = comes_to(alloc, &session, part, moment)? else {
            return Err("none".into());
        };
        assert!(rt; outcome.ending == ending);
    }
    Ok(())
}

#[test]
fn each_side_has_its_own_first_question(rt: HostRuntime) -> Result<(), Fail> {
    let alloc = rt.alloc();
    let client = comes_to(alloc, &client(alloc, false)?, &[Told::Accepted], None)?;
    assert!(rt; client.is_none());
    let server = comes_to(alloc, &server()?, &[Told::Opened], None)?;
    assert!(rt; server.is_none());
    Ok(())
}

#[test]
fn a_line_may_be_as_long_as_this(rt: HostRuntime) -> Result<(), Fail> {
    let alloc = rt.alloc();
    // 16383 letters with a line's end, and 16385 letters
    let rows: [(&[u8], usize, &[u8], Ending, usize); 2] = [
        (
            b"AAAAAAAAAAAAAAAA",
            1023,
            b"AAAAAAAAAAAAAAA\r\n",
            Ending::Handshake,
            0,
        ),
        (b"aaaaaaaaaaaaaaaa", 1024, b"a", Ending::LineTooLong, 16385),
    ];
    for (piece, count, last, ending, leftover) in rows {
        let mut part = Vec::new(alloc);
        part.push(Told::Opened)?;
        part.push(Told::Took(AUTH, 25))?;
        for _ in 0..count {
            part.push(Told::Got(1024, piece))?;
        }
        part.push(Told::Got(1024, last))?;
        let client = client(alloc, false)?;
        let Some(outcome) = comes_to(alloc, &client, part.as_slice(), None)? else {
            return Err("none".into());
        };
        assert!(rt; outcome.ending == ending);
        assert_eq!(rt; outcome.written.as_slice(), AUTH);
        assert_eq!(rt; outcome.leftover.as_slice().len(), leftover);
        assert!(rt; outcome.leftover.as_slice().iter().all(|byte| *byte == b'a'));
    }
    Ok(())
}

fn opened(alloc: Global, passes: bool) -> Opened {
    Opened {
        passes,
        tcp: false,
        nonce: Bytes::from_vec(Vec::new(alloc)),
    }
}

#[test]
fn a_question_is_asked(rt: HostRuntime) -> Result<(), Fail> {
    let alloc = rt.alloc();
    let plain = client(alloc, false)?;
    let flatpak = client(alloc, true)?;
    let server = server()?;
    let rows: [(&Session, bool, &[u8], usize, &[u8]); 6] = [
        (&plain, false, b"", 0, AUTH),
        (&plain, false, b"", 23, b"\r\n"),
        (&plain, false, OK, 25, BEGIN),
        (&flatpak, true, OK, 25, b"NEGOTIATE_UNIX_FD\r\n"),
        (&server, false, AUTH, 0, OK),
        (&server, false, AUTH, 35, b"\r\n"),
    ];
    for (session, passes, got, taken, piece) in rows {
        let Asked::Send(sent) = ask(alloc, &session.party, &opened(alloc, passes), got, taken)?
        else {
            return Err("no send".into());
        };
        assert_eq!(rt; sent.as_slice(), piece);
    }
    for (session, taken) in [(&plain, 25), (&server, 0)] {
        let asked = ask(alloc, &session.party, &opened(alloc, false), b"", taken)?;
        assert!(rt; matches!(asked, Asked::Recv));
    }
    Ok(())
}

#[test]
fn a_wire_of_tcp_begins_with_its_nonce(rt: HostRuntime) -> Result<(), Fail> {
    let alloc = rt.alloc();
    let wire = Opened {
        passes: false,
        tcp: true,
        nonce: bytes(alloc, b"0123456789abcdef")?,
    };
    let config = ClientConfig {
        mechanism: None,
        user: 1000,
        hello: None,
        flatpak: false,
    };
    let address = String::from_str(alloc, "unix:path=/run/a")?;
    let session = Session::client(address, config, None);
    let rows: [(usize, &[u8]); 2] = [
        (0, b"0123456789abcdef"),
        (16, b"\0AUTH ANONYMOUS 7a627573\r\n"),
    ];
    for (taken, piece) in rows {
        let Asked::Send(sent) = ask(alloc, &session.party, &wire, b"", taken)? else {
            return Err("no send".into());
        };
        assert_eq!(rt; sent.as_slice(), piece);
    }
    Ok(())
}

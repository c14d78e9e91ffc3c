//! Clients at addresses of every kind: what their parts come to (D-Bus specification, Server Addresses).

use super::{bytes, guid};
use crate::*;
use bus_address::AddressKind;
use bus_opening::ClientConfig;
use bus_session::{AddressReason, Ending, Session};
use react_core::outside::{
    Args, Bytes, DialAnswer, Event, Peer, Peers, Question, RecvAnswer, SendAnswer,
};
use std::alloc::Global;
use std::process::Abort;
use std::test::Fail;

/// A question, in short.
#[derive(Clone, Copy)]
enum Wanted<'a> {
    Unix(&'a [u8]),
    Abstract(&'a [u8]),
    Lookup(&'a [u8], u16),
    Tcp(Peer),
    Nonce(&'a [u8]),
    Start(&'a [u8], Option<&'a [u8]>, &'a [&'a [u8]]),
    Ibus,
}

/// An answer, in short.
#[derive(Clone, Copy)]
enum Came<'a> {
    Opened,
    Found(&'a [Peer]),
    Nonce(&'a [u8]),
    /// This was printed, and the program ended in success.
    Printed(&'a [u8]),
    /// The same without success.
    Broke(&'a [u8]),
    Failed,
}

/// An event of a client's part, in short.
#[derive(Clone, Copy)]
enum Step<'a> {
    Dial(Wanted<'a>, Came<'a>),
    /// This was offered and taken.
    Took(&'a [u8]),
    /// These bytes came.
    Got(&'a [u8]),
    /// None had come yet.
    Idle,
}

/// How a session ends, in short.
#[derive(Clone, Copy)]
enum End {
    /// The connection to the server with the tests' GUID stands.
    Open,
    Waiting,
    Connection,
    Io,
    Handshake,
    Unsupported,
    NoAddress,
    IbusFailed,
    /// The text of the address is refused.
    Refused(AddressKind),
    /// The part is not the one that it asks for.
    Strange,
}

/// An address, the part of its client, how that ends, and what was written.
type Row = (&'static str, &'static [Step<'static>], End, &'static [u8]);

fn question(alloc: Global, wanted: Wanted<'_>) -> Result<Question, Fail> {
    Ok(match wanted {
        Wanted::Unix(path) => Question::Unix(bytes(alloc, path)?),
        Wanted::Abstract(name) => Question::Abstract(bytes(alloc, name)?),
        Wanted::Lookup(host, port) => {
            let host = bytes(alloc, host)?;
            Question::Lookup { host, port }
        }
        Wanted::Tcp(peer) => Question::Tcp(peer),
        Wanted::Nonce(path) => Question::Nonce(bytes(alloc, path)?),
        Wanted::Start(path, name, words) => start(alloc, path, name, words)?,
        Wanted::Ibus => Question::Ibus,
    })
}

fn start(
    alloc: Global,
    path: &[u8],
    name: Option<&[u8]>,
    words: &[&[u8]],
) -> Result<Question, Fail> {
    let program = bytes(alloc, path)?;
    let arg0 = match name {
        Some(name) => Some(bytes(alloc, name)?),
        None => None,
    };
    let mut args = Vec::new(alloc);
    for word in words {
        args.push(bytes(alloc, *word)?)?;
    }
    let args = Args::from_vec(args);
    Ok(Question::Start {
        program,
        arg0,
        args,
    })
}

fn answer(alloc: Global, came: Came<'_>) -> Result<DialAnswer, Fail> {
    Ok(match came {
        Came::Opened => DialAnswer::Opened { passes: false },
        Came::Found(peers) => DialAnswer::Found(Peers::from_vec(Vec::from_slice(alloc, peers)?)),
        Came::Nonce(nonce) => DialAnswer::Nonce(bytes(alloc, nonce)?),
        Came::Printed(text) => {
            let text = bytes(alloc, text)?;
            DialAnswer::Output {
                success: true,
                text,
            }
        }
        Came::Broke(text) => {
            let text = bytes(alloc, text)?;
            DialAnswer::Output {
                success: false,
                text,
            }
        }
        Came::Failed => DialAnswer::Failed,
    })
}

fn event(alloc: Global, step: Step<'_>) -> Result<Event, Fail> {
    let answer = match step {
        Step::Dial(wanted, came) => {
            let question = question(alloc, wanted)?;
            let answer = answer(alloc, came)?;
            return Ok(Event::Dial {
                wire: 0,
                question,
                answer,
            });
        }
        Step::Took(piece) => {
            let offered = bytes(alloc, piece)?;
            return Ok(Event::Send {
                wire: 0,
                offered,
                answer: SendAnswer::Took(piece.len()),
            });
        }
        Step::Got(piece) => RecvAnswer::Got(bytes(alloc, piece)?),
        Step::Idle => RecvAnswer::NotReady,
    };
    Ok(Event::Recv {
        wire: 0,
        asked: 1024,
        answer,
    })
}

fn comes_to(
    alloc: Global,
    address: &str,
    part: &[Step<'_>],
) -> Result<Option<(Ending, Bytes)>, Fail> {
    let mut events = Vec::new(alloc);
    for step in part {
        events.push(event(alloc, *step)?)?;
    }
    let config = ClientConfig {
        mechanism: None,
        user: 1000,
        hello: None,
        flatpak: false,
    };
    let session = Session::client(String::from_str(alloc, address)?, config, None);
    match alone(alloc, &session, events.as_slice(), None)? {
        Some(outcome) => Ok(Some((outcome.ending, outcome.written))),
        None => Ok(None),
    }
}

/// The ending; none where the part is strange.
fn ending(end: End) -> Result<Option<Ending>, Fail> {
    Ok(Some(match end {
        End::Open => Ending::Open {
            guid: guid()?,
            cap_unix_fd: false,
        },
        End::Waiting => Ending::Waiting,
        End::Connection => Ending::Connection,
        End::Io => Ending::Io,
        End::Handshake => Ending::Handshake,
        End::Unsupported => Ending::Unsupported,
        End::NoAddress => Ending::Address(AddressReason::NoAddress),
        End::IbusFailed => Ending::Address(AddressReason::IbusFailed),
        End::Refused(kind) => Ending::Address(AddressReason::Text(kind)),
        End::Strange => return Ok(None),
    }))
}

fn try_rows(rt: &impl Abort, alloc: Global, rows: &[Row]) -> Result<(), Fail> {
    for (address, part, end, written) in rows {
        match (comes_to(alloc, *address, *part)?, ending(*end)?) {
            (None, None) => {}
            (Some((ending, bytes)), Some(expected)) => {
                assert!(rt; ending == expected, "{address}");
                assert_eq!(rt; bytes.as_slice(), *written, "{address}");
            }
            _ => return Err("one of the two is none".into()),
        }
    }
    Ok(())
}

const EXTERNAL: Step<'static> = Step::Took(b"\0AUTH EXTERNAL 31303030\r\n");

const ANONYMOUS: Step<'static> = Step::Took(b"\0AUTH ANONYMOUS 7a627573\r\n");

const OK: Step<'static> = Step::Got(b"OK 1234deadbeef1234deadbeef12345678\r\n");

const BEGIN: Step<'static> = Step::Took(b"BEGIN\r\n");

/// 127.0.0.1, port 4242.
const FOUR: Peer = Peer::V4 {
    ip: 0x7f00_0001,
    port: 4242,
};

/// ::1, port 4242.
const SIX: Peer = Peer::V6 { ip: 1, port: 4242 };

const HOST: Wanted<'static> = Wanted::Lookup(b"localhost", 4242);

const BOTH: Step<'static> = Step::Dial(HOST, Came::Found(&[FOUR, SIX]));

const ALONE: Step<'static> = Step::Dial(HOST, Came::Found(&[FOUR]));

/// Hosts: the peers are asked in order, those of the family where one is named. Without a mechanism it is ANONYMOUS.
const TCP: &[Row] = &[
    (
        "tcp:host=localhost,port=4242",
        &[
            BOTH,
            Step::Dial(Wanted::Tcp(FOUR), Came::Failed),
            Step::Dial(Wanted::Tcp(SIX), Came::Opened),
            ANONYMOUS,
            OK,
            BEGIN,
        ],
        End::Open,
        b"\0AUTH ANONYMOUS 7a627573\r\nBEGIN\r\n",
    ),
    (
        "tcp:host=localhost,port=4242,family=ipv6",
        &[BOTH, Step::Dial(Wanted::Tcp(SIX), Came::Failed)],
        End::Connection,
        b"",
    ),
    (
        "tcp:host=localhost,port=4242,family=ipv6",
        &[ALONE],
        End::NoAddress,
        b"",
    ),
    (
        "tcp:host=localhost,port=4242",
        &[Step::Dial(HOST, Came::Failed)],
        End::Connection,
        b"",
    ),
    (
        "tcp:host=localhost,port=4242",
        &[BOTH, Step::Dial(Wanted::Tcp(SIX), Came::Failed)],
        End::Strange,
        b"",
    ),
    (
        "tcp:host=localhost,port=4242",
        &[Step::Dial(HOST, Came::Opened)],
        End::Strange,
        b"",
    ),
];

const NONCE: &str = "nonce-tcp:host=localhost,port=4242,noncefile=/run/nonce";

/// The nonce is the first piece.
const NONCES: &[Row] = &[
    (
        NONCE,
        &[
            ALONE,
            Step::Dial(Wanted::Tcp(FOUR), Came::Opened),
            Step::Dial(
                Wanted::Nonce(b"/run/nonce"),
                Came::Nonce(b"0123456789abcdef"),
            ),
            Step::Took(b"0123456789abcdef"),
            ANONYMOUS,
            Step::Idle,
        ],
        End::Waiting,
        b"0123456789abcdef\0AUTH ANONYMOUS 7a627573\r\n",
    ),
    (
        NONCE,
        &[
            ALONE,
            Step::Dial(Wanted::Tcp(FOUR), Came::Opened),
            Step::Dial(Wanted::Nonce(b"/run/nonce"), Came::Failed),
        ],
        End::Io,
        b"",
    ),
    (
        NONCE,
        &[
            ALONE,
            Step::Dial(Wanted::Tcp(FOUR), Came::Opened),
            ANONYMOUS,
        ],
        End::Strange,
        b"",
    ),
];

/// What ibus prints is an address with white space around it: U+00A0 is white space, U+001C is none. The GUID in it is
/// not looked at.
const IBUS: &[Row] = &[
    (
        "ibus:",
        &[
            Step::Dial(
                Wanted::Ibus,
                Came::Printed(
                    b"\xc2\xa0 unix:path=/run/a,guid=ffffffffffffffffffffffffffffffff\n\xc2\xa0",
                ),
            ),
            Step::Dial(Wanted::Unix(b"/run/a"), Came::Opened),
            EXTERNAL,
            OK,
            BEGIN,
        ],
        End::Open,
        b"\0AUTH EXTERNAL 31303030\r\nBEGIN\r\n",
    ),
    (
        "ibus:",
        &[Step::Dial(Wanted::Ibus, Came::Printed(b"\x1cunix:path=/run/a"))],
        End::IbusFailed,
        b"",
    ),
    (
        "ibus:",
        &[Step::Dial(Wanted::Ibus, Came::Printed(b"unix:path=/run/a\xff"))],
        End::IbusFailed,
        b"",
    ),
    (
        "ibus:",
        &[Step::Dial(Wanted::Ibus, Came::Broke(b"unix:path=/run/a"))],
        End::IbusFailed,
        b"",
    ),
    (
        "ibus:",
        &[Step::Dial(Wanted::Ibus, Came::Failed)],
        End::IbusFailed,
        b"",
    ),
    (
        "ibus:",
        &[Step::Dial(Wanted::Ibus, Came::Printed(b"ibus:\n"))],
        End::Unsupported,
        b"",
    ),
];

/// Sockets and programs. An abstract name is any bytes, and a path is UTF-8.
const LOCAL: &[Row] = &[
    (
        "unix:abstract=/tmp/a%ff",
        &[Step::Dial(Wanted::Abstract(b"/tmp/a\xff"), Came::Failed)],
        End::Connection,
        b"",
    ),
    (
        "unixexec:path=/bin/bus,argv0=bus,argv1=--all,argv2=x",
        &[
            Step::Dial(
                Wanted::Start(b"/bin/bus", Some(b"bus"), &[b"--all", b"x"]),
                Came::Opened,
            ),
            EXTERNAL,
            Step::Idle,
        ],
        End::Waiting,
        b"\0AUTH EXTERNAL 31303030\r\n",
    ),
    (
        "unixexec:path=/bin/bus,argv1=%ff",
        &[],
        End::Unsupported,
        b"",
    ),
    ("unix:dir=/tmp", &[], End::Unsupported, b""),
    ("unix:tmpdir=/tmp", &[], End::Unsupported, b""),
    ("unix:path=/run/%ff", &[], End::Unsupported, b""),
];

/// A text that is no address is refused for its kind, and nothing is asked.
const REFUSED: &[Row] = &[
    ("", &[], End::Refused(AddressKind::Form), b""),
    (
        "launchd:env=A",
        &[],
        End::Refused(AddressKind::UnknownTransport),
        b"",
    ),
    (
        "unix:path=/a,abstract=b",
        &[],
        End::Refused(AddressKind::Keys),
        b"",
    ),
    (
        "tcp:port=4242",
        &[],
        End::Refused(AddressKind::MissingHost),
        b"",
    ),
    (
        "unix:path=/a,guid=1",
        &[],
        End::Refused(AddressKind::BadGuid),
        b"",
    ),
];

/// The server must have the GUID that the client's address names.
const EXPECTED: &[Row] = &[
    (
        "unix:path=/run/a,guid=1234DEADbeef1234deadbeef12345678",
        &[
            Step::Dial(Wanted::Unix(b"/run/a"), Came::Opened),
            EXTERNAL,
            OK,
            BEGIN,
        ],
        End::Open,
        b"\0AUTH EXTERNAL 31303030\r\nBEGIN\r\n",
    ),
    (
        "unix:path=/run/a,guid=ffffffffffffffffffffffffffffffff",
        &[
            Step::Dial(Wanted::Unix(b"/run/a"), Came::Opened),
            EXTERNAL,
            OK,
        ],
        End::Handshake,
        b"\0AUTH EXTERNAL 31303030\r\n",
    ),
];

#[test]
fn a_client_at_any_address_comes_to_its_outcome(rt: HostRuntime) -> Result<(), Fail> {
    for rows in [TCP, NONCES, IBUS, LOCAL, REFUSED, EXPECTED] {
        try_rows(&rt, rt.alloc(), rows)?;
    }
    Ok(())
}

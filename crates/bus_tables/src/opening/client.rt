//! Conversations of clients.

use super::wire::{
    End, Memory, OK, OTHER, Trouble, add_lines, by_chunks, ending, holding, lines, verdict_of,
};
use crate::support::GUID;
use bus_address::Guid;
use bus_opening::{AuthMechanism, Client, ClientConfig, Handshake, Step, Verdict};
use react_core::outside::Bytes;
use std::alloc::Global;
use std::test::Fail;

// What a client asks for behind the first command.
#[derive(Clone, Copy)]
pub(crate) enum Asks {
    Nothing,
    Passing,
    Flatpak,
}

// What a client of user 1000 asks for, the GUID that it expects, what comes, how it ends, what it sends behind its first
// line, and what it leaves.
#[derive(Clone, Copy)]
struct Case(
    Asks,
    Option<&'static str>,
    &'static str,
    End,
    &'static str,
    &'static str,
);

const BEGIN: &str = "BEGIN|l\u{1}";

const ASK: &str = "NEGOTIATE_UNIX_FD|";

const BOTH: &str = "NEGOTIATE_UNIX_FD|BEGIN|l\u{1}";

const PLAIN: [Case; 9] = [
    Case(
        Asks::Nothing,
        None,
        "OK 1234DEADBEEF1234deadbeef12345678 x|ab",
        End::Opens(false),
        BEGIN,
        "ab",
    ),
    Case(Asks::Nothing, Some(GUID), OK, End::Opens(false), BEGIN, ""),
    Case(Asks::Nothing, Some(OTHER), OK, End::Refused, "", ""),
    Case(Asks::Nothing, None, "ERROR|ab", End::Refused, "", "ab"),
    Case(
        Asks::Nothing,
        None,
        "REJECTED EXTERNAL|",
        End::Refused,
        "",
        "",
    ),
    Case(Asks::Nothing, None, "OK|", End::Refused, "", ""),
    Case(Asks::Nothing, None, "\n", End::Refused, "", ""),
    Case(
        Asks::Nothing,
        None,
        "OK 1234deadbeef1234deadbeef12345678\n",
        End::Refused,
        "",
        "",
    ),
    Case(Asks::Nothing, None, "\u{0}OK|", End::Refused, "", ""),
];

const ASKING: [Case; 8] = [
    Case(
        Asks::Passing,
        Some(GUID),
        "OK 1234deadbeef1234deadbeef12345678|AGREE_UNIX_FD|l\u{2}",
        End::Opens(true),
        BOTH,
        "l\u{2}",
    ),
    Case(
        Asks::Passing,
        None,
        "OK 1234deadbeef1234deadbeef12345678|ERROR no|",
        End::Opens(false),
        BOTH,
        "",
    ),
    Case(
        Asks::Passing,
        None,
        "OK 1234deadbeef1234deadbeef12345678|OK 1234deadbeef1234deadbeef12345678|",
        End::Opens(false),
        BOTH,
        "",
    ),
    Case(
        Asks::Passing,
        None,
        "OK 1234deadbeef1234deadbeef12345678|OK 00000000000000000000000000000000|",
        End::Refused,
        BOTH,
        "",
    ),
    Case(
        Asks::Passing,
        None,
        "OK 1234deadbeef1234deadbeef12345678|DATA|",
        End::Refused,
        BOTH,
        "",
    ),
    Case(
        Asks::Flatpak,
        None,
        "OK 1234deadbeef1234deadbeef12345678|AGREE_UNIX_FD|",
        End::Opens(true),
        BOTH,
        "",
    ),
    Case(
        Asks::Flatpak,
        None,
        "OK 1234deadbeef1234deadbeef12345678|ERROR|",
        End::Opens(false),
        BOTH,
        "",
    ),
    Case(
        Asks::Flatpak,
        None,
        "OK 1234deadbeef1234deadbeef12345678|OK 1234deadbeef1234deadbeef12345678|",
        End::Refused,
        ASK,
        "",
    ),
];

pub(crate) fn client_asking(
    alloc: Global,
    asks: Asks,
    expected: Option<&'static str>,
) -> Result<Client, Fail> {
    let expected = match expected {
        Some(text) => Some(Guid::from_str(text)?),
        None => None,
    };
    let config = ClientConfig {
        mechanism: Some(AuthMechanism::External),
        user: 1000,
        hello: Some(Bytes::from_vec(Vec::from_slice(alloc, "l\u{1}".as_bytes())?)),
        flatpak: matches!(asks, Asks::Flatpak),
    };
    let passes = !matches!(asks, Asks::Nothing);
    Ok(Client::new(alloc, &config, expected, passes, false, &[])?)
}

// Whether a client that gets so many bytes at a time does as the case says.
fn holds(alloc: Global, case: Case, chunk: usize) -> Result<bool, Fail> {
    let Case(asks, expected, comes, end, sends, leaves) = case;
    let comes = lines(alloc, comes)?;
    let mut wire = by_chunks(alloc, comes.as_slice(), chunk)?;
    let mut client = client_asking(alloc, asks, expected)?;
    let verdict = ending(alloc, &mut client, &mut wire);
    let mut said = lines(alloc, "\0AUTH EXTERNAL 31303030|")?;
    add_lines(&mut said, sends)?;
    if verdict != verdict_of(end)? || wire.sent != said || client.written() != said.as_slice() {
        return Ok(false);
    }
    Ok(client.is_done() && (chunk == 1 || client.leftover() == leaves.as_bytes()))
}

#[test]
fn a_client_that_asks_for_nothing_more_answers_each_line(rt: HostRuntime) -> Result<(), Fail> {
    let alloc = rt.alloc();
    for case in &PLAIN {
        assert!(rt; holds(alloc, *case, 1024)?, "{}", case.2);
        assert!(rt; holds(alloc, *case, 1)?, "{}", case.2);
    }
    Ok(())
}

#[test]
fn a_client_that_asks_for_descriptors_answers_each_line(rt: HostRuntime) -> Result<(), Fail> {
    let alloc = rt.alloc();
    for case in &ASKING {
        assert!(rt; holds(alloc, *case, 1024)?, "{}", case.2);
        assert!(rt; holds(alloc, *case, 1)?, "{}", case.2);
    }
    Ok(())
}

#[test]
fn a_failing_wire_ends_as_io(rt: HostRuntime) -> Result<(), Fail> {
    let alloc = rt.alloc();
    let mut wire = holding(alloc, &[])?;
    wire.room = 3;
    wire.most = 3;
    let mut client = client_asking(alloc, Asks::Nothing, None)?;
    assert_eq!(rt; ending(alloc, &mut client, &mut wire), Some(Verdict::Io));
    assert_eq!(rt; client.written(), "\0AU".as_bytes());
    Ok(())
}

// One poll, where none has answered the end.
fn once(alloc: Global, client: &mut Client, wire: &mut Memory) -> Option<Step> {
    if client.is_done() {
        return None;
    }
    Some(client.poll(alloc, wire, 0))
}

// What a plain client answers where this call of its wire meets this trouble, and whether it opens when it is polled on: its
// calls are a send, a read, and the send of `BEGIN`.
fn answers(alloc: Global, at: u64, trouble: Trouble) -> Result<(Option<Step>, bool), Fail> {
    let comes = lines(alloc, OK)?;
    let mut wire = holding(alloc, comes.as_slice())?;
    wire.trouble = Some((at, trouble));
    let mut client = client_asking(alloc, Asks::Nothing, None)?;
    let first = once(alloc, &mut client, &mut wire);
    let last = ending(alloc, &mut client, &mut wire);
    Ok((first, last == verdict_of(End::Opens(false))?))
}

#[test]
fn a_wire_that_waits_fails_or_lacks_memory_is_told(rt: HostRuntime) -> Result<(), Fail> {
    let alloc = rt.alloc();
    assert_eq!(rt;
        answers(alloc, 0, Trouble::Waits)?,
        (Some(Step::WantWrite), true)
    );
    assert_eq!(rt;
        answers(alloc, 1, Trouble::Waits)?,
        (Some(Step::WantRead), true)
    );
    assert_eq!(rt;
        answers(alloc, 2, Trouble::Waits)?,
        (Some(Step::WantWrite), true)
    );
    for at in 0..3 {
        let failed = Step::Done(Verdict::Io);
        assert_eq!(rt; answers(alloc, at, Trouble::Fails)?, (Some(failed), false));
        assert_eq!(rt;
            answers(alloc, at, Trouble::LacksMemory)?,
            (Some(Step::OutOfMemory), true)
        );
    }
    Ok(())
}

#[test]
fn another_guid_than_the_expected_one_ends_as_handshake(rt: HostRuntime) -> Result<(), Fail> {
    let alloc = rt.alloc();
    let config = ClientConfig {
        mechanism: None,
        user: 1000,
        hello: None,
        flatpak: false,
    };
    let comes = lines(alloc, OK)?;
    let mut wire = holding(alloc, comes.as_slice())?;
    let mut client = Client::new(
        alloc,
        &config,
        Some(Guid::from_str(OTHER)?),
        false,
        false,
        &[],
    )?;
    assert_eq!(rt;
        client.poll(alloc, &mut wire, 0),
        Step::Done(Verdict::Handshake)
    );
    assert_eq!(rt; client.written(), "\0AUTH EXTERNAL 31303030\r\n".as_bytes());
    Ok(())
}

#[test]
fn an_end_and_bytes_that_are_no_text_are_refused(rt: HostRuntime) -> Result<(), Fail> {
    let alloc = rt.alloc();
    let refused = Some(Verdict::Handshake);
    let mut ended = holding(alloc, "OK".as_bytes())?;
    ended.closed = true;
    let mut first = client_asking(alloc, Asks::Nothing, None)?;
    assert_eq!(rt; ending(alloc, &mut first, &mut ended), refused);
    assert_eq!(rt; first.leftover(), "OK".as_bytes());
    let mut wrong = holding(alloc, &[255, 13, 10])?;
    let mut second = client_asking(alloc, Asks::Nothing, None)?;
    assert_eq!(rt; ending(alloc, &mut second, &mut wrong), refused);
    Ok(())
}

#[test]
fn a_tcp_client_sends_its_nonce_and_is_anonymous(rt: HostRuntime) -> Result<(), Fail> {
    let alloc = rt.alloc();
    let config = ClientConfig {
        mechanism: None,
        user: 1000,
        hello: None,
        flatpak: false,
    };
    let mut wire = holding(alloc, &[])?;
    let nonce = "VERILY SECRETIVE".as_bytes();
    let mut client = Client::new(alloc, &config, None, false, true, nonce)?;
    assert_eq!(rt; client.poll(alloc, &mut wire, 0), Step::WantRead);
    assert_eq!(rt;
        client.written(),
        "VERILY SECRETIVE\0AUTH ANONYMOUS 7a627573\r\n".as_bytes()
    );
    Ok(())
}

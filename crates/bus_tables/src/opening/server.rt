//! Conversations of servers.

use super::wire::{End, OK, add_lines, by_chunks, ending, holding, lines, verdict_of};
use crate::support::GUID;
use bus_address::Guid;
use bus_opening::{AuthMechanism, Handshake, Server, ServerConfig, Verdict};
use react_core::outside::OutOfMemory;
use std::alloc::Global;
use std::test::Fail;

// Whom a server lets in.
#[derive(Clone, Copy)]
pub(crate) enum Serves {
    User(u32),
    // The same, over a wire that passes descriptors.
    Passing(u32),
    Nobody,
    Anonymous,
}

// Whom a server lets in, what comes, what it says by the letters of `reply_of`, and how it ends.
#[derive(Clone, Copy)]
struct Dialogue(Serves, &'static str, &'static str, End);

fn reply_of(serves: Serves, letter: u8) -> &'static str {
    match letter {
        b'K' => OK,
        b'R' if matches!(serves, Serves::Anonymous) => "REJECTED ANONYMOUS|",
        b'R' => "REJECTED EXTERNAL|",
        b'D' => "DATA|",
        b'A' => "AGREE_UNIX_FD|",
        b'N' => "ERROR FD-passing not possible on this socket type|",
        _ => "ERROR Unsupported or misplaced command|",
    }
}

// Before a client is known, and while its data is waited for.
const EARLY: [Dialogue; 14] = [
    Dialogue(
        Serves::User(1000),
        "\0AUTH ANONYMOUS abcd|",
        "R",
        End::Waits,
    ),
    Dialogue(
        Serves::User(1000),
        "\0AUTH ANONYMOUS|AUTH|",
        "RR",
        End::Waits,
    ),
    Dialogue(Serves::User(1000), "\0AUTH EXTERNAL|", "D", End::Waits),
    Dialogue(Serves::User(1000), "\0CANCEL|ERROR no|", "RR", End::Waits),
    Dialogue(
        Serves::User(1000),
        "\0BEGIN|DATA|NEGOTIATE_UNIX_FD|AGREE_UNIX_FD|REJECTED|OK 00000000000000000000000000000000|",
        "MMMMMM",
        End::Waits,
    ),
    Dialogue(
        Serves::Anonymous,
        "\0AUTH ANONYMOUS 00|BEGIN|",
        "K",
        End::Opens(false),
    ),
    Dialogue(
        Serves::Anonymous,
        "\0AUTH EXTERNAL 31303030|",
        "R",
        End::Waits,
    ),
    Dialogue(
        Serves::Anonymous,
        "\0AUTH ANONYMOUS|DATA|BEGIN|",
        "DK",
        End::Opens(false),
    ),
    Dialogue(
        Serves::Anonymous,
        "\0AUTH ANONYMOUS|DATA ff|",
        "DK",
        End::Waits,
    ),
    Dialogue(
        Serves::User(1000),
        "\0AUTH EXTERNAL|DATA|BEGIN|",
        "DK",
        End::Opens(false),
    ),
    Dialogue(Serves::Nobody, "\0AUTH EXTERNAL|DATA|", "DK", End::Waits),
    Dialogue(
        Serves::User(1000),
        "\0AUTH EXTERNAL|DATA 31303030|",
        "DK",
        End::Waits,
    ),
    Dialogue(
        Serves::User(1000),
        "\0AUTH EXTERNAL|DATA 31|BEGIN|",
        "DRM",
        End::Waits,
    ),
    Dialogue(
        Serves::User(1000),
        "\0AUTH EXTERNAL|AUTH|CANCEL|BEGIN|ERROR|NEGOTIATE_UNIX_FD|AGREE_UNIX_FD|REJECTED|OK 00000000000000000000000000000000|DATA|",
        "DMMMMMMMMK",
        End::Waits,
    ),
];

// Once a client is known.
const LATE: [Dialogue; 6] = [
    Dialogue(
        Serves::Passing(1000),
        "\0AUTH EXTERNAL 31303030|NEGOTIATE_UNIX_FD|BEGIN|",
        "KA",
        End::Opens(true),
    ),
    Dialogue(
        Serves::User(1000),
        "\0AUTH EXTERNAL 31303030|NEGOTIATE_UNIX_FD|BEGIN|",
        "KN",
        End::Opens(false),
    ),
    Dialogue(
        Serves::User(1000),
        "\0AUTH EXTERNAL 31303030|AUTH|DATA|AGREE_UNIX_FD|REJECTED|OK 00000000000000000000000000000000|BEGIN|",
        "KMMMMM",
        End::Opens(false),
    ),
    Dialogue(
        Serves::User(1000),
        "\0AUTH EXTERNAL 31303030|CANCEL|BEGIN|",
        "KRM",
        End::Waits,
    ),
    Dialogue(
        Serves::User(1000),
        "\0AUTH EXTERNAL 31303030|ERROR|",
        "KR",
        End::Waits,
    ),
    Dialogue(
        Serves::Passing(1000),
        "\0AUTH EXTERNAL 31303030|NEGOTIATE_UNIX_FD|CANCEL|AUTH EXTERNAL 31303030|BEGIN|",
        "KARK",
        End::Opens(true),
    ),
];

// User numbers, and first lines that are refused.
const ODD: [Dialogue; 13] = [
    Dialogue(
        Serves::User(7),
        "\0AUTH EXTERNAL 2b303037|BEGIN|",
        "K",
        End::Opens(false),
    ),
    Dialogue(Serves::User(1000), "\0AUTH EXTERNAL 37|", "R", End::Waits),
    Dialogue(Serves::Nobody, "\0AUTH EXTERNAL 30|", "R", End::Waits),
    Dialogue(
        Serves::User(4294967295),
        "\0AUTH EXTERNAL 34323934393637323935|",
        "K",
        End::Waits,
    ),
    Dialogue(
        Serves::User(4294967295),
        "\0AUTH EXTERNAL 34323934393637323936|",
        "",
        End::Refused,
    ),
    Dialogue(Serves::User(1000), "\0AUTH EXTERNAL 2b|", "", End::Refused),
    Dialogue(Serves::User(1000), "\0AUTH EXTERNAL 78|", "", End::Refused),
    Dialogue(
        Serves::User(1000),
        "\0AUTH EXTERNAL|DATA ff|",
        "D",
        End::Refused,
    ),
    Dialogue(Serves::User(1000), "\n", "", End::Refused),
    Dialogue(Serves::User(1000), "AUTH|", "", End::Refused),
    Dialogue(Serves::User(1000), "\0\n", "", End::Refused),
    Dialogue(Serves::User(1000), "\0|", "", End::Refused),
    Dialogue(Serves::User(1000), "\0AUTH|\0AUTH|", "R", End::Refused),
];

pub(crate) fn server_for(alloc: Global, serves: Serves) -> Result<Server, Fail> {
    let config = ServerConfig {
        guid: Guid::from_str(GUID)?,
        mechanism: match serves {
            Serves::Anonymous => AuthMechanism::Anonymous,
            _ => AuthMechanism::External,
        },
        permitted: match serves {
            Serves::User(user) => Some(user),
            Serves::Passing(user) => Some(user),
            _ => None,
        },
    };
    Ok(Server::new(alloc, &config, matches!(serves, Serves::Passing(_)))?)
}

// What a server says by these letters.
fn said(alloc: Global, serves: Serves, letters: &str) -> Result<Vec<u8>, OutOfMemory> {
    let mut bytes = Vec::new(alloc);
    for letter in letters.as_bytes() {
        add_lines(&mut bytes, reply_of(serves, *letter))?;
    }
    Ok(bytes)
}

// Whether a server that gets so many bytes at a time does as the dialogue says, each reply in a send of its own.
fn replies(alloc: Global, dialogue: Dialogue, chunk: usize) -> Result<bool, Fail> {
    let Dialogue(serves, comes, letters, end) = dialogue;
    let comes = lines(alloc, comes)?;
    let mut wire = by_chunks(alloc, comes.as_slice(), chunk)?;
    let mut server = server_for(alloc, serves)?;
    let verdict = ending(alloc, &mut server, &mut wire);
    let said = said(alloc, serves, letters)?;
    if verdict != verdict_of(end)? || wire.sent != said || server.written() != said.as_slice() {
        return Ok(false);
    }
    if chunk > 1 && wire.sends != letters.len() as u64 {
        return Ok(false);
    }
    Ok(server.leftover().is_empty())
}

#[test]
fn a_server_answers_each_command_of_an_unknown_client(rt: HostRuntime) -> Result<(), Fail> {
    let alloc = rt.alloc();
    for dialogue in &EARLY {
        assert!(rt; replies(alloc, *dialogue, 1024)?, "{}", dialogue.1);
        assert!(rt; replies(alloc, *dialogue, 1)?, "{}", dialogue.1);
    }
    Ok(())
}

#[test]
fn a_server_answers_each_command_of_a_known_client(rt: HostRuntime) -> Result<(), Fail> {
    let alloc = rt.alloc();
    for dialogue in &LATE {
        assert!(rt; replies(alloc, *dialogue, 1024)?, "{}", dialogue.1);
        assert!(rt; replies(alloc, *dialogue, 1)?, "{}", dialogue.1);
    }
    Ok(())
}

#[test]
fn a_server_answers_odd_users_and_refuses_wrong_lines(rt: HostRuntime) -> Result<(), Fail> {
    let alloc = rt.alloc();
    for dialogue in &ODD {
        assert!(rt; replies(alloc, *dialogue, 1024)?, "{}", dialogue.1);
        assert!(rt; replies(alloc, *dialogue, 1)?, "{}", dialogue.1);
    }
    Ok(())
}

// How a server ends that gets NUL, so many lines `BEGIN`, and these behind them; how many bytes it said, and how many it left.
fn begins(
    alloc: Global,
    count: usize,
    more: &str,
) -> Result<(Option<Verdict>, usize, usize), Fail> {
    let mut bytes = Vec::from_slice(alloc, &[0])?;
    for _ in 0..count {
        bytes.extend_from_slice("BEGIN\r\n".as_bytes())?;
    }
    add_lines(&mut bytes, more)?;
    let mut wire = holding(alloc, bytes.as_slice())?;
    let mut server = server_for(alloc, Serves::User(1000))?;
    let verdict = ending(alloc, &mut server, &mut wire);
    Ok((verdict, server.written().len(), server.leftover().len()))
}

#[test]
fn a_server_looks_at_64_commands(rt: HostRuntime) -> Result<(), Fail> {
    let alloc = rt.alloc();
    let too_many = Some(Verdict::TooManyCommands);
    let auth = "AUTH EXTERNAL 31303030|";
    let both = "AUTH EXTERNAL 31303030|BEGIN|";
    let opens = verdict_of(End::Opens(false))?;
    assert_eq!(rt; begins(alloc, 63, "")?, (None, 2520, 0));
    assert_eq!(rt; begins(alloc, 64, "")?, (too_many, 2560, 0));
    assert_eq!(rt; begins(alloc, 65, "")?, (too_many, 2560, 7));
    assert_eq!(rt; begins(alloc, 62, both)?, (opens, 2517, 0));
    assert_eq!(rt; begins(alloc, 63, auth)?, (too_many, 2557, 0));
    Ok(())
}

//! Sessions opened over a reactor after a call that may have been refused. No memory is refused here; `bench/refusals`
//! runs this with each growth refused in its turn.

use super::program::{TWO_CLIENTS, TWO_OPEN};
use bus_bulk::bulk_script;
use bus_peers::{Played, Scene, ScriptForm, open_all};
use bus_script::printed;
use react_core::reactor::Reactor;
use std::alloc::Global;
use std::test::Fail;

/// Two clients that open, one whose deadline comes, a server, and a client that sends a nonce.
const SCRIPTS: [&str; 4] = [
    TWO_CLIENTS,
    "rounds 1
client EXTERNAL 1000 - n 50 unix:path=/run/a
dial 0 open n
now 10
now 10
now 50
",
    "rounds 5
server 1234deadbeef1234deadbeef12345678 EXTERNAL 1000 -
dial 0 open n
recv 0 bytes 00415554482045585445524e414c0d0a444154410d0a424547494e0d0a
",
    "rounds 1
client - 0 - n - nonce-tcp:host=localhost,port=4142,family=ipv6,noncefile=/a/file/path%20to%20file%201234
dial 0 peers 6-00000000000000000000000000000001-4142
dial 0 open n
dial 0 nonce 564552494c5920534543524554495645
",
];

/// How many bytes of `TWO_OPEN` are the lines of its sessions.
const BOTH: usize = 238;

/// Opens a script's sessions, whatever comes of them, and then two clients over the same reactor: the lines of these.
fn opened_after(alloc: Global, script: &[u8]) -> Result<String, Fail> {
    let first = Scene::from_script(alloc, script, ScriptForm::Play)?;
    let mut reactor = Reactor::starting_at(alloc, 64, first.tick, first.timer)?;
    let mut scene = first.scene;
    let _ = open_all(
        alloc,
        &mut reactor,
        &mut scene,
        first.sessions,
        first.rounds,
    );
    let second = Scene::from_script(alloc, TWO_CLIENTS.as_bytes(), ScriptForm::Play)?;
    let mut scene = second.scene;
    let endeds = open_all(
        alloc,
        &mut reactor,
        &mut scene,
        second.sessions,
        second.rounds,
    )?;
    Ok(printed(alloc, endeds.as_slice(), &[])?)
}

#[test]
fn a_call_after_another_opens_as_ever(rt: HostRuntime) -> Result<(), Fail> {
    for script in SCRIPTS {
        let lines = opened_after(rt.alloc(), script.as_bytes())?;
        assert!(rt; TWO_OPEN.get(..BOTH) == Some(lines.as_str()));
    }
    let bulk = bulk_script(rt.alloc(), 12)?;
    let lines = opened_after(rt.alloc(), bulk.as_slice())?;
    assert!(rt; TWO_OPEN.get(..BOTH) == Some(lines.as_str()));
    Ok(())
}

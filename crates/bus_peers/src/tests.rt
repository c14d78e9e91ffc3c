use super::*;
use bus_address::Guid;
use bus_script::ScriptForm;
use react_core::outside::Event;
use react_core::reactor::{Counter, Reactor};
use std::alloc::Global;
use std::process::Abort;
use std::test::Fail;

/// Three clients: one opens, one gets a line that is no command, and one finds no socket.
const SCRIPT: &str = "rounds 5
client EXTERNAL 1000 - n - unix:path=/run/a
client EXTERNAL 1000 - n - unix:path=/run/b
client EXTERNAL 1000 - n - unix:path=/run/c
dial 0 open n
dial 1 open n
dial 2 fault
recv 0 bytes 4f4b2031323334646561646265656631323334646561646265656631323334353637380d0a6162
recv 1 bytes 4e4f0d0a
";

const FIRST_LINE: &[u8] = b"\0AUTH EXTERNAL 31303030\r\n";

/// Opens the script's sessions over its scene, and lends what came of it.
fn opened(alloc: Global) -> Result<(Vec<Ended>, Scene, Reactor), Fail> {
    let Ok(played) = Scene::from_script(alloc, SCRIPT.as_bytes(), ScriptForm::Play) else {
        return Err("script".into());
    };
    let Played {
        mut scene,
        sessions,
        rounds,
        tick,
        timer,
    } = played;
    let Ok(mut reactor) = Reactor::starting_at(alloc, 64, tick, timer) else {
        return Err("reactor".into());
    };
    match open_all(alloc, &mut reactor, &mut scene, sessions, rounds) {
        Ok(endeds) => Ok((endeds, scene, reactor)),
        Err(_) => Err("opened".into()),
    }
}

/// The GUID with which a session is open.
fn guid_of(ended: &Ended) -> Option<Guid> {
    match &ended.ending {
        Ending::Open { guid, .. } => Some(*guid),
        _ => None,
    }
}

#[test]
fn each_session_gets_what_its_own_peer_decides(rt: HostRuntime) -> Result<(), Fail> {
    let (endeds, scene, reactor) = opened(rt.alloc())?;
    assert_eq!(rt; endeds.len(), 3);
    assert_eq!(rt;
        guid_of(&endeds[0]),
        Guid::from_str("1234deadbeef1234deadbeef12345678").ok()
    );
    assert_eq!(rt; endeds[0].leftover.as_slice(), b"ab".as_slice());
    assert!(rt; matches!(endeds[1].ending, Ending::Handshake));
    assert_eq!(rt; endeds[1].written.as_slice(), FIRST_LINE);
    assert!(rt; matches!(endeds[2].ending, Ending::Connection));
    assert_eq!(rt; endeds[2].wire, 2);
    assert_eq!(rt; endeds[2].written.as_slice().len(), 0);
    assert!(rt; reactor.is_idle());
    let sends = scene
        .events()
        .iter()
        .filter(|e| matches!(e, Event::Send { .. }))
        .count();
    assert_eq!(rt; sends, 3);
    Ok(())
}

/// A client whose peer says nothing, and a round whose arming would fail.
const ASLEEP: &str = "rounds 1
client EXTERNAL 1000 - n - unix:path=/run/a
dial 0 open n
";

const REFUSED_ARMING: &str = "rounds 1
client EXTERNAL 1000 - n - unix:path=/run/a
dial 0 open n
modify fault
";

/// Opens the script's sessions over a reactor that starts at this tick: the refusal, whether the reactor is idle,
/// and how many sources were taken out.
fn refused(alloc: Global, script: &str, tick: u64) -> Result<(OpenError, bool, usize), Fail> {
    let Ok(played) = Scene::from_script(alloc, script.as_bytes(), ScriptForm::Play) else {
        return Err("script".into());
    };
    let Ok(mut reactor) = Reactor::starting_at(alloc, 64, tick, 0) else {
        return Err("reactor".into());
    };
    let Played {
        mut scene,
        sessions,
        rounds,
        ..
    } = played;
    let Err(refusal) = open_all(alloc, &mut reactor, &mut scene, sessions, rounds) else {
        return Err("opened".into());
    };
    let deletes = scene
        .events()
        .iter()
        .filter(|e| matches!(e, Event::Delete { .. }))
        .count();
    Ok((refusal, reactor.is_idle(), deletes))
}

#[test]
fn a_refusal_has_its_cause_and_leaves_the_reactor_idle(rt: HostRuntime) -> Result<(), Fail> {
    let alloc = rt.alloc();
    let exhausted = OpenError::Exhausted {
        counter: Counter::Round,
        value: u64::MAX,
    };
    assert!(rt; refused(alloc, ASLEEP, u64::MAX)? == (exhausted, true, 1));
    assert!(rt; refused(alloc, REFUSED_ARMING, 0)? == (OpenError::Poller, true, 1));
    Ok(())
}

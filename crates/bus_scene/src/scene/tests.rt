use super::*;
use bus_script::{Answer, EventLine, Readies};
use react_core::outside::DialAnswer;
use std::process::Abort;
use std::test::Fail;

/// Two sessions, with answers to each call.
fn script(alloc: Global) -> Result<QueuedAnswers, Fail> {
    let mut script = QueuedAnswers::new(alloc, 2)?;
    script.push(dial(0, DialAnswer::Opened { passes: true }))?;
    script.push(dial(0, DialAnswer::Found(Peers::from_vec(Vec::new(alloc)))))?;
    script.push(dial(0, DialAnswer::Opened { passes: false }))?;
    let bytes = Bytes::from_vec(b"abcde".to_vec(alloc)?);
    script.push(recv(0, RecvAnswer::Got(bytes)))?;
    script.push(recv(0, RecvAnswer::End))?;
    script.push(recv(0, RecvAnswer::Failed))?;
    script.push(send(1, SendAnswer::Took(2)))?;
    script.push(send(1, SendAnswer::Took(9)))?;
    script.push(send(1, SendAnswer::Took(0)))?;
    script.push(send(1, SendAnswer::NotReady))?;
    script.push(Answer::Now(7))?;
    script.push(Answer::Add(false))?;
    script.push(Answer::Notify(false))?;
    let readies = vec![in alloc;
        ready(ReadySource::Session(0), true, false),
        ready(ReadySource::Session(1), true, true),
        ready(ReadySource::Key(9), false, true),
        ready(ReadySource::Key(8), true, true),
    ]?;
    script.push(Answer::Wait(ScriptWait::Reported(Readies::from_vec(readies))))?;
    script.push(Answer::Wait(ScriptWait::Interrupted))?;
    script.push(Answer::Wait(ScriptWait::Failed))?;
    Ok(script)
}

fn dial(session: u32, answer: DialAnswer) -> Answer {
    Answer::Dial { session, answer }
}

fn recv(session: u32, answer: RecvAnswer) -> Answer {
    Answer::Recv { session, answer }
}

fn send(session: u32, answer: SendAnswer) -> Answer {
    Answer::Send { session, answer }
}

fn ready(source: ReadySource, read: bool, write: bool) -> Ready {
    Ready {
        source,
        read,
        write,
    }
}

/// Makes each call, and those first whose queues run empty.
fn play(rt: &impl Abort, scene: &mut Scene) -> Result<(), Fail> {
    assert_eq!(rt; scene.dial_unix(0, "/run/a"), Ok(Opened { passes: true }));
    assert_eq!(rt; scene.dial_unix(0, "/run/a"), Err(Fault::Failed));
    assert_eq!(rt; scene.dial_unix(0, "/run/a"), Ok(Opened { passes: false }));
    assert_eq!(rt; scene.dial_unix(0, "/run/a"), Err(Fault::Failed));
    let mut into = [0u8; 3];
    assert_eq!(rt; scene.recv(0, &mut into), Ok(Received::Got(3)));
    assert_eq!(rt; into.as_slice(), b"abc".as_slice());
    assert_eq!(rt; scene.recv(0, &mut into), Ok(Received::Got(2)));
    assert_eq!(rt; scene.recv(0, &mut into), Ok(Received::End));
    assert_eq!(rt; scene.recv(0, &mut into), Err(Fault::Failed));
    assert_eq!(rt; scene.recv(0, &mut into), Ok(Received::NotReady));
    assert_eq!(rt; scene.send(1, b"xyz"), Ok(Sent::Took(2)));
    assert_eq!(rt; scene.send(1, b"z"), Ok(Sent::Took(1)));
    assert_eq!(rt; scene.send(1, b"z"), Err(Fault::Failed));
    assert_eq!(rt; scene.send(1, b"z"), Ok(Sent::NotReady));
    assert_eq!(rt; scene.send(1, b"z"), Ok(Sent::Took(1)));
    assert_eq!(rt; scene.now(), Ok(7));
    assert_eq!(rt; scene.now(), Ok(7));
    assert_eq!(rt; scene.add(0, 4), Err(Fault::Failed));
    assert_eq!(rt; scene.add(0, 5), Ok(()));
    assert_eq!(rt; scene.modify(0, 5, true, false), Ok(()));
    assert_eq!(rt; scene.notify(), Err(Fault::Failed));
    assert_eq!(rt; scene.notify(), Ok(()));
    let mut reports = [Report {
        key: 0,
        read: false,
        write: false,
    }; 2];
    assert_eq!(rt; scene.wait(Some(3), &mut reports), Ok(Waited::Reported(2)));
    assert_eq!(rt; reports[0].key, 5);
    assert_eq!(rt; reports[1].key, 9);
    assert_eq!(rt; scene.wait(None, &mut reports), Ok(Waited::Interrupted));
    assert_eq!(rt; scene.wait(None, &mut reports), Err(Fault::Failed));
    assert_eq!(rt; scene.wait(None, &mut reports), Ok(Waited::Reported(0)));
    assert_eq!(rt; scene.delete(0, 5), Ok(()));
    assert_eq!(rt; scene.close(0), Ok(()));
    Ok(())
}

#[test]
fn a_scene_answers_from_its_script_and_tells_each_call(rt: HostRuntime) -> Result<(), Fail> {
    let alloc = rt.alloc();
    let mut scene = Scene::new(alloc, script(alloc)?)?;
    play(&rt, &mut scene)?;
    let lines = [
        "dial 0 unix 2f72756e2f61 = open y",
        "dial 0 unix 2f72756e2f61 = fault",
        "dial 0 unix 2f72756e2f61 = open n",
        "dial 0 unix 2f72756e2f61 = fault",
        "recv 0 3 bytes 616263",
        "recv 0 3 bytes 6465",
        "recv 0 3 end",
        "recv 0 3 fault",
        "recv 0 3 again",
        "send 1 78797a took 2",
        "send 1 7a took 1",
        "send 1 7a fault",
        "send 1 7a again",
        "send 1 7a took 1",
        "now 7",
        "now 7",
        "add 0 4 fault",
        "add 0 5 ok",
        "modify 0 5 r ok",
        "notify fault",
        "notify ok",
        "wait 3 reports 5r 9w",
        "wait - interrupted",
        "wait - fault",
        "wait - reports",
        "delete 0 5 ok",
        "close 0",
    ];
    let events = scene.events();
    assert_eq!(rt; events.len(), lines.len());
    for (event, line) in events.iter().zip(lines) {
        let text = format!(in alloc; "{}", EventLine(event))?;
        assert_eq!(rt; text.as_str(), line);
    }
    Ok(())
}

/// One session, with an answer of each kind to its dialling.
fn kinds(alloc: Global) -> Result<QueuedAnswers, Fail> {
    let mut script = QueuedAnswers::new(alloc, 1)?;
    script.push(dial(0, DialAnswer::Opened { passes: true }))?;
    let peers = Peers::from_vec(Vec::from_slice(alloc, &[PEER])?);
    script.push(dial(0, DialAnswer::Found(peers)))?;
    let nonce = Bytes::from_vec(b"n".to_vec(alloc)?);
    script.push(dial(0, DialAnswer::Nonce(nonce)))?;
    let text = Bytes::from_vec(b"o".to_vec(alloc)?);
    script.push(dial(
        0,
        DialAnswer::Output {
            success: true,
            text,
        },
    ))?;
    script.push(dial(0, DialAnswer::Failed))?;
    Ok(script)
}

const PEER: Peer = Peer::V4 {
    ip: 0x7f00_0001,
    port: 80,
};

/// Whether a program named `q` is started with two arguments.
fn starts(alloc: Global, scene: &mut Scene) -> Result<bool, Fail> {
    let mut args = Vec::new(alloc);
    args.push(Bytes::from_vec(b"r".to_vec(alloc)?))?;
    args.push(Bytes::from_vec(Vec::new(alloc)))?;
    let args = Args::from_vec(args);
    Ok(scene.start(0, "p", Some("q"), &args) == Ok(Opened { passes: true }))
}

/// Asks the question of this number: whether the answer of its kind was got.
fn asks(alloc: Global, scene: &mut Scene, question: usize) -> Result<bool, Fail> {
    let opened = Ok(Opened { passes: true });
    match question {
        0 => Ok(scene.dial_unix(0, "/a") == opened),
        1 => Ok(scene.dial_abstract(0, b"\xff") == opened),
        2 => match scene.lookup(alloc, 0, "h", 80) {
            Ok(peers) => Ok(peers.as_slice() == [PEER].as_slice()),
            Err(_) => Ok(false),
        },
        3 => Ok(scene.dial_tcp(0, PEER) == opened),
        4 => match scene.read_nonce(alloc, 0, "/n") {
            Ok(nonce) => Ok(nonce.as_slice() == b"n".as_slice()),
            Err(_) => Ok(false),
        },
        5 => starts(alloc, scene),
        6 => match scene.run_ibus(alloc, 0) {
            Ok(output) => Ok(output.success && output.text.as_slice() == b"o".as_slice()),
            Err(_) => Ok(false),
        },
        _ => Ok(scene.accept(0) == opened),
    }
}

#[test]
fn each_question_takes_an_answer_of_its_kind_and_uses_up_any(rt: HostRuntime) -> Result<(), Fail> {
    let alloc = rt.alloc();
    let questions = [
        ("unix 2f61", 0),
        ("abstract ff", 0),
        ("lookup 68 80", 1),
        ("tcp 4-7f000001-80", 0),
        ("nonce 2f6e", 2),
        ("start 70 71 72 .", 0),
        ("ibus", 3),
        ("accept", 0),
    ];
    let answers = [
        "open y",
        "peers 4-7f000001-80",
        "nonce 6e",
        "output y 6f",
        "fault",
        "fault",
    ];
    for (question, (asked, fitting)) in questions.iter().enumerate() {
        let mut scene = Scene::new(alloc, kinds(alloc)?)?;
        for (kind, answer) in answers.iter().enumerate() {
            let fits = kind == *fitting;
            assert!(rt;
                asks(alloc, &mut scene, question)? == fits,
                "{asked} {kind}"
            );
            let Some(event) = scene.events().get(kind) else {
                return Err(Fail::from("not told"));
            };
            let told = format!(in alloc; "{}", EventLine(event))?;
            let given = if fits { *answer } else { "fault" };
            let wanted = format!(in alloc; "dial 0 {asked} = {given}")?;
            assert_eq!(rt; told.as_str(), wanted.as_str());
        }
    }
    Ok(())
}

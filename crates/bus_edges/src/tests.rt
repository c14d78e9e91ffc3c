use super::{Accepted, Edges};
use react_core::outside::*;
use std::os::unix::net::{SocketAddr, SocketAddrExt, UnixListener};
use std::path::PathBuf;
use std::test::Fail;
use std::{env, fs, process};

const SECOND: u64 = 1_000_000_000;

const NOTHING: Report = Report {
    key: 0,
    read: false,
    write: false,
};

/// How many reports a wait gives, each put into the slice.
fn reported<W: Waiter>(
    outside: &mut W,
    timeout: Option<u64>,
    reports: &mut [Report],
) -> Result<usize, Fault> {
    match outside.wait(timeout, reports)? {
        Waited::Reported(count) => Ok(count),
        Waited::Interrupted => Ok(0),
    }
}

/// A path for a socket, which no other test has.
fn path_of(rt: HostRuntime, name: &str) -> Result<PathBuf, Fail> {
    let alloc = rt.alloc();
    let name = format!(in alloc; "bus-edges-{name}-{}", process::id(rt.process()))?;
    Ok(env::temp_dir(&rt)?.join(alloc, name.as_str())?)
}

/// An outside in which wires 1 and 2 are the two ends of a connection.
fn connected(rt: HostRuntime, name: &str) -> Result<Edges<HostRuntime>, Fail> {
    let mut edges = Edges::new(rt, rt.alloc())?;
    let path = path_of(rt, name)?;
    let text = path.as_path().to_str().unwrap_or("");
    edges.bind_unix(0, text)?;
    edges.dial_unix(1, text)?;
    fs::remove_file(&rt, path.as_path())?;
    edges.accept_on(0, 2)?;
    Ok(edges)
}

/// The report of a wait that gives one.
fn only(edges: &mut Edges<HostRuntime>) -> Result<Option<Report>, Fault> {
    let mut reports = [NOTHING; 8];
    match reported(edges, Some(5 * SECOND), &mut reports)? {
        1 => Ok(Some(reports[0])),
        _ => Ok(None),
    }
}

/// How many reports there are at once.
fn at_once(edges: &mut Edges<HostRuntime>) -> Result<usize, Fault> {
    let mut reports = [NOTHING; 8];
    reported(edges, Some(0), &mut reports)
}

#[test]
fn a_listening_socket_is_reported(rt: HostRuntime) -> Result<(), Fail> {
    let mut edges = Edges::new(rt, rt.alloc())?;
    let path = path_of(rt, "listens")?;
    let text = path.as_path().to_str().unwrap_or("");
    assert!(rt; edges.dial_unix(1, text) == Err(Fault::Failed));
    edges.bind_unix(0, text)?;
    edges.add(0, 40)?;
    edges.modify(0, 40, true, false)?;
    assert_eq!(rt; at_once(&mut edges)?, 0);
    assert!(rt; edges.accept_on(0, 2)? == Accepted::NotReady);
    assert!(rt; edges.dial_unix(1, text)?.passes);
    fs::remove_file(&rt, path.as_path())?;
    let report = Report {
        key: 40,
        read: true,
        write: false,
    };
    assert_eq!(rt; only(&mut edges)?, Some(report));
    Ok(())
}

#[test]
fn an_interest_is_one_shot_and_told_anew(rt: HostRuntime) -> Result<(), Fail> {
    let mut edges = connected(rt, "shots")?;
    let report = Report {
        key: 42,
        read: true,
        write: false,
    };
    edges.add(2, 42)?;
    edges.modify(2, 42, true, true)?;
    let writes = Report {
        key: 42,
        read: false,
        write: true,
    };
    assert_eq!(rt; only(&mut edges)?, Some(writes));
    assert!(rt; edges.send(1, b"hello")? == Sent::Took(5));
    assert_eq!(rt; only(&mut edges)?, Some(report));
    assert!(rt; edges.send(1, b"more")? == Sent::Took(4));
    assert_eq!(rt; at_once(&mut edges)?, 0);
    edges.modify(2, 42, true, false)?;
    assert_eq!(rt; only(&mut edges)?, Some(report));
    edges.notify()?;
    let mut reports = [NOTHING; 8];
    assert_eq!(rt; reported(&mut edges, None, &mut reports)?, 0);
    Ok(())
}

#[test]
fn bytes_and_ends_come(rt: HostRuntime) -> Result<(), Fail> {
    let mut edges = connected(rt, "bytes")?;
    let mut buf = [0u8; 16];
    assert!(rt; edges.recv(2, &mut buf)? == Received::NotReady);
    assert!(rt; edges.send(1, b"hello")? == Sent::Took(5));
    assert!(rt; edges.peek(2, &mut buf)? == Received::Got(5));
    assert!(rt; edges.recv(2, &mut [])? == Received::Got(0));
    assert!(rt; edges.recv(2, &mut buf[..2])? == Received::Got(2));
    assert!(rt; edges.recv(2, &mut buf)? == Received::Got(3));
    assert_eq!(rt; &buf[..3], b"llo".as_slice());
    edges.close(1)?;
    assert!(rt; edges.recv(2, &mut buf)? == Received::End);
    assert!(rt; edges.send(2, b"x") == Err(Fault::Failed));
    assert!(rt; edges.recv(1, &mut buf) == Err(Fault::Failed));
    assert!(rt; edges.delete(1, 41) == Err(Fault::Failed));
    Ok(())
}

fn take_to_a_thread<T: Send>(value: T) -> T {
    value
}

#[test]
fn a_wait_takes_its_time(rt: HostRuntime) -> Result<(), Fail> {
    let mut edges = take_to_a_thread(Edges::new(rt, rt.alloc())?);
    let mut reports = [NOTHING; 8];
    let before = edges.now()?;
    assert_eq!(rt; reported(&mut edges, Some(SECOND / 100), &mut reports)?, 0);
    let after = edges.now()?;
    assert!(rt; after.saturating_sub(before) >= SECOND / 100);
    Ok(())
}

#[test]
fn two_wires_over_tcp(rt: HostRuntime) -> Result<(), Fail> {
    let alloc = rt.alloc();
    let mut edges = Edges::new(rt, alloc)?;
    let mut reports = [NOTHING; 8];
    let mut buf = [0u8; 16];
    let local = Peer::V4 {
        ip: 0x7f00_0001,
        port: 0,
    };
    let bound = edges.bind_tcp(0, local)?;
    assert!(rt; bound != local);
    let peers = edges.lookup(alloc, 1, "127.0.0.1", 80)?;
    assert_eq!(rt; peers.as_slice().len(), 1);
    let opened = edges.dial_tcp(1, bound)?;
    assert!(rt; !opened.passes);
    edges.add(0, 7)?;
    edges.modify(0, 7, true, false)?;
    assert_eq!(rt; reported(&mut edges, Some(5 * SECOND), &mut reports)?, 1);
    assert!(rt; edges.accept_on(0, 2)? == Accepted::Got);
    assert!(rt; !edges.accept(2)?.passes);
    assert!(rt; edges.accept(2).is_err());
    edges.add(2, 8)?;
    edges.modify(2, 8, true, false)?;
    assert!(rt; edges.send(1, b"abc")? == Sent::Took(3));
    assert_eq!(rt; reported(&mut edges, Some(5 * SECOND), &mut reports)?, 1);
    assert!(rt; edges.recv(2, &mut buf)? == Received::Got(3));
    edges.close(0)?;
    assert!(rt; edges.dial_tcp(3, bound).is_err());
    Ok(())
}

#[test]
fn abstract_names_and_names_of_programs_are_faults(rt: HostRuntime) -> Result<(), Fail> {
    let alloc = rt.alloc();
    let mut edges = Edges::new(rt, alloc)?;
    let name = format!(in alloc; "bus-edges-{}", process::id(rt.process()))?;
    let address = SocketAddr::from_abstract_name(name.as_bytes())?;
    let _listener = UnixListener::bind_addr(&rt, &address)?;
    assert!(rt; edges.dial_abstract(0, name.as_bytes()) == Err(Fault::Failed));
    let args = Args::from_vec(Vec::new(alloc));
    assert!(rt; edges.start(1, "cat", Some("dog"), &args) == Err(Fault::Failed));
    assert!(rt; edges.start(2, "/nowhere/program", None, &args) == Err(Fault::Failed));
    assert!(rt; edges.send(1, b"x") == Err(Fault::Failed));
    Ok(())
}

/// Waits until no program with a closed wire is left.
fn reaped(edges: &mut Edges<HostRuntime>) -> Result<bool, Fault> {
    let mut reports = [NOTHING; 8];
    for _ in 0..u64::MAX {
        if edges.unended() == 0 {
            return Ok(true);
        }
        reported(edges, Some(SECOND / 1000), &mut reports)?;
    }
    Ok(false)
}

#[test]
fn a_program_speaks_and_is_reaped(rt: HostRuntime) -> Result<(), Fail> {
    let alloc = rt.alloc();
    let mut edges = Edges::new(rt, alloc)?;
    let mut buf = [0u8; 16];
    let args = Args::from_vec(Vec::new(alloc));
    let opened = edges.start(1, "cat", None, &args)?;
    assert!(rt; !opened.passes);
    edges.add(1, 5)?;
    edges.modify(1, 5, true, true)?;
    assert_eq!(rt; at_once(&mut edges)?, 0);
    assert!(rt; edges.send(1, b"ping")? == Sent::Took(4));
    assert!(rt; edges.recv(1, &mut buf)? == Received::Got(4));
    edges.delete(1, 5)?;
    edges.close(1)?;
    assert!(rt; reaped(&mut edges)?);
    assert!(rt; edges.recv(1, &mut buf) == Err(Fault::Failed));
    Ok(())
}

#[test]
fn nonce_files(rt: HostRuntime) -> Result<(), Fail> {
    let alloc = rt.alloc();
    let mut edges = Edges::new(rt, alloc)?;
    assert!(rt; edges.read_nonce(alloc, 1, "/nowhere/nonce").is_err());
    assert!(rt; edges.read_nonce(alloc, 1, "/dev/zero").is_err());
    assert_eq!(rt;
        edges.read_nonce(alloc, 1, "/dev/null")?.as_slice().len(),
        0
    );
    let path = path_of(rt, "nonce")?;
    let mut bytes = Vec::with_capacity(alloc, 65537)?;
    bytes.resize(65536, 7u8)?;
    fs::write(&rt, path.as_path(), bytes.as_slice())?;
    let text = path.as_path().to_str().unwrap_or("");
    let whole = edges.read_nonce(alloc, 1, text)?;
    bytes.push(7)?;
    fs::write(&rt, path.as_path(), bytes.as_slice())?;
    let longer = edges.read_nonce(alloc, 1, text);
    fs::remove_file(&rt, path.as_path())?;
    assert_eq!(rt; whole.as_slice(), bytes.as_slice().split_at(65536).0);
    assert!(rt; longer.is_err());
    Ok(())
}

#[test]
fn datagrams(rt: HostRuntime) -> Result<(), Fail> {
    let alloc = rt.alloc();
    let mut edges = Edges::new(rt, alloc)?;
    let mut buf = [0u8; 16];
    let local = Peer::V4 {
        ip: 0x7f00_0001,
        port: 0,
    };
    let first = edges.bind_udp(0, local)?;
    let second = edges.bind_udp(1, local)?;
    assert!(rt; edges.send_to(0, b"hey", second)? == Sent::Took(3));
    assert!(rt; edges.peek_udp(1, &mut buf)? == Received::Got(3));
    assert!(rt; edges.peek_from(1, &mut buf)? == (Received::Got(3), Some(first)));
    assert!(rt; edges.recv_from(1, &mut buf)? == (Received::Got(3), Some(first)));
    edges.connect_udp(1, first)?;
    assert!(rt; edges.send_udp(1, b"")? == Sent::Took(0));
    assert!(rt; edges.recv_udp(0, &mut buf)? == Received::Got(0));
    assert!(rt; edges.recv_udp(0, &mut buf)? == Received::NotReady);
    Ok(())
}

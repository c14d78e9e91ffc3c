//! Addresses and the dialling that they lead to, on whole scripts.

use crate::tests::program::outcome;
use std::test::Fail;

#[test]
fn an_address_that_leads_nowhere_ends_its_session_before_any_event(
    rt: HostRuntime,
) -> Result<(), Fail> {
    let rows = [
        ("unix:dir=/tmp", "unsupported"),
        ("unix:path=/%ff", "unsupported"),
        ("", "address:Form"),
        ("foo", "address:Form"),
        ("foo:opt", "address:Form"),
        ("unix:path=/a,", "address:Form"),
        ("unix:path=/tmp,abstract=foo", "address:Keys"),
        ("unix:foo=blah", "address:Keys"),
        ("tcp:host=localhost", "address:MissingPort"),
        ("tcp:host=localhost,port=32f", "address:BadPort"),
        (
            "tcp:host=localhost,port=123,family=ipv7",
            "address:BadFamily",
        ),
        ("unix:path=/a b", "address:BadEscape"),
        ("unixexec:foo=blah", "address:MissingPath"),
        ("foo:opt=1,opt=2", "address:UnknownTransport"),
    ];
    let alloc = rt.alloc();
    for (address, ending) in rows {
        let script = format!(in alloc; "rounds 5\nclient EXTERNAL 1000 - n - {address}\n")?;
        let printed = format!(in alloc; "session 0 {ending} . . -\n")?;
        let (sink, status) = outcome(alloc, &["play"], script.as_bytes(), &[], 100)?;
        assert_eq!(rt; sink.bytes(), printed.as_bytes(), "{address}");
        assert_eq!(rt; status, 1, "{address}");
    }
    Ok(())
}

const EXPECTED_GUID: (&str, &str, u8) = (
    "rounds 5
client EXTERNAL 1000 - n - unix:path=/run/a,guid=00000000000000000000000000000000
dial 0 open n
recv 0 bytes 4f4b2031323334646561646265656631323334646561646265656631323334353637380d0a
",
    "session 0 handshake 00415554482045585445524e414c2033313330333033300d0a . -
dial 0 unix 2f72756e2f61 = open n
add 0 0 ok
send 0 00415554482045585445524e414c2033313330333033300d0a took 25
recv 0 1024 bytes 4f4b2031323334646561646265656631323334646561646265656631323334353637380d0a
delete 0 0 ok
",
    1,
);

const ESCAPED_PATH: (&str, &str, u8) = (
    "rounds 5
client EXTERNAL 1000 - n - unix:path=/run/a%20b
dial 0 fault
",
    "session 0 connection . . -
dial 0 unix 2f72756e2f612062 = fault
",
    1,
);

const LAST_OF_EQUAL_KEYS: (&str, &str, u8) = (
    "rounds 5
client EXTERNAL 1000 - n - unix:path=/a,path=/b
dial 0 open n
recv 0 bytes 4f4b2031323334646561646265656631323334646561646265656631323334353637380d0a
",
    "session 0 open:1234deadbeef1234deadbeef12345678:n 00415554482045585445524e414c2033313330333033300d0a424547494e0d0a . -
dial 0 unix 2f62 = open n
add 0 0 ok
send 0 00415554482045585445524e414c2033313330333033300d0a took 25
recv 0 1024 bytes 4f4b2031323334646561646265656631323334646561646265656631323334353637380d0a
send 0 424547494e0d0a took 7
delete 0 0 ok
",
    0,
);

const TWO_PEERS: (&str, &str, u8) = (
    "rounds 0
client - 1000 - n - tcp:host=h,port=80
dial 0 peers 4-7f000001-80 6-00000000000000000000000000000001-80
dial 0 fault
dial 0 open n
",
    "session 0 waiting 004155544820414e4f4e594d4f55532037613632373537330d0a . -
dial 0 lookup 68 80 = peers 4-7f000001-80 6-00000000000000000000000000000001-80
dial 0 tcp 4-7f000001-80 = fault
dial 0 tcp 6-00000000000000000000000000000001-80 = open n
add 0 0 ok
send 0 004155544820414e4f4e594d4f55532037613632373537330d0a took 26
recv 0 1024 again
modify 0 0 r ok
delete 0 0 ok
",
    1,
);

const BY_IBUS: (&str, &str, u8) = (
    "rounds 5
client EXTERNAL 1000 - n - ibus:
dial 0 output y 756e69783a706174683d2f72756e2f610a
dial 0 open n
recv 0 bytes 4f4b2031323334646561646265656631323334646561646265656631323334353637380d0a
",
    "session 0 open:1234deadbeef1234deadbeef12345678:n 00415554482045585445524e414c2033313330333033300d0a424547494e0d0a . -
dial 0 ibus = output y 756e69783a706174683d2f72756e2f610a
dial 0 unix 2f72756e2f61 = open n
add 0 0 ok
send 0 00415554482045585445524e414c2033313330333033300d0a took 25
recv 0 1024 bytes 4f4b2031323334646561646265656631323334646561646265656631323334353637380d0a
send 0 424547494e0d0a took 7
delete 0 0 ok
",
    0,
);

const IBUS_FAILS: (&str, &str, u8) = (
    "rounds 5
client - 1000 - n - ibus:
dial 0 output n .
",
    "session 0 address:ibus-failed . . -
dial 0 ibus = output n .
",
    1,
);

const IBUS_BY_IBUS: (&str, &str, u8) = (
    "rounds 5
client - 1000 - n - ibus:
dial 0 output y 696275733a
",
    "session 0 unsupported . . -
dial 0 ibus = output y 696275733a
",
    1,
);

const PROGRAM: (&str, &str, u8) = (
    "rounds 5
client - 1000 - n - unixexec:path=/bin/x,argv1=a,argv3=c
dial 0 fault
",
    "session 0 connection . . -
dial 0 start 2f62696e2f78 - 61 = fault
",
    1,
);

const NONCE_NOT_READ: (&str, &str, u8) = (
    "rounds 5
client - 1000 - n - nonce-tcp:host=localhost,port=4142,family=ipv6,noncefile=/a/file/path%20to%20file%201234
dial 0 peers 6-00000000000000000000000000000001-4142
dial 0 open n
dial 0 fault
",
    "session 0 io . . -
dial 0 lookup 6c6f63616c686f7374 4142 = peers 6-00000000000000000000000000000001-4142
dial 0 tcp 6-00000000000000000000000000000001-4142 = open n
dial 0 nonce 2f612f66696c652f7061746820746f2066696c652031323334 = fault
",
    1,
);

const NO_PEER_OF_THE_FAMILY: (&str, &str, u8) = (
    "rounds 5
client - 1000 - n - nonce-tcp:host=localhost,port=4142,family=ipv6,noncefile=/a/file/path%20to%20file%201234
dial 0 peers 4-7f000001-4142
",
    "session 0 address:no-address . . -
dial 0 lookup 6c6f63616c686f7374 4142 = peers 4-7f000001-4142
",
    1,
);

const NONCE_SENT_FIRST: (&str, &str, u8) = (
    "rounds 5
client - 1000 - n - nonce-tcp:host=localhost,port=4142,family=ipv6,noncefile=/a/file/path%20to%20file%201234
dial 0 peers 6-00000000000000000000000000000001-4142
dial 0 open n
dial 0 nonce 564552494c5920534543524554495645
",
    "session 0 waiting 564552494c5920534543524554495645004155544820414e4f4e594d4f55532037613632373537330d0a . -
dial 0 lookup 6c6f63616c686f7374 4142 = peers 6-00000000000000000000000000000001-4142
dial 0 tcp 6-00000000000000000000000000000001-4142 = open n
dial 0 nonce 2f612f66696c652f7061746820746f2066696c652031323334 = nonce 564552494c5920534543524554495645
add 0 0 ok
send 0 564552494c5920534543524554495645 took 16
send 0 004155544820414e4f4e594d4f55532037613632373537330d0a took 26
recv 0 1024 again
modify 0 0 r ok
now 0
wait - reports
now 0
now 0
wait - reports
now 0
now 0
wait - reports
now 0
now 0
wait - reports
now 0
now 0
wait - reports
now 0
delete 0 0 ok
",
    1,
);

#[test]
fn a_dialling_asks_one_question_after_another(rt: HostRuntime) -> Result<(), Fail> {
    let rows = [
        EXPECTED_GUID,
        ESCAPED_PATH,
        LAST_OF_EQUAL_KEYS,
        TWO_PEERS,
        BY_IBUS,
        IBUS_FAILS,
        IBUS_BY_IBUS,
        PROGRAM,
        NONCE_NOT_READ,
        NO_PEER_OF_THE_FAMILY,
        NONCE_SENT_FIRST,
    ];
    for (script, printed, wanted) in rows {
        let (sink, status) = outcome(rt.alloc(), &["play"], script.as_bytes(), &[], 1000)?;
        assert_eq!(rt; sink.bytes(), printed.as_bytes(), "{script}");
        assert_eq!(rt; status, wanted, "{script}");
    }
    Ok(())
}

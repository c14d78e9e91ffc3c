//! Sessions with a deadline, played.

use super::program::outcome;
use std::test::Fail;

/// A script, what is printed of it, and the status.
const ROWS: [(&str, &str, u8); 9] = [
    // Its answer comes before its deadline is looked at.
    (
        "rounds 5
client EXTERNAL 1000 - n 0 unix:path=/run/a
dial 0 open n
recv 0 bytes 4f4b2031323334646561646265656631323334646561646265656631323334353637380d0a
",
        "session 0 open:1234deadbeef1234deadbeef12345678:n 00415554482045585445524e414c2033313330333033300d0a424547494e0d0a . -
dial 0 unix 2f72756e2f61 = open n
add 0 0 ok
send 0 00415554482045585445524e414c2033313330333033300d0a took 25
recv 0 1024 bytes 4f4b2031323334646561646265656631323334646561646265656631323334353637380d0a
send 0 424547494e0d0a took 7
delete 0 0 ok
",
        0,
    ),
    // Its deadline has come already.
    (
        "rounds 0
client EXTERNAL 1000 - n 0 unix:path=/run/a
dial 0 open n
",
        "session 0 timed-out 00415554482045585445524e414c2033313330333033300d0a . 0
dial 0 unix 2f72756e2f61 = open n
add 0 0 ok
send 0 00415554482045585445524e414c2033313330333033300d0a took 25
recv 0 1024 again
modify 0 0 r ok
now 0
delete 0 0 ok
",
        1,
    ),
    // The wait lasts to its deadline, which has come then.
    (
        "rounds 1
client EXTERNAL 1000 - n 50 unix:path=/run/a
dial 0 open n
now 10
now 10
now 50
",
        "session 0 timed-out 00415554482045585445524e414c2033313330333033300d0a . 50
dial 0 unix 2f72756e2f61 = open n
add 0 0 ok
send 0 00415554482045585445524e414c2033313330333033300d0a took 25
recv 0 1024 again
modify 0 0 r ok
now 10
notify ok
now 10
wait 40 reports
now 50
recv 0 1024 again
now 50
delete 0 0 ok
",
        1,
    ),
    // A reading short of its deadline leaves it waiting.
    (
        "rounds 1
client EXTERNAL 1000 - n 50 unix:path=/run/a
dial 0 open n
now 10
now 10
now 49
",
        "session 0 waiting 00415554482045585445524e414c2033313330333033300d0a . 10
dial 0 unix 2f72756e2f61 = open n
add 0 0 ok
send 0 00415554482045585445524e414c2033313330333033300d0a took 25
recv 0 1024 again
modify 0 0 r ok
now 10
notify ok
now 10
wait 40 reports
now 49
delete 0 0 ok
",
        1,
    ),
    // No number is left for a round.
    (
        "rounds 1
start 18446744073709551615 0
client EXTERNAL 1000 - n - unix:path=/run/a
dial 0 open n
",
        "",
        7,
    ),
    // No number is left for its timer.
    (
        "rounds 5
start 0 18446744073709551615
client EXTERNAL 1000 - n 50 unix:path=/run/a
dial 0 open n
",
        "",
        7,
    ),
    // Its peer answers in two reads.
    (
        "rounds 5
client - 1000 6c01 n 5000000000 unix:path=/run/user/1000/bus,guid=1234deadbeef1234deadbeef12345678
dial 0 open y
recv 0 bytes 4f4b2031323334646561646265656631323334646561646265656631323334353637380d0a
recv 0 bytes 41475245455f554e49585f46440d0a6c02
",
        "session 0 open:1234deadbeef1234deadbeef12345678:y 00415554482045585445524e414c2033313330333033300d0a4e45474f54494154455f554e49585f46440d0a424547494e0d0a6c01 6c02 -
dial 0 unix 2f72756e2f757365722f313030302f627573 = open y
add 0 0 ok
send 0 00415554482045585445524e414c2033313330333033300d0a took 25
recv 0 1024 bytes 4f4b2031323334646561646265656631323334646561646265656631323334353637380d0a
send 0 4e45474f54494154455f554e49585f46440d0a424547494e0d0a6c01 took 28
recv 0 1024 bytes 41475245455f554e49585f46440d0a6c02
delete 0 0 ok
",
        0,
    ),
    // And in one.
    (
        "rounds 5
client - 1000 6c01 n 5000000000 unix:path=/run/user/1000/bus,guid=1234deadbeef1234deadbeef12345678
dial 0 open y
recv 0 bytes 4f4b2031323334646561646265656631323334646561646265656631323334353637380d0a41475245455f554e49585f46440d0a6c02
",
        "session 0 open:1234deadbeef1234deadbeef12345678:y 00415554482045585445524e414c2033313330333033300d0a4e45474f54494154455f554e49585f46440d0a424547494e0d0a6c01 6c02 -
dial 0 unix 2f72756e2f757365722f313030302f627573 = open y
add 0 0 ok
send 0 00415554482045585445524e414c2033313330333033300d0a took 25
recv 0 1024 bytes 4f4b2031323334646561646265656631323334646561646265656631323334353637380d0a41475245455f554e49585f46440d0a6c02
send 0 4e45474f54494154455f554e49585f46440d0a424547494e0d0a6c01 took 28
delete 0 0 ok
",
        0,
    ),
    // The notice of its timer fails.
    (
        "rounds 1
client EXTERNAL 1000 - n 50 unix:path=/run/a
dial 0 open n
now 10
now 10
now 50
notify fault
",
        "",
        6,
    ),
];

#[test]
fn a_deadline_ends_its_session_where_no_answer_came_before(rt: HostRuntime) -> Result<(), Fail> {
    for (script, printed, status) in ROWS {
        let (sink, found) = outcome(rt.alloc(), &["play"], script.as_bytes(), &[], 4000)?;
        assert_eq!(rt; sink.bytes(), printed.as_bytes(), "{script}");
        assert_eq!(rt; found, status, "{script}");
    }
    Ok(())
}

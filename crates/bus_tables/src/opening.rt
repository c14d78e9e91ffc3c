//! Both sides of the conversation over a wire in memory, and the texts of commands.

mod client;
mod limits;
mod server;
mod wire;

use bus_opening::{Command, CommandError};
use std::test::Fail;

#[test]
fn commands_are_read_and_printed(rt: HostRuntime) -> Result<(), Fail> {
    let alloc = rt.alloc();
    let printed = [
        ("AUTH EXTERNAL 31303030", "AUTH EXTERNAL 31303030"),
        ("AUTH  ANONYMOUS", "AUTH ANONYMOUS"),
        ("AUTH", "AUTH"),
        ("  BEGIN  x", "BEGIN"),
        ("CANCEL", "CANCEL"),
        ("DATA", "DATA"),
        ("DATA FF", "DATA ff"),
        ("ERROR  a b ", "ERROR a b"),
        ("NEGOTIATE_UNIX_FD", "NEGOTIATE_UNIX_FD"),
        ("AGREE_UNIX_FD", "AGREE_UNIX_FD"),
        ("REJECTED  A   B", "REJECTED A B"),
        (
            "OK 1234DEADbeef1234deadbeef12345678",
            "OK 1234deadbeef1234deadbeef12345678",
        ),
    ];
    for (line, text) in printed {
        let bytes = Command::from_str(alloc, line)?.to_bytes(alloc)?;
        assert_eq!(rt; bytes.as_slice(), text.as_bytes(), "{line}");
    }
    for line in ["DATA 0", "OK", "AUTH KERBEROS", "", "HELLO"] {
        assert!(rt;
            matches!(Command::from_str(alloc, line), Err(CommandError::Handshake)),
            "{line}"
        );
    }
    Ok(())
}

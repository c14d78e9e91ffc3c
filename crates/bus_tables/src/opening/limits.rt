//! The greatest length of a line.

use super::client::{Asks, client_asking};
use super::server::{Serves, server_for};
use super::wire::{add_lines, ending, holding, lines};
use bus_opening::{Handshake, Verdict};
use std::alloc::Global;
use std::test::Fail;

// How a side ends that gets these bytes, so many bytes `A` and this end, and how many bytes it leaves.
fn long_line<H: Handshake>(
    alloc: Global,
    opening: &mut H,
    first: &str,
    count: usize,
    end: &str,
) -> Result<(Option<Verdict>, usize), Fail> {
    let mut bytes = lines(alloc, first)?;
    for _ in 0..count {
        bytes.extend_from_slice("A".as_bytes())?;
    }
    add_lines(&mut bytes, end)?;
    let mut wire = holding(alloc, bytes.as_slice())?;
    let verdict = ending(alloc, opening, &mut wire);
    Ok((verdict, opening.leftover().len()))
}

fn client_line(alloc: Global, count: usize, end: &str) -> Result<(Option<Verdict>, usize), Fail> {
    let mut client = client_asking(alloc, Asks::Nothing, None)?;
    long_line(alloc, &mut client, "", count, end)
}

// The same for a server, whose first byte is NUL.
fn server_line(alloc: Global, count: usize, end: &str) -> Result<(Option<Verdict>, usize), Fail> {
    let mut server = server_for(alloc, Serves::Nobody)?;
    long_line(alloc, &mut server, "\0", count, end)
}

#[test]
fn a_line_may_have_16384_bytes(rt: HostRuntime) -> Result<(), Fail> {
    let alloc = rt.alloc();
    let refused = Some(Verdict::Handshake);
    let too_long = Some(Verdict::LineTooLong);
    assert_eq!(rt; client_line(alloc, 16383, "|")?, (refused, 0));
    assert_eq!(rt; client_line(alloc, 16384, "|")?, (too_long, 16386));
    assert_eq!(rt; client_line(alloc, 16384, "")?, (None, 16384));
    assert_eq!(rt; client_line(alloc, 16385, "")?, (too_long, 16385));
    assert_eq!(rt; server_line(alloc, 16382, "|")?, (refused, 0));
    assert_eq!(rt; server_line(alloc, 16383, "|")?, (too_long, 16386));
    Ok(())
}

//! The line that sums a bulk run up.

ghost use Rattle.std.specs.Prelude.{◌≡◌, IfOk, string_bytes};
ghost use Rattle.bus_bulk.specs.Summary.{ended_so, is_open, is_connection, is_handshake, is_timed_out};
ghost use Rattle.bus_bulk.specs.Summary.{summary_text, written_by};

use bus_session::{Ended, Ending};
use react_core::outside::OutOfMemory;
use std::alloc::Global;

/// How many bytes were written in all.
fn written_by(endeds: &[Ended]) -> u128
    ensures { result ≡ written_by endeds.now }
{
    let mut written = 0u128;
    for ended in endeds {
        written += ended.written.as_slice().len() as u128;
    }
    written
}

/// How many connections stand.
fn open_in(endeds: &[Ended]) -> usize
    ensures { result ≡ ended_so is_open endeds.now }
{
    endeds
        .iter()
        .filter(|e| matches!(e.ending, Ending::Open { .. }))
        .count()
}

/// How many sessions could not be dialled.
fn connection_in(endeds: &[Ended]) -> usize
    ensures { result ≡ ended_so is_connection endeds.now }
{
    endeds
        .iter()
        .filter(|e| matches!(e.ending, Ending::Connection))
        .count()
}

/// How many sessions had a peer that broke the protocol.
fn handshake_in(endeds: &[Ended]) -> usize
    ensures { result ≡ ended_so is_handshake endeds.now }
{
    endeds
        .iter()
        .filter(|e| matches!(e.ending, Ending::Handshake))
        .count()
}

/// How many sessions reached their deadline.
fn timed_out_in(endeds: &[Ended]) -> usize
    ensures { result ≡ ended_so is_timed_out endeds.now }
{
    endeds
        .iter()
        .filter(|e| matches!(e.ending, Ending::TimedOut))
        .count()
}

/// The line of a run of `n` sessions that ended so: how many of them are open, connection, handshake and timed-out, and
/// how many bytes they wrote in all. Other endings are in none of the four counts, but their bytes are in the sum.
/// Where memory runs out, the answer is `OutOfMemory`.
#[tactic(auto, unfolding(crate::specs::Summary::summary_words))]
pub fn summary(alloc: Global, n: u32, endeds: &[Ended]) -> Result<String, OutOfMemory>
    ensures text { IfOk result (λ text. string_bytes text ≡ summary_text n endeds.now) }
{
    let open = open_in(endeds);
    let connection = connection_in(endeds);
    let handshake = handshake_in(endeds);
    let timed_out = timed_out_in(endeds);
    let written = written_by(endeds);
    let mut text = String::new(alloc);
    writeln!(
        text,
        "bulk {n} open {open} connection {connection} handshake {handshake} timed-out {timed_out} written {written}"
    )?;
    Ok(text)
}

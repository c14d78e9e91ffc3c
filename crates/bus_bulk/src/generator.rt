//! The script of a bulk run.

ghost use Rattle.std.specs.Prelude.{◌≡◌, ◌≤◌, ◌<◌, [], ◌∷◌, ◌++◌, map, take, Ok, IfOk, OnOk, string_bytes};
ghost use Rattle.std.specs.List.{flat_map};
ghost use Rattle.bus_script.specs.Printed.{line_text};
ghost use Rattle.bus_script.specs.Script.{script};
ghost use Rattle.bus_script.specs.declared.reading.ScriptForm.TheVariants as forms;
ghost use Rattle.bus_bulk.specs.Kinds.{kind_of};
ghost use Rattle.bus_bulk.specs.Replies.{acceptance, client_lines, opens, refuses, gives, ends};
ghost use Rattle.bus_bulk.specs.Replies.{replies_to, reply_words};
ghost use Rattle.bus_bulk.specs.Bulk.{bulk, bulk_text, session_lines, reply_lines, reading_lines};
ghost use Rattle.bus_bulk.specs.Bulk.{reading_words, readings_by, session_readings};

use crate::kind::Kind;
use bus_opening::Hexadecimal;
use react_core::outside::OutOfMemory;
use std::alloc::Global;

/// By this a server lets a client in.
const ACCEPTANCE: &[u8] = b"OK 1234deadbeef1234deadbeef12345678\r\n";

/// All that a client says to a server.
const CLIENT_LINES: &[u8] = b"\0AUTH EXTERNAL\r\nDATA\r\nBEGIN\r\n";

/// How much of its line a server says that ends in the middle of it.
const CUT_OFF_AT: usize = 10;

#[tactic(auto, unfolding(crate::specs::Replies::acceptance))]
fn acceptance() -> &'static [u8]
    ensures { result.now ≡ acceptance }
{
    ACCEPTANCE
}

#[tactic(auto, unfolding(crate::specs::Replies::acceptance))]
fn cut_off() -> &'static [u8]
    ensures { result.now ≡ take 10 acceptance }
{
    &ACCEPTANCE[..CUT_OFF_AT]
}

#[tactic(auto, unfolding(crate::specs::Replies::client_lines))]
fn client_lines() -> &'static [u8]
    ensures { result.now ≡ client_lines }
{
    CLIENT_LINES
}

#[tactic(auto, using(crate::proofs::Growing::sessions_begin, crate::proofs::Growing::sessions_on))]
fn append_sessions(text: &mut String, sessions: u32) -> Result<(), OutOfMemory>
    ensures { OnOk result (string_bytes text.new ≡ string_bytes text.old
        ++ flat_map line_text (session_lines sessions)) }
{
    for session in 0..sessions {
        text.push_str(Kind::of(session).session_line())?;
    }
    Ok(())
}

/// The line of a wire that opens.
#[tactic(auto, unfolding(crate::specs::Replies::reply_words))]
fn append_opening(text: &mut String, session: u32) -> Result<(), OutOfMemory>
    ensures { OnOk result (string_bytes text.new ≡ string_bytes text.old ++ line_text (reply_words session opens)) }
{
    writeln!(text, "dial {session} open n")?;
    Ok(())
}

/// The line of a wire that does not open.
#[tactic(auto, unfolding(crate::specs::Replies::reply_words))]
fn append_refusal(text: &mut String, session: u32) -> Result<(), OutOfMemory>
    ensures { OnOk result (string_bytes text.new ≡ string_bytes text.old ++ line_text (reply_words session refuses)) }
{
    writeln!(text, "dial {session} fault")?;
    Ok(())
}

/// The line of a peer that has ended.
#[tactic(auto, unfolding(crate::specs::Replies::reply_words))]
fn append_end(text: &mut String, session: u32) -> Result<(), OutOfMemory>
    ensures { OnOk result (string_bytes text.new ≡ string_bytes text.old ++ line_text (reply_words session ends)) }
{
    writeln!(text, "recv {session} end")?;
    Ok(())
}

/// A line with bytes that a session reads.
#[tactic(auto, unfolding(crate::specs::Replies::reply_words))]
fn append_bytes(text: &mut String, session: u32, bytes: &[u8]) -> Result<(), OutOfMemory>
    ensures { OnOk result (string_bytes text.new ≡ string_bytes text.old
        ++ line_text (reply_words session (gives bytes.now))) }
{
    writeln!(text, "recv {session} bytes {}", Hexadecimal(bytes))?;
    Ok(())
}

/// A line for each of the bytes.
fn append_each_byte(text: &mut String, session: u32, bytes: &[u8]) -> Result<(), OutOfMemory>
    ensures { OnOk result (string_bytes text.new ≡ string_bytes text.old
        ++ flat_map line_text (map (λ byte. reply_words session (gives (byte ∷ []))) bytes.now)) }
{
    for byte in bytes {
        append_bytes(text, session, &[*byte])?;
    }
    Ok(())
}

/// The lines of what is done to a session of a kind.
#[tactic(auto, using(crate::proofs::Growing::reply_counts), unfolding(crate::specs::Replies::replies_to))]
fn append_replies(text: &mut String, session: u32, kind: Kind) -> Result<(), OutOfMemory>
    ensures { OnOk result (string_bytes text.new ≡ string_bytes text.old
        ++ flat_map line_text (map (reply_words session) (replies_to kind))) }
{
    match kind {
        Kind::Accepted => {
            append_opening(text, session)?;
            Ok(append_bytes(text, session, acceptance())?)
        }
        Kind::AcceptedByBytes => {
            append_opening(text, session)?;
            Ok(append_each_byte(text, session, acceptance())?)
        }
        Kind::Serving => {
            append_opening(text, session)?;
            Ok(append_bytes(text, session, client_lines())?)
        }
        Kind::Refused => Ok(append_refusal(text, session)?),
        Kind::CutOff => {
            append_opening(text, session)?;
            append_bytes(text, session, cut_off())?;
            Ok(append_end(text, session)?)
        }
        Kind::Unanswered => Ok(append_opening(text, session)?),
    }
}

#[tactic(auto, using(crate::proofs::Growing::replies_begin, crate::proofs::Growing::replies_on))]
fn append_all_replies(text: &mut String, sessions: u32) -> Result<(), OutOfMemory>
    ensures { OnOk result (string_bytes text.new ≡ string_bytes text.old
        ++ flat_map line_text (reply_lines sessions)) }
{
    for session in 0..sessions {
        append_replies(text, session, Kind::of(session))?;
    }
    Ok(())
}

/// The lines of what a session reads of the clock.
#[tactic(auto, using(crate::proofs::Growing::first_reading))]
fn append_reading(text: &mut String, session: u32) -> Result<(), OutOfMemory>
    ensures { OnOk result (string_bytes text.new ≡ string_bytes text.old
        ++ flat_map line_text (map reading_words (readings_by (kind_of session)))) }
{
    if Kind::of(session) == Kind::Unanswered {
        text.push_str("now 0\n")?;
    }
    Ok(())
}

#[tactic(auto, using(crate::proofs::Growing::readings_begin, crate::proofs::Growing::readings_on))]
fn append_session_readings(text: &mut String, sessions: u32) -> Result<(), OutOfMemory>
    ensures { OnOk result (string_bytes text.new ≡ string_bytes text.old
        ++ flat_map line_text (map reading_words (session_readings sessions))) }
{
    for session in 0..sessions {
        append_reading(text, session)?;
    }
    Ok(())
}

/// The lines of the reading before the wait and of that behind it.
#[tactic(auto, using(crate::proofs::Growing::last_readings))]
fn last_readings() -> &'static str
    ensures { result.now ≡ flat_map line_text (map reading_words (0 ∷ 100 ∷ [])) }
{
    "now 0\nnow 100\n"
}

#[tactic(auto, using(crate::proofs::Growing::all_readings))]
fn append_readings(text: &mut String, sessions: u32) -> Result<(), OutOfMemory>
    ensures { OnOk result (string_bytes text.new ≡ string_bytes text.old
        ++ flat_map line_text (reading_lines sessions)) }
{
    append_session_readings(text, sessions)?;
    text.push_str(last_readings())?;
    Ok(())
}

/// The text of a script of so many sessions, at most 10000, which `play` runs.
///
/// The six kinds take turns: a client that is let in, one that is let in byte by byte, a server that lets its client
/// in, a client that finds nobody, one whose server ends in the middle of its line, and one whose server says nothing
/// until the deadline, at 100 nanoseconds. The answers stand session by session, and the readings of the clock behind
/// them. Where memory runs out, the answer is `OutOfMemory`.
#[tactic(auto, using(crate::proofs::Growing::whole_text))]
pub fn bulk_script(alloc: Global, n: u32) -> Result<Vec<u8>, OutOfMemory>
    requires { n ≤ 10000 }
    ensures text { IfOk result (λ text. text.items ≡ bulk_text n) }
{
    let mut text = String::new(alloc);
    text.push_str("rounds 1\n")?;
    append_sessions(&mut text, n)?;
    append_all_replies(&mut text, n)?;
    append_readings(&mut text, n)?;
    Ok(text.into_bytes())
}

//! The forms of a line.

ghost use Rattle.std.specs.Prelude.{◌≡◌, ◌^◌, ◌<◌, ◌∷◌, ◌++◌, [], IfOk, OnOk, string_bytes, MatchOption, true, false};
ghost use Rattle.std.specs.Prelude.{map, length, drop, nat_eq, Ok};
ghost use Rattle.std.specs.List.{join_with_byte, starts_with, ends_with};
ghost use Rattle.bus_script.specs.Words.{number, flag, bytes, optional};
ghost use Rattle.bus_script.specs.Reading.{Gives};
ghost use Rattle.bus_script.specs.Forms.{mechanism_word, guid_word, ip_v4, ip_v6, peer, peer_with, peer_words};
ghost use Rattle.bus_script.specs.Forms.{found_peers, rounds_line, start_line, client_line, server_line, dial_word};
ghost use Rattle.bus_script.specs.Forms.{dial_with, dial_output, dial_words, dial_answer, recv_word, recv_with};
ghost use Rattle.bus_script.specs.Forms.{recv_answer, send_word, send_with, send_answer, without, source, ready};
ghost use Rattle.bus_script.specs.Forms.{readies, wait_word, wait_with, wait_answer, outcome_word, outcome, dial_line};
ghost use Rattle.bus_script.specs.Forms.{recv_line, send_line, now_line, poller_line, line_with, line_of};
ghost use Rattle.bus_script.specs.Forms.{peer_parts};

use crate::line::{Answer, Line, LineError, Readies, Ready, ReadySource, Reason, ScriptWait};
use crate::number::{number_u16, number_u32, number_u64, number_usize};
use crate::words::split_peer;
use bus_address::{Guid, Text};
use bus_opening::{AuthMechanism, ClientConfig, ServerConfig};
use bus_session::{Party, Session};
use react_core::outside::{Bytes, DialAnswer, Peer, Peers, RecvAnswer, SendAnswer};
use std::alloc::{AllocError, Global};

fn flag(word: &str) -> Result<bool, Reason>
    ensures { result ≡ flag word.now }
{
    match word {
        "y" => Ok(true),
        "n" => Ok(false),
        _ => Err(Reason::Form),
    }
}

fn bytes(alloc: Global, word: &str) -> Result<Bytes, LineError>
    ensures { Gives result (bytes word.now) }
{
    if word == "." {
        return Ok(Bytes::from_vec(Vec::new(alloc)));
    }
    if word.is_empty() {
        return Err(LineError::Refused(Reason::Form));
    }
    match hex::decode(alloc, word) {
        Ok(decoded) => Ok(Bytes::from_vec(decoded)),
        Err(hex::FromHexError::OutOfMemory) => Err(LineError::OutOfMemory),
        Err(_) => Err(LineError::Refused(Reason::Form)),
    }
}

fn optional_bytes(alloc: Global, word: &str) -> Result<Option<Bytes>, LineError>
    ensures { Gives result (optional bytes word.now) }
{
    match word {
        "-" => Ok(None),
        _ => Ok(Some(bytes(alloc, word)?)),
    }
}

fn deadline(word: &str) -> Result<Option<u64>, Reason>
    ensures { result ≡ optional (number (2 ^ 64)) word.now }
{
    match word {
        "-" => Ok(None),
        _ => Ok(Some(number_u64(word)?)),
    }
}

fn mechanism(word: &str) -> Result<AuthMechanism, Reason>
    ensures { result ≡ mechanism_word word.now }
{
    AuthMechanism::from_str(word).ok().ok_or(Reason::Form)
}

fn optional_mechanism(word: &str) -> Result<Option<AuthMechanism>, Reason>
    ensures { result ≡ optional mechanism_word word.now }
{
    match word {
        "-" => Ok(None),
        _ => Ok(Some(mechanism(word)?)),
    }
}

fn permitted(word: &str) -> Result<Option<u32>, Reason>
    ensures { result ≡ optional (number (2 ^ 32)) word.now }
{
    match word {
        "-" => Ok(None),
        _ => Ok(Some(number_u32(word)?)),
    }
}

fn guid(word: &str) -> Result<Guid, Reason>
    ensures { result ≡ guid_word word.now }
{
    Guid::from_str(word).ok().ok_or(Reason::Form)
}

#[tactic(auto, unfolding(crate::specs::Forms::rounds_line))]
fn rounds_line(words: &[&str]) -> Result<Line, LineError>
    ensures { Gives result (rounds_line (map (λ x. x.now) words.now)) }
{
    match words {
        [rounds] => Ok(Line::Rounds(number_u64(rounds)?)),
        _ => Err(LineError::Refused(Reason::Form)),
    }
}

#[tactic(auto, unfolding(crate::specs::Forms::start_line))]
fn start_line(words: &[&str]) -> Result<Line, LineError>
    ensures { Gives result (start_line (map (λ x. x.now) words.now)) }
{
    match words {
        [tick, timer] => {
            let tick = number_u64(tick)?;
            let timer = number_u64(timer)?;
            Ok(Line::Start { tick, timer })
        }
        _ => Err(LineError::Refused(Reason::Form)),
    }
}

fn ip_v4(word: &str) -> Result<u32, Reason>
    ensures { result ≡ ip_v4 word.now }
{
    let mut octets = [0u8; 4];
    match hex::decode_to_slice(word, &mut octets) {
        Ok(()) => Ok(u32::from_be_bytes(octets)),
        Err(_) => Err(Reason::Form),
    }
}

fn ip_v6(word: &str) -> Result<u128, Reason>
    ensures { result ≡ ip_v6 word.now }
{
    let mut octets = [0u8; 16];
    match hex::decode_to_slice(word, &mut octets) {
        Ok(()) => Ok(u128::from_be_bytes(octets)),
        Err(_) => Err(Reason::Form),
    }
}

fn peer_with(family: &str, ip: &str, port: &str) -> Result<Peer, Reason>
    ensures { result ≡ peer_with family.now ip.now port.now }
{
    match family {
        "4" => {
            let ip = ip_v4(ip)?;
            let port = number_u16(port)?;
            Ok(Peer::V4 { ip, port })
        }
        "6" => {
            let ip = ip_v6(ip)?;
            let port = number_u16(port)?;
            Ok(Peer::V6 { ip, port })
        }
        _ => Err(Reason::Form),
    }
}

#[tactic(auto, unfolding(crate::specs::Forms::peer_parts))]
fn peer_of(parts: &[&str]) -> Result<Peer, Reason>
    ensures { result ≡ peer_parts (map (λ x. x.now) parts.now) }
{
    match parts {
        [family, ip, port] => peer_with(family, ip, port),
        _ => Err(Reason::Form),
    }
}

fn peer(alloc: Global, word: &str) -> Result<Peer, LineError>
    ensures { Gives result (peer word.now) }
{
    let parts = split_peer(alloc, word)?;
    Ok(peer_of(parts.as_slice())?)
}

fn peers(alloc: Global, words: &[&str]) -> Result<Peers, LineError>
    ensures { Gives result (peer_words (map (λ x. x.now) words.now)) }
{
    let mut found = Vec::with_capacity(alloc, words.len())?;
    for word in words {
        found.push(peer(alloc, word)?)?;
    }
    Ok(Peers::from_vec(found))
}

fn dial_word(kind: &str) -> Result<DialAnswer, Reason>
    ensures { result ≡ dial_word kind.now }
{
    match kind {
        "fault" => Ok(DialAnswer::Failed),
        _ => Err(Reason::Form),
    }
}

fn dial_with(alloc: Global, kind: &str, x: &str) -> Result<DialAnswer, LineError>
    ensures { Gives result (dial_with kind.now x.now) }
{
    match kind {
        "open" => Ok(DialAnswer::Opened { passes: flag(x)? }),
        "nonce" => Ok(DialAnswer::Nonce(bytes(alloc, x)?)),
        _ => Err(LineError::Refused(Reason::Form)),
    }
}

fn dial_output(
    alloc: Global,
    kind: &str,
    success: &str,
    text: &str,
) -> Result<DialAnswer, LineError>
    ensures { Gives result (dial_output kind.now success.now text.now) }
{
    if kind != "output" {
        return Err(LineError::Refused(Reason::Form));
    }
    let success = flag(success)?;
    let text = bytes(alloc, text)?;
    Ok(DialAnswer::Output { success, text })
}

#[tactic(auto, unfolding(crate::specs::Forms::dial_words))]
fn dial_words(alloc: Global, words: &[&str]) -> Result<DialAnswer, LineError>
    ensures { Gives result (dial_words (map (λ x. x.now) words.now)) }
{
    match words {
        [kind] => Ok(dial_word(kind)?),
        [kind, x] => dial_with(alloc, kind, x),
        [kind, x, y] => dial_output(alloc, kind, x, y),
        _ => Err(LineError::Refused(Reason::Form)),
    }
}

fn dial_peers(alloc: Global, words: &[&str]) -> Result<DialAnswer, LineError>
    ensures { Gives result (found_peers (map (λ x. x.now) words.now)) }
{
    Ok(DialAnswer::Found(peers(alloc, words)?))
}

#[tactic(auto, unfolding(crate::specs::Forms::dial_answer))]
fn dial_answer(alloc: Global, words: &[&str]) -> Result<DialAnswer, LineError>
    ensures { Gives result (dial_answer (map (λ x. x.now) words.now)) }
{
    match words {
        [] => Err(LineError::Refused(Reason::Form)),
        [kind, rest @ ..] => {
            if *kind == "peers" {
                return dial_peers(alloc, rest);
            }
            dial_words(alloc, words)
        }
    }
}

fn recv_word(kind: &str) -> Result<RecvAnswer, Reason>
    ensures { result ≡ recv_word kind.now }
{
    match kind {
        "end" => Ok(RecvAnswer::End),
        "again" => Ok(RecvAnswer::NotReady),
        "fault" => Ok(RecvAnswer::Failed),
        _ => Err(Reason::Form),
    }
}

fn recv_with(alloc: Global, kind: &str, x: &str) -> Result<RecvAnswer, LineError>
    ensures { Gives result (recv_with kind.now x.now) }
{
    if kind != "bytes" || x == "." {
        return Err(LineError::Refused(Reason::Form));
    }
    Ok(RecvAnswer::Got(bytes(alloc, x)?))
}

#[tactic(auto, unfolding(crate::specs::Forms::recv_answer))]
fn recv_answer(alloc: Global, words: &[&str]) -> Result<RecvAnswer, LineError>
    ensures { Gives result (recv_answer (map (λ x. x.now) words.now)) }
{
    match words {
        [kind] => Ok(recv_word(kind)?),
        [kind, x] => recv_with(alloc, kind, x),
        _ => Err(LineError::Refused(Reason::Form)),
    }
}

fn send_word(kind: &str) -> Result<SendAnswer, Reason>
    ensures { result ≡ send_word kind.now }
{
    match kind {
        "again" => Ok(SendAnswer::NotReady),
        "fault" => Ok(SendAnswer::Failed),
        _ => Err(Reason::Form),
    }
}

fn send_with(kind: &str, count: &str) -> Result<SendAnswer, Reason>
    ensures { result ≡ send_with kind.now count.now }
{
    match kind {
        "took" => Ok(SendAnswer::Took(number_usize(count)?)),
        _ => Err(Reason::Form),
    }
}

#[tactic(auto, unfolding(crate::specs::Forms::send_answer))]
fn send_answer(words: &[&str]) -> Result<SendAnswer, Reason>
    ensures { result ≡ send_answer (map (λ x. x.now) words.now) }
{
    match words {
        [kind] => send_word(kind),
        [kind, count] => send_with(kind, count),
        _ => Err(Reason::Form),
    }
}

/// The text without that end, where it has it.
#[tactic(auto, using(crate::proofs::Ends::strip_suffix_text))]
fn cut_end<'a>(word: &'a str, end: &str) -> Option<&'a str>
    ensures { MatchOption result (ends_with nat_eq word.now end.now ≡ false)
        (λ x. (ends_with nat_eq word.now end.now ≡ true) × (x.now ≡ without (length end.now) word.now)) }
{
    word.strip_suffix(end)
}

/// The text without that front, where it has it.
#[tactic(auto, using(crate::proofs::Ends::strip_prefix_text))]
fn cut_front<'a>(word: &'a str, front: &str) -> Option<&'a str>
    ensures { MatchOption result (starts_with nat_eq word.now front.now ≡ false)
        (λ x. (starts_with nat_eq word.now front.now ≡ true) × (x.now ≡ drop (length front.now) word.now)) }
{
    word.strip_prefix(front)
}

#[tactic(auto, unfolding(crate::specs::Forms::source))]
fn source(word: &str) -> Result<ReadySource, Reason>
    ensures { result ≡ source word.now }
{
    match cut_front(word, "k") {
        Some(key) => Ok(ReadySource::Key(number_usize(key)?)),
        None => Ok(ReadySource::Session(number_u32(word)?)),
    }
}

#[tactic(auto, unfolding(crate::specs::Forms::ready))]
fn ready(word: &str) -> Result<Ready, Reason>
    ensures { result ≡ ready word.now }
{
    if let Some(front) = cut_end(word, "rw") {
        return Ok(Ready {
            source: source(front)?,
            read: true,
            write: true,
        });
    }
    if let Some(front) = cut_end(word, "r") {
        return Ok(Ready {
            source: source(front)?,
            read: true,
            write: false,
        });
    }
    if let Some(front) = cut_end(word, "w") {
        return Ok(Ready {
            source: source(front)?,
            read: false,
            write: true,
        });
    }
    Err(Reason::Form)
}

fn readies(alloc: Global, words: &[&str]) -> Result<Readies, LineError>
    ensures { Gives result (readies (map (λ x. x.now) words.now)) }
{
    let mut found = Vec::with_capacity(alloc, words.len())?;
    for word in words {
        found.push(ready(word)?)?;
    }
    Ok(Readies::from_vec(found))
}

fn wait_word(kind: &str) -> Result<ScriptWait, Reason>
    ensures { result ≡ wait_word kind.now }
{
    match kind {
        "interrupted" => Ok(ScriptWait::Interrupted),
        "fault" => Ok(ScriptWait::Failed),
        _ => Err(Reason::Form),
    }
}

fn wait_with(alloc: Global, kind: &str, rest: &[&str]) -> Result<ScriptWait, LineError>
    ensures { Gives result (wait_with kind.now (map (λ x. x.now) rest.now)) }
{
    if kind == "reports" {
        return Ok(ScriptWait::Reported(readies(alloc, rest)?));
    }
    if !rest.is_empty() {
        return Err(LineError::Refused(Reason::Form));
    }
    Ok(wait_word(kind)?)
}

#[tactic(auto, unfolding(crate::specs::Forms::wait_answer))]
fn wait_answer(alloc: Global, words: &[&str]) -> Result<ScriptWait, LineError>
    ensures { Gives result (wait_answer (map (λ x. x.now) words.now)) }
{
    match words {
        [] => Err(LineError::Refused(Reason::Form)),
        [kind, rest @ ..] => wait_with(alloc, kind, rest),
    }
}

fn outcome_word(word: &str) -> Result<bool, Reason>
    ensures { result ≡ outcome_word word.now }
{
    match word {
        "ok" => Ok(true),
        "fault" => Ok(false),
        _ => Err(Reason::Form),
    }
}

#[tactic(auto, unfolding(crate::specs::Forms::outcome))]
fn outcome(words: &[&str]) -> Result<bool, Reason>
    ensures { result ≡ outcome (map (λ x. x.now) words.now) }
{
    match words {
        [word] => outcome_word(word),
        _ => Err(Reason::Form),
    }
}

#[tactic(auto, unfolding(crate::specs::Forms::dial_line))]
fn dial_line(alloc: Global, words: &[&str]) -> Result<Line, LineError>
    ensures { Gives result (dial_line (map (λ x. x.now) words.now)) }
{
    match words {
        [] => Err(LineError::Refused(Reason::Form)),
        [session, rest @ ..] => {
            let session = number_u32(session)?;
            let answer = dial_answer(alloc, rest)?;
            Ok(Line::Answer(Answer::Dial { session, answer }))
        }
    }
}

#[tactic(auto, unfolding(crate::specs::Forms::recv_line))]
fn recv_line(alloc: Global, words: &[&str]) -> Result<Line, LineError>
    ensures { Gives result (recv_line (map (λ x. x.now) words.now)) }
{
    match words {
        [] => Err(LineError::Refused(Reason::Form)),
        [session, rest @ ..] => {
            let session = number_u32(session)?;
            let answer = recv_answer(alloc, rest)?;
            Ok(Line::Answer(Answer::Recv { session, answer }))
        }
    }
}

#[tactic(auto, unfolding(crate::specs::Forms::send_line))]
fn send_line(words: &[&str]) -> Result<Line, LineError>
    ensures { Gives result (send_line (map (λ x. x.now) words.now)) }
{
    match words {
        [] => Err(LineError::Refused(Reason::Form)),
        [session, rest @ ..] => {
            let session = number_u32(session)?;
            let answer = send_answer(rest)?;
            Ok(Line::Answer(Answer::Send { session, answer }))
        }
    }
}

#[tactic(auto, unfolding(crate::specs::Forms::now_line))]
fn now_line(words: &[&str]) -> Result<Line, LineError>
    ensures { Gives result (now_line (map (λ x. x.now) words.now)) }
{
    match words {
        [moment] => Ok(Line::Answer(Answer::Now(number_u64(moment)?))),
        _ => Err(LineError::Refused(Reason::Form)),
    }
}

fn append_word(text: &mut String, word: &str) -> Result<(), AllocError>
    ensures { OnOk result (string_bytes text.new ≡ string_bytes text.old ++ 32 ∷ word.now) }
{
    text.push_str(" ")?;
    text.push_str(word)?;
    Ok(())
}

fn joined(alloc: Global, first: &str, others: &[&str]) -> Result<Text, LineError>
    ensures { Gives result (Ok (join_with_byte 32 (first.now ∷ map (λ x. x.now) others.now))) }
{
    let mut text = String::from_str(alloc, first)?;
    for word in others {
        append_word(&mut text, word)?;
    }
    Ok(Text::from_string(text))
}

#[tactic(auto, unfolding(crate::specs::Forms::client_line))]
fn client_line(alloc: Global, words: &[&str]) -> Result<Line, LineError>
    ensures { Gives result (client_line (map (λ x. x.now) words.now)) }
{
    match words {
        [mech, user, hello, flatpak, limit, first, others @ ..] => {
            let mechanism = optional_mechanism(mech)?;
            let user = number_u32(user)?;
            let hello = optional_bytes(alloc, hello)?;
            let flatpak = flag(flatpak)?;
            let deadline = deadline(limit)?;
            let address = joined(alloc, first, others)?;
            let config = ClientConfig {
                mechanism,
                user,
                hello,
                flatpak,
            };
            Ok(Line::Session(Session {
                party: Party::Client { address, config },
                deadline,
            }))
        }
        _ => Err(LineError::Refused(Reason::Form)),
    }
}

#[tactic(auto, unfolding(crate::specs::Forms::server_line))]
fn server_line(words: &[&str]) -> Result<Line, LineError>
    ensures { Gives result (server_line (map (λ x. x.now) words.now)) }
{
    match words {
        [own, mech, user, limit] => {
            let guid = guid(own)?;
            let mechanism = mechanism(mech)?;
            let permitted = permitted(user)?;
            let deadline = deadline(limit)?;
            let config = ServerConfig {
                guid,
                mechanism,
                permitted,
            };
            Ok(Line::Session(Session::server(config, deadline)))
        }
        _ => Err(LineError::Refused(Reason::Form)),
    }
}

#[tactic(auto, unfolding(crate::specs::Forms::poller_line))]
fn poller_line(alloc: Global, word: &str, rest: &[&str]) -> Result<Line, LineError>
    ensures { Gives result (poller_line word.now (map (λ x. x.now) rest.now)) }
{
    match word {
        "add" => Ok(Line::Answer(Answer::Add(outcome(rest)?))),
        "modify" => Ok(Line::Answer(Answer::Modify(outcome(rest)?))),
        "delete" => Ok(Line::Answer(Answer::Delete(outcome(rest)?))),
        "notify" => Ok(Line::Answer(Answer::Notify(outcome(rest)?))),
        "wait" => Ok(Line::Answer(Answer::Wait(wait_answer(alloc, rest)?))),
        _ => Err(LineError::Refused(Reason::Form)),
    }
}

#[tactic(auto, unfolding(crate::specs::Forms::line_with))]
fn line_with(alloc: Global, word: &str, rest: &[&str]) -> Result<Line, LineError>
    ensures { Gives result (line_with word.now (map (λ x. x.now) rest.now)) }
{
    match word {
        "rounds" => rounds_line(rest),
        "start" => start_line(rest),
        "client" => client_line(alloc, rest),
        "server" => server_line(rest),
        "dial" => dial_line(alloc, rest),
        "recv" => recv_line(alloc, rest),
        "send" => send_line(rest),
        "now" => now_line(rest),
        _ => poller_line(alloc, word, rest),
    }
}

/// The line that the words say.
pub(crate) fn line_of(alloc: Global, words: &[&str]) -> Result<Line, LineError>
    ensures { Gives result (line_of (map (λ x. x.now) words.now)) }
{
    match words {
        [] => Err(LineError::Refused(Reason::Form)),
        [word, rest @ ..] => line_with(alloc, word, rest),
    }
}

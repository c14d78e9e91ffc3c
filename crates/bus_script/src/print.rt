//! The text of endings and events.

ghost use Rattle.std.specs.Prelude.{◌≡◌, ℕ, List, ◌++◌, ◌∷◌, [], IfOk, OnOk, string_bytes, Some, codes};
ghost use Rattle.std.specs.List.{flat_map};
ghost use Rattle.bus_script.specs.Printed.{bytes_word, flag_word, ok_word, directions, peer_word, question_words};
ghost use Rattle.bus_script.specs.Printed.{dial_words, recv_words, send_words, report_word, wait_words, words_text};
ghost use Rattle.bus_script.specs.Printed.{event_words, address_word, ending_word, ended_words, session_lines};
ghost use Rattle.bus_script.specs.Printed.{event_lines, printed, refusal};

use crate::line::Reason;
use bus_opening::Hexadecimal;
use bus_session::{AddressReason, Ended, Ending};
use react_core::outside::{
    Bytes, DialAnswer, Event, OutOfMemory, Peer, Question, RecvAnswer, Report, SendAnswer,
    WaitAnswer,
};
use std::alloc::Global;
use std::fmt;

/// Bytes as a word: hexadecimal digits, or a point for none.
#[derive(Clone, Copy)]
struct Hex<'a>(&'a [u8]);

impl fmt::Display for Hex<'_> {
    ghost output = { λ h. Some (bytes_word h.0.now) };

    #[tactic(auto, using(crate::proofs::Texts::some_bytes, crate::proofs::Texts::no_bytes))]
    fn fmt<W: fmt::Write>(&self, f: &mut fmt::Formatter<W>) -> fmt::Result {
        if self.0.is_empty() {
            return f.write_str(".");
        }
        write!(f, "{}", Hexadecimal(self.0))
    }
}

fn flag_word(flag: bool) -> &'static str
    ensures { result.now ≡ flag_word flag }
{
    if flag { "y" } else { "n" }
}

fn ok_word(ok: bool) -> &'static str
    ensures { result.now ≡ ok_word ok }
{
    if ok { "ok" } else { "fault" }
}

fn directions(read: bool, write: bool) -> &'static str
    ensures { result.now ≡ directions read write }
{
    match (read, write) {
        (true, true) => "rw",
        (true, false) => "r",
        (false, true) => "w",
        (false, false) => "n",
    }
}

/// A peer: 4 or 6, the digits of its IP address, and its port.
#[derive(Clone, Copy)]
struct PeerWord(Peer);

impl fmt::Display for PeerWord {
    ghost output = { λ p. Some (peer_word p.0) };

    fn fmt<W: fmt::Write>(&self, f: &mut fmt::Formatter<W>) -> fmt::Result {
        match self.0 {
            Peer::V4 { ip, port } => {
                let octets = ip.to_be_bytes();
                write!(f, "4-{}-{port}", Hexadecimal(&octets))
            }
            Peer::V6 { ip, port } => {
                let octets = ip.to_be_bytes();
                write!(f, "6-{}-{port}", Hexadecimal(&octets))
            }
        }
    }
}

/// Each byte string behind a space.
#[derive(Clone, Copy)]
struct SpacedBytes<'a>(&'a [Bytes]);

impl fmt::Display for SpacedBytes<'_> {
    ghost output = { λ s. Some (flat_map (λ bs. 32 ∷ bytes_word bs) s.0.now) };

    fn fmt<W: fmt::Write>(&self, f: &mut fmt::Formatter<W>) -> fmt::Result {
        for bytes in self.0 {
            write!(f, " {}", Hex(bytes.as_slice()))?;
        }
        Ok(())
    }
}

/// Each peer behind a space.
#[derive(Clone, Copy)]
struct SpacedPeers<'a>(&'a [Peer]);

impl fmt::Display for SpacedPeers<'_> {
    ghost output = { λ s. Some (flat_map (λ p. 32 ∷ peer_word p) s.0.now) };

    fn fmt<W: fmt::Write>(&self, f: &mut fmt::Formatter<W>) -> fmt::Result {
        for peer in self.0 {
            write!(f, " {}", PeerWord(*peer))?;
        }
        Ok(())
    }
}

/// Each report behind a space.
#[derive(Clone, Copy)]
struct SpacedReports<'a>(&'a [Report]);

impl fmt::Display for SpacedReports<'_> {
    ghost output = { λ s. Some (flat_map (λ r. 32 ∷ report_word r) s.0.now) };

    fn fmt<W: fmt::Write>(&self, f: &mut fmt::Formatter<W>) -> fmt::Result {
        for report in self.0 {
            let key = report.key;
            write!(f, " {key}{}", directions(report.read, report.write))?;
        }
        Ok(())
    }
}

/// The words of a question.
#[derive(Clone, Copy)]
struct QuestionWords<'a>(&'a Question);

impl fmt::Display for QuestionWords<'_> {
    ghost output = { λ q. Some (words_text (question_words q.0.now)) };

    #[tactic(auto, using(crate::proofs::Texts::start_joined, crate::proofs::Texts::bare_start_joined))]
    fn fmt<W: fmt::Write>(&self, f: &mut fmt::Formatter<W>) -> fmt::Result {
        match self.0 {
            Question::Unix(path) => write!(f, "unix {}", Hex(path.as_slice())),
            Question::Abstract(name) => write!(f, "abstract {}", Hex(name.as_slice())),
            Question::Lookup { host, port } => write!(f, "lookup {} {port}", Hex(host.as_slice())),
            Question::Tcp(peer) => write!(f, "tcp {}", PeerWord(*peer)),
            Question::Nonce(file) => write!(f, "nonce {}", Hex(file.as_slice())),
            Question::Start {
                program,
                arg0: None,
                args,
            } => write!(
                f,
                "start {} -{}",
                Hex(program.as_slice()),
                SpacedBytes(args.as_slice())
            ),
            Question::Start {
                program,
                arg0: Some(arg0),
                args,
            } => write!(
                f,
                "start {} {}{}",
                Hex(program.as_slice()),
                Hex(arg0.as_slice()),
                SpacedBytes(args.as_slice())
            ),
            Question::Ibus => f.write_str("ibus"),
            Question::Accept => f.write_str("accept"),
        }
    }
}

/// The words of a dialler's answer.
#[derive(Clone, Copy)]
struct DialWords<'a>(&'a DialAnswer);

impl fmt::Display for DialWords<'_> {
    ghost output = { λ a. Some (words_text (dial_words a.0.now)) };

    #[tactic(auto, using(crate::proofs::Texts::peers_joined))]
    fn fmt<W: fmt::Write>(&self, f: &mut fmt::Formatter<W>) -> fmt::Result {
        match self.0 {
            DialAnswer::Opened { passes } => write!(f, "open {}", flag_word(*passes)),
            DialAnswer::Found(peers) => write!(f, "peers{}", SpacedPeers(peers.as_slice())),
            DialAnswer::Nonce(bytes) => write!(f, "nonce {}", Hex(bytes.as_slice())),
            DialAnswer::Output { success, text } => {
                write!(f, "output {} {}", flag_word(*success), Hex(text.as_slice()))
            }
            DialAnswer::Failed => f.write_str("fault"),
        }
    }
}

/// The words of what came of a read.
#[derive(Clone, Copy)]
struct RecvWords<'a>(&'a RecvAnswer);

impl fmt::Display for RecvWords<'_> {
    ghost output = { λ a. Some (words_text (recv_words a.0.now)) };

    fn fmt<W: fmt::Write>(&self, f: &mut fmt::Formatter<W>) -> fmt::Result {
        match self.0 {
            RecvAnswer::Got(bytes) => write!(f, "bytes {}", Hex(bytes.as_slice())),
            RecvAnswer::End => f.write_str("end"),
            RecvAnswer::NotReady => f.write_str("again"),
            RecvAnswer::Failed => f.write_str("fault"),
        }
    }
}

/// The words of what came of a write.
#[derive(Clone, Copy)]
struct SendWords<'a>(&'a SendAnswer);

impl fmt::Display for SendWords<'_> {
    ghost output = { λ a. Some (words_text (send_words a.0.now)) };

    fn fmt<W: fmt::Write>(&self, f: &mut fmt::Formatter<W>) -> fmt::Result {
        match self.0 {
            SendAnswer::Took(count) => write!(f, "took {count}"),
            SendAnswer::NotReady => f.write_str("again"),
            SendAnswer::Failed => f.write_str("fault"),
        }
    }
}

/// The words of what came of a wait.
#[derive(Clone, Copy)]
struct WaitWords<'a>(&'a WaitAnswer);

impl fmt::Display for WaitWords<'_> {
    ghost output = { λ a. Some (words_text (wait_words a.0.now)) };

    #[tactic(auto, using(crate::proofs::Texts::reports_joined))]
    fn fmt<W: fmt::Write>(&self, f: &mut fmt::Formatter<W>) -> fmt::Result {
        match self.0 {
            WaitAnswer::Reported(reports) => {
                write!(f, "reports{}", SpacedReports(reports.as_slice()))
            }
            WaitAnswer::Interrupted => f.write_str("interrupted"),
            WaitAnswer::Failed => f.write_str("fault"),
        }
    }
}

/// The line of an event, without its line feed.
#[derive(Clone, Copy)]
pub struct EventLine<'a>(pub &'a Event);

impl fmt::Display for EventLine<'_> {
    ghost output = { λ e. Some (words_text (event_words e.0.now)) };

    #[tactic(auto, using(crate::proofs::Texts::dial_joined), unfolding(crate::specs::Printed::event_words))]
    fn fmt<W: fmt::Write>(&self, f: &mut fmt::Formatter<W>) -> fmt::Result {
        match self.0 {
            Event::Dial {
                wire,
                question,
                answer,
            } => write!(
                f,
                "dial {wire} {} = {}",
                QuestionWords(question),
                DialWords(answer)
            ),
            Event::Recv {
                wire,
                asked,
                answer,
            } => write!(f, "recv {wire} {asked} {}", RecvWords(answer)),
            Event::Send {
                wire,
                offered,
                answer,
            } => write!(
                f,
                "send {wire} {} {}",
                Hex(offered.as_slice()),
                SendWords(answer)
            ),
            Event::Close { wire } => write!(f, "close {wire}"),
            Event::Now { moment } => write!(f, "now {moment}"),
            Event::Add { wire, key, ok } => write!(f, "add {wire} {key} {}", ok_word(*ok)),
            Event::Modify {
                wire,
                key,
                read,
                write,
                ok,
            } => write!(
                f,
                "modify {wire} {key} {} {}",
                directions(*read, *write),
                ok_word(*ok)
            ),
            Event::Delete { wire, key, ok } => write!(f, "delete {wire} {key} {}", ok_word(*ok)),
            Event::Notify { ok } => write!(f, "notify {}", ok_word(*ok)),
            Event::Wait {
                timeout: None,
                answer,
            } => write!(f, "wait - {}", WaitWords(answer)),
            Event::Wait {
                timeout: Some(timeout),
                answer,
            } => write!(f, "wait {timeout} {}", WaitWords(answer)),
        }
    }
}

/// The word for why an address leads nowhere.
#[derive(Clone, Copy)]
struct AddressWord(AddressReason);

impl fmt::Display for AddressWord {
    ghost output = { λ r. Some (address_word r.0) };

    fn fmt<W: fmt::Write>(&self, f: &mut fmt::Formatter<W>) -> fmt::Result {
        match self.0 {
            AddressReason::Text(kind) => write!(f, "{kind}"),
            AddressReason::IbusFailed => f.write_str("ibus-failed"),
            AddressReason::NoAddress => f.write_str("no-address"),
        }
    }
}

/// The word of an ending.
#[derive(Clone, Copy)]
struct EndingWord(Ending);

impl fmt::Display for EndingWord {
    ghost output = { λ e. Some (ending_word e.0) };

    fn fmt<W: fmt::Write>(&self, f: &mut fmt::Formatter<W>) -> fmt::Result {
        match self.0 {
            Ending::Open { guid, cap_unix_fd } => {
                write!(f, "open:{guid}:{}", flag_word(cap_unix_fd))
            }
            Ending::Address(reason) => write!(f, "address:{}", AddressWord(reason)),
            Ending::Unsupported => f.write_str("unsupported"),
            Ending::Connection => f.write_str("connection"),
            Ending::Io => f.write_str("io"),
            Ending::Handshake => f.write_str("handshake"),
            Ending::LineTooLong => f.write_str("line-too-long"),
            Ending::TooManyCommands => f.write_str("too-many-commands"),
            Ending::TimedOut => f.write_str("timed-out"),
            Ending::Waiting => f.write_str("waiting"),
        }
    }
}

/// The line of a session, without its line feed.
#[derive(Clone, Copy)]
pub struct EndedLine<'a>(pub &'a Ended);

impl fmt::Display for EndedLine<'_> {
    ghost output = { λ e. Some (words_text (ended_words e.0.now)) };

    fn fmt<W: fmt::Write>(&self, f: &mut fmt::Formatter<W>) -> fmt::Result {
        let wire = self.0.wire;
        let written = Hex(self.0.written.as_slice());
        let leftover = Hex(self.0.leftover.as_slice());
        write!(f, "session {wire} {}", EndingWord(self.0.ending))?;
        match self.0.moment {
            Some(moment) => write!(f, " {written} {leftover} {moment}"),
            None => write!(f, " {written} {leftover} -"),
        }
    }
}

fn append_sessions(text: &mut String, endeds: &[Ended]) -> Result<(), OutOfMemory>
    ensures { OnOk result (string_bytes text.new ≡ string_bytes text.old ++ session_lines endeds.now) }
{
    for ended in endeds {
        writeln!(text, "{}", EndedLine(ended))?;
    }
    Ok(())
}

fn append_events(text: &mut String, events: &[Event]) -> Result<(), OutOfMemory>
    ensures { OnOk result (string_bytes text.new ≡ string_bytes text.old ++ event_lines events.now) }
{
    for event in events {
        writeln!(text, "{}", EventLine(event))?;
    }
    Ok(())
}

/// The text of a run: a line for each session, then a line for each event.
pub fn printed(alloc: Global, endeds: &[Ended], events: &[Event]) -> Result<String, OutOfMemory>
    ensures text { IfOk result (λ text. string_bytes text ≡ printed endeds.now events.now) }
{
    let mut text = String::new(alloc);
    append_sessions(&mut text, endeds)?;
    append_events(&mut text, events)?;
    Ok(text)
}

/// The text of a refusal: the line, 0 for the whole, and the reason.
pub fn refusal(alloc: Global, line: u64, reason: Reason) -> Result<String, OutOfMemory>
    ensures text { IfOk result (λ text. string_bytes text ≡ refusal line reason) }
{
    let mut text = String::new(alloc);
    writeln!(text, "refused {line} {reason}")?;
    Ok(text)
}

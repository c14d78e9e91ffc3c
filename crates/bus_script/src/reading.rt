//! A whole script.

ghost use Rattle.std.specs.Prelude.{◌≡◌, ◌≤◌, ◌<◌, ◌^◌, List, length, IfOk, Some, Ok};
ghost use Rattle.std.specs.List.{list_all};
ghost use Rattle.bus_script.specs.Reading.{Steps, StepsAt, GivesAt, CutsLine};
ghost use Rattle.bus_script.specs.Shape.{Say, lines_of};
ghost use Rattle.bus_script.specs.Laws.{HasForm, NamesItsSessions, IsForward};
ghost use Rattle.bus_script.specs.Script.{Script, start_of, latest, later, add, is_there, names_sessions, has_more};
ghost use Rattle.bus_script.specs.Script.{empty, read_line, at_line, read_lines, whole, script, lines_in, is_skipped};
ghost use Rattle.bus_script.specs.Script.{is_allowed};

use crate::forms::line_of;
use crate::line::{Answer, Line, LineError, Ready, ReadySource, Reason, ScriptWait, Start};
use crate::words::words;
use bus_session::Session;
use std::alloc::Global;
use std::marker::Model;
use thiserror::Error;

/// The command whose script is read.
#[derive(Clone, Copy, Debug, PartialEq, Eq)]
pub enum ScriptForm {
    /// `play`: each line may stand in it.
    Play,
    /// `open`: the rounds and the sessions alone, since real things answer.
    Open,
}

/// Why a text is no script. Line 0 is the whole text, and lines count from 1.
#[derive(Debug, Drop, Error)]
pub enum ScriptError {
    #[error("line {line}: {reason}")]
    Refused { line: u64, reason: Reason },
    #[error("out of memory")]
    OutOfMemory,
}

/// A script: how many rounds are run, where the reactor's numbers begin, the sessions, and the answers of the outside.
#[derive(Debug, Drop)]
pub struct Script {
    rounds: u64,
    start: Option<Start>,
    sessions: Vec<Session>,
    answers: Vec<Answer>,
}

impl Model for Script {
    ghost use Rattle.std.specs.Prelude.{Some};
    ghost use Rattle.bus_script.specs.Script.{Script};

    ghost Value = { Script };

    ghost view = { λ s. record {
      rounds = Some s.rounds;
      start = s.start;
      sessions = s.sessions.items;
      answers = s.answers.items;
    } };
}

/// What a script is made of.
#[derive(Debug, Drop)]
pub struct Parts {
    pub rounds: u64,
    pub tick: u64,
    pub timer: u64,
    pub sessions: Vec<Session>,
    pub answers: Vec<Answer>,
}

impl Script {
    /// How many rounds are run at most.
    pub fn rounds(&self) -> u64
        ensures rounds { Some result ≡ self.now.rounds }
    {
        self.rounds
    }

    /// Where the reactor's numbers begin: both at 0 without a `start` line.
    pub fn start(&self) -> Start
        ensures start { result ≡ start_of self.now.start }
    {
        self.start.unwrap_or(Start { tick: 0, timer: 0 })
    }

    /// Lends the sessions.
    pub fn sessions(&self) -> &[Session]
        ensures sessions { result.now ≡ self.now.sessions }
    {
        self.sessions.as_slice()
    }

    /// Lends the answers.
    pub fn answers(&self) -> &[Answer]
        ensures answers { result.now ≡ self.now.answers }
    {
        self.answers.as_slice()
    }

    /// Hands the parts over, without memory.
    pub fn into_parts(self) -> Parts
        ensures rounds { Some result.rounds ≡ self.rounds }
        ensures tick { result.tick ≡ (start_of self.start).tick }
        ensures timer { result.timer ≡ (start_of self.start).timer }
        ensures sessions { result.sessions.items ≡ self.sessions }
        ensures answers { result.answers.items ≡ self.answers }
    {
        let start = self.start();
        Parts {
            rounds: self.rounds,
            tick: start.tick,
            timer: start.timer,
            sessions: self.sessions,
            answers: self.answers,
        }
    }
}

/// The part of a script that the lines so far say.
#[derive(Debug, Drop)]
pub(crate) struct Draft {
    rounds: Option<u64>,
    start: Option<Start>,
    sessions: Vec<Session>,
    answers: Vec<Answer>,
    moment: u64,
}

impl Model for Draft {
    ghost use Rattle.std.specs.Prelude.{◌≡◌};
    ghost use Rattle.bus_script.specs.Script.{Script, latest};

    ghost Value = { Script };

    ghost view = { λ d. record {
      rounds = d.rounds;
      start = d.start;
      sessions = d.sessions.items;
      answers = d.answers.items;
    } };

    ghost invariant = { λ d. d.moment ≡ latest d.answers.items };
}

fn is_there(count: usize, source: ReadySource) -> bool
    ensures { result ≡ is_there count source }
{
    match source {
        ReadySource::Session(i) => (i as usize) < count,
        ReadySource::Key(_) => true,
    }
}

fn all_there(count: usize, readies: &[Ready]) -> bool
    ensures { result ≡ list_all (λ r. is_there count r.source) readies.now }
{
    readies.iter().all(|r| is_there(count, r.source))
}

fn names_sessions(count: usize, answer: &Answer) -> bool
    ensures { result ≡ names_sessions count answer.now }
{
    match answer {
        Answer::Dial { session, .. }
        | Answer::Recv { session, .. }
        | Answer::Send { session, .. } => (*session as usize) < count,
        Answer::Wait(ScriptWait::Reported(readies)) => all_there(count, readies.as_slice()),
        _ => true,
    }
}

fn later(moment: u64, answer: &Answer) -> u64
    ensures { result ≡ later moment answer.now }
{
    match answer {
        Answer::Now(next) => *next,
        _ => moment,
    }
}

impl Draft {
    pub(crate) fn new(alloc: Global) -> Draft
        ensures { result ≡ empty }
    {
        Draft {
            rounds: None,
            start: None,
            sessions: Vec::new(alloc),
            answers: Vec::new(alloc),
            moment: 0,
        }
    }

    fn has_more(&self) -> bool
        ensures { result ≡ has_more self.now }
    {
        self.start.is_some() || !self.sessions.is_empty() || !self.answers.is_empty()
    }

    #[tactic(auto, unfolding(crate::specs::Script::add))]
    pub(crate) fn add(&mut self, line: Line) -> Result<(), LineError>
        ensures { Steps result self.new (add self.old line) }
    {
        match line {
            Line::Rounds(n) => {
                if self.rounds.is_some() {
                    return Err(LineError::Refused(Reason::Order));
                }
                self.rounds = Some(n);
                Ok(())
            }
            Line::Start { tick, timer } => {
                if self.rounds.is_none() || self.has_more() {
                    return Err(LineError::Refused(Reason::Order));
                }
                self.start = Some(Start { tick, timer });
                Ok(())
            }
            Line::Session(session) => {
                if self.rounds.is_none() || !self.answers.is_empty() {
                    return Err(LineError::Refused(Reason::Order));
                }
                self.sessions.push(session)?;
                Ok(())
            }
            Line::Answer(answer) => {
                if self.rounds.is_none() {
                    return Err(LineError::Refused(Reason::Order));
                }
                if !names_sessions(self.sessions.len(), &answer) {
                    return Err(LineError::Refused(Reason::Session));
                }
                let next = later(self.moment, &answer);
                if next < self.moment {
                    return Err(LineError::Refused(Reason::Clock));
                }
                self.answers.push(answer)?;
                self.moment = next;
                Ok(())
            }
        }
    }

    #[tactic(auto, unfolding(crate::specs::Script::read_line))]
    fn read_line(&mut self, alloc: Global, form: ScriptForm, line: &str) -> Result<(), LineError>
        ensures { Steps result self.new (read_line form self.old line.now) }
    {
        if is_skipped(line) {
            return Ok(());
        }
        let words = words(alloc, line)?;
        let said = line_of(alloc, words.as_slice())?;
        if !is_allowed(form, &said) {
            return Err(LineError::Refused(Reason::Form));
        }
        self.add(said)
    }

    fn read_at(
        &mut self,
        alloc: Global,
        form: ScriptForm,
        number: u64,
        line: &str,
    ) -> Result<(), ScriptError>
        ensures { StepsAt result self.new (at_line number (read_line form self.old line.now)) }
    {
        match self.read_line(alloc, form, line) {
            Ok(()) => Ok(()),
            Err(LineError::Refused(reason)) => Err(ScriptError::Refused {
                line: number,
                reason,
            }),
            Err(LineError::OutOfMemory) => Err(ScriptError::OutOfMemory),
        }
    }

    fn finish(self) -> Result<Script, ScriptError>
        ensures { GivesAt result (whole self) }
    {
        match self.rounds {
            Some(rounds) => Ok(Script {
                rounds,
                start: self.start,
                sessions: self.sessions,
                answers: self.answers,
            }),
            None => Err(ScriptError::Refused {
                line: 0,
                reason: Reason::Order,
            }),
        }
    }
}

#[tactic(auto, using(std::proofs::lemmas::Str::Pattern::starts_text))]
fn is_skipped(line: &str) -> bool
    ensures { result ≡ is_skipped line.now }
{
    line.is_empty() || line.starts_with("#")
}

/// Whether a script of this command may have the line.
#[tactic(auto, unfolding(crate::specs::Script::is_allowed))]
fn is_allowed(form: ScriptForm, line: &Line) -> bool
    ensures { result ≡ is_allowed form line.now }
{
    match form {
        ScriptForm::Play => true,
        ScriptForm::Open => matches!(line, Line::Rounds(_) | Line::Session(_)),
    }
}

/// The first line and what follows its line feed, where there is one.
#[tactic(auto, using(crate::proofs::Lines::cut_line))]
fn first_line(text: &str) -> Option<(&str, &str)>
    ensures { CutsLine text.now result }
{
    text.split_once('\n')
}

fn read_lines(alloc: Global, form: ScriptForm, text: &str) -> Result<Draft, ScriptError>
    requires { length text.now ≤ 16777216 }
    ensures { GivesAt result (read_lines form 1 empty (lines_in text.now)) }
{
    let mut draft = Draft::new(alloc);
    let mut number = 1u64;
    let mut rest = text;
    while let Some((line, more)) = first_line(rest) {
        draft.read_at(alloc, form, number, line)?;
        number += 1;
        rest = more;
    }
    draft.read_at(alloc, form, number, rest)?;
    Ok(draft)
}

#[tactic(auto, using(crate::proofs::Lines::script_long, crate::proofs::Lines::script_bad, crate::proofs::Lines::script_ok, crate::proofs::Lines::script_err))]
fn read_exact(alloc: Global, form: ScriptForm, bytes: &[u8]) -> Result<Script, ScriptError>
    ensures { GivesAt result (script form bytes.now) }
{
    if bytes.len() > 16_777_216 {
        return Err(ScriptError::Refused {
            line: 0,
            reason: Reason::Length,
        });
    }
    match std::str::from_utf8(bytes) {
        Ok(text) => match read_lines(alloc, form, text) {
            Ok(draft) => draft.finish(),
            Err(e) => Err(e),
        },
        Err(_) => Err(ScriptError::Refused {
            line: 0,
            reason: Reason::Text,
        }),
    }
}

/// Reads the script that the bytes spell, for a command that reads one.
///
/// A text that spells none is refused with the number of its first bad line and the reason.
#[tactic(auto, using(crate::proofs::Shape::read_says, crate::proofs::Laws::has_form, crate::proofs::Laws::sessions_named, crate::proofs::Laws::is_forward, crate::proofs::Few::sessions_few))]
pub fn read(alloc: Global, text: &[u8], form: ScriptForm) -> Result<Script, ScriptError>
    ensures exact { GivesAt result (script form text.now) }
    // Its lines say the rounds, then the start, then the sessions, then the answers, and nothing else.
    ensures in_order { IfOk result (λ s. Say form (lines_in text.now) (lines_of s)) }
    // For `open` it has neither a start nor answers.
    ensures form { IfOk result (HasForm form) }
    ensures few { IfOk result (λ s. length s.sessions < 2 ^ 32) }
    // Each answer that names a session names one that is there.
    ensures named { IfOk result NamesItsSessions }
    // The clock never falls.
    ensures forward { IfOk result (λ s. IsForward 0 s.answers) }
{
    read_exact(alloc, form, text)
}

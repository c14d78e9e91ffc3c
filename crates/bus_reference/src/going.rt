//! One event after another.

ghost use Rattle.std.specs.Prelude.{◌≡◌, ◌++◌, [], Some, IfOk};
ghost use Rattle.std.specs.Option.{option_map, option_and_then};
ghost use Rattle.react_core.specs.declared.reactor.Dir.TheVariants as dir;
ghost use Rattle.bus_session.specs.declared.session.Party.{Party};
ghost use Rattle.bus_session.specs.Dialling.{conversation};
ghost use Rattle.bus_session.specs.Alone.{dials, over, silence, came_to, asked_next, concluded, pause_ends, rests};
ghost use Rattle.bus_session.specs.Alone.{outcome_of};
ghost use Rattle.bus_session.specs.Alone.{after_recv, after_send, after_asked, after_in, first_course, after};
ghost use Rattle.bus_session.specs.Alone.{goes_through};
ghost use Rattle.bus_reference.specs.Views.{as_ask};
ghost use Rattle.bus_reference.specs.Diallings.{as_opened, as_dialling};
ghost use Rattle.bus_reference.specs.Goings.{ending_of, as_talked, as_outcome, as_progress, as_course};

use crate::answering::dialled;
use crate::asking::{Asked, ask, left};
use crate::dialling::{Dialling, Opened, begins};
use crate::questions::same_bytes;
use bus_session::{Ending, Party, Session};
use react_core::outside::{Bytes, Event, OutOfMemory, RecvAnswer, SendAnswer};
use react_core::reactor::Dir;
use std::alloc::{AllocError, Global};

/// What a session comes to.
#[derive(Debug, Drop)]
pub struct Outcome {
    pub ending: Ending,
    /// What the wire took.
    pub written: Bytes,
    /// What came and was not looked at.
    pub leftover: Bytes,
}

/// What came over a wire, what it took, and the direction that its last answer paused.
#[derive(Drop)]
pub(crate) struct Talked {
    got: Bytes,
    written: Bytes,
    paused: Option<Dir>,
}

/// How far a part has come.
#[derive(Drop)]
pub(crate) enum Progress {
    /// A connection is dialled.
    Dials(Dialling),
    /// The conversation is had over this wire.
    Converses(Opened, Talked),
    /// An answer ended it.
    Over(Outcome),
}

/// How far a session has come: whose part it takes, and how far that has come.
#[derive(Drop)]
pub(crate) struct Course<'a> {
    party: &'a Party,
    progress: Progress,
}

// The first bytes and the others behind them.
fn joined(alloc: Global, first: &[u8], others: &[u8]) -> Result<Bytes, AllocError>
    ensures value { IfOk result (λ b. b ≡ first.now ++ others.now) }
{
    let mut bytes = Vec::from_slice(alloc, first)?;
    bytes.extend_from_slice(others)?;
    Ok(Bytes::from_vec(bytes))
}

// What is asked next.
fn asked_next(
    alloc: Global,
    party: &Party,
    opened: &Opened,
    talked: &Talked,
) -> Result<Asked, OutOfMemory>
    ensures value { IfOk result (λ a. as_ask a
        ≡ asked_next (conversation party.now (as_opened opened.now)) (as_talked talked.now)) }
{
    let got = talked.got.as_slice();
    let taken = talked.written.as_slice().len();
    ask(alloc, party, opened, got, taken)
}

// The conversation ends so.
fn concluded(
    alloc: Global,
    party: &Party,
    opened: &Opened,
    talked: Talked,
    ending: Ending,
) -> Result<Outcome, OutOfMemory>
    ensures value { IfOk result (λ o. as_outcome o
        ≡ concluded (conversation party.now (as_opened opened.now)) (as_talked talked) ending) }
{
    let got = talked.got.as_slice();
    let taken = talked.written.as_slice().len();
    let leftover = left(alloc, party, opened, got, taken)?;
    Ok(Outcome {
        ending,
        written: talked.written,
        leftover,
    })
}

// The same, as the end of a session.
fn ends_with(
    alloc: Global,
    party: &Party,
    opened: &Opened,
    talked: Talked,
    ending: Ending,
) -> Result<Option<Progress>, OutOfMemory>
    ensures value { IfOk result (λ p. option_map (as_progress party.now) p
        ≡ Some (over (concluded (conversation party.now (as_opened opened.now)) (as_talked talked) ending))) }
{
    let outcome = concluded(alloc, party, opened, talked, ending)?;
    Ok(Some(Progress::Over(outcome)))
}

// A wire that is not ready in this direction.
fn pause(mut talked: Talked, dir: Dir) -> Talked
    ensures value { as_talked result ≡ record (as_talked talked) { paused = Some dir } }
{
    talked.paused = Some(dir);
    talked
}

// After a read: it gives 1 to 1024 bytes, or none where the peer closed its side.
fn after_recv(
    alloc: Global,
    party: &Party,
    opened: Opened,
    talked: Talked,
    answer: &RecvAnswer,
) -> Result<Option<Progress>, OutOfMemory>
    ensures value { IfOk result (λ p. option_map (as_progress party.now) p
        ≡ after_recv (conversation party.now (as_opened opened)) (as_talked talked) answer.now) }
{
    let bytes = match answer {
        RecvAnswer::Got(bytes) => bytes.as_slice(),
        RecvAnswer::End => return ends_with(alloc, party, &opened, talked, Ending::Handshake),
        RecvAnswer::NotReady => {
            return Ok(Some(Progress::Converses(opened, pause(talked, Dir::Read))));
        }
        RecvAnswer::Failed => return ends_with(alloc, party, &opened, talked, Ending::Io),
    };
    if bytes.is_empty() || bytes.len() > 1024 {
        return Ok(None);
    }
    let got = joined(alloc, talked.got.as_slice(), bytes)?;
    Ok(Some(Progress::Converses(
        opened,
        Talked {
            got,
            written: talked.written,
            paused: None,
        },
    )))
}

// After a send: the wire takes at least one byte and at most the piece.
fn after_send(
    alloc: Global,
    party: &Party,
    opened: Opened,
    talked: Talked,
    piece: &[u8],
    answer: &SendAnswer,
) -> Result<Option<Progress>, OutOfMemory>
    ensures value { IfOk result (λ p. option_map (as_progress party.now) p
        ≡ after_send (conversation party.now (as_opened opened)) (as_talked talked) piece.now answer.now) }
{
    let count = match answer {
        SendAnswer::Took(count) => *count,
        SendAnswer::NotReady => {
            return Ok(Some(Progress::Converses(opened, pause(talked, Dir::Write))));
        }
        SendAnswer::Failed => return ends_with(alloc, party, &opened, talked, Ending::Io),
    };
    if count == 0 || count > piece.len() {
        return Ok(None);
    }
    let (taken, _) = piece.split_at(count);
    let written = joined(alloc, talked.written.as_slice(), taken)?;
    Ok(Some(Progress::Converses(
        opened,
        Talked {
            got: talked.got,
            written,
            paused: None,
        },
    )))
}

// An event is the one that is asked: a read of 1024 bytes, or a send of the rest of the piece.
fn after_asked(
    alloc: Global,
    party: &Party,
    opened: Opened,
    talked: Talked,
    asked: Asked,
    event: &Event,
) -> Result<Option<Progress>, OutOfMemory>
    ensures value { IfOk result (λ p. option_map (as_progress party.now) p
        ≡ after_asked (conversation party.now (as_opened opened)) (as_talked talked) (as_ask asked) event.now) }
{
    match (asked, event) {
        (
            Asked::Recv,
            Event::Recv {
                asked: size,
                answer,
                ..
            },
        ) => {
            if *size != 1024 {
                return Ok(None);
            }
            after_recv(alloc, party, opened, talked, answer)
        }
        (
            Asked::Send(piece),
            Event::Send {
                offered,
                answer,
                ..
            },
        ) => {
            if !same_bytes(offered.as_slice(), piece.as_slice()) {
                return Ok(None);
            }
            after_send(alloc, party, opened, talked, piece.as_slice(), answer)
        }
        _ => Ok(None),
    }
}

// The end of a session that got no connection.
fn unconnected(alloc: Global, ending: Ending) -> Outcome
    ensures value { as_outcome result ≡ record { ending = ending; written = []; leftover = [] } }
{
    Outcome {
        ending,
        written: Bytes::from_vec(Vec::new(alloc)),
        leftover: Bytes::from_vec(Vec::new(alloc)),
    }
}

// A conversation that begins.
fn silence(alloc: Global) -> Talked
    ensures value { as_talked result ≡ silence }
{
    Talked {
        got: Bytes::from_vec(Vec::new(alloc)),
        written: Bytes::from_vec(Vec::new(alloc)),
        paused: None,
    }
}

// What a dialling has come to: one that fails has nothing written and nothing left over.
fn came_to(alloc: Global, dialling: Dialling) -> Progress
    ensures value { (p : Party) → as_progress p result ≡ came_to p (as_dialling dialling) }
{
    match dialling {
        Dialling::Asks(question, purpose) => Progress::Dials(Dialling::Asks(question, purpose)),
        Dialling::Fails(ending) => Progress::Over(unconnected(alloc, ending)),
        Dialling::Opens(opened) => Progress::Converses(opened, silence(alloc)),
    }
}

// An event is the answer to the question that is asked.
fn after_dial(
    alloc: Global,
    dialling: Dialling,
    event: &Event,
) -> Result<Option<Progress>, OutOfMemory>
    ensures value { (p : Party) → IfOk result (λ to. option_map (as_progress p) to
        ≡ after_in p (dials (as_dialling dialling)) event.now) }
{
    let Event::Dial {
        question,
        answer,
        ..
    } = event
    else {
        return Ok(None);
    };
    let Some(dialling) = dialled(alloc, dialling, question, answer)? else {
        return Ok(None);
    };
    Ok(Some(came_to(alloc, dialling)))
}

// The progress after one more event of its own, if that is the one that comes next.
fn after_in(
    alloc: Global,
    party: &Party,
    progress: Progress,
    event: &Event,
) -> Result<Option<Progress>, OutOfMemory>
    ensures value { IfOk result (λ p. option_map (as_progress party.now) p
        ≡ after_in party.now (as_progress party.now progress) event.now) }
{
    match progress {
        Progress::Dials(dialling) => after_dial(alloc, dialling, event),
        Progress::Converses(opened, talked) => {
            let asked = asked_next(alloc, party, &opened, &talked)?;
            after_asked(alloc, party, opened, talked, asked, event)
        }
        Progress::Over(_) => Ok(None),
    }
}

/// Where a session begins.
pub(crate) fn first_course(alloc: Global, session: &Session) -> Result<Course<'_>, AllocError>
    ensures value { IfOk result (λ c. as_course c ≡ first_course session.now) }
{
    let party = &session.party;
    let dialling = begins(alloc, party)?;
    let progress = came_to(alloc, dialling);
    Ok(Course { party, progress })
}

// The session after one more event of its own, if that is the one that comes next.
fn after<'a>(
    alloc: Global,
    course: Course<'a>,
    event: &Event,
) -> Result<Option<Course<'a>>, OutOfMemory>
    ensures value { IfOk result (λ c. option_map as_course c ≡ after (as_course course.entry) event.now) }
{
    let Course { party, progress } = course;
    let Some(progress) = after_in(alloc, party, progress, event)? else {
        return Ok(None);
    };
    Ok(Some(Course { party, progress }))
}

// The same, where the events before were those that came next.
fn after_if<'a>(
    alloc: Global,
    course: Option<Course<'a>>,
    event: &Event,
) -> Result<Option<Course<'a>>, OutOfMemory>
    ensures value { IfOk result (λ c. option_map as_course c
        ≡ option_and_then (λ reached. after reached event.now) (option_map as_course course.entry)) }
{
    match course {
        Some(reached) => after(alloc, reached, event),
        None => Ok(None),
    }
}

/// The session after all of these events.
pub(crate) fn goes_through<'a>(
    alloc: Global,
    course: Option<Course<'a>>,
    events: &[Event],
) -> Result<Option<Course<'a>>, OutOfMemory>
    ensures value { IfOk result (λ c. option_map as_course c
        ≡ goes_through (option_map as_course course.entry) events.now) }
{
    let mut course = course;
    for event in events {
        course = after_if(alloc, course, event)?;
    }
    Ok(course)
}

// How a pause ends, before or after the deadline.
fn pause_ends(late: bool) -> Ending
    ensures value { result ≡ pause_ends late }
{
    if late {
        Ending::TimedOut
    } else {
        Ending::Waiting
    }
}

// How a conversation ends that is asked nothing more, or that stopped at an answer that the wire is not ready.
fn ending_of(late: bool, asked: &Asked, paused: Option<Dir>) -> Option<Ending>
    ensures value { result ≡ ending_of late (as_ask asked.now) paused }
{
    match asked {
        Asked::Opens(guid, flag) => Some(Ending::Open {
            guid: *guid,
            cap_unix_fd: *flag,
        }),
        Asked::Handshake => Some(Ending::Handshake),
        Asked::TooManyCommands => Some(Ending::TooManyCommands),
        Asked::LineTooLong => Some(Ending::LineTooLong),
        Asked::Send(_) | Asked::Recv => paused.map(|_| pause_ends(late)),
    }
}

// Where a conversation stands that is asked nothing more, or that stopped so, before or after the deadline.
fn rests(
    alloc: Global,
    late: bool,
    party: &Party,
    opened: &Opened,
    talked: Talked,
    asked: &Asked,
) -> Result<Option<Outcome>, OutOfMemory>
    ensures value { IfOk result (λ o. option_map as_outcome o
        ≡ rests late (conversation party.now (as_opened opened.now)) (as_talked talked) (as_ask asked.now)) }
{
    let Some(ending) = ending_of(late, asked, talked.paused) else {
        return Ok(None);
    };
    let outcome = concluded(alloc, party, opened, talked, ending)?;
    Ok(Some(outcome))
}

/// What a session has come to, before or after its deadline, where it has come to something.
pub(crate) fn outcome_of(
    alloc: Global,
    late: bool,
    course: Course<'_>,
) -> Result<Option<Outcome>, OutOfMemory>
    ensures value { IfOk result (λ o. option_map as_outcome o ≡ outcome_of late (as_course course.entry)) }
{
    let Course { party, progress } = course;
    match progress {
        Progress::Dials(_) => Ok(None),
        Progress::Converses(opened, talked) => {
            let asked = asked_next(alloc, party, &opened, &talked)?;
            rests(alloc, late, party, &opened, talked, &asked)
        }
        Progress::Over(outcome) => Ok(Some(outcome)),
    }
}

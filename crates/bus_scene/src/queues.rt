//! The answers of a script, in queues that are used in order.
//!
//! The answers stay where they are; each queue has the place of its next one.

ghost use Rattle.std.specs.Prelude.{◌≡◌, ◌++◌, ◌∷◌, [], map, drop, length, replicate, IfOk, OnOk, OnErr, List, Some};
ghost use Rattle.std.specs.Prelude.{◌+◌, ◌<◌, ◌^◌};
ghost use Rattle.std.specs.Option.{option_copied};
ghost use Rattle.bus_scene.specs.Queues.{queue_at, next_answer, without_next, with_last, enqueue, empty_queues, queues};
ghost use Rattle.bus_scene.specs.Cursors.{whole, left, whole_reads, left_reads, items_of, answer_in, bytes_in};
ghost use Rattle.bus_scene.specs.Cursors.{script_of, rest_of};
ghost use Rattle.bus_scene.specs.Plays.{recv_given, recv_left, after_recv};
ghost use Rattle.react_core.specs.declared.outside.RecvAnswer.TheVariants as recv_answer;

use bus_script::{Answer, ScriptWait};
use react_core::outside::{DialAnswer, OutOfMemory, RecvAnswer, SendAnswer};
use std::alloc::Global;
use std::marker::Model;

/// Answers, and the place of the next one.
#[derive(Debug, Drop)]
pub(crate) struct Queue<T> {
    answers: Vec<T>,
    at: usize,
}

impl<T> Queue<T> {
    fn new(answers: Vec<T>) -> Queue<T>
        ensures whole { whole result ≡ answers.items }
        ensures left { left result ≡ answers.items }
    {
        Queue { answers, at: 0 }
    }

    /// The next answer, where there is one.
    pub(crate) fn next(&self) -> Option<&T>
        ensures { option_copied result ≡ next_answer (left self.now) }
    {
        self.answers.get(self.at)
    }

    /// Goes on to the next answer, where there is one.
    #[tactic(auto, using(crate::proofs::QueueLemmas::dropped_next, crate::proofs::QueueLemmas::dropped_end))]
    pub(crate) fn advance(&mut self)
        ensures whole { whole self.new ≡ whole self.old }
        ensures left { left self.new ≡ drop 1 (left self.old) }
    {
        if self.at < self.answers.len() {
            self.at += 1;
        }
    }
}

/// The answers to a session's reads, and how many bytes of the next one have come already.
#[derive(Debug, Drop)]
pub(crate) struct Reads {
    pub(crate) queue: Queue<RecvAnswer>,
    pub(crate) used: usize,
}

/// What a read is given: the bytes of its answer, or the answer that has none.
pub(crate) enum GivenRead<'a> {
    Got(&'a [u8]),
    End,
    NotReady,
    Failed,
}

/// The bytes behind the first `used` ones.
#[tactic(auto, using(std::proofs::lemmas::List::drop_min))]
fn rest_of_bytes(bytes: &[u8], used: usize) -> &[u8]
    ensures { result.now ≡ drop used bytes.now }
{
    bytes.split_at(used.min(bytes.len())).1
}

/// The first `asked` of the bytes that are left of an answer.
#[tactic(auto, using(crate::proofs::QueueLemmas::take_least))]
fn given_bytes(rest: &[u8], asked: usize) -> GivenRead<'_>
    ensures { answer_in result ≡ recv_given asked (Some (recv_answer.Got rest.now)) }
{
    if rest.is_empty() {
        return GivenRead::NotReady;
    }
    GivenRead::Got(rest.split_at(asked.min(rest.len())).0)
}

impl Reads {
    #[tactic(auto, using(crate::proofs::QueueLemmas::cut_none))]
    fn new(answers: Vec<RecvAnswer>) -> Reads
        ensures whole { whole_reads result ≡ answers.items }
        ensures left { left_reads result ≡ answers.items }
    {
        Reads {
            queue: Queue::new(answers),
            used: 0,
        }
    }

    /// What a read is given that asks for so many bytes.
    #[tactic(auto, using(crate::proofs::QueueLemmas::next_cut))]
    fn given(&self, asked: usize) -> GivenRead<'_>
        ensures { answer_in result ≡ recv_given asked (next_answer (left_reads self.now)) }
    {
        match self.queue.next() {
            Some(RecvAnswer::Got(bytes)) => {
                given_bytes(rest_of_bytes(bytes.as_slice(), self.used), asked)
            }
            Some(RecvAnswer::End) => GivenRead::End,
            Some(RecvAnswer::Failed) => GivenRead::Failed,
            Some(RecvAnswer::NotReady) | None => GivenRead::NotReady,
        }
    }

    /// How many bytes of the next answer are left.
    #[tactic(auto, using(crate::proofs::QueueLemmas::next_cut))]
    fn remaining(&self) -> usize
        ensures value { result ≡ bytes_in (next_answer (left_reads self.now)) }
        ensures fits { self.now.used + result < 2 ^ 64 }
    {
        let used = self.used;
        match self.queue.next() {
            Some(RecvAnswer::Got(bytes)) => bytes.as_slice().len().saturating_sub(used),
            _ => 0,
        }
    }

    /// Takes what a read is given that asks for so many bytes.
    #[tactic(auto, using(crate::proofs::QueueLemmas::bytes_stay, crate::proofs::QueueLemmas::answer_goes))]
    fn take(&mut self, asked: usize)
        ensures whole { whole_reads self.new ≡ whole_reads self.old }
        ensures left { left_reads self.new ≡ recv_left asked (next_answer (left_reads self.old))
            (drop 1 (left_reads self.old)) }
    {
        if asked < self.remaining() {
            self.used += asked;
        } else {
            self.queue.advance();
            self.used = 0;
        }
    }
}

/// What a session's read is given that asks for so many bytes.
pub(crate) fn given_at(reads: &[Reads], session: u32, asked: usize) -> GivenRead<'_>
    ensures { answer_in result ≡ recv_given asked (next_answer (queue_at (map left_reads reads.now) session)) }
{
    match reads.get(session as usize) {
        Some(read) => read.given(asked),
        None => GivenRead::NotReady,
    }
}

/// Takes what a session's read is given that asks for so many bytes.
pub(crate) fn take_at(reads: &mut [Reads], session: u32, asked: usize)
    ensures whole { map whole_reads reads.new ≡ map whole_reads reads.old }
    ensures left { map left_reads reads.new ≡ after_recv asked (map left_reads reads.old) session }
{
    let place = session as usize;
    if place < reads.len() {
        reads[place].take(asked);
    }
}

/// The answers of a script. Those to dialling, reads and sends stand by the number of their session.
#[derive(Debug, Drop)]
pub(crate) struct Answers {
    pub(crate) dials: Vec<Queue<DialAnswer>>,
    pub(crate) recvs: Vec<Reads>,
    pub(crate) sends: Vec<Queue<SendAnswer>>,
    pub(crate) nows: Queue<u64>,
    pub(crate) adds: Queue<bool>,
    pub(crate) modifies: Queue<bool>,
    pub(crate) deletes: Queue<bool>,
    pub(crate) notifies: Queue<bool>,
    pub(crate) waits: Queue<ScriptWait>,
}

/// The next answer to a session, where there is one.
pub(crate) fn next_at<T>(queues: &[Queue<T>], session: u32) -> Option<&T>
    ensures { option_copied result ≡ next_answer (queue_at (map left queues.now) session) }
{
    match queues.get(session as usize) {
        Some(queue) => queue.next(),
        None => None,
    }
}

/// Goes on to the next answer to a session, where there is one.
pub(crate) fn advance_at<T>(queues: &mut [Queue<T>], session: u32)
    ensures whole { map whole queues.new ≡ map whole queues.old }
    ensures left { map left queues.new ≡ without_next (map left queues.old) session }
{
    let place = session as usize;
    if place < queues.len() {
        queues[place].advance();
    }
}

/// The answers of a script, which contracts see as their queues.
#[derive(Debug, Drop)]
pub struct QueuedAnswers {
    dials: Vec<Vec<DialAnswer>>,
    recvs: Vec<Vec<RecvAnswer>>,
    sends: Vec<Vec<SendAnswer>>,
    nows: Vec<u64>,
    adds: Vec<bool>,
    modifies: Vec<bool>,
    deletes: Vec<bool>,
    notifies: Vec<bool>,
    waits: Vec<ScriptWait>,
}

impl Model for QueuedAnswers {
    ghost use Rattle.bus_scene.specs.Queues.{Queues};

    ghost Value = { Queues };

    ghost use Rattle.bus_scene.specs.Cursors.{queues_in};

    ghost view = { queues_in };
}

/// Adds an item at the end.
pub(crate) fn push<T: Drop>(items: &mut Vec<T>, item: T) -> Result<(), OutOfMemory>
    ensures ok { OnOk result (items.new.items ≡ items.old.items ++ item ∷ []) }
    ensures err { OnErr result (items.new.items ≡ items.old.items) }
{
    if items.push(item).is_err() {
        return Err(OutOfMemory);
    }
    Ok(())
}

/// A list without items for each session.
fn empty_lists<T: Drop>(alloc: Global, sessions: usize) -> Result<Vec<Vec<T>>, OutOfMemory>
    ensures { IfOk result (λ lists. map items_of lists.items ≡ replicate sessions []) }
{
    let mut lists = Vec::with_capacity(alloc, sessions)?;
    for _session in 0..sessions {
        push(&mut lists, Vec::new(alloc))?;
    }
    Ok(lists)
}

/// Puts an answer at the end of a session's.
fn push_at<T: Drop>(lists: &mut [Vec<T>], session: u32, answer: T) -> Result<(), OutOfMemory>
    ensures ok { OnOk result (map items_of lists.new ≡ with_last (map items_of lists.old) session answer) }
    ensures err { OnErr result (map items_of lists.new ≡ map items_of lists.old) }
{
    let place = session as usize;
    if place < lists.len() {
        push(&mut lists[place], answer)?;
    }
    Ok(())
}

impl QueuedAnswers {
    /// The queues of a script without answers.
    pub(crate) fn new(alloc: Global, sessions: usize) -> Result<QueuedAnswers, OutOfMemory>
        ensures { IfOk result (λ queued. queued ≡ empty_queues sessions) }
    {
        Ok(QueuedAnswers {
            dials: empty_lists(alloc, sessions)?,
            recvs: empty_lists(alloc, sessions)?,
            sends: empty_lists(alloc, sessions)?,
            nows: Vec::new(alloc),
            adds: Vec::new(alloc),
            modifies: Vec::new(alloc),
            deletes: Vec::new(alloc),
            notifies: Vec::new(alloc),
            waits: Vec::new(alloc),
        })
    }

    /// How many sessions there are.
    pub(crate) fn sessions(&self) -> usize
        ensures { result ≡ length self.now.dials }
    {
        self.dials.len()
    }

    /// Puts an answer at the end of its queue.
    pub(crate) fn push(&mut self, answer: Answer) -> Result<(), OutOfMemory>
        ensures { OnOk result (self.new ≡ enqueue self.old answer) }
    {
        match answer {
            Answer::Dial { session, answer } => push_at(&mut self.dials, session, answer),
            Answer::Recv { session, answer } => push_at(&mut self.recvs, session, answer),
            Answer::Send { session, answer } => push_at(&mut self.sends, session, answer),
            Answer::Now(moment) => push(&mut self.nows, moment),
            Answer::Add(ok) => push(&mut self.adds, ok),
            Answer::Modify(ok) => push(&mut self.modifies, ok),
            Answer::Delete(ok) => push(&mut self.deletes, ok),
            Answer::Notify(ok) => push(&mut self.notifies, ok),
            Answer::Wait(answer) => push(&mut self.waits, answer),
        }
    }
}

fn queues_of<T: Drop>(alloc: Global, lists: Vec<Vec<T>>) -> Result<Vec<Queue<T>>, OutOfMemory>
    ensures whole { IfOk result (λ queues. map whole queues.items ≡ map items_of lists.items) }
    ensures left { IfOk result (λ queues. map left queues.items ≡ map items_of lists.items) }
{
    let mut queues = Vec::with_capacity(alloc, lists.len())?;
    for answers in lists {
        push(&mut queues, Queue::new(answers))?;
    }
    Ok(queues)
}

fn reads_of(alloc: Global, lists: Vec<Vec<RecvAnswer>>) -> Result<Vec<Reads>, OutOfMemory>
    ensures whole { IfOk result (λ reads. map whole_reads reads.items ≡ map items_of lists.items) }
    ensures left { IfOk result (λ reads. map left_reads reads.items ≡ map items_of lists.items) }
{
    let mut reads = Vec::with_capacity(alloc, lists.len())?;
    for answers in lists {
        push(&mut reads, Reads::new(answers))?;
    }
    Ok(reads)
}

impl Answers {
    /// The answers of a script, of which none is used.
    pub(crate) fn new(alloc: Global, script: QueuedAnswers) -> Result<Answers, OutOfMemory>
        ensures script { IfOk result (λ answers. script_of answers ≡ script) }
        ensures rest { IfOk result (λ answers. rest_of answers ≡ script) }
    {
        Ok(Answers {
            dials: queues_of(alloc, script.dials)?,
            recvs: reads_of(alloc, script.recvs)?,
            sends: queues_of(alloc, script.sends)?,
            nows: Queue::new(script.nows),
            adds: Queue::new(script.adds),
            modifies: Queue::new(script.modifies),
            deletes: Queue::new(script.deletes),
            notifies: Queue::new(script.notifies),
            waits: Queue::new(script.waits),
        })
    }
}

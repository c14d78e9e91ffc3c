//! An outside in memory, which answers from a script and tells each call.
//!
//! Each call first takes the memory for its event. So a call that answers want of memory has used no answer and told
//! nothing.

ghost use Rattle.std.specs.Prelude.{◌≡◌, ◌++◌, ◌∷◌, [], ◌<◌, ◌≤◌, ◌+◌, List, Option, Some, None, true, false, length};
ghost use Rattle.std.specs.Prelude.{map, replicate, take, vec_len, vec_capacity, slice_set, IfOk, OnOk};
ghost use Rattle.std.specs.Option.{option_copied, option_to_list};
ghost use Rattle.std.specs.List.{filter_map};
ghost use Rattle.react_core.specs.Outer.{Keeps, with_room, lent};
ghost use Rattle.react_core.specs.declared.outside.Rooms.TheVariants as rooms;
ghost use Rattle.react_core.specs.Outer as part;
ghost use Rattle.react_core.specs.Told.{told as with_told, dial_told, send_told, recv_told, wait_told, IsSent};
ghost use Rattle.react_core.specs.Told.{IsReceived, IsWaited, Counted, OnLack};
ghost use Rattle.react_core.specs.declared.outside.Event.{Event};
ghost use Rattle.react_core.specs.declared.outside.Event.TheVariants as event;
ghost use Rattle.bus_scene.specs.Queues.{queue_at, next_answer};
ghost use Rattle.bus_scene.specs.Plays.{Follows, last_reading, reading_given, outcome_given, send_given, recv_given};
ghost use Rattle.bus_scene.specs.Plays.{is_wait_given, is_filled, IsLent, wait_given, asks_for_wire, outer_of};
ghost use Rattle.bus_scene.specs.Plays.{OnAnswer, AnswersWait};
ghost use Rattle.bus_scene.specs.Cursors.{left, left_reads, script_of, IsPlaying, sent_of, key_in, report_in};

use self::dialling::{copy_of_args, copy_of_some, dial, lookup, read_nonce, run_ibus};
use crate::queues::{
    Answers, GivenRead, Queue, QueuedAnswers, advance_at, given_at, next_at, push, take_at,
};
use bus_script::{Ready, ReadySource, ScriptWait};
use react_core::outside::{
    Args, Bytes, Clock, Dialer, Event, Fault, Notifier, Opened, OutOfMemory, Output, Outside, Peer,
    Peers, Poller, Question, Received, RecvAnswer, Registrar, Report, Reports, Rooms, SendAnswer,
    Sent, Tells, WaitAnswer, Waited, Waiter, Wire,
};
use std::alloc::Global;
use std::marker::Model;

mod dialling;

/// A script while it is played.
#[derive(Debug, Drop)]
pub(crate) struct Player {
    answers: Answers,
    /// The key of each session's source.
    keys: Vec<Option<usize>>,
    /// The last reading of the clock, in nanoseconds.
    last: u64,
    /// The room for reports that its waits were lent.
    rooms: Rooms,
    told: Vec<Event>,
}

/// An outside in memory, which follows a script.
#[derive(Debug, Drop)]
pub struct Scene {
    alloc: Global,
    player: Player,
}

impl Model for Scene {
    ghost use Rattle.bus_scene.specs.Plays.{Play};

    ghost Value = { Play };

    ghost use Rattle.bus_scene.specs.Cursors.{script_of, IsPlaying};

    ghost view = { λ s. record {
      script = script_of s.player.answers;
      rooms = s.player.rooms;
      told = s.player.told.items;
    } };

    ghost invariant = { λ s. IsPlaying s.player };
}

/// No source for each session.
fn no_keys(alloc: Global, sessions: usize) -> Result<Vec<Option<usize>>, OutOfMemory>
    ensures { IfOk result (λ keys. keys.items ≡ replicate sessions None) }
{
    let mut keys = Vec::with_capacity(alloc, sessions)?;
    for _session in 0..sessions {
        push(&mut keys, None)?;
    }
    Ok(keys)
}

impl Scene {
    /// A scene that has told nothing.
    #[tactic(auto, using(crate::proofs::PlayLemmas::plays_nothing))]
    pub(crate) fn new(alloc: Global, script: QueuedAnswers) -> Result<Scene, OutOfMemory>
        ensures { IfOk result (λ scene. scene ≡ record { script = script; rooms = rooms.Unwaited; told = [] }) }
    {
        let keys = no_keys(alloc, script.sessions())?;
        let answers = Answers::new(alloc, script)?;
        let player = Player {
            answers,
            keys,
            last: 0,
            rooms: Rooms::Unwaited,
            told: Vec::new(alloc),
        };
        Ok(Scene { alloc, player })
    }

    /// Lends the record: each call so far with its question and its answer, in order.
    pub fn events(&self) -> &[Event]
        ensures told { result.now ≡ self.now.told }
        ensures follows { Follows self.now.rooms self.now.script self.now.told }
    {
        self.player.told.as_slice()
    }
}

/// Takes the memory for one more event.
fn reserve(told: &mut Vec<Event>) -> Result<(), OutOfMemory>
    ensures told { told.new.items ≡ told.old.items }
    ensures room { OnOk result (vec_len told.new < vec_capacity told.new) }
{
    told.reserve(1)?;
    Ok(())
}

/// Adds an event to the record.
fn tell(told: &mut Vec<Event>, event: Event)
    requires { vec_len told.old < vec_capacity told.old }
    ensures { told.new.items ≡ told.old.items ++ event ∷ [] }
{
    told.push(event).unwrap();
}

/// Copies bytes for an event.
fn copy_of(alloc: Global, bytes: &[u8]) -> Result<Bytes, OutOfMemory>
    ensures { IfOk result (λ b. b ≡ bytes.now) }
{
    Ok(Bytes::from_vec(Vec::from_slice(alloc, bytes)?))
}

/// The next reading of the clock.
fn reading(nows: &Queue<u64>, last: u64) -> u64
    ensures { result ≡ reading_given last (next_answer (left nows.now)) }
{
    match nows.next() {
        Some(reading) => last.max(*reading),
        None => last,
    }
}

/// Reads the clock.
#[tactic(auto, using(crate::proofs::PlayLemmas::reading_forward))]
fn read_clock(player: &mut Player) -> u64
    requires playing { IsPlaying player.old }
    requires room { vec_len player.old.told < vec_capacity player.old.told }
    ensures playing { IsPlaying player.new }
    ensures forward { last_reading player.old.told.items ≤ result }
    ensures script { script_of player.new.answers ≡ script_of player.old.answers }
    ensures rooms { player.new.rooms ≡ player.old.rooms }
    ensures told { player.new.told.items ≡ player.old.told.items ++ event.Now result ∷ [] }
{
    let moment = reading(&player.answers.nows, player.last);
    player.answers.nows.advance();
    player.last = moment;
    tell(&mut player.told, Event::Now { moment });
    moment
}

/// Whether the next call of a queue succeeds.
fn outcome(queue: &Queue<bool>) -> bool
    ensures { result ≡ outcome_given (next_answer (left queue.now)) }
{
    match queue.next() {
        Some(ok) => *ok,
        None => true,
    }
}

fn set_key(keys: &mut [Option<usize>], session: u32, key: Option<usize>)
    ensures { keys.new ≡ slice_set keys.old session key }
{
    let place = session as usize;
    if place < keys.len() {
        keys[place] = key;
    }
}

fn add(player: &mut Player, wire: u32, key: usize) -> bool
    requires playing { IsPlaying player.old }
    requires room { vec_len player.old.told < vec_capacity player.old.told }
    ensures playing { IsPlaying player.new }
    ensures script { script_of player.new.answers ≡ script_of player.old.answers }
    ensures rooms { player.new.rooms ≡ player.old.rooms }
    ensures told { player.new.told.items ≡ player.old.told.items ++ event.Add wire key result ∷ [] }
{
    let ok = outcome(&player.answers.adds);
    player.answers.adds.advance();
    set_key(&mut player.keys, wire, Some(key));
    tell(&mut player.told, Event::Add { wire, key, ok });
    ok
}

fn modify(player: &mut Player, wire: u32, key: usize, read: bool, write: bool) -> bool
    requires playing { IsPlaying player.old }
    requires room { vec_len player.old.told < vec_capacity player.old.told }
    ensures playing { IsPlaying player.new }
    ensures script { script_of player.new.answers ≡ script_of player.old.answers }
    ensures rooms { player.new.rooms ≡ player.old.rooms }
    ensures told { player.new.told.items ≡ player.old.told.items ++ event.Modify wire key read write result ∷ [] }
{
    let ok = outcome(&player.answers.modifies);
    player.answers.modifies.advance();
    tell(
        &mut player.told,
        Event::Modify {
            wire,
            key,
            read,
            write,
            ok,
        },
    );
    ok
}

fn delete(player: &mut Player, wire: u32, key: usize) -> bool
    requires playing { IsPlaying player.old }
    requires room { vec_len player.old.told < vec_capacity player.old.told }
    ensures playing { IsPlaying player.new }
    ensures script { script_of player.new.answers ≡ script_of player.old.answers }
    ensures rooms { player.new.rooms ≡ player.old.rooms }
    ensures told { player.new.told.items ≡ player.old.told.items ++ event.Delete wire key result ∷ [] }
{
    let ok = outcome(&player.answers.deletes);
    player.answers.deletes.advance();
    set_key(&mut player.keys, wire, None);
    tell(&mut player.told, Event::Delete { wire, key, ok });
    ok
}

fn notify(player: &mut Player) -> bool
    requires playing { IsPlaying player.old }
    requires room { vec_len player.old.told < vec_capacity player.old.told }
    ensures playing { IsPlaying player.new }
    ensures script { script_of player.new.answers ≡ script_of player.old.answers }
    ensures rooms { player.new.rooms ≡ player.old.rooms }
    ensures told { player.new.told.items ≡ player.old.told.items ++ event.Notify result ∷ [] }
{
    let ok = outcome(&player.answers.notifies);
    player.answers.notifies.advance();
    tell(&mut player.told, Event::Notify { ok });
    ok
}

fn close(player: &mut Player, wire: u32)
    requires playing { IsPlaying player.old }
    requires room { vec_len player.old.told < vec_capacity player.old.told }
    ensures playing { IsPlaying player.new }
    ensures script { script_of player.new.answers ≡ script_of player.old.answers }
    ensures rooms { player.new.rooms ≡ player.old.rooms }
    ensures told { player.new.told.items ≡ player.old.told.items ++ event.Close wire ∷ [] }
{
    tell(&mut player.told, Event::Close { wire });
}

/// The answer to a send of so many bytes.
fn send_given(next: Option<&SendAnswer>, offered: usize) -> SendAnswer
    ensures { result ≡ send_given offered (option_copied next.entry) }
{
    match next {
        Some(SendAnswer::Took(count)) => {
            if *count == 0 && offered != 0 {
                SendAnswer::Failed
            } else {
                SendAnswer::Took((*count).min(offered))
            }
        }
        Some(SendAnswer::NotReady) => SendAnswer::NotReady,
        Some(SendAnswer::Failed) => SendAnswer::Failed,
        None => SendAnswer::Took(offered),
    }
}

fn sent_of(answer: &SendAnswer) -> Result<Sent, Fault>
    ensures { result ≡ sent_of answer.now }
{
    match answer {
        SendAnswer::Took(count) => Ok(Sent::Took(*count)),
        SendAnswer::NotReady => Ok(Sent::NotReady),
        SendAnswer::Failed => Err(Fault::Failed),
    }
}

/// Offers a piece to a wire.
fn send(player: &mut Player, wire: u32, offered: Bytes) -> Result<Sent, Fault>
    requires playing { IsPlaying player.old }
    requires room { vec_len player.old.told < vec_capacity player.old.told }
    ensures playing { IsPlaying player.new }
    ensures script { script_of player.new.answers ≡ script_of player.old.answers }
    ensures rooms { player.new.rooms ≡ player.old.rooms }
    ensures told { player.new.told.items ≡ player.old.told.items ++ send_told wire offered result }
    ensures amount { IfOk result (IsSent (length offered)) }
{
    let answer = send_given(
        next_at(&player.answers.sends, wire),
        offered.as_slice().len(),
    );
    let result = sent_of(&answer);
    advance_at(&mut player.answers.sends, wire);
    tell(
        &mut player.told,
        Event::Send {
            wire,
            offered,
            answer,
        },
    );
    result
}

/// Puts items at the front of a slice.
fn fill_front<T: Copy>(into: &mut [T], items: &[T])
    requires { length items.now ≤ length into.old }
    ensures front { take (length items.now) into.new ≡ items.now }
    ensures room { length into.new ≡ length into.old }
{
    into[..items.len()].copy_from_slice(items);
}

/// Tells a read, and takes what it was given.
fn tell_read(player: &mut Player, wire: u32, asked: usize, answer: RecvAnswer)
    requires playing { IsPlaying player.old }
    requires room { vec_len player.old.told < vec_capacity player.old.told }
    requires given { recv_given asked (next_answer (queue_at (map left_reads player.old.answers.recvs.items) wire))
        ≡ answer }
    ensures playing { IsPlaying player.new }
    ensures script { script_of player.new.answers ≡ script_of player.old.answers }
    ensures rooms { player.new.rooms ≡ player.old.rooms }
    ensures told { player.new.told.items ≡ player.old.told.items ++ event.Recv wire asked answer ∷ [] }
{
    take_at(&mut player.answers.recvs, wire, asked);
    tell(
        &mut player.told,
        Event::Recv {
            wire,
            asked,
            answer,
        },
    );
}

/// Reads from a wire into a slice.
fn recv(player: &mut Player, alloc: Global, wire: u32, into: &mut [u8]) -> Result<Received, Fault>
    requires playing { IsPlaying player.old }
    requires room { vec_len player.old.told < vec_capacity player.old.told }
    ensures playing { IsPlaying player.new }
    ensures script { script_of player.new.answers ≡ script_of player.old.answers }
    ensures rooms { player.new.rooms ≡ player.old.rooms }
    ensures told { player.new.told.items ≡ player.old.told.items ++ recv_told wire into.new result }
    ensures amount { IfOk result (IsReceived (length into.old)) }
    ensures room { length into.new ≡ length into.old }
{
    let asked = into.len();
    match given_at(&player.answers.recvs, wire, asked) {
        GivenRead::Got(bytes) => {
            let copy = copy_of(alloc, bytes)?;
            let count = bytes.len();
            fill_front(into, bytes);
            tell_read(player, wire, asked, RecvAnswer::Got(copy));
            Ok(Received::Got(count))
        }
        GivenRead::End => {
            tell_read(player, wire, asked, RecvAnswer::End);
            Ok(Received::End)
        }
        GivenRead::NotReady => {
            tell_read(player, wire, asked, RecvAnswer::NotReady);
            Ok(Received::NotReady)
        }
        GivenRead::Failed => {
            tell_read(player, wire, asked, RecvAnswer::Failed);
            Err(Fault::Failed)
        }
    }
}

/// The key that a report names, where it names a source.
fn key_in(keys: &[Option<usize>], source: ReadySource) -> Option<usize>
    ensures { result ≡ key_in keys.now source }
{
    match source {
        ReadySource::Session(session) => {
            let place = session as usize;
            if place < keys.len() {
                keys[place]
            } else {
                None
            }
        }
        ReadySource::Key(key) => Some(key),
    }
}

fn report_in(keys: &[Option<usize>], ready: Ready) -> Option<Report>
    ensures { result ≡ report_in keys.now ready }
{
    match key_in(keys, ready.source) {
        Some(key) => Some(Report {
            key,
            read: ready.read,
            write: ready.write,
        }),
        None => None,
    }
}

/// Adds an item at the end, where there is one.
fn push_some<T: Drop>(items: &mut Vec<T>, item: Option<T>) -> Result<(), OutOfMemory>
    ensures { OnOk result (items.new.items ≡ items.old.items ++ option_to_list item) }
{
    match item {
        Some(item) => push(items, item),
        None => Ok(()),
    }
}

/// The first reports that an answer names, as many as there is room for.
fn reports_in(
    alloc: Global,
    keys: &[Option<usize>],
    readies: &[Ready],
    room: usize,
) -> Result<Vec<Report>, OutOfMemory>
    ensures { IfOk result (λ v. v.items ≡ take room (filter_map (report_in keys.now) readies.now)) }
{
    let mut named = Vec::new(alloc);
    for ready in readies {
        push_some(&mut named, report_in(keys, *ready))?;
    }
    named.truncate(room);
    Ok(named)
}

/// Tells a wait, and goes on to the next answer.
fn tell_wait(player: &mut Player, timeout: Option<u64>, answer: WaitAnswer)
    requires playing { IsPlaying player.old }
    requires room { vec_len player.old.told < vec_capacity player.old.told }
    requires given { is_wait_given (length player.old.keys.items) player.old.told.items
        (next_answer (left player.old.answers.waits)) answer ≡ true }
    requires filled { is_filled player.old.rooms (length player.old.keys.items) player.old.told.items
        (next_answer (left player.old.answers.waits)) answer ≡ true }
    ensures playing { IsPlaying player.new }
    ensures script { script_of player.new.answers ≡ script_of player.old.answers }
    ensures rooms { player.new.rooms ≡ player.old.rooms }
    ensures told { player.new.told.items ≡ player.old.told.items ++ event.Wait timeout answer ∷ [] }
{
    player.answers.waits.advance();
    tell(&mut player.told, Event::Wait { timeout, answer });
}

/// Notes the room that a wait is lent.
#[tactic(auto, using(crate::proofs::WaitLemmas::plays_lent, crate::proofs::WaitLemmas::is_lent))]
fn lend(player: &mut Player, room: usize)
    requires playing { IsPlaying player.old }
    ensures playing { IsPlaying player.new }
    ensures rooms { player.new ≡ record player.old { rooms = with_room player.old.rooms room } }
    ensures lent { IsLent player.new.rooms room }
{
    player.rooms = player.rooms.and(room);
}

/// Waits for reports, which it puts at the front of a slice.
#[tactic(auto, using(crate::proofs::WaitLemmas::waits))]
fn wait(
    player: &mut Player,
    alloc: Global,
    timeout: Option<u64>,
    reports: &mut [Report],
) -> Result<Waited, Fault>
    requires playing { IsPlaying player.old }
    requires lent { IsLent player.old.rooms (length reports.old) }
    requires room { vec_len player.old.told < vec_capacity player.old.told }
    ensures playing { IsPlaying player.new }
    ensures script { script_of player.new.answers ≡ script_of player.old.answers }
    ensures rooms { player.new.rooms ≡ player.old.rooms }
    ensures told { player.new.told.items ≡ player.old.told.items ++ wait_told timeout reports.new result }
    ensures exact { OnAnswer result (player.new.told.items ≡ player.old.told.items
        ++ event.Wait timeout (wait_given (length reports.old) (length player.old.keys.items) player.old.told.items
        (next_answer (left player.old.answers.waits))) ∷ []) }
    ensures amount { IfOk result (IsWaited (length reports.old)) }
    ensures room { length reports.new ≡ length reports.old }
{
    match player.answers.waits.next() {
        None => {
            let none = Reports::from_vec(Vec::new(alloc));
            tell_wait(player, timeout, WaitAnswer::Reported(none));
            Ok(Waited::Reported(0))
        }
        Some(ScriptWait::Interrupted) => {
            tell_wait(player, timeout, WaitAnswer::Interrupted);
            Ok(Waited::Interrupted)
        }
        Some(ScriptWait::Failed) => {
            tell_wait(player, timeout, WaitAnswer::Failed);
            Err(Fault::Failed)
        }
        Some(ScriptWait::Reported(readies)) => {
            let named = reports_in(alloc, &player.keys, readies.as_slice(), reports.len())?;
            let count = named.len();
            fill_front(reports, named.as_slice());
            tell_wait(
                player,
                timeout,
                WaitAnswer::Reported(Reports::from_vec(named)),
            );
            Ok(Waited::Reported(count))
        }
    }
}

impl Tells for Scene {
    type Origin = QueuedAnswers;

    ghost use Rattle.bus_scene.specs.Plays.{outer_of, scene_counts_fit};

    ghost outer = { outer_of };

    ghost counts_fit = { scene_counts_fit };
}

impl Clock for Scene {
    fn now(&mut self) -> Result<u64, OutOfMemory> {
        reserve(&mut self.player.told)?;
        Ok(read_clock(&mut self.player))
    }
}

impl Registrar for Scene {
    fn add(&mut self, wire: u32, key: usize) -> Result<(), Fault> {
        reserve(&mut self.player.told)?;
        if add(&mut self.player, wire, key) {
            Ok(())
        } else {
            Err(Fault::Failed)
        }
    }

    fn modify(&mut self, wire: u32, key: usize, read: bool, write: bool) -> Result<(), Fault> {
        reserve(&mut self.player.told)?;
        if modify(&mut self.player, wire, key, read, write) {
            Ok(())
        } else {
            Err(Fault::Failed)
        }
    }

    fn delete(&mut self, wire: u32, key: usize) -> Result<(), Fault> {
        reserve(&mut self.player.told)?;
        if delete(&mut self.player, wire, key) {
            Ok(())
        } else {
            Err(Fault::Failed)
        }
    }
}

impl Notifier for Scene {
    fn notify(&mut self) -> Result<(), Fault> {
        reserve(&mut self.player.told)?;
        if notify(&mut self.player) {
            Ok(())
        } else {
            Err(Fault::Failed)
        }
    }
}

impl Waiter for Scene {
    /// Gives what the script's next answer to a wait has: of the reports that name a source, the first ones up to the
    /// room that was lent.
    fn wait(&mut self, timeout: Option<u64>, reports: &mut [Report]) -> Result<Waited, Fault>
        ensures exact { AnswersWait (length reports.old) timeout self.old self.new result }
        ensures told { (outer_of self.new).events ≡ with_told (outer_of self.old).events
            (wait_told timeout reports.new result) }
        ensures amount { IfOk result (IsWaited (length reports.old)) }
        ensures room { length reports.new ≡ length reports.old }
        ensures cause { Counted result (outer_of self.old).poller_faults (outer_of self.new).poller_faults }
        ensures memory { OnLack result ((outer_of self.old).ample ≡ false) }
        ensures lent { (outer_of self.new).rooms ≡ lent (outer_of self.old).rooms (length reports.old) }
        ensures keeps { Keeps (part.Wait (length reports.old)) (outer_of self.old) (outer_of self.new) }
    {
        lend(&mut self.player, reports.len());
        reserve(&mut self.player.told)?;
        wait(&mut self.player, self.alloc, timeout, reports)
    }
}

impl Poller for Scene {}

impl Scene {
    /// Answers a question for a connection.
    fn dial(&mut self, wire: u32, question: Question) -> Result<Opened, Fault>
        requires asks { asks_for_wire question ≡ true }
        ensures told { (outer_of self.new).events
            ≡ with_told (outer_of self.old).events (dial_told wire question result) }
        ensures cause { Counted result ((outer_of self.old).dial_faults wire) ((outer_of self.new).dial_faults wire) }
        ensures memory { OnLack result ((outer_of self.old).ample ≡ false) }
        ensures keeps { Keeps (part.Dial wire) (outer_of self.old) (outer_of self.new) }
    {
        reserve(&mut self.player.told)?;
        dial(&mut self.player, wire, question)
    }
}

impl Dialer for Scene {
    fn dial_unix(&mut self, wire: u32, path: &str) -> Result<Opened, Fault> {
        let path = copy_of(self.alloc, path.as_bytes())?;
        self.dial(wire, Question::Unix(path))
    }

    fn dial_abstract(&mut self, wire: u32, name: &[u8]) -> Result<Opened, Fault> {
        let name = copy_of(self.alloc, name)?;
        self.dial(wire, Question::Abstract(name))
    }

    fn lookup(&mut self, alloc: Global, wire: u32, host: &str, port: u16) -> Result<Peers, Fault> {
        let host = copy_of(alloc, host.as_bytes())?;
        reserve(&mut self.player.told)?;
        lookup(&mut self.player, alloc, wire, host, port)
    }

    fn dial_tcp(&mut self, wire: u32, peer: Peer) -> Result<Opened, Fault> {
        self.dial(wire, Question::Tcp(peer))
    }

    fn read_nonce(&mut self, alloc: Global, wire: u32, path: &str) -> Result<Bytes, Fault> {
        let path = copy_of(alloc, path.as_bytes())?;
        reserve(&mut self.player.told)?;
        read_nonce(&mut self.player, alloc, wire, path)
    }

    fn start(
        &mut self,
        wire: u32,
        program: &str,
        arg0: Option<&str>,
        args: &Args,
    ) -> Result<Opened, Fault> {
        let program = copy_of(self.alloc, program.as_bytes())?;
        let arg0 = copy_of_some(self.alloc, arg0)?;
        let args = copy_of_args(self.alloc, args.as_slice())?;
        self.dial(
            wire,
            Question::Start {
                program,
                arg0,
                args,
            },
        )
    }

    fn run_ibus(&mut self, alloc: Global, wire: u32) -> Result<Output, Fault> {
        reserve(&mut self.player.told)?;
        run_ibus(&mut self.player, alloc, wire)
    }

    fn accept(&mut self, wire: u32) -> Result<Opened, Fault> {
        self.dial(wire, Question::Accept)
    }
}

impl Wire for Scene {
    fn recv(&mut self, wire: u32, into: &mut [u8]) -> Result<Received, Fault> {
        reserve(&mut self.player.told)?;
        recv(&mut self.player, self.alloc, wire, into)
    }

    fn send(&mut self, wire: u32, bytes: &[u8]) -> Result<Sent, Fault> {
        let offered = copy_of(self.alloc, bytes)?;
        reserve(&mut self.player.told)?;
        send(&mut self.player, wire, offered)
    }

    fn close(&mut self, wire: u32) -> Result<(), OutOfMemory> {
        reserve(&mut self.player.told)?;
        close(&mut self.player, wire);
        Ok(())
    }
}

impl Outside for Scene {}

#[cfg(test)]
mod tests;

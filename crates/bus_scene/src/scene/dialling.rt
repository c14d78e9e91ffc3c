//! The answers of a scene to dialling.

ghost use Rattle.std.specs.Prelude.{◌≡◌, ◌++◌, ◌∷◌, [], ◌<◌, true, map, vec_len, vec_capacity, IfOk};
ghost use Rattle.std.specs.Option.{option_copied, option_map};
ghost use Rattle.react_core.specs.Told.{dial_told, lookup_told, nonce_told, output_told};
ghost use Rattle.react_core.specs.declared.outside.Event.TheVariants as event;
ghost use Rattle.react_core.specs.declared.outside.Question.TheVariants as question;
ghost use Rattle.bus_scene.specs.Queues.{queue_at, next_answer};
ghost use Rattle.bus_scene.specs.Plays.{asks_for_wire, dial_given};
ghost use Rattle.bus_scene.specs.Cursors.{left, script_of, IsPlaying, passes_in, peers_in, nonce_in, output_in};

use super::{Player, copy_of, tell};
use crate::queues::{advance_at, next_at, push};
use react_core::outside::{
    Args, Bytes, DialAnswer, Event, Fault, Opened, OutOfMemory, Output, Peer, Peers, Question,
};
use std::alloc::Global;

/// Copies a text for an event, where there is one.
pub(super) fn copy_of_some(alloc: Global, text: Option<&str>) -> Result<Option<Bytes>, OutOfMemory>
    ensures { IfOk result (λ b. b ≡ option_copied text.entry) }
{
    match text {
        Some(text) => Ok(Some(copy_of(alloc, text.as_bytes())?)),
        None => Ok(None),
    }
}

/// Copies the arguments of a program for an event.
pub(super) fn copy_of_args(alloc: Global, args: &[Bytes]) -> Result<Args, OutOfMemory>
    ensures { IfOk result (λ a. a ≡ args.now) }
{
    let mut copies = Vec::with_capacity(alloc, args.len())?;
    for arg in args {
        push(&mut copies, copy_of(alloc, arg.as_slice())?)?;
    }
    Ok(Args::from_vec(copies))
}

fn copy_of_peers(alloc: Global, peers: &[Peer]) -> Result<Peers, OutOfMemory>
    ensures { IfOk result (λ p. p ≡ peers.now) }
{
    Ok(Peers::from_vec(Vec::from_slice(alloc, peers)?))
}

/// Tells a question and its answer, and goes on to the next answer.
fn tell_dial(player: &mut Player, wire: u32, question: Question, answer: DialAnswer)
    requires playing { IsPlaying player.old }
    requires room { vec_len player.old.told < vec_capacity player.old.told }
    requires given { dial_given question (next_answer (queue_at (map left player.old.answers.dials.items) wire))
        ≡ answer }
    ensures playing { IsPlaying player.new }
    ensures script { script_of player.new.answers ≡ script_of player.old.answers }
    ensures rooms { player.new.rooms ≡ player.old.rooms }
    ensures told { player.new.told.items ≡ player.old.told.items ++ event.Dial wire question answer ∷ [] }
{
    advance_at(&mut player.answers.dials, wire);
    tell(
        &mut player.told,
        Event::Dial {
            wire,
            question,
            answer,
        },
    );
}

/// Whether the connection passes descriptors that an answer opens, where it opens one.
fn passes_in(answer: Option<&DialAnswer>) -> Option<bool>
    ensures { result ≡ passes_in (option_copied answer.entry) }
{
    match answer {
        Some(DialAnswer::Opened { passes }) => Some(*passes),
        _ => None,
    }
}

/// Answers a question for a connection.
#[tactic(auto, using(crate::proofs::DialLemmas::opened_given, crate::proofs::DialLemmas::unopened_given))]
pub(super) fn dial(player: &mut Player, wire: u32, question: Question) -> Result<Opened, Fault>
    requires asks { asks_for_wire question ≡ true }
    requires playing { IsPlaying player.old }
    requires room { vec_len player.old.told < vec_capacity player.old.told }
    ensures playing { IsPlaying player.new }
    ensures script { script_of player.new.answers ≡ script_of player.old.answers }
    ensures rooms { player.new.rooms ≡ player.old.rooms }
    ensures told { player.new.told.items ≡ player.old.told.items ++ dial_told wire question result }
{
    match passes_in(next_at(&player.answers.dials, wire)) {
        Some(passes) => {
            tell_dial(player, wire, question, DialAnswer::Opened { passes });
            Ok(Opened { passes })
        }
        None => {
            tell_dial(player, wire, question, DialAnswer::Failed);
            Err(Fault::Failed)
        }
    }
}

/// The peers that an answer has, where it has peers.
fn peers_in(answer: Option<&DialAnswer>) -> Option<&[Peer]>
    ensures { option_copied result ≡ peers_in (option_copied answer.entry) }
{
    match answer {
        Some(DialAnswer::Found(peers)) => Some(peers.as_slice()),
        _ => None,
    }
}

/// Answers a question for the addresses of a host.
#[tactic(auto, using(crate::proofs::DialLemmas::found_given, crate::proofs::DialLemmas::unfound_given))]
pub(super) fn lookup(
    player: &mut Player,
    alloc: Global,
    wire: u32,
    host: Bytes,
    port: u16,
) -> Result<Peers, Fault>
    requires playing { IsPlaying player.old }
    requires room { vec_len player.old.told < vec_capacity player.old.told }
    ensures playing { IsPlaying player.new }
    ensures script { script_of player.new.answers ≡ script_of player.old.answers }
    ensures rooms { player.new.rooms ≡ player.old.rooms }
    ensures told { player.new.told.items
        ≡ player.old.told.items ++ lookup_told wire (question.Lookup host port) result }
{
    match peers_in(next_at(&player.answers.dials, wire)) {
        Some(peers) => {
            let told = copy_of_peers(alloc, peers)?;
            let found = copy_of_peers(alloc, peers)?;
            tell_dial(
                player,
                wire,
                Question::Lookup { host, port },
                DialAnswer::Found(told),
            );
            Ok(found)
        }
        None => {
            tell_dial(
                player,
                wire,
                Question::Lookup { host, port },
                DialAnswer::Failed,
            );
            Err(Fault::Failed)
        }
    }
}

/// The nonce that an answer has, where it has one.
fn nonce_in(answer: Option<&DialAnswer>) -> Option<&[u8]>
    ensures { option_copied result ≡ nonce_in (option_copied answer.entry) }
{
    match answer {
        Some(DialAnswer::Nonce(bytes)) => Some(bytes.as_slice()),
        _ => None,
    }
}

/// Answers a question for the bytes of a nonce file.
#[tactic(auto, using(crate::proofs::DialLemmas::nonce_given, crate::proofs::DialLemmas::unread_given))]
pub(super) fn read_nonce(
    player: &mut Player,
    alloc: Global,
    wire: u32,
    path: Bytes,
) -> Result<Bytes, Fault>
    requires playing { IsPlaying player.old }
    requires room { vec_len player.old.told < vec_capacity player.old.told }
    ensures playing { IsPlaying player.new }
    ensures script { script_of player.new.answers ≡ script_of player.old.answers }
    ensures rooms { player.new.rooms ≡ player.old.rooms }
    ensures told { player.new.told.items ≡ player.old.told.items ++ nonce_told wire (question.Nonce path) result }
{
    match nonce_in(next_at(&player.answers.dials, wire)) {
        Some(bytes) => {
            let told = copy_of(alloc, bytes)?;
            let nonce = copy_of(alloc, bytes)?;
            tell_dial(player, wire, Question::Nonce(path), DialAnswer::Nonce(told));
            Ok(nonce)
        }
        None => {
            tell_dial(player, wire, Question::Nonce(path), DialAnswer::Failed);
            Err(Fault::Failed)
        }
    }
}

/// What a program printed by an answer, and whether it ended in success, where the answer says this.
fn output_in(answer: Option<&DialAnswer>) -> Option<(bool, &[u8])>
    ensures { option_map (λ o. (o.0, o.1.now)) result ≡ output_in (option_copied answer.entry) }
{
    match answer {
        Some(DialAnswer::Output { success, text }) => Some((*success, text.as_slice())),
        _ => None,
    }
}

/// Answers a question for the address of the ibus daemon.
#[tactic(auto, using(crate::proofs::DialLemmas::output_given, crate::proofs::DialLemmas::unprinted_given))]
pub(super) fn run_ibus(player: &mut Player, alloc: Global, wire: u32) -> Result<Output, Fault>
    requires playing { IsPlaying player.old }
    requires room { vec_len player.old.told < vec_capacity player.old.told }
    ensures playing { IsPlaying player.new }
    ensures script { script_of player.new.answers ≡ script_of player.old.answers }
    ensures rooms { player.new.rooms ≡ player.old.rooms }
    ensures told { player.new.told.items ≡ player.old.told.items ++ output_told wire question.Ibus result }
{
    match output_in(next_at(&player.answers.dials, wire)) {
        Some((success, printed)) => {
            let told = copy_of(alloc, printed)?;
            let text = copy_of(alloc, printed)?;
            tell_dial(
                player,
                wire,
                Question::Ibus,
                DialAnswer::Output {
                    success,
                    text: told,
                },
            );
            Ok(Output { success, text })
        }
        None => {
            tell_dial(player, wire, Question::Ibus, DialAnswer::Failed);
            Err(Fault::Failed)
        }
    }
}

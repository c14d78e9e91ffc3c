//! A conversation over a wire, whichever side it is: what is sent, what came, and how far it has come.

ghost use Rattle.std.specs.Prelude.{◌≡◌, ◌<◌, ◌≤◌, ◌++◌, ◌↔◌, List, [], ◌∷◌, ℕ, length};
ghost use Rattle.std.specs.Prelude.{Some, MatchOption, IfOk, OnOk, OnErr, IsTrue};
ghost use Rattle.std.specs.List.{flat_map};
ghost use Rattle.react_core.specs.Told.{told, recv_told, send_told, Counted, IsReceived, IsSent};
ghost use Rattle.bus_opening.specs.AfterSent.{after_sent, SendsLess};
ghost use Rattle.bus_opening.specs.Limits.{line_limit, read_size, buffer_limit};
ghost use Rattle.bus_opening.specs.Ends.{end_of};
ghost use Rattle.bus_opening.specs.Outboxes.{Sending, first_piece};
ghost use Rattle.react_core.specs.Outer.{Keeps};
ghost use Rattle.react_core.specs.Outer as part;

use crate::inbox::Inbox;
use crate::limits::{COMMAND_LIMIT, LINE_LIMIT};
use crate::outbox::Outbox;
use crate::part::{Part, reply};
use crate::verdict::{Authenticated, Step, Verdict};
use bus_address::Guid;
use react_core::outside::{Fault, Received, Sent, Wire};
use std::alloc::{AllocError, Global};
use std::marker::Model;

/// How far a client has come.
#[derive(Clone, Copy)]
pub(crate) enum ClientStage {
    /// The first command is waited for.
    First,
    /// The answer to `NEGOTIATE_UNIX_FD`, after which `BEGIN` is sent.
    Asking(Guid),
    /// The same, where `BEGIN` was sent already.
    Begun(Guid),
}

/// How far a server has come, and whether it agreed to pass descriptors.
#[derive(Clone, Copy)]
pub(crate) enum ServerStage {
    Start,
    Auth(bool),
    Data(bool),
    Begin(bool),
}

/// How far a conversation has come.
#[derive(Clone, Copy)]
pub(crate) enum Stage {
    Client(ClientStage),
    Server(ServerStage),
    Done(Guid, bool),
    Refused,
}

/// A conversation in progress.
#[derive(Drop)]
pub(crate) struct Exchange {
    part: Part,
    stage: Stage,
    commands: usize,
    inbox: Inbox,
    outbox: Outbox,
    ended: bool,
}

impl Model for Exchange {
    ghost use Rattle.bus_opening.specs.Openings.{Opening};

    ghost Value = { Opening };

    ghost use Rattle.bus_opening.specs.OpeningFields.{opening_of, IsFew};

    ghost view = { opening_of };

    ghost invariant = { IsFew };
}

// How the conversation ended, if it did.
fn end_of(stage: Stage) -> Option<Verdict>
    ensures { result ≡ end_of stage }
{
    match stage {
        Stage::Done(guid, cap_unix_fd) => {
            Some(Verdict::Authenticated(Authenticated { guid, cap_unix_fd }))
        }
        Stage::Refused => Some(Verdict::Handshake),
        _ => None,
    }
}

enum Next {
    Ends(Verdict),
    Look(usize),
    Read,
}

// Offers the rest of the first piece that waits.
fn send_rest<W: Wire>(outbox: &mut Outbox, outside: &mut W, wire: u32) -> Result<Sent, Fault>
    requires { 0 < length outbox.old.waiting }
    ensures after { outbox.new ≡ after_sent outbox.old result }
    ensures told { (W.outer outside.new).events
        ≡ told (W.outer outside.old).events (send_told wire (first_piece outbox.old.waiting) result) }
    ensures amount { IfOk result (IsSent (length (first_piece outbox.old.waiting))) }
    ensures some { 0 < length (first_piece outbox.old.waiting) }
    ensures cause { Counted result ((W.outer outside.old).wire_faults wire) ((W.outer outside.new).wire_faults wire) }
    ensures keeps { Keeps (part.Wire wire) (W.outer outside.old) (W.outer outside.new) }
{
    let sent = outside.send(wire, outbox.offer());
    if let Ok(Sent::Took(count)) = sent {
        outbox.mark_taken(count);
    }
    sent
}

impl Exchange {
    ghost use Rattle.std.specs.Prelude.{false};
    ghost use Rattle.bus_opening.specs.Openings.{Opening, MovesOpening, RunsOpening, PollsOpening};
    ghost use Rattle.bus_opening.specs.Openings.{StandsIn, standing, written_of, rest_of, left_over, Looks};
    ghost use Rattle.bus_opening.specs.Standing.{asks};
    ghost use Rattle.bus_opening.specs.Nexts.{NextIs, MayLook};
    ghost use Rattle.bus_opening.specs.Polling.{bytes_got, Polls, Leaves, IoCounted, is_end};
    ghost use Rattle.bus_opening.specs.Talk.{recv};
    ghost use Rattle.react_core.specs.Told.{SameBut};

    /// A conversation at its start, with what is to be sent first.
    pub(crate) fn new(alloc: Global, part: Part, stage: Stage, outbox: Outbox) -> Exchange
        ensures { result
            ≡ record {
              part = part;
              stage = stage;
              waiting = outbox.waiting;
              count = 0;
              rest = [];
              written = outbox.written;
              ended = false;
            } }
    {
        Exchange {
            part,
            stage,
            commands: 0,
            inbox: Inbox::new(alloc),
            outbox,
            ended: false,
        }
    }

    fn is_waiting(&self) -> bool
        ensures { IsTrue result ↔ (0 < length self.now.waiting) }
    {
        self.outbox.is_waiting()
    }

    fn send_rest<W: Wire>(&mut self, outside: &mut W, wire: u32) -> Result<Sent, Fault>
        requires { 0 < length self.old.waiting }
        ensures moves { MovesOpening wire self.old self.new (W.outer outside.old).events (W.outer outside.new).events
            (send_told wire (first_piece self.old.waiting) result) }
        ensures amount { IfOk result (IsSent (length (first_piece self.old.waiting))) }
        ensures some { 0 < length (first_piece self.old.waiting) }
        ensures less { SendsLess self.old.waiting self.new.waiting result }
        ensures same { self.new ≡ record self.old { waiting = self.new.waiting; written = self.new.written } }
        ensures cause { Counted result ((W.outer outside.old).wire_faults wire)
            ((W.outer outside.new).wire_faults wire) }
        ensures keeps { Keeps (part.Wire wire) (W.outer outside.old) (W.outer outside.new) }
    {
        send_rest(&mut self.outbox, outside, wire)
    }

    // Sends until nothing waits, or the wire stops.
    fn flush<W: Wire>(&mut self, outside: &mut W, wire: u32) -> Option<Step>
        ensures run { MatchOption result
            (RunsOpening W.Origin wire self.old self.new (W.outer outside.old) (W.outer outside.new)
            × (length self.new.waiting ≡ 0))
            (λ s. PollsOpening W.Origin wire self.old self.new (W.outer outside.old) (W.outer outside.new) s) }
        ensures same { self.new ≡ record self.old { waiting = self.new.waiting; written = self.new.written } }
    {
        while self.is_waiting() {
            match self.send_rest(outside, wire) {
                Ok(Sent::Took(_)) => {}
                Ok(Sent::NotReady) => return Some(Step::WantWrite),
                Err(Fault::Failed) => return Some(Step::Done(Verdict::Io)),
                Err(Fault::OutOfMemory) => return Some(Step::OutOfMemory),
            }
        }
        None
    }

    fn recv<W: Wire>(&mut self, outside: &mut W, wire: u32) -> Result<Received, Fault>
        requires few { length self.old.rest ≤ line_limit }
        ensures amount { IfOk result (IsReceived read_size) }
        ensures told { (into : List ℕ) × (length into ≡ read_size)
            × ((W.outer outside.new).events ≡ told (W.outer outside.old).events (recv_told wire into result))
            × (self.new ≡ record self.old { rest = self.old.rest ++ flat_map bytes_got (recv_told wire into result) }) }
        ensures cause { Counted result ((W.outer outside.old).wire_faults wire)
            ((W.outer outside.new).wire_faults wire) }
        ensures keeps { Keeps (part.Wire wire) (W.outer outside.old) (W.outer outside.new) }
    {
        self.inbox.recv(outside, wire)
    }

    // Reads on, where that is asked.
    fn read<W: Wire>(&mut self, outside: &mut W, wire: u32) -> Option<Step>
        requires few { length self.old.rest ≤ line_limit }
        requires asked { asks (standing self.old) ≡ Some recv }
        ensures run { MatchOption result
            (RunsOpening W.Origin wire self.old self.new (W.outer outside.old) (W.outer outside.new)
            × (left_over self.new < left_over self.old))
            (λ s. PollsOpening W.Origin wire self.old self.new (W.outer outside.old) (W.outer outside.new) s) }
    {
        match self.recv(outside, wire) {
            Ok(Received::Got(_)) => None,
            Ok(Received::End) => Some(Step::Done(Verdict::Handshake)),
            Ok(Received::NotReady) => Some(Step::WantRead),
            Err(Fault::Failed) => Some(Step::Done(Verdict::Io)),
            Err(Fault::OutOfMemory) => Some(Step::OutOfMemory),
        }
    }

    // What is to be done where nothing waits.
    fn next(&mut self) -> Next
        requires { length self.old.waiting ≡ 0 }
        ensures same { self.new ≡ self.old }
        ensures next { NextIs self.old result }
    {
        if let Some(verdict) = end_of(self.stage) {
            return Next::Ends(verdict);
        }
        if self.commands == COMMAND_LIMIT {
            return Next::Ends(Verdict::TooManyCommands);
        }
        let feed = self.inbox.feed();
        if feed > LINE_LIMIT {
            return Next::Ends(Verdict::LineTooLong);
        }
        if feed < self.inbox.as_slice().len() {
            return Next::Look(feed);
        }
        Next::Read
    }

    // Looks at the next line. An `Err` changes nothing.
    fn look(&mut self, alloc: Global, feed: usize) -> Result<(), AllocError>
        requires { MayLook self.old feed }
        ensures ok { OnOk result (Looks self.old self.new) }
        ensures err { OnErr result (self.new ≡ self.old) }
    {
        let line = &self.inbox.as_slice()[..feed + 1];
        let (stage, said) = reply(alloc, &self.part, self.stage, line)?;
        self.outbox.say(said.as_slice())?;
        self.stage = stage;
        self.commands += 1;
        self.inbox.pass(feed + 1);
        Ok(())
    }

    // One more step where nothing waits.
    fn proceed<W: Wire>(&mut self, alloc: Global, outside: &mut W, wire: u32) -> Option<Step>
        requires { length self.old.waiting ≡ 0 }
        ensures run { MatchOption result
            (RunsOpening W.Origin wire self.old self.new (W.outer outside.old) (W.outer outside.new)
            × (left_over self.new < left_over self.old))
            (λ s. PollsOpening W.Origin wire self.old self.new (W.outer outside.old) (W.outer outside.new) s) }
    {
        match self.next() {
            Next::Ends(verdict) => Some(Step::Done(verdict)),
            Next::Look(feed) => match self.look(alloc, feed) {
                Ok(()) => None,
                Err(_) => Some(Step::OutOfMemory),
            },
            Next::Read => self.read(outside, wire),
        }
    }

    // Asks the wire until it isn't ready or the conversation ends.
    fn converse<W: Wire>(&mut self, alloc: Global, outside: &mut W, wire: u32) -> Step
        ensures run { PollsOpening W.Origin wire self.old self.new (W.outer outside.old) (W.outer outside.new) result }
    {
        loop {
            if let Some(step) = self.flush(outside, wire) {
                return step;
            }
            if let Some(step) = self.proceed(alloc, outside, wire) {
                return step;
            }
        }
    }

    /// Asks the wire until it isn't ready or the opening ends.
    pub(crate) fn poll<W: Wire>(&mut self, alloc: Global, outside: &mut W, wire: u32) -> Step
        requires open { self.old.ended ≡ false }
        ensures polls { Polls Opening StandsIn written_of wire self.old self.new (W.outer outside.old).events
            (W.outer outside.new).events result }
        ensures leaves { Leaves Opening StandsIn written_of rest_of self.new result }
        ensures ended { self.new.ended ≡ is_end result }
        ensures cause { IoCounted result ((W.outer outside.old).wire_faults wire)
            ((W.outer outside.new).wire_faults wire) }
        ensures keeps { Keeps (part.Wire wire) (W.outer outside.old) (W.outer outside.new) }
    {
        let step = self.converse(alloc, outside, wire);
        self.ended = matches!(step, Step::Done(_));
        step
    }

    pub(crate) fn written(&self) -> &[u8]
        ensures { result.now ≡ self.now.written }
    {
        self.outbox.written()
    }

    pub(crate) fn leftover(&self) -> &[u8]
        ensures rest { result.now ≡ self.now.rest }
        ensures few { length result.now ≤ buffer_limit }
    {
        self.inbox.as_slice()
    }

    pub(crate) fn is_done(&self) -> bool
        ensures { result ≡ self.now.ended }
    {
        self.ended
    }
}

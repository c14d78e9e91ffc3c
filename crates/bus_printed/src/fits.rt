//! That what a program holds fits its types, as a fact that contracts can cite.
//!
//! A number of a contract may be any number. Of a number that the code reads a proof knows the range, so the numbers
//! are read here, and nothing is done with them.

ghost use Rattle.std.specs.Prelude.{◌<◌, ◌^◌};
ghost use Rattle.std.specs.List.{All};
ghost use Rattle.hex.specs.Hex.{IsBytes};
ghost use Rattle.bus_printed.specs.Fits.{FitsPeer, FitsQuestion, FitsDial, FitsRecv, FitsSend, FitsReport, FitsWait};
ghost use Rattle.bus_printed.specs.Fits.{FitsEvent, FitsEnding, FitsEnded, FitsWhereThere, Fits};
ghost use Rattle.bus_printed.specs.Names.{Names};
ghost use Rattle.bus_script.specs.Printed.{printed};

use bus_session::{Ended, Ending};
use react_core::outside::{
    Bytes, DialAnswer, Event, Peer, Question, RecvAnswer, Report, SendAnswer, WaitAnswer,
};

/// A value that fits its type, as each value of a program does.
trait Fitting {
    /// What that says of the value.
    ghost fits: { Self → Type 0 };

    /// Reads the numbers of the value.
    fn read(&self)
        ensures { fits self.now };
}

/// Reads each of the values.
fn read_all<T: Fitting>(values: &[T])
    ensures { All T.fits values.now }
{
    for value in values {
        value.read();
    }
}

impl<T: Fitting> Fitting for Option<T> {
    ghost fits = { FitsWhereThere T.fits };

    fn read(&self) {
        if let Some(value) = self {
            value.read();
        }
    }
}

impl Fitting for u16 {
    ghost fits = { λ n. n < 2 ^ 16 };

    fn read(&self) {
        let _number = *self;
    }
}

impl Fitting for u32 {
    ghost fits = { λ n. n < 2 ^ 32 };

    fn read(&self) {
        let _number = *self;
    }
}

impl Fitting for u64 {
    ghost fits = { λ n. n < 2 ^ 64 };

    fn read(&self) {
        let _number = *self;
    }
}

impl Fitting for usize {
    ghost fits = { λ n. n < 2 ^ 64 };

    fn read(&self) {
        let _number = *self;
    }
}

fn slice_fits(bytes: &[u8])
    ensures { IsBytes bytes.now }
{}

impl Fitting for Bytes {
    ghost fits = { IsBytes };

    fn read(&self) {
        slice_fits(self.as_slice());
    }
}

fn peer_fits(peer: Peer)
    ensures { FitsPeer peer }
{}

impl Fitting for Peer {
    ghost fits = { FitsPeer };

    fn read(&self) {
        peer_fits(*self);
    }
}

impl Fitting for Report {
    ghost fits = { FitsReport };

    fn read(&self) {
        self.key.read();
    }
}

impl Fitting for Question {
    ghost fits = { FitsQuestion };

    fn read(&self) {
        match self {
            Question::Unix(path) => path.read(),
            Question::Abstract(name) => name.read(),
            Question::Lookup { host, port } => {
                host.read();
                port.read();
            }
            Question::Tcp(peer) => peer.read(),
            Question::Nonce(file) => file.read(),
            Question::Start {
                program,
                arg0,
                args,
            } => {
                program.read();
                arg0.read();
                read_all(args.as_slice());
            }
            Question::Ibus | Question::Accept => {}
        }
    }
}

impl Fitting for DialAnswer {
    ghost fits = { FitsDial };

    fn read(&self) {
        match self {
            DialAnswer::Found(peers) => read_all(peers.as_slice()),
            DialAnswer::Nonce(bytes) => bytes.read(),
            DialAnswer::Output { text, .. } => text.read(),
            DialAnswer::Opened { .. } | DialAnswer::Failed => {}
        }
    }
}

impl Fitting for RecvAnswer {
    ghost fits = { FitsRecv };

    fn read(&self) {
        match self {
            RecvAnswer::Got(bytes) => bytes.read(),
            RecvAnswer::End | RecvAnswer::NotReady | RecvAnswer::Failed => {}
        }
    }
}

impl Fitting for SendAnswer {
    ghost fits = { FitsSend };

    fn read(&self) {
        match self {
            SendAnswer::Took(count) => count.read(),
            SendAnswer::NotReady | SendAnswer::Failed => {}
        }
    }
}

impl Fitting for WaitAnswer {
    ghost fits = { FitsWait };

    fn read(&self) {
        match self {
            WaitAnswer::Reported(reports) => read_all(reports.as_slice()),
            WaitAnswer::Interrupted | WaitAnswer::Failed => {}
        }
    }
}

impl Fitting for Event {
    ghost fits = { FitsEvent };

    #[tactic(auto, unfolding(crate::specs::Fits::FitsEvent))]
    fn read(&self) {
        match self {
            Event::Dial {
                wire,
                question,
                answer,
            } => {
                wire.read();
                question.read();
                answer.read();
            }
            Event::Recv {
                wire,
                asked,
                answer,
            } => {
                wire.read();
                asked.read();
                answer.read();
            }
            Event::Send {
                wire,
                offered,
                answer,
            } => {
                wire.read();
                offered.read();
                answer.read();
            }
            Event::Close { wire } => wire.read(),
            Event::Now { moment } => moment.read(),
            Event::Add { wire, key, .. }
            | Event::Modify { wire, key, .. }
            | Event::Delete { wire, key, .. } => {
                wire.read();
                key.read();
            }
            Event::Notify { .. } => {}
            Event::Wait { timeout, answer } => {
                timeout.read();
                answer.read();
            }
        }
    }
}

fn ending_fits(ending: Ending)
    ensures { FitsEnding ending }
{}

impl Fitting for Ending {
    ghost fits = { FitsEnding };

    fn read(&self) {
        ending_fits(*self);
    }
}

impl Fitting for Ended {
    ghost fits = { FitsEnded };

    fn read(&self) {
        self.wire.read();
        self.ending.read();
        self.written.read();
        self.leftover.read();
        self.moment.read();
    }
}

/// The endings and the events of a program fit their types.
fn values_fit(endeds: &[Ended], events: &[Event])
    ensures { Fits endeds.now events.now }
{
    read_all(endeds);
    read_all(events);
}

/// No other endings and events that a program can hold are printed as these. It gives nothing back: its clause is what
/// it is for.
pub fn names_alone(endeds: &[Ended], events: &[Event])
    ensures { Names (printed endeds.now events.now) endeds.now events.now }
{
    values_fit(endeds, events);
}

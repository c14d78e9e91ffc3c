//! What lies outside: a clock, a poller, wires and a dialer, each behind a trait of its own.
//!
//! Where an object tells, each call appends one event with its question and its answer to the object's record. Each
//! fault is counted, so that whoever is refused can see the cause.

ghost use Rattle.std.specs.Prelude.{◌≡◌, ◌≤◌, ℕ, false, List, Option, length, IfOk, OnErr};
ghost use Rattle.std.specs.Option.{option_copied};
ghost use Rattle.react_core.specs.declared.outside.Event.{Event};
ghost use Rattle.react_core.specs.declared.outside.Question.TheVariants as question;
ghost use Rattle.react_core.specs.Outer.{Outer, Keeps, CountsFit, with_room, lent};
ghost use Rattle.react_core.specs.Outer as part;
ghost use Rattle.react_core.specs.Told.{told, now_told, add_told, modify_told, delete_told, notify_told, wait_told};
ghost use Rattle.react_core.specs.Told.{recv_told, send_told, close_told};
ghost use Rattle.react_core.specs.Told.{dial_told, lookup_told, nonce_told, output_told};
ghost use Rattle.react_core.specs.Told.{Counted, OnLack, IsReceived, IsSent, IsWaited};

use std::alloc::{AllocError, Global};
use std::marker::Model;
use thiserror::Error;

/// Memory ran out.
#[derive(Clone, Copy, Debug, Error, PartialEq, Eq)]
#[error("out of memory")]
pub struct OutOfMemory;

/// Why a call of the outside was refused.
#[derive(Clone, Copy, Debug, Error, PartialEq, Eq)]
pub enum Fault {
    /// The outside failed, and counted it.
    #[error("the outside failed")]
    Failed,
    #[error("out of memory")]
    OutOfMemory,
}

impl From<AllocError> for OutOfMemory {
    ghost from_gives = { λ _ _. Unit {0} };

    fn from(_: AllocError) -> Self {
        OutOfMemory
    }
}

impl From<OutOfMemory> for Fault {
    ghost use Rattle.react_core.specs.declared.outside.Fault.TheVariants.{OutOfMemory};

    ghost from_gives = { λ _ e. e ≡ OutOfMemory };

    fn from(_: OutOfMemory) -> Self {
        Fault::OutOfMemory
    }
}

/// Bytes, which contracts see as their list.
#[derive(Debug, Drop)]
pub struct Bytes(Vec<u8>);

impl Model for Bytes {
    ghost use Rattle.std.specs.Prelude.{List, ℕ};

    ghost Value = { List ℕ };

    ghost view = { λ l. l.0.items };
}

impl Bytes {
    /// Takes the items over, without memory.
    pub fn from_vec(v: Vec<u8>) -> Self
        ensures items { result ≡ v.items }
    {
        Bytes(v)
    }

    /// Lends the items.
    pub fn as_slice(&self) -> &[u8]
        ensures items { result.now ≡ self.now }
    {
        self.0.as_slice()
    }
}

/// The address of a peer on the network: an IP address and a port.
#[derive(Clone, Copy, Debug, PartialEq, Eq)]
pub enum Peer {
    V4 { ip: u32, port: u16 },
    V6 { ip: u128, port: u16 },
}

/// The addresses that a name stands for, in the order in which they are to be tried.
#[derive(Debug, Drop)]
pub struct Peers(Vec<Peer>);

impl Model for Peers {
    ghost use Rattle.std.specs.Prelude.{List};
    ghost use Rattle.react_core.specs.declared.outside.Peer.{Peer};

    ghost Value = { List Peer };

    ghost view = { λ l. l.0.items };
}

impl Peers {
    /// Takes the items over, without memory.
    pub fn from_vec(v: Vec<Peer>) -> Self
        ensures items { result ≡ v.items }
    {
        Peers(v)
    }

    /// Lends the items.
    pub fn as_slice(&self) -> &[Peer]
        ensures items { result.now ≡ self.now }
    {
        self.0.as_slice()
    }
}

/// The arguments of a program, in order.
#[derive(Debug, Drop)]
pub struct Args(Vec<Bytes>);

impl Model for Args {
    ghost use Rattle.std.specs.Prelude.{List, ℕ};

    ghost Value = { List (List ℕ) };

    ghost view = { λ l. l.0.items };
}

impl Args {
    /// Takes the items over, without memory.
    pub fn from_vec(v: Vec<Bytes>) -> Self
        ensures items { result ≡ v.items }
    {
        Args(v)
    }

    /// Lends the items.
    pub fn as_slice(&self) -> &[Bytes]
        ensures items { result.now ≡ self.now }
    {
        self.0.as_slice()
    }
}

/// What a poller reports: a key, and in which directions its source is ready.
#[derive(Clone, Copy, Debug, PartialEq, Eq)]
pub struct Report {
    pub key: usize,
    pub read: bool,
    pub write: bool,
}

/// The reports of one wait, in the order in which they came.
#[derive(Debug, Drop)]
pub struct Reports(Vec<Report>);

impl Model for Reports {
    ghost use Rattle.std.specs.Prelude.{List};
    ghost use Rattle.react_core.specs.declared.outside.Report.{Report};

    ghost Value = { List Report };

    ghost view = { λ l. l.0.items };
}

impl Reports {
    /// Takes the items over, without memory.
    pub fn from_vec(v: Vec<Report>) -> Self
        ensures items { result ≡ v.items }
    {
        Reports(v)
    }

    /// Lends the items.
    pub fn as_slice(&self) -> &[Report]
        ensures items { result.now ≡ self.now }
    {
        self.0.as_slice()
    }
}

/// What a dialer is asked.
#[derive(Debug, Drop)]
pub enum Question {
    /// A connection to a Unix socket in the file system.
    Unix(Bytes),
    /// A connection to a Unix socket in the abstract namespace.
    Abstract(Bytes),
    /// The addresses of a host.
    Lookup {
        host: Bytes,
        port: u16,
    },
    /// A connection over TCP.
    Tcp(Peer),
    /// The bytes of a nonce file.
    Nonce(Bytes),
    /// A program whose standard streams are the connection.
    Start {
        program: Bytes,
        arg0: Option<Bytes>,
        args: Args,
    },
    /// The address that the ibus daemon prints.
    Ibus,
    /// A connection that a peer opened.
    Accept,
}

/// What a dialer answers.
#[derive(Debug, Drop)]
pub enum DialAnswer {
    /// A connection stands; whether descriptors could be passed over it.
    Opened { passes: bool },
    Found(Peers),
    Nonce(Bytes),
    /// What a program printed, and whether it ended in success.
    Output { success: bool, text: Bytes },
    Failed,
}

/// What came of a read.
#[derive(Debug, Drop)]
pub enum RecvAnswer {
    Got(Bytes),
    End,
    NotReady,
    Failed,
}

/// What came of a write.
#[derive(Debug, Drop)]
pub enum SendAnswer {
    /// How many bytes the wire took.
    Took(usize),
    NotReady,
    Failed,
}

/// What came of a wait.
#[derive(Debug, Drop)]
pub enum WaitAnswer {
    Reported(Reports),
    Interrupted,
    Failed,
}

/// What was found at a listening socket.
#[derive(Clone, Copy, Debug, PartialEq, Eq)]
pub enum Arrival {
    Came,
    NotYet,
    Closed,
}

/// One call of the outside, with its question and its answer. Moments and timeouts are nanoseconds.
#[derive(Debug, Drop)]
pub enum Event {
    Dial {
        wire: u32,
        question: Question,
        answer: DialAnswer,
    },
    /// `asked` is the number of bytes that were asked for.
    Recv {
        wire: u32,
        asked: usize,
        answer: RecvAnswer,
    },
    /// `offered` is the whole piece that was offered.
    Send {
        wire: u32,
        offered: Bytes,
        answer: SendAnswer,
    },
    Close {
        wire: u32,
    },
    Now {
        moment: u64,
    },
    Add {
        wire: u32,
        key: usize,
        ok: bool,
    },
    Modify {
        wire: u32,
        key: usize,
        read: bool,
        write: bool,
        ok: bool,
    },
    Delete {
        wire: u32,
        key: usize,
        ok: bool,
    },
    Notify {
        ok: bool,
    },
    Wait {
        timeout: Option<u64>,
        answer: WaitAnswer,
    },
}

/// The room for reports that waits were lent.
#[derive(Clone, Copy, Debug, PartialEq, Eq)]
pub enum Rooms {
    /// No wait came yet.
    Unwaited,
    /// Each wait was lent this room.
    Each(usize),
    /// Two waits were lent different rooms.
    Differ,
}

impl Rooms {
    /// The rooms with one more wait's.
    pub fn and(self, room: usize) -> Rooms
        ensures value { result ≡ with_room self room }
    {
        match self {
            Rooms::Unwaited => Rooms::Each(room),
            Rooms::Each(each) if each == room => self,
            Rooms::Each(_) | Rooms::Differ => Rooms::Differ,
        }
    }
}

/// What an object tells, and how often each part of it has failed. It has no call of its own.
pub trait Tells {
    /// Where the answers come from, as the script of a scene.
    type Origin;

    /// What contracts see of this object. No call changes its origin, nor whether it may lack memory.
    ghost outer: { Self → Outer Self.Origin };

    /// No count passes `u64::MAX`.
    ghost counts_fit: { (x : Self) → CountsFit (outer x) };
}

/// A clock that never falls. Its readings are nanoseconds from a start of its own.
pub trait Clock: Tells {
    /// Reads the clock.
    fn now(&mut self) -> Result<u64, OutOfMemory>
        ensures told { (Self.outer self.new).events ≡ told (Self.outer self.old).events (now_told result) }
        ensures forward { IfOk result (λ t. (Self.outer self.old).moment ≤ t) }
        ensures reading { IfOk result (λ t. (Self.outer self.new).moment ≡ t) }
        ensures unread { OnErr result ((Self.outer self.new).moment ≡ (Self.outer self.old).moment) }
        ensures memory { OnErr result ((Self.outer self.old).ample ≡ false) }
        ensures keeps { Keeps part.Clock (Self.outer self.old) (Self.outer self.new) };
}

/// The part of a poller that knows sources. An interest is one-shot: a report of its key and direction ends it until
/// the next `modify`.
pub trait Registrar: Tells {
    /// Registers a wire under a key, with no interest.
    fn add(&mut self, wire: u32, key: usize) -> Result<(), Fault>
        ensures told { (Self.outer self.new).events ≡ told (Self.outer self.old).events (add_told wire key result) }
        ensures cause { Counted result (Self.outer self.old).poller_faults (Self.outer self.new).poller_faults }
        ensures memory { OnLack result ((Self.outer self.old).ample ≡ false) }
        ensures keeps { Keeps part.Poller (Self.outer self.old) (Self.outer self.new) };

    /// Sets the directions in which a source is of interest.
    fn modify(&mut self, wire: u32, key: usize, read: bool, write: bool) -> Result<(), Fault>
        ensures told { (Self.outer self.new).events
            ≡ told (Self.outer self.old).events (modify_told wire key read write result) }
        ensures cause { Counted result (Self.outer self.old).poller_faults (Self.outer self.new).poller_faults }
        ensures memory { OnLack result ((Self.outer self.old).ample ≡ false) }
        ensures keeps { Keeps part.Poller (Self.outer self.old) (Self.outer self.new) };

    /// Takes a source out.
    fn delete(&mut self, wire: u32, key: usize) -> Result<(), Fault>
        ensures told { (Self.outer self.new).events ≡ told (Self.outer self.old).events (delete_told wire key result) }
        ensures cause { Counted result (Self.outer self.old).poller_faults (Self.outer self.new).poller_faults }
        ensures memory { OnLack result ((Self.outer self.old).ample ≡ false) }
        ensures keeps { Keeps part.Poller (Self.outer self.old) (Self.outer self.new) };
}

/// The part of a poller that ends another party's wait.
pub trait Notifier: Tells {
    /// Has the wait that runs now, or else the next one, return at once.
    fn notify(&mut self) -> Result<(), Fault>
        ensures told { (Self.outer self.new).events ≡ told (Self.outer self.old).events (notify_told result) }
        ensures cause { Counted result (Self.outer self.old).poller_faults (Self.outer self.new).poller_faults }
        ensures memory { OnLack result ((Self.outer self.old).ample ≡ false) }
        ensures keeps { Keeps part.Poller (Self.outer self.old) (Self.outer self.new) };
}

/// How a wait ended: with so many reports, or interrupted.
#[derive(Clone, Copy, Debug, PartialEq, Eq)]
pub enum Waited {
    Reported(usize),
    Interrupted,
}

/// The part of a poller that waits. Reports may be stale, spurious or double.
pub trait Waiter: Tells {
    /// Waits for reports, for at most `timeout` nanoseconds, and puts them at the front of the slice.
    fn wait(&mut self, timeout: Option<u64>, reports: &mut [Report]) -> Result<Waited, Fault>
        ensures told { (Self.outer self.new).events
            ≡ told (Self.outer self.old).events (wait_told timeout reports.new result) }
        ensures amount { IfOk result (IsWaited (length reports.old)) }
        ensures room { length reports.new ≡ length reports.old }
        ensures lent { (Self.outer self.new).rooms ≡ lent (Self.outer self.old).rooms (length reports.old) }
        ensures cause { Counted result (Self.outer self.old).poller_faults (Self.outer self.new).poller_faults }
        ensures memory { OnLack result ((Self.outer self.old).ample ≡ false) }
        ensures keeps { Keeps (part.Wait (length reports.old)) (Self.outer self.old) (Self.outer self.new) };
}

/// A poller. Its three parts have one common count of faults.
pub trait Poller: Registrar + Notifier + Waiter {}

/// How a read ended.
#[derive(Clone, Copy, Debug, PartialEq, Eq)]
pub enum Received {
    /// So many bytes came, and stand at the front of the slice.
    Got(usize),
    End,
    NotReady,
}

/// How a write ended.
#[derive(Clone, Copy, Debug, PartialEq, Eq)]
pub enum Sent {
    /// The wire took so many bytes from the front of the piece.
    Took(usize),
    NotReady,
}

/// Wires, each under its number, which don't wait.
pub trait Wire: Tells {
    /// Reads at most as many bytes as the slice has room for, and at least one where it has room.
    fn recv(&mut self, wire: u32, into: &mut [u8]) -> Result<Received, Fault>
        ensures told { (Self.outer self.new).events
            ≡ told (Self.outer self.old).events (recv_told wire into.new result) }
        ensures amount { IfOk result (IsReceived (length into.old)) }
        ensures room { length into.new ≡ length into.old }
        ensures cause { Counted result ((Self.outer self.old).wire_faults wire)
            ((Self.outer self.new).wire_faults wire) }
        ensures memory { OnLack result ((Self.outer self.old).ample ≡ false) }
        ensures keeps { Keeps (part.Wire wire) (Self.outer self.old) (Self.outer self.new) };

    /// Offers a piece, of which the wire takes at least one byte where there is one.
    fn send(&mut self, wire: u32, bytes: &[u8]) -> Result<Sent, Fault>
        ensures told { (Self.outer self.new).events
            ≡ told (Self.outer self.old).events (send_told wire bytes.now result) }
        ensures amount { IfOk result (IsSent (length bytes.now)) }
        ensures cause { Counted result ((Self.outer self.old).wire_faults wire)
            ((Self.outer self.new).wire_faults wire) }
        ensures memory { OnLack result ((Self.outer self.old).ample ≡ false) }
        ensures keeps { Keeps (part.Wire wire) (Self.outer self.old) (Self.outer self.new) };

    /// Closes the wire.
    fn close(&mut self, wire: u32) -> Result<(), OutOfMemory>
        ensures told { (Self.outer self.new).events ≡ told (Self.outer self.old).events (close_told wire result) }
        ensures memory { OnErr result ((Self.outer self.old).ample ≡ false) }
        ensures keeps { Keeps part.Record (Self.outer self.old) (Self.outer self.new) };
}

/// A connection that stands.
#[derive(Clone, Copy, Debug, PartialEq, Eq)]
pub struct Opened {
    /// Whether the wire could pass descriptors.
    pub passes: bool,
}

/// What a program printed, and whether it ended in success.
#[derive(Debug, Drop)]
pub struct Output {
    /// Whether the program ended in success.
    pub success: bool,
    /// What it printed, whole.
    pub text: Bytes,
}

/// A dialer, which opens connections under the numbers of wires. Its questions are those that the transports of
/// addresses need (D-Bus specification, "Transports").
pub trait Dialer: Tells {
    /// Connects to the Unix socket at a path.
    fn dial_unix(&mut self, wire: u32, path: &str) -> Result<Opened, Fault>
        ensures told { (Self.outer self.new).events
            ≡ told (Self.outer self.old).events (dial_told wire (question.Unix path.now) result) }
        ensures cause { Counted result ((Self.outer self.old).dial_faults wire)
            ((Self.outer self.new).dial_faults wire) }
        ensures memory { OnLack result ((Self.outer self.old).ample ≡ false) }
        ensures keeps { Keeps (part.Dial wire) (Self.outer self.old) (Self.outer self.new) };

    /// Connects to the Unix socket of a name in the abstract namespace. The name is any bytes.
    fn dial_abstract(&mut self, wire: u32, name: &[u8]) -> Result<Opened, Fault>
        ensures told { (Self.outer self.new).events
            ≡ told (Self.outer self.old).events (dial_told wire (question.Abstract name.now) result) }
        ensures cause { Counted result ((Self.outer self.old).dial_faults wire)
            ((Self.outer self.new).dial_faults wire) }
        ensures memory { OnLack result ((Self.outer self.old).ample ≡ false) }
        ensures keeps { Keeps (part.Dial wire) (Self.outer self.old) (Self.outer self.new) };

    /// Looks up the addresses of a host, with this port, in the order in which they are to be tried.
    fn lookup(&mut self, alloc: Global, wire: u32, host: &str, port: u16) -> Result<Peers, Fault>
        ensures told { (Self.outer self.new).events
            ≡ told (Self.outer self.old).events (lookup_told wire (question.Lookup host.now port) result) }
        ensures cause { Counted result ((Self.outer self.old).dial_faults wire)
            ((Self.outer self.new).dial_faults wire) }
        ensures memory { OnLack result ((Self.outer self.old).ample ≡ false) }
        ensures keeps { Keeps (part.Dial wire) (Self.outer self.old) (Self.outer self.new) };

    /// Connects to a peer over TCP.
    fn dial_tcp(&mut self, wire: u32, peer: Peer) -> Result<Opened, Fault>
        ensures told { (Self.outer self.new).events
            ≡ told (Self.outer self.old).events (dial_told wire (question.Tcp peer) result) }
        ensures cause { Counted result ((Self.outer self.old).dial_faults wire)
            ((Self.outer self.new).dial_faults wire) }
        ensures memory { OnLack result ((Self.outer self.old).ample ≡ false) }
        ensures keeps { Keeps (part.Dial wire) (Self.outer self.old) (Self.outer self.new) };

    /// Reads the file of a `nonce-tcp` address to its end.
    fn read_nonce(&mut self, alloc: Global, wire: u32, path: &str) -> Result<Bytes, Fault>
        ensures told { (Self.outer self.new).events
            ≡ told (Self.outer self.old).events (nonce_told wire (question.Nonce path.now) result) }
        ensures cause { Counted result ((Self.outer self.old).dial_faults wire)
            ((Self.outer self.new).dial_faults wire) }
        ensures memory { OnLack result ((Self.outer self.old).ample ≡ false) }
        ensures keeps { Keeps (part.Dial wire) (Self.outer self.old) (Self.outer self.new) };

    /// Starts a program, whose standard input and output become the connection. `arg0` is the name that it is told as
    /// its own; where there is none, that is the program's.
    fn start(
        &mut self,
        wire: u32,
        program: &str,
        arg0: Option<&str>,
        args: &Args,
    ) -> Result<Opened, Fault>
        ensures told { (Self.outer self.new).events
            ≡ told (Self.outer self.old).events
            (dial_told wire (question.Start program.now (option_copied arg0.entry) args.now) result) }
        ensures cause { Counted result ((Self.outer self.old).dial_faults wire)
            ((Self.outer self.new).dial_faults wire) }
        ensures memory { OnLack result ((Self.outer self.old).ample ≡ false) }
        ensures keeps { Keeps (part.Dial wire) (Self.outer self.old) (Self.outer self.new) };

    /// Has the ibus daemon print its address, and waits for its end.
    fn run_ibus(&mut self, alloc: Global, wire: u32) -> Result<Output, Fault>
        ensures told { (Self.outer self.new).events
            ≡ told (Self.outer self.old).events (output_told wire question.Ibus result) }
        ensures cause { Counted result ((Self.outer self.old).dial_faults wire)
            ((Self.outer self.new).dial_faults wire) }
        ensures memory { OnLack result ((Self.outer self.old).ample ≡ false) }
        ensures keeps { Keeps (part.Dial wire) (Self.outer self.old) (Self.outer self.new) };

    /// Takes the connection that a peer opened.
    fn accept(&mut self, wire: u32) -> Result<Opened, Fault>
        ensures told { (Self.outer self.new).events
            ≡ told (Self.outer self.old).events (dial_told wire question.Accept result) }
        ensures cause { Counted result ((Self.outer self.old).dial_faults wire)
            ((Self.outer self.new).dial_faults wire) }
        ensures memory { OnLack result ((Self.outer self.old).ample ≡ false) }
        ensures keeps { Keeps (part.Dial wire) (Self.outer self.old) (Self.outer self.new) };
}

/// All of the outside.
pub trait Outside: Clock + Poller + Wire + Dialer {}

/// Takes the tasks that are woken, one after another.
pub trait Wakes {
    /// One wake: what was before it, the task, and what is after it.
    ghost woke: { Self → ℕ → Self → Type 0 };

    /// Wakes a task.
    fn wake(&mut self, task: u64)
        ensures woke { woke self.old task self.new };
}

//! The clock's last reading, and the counts of faults: one of the poller, and two for each wire number.

ghost use Rattle.std.specs.Prelude.{◌≡◌, ◌<◌, ◌≤◌, ℕ, OnOk, OnErr, IfOk, Ok, vec_len};
ghost use Rattle.react_core.specs.Outer.{Keeps};
ghost use Rattle.react_core.specs.Outer as part;
ghost use Rattle.react_core.specs.Told.{Counted, Rose, SameBut};
ghost use Rattle.bus_edges.specs.Seen.{count_at, seen_of, outer_of};

use react_core::outside::{Fault, OutOfMemory};
use std::alloc::{AllocError, Global};

/// One more, but no more than the type's end.
fn raised(count: u64) -> u64
    ensures { Rose count result }
{
    count.saturating_add(1)
}

/// Has a place for this wire's count. It changes no count.
#[tactic(auto, using(crate::proofs::Pushes::push_changes_none, crate::proofs::Pushes::same_counts))]
fn make_room(counts: &mut Vec<u64>, wire: u32) -> Result<(), AllocError>
    ensures room { OnOk result (wire < vec_len counts.new) }
    ensures each { (w : ℕ) → count_at counts.new.items w ≡ count_at counts.old.items w }
    ensures same { count_at counts.new.items ≡ count_at counts.old.items }
{
    let places = wire as usize + 1;
    counts.reserve(places.saturating_sub(counts.len()))?;
    for _ in counts.len()..places {
        counts.push(0)?;
    }
    Ok(())
}

/// Raises this wire's count, and no other.
fn raise(counts: &mut Vec<u64>, wire: u32) -> Result<(), AllocError>
    ensures rose { OnOk result (Rose (count_at counts.old.items wire) (count_at counts.new.items wire)) }
    ensures refused { OnErr result (count_at counts.new.items wire ≡ count_at counts.old.items wire) }
    ensures others { SameBut wire (count_at counts.old.items) (count_at counts.new.items) }
{
    make_room(counts, wire)?;
    let place = wire as usize;
    counts[place] = raised(counts[place]);
    Ok(())
}

/// The answer, where a fault is counted for this wire. A fault that can't be counted is want of memory.
fn counted<T>(answer: Result<T, Fault>, counts: &mut Vec<u64>, wire: u32) -> Result<T, Fault>
    ensures cause { Counted result (count_at counts.old.items wire) (count_at counts.new.items wire) }
    ensures others { SameBut wire (count_at counts.old.items) (count_at counts.new.items) }
    ensures value { IfOk result (λ v. answer ≡ Ok v) }
{
    match answer {
        Ok(value) => Ok(value),
        Err(Fault::OutOfMemory) => Err(Fault::OutOfMemory),
        Err(Fault::Failed) => match raise(counts, wire) {
            Ok(()) => Err(Fault::Failed),
            Err(_) => Err(Fault::OutOfMemory),
        },
    }
}

/// The answer, where a fault is counted.
fn counted_once<T>(answer: Result<T, Fault>, count: &mut u64) -> Result<T, Fault>
    ensures cause { Counted result count.old count.new }
    ensures value { IfOk result (λ v. answer ≡ Ok v) }
{
    match answer {
        Err(Fault::Failed) => {
            *count = raised(*count);
            Err(Fault::Failed)
        }
        other => other,
    }
}

/// The clock's last reading in nanoseconds, and the counts of faults.
#[derive(Debug, Drop)]
pub(crate) struct Counts {
    moment: u64,
    poller: u64,
    wires: Vec<u64>,
    dials: Vec<u64>,
}

impl Counts {
    /// No reading, and no fault.
    pub(crate) fn new(alloc: Global) -> Self
        ensures moment { result.moment ≡ 0 }
        ensures poller { result.poller ≡ 0 }
        ensures wires { (wire : ℕ) → (seen_of result).wires wire ≡ 0 }
        ensures dials { (wire : ℕ) → (seen_of result).dials wire ≡ 0 }
    {
        Counts {
            moment: 0,
            poller: 0,
            wires: Vec::new(alloc),
            dials: Vec::new(alloc),
        }
    }

    /// Has places for a wire's counts, so that counting takes no memory.
    pub(crate) fn make_room(&mut self, wire: u32) -> Result<(), OutOfMemory>
        ensures same { seen_of self.new ≡ seen_of self.old }
        ensures each_wire { (w : ℕ) → count_at self.new.wires.items w ≡ count_at self.old.wires.items w }
        ensures each_dial { (w : ℕ) → count_at self.new.dials.items w ≡ count_at self.old.dials.items w }
    {
        make_room(&mut self.wires, wire)?;
        make_room(&mut self.dials, wire)?;
        Ok(())
    }

    /// Takes a reading, where there is one and it is later than the last, and answers the last one.
    #[tactic(auto, using(crate::proofs::Keeping::clock_keeps))]
    pub(crate) fn read(&mut self, reading: Option<u64>) -> u64
        ensures value { result ≡ self.new.moment }
        ensures forward { self.old.moment ≤ result }
        ensures keeps { Keeps part.Clock (outer_of self.old) (outer_of self.new) }
    {
        if let Some(moment) = reading {
            self.moment = self.moment.max(moment);
        }
        self.moment
    }

    /// The poller's answer, where a fault is counted.
    #[tactic(auto, using(crate::proofs::Keeping::poller_keeps, crate::proofs::Keeping::counted_capped))]
    pub(crate) fn of_poller<T>(&mut self, answer: Result<T, Fault>) -> Result<T, Fault>
        ensures cause { Counted result (outer_of self.old).poller_faults (outer_of self.new).poller_faults }
        ensures keeps { Keeps part.Poller (outer_of self.old) (outer_of self.new) }
        ensures value { IfOk result (λ v. answer ≡ Ok v) }
    {
        counted_once(answer, &mut self.poller)
    }

    /// A wire's answer, where a fault is counted.
    #[tactic(auto, using(crate::proofs::Keeping::wire_keeps, crate::proofs::Keeping::counted_capped))]
    pub(crate) fn of_wire<T>(&mut self, wire: u32, answer: Result<T, Fault>) -> Result<T, Fault>
        ensures cause { Counted result ((outer_of self.old).wire_faults wire) ((outer_of self.new).wire_faults wire) }
        ensures keeps { Keeps (part.Wire wire) (outer_of self.old) (outer_of self.new) }
        ensures value { IfOk result (λ v. answer ≡ Ok v) }
    {
        counted(answer, &mut self.wires, wire)
    }

    /// The dialer's answer, where a fault is counted.
    #[tactic(auto, using(crate::proofs::Keeping::dial_keeps, crate::proofs::Keeping::counted_capped))]
    pub(crate) fn of_dial<T>(&mut self, wire: u32, answer: Result<T, Fault>) -> Result<T, Fault>
        ensures cause { Counted result ((outer_of self.old).dial_faults wire) ((outer_of self.new).dial_faults wire) }
        ensures keeps { Keeps (part.Dial wire) (outer_of self.old) (outer_of self.new) }
        ensures value { IfOk result (λ v. answer ≡ Ok v) }
    {
        counted(answer, &mut self.dials, wire)
    }
}

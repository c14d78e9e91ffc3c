//! One side of an opening, whichever it is.

ghost use Rattle.std.specs.Prelude.{◌≡◌, ◌≤◌, ℕ, Bool, false, List, length};
ghost use Rattle.react_core.specs.Outer.{Keeps};
ghost use Rattle.react_core.specs.Outer as part;
ghost use Rattle.bus_opening.specs.Polling.{Polls, Leaves, IoCounted, is_end};
ghost use Rattle.bus_opening.specs.Limits.{buffer_limit};
ghost use Rattle.bus_opening.specs.Talk.{Said};

use crate::verdict::Step;
use react_core::outside::Wire;
use std::alloc::Global;

/// One side of an opening in progress (D-Bus specification, Authentication Protocol). It asks its wire and nothing
/// else.
pub trait Handshake {
    /// Over these bytes that came the opening stands in this conversation.
    ghost stands: { (List (List ℕ) → Said) → List ℕ → Self → Type 0 };

    /// What the wire took.
    ghost written: { Self → List ℕ };

    /// What came behind the last line that was looked at.
    ghost unlooked: { Self → List ℕ };

    /// Whether a poll has answered the end.
    ghost ended: { Self → Bool };

    /// Asks the wire until it isn't ready or the opening ends. After `OutOfMemory` the opening stands where the last
    /// call of the wire left it, and may be polled again.
    fn poll<W: Wire>(&mut self, alloc: Global, outside: &mut W, wire: u32) -> Step
        requires open { ended self.old ≡ false }
        ensures polls { Polls Self stands written wire self.old self.new (W.outer outside.old).events
            (W.outer outside.new).events result }
        ensures leaves { Leaves Self stands written unlooked self.new result }
        ensures ended { ended self.new ≡ is_end result }
        ensures cause { IoCounted result ((W.outer outside.old).wire_faults wire)
            ((W.outer outside.new).wire_faults wire) }
        ensures keeps { Keeps (part.Wire wire) (W.outer outside.old) (W.outer outside.new) };

    /// What the wire took, a nonce included.
    fn written(&self) -> &[u8]
        ensures { result.now ≡ written self.now };

    /// What came behind the last line that was looked at: at most one line of the greatest length and one read.
    fn leftover(&self) -> &[u8]
        ensures rest { result.now ≡ unlooked self.now }
        ensures few { length result.now ≤ buffer_limit };

    /// Whether a poll has answered the end.
    fn is_done(&self) -> bool
        ensures { result ≡ ended self.now };
}

//! A place among the live timers.
ghost use Rattle.std.specs.Prelude.{◌≡◌, ◌&&◌, ◌==◌};
ghost use Rattle.react_timers.specs.Live.{is_at};

use crate::timer::LiveTimer;

/// A timer in its place, which it leaves when it is taken out. The number stays until the places are closed up.
#[derive(Clone, Copy, Debug)]
pub(crate) struct Slot {
    pub(crate) timer: LiveTimer,
    pub(crate) is_live: bool,
}

impl Slot {
    /// Whether a live timer with this number is here.
    pub(crate) fn has(&self, number: u64) -> bool
        ensures { result ≡ (self.now.is_live && (self.now.timer.number == number)) }
    {
        self.is_live && self.timer.number == number
    }

    /// Whether it has this moment too.
    pub(crate) fn has_at(&self, when: u64, number: u64) -> bool
        ensures { result ≡ (self.now.is_live && is_at when number self.now.timer) }
    {
        self.has(number) && self.timer.when == when
    }
}

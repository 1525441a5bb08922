//! How a hand waits where others have what it wants.
use std::thread;
use std::time::{Clock, Duration};

/// How often a hand that finds each key claimed yields to others before it sleeps.
const YIELDS: u32 = 16;
/// How many microseconds it sleeps then.
const PAUSE: u64 = 100;
/// For how many milliseconds a hand leaves the table to another at most.
const LONGEST_LEAVE: u64 = 16;

/// How often a hand has waited since it last had work.
#[derive(Clone, Copy, Debug, Default)]
pub(crate) struct Patience {
    yields: u32,
}

impl Patience {
    /// It has not waited yet.
    pub(crate) fn new() -> Self {
        Patience { yields: 0 }
    }

    /// Yields a few times, and then sleeps for a moment each time, so that no wake-up can be missed.
    pub(crate) fn wait<R: Clock>(&mut self, rt: &R) {
        if self.yields < YIELDS {
            self.yields += 1;
            thread::yield_now();
        } else {
            thread::sleep(rt, Duration::from_micros(PAUSE));
        }
    }
}

/// For how long a hand leaves the table to another: a millisecond, and twice as long each time that it comes back and the
/// other still has it.
#[derive(Clone, Copy, Debug)]
pub(crate) struct Leave {
    millis: u64,
}

impl Leave {
    /// It has not left yet.
    pub(crate) fn new() -> Self {
        Leave { millis: 1 }
    }

    /// Sleeps meanwhile.
    pub(crate) fn take<R: Clock>(&mut self, rt: &R) {
        thread::sleep(rt, Duration::from_millis(self.millis));
        self.millis = self.millis.saturating_mul(2).min(LONGEST_LEAVE);
    }
}

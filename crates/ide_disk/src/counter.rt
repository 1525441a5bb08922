//! The calls of a disk in memory, and which of them are told to fail.
ghost use Rattle.std.specs.Prelude.{◌≡◌, None, Some, IsTrue, ◌↔◌};
ghost use Rattle.ide_disk.specs.Counter.{IsToldToFail};
ghost use Rattle.ide_disk.specs.Time.{next_count};

use crate::DeviceFault;

/// Counts calls and failures, up to the largest number of 64 bits.
#[derive(Drop)]
pub(crate) struct Counter {
    pub(crate) calls: u64,
    pub(crate) failures: u64,
    /// The call that fails alone.
    pub(crate) fail_at: Option<u64>,
    /// The first of the calls that all fail.
    pub(crate) stop_at: Option<u64>,
}

impl Counter {
    /// No call so far, and none told to fail.
    pub(crate) fn new() -> Self
        ensures { result ≡ record { calls = 0; failures = 0; fail_at = None; stop_at = None } }
    {
        Counter {
            calls: 0,
            failures: 0,
            fail_at: None,
            stop_at: None,
        }
    }

    /// Counts one call, and says whether it is told to fail.
    pub(crate) fn counts_call(&mut self) -> bool
        ensures told { IsTrue result ↔ IsToldToFail self.old (next_count self.old.calls) }
        ensures after { self.new ≡ record self.old { calls = next_count self.old.calls } }
    {
        self.calls = self.calls.saturating_add(1);
        let stopped = match self.stop_at {
            Some(first) => first <= self.calls,
            None => false,
        };
        stopped || self.fail_at == Some(self.calls)
    }

    /// Counts one failure.
    pub(crate) fn fault(&mut self) -> DeviceFault
        ensures { self.new ≡ record self.old { failures = next_count self.old.failures } }
    {
        self.failures = self.failures.saturating_add(1);
        DeviceFault
    }
}

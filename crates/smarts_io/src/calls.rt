ghost use Rattle.std.specs.Prelude.{◌≡◌, ◌+◌, ◌-◌, ◌^◌, ◌≤◌, ℕ, List};
ghost use Rattle.smarts_io.specs.Memory.{Calls, after_call, calls_of, is_named};

use std::marker::Model;

/// Calls of which chosen ones, counted from 0, are to fail.
#[derive(Drop)]
pub(crate) struct FailingCalls {
    failing: Vec<u32>,
    made: u64,
    faults: u64,
}

impl Model for FailingCalls {
    ghost Value = { Calls };

    ghost view = { λ c. record { failing = c.failing.items; made = c.made; faults = c.faults } };
}

impl FailingCalls {
    /// No call was made yet.
    pub(crate) fn new(failing: Vec<u32>) -> FailingCalls
        ensures { result ≡ calls_of failing.items }
    {
        FailingCalls {
            failing,
            made: 0,
            faults: 0,
        }
    }

    /// Whether the next call is one of those that fail.
    pub(crate) fn is_named(&self) -> bool
        ensures { result ≡ is_named self.now }
    {
        self.failing
            .iter()
            .any(|call| u64::from(*call) == self.made)
    }

    /// Counts a call that failed or not.
    pub(crate) fn count(&mut self, failed: bool)
        ensures after { self.new ≡ after_call failed self.old }
        ensures later { self.old.faults ≤ self.new.faults }
    {
        self.made = self.made.saturating_add(1);
        if failed {
            self.faults = self.faults.saturating_add(1);
        }
    }
}

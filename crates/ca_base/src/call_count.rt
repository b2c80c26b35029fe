//! The calls of a device in memory, and which of them fail.

ghost use Rattle.std.specs.Prelude.{◌≡◌, ◌≤◌, IsTrue, ◌↔◌};
ghost use Rattle.ca_base.specs.InMemory.{FailsNext, no_calls_yet, with_call, with_fault};

use std::marker::Model;

/// How many calls were made, how many of them failed, and the numbers of those that are to fail.
#[derive(Drop)]
pub(crate) struct CallCount {
    failing: Vec<u64>,
    made: u64,
    faults: u64,
}

impl Model for CallCount {
    ghost use Rattle.ca_base.specs.InMemory.{Calls};

    ghost Value = { Calls };

    ghost view = { λ s. record { failing = s.failing.items; made = s.made; faults = s.faults } };
}

impl CallCount {
    /// No call was made yet, and the calls with these numbers are to fail.
    pub(crate) fn new(failing: Vec<u64>) -> CallCount
        ensures { result ≡ no_calls_yet failing.items }
    {
        CallCount {
            failing,
            made: 0,
            faults: 0,
        }
    }

    /// Counts one call more, and answers whether it is to fail.
    pub(crate) fn next_fails(&mut self) -> bool
        ensures fails { IsTrue result ↔ FailsNext self.old }
        ensures counted { self.new ≡ with_call self.old }
    {
        self.made = self.made.saturating_add(1);
        self.failing.contains(&self.made)
    }

    /// Counts one fault more.
    pub(crate) fn add_fault(&mut self)
        ensures counted { self.new ≡ with_fault self.old }
        ensures later { self.old.faults ≤ self.new.faults }
    {
        self.faults = self.faults.saturating_add(1);
    }
}

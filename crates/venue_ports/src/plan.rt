//! The calls that are to fail, of an object in memory.

ghost use Rattle.std.specs.Prelude.{◌≡◌, ◌↔◌, IsTrue};
ghost use Rattle.venue_ports.specs.Plans.{Plan, FailsNext, called, fresh};

use std::marker::Model;

/// The numbers of the calls that are to fail, from 1, and how many there were.
#[derive(Drop)]
pub(crate) struct CallPlan {
    failing: Vec<u64>,
    calls: u64,
}

impl Model for CallPlan {
    ghost Value = { Plan };

    ghost view = { λ p. record { failing = p.failing.items; calls = p.calls } };
}

impl CallPlan {
    /// Before the first call.
    pub(crate) fn new(failing: Vec<u64>) -> CallPlan
        ensures { result ≡ fresh failing.items }
    {
        CallPlan { failing, calls: 0 }
    }

    /// Counts a call, and answers whether it is to fail.
    pub(crate) fn fails(&mut self) -> bool
        ensures fails { IsTrue result ↔ FailsNext self.old }
        ensures called { self.new ≡ called self.old }
    {
        self.calls = self.calls.saturating_add(1);
        self.failing.contains(&self.calls)
    }

    /// How many calls there were.
    pub(crate) fn calls(&self) -> u64
        ensures { result ≡ self.now.calls }
    {
        self.calls
    }
}

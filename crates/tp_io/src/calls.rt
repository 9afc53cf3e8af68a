// The calls of an object in memory, of which listed ones fail.
ghost use Rattle.std.specs.Prelude.{◌≡◌, ◌↔◌, IsTrue, IfOk, Contains, ◌+◌, ◌≤◌};
ghost use Rattle.tp_io.specs.Causes.{one_more};
ghost use Rattle.tp_io.specs.Calls.{FailsNext, no_calls, call_made};

use std::alloc::{AllocError, Global};
use std::marker::Model;

/// How many calls were made, the numbers of those that fail, from 1, and how
/// often one failed. Both counts stay at the greatest u64.
#[derive(Drop)]
pub struct CallCount {
    made: u64,
    failing: Vec<u64>,
    faults: u64,
}

impl Model for CallCount {
    ghost use Rattle.tp_io.specs.Calls.{Calls};

    ghost Value = { Calls };

    ghost view = { λ c. record { made = c.made; failing = c.failing.items; faults = c.faults } };
}

impl CallCount {
    /// No calls yet, of which those with these numbers will fail.
    pub fn new(alloc: Global, failing: &[u64]) -> Result<Self, AllocError>
        ensures value { IfOk result (λ c. c ≡ no_calls failing.now) }
    {
        Ok(CallCount {
            made: 0,
            failing: Vec::from_slice(alloc, failing)?,
            faults: 0,
        })
    }

    /// Counts a call, and tells whether it is one that fails.
    pub fn begin(&mut self) -> bool
        ensures made { self.new ≡ call_made self.old }
        ensures listed { IsTrue result ↔ FailsNext self.old }
    {
        let listed = is_listed(&self.failing, self.made);
        self.made = self.made.saturating_add(1);
        listed
    }

    /// Counts a fault.
    pub fn fault(&mut self)
        ensures faults { self.new ≡ record self.old { faults = one_more self.old.faults } }
        ensures never_falls { self.old.faults ≤ self.new.faults }
    {
        self.faults = self.faults.saturating_add(1);
    }
}

// Whether the call after so many is listed; one past every u64 isn't.
fn is_listed(failing: &[u64], made: u64) -> bool
    ensures listed { IsTrue result ↔ Contains failing.now (made + 1) }
{
    match made.checked_add(1) {
        Some(number) => failing.contains(&number),
        None => false,
    }
}

//! Calls that fail by plan.

ghost use Rattle.std.specs.Prelude.{◌≡◌, ◌↔◌, Contains, IsTrue, if◌then◌else◌};
ghost use Rattle.agent_link.specs.Counts.{Counted};
ghost use Rattle.agent_link.specs.Plans.{after_call, after_fault};

use std::marker::Model;

/// Which calls of a form over memory answer `Failed`, by their numbers from 0.
#[derive(Debug, Drop)]
pub struct FailPlan {
    fails: Vec<u64>,
    call: u64,
    faults: u64,
}

impl Model for FailPlan {
    ghost use Rattle.agent_link.specs.Plans.{Planned};

    ghost Value = { Planned };

    ghost view = { λ p. record { fails = p.fails.items; call = p.call; faults = p.faults } };
}

impl FailPlan {
    pub fn new(fails: Vec<u64>) -> Self
        ensures { result ≡ record { fails = fails.items; call = 0; faults = 0 } }
    {
        FailPlan {
            fails,
            call: 0,
            faults: 0,
        }
    }

    /// Counts a call, and answers whether it is one of those that fail.
    pub fn fails(&mut self) -> bool
        ensures fails { IsTrue result ↔ Contains self.old.fails self.old.call }
        ensures counted { self.new ≡ (if result then after_fault self.old else after_call self.old) }
        ensures cause { Counted (IsTrue result) self.old.faults self.new.faults }
    {
        let fails = self.fails.contains(&self.call);
        self.call = self.call.saturating_add(1);
        if fails {
            self.faults = self.faults.saturating_add(1);
        }
        fails
    }
}

//! A sink over memory.

ghost use Rattle.std.specs.Prelude.{◌≡◌, ◌<◌, ◌↔◌, [], length, Contains, Some, IfOk, IsErrOf};
ghost use Rattle.std.specs.Io.{WritesAtMost};
ghost use Rattle.std.specs.Io.KnownBytes.{WriteAppends};
ghost use Rattle.agent_link.specs.Counts.{counted, raised};

use crate::fault::Fault;
use crate::memory::plan::FailPlan;
use crate::sink::Sink;
use std::alloc::Global;
use std::marker::Model;

/// A sink over memory. It takes all that it is given.
#[derive(Debug, Drop)]
pub struct MemSink {
    bytes: Vec<u8>,
    plan: FailPlan,
}

impl Model for MemSink {
    ghost use Rattle.agent_link.specs.Plans.{Held};

    ghost Value = { Held };

    ghost view = { λ s. record { bytes = s.bytes.items; plan = s.plan } };
}

impl MemSink {
    /// An empty sink, of which the calls with these numbers, from 0, fail.
    pub fn new(alloc: Global, fails: Vec<u64>) -> Self
        ensures { result ≡ record { bytes = []; plan = record { fails = fails.items; call = 0; faults = 0 } } }
    {
        MemSink {
            bytes: Vec::new(alloc),
            plan: FailPlan::new(fails),
        }
    }

    /// What was written.
    pub fn bytes(&self) -> &[u8]
        ensures { result.now ≡ self.now.bytes }
    {
        self.bytes.as_slice()
    }
}

impl Sink for MemSink {
    ghost written = { λ s. Some s.bytes };

    ghost faults = { λ s. s.plan.faults };

    fn write(&mut self, bytes: &[u8]) -> Result<usize, Fault>
        ensures bound { WritesAtMost result bytes.now }
        ensures some { IfOk result (λ n. n ≡ length bytes.now) }
        ensures bytes { WriteAppends (Some self.old.bytes) (Some self.new.bytes) result bytes.now }
        ensures cause { self.new.plan.faults ≡ counted result self.old.plan.faults }
        ensures failed { IsErrOf result Fault.Failed ↔ Contains self.old.plan.fails self.old.plan.call }
        ensures calls { (self.new.plan.fails ≡ self.old.plan.fails) × (self.new.plan.call ≡ raised self.old.plan.call) }
    {
        if self.plan.fails() {
            return Err(Fault::Failed);
        }
        self.bytes.extend_from_slice(bytes)?;
        Ok(bytes.len())
    }
}

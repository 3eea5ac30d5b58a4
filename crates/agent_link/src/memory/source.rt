//! A source over bytes in memory.

ghost use Rattle.std.specs.Prelude.{◌≡◌, ◌<◌, ◌↔◌, length, take, drop, min, Contains, Some, IfOk, OnOk, OnErr, IsErrOf};
ghost use Rattle.std.specs.Io.{ReadsAtMost};
ghost use Rattle.std.specs.Io.KnownBytes.{ReadConsumes};
ghost use Rattle.agent_link.specs.Counts.{counted, raised};

use crate::fault::Fault;
use crate::memory::plan::FailPlan;
use crate::source::Source;
use std::marker::Model;

/// A source over bytes in memory. It gives as many as fit.
#[derive(Debug, Drop)]
pub struct MemSource {
    bytes: Vec<u8>,
    at: usize,
    plan: FailPlan,
}

impl Model for MemSource {
    ghost use Rattle.std.specs.Prelude.{◌≤◌, length, drop};
    ghost use Rattle.agent_link.specs.Plans.{Held};

    ghost Value = { Held };

    ghost view = { λ s. record { bytes = drop s.at s.bytes.items; plan = s.plan } };

    ghost invariant = { λ s. s.at ≤ length s.bytes.items };
}

impl MemSource {
    /// A source of these bytes, of which the calls with these numbers, from 0, fail.
    pub fn new(bytes: Vec<u8>, fails: Vec<u64>) -> Self
        ensures { result ≡ record { bytes = bytes.items; plan = record { fails = fails.items; call = 0; faults = 0 } } }
    {
        MemSource {
            bytes,
            at: 0,
            plan: FailPlan::new(fails),
        }
    }
}

impl Source for MemSource {
    ghost left = { λ s. Some s.bytes };

    ghost faults = { λ s. s.plan.faults };

    fn read(&mut self, buf: &mut [u8]) -> Result<usize, Fault>
        requires { 0 < length buf.old }
        ensures bound { ReadsAtMost result buf.new }
        ensures bytes { ReadConsumes (Some self.old.bytes) (Some self.new.bytes) result buf.new }
        ensures cause { self.new.plan.faults ≡ counted result self.old.plan.faults }
        ensures failed { IsErrOf result Fault.Failed ↔ Contains self.old.plan.fails self.old.plan.call }
        ensures calls { (self.new.plan.fails ≡ self.old.plan.fails) × (self.new.plan.call ≡ raised self.old.plan.call) }
        ensures count { IfOk result (λ n. n ≡ min (length self.old.bytes) (length buf.old)) }
    {
        if self.plan.fails() {
            return Err(Fault::Failed);
        }
        let (_, rest) = self.bytes.as_slice().split_at(self.at);
        let count = give(rest, buf);
        self.at += count;
        Ok(count)
    }
}

/// Copies as many of the bytes as fit into the front of `buf`, and answers how many.
pub(crate) fn give(bytes: &[u8], buf: &mut [u8]) -> usize
    ensures count { result ≡ min (length bytes.now) (length buf.old) }
    ensures len { length buf.new ≡ length buf.old }
    ensures front { take result buf.new ≡ take result bytes.now }
{
    let count = bytes.len().min(buf.len());
    buf[..count].copy_from_slice(&bytes[..count]);
    count
}

//! A bank over memory.

ghost use Rattle.std.specs.Prelude.{◌≡◌, ℕ, ◌+◌, ◌↔◌, List, length, true, false, Contains, IsSome, IsErrOf, OnOk, OnErr, IfErr, Some, None, if◌then◌else◌};
ghost use Rattle.std.specs.Option.{option_copied, option_map};
ghost use Rattle.std.specs.List.{slice_range};
ghost use Rattle.agent_link.specs.Counts.{Counted, raised};
ghost use Rattle.image_store.specs.Banks.{IsInside, Written, fresh_of, is_testing, after_create, created, after_activate, after_end, accepted, dropped};
ghost use Rattle.image_store.specs.Memory.{Memory, shape_of, contents_of};

use crate::bank::Bank;
use agent_link::{FailPlan, Fault};
use std::alloc::Global;
use std::marker::Model;

/// A bank over memory.
#[derive(Debug, Drop)]
pub struct MemoryBank {
    alloc: Global,
    kept: Option<Vec<u8>>,
    fresh: Option<Vec<u8>>,
    testing: bool,
    plan: FailPlan,
}

impl Model for MemoryBank {
    ghost use Rattle.std.specs.Option.{option_map};
    ghost use Rattle.image_store.specs.Memory.{Memory};

    ghost Value = { Memory };

    ghost view = { λ b. record {
      kept = option_map (λ v. v.items) b.kept;
      fresh = option_map (λ v. v.items) b.fresh;
      testing = b.testing;
      plan = b.plan;
    } };
}

impl MemoryBank {
    /// A bank without an image, of which the calls with these numbers, from 0, fail.
    pub fn new(alloc: Global, fails: Vec<u64>) -> Self
        ensures { result ≡ record { kept = None; fresh = None; testing = false; plan = record { fails = fails.items; call = 0; faults = 0 } } }
    {
        MemoryBank {
            alloc,
            kept: None,
            fresh: None,
            testing: false,
            plan: FailPlan::new(fails),
        }
    }

    /// A bank that keeps an image, of which the calls with these numbers, from 0, fail.
    pub fn with(alloc: Global, kept: Vec<u8>, fails: Vec<u64>) -> Self
        ensures { result ≡ record { kept = Some kept.items; fresh = None; testing = false; plan = record { fails = fails.items; call = 0; faults = 0 } } }
    {
        MemoryBank {
            alloc,
            kept: Some(kept),
            fresh: None,
            testing: false,
            plan: FailPlan::new(fails),
        }
    }

    /// The image that is kept.
    pub fn active(&self) -> Option<&[u8]>
        ensures { option_map (λ bytes. bytes.now) result ≡ self.now.kept }
    {
        match &self.kept {
            Some(bytes) => Some(bytes.as_slice()),
            None => None,
        }
    }

    /// The new image, where it is Testing.
    pub fn testing(&self) -> Option<&[u8]>
        ensures { option_map (λ bytes. bytes.now) result ≡ (if self.now.testing then self.now.fresh else None) }
    {
        match &self.fresh {
            Some(bytes) if self.testing => Some(bytes.as_slice()),
            _ => None,
        }
    }
}

impl Bank for MemoryBank {
    ghost use Rattle.image_store.specs.Memory.{agrees, shape_of, contents_of};

    ghost shape = { shape_of };

    ghost contents = { contents_of };

    ghost faults = { λ b. b.plan.faults };

    fn create(&mut self, size: u32) -> Result<(), Fault>
        ensures shape { shape_of self.new ≡ after_create result size (shape_of self.old) }
        ensures contents { contents_of self.new ≡ created result size (contents_of self.old) }
        ensures cause { Counted (IsErrOf result Fault.Failed) self.old.plan.faults self.new.plan.faults }
        ensures failed { IsErrOf result Fault.Failed ↔ Contains self.old.plan.fails self.old.plan.call }
        ensures calls { (self.new.plan.fails ≡ self.old.plan.fails) × (self.new.plan.call ≡ raised self.old.plan.call) }
    {
        if self.plan.fails() {
            return Err(Fault::Failed);
        }
        let bytes = Vec::from_elem(self.alloc, 0, size as usize)?;
        self.fresh = Some(bytes);
        self.testing = false;
        Ok(())
    }

    fn write_at(&mut self, at: u32, bytes: &[u8]) -> Result<(), Fault>
        requires inside { IsInside at (length bytes.now) (shape_of self.old) }
        requires idle { is_testing (shape_of self.old) ≡ false }
        ensures shape { shape_of self.new ≡ shape_of self.old }
        ensures contents { Written result at bytes.now (contents_of self.old) (contents_of self.new) }
        ensures cause { Counted (IsErrOf result Fault.Failed) self.old.plan.faults self.new.plan.faults }
        ensures failed { IsErrOf result Fault.Failed ↔ Contains self.old.plan.fails self.old.plan.call }
        ensures calls { (self.new.plan.fails ≡ self.old.plan.fails) × (self.new.plan.call ≡ raised self.old.plan.call) }
        ensures memory { IfErr result (λ e. e ≡ Fault.Failed) }
        ensures kept { OnErr result (contents_of self.new ≡ contents_of self.old) }
    {
        if self.plan.fails() {
            return Err(Fault::Failed);
        }
        if let Some(fresh) = &mut self.fresh {
            let start = at as usize;
            fresh[start..start + bytes.len()].copy_from_slice(bytes);
        }
        Ok(())
    }

    fn read_at(&mut self, at: u32, buf: &mut [u8]) -> Result<(), Fault>
        requires inside { IsInside at (length buf.old) (shape_of self.old) }
        ensures len { length buf.new ≡ length buf.old }
        ensures bytes { OnOk result ((bytes : List ℕ) → fresh_of (contents_of self.old) ≡ Some bytes → buf.new ≡ slice_range bytes at (at + length buf.old)) }
        ensures shape { shape_of self.new ≡ shape_of self.old }
        ensures contents { contents_of self.new ≡ contents_of self.old }
        ensures cause { Counted (IsErrOf result Fault.Failed) self.old.plan.faults self.new.plan.faults }
        ensures failed { IsErrOf result Fault.Failed ↔ Contains self.old.plan.fails self.old.plan.call }
        ensures calls { (self.new.plan.fails ≡ self.old.plan.fails) × (self.new.plan.call ≡ raised self.old.plan.call) }
        ensures memory { IfErr result (λ e. e ≡ Fault.Failed) }
    {
        if self.plan.fails() {
            return Err(Fault::Failed);
        }
        if let Some(fresh) = &self.fresh {
            let start = at as usize;
            buf.copy_from_slice(&fresh[start..start + buf.len()]);
        }
        Ok(())
    }

    fn activate(&mut self) -> Result<(), Fault>
        requires { IsSome (shape_of self.old) }
        ensures shape { shape_of self.new ≡ after_activate result (shape_of self.old) }
        ensures contents { contents_of self.new ≡ contents_of self.old }
        ensures cause { Counted (IsErrOf result Fault.Failed) self.old.plan.faults self.new.plan.faults }
        ensures failed { IsErrOf result Fault.Failed ↔ Contains self.old.plan.fails self.old.plan.call }
        ensures calls { (self.new.plan.fails ≡ self.old.plan.fails) × (self.new.plan.call ≡ raised self.old.plan.call) }
        ensures memory { IfErr result (λ e. e ≡ Fault.Failed) }
    {
        if self.plan.fails() {
            return Err(Fault::Failed);
        }
        self.testing = true;
        Ok(())
    }

    fn accept(&mut self) -> Result<(), Fault>
        requires { is_testing (shape_of self.old) ≡ true }
        ensures shape { shape_of self.new ≡ after_end result (shape_of self.old) }
        ensures contents { contents_of self.new ≡ accepted result (contents_of self.old) }
        ensures cause { Counted (IsErrOf result Fault.Failed) self.old.plan.faults self.new.plan.faults }
        ensures failed { IsErrOf result Fault.Failed ↔ Contains self.old.plan.fails self.old.plan.call }
        ensures calls { (self.new.plan.fails ≡ self.old.plan.fails) × (self.new.plan.call ≡ raised self.old.plan.call) }
        ensures memory { IfErr result (λ e. e ≡ Fault.Failed) }
    {
        if self.plan.fails() {
            return Err(Fault::Failed);
        }
        self.kept = self.fresh.take();
        Ok(())
    }

    fn reject(&mut self) -> Result<(), Fault>
        requires { is_testing (shape_of self.old) ≡ true }
        ensures shape { shape_of self.new ≡ after_end result (shape_of self.old) }
        ensures contents { contents_of self.new ≡ dropped result (contents_of self.old) }
        ensures cause { Counted (IsErrOf result Fault.Failed) self.old.plan.faults self.new.plan.faults }
        ensures failed { IsErrOf result Fault.Failed ↔ Contains self.old.plan.fails self.old.plan.call }
        ensures calls { (self.new.plan.fails ≡ self.old.plan.fails) × (self.new.plan.call ≡ raised self.old.plan.call) }
        ensures memory { IfErr result (λ e. e ≡ Fault.Failed) }
    {
        if self.plan.fails() {
            return Err(Fault::Failed);
        }
        self.fresh = None;
        Ok(())
    }

    fn abort(&mut self) -> Result<(), Fault>
        requires { IsSome (shape_of self.old) }
        ensures shape { shape_of self.new ≡ after_end result (shape_of self.old) }
        ensures contents { contents_of self.new ≡ dropped result (contents_of self.old) }
        ensures cause { Counted (IsErrOf result Fault.Failed) self.old.plan.faults self.new.plan.faults }
        ensures failed { IsErrOf result Fault.Failed ↔ Contains self.old.plan.fails self.old.plan.call }
        ensures calls { (self.new.plan.fails ≡ self.old.plan.fails) × (self.new.plan.call ≡ raised self.old.plan.call) }
        ensures memory { IfErr result (λ e. e ≡ Fault.Failed) }
    {
        if self.plan.fails() {
            return Err(Fault::Failed);
        }
        self.fresh = None;
        Ok(())
    }

    ghost agrees = { agrees };
}

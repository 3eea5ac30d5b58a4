//! A listener over memory, whose callers are tapes.

ghost use Rattle.std.specs.Prelude.{◌≡◌, ◌⊎◌, ◌↔◌, IsSome, IsTrue, IfSome, ◌<◌, ◌≤◌, ◌+◌, ◌-◌, ℕ, [], ◌∷◌, ◌++◌, length, take, drop, slice_index_or, Contains, Some, IfOk, OnOk, OnErr, IsErrOf};
ghost use Rattle.std.specs.List.{AllByRecursion};
ghost use Rattle.std.specs.Vec.{vec_len, vec_capacity};
ghost use Rattle.agent_link.specs.Counts.{counted, raised};
ghost use Rattle.broker_tape.specs.Playing.{Playing, unplayed};
ghost use Rattle.agent_listen.specs.Callers.{IsFresh, out_behind, with_caller};
ghost use Rattle.agent_listen.specs.Waiting.{Calls, Gives, IsCaller, IsPlanned, opened};

use crate::listen::Listen;
use agent_link::{FailPlan, Fault, Link};
use broker_tape::{Item, Tape, TapeLink};
use std::alloc::{AllocError, Global};
use std::marker::Model;

/// A listener over memory. It gives its callers in order, each with its connection open, and fails where none is left.
/// Those that came back stand in the room that the given ones left.
#[derive(Debug, Drop)]
pub struct MemListen {
    /// Those that are still to come, and behind them those that came back.
    callers: Vec<TapeLink>,
    /// How many are still to come.
    waiting: usize,
    out: u64,
    faults: u64,
    plan: FailPlan,
}

impl Model for MemListen {
    ghost use Rattle.std.specs.Prelude.{◌+◌, ◌≤◌, length, take, drop};
    ghost use Rattle.std.specs.List.{AllByRecursion};
    ghost use Rattle.std.specs.Vec.{vec_len, vec_capacity};
    ghost use Rattle.agent_listen.specs.Waiting.{Listening, IsCaller};

    ghost Value = { Listening };

    ghost view = { λ l. record {
      waiting = take l.waiting l.callers.items;
      served = drop l.waiting l.callers.items;
      out = l.out;
      faults = l.faults;
      plan = l.plan;
    } };

    ghost invariant = { λ l. (l.waiting ≤ length l.callers.items) × (vec_len l.callers + l.out ≤ vec_capacity l.callers) × AllByRecursion IsCaller (take l.waiting l.callers.items) };
}

impl MemListen {
    /// A listener to which these call, and whose calls of `bind` and `next` with these numbers, from 0, fail. Each
    /// caller wasn't played yet, and its tape begins with a connection.
    #[tactic(auto, using(crate::proofs::Queue::all_taken, crate::proofs::Queue::none_left, crate::proofs::Queue::all_callers))]
    pub fn new(callers: Vec<TapeLink>, fails: Vec<u64>) -> Self
        requires { AllByRecursion IsCaller callers.items }
        ensures { result ≡ record { waiting = callers.items; served = []; out = 0; faults = 0; plan = record { fails = fails.items; call = 0; faults = 0 } } }
    {
        MemListen {
            waiting: callers.len(),
            callers,
            out: 0,
            faults: 0,
            plan: FailPlan::new(fails),
        }
    }

    /// The callers that came back, in the order in which they came.
    pub fn served(&self) -> &[TapeLink]
        ensures { result.now ≡ self.now.served }
    {
        &self.callers[self.waiting..]
    }
}

impl Listen for MemListen {
    type Caller = TapeLink;

    ghost served = { λ l. Some l.served };

    ghost out = { λ l. l.out };

    ghost faults = { λ l. l.faults };

    fn bind(&mut self, _at: &str) -> Result<(), Fault>
        ensures served { Some self.new.served ≡ Some self.old.served }
        ensures out { self.new.out ≡ self.old.out }
        ensures cause { self.new.faults ≡ counted result self.old.faults }
        ensures waiting { self.new.waiting ≡ self.old.waiting }
        ensures failed { IsErrOf result Fault.Failed ↔ IsPlanned self.old }
        ensures calls { (self.new.plan.fails ≡ self.old.plan.fails) × (self.new.plan.call ≡ raised self.old.plan.call) }
    {
        if self.plan.fails() {
            self.faults = self.faults.saturating_add(1);
            return Err(Fault::Failed);
        }
        Ok(())
    }

    #[tactic(auto, using(crate::proofs::Queue::first_is, crate::proofs::Queue::others_are, crate::proofs::Queue::still_back))]
    fn next(&mut self) -> Result<TapeLink, Fault>
        ensures taken { IfOk result (λ caller. IsFresh (Some caller.taken)) }
        ensures given { IfOk result (λ caller. IsFresh (Some caller.given)) }
        ensures faults { IfOk result (λ caller. caller.faults ≡ 0) }
        ensures ends { IfOk result (λ caller. caller.ends ≡ 0) }
        ensures nothings { IfOk result (λ caller. caller.nothings ≡ 0) }
        ensures served { Some self.new.served ≡ Some self.old.served }
        ensures out { self.new.out ≡ out_behind result self.old.out }
        ensures cause { self.new.faults ≡ counted result self.old.faults }
        ensures gives { IfOk result (λ caller. Gives self.old caller self.new) }
        ensures kept { OnErr result (self.new.waiting ≡ self.old.waiting) }
        ensures failed { IsErrOf result Fault.Failed ↔ (IsPlanned self.old ⊎ (self.old.waiting ≡ [])) }
        ensures calls { (self.new.plan.fails ≡ self.old.plan.fails) × (self.new.plan.call ≡ raised self.old.plan.call) }
    {
        if self.plan.fails() || self.waiting == 0 {
            self.faults = self.faults.saturating_add(1);
            return Err(Fault::Failed);
        }
        let caller = take_first(&mut self.callers)?;
        self.waiting -= 1;
        self.out += 1;
        Ok(caller)
    }

    #[tactic(auto, using(crate::proofs::Queue::one_back, crate::proofs::Queue::still_waiting, crate::proofs::Queue::still_callers))]
    fn back(&mut self, caller: TapeLink)
        requires { 0 < self.old.out }
        ensures served { Some self.new.served ≡ with_caller (Some self.old.served) caller }
        ensures out { self.new.out ≡ self.old.out - 1 }
        ensures faults { self.new.faults ≡ self.old.faults }
        ensures waiting { self.new.waiting ≡ self.old.waiting }
    {
        self.callers.push_reserved(caller);
        self.out -= 1;
    }
}

/// A caller that a tape plays, where the tape begins with a connection.
pub fn caller(alloc: Global, tape: Tape) -> Option<TapeLink>
    ensures caller { IfSome result IsCaller }
    ensures plays { IfSome result (λ link. link ≡ unplayed tape) }
    ensures begins { IsSome result ↔ Calls tape }
{
    if begins_connection(&tape) {
        Some(TapeLink::new(alloc, tape))
    } else {
        None
    }
}

fn begins_connection(tape: &Tape) -> bool
    ensures { IsTrue result ↔ Calls tape.now }
{
    match tape.as_slice() {
        [Item::Open, ..] => true,
        _ => false,
    }
}

/// Opens the first caller, and takes it out of the list. Where memory runs out the list is as it was.
fn take_first(callers: &mut Vec<TapeLink>) -> Result<TapeLink, AllocError>
    requires some { 0 < vec_len callers.old }
    requires caller { (d : Playing) → IsCaller (slice_index_or callers.old.items 0 d) }
    ensures given { IfOk result (λ caller. (d : Playing) → caller ≡ opened (slice_index_or callers.old.items 0 d)) }
    ensures rest { OnOk result (callers.new.items ≡ drop 1 callers.old.items) }
    ensures capacity { vec_capacity callers.new ≡ vec_capacity callers.old }
    ensures err { OnErr result (callers.new.items ≡ callers.old.items) }
{
    open_first(callers)?;
    Ok(callers.remove(0))
}

fn open_first(callers: &mut Vec<TapeLink>) -> Result<(), AllocError>
    requires some { 0 < vec_len callers.old }
    requires caller { (d : Playing) → IsCaller (slice_index_or callers.old.items 0 d) }
    ensures opened { OnOk result ((d : Playing) → callers.new.items ≡ opened (slice_index_or callers.old.items 0 d) ∷ drop 1 callers.old.items) }
    ensures len { vec_len callers.new ≡ vec_len callers.old }
    ensures capacity { vec_capacity callers.new ≡ vec_capacity callers.old }
    ensures err { OnErr result (callers.new.items ≡ callers.old.items) }
{
    match callers[0].open("") {
        Ok(()) => Ok(()),
        Err(_) => Err(AllocError),
    }
}

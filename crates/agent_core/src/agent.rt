//! What the agent keeps, and its steps.

ghost use Rattle.std.specs.Prelude.{◌≡◌, ◌<◌, ◌≤◌, ◌+◌, [], ◌∷◌, List, true, length, Some, is_some, false, replicate, IfOk, IfErr};
ghost use Rattle.qos_state.specs.Deliveries as stages;
ghost use Rattle.subscriptions.specs.Routing as routes;
ghost use Rattle.agent_journal.specs.declared.entry.Entry.{Entry};
ghost use Rattle.agent_journal.specs.Readings.{pending_of};
ghost use Rattle.agent_journal.specs.Setups.{is_client};
ghost use Rattle.agent_table.specs.Histories.{effects_of, phase_by, due_by, phase_of, row, readings};
ghost use Rattle.agent_core.specs.After.{after};
ghost use Rattle.agent_core.specs.Kept.{readings_in, row_now, beginning};
ghost use Rattle.agent_core.specs.Stands.{StandsFor};

mod acknowledged;
mod arrived;
mod broken;
mod fresh;
mod messages;
mod restored;
mod resumed;
mod rows;
mod steps;
mod taken;
mod tasks;

use agent_journal::{Cause, Entry, OffBy, Phase, Setup, Why};
use pending_acks::PendingAcks;
use qos_state::QosState;
pub use restored::Situation;
use std::alloc::{AllocError, Global};
use std::marker::Model;
use subscriptions::Subscriptions;

/// The sequential agent. It keeps its setup and what the table reads off the journal so far, and
/// stands for each journal of which these are the readings.
#[derive(Debug, Drop)]
pub struct Core<const ACKS: usize, const IN: usize, const ROUTES: usize> {
    alloc: Global,
    setup: Setup,
    phase: Phase,
    last_time: u64,
    just_sent: bool,
    takes: Vec<u64>,
    left: Vec<bool>,
    breaks: u64,
    accepted: u64,
    pending: PendingAcks<ACKS>,
    qos: QosState<ACKS, IN>,
    subscriptions: Subscriptions<ROUTES>,
    last_drawn: u16,
    ping: Option<u64>,
    last_sent: Option<u64>,
    off: Option<OffBy>,
}

impl<const ACKS: usize, const IN: usize, const ROUTES: usize> Model for Core<ACKS, IN, ROUTES> {
    ghost use Rattle.std.specs.Prelude.{◌≡◌, ◌≤◌, ◌+◌, length};
    ghost use Rattle.agent_core.specs.Kept.{Kept, most_accepted};
    ghost use Rattle.agent_core.specs.Tied.{IsTied, IsBounded};

    ghost Value = { Kept };

    ghost view = { λ c. record {
      setup = c.setup;
      sizes = record { acks = ACKS; inbound = IN; routes = ROUTES };
      phase = c.phase;
      last_time = c.last_time;
      just_sent = c.just_sent;
      takes = c.takes.items;
      left = c.left.items;
      breaks = c.breaks;
      accepted = c.accepted;
      pending = c.pending;
      released = c.qos.released;
      held = c.qos.held;
      last_drawn = c.last_drawn;
      ping = c.ping;
      last_sent = c.last_sent;
      routing = c.subscriptions;
      off = c.off;
    } };

    ghost invariant = { λ c. (length c.takes.items ≡ c.setup.tasks) × (length c.left.items ≡ c.setup.tasks) × (c.breaks ≤ c.setup.reopen + 2) × (c.accepted ≤ most_accepted c.setup) × IsTied c.pending c.qos
        × IsBounded ACKS ROUTES c.subscriptions };
}

impl<const ACKS: usize, const IN: usize, const ROUTES: usize> Core<ACKS, IN, ROUTES> {
    /// The agent before its first entry. At most ACKS commands can be open, publishes at QoS 0 apart; IN
    /// identifiers of received QoS 2 publishes can be held; and there can be ROUTES pairs of a task and a
    /// filter. `setup.reopen` is at most 4,294,967,294, so that one more fits a u32, and the client has 1 to 128
    /// bytes from 21 to 7E hexadecimal. Where memory runs out the setup comes back.
    pub fn new(alloc: Global, setup: Setup) -> Result<Self, (Setup, AllocError)>
        requires sizes { (0 < ACKS) × (ACKS ≤ 1024) × (0 < IN) × (IN ≤ 1024) × (0 < ROUTES) × (ROUTES ≤ 1024) }
        requires tasks { (0 < setup.tasks) × (setup.tasks ≤ 8) }
        requires reopen { setup.reopen ≤ 4294967294 }
        requires client { is_client setup.client ≡ true }
        ensures setup { IfOk result (λ core. core.setup ≡ setup) }
        ensures stands { IfOk result (λ core. StandsFor core []) }
        ensures begins { IfOk result (λ core. core ≡ beginning setup (record { acks = ACKS; inbound = IN; routes = ROUTES })) }
        ensures err { IfErr result (λ e. e.0 ≡ setup) }
    {
        let tasks = setup.tasks as usize;
        match records(alloc, tasks) {
            Ok((takes, left, pending, qos, subscriptions)) => Ok(Core {
                alloc,
                setup,
                phase: Phase::Down,
                last_time: 0,
                just_sent: false,
                takes,
                left,
                breaks: 0,
                accepted: 0,
                pending,
                qos,
                subscriptions,
                last_drawn: 0,
                ping: None,
                last_sent: None,
                off: None,
            }),
            Err(e) => Err((setup, e)),
        }
    }

    /// Where the agent stands.
    #[tactic(auto, using(crate::proofs::Standing::phase_past))]
    pub fn phase(&self) -> Phase
        ensures now { result ≡ self.now.phase }
        ensures past { (past : List Entry) → StandsFor self.now past → result ≡ phase_of self.now.setup self.now.sizes past }
    {
        self.phase
    }

    /// How many commands are open.
    #[tactic(auto, using(crate::proofs::Standing::count_past))]
    pub fn open_count(&self) -> usize
        ensures now { result ≡ length self.now.pending }
        ensures past { (past : List Entry) → StandsFor self.now past → result ≡ length (pending_of past) }
    {
        self.pending.len()
    }

    /// Whether the table has a row for this cause at this time, in milliseconds.
    #[tactic(auto, using(crate::proofs::Timely::timely, crate::proofs::Timely::late, crate::proofs::Standing::may_past))]
    pub fn may(&self, at: u64, cause: &Cause) -> bool
        ensures now { result ≡ is_some (row_now self.now at cause.now) }
        ensures past { (past : List Entry) → StandsFor self.now past → result ≡ is_some (row self.now.setup self.now.sizes past at cause.now) }
    {
        self.last_time <= at && self.has_row(at, cause)
    }

    /// What is due at this time: the first of Finish, Broke KeepAlive, Tick, GaveUp and Broke InFull
    /// that has a row. It takes no memory.
    #[tactic(auto, using(crate::proofs::Timely::due_finish, crate::proofs::Timely::due_keep_alive, crate::proofs::Timely::due_tick, crate::proofs::Timely::due_gave_up, crate::proofs::Timely::due_in_full, crate::proofs::Timely::due_none, crate::proofs::Standing::due_past))]
    pub fn due(&self, now: u64) -> Option<Cause>
        ensures now { result ≡ due_by self.now.setup self.now.sizes (readings_in self.now) now }
        ensures past { (past : List Entry) → StandsFor self.now past → result ≡ due_by self.now.setup self.now.sizes (readings self.now.setup self.now.sizes past) now }
    {
        if self.may(now, &Cause::Finish) {
            Some(Cause::Finish)
        } else if self.may(
            now,
            &Cause::Broke {
                why: Why::KeepAlive,
            },
        ) {
            Some(Cause::Broke {
                why: Why::KeepAlive,
            })
        } else if self.may(now, &Cause::Tick) {
            Some(Cause::Tick)
        } else if self.may(now, &Cause::GaveUp) {
            Some(Cause::GaveUp)
        } else if self.may(now, &Cause::Broke { why: Why::InFull }) {
            Some(Cause::Broke { why: Why::InFull })
        } else {
            None
        }
    }

    /// Makes the entry of a cause at a time, in milliseconds. Where memory runs out the cause comes
    /// back, and nothing has changed.
    #[tactic(auto, using(crate::proofs::Timely::row_in_time, crate::proofs::Timely::effects_in_time, crate::proofs::Timely::after_in_time, crate::proofs::Standing::step_past))]
    pub fn step(&mut self, at: u64, cause: Cause) -> Result<Entry, (Cause, AllocError)>
        requires { is_some (row_now self.old at cause) ≡ true }
        ensures entry { IfOk result (λ e. (e.at ≡ at) × (e.cause ≡ cause)) }
        ensures effects { IfOk result (λ e. effects_of (row_now self.old at cause) ≡ Some e.effects) }
        ensures next { IfOk result (λ e. self.new ≡ after self.old at cause e.effects (phase_by (row_now self.old at cause) self.old.phase)) }
        ensures stands { IfOk result (λ e. (past : List Entry) → StandsFor self.old past → StandsFor self.new (e ∷ past)) }
        ensures err { IfErr result (λ e. (e.0 ≡ cause) × (self.new ≡ self.old)) }
    {
        match self.enter(at, &cause) {
            Ok(effects) => Ok(Entry { at, cause, effects }),
            Err(e) => Err((cause, e)),
        }
    }
}

/// What `new` takes memory for: the counts of each task, and the empty records.
fn records<const ACKS: usize, const IN: usize, const ROUTES: usize>(
    alloc: Global,
    tasks: usize,
) -> Result<
    (
        Vec<u64>,
        Vec<bool>,
        PendingAcks<ACKS>,
        QosState<ACKS, IN>,
        Subscriptions<ROUTES>,
    ),
    AllocError,
>
    requires sizes { (0 < ACKS) × (ACKS ≤ 1024) × (0 < IN) × (IN ≤ 1024) × (0 < ROUTES) × (ROUTES ≤ 1024) }
    ensures { IfOk result (λ r. (r.0.items ≡ replicate tasks 0) × (r.1.items ≡ replicate tasks false) × (r.2 ≡ []) × (r.3 ≡ stages.nothing) × (r.4 ≡ routes.nothing)) }
{
    Ok((
        vec![in alloc; 0u64; tasks]?,
        vec![in alloc; false; tasks]?,
        PendingAcks::new(alloc)?,
        QosState::new(alloc)?,
        Subscriptions::new(alloc)?,
    ))
}

//! The script's lines in a run: which are passed over, and what is taken.

ghost use Rattle.std.specs.Prelude.{◌≡◌, ℕ, ◌+◌, ◌-◌, ◌*◌, ◌^◌, ◌<◌, ◌≤◌, List, IfSome, OnOk};
ghost use Rattle.agent_script.specs.declared.script.Line.{Line as ScriptLine};
ghost use Rattle.replay_rounds.specs.Lines as taking;
ghost use Rattle.replay_agent.specs.Takes.{asked_behind, told_by, Stops};

use crate::run::Run;
use agent_core::Core;
use agent_journal::{Cause, Request};
use agent_script::{Line, Script, Step};
use list_types::Copied;
use mqtt_packet::NoMemory;

/// What decides which lines are passed over: whether nothing is open, how many messages came, and whether there will be
/// no more.
#[derive(Clone, Copy, Debug)]
struct Told {
    settled: bool,
    messages: u128,
    closed: bool,
}

impl Run {
    ghost use Rattle.replay_agent.specs.Runs.{world, IsSound};

    /// In Up: passes lines over, and then takes a request, or Leave behind the last line, or receives.
    #[tactic(auto, unfolding(replay_rounds::specs::Lines::takes))]
    pub(crate) fn take<const ACKS: usize, const IN: usize, const ROUTES: usize>(
        &mut self,
        core: &mut Core<ACKS, IN, ROUTES>,
        script: &Script,
        now: u64,
    ) -> Result<(), NoMemory>
        requires sound { IsSound core.old self.old }
        requires room { self.old.notes.taken < 2 ^ 32 - 1 }
        ensures sound { OnOk result (IsSound core.new self.new) }
        ensures acted { OnOk result (world core.new self.new script.now.lines ≡ taking.takes (world core.old self.old script.now.lines) now) }
    {
        let told = Told {
            settled: core.open_count() == 0,
            messages: self.notes.messages,
            closed: self.notes.closed,
        };
        let (gone, listened) = pass_over(script.lines.as_slice(), self.gone, self.listened, told);
        self.gone = gone;
        self.listened = listened;
        match script.lines.as_slice().get(self.gone) {
            Some(
                Line {
                    step: Step::Do(request),
                    ..
                },
            ) => {
                self.gone += 1;
                self.submit(core, now, request.copy(self.alloc)?)
            }
            Some(_) => self.receive(core, now),
            None => {
                if told.settled {
                    self.submit(core, now, Request::Leave)
                } else {
                    self.receive(core, now)
                }
            }
        }
    }

    /// In Off: passes lines over that ask for nothing, and takes the next request, or Leave behind the last line.
    #[tactic(auto, unfolding(replay_rounds::specs::Lines::ends))]
    pub(crate) fn end<const ACKS: usize, const IN: usize, const ROUTES: usize>(
        &mut self,
        core: &mut Core<ACKS, IN, ROUTES>,
        script: &Script,
        now: u64,
    ) -> Result<(), NoMemory>
        requires sound { IsSound core.old self.old }
        requires room { self.old.notes.taken < 2 ^ 32 - 1 }
        ensures sound { OnOk result (IsSound core.new self.new) }
        ensures acted { OnOk result (world core.new self.new script.now.lines ≡ taking.ends (world core.old self.old script.now.lines) now) }
    {
        let told = Told {
            settled: true,
            messages: 0,
            closed: true,
        };
        let (gone, listened) = pass_over(script.lines.as_slice(), self.gone, self.listened, told);
        self.gone = gone;
        self.listened = listened;
        match script.lines.as_slice().get(self.gone) {
            Some(
                Line {
                    step: Step::Do(request),
                    ..
                },
            ) => {
                self.gone += 1;
                self.submit(core, now, request.copy(self.alloc)?)
            }
            Some(_) => {
                self.gone += 1;
                Ok(())
            }
            None => self.submit(core, now, Request::Leave),
        }
    }

    /// The task's next request.
    fn submit<const ACKS: usize, const IN: usize, const ROUTES: usize>(
        &mut self,
        core: &mut Core<ACKS, IN, ROUTES>,
        now: u64,
        request: Request,
    ) -> Result<(), NoMemory>
        requires sound { IsSound core.old self.old }
        requires room { self.old.notes.taken < 2 ^ 32 - 1 }
        ensures sound { OnOk result (IsSound core.new self.new) }
        ensures acted { OnOk result ((lines : List ScriptLine) → world core.new self.new lines ≡ taking.submits (world core.old self.old lines) now request) }
    {
        let cause = Cause::Take {
            task: 0,
            seq: self.notes.taken,
            request,
        };
        self.enter(core, now, cause)
    }
}

/// Which line is the next that isn't passed over, from `gone` on, and for how many messages those in front of it ask.
#[tactic(auto, using(crate::proofs::Passes::passes_more, crate::proofs::Passes::stops_at, crate::proofs::Passes::stops_end, crate::proofs::Passes::passes_none))]
fn pass_over(lines: &[Line], gone: usize, listened: u128, told: Told) -> (usize, u128)
    requires few { listened ≤ gone * 2 ^ 32 }
    ensures few { result.1 ≤ result.0 * 2 ^ 32 }
    ensures passed { Stops (told_by told) lines.now gone listened result.0 result.1 }
{
    let mut next = gone;
    let mut asked = listened;
    while next < lines.len() {
        match asked_behind(&lines[next].step, asked, told) {
            Some(more) => asked = more,
            None => return (next, asked),
        }
        next += 1;
    }
    (next, asked)
}

/// Where a line is passed over: for how many messages the lines up to it ask together.
fn asked_behind(step: &Step, asked: u128, told: Told) -> Option<u128>
    requires { asked < 2 ^ 96 }
    ensures asked { result ≡ asked_behind (told_by told) asked step.now }
    ensures few { IfSome result (λ more. more ≤ asked + 2 ^ 32) }
{
    match step {
        Step::Do(_) => None,
        Step::Shadow { .. } | Step::Jobs { .. } => Some(asked),
        Step::Wait => { if told.settled { Some(asked) } else { None } }
        Step::Listen(count) => {
            let more = asked + u128::from(*count);
            if told.closed || more <= told.messages {
                Some(more)
            } else {
                None
            }
        }
    }
}

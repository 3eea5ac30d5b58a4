//! Events of the agent.

ghost use Rattle.std.specs.Prelude.{◌≡◌, ℕ, ◌<◌, IfOk, IfErr};
ghost use Rattle.agent_journal.specs.declared.entry.Cause.TheVariants as c;
ghost use Rattle.agent_journal.specs.declared.request.Request.{Request};
ghost use Rattle.session_world.specs.declared.event.Event.TheVariants as v;
ghost use Rattle.session_world.specs.Kept.{Plays, Stood};
ghost use Rattle.session_world.specs.Playing as playing;

use crate::event::{Event, Played};
use crate::parts::Parts;
use agent_core::Phase;
use agent_journal::{Cause, Request};
use mqtt_packet::NoMemory;

impl Parts {
    ghost use Rattle.session_world.specs.Viewed.{kept_in};

    /// The task's next request is taken, in Up.
    pub(super) fn take(&mut self, request: Request) -> Result<Played, (Event, NoMemory)>
        requires stood { Stood (kept_in self.old) }
        requires few { self.old.events < 4000000000 }
        ensures plays { IfOk result (λ said. Plays (kept_in self.old) (v.Take request) said (kept_in self.new)) }
        ensures events { self.new.events ≡ self.old.events }
        ensures err { IfErr result (λ e. (e.0 ≡ v.Take request) × (kept_in self.new ≡ kept_in self.old)) }
    {
        if !is_up(self.core.phase()) {
            return Ok(Played::Skipped);
        }
        let cause = Cause::Take {
            task: 0,
            seq: self.notes.takes,
            request,
        };
        match self.enter(cause) {
            Ok(()) => Ok(Played::Yes),
            Err((cause, e)) => Err((given_back(cause), e)),
        }
    }

    /// The first packet that is under way to the agent arrives, in Opening and Up.
    pub(super) fn deliver_down(&mut self) -> Result<Played, (Event, NoMemory)>
        requires stood { Stood (kept_in self.old) }
        requires few { self.old.events < 4000000000 }
        ensures plays { IfOk result (λ said. Plays (kept_in self.old) v.DeliverDown said (kept_in self.new)) }
        ensures events { self.new.events ≡ self.old.events }
        ensures err { IfErr result (λ e. (e.0 ≡ v.DeliverDown) × (kept_in self.new ≡ kept_in self.old)) }
    {
        if !is_connected(self.core.phase()) {
            return Ok(Played::Skipped);
        }
        let Some(packet) = self.down.pop() else {
            return Ok(Played::Skipped);
        };
        match self.enter(Cause::Arrived { packet }) {
            Ok(()) => Ok(Played::Yes),
            Err((cause, e)) => {
                if let Cause::Arrived { packet } = cause {
                    self.down.put_back(packet);
                }
                Err((Event::DeliverDown, e))
            }
        }
    }

    /// The agent opens a connection, in Down.
    pub(super) fn reopen(&mut self) -> Result<Played, (Event, NoMemory)>
        requires stood { Stood (kept_in self.old) }
        requires few { self.old.events < 4000000000 }
        ensures plays { IfOk result (λ said. Plays (kept_in self.old) v.Reopen said (kept_in self.new)) }
        ensures events { self.new.events ≡ self.old.events }
        ensures err { IfErr result (λ e. (e.0 ≡ v.Reopen) × (kept_in self.new ≡ kept_in self.old)) }
    {
        if !is_down(self.core.phase()) {
            return Ok(Played::Skipped);
        }
        match self.enter(Cause::Opened) {
            Ok(()) => Ok(Played::Yes),
            Err((_, e)) => Err((Event::Reopen, e)),
        }
    }

    /// The agent does what is due.
    pub(super) fn tick(&mut self) -> Result<Played, (Event, NoMemory)>
        requires stood { Stood (kept_in self.old) }
        requires few { self.old.events < 4000000000 }
        ensures plays { IfOk result (λ said. Plays (kept_in self.old) v.Tick said (kept_in self.new)) }
        ensures events { self.new.events ≡ self.old.events }
        ensures err { IfErr result (λ e. (e.0 ≡ v.Tick) × (kept_in self.new ≡ kept_in self.old)) }
    {
        let Some(cause) = self.core.due(self.time()) else {
            return Ok(Played::Skipped);
        };
        match self.enter(cause) {
            Ok(()) => Ok(Played::Yes),
            Err((_, e)) => Err((Event::Tick, e)),
        }
    }

    /// The connection breaks, in Opening and Up.
    pub(super) fn break_off(&mut self) -> Result<Played, (Event, NoMemory)>
        requires stood { Stood (kept_in self.old) }
        requires few { self.old.events < 4000000000 }
        ensures plays { IfOk result (λ said. Plays (kept_in self.old) v.Break said (kept_in self.new)) }
        ensures events { self.new.events ≡ self.old.events }
        ensures err { IfErr result (λ e. (e.0 ≡ v.Break) × (kept_in self.new ≡ kept_in self.old)) }
    {
        if !is_connected(self.core.phase()) {
            return Ok(Played::Skipped);
        }
        if let Err(e) = self.fault() {
            return Err((Event::Break, e));
        }
        self.empty();
        self.breaks += 1;
        Ok(Played::Yes)
    }
}

/// The Take that there was no memory for.
fn given_back(cause: Cause) -> Event
    ensures { (task seq : ℕ) (request : Request) → cause ≡ c.Take task seq request → result ≡ v.Take request }
{
    match cause {
        Cause::Take { request, .. } => Event::Take(request),
        _ => Event::Tick,
    }
}

fn is_up(phase: Phase) -> bool
    ensures { result ≡ playing.is_up phase }
{
    match phase {
        Phase::Up => true,
        Phase::Down | Phase::Opening | Phase::Spilled | Phase::Off => false,
    }
}

fn is_connected(phase: Phase) -> bool
    ensures { result ≡ playing.is_connected phase }
{
    match phase {
        Phase::Opening | Phase::Up => true,
        Phase::Down | Phase::Spilled | Phase::Off => false,
    }
}

fn is_down(phase: Phase) -> bool
    ensures { result ≡ playing.is_down phase }
{
    match phase {
        Phase::Down => true,
        Phase::Opening | Phase::Up | Phase::Spilled | Phase::Off => false,
    }
}

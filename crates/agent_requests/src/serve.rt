//! One step of an agent: the first of what there is to do.

ghost use Rattle.std.specs.Prelude.{◌≡◌, ◌⊎◌, ℕ, ◌≤◌, ◌<◌, true, false, None, Some, Ok, OnOk, IfOk, IfErr, length};
ghost use Rattle.agent_journal.specs.declared.setup.Phase.TheVariants.{Down, Opening, Up, Off};
ghost use Rattle.agent_journal.specs.Readings.{last_time_of, has_left};
ghost use Rattle.agent_table.specs.Ties.{listens};
ghost use Rattle.agent_link.specs.Counts.{raised};
ghost use Rattle.agent_line.specs.Recorded.{phase_in, due_in, Grows};
ghost use Rattle.agent_requests.specs.declared.answers.Popped.{Popped};
ghost use Rattle.agent_requests.specs.Intake.{StaysTied, IsServed, takes_now, Pops, popped_by, WasBusy, FoundEmpty, Works, Answers, FallsShort};

use crate::answers::{Popped, Served, Short};
use crate::intake::Intake;
use agent_journal::Phase;
use agent_line::{Came, Telling};
use agent_link::Link;
use agent_posts::Shown;
use front_board::Named;
use std::sync::Wait;

impl<J: Named, const QUEUE: usize, const ACKS: usize, const IN: usize, const ROUTES: usize> Intake<
    J,
    QUEUE,
    ACKS,
    IN,
    ROUTES,
> {
    /// Does the first of these that there is to do: what is due; in Down, an opening; in Opening and Up, one receive; and in Up,
    /// behind that receive, and in Off, one request is taken. `now` is the time of what is entered, in milliseconds. Where memory
    /// ran out, the journal is legal still.
    pub fn serve<R: Wait, L: Link>(
        &mut self,
        rt: &R,
        link: &mut L,
        shown: &mut Shown<J>,
        now: u64,
    ) -> Result<Served, Short>
        requires served { IsServed self.old }
        requires time { last_time_of self.old.recorded.past ≤ now }
        requires raised { shown.old ≤ length self.old.recorded.past }
        ensures tied { OnOk result (StaysTied self.old (⟦<L as Telling>⟧.told link.old) self.new (⟦<L as Telling>⟧.told link.new)) }
        ensures served { OnOk result (IsServed self.new) }
        ensures works { Works now self.old self.new }
        ensures popped { IfOk result (λ answer. Pops (popped_by answer) self.old.receiver self.new.receiver) }
        ensures answers { IfOk result (λ answer. Answers J.board now self.old (⟦<L as Telling>⟧.told link.old) self.new (⟦<L as Telling>⟧.told link.new) answer) }
        ensures short { IfErr result (FallsShort now self.old self.new) }
        ensures shown { shown.new ≡ shown.old }
    {
        match self.do_due(link, now) {
            Ok(true) => return Ok(Served::Worked(None)),
            Ok(false) => {}
            Err(_) => return Err(Short { popped: None }),
        }
        match self.recorder().phase() {
            Phase::Down => self.reopen(link, now),
            Phase::Opening => self.wait(link, now),
            Phase::Up => self.work(rt, link, shown, now),
            Phase::Off => self.rest(rt, link, shown, now),
            // The whole of what is held back is due then.
            Phase::Spilled => unreachable!(),
        }
    }

    /// In Down: a connection is opened, or fails.
    fn reopen<L: Link>(&mut self, link: &mut L, now: u64) -> Result<Served, Short>
        requires down { phase_in self.old.recorded ≡ Down }
        requires time { last_time_of self.old.recorded.past ≤ now }
        requires none_due { due_in self.old.recorded now ≡ None }
        ensures tied { OnOk result (StaysTied self.old (⟦<L as Telling>⟧.told link.old) self.new (⟦<L as Telling>⟧.told link.new)) }
        ensures served { IsServed self.old → IsServed self.new }
        ensures works { Works now self.old self.new }
        ensures popped { IfOk result (λ answer. Pops (popped_by answer) self.old.receiver self.new.receiver) }
        ensures answers { IfOk result (λ answer. Answers J.board now self.old (⟦<L as Telling>⟧.told link.old) self.new (⟦<L as Telling>⟧.told link.new) answer) }
        ensures short { IfErr result (FallsShort now self.old self.new) }
    {
        match self.open(link, now) {
            Ok(_) => Ok(Served::Worked(None)),
            Err(_) => Err(Short { popped: None }),
        }
    }

    /// In Opening: nothing is taken before the broker has accepted.
    fn wait<L: Link>(&mut self, link: &mut L, now: u64) -> Result<Served, Short>
        requires opening { phase_in self.old.recorded ≡ Opening }
        requires time { last_time_of self.old.recorded.past ≤ now }
        requires none_due { due_in self.old.recorded now ≡ None }
        ensures tied { OnOk result (StaysTied self.old (⟦<L as Telling>⟧.told link.old) self.new (⟦<L as Telling>⟧.told link.new)) }
        ensures served { IsServed self.old → IsServed self.new }
        ensures works { Works now self.old self.new }
        ensures popped { IfOk result (λ answer. Pops (popped_by answer) self.old.receiver self.new.receiver) }
        ensures answers { IfOk result (λ answer. Answers J.board now self.old (⟦<L as Telling>⟧.told link.old) self.new (⟦<L as Telling>⟧.told link.new) answer) }
        ensures short { IfErr result (FallsShort now self.old self.new) }
    {
        if self.listen(link, now)? {
            Ok(Served::Worked(None))
        } else {
            Ok(Served::Idle)
        }
    }

    /// In Up: a receive, and then a request.
    fn work<R: Wait, L: Link>(
        &mut self,
        rt: &R,
        link: &mut L,
        shown: &mut Shown<J>,
        now: u64,
    ) -> Result<Served, Short>
        requires up { phase_in self.old.recorded ≡ Up }
        requires served { IsServed self.old }
        requires time { last_time_of self.old.recorded.past ≤ now }
        requires none_due { due_in self.old.recorded now ≡ None }
        requires raised { shown.old ≤ length self.old.recorded.past }
        ensures tied { OnOk result (StaysTied self.old (⟦<L as Telling>⟧.told link.old) self.new (⟦<L as Telling>⟧.told link.new)) }
        ensures served { OnOk result (IsServed self.new) }
        ensures works { Works now self.old self.new }
        ensures popped { IfOk result (λ answer. Pops (popped_by answer) self.old.receiver self.new.receiver) }
        ensures answers { IfOk result (λ answer. Answers J.board now self.old (⟦<L as Telling>⟧.told link.old) self.new (⟦<L as Telling>⟧.told link.new) answer) }
        ensures short { IfErr result (FallsShort now self.old self.new) }
        ensures shown { shown.new ≡ shown.old }
    {
        if self.listen(link, now)? {
            let popped = self.take_behind(rt, link, shown, now)?;
            return Ok(Served::Worked(popped));
        }
        match self.accept(rt, link, shown, now)? {
            Some(popped) => Ok(Served::Worked(Some(popped))),
            None => Ok(Served::Idle),
        }
    }

    /// Behind a receive that brought something: takes one request, where the phase is still one for it.
    fn take_behind<R: Wait, L: Link>(
        &mut self,
        rt: &R,
        link: &mut L,
        shown: &mut Shown<J>,
        now: u64,
    ) -> Result<Option<Popped>, Short>
        requires served { IsServed self.old }
        requires time { last_time_of self.old.recorded.past ≤ now }
        requires raised { shown.old ≤ length self.old.recorded.past }
        ensures tied { OnOk result (StaysTied self.old (⟦<L as Telling>⟧.told link.old) self.new (⟦<L as Telling>⟧.told link.new)) }
        ensures served { OnOk result (IsServed self.new) }
        ensures works { Works now self.old self.new }
        ensures popped { IfOk result (λ popped. Pops popped self.old.receiver self.new.receiver) }
        ensures longer { OnOk result ((length self.old.recorded.past < length self.new.recorded.past) ⊎ (⟦<L as Telling>⟧.told link.new ≡ ⟦<L as Telling>⟧.told link.old)) }
        ensures short { IfErr result (FallsShort now self.old self.new) }
        ensures shown { shown.new ≡ shown.old }
    {
        if !is_taking(self.recorder().phase()) {
            return Ok(None);
        }
        self.accept(rt, link, shown, now)
    }

    /// In Off: a request, until each task has left.
    fn rest<R: Wait, L: Link>(
        &mut self,
        rt: &R,
        link: &mut L,
        shown: &mut Shown<J>,
        now: u64,
    ) -> Result<Served, Short>
        requires off { phase_in self.old.recorded ≡ Off }
        requires served { IsServed self.old }
        requires time { last_time_of self.old.recorded.past ≤ now }
        requires none_due { due_in self.old.recorded now ≡ None }
        requires raised { shown.old ≤ length self.old.recorded.past }
        ensures tied { OnOk result (StaysTied self.old (⟦<L as Telling>⟧.told link.old) self.new (⟦<L as Telling>⟧.told link.new)) }
        ensures served { OnOk result (IsServed self.new) }
        ensures works { Works now self.old self.new }
        ensures popped { IfOk result (λ answer. Pops (popped_by answer) self.old.receiver self.new.receiver) }
        ensures answers { IfOk result (λ answer. Answers J.board now self.old (⟦<L as Telling>⟧.told link.old) self.new (⟦<L as Telling>⟧.told link.new) answer) }
        ensures short { IfErr result (FallsShort now self.old self.new) }
        ensures shown { shown.new ≡ shown.old }
    {
        if self.have_left() {
            return Ok(Served::Ended);
        }
        match self.accept(rt, link, shown, now)? {
            Some(popped) => Ok(Served::Worked(Some(popped))),
            None => Ok(Served::Idle),
        }
    }

    /// Receives once, and answers whether an entry was made or bytes came.
    fn listen<L: Link>(&mut self, link: &mut L, now: u64) -> Result<bool, Short>
        requires listens { listens (phase_in self.old.recorded) ≡ true }
        requires time { last_time_of self.old.recorded.past ≤ now }
        ensures tied { OnOk result (StaysTied self.old (⟦<L as Telling>⟧.told link.old) self.new (⟦<L as Telling>⟧.told link.new)) }
        ensures served { IsServed self.old → IsServed self.new }
        ensures same { self.new.receiver ≡ self.old.receiver }
        ensures grown { Grows now self.old.recorded self.new.recorded }
        ensures busy { result ≡ Ok true → WasBusy self.old (⟦<L as Telling>⟧.told link.old) self.new (⟦<L as Telling>⟧.told link.new) }
        ensures quiet { result ≡ Ok false → (L.nothings link.new ≡ raised (L.nothings link.old)) × (self.new.recorded ≡ self.old.recorded) }
        ensures short { IfErr result (λ e. e.popped ≡ None) }
    {
        let before = self.recorder().len();
        match self.receive(link, now) {
            Ok(Came::Bytes | Came::Gone) => Ok(true),
            Ok(Came::Nothing) => Ok(before < self.recorder().len()),
            Err(_) => Err(Short { popped: None }),
        }
    }

    /// Takes one request, where there is one.
    fn accept<R: Wait, L: Link>(
        &mut self,
        rt: &R,
        link: &mut L,
        shown: &mut Shown<J>,
        now: u64,
    ) -> Result<Option<Popped>, Short>
        requires served { IsServed self.old }
        requires time { last_time_of self.old.recorded.past ≤ now }
        requires phase { takes_now (phase_in self.old.recorded) ≡ true }
        requires raised { shown.old ≤ length self.old.recorded.past }
        ensures tied { OnOk result (StaysTied self.old (⟦<L as Telling>⟧.told link.old) self.new (⟦<L as Telling>⟧.told link.new)) }
        ensures served { OnOk result (IsServed self.new) }
        ensures works { Works now self.old self.new }
        ensures popped { IfOk result (λ popped. Pops popped self.old.receiver self.new.receiver) }
        ensures taken { (p : Popped) → result ≡ Ok (Some p) → length self.old.recorded.past < length self.new.recorded.past }
        ensures none { result ≡ Ok None → FoundEmpty J.board self.old.receiver self.new.receiver × (self.new.recorded ≡ self.old.recorded) × (⟦<L as Telling>⟧.told link.new ≡ ⟦<L as Telling>⟧.told link.old) }
        ensures short { IfErr result (FallsShort now self.old self.new) }
        ensures shown { shown.new ≡ shown.old }
    {
        match self.take(rt, link, shown, now) {
            Ok(popped) => Ok(popped),
            Err(popped) => Err(Short {
                popped: Some(popped),
            }),
        }
    }

    /// Whether each task has left.
    fn have_left(&self) -> bool
        ensures all { result ≡ true → (t : ℕ) → t < self.now.recorded.setup.tasks → has_left t self.now.recorded.past ≡ true }
    {
        let recorder = self.recorder();
        for task in 0..recorder.setup().tasks {
            if !recorder.has_left(task) {
                return false;
            }
        }
        true
    }
}

/// Whether requests are taken in a phase.
fn is_taking(phase: Phase) -> bool
    ensures { result ≡ takes_now phase }
{
    match phase {
        Phase::Up | Phase::Off => true,
        Phase::Down | Phase::Opening | Phase::Spilled => false,
    }
}

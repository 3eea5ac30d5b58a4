//! The other steps of an agent: what is due, openings and receives.

ghost use Rattle.std.specs.Prelude.{◌≡◌, ℕ, ◌≤◌, true, false, None, Ok, OnOk, OnErr};
ghost use Rattle.agent_journal.specs.declared.entry.Cause.{Cause};
ghost use Rattle.agent_journal.specs.declared.entry.Cause.TheVariants as causes;
ghost use Rattle.agent_journal.specs.declared.entry.Why.{Why};
ghost use Rattle.agent_journal.specs.declared.entry.Why.TheVariants as reasons;
ghost use Rattle.agent_journal.specs.declared.setup.Phase.TheVariants.{Down};
ghost use Rattle.agent_journal.specs.Readings.{last_time_of};
ghost use Rattle.agent_table.specs.Ties.{listens};
ghost use Rattle.agent_link.specs.Counts.{raised};
ghost use Rattle.agent_line.specs.declared.line.receive.Came.TheVariants as Came;
ghost use Rattle.agent_line.specs.Entered.{one_more, idled};
ghost use Rattle.agent_line.specs.Recorded.{phase_in, due_in, Makes, Grows, Enters};
ghost use Rattle.agent_line.specs.Told.{GaveMore};
ghost use Rattle.agent_requests.specs.Intake.{StaysTied, IsServed};

use crate::intake::Intake;
use agent_line::{Came, Telling};
use agent_link::Link;
use front_board::Named;
use mqtt_packet::NoMemory;

impl<J: Named, const QUEUE: usize, const ACKS: usize, const IN: usize, const ROUTES: usize> Intake<
    J,
    QUEUE,
    ACKS,
    IN,
    ROUTES,
> {
    /// Does what is due, and answers whether something was.
    pub fn do_due<L: Link>(&mut self, link: &mut L, now: u64) -> Result<bool, NoMemory>
        ensures tied { OnOk result (StaysTied self.old (⟦<L as Telling>⟧.told link.old) self.new (⟦<L as Telling>⟧.told link.new)) }
        ensures served { IsServed self.old → IsServed self.new }
        ensures same { self.new.receiver ≡ self.old.receiver }
        ensures due { result ≡ Ok true → (cause : Cause) × (due_in self.old.recorded now ≡ Some cause) × Enters now cause self.old.recorded self.new.recorded }
        ensures none { result ≡ Ok false → (due_in self.old.recorded now ≡ None) × (self.new.recorded ≡ self.old.recorded) × (⟦<L as Telling>⟧.told link.new ≡ ⟦<L as Telling>⟧.told link.old) }
        ensures err { OnErr result (Grows now self.old.recorded self.new.recorded) }
    {
        self.line.do_due(&mut self.recorder, link, now)
    }

    /// Opens the next connection to the broker, in Down, where nothing is due. Answers whether it was opened.
    pub fn open<L: Link>(&mut self, link: &mut L, now: u64) -> Result<bool, NoMemory>
        requires down { phase_in self.old.recorded ≡ Down }
        requires time { last_time_of self.old.recorded.past ≤ now }
        requires none_due { due_in self.old.recorded now ≡ None }
        ensures tied { OnOk result (StaysTied self.old (⟦<L as Telling>⟧.told link.old) self.new (⟦<L as Telling>⟧.told link.new)) }
        ensures served { IsServed self.old → IsServed self.new }
        ensures same { self.new.receiver ≡ self.old.receiver }
        ensures opened { result ≡ Ok true → Enters now causes.Opened self.old.recorded self.new.recorded }
        ensures failed { result ≡ Ok false → Makes self.old.recorded now (causes.Broke reasons.Fault) self.new.recorded }
        ensures err { OnErr result (Grows now self.old.recorded self.new.recorded) }
    {
        self.line
            .open(&mut self.recorder, link, now, self.to.as_str())
    }

    /// Receives once, in Opening and Up, and hands in what came.
    pub fn receive<L: Link>(&mut self, link: &mut L, now: u64) -> Result<Came, NoMemory>
        requires listens { listens (phase_in self.old.recorded) ≡ true }
        requires time { last_time_of self.old.recorded.past ≤ now }
        ensures tied { OnOk result (StaysTied self.old (⟦<L as Telling>⟧.told link.old) self.new (⟦<L as Telling>⟧.told link.new)) }
        ensures served { IsServed self.old → IsServed self.new }
        ensures same { self.new.receiver ≡ self.old.receiver }
        ensures grown { Grows now self.old.recorded self.new.recorded }
        ensures bytes { result ≡ Ok Came.Bytes → GaveMore (L.given link.old) (L.given link.new) }
        ensures gone { result ≡ Ok Came.Gone → (reason : Why) × Makes self.old.recorded now (causes.Broke reason) self.new.recorded }
        ensures nothing { result ≡ Ok Came.Nothing → (L.nothings link.new ≡ raised (L.nothings link.old)) × (self.new.recorded ≡ idled self.old.recorded (one_more self.old.idle) now) }
    {
        self.line.receive(&mut self.recorder, link, now)
    }
}

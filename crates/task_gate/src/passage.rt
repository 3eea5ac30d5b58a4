//! A task's calls of its gate.

ghost use Rattle.std.specs.Prelude.{◌≡◌};
ghost use Rattle.task_gate.specs.Passages.{fresh, let_in, told};

use crate::gate::Gate;
use std::marker::Model;
use std::sync::Wait;

/// A task's calls of a gate, counted: only a call of the gate raises a count. A count stands still at the greatest `u64`.
#[derive(Debug, Drop)]
pub struct Passage {
    task: u32,
    asked: u64,
    last_asked: u32,
    answered: u64,
    last_answered: u32,
}

impl Model for Passage {
    ghost use Rattle.task_gate.specs.Passages.{Passed};

    ghost Value = { Passed };

    ghost view = { λ p. record { task = p.task; asked = p.asked; last_asked = p.last_asked; answered = p.answered; last_answered = p.last_answered } };
}

impl Passage {
    /// Of a task that has made no call.
    pub fn new(task: u32) -> Self
        ensures { result ≡ fresh task }
    {
        Passage {
            task,
            asked: 0,
            last_asked: 0,
            answered: 0,
            last_answered: 0,
        }
    }

    /// The task comes to the gate with its request of this number.
    pub fn before<R: Wait, G: Gate>(&mut self, rt: &R, gate: &G, number: u32)
        ensures { self.new ≡ let_in number self.old }
    {
        gate.before(rt, self.task, number);
        self.asked = self.asked.saturating_add(1);
        self.last_asked = number;
    }

    /// The task has the outcome of its command of this number.
    pub fn answered<R: Wait, G: Gate>(&mut self, rt: &R, gate: &G, number: u32)
        ensures { self.new ≡ told number self.old }
    {
        gate.answered(rt, self.task, number);
        self.answered = self.answered.saturating_add(1);
        self.last_answered = number;
    }
}

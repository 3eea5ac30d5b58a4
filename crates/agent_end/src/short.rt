//! Turns of an agent whose memory ran out: it works by the mailboxes alone.

ghost use Rattle.std.specs.Prelude.{◌≡◌, true, None};
ghost use Rattle.agent_end.specs.Short.{IsHeld, AreAllTold, WorksWithout};

use crate::end::AgentEnd;
use crate::turn::Turn;
use agent_posts::Posted;
use front_board::Named;
use mqtt_packet::NoMemory;
use std::alloc::AllocError;
use std::sync::Wait;

impl<
    J: Named,
    const QUEUE: usize,
    const INBOX: usize,
    const ACKS: usize,
    const IN: usize,
    const ROUTES: usize,
> AgentEnd<J, QUEUE, INBOX, ACKS, IN, ROUTES> {
    /// Puts what is owed, one note a turn; once that is done takes what the queue holds; and has ended when each task has left.
    /// It takes no memory.
    pub(crate) fn turn_without_memory<R: Wait>(&mut self, rt: &R) -> Result<Turn, NoMemory>
        requires short { self.old.short ≡ true }
        ensures works { WorksWithout J.board INBOX self.old self.new result }
        ensures short { self.new.short ≡ true }
    {
        self.hold_next();
        match self.posts.put_held(rt) {
            Posted::Put(task, kind) => {
                self.owed.close(task, kind);
                Err(AllocError)
            }
            Posted::Full(task) => Ok(Turn::Stalled(task)),
            Posted::Nothing => self.take_without_memory(rt),
        }
    }

    /// Holds the next note that is owed, where none is held and there is one.
    fn hold_next(&mut self)
        requires short { self.old.short ≡ true }
        ensures next { IsHeld self.old self.new }
        ensures none { self.new.mail.next ≡ None → (self.new ≡ self.old) × AreAllTold self.new }
        ensures same { self.new ≡ record self.old { mail = record self.old.mail { next = self.new.mail.next } } }
    {
        if self.posts.is_holding() {
            return;
        }
        let at = self.intake.recorder().last_time();
        if let Some(command) = self.owed.commands.pop() {
            self.posts.hold_failure(command.task, command.seq, at);
            return;
        }
        if let Some(task) = self.owed.unclosed(self.intake.recorder().setup().tasks) {
            self.posts.hold_closed(task, at);
        }
    }

    /// Once all is put: has ended, or takes a submission.
    fn take_without_memory<R: Wait>(&mut self, rt: &R) -> Result<Turn, NoMemory>
        requires short { self.old.short ≡ true }
        requires told { AreAllTold self.old }
        ensures works { WorksWithout J.board INBOX self.old self.new result }
        ensures short { self.new.short ≡ true }
    {
        if self.owed.have_left(self.intake.recorder().setup().tasks) {
            return Ok(Turn::Ended);
        }
        let Some(popped) = self.intake.pop(rt) else {
            return Err(AllocError);
        };
        if popped.leaves {
            self.owed.leave(popped.task);
            return Err(AllocError);
        }
        let at = self.intake.recorder().last_time();
        self.posts.hold_failure(popped.task, popped.seq, at);
        Err(AllocError)
    }
}

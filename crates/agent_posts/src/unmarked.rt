//! Notes that stand in no journal: what is put where memory ran out.

ghost use Rattle.std.specs.Prelude.{◌≡◌, ℕ, ◌<◌, None, Some, is_some, length};
ghost use Rattle.task_queues.specs.declared.note.Note.{Note};
ghost use Rattle.task_queues.specs.MailboxPasses.{Putting, WasFull};
ghost use Rattle.agent_posts.specs.declared.kind.Kind.{Kind};
ghost use Rattle.agent_posts.specs.Kinds.{kind_of, failed, closed};
ghost use Rattle.agent_posts.specs.Mail.{PutsOne, FindsFull};

use crate::made::Made;
use crate::posts::{Posted, Posts};
use agent_journal::Outcome;
use front_board::Named;
use std::sync::Wait;
use task_queues::Note;

impl<J: Named, const INBOX: usize> Posts<J, INBOX> {
    /// Whether a note is held, which was made and isn't put yet.
    pub fn is_holding(&self) -> bool
        ensures { result ≡ is_some self.now.next }
    {
        self.next.is_some()
    }

    /// Holds a note that a command failed for want of memory. It takes none.
    pub fn hold_failure(&mut self, task: u32, seq: u32, at: u64)
        requires known { task < length self.old.putters }
        requires none_held { self.old.next ≡ None }
        ensures held { self.new ≡ record self.old { next = Some (task, failed seq at) } }
    {
        let note = Note::Done {
            seq,
            outcome: Outcome::NoMemory,
            at,
            front: None,
        };
        self.next.insert((task, Made::new(note)));
    }

    /// Holds a note that a task will get no more messages. It takes no memory.
    pub fn hold_closed(&mut self, task: u32, at: u64)
        requires known { task < length self.old.putters }
        requires none_held { self.old.next ≡ None }
        ensures held { self.new ≡ record self.old { next = Some (task, closed at) } }
    {
        let note = Note::Closed { at, front: None };
        self.next.insert((task, Made::new(note)));
    }

    /// Puts the note that is held, if there is one. It takes no memory.
    pub fn put_held<R: Wait>(&mut self, rt: &R) -> Posted
        ensures nothing { result ≡ Posted.Nothing → (self.old.next ≡ None) × (self.new ≡ self.old) }
        ensures put { (t : ℕ) → (kind : Kind) → result ≡ Posted.Put t kind → (note : Note) × (self.old.next ≡ Some (t, note)) × (kind_of note ≡ kind) × PutsOne t note self.old.putters self.new.putters × (self.new.next ≡ None) }
        ensures full { (t : ℕ) → result ≡ Posted.Full t → (p : Putting) × WasFull J.board INBOX p × FindsFull t p self.old.putters self.new.putters }
        ensures held { (t : ℕ) → result ≡ Posted.Full t → (note : Note) × (self.old.next ≡ Some (t, note)) × (self.new.next ≡ self.old.next) }
        ensures place { self.new.place ≡ self.old.place }
    {
        match self.next.take() {
            Some((task, made)) => self.hand_over(rt, task, made),
            None => Posted::Nothing,
        }
    }
}

//! The agent's ends of the mailboxes: each task is told what the journal says for it, in order.

ghost use Rattle.std.specs.Prelude.{◌≡◌, ℕ, List, ◌≤◌, ◌<◌, None, Some, Ok, OnOk, OnErr, IfOk, IfSome, length, ◌≢◌};
ghost use Rattle.agent_journal.specs.declared.entry.Entry.{Entry};
ghost use Rattle.task_queues.specs.declared.note.Note.{Note};
ghost use Rattle.task_queues.specs.MailboxPasses.{Putting, WasFull};
ghost use Rattle.agent_posts.specs.declared.kind.Kind.{Kind};
ghost use Rattle.agent_posts.specs.Kinds.{kind_of};
ghost use Rattle.agent_posts.specs.Waiting.{NoneWaits};
ghost use Rattle.agent_posts.specs.Mail.{IsPosted, IsAllPut, PutsOne, FindsFull, AreFew};

use crate::kind::Kind;
use crate::made::{Made, make};
use crate::place::{Place, next_told};
use crate::post::Post;
use crate::shown::Shown;
use agent_journal::Entry;
use front_board::Named;
use mqtt_packet::NoMemory;
use std::alloc::Global;
use std::marker::Model;
use std::sync::Wait;

/// What a call that puts did.
#[derive(Clone, Copy, Debug, PartialEq, Eq)]
pub enum Posted {
    /// No note waits.
    Nothing,
    /// A note of this kind was put for this task.
    Put(u32, Kind),
    /// The mailbox of this task is full.
    Full(u32),
}

/// The mailboxes of all tasks, by number. What a task is told stands in the journal and isn't copied before it is to be put; the
/// tasks have one place in the journal in common, so that many silent tasks cost no more than one.
#[derive(Drop)]
pub struct Posts<J: Named, const INBOX: usize> {
    alloc: Global,
    posts: Vec<Post<J, INBOX>>,
    place: Place,
    /// A note that was made, and its task, while its mailbox is full.
    pub(crate) next: Option<(u32, Made<J>)>,
}

impl<J: Named, const INBOX: usize> Model for Posts<J, INBOX> {
    ghost use Rattle.std.specs.Prelude.{◌<◌, length, IfSome};
    ghost use Rattle.agent_posts.specs.Mail.{Mail};

    ghost Value = { Mail };

    ghost view = { λ p. record { putters = p.posts.items; place = p.place; next = p.next } };

    ghost invariant = { λ p. IfSome p.next (λ next. next.0 < length p.posts.items) };
}

impl<J: Named, const INBOX: usize> Posts<J, INBOX> {
    /// Mailboxes into which nothing was put.
    pub fn new(alloc: Global, posts: Vec<Post<J, INBOX>>) -> Self
        ensures { result ≡ record { putters = posts.items; place = record { entry = 0; effects = 0 }; next = None } }
    {
        Posts {
            alloc,
            posts,
            place: Place {
                entry: 0,
                effects: 0,
            },
            next: None,
        }
    }

    /// The ends of the mailboxes, by task.
    pub fn into_posts(self) -> Vec<Post<J, INBOX>>
        ensures { result.items ≡ self.putters }
    {
        let Posts { posts, .. } = self;
        posts
    }

    /// What they take their memory from.
    pub fn allocator(&self) -> Global {
        self.alloc
    }

    /// Puts the next note that waits, if there is one. `entries` is the journal, oldest first, and at least all of it is shown.
    /// Where memory runs out nothing was put, and none is held.
    pub fn put<R: Wait>(
        &mut self,
        rt: &R,
        entries: &[Entry],
        shown: &mut Shown<J>,
    ) -> Result<Posted, NoMemory>
        requires few { AreFew entries.now }
        requires raised { length entries.now ≤ shown.old }
        ensures posted { IsPosted entries.now self.old → IsPosted entries.now self.new }
        ensures shown { shown.new ≡ shown.old }
        ensures nothing { result ≡ Ok Posted.Nothing → IsAllPut entries.now self.new × (self.new.putters ≡ self.old.putters) }
        ensures put { (t : ℕ) → (kind : Kind) → result ≡ Ok (Posted.Put t kind) → (note : Note) × (kind_of note ≡ kind) × PutsOne t note self.old.putters self.new.putters }
        ensures full { (t : ℕ) → result ≡ Ok (Posted.Full t) → (p : Putting) × WasFull J.board INBOX p × FindsFull t p self.old.putters self.new.putters }
        ensures err { OnErr result ((self.new.putters ≡ self.old.putters) × (self.new.next ≡ None)) }
    {
        match self.next.take() {
            Some((task, made)) => Ok(self.hand_over(rt, task, made)),
            None => self.put_next(rt, entries, shown),
        }
    }

    /// The same, where no note is held.
    fn put_next<R: Wait>(
        &mut self,
        rt: &R,
        entries: &[Entry],
        shown: &mut Shown<J>,
    ) -> Result<Posted, NoMemory>
        requires few { AreFew entries.now }
        requires raised { length entries.now ≤ shown.old }
        requires none_held { self.old.next ≡ None }
        ensures posted { IsPosted entries.now self.old → IsPosted entries.now self.new }
        ensures shown { shown.new ≡ shown.old }
        ensures nothing { result ≡ Ok Posted.Nothing → IsAllPut entries.now self.new × (self.new.putters ≡ self.old.putters) }
        ensures put { (t : ℕ) → (kind : Kind) → result ≡ Ok (Posted.Put t kind) → (note : Note) × (kind_of note ≡ kind) × PutsOne t note self.old.putters self.new.putters }
        ensures full { (t : ℕ) → result ≡ Ok (Posted.Full t) → (p : Putting) × WasFull J.board INBOX p × FindsFull t p self.old.putters self.new.putters }
        ensures err { OnErr result ((self.new.putters ≡ self.old.putters) × (self.new.next ≡ None)) }
    {
        match self.make_next(entries, shown)? {
            Some((task, made)) => Ok(self.hand_over(rt, task, made)),
            None => Ok(Posted::Nothing),
        }
    }

    /// Makes the next note that waits, if there is one, and goes past its effect.
    fn make_next(
        &mut self,
        entries: &[Entry],
        shown: &mut Shown<J>,
    ) -> Result<Option<(u32, Made<J>)>, NoMemory>
        requires few { AreFew entries.now }
        requires raised { length entries.now ≤ shown.old }
        requires none_held { self.old.next ≡ None }
        ensures made { IfOk result (λ next. IsPosted entries.now self.old → IsPosted entries.now (record self.new { next = next })) }
        ensures known { IfOk result (λ next. IfSome next (λ n. n.0 < length self.new.putters)) }
        ensures none { IfOk result (λ next. next ≡ None → NoneWaits (length self.new.putters) entries.now self.new.place) }
        ensures err { OnErr result (IsPosted entries.now self.old → IsPosted entries.now self.new) }
        ensures shown { shown.new ≡ shown.old }
        ensures same { (self.new.putters ≡ self.old.putters) × (self.new.next ≡ None) }
    {
        match next_told(entries, self.place, self.posts.len()) {
            Some((place, task)) => {
                self.place = place;
                let made = make(self.alloc, entries, place, shown)?;
                self.place.effects += 1;
                Ok(Some((task, made)))
            }
            None => {
                self.place = Place {
                    entry: entries.len(),
                    effects: 0,
                };
                Ok(None)
            }
        }
    }

    /// Puts a note that was made, or holds it.
    pub(crate) fn hand_over<R: Wait>(&mut self, rt: &R, task: u32, made: Made<J>) -> Posted
        requires known { task < length self.old.putters }
        requires none { self.old.next ≡ None }
        ensures posted { (entries : List Entry) → IsPosted entries (record self.old { next = Some (task, made) }) → IsPosted entries self.new }
        ensures put { (t : ℕ) → (kind : Kind) → result ≡ Posted.Put t kind → (t ≡ task) × (kind_of made ≡ kind) × PutsOne task made self.old.putters self.new.putters × (self.new.next ≡ None) }
        ensures full { (t : ℕ) → result ≡ Posted.Full t → (p : Putting) × WasFull J.board INBOX p × FindsFull t p self.old.putters self.new.putters }
        ensures held { (t : ℕ) → result ≡ Posted.Full t → (t ≡ task) × (self.new.next ≡ Some (task, made)) }
        ensures place { self.new.place ≡ self.old.place }
        ensures some { result ≢ Posted.Nothing }
    {
        let kind = made.kind();
        match self.posts[task as usize].put(rt, made) {
            Ok(()) => Posted::Put(task, kind),
            Err(back) => {
                self.next.insert((task, back));
                Posted::Full(task)
            }
        }
    }
}

//! What the agent owes its tasks, in room that is there before it is needed.

ghost use Rattle.std.specs.Prelude.{◌≡◌, ℕ, ◌+◌, ◌<◌, ◌≤◌, ◌&&◌, ◌==◌, [], true, false, OnOk, IfSome, IfNone, slice_get, slice_set, Some, if◌then◌else◌, replicate};
ghost use Rattle.std.specs.List.{position};
ghost use Rattle.std.specs.Vec.{vec_len, vec_capacity};
ghost use Rattle.agent_posts.specs.declared.kind.Kind.{Kind};
ghost use Rattle.agent_end.specs.Owed.{is_owed, owed_in, commands_with, left_with, done_by, closed_with, IsOneTrue};

use agent_posts::Kind;
use agent_requests::Popped;
use mqtt_packet::NoMemory;
use std::alloc::Global;

/// What the agent must know to go on without memory.
#[derive(Drop)]
pub(crate) struct Owed {
    /// The commands that were taken from the queue, and of which no Done was put.
    pub commands: Vec<Popped>,
    /// By task: whether its Closed was put.
    pub closed: [bool; 8],
    /// By task: whether its Leave was taken.
    pub left: [bool; 8],
}

impl Owed {
    /// Nothing is owed.
    pub fn new(alloc: Global) -> Owed
        ensures commands { result.commands.items ≡ [] }
        ensures closed { result.closed ≡ replicate 8 false }
        ensures left { result.left ≡ replicate 8 false }
    {
        Owed {
            commands: Vec::new(alloc),
            closed: [false; 8],
            left: [false; 8],
        }
    }

    /// Makes room for one command more.
    pub fn reserve(&mut self) -> Result<(), NoMemory>
        ensures room { OnOk result (vec_len self.new.commands < vec_capacity self.new.commands) }
        ensures commands { self.new.commands.items ≡ self.old.commands.items }
        ensures flags { (self.new.closed ≡ self.old.closed) × (self.new.left ≡ self.old.left) }
    {
        self.commands.reserve(1)
    }

    /// A request was taken from the queue, if one was.
    pub fn take(&mut self, popped: Option<Popped>)
        requires known { IfSome popped (λ p. p.task < 8) }
        requires room { vec_len self.old.commands < vec_capacity self.old.commands }
        ensures commands { self.new.commands.items ≡ commands_with self.old.commands.items popped }
        ensures left { self.new.left ≡ left_with self.old.left popped }
        ensures closed { self.new.closed ≡ self.old.closed }
    {
        let Some(popped) = popped else {
            return;
        };
        if popped.leaves {
            self.leave(popped.task);
            return;
        }
        self.commands.push_reserved(popped);
    }

    /// A note of this kind was put for a task.
    pub fn note(&mut self, task: u32, kind: Kind)
        requires known { task < 8 }
        requires owed { (seq : ℕ) → kind ≡ Kind.Done seq → 0 < owed_in task seq self.old.commands.items }
        ensures commands { (t q : ℕ) → owed_in t q self.new.commands.items + done_by t q task kind ≡ owed_in t q self.old.commands.items }
        ensures closed { self.new.closed ≡ closed_with self.old.closed task kind }
        ensures left { self.new.left ≡ self.old.left }
    {
        match kind {
            Kind::Done(seq) => self.settle(task, seq),
            Kind::Message => {}
            Kind::Closed => self.close(task, kind),
        }
    }

    /// The Done of a command was put.
    fn settle(&mut self, task: u32, seq: u32)
        requires owed { 0 < owed_in task seq self.old.commands.items }
        ensures commands { (t q : ℕ) → owed_in t q self.new.commands.items + (if (task == t) && (seq == q) then 1 else 0) ≡ owed_in t q self.old.commands.items }
        ensures flags { (self.new.closed ≡ self.old.closed) × (self.new.left ≡ self.old.left) }
    {
        let Some(place) = place_of(self.commands.as_slice(), task, seq) else {
            unreachable!()
        };
        self.commands.swap_remove(place);
    }

    /// A note of this kind was put for a task: it may be its Closed.
    pub fn close(&mut self, task: u32, kind: Kind)
        requires known { task < 8 }
        ensures closed { self.new.closed ≡ closed_with self.old.closed task kind }
        ensures same { (self.new.commands.items ≡ self.old.commands.items) × (self.new.left ≡ self.old.left) }
    {
        match kind {
            Kind::Done(_) => {}
            Kind::Message => {}
            Kind::Closed => self.closed[task as usize] = true,
        }
    }

    /// A task's Leave was taken.
    pub fn leave(&mut self, task: u32)
        requires known { task < 8 }
        ensures left { self.new.left ≡ slice_set self.old.left task true }
        ensures same { (self.new.commands.items ≡ self.old.commands.items) × (self.new.closed ≡ self.old.closed) }
    {
        self.left[task as usize] = true;
    }

    /// The first of the tasks, this many, that hasn't left and whose Closed wasn't put.
    pub fn unclosed(&self, tasks: u32) -> Option<u32>
        requires few { tasks ≤ 8 }
        ensures some { IfSome result (λ t. (t < tasks) × (slice_get self.now.closed t ≡ Some false) × (slice_get self.now.left t ≡ Some false)) }
        ensures none { IfNone result ((t : ℕ) → t < tasks → IsOneTrue (slice_get self.now.closed t) (slice_get self.now.left t)) }
    {
        for task in 0..tasks {
            if !self.closed[task as usize] && !self.left[task as usize] {
                return Some(task);
            }
        }
        None
    }

    /// Whether each of the tasks, this many, has left.
    pub fn have_left(&self, tasks: u32) -> bool
        requires few { tasks ≤ 8 }
        ensures all { result ≡ true → (t : ℕ) → t < tasks → slice_get self.now.left t ≡ Some true }
        ensures awaited { result ≡ false → (t : ℕ) × (t < tasks) × (slice_get self.now.left t ≡ Some false) }
    {
        for task in 0..tasks {
            if !self.left[task as usize] {
                return false;
            }
        }
        true
    }
}

/// The first place at which a command stands.
fn place_of(commands: &[Popped], task: u32, seq: u32) -> Option<usize>
    ensures { result ≡ position (is_owed task seq) commands.now }
{
    commands
        .iter()
        .position(|command| command.task == task && command.seq == seq)
}

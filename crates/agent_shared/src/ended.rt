//! What is left of the tasks' ends.

ghost use Rattle.std.specs.Prelude.{◌≡◌, ◌∷◌, [], ◌≤◌, length, IfOk};
ghost use Rattle.std.specs.Vec.{vec_capacity};
ghost use Rattle.agent_shared.specs.Gathered.{IsDrained, AreDrained, AreEndsOf, joined_with};

use agent_posts::Post;
use front_board::Named;
use std::alloc::{AllocError, Global};
use std::marker::Model;
use std::sync::Wait;
use task_end::{LeftEnd, TaskLog};
use task_queues::{CommandQueue, GetPass, RecvPass};

/// The pass of a task's mailbox, and the task's log. Contracts see what was got, and the log.
#[derive(Drop)]
pub(crate) struct EndedTask {
    pub getter: GetPass,
    pub log: TaskLog,
}

impl Model for EndedTask {
    ghost use Rattle.agent_shared.specs.Gathered.{Ended};

    ghost Value = { Ended };

    ghost view = { λ e. record { got = e.getter.got; log = e.log } };
}

/// Room for what is left of the tasks. Contracts see for how many.
#[derive(Drop)]
pub struct Room {
    pub(crate) tasks: Vec<EndedTask>,
}

impl Model for Room {
    ghost use Rattle.std.specs.Prelude.{◌≡◌, ℕ, []};
    ghost use Rattle.std.specs.Vec.{vec_capacity};

    ghost Value = { ℕ };

    ghost view = { λ r. vec_capacity r.tasks };

    ghost invariant = { λ r. r.tasks.items ≡ [] };
}

impl Room {
    /// Room for so many tasks.
    pub(crate) fn new(alloc: Global, tasks: u32) -> Result<Self, AllocError>
        ensures { IfOk result (λ r. tasks ≤ r) }
    {
        Ok(Room {
            tasks: Vec::with_capacity(alloc, tasks as usize)?,
        })
    }
}

/// Takes the ends of all tasks apart, by number, into `tasks`, which has room for them.
pub(crate) fn end_all<J: Named, R: Wait, const POOL: usize, const QUEUE: usize, const INBOX: usize>(
    rt: &R,
    queue: &CommandQueue<J, QUEUE>,
    receiver: &mut RecvPass,
    posts: Vec<Post<J, INBOX>>,
    ends: Vec<LeftEnd<J, POOL, QUEUE, INBOX>>,
    tasks: Vec<EndedTask>,
) -> Vec<EndedTask>
    requires own { receiver.old.queue ≡ queue.now }
    requires ends { AreEndsOf queue.now 0 posts.items ends.items }
    requires room { (tasks.items ≡ []) × (length ends.items ≤ vec_capacity tasks) }
    ensures drained { AreDrained posts.items ends.items result.items }
    ensures joined { receiver.new ≡ record receiver.old { joined = joined_with ends.items receiver.old.joined } }
{
    let mut tasks = tasks;
    let mut posts = posts.into_iter();
    for end in ends {
        let Some(post) = posts.next() else {
            unreachable!()
        };
        tasks.push_reserved(end_one(rt, queue, receiver, post, end));
    }
    tasks
}

/// Takes one end apart: what its mailbox still holds is got first, and the queue learns all that it sent.
fn end_one<J: Named, R: Wait, const POOL: usize, const QUEUE: usize, const INBOX: usize>(
    rt: &R,
    queue: &CommandQueue<J, QUEUE>,
    receiver: &mut RecvPass,
    post: Post<J, INBOX>,
    end: LeftEnd<J, POOL, QUEUE, INBOX>,
) -> EndedTask
    requires queue { (receiver.old.queue ≡ queue.now) × (end.sender.queue ≡ queue.now) }
    requires mailbox { end.getter.mailbox ≡ post.mailbox }
    ensures drained { IsDrained post end result }
    ensures joined { receiver.new ≡ record receiver.old { joined = (end.sender.number, end.sender.sent) ∷ receiver.old.joined } }
{
    let mut end = end;
    end.join(rt, post.into_putter());
    end.drain(rt);
    let (sender, getter, log) = end.into_log();
    queue.join(rt, receiver, sender);
    EndedTask { getter, log }
}

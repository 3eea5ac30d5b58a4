//! The ends of the tasks, and the agent's ends of their mailboxes.

ghost use Rattle.std.specs.Prelude.{◌≡◌, ◌<◌, ◌≤◌, List, [], map, length, replicate, IfOk};
ghost use Rattle.std.specs.Arc.{arc_value};
ghost use Rattle.atomic_table.specs.Seated.{TableId};
ghost use Rattle.front_board.specs.Ends.{fresh_pass};
ghost use Rattle.task_queues.specs.QueuePasses.{fresh_sender, fresh_senders};
ghost use Rattle.task_queues.specs.MailboxPasses.{fresh_putter};
ghost use Rattle.agent_shared.specs.Opened.{fresh_task, fresh_tasks, AreEnds};

use agent_posts::Post;
use command_pool::{CommandPool, PoolPass};
use front_board::{FrontBoard, FrontPass, Named};
use std::alloc::{AllocError, Global};
use std::sync::{Arc, Wait};
use task_end::{Parts, TaskEnd};
use task_queues::{CommandQueue, Mailbox, SendPass};

/// What the tasks have in common.
#[derive(Drop)]
pub(crate) struct Common<J: Named, const POOL: usize, const QUEUE: usize> {
    pub pool: Arc<CommandPool<POOL>, Global>,
    pub queue: Arc<CommandQueue<J, QUEUE>, Global>,
    pub board: Arc<FrontBoard, Global>,
}

/// The tasks' ends, and of each the agent's end of its mailbox, by task.
#[derive(Drop)]
pub(crate) struct Ends<J: Named, const POOL: usize, const QUEUE: usize, const INBOX: usize> {
    pub tasks: Vec<TaskEnd<J, POOL, QUEUE, INBOX>>,
    pub posts: Vec<Post<J, INBOX>>,
}

/// The ends of all tasks: a sender of the queue and a pass of the board for each.
pub(crate) fn make_ends<
    J: Named,
    R: Wait,
    const POOL: usize,
    const QUEUE: usize,
    const INBOX: usize,
>(
    rt: &R,
    alloc: Global,
    common: &Common<J, POOL, QUEUE>,
    permits: &mut PoolPass,
    senders: Vec<SendPass>,
    fronts: Vec<FrontPass>,
) -> Result<Ends<J, POOL, QUEUE, INBOX>, AllocError>
    requires size { (0 < INBOX) × (INBOX ≤ 1024) }
    requires named { arc_value common.now.board ≡ J.board }
    requires pool { permits.old.pool ≡ arc_value common.now.pool }
    requires senders { senders.items ≡ fresh_senders (arc_value common.now.queue) (length fronts.items) }
    requires fronts { fronts.items ≡ replicate (length fronts.items) (fresh_pass J.board 0) }
    requires few { length fronts.items ≤ 8 }
    ensures ends { IfOk result (λ r. (mailboxes : List TableId) × AreEnds (arc_value common.now.pool) (arc_value common.now.queue) (length fronts.items) mailboxes r.tasks.items r.posts.items) }
{
    let mut fronts = fronts.into_iter();
    let mut tasks = Vec::new(alloc);
    let mut posts = Vec::new(alloc);
    for sender in senders {
        let Some(front) = fronts.next() else {
            unreachable!()
        };
        let (task, post) = make_one(
            rt,
            alloc,
            common,
            permits,
            tasks.len() as u32,
            sender,
            front,
        )?;
        tasks.push(task)?;
        posts.push(post)?;
    }
    Ok(Ends { tasks, posts })
}

/// The ends of one task.
fn make_one<J: Named, R: Wait, const POOL: usize, const QUEUE: usize, const INBOX: usize>(
    rt: &R,
    alloc: Global,
    common: &Common<J, POOL, QUEUE>,
    permits: &mut PoolPass,
    task: u32,
    sender: SendPass,
    front: FrontPass,
) -> Result<(TaskEnd<J, POOL, QUEUE, INBOX>, Post<J, INBOX>), AllocError>
    requires size { (0 < INBOX) × (INBOX ≤ 1024) }
    requires named { arc_value common.now.board ≡ J.board }
    requires pool { permits.old.pool ≡ arc_value common.now.pool }
    requires sender { sender ≡ fresh_sender (arc_value common.now.queue) task }
    requires front { front ≡ fresh_pass J.board 0 }
    ensures pool { permits.new.pool ≡ permits.old.pool }
    ensures ends { IfOk result (λ r. (mailbox : TableId) × (r.0 ≡ fresh_task (arc_value common.now.pool) (arc_value common.now.queue) task mailbox) × (r.1 ≡ fresh_putter mailbox)) }
{
    let (mailbox, putter, getter) = Mailbox::new(rt, alloc)?;
    let mailbox = Arc::new(alloc, mailbox)?;
    let post = Post::new(Arc::try_clone(&mailbox)?, putter);
    let parts = Parts {
        task,
        pool: Arc::try_clone(&common.pool)?,
        permits: common.pool.split(permits)?,
        queue: Arc::try_clone(&common.queue)?,
        sender,
        mailbox,
        getter,
        board: Arc::try_clone(&common.board)?,
        front,
    };
    Ok((TaskEnd::new(alloc, parts)?, post))
}

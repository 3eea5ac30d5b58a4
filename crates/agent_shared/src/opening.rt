//! The opening: an agent and its tasks' ends are made together.

ghost use Rattle.std.specs.Prelude.{◌≡◌, true, ◌<◌, ◌≤◌, List, replicate, IfOk, IfErr};
ghost use Rattle.std.specs.Arc.{arc_value};
ghost use Rattle.atomic_table.specs.Seated.{TableId};
ghost use Rattle.agent_journal.specs.Setups.{is_client};
ghost use Rattle.front_board.specs.Ends.{fresh_pass};
ghost use Rattle.task_queues.specs.QueuePasses.{fresh_receiver};
ghost use Rattle.agent_shared.specs.Opened.{AreEnds, AreOpened};

use crate::ended::Room;
use crate::making::{Common, Ends, make_ends};
use agent_end::AgentEnd;
use agent_journal::Setup;
use agent_line::Recorder;
use agent_posts::{Posts, Shown};
use agent_requests::Intake;
use command_pool::CommandPool;
use front_board::{FrontBoard, FrontPass, Named, Owner};
use list_types::{Copied, Text};
use mqtt_packet::NoMemory;
use std::alloc::Global;
use std::sync::{Arc, Wait};
use task_end::TaskEnd;
use task_queues::{CommandQueue, RecvPass};

/// All that an agent needs but its journal, and its tasks' ends.
#[derive(Drop)]
struct Parts<J: Named, const POOL: usize, const QUEUE: usize, const INBOX: usize> {
    to: Text,
    queue: Arc<CommandQueue<J, QUEUE>, Global>,
    receiver: RecvPass,
    ends: Ends<J, POOL, QUEUE, INBOX>,
    shown: Shown<J>,
    room: Room,
    ghost own: { receiver.queue ≡ arc_value queue },
}

/// An agent of this setup, before its first turn, and the ends of its tasks, by number, which may go to threads of their own. They
/// have a queue of QUEUE submissions and POOL commands in common, and each task a mailbox of INBOX notes. `board` is the one that `J`
/// names, fresh, with a pass for each task. The room is for [`gather`](crate::gather), which then takes no memory. Where memory runs out
/// the setup comes back.
pub fn open<
    J: Named,
    R: Wait,
    const POOL: usize,
    const QUEUE: usize,
    const INBOX: usize,
    const ACKS: usize,
    const IN: usize,
    const ROUTES: usize,
>(
    rt: &R,
    alloc: Global,
    setup: Setup,
    board: FrontBoard,
    owner: Owner,
    fronts: Vec<FrontPass>,
) -> Result<
    (
        AgentEnd<J, QUEUE, INBOX, ACKS, IN, ROUTES>,
        Vec<TaskEnd<J, POOL, QUEUE, INBOX>>,
        Room,
    ),
    (Setup, NoMemory),
>
    requires sizes { (0 < ACKS) × (ACKS ≤ 1024) × (0 < IN) × (IN ≤ 1024) × (0 < ROUTES) × (ROUTES ≤ 1024) }
    requires pool { (0 < POOL) × (POOL ≤ 64) }
    requires queue { (0 < QUEUE) × (QUEUE ≤ 1024) }
    requires mailboxes { (0 < INBOX) × (INBOX ≤ 1024) }
    requires tasks { (0 < setup.tasks) × (setup.tasks ≤ 8) }
    requires reopen { setup.reopen ≤ 4294967294 }
    requires client { is_client setup.client ≡ true }
    requires named { (board ≡ J.board) × (owner ≡ record { board = J.board; number = 0 }) }
    requires fronts { fronts.items ≡ replicate setup.tasks (fresh_pass J.board 0) }
    ensures opened { IfOk result (λ r. AreOpened setup (record { acks = ACKS; inbound = IN; routes = ROUTES }) r.0 r.1.items) }
    ensures room { IfOk result (λ r. setup.tasks ≤ r.2) }
    ensures err { IfErr result (λ e. e.0 ≡ setup) }
{
    let parts = match make_parts(rt, alloc, &setup, board, owner, fronts) {
        Ok(parts) => parts,
        Err(e) => return Err((setup, e)),
    };
    let Parts {
        to,
        queue,
        receiver,
        ends,
        shown,
        room,
    } = parts;
    let recorder = Recorder::new(alloc, setup)?;
    let intake = Intake::new(alloc, to, recorder, queue, receiver);
    let posts = Posts::new(alloc, ends.posts);
    Ok((AgentEnd::new(intake, posts, shown), ends.tasks, room))
}

/// All but the journal.
fn make_parts<J: Named, R: Wait, const POOL: usize, const QUEUE: usize, const INBOX: usize>(
    rt: &R,
    alloc: Global,
    setup: &Setup,
    board: FrontBoard,
    owner: Owner,
    fronts: Vec<FrontPass>,
) -> Result<Parts<J, POOL, QUEUE, INBOX>, NoMemory>
    requires pool { (0 < POOL) × (POOL ≤ 64) }
    requires queue { (0 < QUEUE) × (QUEUE ≤ 1024) }
    requires mailboxes { (0 < INBOX) × (INBOX ≤ 1024) }
    requires tasks { (0 < setup.now.tasks) × (setup.now.tasks ≤ 8) }
    requires named { (board ≡ J.board) × (owner ≡ record { board = J.board; number = 0 }) }
    requires fronts { fronts.items ≡ replicate setup.now.tasks (fresh_pass J.board 0) }
    ensures receiver { IfOk result (λ r. r.receiver ≡ fresh_receiver (arc_value r.queue) setup.now.tasks) }
    ensures shown { IfOk result (λ r. r.shown ≡ 0) }
    ensures room { IfOk result (λ r. setup.now.tasks ≤ r.room) }
    ensures ends { IfOk result (λ r. (pool : TableId) × (mailboxes : List TableId) × AreEnds pool (arc_value r.queue) setup.now.tasks mailboxes r.ends.tasks.items r.ends.posts.items) }
{
    let to = setup.to.copy(alloc)?;
    let room = Room::new(alloc, setup.tasks)?;
    let (pool, mut permits) = CommandPool::new(alloc)?;
    let (queue, senders, receiver) = CommandQueue::new(rt, alloc, setup.tasks)?;
    let board = Arc::new(alloc, board)?;
    let common = Common {
        pool: Arc::new(alloc, pool)?,
        queue: Arc::new(alloc, queue)?,
        board: Arc::try_clone(&board)?,
    };
    let ends = make_ends(rt, alloc, &common, &mut permits, senders, fronts)?;
    Ok(Parts {
        to,
        queue: common.queue,
        receiver,
        ends,
        shown: Shown::new(board, owner),
        room,
    })
}

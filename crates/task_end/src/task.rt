//! A task's end of the agent, while the task stays.

use crate::side::Side;
use agent_journal::Message;
use circular_buffer::HeapCircularBuffer;
use command_pool::{CommandPool, PoolPass};
use front_board::{FrontBoard, FrontPass, Named};
use std::alloc::Global;
use std::marker::Model;
use std::sync::Arc;
use task_queues::{CommandQueue, GetPass, Mailbox, SendPass};

/// What a task submits commands with, and what comes to it. It keeps at most INBOX messages. Contracts see its side, and the
/// messages that it keeps.
#[derive(Drop)]
pub struct TaskEnd<J: Named, const POOL: usize, const QUEUE: usize, const INBOX: usize> {
    pub(crate) side: Side<J, POOL, QUEUE, INBOX>,
    pub(crate) kept: HeapCircularBuffer<(Message, u64)>,
}

impl<J: Named, const POOL: usize, const QUEUE: usize, const INBOX: usize> Model
    for TaskEnd<J, POOL, QUEUE, INBOX> {
    ghost use Rattle.std.specs.Prelude.{◌≡◌, ◌<◌, false, length};
    ghost use Rattle.task_queues.specs.Submissions.{has_leave};
    ghost use Rattle.task_end.specs.Sides.{Tasking};

    ghost Value = { Tasking };

    ghost view = { λ t. record { side = t.side; kept = t.kept.items } };

    ghost invariant = { λ t. (t.kept.capacity ≡ INBOX) × (0 < INBOX) × (has_leave t.side.sender.sent ≡ false) × (length t.side.sender.sent ≡ length t.side.fronts) };
}

/// What the end of a task is made of: its number, and each pass with what it is a pass of.
#[derive(Drop)]
pub struct Parts<J: Named, const POOL: usize, const QUEUE: usize, const INBOX: usize> {
    pub task: u32,
    pub pool: Arc<CommandPool<POOL>, Global>,
    pub permits: PoolPass,
    pub queue: Arc<CommandQueue<J, QUEUE>, Global>,
    pub sender: SendPass,
    pub mailbox: Arc<Mailbox<J, INBOX>, Global>,
    pub getter: GetPass,
    pub board: Arc<FrontBoard, Global>,
    pub front: FrontPass,
}

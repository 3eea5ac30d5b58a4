//! What a task's end holds, before and behind its leave.

use crate::commands::Commands;
use crate::sight::Sight;
use command_pool::{CommandPool, PoolPass};
use front_board::Named;
use std::alloc::Global;
use std::marker::Model;
use std::sync::Arc;
use task_queues::{CommandQueue, GetPass, Mailbox, SendPass};

/// A task's passes of pool, queue, mailbox and board, and what it keeps of its commands. Contracts see the record of that name.
#[derive(Drop)]
pub struct Side<J: Named, const POOL: usize, const QUEUE: usize, const INBOX: usize> {
    pub(crate) pool: Arc<CommandPool<POOL>, Global>,
    pub(crate) permits: PoolPass,
    pub(crate) queue: Arc<CommandQueue<J, QUEUE>, Global>,
    pub(crate) sender: SendPass,
    pub(crate) mailbox: Arc<Mailbox<J, INBOX>, Global>,
    pub(crate) getter: GetPass,
    pub(crate) sight: Sight<J>,
    pub(crate) task: u32,
    pub(crate) commands: Commands,
    /// Of each command its number, how much its task had seen, and how many notes it had taken in.
    pub(crate) fronts: Vec<(u32, u64, u64)>,
    /// How many notes were taken in, and how many of them were messages.
    pub(crate) notes: u64,
    pub(crate) messages: u64,
    /// Whether the task was told that no more messages will come.
    pub(crate) closed: bool,
}

impl<J: Named, const POOL: usize, const QUEUE: usize, const INBOX: usize> Model
    for Side<J, POOL, QUEUE, INBOX> {
    ghost use Rattle.std.specs.Prelude.{◌≡◌};
    ghost use Rattle.std.specs.Arc.{arc_value};
    ghost use Rattle.task_end.specs.Commands.{tickets_of};
    ghost use Rattle.task_end.specs.Outcomes.{outcomes_of};
    ghost use Rattle.task_end.specs.Sides.{TaskSide, IsKept};

    ghost Value = { TaskSide };

    ghost view = { λ s. record { permits = s.permits; sender = s.sender; getter = s.getter; out = tickets_of s.commands.out.items; fronts = s.fronts.items } };

    ghost invariant = { λ s. (s.permits.pool ≡ arc_value s.pool) × (s.sender.queue ≡ arc_value s.queue) × (s.getter.mailbox ≡ arc_value s.mailbox) × (s.sender.number ≡ s.task)
        × IsKept (record { permits = s.permits; sender = s.sender; getter = s.getter; out = tickets_of s.commands.out.items; fronts = s.fronts.items })
        s.sight s.notes s.messages s.closed s.commands.next s.commands.out.items (outcomes_of s.commands.log.items) };
}

//! A task's end behind the task's leave.

use crate::side::Side;
use front_board::Named;
use std::marker::Model;

/// What a task that left may still collect with. It keeps no messages. Contracts see its side.
#[derive(Drop)]
pub struct LeftEnd<J: Named, const POOL: usize, const QUEUE: usize, const INBOX: usize> {
    pub(crate) side: Side<J, POOL, QUEUE, INBOX>,
}

impl<J: Named, const POOL: usize, const QUEUE: usize, const INBOX: usize> Model
    for LeftEnd<J, POOL, QUEUE, INBOX> {
    ghost use Rattle.std.specs.Prelude.{◌≡◌, true};
    ghost use Rattle.task_queues.specs.Submissions.{has_leave};
    ghost use Rattle.task_end.specs.Sides.{TaskSide};

    ghost Value = { TaskSide };

    ghost view = { λ l. l.side };

    ghost invariant = { λ l. has_leave l.side.sender.sent ≡ true };
}

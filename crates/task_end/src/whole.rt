//! A side from its making to its log.

ghost use Rattle.std.specs.Prelude.{◌≡◌, ℕ, [], map, IfOk, Some, All};
ghost use Rattle.std.specs.Bool.{OnTrue};
ghost use Rattle.std.specs.Arc.{arc_value};
ghost use Rattle.task_queues.specs.Submissions.{of_task};
ghost use Rattle.task_queues.specs.QueuePasses.{HoldsOf};
ghost use Rattle.task_queues.specs.MailboxPasses.{Holds};
ghost use Rattle.task_end.specs.Sides.{IsFrontOf, front_part, fronts_noted};
ghost use Rattle.task_end.specs.Logs.{IsLogOf};

use crate::commands::Commands;
use crate::log::TaskLog;
use crate::outcome_log::OutcomeLog;
use crate::side::Side;
use crate::sight::Sight;
use crate::task::Parts;
use front_board::Named;
use list_types::Seq;
use std::alloc::Global;
use std::marker::PhantomData;
use std::sync::Wait;
use task_queues::{GetPass, PutPass, RecvPass, SendPass};

impl<J: Named, const POOL: usize, const QUEUE: usize, const INBOX: usize> Side<
    J,
    POOL,
    QUEUE,
    INBOX,
> {
    /// A side of fresh passes.
    pub fn new(alloc: Global, parts: Parts<J, POOL, QUEUE, INBOX>) -> Self
        requires task { parts.sender.number ≡ parts.task }
        requires pool { (parts.permits.pool ≡ arc_value parts.pool) × (parts.permits.held ≡ []) }
        requires queue { (parts.sender.queue ≡ arc_value parts.queue) × (parts.sender.sent ≡ []) }
        requires mailbox { (parts.getter.mailbox ≡ arc_value parts.mailbox) × (parts.getter.got ≡ []) }
        requires named { (arc_value parts.board ≡ J.board) × (parts.front.board ≡ J.board) }
        requires fresh { parts.front.number ≡ 0 }
        ensures { result ≡ record { permits = parts.permits; sender = parts.sender; getter = parts.getter; out = []; fronts = [] } }
    {
        Side {
            pool: parts.pool,
            permits: parts.permits,
            queue: parts.queue,
            sender: parts.sender,
            mailbox: parts.mailbox,
            getter: parts.getter,
            sight: Sight {
                board: parts.board,
                front: parts.front,
                of: PhantomData,
            },
            task: parts.task,
            commands: Commands {
                next: 0,
                out: Vec::new(alloc),
                log: Vec::new(alloc),
            },
            fronts: Vec::new(alloc),
            notes: 0,
            messages: 0,
            closed: false,
        }
    }

    /// Lets the other end of the mailbox go, at which no more is put.
    pub fn join<R: Wait>(&mut self, rt: &R, putter: PutPass)
        requires own { putter.mailbox ≡ self.old.getter.mailbox }
        ensures joined { self.new ≡ record self.old { getter = record self.old.getter { joined = Some putter.put } } }
    {
        self.mailbox.join(rt, &mut self.getter, putter);
    }

    /// Whether a look at the queue and one at the mailbox found them empty.
    pub fn agrees<R: Wait>(&mut self, rt: &R, receiver: &mut RecvPass, putter: &mut PutPass) -> bool
        requires queue { receiver.old.queue ≡ self.old.sender.queue }
        requires mailbox { putter.old.mailbox ≡ self.old.getter.mailbox }
        ensures same { (self.new ≡ self.old) × (receiver.new ≡ receiver.old) × (putter.new ≡ putter.old) }
        ensures taken { (count : ℕ) × HoldsOf self.old.sender receiver.old count }
        ensures got { (count : ℕ) × Holds putter.old self.old.getter count }
        ensures all_taken { OnTrue result (self.old.sender.sent ≡ of_task self.old.sender.number receiver.old.taken) }
        ensures all_got { OnTrue result (putter.old.put ≡ self.old.getter.got) }
    {
        let waiting = self.queue.held(rt, &mut self.sender, receiver);
        let held = self.mailbox.held(rt, putter, &mut self.getter);
        waiting == 0 && held == 0
    }

    /// The passes of sender and getter, and the task's log.
    pub fn into_log(self) -> (SendPass, GetPass, TaskLog)
        ensures sender { result.0 ≡ self.sender }
        ensures getter { result.1 ≡ self.getter }
        ensures log { IsLogOf self result.2 }
        ensures marked { map front_part self.fronts ≡ fronts_noted self.sender.sent }
        ensures behind { All (IsFrontOf self.getter.got) self.fronts }
    {
        let Side {
            sender,
            getter,
            task,
            commands,
            fronts,
            messages,
            ..
        } = self;
        let got = commands.log.as_slice().len() as u32;
        let Commands { next, log, .. } = commands;
        let log = TaskLog {
            task,
            sent: next,
            got,
            messages,
            outcomes: OutcomeLog { items: log },
            fronts: Seq::from_vec(fronts),
        };
        (sender, getter, log)
    }
}

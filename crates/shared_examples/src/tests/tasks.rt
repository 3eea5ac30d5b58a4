//! What no clause says: that calls succeed, and that what a task is told comes through.

ghost use Rattle.std.specs.Prelude.{◌≡◌, ◌<◌, ◌≤◌, [], ◌∷◌, ◌++◌};
ghost use Rattle.std.specs.Arc.{arc_value};
ghost use Rattle.task_end.specs.Sides.{IsOut};

use agent_journal::{Message, Outcome, Request};
use command_pool::CommandPool;
use front_board::{FrontBoard, FrontPass, Named};
use list_types::{Seq, Text};
use mqtt_packet::Qos;
use std::alloc::{AllocError, Global};
use std::marker::Brand;
use std::sync::{Arc, Wait};
use std::test::Fail;
use task_end::{Collected, Counts, NextMessage, Parts, TaskEnd, Ticket};
use task_queues::{CommandQueue, Mailbox, Note, PutPass, RecvPass};

/// What the agent has of one task.
#[derive(Drop)]
struct Agent<J: Named> {
    queue: Arc<CommandQueue<J, 1>, Global>,
    receiver: RecvPass,
    mailbox: Arc<Mailbox<J, 2>, Global>,
    putter: PutPass,
    ghost own: { (receiver.queue ≡ arc_value queue) × (putter.mailbox ≡ arc_value mailbox) },
}

/// A fresh task of a queue of one and a mailbox of two, and what the agent has of it.
fn fresh<J: Named, R: Wait, const POOL: usize>(
    rt: &R,
    alloc: Global,
    board: FrontBoard,
    front: FrontPass,
) -> Result<Option<(TaskEnd<J, POOL, 1, 2>, Agent<J>)>, AllocError>
    requires size { (0 < POOL) × (POOL ≤ 64) }
    requires named { (board ≡ J.board) × (front.board ≡ J.board) }
    requires fresh { front.number ≡ 0 }
{
    let (pool, permits) = CommandPool::new(alloc)?;
    let (queue, mut senders, receiver) = CommandQueue::new(rt, alloc, 1)?;
    let (mailbox, putter, getter) = Mailbox::new(rt, alloc)?;
    let Some(sender) = senders.pop() else {
        return Ok(None);
    };
    let queue = Arc::new(alloc, queue)?;
    let mailbox = Arc::new(alloc, mailbox)?;
    let parts = Parts {
        task: 0,
        pool: Arc::new(alloc, pool)?,
        permits,
        queue: Arc::try_clone(&queue)?,
        sender,
        mailbox: Arc::try_clone(&mailbox)?,
        getter,
        board: Arc::new(alloc, board)?,
        front,
    };
    let agent = Agent {
        queue,
        receiver,
        mailbox,
        putter,
    };
    Ok(Some((TaskEnd::new(alloc, parts)?, agent)))
}

/// Puts a note that completes a command.
fn complete<J: Named, R: Wait>(rt: &R, agent: &mut Agent<J>, seq: u32) -> bool {
    let note = Note::Done {
        seq,
        outcome: Outcome::NoRoom,
        at: 5,
        front: None,
    };
    agent.mailbox.put(rt, &mut agent.putter, note).is_ok()
}

/// Puts a message of this topic.
fn pass<J: Named, R: Wait>(
    rt: &R,
    alloc: Global,
    agent: &mut Agent<J>,
    topic: &str,
) -> Result<bool, AllocError> {
    let message = Message {
        topic: Text::from_str(alloc, topic)?,
        qos: Qos::AtMostOnce,
        payload: Seq::new(alloc),
    };
    let note = Note::Message {
        message,
        at: 6,
        front: None,
    };
    Ok(agent.mailbox.put(rt, &mut agent.putter, note).is_ok())
}

/// Puts a note that no more messages will come.
fn close<J: Named, R: Wait>(rt: &R, agent: &mut Agent<J>) -> bool {
    let note = Note::Closed { at: 7, front: None };
    agent.mailbox.put(rt, &mut agent.putter, note).is_ok()
}

/// Whether messages come in their order, and then the end.
fn messages_come<J: Named, R: Wait>(
    rt: &R,
    alloc: Global,
    board: FrontBoard,
    front: FrontPass,
) -> Result<bool, AllocError>
    requires named { (board ≡ J.board) × (front.board ≡ J.board) }
    requires fresh { front.number ≡ 0 }
{
    let Some((mut end, mut agent)) = fresh::<J, R, 2>(rt, alloc, board, front)? else {
        return Ok(false);
    };
    let none = end.next_message(rt) == NextMessage::NoneYet;
    let put = pass(rt, alloc, &mut agent, "a")?;
    let told = end.next_note(rt).is_some();
    let again = pass(rt, alloc, &mut agent, "b")?;
    let handed = is_message(end.next_message(rt));
    let closing = close(rt, &mut agent);
    let closed = end.next_message(rt) == NextMessage::Closed;
    let counts = end.counts()
        == Counts {
            requests: 0,
            notes: 3,
        };
    Ok(none && put && told && again && handed && closing && closed && counts)
}

fn is_message(next: NextMessage) -> bool {
    match next {
        NextMessage::Message(_, at) => at == 6,
        NextMessage::NoneYet => false,
        NextMessage::Closed => false,
    }
}

#[test]
fn messages_come_in_order_and_then_the_end(rt: HostRuntime) -> Result<(), Fail> {
    let (board, _owner, mut fronts) = FrontBoard::new(rt.alloc(), 1)?;
    let front = fronts.pop().ok_or("no pass")?;
    assert!(rt; messages_come::<Brand, HostRuntime>(&rt, rt.alloc(), board, front)?);
    Ok(())
}

/// The outcome of a command, tried again until it is there.
fn outcome<J: Named, R: Wait>(rt: &R, end: &mut TaskEnd<J, 1, 1, 2>, ticket: Ticket) -> Outcome
    requires out { IsOut ticket end.old.side }
    ensures mailbox { end.new.side.getter.mailbox ≡ end.old.side.getter.mailbox }
{
    let mut ticket = ticket;
    for _ in rt.forever() {
        match end.collect(rt, ticket) {
            Collected::Got(outcome) => return outcome,
            Collected::NotYet(back) => ticket = back,
            Collected::MessagesFirst(back) => ticket = back,
        }
    }
    unreachable!()
}

/// Whether a command ends as it must, and its number is free again.
#[tactic(auto, unfolding(agent_journal::specs::Requests::is_valid))]
fn command_ends<J: Named, R: Wait>(
    rt: &R,
    alloc: Global,
    board: FrontBoard,
    front: FrontPass,
) -> Result<bool, AllocError>
    requires named { (board ≡ J.board) × (front.board ≡ J.board) }
    requires fresh { front.number ≡ 0 }
{
    let Some((mut end, mut agent)) = fresh::<J, R, 1>(rt, alloc, board, front)? else {
        return Ok(false);
    };
    let Ok(ticket) = end.submit(rt, Request::Ping) else {
        return Ok(false);
    };
    let first = ticket.seq() == 0;
    let completed = complete(rt, &mut agent, 0);
    let ended = outcome(rt, &mut end, ticket) == Outcome::NoRoom;
    Ok(first && completed && ended)
}

#[test]
fn a_command_ends_and_its_number_is_free_again(rt: HostRuntime) -> Result<(), Fail> {
    let (board, _owner, mut fronts) = FrontBoard::new(rt.alloc(), 1)?;
    let front = fronts.pop().ok_or("no pass")?;
    assert!(rt; command_ends::<Brand, HostRuntime>(&rt, rt.alloc(), board, front)?);
    Ok(())
}

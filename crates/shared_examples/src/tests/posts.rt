//! What no clause says: that notes are put while there is memory.

ghost use Rattle.std.specs.Prelude.{◌≡◌, ◌≤◌, [], ◌∷◌, IfOk, length};
ghost use Rattle.agent_posts.specs.Mail.{AreFew};

use agent_journal::{Cause, Effect, Entry, Message, Outcome};
use agent_posts::{Kind, Post, Posted, Posts, Shown};
use front_board::{FrontBoard, Named, Owner};
use list_types::{Seq, Text};
use mqtt_packet::Qos;
use std::alloc::{AllocError, Global};
use std::marker::Brand;
use std::sync::{Arc, Wait};
use std::test::Fail;
use task_queues::{GetPass, Mailbox, Note};

/// An entry that completes a command of task 0, and closes a task that there isn't.
fn completing(alloc: Global) -> Result<Entry, AllocError>
    ensures { IfOk result (λ e. AreFew (e ∷ [])) }
{
    let mut effects = Seq::new(alloc);
    effects.push(Effect::Closed { task: 1 })?;
    effects.push(Effect::Done {
        task: 0,
        seq: 0,
        outcome: Outcome::NoRoom,
    })?;
    Ok(Entry {
        at: 5,
        cause: Cause::Opened,
        effects,
    })
}

/// An entry that passes a message to task 0.
fn passing(alloc: Global) -> Result<Entry, AllocError>
    ensures { IfOk result (λ e. AreFew (e ∷ [])) }
{
    let mut effects = Seq::new(alloc);
    effects.push(Effect::Pass {
        task: 0,
        message: Message {
            topic: Text::from_str(alloc, "a")?,
            qos: Qos::AtMostOnce,
            payload: Seq::new(alloc),
        },
    })?;
    Ok(Entry {
        at: 6,
        cause: Cause::Tick,
        effects,
    })
}

fn is_completion(note: Option<Note>) -> bool {
    match note {
        Some(Note::Done { seq, at, .. }) => seq == 0 && at == 5,
        Some(Note::Message { .. }) | Some(Note::Closed { .. }) | None => false,
    }
}

fn is_message(note: Option<Note>) -> bool {
    match note {
        Some(Note::Message { at, .. }) => at == 6,
        Some(Note::Done { .. }) | Some(Note::Closed { .. }) | None => false,
    }
}

/// A call that puts, of which no more is known than that it shows nothing else.
fn put<J: Named, R: Wait>(
    rt: &R,
    posts: &mut Posts<J, 1>,
    entries: &[Entry],
    shown: &mut Shown<J>,
) -> Result<Posted, AllocError>
    requires few { AreFew entries.now }
    requires raised { length entries.now ≤ shown.old }
    ensures shown { shown.new ≡ shown.old }
{
    posts.put(rt, entries, shown)
}

/// What the mailbox holds next.
fn get<J: Named, R: Wait>(rt: &R, mailbox: &Mailbox<J, 1>, getter: &mut GetPass) -> Option<Note>
    requires own { getter.old.mailbox ≡ mailbox.now }
    ensures mailbox { getter.new.mailbox ≡ getter.old.mailbox }
{
    match mailbox.get(rt, getter) {
        Some(note) => Some(note),
        None => None,
    }
}

/// Whether a mailbox of one note is told of both entries, one behind the other.
fn are_told<J: Named, R: Wait>(
    rt: &R,
    mailbox: &Mailbox<J, 1>,
    getter: &mut GetPass,
    posts: &mut Posts<J, 1>,
    entries: &[Entry],
    shown: &mut Shown<J>,
) -> Result<bool, AllocError>
    requires own { getter.old.mailbox ≡ mailbox.now }
    requires few { AreFew entries.now }
    requires raised { length entries.now ≤ shown.old }
{
    let first = put(rt, posts, entries, shown)? == Posted::Put(0, Kind::Done(0));
    let full = put(rt, posts, entries, shown)? == Posted::Full(0);
    let completed = is_completion(get(rt, mailbox, getter));
    let second = put(rt, posts, entries, shown)? == Posted::Put(0, Kind::Message);
    let none = put(rt, posts, entries, shown)? == Posted::Nothing;
    let told = is_message(get(rt, mailbox, getter));
    Ok(first && full && completed && second && none && told)
}

fn both_are_told<J: Named, R: Wait>(
    rt: &R,
    alloc: Global,
    board: FrontBoard,
    owner: Owner,
) -> Result<bool, AllocError>
    requires named { (board ≡ J.board) × (owner.board ≡ J.board) }
    requires fresh { owner.number ≡ 0 }
{
    let entries = vec![in alloc; completing(alloc)?, passing(alloc)?]?;
    let (mailbox, putter, mut getter) = Mailbox::<J, 1>::new(rt, alloc)?;
    let mailbox = Arc::new(alloc, mailbox)?;
    let ends = vec![in alloc; Post::new(Arc::try_clone(&mailbox)?, putter)]?;
    let mut posts = Posts::new(alloc, ends);
    let mut shown = Shown::new(Arc::new(alloc, board)?, owner);
    shown.raise(2);
    are_told(
        rt,
        &mailbox,
        &mut getter,
        &mut posts,
        entries.as_slice(),
        &mut shown,
    )
}

#[test]
fn each_note_is_put_once(rt: HostRuntime) -> Result<(), Fail> {
    let (board, owner, _fronts) = FrontBoard::new(rt.alloc(), 1)?;
    assert!(rt; both_are_told::<Brand, HostRuntime>(&rt, rt.alloc(), board, owner)?);
    Ok(())
}

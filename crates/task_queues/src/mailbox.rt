//! A mailbox of notes, and the calls on it.

ghost use Rattle.std.specs.Prelude.{◌≡◌, ◌<◌, ◌≤◌, ◌+◌, [], ◌∷◌, ◌++◌, Some, IfOk, IfErr, OnOk, IfSome, IfNone};
ghost use Rattle.task_queues.specs.Fronts.{IsSoundNote};
ghost use Rattle.task_queues.specs.MailboxPasses.{fresh_putter, fresh_getter, WasFull, WasEmpty, Holds};

use crate::end::End;
use crate::mailbox_rule::{Empty, Full, Got, HandedOver, Look, Meet, Part, Put, Release, Spare};
use crate::note::Note;
use crate::pass::{GetPass, PutPass};
use crossbeam_queue::RuledArrayQueue;
use front_board::Named;
use std::alloc::{AllocError, Global};
use std::marker::Model;
use std::mem;
use std::sync::Wait;

/// A mailbox of at most INBOX notes, 1 to 1,024, from one who puts to one who gets. What was got, followed
/// by what the mailbox holds, is what was put: the law `each_mailbox_is_lawful`. Each call may wait for a
/// thread that is at its own step of the same mailbox, and none but `new` takes memory. Contracts see a
/// mailbox as its name.
#[derive(Drop)]
pub struct Mailbox<J: Named, const INBOX: usize> {
    line: RuledArrayQueue<Note, End, HandedOver<J>>,
}

impl<J: Named, const INBOX: usize> Model for Mailbox<J, INBOX> {
    ghost use Rattle.std.specs.Prelude.{◌≡◌};
    ghost use Rattle.atomic_table.specs.Seated.{TableId};
    ghost use Rattle.crossbeam_queue.specs.Passes.{ruled_capacity};

    ghost Value = { TableId };

    ghost view = { λ m. m.line.table.shared.table_id };

    ghost invariant = { λ m. ruled_capacity m.line ≡ INBOX };
}

impl<J: Named, const INBOX: usize> Mailbox<J, INBOX> {
    /// An empty mailbox and its two ends. `Err` where memory runs out.
    pub fn new<R: Wait>(
        _rt: &R,
        alloc: Global,
    ) -> Result<(Mailbox<J, INBOX>, PutPass, GetPass), AllocError>
        requires size { (0 < INBOX) × (INBOX ≤ 1024) }
        ensures putter { IfOk result (λ r. r.1 ≡ fresh_putter r.0) }
        ensures getter { IfOk result (λ r. r.2 ≡ fresh_getter r.0) }
    {
        let (line, mut getter) = RuledArrayQueue::ruled(alloc, INBOX)?;
        let putter = line.another::<Part>(&mut getter);
        Ok((
            Mailbox { line },
            PutPass { pass: putter },
            GetPass { pass: getter },
        ))
    }

    /// Puts a note behind all that the mailbox holds, in one step. `Err` only where the mailbox was full at
    /// a step of this call; the note comes back.
    pub fn put<R: Wait>(&self, rt: &R, pass: &mut PutPass, note: Note) -> Result<(), Note>
        requires own { pass.old.mailbox ≡ self.now }
        requires sound { IsSoundNote J.board note }
        ensures put { OnOk result (pass.new ≡ record pass.old { put = pass.old.put ++ note ∷ [] }) }
        ensures back { IfErr result (λ back. back ≡ note) }
        ensures full { IfErr result (λ _. WasFull J.board INBOX pass.old) }
        ensures counted { IfErr result (λ _. pass.new ≡ record pass.old { fulls = pass.old.fulls + 1 }) }
    {
        match self.line.push_as::<Put<J>, R>(rt, &mut pass.pass, note) {
            Ok(()) => Ok(()),
            Err(back) => {
                self.count_full(pass);
                Err(back)
            }
        }
    }

    /// Gets the oldest note that the mailbox holds, in one step. `None` only where the mailbox was empty at
    /// a step of this call; then all is got that was put, where the other end was joined.
    pub fn get<R: Wait>(&self, rt: &R, pass: &mut GetPass) -> Option<Note>
        requires own { pass.old.mailbox ≡ self.now }
        ensures got { IfSome result (λ n. pass.new ≡ record pass.old { got = pass.old.got ++ n ∷ [] }) }
        ensures sound { IfSome result (λ n. IsSoundNote J.board n) }
        ensures empty { IfNone result (WasEmpty J.board pass.old) }
        ensures counted { IfNone result (pass.new ≡ record pass.old { empties = pass.old.empties + 1 }) }
        ensures all { IfNone result (IfSome pass.old.joined (λ put. pass.old.got ≡ put)) }
    {
        match self.pop(rt, pass) {
            Some(note) => Some(note),
            None => {
                self.count_empty(pass);
                None
            }
        }
    }

    /// The one who gets learns all that was put by the other, who puts no more. From then on a `None` of
    /// `get` says that all of it was got.
    pub fn join<R: Wait>(&self, _rt: &R, pass: &mut GetPass, put: PutPass)
        requires own { (pass.old.mailbox ≡ self.now) × (put.mailbox ≡ self.now) }
        ensures joined { pass.new ≡ record pass.old { joined = Some put.put } }
    {
        self.line.absorb::<Release>(&mut pass.pass, put.pass);
    }

    /// How many notes the mailbox holds at a step of this call: what was put is what was got and as many
    /// more, so where the answer is 0 all is got. Neither pass changes.
    pub fn held<R: Wait>(&self, rt: &R, putter: &mut PutPass, getter: &mut GetPass) -> usize
        requires own { (putter.old.mailbox ≡ self.now) × (getter.old.mailbox ≡ self.now) }
        ensures held { Holds putter.old getter.old result }
        ensures putter { putter.new ≡ putter.old }
        ensures getter { getter.new ≡ getter.old }
    {
        // A look tells one pass of what it knows itself: so for the look the two are one pass.
        let spare = self.line.another::<Spare>(&mut putter.pass);
        self.line
            .absorb::<Meet>(&mut getter.pass, mem::replace(&mut putter.pass, spare));
        let held = self.line.len_as::<Look<J>, R>(rt, &mut getter.pass);
        putter.pass = self.line.another::<Part>(&mut getter.pass);
        held
    }

    /// Gets the oldest note, or finds the mailbox empty, in one step.
    fn pop<R: Wait>(&self, rt: &R, pass: &mut GetPass) -> Option<Note>
        requires own { pass.old.mailbox ≡ self.now }
        ensures got { IfSome result (λ n. pass.new ≡ record pass.old { got = pass.old.got ++ n ∷ [] }) }
        ensures sound { IfSome result (λ n. IsSoundNote J.board n) }
        ensures empty { IfNone result ((pass.new ≡ pass.old) × WasEmpty J.board pass.old) }
    {
        self.line.pop_as::<Got<J>, R>(rt, &mut pass.pass)
    }

    /// Counts a look that found the mailbox full, by a step behind it. Nothing else raises the count.
    fn count_full(&self, pass: &mut PutPass)
        requires own { pass.old.mailbox ≡ self.now }
        requires full { WasFull J.board INBOX pass.old }
        ensures counted { pass.new ≡ record pass.old { fulls = pass.old.fulls + 1 } }
    {
        self.line.another::<Full>(&mut pass.pass);
    }

    /// Counts a look that found the mailbox empty, by a step behind it. Nothing else raises the count.
    fn count_empty(&self, pass: &mut GetPass)
        requires own { pass.old.mailbox ≡ self.now }
        requires empty { WasEmpty J.board pass.old }
        ensures counted { pass.new ≡ record pass.old { empties = pass.old.empties + 1 } }
    {
        self.line.another::<Empty>(&mut pass.pass);
    }
}

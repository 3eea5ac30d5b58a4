//! The agent's end of one task's mailbox.

ghost use Rattle.std.specs.Prelude.{◌≡◌, [], ◌∷◌, ◌++◌, ◌+◌, OnOk, IfErr};
ghost use Rattle.task_queues.specs.MailboxPasses.{WasFull};

use crate::made::Made;
use front_board::Named;
use std::alloc::Global;
use std::marker::Model;
use std::sync::{Arc, Wait};
use task_queues::{Mailbox, PutPass};

/// A mailbox and the pass that puts. Contracts see the pass.
#[derive(Drop)]
pub struct Post<J: Named, const INBOX: usize> {
    mailbox: Arc<Mailbox<J, INBOX>, Global>,
    putter: PutPass,
}

impl<J: Named, const INBOX: usize> Model for Post<J, INBOX> {
    ghost use Rattle.std.specs.Prelude.{◌≡◌};
    ghost use Rattle.std.specs.Arc.{arc_value};
    ghost use Rattle.task_queues.specs.MailboxPasses.{Putting};

    ghost Value = { Putting };

    ghost view = { λ p. p.putter };

    ghost invariant = { λ p. p.putter.mailbox ≡ arc_value p.mailbox };
}

impl<J: Named, const INBOX: usize> Post<J, INBOX> {
    ghost use Rattle.std.specs.Arc.{arc_value};

    /// The end of a mailbox.
    pub fn new(mailbox: Arc<Mailbox<J, INBOX>, Global>, putter: PutPass) -> Self
        requires own { putter.mailbox ≡ arc_value mailbox }
        ensures { result ≡ putter }
    {
        Post { mailbox, putter }
    }

    /// Puts a note. `Err` only where the mailbox was full at a step of this call; the note comes back.
    pub(crate) fn put<R: Wait>(&mut self, rt: &R, made: Made<J>) -> Result<(), Made<J>>
        ensures put { OnOk result (self.new ≡ record self.old { put = self.old.put ++ made ∷ [] }) }
        ensures back { IfErr result (λ back. back ≡ made) }
        ensures full { IfErr result (λ _. WasFull J.board INBOX self.old) }
        ensures counted { IfErr result (λ _. self.new ≡ record self.old { fulls = self.old.fulls + 1 }) }
    {
        match self.mailbox.put(rt, &mut self.putter, made.into_note()) {
            Ok(()) => Ok(()),
            Err(back) => Err(Made::new(back)),
        }
    }

    /// The pass, which learns what was got behind it.
    pub fn into_putter(self) -> PutPass
        ensures { result ≡ self }
    {
        let Post { mailbox: _, putter } = self;
        putter
    }
}

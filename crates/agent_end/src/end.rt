//! The agent's end, and what it holds.

ghost use Rattle.std.specs.Prelude.{◌≡◌, ◌≤◌, [], reverse, false, length};
ghost use Rattle.agent_table.specs.Histories.{IsLegalPast};
ghost use Rattle.agent_end.specs.Serving.{Serving, IsServing, journal_in};
ghost use Rattle.agent_end.specs.Owed.{NoneIsToldTwice};

use crate::owed::Owed;
use agent_journal::Entry;
use agent_posts::{Posts, Shown};
use agent_requests::Intake;
use front_board::Named;
use std::marker::Model;

/// The agent of many tasks. Between two calls its journal is legal. Until memory ran out, what it took from the queue are the
/// journal's Takes, and each task's mailbox was put a front of what the journal tells that task. From then on it works by the mailboxes
/// alone.
#[derive(Drop)]
pub struct AgentEnd<
    J: Named,
    const QUEUE: usize,
    const INBOX: usize,
    const ACKS: usize,
    const IN: usize,
    const ROUTES: usize,
> {
    pub(crate) intake: Intake<J, QUEUE, ACKS, IN, ROUTES>,
    pub(crate) posts: Posts<J, INBOX>,
    /// It shows all of the journal.
    pub(crate) shown: Shown<J>,
    /// Whether memory ran out in a turn.
    pub(crate) short: bool,
    /// What each task is owed, which is needed once memory ran out.
    pub(crate) owed: Owed,
}

impl<
    J: Named,
    const QUEUE: usize,
    const INBOX: usize,
    const ACKS: usize,
    const IN: usize,
    const ROUTES: usize,
> Model for AgentEnd<J, QUEUE, INBOX, ACKS, IN, ROUTES> {
    ghost use Rattle.std.specs.Prelude.{◌≡◌, length};
    ghost use Rattle.agent_end.specs.Serving.{Serving, IsServing};
    ghost use Rattle.agent_end.specs.Owed.{Owes, held_in};

    ghost Value = { Serving };

    ghost view = { λ a. record { taking = a.intake; mail = a.posts; short = a.short } };

    ghost invariant = { λ a. IsServing (record { taking = a.intake; mail = a.posts; short = a.short }) × (a.shown ≡ length a.intake.recorded.past)
        × Owes a.owed.commands.items a.owed.closed a.owed.left a.intake.receiver a.posts.putters (held_in (record { taking = a.intake; mail = a.posts; short = a.short })) };
}

impl<
    J: Named,
    const QUEUE: usize,
    const INBOX: usize,
    const ACKS: usize,
    const IN: usize,
    const ROUTES: usize,
> AgentEnd<J, QUEUE, INBOX, ACKS, IN, ROUTES> {
    /// An agent before its first entry, with a mailbox for each of its tasks, at most eight, by number.
    pub fn new(
        intake: Intake<J, QUEUE, ACKS, IN, ROUTES>,
        posts: Posts<J, INBOX>,
        shown: Shown<J>,
    ) -> Self
        requires serving { IsServing (record { taking = intake; mail = posts; short = false }) }
        requires shown { shown ≡ length intake.recorded.past }
        requires fresh { intake.recorded.past ≡ [] }
        requires few { intake.recorded.setup.tasks ≤ 8 }
        ensures { result ≡ record { taking = intake; mail = posts; short = false } }
    {
        let owed = Owed::new(posts.allocator());
        AgentEnd {
            intake,
            posts,
            shown,
            short: false,
            owed,
        }
    }

    /// The journal so far, oldest entry first. It is legal at any moment, also where memory ran out; and at any moment no command was
    /// told twice.
    pub fn journal(&self) -> &[Entry]
        ensures journal { result.now ≡ journal_in self.now }
        ensures legal { IsLegalPast self.now.taking.recorded.setup self.now.taking.recorded.sizes self.now.taking.recorded.past }
        ensures serving { IsServing self.now }
        ensures once { NoneIsToldTwice self.now }
    {
        self.intake.recorder().entries()
    }

    /// The agent with its end of the queue, and its ends of the mailboxes.
    pub fn into_parts(self) -> (Intake<J, QUEUE, ACKS, IN, ROUTES>, Posts<J, INBOX>)
        ensures taking { result.0 ≡ self.taking }
        ensures mail { result.1 ≡ self.mail }
        ensures serving { IsServing self }
    {
        let AgentEnd { intake, posts, .. } = self;
        (intake, posts)
    }
}

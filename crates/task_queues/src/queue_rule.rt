//! The rule over what a queue holds and what its passes know, and the kinds of step that keep it.

ghost use Rattle.task_queues.specs.Roles.{receiver, idle, full, empty, hired, hiring, sending, joining, both, as_receiver, as_sender};
ghost use Rattle.task_queues.specs.Moments.{Moment};
ghost use Rattle.task_queues.specs.QueueRule.{IsInOrder, Takes};

use crate::role::Role;
use crate::submission::Submission;
use crossbeam_queue::protocol::{Join, Lesson, Outcome, Protocol, Split};
use front_board::Named;
use std::marker::PhantomData;

/// What was taken and what is held is, of each sender, what it sent. Marks are of J's board.
pub struct InOrder<J> {
    of: PhantomData<J>,
}

impl<J: Named> Protocol<Submission, Role> for InOrder<J> {
    ghost use Rattle.std.specs.Prelude.{[]};

    ghost holds = { IsInOrder J.board };

    ghost first = { receiver [] 0 [] 0 };
}

/// From the receiver the next sender is split off.
pub struct Hire;

impl Split<Role> for Hire {
    ghost left = { hiring };

    ghost right = { hired };
}

/// A look has found the queue full.
pub struct Full;

impl Split<Role> for Full {
    ghost left = { full };

    ghost right = { λ _. idle };
}

/// A look has found the queue empty.
pub struct Empty;

impl Split<Role> for Empty {
    ghost left = { empty };

    ghost right = { λ _. idle };
}

/// A pass that knows nothing is made beside one that stays as it is.
pub struct Spare;

impl Split<Role> for Spare {
    ghost left = { λ v. v };

    ghost right = { λ _. idle };
}

/// The receiver's pass becomes a sender's too.
pub struct Meet;

impl Join<Role> for Meet {
    ghost both = { both };

    ghost spent = { idle };
}

/// A pass that is the receiver's and a sender's is cut into both.
pub struct Part;

impl Split<Role> for Part {
    ghost left = { as_receiver };

    ghost right = { as_sender };
}

/// The receiver takes in what a sender knows, which sends no more.
pub struct Release;

impl Join<Role> for Release {
    ghost both = { joining };

    ghost spent = { idle };
}

/// A sender's push.
pub struct Sent<J> {
    of: PhantomData<J>,
}

impl<J: Named> Outcome<Submission, Role> for Sent<J> {
    ghost use Rattle.std.specs.Prelude.{◌≡◌};

    ghost then = { λ v s w. w ≡ sending v s };
}

impl<J: Named> Lesson<Submission, Role> for Sent<J> {
    ghost fact = { Moment (IsInOrder J.board) };
}

/// The receiver's pop.
pub struct Taken<J> {
    of: PhantomData<J>,
}

impl<J: Named> Outcome<Submission, Role> for Taken<J> {
    ghost then = { Takes J.board };
}

impl<J: Named> Lesson<Submission, Role> for Taken<J> {
    ghost fact = { Moment (IsInOrder J.board) };
}

/// A look of the receiver and a sender.
pub struct Look<J> {
    of: PhantomData<J>,
}

impl<J: Named> Lesson<Submission, Role> for Look<J> {
    ghost fact = { Moment (IsInOrder J.board) };
}

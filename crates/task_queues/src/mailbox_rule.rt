//! The rule over what a mailbox holds and what its passes know, and the kinds of step that keep it.

ghost use Rattle.task_queues.specs.Ends.{whole, idle, full, empty, putting, getting, joining, both, as_getter, as_putter};
ghost use Rattle.task_queues.specs.Moments.{Moment};
ghost use Rattle.task_queues.specs.MailboxRule.{IsHandedOver};

use crate::end::End;
use crate::note::Note;
use crossbeam_queue::protocol::{Join, Lesson, Outcome, Protocol, Split};
use front_board::Named;
use std::marker::PhantomData;

/// What was got, followed by what is held, is what was put. Marks are of J's board.
pub struct HandedOver<J> {
    of: PhantomData<J>,
}

impl<J: Named> Protocol<Note, End> for HandedOver<J> {
    ghost holds = { IsHandedOver J.board };

    ghost first = { whole };
}

/// A pass that is both ends is cut into the one that gets, and the one that puts.
pub struct Part;

impl Split<End> for Part {
    ghost left = { as_getter };

    ghost right = { as_putter };
}

/// A look has found the mailbox full.
pub struct Full;

impl Split<End> for Full {
    ghost left = { full };

    ghost right = { λ _. idle };
}

/// A look has found the mailbox empty.
pub struct Empty;

impl Split<End> for Empty {
    ghost left = { empty };

    ghost right = { λ _. idle };
}

/// A pass that knows nothing is made beside one that stays as it is.
pub struct Spare;

impl Split<End> for Spare {
    ghost left = { λ v. v };

    ghost right = { λ _. idle };
}

/// The pass that gets becomes both ends.
pub struct Meet;

impl Join<End> for Meet {
    ghost both = { both };

    ghost spent = { idle };
}

/// The one who gets takes in what the other knows, who puts no more.
pub struct Release;

impl Join<End> for Release {
    ghost both = { joining };

    ghost spent = { idle };
}

/// A push.
pub struct Put<J> {
    of: PhantomData<J>,
}

impl<J: Named> Outcome<Note, End> for Put<J> {
    ghost use Rattle.std.specs.Prelude.{◌≡◌};

    ghost then = { λ v n w. w ≡ putting v n };
}

impl<J: Named> Lesson<Note, End> for Put<J> {
    ghost fact = { Moment (IsHandedOver J.board) };
}

/// A pop.
pub struct Got<J> {
    of: PhantomData<J>,
}

impl<J: Named> Outcome<Note, End> for Got<J> {
    ghost use Rattle.std.specs.Prelude.{◌≡◌};
    ghost use Rattle.task_queues.specs.Fronts.{IsSoundNote};

    ghost then = { λ v n w. (w ≡ getting v n) × IsSoundNote J.board n };
}

impl<J: Named> Lesson<Note, End> for Got<J> {
    ghost fact = { Moment (IsHandedOver J.board) };
}

/// A look of both ends.
pub struct Look<J> {
    of: PhantomData<J>,
}

impl<J: Named> Lesson<Note, End> for Look<J> {
    ghost fact = { Moment (IsHandedOver J.board) };
}

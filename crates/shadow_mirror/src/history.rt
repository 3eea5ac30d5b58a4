//! A list of changes that only grows. It exists in the proofs alone.
ghost use Rattle.std.specs.Prelude.{◌≡◌, ◌+◌, ◌==◌, ◌<◌, ◌≤◌, ◌^◌, ◌++◌, ◌∷◌, ◌⊎◌, [], length, MatchBool, IsTrue, IfOk, List, nat_le, IsFalse};
ghost use mathlib.Core.List.{IsPrefix};

use device_docs::Change;
use logbook::{Gain, Offer, Plain, Play, Rule, Seen, Start, Word};
use std::marker::Model;

/// The rule of the history.
pub struct Law;

impl Rule<Change, u64> for Law {
    ghost use Rattle.std.specs.Prelude.{[]};
    ghost use base.Fml.{ftrue};
    ghost use Rattle.shadow_mirror.specs.Rules.{IsKept};

    ghost holds = { λ cells log. IsKept cells log };

    ghost first = { [] };

    ghost hinted = { λ n log. Unit {0} };

    ghost shows = { λ log. [] };

    ghost keeps = { λ names log. ftrue };

    ghost moves = { λ ask before after answer. Unit {0} };
}

/// Nothing is traded.
pub struct Nothing;

impl Gain<Change, u64> for Nothing {
    ghost use base.Fml.{ftrue};

    ghost after = { λ names about answer. ftrue };
}

/// A step that adds a change.
pub struct Add;

impl Play<Change, u64> for Add {
    ghost use Rattle.shadow_mirror.specs.Rules.{Adds};

    ghost then = { Adds };
}

impl Plain<Change, Change, u64> for Add {
    ghost use Rattle.std.specs.Prelude.{None};

    ghost ask = { λ change. change };

    ghost state = { λ change. None };
}

/// The length of a history, and the empty one.
pub fn open() -> (Head, History)
    ensures { (result.1.changes ≡ []) × (result.0 ≡ result.1.book) }
{
    let (seen, mut first, _second) = Seen::open(Start::alone(), 0, 0);
    (
        Head {
            head: Word::tracked(0, &mut first),
        },
        History { count: 0, seen },
    )
}

/// The length of the history. Contracts see it as the history's name.
#[derive(Drop)]
pub struct Head {
    head: Word<Change, u64, Law>,
}

impl Model for Head {
    ghost use Rattle.std.specs.Prelude.{◌≡◌};
    ghost use Rattle.logbook.specs.Pages.{Book};
    ghost use Rattle.shadow_mirror.specs.Rules.{head_of};

    ghost Value = { Book };

    ghost view = { λ h. h.head.book };

    ghost invariant = { λ h. h.head ≡ head_of h.head.book };
}

/// A beginning of the history. Contracts see its name and its changes.
#[derive(Drop)]
pub struct History {
    count: u64,
    seen: Seen<Change, u64, Law>,
}

impl Model for History {
    ghost use Rattle.std.specs.Prelude.{◌≡◌, length};
    ghost use Rattle.shadow_mirror.specs.Pasts.{Past};

    ghost Value = { Past };

    ghost view = { λ f. record { book = f.seen.book; changes = f.seen.log } };

    ghost invariant = { λ f. f.count ≡ length f.seen.log };
}

impl History {
    /// How many changes it has.
    pub fn len(&self) -> u64
        ensures { result ≡ length self.now.changes }
    {
        self.count
    }

    /// A copy.
    pub fn again(&self) -> History
        ensures { result ≡ self.now }
    {
        History {
            count: self.count,
            seen: self.seen.again(),
        }
    }

    /// Whether the other one begins with this one.
    pub fn begins(&self, other: &History) -> bool
        requires { other.now.book ≡ self.now.book }
        ensures begins { IsTrue result → IsPrefix self.now.changes other.now.changes }
        ensures begun { IsFalse result → IsPrefix other.now.changes self.now.changes }
        ensures by_length { result ≡ nat_le (length self.now.changes) (length other.now.changes) }
    {
        let mut both = self.seen.again();
        both.learn(&other.seen);
        self.count <= other.count
    }

    /// The longer of two, which begins with both.
    pub fn longer(&self, other: &History) -> History
        requires { other.now.book ≡ self.now.book }
        ensures book { result.book ≡ self.now.book }
        ensures this { IsPrefix self.now.changes result.changes }
        ensures that { IsPrefix other.now.changes result.changes }
    {
        if self.begins(other) {
            other.again()
        } else {
            self.again()
        }
    }

    /// Adds a change, and says whether it did.
    pub fn push(&mut self, head: &Head, change: &Change) -> bool
        requires { (length self.old.changes < 2 ^ 62) × (head.now ≡ self.old.book) }
        ensures { MatchBool result (self.new ≡ record self.old { changes = self.old.changes ++ change.now ∷ [] }) (IsPrefix self.old.changes self.new.changes) }
    {
        let mut offer: Offer<Change, u64, Law, Nothing> = self
            .seen
            .plain::<Nothing, Change, Add>(change);
        let mut pen = self.seen.no_pen();
        let count = self.count;
        let found = head
            .head
            .compare_exchange::<Add, Nothing>(
                count,
                count + 1,
                &mut self.seen,
                &mut offer,
                &mut pen,
            );
        self.count = if found == count { count + 1 } else { found };
        found == count
    }
}

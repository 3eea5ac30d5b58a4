//! A queue that takes in a whole piece at a time and gives its items one by one.

ghost use Rattle.std.specs.Prelude.{◌≡◌, ◌++◌, [], ◌∷◌, IfNone, OnOk, OnSome};
ghost use Rattle.std.specs.Option.{option_to_list};
ghost use Rattle.session_world.specs.Queued.{items_in, HasRoom, HasSpare};

use mqtt_packet::NoMemory;
use std::alloc::Global;
use std::collections::VecDeque;

/// Items in the pieces in which they came. Once there is room for a piece, taking it in needs no memory, however long it is.
#[derive(Debug, Drop)]
pub(crate) struct Queue<T> {
    /// What is left of the first piece, the last item first.
    first: Vec<T>,
    rest: VecDeque<Vec<T>>,
}

impl<T: Drop> Queue<T> {
    pub(crate) fn new(alloc: Global) -> Self
        ensures { items_in result ≡ [] }
    {
        Queue {
            first: Vec::new(alloc),
            rest: VecDeque::new(alloc),
        }
    }

    /// Makes room for one more piece. Where memory runs out, nothing has changed.
    pub(crate) fn reserve(&mut self) -> Result<(), NoMemory>
        ensures items { items_in self.new ≡ items_in self.old }
        ensures room { OnOk result (HasRoom self.new) }
    {
        self.rest.reserve(1)
    }

    /// Takes in a piece behind all others.
    pub(crate) fn push(&mut self, piece: Vec<T>)
        requires { HasRoom self.old }
        ensures { items_in self.new ≡ items_in self.old ++ piece.items }
    {
        self.rest.push_back_reserved(piece);
    }

    /// The first item, if there is one. It can be put back without memory.
    pub(crate) fn pop(&mut self) -> Option<T>
        ensures items { items_in self.old ≡ option_to_list result ++ items_in self.new }
        ensures none { IfNone result (items_in self.old ≡ []) }
        ensures spare { OnSome result (HasSpare self.new) }
    {
        self.turn();
        self.first.pop()
    }

    /// Puts the first item back.
    pub(crate) fn put_back(&mut self, item: T)
        requires { HasSpare self.old }
        ensures { items_in self.new ≡ item ∷ items_in self.old }
    {
        self.first.push_reserved(item);
    }

    /// Begins the next piece where the first one has ended.
    fn turn(&mut self)
        ensures items { items_in self.new ≡ items_in self.old }
        ensures first { self.new.first.items ≡ [] → items_in self.new ≡ [] }
    {
        'pieces: while self.first.is_empty() {
            match self.rest.pop_front() {
                Some(piece) => {
                    self.first = piece;
                    self.first.reverse();
                }
                None => return,
            }
        }
    }
}

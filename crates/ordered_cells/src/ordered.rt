//! Items in order.

ghost use Rattle.std.specs.Prelude.{◌≡◌, ◌<◌, ◌≤◌, ◌∷◌, ◌++◌, [], Bool, Option, find, get_or, length, slice_get, IfOk};
ghost use Rattle.std.specs.List.{filter_map, list_any};
ghost use Rattle.std.specs.Option.{option_copied};
ghost use Rattle.ordered_cells.specs.Cells.{Answers, Tests};

use crate::slots::Slots;
use std::alloc::{AllocError, Global};
use std::marker::Model;

/// At most N items, in the order in which they were added. Contracts see the list of them. N is 1 to
/// 65,536. Only `new` takes memory, and no item moves to another cell.
#[derive(Debug, Drop)]
pub struct OrderedCells<T, const N: usize> {
    slots: Slots<T, N>,
}

impl<T, const N: usize> Model for OrderedCells<T, N> {
    ghost use Rattle.std.specs.Prelude.{List};
    ghost use Rattle.std.specs.Coded.{coded_list};
    ghost use Rattle.ordered_cells.specs.Cells.{items};

    ghost Value = { List T };

    ghost coded = { coded_list T.code };

    ghost view = { λ o. items o.slots.cells.items o.slots.order.items };
}

impl<T: Drop, const N: usize> OrderedCells<T, N> {
    /// No item. `Err` where memory runs out.
    pub fn new(alloc: Global) -> Result<Self, AllocError>
        requires size { (0 < N) × (N ≤ 65536) }
        ensures { IfOk result (λ items. items ≡ []) }
    {
        Ok(OrderedCells {
            slots: Slots::new(alloc)?,
        })
    }

    /// How many items are there.
    pub fn len(&self) -> usize
        ensures count { result ≡ length self.now }
        ensures most { result ≤ N }
        ensures few { N ≤ 65536 }
    {
        self.slots.len()
    }

    /// The item at place `k`, counted from 0 in the order in which they were added.
    pub fn get(&self, k: usize) -> Option<&T>
        ensures { option_copied result ≡ slice_get self.now k }
    {
        self.slots.get(k)
    }

    /// The item at a place that there is.
    pub fn at(&self, k: usize) -> &T
        requires { k < length self.now }
        ensures { result.now ≡ get_or self.now k result.now }
    {
        match self.get(k) {
            Some(item) => item,
            None => unreachable!(),
        }
    }

    /// Whether an item passes a test.
    pub fn any<F: Fn(&T) -> bool>(&self, test: F) -> bool
        requires { F.IsAlwaysCallable test }
        ensures { (p : T → Bool) → Tests F.post test p → result ≡ list_any p self.now }
    {
        self.find(test).is_some()
    }

    /// The first item that passes a test.
    pub fn find<F: Fn(&T) -> bool>(&self, test: F) -> Option<&T>
        requires { F.IsAlwaysCallable test }
        ensures { (p : T → Bool) → Tests F.post test p → option_copied result ≡ find p self.now }
    {
        self.slots.find(test)
    }

    /// Adds an item behind all others.
    pub fn push(&mut self, item: T)
        requires room { length self.old < N }
        ensures { self.new ≡ self.old ++ item ∷ [] }
    {
        self.slots.put(0, item);
    }

    /// Gives each item to a closure, and keeps what that answers in the item's place: another item, or
    /// none. The others keep their order.
    pub fn update<F: Fn(T) -> Option<T>>(&mut self, f: F)
        requires { F.IsAlwaysCallable f }
        ensures { (p : T → Option T) → Answers F.post f p → self.new ≡ filter_map p self.old }
    {
        self.slots.update(f);
    }
}

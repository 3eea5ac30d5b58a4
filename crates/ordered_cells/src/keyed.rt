//! Items in order, found by their keys.

ghost use Rattle.std.specs.Prelude.{◌≡◌, ℕ, ◌<◌, ◌≤◌, ◌==◌, ◌∷◌, ◌++◌, [], ◌%◌, Bool, length, find, slice_get, false, true, IfOk, IfSome, IfNone, if◌then◌else◌};
ghost use Rattle.std.specs.Bool.{OnFalse};
ghost use Rattle.std.specs.List.{list_any};
ghost use Rattle.std.specs.Option.{option_copied};
ghost use Rattle.std.specs.Vec.{vec_capacity};
ghost use Rattle.ordered_cells.specs.Cells.{Tests, content};
ghost use Rattle.ordered_cells.specs.Keys.{AreKeyed, Differ, has_key, is_of, others};

use crate::slots::{Slots, remove};
use std::alloc::{AllocError, Global};
use std::marker::Model;

/// What has a small number by which it is found.
pub trait Keyed: Drop {
    ghost key_of: { Self → ℕ };

    fn key(&self) -> u16
        ensures { result ≡ key_of self.now };
}

impl Keyed for u16 {
    ghost key_of = { λ n. n };

    fn key(&self) -> u16 {
        *self
    }
}

/// At most N items, no two of one key, in the order in which they were added. Contracts see the list of
/// them. N is 1 to 65,536. Only `new` takes memory.
///
/// An item stands in the cell of its key's remainder by N where that is free, and else in the first free
/// cell. So a key is looked for in one cell, and besides in those alone whose items aren't at home: in none
/// where the keys are given in turn. `take` besides goes over the order once, of two bytes a cell.
#[derive(Debug, Drop)]
pub struct KeyedCells<T: Keyed, const N: usize> {
    slots: Slots<T, N>,
    away: Vec<u16>,
}

impl<T: Keyed, const N: usize> Model for KeyedCells<T, N> {
    ghost use Rattle.std.specs.Prelude.{◌≤◌, List};
    ghost use Rattle.std.specs.Coded.{coded_list};
    ghost use Rattle.std.specs.Vec.{vec_capacity};
    ghost use Rattle.ordered_cells.specs.Cells.{items};
    ghost use Rattle.ordered_cells.specs.Keys.{AreKeyed};

    ghost Value = { List T };

    ghost coded = { coded_list T.code };

    ghost view = { λ k. items k.slots.cells.items k.slots.order.items };

    ghost invariant = { λ k. AreKeyed T.key_of N k.slots.cells.items k.slots.order.items k.away.items × (N ≤ vec_capacity k.away) };
}

impl<T: Keyed, const N: usize> KeyedCells<T, N> {
    /// No item. `Err` where memory runs out.
    pub fn new(alloc: Global) -> Result<Self, AllocError>
        requires size { (0 < N) × (N ≤ 65536) }
        ensures { IfOk result (λ items. items ≡ []) }
    {
        Ok(KeyedCells {
            slots: Slots::new(alloc)?,
            away: Vec::with_capacity(alloc, N)?,
        })
    }

    /// How many items are there. No two of them have one key.
    pub fn len(&self) -> usize
        ensures count { result ≡ length self.now }
        ensures most { result ≤ N }
        ensures differ { Differ T.key_of self.now }
    {
        self.slots.len()
    }

    pub fn is_empty(&self) -> bool
        ensures { result ≡ (length self.now == 0) }
    {
        self.slots.len() == 0
    }

    /// Whether N items are there. Otherwise there is room for one more.
    pub fn is_full(&self) -> bool
        ensures full { result ≡ (length self.now == N) }
        ensures room { OnFalse result (length self.now < N) }
    {
        self.slots.len() == N
    }

    /// The item at place `k`, counted from 0 in the order in which they were added.
    pub fn get(&self, k: usize) -> Option<&T>
        ensures { option_copied result ≡ slice_get self.now k }
    {
        self.slots.get(k)
    }

    /// The item of a key. No two of them have one key.
    pub fn find(&self, key: u16) -> Option<&T>
        ensures found { option_copied result ≡ find (has_key T.key_of key) self.now }
        ensures differ { Differ T.key_of self.now }
    {
        let cell = cell_of(&self.slots, &self.away, key)?;
        self.slots.at(cell)
    }

    /// The first item that passes a test. It goes over them in their order.
    pub fn find_by<F: Fn(&T) -> bool>(&self, test: F) -> Option<&T>
        requires { F.IsAlwaysCallable test }
        ensures { (p : T → Bool) → Tests F.post test p → option_copied result ≡ find p self.now }
    {
        self.slots.find(test)
    }

    /// Whether there is an item of this key.
    pub fn has(&self, key: u16) -> bool
        ensures { result ≡ list_any (has_key T.key_of key) self.now }
    {
        cell_of(&self.slots, &self.away, key).is_some()
    }

    /// Adds an item behind all others.
    pub fn push(&mut self, item: T)
        requires room { length self.old < N }
        requires fresh { list_any (has_key T.key_of (T.key_of item)) self.old ≡ false }
        ensures { self.new ≡ self.old ++ item ∷ [] }
    {
        let home = usize::from(item.key()) % N;
        let cell = self.slots.put(home, item);
        note(&mut self.away, cell, home);
    }

    /// Takes the item of a key out, and the others keep their order. `None`, and nothing has changed, where
    /// there is no such item.
    pub fn take(&mut self, key: u16) -> Option<T>
        ensures taken { result ≡ find (has_key T.key_of key) self.old }
        ensures others { self.new ≡ others T.key_of key self.old }
    {
        let cell = cell_of(&self.slots, &self.away, key)?;
        remove(&mut self.away, cell);
        self.slots.empty(cell)
    }

    /// Takes all items out.
    pub fn clear(&mut self)
        ensures { self.new ≡ [] }
    {
        self.away.clear();
        self.slots.clear();
    }
}

/// Notes a cell whose item isn't at home.
fn note(away: &mut Vec<u16>, cell: usize, home: usize)
    requires small { cell < 65536 }
    requires room { length away.old.items < vec_capacity away.old }
    ensures items { away.new.items ≡ (if cell == home then away.old.items else away.old.items ++ cell ∷ []) }
    ensures room { vec_capacity away.new ≡ vec_capacity away.old }
{
    if cell != home {
        away.push_reserved(cell as u16);
    }
}

/// The cell of the item of a key: the cell of its remainder, or one of those that are away from home.
fn cell_of<T: Keyed, const N: usize>(slots: &Slots<T, N>, away: &[u16], key: u16) -> Option<usize>
    requires keyed { AreKeyed T.key_of N slots.now.cells.items slots.now.order.items away.now }
    ensures some { IfSome result (λ cell. is_of T.key_of key (content slots.now.cells.items cell) ≡ true) }
    ensures none { IfNone result ((cell : ℕ) → is_of T.key_of key (content slots.now.cells.items cell) ≡ false) }
{
    let home = usize::from(key) % N;
    if is_of(slots, home, key) {
        return Some(home);
    }
    let cell = away_of(slots, away, key)?;
    Some(usize::from(cell))
}

/// The first of these cells whose item has the key.
fn away_of<T: Keyed, const N: usize>(slots: &Slots<T, N>, away: &[u16], key: u16) -> Option<u16>
    ensures { result ≡ find (λ cell. is_of T.key_of key (content slots.now.cells.items cell)) away.now }
{
    for cell in away {
        if is_of(slots, usize::from(*cell), key) {
            return Some(*cell);
        }
    }
    None
}

/// Whether the item in this cell has the key.
fn is_of<T: Keyed, const N: usize>(slots: &Slots<T, N>, cell: usize, key: u16) -> bool
    ensures { result ≡ is_of T.key_of key (content slots.now.cells.items cell) }
{
    match slots.at(cell) {
        Some(item) => item.key() == key,
        None => false,
    }
}

//! Cells, the words that say which of them are used, and their order.

ghost use Rattle.std.specs.Prelude.{◌≡◌, ℕ, ◌<◌, ◌≤◌, [], ◌∷◌, ◌++◌, None, Some, Bool, Option, true, map, filter, find, replicate, is_some, slice_set, slice_get, length, IfOk};
ghost use Rattle.std.specs.List.{filter_map};
ghost use Rattle.std.specs.Option.{option_and_then, option_copied};
ghost use Rattle.std.specs.Vec.{vec_capacity};
ghost use Rattle.ordered_cells.specs.Cells.{AreSlots, Answers, Tests, content, is_used, items, without};

use crate::words::{clear, first_clear, flag_all, set};
use std::alloc::{AllocError, Global};

/// N cells, each empty or with an item, and the order in which the used ones were filled. Only `new` takes
/// memory.
#[derive(Debug, Drop)]
pub(crate) struct Slots<T, const N: usize> {
    cells: Vec<Option<T>>,
    used: Vec<u64>,
    order: Vec<u16>,
    ghost are_slots: { AreSlots N cells.items used.items order.items },
    ghost room: { N ≤ vec_capacity order },
}

impl<T: Drop, const N: usize> Slots<T, N> {
    /// Empty cells. `Err` where memory runs out.
    pub(crate) fn new(alloc: Global) -> Result<Self, AllocError>
        requires size { (0 < N) × (N ≤ 65536) }
        ensures cells { IfOk result (λ slots. slots.cells.items ≡ replicate N None) }
        ensures order { IfOk result (λ slots. slots.order.items ≡ []) }
    {
        Ok(Slots {
            cells: empty_cells(alloc, N)?,
            used: vec![in alloc; 0; N.div_ceil(64)]?,
            order: Vec::with_capacity(alloc, N)?,
        })
    }

    /// How many cells are used.
    pub(crate) fn len(&self) -> usize
        ensures count { result ≡ length self.now.order.items }
        ensures items { result ≡ length (items self.now.cells.items self.now.order.items) }
        ensures most { result ≤ N }
        ensures few { N ≤ 65536 }
    {
        self.order.len()
    }

    /// The item in a cell.
    pub(crate) fn at(&self, cell: usize) -> Option<&T>
        ensures { option_copied result ≡ content self.now.cells.items cell }
    {
        self.cells.get(cell)?.as_ref()
    }

    /// The item at place `k` of the order.
    pub(crate) fn get(&self, k: usize) -> Option<&T>
        ensures { option_copied result ≡ slice_get (items self.now.cells.items self.now.order.items) k }
    {
        let cell = self.cell_at(k)?;
        self.at(usize::from(cell))
    }

    fn cell_at(&self, k: usize) -> Option<u16>
        ensures { result ≡ slice_get self.now.order.items k }
    {
        self.order.get(k).copied()
    }

    /// The first item that passes a test, in the order.
    pub(crate) fn find<F: Fn(&T) -> bool>(&self, test: F) -> Option<&T>
        requires { F.IsAlwaysCallable test }
        ensures { (p : T → Bool) → Tests F.post test p → option_copied result ≡ find p (items self.now.cells.items self.now.order.items) }
    {
        for k in 0..self.len() {
            let item = self.get(k)?;
            if test(item) {
                return Some(item);
            }
        }
        None
    }

    /// Puts an item into the wanted cell where that is free, or else into the first free one, last in the
    /// order. Answers the cell.
    pub(crate) fn put(&mut self, wanted: usize, item: T) -> usize
        requires wanted { wanted < N }
        requires room { length self.old.order.items < N }
        ensures free { content self.old.cells.items result ≡ None }
        ensures within { result < N }
        ensures home { content self.old.cells.items wanted ≡ None → result ≡ wanted }
        ensures cells { self.new.cells.items ≡ slice_set self.old.cells.items result (Some item) }
        ensures order { self.new.order.items ≡ self.old.order.items ++ result ∷ [] }
    {
        let cell = self.free_cell(wanted);
        self.cells[cell] = Some(item);
        set(self.used.as_mut_slice(), cell);
        self.order.push_reserved(cell as u16);
        cell
    }

    /// The wanted cell where that is free, or else the first free one.
    fn free_cell(&self, wanted: usize) -> usize
        requires wanted { wanted < N }
        requires room { length self.now.order.items < N }
        ensures free { content self.now.cells.items result ≡ None }
        ensures within { result < N }
        ensures home { content self.now.cells.items wanted ≡ None → result ≡ wanted }
    {
        if self.at(wanted).is_none() {
            return wanted;
        }
        match first_clear(self.used.as_slice()) {
            Some(cell) => cell,
            None => unreachable!(),
        }
    }

    /// Takes the item of a cell out.
    pub(crate) fn empty(&mut self, cell: usize) -> Option<T>
        requires within { cell < N }
        ensures item { result ≡ content self.old.cells.items cell }
        ensures cells { self.new.cells.items ≡ slice_set self.old.cells.items cell None }
        ensures order { self.new.order.items ≡ without cell self.old.order.items }
    {
        let item = self.cells[cell].take();
        clear(self.used.as_mut_slice(), cell);
        remove(&mut self.order, cell);
        item
    }

    /// Gives each item to a closure, and keeps what that answers in the item's place. It takes two passes.
    pub(crate) fn update<F: Fn(T) -> Option<T>>(&mut self, f: F)
        requires { F.IsAlwaysCallable f }
        ensures { (p : T → Option T) → Answers F.post f p → items self.new.cells.items self.new.order.items ≡ filter_map p (items self.old.cells.items self.old.order.items) }
    {
        update_all(&mut self.cells, f);
        keep_used(&mut self.order, self.cells.as_slice());
        flag_all(&mut self.used, self.order.as_slice());
    }

    /// Empties all cells.
    pub(crate) fn clear(&mut self)
        ensures cells { self.new.cells.items ≡ replicate N None }
        ensures order { self.new.order.items ≡ [] }
    {
        empty_all(&mut self.cells);
        self.used.fill(0);
        self.order.clear();
    }
}

/// So many empty cells.
fn empty_cells<T: Drop>(alloc: Global, count: usize) -> Result<Vec<Option<T>>, AllocError>
    ensures { IfOk result (λ cells. cells.items ≡ replicate count None) }
{
    let mut cells = Vec::with_capacity(alloc, count)?;
    for _ in 0..count {
        cells.push(None)?;
    }
    Ok(cells)
}

fn empty_all<T: Drop>(cells: &mut Vec<Option<T>>)
    ensures { cells.new.items ≡ replicate (length cells.old.items) None }
{
    for cell in cells.iter_mut() {
        *cell = None;
    }
}

/// Takes a cell out of an order. The room stays.
pub(crate) fn remove(order: &mut Vec<u16>, cell: usize)
    ensures items { order.new.items ≡ without cell order.old.items }
    ensures room { vec_capacity order.new ≡ vec_capacity order.old }
{
    order.retain(|other| usize::from(*other) != cell);
}

/// What a closure answers for each item is in its cell. A cell that was empty stays empty.
fn update_all<T: Drop, F: Fn(T) -> Option<T>>(cells: &mut Vec<Option<T>>, f: F)
    requires { F.IsAlwaysCallable f }
    ensures len { length cells.new.items ≡ length cells.old.items }
    ensures fewer { (c : ℕ) → is_used cells.new.items c ≡ true → is_used cells.old.items c ≡ true }
    ensures answers { (p : T → Option T) → Answers F.post f p → cells.new.items ≡ map (option_and_then p) cells.old.items }
{
    for cell in cells.iter_mut() {
        answer(cell, &f);
    }
}

fn answer<T: Drop, F: Fn(T) -> Option<T>>(cell: &mut Option<T>, f: &F)
    requires { F.IsAlwaysCallable f.now }
    ensures fewer { is_some cell.new ≡ true → is_some cell.old ≡ true }
    ensures answers { (p : T → Option T) → Answers F.post f.now p → cell.new ≡ option_and_then p cell.old }
{
    if let Some(item) = cell.take() {
        *cell = f(item);
    }
}

/// Keeps the cells that are used in an order.
fn keep_used<T>(order: &mut Vec<u16>, cells: &[Option<T>])
    ensures items { order.new.items ≡ filter (λ c. is_used cells.now c) order.old.items }
    ensures room { vec_capacity order.new ≡ vec_capacity order.old }
{
    order.retain(|cell| is_used(cells, usize::from(*cell)));
}

fn is_used<T>(cells: &[Option<T>], cell: usize) -> bool
    ensures { result ≡ is_used cells.now cell }
{
    match cells.get(cell) {
        Some(content) => content.is_some(),
        None => false,
    }
}

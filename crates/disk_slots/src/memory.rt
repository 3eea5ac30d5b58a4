//! A disk over memory that can be crashed.

ghost use Rattle.std.specs.Prelude.{◌≡◌, ◌+◌, ◌≤◌, ◌<◌, ◌^◌, ◌↔◌, List, ℕ, length, take, drop, replicate, false, OnOk, OnErr, IfOk, IsErr, Some, None, min, max};
ghost use Rattle.disk_slots.specs.Disks.{overwritten, faults_after, Only, Same, Widens, Torn};
ghost use Rattle.disk_slots.specs.Memory.{Agrees, filled, picked, crashed, burnt};

use crate::bytes::put;
use crate::crash::pick_all;
use crate::disk::{Broken, Disk};
use std::alloc::{AllocError, Global};

/// A disk over memory. It passes so many writes and syncs as its fuse says, and then fails every call.
#[derive(Debug, Drop)]
pub struct MemoryDisk {
    /// The bytes after the last sync.
    settled: Vec<u8>,
    /// What a read gives.
    present: Vec<u8>,
    /// Which bytes were written since the last sync, or should have been by a write that failed.
    marks: Vec<bool>,
    /// All marks stand from here
    from: usize,
    /// to here, so that a sync goes over this range alone.
    to: usize,
    fuse: Option<u64>,
    faults: u64,
    ghost small: { length present.items < 2 ^ 32 },
    ghost alike: { (length settled.items ≡ length present.items) × (length marks.items ≡ length present.items) },
    ghost agrees: { Agrees marks.items settled.items present.items },
    ghost range: { (from ≤ to) × (to ≤ length marks.items) },
    ghost outside: { (take from marks.items ≡ replicate from false)
        × (drop to marks.items ≡ replicate (length (drop to marks.items)) false) },
}

impl MemoryDisk {
    /// A disk of so many zeros. `None` is a fuse that never burns out.
    pub fn new(alloc: Global, size: u64, fuse: Option<u64>) -> Result<MemoryDisk, AllocError>
        requires { size < 2 ^ 32 }
        ensures seen { IfOk result (λ d. ⟦<MemoryDisk as Disk>⟧.seen d ≡ replicate size 0) }
        ensures only { IfOk result (λ d. Only (replicate size 0) (⟦<MemoryDisk as Disk>⟧.may_leave d)) }
        ensures size { IfOk result (λ d. ⟦<MemoryDisk as Disk>⟧.size_of d ≡ size) }
        ensures fuse { IfOk result (λ d. (d.fuse ≡ fuse) × (d.faults ≡ 0)) }
    {
        let size = size as usize;
        Ok(MemoryDisk {
            settled: vec![in alloc; 0u8; size]?,
            present: vec![in alloc; 0u8; size]?,
            marks: vec![in alloc; false; size]?,
            from: 0,
            to: 0,
            fuse,
            faults: 0,
        })
    }

    /// From now on so many writes and syncs pass, and then every call fails.
    pub fn arm(&mut self, calls: u64)
        ensures fuse { self.new.fuse ≡ Some calls }
        ensures seen { ⟦<MemoryDisk as Disk>⟧.seen self.new ≡ ⟦<MemoryDisk as Disk>⟧.seen self.old }
        ensures crash { Same (⟦<MemoryDisk as Disk>⟧.may_leave self.old) (⟦<MemoryDisk as Disk>⟧.may_leave self.new) }
        ensures faults { self.new.faults ≡ self.old.faults }
    {
        self.fuse = Some(calls);
    }

    /// The disk after a crash, with this fuse. Each byte i that was written since the last sync is as
    /// it was then where `pick` is even, and else `(pick / 2 + i) % 256`.
    pub fn crash(self, pick: u64, fuse: Option<u64>) -> MemoryDisk
        ensures image { ⟦<MemoryDisk as Disk>⟧.seen result ≡ crashed pick 0 self.marks.items self.settled.items }
        ensures one { ⟦<MemoryDisk as Disk>⟧.may_leave self (⟦<MemoryDisk as Disk>⟧.seen result) }
        ensures only { Only (⟦<MemoryDisk as Disk>⟧.seen result) (⟦<MemoryDisk as Disk>⟧.may_leave result) }
        ensures size { ⟦<MemoryDisk as Disk>⟧.size_of result ≡ ⟦<MemoryDisk as Disk>⟧.size_of self }
        ensures fuse { (result.fuse ≡ fuse) × (result.faults ≡ self.faults) }
    {
        let MemoryDisk {
            mut settled,
            mut present,
            mut marks,
            from,
            to,
            fuse: _,
            faults,
        } = self;
        pick_all(&mut settled, &marks, pick);
        copy(&mut present, &settled);
        unmark(&mut marks, from, to);
        MemoryDisk {
            settled,
            present,
            marks,
            from: 0,
            to: 0,
            fuse,
            faults,
        }
    }
}

fn copy(to: &mut Vec<u8>, from: &Vec<u8>)
    requires { length to.old.items ≡ length from.now.items }
    ensures { to.new.items ≡ from.now.items }
{
    to.copy_from_slice(from);
}

fn set_marks(marks: &mut Vec<bool>, at: usize, n: usize, mark: bool)
    requires { at + n ≤ length marks.old.items }
    ensures { marks.new.items ≡ filled at n mark marks.old.items }
{
    marks[at..at + n].fill(mark);
}

fn settle(settled: &mut Vec<u8>, present: &Vec<u8>, from: usize, to: usize)
    requires range { (from ≤ to) × (to ≤ length present.now.items) × (length settled.old.items ≡ length present.now.items) }
    requires outside { (take from present.now.items ≡ take from settled.old.items) × (drop to present.now.items ≡ drop to settled.old.items) }
    ensures { settled.new.items ≡ present.now.items }
{
    put(settled, from, &present[from..to]);
}

fn unmark(marks: &mut Vec<bool>, from: usize, to: usize)
    requires range { (from ≤ to) × (to ≤ length marks.old.items) }
    requires outside { (take from marks.old.items ≡ replicate from false)
        × (drop to marks.old.items ≡ replicate (length (drop to marks.old.items)) false) }
    ensures { marks.new.items ≡ replicate (length marks.old.items) false }
{
    set_marks(marks, from, to - from, false);
}

impl Disk for MemoryDisk {
    ghost use Rattle.disk_slots.specs.Fitting.{image_len};
    ghost use Rattle.std.proofs.Common.{sym, ◌∙◌};

    ghost tells = { Unit {0} };

    ghost size_of = { λ d. length d.present.items };

    ghost seen = { λ d. d.present.items };

    ghost may_leave = { λ d. Agrees d.marks.items d.settled.items };

    ghost faults = { λ d. d.faults };

    ghost seen_is_one = { λ d _. d.agrees };

    ghost images_fit = { λ d c _ left. image_len d.marks.items d.settled.items c left ∙ d.alike.0 };

    fn read_at(&mut self, at: u64, buf: &mut [u8]) -> Result<(), Broken>
        requires { at + length buf.old ≤ length self.old.present.items }
        ensures len { length buf.new ≡ length buf.old }
        ensures bytes { OnOk result (buf.new ≡ take (length buf.old) (drop at self.old.present.items)) }
        ensures seen { self.new.present.items ≡ self.old.present.items }
        ensures crash { Same (Agrees self.old.marks.items self.old.settled.items)
            (Agrees self.new.marks.items self.new.settled.items) }
        ensures size { length self.new.present.items ≡ length self.old.present.items }
        ensures cause { self.new.faults ≡ faults_after result self.old.faults }
        ensures failed { IsErr result ↔ (self.old.fuse ≡ Some 0) }
        ensures fuse { self.new.fuse ≡ self.old.fuse }
    {
        if self.fuse == Some(0) {
            self.faults = self.faults.saturating_add(1);
            return Err(Broken);
        }
        let at = at as usize;
        let end = at + buf.len();
        buf.copy_from_slice(&self.present[at..end]);
        Ok(())
    }

    fn write_at(&mut self, at: u64, bytes: &[u8]) -> Result<(), Broken>
        requires { at + length bytes.now ≤ length self.old.present.items }
        ensures written { OnOk result (self.new.present.items ≡ overwritten at bytes.now self.old.present.items) }
        ensures crash { Widens (Torn at (length bytes.now)) (Agrees self.old.marks.items self.old.settled.items)
            (Agrees self.new.marks.items self.new.settled.items) }
        ensures size { length self.new.present.items ≡ length self.old.present.items }
        ensures cause { self.new.faults ≡ faults_after result self.old.faults }
        ensures failed { IsErr result ↔ (self.old.fuse ≡ Some 0) }
        ensures fuse { self.new.fuse ≡ burnt self.old.fuse }
    {
        let at = at as usize;
        set_marks(&mut self.marks, at, bytes.len(), true);
        self.from = lower(self.from, at);
        self.to = higher(self.to, at + bytes.len());
        burn(&mut self.fuse, &mut self.faults)?;
        put(&mut self.present, at, bytes);
        Ok(())
    }

    fn sync(&mut self) -> Result<(), Broken>
        ensures durable { OnOk result (Only self.old.present.items (Agrees self.new.marks.items self.new.settled.items)) }
        ensures seen { OnOk result (self.new.present.items ≡ self.old.present.items) }
        ensures failed { OnErr result (Same (Agrees self.old.marks.items self.old.settled.items)
            (Agrees self.new.marks.items self.new.settled.items)) }
        ensures size { length self.new.present.items ≡ length self.old.present.items }
        ensures cause { self.new.faults ≡ faults_after result self.old.faults }
        ensures burnt_out { IsErr result ↔ (self.old.fuse ≡ Some 0) }
        ensures fuse { self.new.fuse ≡ burnt self.old.fuse }
    {
        burn(&mut self.fuse, &mut self.faults)?;
        settle(&mut self.settled, &self.present, self.from, self.to);
        unmark(&mut self.marks, self.from, self.to);
        self.from = 0;
        self.to = 0;
        Ok(())
    }

    fn size(&self) -> u64
        ensures { result ≡ length self.now.present.items }
    {
        self.present.len() as u64
    }
}

/// Burns one call of the fuse, where one is left.
fn burn(fuse: &mut Option<u64>, faults: &mut u64) -> Result<(), Broken>
    ensures cause { faults.new ≡ faults_after result faults.old }
    ensures failed { IsErr result ↔ (fuse.old ≡ Some 0) }
    ensures fuse { fuse.new ≡ burnt fuse.old }
{
    match fuse {
        None => Ok(()),
        Some(0) => {
            *faults = faults.saturating_add(1);
            Err(Broken)
        }
        Some(n) => {
            *n -= 1;
            Ok(())
        }
    }
}

fn lower(a: usize, b: usize) -> usize
    ensures { result ≡ min a b }
{
    a.min(b)
}

fn higher(a: usize, b: usize) -> usize
    ensures { result ≡ max a b }
{
    a.max(b)
}

//! A file of two slots on a disk of its own.

ghost use Rattle.std.specs.Prelude.{◌≡◌, ◌≤◌, ◌<◌, ◌-◌, ◌^◌, ◌+◌, length, Some, None, IfOk};
ghost use Rattle.disk_slots.specs.Disks.{NoMore, Same};
ghost use Rattle.disk_slots.specs.Slots.{Holds, HoldsOneOf, counting, file_len};
ghost use Rattle.disk_slots.specs.Files.{InAnyEnd, OnTooLong, OnNoMemory, Opened, OnBroken, OnRefused, Saved};

use crate::disk::{Broken, Disk};
use crate::faults::{OpenFault, SaveFault};
use crate::formatting::write_both;
use crate::frame::{put_text, text_len};
use crate::memory::MemoryDisk;
use crate::opening::load;
use crate::saving::switch;
use crate::slot::Slot;
use std::alloc::Global;
use std::marker::Model;

/// A file that holds a text, whatever fails. Contracts see its disk, how many bytes a slot has and
/// the text.
#[derive(Drop)]
pub struct SlotFile<D: Disk + Drop> {
    disk: D,
    /// The slot that counts.
    counts: Slot,
    /// What stands in it: the text with its length before it, and then any bytes.
    frame: Vec<u8>,
    /// How long the text is.
    len: usize,
}

impl<D: Disk + Drop> Model for SlotFile<D> {
    ghost use Rattle.std.specs.Prelude.{◌≡◌, ◌+◌, ◌≤◌, ◌<◌, ◌^◌, length, take, drop};
    ghost use Rattle.disk_slots.specs.Slots.{AllCount, file_len};
    ghost use Rattle.disk_slots.specs.Files.{Filed};

    ghost Value = { Filed D };

    ghost view = { λ f. record { disk = f.disk; slot_len = length f.frame.items; text = take f.len (drop 4 f.frame.items) } };

    ghost invariant = { λ f. (4 + f.len ≤ length f.frame.items) × (length f.frame.items < 2 ^ 32) × (D.size_of f.disk ≡ file_len (length f.frame.items))
        × (D.tells → AllCount (length f.frame.items) f.counts (take f.len (drop 4 f.frame.items)) (D.may_leave f.disk)) };
}

impl<D: Disk + Drop> SlotFile<D> {
    /// A file whose slots have `slot_len` bytes each, and which holds a text.
    pub fn format(
        alloc: Global,
        disk: D,
        slot_len: u64,
        text: &[u8],
    ) -> Result<SlotFile<D>, OpenFault<D>>
        requires size { (4 ≤ slot_len) × (slot_len < 2 ^ 32) × (D.size_of disk ≡ file_len slot_len) }
        ensures text { IfOk result (λ file. (file.text ≡ text.now) × (file.slot_len ≡ slot_len)) }
        ensures kept { IfOk result (λ file. D.tells → Holds slot_len text.now (D.may_leave file.disk)) }
        ensures fits { IfOk result (λ _. 4 + length text.now ≤ slot_len) }
        ensures too_long { OnTooLong result (λ disk'. (disk' ≡ disk) × (slot_len < 4 + length text.now)) }
        ensures no_memory { OnNoMemory result (λ disk'. disk' ≡ disk) }
        ensures size { InAnyEnd result (λ disk'. D.size_of disk' ≡ D.size_of disk) }
        ensures cause { Opened D.faults (D.faults disk) result }
    {
        if text.len() as u64 > slot_len - 4 {
            return Err(OpenFault::TooLong(disk));
        }
        let Ok(mut frame) = Vec::from_elem(alloc, 0, slot_len as usize) else {
            return Err(OpenFault::NoMemory(disk));
        };
        put_text(&mut frame, text);
        let mut disk = disk;
        match write_both(&mut disk, slot_len, &frame[..4 + text.len()]) {
            Ok(()) => Ok(SlotFile {
                disk,
                counts: Slot::First,
                frame,
                len: text.len(),
            }),
            Err(Broken) => Err(OpenFault::Disk(disk)),
        }
    }

    /// The file that stands on a disk, of slots with `slot_len` bytes each. It begins with a sync, so
    /// that a crash leaves the text that was read.
    pub fn open(alloc: Global, disk: D, slot_len: u64) -> Result<SlotFile<D>, OpenFault<D>>
        requires size { (4 ≤ slot_len) × (slot_len < 2 ^ 32) × (D.size_of disk ≡ file_len slot_len) }
        ensures text { IfOk result (λ file. D.tells → counting slot_len (D.seen disk) ≡ Some file.text) }
        ensures slots { IfOk result (λ file. file.slot_len ≡ slot_len) }
        ensures kept { IfOk result (λ file. D.tells → Holds slot_len file.text (D.may_leave file.disk)) }
        ensures too_long { OnTooLong result (λ _. D.tells → counting slot_len (D.seen disk) ≡ None) }
        ensures no_memory { OnNoMemory result (λ disk'. disk' ≡ disk) }
        ensures images { InAnyEnd result (λ disk'. D.tells → NoMore (D.may_leave disk) (D.may_leave disk')) }
        ensures size { InAnyEnd result (λ disk'. D.size_of disk' ≡ D.size_of disk) }
        ensures cause { Opened D.faults (D.faults disk) result }
    {
        let Ok(mut frame) = Vec::from_elem(alloc, 0, slot_len as usize) else {
            return Err(OpenFault::NoMemory(disk));
        };
        let mut disk = disk;
        let Ok(counts) = load(&mut disk, slot_len, frame.as_mut_slice()) else {
            return Err(OpenFault::Disk(disk));
        };
        match text_len(frame.as_slice()) {
            Some(len) => Ok(SlotFile {
                disk,
                counts,
                frame,
                len,
            }),
            None => Err(OpenFault::TooLong(disk)),
        }
    }

    /// Saves a text instead of the one that is held. The slot that doesn't count is written once, and
    /// then the gate, with a sync behind each.
    pub fn save(self, text: &[u8]) -> Result<SlotFile<D>, SaveFault<SlotFile<D>, D>>
        ensures text { IfOk result (λ file. (file.text ≡ text.now) × (file.slot_len ≡ self.slot_len)) }
        ensures saved { IfOk result (λ file. D.tells → Holds self.slot_len text.now (D.may_leave file.disk)) }
        ensures kept { OnBroken result (λ disk. D.tells → HoldsOneOf self.slot_len self.text text.now (D.may_leave disk)) }
        ensures fits { IfOk result (λ _. 4 + length text.now ≤ self.slot_len) }
        ensures too_long { OnRefused result (λ file. (file ≡ self) × (self.slot_len < 4 + length text.now)) }
        ensures size { OnBroken result (λ disk. D.size_of disk ≡ file_len self.slot_len) }
        ensures cause { Saved D.faults (D.faults self.disk) result }
    {
        if text.len() > self.frame.len() - 4 {
            return Err(SaveFault::TooLong(self));
        }
        let SlotFile {
            mut disk,
            counts,
            mut frame,
            len: _,
        } = self;
        put_text(&mut frame, text);
        match switch(
            &mut disk,
            frame.len() as u64,
            counts,
            &frame[..4 + text.len()],
        ) {
            Ok(()) => Ok(SlotFile {
                disk,
                counts: counts.other(),
                frame,
                len: text.len(),
            }),
            Err(Broken) => Err(SaveFault::Disk(disk)),
        }
    }

    /// The text that is held.
    pub fn text(&self) -> &[u8]
        ensures { result.now ≡ self.now.text }
    {
        let (_, text) = self.frame.split_at(4);
        &text[..self.len]
    }

    /// How long a text may be.
    pub fn limit(&self) -> usize
        ensures { result ≡ self.now.slot_len - 4 }
    {
        self.frame.len() - 4
    }

    /// Its disk, which may be opened again.
    pub fn into_disk(self) -> D
        ensures disk { result ≡ self.disk }
        ensures size { D.size_of result ≡ file_len self.slot_len }
    {
        self.disk
    }
}

impl SlotFile<MemoryDisk> {
    /// From now on its disk passes so many writes and syncs, and then fails every call.
    pub fn arm(&mut self, calls: u64)
        ensures text { (self.new.text ≡ self.old.text) × (self.new.slot_len ≡ self.old.slot_len) }
        ensures fuse { (self.new.disk.fuse ≡ Some calls) × (self.new.disk.faults ≡ self.old.disk.faults) }
        ensures seen { ⟦<MemoryDisk as Disk>⟧.seen self.new.disk ≡ ⟦<MemoryDisk as Disk>⟧.seen self.old.disk }
        ensures crash { Same (⟦<MemoryDisk as Disk>⟧.may_leave self.old.disk) (⟦<MemoryDisk as Disk>⟧.may_leave self.new.disk) }
    {
        self.disk.arm(calls);
    }
}

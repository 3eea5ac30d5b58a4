//! Saving a text, so that a crash at any moment leaves a file that counts as this text or as the one
//! before.

ghost use Rattle.std.specs.Prelude.{◌≡◌, ◌<◌, ◌^◌, List, ℕ, length, OnOk};
ghost use Rattle.disk_slots.specs.Disks.{Only, faults_after};
ghost use Rattle.disk_slots.specs.Slots.{IsFramed, HasText, AllCount, HoldsOneOf, framed_text, file_len, other};

use crate::disk::{Broken, Disk};
use crate::slot::Slot;

/// Writes a frame into the slot that doesn't count, and then makes it count: four calls of the disk.
pub fn switch<D: Disk>(
    disk: &mut D,
    slot_len: u64,
    counts: Slot,
    frame: &[u8],
) -> Result<(), Broken>
    requires slots { (slot_len < 2 ^ 32) × (D.size_of disk.old ≡ file_len slot_len) }
    requires framed { IsFramed slot_len frame.now }
    ensures kept { D.tells → (old : List ℕ) → AllCount slot_len counts old (D.may_leave disk.old)
        → HoldsOneOf slot_len old (framed_text frame.now) (D.may_leave disk.new) }
    ensures saved { D.tells → (old : List ℕ) → AllCount slot_len counts old (D.may_leave disk.old)
        → OnOk result (AllCount slot_len (other counts) (framed_text frame.now) (D.may_leave disk.new)) }
    ensures size { D.size_of disk.new ≡ D.size_of disk.old }
    ensures cause { D.faults disk.new ≡ faults_after result (D.faults disk.old) }
{
    let to = counts.other();
    stage(disk, slot_len, to, frame)?;
    turn(disk, slot_len, to)
}

/// Writes a frame into a slot that doesn't count, and syncs.
fn stage<D: Disk>(disk: &mut D, slot_len: u64, to: Slot, frame: &[u8]) -> Result<(), Broken>
    requires slots { (slot_len < 2 ^ 32) × (D.size_of disk.old ≡ file_len slot_len) }
    requires framed { IsFramed slot_len frame.now }
    ensures kept { D.tells → (old : List ℕ) → AllCount slot_len (other to) old (D.may_leave disk.old)
        → AllCount slot_len (other to) old (D.may_leave disk.new) }
    ensures written { D.tells → OnOk result (HasText slot_len to (framed_text frame.now) (D.seen disk.new)) }
    ensures settled { D.tells → OnOk result (Only (D.seen disk.new) (D.may_leave disk.new)) }
    ensures size { D.size_of disk.new ≡ D.size_of disk.old }
    ensures cause { D.faults disk.new ≡ faults_after result (D.faults disk.old) }
{
    disk.write_at(to.start(slot_len), frame)?;
    disk.sync()
}

/// Makes a slot count, and syncs.
fn turn<D: Disk>(disk: &mut D, slot_len: u64, to: Slot) -> Result<(), Broken>
    requires size { D.size_of disk.old ≡ file_len slot_len }
    requires settled { D.tells → Only (D.seen disk.old) (D.may_leave disk.old) }
    ensures kept { D.tells → (old new : List ℕ) → HasText slot_len (other to) old (D.seen disk.old)
        → HasText slot_len to new (D.seen disk.old) → HoldsOneOf slot_len old new (D.may_leave disk.new) }
    ensures saved { D.tells → (new : List ℕ) → HasText slot_len to new (D.seen disk.old)
        → OnOk result (AllCount slot_len to new (D.may_leave disk.new)) }
    ensures size { D.size_of disk.new ≡ D.size_of disk.old }
    ensures cause { D.faults disk.new ≡ faults_after result (D.faults disk.old) }
{
    disk.write_at(0, &[to.gate()])?;
    disk.sync()
}

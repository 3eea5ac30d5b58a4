//! Making a file.

ghost use Rattle.std.specs.Prelude.{◌≡◌, ◌<◌, ◌^◌, OnOk};
ghost use Rattle.disk_slots.specs.Disks.{faults_after};
ghost use Rattle.disk_slots.specs.Slots.{IsFramed, AllCount, framed_text, file_len};
ghost use Rattle.disk_slots.specs.declared.slot.Slot.TheVariants.{First};

use crate::disk::{Broken, Disk};

/// Writes a frame into both slots, and makes the first one count.
pub fn write_both<D: Disk>(disk: &mut D, slot_len: u64, frame: &[u8]) -> Result<(), Broken>
    requires slots { (slot_len < 2 ^ 32) × (D.size_of disk.old ≡ file_len slot_len) }
    requires framed { IsFramed slot_len frame.now }
    ensures saved { D.tells → OnOk result (AllCount slot_len First (framed_text frame.now) (D.may_leave disk.new)) }
    ensures size { D.size_of disk.new ≡ D.size_of disk.old }
    ensures cause { D.faults disk.new ≡ faults_after result (D.faults disk.old) }
{
    disk.write_at(1, frame)?;
    disk.write_at(1 + slot_len, frame)?;
    disk.write_at(0, &[0])?;
    disk.sync()
}

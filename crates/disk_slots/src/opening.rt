//! Reading the slot that counts.

ghost use Rattle.std.specs.Prelude.{◌≡◌, ◌<◌, ◌^◌, List, ℕ, length, IfOk};
ghost use Rattle.disk_slots.specs.Disks.{NoMore, Same, faults_after};
ghost use Rattle.disk_slots.specs.Slots.{file_len, named_in, text_in, bytes_of, counting};

use crate::disk::{Broken, Disk};
use crate::slot::Slot;

/// Reads the slot that counts into `bytes`, and answers which it is. It begins with a sync, so that a
/// crash leaves what was read.
pub fn load<D: Disk>(disk: &mut D, slot_len: u64, bytes: &mut [u8]) -> Result<Slot, Broken>
    requires slots { (slot_len < 2 ^ 32) × (D.size_of disk.old ≡ file_len slot_len) × (length bytes.old ≡ slot_len) }
    ensures read { D.tells → IfOk result (λ slot. counting slot_len (D.seen disk.old) ≡ text_in slot_len bytes.new) }
    ensures named { D.tells → IfOk result (λ slot. (image : List ℕ) → D.may_leave disk.new image
        → (named_in image ≡ slot) × (bytes_of slot_len slot image ≡ bytes.new)) }
    ensures images { D.tells → NoMore (D.may_leave disk.old) (D.may_leave disk.new) }
    ensures size { D.size_of disk.new ≡ D.size_of disk.old }
    ensures len { length bytes.new ≡ length bytes.old }
    ensures cause { D.faults disk.new ≡ faults_after result (D.faults disk.old) }
{
    disk.sync()?;
    let slot = load_gate(disk)?;
    disk.read_at(slot.start(slot_len), bytes)?;
    Ok(slot)
}

fn load_gate<D: Disk>(disk: &mut D) -> Result<Slot, Broken>
    requires { 0 < D.size_of disk.old }
    ensures named { D.tells → IfOk result (λ slot. slot ≡ named_in (D.seen disk.old)) }
    ensures seen { D.tells → D.seen disk.new ≡ D.seen disk.old }
    ensures images { D.tells → Same (D.may_leave disk.old) (D.may_leave disk.new) }
    ensures size { D.size_of disk.new ≡ D.size_of disk.old }
    ensures cause { D.faults disk.new ≡ faults_after result (D.faults disk.old) }
{
    let mut gate = [0];
    disk.read_at(0, &mut gate)?;
    Ok(Slot::named(gate[0]))
}

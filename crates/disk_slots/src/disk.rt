//! A disk of a fixed size.

ghost use Rattle.std.specs.Prelude.{◌≡◌, ◌+◌, ◌≤◌, List, ℕ, length, take, drop, OnOk, OnErr};
ghost use Rattle.disk_slots.specs.Disks.{Only, Same, Widens, Torn, overwritten, faults_after};

/// The disk has failed. Its count of faults rose in the call.
#[derive(Clone, Copy, Debug, PartialEq, Eq)]
pub struct Broken;

/// A disk of a fixed size, which may crash at any moment. Between two syncs each range that was
/// written may hold any bytes after a crash, and all other bytes stay. After a sync that succeeds a
/// crash leaves what a read gives. A crash inside a call leaves what it may leave before that call
/// or after it. No call takes memory.
pub trait Disk {
    /// Whether it tells what a read gives and what a crash may leave.
    ghost tells: { Type 0 };

    /// How many bytes it has.
    ghost size_of: { Self → ℕ };

    /// What a read gives.
    ghost seen: { Self → List ℕ };

    /// The images that a crash now may leave.
    ghost may_leave: { Self → List ℕ → Type 0 };

    /// How often a call failed.
    ghost faults: { Self → ℕ };

    /// Reads the bytes from `at` on, as many as `buf` has. After a fault `buf` may hold any bytes.
    fn read_at(&mut self, at: u64, buf: &mut [u8]) -> Result<(), Broken>
        requires { at + length buf.old ≤ size_of self.old }
        ensures len { length buf.new ≡ length buf.old }
        ensures bytes { tells → OnOk result (buf.new ≡ take (length buf.old) (drop at (seen self.old))) }
        ensures seen { tells → seen self.new ≡ seen self.old }
        ensures crash { tells → Same (may_leave self.old) (may_leave self.new) }
        ensures size { size_of self.new ≡ size_of self.old }
        ensures cause { faults self.new ≡ faults_after result (faults self.old) };

    /// Writes the bytes from `at` on. Until a sync succeeds a crash may leave any bytes there, also
    /// where the write fails.
    fn write_at(&mut self, at: u64, bytes: &[u8]) -> Result<(), Broken>
        requires { at + length bytes.now ≤ size_of self.old }
        ensures written { tells → OnOk result (seen self.new ≡ overwritten at bytes.now (seen self.old)) }
        ensures crash { tells → Widens (Torn at (length bytes.now)) (may_leave self.old) (may_leave self.new) }
        ensures size { size_of self.new ≡ size_of self.old }
        ensures cause { faults self.new ≡ faults_after result (faults self.old) };

    /// After it a crash leaves what a read gives. After a fault it may leave what it might before.
    fn sync(&mut self) -> Result<(), Broken>
        ensures durable { tells → OnOk result (Only (seen self.old) (may_leave self.new)) }
        ensures seen { tells → OnOk result (seen self.new ≡ seen self.old) }
        ensures failed { tells → OnErr result (Same (may_leave self.old) (may_leave self.new)) }
        ensures size { size_of self.new ≡ size_of self.old }
        ensures cause { faults self.new ≡ faults_after result (faults self.old) };

    /// How many bytes it has.
    fn size(&self) -> u64
        ensures { result ≡ size_of self.now };

    /// What a read gives is one of the images that a crash may leave.
    ghost seen_is_one: { (disk : Self) → tells → may_leave disk (seen disk) };

    /// Each image has the disk's size.
    ghost images_fit: { (disk : Self) (image : List ℕ) → tells → may_leave disk image → length image ≡ size_of disk };
}

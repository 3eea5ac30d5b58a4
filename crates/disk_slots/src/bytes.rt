//! Bytes at a place of a buffer.

ghost use Rattle.std.specs.Prelude.{◌≡◌, ◌+◌, ◌≤◌, length};
ghost use Rattle.disk_slots.specs.Disks.{overwritten};

/// Puts these bytes instead of those from `at` on.
pub fn put(bytes: &mut Vec<u8>, at: usize, more: &[u8])
    requires { at + length more.now ≤ length bytes.old.items }
    ensures { bytes.new.items ≡ overwritten at more.now bytes.old.items }
{
    let end = at + more.len();
    bytes[at..end].copy_from_slice(more);
}

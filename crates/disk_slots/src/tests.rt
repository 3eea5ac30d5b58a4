//! A save that the power cuts off behind each call of the disk, and each public call once.

ghost use Rattle.std.specs.Prelude.{◌≡◌, IfSome};

use super::*;
use std::alloc::Global;
use std::test::Fail;

/// How many bytes a slot has here, so that a text may have 8.
const SLOT: u64 = 12;

/// A file that holds a text, on a disk that never fails.
fn file_with(alloc: Global, text: &[u8]) -> Option<SlotFile<MemoryDisk>>
    ensures { IfSome result (λ file. file.slot_len ≡ 12) }
{
    let disk = MemoryDisk::new(alloc, 25, None).ok()?;
    SlotFile::format(alloc, disk, SLOT, text).ok()
}

/// What a file holds that held "old", where the power went so many calls of the disk into a save of
/// "new!".
fn after_cut(alloc: Global, calls: u64, pick: u64) -> Option<SlotFile<MemoryDisk>> {
    let mut file = file_with(alloc, b"old")?;
    file.arm(calls);
    let disk = match file.save(b"new!") {
        Ok(file) => file.into_disk(),
        Err(SaveFault::Disk(disk)) => disk,
        Err(SaveFault::TooLong(_)) => return None,
    };
    SlotFile::open(alloc, disk.crash(pick, None), SLOT).ok()
}

#[test]
fn a_cut_save_leaves_the_old_text_or_the_new_one(rt: HostRuntime) -> Result<(), Fail> {
    let alloc = rt.alloc();
    for (calls, pick, want) in [
        (0, 0, b"old".as_slice()),
        (0, 3, b"old".as_slice()),
        (1, 0, b"old".as_slice()),
        (1, 3, b"old".as_slice()),
        // The gate was begun: it is 0 as before, or 1, or 2, which names the first slot too.
        (2, 0, b"old".as_slice()),
        (2, 3, b"new!".as_slice()),
        (2, 5, b"old".as_slice()),
        (3, 0, b"old".as_slice()),
        (3, 3, b"new!".as_slice()),
        (4, 0, b"new!".as_slice()),
        (4, 3, b"new!".as_slice()),
    ] {
        let file = after_cut(alloc, calls, pick).ok_or("no file")?;
        assert_eq!(rt; file.text(), want, "{calls} calls, pick {pick}");
    }
    Ok(())
}

fn saved(file: SlotFile<MemoryDisk>, text: &[u8]) -> Option<SlotFile<MemoryDisk>>
    ensures { IfSome result (λ saved. saved.slot_len ≡ file.slot_len) }
{
    file.save(text).ok()
}

fn refused(file: SlotFile<MemoryDisk>, text: &[u8]) -> Option<SlotFile<MemoryDisk>>
    ensures { IfSome result (λ same. same.slot_len ≡ file.slot_len) }
{
    match file.save(text) {
        Err(SaveFault::TooLong(same)) => Some(same),
        _ => None,
    }
}

/// A file that was saved twice, with a text of 9 bytes refused between, and opened again.
fn back_and_forth(alloc: Global) -> Option<SlotFile<MemoryDisk>> {
    let file = file_with(alloc, b"")?;
    let file = saved(file, b"12345678")?;
    let file = refused(file, b"123456789")?;
    let file = saved(file, b"a")?;
    SlotFile::open(alloc, file.into_disk(), SLOT).ok()
}

#[test]
fn saves_go_back_and_forth_and_a_longer_text_is_refused(rt: HostRuntime) -> Result<(), Fail> {
    let alloc = rt.alloc();
    let empty = file_with(alloc, b"").ok_or("no file")?;
    assert_eq!(rt; empty.text(), b"".as_slice());
    assert_eq!(rt; empty.limit(), 8);
    let full = saved(empty, b"12345678").ok_or("not saved")?;
    let same = refused(full, b"123456789").ok_or("saved")?;
    assert_eq!(rt; same.text(), b"12345678".as_slice());
    let opened = back_and_forth(alloc).ok_or("not opened")?;
    assert_eq!(rt; opened.text(), b"a".as_slice());
    Ok(())
}

#[test]
fn a_length_that_no_slot_holds_is_refused(rt: HostRuntime) -> Result<(), Fail> {
    let alloc = rt.alloc();
    let disk = MemoryDisk::new(alloc, 25, None)?;
    let mut disk = match SlotFile::format(alloc, disk, SLOT, b"123456789") {
        Err(OpenFault::TooLong(disk)) => disk,
        _ => return Err("made".into()),
    };
    // The gate names the second slot, which has a length of 9.
    assert_eq!(rt; disk.write_at(0, &[3]), Ok(()));
    assert_eq!(rt; disk.write_at(16, &[9]), Ok(()));
    assert_eq!(rt; disk.sync(), Ok(()));
    match SlotFile::open(alloc, disk, SLOT) {
        Err(OpenFault::TooLong(disk)) => assert_eq!(rt; disk.size(), 25),
        _ => return Err("opened".into()),
    }
    Ok(())
}

#[test]
fn a_disk_whose_fuse_burnt_out_fails_each_call(rt: HostRuntime) -> Result<(), Fail> {
    let alloc = rt.alloc();
    let mut disk = MemoryDisk::new(alloc, 3, Some(2))?;
    assert_eq!(rt; disk.write_at(1, b"x"), Ok(()));
    let mut seen = [9; 3];
    assert_eq!(rt; disk.read_at(0, seen.as_mut_slice()), Ok(()));
    assert_eq!(rt; seen, [0, b'x', 0]);
    assert_eq!(rt; disk.sync(), Ok(()));
    assert_eq!(rt; disk.write_at(0, b"yz"), Err(Broken));
    assert_eq!(rt; disk.sync(), Err(Broken));
    assert_eq!(rt; disk.read_at(0, seen.as_mut_slice()), Err(Broken));
    // Byte 1 was settled, and written again by the call that failed.
    let mut disk = disk.crash(5, None);
    assert_eq!(rt; disk.read_at(0, seen.as_mut_slice()), Ok(()));
    assert_eq!(rt; seen, [2, 3, 0]);
    Ok(())
}

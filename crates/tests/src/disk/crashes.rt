// What a crash leaves of a disk in memory.
use crate::stores::{each_crash, file_octets, put_file};
use disk_mem::{Choice, MemDisk};
use disk_model::{Disk, DiskError, FileName};
use std::test::Fail;

/// What is left of a file that was made, written and synced by three calls, then written over its end, and whose name was
/// synced by the fifth.
fn left(run: u64, choice: Choice) -> Option<&'static [u8]> {
    match (run, choice) {
        (0, _) | (1..=4, Choice::Old) => None,
        (1, _) => Some(b""),
        (2, Choice::New) | (3, _) | (5, Choice::Old) => Some(b"abcd"),
        (2, Choice::Torn(1)) => Some(b"\x01\x01\x01\x01"),
        (2, _) => Some(b"\xff\xff\xff\xff"),
        (_, Choice::New) => Some(b"abxyz"),
        (_, Choice::Torn(1)) => Some(b"ab\x01\x01\x01"),
        _ => Some(b"ab\xff\xff\xff"),
    }
}

#[test]
fn what_a_crash_leaves(rt: HostRuntime) -> Result<(), Fail> {
    let mut disk = MemDisk::fresh(rt.alloc())?;
    put_file(&mut disk, FileName::Root, b"abcd")?;
    disk.write_at(FileName::Root, 2, b"xyz")?;
    disk.sync_names()?;
    each_crash(rt.alloc(), &disk, 0, |mut image, run, choice| {
        match left(run, choice) {
            Some(octets) => {
                let found = file_octets(rt.alloc(), &mut image, FileName::Root)?;
                assert_eq!(rt; found.as_slice(), octets, "{run} run, {choice:?}");
            }
            None => {
                let length = image.length(FileName::Root);
                assert_eq!(rt; length, Err(DiskError::Absent), "{run} run, {choice:?}");
            }
        }
        Ok(())
    })
}

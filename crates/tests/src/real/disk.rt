// The program's disk over the system's files.
use disk_model::{Disk, DiskError, FileName};
use folder_disk::FolderDisk;
use folder_kept::KeptFolder;
use os_folder::OsFolder;
use std::process::Abort;
use std::test::Fail;
use std::thread::{self, Threads};
use std::time::Duration;

const ROOT: FileName = FileName::Root;

/// The program's disk, which asks so many times for the lock.
fn system_disk(host: HostRuntime, tries: u32) -> FolderDisk<KeptFolder<OsFolder>> {
    FolderDisk::asking(
        KeptFolder::of(OsFolder::of(host), host.alloc()),
        host.alloc(),
        tries,
    )
}

/// What a write inside a file, one at its end, and a cut leave is what a second disk reads, and what is removed it doesn't find.
pub(crate) fn a_second_disk_reads_the_same(rt: &impl Abort, host: HostRuntime) -> Result<(), Fail> {
    change_some(host)?;
    let mut disk = system_disk(host, 1);
    let mut into = *b"--------";
    assert_eq!(rt; disk.length(ROOT), Ok(5));
    assert_eq!(rt; disk.read_at(ROOT, 1, &mut into), Ok(4));
    assert_eq!(rt; into, *b"bxde----");
    assert_eq!(rt; disk.next_name(None), Ok(Some(ROOT)));
    assert_eq!(rt; disk.next_name(Some(ROOT)), Ok(None));
    assert_eq!(rt; disk.remove(ROOT), Ok(()));
    assert_eq!(rt; disk.next_name(None), Ok(None));
    Ok(())
}

/// Makes two files, writes and cuts one, and removes the other.
fn change_some(host: HostRuntime) -> Result<(), DiskError> {
    let mut disk = system_disk(host, 1);
    disk.make(ROOT)?;
    disk.make(FileName::Inst([171; 20], [9; 16]))?;
    disk.write_at(ROOT, 0, b"abcdefgh")?;
    disk.write_at(ROOT, 2, b"x")?;
    disk.write_at(ROOT, 8, b"i")?;
    disk.cut(ROOT, 5)?;
    disk.sync(ROOT)?;
    disk.remove(FileName::Inst([171; 20], [9; 16]))?;
    disk.sync_names()
}

/// A disk that asks a few times for the lock of a store that another has fails, and changes nothing. It doesn't ask again.
pub(crate) fn a_held_store_is_left_alone(rt: &impl Abort, host: HostRuntime) -> Result<(), Fail> {
    let mut first = system_disk(host, 1);
    assert_eq!(rt; first.make(ROOT), Ok(()));
    let mut second = system_disk(host, 2);
    assert_eq!(rt; second.length(ROOT), Err(DiskError::Failed));
    assert_eq!(rt; first.remove(ROOT), Ok(()));
    drop(first);
    assert_eq!(rt; second.length(ROOT), Err(DiskError::Failed));
    Ok(())
}

/// The first call of a second disk waits while another has the store.
pub(crate) fn a_second_disk_waits(
    rt: &(impl Abort + Threads),
    host: HostRuntime,
) -> Result<(), Fail> {
    let mut first = system_disk(host, 1);
    assert_eq!(rt; first.make(ROOT), Ok(()));
    let second = thread::spawn(rt, move || system_disk(host, 1000).length(ROOT))?;
    thread::sleep(&host, Duration::from_millis(100));
    assert_eq!(rt; first.write_at(ROOT, 0, b"abc"), Ok(()));
    drop(first);
    assert_eq!(rt; second.join(rt), Ok(3));
    assert_eq!(rt; system_disk(host, 1).remove(ROOT), Ok(()));
    Ok(())
}

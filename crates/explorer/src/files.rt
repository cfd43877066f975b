// Files of a store, laid out and looked at.
use crate::trouble::Trouble;
use disk_model::{Disk, DiskError, FileName};
use file_paths::path_of;
use std::alloc::Global;

/// How many files are listed at the most.
const MOST: u32 = 10_000;

/// Makes a file with these octets, and syncs it if that is asked.
pub fn put<D: Disk>(
    disk: &mut D,
    name: FileName,
    octets: &[u8],
    synced: bool,
) -> Result<(), DiskError> {
    disk.make(name)?;
    disk.write_at(name, 0, octets)?;
    if synced {
        disk.sync(name)?;
    }
    Ok(())
}

/// The octets of a file. None if it isn't there.
pub fn octets_of<D: Disk>(
    alloc: Global,
    disk: &mut D,
    name: FileName,
) -> Result<Option<Vec<u8>>, Trouble> {
    let length = match disk.length(name) {
        Ok(length) => length,
        Err(DiskError::Absent) => return Ok(None),
        Err(DiskError::Failed) => return Err(Trouble::Disk),
    };
    let mut octets = Vec::new(alloc);
    octets.resize(length as usize, 0)?;
    let count = disk.read_at(name, 0, &mut octets)?;
    octets.truncate(count);
    Ok(Some(octets))
}

/// Adds a line with the path of each file.
pub fn push_paths<D: Disk>(alloc: Global, disk: &mut D, out: &mut String) -> Result<(), Trouble> {
    let mut last = None;
    for _ in 0..MOST {
        let Some(name) = disk.next_name(last)? else {
            return Ok(());
        };
        let path = path_of(alloc, name)?;
        out.push_str(". ")?;
        out.push_str(str::from_utf8(path.as_slice()).unwrap_or(""))?;
        out.push_str("\n")?;
        last = Some(name);
    }
    Err(Trouble::Disk)
}

/// Removes each file.
pub fn clear<D: Disk>(disk: &mut D) -> Result<(), Trouble> {
    for _ in 0..MOST {
        let Some(name) = disk.next_name(None)? else {
            return Ok(());
        };
        disk.remove(name)?;
    }
    Err(Trouble::Disk)
}

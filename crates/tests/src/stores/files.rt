// Files on a disk in memory.
ghost use Rattle.std.specs.Prelude.{◌≡◌, ◌+◌, OnOk, length};
ghost use Rattle.disk_model.specs.Disk.{Reaches};
ghost use Rattle.disk_mem.specs.Mem.{told, calls_of};

use disk_mem::MemDisk;
use disk_model::{Disk, DiskError, FileName};
use std::alloc::Global;
use std::test::Fail;

/// Makes a file with these octets, not synced, by two calls.
pub fn put_unsynced(disk: &mut MemDisk, name: FileName, octets: &[u8]) -> Result<(), DiskError>
    ensures reaches { OnOk result (Reaches ((told disk.new).now name) (length octets.now)) }
    ensures calls { OnOk result (calls_of disk.new ≡ calls_of disk.old + 2) }
{
    disk.make(name)?;
    disk.write_at(name, 0, octets)
}

/// Makes a file with these octets, synced, by three calls.
pub fn put_file(disk: &mut MemDisk, name: FileName, octets: &[u8]) -> Result<(), DiskError>
    ensures reaches { OnOk result (Reaches ((told disk.new).now name) (length octets.now)) }
    ensures calls { OnOk result (calls_of disk.new ≡ calls_of disk.old + 3) }
{
    put_unsynced(disk, name, octets)?;
    disk.sync(name)
}

/// What a file holds.
pub fn file_octets(alloc: Global, disk: &mut MemDisk, name: FileName) -> Result<Vec<u8>, Fail> {
    let mut octets = Vec::new(alloc);
    octets.resize(disk.length(name)? as usize, 0)?;
    disk.read_at(name, 0, &mut octets)?;
    Ok(octets)
}

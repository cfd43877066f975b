// Regions of records in their storage files.
ghost use Rattle.std.specs.Prelude.{◌≡◌, ◌↔◌, All, AllPairs, IsPermutation, IsTrue, IfOk, IfErr, OnOk, IsErrOf};
ghost use Rattle.disk_model.specs.Disk.{IfTold, IsIdle};
ghost use Rattle.model_store.specs.Settled.{files_of};
ghost use Rattle.model_store.specs.Safe.{LiesInFile};
ghost use Rattle.disk_model.specs.FaultCounts.{NoFault, ReadFaultCounted};
ghost use Rattle.store_checks.specs.Lengths.{regions_in, EndsWithin, IsNoLater, IsRegionCause};

use crate::error::CheckError;
use crate::lengths::length_of;
use disk_model::{Disk, FileName};
use map_index::MapIndex;
use mdbox_base::NoMemory;
use std::alloc::Global;

/// A region of a storage file, in octets. Regions are ordered by file number and offset.
#[derive(Clone, Copy, PartialEq, Eq, PartialOrd, Ord)]
pub struct Region {
    pub file: u32,
    pub offset: u32,
    pub size: u32,
}

impl Region {
    /// Whether a file of this length has the whole region.
    fn ends_within(&self, length: Option<u64>) -> bool
        ensures { IsTrue result ↔ EndsWithin self.now length }
    {
        match length {
            Some(length) => self.offset as u64 + self.size as u64 <= length,
            None => false,
        }
    }
}

/// Looks whether each record's region lies in its storage file. The first that doesn't, by file number and offset, is
/// damaged.
pub fn check_regions<D: Disk>(alloc: Global, disk: &mut D, map: &MapIndex) -> Result<(), CheckError>
    ensures passed { OnOk result (IfTold (D.history disk.old) (λ now. All (LiesInFile (files_of now)) map.now.meaning.records)) }
    ensures refused { IfErr result (IsRegionCause map.now.meaning (D.history disk.old)) }
    ensures idle { IsIdle (D.history disk.old) (D.history disk.new) }
    ensures fault { ReadFaultCounted (IsErrOf result CheckError.DiskFault) (D.faults disk.old) (D.faults disk.new) }
    ensures unfailed { (IsErrOf result CheckError.DiskFault → ⊥) → NoFault (D.faults disk.old) (D.faults disk.new) }
{
    let regions = regions_of(alloc, map)?;
    let mut asked = None;
    for region in &regions {
        let name = FileName::Mail(region.file);
        let length = length_of(disk, &mut asked, name)?;
        if !region.ends_within(length) {
            return Err(CheckError::Damaged(name, region.offset as u64));
        }
    }
    Ok(())
}

/// The regions of the records, in order.
fn regions_of(alloc: Global, map: &MapIndex) -> Result<Vec<Region>, NoMemory>
    ensures same { IfOk result (λ regions. IsPermutation (regions_in map.now.meaning) regions.items) }
    ensures order { IfOk result (λ regions. AllPairs IsNoLater regions.items) }
{
    let mut regions = Vec::new(alloc);
    for place in 0..map.rows() {
        let row = map.row_at(place).unwrap();
        regions.push(Region {
            file: row.file.0,
            offset: row.offset,
            size: row.size,
        })?;
    }
    regions.sort_unstable();
    Ok(regions)
}

// The whole of a message, read again.
ghost use Rattle.std.specs.Prelude.{◌≡◌, ◌<◌, ◌≤◌, ◌^◌, ◌+◌, length, take, drop, All, IfOk, IfSome, IsErrOf};
ghost use Rattle.disk_model.specs.Disk.{IfTold, IsIdle};
ghost use Rattle.disk_model.specs.FaultCounts.{NoFault, ReadFaultCounted};
ghost use Rattle.model_base64.specs.Base64Text.{IsForm};
ghost use Rattle.rebuild_judge.specs.Reading.{HasWholeOn, IsRejoinedAs};

use crate::device::read_part;
use crate::instances::instance_octets;
use crate::lines::metadata_in;
use attach_join::rejoin;
use dbox_file::message_at;
use dbox_metadata::Metadata;
use disk_model::{Disk, FileName};
use mdbox_base::{FileNo, NoMemory, Octets, Seq};
use model_attach::JoinError;
use rebuild_files::RebuildError;
use std::alloc::Global;

/// How many references are more than any message has.
const MANY: usize = 1 << 32;

/// The whole of the message in a region, with its instances. None only if no message that rejoins is there.
pub fn whole_in<D: Disk>(
    alloc: Global,
    disk: &mut D,
    number: FileNo,
    offset: u64,
    size: u64,
) -> Result<Option<Octets>, RebuildError>
    ensures found { IfOk result (λ found. IfTold (D.history disk.old) (HasWholeOn number.0 offset size found)) }
    ensures whole { IsErrOf result RebuildError.StoreWhole → ⊥ }
    ensures idle { IsIdle (D.history disk.old) (D.history disk.new) }
    ensures fault { ReadFaultCounted (IsErrOf result RebuildError.DiskFault) (D.faults disk.old) (D.faults disk.new) }
    ensures unfailed { (IsErrOf result RebuildError.DiskFault → ⊥) → NoFault (D.faults disk.old) (D.faults disk.new) }
{
    let region = read_part(alloc, disk, FileName::Mail(number.0), offset, size)?;
    let octets = region.as_slice();
    let place = match message_at(octets, 0) {
        Ok(place) => place,
        Err(_) => return Ok(None),
    };
    let long = place.end.saturating_sub(place.lines).saturating_sub(1);
    let lines = part_of(octets, place.lines, long);
    let Some(meta) = metadata_in(alloc, lines)? else {
        return Ok(None);
    };
    let Some(instances) = instance_octets(alloc, disk, meta.refs.as_slice())? else {
        return Ok(None);
    };
    if meta.refs.length() >= MANY {
        return Ok(None);
    }
    let body = part_of(octets, place.body, place.size);
    let found = rejoined(alloc, body, &meta, &instances)?;
    Ok(found)
}

/// So many octets, from an offset on.
fn part_of(octets: &[u8], offset: u64, size: u64) -> &[u8]
    requires { offset + size ≤ length octets.now }
    ensures { result.now ≡ take size (drop offset octets.now) }
{
    let (_, rest) = octets.split_at(offset as usize);
    let (part, _) = rest.split_at(size as usize);
    part
}

/// The whole of a body and instances. None only if they don't join.
fn rejoined(
    alloc: Global,
    body: &[u8],
    meta: &Metadata,
    instances: &Seq<Octets>,
) -> Result<Option<Octets>, NoMemory>
    requires one_each { length meta.now.refs ≡ length instances.now }
    requires few { length meta.now.refs < 2 ^ 32 }
    requires forms { All (λ ref. IfSome ref.form IsForm) meta.now.refs }
    ensures { IfOk result (IsRejoinedAs body.now meta.now instances.now) }
{
    let whole = meta.physical.unwrap_or(body.len() as u64);
    match rejoin(alloc, body, whole, &meta.refs, instances) {
        Ok(octets) => Ok(Some(octets)),
        Err(error) => match error {
            JoinError::NoMemory => Err(NoMemory),
            _ => Ok(None),
        },
    }
}

// The metadata lines of a message that was found.
ghost use Rattle.std.specs.Prelude.{All, IfOk, IfSome, IsErrOf};
ghost use Rattle.disk_model.specs.Disk.{IfTold, IsIdle};
ghost use Rattle.disk_model.specs.FaultCounts.{NoFault, ReadFaultCounted};
ghost use Rattle.model_base64.specs.Base64Text.{IsForm};
ghost use Rattle.rebuild_judge.specs.Reading.{SayOn, TextSays};

use crate::device::read_part;
use dbox_file::MessageAt;
use dbox_metadata::{MetaError, Metadata, read_metadata};
use disk_model::{Disk, FileName};
use mdbox_base::{FileNo, NoMemory};
use rebuild_files::RebuildError;
use std::alloc::Global;

/// What the lines of the message at a place say. None if one of them is bad.
pub fn read_lines<D: Disk>(
    alloc: Global,
    disk: &mut D,
    number: FileNo,
    place: &MessageAt,
) -> Result<Option<Metadata>, RebuildError>
    ensures say { IfOk result (λ meta. IfTold (D.history disk.old) (SayOn number.0 place.now meta)) }
    ensures forms { IfOk result (λ meta. IfSome meta (λ said. All (λ ref. IfSome ref.form IsForm) said.refs)) }
    ensures whole { IsErrOf result RebuildError.StoreWhole → ⊥ }
    ensures idle { IsIdle (D.history disk.old) (D.history disk.new) }
    ensures fault { ReadFaultCounted (IsErrOf result RebuildError.DiskFault) (D.faults disk.old) (D.faults disk.new) }
    ensures unfailed { (IsErrOf result RebuildError.DiskFault → ⊥) → NoFault (D.faults disk.old) (D.faults disk.new) }
{
    let size = place.end.saturating_sub(place.lines).saturating_sub(1);
    let lines = read_part(alloc, disk, FileName::Mail(number.0), place.lines, size)?;
    let meta = metadata_in(alloc, &lines)?;
    Ok(meta)
}

/// What lines say. None if and only if they are no metadata.
pub fn metadata_in(alloc: Global, lines: &[u8]) -> Result<Option<Metadata>, NoMemory>
    ensures says { IfOk result (TextSays lines.now) }
    ensures forms { IfOk result (λ meta. IfSome meta (λ said. All (λ ref. IfSome ref.form IsForm) said.refs)) }
{
    match read_metadata(alloc, lines) {
        Ok(meta) => Ok(Some(meta)),
        Err(MetaError::BadLine(_)) => Ok(None),
        Err(MetaError::NoMemory) => Err(NoMemory),
    }
}

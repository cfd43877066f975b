// A whole storage file, scanned in pieces.
ghost use Rattle.std.specs.Prelude.{IsErrOf};
ghost use Rattle.disk_model.specs.Disk.{IfTold, IsIdle};
ghost use Rattle.disk_model.specs.FaultCounts.{NoFault, ReadFaultCounted};
ghost use Rattle.scan_pieces.specs.Scanned.{ScansOn};

use crate::error::PiecesError;
use crate::window::Window;
use dbox_file::MessageAt;
use disk_model::Disk;
use mdbox_base::{FileNo, Seq};
use std::alloc::Global;

/// The places of all messages of a storage file, in order, as `scan` of `dbox_file` answers them for the file's octets. In
/// memory there are a window and the places.
pub fn scan_pieces<D: Disk>(
    alloc: Global,
    window: &mut Window,
    disk: &mut D,
    number: FileNo,
) -> Result<Seq<MessageAt>, PiecesError>
    ensures gives { IfTold (D.history disk.new) (ScansOn number.0 result) }
    ensures idle { IsIdle (D.history disk.old) (D.history disk.new) }
    ensures fault { ReadFaultCounted (IsErrOf result PiecesError.Fault) (D.faults disk.old) (D.faults disk.new) }
    ensures unfailed { (IsErrOf result PiecesError.Fault → ⊥) → NoFault (D.faults disk.old) (D.faults disk.new) }
{
    let mut offset = window.begin(alloc, disk, number)??;
    let mut messages = Seq::empty(alloc);
    while offset < window.size() {
        let message = window.message(disk, offset)??;
        messages.push(message)?;
        offset = message.end;
    }
    Ok(messages)
}

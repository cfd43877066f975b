// A whole write.
ghost use Rattle.std.specs.Prelude.{◌≡◌, ◌+◌, ◌<◌, ◌≤◌, ◌^◌, length, IfOk, OnOk, OnErr};
ghost use Rattle.disk_model.specs.Disk.{written};
ghost use Rattle.folder_model.specs.System.{with_content, IsHalfWritten};
ghost use Rattle.folder_model.specs.Calls.{IfModelled, IsLocked, IsPartlyDone, AreSince, done_by};
ghost use Rattle.folder_calls.specs.Writing.{IsOnItsWay};

use folder_model::{CallError, Folder};

/// Writes all of these octets at an offset within the file or at its end. A call that did less is gone on with, and one that
/// was interrupted is made again.
pub fn write_all<F: Folder>(
    folder: &mut F,
    file: &F::File,
    offset: u64,
    from: &[u8],
) -> Result<(), CallError>
    requires locked { IsLocked (F.modelled folder.old) }
    requires reaches { IfModelled (F.modelled folder.old) (λ s. offset ≤ length (s.content (F.number file.now)).octets) }
    ensures wrote { OnOk result (F.modelled folder.new ≡ done_by (with_content (F.number file.now) (written offset from.now)) (F.modelled folder.old)) }
    ensures failed { OnErr result (IsPartlyDone (F.number file.now) (IsHalfWritten offset (length from.now)) (F.modelled folder.old) (F.modelled folder.new)) }
    ensures passed { AreSince (IsOnItsWay (F.number file.now) offset from.now (F.modelled folder.old)) (F.past folder.old) (F.past folder.new) }
    ensures fits { OnOk result (offset + length from.now < 2 ^ 64) }
{
    let Some(_) = offset.checked_add(from.len() as u64) else {
        return Err(CallError::Failed);
    };
    let mut done = 0;
    for _ in 0..u64::MAX {
        if done == from.len() {
            return Ok(());
        }
        match folder.write_some(file, offset + done as u64, &from[done..]) {
            Ok(0) => return Err(CallError::Failed),
            Ok(count) => done += count,
            Err(CallError::Interrupted) => {}
            Err(CallError::Failed) => return Err(CallError::Failed),
        }
    }
    Err(CallError::Failed)
}

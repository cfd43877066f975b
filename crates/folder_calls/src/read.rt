// A whole read.
ghost use Rattle.std.specs.Prelude.{◌≡◌, ◌+◌, ◌<◌, ◌≤◌, ◌^◌, length, take, drop, OnOk};
ghost use Rattle.folder_model.specs.Calls.{IfSound, IsLocked};

use folder_model::{CallError, Folder};

/// Fills `into` with the file's octets from an offset on. A call that did less is gone on with, and one that was interrupted is
/// made again. A file that ends before is an error. After an error `into` may hold any octets.
pub fn read_all<F: Folder>(
    folder: &mut F,
    file: &F::File,
    offset: u64,
    into: &mut [u8],
) -> Result<(), CallError>
    requires { IsLocked (F.modelled folder.old) }
    ensures octets { OnOk result (IfSound (F.modelled folder.old) (λ s. into.new ≡ take (length into.old) (drop offset (s.content (F.number file.now)).octets))) }
    ensures still { F.past folder.new ≡ F.past folder.old }
    ensures same { F.modelled folder.new ≡ F.modelled folder.old }
{
    let Some(_) = offset.checked_add(into.len() as u64) else {
        return Err(CallError::Failed);
    };
    let mut done = 0;
    for _ in 0..u64::MAX {
        if done == into.len() {
            return Ok(());
        }
        match folder.read_some(file, offset + done as u64, &mut into[done..]) {
            Ok(0) => return Err(CallError::Failed),
            Ok(count) => done += count,
            Err(CallError::Interrupted) => {}
            Err(CallError::Failed) => return Err(CallError::Failed),
        }
    }
    Err(CallError::Failed)
}

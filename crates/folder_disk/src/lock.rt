// The lock of a store.
ghost use Rattle.std.specs.Prelude.{◌≡◌, true, false};
ghost use Rattle.folder_model.specs.Calls.{IsLocked};
ghost use Rattle.folder_disk.specs.Folders.{IsUnseen};

use folder_model::{CallError, Folder};

/// How often the lock is asked for: for some 30 seconds, where a pause takes 10 milliseconds.
pub(crate) const TRIES: u32 = 3000;

/// Asks for the lock until this process has it, so many times at most, with a pause between. Whether it has it now.
pub(crate) fn has_lock<F: Folder>(folder: &mut F, tries: u32) -> bool
    ensures locked { result ≡ true → IsLocked (F.modelled folder.new) }
    ensures unseen { IsUnseen (F.modelled folder.old) (F.past folder.old) (F.modelled folder.new) (F.past folder.new) false }
{
    for _ in 0..tries {
        match folder.try_lock() {
            Ok(true) => return true,
            Ok(false) => folder.pause(),
            Err(CallError::Interrupted | CallError::Failed) => return false,
        }
    }
    false
}

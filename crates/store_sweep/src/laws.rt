// Laws of a disk that was swept.
ghost use Rattle.std.specs.Prelude.{ℕ, List, map, Option};
ghost use Rattle.disk_model.specs.Disk.{History, IfTold};
ghost use Rattle.model_meaning.specs.MapMeaning.{MapMeaning};
ghost use Rattle.storage_files.specs.Files.{file_found};
ghost use Rattle.storage_files.specs.OnDisk.{IsAsKnown};
ghost use Rattle.storage_files.specs.declared.file.FileState.{FileState};
ghost use Rattle.store_files.specs.Found.{AreFilesFound};
ghost use Rattle.store_sweep.specs.Swept.{OpensWith, IsSwept};

/// A disk whose store passed the checks has, once it is swept, each storage file as it was found before: as long as its end,
/// or not at all.
pub fn swept_files_are_known()
    ensures { (generation : ℕ) (m : MapMeaning) (states : List FileState) (old new : Option History) → IfTold old (OpensWith generation m) → AreFilesFound m old states → IsSwept generation m old new → (number : ℕ) → IsAsKnown (map file_found states) number new }
{}

// Laws of the storage files that an opening finds.
ghost use Rattle.std.specs.Prelude.{◌≡◌, [], ℕ, List, Some, All};
ghost use Rattle.std.specs.List.{AllByRecursion};
ghost use Rattle.disk_model.specs.Disk.{History};
ghost use Rattle.mdbox_base.specs.declared.entries.MapEntry.{MapEntry};
ghost use Rattle.model_logs.specs.Entries.{MapInRange};
ghost use Rattle.model_meaning.specs.MapFits.{AllMapFit};
ghost use Rattle.model_meaning.specs.MapMeaning.{MapMeaning, map_meaning};
ghost use Rattle.storage_files.specs.declared.file.FileState.{FileState};
ghost use Rattle.store_files.specs.Found.{AreFilesFound, HasHighestFile};

use model_meaning::meanings_are_sound;

/// Of a disk that is modelled, an opening finds the storage files in one way.
pub fn found_files_are_one()
    ensures { (m : MapMeaning) (disk : History) (a b : List FileState) → AreFilesFound m (Some disk) a → AreFilesFound m (Some disk) b → a ≡ b }
{}

/// No entry of a map log whose entries fit names a storage file past the highest.
pub fn highest_file_is_named()
    ensures { (store : List ℕ) (entries : List MapEntry) → AllMapFit store [] entries → AllByRecursion MapInRange entries → HasHighestFile (map_meaning store entries) }
{
    meanings_are_sound();
}

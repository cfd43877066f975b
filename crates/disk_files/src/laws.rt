// Laws of disks that follow a system.
ghost use Rattle.std.specs.Prelude.{◌≡◌, ◌≢◌, true, ℕ, List};
ghost use Rattle.disk_model.specs.Disk.{FileState, DiskState, change, change_all, written, cut_to, synced, made, removed, named};
ghost use Rattle.disk_model.specs.declared.name.FileName.{FileName};
ghost use Rattle.file_paths.specs.Paths.{path_text, IsStoreFile};
ghost use Rattle.folder_model.specs.Paths.{IsPath};
ghost use Rattle.folder_model.specs.System.{System, IsSystem, Nothing, PlainFile, AFolder, with_node, with_new_file, with_content, with_synced_file, with_synced_names, MayStand, with_lock, with_failed_sync, after_end, IsHalfWritten};
ghost use Rattle.disk_files.specs.Follows.{FollowsSystem, CoversSystem, HasOwnFiles, HasDurableNames, half_written_as};

use file_paths::files_have_own_paths;

/// What a crash may leave of a system is an image of each disk that follows it.
pub fn images_are_covered()
    ensures { (disk : DiskState) (s : System) → FollowsSystem disk s → CoversSystem disk s }
{}

/// The paths of a store's files are of one spelling.
pub fn paths_are_spelled()
    ensures { (name : FileName) → IsStoreFile name → IsPath (path_text name) }
{}

/// A disk follows a system through a write of a file.
pub fn writes_are_followed()
    ensures { (disk : DiskState) (s : System) (name : FileName) (number at : ℕ) (octets : List ℕ) → HasOwnFiles s → IsStoreFile name → s.node (path_text name) ≡ PlainFile number
        → FollowsSystem disk s → FollowsSystem (change name (written at octets) disk) (with_content number (written at octets) s) }
{
    files_have_own_paths();
}

/// A disk follows a system through a write that failed and did a part.
pub fn failed_writes_are_followed()
    ensures { (disk : DiskState) (s : System) (name : FileName) (number at n : ℕ) (f : FileState) → HasOwnFiles s → IsStoreFile name → s.node (path_text name) ≡ PlainFile number
        → IsHalfWritten at n (s.content number) f → FollowsSystem disk s → FollowsSystem (change name (half_written_as at n f.octets) disk) (with_content number (λ _. f) s) }
{
    files_have_own_paths();
}

/// A disk follows a system through a cut of a file.
pub fn cuts_are_followed()
    ensures { (disk : DiskState) (s : System) (name : FileName) (number end : ℕ) → HasOwnFiles s → IsStoreFile name → s.node (path_text name) ≡ PlainFile number
        → FollowsSystem disk s → FollowsSystem (change name (cut_to end) disk) (with_content number (cut_to end) s) }
{
    files_have_own_paths();
}

/// A disk follows a system through a sync of a file, if none has failed.
pub fn syncs_are_followed()
    ensures { (disk : DiskState) (s : System) (name : FileName) (number : ℕ) → s.is_sound ≡ true → HasOwnFiles s → IsStoreFile name → s.node (path_text name) ≡ PlainFile number
        → FollowsSystem disk s → FollowsSystem (change name synced disk) (with_synced_file number s) }
{
    files_have_own_paths();
}

/// A disk follows a system through the making of a file where nothing stands.
pub fn makings_are_followed()
    ensures { (disk : DiskState) (s : System) (name : FileName) → IsStoreFile name → IsSystem s → s.node (path_text name) ≡ Nothing
        → FollowsSystem disk s → FollowsSystem (change name made disk) (with_new_file (path_text name) s) }
{
    files_have_own_paths();
}

/// A disk follows a system through a removal of a file that stands there.
pub fn removals_are_followed()
    ensures { (disk : DiskState) (s : System) (name : FileName) (number : ℕ) → IsStoreFile name → s.node (path_text name) ≡ PlainFile number
        → FollowsSystem disk s → FollowsSystem (change name removed disk) (with_node (path_text name) Nothing s) }
{
    files_have_own_paths();
}

/// A disk follows a system as it is through the making of a folder where nothing stands.
pub fn folders_are_followed()
    ensures { (disk : DiskState) (s : System) (path : List ℕ) → s.node path ≡ Nothing → ((name : FileName) → IsStoreFile name → path_text name ≢ path)
        → FollowsSystem disk s → FollowsSystem disk (with_node path AFolder s) }
{}

/// A disk follows a system as it is through a sync of a folder's names, and a sync of the disk's names once all are durable.
pub fn names_are_followed()
    ensures folder { (disk : DiskState) (s : System) (folder : List ℕ) → FollowsSystem disk s → FollowsSystem disk (with_synced_names folder s) }
    ensures all { (disk : DiskState) (s : System) → HasDurableNames s → FollowsSystem disk s → FollowsSystem (change_all named disk) s }
{}

/// The files of a store stay its own, if none is made where another may stand after a crash.
pub fn files_stay_own()
    ensures removal { (s : System) (path : List ℕ) → HasOwnFiles s → HasOwnFiles (with_node path Nothing s) }
    ensures folder { (s : System) (path : List ℕ) → HasOwnFiles s → HasOwnFiles (with_node path AFolder s) }
    ensures making { (s : System) (path : List ℕ) → IsSystem s → ((number : ℕ) → MayStand s path (PlainFile number) → ⊥) → HasOwnFiles s → HasOwnFiles (with_new_file path s) }
    ensures names { (s : System) (folder : List ℕ) → HasOwnFiles s → HasOwnFiles (with_synced_names folder s) }
{}

/// A disk follows a system as it is when the process gets the lock, when a sync fails, and after the process has ended: what a
/// killed process left, durable or not, is followed by a disk whose files are loose.
pub fn ends_are_followed()
    ensures lock { (disk : DiskState) (s : System) → FollowsSystem disk s → FollowsSystem disk (with_lock s) }
    ensures failed { (disk : DiskState) (s : System) → FollowsSystem disk s → FollowsSystem disk (with_failed_sync s) }
    ensures end { (disk : DiskState) (s : System) → FollowsSystem disk s → FollowsSystem disk (after_end s) }
{}

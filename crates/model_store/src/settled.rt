// Laws of settled disks.
ghost use Rattle.std.specs.Prelude.{ℕ, List};
ghost use Rattle.disk_model.specs.Disk.{Files, DiskState, IsImage, IsAtRest};
ghost use Rattle.disk_model.specs.declared.name.FileName.{FileName};
ghost use Rattle.mdbox_base.specs.declared.entries.MapEntry.{MapEntry};
ghost use Rattle.model_lists.specs.Lists.{Lists};
ghost use Rattle.model_meaning.specs.MapMeaning.{map_meaning};
ghost use Rattle.model_store.specs.Stands.{StandsBy};
ghost use Rattle.model_store.specs.Safe.{Safe, SafeBy};
ghost use Rattle.model_store.specs.Settled.{files_of, AreAlike, IsSettled};

/// Files that agree on what a store reads stand for the same lists, and are safe for the same.
pub fn alike_files()
    ensures stand { (a b : Files) (store : List ℕ) (entries : List MapEntry) (lists : Lists) → (s : StandsBy a store entries lists) → AreAlike s.map_log.generation (map_meaning store entries) a b → StandsBy b store entries lists }
    ensures safe { (a b : Files) (store : List ℕ) (entries : List MapEntry) (lists : Lists) → (s : SafeBy a store entries lists) → AreAlike s.stands.map_log.generation (map_meaning store entries) a b → SafeBy b store entries lists }
{}

/// Each image of a settled disk is safe for its lists.
pub fn images_of_settled_disk()
    ensures { (disk : DiskState) (lists : Lists) (image : Files) → IsSettled disk lists → IsImage disk image → Safe image lists }
{}

/// A disk at rest, as after a crash, is settled for the lists that its files are safe for: no crash before the next call
/// leaves other files. With `images_of_settled_disk` it joins the run before a crash and the run behind it.
pub fn rest_is_settled()
    ensures { (disk : DiskState) (lists : Lists) → ((name : FileName) → IsAtRest (disk name)) → Safe (files_of disk) lists → IsSettled disk lists }
{}

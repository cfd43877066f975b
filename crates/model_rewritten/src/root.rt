// Another map log, which the root log names.
ghost use Rattle.std.specs.Prelude.{◌≡◌, ℕ, List};
ghost use Rattle.disk_model.specs.Disk.{Files, DiskState, IsImage, reading};
ghost use Rattle.disk_model.specs.declared.name.FileName.TheVariants.{Root, Map};
ghost use Rattle.mdbox_base.specs.declared.entries.BoxEntry.{BoxEntry};
ghost use Rattle.mdbox_base.specs.declared.entries.MapEntry.{MapEntry};
ghost use Rattle.mdbox_base.specs.declared.entries.RootEntry.TheVariants.{M};
ghost use Rattle.model_lists.specs.Lists.{Lists};
ghost use Rattle.model_logs.specs.Entries.{root_text};
ghost use Rattle.model_meaning.specs.MapMeaning.{map_meaning};
ghost use Rattle.model_store.specs.GoodLogs.{AreGoodLogs};
ghost use Rattle.model_store.specs.Opening.{AreMapEntries, Opens};
ghost use Rattle.model_store.specs.Safe.{SafeBy, Safe};
ghost use Rattle.model_store.specs.Settled.{files_of, IsSettled};
ghost use Rattle.model_appends.specs.Appending.{HasOneMore, CarryMore, SameBut, StatesBut, LeftBut, LeavesAsRead};
ghost use Rattle.model_appends.specs.MapAppending.{LeavesAlike};
ghost use Rattle.model_rewritten.specs.OtherMap.{IsRootAppend, IsOtherMap};

/// The root log may name another map log that is there, whole, and means what the store needs: files with this entry more in the
/// root log are safe for the same lists, a crash within the append leaves them safe, and afterwards the disk is settled. A map
/// log that means the same will do; with it logs are good and files open as before.
pub fn root_entries_can_be_appended()
    ensures safe { (a b : Files) (store : List ℕ) (entries others : List MapEntry) (lists : Lists) (generation : ℕ) → SafeBy a store entries lists → IsRootAppend a store generation others lists
        → CarryMore Root (root_text (M generation)) generation (map_meaning store others) a b → SafeBy b store others lists }
    ensures crash { (disk : DiskState) (lists : Lists) (others : List MapEntry) (generation : ℕ) (image : Files) → (s : IsSettled disk lists) → IsImage disk (files_of disk)
        → IsRootAppend (files_of disk) s.store generation others lists → LeavesAlike generation (map_meaning s.store others) disk → LeftBut Root disk image
        → HasOneMore (root_text (M generation)) (reading (disk Root)) (image Root) → Safe image lists }
    ensures settle { (old new : DiskState) (lists : Lists) (others : List MapEntry) (generation : ℕ) → (s : IsSettled old lists) → IsImage old (files_of old)
        → IsRootAppend (files_of old) s.store generation others lists → LeavesAlike generation (map_meaning s.store others) old → StatesBut Root old new
        → HasOneMore (root_text (M generation)) (reading (old Root)) (reading (new Root)) → LeavesAsRead Root new → IsSettled new lists }
    ensures rewritten { (files : Files) (store : List ℕ) (entries others : List MapEntry) (lists : Lists) (generation : ℕ) → SafeBy files store entries lists → IsOtherMap files store generation entries others
        → IsRootAppend files store generation others lists }
    ensures synced { (disk : DiskState) (lists : Lists) (others : List MapEntry) (generation : ℕ) → (s : IsSettled disk lists) → map_meaning s.store others ≡ map_meaning s.store s.entries
        → ((image : Files) → IsImage disk image → image (Map generation) ≡ files_of disk (Map generation)) → LeavesAlike generation (map_meaning s.store others) disk }
    ensures good { (store : List ℕ) (entries others : List MapEntry) (logs : List (List BoxEntry)) → AreGoodLogs store entries logs → AreMapEntries store others
        → map_meaning store others ≡ map_meaning store entries → AreGoodLogs store others logs }
    ensures opens { (a b : Files) (store : List ℕ) (entries others : List MapEntry) (logs : List (List BoxEntry)) (generation : ℕ) → Opens a store entries logs → IsOtherMap a store generation entries others
        → SameBut Root a b → HasOneMore (root_text (M generation)) (a Root) (b Root) → Opens b store others logs }
{}

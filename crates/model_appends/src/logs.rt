// How logs compare, and what a settled disk leaves of its own.
ghost use Rattle.std.specs.Prelude.{◌++◌, ◌∷◌, [], ℕ, List, Option, Contains};
ghost use Rattle.disk_model.specs.Disk.{DiskState, IsImage};
ghost use Rattle.disk_model.specs.declared.name.FileName.TheVariants.{Root, Map, Box};
ghost use Rattle.model_lists.specs.Lists.{Lists};
ghost use Rattle.model_logs.specs.LogFile.{IsLogFile};
ghost use Rattle.model_logs.specs.declared.log_head.LogHead.{LogHead};
ghost use Rattle.model_meaning.specs.MapMeaning.{MapBox, map_meaning};
ghost use Rattle.model_store.specs.Carrying.{HasSameEntries};
ghost use Rattle.model_store.specs.Settled.{files_of, IsSettled};
ghost use Rattle.model_appends.specs.Appending.{HasOneMore, LeavesAsRead};

/// Two logs with one head and the same entries have the same entries, whatever stands behind them; and one with an entry
/// more has this more.
pub fn logs_compare()
    ensures same { (a b : Option (List ℕ)) (head : LogHead) (entries : List (List ℕ)) → IsLogFile a head entries → IsLogFile b head entries → HasSameEntries a b }
    ensures more { (a b : Option (List ℕ)) (head : LogHead) (entries : List (List ℕ)) (entry : List ℕ) → IsLogFile a head entries → IsLogFile b head (entries ++ entry ∷ []) → HasOneMore entry a b }
{}

/// A crash leaves the logs of a settled disk just as it reads them.
pub fn settled_disks_hold_logs()
    ensures root { (disk : DiskState) (lists : Lists) → IsSettled disk lists → IsImage disk (files_of disk) → LeavesAsRead Root disk }
    ensures map_log { (disk : DiskState) (lists : Lists) → (s : IsSettled disk lists) → IsImage disk (files_of disk) → LeavesAsRead (Map s.safe.stands.map_log.generation) disk }
    ensures box_log { (disk : DiskState) (lists : Lists) (mailbox : MapBox) → (s : IsSettled disk lists) → IsImage disk (files_of disk) → Contains (map_meaning s.store s.entries).boxes mailbox
        → LeavesAsRead (Box mailbox.number mailbox.generation) disk }
{}

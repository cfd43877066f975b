// The purge: an entry of the map log that moves and drops the records of a file.
ghost use Rattle.std.specs.Prelude.{◌++◌, ◌∷◌, [], ℕ, List, All};
ghost use Rattle.disk_model.specs.Disk.{Files, DiskState};
ghost use Rattle.disk_model.specs.declared.name.FileName.TheVariants.{Map};
ghost use Rattle.mdbox_base.specs.declared.ids.FileNo.{FileNo};
ghost use Rattle.mdbox_base.specs.declared.ids.MapUid.{MapUid};
ghost use Rattle.mdbox_base.specs.declared.entries.BoxEntry.{BoxEntry};
ghost use Rattle.mdbox_base.specs.declared.entries.MapEntry.{MapEntry};
ghost use Rattle.mdbox_base.specs.declared.entries.MapEntry.TheVariants.{P};
ghost use Rattle.mdbox_base.specs.declared.entries.MapPlace.{MapPlace};
ghost use Rattle.model_lists.specs.Lists.{Lists};
ghost use Rattle.model_logs.specs.Entries.{map_text, MapInRange};
ghost use Rattle.model_meaning.specs.MapFits.{MapFits};
ghost use Rattle.model_meaning.specs.MapMeaning.{map_meaning};
ghost use Rattle.model_store.specs.GoodLogs.{AreGoodLogs};
ghost use Rattle.model_store.specs.Opening.{Opens};
ghost use Rattle.model_store.specs.Safe.{SafeBy};
ghost use Rattle.model_store.specs.Settled.{IsSettled};
ghost use Rattle.model_appends.specs.Amounts.{IsAccounted};
ghost use Rattle.model_appends.specs.Appending.{HasOneMore, SameBut};
ghost use Rattle.model_appends.specs.MapAppending.{IsMapAppend, LeavesAlike, AreCopied, AreCopiesSynced};

/// A purge that fits can be appended, where what it moves stands in its target octet for octet; it keeps the lists. Whatever a
/// crash leaves of a settled disk agrees by the new meaning, where the copies in the target are synced.
pub fn purges_can_be_appended()
    ensures append { (files : Files) (store : List ℕ) (entries : List MapEntry) (lists : Lists) (file : FileNo) (target : ℕ) (moved : List MapPlace) (dropped : List MapUid) → SafeBy files store entries lists
        → MapInRange (P file target moved dropped) → MapFits (map_meaning store entries) (P file target moved dropped) → AreCopied files (map_meaning store entries) target moved
        → IsMapAppend files store entries lists lists (P file target moved dropped) }
    ensures synced { (disk : DiskState) (lists : Lists) (file : FileNo) (target : ℕ) (moved : List MapPlace) (dropped : List MapUid) → (s : IsSettled disk lists)
        → AreCopiesSynced disk (map_meaning s.store s.entries) target moved
        → LeavesAlike s.safe.stands.map_log.generation (map_meaning s.store (s.entries ++ P file target moved dropped ∷ [])) disk }
{}

/// Good logs are good with a purge that fits, and files open with it, where what it moves stands in its target. Each count
/// stays made up as it was: the records that are dropped have none.
pub fn purges_keep_stores_open()
    ensures good { (store : List ℕ) (entries : List MapEntry) (logs : List (List BoxEntry)) (file : FileNo) (target : ℕ) (moved : List MapPlace) (dropped : List MapUid) → AreGoodLogs store entries logs
        → MapInRange (P file target moved dropped) → MapFits (map_meaning store entries) (P file target moved dropped) → AreGoodLogs store (entries ++ P file target moved dropped ∷ []) logs }
    ensures opens { (a b : Files) (store : List ℕ) (entries : List MapEntry) (logs : List (List BoxEntry)) (file : FileNo) (target : ℕ) (moved : List MapPlace) (dropped : List MapUid) → (o : Opens a store entries logs)
        → MapInRange (P file target moved dropped) → MapFits (map_meaning store entries) (P file target moved dropped) → AreCopied a (map_meaning store entries) target moved
        → SameBut (Map o.passed.map_log.generation) a b
        → HasOneMore (map_text (P file target moved dropped)) (a (Map o.passed.map_log.generation)) (b (Map o.passed.map_log.generation))
        → Opens b store (entries ++ P file target moved dropped ∷ []) logs }
    ensures accounted { (store : List ℕ) (entries : List MapEntry) (logs : List (List BoxEntry)) (due leak : ℕ → ℕ) (file : FileNo) (target : ℕ) (moved : List MapPlace) (dropped : List MapUid)
        → All (IsAccounted due leak logs) (map_meaning store entries).records
        → All (IsAccounted due leak logs) (map_meaning store (entries ++ P file target moved dropped ∷ [])).records }
{}

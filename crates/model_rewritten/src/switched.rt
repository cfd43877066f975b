// A new generation of a mailbox's log.
ghost use Rattle.std.specs.Prelude.{◌≡◌, ◌≤◌, ◌+◌, ◌==◌, ◌++◌, ◌∷◌, [], ℕ, List, Some, All, count_by, map};
ghost use Rattle.disk_model.specs.Disk.{Files, DiskState, IsImage};
ghost use Rattle.disk_model.specs.declared.name.FileName.TheVariants.{Map, Box};
ghost use Rattle.mdbox_base.specs.declared.entries.BoxEntry.{BoxEntry};
ghost use Rattle.mdbox_base.specs.declared.entries.MapEntry.{MapEntry};
ghost use Rattle.mdbox_base.specs.declared.entries.MapEntry.TheVariants.{G};
ghost use Rattle.mdbox_base.specs.declared.ids.BoxNo.{BoxNo};
ghost use Rattle.model_lists.specs.Lists.{ListedMessage, Lists, refs_of};
ghost use Rattle.model_logs.specs.Entries.{map_text, MapInRange};
ghost use Rattle.model_meaning.specs.BoxMeaning.{BoxMeaning, rows_after, next_after, box_meaning};
ghost use Rattle.model_meaning.specs.MapFits.{MapFits};
ghost use Rattle.model_meaning.specs.MapMeaning.{MapBox, map_meaning, box_at, count_of};
ghost use Rattle.model_meaning.specs.SameMeaning.{MeansSame};
ghost use Rattle.model_store.specs.GoodLogs.{AreGoodLogs};
ghost use Rattle.model_store.specs.Listing.{meaning_numbered};
ghost use Rattle.model_store.specs.Opening.{AreMapEntries, AreBoxEntries, HasItsRecord, IsCounted, Opens, listed_of};
ghost use Rattle.model_store.specs.Safe.{SafeBy};
ghost use Rattle.model_store.specs.Settled.{files_of, IsSettled};
ghost use Rattle.model_store.specs.Stands.{HasBox, AreListed};
ghost use Rattle.model_appends.specs.Amounts.{IsAccounted};
ghost use Rattle.model_appends.specs.Appending.{SameBut, HasOneMore};
ghost use Rattle.model_appends.specs.MapAppending.{IsMapAppend, LeavesAlike};
ghost use Rattle.model_rewritten.specs.Switched.{list_switched, log_switched};

/// A new generation of a mailbox's log can be appended to the map log, if that log is there, whole. Where it means what the log
/// in force means, it keeps the lists. Where each message that it lists is stored and counted, it gives the lists in which the
/// mailbox has these. Whatever a crash leaves of a settled disk agrees by the new meaning, where that log is synced.
pub fn generations_can_be_appended()
    ensures same { (files : Files) (store : List ℕ) (entries : List MapEntry) (lists : Lists) (mailbox : BoxNo) (generation : ℕ) (box : MapBox) (log : List BoxEntry) → SafeBy files store entries lists
        → MapInRange (G mailbox generation) → MapFits (map_meaning store entries) (G mailbox generation) → box_at (map_meaning store entries) mailbox.0 ≡ Some box
        → HasBox files store (record box { generation = generation }) log → ((old : List BoxEntry) → HasBox files store box old → box_meaning log ≡ box_meaning old)
        → IsMapAppend files store entries lists lists (G mailbox generation) }
    ensures append { (files : Files) (store : List ℕ) (entries : List MapEntry) (lists : Lists) (mailbox : BoxNo) (generation : ℕ) (box : MapBox) (log : List BoxEntry) (messages : List ListedMessage) → SafeBy files store entries lists
        → MapInRange (G mailbox generation) → MapFits (map_meaning store entries) (G mailbox generation) → box_at (map_meaning store entries) mailbox.0 ≡ Some box
        → HasBox files store (record box { generation = generation }) log → AreListed files (map_meaning store entries) (rows_after log) messages
        → ((guid : List ℕ) → refs_of (list_switched mailbox.0 (next_after log) messages lists) guid ≤ count_of (map_meaning store entries) guid)
        → IsMapAppend files store entries lists (list_switched mailbox.0 (next_after log) messages lists) (G mailbox generation) }
    ensures synced { (disk : DiskState) (lists : Lists) (mailbox : BoxNo) (generation : ℕ) → (s : IsSettled disk lists)
        → ((image : Files) → IsImage disk image → image (Box mailbox.0 generation) ≡ files_of disk (Box mailbox.0 generation))
        → LeavesAlike s.safe.stands.map_log.generation (map_meaning s.store (s.entries ++ G mailbox generation ∷ [])) disk }
{}

/// Good logs are good with it, and files open with it, where the messages that it lists have their records and the counts are
/// enough. The map means the same. As many messages are listed as before, but for those of the log that it replaces and its own;
/// where it means the same, all logs do, counts are enough, and each stays made up of what it was.
pub fn generations_keep_stores_open()
    ensures good { (store : List ℕ) (entries : List MapEntry) (logs : List (List BoxEntry)) (mailbox : BoxNo) (generation : ℕ) (log : List BoxEntry) → AreGoodLogs store entries logs → MapInRange (G mailbox generation)
        → MapFits (map_meaning store entries) (G mailbox generation) → AreBoxEntries log → All (HasItsRecord (map_meaning store entries)) (rows_after log)
        → All (IsCounted (log_switched mailbox.0 log (map_meaning store entries).boxes logs)) (map_meaning store entries).records
        → AreGoodLogs store (entries ++ G mailbox generation ∷ []) (log_switched mailbox.0 log (map_meaning store entries).boxes logs) }
    ensures opens { (a b : Files) (store : List ℕ) (entries : List MapEntry) (logs : List (List BoxEntry)) (mailbox : BoxNo) (generation : ℕ) (box : MapBox) (log : List BoxEntry) → (o : Opens a store entries logs)
        → MapInRange (G mailbox generation) → MapFits (map_meaning store entries) (G mailbox generation) → box_at (map_meaning store entries) mailbox.0 ≡ Some box
        → HasBox a store (record box { generation = generation }) log → All (HasItsRecord (map_meaning store entries)) (rows_after log)
        → All (IsCounted (log_switched mailbox.0 log (map_meaning store entries).boxes logs)) (map_meaning store entries).records
        → SameBut (Map o.passed.map_log.generation) a b
        → HasOneMore (map_text (G mailbox generation)) (a (Map o.passed.map_log.generation)) (b (Map o.passed.map_log.generation))
        → Opens b store (entries ++ G mailbox generation ∷ []) (log_switched mailbox.0 log (map_meaning store entries).boxes logs) }
    ensures means { (store : List ℕ) (entries : List MapEntry) (mailbox : BoxNo) (generation : ℕ) → AreMapEntries store entries → MapFits (map_meaning store entries) (G mailbox generation)
        → MeansSame (map_meaning store entries) (map_meaning store (entries ++ G mailbox generation ∷ [])) }
    ensures listed { (store : List ℕ) (entries : List MapEntry) (logs : List (List BoxEntry)) (number : ℕ) (log : List BoxEntry) (m : BoxMeaning) (uid : ℕ) → AreGoodLogs store entries logs
        → meaning_numbered number (map_meaning store entries).boxes (map box_meaning logs) ≡ Some m
        → listed_of (log_switched number log (map_meaning store entries).boxes logs) uid + count_by (λ row. row.map_uid == uid) m.rows ≡ listed_of logs uid + count_by (λ row. row.map_uid == uid) (rows_after log) }
    ensures same { (store : List ℕ) (entries : List MapEntry) (logs : List (List BoxEntry)) (number : ℕ) (log : List BoxEntry) → AreGoodLogs store entries logs
        → meaning_numbered number (map_meaning store entries).boxes (map box_meaning logs) ≡ Some (box_meaning log)
        → map box_meaning (log_switched number log (map_meaning store entries).boxes logs) ≡ map box_meaning logs }
    ensures counted { (store : List ℕ) (entries : List MapEntry) (logs : List (List BoxEntry)) (number : ℕ) (log : List BoxEntry) → AreGoodLogs store entries logs
        → meaning_numbered number (map_meaning store entries).boxes (map box_meaning logs) ≡ Some (box_meaning log)
        → All (IsCounted (log_switched number log (map_meaning store entries).boxes logs)) (map_meaning store entries).records }
    ensures accounted { (store : List ℕ) (entries : List MapEntry) (logs : List (List BoxEntry)) (mailbox : BoxNo) (generation : ℕ) (log : List BoxEntry) (due leak : ℕ → ℕ) → AreGoodLogs store entries logs
        → meaning_numbered mailbox.0 (map_meaning store entries).boxes (map box_meaning logs) ≡ Some (box_meaning log) → All (IsAccounted due leak logs) (map_meaning store entries).records
        → All (IsAccounted due leak (log_switched mailbox.0 log (map_meaning store entries).boxes logs)) (map_meaning store (entries ++ G mailbox generation ∷ [])).records }
{}

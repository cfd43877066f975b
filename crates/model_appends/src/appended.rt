// Files and disks on which one log has an entry more.
ghost use Rattle.std.specs.Prelude.{◌++◌, ◌∷◌, [], ℕ, List};
ghost use Rattle.disk_model.specs.Disk.{Files, DiskState, IsImage, reading};
ghost use Rattle.disk_model.specs.Name.{IsLogName};
ghost use Rattle.disk_model.specs.declared.name.FileName.{FileName};
ghost use Rattle.disk_model.specs.declared.name.FileName.TheVariants.{Map, Box};
ghost use Rattle.mdbox_base.specs.declared.entries.BoxEntry.{BoxEntry};
ghost use Rattle.mdbox_base.specs.declared.entries.MapEntry.{MapEntry};
ghost use Rattle.model_lists.specs.Lists.{Lists};
ghost use Rattle.model_logs.specs.Entries.{box_text, map_text};
ghost use Rattle.model_meaning.specs.MapMeaning.{MapBox, map_meaning};
ghost use Rattle.model_store.specs.Carrying.{HasSameEntries};
ghost use Rattle.model_store.specs.Safe.{Safe, SafeBy};
ghost use Rattle.model_store.specs.Settled.{files_of, IsSettled};
ghost use Rattle.model_appends.specs.Appending.{HasOneMore, CarryMore, StatesBut, LeftBut, LeavesAsRead, lists_by, IsBoxAppend};
ghost use Rattle.model_appends.specs.MapAppending.{IsMapAppend, LeavesAlike};

/// Where an entry can be appended to a log of safe files, other files are safe for the lists that it gives if their log has
/// this entry more and they carry over all else that a store reads: by what the map log means, which an entry of its own
/// changes.
pub fn appends_are_safe()
    ensures box_entry { (a b : Files) (store : List ℕ) (entries : List MapEntry) (lists : Lists) (mailbox : MapBox) (octets : List ℕ) (e : BoxEntry) → (s : SafeBy a store entries lists)
        → IsBoxAppend a store entries lists mailbox octets e
        → CarryMore (Box mailbox.number mailbox.generation) (box_text e) s.stands.map_log.generation (map_meaning store entries) a b
        → SafeBy b store entries (lists_by mailbox.number octets e lists) }
    ensures map_entry { (a b : Files) (store : List ℕ) (entries : List MapEntry) (lists later : Lists) (e : MapEntry) → (s : SafeBy a store entries lists)
        → IsMapAppend a store entries lists later e
        → CarryMore (Map s.stands.map_log.generation) (map_text e) s.stands.map_log.generation (map_meaning store (entries ++ e ∷ [])) a b
        → SafeBy b store (entries ++ e ∷ []) later }
{}

/// A settled disk on which one log has an entry more, and is left by a crash as it reads, is settled for the lists that the
/// entry gives. For the map log, what a crash may leave must agree by the new meaning too.
pub fn appends_settle()
    ensures box_entry { (old new : DiskState) (lists : Lists) (mailbox : MapBox) (octets : List ℕ) (e : BoxEntry) → (s : IsSettled old lists) → IsImage old (files_of old)
        → IsBoxAppend (files_of old) s.store s.entries lists mailbox octets e
        → StatesBut (Box mailbox.number mailbox.generation) old new
        → HasOneMore (box_text e) (reading (old (Box mailbox.number mailbox.generation))) (reading (new (Box mailbox.number mailbox.generation)))
        → LeavesAsRead (Box mailbox.number mailbox.generation) new → IsSettled new (lists_by mailbox.number octets e lists) }
    ensures map_entry { (old new : DiskState) (lists later : Lists) (e : MapEntry) → (s : IsSettled old lists) → IsImage old (files_of old)
        → IsMapAppend (files_of old) s.store s.entries lists later e
        → LeavesAlike s.safe.stands.map_log.generation (map_meaning s.store (s.entries ++ e ∷ [])) old
        → StatesBut (Map s.safe.stands.map_log.generation) old new
        → HasOneMore (map_text e) (reading (old (Map s.safe.stands.map_log.generation))) (reading (new (Map s.safe.stands.map_log.generation)))
        → LeavesAsRead (Map s.safe.stands.map_log.generation) new → IsSettled new later }
{}

/// A crash within an append to a log of a settled disk leaves that log with or without the entry, and of each other file what
/// a crash could leave before. Without the entry the image is safe for the lists so far, with it for those that it gives.
pub fn crash_within_append()
    ensures without { (disk : DiskState) (lists : Lists) (log : FileName) (image : Files) → IsSettled disk lists → IsImage disk (files_of disk) → IsLogName log → LeftBut log disk image
        → HasSameEntries (reading (disk log)) (image log) → Safe image lists }
    ensures box_entry { (disk : DiskState) (lists : Lists) (mailbox : MapBox) (octets : List ℕ) (e : BoxEntry) (image : Files) → (s : IsSettled disk lists) → IsImage disk (files_of disk)
        → IsBoxAppend (files_of disk) s.store s.entries lists mailbox octets e → LeftBut (Box mailbox.number mailbox.generation) disk image
        → HasOneMore (box_text e) (reading (disk (Box mailbox.number mailbox.generation))) (image (Box mailbox.number mailbox.generation))
        → Safe image (lists_by mailbox.number octets e lists) }
    ensures map_entry { (disk : DiskState) (lists later : Lists) (e : MapEntry) (image : Files) → (s : IsSettled disk lists) → IsImage disk (files_of disk)
        → IsMapAppend (files_of disk) s.store s.entries lists later e
        → LeavesAlike s.safe.stands.map_log.generation (map_meaning s.store (s.entries ++ e ∷ [])) disk
        → LeftBut (Map s.safe.stands.map_log.generation) disk image
        → HasOneMore (map_text e) (reading (disk (Map s.safe.stands.map_log.generation))) (image (Map s.safe.stands.map_log.generation))
        → Safe image later }
{}

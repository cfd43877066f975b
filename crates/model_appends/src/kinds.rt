// Which entries can be appended, kind by kind.
ghost use Rattle.std.specs.Prelude.{◌≤◌, ◌++◌, ◌∷◌, [], ℕ, List, All, Contains};
ghost use Rattle.disk_model.specs.Disk.{Files, DiskState};
ghost use Rattle.mdbox_base.specs.declared.ids.BoxNo.{BoxNo};
ghost use Rattle.mdbox_base.specs.declared.ids.FileNo.{FileNo};
ghost use Rattle.mdbox_base.specs.declared.ids.Guid.{Guid};
ghost use Rattle.mdbox_base.specs.declared.ids.MapUid.{MapUid};
ghost use Rattle.mdbox_base.specs.declared.entries.BoxEntry.{BoxEntry};
ghost use Rattle.mdbox_base.specs.declared.entries.InstRow.{InstRow};
ghost use Rattle.mdbox_base.specs.declared.entries.MapCount.{MapCount};
ghost use Rattle.mdbox_base.specs.declared.entries.MapEntry.{MapEntry};
ghost use Rattle.mdbox_base.specs.declared.entries.MapEntry.TheVariants.{B, S, V, X};
ghost use Rattle.model_lists.specs.Lists.{Lists, refs_of, empty_mailbox};
ghost use Rattle.model_logs.specs.Entries.{BoxInRange, MapInRange};
ghost use Rattle.model_meaning.specs.BoxMeaning.{row_made};
ghost use Rattle.model_meaning.specs.MapFits.{MapFits};
ghost use Rattle.model_meaning.specs.MapMeaning.{MapBox, map_meaning, count_of};
ghost use Rattle.model_store.specs.Opening.{IsCounted, Opens};
ghost use Rattle.model_store.specs.Safe.{LiesInFile, IsThereWhole, SafeBy};
ghost use Rattle.model_store.specs.Settled.{IsSettled};
ghost use Rattle.model_store.specs.Stands.{HasBox, AreListed, StoredOnce, KeepsDetached, StandsBy};
ghost use Rattle.model_appends.specs.Appending.{message_made, logs_by, FitsIn, IsBoxAppend};
ghost use Rattle.model_appends.specs.MapAppending.{OnlyAdds, ChangesCounts, lists_changed, stored_row, IsMapAppend, AddsSynced, LeavesAlike};

/// An entry can be appended to the log of a mailbox where it fits behind it, a message that it adds is listed, and each count
/// is at least what the logs list with the entry.
pub fn box_entries_can_be_appended()
    ensures { (files : Files) (store : List ℕ) (entries : List MapEntry) (logs : List (List BoxEntry)) (lists : Lists) (mailbox : MapBox) (octets : List ℕ) (e : BoxEntry)
        → Opens files store entries logs → StandsBy files store entries lists → Contains (map_meaning store entries).boxes mailbox → BoxInRange e
        → FitsIn mailbox.number e (map_meaning store entries).boxes logs → AreListed files (map_meaning store entries) (row_made e) (message_made octets e)
        → All (IsCounted (logs_by mailbox.number e (map_meaning store entries).boxes logs)) (map_meaning store entries).records
        → IsBoxAppend files store entries lists mailbox octets e }
{}

/// An entry that fits can be appended to the map log. One that changes counts at most (`U`, `D`, `T`, `H`, `E`) keeps the
/// lists, where the counts are still enough for them. An `S` keeps them too, where its region and its instances are there and
/// its message is stored as own saves are. A `B` whose log is there and empty gives the lists with an empty mailbox more.
pub fn map_entries_can_be_appended()
    ensures counts { (files : Files) (store : List ℕ) (entries : List MapEntry) (lists : Lists) (e : MapEntry) → SafeBy files store entries lists → ChangesCounts e → MapInRange e
        → MapFits (map_meaning store entries) e → ((guid : List ℕ) → refs_of lists guid ≤ count_of (map_meaning store (entries ++ e ∷ [])) guid)
        → IsMapAppend files store entries lists lists e }
    ensures stored { (files : Files) (store : List ℕ) (entries : List MapEntry) (lists : Lists) (origin count : ℕ) (uid : MapUid) (file : FileNo) (offset size : ℕ) (guid : Guid) (instances : List InstRow)
        → SafeBy files store entries lists → MapInRange (S origin count uid file offset size guid instances)
        → MapFits (map_meaning store entries) (S origin count uid file offset size guid instances)
        → LiesInFile files (stored_row origin count uid file offset size guid instances) → All (IsThereWhole files) instances
        → StoredOnce files (map_meaning store (entries ++ S origin count uid file offset size guid instances ∷ []))
        → KeepsDetached files (map_meaning store (entries ++ S origin count uid file offset size guid instances ∷ []))
        → ((other : List ℕ) → refs_of lists other ≤ count_of (map_meaning store (entries ++ S origin count uid file offset size guid instances ∷ [])) other)
        → IsMapAppend files store entries lists lists (S origin count uid file offset size guid instances) }
    ensures made { (files : Files) (store : List ℕ) (entries : List MapEntry) (lists : Lists) (mailbox : BoxNo) (generation : ℕ) (name : List ℕ) → SafeBy files store entries lists
        → MapInRange (B mailbox generation name) → MapFits (map_meaning store entries) (B mailbox generation name)
        → HasBox files store (record { number = mailbox.0; generation = generation; name = name }) []
        → IsMapAppend files store entries lists (lists ++ empty_mailbox mailbox.0 name ∷ []) (B mailbox generation name) }
    ensures deleted { (files : Files) (store : List ℕ) (entries : List MapEntry) (lists : Lists) (mailbox : BoxNo) (amounts : List MapCount) → SafeBy files store entries lists
        → MapInRange (X mailbox amounts) → MapFits (map_meaning store entries) (X mailbox amounts)
        → ((guid : List ℕ) → refs_of (lists_changed (X mailbox amounts) lists) guid ≤ count_of (map_meaning store (entries ++ X mailbox amounts ∷ [])) guid)
        → IsMapAppend files store entries lists (lists_changed (X mailbox amounts) lists) (X mailbox amounts) }
    ensures renamed { (files : Files) (store : List ℕ) (entries : List MapEntry) (lists : Lists) (mailbox : BoxNo) (name : List ℕ) → SafeBy files store entries lists
        → MapInRange (V mailbox name) → MapFits (map_meaning store entries) (V mailbox name) → IsMapAppend files store entries lists (lists_changed (V mailbox name) lists) (V mailbox name) }
{}

/// Whatever a crash leaves of a settled disk agrees by the new meaning too, where what the entry adds is synced. An entry that
/// changes counts at most adds nothing.
pub fn what_entries_add_is_synced()
    ensures agrees { (disk : DiskState) (lists : Lists) (e : MapEntry) → (s : IsSettled disk lists) → OnlyAdds e → AddsSynced disk e
        → LeavesAlike s.safe.stands.map_log.generation (map_meaning s.store (s.entries ++ e ∷ [])) disk }
    ensures counts { (disk : DiskState) (e : MapEntry) → ChangesCounts e → AddsSynced disk e }
    ensures deleted { (disk : DiskState) (lists : Lists) (mailbox : BoxNo) (amounts : List MapCount) → (s : IsSettled disk lists) → LeavesAlike s.safe.stands.map_log.generation (map_meaning s.store (s.entries ++ X mailbox amounts ∷ [])) disk }
    ensures renamed { (disk : DiskState) (lists : Lists) (mailbox : BoxNo) (name : List ℕ) → (s : IsSettled disk lists) → LeavesAlike s.safe.stands.map_log.generation (map_meaning s.store (s.entries ++ V mailbox name ∷ [])) disk }
{}

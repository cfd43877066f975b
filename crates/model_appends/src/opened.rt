// What opens with an entry more in one log.
ghost use Rattle.std.specs.Prelude.{◌≡◌, ◌++◌, ◌∷◌, [], ℕ, List, All, Contains, map};
ghost use Rattle.disk_model.specs.Disk.{Files};
ghost use Rattle.disk_model.specs.declared.name.FileName.TheVariants.{Map, Box};
ghost use Rattle.mdbox_base.specs.declared.entries.BoxEntry.{BoxEntry};
ghost use Rattle.mdbox_base.specs.declared.entries.MapEntry.{MapEntry};
ghost use Rattle.model_logs.specs.Entries.{box_text, map_text, BoxInRange, MapInRange};
ghost use Rattle.model_meaning.specs.BoxMeaning.{row_made, box_meaning};
ghost use Rattle.model_meaning.specs.MapFits.{MapFits};
ghost use Rattle.model_meaning.specs.MapMeaning.{MapBox, map_meaning, record_made, box_made};
ghost use Rattle.model_store.specs.GoodLogs.{AreGoodLogs};
ghost use Rattle.model_store.specs.Opening.{HasItsRecord, IsCounted, Opens};
ghost use Rattle.model_store.specs.Safe.{LiesInFile, IsThereWhole};
ghost use Rattle.model_store.specs.Stands.{HasBox};
ghost use Rattle.model_appends.specs.Appending.{HasOneMore, SameBut, logs_by, meanings_by, FitsIn};
ghost use Rattle.model_appends.specs.MapAppending.{OnlyAdds, ChangesMailbox, beside_changed, logs_made};

/// Good logs are good with one entry more that fits, where the counts are enough, and mean what the indexes make of it.
pub fn appends_keep_logs_good()
    ensures box_entry { (store : List ℕ) (entries : List MapEntry) (logs : List (List BoxEntry)) (number : ℕ) (e : BoxEntry) → AreGoodLogs store entries logs → BoxInRange e
        → FitsIn number e (map_meaning store entries).boxes logs → All (HasItsRecord (map_meaning store entries)) (row_made e)
        → All (IsCounted (logs_by number e (map_meaning store entries).boxes logs)) (map_meaning store entries).records
        → AreGoodLogs store entries (logs_by number e (map_meaning store entries).boxes logs) }
    ensures map_entry { (store : List ℕ) (entries : List MapEntry) (logs : List (List BoxEntry)) (e : MapEntry) → AreGoodLogs store entries logs → OnlyAdds e → MapInRange e
        → MapFits (map_meaning store entries) e → All (IsCounted (logs_made e logs)) (map_meaning store (entries ++ e ∷ [])).records
        → AreGoodLogs store (entries ++ e ∷ []) (logs_made e logs) }
    ensures changed { (store : List ℕ) (entries : List MapEntry) (logs : List (List BoxEntry)) (e : MapEntry) → AreGoodLogs store entries logs → ChangesMailbox e → MapInRange e
        → MapFits (map_meaning store entries) e → All (IsCounted (beside_changed e (map_meaning store entries).boxes logs)) (map_meaning store (entries ++ e ∷ [])).records
        → AreGoodLogs store (entries ++ e ∷ []) (beside_changed e (map_meaning store entries).boxes logs) }
    ensures means { (number : ℕ) (e : BoxEntry) (boxes : List MapBox) (logs : List (List BoxEntry)) → map box_meaning (logs_by number e boxes logs) ≡ meanings_by number e boxes (map box_meaning logs) }
{}

/// Files that open, with one entry more in one log and all else the same, open: the entry fits, what it adds is there, and
/// the counts are enough.
pub fn appends_open()
    ensures box_entry { (a b : Files) (store : List ℕ) (entries : List MapEntry) (logs : List (List BoxEntry)) (mailbox : MapBox) (e : BoxEntry) → Opens a store entries logs
        → Contains (map_meaning store entries).boxes mailbox → BoxInRange e → FitsIn mailbox.number e (map_meaning store entries).boxes logs
        → All (HasItsRecord (map_meaning store entries)) (row_made e)
        → All (IsCounted (logs_by mailbox.number e (map_meaning store entries).boxes logs)) (map_meaning store entries).records
        → SameBut (Box mailbox.number mailbox.generation) a b
        → HasOneMore (box_text e) (a (Box mailbox.number mailbox.generation)) (b (Box mailbox.number mailbox.generation))
        → Opens b store entries (logs_by mailbox.number e (map_meaning store entries).boxes logs) }
    ensures map_entry { (a b : Files) (store : List ℕ) (entries : List MapEntry) (logs : List (List BoxEntry)) (e : MapEntry) → (o : Opens a store entries logs) → OnlyAdds e → MapInRange e
        → MapFits (map_meaning store entries) e → All (LiesInFile a) (record_made e) → All (λ row. All (IsThereWhole a) row.instances) (record_made e)
        → All (λ mailbox. HasBox a store mailbox []) (box_made e) → All (IsCounted (logs_made e logs)) (map_meaning store (entries ++ e ∷ [])).records
        → SameBut (Map o.passed.map_log.generation) a b
        → HasOneMore (map_text e) (a (Map o.passed.map_log.generation)) (b (Map o.passed.map_log.generation))
        → Opens b store (entries ++ e ∷ []) (logs_made e logs) }
    ensures changed { (a b : Files) (store : List ℕ) (entries : List MapEntry) (logs : List (List BoxEntry)) (e : MapEntry) → (o : Opens a store entries logs) → ChangesMailbox e → MapInRange e
        → MapFits (map_meaning store entries) e → All (IsCounted (beside_changed e (map_meaning store entries).boxes logs)) (map_meaning store (entries ++ e ∷ [])).records
        → SameBut (Map o.passed.map_log.generation) a b → HasOneMore (map_text e) (a (Map o.passed.map_log.generation)) (b (Map o.passed.map_log.generation))
        → Opens b store (entries ++ e ∷ []) (beside_changed e (map_meaning store entries).boxes logs) }
{}

// Counts of records, and the references that they must cover.
ghost use Rattle.std.specs.Prelude.{◌==◌, ◌≡◌, ◌≤◌, ◌+◌, ◌++◌, ◌∷◌, [], ℕ, List, Some, None, All, Contains, find, map};
ghost use Rattle.std.specs.List.{AllByRecursion};
ghost use Rattle.std.specs.Str.{bytes_eq};
ghost use Rattle.disk_model.specs.Disk.{Files};
ghost use Rattle.mdbox_base.specs.declared.ids.Guid.{Guid};
ghost use Rattle.mdbox_base.specs.declared.ids.MapUid.{MapUid};
ghost use Rattle.mdbox_base.specs.declared.ids.Uid.{Uid};
ghost use Rattle.mdbox_base.specs.declared.entries.BoxEntry.{BoxEntry};
ghost use Rattle.mdbox_base.specs.declared.entries.BoxEntry.TheVariants.{A, F, K, N, R};
ghost use Rattle.mdbox_base.specs.declared.entries.MapEntry.{MapEntry};
ghost use Rattle.model_lists.specs.Lists.{Lists, refs_of};
ghost use Rattle.model_meaning.specs.BoxMeaning.{BoxMeaning, row_made, box_meaning, BoxFits};
ghost use Rattle.model_meaning.specs.MapFits.{MapFits};
ghost use Rattle.model_meaning.specs.MapMeaning.{MapBox, MapRecord, map_meaning, count_given, count_of};
ghost use Rattle.model_store.specs.GoodLogs.{AreGoodLogs};
ghost use Rattle.model_store.specs.Listing.{meaning_numbered};
ghost use Rattle.model_store.specs.Opening.{AreBoxEntries, HasItsRecord, IsCounted, listed_of, Opens};
ghost use Rattle.model_store.specs.Stands.{StandsBy};
ghost use Rattle.model_appends.specs.Amounts.{IsAccounted, bit, due_by_box, HoldsAdded, due_by, leak_by, MayChange};
ghost use Rattle.model_appends.specs.Appending.{lists_by, logs_by, FitsIn};
ghost use Rattle.mdbox_base.specs.declared.entries.MapCount.{MapCount};
ghost use Rattle.mdbox_base.specs.declared.entries.MapEntry.TheVariants.{T, V, X};
ghost use Rattle.mdbox_base.specs.declared.ids.BoxNo.{BoxNo};
ghost use Rattle.model_appends.specs.MapAppending.{OnlyAdds, ChangesMailbox, NamesListed, beside_changed, beside_without, lists_changed, lists_made, logs_made};

/// Each count stays made up of listed messages, what is due, and the leak, with what an entry makes due and what it lets
/// leak. So it is at least what is listed.
pub fn entries_are_accounted()
    ensures box_entry { (number : ℕ) (e : BoxEntry) (boxes : List MapBox) (logs : List (List BoxEntry)) (m : BoxMeaning) (due leak : ℕ → ℕ) (rows : List MapRecord) → AllByRecursion AreBoxEntries logs
        → meaning_numbered number boxes (map box_meaning logs) ≡ Some m → BoxFits m e → HoldsAdded e due
        → All (IsAccounted due leak logs) rows → All (IsAccounted (due_by_box m e due) leak (logs_by number e boxes logs)) rows }
    ensures map_entry { (store : List ℕ) (entries : List MapEntry) (e : MapEntry) (logs : List (List BoxEntry)) (due leak : ℕ → ℕ) → AreGoodLogs store entries logs → OnlyAdds e
        → MapFits (map_meaning store entries) e → MayChange e due leak logs → All (IsAccounted due leak logs) (map_meaning store entries).records
        → All (IsAccounted (due_by e due) (leak_by e leak) (logs_made e logs)) (map_meaning store (entries ++ e ∷ [])).records }
    ensures deleted { (store : List ℕ) (entries : List MapEntry) (logs : List (List BoxEntry)) (mailbox : BoxNo) (amounts : List MapCount) (due leak : ℕ → ℕ) → AreGoodLogs store entries logs
        → NamesListed (X mailbox amounts) (map_meaning store entries).boxes (map box_meaning logs) → All (IsAccounted due leak logs) (map_meaning store entries).records
        → All (IsAccounted due leak (beside_without mailbox.0 (map_meaning store entries).boxes logs)) (map_meaning store (entries ++ X mailbox amounts ∷ [])).records }
    ensures held { (store : List ℕ) (entries : List MapEntry) (counts : List MapCount) (logs : List (List BoxEntry)) (due now leak : ℕ → ℕ)
        → ((uid : ℕ) (c : MapCount) → find (λ c. c.uid.0 == uid) counts ≡ Some c → c.count ≡ listed_of logs uid + now uid) → ((uid : ℕ) → find (λ (c : MapCount). c.uid.0 == uid) counts ≡ None → now uid ≡ due uid)
        → All (IsAccounted due leak logs) (map_meaning store entries).records → All (IsAccounted now (leak_by (T counts) leak) logs) (map_meaning store (entries ++ T counts ∷ [])).records }
    ensures switched { (due now leak : ℕ → ℕ) (logs later : List (List BoxEntry)) (rows : List MapRecord) → ((uid : ℕ) → listed_of later uid + now uid ≡ listed_of logs uid + due uid)
        → All (IsAccounted due leak logs) rows → All (IsAccounted now leak later) rows }
    ensures counted { (due leak : ℕ → ℕ) (logs : List (List BoxEntry)) (rows : List MapRecord) → All (IsAccounted due leak logs) rows → All (IsCounted logs) rows }
{}

/// How many listed messages have a GUID, with an entry more: as many behind a Next, a Flagged and a Worded, no more behind a
/// Removed, at most one more of its own GUID behind an Added, as many where a mailbox is made or renamed, and fewer by its
/// amounts where one is deleted.
pub fn entries_change_references()
    ensures next { (number : ℕ) (octets : List ℕ) (next : ℕ) (lists : Lists) (guid : List ℕ) → refs_of (lists_by number octets (N next) lists) guid ≡ refs_of lists guid }
    ensures flagged { (number : ℕ) (octets : List ℕ) (uid : Uid) (flags : ℕ) (lists : Lists) (guid : List ℕ) → refs_of (lists_by number octets (F uid flags) lists) guid ≡ refs_of lists guid }
    ensures worded { (number : ℕ) (octets : List ℕ) (uid : Uid) (words : List (List ℕ)) (lists : Lists) (guid : List ℕ) → refs_of (lists_by number octets (K uid words) lists) guid ≡ refs_of lists guid }
    ensures removed { (number : ℕ) (octets : List ℕ) (uid : Uid) (lists : Lists) (guid : List ℕ) → refs_of (lists_by number octets (R uid) lists) guid ≤ refs_of lists guid }
    ensures added { (number : ℕ) (octets : List ℕ) (uid : Uid) (flags time size : ℕ) (map_uid : MapUid) (own : Guid) (words : List (List ℕ)) (lists : Lists) (guid : List ℕ)
        → refs_of (lists_by number octets (A uid flags time size map_uid own words) lists) guid ≤ refs_of lists guid + bit (bytes_eq own.0 guid) }
    ensures made { (e : MapEntry) (lists : Lists) (guid : List ℕ) → refs_of (lists_made e lists) guid ≡ refs_of lists guid }
    ensures deleted { (files : Files) (store : List ℕ) (entries : List MapEntry) (logs : List (List BoxEntry)) (lists : Lists) (mailbox : BoxNo) (amounts : List MapCount) (row : MapRecord) → Opens files store entries logs
        → StandsBy files store entries lists → AreGoodLogs store entries logs → NamesListed (X mailbox amounts) (map_meaning store entries).boxes (map box_meaning logs) → Contains (map_meaning store entries).records row
        → refs_of (lists_changed (X mailbox amounts) lists) row.guid + count_given row.uid amounts 0 ≡ refs_of lists row.guid }
    ensures renamed { (mailbox : BoxNo) (name : List ℕ) (lists : Lists) (guid : List ℕ) → refs_of (lists_changed (V mailbox name) lists) guid ≡ refs_of lists guid }
{}

/// Counts that are at least what the logs list with an entry more are at least the references of the lists that it gives.
pub fn counts_are_enough()
    ensures box_entry { (files : Files) (store : List ℕ) (entries : List MapEntry) (logs : List (List BoxEntry)) (lists : Lists) (number : ℕ) (octets : List ℕ) (e : BoxEntry) → Opens files store entries logs
        → StandsBy files store entries lists → FitsIn number e (map_meaning store entries).boxes logs → All (HasItsRecord (map_meaning store entries)) (row_made e)
        → All (IsCounted (logs_by number e (map_meaning store entries).boxes logs)) (map_meaning store entries).records
        → (guid : List ℕ) → refs_of (lists_by number octets e lists) guid ≤ count_of (map_meaning store entries) guid }
    ensures map_entry { (files : Files) (store : List ℕ) (entries : List MapEntry) (logs : List (List BoxEntry)) (lists : Lists) (e : MapEntry) → Opens files store entries logs
        → StandsBy files store entries lists → OnlyAdds e → AreGoodLogs store (entries ++ e ∷ []) (logs_made e logs)
        → (guid : List ℕ) → refs_of (lists_made e lists) guid ≤ count_of (map_meaning store (entries ++ e ∷ [])) guid }
    ensures changed { (files : Files) (store : List ℕ) (entries : List MapEntry) (logs : List (List BoxEntry)) (lists : Lists) (e : MapEntry) → Opens files store entries logs
        → StandsBy files store entries lists → ChangesMailbox e → AreGoodLogs store (entries ++ e ∷ []) (beside_changed e (map_meaning store entries).boxes logs)
        → (guid : List ℕ) → refs_of (lists_changed e lists) guid ≤ count_of (map_meaning store (entries ++ e ∷ [])) guid }
{}

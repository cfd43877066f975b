// Claims of tasks beside each other.
ghost use Rattle.std.specs.Prelude.{◌≡◌, ◌≢◌, ◌≤◌, ◌<◌, ◌+◌, ◌++◌, ◌⊎◌, ◌||◌, ◌==◌, ℕ, true, List, [], length, slice_index_or, slice_set, Option, Some};
ghost use Rattle.disk_model.specs.Disk.{History, IsIdle};
ghost use Rattle.mdbox_base.specs.declared.entries.InstRow.{InstRow};
ghost use Rattle.mdbox_base.specs.declared.entries.MapCount.{MapCount};
ghost use Rattle.mdbox_base.specs.declared.entries.MapEntry.TheVariants as map_entry;
ghost use Rattle.mdbox_base.specs.declared.ids.BoxNo.{BoxNo};
ghost use Rattle.mdbox_base.specs.declared.ids.InstId.{InstId};
ghost use Rattle.mdbox_base.specs.declared.ids.MapUid.{MapUid};
ghost use Rattle.model_meaning.specs.MapFits.{MapFits};
ghost use Rattle.model_meaning.specs.MapMeaning.{MapBox, MapMeaning, MapRecord, map_applied, record_at};
ghost use Rattle.sis_store.specs.Instances.{holders_in};
ghost use Rattle.storage_files.specs.Files.{is_emptied_in, is_taken_in, pins_in};
ghost use Rattle.store_core.specs.Dues.{IsSpared, due_at};
ghost use Rattle.store_core.specs.Keeping.{KeepsRest, KeepsUids};
ghost use Rattle.store_core.specs.MadeLogs.{KeepsGone, has_made_log, without_box};
ghost use Rattle.store_core.specs.StoreInstances.{IsKnownRow};
ghost use Rattle.store_core.specs.Value.{StoreValue};
ghost use Rattle.task_claims.specs.Claims.{AddsUp, AreIn, Claims, ClaimsNothing, Due, Emptied, HasNoTask, Held, Made, MovesClaims, Pinned, Removing, Taken, both_claims, claims_of_dues, is_to_remove, no_claims};
ghost use Rattle.task_claims.specs.Leaving.{NamesStay, LeavesFile, LeavesInstance, OnlyGrows, LeavesRecord, LeavesOthers, LeavesUnlisted, RaisesNone, SameButCounts, SyncsMail};
ghost use Rattle.task_claims.specs.Stable.{Beside};

/// What two tasks claim stays among what all claim, as one of them goes on.
pub fn claims_stay<D>()
    ensures others { (mine mine_now theirs : Claims) (old new : StoreValue D) → MovesClaims mine mine_now old new → AreIn old (both_claims mine theirs) → AreIn new (both_claims mine_now theirs) }
{}

/// Claims of a row of tasks that add up: they do at the opening, where no task has begun; behind an event of one; and without one that
/// claims nothing. What any two claim is among what all claim.
pub fn claims_add_up<D>()
    ensures opened { (store : StoreValue D) → HasNoTask store → AddsUp store [] }
    ensures on { (lanes : List Claims) (i : ℕ) (d mine_now : Claims) (old new : StoreValue D) → i < length lanes → MovesClaims (slice_index_or lanes i d) mine_now old new → AddsUp old lanes → AddsUp new (slice_set lanes i mine_now) }
    ensures ended { (lanes : List Claims) (i : ℕ) (d : Claims) (store : StoreValue D) → i < length lanes → ClaimsNothing (slice_index_or lanes i d) → AddsUp store lanes → AddsUp store (slice_set lanes i no_claims) }
    ensures two { (lanes : List Claims) (i j : ℕ) (d : Claims) (store : StoreValue D) → i < length lanes → j < length lanes → i ≢ j → AddsUp store lanes → AreIn store (both_claims (slice_index_or lanes i d) (slice_index_or lanes j d)) }
{}

/// Of each thing that a task claims, what is left to it beside an event of another task.
pub fn claimed_things_stay<D>()
    ensures dues { (theirs : Claims) (old new : StoreValue D) (before after : Option History) (uid : ℕ) → Beside theirs old new before after → theirs (Due uid) ≤ due_at uid new }
    ensures records { (theirs : Claims) (old new : StoreValue D) (before after : Option History) (uid : ℕ) (row : MapRecord) → Beside theirs old new before after → 1 ≤ theirs (Due uid) → record_at old.map uid ≡ Some row → LeavesRecord uid row new before after }
    ensures taken { (theirs : Claims) (old new : StoreValue D) (before after : Option History) (number : ℕ) → Beside theirs old new before after → 1 ≤ theirs (Taken number) → LeavesFile number old new before after × (is_taken_in number new.files.files ≡ true) }
    ensures emptied { (theirs : Claims) (old new : StoreValue D) (before after : Option History) (number : ℕ) → Beside theirs old new before after → 1 ≤ theirs (Emptied number) → LeavesFile number old new before after × (is_emptied_in number new.files.files ≡ true) }
    ensures removing { (theirs : Claims) (old new : StoreValue D) (before after : Option History) (number : ℕ) → Beside theirs old new before after → 1 ≤ theirs (Removing number) → LeavesFile number old new before after × (is_to_remove number new ≡ true) }
    ensures pinned { (theirs : Claims) (old new : StoreValue D) (before after : Option History) (number : ℕ) → Beside theirs old new before after → 1 ≤ theirs (Pinned number) → OnlyGrows number old new before after × (theirs (Pinned number) ≤ pins_in number new.files.files) }
    ensures instances { (theirs : Claims) (old new : StoreValue D) (before after : Option History) (row : InstRow) → Beside theirs old new before after → 1 ≤ theirs (Held row.id) → IsKnownRow old.instances.known row → LeavesInstance row old new before after }
    ensures held { (theirs : Claims) (old new : StoreValue D) (before after : Option History) (id : InstId) → Beside theirs old new before after → theirs (Held id) ≤ holders_in id new.instances.known }
    ensures logs { (theirs : Claims) (old new : StoreValue D) (before after : Option History) (number : ℕ) → Beside theirs old new before after → 1 ≤ theirs (Made number) → has_made_log number new ≡ true }
{}

/// A record that is kept stores the text that it stored.
pub fn kept_records_are_spared<D>()
    ensures spared { (uid : ℕ) (row : MapRecord) (new : StoreValue D) (before after : Option History) → LeavesRecord uid row new before after → IsSpared uid row new before after }
{}

/// Entries of the map log that raise or lower a count, delete a mailbox or give it another name leave all records, but for the
/// counts. One that fits raises no count of 0.
pub fn counts_leave_records()
    ensures raised { (uid : MapUid) (m : MapMeaning) → SameButCounts m (map_applied (map_entry.U uid) m) }
    ensures lowered { (uids : List MapUid) (m : MapMeaning) → SameButCounts m (map_applied (map_entry.D uids) m) }
    ensures unraised { (uid : MapUid) (m : MapMeaning) → MapFits m (map_entry.U uid) → RaisesNone m (map_applied (map_entry.U uid) m) }
    ensures never { (uids : List MapUid) (m : MapMeaning) → RaisesNone m (map_applied (map_entry.D uids) m) }
    ensures deleted { (mailbox : BoxNo) (amounts : List MapCount) (m : MapMeaning) → SameButCounts m (map_applied (map_entry.X mailbox amounts) m) × RaisesNone m (map_applied (map_entry.X mailbox amounts) m) }
    ensures renamed { (mailbox : BoxNo) (name : List ℕ) (m : MapMeaning) → SameButCounts m (map_applied (map_entry.V mailbox name) m) × RaisesNone m (map_applied (map_entry.V mailbox name) m) }
{}

/// Each name names the mailbox that it named, where the mailboxes of the map stay, and further ones are made behind them.
pub fn mailboxes_keep_names()
    ensures stay { (m n : MapMeaning) → n.boxes ≡ m.boxes → NamesStay m n }
    ensures made { (m n : MapMeaning) (made : List MapBox) → n.boxes ≡ m.boxes ++ made → NamesStay m n }
{}

/// The numbers of deleted mailboxes stay such where the mailboxes of the map and the logs that were made stay; where a log of a number
/// above all of them is made, is named in the map, or is removed; and so with one event behind another.
pub fn gone_numbers_stay<D>()
    ensures stay { (old new : StoreValue D) → new.map.boxes ≡ old.map.boxes → new.made ≡ old.made → old.map.highest.mailbox ≤ new.map.highest.mailbox → KeepsGone old new }
    ensures made { (number : ℕ) (old new : StoreValue D) → new.map ≡ old.map → old.map.highest.mailbox < number → ((other : ℕ) → has_made_log other new ≡ (has_made_log other old || number == other)) → KeepsGone old new }
    ensures named { (mailbox : BoxNo) (name : List ℕ) (old new : StoreValue D) → old.map.highest.mailbox < mailbox.0 → new.map ≡ map_applied (map_entry.B mailbox 1 name) old.map → new.made ≡ without_box mailbox.0 old.made → KeepsGone old new }
    ensures removed { (number : ℕ) (old new : StoreValue D) → new.map ≡ old.map → new.made ≡ without_box number old.made → KeepsGone old new }
    ensures both { (old now new : StoreValue D) → KeepsGone old now → KeepsGone now new → KeepsGone old new }
{}

/// An event that leaves the storage files and the instances as they were but for synced names, and of each record all but its count,
/// leaves to the other tasks what is theirs, if it raises no count of 0, leaves unlisted records so, each name to its mailbox or a map log
/// that has grown, and the map log no shorter and with no less room. One that changes nothing does. Where no more of the value changes
/// than what logs mean and what is due, the claims are those of dues.
pub fn log_events_leave_others<D>()
    ensures logs { (mine : Claims) (old new : StoreValue D) (before after : Option History) → new.files ≡ old.files → new.instances ≡ old.instances → SyncsMail before after → SameButCounts old.map new.map → RaisesNone old.map new.map → old.map.highest.mailbox ≤ new.map.highest.mailbox → old.map_log.end ≤ new.map_log.end
        → (NamesStay old.map new.map ⊎ (old.map_log.end < new.map_log.end)) → KeepsGone old new → KeepsUids old new → old.map_log.room ≤ new.map_log.room → LeavesUnlisted mine old new → LeavesOthers mine old new before after }
    ensures dues { (mine mine_now : ℕ → ℕ) (old new : StoreValue D) → ((uid : ℕ) → due_at uid new + mine uid ≡ due_at uid old + mine_now uid) → KeepsRest old new → MovesClaims (claims_of_dues mine) (claims_of_dues mine_now) old new }
    ensures idle { (mine : Claims) (store : StoreValue D) (before after : Option History) → IsIdle before after → LeavesOthers mine store store before after }
{}

// Logs that are not in force.
ghost use Rattle.std.specs.Prelude.{◌≡◌, ◌≢◌, ◌++◌, ◌∷◌, [], ℕ, List, Some, All};
ghost use Rattle.disk_model.specs.Disk.{Files, DiskState, IsImage};
ghost use Rattle.disk_model.specs.declared.name.FileName.{FileName};
ghost use Rattle.disk_model.specs.declared.name.FileName.TheVariants.{Map, Box};
ghost use Rattle.mdbox_base.specs.declared.entries.BoxEntry.{BoxEntry};
ghost use Rattle.mdbox_base.specs.declared.entries.MapEntry.{MapEntry};
ghost use Rattle.mdbox_base.specs.declared.entries.MapEntry.TheVariants.{G};
ghost use Rattle.mdbox_base.specs.declared.ids.BoxNo.{BoxNo};
ghost use Rattle.model_lists.specs.Lists.{Lists};
ghost use Rattle.model_meaning.specs.MapFits.{MapFits};
ghost use Rattle.model_meaning.specs.MapMeaning.{MapBox, MapMeaning, map_meaning, box_at};
ghost use Rattle.model_store.specs.Opening.{AreMapEntries, Opens};
ghost use Rattle.model_store.specs.Safe.{Safe};
ghost use Rattle.model_store.specs.Settled.{files_of, IsSettled};
ghost use Rattle.model_appends.specs.Appending.{LeftBut, SameBut};
ghost use Rattle.model_rewritten.specs.Unneeded.{IsUnneeded, IsBeside};

/// Where the store doesn't need a log, whatever stands there is of no account: for what a crash leaves, for a disk afterwards,
/// and for opening.
pub fn unneeded_files_are_free()
    ensures image { (disk : DiskState) (lists : Lists) (name : FileName) (image : Files) → (s : IsSettled disk lists) → IsImage disk (files_of disk)
        → IsUnneeded s.safe.stands.map_log.generation (map_meaning s.store s.entries) name → LeftBut name disk image → Safe image lists }
    ensures settled { (a b : DiskState) (lists : Lists) (name : FileName) → (s : IsSettled a lists) → IsImage a (files_of a)
        → IsUnneeded s.safe.stands.map_log.generation (map_meaning s.store s.entries) name → IsBeside name a b → IsSettled b lists }
    ensures opens { (a b : Files) (store : List ℕ) (entries : List MapEntry) (logs : List (List BoxEntry)) (name : FileName) → (o : Opens a store entries logs)
        → IsUnneeded o.passed.map_log.generation (map_meaning store entries) name → SameBut name a b → Opens b store entries logs }
{}

/// A log of a mailbox isn't needed where no mailbox of the map has it, nor another map log than the one that the root log names.
/// So the log of a new generation isn't needed before its entry, nor the one that it replaces afterwards.
pub fn other_generations_are_unneeded()
    ensures mailbox { (present : ℕ) (m : MapMeaning) (number generation : ℕ) → All (λ box. box.number ≡ number → box.generation ≢ generation) m.boxes → IsUnneeded present m (Box number generation) }
    ensures map_log { (present generation : ℕ) (m : MapMeaning) → generation ≢ present → IsUnneeded present m (Map generation) }
    ensures before { (present : ℕ) (store : List ℕ) (entries : List MapEntry) (mailbox : BoxNo) (generation : ℕ) → AreMapEntries store entries → MapFits (map_meaning store entries) (G mailbox generation)
        → IsUnneeded present (map_meaning store entries) (Box mailbox.0 generation) }
    ensures after { (present : ℕ) (store : List ℕ) (entries : List MapEntry) (mailbox : BoxNo) (generation : ℕ) (box : MapBox) → MapFits (map_meaning store entries) (G mailbox generation)
        → box_at (map_meaning store entries) mailbox.0 ≡ Some box → IsUnneeded present (map_meaning store (entries ++ G mailbox generation ∷ [])) (Box mailbox.0 box.generation) }
{}

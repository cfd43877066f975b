// Laws of the meaning of logs.
ghost use Rattle.std.specs.Prelude.{◌≡◌, ◌<◌, AllPairs, ◌++◌, ◌∷◌, [], ℕ, List, flat_map};
ghost use Rattle.std.specs.List.{AllByRecursion, list_any};
ghost use Rattle.mdbox_base.specs.declared.entries.BoxEntry.{BoxEntry};
ghost use Rattle.mdbox_base.specs.declared.entries.MapEntry.{MapEntry};
ghost use Rattle.model_meaning.specs.Rows.{row_behind};
ghost use Rattle.model_meaning.specs.BoxMeaning.{rows_after, row_rules, box_meaning, box_applied, AllBoxFit};
ghost use Rattle.model_meaning.specs.MapMeaning.{records_after, record_rules, boxes_after, box_rules, map_meaning, map_applied, sealed_after, is_sealed, seals};
ghost use Rattle.model_meaning.specs.MapFits.{AllMapFit};
ghost use Rattle.model_logs.specs.Entries.{BoxInRange, MapInRange};
ghost use Rattle.model_meaning.specs.Sound.{IsSoundBox, IsSoundMap, HasOctets, AreInRange};

/// One entry more at the end of a log changes what it meant as `box_applied` and `map_applied` say.
pub fn one_entry_more()
    ensures mailbox { (entries : List BoxEntry) (entry : BoxEntry) → box_meaning (entries ++ entry ∷ []) ≡ box_applied entry (box_meaning entries) }
    ensures map { (store : List ℕ) (entries : List MapEntry) (entry : MapEntry) → map_meaning store (entries ++ entry ∷ []) ≡ map_applied entry (map_meaning store entries) }
{}

/// More entries at the end of a log change or remove the rows so far, and make theirs.
pub fn more_entries()
    ensures mailbox { (entries more : List BoxEntry) → rows_after (entries ++ more) ≡ flat_map (row_behind row_rules more) (rows_after entries) ++ rows_after more }
    ensures records { (entries more : List MapEntry) → records_after (entries ++ more) ≡ flat_map (row_behind record_rules more) (records_after entries) ++ records_after more }
    ensures mailboxes { (entries more : List MapEntry) → boxes_after (entries ++ more) ≡ flat_map (row_behind box_rules more) (boxes_after entries) ++ boxes_after more }
{}

/// What entries mean that fit one behind another has its numbers in order and in range; so are the highest numbers, those
/// that GUIDs and ids of instances name too, where the entries' texts are octets, as they are in every file.
pub fn meanings_are_sound()
    ensures mailbox { (entries : List BoxEntry) → AllBoxFit [] entries → AllByRecursion BoxInRange entries → IsSoundBox (box_meaning entries) }
    ensures map { (store : List ℕ) (entries : List MapEntry) → AllMapFit store [] entries → AllByRecursion MapInRange entries → IsSoundMap (map_meaning store entries) }
    ensures highest { (store : List ℕ) (entries : List MapEntry) → AllMapFit store [] entries → AllByRecursion MapInRange entries → AllByRecursion HasOctets entries → AreInRange (map_meaning store entries).highest }
{}

/// A file is sealed if and only if an `E` names it, and the sealed files stand once each, in order of number.
pub fn sealed_files()
    ensures named { (store : List ℕ) (entries : List MapEntry) (file : ℕ) → is_sealed (map_meaning store entries) file ≡ list_any (seals file) entries }
    ensures rising { (entries : List MapEntry) → AllPairs (λ a b. a < b) (sealed_after entries) }
{}

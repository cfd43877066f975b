// What logs mean that are written anew.
ghost use Rattle.std.specs.Prelude.{ℕ, List, All};
ghost use Rattle.std.specs.List.{AllByRecursion};
ghost use Rattle.mdbox_base.specs.declared.entries.MapEntry.{MapEntry};
ghost use Rattle.model_logs.specs.Entries.{MapInRange};
ghost use Rattle.model_meaning.specs.BoxMeaning.{BoxMeaning};
ghost use Rattle.model_meaning.specs.MapMeaning.{MapMeaning, map_meaning};
ghost use Rattle.model_meaning.specs.Sound.{IsSoundBox, IsSoundMap, AreInRange};
ghost use Rattle.model_rewritten.specs.Rewriting.{box_snapshot, map_snapshot, NamesUpTo, HasFew, IsRewrittenBox, IsRewrittenMap};

/// A log that is written anew means what it meant, and its entries fit one behind another.
pub fn rewritten_logs_mean_the_same()
    ensures mailbox { (m : BoxMeaning) → IsSoundBox m → IsRewrittenBox m (box_snapshot m) }
    ensures map { (m : MapMeaning) → IsSoundMap m → AreInRange m.highest → NamesUpTo m → All HasFew m.records → IsRewrittenMap m (map_snapshot m) }
{}

/// What entries name is up to the highest numbers: file numbers of GUIDs, running numbers of instances, sealed files. And a
/// record has as many instances as an entry can name.
pub fn highest_numbers_are_named()
    ensures up_to { (store : List ℕ) (entries : List MapEntry) → NamesUpTo (map_meaning store entries) }
    ensures few { (store : List ℕ) (entries : List MapEntry) → AllByRecursion MapInRange entries → All HasFew (map_meaning store entries).records }
{}

// Laws of files that carry over what a store reads.
ghost use Rattle.std.specs.Prelude.{ℕ, List};
ghost use Rattle.disk_model.specs.Disk.{Files};
ghost use Rattle.disk_model.specs.declared.name.FileName.{FileName};
ghost use Rattle.mdbox_base.specs.declared.entries.MapEntry.{MapEntry};
ghost use Rattle.model_lists.specs.Lists.{Lists};
ghost use Rattle.model_meaning.specs.MapMeaning.{MapMeaning, map_meaning};
ghost use Rattle.model_store.specs.Stands.{StandsBy};
ghost use Rattle.model_store.specs.Safe.{SafeBy};
ghost use Rattle.model_store.specs.Carrying.{CarryOver, CarriesOver};

/// Files that carry over what a store reads stand for the same lists, and are safe for the same.
pub fn carried_files()
    ensures stand { (a b : Files) (store : List ℕ) (entries : List MapEntry) (lists : Lists) → (s : StandsBy a store entries lists) → CarryOver s.map_log.generation (map_meaning store entries) a b → StandsBy b store entries lists }
    ensures safe { (a b : Files) (store : List ℕ) (entries : List MapEntry) (lists : Lists) → (s : SafeBy a store entries lists) → CarryOver s.stands.map_log.generation (map_meaning store entries) a b → SafeBy b store entries lists }
    ensures each_name { (generation : ℕ) (m : MapMeaning) (a b : Files) → ((name : FileName) → CarriesOver generation m a name (b name)) → CarryOver generation m a b }
{}

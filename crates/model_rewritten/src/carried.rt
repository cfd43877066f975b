// Stores whose logs were written anew.
ghost use Rattle.std.specs.Prelude.{ℕ, List};
ghost use Rattle.disk_model.specs.Disk.{Files};
ghost use Rattle.mdbox_base.specs.declared.entries.BoxEntry.{BoxEntry};
ghost use Rattle.mdbox_base.specs.declared.entries.MapEntry.{MapEntry};
ghost use Rattle.model_lists.specs.Lists.{Lists};
ghost use Rattle.model_store.specs.Opening.{Opens};
ghost use Rattle.model_store.specs.Safe.{SafeBy};
ghost use Rattle.model_rewritten.specs.CarriedStore.{CarriesStore};

/// Files that open again, with logs that mean the same and with the same mail, are safe for the same lists. Files that open carry
/// their own store, and what carries goes on from files to files.
pub fn rewritten_stores_are_safe()
    ensures safe { (a b : Files) (store : List ℕ) (entries : List MapEntry) (logs : List (List BoxEntry)) (lists : Lists) → SafeBy a store entries lists → Opens a store entries logs
        → (c : CarriesStore store entries logs a b) → SafeBy b store c.later lists }
    ensures itself { (a : Files) (store : List ℕ) (entries : List MapEntry) (logs : List (List BoxEntry)) → Opens a store entries logs → CarriesStore store entries logs a a }
    ensures on { (a b c : Files) (store : List ℕ) (entries : List MapEntry) (logs : List (List BoxEntry)) → (s : CarriesStore store entries logs a b) → CarriesStore store s.later s.later_logs b c
        → CarriesStore store entries logs a c }
{}

// Laws of stores whose logs were written anew.
ghost use Rattle.std.specs.Prelude.{◌≡◌, ℕ, List, false};
ghost use Rattle.disk_model.specs.Disk.{Between, reading};
ghost use Rattle.disk_model.specs.Name.{IsLogName};
ghost use Rattle.disk_model.specs.declared.name.FileName.{FileName};
ghost use Rattle.mdbox_base.specs.declared.entries.BoxEntry.{BoxEntry};
ghost use Rattle.mdbox_base.specs.declared.entries.MapEntry.{MapEntry};
ghost use Rattle.model_rewritten.specs.CarriedStore.{CarriesStore};
ghost use Rattle.model_store.specs.Opening.{Opens};
ghost use Rattle.model_store.specs.Settled.{files_of};
ghost use Rattle.store_core.specs.Running.{IsStore};
ghost use Rattle.store_core.specs.Value.{StoreValue};
ghost use Rattle.box_snapshot.specs.Rewrites.{Rewrites};

use disk_model::Disk;

/// Where logs of a store were written anew that isn't stopped, whatever store the files opened with, they open again, with logs that
/// mean the same but for generations, and with the same mail. Each storage file and each instance reads as it did.
pub fn rewritten_stores_open_again<D: Disk>()
    ensures carried { (old new : StoreValue D) → Rewrites D.history old new → IsStore (D.history old.disk) old → IsStore (D.history new.disk) new → old.stopped ≡ false → new.stopped ≡ false
        → Between (λ was now. (store : List ℕ) (entries : List MapEntry) (logs : List (List BoxEntry)) → Opens (files_of was) store entries logs → CarriesStore store entries logs (files_of was) (files_of now)) (D.history old.disk) (D.history new.disk) }
    ensures mail { (old new : StoreValue D) → Rewrites D.history old new → new.stopped ≡ false → Between (λ was now. (name : FileName) → (IsLogName name → ⊥) → reading (now name) ≡ reading (was name)) (D.history old.disk) (D.history new.disk) }
{}

// Laws of what a rebuild takes.
ghost use Rattle.std.specs.Prelude.{◌≡◌, ◌≢◌, ◌≤◌, ◌<◌, ◌+◌, ℕ, List, length, All, AllPairs};
ghost use Rattle.disk_model.specs.Disk.{Files};
ghost use Rattle.model_storage.specs.declared.metadata_value.Metadata.{Metadata};
ghost use Rattle.model_storage.specs.Metadata.{IsMetadata};
ghost use Rattle.model_storage.specs.StorageFile.{IsMessage, Message};
ghost use Rattle.model_store.specs.Stands.{StoresMessage};
ghost use Rattle.model_taken.specs.Rebuild.{Rebuild, SkippedPlace};
ghost use Rattle.model_taken.specs.Taken.{TakenMessage, record_for};

/// Of a disk's files there is one list of messages that are taken, and one of places that are skipped.
pub fn one_rebuild_of_files()
    ensures { (files : Files) (ts us : List TakenMessage) (ss rs : List SkippedPlace) → Rebuild files ts ss → Rebuild files us rs → (ts ≡ us) × (ss ≡ rs) }
{}

/// Each message that is taken is what its region and its instances store; no two have one GUID, and their regions don't overlap.
pub fn taken_messages_are_stored()
    ensures stored { (files : Files) (taken : List TakenMessage) (skipped : List SkippedPlace) → Rebuild files taken skipped → All (λ t. StoresMessage files (record_for 1 t) t.octets) taken }
    ensures guids { (files : Files) (taken : List TakenMessage) (skipped : List SkippedPlace) → Rebuild files taken skipped → AllPairs (λ a b. a.guid ≢ b.guid) taken }
    ensures apart { (files : Files) (taken : List TakenMessage) (skipped : List SkippedPlace) → Rebuild files taken skipped → AllPairs (λ a b. a.file ≡ b.file → a.offset + a.size ≤ b.offset) taken }
{}

/// A message of a storage file names fewer than 26,215 instances.
pub fn references_are_few()
    ensures { (octets : List ℕ) (m : Message) (meta : Metadata) → IsMessage octets m → IsMetadata m.lines meta → length meta.refs < 26215 }
{}

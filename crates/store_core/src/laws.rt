// Laws of what a store shows, of its counts, and of its instances.
ghost use Rattle.std.specs.Prelude.{◌≡◌, ℕ, List, All, AllPairs, Contains, map, Option, Some, false};
ghost use Rattle.disk_model.specs.Disk.{Between, History, IfTold, IsIdle, IsImage, SameButFor, reading};
ghost use Rattle.disk_model.specs.declared.name.FileName.TheVariants as file;
ghost use Rattle.gate_log.specs.Log.{NamedButFor};
ghost use Rattle.mdbox_base.specs.declared.entries.BoxEntry.{BoxEntry};
ghost use Rattle.mdbox_base.specs.declared.entries.InstRow.{InstRow};
ghost use Rattle.mdbox_base.specs.declared.ids.Hash.{Hash};
ghost use Rattle.mdbox_base.specs.declared.ids.InstId.{InstId};
ghost use Rattle.model_lists.specs.Lists.{Lists, refs_of};
ghost use Rattle.model_meaning.specs.BoxMeaning.{BoxMeaning, box_meaning};
ghost use Rattle.model_meaning.specs.MapMeaning.{MapBox, MapRecord, named_instances};
ghost use Rattle.model_meaning.specs.MapFits.{AgreesOn};
ghost use Rattle.model_appends.specs.Amounts.{IsAccounted};
ghost use Rattle.model_store.specs.Listing.{HaveListings, ShowLists, refs_in};
ghost use Rattle.model_store.specs.Opening.{IsCounted};
ghost use Rattle.model_store.specs.Settled.{IsSettledFor};
ghost use Rattle.sis_store.specs.Comparing.{IsUnlikeUpTo};
ghost use Rattle.sis_store.specs.Instances.{IsIdBefore, IsInstanceKnown, candidate_in};
ghost use Rattle.sis_store.specs.OnDisk.{file_of, instance_file};
ghost use Rattle.sis_store.specs.declared.instance.KnownInstance.{KnownInstance};
ghost use Rattle.storage_files.specs.OnDisk.{OthersAreNamed};
ghost use Rattle.store_core.specs.Keeping.{KeepsFirm, KeepsInstances, KeepsMail, MovesHolds, NameTheSame, ReadsInstances, SyncsInstances};
ghost use Rattle.store_core.specs.Running.{CoverDues, IsStore};
ghost use Rattle.store_core.specs.StoreInstances.{AreInstancesFirm, HasKnownInstances, IsFirstWith, IsKnownRow};
ghost use Rattle.store_core.specs.Value.{StoreValue, none_due};

use disk_model::Disk;

/// What the logs of mailboxes show is what they mean. Where lists are shown, as many listed messages have a GUID as the
/// indexes say.
pub fn listings_are_shown()
    ensures logs { (boxes : List MapBox) (logs : List (List BoxEntry)) (lists : Lists) → HaveListings boxes logs lists → ShowLists boxes (map box_meaning logs) lists }
    ensures refs { (boxes : List MapBox) (meanings : List BoxMeaning) (lists : Lists) (guid : List ℕ) → ShowLists boxes meanings lists → refs_in meanings guid ≡ refs_of lists guid }
{}

/// Counts that are at least what is listed cover that, where nothing is due. Counts that are made up of what is listed and due
/// and a leak cover what is listed and due.
pub fn counts_cover_listings()
    ensures nothing_due { (logs : List (List BoxEntry)) (rows : List MapRecord) → All (IsCounted logs) rows → CoverDues logs rows (none_due rows) }
    ensures accounted { (due leak : ℕ → ℕ) (logs : List (List BoxEntry)) (rows : List MapRecord) → All (IsAccounted due leak logs) rows → CoverDues logs rows (map (λ row. due row.uid) rows) }
{}

/// Whatever leaves the instances, and what the disk reads of them, leaves all to a task that compares some or has found some: so does
/// one event behind another. What was found stays found.
pub fn instances_are_kept<D: Disk>()
    ensures same { (old new : StoreValue D) (before after : Option History) → new.instances ≡ old.instances → Between ReadsInstances before after → KeepsFirm old new before after → KeepsInstances old new before after }
    ensures none { (store : StoreValue D) (history : Option History) → KeepsInstances store store history history }
    ensures both { (old now new : StoreValue D) (before between after : Option History) → KeepsInstances old now before between → KeepsInstances now new between after → KeepsInstances old new before after }
    ensures found { (old new : StoreValue D) (before after : Option History) (octets : List ℕ) (row : InstRow) → KeepsInstances old new before after → IsFirstWith octets row old.instances.known before → IsFirstWith octets row new.instances.known after }
    ensures held { (mine : InstId → ℕ) (old new : StoreValue D) → new.instances ≡ old.instances → MovesHolds mine mine old new }
{}

/// A change of a storage file or of a log leaves what the disk reads of the instances.
pub fn instances_read_as_before()
    ensures idle { (before after : Option History) → IsIdle before after → Between ReadsInstances before after }
    ensures mail { (before after : Option History) → KeepsMail before after → Between ReadsInstances before after }
    ensures placed { (number : ℕ) (before after : Option History) → SameButFor (file.Mail number) before after → Between ReadsInstances before after }
    ensures made { (number : ℕ) (before after : Option History) → OthersAreNamed (file.Mail number) before after → Between ReadsInstances before after }
    ensures logs { (number generation : ℕ) (before after : Option History) → NamedButFor (file.Box number generation) before after → Between ReadsInstances before after }
{}

/// Whatever leaves the instances, of the disk all but names that are synced, and whose records name what they named, leaves it to
/// records that are made to name those that they may; so does one event behind another.
pub fn instances_stay_firm<D: Disk>()
    ensures same { (old new : StoreValue D) (before after : Option History) → new.instances ≡ old.instances → NameTheSame old.map new.map → Between SyncsInstances before after → KeepsFirm old new before after }
    ensures both { (old now new : StoreValue D) (before between after : Option History) → KeepsFirm old now before between → KeepsFirm now new between after → KeepsFirm old new before after }
{}

/// Of a settled disk a record that is made may name whichever instance is known, if records name all that are known.
pub fn named_instances_are_firm<D: Disk>()
    ensures { (store : StoreValue D) (history : Option History) (lists : Lists) → IsStore history store → HasKnownInstances history store → store.stopped ≡ false → IfTold history (λ disk. IsImage disk (λ name. reading (disk name))) → All (λ k. Contains (named_instances store.map) k.row) store.instances.known
        → IsSettledFor lists history → IfTold history (AreInstancesFirm store.instances.known store.map) }
{}

/// A change of a storage file or of a log leaves of instances all but names that are synced.
pub fn instances_are_synced()
    ensures idle { (before after : Option History) → IsIdle before after → Between SyncsInstances before after }
    ensures mail { (before after : Option History) → KeepsMail before after → Between SyncsInstances before after }
    ensures placed { (number : ℕ) (before after : Option History) → SameButFor (file.Mail number) before after → Between SyncsInstances before after }
    ensures made { (number : ℕ) (before after : Option History) → OthersAreNamed (file.Mail number) before after → Between SyncsInstances before after }
    ensures logs { (number generation : ℕ) (before after : Option History) → NamedButFor (file.Box number generation) before after → Between SyncsInstances before after }
{}

/// A candidate is a known instance with its hash and size. One that has the octets is found, if none before it has them.
pub fn candidates_are_found()
    ensures row { (hash : Hash) (size : ℕ) (after : Option InstId) (id : InstId) (known : List KnownInstance) → AllPairs (λ a b. IsIdBefore a.row.id b.row.id) known → candidate_in hash size after known ≡ Some id → IsKnownRow known (record { hash = hash; id = id; size = size }) }
    ensures known { (known : List KnownInstance) (row : InstRow) → IsKnownRow known row → IsInstanceKnown row.id known × (file_of row.id known ≡ instance_file row) }
    ensures found { (hash : Hash) (size : ℕ) (octets : List ℕ) (after : Option InstId) (id : InstId) (known : List KnownInstance) (history : Option History) → AllPairs (λ a b. IsIdBefore a.row.id b.row.id) known → IsUnlikeUpTo hash size octets after known history → candidate_in hash size after known ≡ Some id
        → IfTold history (λ now. reading (now (file_of id known)) ≡ Some octets) → IsFirstWith octets (record { hash = hash; id = id; size = size }) known history }
{}

/// Known instances of one id have one hash and one size, and so have those that records name. This is what an `S` entry asks.
pub fn known_rows_agree<D: Disk>()
    ensures { (history : Option History) (store : StoreValue D) (rows : List InstRow) → HasKnownInstances history store → All (IsKnownRow store.instances.known) rows → AllPairs AgreesOn rows × All (λ other. All (λ row. All (AgreesOn row) other.instances) rows) store.map.records }
{}

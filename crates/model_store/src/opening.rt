// Laws of opening.
ghost use Rattle.std.specs.Prelude.{◌≡◌, ℕ, List, [], ◌∷◌};
ghost use Rattle.disk_model.specs.Disk.{Files};
ghost use Rattle.disk_model.specs.declared.name.FileName.{FileName};
ghost use Rattle.disk_model.specs.declared.name.FileName.TheVariants.{Root};
ghost use Rattle.mdbox_base.specs.declared.entries.BoxEntry.{BoxEntry};
ghost use Rattle.mdbox_base.specs.declared.entries.MapEntry.{MapEntry};
ghost use Rattle.model_lists.specs.Lists.{Lists};
ghost use Rattle.model_meaning.specs.MapMeaning.{map_meaning};
ghost use Rattle.model_store.specs.Stands.{StandsBy};
ghost use Rattle.model_store.specs.Safe.{Safe, SafeBy};
ghost use Rattle.model_store.specs.Listing.{HaveListings};
ghost use Rattle.model_store.specs.Opening.{HoldOctets, HasNoEntry, Opens, IsDamaged, first_box, IsNewStore, empty_inbox};

/// The files of a new store are safe for the lists with an empty INBOX.
pub fn new_store_is_safe()
    ensures safe { (files : Files) (store : List ℕ) → IsNewStore files store → Safe files empty_inbox }
    ensures by { (files : Files) (store : List ℕ) → IsNewStore files store → SafeBy files store (first_box ∷ []) empty_inbox }
{}

/// Safe files open, with logs that show the lists. Files that open and stand for lists are safe for them, and show them.
pub fn safe_files_open()
    ensures opens { (files : Files) (store : List ℕ) (entries : List MapEntry) (lists : Lists) → SafeBy files store entries lists → (logs : List (List BoxEntry)) × Opens files store entries logs × HaveListings (map_meaning store entries).boxes logs lists }
    ensures safe { (files : Files) (store : List ℕ) (entries : List MapEntry) (logs : List (List BoxEntry)) (lists : Lists) → Opens files store entries logs → StandsBy files store entries lists → SafeBy files store entries lists }
    ensures shows { (files : Files) (store : List ℕ) (entries : List MapEntry) (logs : List (List BoxEntry)) (lists : Lists) → Opens files store entries logs → StandsBy files store entries lists → HaveListings (map_meaning store entries).boxes logs lists }
{}

/// What an opening answers is determined by the files: there is no store, or one damaged place, or one store.
pub fn opening_is_one()
    ensures no_store_or_opens { (files : Files) (store : List ℕ) (entries : List MapEntry) (logs : List (List BoxEntry)) → HasNoEntry (files Root) → Opens files store entries logs → ⊥ }
    ensures no_store_or_damaged { (files : Files) (name : FileName) (place : ℕ) → HasNoEntry (files Root) → IsDamaged files name place → ⊥ }
    ensures opens_or_damaged { (files : Files) (store : List ℕ) (entries : List MapEntry) (logs : List (List BoxEntry)) (name : FileName) (place : ℕ) → Opens files store entries logs → IsDamaged files name place → ⊥ }
    ensures one_damage { (files : Files) (n k : FileName) (p q : ℕ) → IsDamaged files n p → IsDamaged files k q → (n ≡ k) × (p ≡ q) }
    ensures one_store { (files : Files) (s t : List ℕ) (es fs : List MapEntry) (xs ys : List (List BoxEntry)) → Opens files s es xs → Opens files t fs ys → (s ≡ t) × (es ≡ fs) × (xs ≡ ys) }
{}

/// No files are without an answer: those that are no store and damaged nowhere can't fail to open.
pub fn opening_has_an_answer()
    ensures { (files : Files) → HoldOctets files → (HasNoEntry (files Root) → ⊥) → ((name : FileName) (place : ℕ) → IsDamaged files name place → ⊥) → ((store : List ℕ) (entries : List MapEntry) (logs : List (List BoxEntry)) → Opens files store entries logs → ⊥) → ⊥ }
{}

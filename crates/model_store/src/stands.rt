// Laws of what an image stands for.
ghost use Rattle.std.specs.Prelude.{◌≡◌, ◌≤◌, ℕ, List, None, length};
ghost use Rattle.disk_model.specs.Disk.{Files};
ghost use Rattle.mdbox_base.specs.declared.entries.MapEntry.{MapEntry};
ghost use Rattle.model_lists.specs.Lists.{Lists, AreWellFormed, refs_of};
ghost use Rattle.model_meaning.specs.MapMeaning.{MapRecord, map_meaning, count_of};
ghost use Rattle.model_store.specs.Stands.{HasMap, StoresMessage, Stands, whole_size};
ghost use Rattle.model_attach.specs.Rejoined.{join_error};
ghost use Rattle.model_store.specs.Safe.{Safe};

/// An image stands for one lists at most.
pub fn one_meaning()
    ensures { (image : Files) (xs ys : Lists) → Stands image xs → Stands image ys → xs ≡ ys }
{}

/// An image has one store id and one list of map entries at most.
pub fn one_map()
    ensures { (image : Files) (s t : List ℕ) (es fs : List MapEntry) → HasMap image s es → HasMap image t fs → (s ≡ t) × (es ≡ fs) }
{}

/// A safe image's counts are at least its references.
pub fn counts_of_safe_image()
    ensures { (image : Files) (lists : Lists) (store : List ℕ) (entries : List MapEntry) (guid : List ℕ) → Safe image lists → HasMap image store entries → refs_of lists guid ≤ count_of (map_meaning store entries) guid }
{}

/// What a record stores rejoins: nothing is wrong with its body, the size that its lines tell, its references and its
/// instances.
pub fn kept_messages_rejoin()
    ensures { (image : Files) (row : MapRecord) (octets : List ℕ) → (kept : StoresMessage image row octets) → length octets ≤ 4294967295 → join_error kept.stored.message.body (whole_size kept.stored.meta kept.stored.message.body) kept.stored.meta.refs kept.instances ≡ None }
{}

/// Lists for which an image stands are well formed.
pub fn lists_are_well_formed()
    ensures { (image : Files) (lists : Lists) → Stands image lists → AreWellFormed lists }
{}

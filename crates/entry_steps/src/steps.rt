// Entries of mailbox logs as steps of the list machine.
ghost use Rattle.std.specs.Prelude.{◌≡◌, ℕ, List, Some};
ghost use Rattle.mdbox_base.specs.declared.entries.BoxEntry.TheVariants as box_entry;
ghost use Rattle.mdbox_base.specs.declared.ids.Guid.{Guid};
ghost use Rattle.mdbox_base.specs.declared.ids.MapUid.{MapUid};
ghost use Rattle.mdbox_base.specs.declared.ids.Uid.{Uid};
ghost use Rattle.model_lists.specs.Lists.{Mailbox, Lists, AreWellFormed};
ghost use Rattle.list_machine.specs.Machine.{mailbox_named, set_flags, set_words, expunge, expunge_from, add_message, delete_mailbox, rename_mailbox};
ghost use Rattle.mdbox_base.specs.declared.entries.MapCount.{MapCount};
ghost use Rattle.mdbox_base.specs.declared.entries.MapEntry.TheVariants as map_entry;
ghost use Rattle.mdbox_base.specs.declared.ids.BoxNo.{BoxNo};
ghost use Rattle.model_appends.specs.Appending.{lists_by};
ghost use Rattle.model_appends.specs.MapAppending.{lists_changed};

/// The lists that an entry of a mailbox log gives are those of the list machine's step.
pub fn entries_are_steps()
    ensures flagged { (lists : Lists) (name : List ℕ) (x : Mailbox) (octets : List ℕ) (uid : Uid) (flags : ℕ) → AreWellFormed lists → mailbox_named name lists ≡ Some x → lists_by x.number octets (box_entry.F uid flags) lists ≡ set_flags name uid.0 flags lists }
    ensures worded { (lists : Lists) (name : List ℕ) (x : Mailbox) (octets : List ℕ) (uid : Uid) (words : List (List ℕ)) → AreWellFormed lists → mailbox_named name lists ≡ Some x → lists_by x.number octets (box_entry.K uid words) lists ≡ set_words name uid.0 words lists }
    ensures removed { (lists : Lists) (name : List ℕ) (x : Mailbox) (octets : List ℕ) (uid : Uid) → AreWellFormed lists → mailbox_named name lists ≡ Some x → lists_by x.number octets (box_entry.R uid) lists ≡ expunge name uid.0 lists }
    ensures added { (lists : Lists) (name : List ℕ) (x : Mailbox) (octets : List ℕ) (uid : Uid) (flags time size : ℕ) (map_uid : MapUid) (guid : Guid) (words : List (List ℕ)) → AreWellFormed lists → mailbox_named name lists ≡ Some x → uid.0 ≡ x.next_uid
        → lists_by x.number octets (box_entry.A uid flags time size map_uid guid words) lists ≡ add_message name (record { uid = uid.0; flags = flags; time = time; guid = guid.0; octets = octets; words = words }) lists }
    ensures removed_from { (lists : Lists) (number : ℕ) (octets : List ℕ) (uid : Uid) → AreWellFormed lists → lists_by number octets (box_entry.R uid) lists ≡ expunge_from number uid.0 lists }
    ensures deleted { (lists : Lists) (name : List ℕ) (x : Mailbox) (number : BoxNo) (amounts : List MapCount) → AreWellFormed lists → mailbox_named name lists ≡ Some x → x.number ≡ number.0 → lists_changed (map_entry.X number amounts) lists ≡ delete_mailbox name lists }
    ensures renamed { (lists : Lists) (name target : List ℕ) (x : Mailbox) (number : BoxNo) → AreWellFormed lists → mailbox_named name lists ≡ Some x → x.number ≡ number.0 → lists_changed (map_entry.V number target) lists ≡ rename_mailbox name target lists }
{}

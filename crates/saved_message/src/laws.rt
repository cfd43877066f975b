// Laws of what is written.
ghost use Rattle.std.specs.Prelude.{◌≡◌, ◌≤◌, ℕ, List, All, length, Some};
ghost use Rattle.sha1.specs.Sha1.{sha1};
ghost use Rattle.disk_model.specs.Disk.{Files};
ghost use Rattle.disk_model.specs.declared.name.FileName.TheVariants as file;
ghost use Rattle.mdbox_base.specs.declared.ids.InstId.{InstId};
ghost use Rattle.model_attach.specs.Detached.{AreDetached};
ghost use Rattle.model_meaning.specs.MapMeaning.{MapRecord};
ghost use Rattle.model_store.specs.Stands.{StoresMessage};
ghost use Rattle.attach_detach.specs.Prepared.{IsPrepared};
ghost use Rattle.attach_detach.specs.declared.message.Prepared.{Prepared};
ghost use Rattle.saved_message.specs.Laid.{IsLaid, LaidValue};
ghost use Rattle.saved_message.specs.Saved.{CanBeWritten, HasWritten};

/// A record whose region is what is written of a message, and whose instances have its attachments' octets, stores the message.
pub fn written_messages_are_stored()
    ensures { (files : Files) (row : MapRecord) (name : List ℕ) (time : ℕ) (message : List ℕ) (prepared : Prepared) → CanBeWritten name time message prepared → HasWritten files row name time prepared
        → StoresMessage files row message }
{}

/// It stores the message's detached form.
pub fn written_messages_are_detached()
    ensures { (files : Files) (row : MapRecord) (name : List ℕ) (time : ℕ) (message : List ℕ) (prepared : Prepared) → CanBeWritten name time message prepared → HasWritten files row name time prepared
        → (octets : List ℕ) (kept : StoresMessage files row octets) → AreDetached octets kept.stored.message.body kept.stored.meta.refs kept.instances }
{}

/// The hash of each of its instances is the SHA-1 of the instance's octets.
pub fn written_attachments_have_hashes()
    ensures { (files : Files) (row : MapRecord) (name : List ℕ) (time : ℕ) (message : List ℕ) (prepared : Prepared) → CanBeWritten name time message prepared → HasWritten files row name time prepared
        → All (λ inst. (octets : List ℕ) → files (file.Inst inst.hash.0 inst.id.0) ≡ Some octets → inst.hash.0 ≡ sha1 octets) row.instances }
{}

/// A message has one prepared form.
pub fn prepared_form_is_one()
    ensures { (message : List ℕ) (one other : Prepared) → IsPrepared message one → IsPrepared message other → one ≡ other }
{}

/// At most 512 attachments are detached from a message, since each has at least 131,072 octets.
pub fn attachments_are_few()
    ensures { (message : List ℕ) (prepared : Prepared) → length message ≤ 67108864 → IsPrepared message prepared → length prepared.parts ≤ 512 }
{}

/// A region has at least one octet, and few more than the greatest message.
pub fn laid_regions_are_short()
    ensures { (name : List ℕ) (time : ℕ) (message : List ℕ) (prepared : Prepared) (ids : List InstId) (guid : List ℕ) (laid : LaidValue) → CanBeWritten name time message prepared → IsLaid name time prepared ids guid laid
        → (1 ≤ length laid.region) × (length laid.region ≤ 67164541) }
{}

// Where a message is placed.
ghost use Rattle.std.specs.Prelude.{◌≡◌, ◌↔◌, ◌≤◌, ◌+◌, ℕ, List, length, true, false, Some, IfOk, IfErr, OnOk, IsErr, IsErrOf};
ghost use Rattle.disk_model.specs.Disk.{Grows, IfTold};
ghost use Rattle.disk_model.specs.FaultCounts.{NoFault, ChangeFaultCounted};
ghost use Rattle.disk_model.specs.declared.name.FileName.TheVariants.{Mail};
ghost use Rattle.attach_detach.specs.declared.message.Prepared.{Prepared as PreparedValue};
ghost use Rattle.mdbox_base.specs.declared.ids.InstId.{InstId as InstIdValue};
ghost use Rattle.mdbox_base.specs.declared.replies.Refusal.TheVariants as refusal;
ghost use Rattle.model_appends.specs.Appending.{LeavesAsRead};
ghost use Rattle.model_kept.specs.Kept.{MailIsKept};
ghost use Rattle.model_lists.specs.Lists.{Lists};
ghost use Rattle.model_store.specs.Settled.{IsSettledFor, Leaves};
ghost use Rattle.saved_message.specs.Laid.{AreSixteen, IsLaid};
ghost use Rattle.saved_message.specs.Region.{guid_of_place};
ghost use Rattle.storage_files.specs.Files.{changed_in, end_in, ending_at, is_taken_in};
ghost use Rattle.store_core.specs.Dues.{KeepsStored};
ghost use Rattle.store_core.specs.Files.{EndsWith};
ghost use Rattle.mail_save.specs.Left.{HoldsFile, HoldsRegion};
ghost use Rattle.mail_save.specs.MailFiles.{HasAppended, TakesWithHeader};
ghost use Rattle.mail_save.specs.SaveEffects.{AreOtherEndsSame, IsLeftAlone, TakesFileFor, TakesNone};

use disk_model::Disk;
use mdbox_base::{FileNo, Guid, NoMemory, Refusal};
use saved_message::{Laid, guid_at};
use storage_files::Take;
use store_core::{Stopped, Store};

/// The greatest number of a storage file.
const LAST_NUMBER: u64 = 4_294_967_294;

/// Where a message was placed.
#[derive(Clone, Copy, Debug, PartialEq, Eq)]
pub struct SavedAt {
    pub file: FileNo,
    /// Where its region begins, in octets.
    pub offset: u32,
    /// How many octets the region has.
    pub size: u32,
    pub guid: Guid,
}

/// Takes a storage file for so many octets, and makes it with this header where it is new.
pub fn take_file<D: Disk>(store: &mut Store<D>, header: &[u8], size: u32) -> Result<FileNo, Refusal>
    requires running { store.old.stopped ≡ false }
    requires size { length header.now + size ≤ 4294967295 }
    ensures taken { IfOk result (λ file. HoldsFile file.0 size store.new) }
    ensures takes { IfOk result (λ file. TakesFileFor (length header.now) size file store.old store.new) }
    ensures mail { IfOk result (λ file. TakesWithHeader header.now file.0 store.old (D.history store.old.disk) (D.history store.new.disk)) }
    ensures none { IfErr result (λ why. TakesNone size why store.old store.new) }
    ensures any_moment { (lists : Lists) → IsSettledFor lists (D.history store.old.disk) → Leaves lists lists (D.history store.old.disk) (D.history store.new.disk) }
    ensures mail_stays { MailIsKept store.old.map (D.history store.old.disk) (D.history store.new.disk) }
    ensures settled { store.new.stopped ≡ false → (lists : Lists) → IsSettledFor lists (D.history store.old.disk) → IsSettledFor lists (D.history store.new.disk) }
    ensures stored { store.new.stopped ≡ false → KeepsStored (D.history store.old.disk) (D.history store.new.disk) }
    ensures stopped { IsErrOf result refusal.Stopped ↔ (store.new.stopped ≡ true) }
    ensures same { store.new ≡ record store.old { disk = store.new.disk; files = store.new.files; drawn = record store.old.drawn { file = store.new.drawn.file }; stopped = store.new.stopped } }
    ensures grows { Grows (D.history store.old.disk) (D.history store.new.disk) }
    ensures fault { ChangeFaultCounted (IsErrOf result refusal.Stopped) (D.faults store.old.disk) (D.faults store.new.disk) }
    ensures unfailed { store.new.stopped ≡ false → NoFault (D.faults store.old.disk) (D.faults store.new.disk) }
{
    store.facts();
    if let Err(NoMemory) = store.reserve(1) {
        return Err(Refusal::NoMemory);
    }
    match store.take_for(size) {
        Take::Known(file) => {
            store.facts();
            Ok(file)
        }
        Take::New(file) => match store.make_file(file, header) {
            Ok(()) => {
                store.facts();
                Ok(file)
            }
            Err(Stopped) => Err(Refusal::Stopped),
        },
        Take::Full => Err(Refusal::StoreFull(LAST_NUMBER)),
    }
}

/// Sets the GUID of a message in its region, and places the region at the end of a storage file that was taken.
pub fn place_region<D: Disk>(
    store: &mut Store<D>,
    laid: &mut Laid,
    file: FileNo,
) -> Result<SavedAt, Stopped>
    requires running { store.old.stopped ≡ false }
    requires laid { (name : List ℕ) × (time : ℕ) × (prepared : PreparedValue) × (ids : List InstIdValue) × (guid : List ℕ) × IsLaid name time prepared ids guid laid.old }
    requires taken { HoldsFile file.0 (length laid.old.region) store.old }
    ensures placed { IfOk result (λ at. HoldsRegion at store.new) }
    ensures file { IfOk result (λ at. at.file ≡ file) }
    ensures guid { IfOk result (λ at. at.guid.0 ≡ guid_of_place store.old.map.store file.0 at.offset) }
    ensures octets { IfOk result (λ at. AreSixteen at.guid.0) }
    ensures size { IfOk result (λ at. at.size ≡ length laid.old.region) }
    ensures set { IfOk result (λ at. (name : List ℕ) (time : ℕ) (prepared : PreparedValue) (ids : List InstIdValue) (guid : List ℕ) → IsLaid name time prepared ids guid laid.old → IsLaid name time prepared ids at.guid.0 laid.new) }
    ensures long { OnOk result (length laid.new.region ≡ length laid.old.region) }
    ensures offset { IfOk result (λ at. end_in file.0 store.old.files.files ≡ Some at.offset) }
    ensures written { IfOk result (λ at. IfTold (D.history store.new.disk) (λ now. EndsWith at.offset laid.new.region (now (Mail file.0)))) }
    ensures appended { OnOk result (HasAppended laid.new.region file.0 (D.history store.old.disk) (D.history store.new.disk)) }
    ensures held { OnOk result ((lists : Lists) → IsSettledFor lists (D.history store.new.disk) → IfTold (D.history store.new.disk) (LeavesAsRead (Mail file.0))) }
    ensures ends { IfOk result (λ at. end_in file.0 store.new.files.files ≡ Some (at.offset + at.size)) }
    ensures others { OnOk result (AreOtherEndsSame file.0 store.old store.new) }
    ensures still_taken { (number : ℕ) → is_taken_in number store.new.files.files ≡ is_taken_in number store.old.files.files }
    ensures ok { IfOk result (λ at. store.new ≡ record store.old { disk = store.new.disk; files = record store.old.files { files = changed_in file.0 (ending_at (at.offset + at.size)) store.old.files.files } }) }
    ensures alone { IsErr result → IsLeftAlone store.old store.new }
    ensures any_moment { (lists : Lists) → IsSettledFor lists (D.history store.old.disk) → Leaves lists lists (D.history store.old.disk) (D.history store.new.disk) }
    ensures mail_stays { MailIsKept store.old.map (D.history store.old.disk) (D.history store.new.disk) }
    ensures settled { OnOk result ((lists : Lists) → IsSettledFor lists (D.history store.old.disk) → IsSettledFor lists (D.history store.new.disk)) }
    ensures stored { OnOk result (KeepsStored (D.history store.old.disk) (D.history store.new.disk)) }
    ensures stopped { IsErr result ↔ (store.new.stopped ≡ true) }
    ensures same { store.new ≡ record store.old { disk = store.new.disk; files = store.new.files; stopped = store.new.stopped } }
    ensures grows { Grows (D.history store.old.disk) (D.history store.new.disk) }
    ensures fault { ChangeFaultCounted (IsErr result) (D.faults store.old.disk) (D.faults store.new.disk) }
    ensures unfailed { OnOk result (NoFault (D.faults store.old.disk) (D.faults store.new.disk)) }
{
    let Some(end) = store.end_of(file) else {
        unreachable!()
    };
    let guid = guid_at(store.id(), file, end as u32);
    laid.set_guid(guid);
    let (front, body, back) = laid.texts();
    let offset = store.place_texts(file, front, body, back)?;
    let size = laid.length();
    Ok(SavedAt {
        file,
        offset,
        size,
        guid,
    })
}

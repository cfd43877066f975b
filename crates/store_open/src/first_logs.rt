// The first logs of a store.
ghost use Rattle.std.specs.Prelude.{◌≡◌, ◌≤◌, ◌+◌, ◌∷◌, [], length, IfOk, IfErr, IsErr, IsErrOf, OnOk};
ghost use Rattle.disk_model.specs.Disk.{IfTold, EachImage, OthersStay, IsIdle};
ghost use Rattle.disk_model.specs.FaultCounts.{NoFault, ChangeFaultCounted, AnyFaultCounted};
ghost use Rattle.disk_model.specs.declared.name.FileName.TheVariants as file;
ghost use Rattle.model_logs.specs.LogFile.{EntryFits, IsVersionOf};
ghost use Rattle.model_logs.specs.Entries.{map_text, root_text};
ghost use Rattle.model_store.specs.Stands.{head_of};
ghost use Rattle.model_store.specs.Opening.{first_root, first_box, empty_inbox};
ghost use Rattle.model_store.specs.Settled.{IsSettled};
ghost use Rattle.gate_log.specs.Log.{Holds, IsAtMostAsLong, NamedButFor};
ghost use Rattle.store_open.specs.Making.{IdleUnless, IsFreeForStore, IsBeingMade, NeverHasStore, IsEmptyDisk, IsMadeStore, HasNothingOrInbox, new_root_head, new_map_head, inbox_head};
ghost use Rattle.store_open.specs.Refused.{IsMakingError, IsOfFiles, IsFaultOrMemory};

use crate::entries::{inbox_entry, map_log_entry};
use crate::error::OpenError;
use crate::free::check_free;
use crate::old_logs::remove_old_logs;
use disk_model::{Disk, FileName};
use gate_log::{DiskFault, GateLog, create_log};
use mdbox_base::StoreId;
use model_logs::{LogHead, LogKind};
use std::alloc::Global;

/// The logs of a store that was just made, with an empty INBOX.
#[derive(Drop)]
pub struct FirstLogs {
    /// The root log, which names the map log.
    pub root_log: GateLog,
    /// The map log, which has INBOX.
    pub map_log: GateLog,
    /// The log of INBOX, without entries.
    pub box_log: GateLog,
}

/// Makes the files of a new store with this id: removes the logs that an earlier making left, and makes the log of
/// mailbox 1 (INBOX), the map log of generation 1, and last the root log.
///
/// `StoreWhole` if and only if the root log has an entry, `MailFiles` if and only if it has none and a storage file or an
/// attachment instance is there.
pub fn make_files<D: Disk>(alloc: Global, disk: &mut D, id: StoreId) -> Result<FirstLogs, OpenError>
    ensures refused { IfErr result (IsMakingError (D.history disk.old)) }
    ensures free { OnOk result (IfTold (D.history disk.old) IsFreeForStore) }
    ensures idle { IfErr result (λ error. IsOfFiles error → IsIdle (D.history disk.old) (D.history disk.new)) }

    // Whatever is answered, nothing changes where a store may not be made.
    ensures untouched { IdleUnless IsFreeForStore (D.history disk.old) (D.history disk.new) }

    // Where at the beginning each image's root log has no entry, at every moment of the call each image has no entry there,
    // or is safe for the lists with an empty INBOX.
    ensures any_moment { NeverHasStore (D.history disk.old) → EachImage (λ _ image. HasNothingOrInbox id.0 image) (D.history disk.old) (D.history disk.new) }

    // After Ok the disk has the new store and no other file.
    ensures settled { OnOk result (IfTold (D.history disk.new) (λ now. IsSettled now empty_inbox)) }
    ensures store { OnOk result (IfTold (D.history disk.new) (IsMadeStore id.0)) }
    ensures root_log { IfOk result (λ made. Holds made.root_log (root_text first_root ∷ []) (D.history disk.new) × (made.root_log.name ≡ file.Root) × (made.root_log.head ≡ new_root_head id.0)) }
    ensures map_log { IfOk result (λ made. Holds made.map_log (map_text first_box ∷ []) (D.history disk.new) × (made.map_log.name ≡ file.Map 1) × (made.map_log.head ≡ new_map_head id.0)) }
    ensures box_log { IfOk result (λ made. Holds made.box_log [] (D.history disk.new) × (made.box_log ≡ record { name = file.Box 1 1; head = inbox_head id.0; end = 25; count = 0; room = 0 })) }

    // Out of memory means that no store was made.
    ensures unmade { IsErrOf result OpenError.NoMemory → NeverHasStore (D.history disk.old) → NeverHasStore (D.history disk.new) }
    ensures fault { AnyFaultCounted (IsErrOf result OpenError.DiskFault) (D.faults disk.old) (D.faults disk.new) }
    ensures unfailed { (IsErrOf result OpenError.DiskFault → ⊥) → NoFault (D.faults disk.old) (D.faults disk.new) }
{
    check_free(alloc, disk)?;
    let inbox = inbox_entry(alloc)?;
    let first = map_log_entry(alloc)?;
    remove_old_logs(disk)?;
    make_logs(alloc, disk, id, inbox.as_slice(), first.as_slice())
}

/// Makes the three logs of a new store where no file is, the root log last.
fn make_logs<D: Disk>(
    alloc: Global,
    disk: &mut D,
    id: StoreId,
    inbox: &[u8],
    first: &[u8],
) -> Result<FirstLogs, OpenError>
    requires bare { IfTold (D.history disk.old) IsEmptyDisk }
    requires inbox { inbox.now ≡ map_text first_box }
    requires first { first.now ≡ root_text first_root }
    ensures any_moment { NeverHasStore (D.history disk.old) → EachImage (λ _ image. HasNothingOrInbox id.0 image) (D.history disk.old) (D.history disk.new) }
    ensures store { OnOk result (IfTold (D.history disk.new) (IsMadeStore id.0)) }
    ensures settled { OnOk result (IfTold (D.history disk.new) (λ now. IsSettled now empty_inbox)) }
    ensures root_log { IfOk result (λ made. Holds made.root_log (root_text first_root ∷ []) (D.history disk.new) × (made.root_log.name ≡ file.Root) × (made.root_log.head ≡ new_root_head id.0)) }
    ensures map_log { IfOk result (λ made. Holds made.map_log (map_text first_box ∷ []) (D.history disk.new) × (made.map_log.name ≡ file.Map 1) × (made.map_log.head ≡ new_map_head id.0)) }
    ensures box_log { IfOk result (λ made. Holds made.box_log [] (D.history disk.new) × (made.box_log ≡ record { name = file.Box 1 1; head = inbox_head id.0; end = 25; count = 0; room = 0 })) }
    ensures refused { IfErr result IsFaultOrMemory }
    // Out of memory means that no store was made.
    ensures unmade { IsErrOf result OpenError.NoMemory → NeverHasStore (D.history disk.old) → NeverHasStore (D.history disk.new) }
    ensures fault { ChangeFaultCounted (IsErrOf result OpenError.DiskFault) (D.faults disk.old) (D.faults disk.new) }
    ensures unfailed { (IsErrOf result OpenError.DiskFault → ⊥) → NoFault (D.faults disk.old) (D.faults disk.new) }
{
    let head = head_of(id, LogKind::Box, 1, 1);
    let box_log = make_empty_log(alloc, disk, FileName::Box(1, 1), head)?;
    let head = head_of(id, LogKind::Map, 0, 1);
    let map_log = make_log(alloc, disk, FileName::Map(1), head, inbox)?;
    let head = head_of(id, LogKind::Root, 0, 0);
    let root_log = make_log(alloc, disk, FileName::Root, head, first)?;
    Ok(FirstLogs {
        root_log,
        map_log,
        box_log,
    })
}

fn head_of(store: StoreId, kind: LogKind, number: u32, generation: u32) -> LogHead
    ensures head { result ≡ head_of store.0 kind number generation }
    ensures version { IsVersionOf result.kind result.version }
{
    LogHead {
        version: kind.version(),
        store,
        kind,
        number,
        generation,
    }
}

/// Makes an empty log.
fn make_empty_log<D: Disk>(
    alloc: Global,
    disk: &mut D,
    name: FileName,
    head: LogHead,
) -> Result<GateLog, DiskFault>
    requires version { IsVersionOf head.kind head.version }
    ensures any_moment { EachImage (λ _ image. IfTold (D.history disk.old) (λ before. IsAtMostAsLong 26 (before name) (image name)) × OthersStay name (D.history disk.old) image) (D.history disk.old) (D.history disk.new) }
    ensures made { IfOk result (λ log. Holds log [] (D.history disk.new)) }
    ensures log { IfOk result (λ log. log ≡ record { name = name; head = head; end = 25; count = 0; room = 0 }) }
    ensures others { OnOk result (NamedButFor name (D.history disk.old) (D.history disk.new)) }
    ensures fault { ChangeFaultCounted (IsErr result) (D.faults disk.old) (D.faults disk.new) }
    ensures unfailed { OnOk result (NoFault (D.faults disk.old) (D.faults disk.new)) }
{
    create_log(alloc, disk, name, head).map_err(|_| DiskFault)
}

/// Makes a log with one entry.
fn make_log<D: Disk>(
    alloc: Global,
    disk: &mut D,
    name: FileName,
    head: LogHead,
    entry: &[u8],
) -> Result<GateLog, OpenError>
    requires version { IsVersionOf head.kind head.version }
    requires some { 1 ≤ length entry.now }
    requires short { length entry.now ≤ 300 }
    // At every moment of the call each image has in this file no more octets than it could have before, or than 26; or it has the log without the entry, or with it.
    ensures any_moment { EachImage (λ _ image. IfTold (D.history disk.old) (λ before. IsBeingMade head entry.now (before name) (image name)) × OthersStay name (D.history disk.old) image) (D.history disk.old) (D.history disk.new) }
    ensures made { IfOk result (λ log. Holds log (entry.now ∷ []) (D.history disk.new)) }
    ensures log { IfOk result (λ log. (log.name ≡ name) × (log.head ≡ head)) }
    ensures others { OnOk result (NamedButFor name (D.history disk.old) (D.history disk.new)) }
    ensures refused { IfErr result IsFaultOrMemory }
    // Out of memory, the log is made, and has no entry yet.
    ensures unmade { IsErrOf result OpenError.NoMemory → Holds (record { name = name; head = head; end = 25; count = 0; room = 0 }) [] (D.history disk.new) × NamedButFor name (D.history disk.old) (D.history disk.new) }
    ensures fault { ChangeFaultCounted (IsErrOf result OpenError.DiskFault) (D.faults disk.old) (D.faults disk.new) }
    ensures unfailed { (IsErrOf result OpenError.DiskFault → ⊥) → NoFault (D.faults disk.old) (D.faults disk.new) }
{
    let mut log = make_empty_log(alloc, disk, name, head)?;
    log.reserve(entry.len() + 5)?;
    log.append(disk, entry)?;
    Ok(log)
}

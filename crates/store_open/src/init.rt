// Making a store and opening it.
ghost use Rattle.std.specs.Prelude.{◌≡◌, ◌<◌, ◌++◌, ◌∷◌, [], false, length, vec_len, vec_capacity, IfOk, IfErr, IsErrOf, OnOk};
ghost use Rattle.disk_model.specs.Disk.{IfTold, EachImage, IsIdle};
ghost use Rattle.disk_model.specs.FaultCounts.{NoFault, AnyFaultCounted};
ghost use Rattle.model_meaning.specs.BoxMeaning.{box_meaning};
ghost use Rattle.model_meaning.specs.MapMeaning.{map_meaning};
ghost use Rattle.model_store.specs.Opening.{first_box, empty_inbox};
ghost use Rattle.model_store.specs.Settled.{IsSettled};
ghost use Rattle.store_core.specs.Value.{indexes_of, newly_open};
ghost use Rattle.store_core.specs.Running.{IsStore};
ghost use Rattle.store_core.specs.StoreInstances.{HasKnownInstances};
ghost use Rattle.store_open.specs.Making.{IdleUnless, IsFreeForStore, IsMadeStore, NeverHasStore, HasNothingOrInbox, no_files, no_instances};
ghost use Rattle.store_open.specs.Opened.{IsFaulted, disk_of};
ghost use Rattle.store_open.specs.Refused.{IsMakingError, IsOfFiles};

use crate::entries::inbox;
use crate::error::{OpenError, OpenRefused};
use crate::first_logs::make_files;
use crate::open::OpenParts;
use box_index::BoxIndex;
use disk_model::Disk;
use map_index::MapIndex;
use mdbox_base::{BoxNo, NoMemory, Seq, StoreId};
use sis_store::Instances;
use std::alloc::Global;
use storage_files::MailFiles;
use store_core::{OpenBox, OpenLogs, Store, StoreRoom};

/// Makes an empty store with INBOX, as opened for one lane.
///
/// `StoreWhole` if and only if the root log has an entry, `MailFiles` if and only if it has none and a storage file or an
/// attachment instance is there.
pub fn init_store<D: Disk>(alloc: Global, disk: D, id: StoreId) -> Result<Store<D>, OpenRefused<D>>
    ensures refused { IfErr result (λ refused. IsMakingError (D.history disk) refused.error) }
    ensures free { OnOk result (IfTold (D.history disk) IsFreeForStore) }
    ensures idle { IfErr result (λ refused. IsOfFiles refused.error → IsIdle (D.history disk) (D.history refused.disk)) }

    // Whatever is answered, nothing changes where a store may not be made.
    ensures untouched { IdleUnless IsFreeForStore (D.history disk) (D.history (disk_of result)) }

    // Where at the beginning each image's root log has no entry, at every moment of the call each image has no entry there,
    // or is safe for the lists with an empty INBOX.
    ensures any_moment { NeverHasStore (D.history disk) → EachImage (λ _ image. HasNothingOrInbox id.0 image) (D.history disk) (D.history (disk_of result)) }

    // After Ok the disk has the new store and no other file, and the store is that, for one lane.
    ensures settled { IfOk result (λ store. IfTold (D.history store.disk) (λ now. IsSettled now empty_inbox)) }
    ensures store { IfOk result (λ store. IfTold (D.history store.disk) (IsMadeStore id.0)) }
    ensures made { IfOk result (λ store. (store.map ≡ map_meaning id.0 (first_box ∷ [])) × (indexes_of store.boxes ≡ box_meaning [] ∷ []) × (store.lanes ≡ 1) × (store.stopped ≡ false) × (store.alloc ≡ alloc) × (store.drawn ≡ store.map.highest)) }
    ensures files { IfOk result (λ store. (store.files ≡ no_files) × (store.instances ≡ no_instances id)) }

    // Out of memory means that no store was made.
    ensures unmade { IfErr result (λ refused. refused.error ≡ OpenError.NoMemory → NeverHasStore (D.history disk) → NeverHasStore (D.history refused.disk)) }
    ensures fault { AnyFaultCounted (IsFaulted result) (D.faults disk) (D.faults (disk_of result)) }
    ensures unfailed { (IsFaulted result → ⊥) → NoFault (D.faults disk) (D.faults (disk_of result)) }
{
    let mut disk = disk;
    match new_logs(alloc, &mut disk, id) {
        Ok(
            OpenParts {
                logs,
                files,
                instances,
                room,
            },
        ) => Ok(Store::of(alloc, disk, logs, files, instances, room, 1)),
        Err(error) => Err(OpenRefused { error, disk }),
    }
}

/// Makes the logs of a new store, with what they mean. Nothing wants memory once they are made.
fn new_logs<D: Disk>(alloc: Global, disk: &mut D, id: StoreId) -> Result<OpenParts, OpenError>
    ensures id { IfOk result (λ opened. opened.logs.map.meaning.store ≡ opened.logs.id.0) }
    ensures store { IfOk result (λ opened. IsStore (D.history disk.new) (newly_open alloc disk.new opened.logs opened.files opened.instances 1)) }
    ensures known { IfOk result (λ opened. HasKnownInstances (D.history disk.new) (newly_open alloc disk.new opened.logs opened.files opened.instances 1)) }
    ensures instances { IfOk result (λ opened. opened.instances ≡ no_instances id) }
    ensures files { IfOk result (λ opened. opened.files ≡ no_files) }
    ensures room { IfOk result (λ opened. (opened.room.boxes ≡ length opened.logs.boxes.items) × (opened.room.records ≡ length opened.logs.map.meaning.records)) }
    ensures made { IfOk result (λ opened. (opened.logs.map.meaning ≡ map_meaning id.0 (first_box ∷ [])) × (indexes_of opened.logs.boxes.items ≡ box_meaning [] ∷ [])) }
    ensures settled { OnOk result (IfTold (D.history disk.new) (λ now. IsSettled now empty_inbox)) }
    ensures there { OnOk result (IfTold (D.history disk.new) (IsMadeStore id.0)) }
    ensures any_moment { NeverHasStore (D.history disk.old) → EachImage (λ _ image. HasNothingOrInbox id.0 image) (D.history disk.old) (D.history disk.new) }
    ensures refused { IfErr result (IsMakingError (D.history disk.old)) }
    ensures free { OnOk result (IfTold (D.history disk.old) IsFreeForStore) }
    ensures idle { IfErr result (λ error. IsOfFiles error → IsIdle (D.history disk.old) (D.history disk.new)) }
    ensures untouched { IdleUnless IsFreeForStore (D.history disk.old) (D.history disk.new) }
    ensures unmade { IsErrOf result OpenError.NoMemory → NeverHasStore (D.history disk.old) → NeverHasStore (D.history disk.new) }
    ensures fault { AnyFaultCounted (IsErrOf result OpenError.DiskFault) (D.faults disk.old) (D.faults disk.new) }
    ensures unfailed { (IsErrOf result OpenError.DiskFault → ⊥) → NoFault (D.faults disk.old) (D.faults disk.new) }
{
    let map = new_map(alloc, id)?;
    let index = BoxIndex::empty(alloc)?;
    let mut boxes = Vec::with_capacity(alloc, 1)?;
    let room = StoreRoom::of(alloc, 1, 0)?;
    let files = MailFiles::of(alloc, Seq::empty(alloc), 0)?;
    let instances = Instances::of(alloc, Seq::empty(alloc), id, 0)?;
    let made = make_files(alloc, disk, id)?;
    push_box(
        &mut boxes,
        OpenBox {
            number: BoxNo(1),
            log: made.box_log,
            index,
        },
    );
    let logs = OpenLogs {
        id,
        root_log: made.root_log,
        map_log: made.map_log,
        map,
        boxes,
    };
    Ok(OpenParts {
        logs,
        files,
        instances,
        room,
    })
}

/// What the map log of a new store means.
fn new_map(alloc: Global, id: StoreId) -> Result<MapIndex, NoMemory>
    ensures { IfOk result (λ map. map.meaning ≡ map_meaning id.0 (first_box ∷ [])) }
{
    let inbox = inbox(alloc)?;
    let mut map = MapIndex::empty(alloc, id)?;
    map.apply(&inbox)?;
    Ok(map)
}

/// Adds a mailbox where there is room.
fn push_box(boxes: &mut Vec<OpenBox>, open_box: OpenBox)
    requires { vec_len boxes.old < vec_capacity boxes.old }
    ensures { boxes.new.items ≡ boxes.old.items ++ open_box ∷ [] }
{
    boxes.push(open_box).unwrap();
}

// Opening a store.
ghost use Rattle.std.specs.Prelude.{◌≡◌, ◌≤◌, false, [], ℕ, length, Ok, IfOk, IfErr, IsErrOf};
ghost use Rattle.disk_model.specs.Disk.{Between, EachImage, IfTold, IsIdle};
ghost use Rattle.disk_model.specs.declared.name.FileName.TheVariants as file;
ghost use Rattle.disk_model.specs.FaultCounts.{NoFault, AnyFaultCounted, ChangeFaultCounted};
ghost use Rattle.model_lists.specs.Lists.{Lists};
ghost use Rattle.model_store.specs.Listing.{ShowLists};
ghost use Rattle.model_store.specs.Safe.{Safe};
ghost use Rattle.store_core.specs.Value.{indexes_of, newly_open, none_due};
ghost use Rattle.model_store.specs.Settled.{IsSettledFor};
ghost use Rattle.store_core.specs.Running.{IsStore};
ghost use Rattle.store_core.specs.StoreInstances.{HasKnownInstances};
ghost use Rattle.store_files.specs.Found.{IsFoundFiles};
ghost use Rattle.store_instances.specs.FoundInstances.{IsFoundInstances};
ghost use Rattle.box_snapshot.specs.Due.{NoLogDue};
ghost use Rattle.store_open.specs.Making.{IdleUnless};
ghost use Rattle.store_open.specs.Opened.{Opening, IsOpenedAs, CarriesAll, StoreCarries, KeepsOpenedMail, IsClosedWell, HasNoLogDue, IsOpeningError, IsFaulted, disk_of};
ghost use Rattle.store_open.specs.Rewritten.{WritesDueLogs};
ghost use Rattle.store_sweep.specs.Moments.{NoFailedChange, IdleIf};
ghost use Rattle.store_sweep.specs.Swept.{IsSwept};

use crate::error::{OpenError, OpenRefused};
use box_snapshot::{rewritten_stores_open_again, snapshot_due};
use disk_model::Disk;
use model_meaning::meanings_are_sound;
use model_rewritten::rewritten_stores_are_safe;
use sis_store::Instances;
use std::alloc::Global;
use storage_files::MailFiles;
use store_checks::check_store;
use store_core::{OpenLogs, Store, StoreRoom, counts_cover_listings, listings_are_shown};
use store_files::{find_files, highest_file_is_named};
use store_instances::{find_instances, named_instances_are_sound};
use store_sweep::{sweep, swept_files_are_known};

/// What a store is made of beside its disk.
#[derive(Drop)]
pub(crate) struct OpenParts {
    pub(crate) logs: OpenLogs,
    pub(crate) files: MailFiles,
    pub(crate) instances: Instances,
    pub(crate) room: StoreRoom,
}

/// Opens the store: makes the checks, finds the instances and the storage files, and then sweeps the disk, and writes logs anew that
/// have many more entries than they need.
pub fn open_store<D: Disk>(alloc: Global, disk: D, lanes: u32) -> Result<Store<D>, OpenRefused<D>>
    requires lanes { (1 ≤ lanes) × (lanes ≤ 64) }

    // The store has what the files meant, and isn't stopped.
    ensures opened { IfOk result (λ store. IsOpenedAs (D.history disk) store.map (indexes_of store.boxes)) }
    ensures state { IfOk result (λ store. (store.lanes ≡ lanes) × (store.stopped ≡ false) × (store.alloc ≡ alloc) × (store.drawn ≡ store.map.highest) × (store.dues ≡ none_due store.map.records)) }

    // No log is due to be written anew.
    ensures undue { IfOk result NoLogDue }

    // No log of a mailbox was made that the map doesn't name.
    ensures made { IfOk result (λ store. store.made ≡ []) }

    // It has the storage files that stand once the disk is swept, and knows each file as the disk has it.
    ensures files { IfOk result (λ store. IsFoundFiles store.map (D.history disk) store.files) }

    // It knows the instances that records name, and no others.
    ensures instances { IfOk result (λ store. IsFoundInstances store.map store.instances) }

    // Of a settled disk it shows the lists.
    ensures shows { IfOk result (λ store. (lists : Lists) → IsSettledFor lists (D.history disk) → ShowLists store.map.boxes (indexes_of store.boxes) lists) }

    // Whatever is answered, where no change failed a settled disk is settled for the same lists again, and of any disk the store
    // opens again, with logs that mean the same and the same mail; where no log is due, with all that the store reads.
    ensures settled_again { NoFailedChange (IsFaulted result) (D.faults disk) (D.faults (disk_of result)) → (lists : Lists) → IsSettledFor lists (D.history disk) → IsSettledFor lists (D.history (disk_of result)) }
    ensures carried { NoFailedChange (IsFaulted result) (D.faults disk) (D.faults (disk_of result)) → StoreCarries (D.history disk) (D.history (disk_of result)) }

    // After Ok the disk is swept, as the map log that is in force then says.
    ensures swept { IfOk result (λ store. (generation : ℕ) × (store.map_log.name ≡ file.Map generation) × IsSwept generation store.map (D.history disk) (D.history store.disk)) }

    // At every moment, whatever fails, each image of a settled disk is safe for the same lists.
    ensures any_moment { (lists : Lists) → IsSettledFor lists (D.history disk) → EachImage (λ _ image. Safe image lists) (D.history disk) (D.history (disk_of result)) }

    // At every moment, whatever fails and whether the disk is settled or not, each image has of the storage files and instances
    // what a crash could leave of them at the beginning: of a sealed file all of it, of another as far as the end of each region.
    ensures mail_stays { KeepsOpenedMail (D.history disk) (D.history (disk_of result)) }

    // A store that was closed well, none of whose logs is due, is left as it is, whatever fails.
    ensures closed_well { IdleIf IsClosedWell (D.history disk) (D.history (disk_of result)) }

    ensures refused { IfErr result (λ refused. IsOpeningError (D.history disk) refused.error) }

    // A refusal for another cause than a failing device or want of memory leaves the disk as it is.
    ensures idle { IfErr result (λ refused. (refused.error ≡ OpenError.DiskFault → ⊥) → (refused.error ≡ OpenError.NoMemory → ⊥) → IsIdle (D.history disk) (D.history refused.disk)) }

    // Nor is anything changed out of memory, where no log of a store that opens is due.
    ensures memory { IfErr result (λ refused. refused.error ≡ OpenError.NoMemory → IdleIf HasNoLogDue (D.history disk) (D.history refused.disk)) }

    // Whatever is answered, nothing changes where the files don't open.
    ensures untouched { IdleUnless Opening (D.history disk) (D.history (disk_of result)) }
    ensures fault { AnyFaultCounted (IsFaulted result) (D.faults disk) (D.faults (disk_of result)) }
    ensures unfailed { (IsFaulted result → ⊥) → NoFault (D.faults disk) (D.faults (disk_of result)) }
{
    let mut disk = disk;
    match open_logs(alloc, &mut disk) {
        Ok(
            OpenParts {
                logs,
                files,
                instances,
                room,
            },
        ) => {
            rewritten_stores_are_safe();
            rewritten_stores_open_again::<D>();
            write_due_logs(Store::of(alloc, disk, logs, files, instances, room, lanes))
        }
        Err(error) => Err(OpenRefused { error, disk }),
    }
}

/// Writes those logs of a store anew that are due. A change that fails and want of memory refuse the opening.
fn write_due_logs<D: Disk>(store: Store<D>) -> Result<Store<D>, OpenRefused<D>>
    requires running { store.stopped ≡ false }
    requires unmade { store.made ≡ [] }
    ensures written { WritesDueLogs D.history store result }
    ensures idle { NoLogDue store → result ≡ Ok store }
    ensures fault { ChangeFaultCounted (IsFaulted result) (D.faults store.disk) (D.faults (disk_of result)) }
    ensures unfailed { (IsFaulted result → ⊥) → NoFault (D.faults store.disk) (D.faults (disk_of result)) }
{
    let mut store = store;
    store.facts();
    let written = snapshot_due(&mut store);
    store.facts();
    match written {
        Ok(()) => Ok(store),
        Err(error) => Err(OpenRefused {
            error: OpenError::from(error),
            disk: store.into_disk(),
        }),
    }
}

/// Makes the checks, finds the instances and the storage files, and sweeps the disk. Nothing wants memory once the disk changes.
fn open_logs<D: Disk>(alloc: Global, disk: &mut D) -> Result<OpenParts, OpenError>
    ensures id { IfOk result (λ opened. opened.logs.map.meaning.store ≡ opened.logs.id.0) }
    ensures store { IfOk result (λ opened. (lanes : ℕ) → 1 ≤ lanes → lanes ≤ 64 → IsStore (D.history disk.new) (newly_open alloc disk.new opened.logs opened.files opened.instances lanes)) }
    ensures known { IfOk result (λ opened. (lanes : ℕ) → 1 ≤ lanes → lanes ≤ 64 → HasKnownInstances (D.history disk.new) (newly_open alloc disk.new opened.logs opened.files opened.instances lanes)) }
    ensures instances { IfOk result (λ opened. IsFoundInstances opened.logs.map.meaning opened.instances) }
    ensures files { IfOk result (λ opened. IsFoundFiles opened.logs.map.meaning (D.history disk.old) opened.files) }
    ensures room { IfOk result (λ opened. (opened.room.boxes ≡ length opened.logs.boxes.items) × (opened.room.records ≡ length opened.logs.map.meaning.records)) }
    ensures opened { IfOk result (λ opened. IsOpenedAs (D.history disk.old) opened.logs.map.meaning (indexes_of opened.logs.boxes.items)) }
    ensures shows { IfOk result (λ opened. (lists : Lists) → IsSettledFor lists (D.history disk.old) → ShowLists opened.logs.map.meaning.boxes (indexes_of opened.logs.boxes.items) lists) }
    ensures settled_again { NoFailedChange (IsErrOf result OpenError.DiskFault) (D.faults disk.old) (D.faults disk.new) → (lists : Lists) → IsSettledFor lists (D.history disk.old) → IsSettledFor lists (D.history disk.new) }
    ensures carried { NoFailedChange (IsErrOf result OpenError.DiskFault) (D.faults disk.old) (D.faults disk.new) → Between CarriesAll (D.history disk.old) (D.history disk.new) }
    ensures swept { IfOk result (λ opened. (generation : ℕ) × (opened.logs.map_log.name ≡ file.Map generation) × IsSwept generation opened.logs.map.meaning (D.history disk.old) (D.history disk.new)) }
    ensures any_moment { (lists : Lists) → IsSettledFor lists (D.history disk.old) → EachImage (λ _ image. Safe image lists) (D.history disk.old) (D.history disk.new) }
    ensures mail_stays { KeepsOpenedMail (D.history disk.old) (D.history disk.new) }
    ensures closed_well { IdleIf IsClosedWell (D.history disk.old) (D.history disk.new) }
    ensures refused { IfErr result (IsOpeningError (D.history disk.old)) }
    ensures idle { IfErr result (λ error. (error ≡ OpenError.DiskFault → ⊥) → IsIdle (D.history disk.old) (D.history disk.new)) }
    ensures untouched { IdleUnless Opening (D.history disk.old) (D.history disk.new) }
    ensures fault { AnyFaultCounted (IsErrOf result OpenError.DiskFault) (D.faults disk.old) (D.faults disk.new) }
    ensures unfailed { (IsErrOf result OpenError.DiskFault → ⊥) → NoFault (D.faults disk.old) (D.faults disk.new) }
{
    let checked = check_store(alloc, disk)?;
    let boxes = Vec::with_capacity(alloc, checked.boxes.as_slice().len())?;
    let room = StoreRoom::of(alloc, checked.map.boxes(), checked.map.rows())?;
    named_instances_are_sound();
    let instances = find_instances(alloc, checked.id, &checked.map)?;
    highest_file_is_named();
    let files = find_files(alloc, disk, checked.id, &checked.map)?;
    let logs = sweep(alloc, disk, checked, boxes)?;
    listings_are_shown();
    counts_cover_listings();
    swept_files_are_known();
    meanings_are_sound();
    Ok(OpenParts {
        logs,
        files,
        instances,
        room,
    })
}

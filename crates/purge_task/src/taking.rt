// What a purge takes at its first event: memory, the files that it empties, and a number for each target.
ghost use Rattle.std.specs.Prelude.{◌≡◌, ◌≤◌, ◌<◌, ◌+◌, ◌*◌, ◌||◌, ℕ, IfSome, true, false, length, Some, None, IfOk, IfErr, IsErr, OnOk};
ghost use Rattle.disk_model.specs.Disk.{Grows, IfTold, Keeps};
ghost use Rattle.disk_model.specs.FaultCounts.{NoFault, ChangeFaultCounted};
ghost use Rattle.disk_model.specs.declared.name.FileName.TheVariants.{Mail};
ghost use Rattle.mdbox_base.specs.declared.replies.Refusal.TheVariants as refusal;
ghost use Rattle.model_kept.specs.Kept.{MailIsKept};
ghost use Rattle.model_lists.specs.Lists.{Lists};
ghost use Rattle.model_store.specs.Settled.{IsSettledFor, Leaves};
ghost use Rattle.storage_files.specs.Files.{changed_in, end_in, ending_at, is_emptied_in, is_taken_in, placing_begun, released_in};
ghost use Rattle.storage_files.specs.OnDisk.{OthersAreNamed};
ghost use Rattle.store_core.specs.Dues.{KeepsStored};
ghost use Rattle.purge_task.specs.Keeping.{target_header};
ghost use Rattle.purge_task.specs.Reserved.{IsNewWork};
ghost use Rattle.purge_task.specs.Taken.{CanRelease, CanTake, CanTakeAll, all_released, taken_to_empty, source_released, source_taken, take_all, target_drawn, targets_given, with_target};

use crate::finding::{Found, TARGET_HEADER};
use crate::switching::release_target;
use crate::work::{Source, Work, entry_size};
use disk_model::Disk;
use mdbox_base::{FileNo, NoMemory, Refusal};
use storage_files::Take;
use store_core::Store;

/// Takes all memory that a purge of these files needs, its own and the store's.
pub fn reserve<D: Disk>(store: &mut Store<D>, found: &Found) -> Result<Work, NoMemory>
    requires { found.now.most ≤ 4294967295 }
    ensures work { IfOk result (IsNewWork found.now) }
    ensures spare { OnOk result (found.now.targets ≤ store.new.files.spare) }
    ensures room { OnOk result (17 + 8 * found.now.most + 5 ≤ store.new.map_log.room) }
    ensures same { store.new ≡ record store.old { files = record store.old.files { spare = store.new.files.spare }; map_log = record store.old.map_log { room = store.new.map_log.room } } }
    ensures no_less { (store.old.files.spare ≤ store.new.files.spare) × (store.old.map_log.room ≤ store.new.map_log.room) }
{
    let work = Work::of(store.alloc(), found)?;
    store.reserve(found.targets)?;
    store.reserve_entry(entry_size(found.most))?;
    Ok(work)
}

/// Takes the files, and draws a number for each target.
pub fn take_files<D: Disk>(store: &mut Store<D>, sources: &mut [Source])
    requires { CanTakeAll store.old sources.old }
    ensures store { store.new ≡ take_all sources.old store.old }
    ensures sources { sources.new ≡ targets_given store.old.files.highest sources.old }
{
    for source in sources.iter_mut() {
        take_source(store, source);
    }
}

/// Takes a file, and draws a number for its target if a message of it is wanted.
fn take_source<D: Disk>(store: &mut Store<D>, source: &mut Source)
    requires free { CanTake store.old.files.files source.old.file.0 }
    requires spare { source.old.is_wanted ≡ true → 1 ≤ store.old.files.spare }
    requires number { source.old.is_wanted ≡ true → store.old.files.highest < 4294967294 }
    ensures store { store.new ≡ source_taken store.old source.old }
    ensures source { source.new ≡ with_target store.old.files.highest source.old }
{
    store.take_file(source.file);
    if source.is_wanted {
        source.target = Some(take_target(store));
    }
}

/// Takes a new file, for which there is a number.
fn take_target<D: Disk>(store: &mut Store<D>) -> FileNo
    requires spare { 1 ≤ store.old.files.spare }
    requires number { store.old.files.highest < 4294967294 }
    ensures target { result.0 ≡ store.old.files.highest + 1 }
    ensures store { store.new ≡ target_drawn store.old }
{
    match store.take_new() {
        Take::New(target) => target,
        _ => unreachable!(),
    }
}

/// Makes a target, to which messages are then added in pieces. A change of the disk that fails stops the store.
pub fn make_target<D: Disk>(store: &mut Store<D>, target: FileNo) -> Result<(), Refusal>
    requires running { store.old.stopped ≡ false }
    requires taken { is_taken_in target.0 store.old.files.files ≡ true }
    requires absent { end_in target.0 store.old.files.files ≡ None }
    ensures any_moment { (lists : Lists) → IsSettledFor lists (D.history store.old.disk) → Leaves lists lists (D.history store.old.disk) (D.history store.new.disk) }
    ensures mail_stays { MailIsKept store.old.map (D.history store.old.disk) (D.history store.new.disk) }
    ensures settled { OnOk result ((lists : Lists) → IsSettledFor lists (D.history store.old.disk) → IsSettledFor lists (D.history store.new.disk)) }
    ensures made { OnOk result (IfTold (D.history store.new.disk) (λ now. Keeps (now (Mail target.0)) target_header)) }
    ensures others { OnOk result (OthersAreNamed (Mail target.0) (D.history store.old.disk) (D.history store.new.disk)) }
    ensures stored { OnOk result (KeepsStored (D.history store.old.disk) (D.history store.new.disk)) }
    ensures ok { OnOk result (store.new ≡ record store.old { disk = store.new.disk; files = record store.old.files { files = changed_in target.0 placing_begun (changed_in target.0 (ending_at 9) store.old.files.files) } }) }
    ensures refused { IfErr result (λ why. (why ≡ refusal.Stopped) × (store.new ≡ record store.old { disk = store.new.disk; stopped = true })) }
    ensures grows { Grows (D.history store.old.disk) (D.history store.new.disk) }
    ensures fault { ChangeFaultCounted (IsErr result) (D.faults store.old.disk) (D.faults store.new.disk) }
    ensures unfailed { OnOk result (NoFault (D.faults store.old.disk) (D.faults store.new.disk)) }
{
    match store.make_file(target, TARGET_HEADER) {
        Ok(()) => {
            let _offset = store.begin_place(target);
            Ok(())
        }
        Err(_) => Err(Refusal::Stopped),
    }
}

/// Gives back files that are still taken, and their targets, unless the store is stopped.
pub fn give_back<D: Disk>(store: &mut Store<D>, sources: &[Source])
    requires { store.old.stopped ≡ false → CanRelease sources.now store.old.files.files }
    ensures stopped { store.old.stopped ≡ true → store.new ≡ store.old }
    ensures running { store.old.stopped ≡ false → store.new ≡ record store.old { files = record store.old.files { files = all_released sources.now store.old.files.files } } }
{
    if store.stopped() {
        return;
    }
    for source in sources {
        release_source(store, source);
    }
}

/// Gives back a file and its target.
fn release_source<D: Disk>(store: &mut Store<D>, source: &Source)
    requires taken { (is_taken_in source.now.file.0 store.old.files.files || is_emptied_in source.now.file.0 store.old.files.files) ≡ true }
    requires target { IfSome source.now.target (λ t. is_taken_in t.0 (released_in source.now.file.0 store.old.files.files) ≡ true) }
    ensures { store.new ≡ record store.old { files = record store.old.files { files = source_released store.old.files.files source.now } } }
{
    store.release(source.file);
    release_target(store, source.target);
}

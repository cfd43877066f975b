// The switch of a storage file: from then on the map names copies in place of its regions.
ghost use Rattle.std.specs.Prelude.{◌≡◌, ◌≢◌, ◌≤◌, ◌<◌, ◌+◌, ◌*◌, ◌∷◌, ◌++◌, ◌⊎◌, [], ℕ, List, true, false, length, AllPairs, vec_len, vec_capacity, ◌==◌, Some, IfSome, IfOk, IfErr, IsErr, OnOk, OnErr};
ghost use Rattle.disk_model.specs.Disk.{Grows};
ghost use Rattle.disk_model.specs.FaultCounts.{NoFault, ChangeFaultCounted};
ghost use Rattle.mdbox_base.specs.declared.replies.Refusal.TheVariants as refusal;
ghost use Rattle.model_kept.specs.Kept.{MailIsKept};
ghost use Rattle.model_lists.specs.Lists.{Lists};
ghost use Rattle.model_logs.specs.Entries.{map_text};
ghost use Rattle.model_meaning.specs.MapMeaning.{MapRecord, map_applied, record_at};
ghost use Rattle.model_meaning.specs.Sound.{IsSoundMap};
ghost use Rattle.model_store.specs.Settled.{IsSettledFor, Leaves};
ghost use Rattle.store_core.specs.Dues.{IsSpared, KeepsStored, due_at, leak_at};
ghost use Rattle.storage_files.specs.Files.{changed_in, is_taken_in, made_doomed, pins_in};
ghost use Rattle.store_core.specs.Keeping.{KeepsFirm, KeepsMail};
ghost use Rattle.purge_task.specs.Claims.{sources_left};
ghost use Rattle.purge_task.specs.Found.{messages_in};
ghost use Rattle.purge_task.specs.Switched.{AreDropped, AreMoved, AreUnwanted, IsSwitchEntry, IsFirst, IsListable, IsSourceListed, IsPlacingIn, IsReadyAppend, IsReadyToSwitch, IsSwitched, KeepsButTarget, KeepsTarget, ReadsMail, SpendsFirst, dropped_count, is_wanted_at, switch_entry, target_released, target_synced};
ghost use Rattle.purge_task.specs.declared.work.Source.{Source as SourceValue};

use crate::work::{Source, Work};
use disk_model::Disk;
use log_records::map_entry_size;
use map_index::MapIndex;
use map_rows::MapRow;
use mdbox_base::{FileNo, MapEntry, MapPlace, MapUid, Refusal, Seq};
use std::alloc::Global;
use std::mem;
use store_core::Store;

/// Whether a file that was switched has no pin left, so that it is to be removed, and how many messages were dropped.
#[derive(Clone, Copy, Debug, PartialEq, Eq)]
pub struct Switched {
    pub is_unpinned: bool,
    pub dropped: u64,
}

/// Switches the present file: what was copied is synced, the records move by the counts that they have now, the file is doomed,
/// and its target given back. A change of the disk that fails stops the store.
pub fn switch<D: Disk>(store: &mut Store<D>, work: &mut Work) -> Result<Switched, Refusal>
    requires running { store.old.stopped ≡ false }
    requires ready { (source : SourceValue) × (left : List SourceValue) × (sources_left work.old ≡ source ∷ left) × IsReadyToSwitch source work.old store.old (D.history store.old.disk) }

    // Of a settled disk each image at every moment is safe for its lists, whichever call fails; and after Ok it is settled for them still.
    ensures any_moment { (lists : Lists) → IsSettledFor lists (D.history store.old.disk) → Leaves lists lists (D.history store.old.disk) (D.history store.new.disk) }
    ensures mail_stays { MailIsKept store.old.map (D.history store.old.disk) (D.history store.new.disk) }
    ensures settled { OnOk result ((lists : Lists) → IsSettledFor lists (D.history store.old.disk) → IsSettledFor lists (D.history store.new.disk)) }

    // After Ok the map means what it did, with an entry that moves what is wanted and drops what isn't.
    ensures switched { IfOk result (λ switched. (source : SourceValue) (left : List SourceValue) → sources_left work.old ≡ source ∷ left → IsSwitched source switched store.old store.new) }
    ensures due { OnOk result ((uid : ℕ) → due_at uid store.new ≡ due_at uid store.old) }
    ensures leak { OnOk result ((uid : ℕ) → leak_at uid store.new ≡ leak_at uid store.old) }
    ensures stored { OnOk result (KeepsStored (D.history store.old.disk) (D.history store.new.disk)) }
    ensures spared { OnOk result ((uid : ℕ) (row : MapRecord) → record_at store.old.map uid ≡ Some row → 1 ≤ row.count → IsSpared uid row store.new (D.history store.old.disk) (D.history store.new.disk)) }
    ensures others { OnOk result (ReadsMail (D.history store.old.disk) (D.history store.new.disk)) }
    ensures kept { OnOk result ((source : SourceValue) (left : List SourceValue) → sources_left work.old ≡ source ∷ left → KeepsButTarget source.target (D.history store.old.disk) (D.history store.new.disk)) }
    ensures firm { OnOk result (KeepsFirm store.old store.new (D.history store.old.disk) (D.history store.new.disk)) }
    ensures room { store.old.map_log.room ≤ store.new.map_log.room }
    ensures further { OnOk result (store.old.map_log.end < store.new.map_log.end) }
    ensures mailboxes { store.new.map.boxes ≡ store.old.map.boxes }
    ensures refused { IfErr result (λ why. (why ≡ refusal.Stopped) × (store.new.stopped ≡ true)) }
    ensures err { OnErr result (store.new ≡ record store.old { disk = store.new.disk; map_log = store.new.map_log; files = store.new.files; stopped = true }) }
    ensures stopped_files { store.new.stopped ≡ true → (source : SourceValue) (left : List SourceValue) → sources_left work.old ≡ source ∷ left → (store.new.files ≡ store.old.files) ⊎ (store.new.files ≡ record store.old.files { files = target_synced source.target store.old.files.files }) }

    // The lists of the file are spent. What is left behind it is as it was.
    ensures work { (source : SourceValue) (left : List SourceValue) → sources_left work.old ≡ source ∷ left → (spent : SourceValue) × (sources_left work.new ≡ spent ∷ left) × (spent.file ≡ source.file) × (spent.target ≡ source.target) }
    ensures same { work.new ≡ record work.old { sources = work.new.sources; text = work.new.text } }
    ensures text { length work.new.text.items ≡ length work.old.text.items }

    ensures grows { Grows (D.history store.old.disk) (D.history store.new.disk) }
    ensures fault { ChangeFaultCounted (IsErr result) (D.faults store.old.disk) (D.faults store.new.disk) }
    ensures unfailed { OnOk result (NoFault (D.faults store.old.disk) (D.faults store.new.disk)) }
{
    let Some(present) = work.present() else {
        unreachable!()
    };
    sync_target(store, present.target)?;
    store.facts();
    store.map().known_facts();
    let entry = make_entry(store.map(), work);
    let dropped = count_dropped(&entry);
    let is_unpinned = append(store, &mut work.text, present.file, &entry)?;
    release_target(store, present.target);
    Ok(Switched {
        is_unpinned,
        dropped,
    })
}

/// Syncs what was placed in a target.
fn sync_target<D: Disk>(store: &mut Store<D>, target: Option<FileNo>) -> Result<(), Refusal>
    requires running { store.old.stopped ≡ false }
    requires placing { IsPlacingIn target store.old }
    ensures any_moment { (lists : Lists) → IsSettledFor lists (D.history store.old.disk) → Leaves lists lists (D.history store.old.disk) (D.history store.new.disk) }
    ensures mail_stays { MailIsKept store.old.map (D.history store.old.disk) (D.history store.new.disk) }
    ensures settled { OnOk result ((lists : Lists) → IsSettledFor lists (D.history store.old.disk) → IsSettledFor lists (D.history store.new.disk)) }
    ensures reads { OnOk result (ReadsMail (D.history store.old.disk) (D.history store.new.disk)) }
    ensures kept { OnOk result (KeepsButTarget target (D.history store.old.disk) (D.history store.new.disk)) }
    ensures held { OnOk result (KeepsTarget target (D.history store.old.disk) (D.history store.new.disk)) }
    ensures stored { OnOk result (KeepsStored (D.history store.old.disk) (D.history store.new.disk)) }
    ensures firm { OnOk result (KeepsFirm store.old store.new (D.history store.old.disk) (D.history store.new.disk)) }
    ensures ok { OnOk result (store.new ≡ record store.old { disk = store.new.disk; files = record store.old.files { files = target_synced target store.old.files.files } }) }
    ensures refused { IfErr result (λ why. (why ≡ refusal.Stopped) × (store.new ≡ record store.old { disk = store.new.disk; stopped = true })) }
    ensures grows { Grows (D.history store.old.disk) (D.history store.new.disk) }
    ensures fault { ChangeFaultCounted (IsErr result) (D.faults store.old.disk) (D.faults store.new.disk) }
    ensures unfailed { OnOk result (NoFault (D.faults store.old.disk) (D.faults store.new.disk)) }
{
    let Some(target) = target else {
        return Ok(());
    };
    match store.end_place(target) {
        Ok(_octets) => Ok(()),
        Err(_) => Err(Refusal::Stopped),
    }
}

/// Gives a target back.
pub fn release_target<D: Disk>(store: &mut Store<D>, target: Option<FileNo>)
    requires { IfSome target (λ t. is_taken_in t.0 store.old.files.files ≡ true) }
    ensures { store.new ≡ record store.old { files = record store.old.files { files = target_released target store.old.files.files } } }
{
    if let Some(target) = target {
        store.release(target);
    }
}

/// The entry that switches the present file. Its lists are spent for it.
fn make_entry(map: &MapIndex, work: &mut Work) -> MapEntry
    requires sound { IsSoundMap map.now.meaning }
    requires listable { IsFirst (sources_left work.old) (IsListable map.now.meaning) }
    ensures entry { IsFirst (sources_left work.old) (λ source. IsSwitchEntry map.now.meaning source result) }
    ensures spent { SpendsFirst (sources_left work.old) (sources_left work.new) }
    ensures same { work.new ≡ record work.old { sources = work.new.sources } }
{
    let alloc = work.alloc;
    let next = work.next;
    spend(map, alloc, &mut work.sources[next])
}

fn spend(map: &MapIndex, alloc: Global, source: &mut Source) -> MapEntry
    requires sound { IsSoundMap map.now.meaning }
    requires listable { IsListable map.now.meaning source.old }
    ensures entry { IsSwitchEntry map.now.meaning source.old result }
    ensures same { source.new ≡ record source.old { copied = source.new.copied; dropped = source.new.dropped } }
{
    list_records(map, source);
    take_entry(alloc, source)
}

/// The entry that moves and drops what is listed of a source. The lists are spent for it.
fn take_entry(alloc: Global, source: &mut Source) -> MapEntry
    ensures entry { result ≡ switch_entry source.old }
    ensures same { source.new ≡ record source.old { copied = source.new.copied; dropped = source.new.dropped } }
{
    let target = match source.target {
        Some(target) if !source.copied.is_empty() => target.0,
        _ => 0,
    };
    MapEntry::P {
        file: source.file,
        target,
        moved: Seq::of(mem::replace(&mut source.copied, Vec::new(alloc))),
        dropped: Seq::of(mem::replace(&mut source.dropped, Vec::new(alloc))),
    }
}

/// How many messages an entry drops.
fn count_dropped(entry: &MapEntry) -> u64
    ensures { result ≡ dropped_count entry.now }
{
    match entry {
        MapEntry::P { dropped, .. } => dropped.length() as u64,
        _ => 0,
    }
}

/// Appends the entry, and answers whether the file has no pin.
fn append<D: Disk>(
    store: &mut Store<D>,
    text: &mut [u8],
    file: FileNo,
    entry: &MapEntry,
) -> Result<bool, Refusal>
    requires running { store.old.stopped ≡ false }
    requires ready { IsReadyAppend file.0 entry.now store.old (D.history store.old.disk) }
    requires text { length (map_text entry.now) ≤ length text.old }
    ensures any_moment { (lists : Lists) → IsSettledFor lists (D.history store.old.disk) → Leaves lists lists (D.history store.old.disk) (D.history store.new.disk) }
    ensures mail_stays { MailIsKept store.old.map (D.history store.old.disk) (D.history store.new.disk) }
    ensures settled { OnOk result ((lists : Lists) → IsSettledFor lists (D.history store.old.disk) → IsSettledFor lists (D.history store.new.disk)) }
    ensures taken { OnOk result (store.new.map ≡ map_applied entry.now store.old.map) }
    ensures due { (uid : ℕ) → due_at uid store.new ≡ due_at uid store.old }
    ensures leak { (uid : ℕ) → leak_at uid store.new ≡ leak_at uid store.old }
    ensures mailboxes { store.new.map.boxes ≡ store.old.map.boxes }
    ensures stored { OnOk result (KeepsStored (D.history store.old.disk) (D.history store.new.disk)) }
    ensures spared { OnOk result ((uid : ℕ) (row : MapRecord) → record_at store.old.map uid ≡ Some row → 1 ≤ row.count → IsSpared uid row store.new (D.history store.old.disk) (D.history store.new.disk)) }
    ensures others { OnOk result (KeepsMail (D.history store.old.disk) (D.history store.new.disk)) }
    ensures firm { OnOk result (KeepsFirm store.old store.new (D.history store.old.disk) (D.history store.new.disk)) }
    ensures unpinned { IfOk result (λ unpinned. unpinned ≡ (pins_in file.0 store.old.files.files == 0)) }
    ensures room { store.old.map_log.room ≤ store.new.map_log.room }
    ensures further { OnOk result (store.old.map_log.end < store.new.map_log.end) }
    ensures ok { OnOk result (store.new ≡ record store.old { disk = store.new.disk; map_log = store.new.map_log; map = store.new.map; files = record store.old.files { files = changed_in file.0 made_doomed store.old.files.files }; dues = store.new.dues }) }
    ensures refused { IfErr result (λ why. (why ≡ refusal.Stopped) × (store.new ≡ record store.old { disk = store.new.disk; map_log = store.new.map_log; stopped = true })) }
    ensures grows { Grows (D.history store.old.disk) (D.history store.new.disk) }
    ensures fault { ChangeFaultCounted (IsErr result) (D.faults store.old.disk) (D.faults store.new.disk) }
    ensures unfailed { OnOk result (NoFault (D.faults store.old.disk) (D.faults store.new.disk)) }
{
    let size = map_entry_size(entry);
    match store.switch_file(file, entry, &mut text[..size]) {
        Ok(is_unpinned) => Ok(is_unpinned),
        Err(_) => Err(Refusal::Stopped),
    }
}

/// Lists the records of a file in order of map uid: those that were copied and are still wanted, and those that aren't.
fn list_records(map: &MapIndex, source: &mut Source)
    requires sound { IsSoundMap map.now.meaning }
    requires once { AllPairs (λ a b. a.uid.0 ≢ b.uid.0) source.old.copied.items }
    requires room { messages_in map.now.meaning source.old.file.0 ≤ vec_capacity source.old.dropped }
    requires undropped { source.old.dropped.items ≡ [] }
    ensures { IsSourceListed map.now.meaning source.old source.new }
{
    list_moved(map, &mut source.copied);
    list_dropped(map, source.file, &mut source.dropped);
}

/// Keeps the copies of those messages that are still wanted, in order of map uid.
fn list_moved(map: &MapIndex, copied: &mut Vec<MapPlace>)
    requires once { AllPairs (λ a b. a.uid.0 ≢ b.uid.0) copied.old.items }
    ensures { AreMoved map.now.meaning copied.old.items copied.new.items }
{
    copied.retain(|place| is_wanted(map, place.uid));
    copied.sort_unstable_by_key(|place| place.uid.0);
}

/// Whether a message is wanted.
fn is_wanted(map: &MapIndex, uid: MapUid) -> bool
    ensures { result ≡ is_wanted_at map.now.meaning uid.0 }
{
    match map.row(uid) {
        Some(row) => row.count > 0,
        None => false,
    }
}

/// Lists the messages of a file that aren't wanted, in order of map uid.
fn list_dropped(map: &MapIndex, file: FileNo, dropped: &mut Vec<MapUid>)
    requires sound { IsSoundMap map.now.meaning }
    requires room { messages_in map.now.meaning file.0 ≤ vec_capacity dropped.old }
    requires empty { dropped.old.items ≡ [] }
    ensures { AreDropped map.now.meaning file.0 dropped.new.items }
{
    find_unwanted(map, file, dropped);
    dropped.sort_unstable_by_key(|uid| uid.0);
}

/// Lists the messages of a file that aren't wanted, in order of offset.
fn find_unwanted(map: &MapIndex, file: FileNo, dropped: &mut Vec<MapUid>)
    requires sound { IsSoundMap map.now.meaning }
    requires room { messages_in map.now.meaning file.0 ≤ vec_capacity dropped.old }
    requires empty { dropped.old.items ≡ [] }
    ensures { AreUnwanted map.now.meaning file.0 dropped.new.items }
{
    let mut from = 0;
    while let Some(row) = map.in_file(file, from) {
        add_unwanted(dropped, row);
        from = row.offset + row.size;
    }
}

/// Lists a message if it isn't wanted.
fn add_unwanted(dropped: &mut Vec<MapUid>, row: MapRow)
    requires { vec_len dropped.old < vec_capacity dropped.old }
    ensures unwanted { row.count ≡ 0 → dropped.new.items ≡ dropped.old.items ++ row.uid ∷ [] }
    ensures wanted { (row.count ≡ 0 → ⊥) → dropped.new.items ≡ dropped.old.items }
    ensures capacity { vec_capacity dropped.new ≡ vec_capacity dropped.old }
{
    if row.count == 0 {
        dropped.push_reserved(row.uid);
    }
}

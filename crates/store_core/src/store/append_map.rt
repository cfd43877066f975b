// Appends to the map log.
ghost use Rattle.std.specs.Prelude.{◌≡◌, ◌↔◌, ◌⊎◌, ◌<◌, ◌≤◌, ◌+◌, ◌++◌, ◌∷◌, [], ℕ, List, All, Some, MatchOption, IfOk, IfSome, IfNone, OnOk, OnErr, IsErr, IsErrOf, true, false, length, vec_len, vec_capacity};
ghost use Rattle.disk_model.specs.Disk.{EachImage, Grows, OthersStay, SameButFor};
ghost use Rattle.disk_model.specs.FaultCounts.{NoFault, ChangeFaultCounted};
ghost use Rattle.gate_log.specs.Log.{Reads, Holds};
ghost use Rattle.gate_log.specs.State.{IsSameLog};
ghost use Rattle.map_index.specs.Needs.{TakesMemory};
ghost use Rattle.mdbox_base.specs.Words.{IsNumber, IsOctets};
ghost use Rattle.model_appends.specs.Amounts.{due_by, leak_by};
ghost use Rattle.model_kept.specs.Kept.{MailIsKept};
ghost use Rattle.model_lists.specs.Lists.{Lists};
ghost use Rattle.model_logs.specs.Entries.{map_text, MapInRange};
ghost use Rattle.model_meaning.specs.MapFits.{MapFits, HasRecord};
ghost use Rattle.model_meaning.specs.MapMeaning.{MapMeaning, MapRecord, map_applied, record_at, record_made};
ghost use Rattle.model_store.specs.Settled.{IsSettledFor, Leaves};
ghost use Rattle.store_core.specs.Append.{AddsText};
ghost use Rattle.store_core.specs.Dues.{due_at, listed_at, leak_at, IsSpared, KeepsStored};
ghost use Rattle.store_core.specs.Files.{LiesBelowEnd};
ghost use Rattle.store_core.specs.Keeping.{KeepsFirm, KeepsMail};
ghost use Rattle.store_core.specs.MapAppend.{IsAppendable, HasDrawnNumbers, FitsDue, HasRegion, NamesFirm, NamesKnown, NamesFirst, IsReadyToStore, drawn_by, IsLongEntry, HasOctetIds, IsLaidOut, IsSpareCopy};
ghost use Rattle.store_core.specs.Value.{entry_room};
ghost use Rattle.store_core.specs.declared.error.StepError.TheVariants as step_error;

use super::Store;
use crate::due::change_dues;
use crate::error::StepError;
use disk_model::Disk;
use gate_log::{DiskFault, GateLog};
use log_records::{map_entry_size, put_map_entry};
use map_index::MapIndex;
use mdbox_base::{Highest, MapEntry, MapUid, NoMemory, Octets, Seq};
use std::alloc::Global;

/// How many octets an entry has at the most that is laid out without memory.
const SHORT: usize = 64;

/// How many octets an entry has at the most that is laid out as it is added: one that names a mailbox.
const LONGEST: usize = 265;

/// The greatest map uid.
const LAST_UID: u32 = 4_294_967_294;

/// The memory that was taken for an entry before anything is written.
#[derive(Drop)]
struct EntryRoom {
    /// The octets of an entry that isn't short.
    text: Option<Octets>,
    /// The entry once more, where it makes something.
    copy: Option<MapEntry>,
}

impl<D: Disk> Store<D> {
    /// The map uid of the next message that is stored. None if and only if there is none left.
    pub fn next_map_uid(&self) -> Option<MapUid>
        ensures some { IfSome result (λ uid. (uid.0 ≡ self.now.drawn.map + 1) × IsNumber uid.0) }
        ensures none { IfNone result (4294967294 ≤ self.now.drawn.map) }
    {
        if self.drawn.map < LAST_UID {
            Some(MapUid(self.drawn.map + 1))
        } else {
            None
        }
    }

    /// A record of which something is due is there, and its count can fall.
    pub fn known_dues(&self)
        ensures { (uid : ℕ) → 1 ≤ due_at uid self.now → HasRecord self.now.map uid (λ row. 1 ≤ row.count) }
    {
        let _ = &self.dues;
    }

    /// Adds an entry that fits to the map log, and takes it in. It takes memory only for a message that is stored or an entry
    /// of more than 64 octets, and before anything is written; a change of the disk that fails stops the store.
    pub fn append_map(&mut self, entry: &MapEntry) -> Result<(), StepError>
        requires running { self.old.stopped ≡ false }
        requires range { MapInRange entry.now }
        requires kind { IsAppendable entry.now }
        requires fits { MapFits self.old.map entry.now }
        requires drawn { HasDrawnNumbers entry.now self.old.map.store self.old.drawn }
        requires due { FitsDue entry.now (λ uid. due_at uid self.old) (λ uid. listed_at uid self.old) }
        requires below { All (LiesBelowEnd self.old.map.store self.old.files.files) (record_made entry.now) }
        requires region { HasRegion entry.now (D.history self.old.disk) }
        requires instances { NamesKnown entry.now self.old.instances.known }
        requires once { NamesFirst entry.now self.old.instances.known (D.history self.old.disk) }

        // Of a settled disk each image at every moment is safe for its lists, whichever call fails; and after Ok it is settled
        // for them still. The region of a message that is stored has to be synced, an own save to store its detached form, and what
        // it names to be such as may be named.
        ensures any_moment { (lists : Lists) → IsReadyToStore entry.now (D.history self.old.disk) → NamesFirm entry.now self.old.map (D.history self.old.disk) → IsSettledFor lists (D.history self.old.disk) → Leaves lists lists (D.history self.old.disk) (D.history self.new.disk) }
        ensures mail_stays { (m : MapMeaning) → MailIsKept m (D.history self.old.disk) (D.history self.new.disk) }
        ensures settled { OnOk result ((lists : Lists) → IsReadyToStore entry.now (D.history self.old.disk) → NamesFirm entry.now self.old.map (D.history self.old.disk) → IsSettledFor lists (D.history self.old.disk) → IsSettledFor lists (D.history self.new.disk)) }

        // After Ok the map means what it did, with the entry, and so do what is due and what leaks. Mailboxes stay.
        ensures taken { OnOk result (self.new.map ≡ map_applied entry.now self.old.map) }
        ensures drawn { OnOk result (self.new.drawn ≡ drawn_by entry.now self.old.drawn) }
        ensures due { OnOk result ((uid : ℕ) → due_at uid self.new ≡ due_by entry.now (λ other. due_at other self.old) uid) }
        ensures leak { OnOk result ((uid : ℕ) → leak_at uid self.new ≡ leak_by entry.now (λ other. leak_at other self.old) uid) }
        ensures mailboxes { self.new.map.boxes ≡ self.old.map.boxes }

        // Each record stores what it stored, and is there still; so is the one that is made. Storage files and instances are as
        // they were.
        ensures stored { OnOk result (KeepsStored (D.history self.old.disk) (D.history self.new.disk)) }
        ensures spared { OnOk result ((uid : ℕ) (row : MapRecord) → record_at self.old.map uid ≡ Some row → IsSpared uid row self.new (D.history self.old.disk) (D.history self.new.disk)) }
        ensures made { OnOk result (All (λ row. record_at self.new.map row.uid ≡ Some row) (record_made entry.now)) }
        ensures others { OnOk result (KeepsMail (D.history self.old.disk) (D.history self.new.disk)) }
        ensures firm { OnOk result (KeepsFirm self.old self.new (D.history self.old.disk) (D.history self.new.disk)) }

        // The map log grows, and its room never falls.
        ensures further { OnOk result (self.old.map_log.end < self.new.map_log.end) }
        ensures room { self.old.map_log.room ≤ self.new.map_log.room }

        ensures stopped { IsErrOf result step_error.Stopped ↔ (self.new.stopped ≡ true) }
        ensures untaken { IsErr result → (self.new.map ≡ self.old.map) × (self.new.drawn ≡ self.old.drawn) × (self.new.dues ≡ self.old.dues) }
        ensures memory { IsErrOf result step_error.NoMemory → (self.new ≡ self.old) × (TakesMemory entry.now ⊎ IsLongEntry entry.now) }
        ensures same { self.new ≡ record self.old { disk = self.new.disk; map_log = self.new.map_log; map = self.new.map; drawn = self.new.drawn; dues = self.new.dues; stopped = self.new.stopped } }
        ensures grows { Grows (D.history self.old.disk) (D.history self.new.disk) }
        ensures fault { ChangeFaultCounted (IsErrOf result step_error.Stopped) (D.faults self.old.disk) (D.faults self.new.disk) }
        ensures unfailed { OnOk result (NoFault (D.faults self.old.disk) (D.faults self.new.disk)) }
    {
        self.instances.known_facts();
        let EntryRoom { text, copy } = take_room(
            self.alloc,
            &mut self.map_log,
            &mut self.map,
            &mut self.dues,
            entry,
        )?;
        match append_entry(&mut self.map_log, &mut self.disk, entry, text) {
            Ok(()) => {
                change_dues(&self.map, &mut self.dues, entry);
                take_in(&mut self.map, entry, copy);
                self.drawn = drawn_with(self.drawn, entry);
                Ok(())
            }
            Err(DiskFault) => {
                self.stopped = true;
                Err(StepError::Stopped)
            }
        }
    }
}

/// Takes the memory for an entry, and makes room for it in the map log and beside the map's records.
fn take_room(
    alloc: Global,
    log: &mut GateLog,
    map: &mut MapIndex,
    dues: &mut Vec<u32>,
    entry: &MapEntry,
) -> Result<EntryRoom, NoMemory>
    requires range { MapInRange entry.now }
    requires kind { IsAppendable entry.now }
    requires room { entry_room ≤ log.old.room }
    ensures text { IfOk result (λ room. IsLaidOut room.text entry.now) }
    ensures ids { OnOk result (HasOctetIds entry.now) }
    ensures copy { IfOk result (λ room. IsSpareCopy room.copy entry.now map.new.room) }
    ensures space { OnOk result (TakesMemory entry.now → vec_len dues.new < vec_capacity dues.new) }
    ensures room { OnOk result (length (map_text entry.now) + 5 ≤ log.new.room) }
    ensures no_less { log.old.room ≤ log.new.room }
    ensures log { log.new ≡ record log.old { room = log.new.room } }
    ensures map { map.new.meaning ≡ map.old.meaning }
    ensures dues { dues.new.items ≡ dues.old.items }
    ensures err { OnErr result (log.new ≡ log.old) }
    ensures memory { IsErr result → TakesMemory entry.now ⊎ IsLongEntry entry.now }
{
    let text = long_text(alloc, entry)?;
    let copy = reserve_for(alloc, map, dues, entry)?;
    reserve_log(log, entry)?;
    Ok(EntryRoom { text, copy })
}

/// The octets of a long entry. None where it is short.
pub(super) fn long_text(alloc: Global, entry: &MapEntry) -> Result<Option<Octets>, NoMemory>
    requires { MapInRange entry.now }
    ensures text { IfOk result (λ text. IsLaidOut text entry.now) }
    ensures ids { OnOk result (HasOctetIds entry.now) }
    ensures memory { IsErr result → IsLongEntry entry.now }
{
    let size = map_entry_size(entry);
    if size <= SHORT {
        return Ok(None);
    }
    let mut text = vec![in alloc; 0; size]?;
    put_map_entry(&mut text, entry);
    known_octets(&text);
    Ok(Some(Octets::of(text)))
}

/// Octets are below 256.
fn known_octets(octets: &[u8])
    ensures { IsOctets octets.now }
{
    let _length = octets.len();
}

/// Makes room for what an entry makes, and hands out that entry once more. None where it makes nothing.
fn reserve_for(
    alloc: Global,
    map: &mut MapIndex,
    dues: &mut Vec<u32>,
    entry: &MapEntry,
) -> Result<Option<MapEntry>, NoMemory>
    requires kind { IsAppendable entry.now }
    ensures copy { IfOk result (λ copy. IsSpareCopy copy entry.now map.new.room) }
    ensures space { OnOk result (TakesMemory entry.now → vec_len dues.new < vec_capacity dues.new) }
    ensures map { map.new.meaning ≡ map.old.meaning }
    ensures dues { dues.new.items ≡ dues.old.items }
    ensures memory { IsErr result → TakesMemory entry.now }
{
    let MapEntry::S {
        origin,
        count,
        uid,
        file,
        offset,
        size,
        guid,
        instances,
    } = entry
    else {
        return Ok(None);
    };
    let copy = MapEntry::S {
        origin: *origin,
        count: *count,
        uid: *uid,
        file: *file,
        offset: *offset,
        size: *size,
        guid: *guid,
        instances: Seq::of(Vec::from_slice(alloc, instances.as_slice())?),
    };
    map.reserve_for(entry)?;
    dues.reserve(1)?;
    Ok(Some(copy))
}

/// Makes room in a log for the record of an entry, where it has too little.
pub(super) fn reserve_log(log: &mut GateLog, entry: &MapEntry) -> Result<(), NoMemory>
    requires range { MapInRange entry.now }
    ensures room { OnOk result (length (map_text entry.now) + 5 ≤ log.new.room) }
    ensures no_less { log.old.room ≤ log.new.room }
    ensures same { log.new ≡ record log.old { room = log.new.room } }
    ensures err { OnErr result (log.new ≡ log.old) }
    ensures memory { IsErr result → log.old.room < length (map_text entry.now) + 5 }
{
    let octets = map_entry_size(entry) + 5;
    if octets <= log.room() {
        return Ok(());
    }
    log.reserve(octets)
}

/// Adds an entry to the map log, which has room for it. Its octets are at hand, or they are few.
pub(super) fn append_entry<D: Disk>(
    log: &mut GateLog,
    disk: &mut D,
    entry: &MapEntry,
    text: Option<Octets>,
) -> Result<(), DiskFault>
    requires read { (entries : List (List ℕ)) × Reads log.old entries (D.history disk.old) }
    requires range { MapInRange entry.now }
    requires text { MatchOption text (length (map_text entry.now) ≤ 265) (λ octets. octets ≡ map_text entry.now) }
    requires room { length (map_text entry.now) + 5 ≤ log.old.room }
    ensures any_moment { AddsText log.old (map_text entry.now) (D.history disk.old) (D.history disk.new) }
    ensures others_stay { EachImage (λ _ image. OthersStay log.old.name (D.history disk.old) image) (D.history disk.old) (D.history disk.new) }
    ensures grows { Grows (D.history disk.old) (D.history disk.new) }
    ensures added { OnOk result ((entries : List (List ℕ)) → Reads log.old entries (D.history disk.old) → Reads log.new (entries ++ map_text entry.now ∷ []) (D.history disk.new)) }
    ensures held { OnOk result ((entries : List (List ℕ)) → Holds log.old entries (D.history disk.old) → Holds log.new (entries ++ map_text entry.now ∷ []) (D.history disk.new)) }
    ensures others { OnOk result (SameButFor log.old.name (D.history disk.old) (D.history disk.new)) }
    ensures fault { ChangeFaultCounted (IsErr result) (D.faults disk.old) (D.faults disk.new) }
    ensures unfailed { OnOk result (NoFault (D.faults disk.old) (D.faults disk.new)) }
    ensures log { IsSameLog log.old log.new }
    ensures further { OnOk result (log.old.end < log.new.end) }
{
    match text {
        Some(text) => log.append(disk, text.as_slice()),
        None => {
            let mut room = [0; LONGEST];
            let text = &mut room[..map_entry_size(entry)];
            put_map_entry(text, entry);
            log.append(disk, text)
        }
    }
}

/// Takes in an entry that fits: by its copy where it makes something, for which there is room.
fn take_in(map: &mut MapIndex, entry: &MapEntry, copy: Option<MapEntry>)
    requires fits { MapFits map.old.meaning entry.now }
    requires copy { IsSpareCopy copy entry.now map.old.room }
    ensures { map.new.meaning ≡ map_applied entry.now map.old.meaning }
{
    match copy {
        Some(copy) => map.take_in(copy),
        None => match map.apply(entry) {
            Ok(()) => {}
            Err(NoMemory) => unreachable!(),
        },
    }
}

/// The numbers drawn, with the map uid of a message that is stored.
fn drawn_with(drawn: Highest, entry: &MapEntry) -> Highest
    ensures { result ≡ drawn_by entry.now drawn }
{
    match entry {
        MapEntry::S { uid, .. } => Highest {
            map: uid.0,
            ..drawn
        },
        _ => drawn,
    }
}

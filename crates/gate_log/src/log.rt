// Logs on a disk.
ghost use Rattle.std.specs.Prelude.{◌≡◌, ◌≢◌, Option, Some, IsErrOf, ◌+◌, ◌-◌, ◌*◌, ◌<◌, ◌≤◌, ◌^◌, ◌++◌, ◌∷◌, [], ℕ, List, All, length, sum, max, OnOk, OnErr, IfOk, IfErr, IsErr, IsOk};
ghost use Rattle.disk_model.specs.FaultCounts.{NoFault, ChangeFaultCounted, AnyFaultCounted};
ghost use Rattle.disk_model.specs.Disk.{History, EachImage, OthersStay, SameButFor, IfTold, Keeps, reading, IsIdle};
ghost use Rattle.model_logs.specs.LogFile.{IsVersionOf, IsLog, IsLogFile};
ghost use Rattle.gate_log.specs.State.{LogState, IsSameLog};
ghost use Rattle.gate_log.specs.Log.{Reads, Holds, Drafts, cut_by, IsLogWithOrWithout, IsLogWithOrWithoutAll, IsAtMostAsLong, NamedButFor};
ghost use Rattle.gate_log.specs.Reading.{IsReading, IsOpenError};

use crate::error::{DiskFault, LogError};
use crate::found::inspect_log;
use crate::gate::OPEN;
use crate::head::{HEAD_SIZE, first_text};
use crate::layout::lay_out;
use crate::make::make_file;
use crate::read::LogRead;
use crate::room::LogRoom;
use disk_model::{Disk, FileName};
use mdbox_base::NoMemory;
use model_logs::LogHead;
use std::alloc::Global;
use std::marker::Model;

/// A log that was made or opened.
///
/// It holds no entries, only what is needed to add one, and how many there are. After a call that answered a fault it isn't used again.
#[derive(Drop)]
pub struct GateLog {
    name: FileName,
    head: LogHead,
    /// Where the last gate stands.
    end: u64,
    /// How many entries it has.
    count: u64,
    /// Where a record is laid out before it is written.
    buffer: Vec<u8>,
}

impl Model for GateLog {
    ghost use Rattle.std.specs.Prelude.{◌<◌, ◌≤◌, ◌^◌, ◌-◌, vec_len};
    ghost use Rattle.gate_log.specs.State.{LogState};

    ghost Value = { LogState };

    ghost view = { λ log. record { name = log.name; head = log.head; end = log.end; count = log.count; room = vec_len log.buffer } };

    ghost invariant = { λ log. (log.end < 2 ^ 64 - 1) × (vec_len log.buffer < 2 ^ 32) × (log.count ≤ log.end) };
}

impl GateLog {
    /// The log of so many entries whose last gate, closed, stands there with nothing behind it.
    pub(crate) fn at_rest(
        alloc: Global,
        name: FileName,
        head: LogHead,
        end: u64,
        count: u64,
    ) -> GateLog
        requires end { end < 2 ^ 64 - 1 }
        requires count { count ≤ end }
        ensures { result ≡ record { name = name; head = head; end = end; count = count; room = 0 } }
    {
        GateLog {
            name,
            head,
            end,
            count,
            buffer: Vec::new(alloc),
        }
    }

    /// What is true of every log.
    pub fn known_facts(&self)
        ensures end { self.now.end < 2 ^ 64 }
    {
        let _ = &self.end;
    }

    /// How many entries it has.
    pub fn count(&self) -> u64
        ensures { result ≡ self.now.count }
    {
        self.count
    }

    /// The generation in its head.
    pub fn generation(&self) -> u32
        ensures { result ≡ self.now.head.generation }
    {
        self.head.generation
    }

    /// How many octets of an entry, and 5 for each entry, the log can add without memory.
    pub fn room(&self) -> usize
        ensures { result ≡ self.now.room }
    {
        self.buffer.len()
    }

    /// Makes room for so many octets at least. Above 4,294,967,295 there is no memory, since no record is as long.
    pub fn reserve(&mut self, octets: usize) -> Result<(), NoMemory>
        ensures room { OnOk result (octets ≤ self.new.room) }
        ensures no_less { self.old.room ≤ self.new.room }
        ensures same { self.new ≡ record self.old { room = self.new.room } }
        ensures refused { OnErr result (self.new ≡ self.old) }
        ensures long { 4294967295 < octets → IsErr result }
        ensures enough { octets ≤ self.old.room → IsOk result }
    {
        let held = self.buffer.len();
        if octets > u32::MAX as usize {
            return Err(NoMemory);
        }
        if octets > held {
            self.buffer.resize(octets, 0)?;
        }
        Ok(())
    }

    /// Takes over room that was made before, where it is more than the log has. This takes no memory.
    pub fn take_room(&mut self, room: LogRoom)
        ensures { self.new ≡ record self.old { room = max self.old.room room } }
    {
        let buffer = room.into_buffer();
        if buffer.len() > self.buffer.len() {
            self.buffer = buffer;
        }
    }

    /// Adds an entry. At every moment, also where the device fails, a crash leaves the log with this entry or without it.
    pub fn append<D: Disk>(&mut self, disk: &mut D, entry: &[u8]) -> Result<(), DiskFault>
        requires read { (entries : List (List ℕ)) × Reads self.old entries (D.history disk.old) }
        requires some { 1 ≤ length entry.now }
        requires room { length entry.now + 5 ≤ self.old.room }

        // At every moment of the call each image has the old entries, or the old and this one.
        ensures any_moment { (entries : List (List ℕ)) → Holds self.old entries (D.history disk.old)
            → EachImage (λ _ image. IsLogWithOrWithout self.old.head entries entry.now (image self.old.name) × OthersStay self.old.name (D.history disk.old) image) (D.history disk.old) (D.history disk.new) }

        // Of the other files each image has what an image had before, also where the log's file is not as a crash leaves it.
        ensures others_stay { EachImage (λ _ image. OthersStay self.old.name (D.history disk.old) image) (D.history disk.old) (D.history disk.new) }

        // After Ok the log has this entry, and no other file has changed.
        ensures added { OnOk result ((entries : List (List ℕ)) → Reads self.old entries (D.history disk.old) → Reads self.new (entries ++ entry.now ∷ []) (D.history disk.new)) }
        ensures held { OnOk result ((entries : List (List ℕ)) → Holds self.old entries (D.history disk.old) → Holds self.new (entries ++ entry.now ∷ []) (D.history disk.new)) }
        ensures others { OnOk result (SameButFor self.old.name (D.history disk.old) (D.history disk.new)) }

        ensures fault { ChangeFaultCounted (IsErr result) (D.faults disk.old) (D.faults disk.new) }
        ensures unread { (D.faults disk.new).reads ≡ (D.faults disk.old).reads }
        ensures unfailed { OnOk result (NoFault (D.faults disk.old) (D.faults disk.new)) }
        ensures log { IsSameLog self.old self.new }
        ensures further { OnOk result (self.new.end ≡ self.old.end + (length entry.now + 5)) }
        ensures count { OnOk result (self.new.count ≡ self.old.count + 1) }
    {
        let size = self.size_of(entry);
        self.append_many(disk, entry, &[size])
    }

    /// The length of an entry for which there is room.
    fn size_of(&self, entry: &[u8]) -> u32
        requires { length entry.now + 5 ≤ self.now.room }
        ensures { result ≡ length entry.now }
    {
        let _room = self.buffer.len();
        entry.len() as u32
    }

    /// Adds entries, all or none of them: at every moment, also where the device fails, a crash leaves the log with all of
    /// them or without any. They stand one behind another in `octets`, and have these lengths.
    ///
    /// Their records and the gates behind these, open but for the last, are written behind the last gate and synced, and
    /// then that gate is opened and synced.
    pub fn append_many<D: Disk>(
        &mut self,
        disk: &mut D,
        octets: &[u8],
        lengths: &[u32],
    ) -> Result<(), DiskFault>
        requires read { (entries : List (List ℕ)) × Reads self.old entries (D.history disk.old) }
        requires many { 1 ≤ length lengths.now }
        requires some { All (λ size. 1 ≤ size) lengths.now }
        requires whole { sum lengths.now ≡ length octets.now }
        requires room { length octets.now + 5 * length lengths.now ≤ self.old.room }

        // At every moment of the call each image has the old entries, or the old and all of these.
        ensures any_moment { (entries : List (List ℕ)) → Holds self.old entries (D.history disk.old)
            → EachImage (λ _ image. IsLogWithOrWithoutAll self.old.head entries (cut_by lengths.now octets.now) (image self.old.name) × OthersStay self.old.name (D.history disk.old) image) (D.history disk.old) (D.history disk.new) }

        // Of the other files each image has what an image had before, also where the log's file is not as a crash leaves it.
        ensures others_stay { EachImage (λ _ image. OthersStay self.old.name (D.history disk.old) image) (D.history disk.old) (D.history disk.new) }

        // After Ok the log has these entries, and no other file has changed.
        ensures added { OnOk result ((entries : List (List ℕ)) → Reads self.old entries (D.history disk.old) → Reads self.new (entries ++ cut_by lengths.now octets.now) (D.history disk.new)) }
        ensures held { OnOk result ((entries : List (List ℕ)) → Holds self.old entries (D.history disk.old) → Holds self.new (entries ++ cut_by lengths.now octets.now) (D.history disk.new)) }
        ensures others { OnOk result (SameButFor self.old.name (D.history disk.old) (D.history disk.new)) }

        ensures fault { ChangeFaultCounted (IsErr result) (D.faults disk.old) (D.faults disk.new) }
        ensures unread { (D.faults disk.new).reads ≡ (D.faults disk.old).reads }
        ensures unfailed { OnOk result (NoFault (D.faults disk.old) (D.faults disk.new)) }
        ensures log { IsSameLog self.old self.new }
        ensures further { OnOk result (self.new.end ≡ self.old.end + (length octets.now + 5 * length lengths.now)) }
        ensures count { OnOk result (self.new.count ≡ self.old.count + length lengths.now) }
    {
        let size = lay_out(&mut self.buffer, octets, lengths);
        disk.write_at(self.name, self.end + 1, &self.buffer[..size])?; // behind the closed gate
        disk.sync(self.name)?; // before the gate opens on the records
        disk.write_at(self.name, self.end, &[OPEN])?;
        disk.sync(self.name)?;
        self.end += size as u64;
        self.count += lengths.len() as u64;
        Ok(())
    }

    /// Adds entries to a draft, a log that nothing needs yet, as `append_many` does, and syncs nothing: until it is
    /// settled, a crash may leave anything of its file.
    pub fn extend<D: Disk>(
        &mut self,
        disk: &mut D,
        octets: &[u8],
        lengths: &[u32],
    ) -> Result<(), DiskFault>
        requires read { (entries : List (List ℕ)) × Reads self.old entries (D.history disk.old) }
        requires many { 1 ≤ length lengths.now }
        requires some { All (λ size. 1 ≤ size) lengths.now }
        requires whole { sum lengths.now ≡ length octets.now }
        requires room { length octets.now + 5 * length lengths.now ≤ self.old.room }

        // Of the other files each image has what an image had before.
        ensures others_stay { EachImage (λ _ image. OthersStay self.old.name (D.history disk.old) image) (D.history disk.old) (D.history disk.new) }

        // After Ok the draft has these entries, and no other file has changed.
        ensures drafted { OnOk result ((entries : List (List ℕ)) → Drafts self.old entries (D.history disk.old) → Drafts self.new (entries ++ cut_by lengths.now octets.now) (D.history disk.new)) }
        ensures others { OnOk result (SameButFor self.old.name (D.history disk.old) (D.history disk.new)) }

        ensures fault { ChangeFaultCounted (IsErr result) (D.faults disk.old) (D.faults disk.new) }
        ensures unread { (D.faults disk.new).reads ≡ (D.faults disk.old).reads }
        ensures unfailed { OnOk result (NoFault (D.faults disk.old) (D.faults disk.new)) }
        ensures log { IsSameLog self.old self.new }
        ensures further { OnOk result (self.new.end ≡ self.old.end + (length octets.now + 5 * length lengths.now)) }
        ensures count { OnOk result (self.new.count ≡ self.old.count + length lengths.now) }
    {
        let size = lay_out(&mut self.buffer, octets, lengths);
        disk.write_at(self.name, self.end + 1, &self.buffer[..size])?;
        disk.write_at(self.name, self.end, &[OPEN])?;
        self.end += size as u64;
        self.count += lengths.len() as u64;
        Ok(())
    }

    /// Syncs a draft: a crash leaves it as it reads then.
    pub fn settle<D: Disk>(&self, disk: &mut D) -> Result<(), DiskFault>
        requires read { (entries : List (List ℕ)) × Drafts self.now entries (D.history disk.old) }

        // Of the other files each image has what an image had before.
        ensures others_stay { EachImage (λ _ image. OthersStay self.now.name (D.history disk.old) image) (D.history disk.old) (D.history disk.new) }

        // After Ok the disk holds the log, and no other file has changed.
        ensures held { OnOk result ((entries : List (List ℕ)) → Drafts self.now entries (D.history disk.old) → Holds self.now entries (D.history disk.new)) }
        ensures others { OnOk result (SameButFor self.now.name (D.history disk.old) (D.history disk.new)) }

        ensures fault { ChangeFaultCounted (IsErr result) (D.faults disk.old) (D.faults disk.new) }
        ensures unread { (D.faults disk.new).reads ≡ (D.faults disk.old).reads }
        ensures unfailed { OnOk result (NoFault (D.faults disk.old) (D.faults disk.new)) }
    {
        disk.sync(self.name)?;
        Ok(())
    }
}

/// A log that the disk holds, as one that was just made, is a draft.
pub fn held_logs_are_drafts()
    ensures { (log : LogState) (entries : List (List ℕ)) (history : Option History) → Holds log entries history → Drafts log entries history }
{}

/// Makes an empty log, synced, with its name. What stood in a file of that name is gone.
pub fn create_log<D: Disk>(
    alloc: Global,
    disk: &mut D,
    name: FileName,
    head: LogHead,
) -> Result<GateLog, LogError>
    requires version { IsVersionOf head.kind head.version }
    // At every moment of the call each image has in this file no more octets than it could have before, or than 26.
    ensures any_moment { EachImage (λ _ image. IfTold (D.history disk.old) (λ before. IsAtMostAsLong 26 (before name) (image name)) × OthersStay name (D.history disk.old) image) (D.history disk.old) (D.history disk.new) }
    ensures made { IfOk result (λ log. Holds log [] (D.history disk.new)) }
    ensures log { IfOk result (λ log. log ≡ record { name = name; head = head; end = 25; count = 0; room = 0 }) }
    ensures others { OnOk result (NamedButFor name (D.history disk.old) (D.history disk.new)) }
    ensures refused { IfErr result (λ error. error ≡ LogError.DiskFault) }
    ensures fault { ChangeFaultCounted (IsErr result) (D.faults disk.old) (D.faults disk.new) }
    ensures unread { (D.faults disk.new).reads ≡ (D.faults disk.old).reads }
    ensures unfailed { OnOk result (NoFault (D.faults disk.old) (D.faults disk.new)) }
{
    make_file(disk, name, &first_text(head))?;
    Ok(GateLog::at_rest(alloc, name, head, HEAD_SIZE as u64, 0))
}

/// Opens the log that has this head, and reads its entries. What stands behind its last gate is cut off, and that gate is
/// closed where it isn't.
pub fn open_log<D: Disk>(
    alloc: Global,
    disk: &mut D,
    name: FileName,
    head: LogHead,
) -> Result<(GateLog, LogRead), LogError>
    requires version { IsVersionOf head.kind head.version }
    // At every moment of the call each image has the same entries.
    ensures any_moment { (octets : List ℕ) (entries : List (List ℕ)) → IfTold (D.history disk.old) (λ now. Keeps (now name) octets) → IsLog octets head entries
        → EachImage (λ _ image. IsLogFile (image name) head entries × OthersStay name (D.history disk.old) image) (D.history disk.old) (D.history disk.new) }

    // Of the other files each image has what an image had before, whatever this file has.
    ensures others_stay { EachImage (λ _ image. OthersStay name (D.history disk.old) image) (D.history disk.old) (D.history disk.new) }

    // After Ok what was read is what the file had.
    ensures octets { IfOk result (λ opened. (octets : List ℕ) × IsReading octets opened.1 × IfTold (D.history disk.old) (λ now. reading (now name) ≡ Some octets)) }
    ensures log { IfOk result (λ opened. (opened.0 ≡ record { name = name; head = head; end = opened.1.end; count = length opened.1.entries; room = 0 }) × (opened.1.head ≡ head)) }
    ensures reads { IfOk result (λ opened. Reads opened.0 opened.1.entries (D.history disk.new)) }
    ensures holds { IfOk result (λ opened. (octets : List ℕ) → IfTold (D.history disk.old) (λ now. Keeps (now name) octets) → Holds opened.0 opened.1.entries (D.history disk.new)) }
    ensures others { OnOk result (SameButFor name (D.history disk.old) (D.history disk.new)) }

    ensures refused { IfErr result (IsOpenError name head (D.history disk.old)) }
    ensures idle { IfErr result (λ error. error ≢ LogError.DiskFault → IsIdle (D.history disk.old) (D.history disk.new)) }
    ensures fault { AnyFaultCounted (IsErrOf result LogError.DiskFault) (D.faults disk.old) (D.faults disk.new) }
    ensures unfailed { (IsErrOf result LogError.DiskFault → ⊥) → NoFault (D.faults disk.old) (D.faults disk.new) }
{
    let (found, read) = inspect_log(alloc, disk, name, head)?;
    let log = found.repair(alloc, disk)?;
    Ok((log, read))
}

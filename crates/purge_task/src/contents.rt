// What a storage file holds.
ghost use Rattle.std.specs.Prelude.{◌≡◌, ◌↔◌, ◌≤◌, ◌<◌, ◌+◌, ℕ, true, false, length, IsTrue, IfSome, IfNone, Some, IfOk, IfErr, OnOk, IsErr, IsErrOf};
ghost use Rattle.disk_model.specs.Disk.{IfTold, IsIdle, reading};
ghost use Rattle.disk_model.specs.FaultCounts.{NoFault, ReadFaultCounted};
ghost use Rattle.disk_model.specs.declared.name.FileName.TheVariants.{Mail};
ghost use Rattle.journal.specs.QuietPurge.{IsCleanFile};
ghost use Rattle.mdbox_base.specs.declared.replies.Refusal.TheVariants as refusal;
ghost use Rattle.model_meaning.specs.Sound.{IsSoundMap};
ghost use Rattle.model_storage.specs.StorageFile.{IsHeaderLine};
ghost use Rattle.model_storage.specs.declared.places.ScanError.TheVariants as scan_error;
ghost use Rattle.model_store.specs.Settled.{files_of};
ghost use Rattle.storage_files.specs.OnDisk.{piece_read};
ghost use Rattle.purge_task.specs.Found.{AreContents, IsFullToEnd, IsHeaderOf, IsReadRefusal, with_message};

use dbox_file::{ScanError, scan};
use disk_model::Disk;
use map_index::MapIndex;
use map_rows::MapRow;
use mdbox_base::{FileNo, Refusal};
use std::alloc::Global;
use store_core::Store;

/// How many octets a header line has at the most.
const HEADER: usize = 512;

/// What the map says of the messages of a storage file. A message is wanted if its count isn't 0.
#[derive(Clone, Copy, Debug, PartialEq, Eq)]
pub struct Contents {
    /// How many messages there are.
    pub messages: usize,
    /// How many octets the wanted ones have.
    pub wanted: u64,
    /// Where the first one begins.
    first: Option<u32>,
    /// Where the last one ends, in octets.
    end: u32,
    /// Whether each is wanted, and each begins where the one before it ends.
    is_full: bool,
}

impl Contents {
    const NONE: Contents = Contents {
        messages: 0,
        wanted: 0,
        first: None,
        end: 0,
        is_full: true,
    };

    /// Walks the messages of a file in order of offset.
    pub fn of(map: &MapIndex, file: FileNo) -> Contents
        requires { IsSoundMap map.now.meaning }
        ensures { AreContents map.now.meaning file.0 result }
    {
        let mut contents = Contents::NONE;
        while let Some(row) = map.in_file(file, contents.end) {
            contents = contents.with(row);
        }
        contents
    }

    /// With one message more.
    fn with(self, row: MapRow) -> Contents
        requires ends { row.offset + row.size ≤ 4294967295 }
        requires messages { self.messages ≤ 4294967295 }
        requires wanted { self.wanted ≤ 4294967295 }
        ensures { result ≡ with_message row self }
    {
        let is_wanted = row.count > 0;
        let follows = self.first.is_none() || row.offset == self.end;
        Contents {
            messages: self.messages + 1,
            wanted: self.wanted + if is_wanted { u64::from(row.size) } else { 0 },
            first: self.first.or(Some(row.offset)),
            end: row.offset + row.size,
            is_full: self.is_full && follows && is_wanted,
        }
    }

    /// Whether a file is clean: it is its header line, and one or more messages one directly after another, each wanted.
    pub fn is_clean<D: Disk>(&self, store: &mut Store<D>, file: FileNo) -> Result<bool, Refusal>
        requires running { store.old.stopped ≡ false }
        requires contents { AreContents store.old.map file.0 self.now }
        ensures full { IfOk result (λ clean. IsTrue clean → IsFullToEnd store.old file.0) }
        ensures clean { IfOk result (λ clean. IfTold (D.history store.old.disk) (λ now. IsTrue clean ↔ IsCleanFile (files_of now) store.old.map file.0)) }
        ensures refused { IfErr result IsReadRefusal }
        ensures same { store.new ≡ record store.old { disk = store.new.disk } }
        ensures idle { IsIdle (D.history store.old.disk) (D.history store.new.disk) }
        ensures fault { ReadFaultCounted (IsErrOf result refusal.ReadFault) (D.faults store.old.disk) (D.faults store.new.disk) }
        ensures unfailed { (IsErrOf result refusal.ReadFault → ⊥) → NoFault (D.faults store.old.disk) (D.faults store.new.disk) }
    {
        store.facts();
        match self.first_to(store.end_of(file)) {
            Some(first) => is_header(store, file, first),
            None => Ok(false),
        }
    }

    /// Where the first one begins, if they are all wanted and end at a file's end, one directly after another.
    fn first_to(&self, end: Option<u64>) -> Option<u32>
        ensures some { IfSome result (λ first. (self.now.first ≡ Some first) × (self.now.is_full ≡ true) × (end ≡ Some self.now.end)) }
        ensures none { IfNone result ((first : ℕ) → self.now.first ≡ Some first → self.now.is_full ≡ true → end ≡ Some self.now.end → ⊥) }
    {
        match (self.first, end) {
            (Some(first), Some(end)) if self.is_full && end == u64::from(self.end) => Some(first),
            _ => None,
        }
    }
}

/// Whether a file begins with a header line of so many octets.
fn is_header<D: Disk>(store: &mut Store<D>, file: FileNo, octets: u32) -> Result<bool, Refusal>
    ensures header { IfOk result (λ begins. IfTold (D.history store.old.disk) (λ now. IsTrue begins ↔ IsHeaderOf octets (reading (now (Mail file.0))))) }
    ensures refused { IfErr result IsReadRefusal }
    ensures same { store.new ≡ record store.old { disk = store.new.disk } }
    ensures idle { IsIdle (D.history store.old.disk) (D.history store.new.disk) }
    ensures fault { ReadFaultCounted (IsErrOf result refusal.ReadFault) (D.faults store.old.disk) (D.faults store.new.disk) }
    ensures unfailed { (IsErrOf result refusal.ReadFault → ⊥) → NoFault (D.faults store.old.disk) (D.faults store.new.disk) }
{
    let octets = octets as usize;
    if octets > HEADER {
        return Ok(false);
    }
    let mut room = [0; HEADER];
    let line = &mut room[..octets];
    if read_front(store, file, line)? {
        is_header_line(store.alloc(), line)
    } else {
        Ok(false)
    }
}

/// Reads the first octets of a file, as many as there is room for. False if it has fewer.
fn read_front<D: Disk>(store: &mut Store<D>, file: FileNo, into: &mut [u8]) -> Result<bool, Refusal>
    ensures whole { IfOk result (λ whole. whole ≡ true → IfTold (D.history store.old.disk) (λ now. into.new ≡ piece_read 0 (length into.new) (reading (now (Mail file.0))))) }
    ensures short { IfOk result (λ whole. whole ≡ false → IfTold (D.history store.old.disk) (λ now. length (piece_read 0 (length into.new) (reading (now (Mail file.0)))) < length into.new)) }
    ensures refused { IfErr result (λ why. why ≡ refusal.ReadFault) }
    ensures same { store.new ≡ record store.old { disk = store.new.disk } }
    ensures idle { IsIdle (D.history store.old.disk) (D.history store.new.disk) }
    ensures fault { ReadFaultCounted (IsErr result) (D.faults store.old.disk) (D.faults store.new.disk) }
    ensures unfailed { OnOk result (NoFault (D.faults store.old.disk) (D.faults store.new.disk)) }
{
    match store.read_piece(file, 0, into) {
        Ok(count) => Ok(count == into.len()),
        Err(_) => Err(Refusal::ReadFault),
    }
}

/// Whether these octets are a header line.
fn is_header_line(alloc: Global, octets: &[u8]) -> Result<bool, Refusal>
    ensures line { IfOk result (λ is. IsTrue is ↔ IsHeaderLine octets.now 30) }
    ensures refused { IfErr result (λ why. why ≡ refusal.NoMemory) }
{
    match scan(alloc, octets) {
        Ok(messages) => Ok(messages.length() == 0),
        Err(why) => {
            if lacks_memory(&why) {
                return Err(Refusal::NoMemory);
            }
            Ok(false)
        }
    }
}

fn lacks_memory(why: &ScanError) -> bool
    ensures { IsTrue result ↔ (why.now ≡ scan_error.NoMemory) }
{
    matches!(why, ScanError::NoMemory)
}

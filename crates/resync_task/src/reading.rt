// The files that a resync has listed, and reading them.
ghost use Rattle.std.specs.Prelude.{◌≡◌, ◌≤◌, ◌<◌, ◌+◌, ◌↔◌, ℕ, List, length, take, slice_get, IsTrue, IsErrOf, IfOk, OnOk, Some};
ghost use Rattle.disk_model.specs.Disk.{IfTold, IsIdle};
ghost use Rattle.disk_model.specs.FaultCounts.{NoFault, ReadFaultCounted};
ghost use Rattle.map_index.specs.Shown.{shown_record};
ghost use Rattle.model_meaning.specs.MapMeaning.{MapRecord};
ghost use Rattle.resync_task.specs.Damage.{AreDamaged, TellsWhole};
ghost use Rattle.resync_task.specs.Files.{AreRecordFiles};
ghost use Rattle.resync_task.specs.Reading.{ReadsStoreOnly};
ghost use Rattle.resync_task.specs.Window.{IsReadOf};
ghost use Rattle.resync_task.specs.declared.reading.Unread.TheVariants as unread;

use crate::files::record_files;
use crate::region::{HEADER, tail_of};
use crate::window::Window;
use disk_model::Disk;
use map_index::MapRow;
use mdbox_base::{FileNo, NoMemory};
use std::marker::Model;
use storage_files::DiskFault;
use store_core::Store;

/// The files that a resync has listed, how many of them it has read, and how many damaged regions it has found in them. With it is
/// the memory for reading, which was taken as the files were listed.
#[derive(Drop)]
pub struct Reading {
    files: Vec<u32>,
    read: usize,
    damaged: u64,
    window: Window,
}

impl Model for Reading {
    ghost use Rattle.std.specs.Prelude.{◌≡◌, ◌≤◌, ◌*◌, length};
    ghost use Rattle.resync_task.specs.Reading.{ReadingValue};

    ghost Value = { ReadingValue };

    ghost view = { λ r. record { files = r.files.items; read = r.read; damaged = r.damaged } };

    ghost invariant = { λ r. (length r.files.items ≤ 4294967295) × (r.read ≤ length r.files.items) × (r.damaged ≤ r.read * 4294967295) };
}

/// Why a file was not read to its end.
#[derive(Clone, Copy, Debug, PartialEq, Eq)]
pub enum Unread {
    /// A read failed; the disk has counted it.
    Fault,
    /// Out of memory.
    NoMemory,
}

impl From<DiskFault> for Unread {
    ghost from_gives = { λ _ error. error ≡ unread.Fault };

    fn from(_fault: DiskFault) -> Unread {
        Unread::Fault
    }
}

impl From<NoMemory> for Unread {
    ghost from_gives = { λ _ error. error ≡ unread.NoMemory };

    fn from(_error: NoMemory) -> Unread {
        Unread::NoMemory
    }
}

impl Reading {
    /// Lists the files, and takes the memory for reading.
    pub(crate) fn of<D: Disk>(store: &Store<D>) -> Result<Reading, NoMemory>
        ensures files { IfOk result (λ made. AreRecordFiles store.now.map made.files) }
        ensures few { IfOk result (λ made. length made.files ≤ 4294967295) }
        ensures unread { IfOk result (λ made. (made.read ≡ 0) × (made.damaged ≡ 0)) }
    {
        store.facts();
        let files = record_files(store.alloc(), store.map())?;
        let window = Window::of(store.alloc())?;
        Ok(Reading {
            files,
            read: 0,
            damaged: 0,
            window,
        })
    }

    /// Whether a file is left to read.
    pub(crate) fn has_more(&self) -> bool
        ensures more { IsTrue result ↔ (self.now.read < length self.now.files) }
        ensures within { self.now.read ≤ length self.now.files }
    {
        self.read < self.files.len()
    }

    /// How many damaged regions it has found.
    pub(crate) fn damaged(&self) -> u64
        ensures { result ≡ self.now.damaged }
    {
        self.damaged
    }

    /// Reads the next file.
    pub(crate) fn read_next<D: Disk>(&mut self, store: &mut Store<D>) -> Result<(), Unread>
        requires { self.old.read < length self.old.files }
        ensures found { OnOk result ((file : ℕ) × (slice_get self.old.files self.old.read ≡ Some file) × ((uids : List ℕ) × AreDamaged (D.history store.old.disk) store.old.map file uids × (self.new ≡ record { files = self.old.files; read = self.old.read + 1; damaged = self.old.damaged + length uids }))) }
        ensures within { self.new.read ≤ length self.new.files }
        ensures only { ReadsStoreOnly store.old store.new (D.history store.old.disk) (D.history store.new.disk) }
        ensures fault { ReadFaultCounted (IsErrOf result Unread.Fault) (D.faults store.old.disk) (D.faults store.new.disk) }
        ensures unfailed { (IsErrOf result Unread.Fault → ⊥) → NoFault (D.faults store.old.disk) (D.faults store.new.disk) }
    {
        let file = FileNo(self.files[self.read]);
        let found = read_file(store, &mut self.window, file)?;
        self.read += 1;
        self.damaged += u64::from(found);
        Ok(())
    }
}

/// Reads the regions of a file's records, in order of offset, and answers how many of them are damaged.
fn read_file<D: Disk>(
    store: &mut Store<D>,
    window: &mut Window,
    file: FileNo,
) -> Result<u32, Unread>
    ensures found { IfOk result (λ many. (uids : List ℕ) × (many ≡ length uids) × AreDamaged (D.history store.old.disk) store.old.map file.0 uids) }
    ensures only { ReadsStoreOnly store.old store.new (D.history store.old.disk) (D.history store.new.disk) }
    ensures fault { ReadFaultCounted (IsErrOf result Unread.Fault) (D.faults store.old.disk) (D.faults store.new.disk) }
    ensures unfailed { (IsErrOf result Unread.Fault → ⊥) → NoFault (D.faults store.old.disk) (D.faults store.new.disk) }
{
    store.facts();
    window.clear();
    let mut damaged = 0;
    let mut from = 0;
    while let Some(row) = store.map().in_file(file, from) {
        if !is_whole(store, window, row)? {
            damaged += 1;
        }
        from = row.offset + row.size;
    }
    Ok(damaged)
}

/// Whether the region of a record is its message, as the disk reads it. Of its body nothing is read: any octets are a body.
fn is_whole<D: Disk>(store: &mut Store<D>, window: &mut Window, row: MapRow) -> Result<bool, Unread>
    requires { IsReadOf (D.history store.old.disk) row.file.0 window.old }
    ensures tells { IfOk result (λ whole. (own : MapRecord) → row ≡ shown_record own → TellsWhole whole (D.history store.old.disk) own) }
    ensures has { OnOk result (IsReadOf (D.history store.new.disk) row.file.0 window.new) }
    ensures only { ReadsStoreOnly store.old store.new (D.history store.old.disk) (D.history store.new.disk) }
    ensures fault { ReadFaultCounted (IsErrOf result Unread.Fault) (D.faults store.old.disk) (D.faults store.new.disk) }
    ensures unfailed { (IsErrOf result Unread.Fault → ⊥) → NoFault (D.faults store.old.disk) (D.faults store.new.disk) }
{
    let offset = u64::from(row.offset);
    let Some(header) = window.header(store, row.file, offset)? else {
        return Ok(false);
    };
    let Some(tail) = tail_of(&header, row.size) else {
        return Ok(false);
    };
    // With the header of the message that may stand behind it.
    let wanted = tail as usize + HEADER;
    window.load(store, row.file, offset + u64::from(row.size - tail), wanted)?;
    let is = window.ends_message(store.alloc(), &header, tail as usize, row.guid)?;
    Ok(is)
}

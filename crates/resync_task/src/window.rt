// A window over a storage file.
ghost use Rattle.std.specs.Prelude.{◌≡◌, ◌≤◌, ◌<◌, ◌+◌, ◌↔◌, [], ◌++◌, length, take, drop, IsTrue, IsErrOf, IfOk, OnOk, IfSome, IfNone};
ghost use Rattle.disk_model.specs.FaultCounts.{NoFault, ReadFaultCounted};
ghost use Rattle.resync_task.specs.Damage.{IsMessageWith};
ghost use Rattle.resync_task.specs.Reading.{ReadsStoreOnly};
ghost use Rattle.resync_task.specs.Window.{EndsBefore, HasHeader, IsReadOf, IsHeaderAt, IsPieceAt, bodiless_header};

use crate::reading::Unread;
use crate::region::{HEADER, bodiless, is_message_of};
use disk_model::Disk;
use mdbox_base::{FileNo, Guid, NoMemory};
use std::alloc::Global;
use std::marker::Model;
use store_core::Store;

/// How many octets a window has room for as it is made.
const ROOM: usize = 65_536;

/// A window over a storage file: what was read of it last.
#[derive(Drop)]
pub(crate) struct Window {
    /// Room for a header, and then octets of the file: so the end of a region stands behind its header here.
    octets: Vec<u8>,
    /// How many octets of the file it has.
    count: usize,
    start: u64,
}

impl Model for Window {
    ghost use Rattle.std.specs.Prelude.{◌≡◌, ◌≤◌, ◌+◌, take, drop, vec_len};
    ghost use Rattle.resync_task.specs.Window.{WindowPart};

    ghost Value = { WindowPart };

    ghost view = { λ w. record { start = w.start; part = take w.count (drop 30 w.octets.items) } };

    ghost invariant = { λ w. 30 + w.count ≤ vec_len w.octets };
}

impl Window {
    /// A window that has nothing yet.
    pub(crate) fn of(alloc: Global) -> Result<Window, NoMemory> {
        let octets = vec![in alloc; 0; ROOM]?;
        Ok(Window {
            octets,
            count: 0,
            start: 0,
        })
    }

    /// Has nothing.
    pub(crate) fn clear(&mut self)
        ensures { self.new.part ≡ [] }
    {
        self.count = 0;
    }

    /// Reads so many octets from an offset on, or those up to the end of the file.
    pub(crate) fn load<D: Disk>(
        &mut self,
        store: &mut Store<D>,
        file: FileNo,
        offset: u64,
        wanted: usize,
    ) -> Result<(), Unread>
        requires { wanted ≤ 2097152 }
        ensures part { OnOk result (IsPieceAt (D.history store.old.disk) file.0 offset wanted self.new.part) }
        ensures has { OnOk result (IsReadOf (D.history store.new.disk) file.0 self.new) }
        ensures start { OnOk result (self.new.start ≡ offset) }
        ensures only { ReadsStoreOnly store.old store.new (D.history store.old.disk) (D.history store.new.disk) }
        ensures fault { ReadFaultCounted (IsErrOf result Unread.Fault) (D.faults store.old.disk) (D.faults store.new.disk) }
        ensures unfailed { (IsErrOf result Unread.Fault → ⊥) → NoFault (D.faults store.old.disk) (D.faults store.new.disk) }
    {
        make_room(&mut self.octets, HEADER + wanted)?;
        self.count = 0;
        self.start = offset;
        self.count = store.read_piece(file, offset, &mut self.octets[HEADER..HEADER + wanted])?;
        Ok(())
    }

    /// The thirty octets at an offset, if it has them.
    fn header_at(&self, offset: u64) -> Option<[u8; HEADER]>
        ensures some { IfSome result (HasHeader self.now offset) }
        ensures none { IfNone result (self.now.start ≡ offset → length self.now.part < 30) }
    {
        let part = &self.octets[HEADER..HEADER + self.count];
        let place = offset.checked_sub(self.start)?;
        let (_, rest) = part.split_at_checked(place as usize)?;
        rest.first_chunk::<HEADER>().copied()
    }

    /// The thirty octets at an offset, which it reads if it doesn't have them. None if the file ends before.
    pub(crate) fn header<D: Disk>(
        &mut self,
        store: &mut Store<D>,
        file: FileNo,
        offset: u64,
    ) -> Result<Option<[u8; HEADER]>, Unread>
        requires { IsReadOf (D.history store.old.disk) file.0 self.old }
        ensures some { IfOk result (λ found. IfSome found (IsHeaderAt (D.history store.old.disk) file.0 offset)) }
        ensures none { IfOk result (λ found. IfNone found (EndsBefore (D.history store.old.disk) file.0 offset 30)) }
        ensures has { OnOk result (IsReadOf (D.history store.new.disk) file.0 self.new) }
        ensures only { ReadsStoreOnly store.old store.new (D.history store.old.disk) (D.history store.new.disk) }
        ensures fault { ReadFaultCounted (IsErrOf result Unread.Fault) (D.faults store.old.disk) (D.faults store.new.disk) }
        ensures unfailed { (IsErrOf result Unread.Fault → ⊥) → NoFault (D.faults store.old.disk) (D.faults store.new.disk) }
    {
        if let Some(header) = self.header_at(offset) {
            return Ok(Some(header));
        }
        self.load(store, file, offset, HEADER)?;
        Ok(self.header_at(offset))
    }

    /// Whether this header and the first so many octets that it has are the ends of one message with this GUID, whatever its body.
    pub(crate) fn ends_message(
        &mut self,
        alloc: Global,
        header: &[u8; HEADER],
        tail: usize,
        guid: Guid,
    ) -> Result<bool, NoMemory>
        ensures is { IfOk result (λ is. IsTrue is ↔ ((tail ≤ length self.old.part) × IsMessageWith guid.0 (bodiless_header header.now ++ take tail self.old.part))) }
        ensures same { self.new ≡ self.old }
    {
        if self.count < tail {
            return Ok(false);
        }
        is_ended(alloc, &mut self.octets, header, tail, guid)
    }
}

/// Whether this header, but that it tells a body of no octets, and the octets behind the first thirty are one message with this GUID.
/// The first thirty octets are left as that header.
fn is_ended(
    alloc: Global,
    octets: &mut [u8],
    header: &[u8; HEADER],
    tail: usize,
    guid: Guid,
) -> Result<bool, NoMemory>
    requires { 30 + tail ≤ length octets.old }
    ensures is { IfOk result (λ is. IsTrue is ↔ IsMessageWith guid.0 (bodiless_header header.now ++ take tail (drop 30 octets.old))) }
    ensures rest { drop 30 octets.new ≡ drop 30 octets.old }
{
    octets[..HEADER].copy_from_slice(&bodiless(header));
    is_message_of(alloc, &octets[..HEADER + tail], guid)
}

/// Has room for so many octets at least.
fn make_room(octets: &mut Vec<u8>, size: usize) -> Result<(), NoMemory>
    ensures room { OnOk result (size ≤ length octets.new.items) }
    ensures grows { length octets.old.items ≤ length octets.new.items }
{
    if octets.len() < size {
        octets.resize(size, 0)?;
    }
    Ok(())
}

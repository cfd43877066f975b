// A window over a storage file.
ghost use Rattle.std.specs.Prelude.{◌≡◌, ◌≤◌, ◌<◌, ◌+◌, ◌-◌, ◌^◌, ℕ, List, [], length, take, drop, vec_len, Some, Err, IsErr, IfOk, IfSome, IfNone, OnOk};
ghost use Rattle.disk_model.specs.Disk.{IfTold, IsIdle, reading};
ghost use Rattle.disk_model.specs.FaultCounts.{NoFault, ReadFaultCounted};
ghost use Rattle.disk_model.specs.declared.name.FileName.TheVariants as file;
ghost use Rattle.model_storage.specs.StorageFile.{IsMessageHeader, PlaceGives};
ghost use Rattle.model_storage.specs.declared.places.PlaceError.TheVariants as at;
ghost use Rattle.scan_pieces.specs.Pieces.{TextGives, BlockGives, HeaderGives, empty_header};
ghost use Rattle.scan_pieces.specs.WindowValue.{IsWindowOf, IsLoadedOf, IsWindowOn, IsLoadedOn, GivesOn, HeaderOn};

use crate::device::{fill, size_of};
use crate::header::header_in;
use crate::part::{HEADER, block_in, is_short, message_in, place_from, size_told};
use dbox_file::{MessageAt, PlaceError, ScanError};
use disk_model::Disk;
use mdbox_base::{FileNo, NoMemory};
use std::alloc::Global;
use std::marker::Model;
use storage_files::DiskFault;

/// How many octets of a file a window has at most. A block of metadata is no longer than half of it.
const ROOM: usize = 2_097_152;
/// The header of a message without a body.
const EMPTY_HEADER: [u8; 30] = *b"\x01\x02N          0000000000000000\n";

/// A window over a storage file that is scanned from its beginning to its end, and then over the next one. All its memory is
/// taken as it is made.
#[derive(Drop)]
pub struct Window {
    /// The header of a message without a body, and then room for octets of the file: so a block of metadata at the
    /// beginning of the window can be read as the end of a message.
    octets: Vec<u8>,
    /// How many octets of the file it has.
    count: usize,
    start: u64,
    number: FileNo,
    size: u64,
}

impl Model for Window {
    ghost use Rattle.std.specs.Prelude.{◌≡◌, ◌≤◌, ◌+◌, take, drop, vec_len};
    ghost use Rattle.scan_pieces.specs.Pieces.{empty_header};
    ghost use Rattle.scan_pieces.specs.WindowValue.{WindowValue};

    ghost Value = { WindowValue };

    ghost view = { λ w. record { number = w.number.0; size = w.size; start = w.start; part = take w.count (drop 30 w.octets.items) } };

    ghost invariant = { λ w. (vec_len w.octets ≡ 2097182) × (take 30 w.octets.items ≡ empty_header) × (w.count ≤ 2097152) × (w.start + w.count ≤ w.size) };
}

/// The header of a message without a body, and room after it.
fn framed_room(alloc: Global) -> Result<Vec<u8>, NoMemory>
    ensures { IfOk result (λ octets. (vec_len octets ≡ 2097182) × (take 30 octets.items ≡ empty_header)) }
{
    let mut octets = EMPTY_HEADER.to_vec(alloc)?;
    octets.resize(HEADER + ROOM, 0)?;
    Ok(octets)
}

impl Window {
    /// A window over nothing yet.
    pub fn of(alloc: Global) -> Result<Window, NoMemory>
        ensures { IfOk result (λ made. made ≡ record { number = 0; size = 0; start = 0; part = [] }) }
    {
        let octets = framed_room(alloc)?;
        Ok(Window {
            octets,
            count: 0,
            start: 0,
            number: FileNo(0),
            size: 0,
        })
    }

    /// How many octets the file has.
    pub fn size(&self) -> u64
        ensures { result ≡ self.now.size }
    {
        self.size
    }

    /// What it has of the file.
    fn part(&self) -> &[u8]
        ensures { result.now ≡ self.now.part }
    {
        &self.octets[HEADER..HEADER + self.count]
    }

    /// Has what stands in the file from this offset on.
    fn load<D: Disk>(&mut self, disk: &mut D, offset: u64) -> Result<(), DiskFault>
        requires inside { offset ≤ self.old.size }
        requires window { IfTold (D.history disk.old) (IsWindowOn self.old) }
        ensures same { (self.new.number ≡ self.old.number) × (self.new.size ≡ self.old.size) }
        ensures start { self.new.start ≡ offset }
        ensures loaded { OnOk result (IfTold (D.history disk.new) (IsLoadedOn self.new)) }
        ensures window { IfTold (D.history disk.new) (IsWindowOn self.new) }
        ensures idle { IsIdle (D.history disk.old) (D.history disk.new) }
        ensures fault { ReadFaultCounted (IsErr result) (D.faults disk.old) (D.faults disk.new) }
        ensures unfailed { OnOk result (NoFault (D.faults disk.old) (D.faults disk.new)) }
    {
        let wanted = (self.size - offset).min(ROOM as u64) as usize;
        self.start = offset;
        self.count = 0;
        self.count = fill(disk, self.number, offset, &mut self.octets, wanted)?;
        Ok(())
    }

    /// Where that ends.
    fn end(&self) -> u64
        ensures end { result ≡ self.now.start + length self.now.part }
        ensures within { result ≤ self.now.size }
    {
        let _most = self.size;
        self.start + self.count as u64
    }

    /// What stands at an offset that it has. None if that is only a prefix of a message, and the file goes on.
    fn shown(&self, offset: u64) -> Option<Result<MessageAt, PlaceError>>
        requires low { self.now.start ≤ offset }
        requires high { offset ≤ self.now.start + length self.now.part }
        ensures some { IfSome result (λ answer. (octets : List ℕ) → IsWindowOf self.now octets → PlaceGives octets offset answer) }
        ensures within { IfSome result (λ answer. IfOk answer (λ place. (offset < place.end) × (place.end ≤ self.now.size))) }
        ensures none { IfNone result (TextGives (drop (offset - self.now.start) self.now.part) offset (Err (at.Truncated offset)) × (self.now.start + length self.now.part < self.now.size)) }
    {
        let end = self.end();
        let from = (offset - self.start) as usize;
        let answer = message_in(&self.part()[from..], offset);
        if !is_short(&answer) {
            return Some(answer);
        }
        if end < self.size {
            return None;
        }
        Some(answer)
    }

    /// The size of the body of the message that it begins with. None if the file ends within that body.
    fn body_told(&self) -> Option<u64>
        requires short { TextGives self.now.part self.now.start (Err (at.Truncated self.now.start)) }
        requires goes_on { self.now.start + length self.now.part < self.now.size }
        ensures within { IfSome result (λ size. self.now.start + 30 + size ≤ self.now.size) }
        ensures fits { IfSome result (λ size. self.now.start + 30 + size < 2 ^ 64) }
        ensures some { IfSome result (λ size. (octets : List ℕ) → IsLoadedOf self.now octets → IsMessageHeader (take 30 (drop self.now.start octets)) size) }
        ensures none { IfNone result ((octets : List ℕ) → IsLoadedOf self.now octets → PlaceGives octets self.now.start (Err (at.Truncated self.now.start))) }
    {
        let part = self.part();
        if part.len() < HEADER {
            return None;
        }
        let size = size_told(part)?;
        if self.size - self.start - (HEADER as u64) < size {
            return None;
        }
        Some(size)
    }

    /// The block of metadata that it begins with, as that of a message without a body.
    fn block(&self) -> Result<MessageAt, PlaceError>
        ensures gives { BlockGives self.now.part result }
        ensures within { IfOk result (λ place. (35 ≤ place.end) × (place.end ≤ 30 + length self.now.part)) }
    {
        block_in(&self.octets[..HEADER + self.count])
    }

    /// The message whose body ends where it begins.
    fn message_to(&self, offset: u64, size: u64) -> Result<MessageAt, PlaceError>
        requires { self.now.start ≡ offset + 30 + size }
        ensures gives { (octets : List ℕ) → IsLoadedOf self.now octets → IsMessageHeader (take 30 (drop offset octets)) size → PlaceGives octets offset result }
        ensures within { IfOk result (λ place. (offset < place.end) × (place.end ≤ self.now.size)) }
    {
        let _end = self.end();
        match self.block() {
            Ok(place) => Ok(place_from(offset, size, self.start + (place.end - HEADER as u64))),
            Err(PlaceError::Truncated(_)) => Err(PlaceError::Truncated(offset)),
            Err(PlaceError::BadMessage(_)) => Err(PlaceError::BadMessage(offset)),
        }
    }

    /// What stands at an offset, if it has that, and shows it.
    fn known(&self, offset: u64) -> Option<Result<MessageAt, PlaceError>>
        ensures some { IfSome result (λ answer. (octets : List ℕ) → IsWindowOf self.now octets → PlaceGives octets offset answer) }
        ensures within { IfSome result (λ answer. IfOk answer (λ place. (offset < place.end) × (place.end ≤ self.now.size))) }
    {
        if offset < self.start || self.end() < offset {
            return None;
        }
        self.shown(offset)
    }

    /// What stands at the offset from which on it was loaded. A message that is longer than it is read in two pieces: its header,
    /// and its block of metadata.
    fn loaded_message<D: Disk>(
        &mut self,
        disk: &mut D,
        offset: u64,
    ) -> Result<Result<MessageAt, PlaceError>, DiskFault>
        requires at { self.old.start ≡ offset }
        requires loaded { IfTold (D.history disk.old) (IsLoadedOn self.old) }
        ensures gives { IfOk result (λ answer. IfTold (D.history disk.new) (GivesOn self.new.number offset answer)) }
        ensures within { IfOk result (λ answer. IfOk answer (λ place. (offset < place.end) × (place.end ≤ self.new.size))) }
        ensures same { (self.new.number ≡ self.old.number) × (self.new.size ≡ self.old.size) }
        ensures window { IfTold (D.history disk.new) (IsWindowOn self.new) }
        ensures idle { IsIdle (D.history disk.old) (D.history disk.new) }
        ensures fault { ReadFaultCounted (IsErr result) (D.faults disk.old) (D.faults disk.new) }
        ensures unfailed { OnOk result (NoFault (D.faults disk.old) (D.faults disk.new)) }
    {
        if let Some(answer) = self.shown(offset) {
            return Ok(answer);
        }
        let Some(size) = self.body_told() else {
            return Ok(Err(PlaceError::Truncated(offset)));
        };
        self.load(disk, offset + HEADER as u64 + size)?;
        Ok(self.message_to(offset, size))
    }

    /// What stands at an offset of the file: the place of a message, or why none stands there. It reads on where it has too little.
    pub fn message<D: Disk>(
        &mut self,
        disk: &mut D,
        offset: u64,
    ) -> Result<Result<MessageAt, PlaceError>, DiskFault>
        requires inside { offset ≤ self.old.size }
        requires window { IfTold (D.history disk.old) (IsWindowOn self.old) }
        ensures gives { IfOk result (λ answer. IfTold (D.history disk.new) (GivesOn self.new.number offset answer)) }
        ensures within { IfOk result (λ answer. IfOk answer (λ place. (offset < place.end) × (place.end ≤ self.new.size))) }
        ensures same { (self.new.number ≡ self.old.number) × (self.new.size ≡ self.old.size) }
        ensures window { IfTold (D.history disk.new) (IsWindowOn self.new) }
        ensures idle { IsIdle (D.history disk.old) (D.history disk.new) }
        ensures fault { ReadFaultCounted (IsErr result) (D.faults disk.old) (D.faults disk.new) }
        ensures unfailed { OnOk result (NoFault (D.faults disk.old) (D.faults disk.new)) }
    {
        if let Some(answer) = self.known(offset) {
            return Ok(answer);
        }
        self.load(disk, offset)?;
        self.loaded_message(disk, offset)
    }

    /// Is over another file, of this size, and has nothing of it yet.
    fn turn(&mut self, number: FileNo, size: u64)
        ensures { self.new ≡ record { number = number.0; size = size; start = 0; part = [] } }
    {
        self.number = number;
        self.size = size;
        self.start = 0;
        self.count = 0;
    }

    /// Begins with a storage file: the length of its header line, or why it has none. A file that isn't there is an empty one.
    pub fn begin<D: Disk>(
        &mut self,
        alloc: Global,
        disk: &mut D,
        number: FileNo,
    ) -> Result<Result<u64, ScanError>, DiskFault>
        ensures header { IfOk result (λ answer. IfTold (D.history disk.new) (HeaderOn number.0 answer)) }
        ensures within { IfOk result (λ answer. IfOk answer (λ n. n ≤ self.new.size)) }
        ensures number { OnOk result (self.new.number ≡ number.0) }
        ensures window { OnOk result (IfTold (D.history disk.new) (IsWindowOn self.new)) }
        ensures idle { IsIdle (D.history disk.old) (D.history disk.new) }
        ensures fault { ReadFaultCounted (IsErr result) (D.faults disk.old) (D.faults disk.new) }
        ensures unfailed { OnOk result (NoFault (D.faults disk.old) (D.faults disk.new)) }
    {
        let size = size_of(disk, number)?;
        self.turn(number, size);
        self.load(disk, 0)?;
        let _end = self.end();
        Ok(header_in(alloc, self.part()))
    }
}

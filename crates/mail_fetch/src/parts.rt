// What a fetch reads of a message, part by part.
ghost use Rattle.std.specs.Prelude.{◌≡◌, ◌≤◌, ◌<◌, ◌⊎◌, ◌+◌, ◌++◌, ◌∷◌, [], length, min, filter, take, drop, All, IfOk, IfSome, OnOk, IsErr};
ghost use Rattle.disk_model.specs.Disk.{IfTold, IsIdle};
ghost use Rattle.disk_model.specs.FaultCounts.{NoFault, ReadFaultCounted};
ghost use Rattle.model_store.specs.Settled.{files_of};
ghost use Rattle.mail_fetch.specs.Parts.{KnowsSource, has_octets, left_after, octets_to_read, part_read, parts_to_read};
ghost use Rattle.mail_fetch.specs.Room.{IsPart};

use disk_model::Disk;
use mdbox_base::{FileNo, Guid, InstRow, NoMemory, Seq};
use std::alloc::Global;
use storage_files::DiskFault;
use store_core::Store;

/// How many octets a piece has, but for the last of a part.
pub const PIECE: u32 = 65_536;

/// Where a listed message is stored, and what the map and the mailbox tell of it.
#[derive(Drop)]
pub struct StoredAt {
    pub file: FileNo,
    /// Where the region begins, in octets.
    pub offset: u32,
    /// How many octets the region has: header, body, and metadata.
    pub size: u32,
    pub guid: Guid,
    /// How many octets the message has.
    pub listed: u32,
    /// The attachments that are stored outside.
    pub instances: Seq<InstRow>,
}

/// A file of which a part is read.
#[derive(Clone, Copy, Debug, PartialEq, Eq)]
pub enum Source {
    Mail(FileNo),
    Instance(InstRow),
}

/// Octets of a file that are to be read: so many from an offset on.
#[derive(Clone, Copy, Debug, PartialEq, Eq)]
pub struct Part {
    pub source: Source,
    pub offset: u64,
    pub size: u32,
}

/// The parts of a message: its region, and each instance. One without octets is left out.
pub fn parts_to_read(alloc: Global, from: &StoredAt) -> Result<Vec<Part>, NoMemory>
    ensures parts { IfOk result (λ parts. parts.items ≡ parts_to_read from.now) }
    ensures range { IfOk result (λ parts. All IsPart parts.items) }
{
    let mut parts = Vec::new(alloc);
    push_part(&mut parts, Source::Mail(from.file), from.offset, from.size)?;
    for row in from.instances.as_slice() {
        push_part(&mut parts, Source::Instance(*row), 0, row.size)?;
    }
    Ok(parts)
}

/// Adds a part, if it has octets.
fn push_part(parts: &mut Vec<Part>, source: Source, offset: u32, size: u32) -> Result<(), NoMemory>
    ensures part { OnOk result (parts.new.items ≡ parts.old.items ++ filter has_octets (record { source = source; offset = offset; size = size } ∷ [])) }
    ensures range { OnOk result (All IsPart parts.old.items → All IsPart parts.new.items) }
{
    if size > 0 {
        let offset = u64::from(offset);
        parts.push(Part {
            source,
            offset,
            size,
        })?;
    }
    Ok(())
}

/// How many octets region and instances have. None if they are more than any memory has.
pub fn octets_to_read(from: &StoredAt) -> Option<usize>
    ensures { IfSome result (λ total. total ≡ octets_to_read from.now) }
{
    let mut total = from.size as usize;
    for instance in from.instances.as_slice() {
        total = total.checked_add(instance.size as usize)?;
    }
    Some(total)
}

/// Reads the front of a part, as many octets as `into` has, and answers how many the file has there.
fn read_front<D: Disk>(
    store: &mut Store<D>,
    part: Part,
    into: &mut [u8],
) -> Result<usize, DiskFault>
    requires known { KnowsSource store.old.instances.known part.source }
    ensures count { IfOk result (λ n. n ≤ length into.new) }
    ensures piece { IfOk result (λ n. IfTold (D.history store.old.disk) (λ now. take n into.new ≡ part_read (files_of now) (record part { size = length into.old }))) }
    ensures same { store.new ≡ record store.old { disk = store.new.disk } }
    ensures idle { IsIdle (D.history store.old.disk) (D.history store.new.disk) }
    ensures fault { ReadFaultCounted (IsErr result) (D.faults store.old.disk) (D.faults store.new.disk) }
    ensures unfailed { OnOk result (NoFault (D.faults store.old.disk) (D.faults store.new.disk)) }
{
    match part.source {
        Source::Mail(file) => store.read_piece(file, part.offset, into),
        Source::Instance(row) => match store.read_instance(row.id, part.offset, into) {
            Ok(count) => Ok(count),
            Err(_fault) => Err(DiskFault),
        },
    }
}

/// Reads the first piece of a part into a block, and answers how many octets the file has there.
pub fn read_first<D: Disk>(
    store: &mut Store<D>,
    part: Part,
    block: &mut [u8],
) -> Result<usize, DiskFault>
    requires known { KnowsSource store.old.instances.known part.source }
    requires block { length block.old ≡ 65536 }
    ensures count { IfOk result (λ n. (n ≤ min 65536 part.size) × (n ≤ length block.new)) }
    ensures piece { IfOk result (λ n. IfTold (D.history store.old.disk) (λ now. take n block.new ≡ part_read (files_of now) (record part { size = min 65536 part.size }))) }
    ensures block { length block.new ≡ 65536 }
    ensures same { store.new ≡ record store.old { disk = store.new.disk } }
    ensures idle { IsIdle (D.history store.old.disk) (D.history store.new.disk) }
    ensures fault { ReadFaultCounted (IsErr result) (D.faults store.old.disk) (D.faults store.new.disk) }
    ensures unfailed { OnOk result (NoFault (D.faults store.old.disk) (D.faults store.new.disk)) }
{
    let size = part.size.min(PIECE) as usize;
    read_front(store, part, &mut block[..size])
}

/// Goes past the first piece of the parts from a place on, and answers where those begin that are left.
pub fn pass_piece(parts: &mut [Part], next: usize) -> usize
    requires place { next < length parts.old }
    requires range { All IsPart (drop next parts.old) }
    ensures left { drop result parts.new ≡ left_after (drop next parts.old) }
    ensures next { (result ≡ next) ⊎ (result ≡ next + 1) }
    ensures behind { drop (next + 1) parts.new ≡ drop (next + 1) parts.old }
    ensures within { result ≤ length parts.new }
{
    let part = parts[next];
    if part.size <= PIECE {
        return next + 1;
    }
    parts[next] = Part {
        source: part.source,
        offset: part.offset + u64::from(PIECE),
        size: part.size - PIECE,
    };
    next
}

// All that was found, judged one after another.
ghost use Rattle.std.specs.Prelude.{◌≡◌, ◌||◌, nat_le, nat_lt, List, codes, length, min, All, Some, IfOk, IfSome, IsErrOf, OnOk};
ghost use Rattle.std.specs.Option.{option_copied, option_map, option_map_or};
ghost use Rattle.disk_model.specs.Disk.{Files, IfTold, IsIdle};
ghost use Rattle.disk_model.specs.FaultCounts.{NoFault, ReadFaultCounted};
ghost use Rattle.model_attach.specs.Rejoined.{is_compressed};
ghost use Rattle.model_base64.specs.Base64Text.{IsForm};
ghost use Rattle.model_taken.specs.Taken.{TakenMessage, taken_with};
ghost use Rattle.rebuild_files.specs.Places.{AreAllFindings};
ghost use Rattle.rebuild_judge.specs.Judges.{IsAdmitted, IsAgainOn, IsCompressedOn, IsJudgedOf, IsNumberOn, IsOutcomeOn, IsOutcomeWith, IsSizeOn, JoinsOn, JudgesNext, KeepsOutcome};
ghost use Rattle.rebuild_judge.specs.Kept.{AreKept, are_full, sized_rows, taken_row};

use crate::compare::whole_in;
use crate::device::read_part;
use crate::hashes::name_otherwise;
use crate::instances::instance_sizes;
use crate::join::joined_size;
use crate::lines::read_lines;
use crate::mailboxes::{are_full, inbox};
use crate::taken::{Judged, Keeping, Outcome, SkippedAt, TakenRow, file_named, nothing};
use dbox_file::MessageAt;
use dbox_metadata::Metadata;
use disk_model::{Disk, FileName};
use mdbox_base::{ExtRef, FileNo, Guid, InstRow, Name, NoMemory, Seq, StoreId};
use model_found::Reason;
use rebuild_files::{FoundAt, FoundPlace, RebuildError};
use std::alloc::Global;

/// How many messages a store has at most.
const MESSAGES: usize = 4_294_967_294;
/// How many octets a whole message has at most.
const LONGEST: u64 = 67_108_864;
/// Where a region ends at the latest.
const FARTHEST: u64 = 4_294_967_295;

/// Judges all that is found in the storage files: what is taken, and what is skipped for which reason. There is one answer for each disk.
pub fn judge_all<D: Disk>(
    alloc: Global,
    disk: &mut D,
    store: StoreId,
    places: &[FoundAt],
) -> Result<Judged, RebuildError>
    requires found { IfTold (D.history disk.old) (AreAllFindings places.now) }
    ensures judged { IfOk result (λ judged. IfTold (D.history disk.old) (IsJudgedOf store.0 judged)) }
    ensures whole { IsErrOf result RebuildError.StoreWhole → ⊥ }
    ensures idle { IsIdle (D.history disk.old) (D.history disk.new) }
    ensures fault { ReadFaultCounted (IsErrOf result RebuildError.DiskFault) (D.faults disk.old) (D.faults disk.new) }
    ensures unfailed { (IsErrOf result RebuildError.DiskFault → ⊥) → NoFault (D.faults disk.old) (D.faults disk.new) }
{
    let mut keeping = nothing(alloc)?;
    let mut skipped = Seq::empty(alloc);
    let mut file = 0;
    for found in places {
        file = judge_found(alloc, disk, store, &mut keeping, &mut skipped, file, *found)?;
    }
    Ok(Judged {
        taken: keeping.taken,
        skipped,
        file,
    })
}

/// Judges one more of those that were found. It answers the greatest number of a storage file that GUIDs of this store have named.
fn judge_found<D: Disk>(
    alloc: Global,
    disk: &mut D,
    store: StoreId,
    keeping: &mut Keeping,
    skipped: &mut Seq<SkippedAt>,
    file: u32,
    found: FoundAt,
) -> Result<u32, RebuildError>
    ensures next { IfOk result (λ most. IfTold (D.history disk.old) (JudgesNext store.0 found keeping.old keeping.new skipped.old skipped.new file most)) }
    ensures whole { IsErrOf result RebuildError.StoreWhole → ⊥ }
    ensures idle { IsIdle (D.history disk.old) (D.history disk.new) }
    ensures fault { ReadFaultCounted (IsErrOf result RebuildError.DiskFault) (D.faults disk.old) (D.faults disk.new) }
    ensures unfailed { (IsErrOf result RebuildError.DiskFault → ⊥) → NoFault (D.faults disk.old) (D.faults disk.new) }
{
    match found.place {
        FoundPlace::Message(place) => {
            let (outcome, named) = judge(alloc, disk, store, keeping, found.file, &place)?;
            keep(alloc, keeping, skipped, found.file, place.offset, outcome)?;
            Ok(named.max(file))
        }
        FoundPlace::Unread(offset, why) => {
            skipped.push(SkippedAt {
                file: found.file,
                offset,
                why,
            })?;
            Ok(file)
        }
    }
}

/// Keeps what became of the message at an offset of a storage file.
fn keep(
    alloc: Global,
    keeping: &mut Keeping,
    skipped: &mut Seq<SkippedAt>,
    file: FileNo,
    offset: u64,
    outcome: Outcome,
) -> Result<(), NoMemory>
    ensures { OnOk result (KeepsOutcome file offset outcome keeping.old keeping.new skipped.old skipped.new) }
{
    match outcome {
        Outcome::Taken(row) => keeping.add(alloc, row),
        Outcome::Known => Ok(()),
        Outcome::Skipped(why) => skipped.push(SkippedAt { file, offset, why }),
    }
}

/// What becomes of a message, after those that were taken, and the storage file that its GUID names if it is of this store, else 0.
fn judge<D: Disk>(
    alloc: Global,
    disk: &mut D,
    store: StoreId,
    keeping: &Keeping,
    number: FileNo,
    place: &MessageAt,
) -> Result<(Outcome, u32), RebuildError>
    ensures outcome { IfOk result (λ x. IfTold (D.history disk.old) (IsOutcomeOn number.0 place.now keeping.now x.0)) }
    ensures number { IfOk result (λ x. IfTold (D.history disk.old) (IsNumberOn store.0 number.0 place.now x.1)) }
    ensures whole { IsErrOf result RebuildError.StoreWhole → ⊥ }
    ensures idle { IsIdle (D.history disk.old) (D.history disk.new) }
    ensures fault { ReadFaultCounted (IsErrOf result RebuildError.DiskFault) (D.faults disk.old) (D.faults disk.new) }
    ensures unfailed { (IsErrOf result RebuildError.DiskFault → ⊥) → NoFault (D.faults disk.old) (D.faults disk.new) }
{
    let Some(meta) = read_lines(alloc, disk, number, place)? else {
        return Ok((Outcome::Skipped(Reason::BadLine), 0));
    };
    let Some(guid) = meta.guid else {
        return Ok((Outcome::Skipped(Reason::NoGuid), 0));
    };
    let outcome = judge_named(alloc, disk, keeping, number, place, meta, guid)?;
    Ok((outcome, file_named(store, guid)))
}

/// What becomes of a message with these lines and this GUID.
fn judge_named<D: Disk>(
    alloc: Global,
    disk: &mut D,
    keeping: &Keeping,
    number: FileNo,
    place: &MessageAt,
    meta: Metadata,
    guid: Guid,
) -> Result<Outcome, RebuildError>
    requires forms { All (λ ref. IfSome ref.form IsForm) meta.refs }
    requires guid { meta.guid ≡ Some guid }
    ensures outcome { IfOk result (λ given. IfTold (D.history disk.old) (IsOutcomeWith number.0 place.now meta guid keeping.now given)) }
    ensures whole { IsErrOf result RebuildError.StoreWhole → ⊥ }
    ensures idle { IsIdle (D.history disk.old) (D.history disk.new) }
    ensures fault { ReadFaultCounted (IsErrOf result RebuildError.DiskFault) (D.faults disk.old) (D.faults disk.new) }
    ensures unfailed { (IsErrOf result RebuildError.DiskFault → ⊥) → NoFault (D.faults disk.old) (D.faults disk.new) }
{
    let refs = meta.refs.as_slice();
    if name_otherwise(&keeping.hashes, refs) {
        return Ok(Outcome::Skipped(Reason::NoInstance));
    }
    let Some(sizes) = instance_sizes(alloc, disk, refs)? else {
        return Ok(Outcome::Skipped(Reason::NoInstance));
    };
    let whole = match join(alloc, disk, number, place, &meta, sizes.as_slice())? {
        Ok(whole) => whole,
        Err(why) => return Ok(Outcome::Skipped(why)),
    };
    if let Some(earlier) = taken_before(keeping, guid) {
        return judge_again(alloc, disk, earlier, number, place, whole);
    }
    let outcome = admitted(
        alloc,
        keeping,
        number,
        place,
        meta,
        guid,
        whole,
        sizes.as_slice(),
    )?;
    Ok(outcome)
}

/// Why the message at a place doesn't rejoin, or the size of its whole.
fn join<D: Disk>(
    alloc: Global,
    disk: &mut D,
    number: FileNo,
    place: &MessageAt,
    meta: &Metadata,
    sizes: &[u64],
) -> Result<Result<u64, Reason>, RebuildError>
    requires one_each { length meta.now.refs ≡ length sizes.now }
    requires forms { All (λ ref. IfSome ref.form IsForm) meta.now.refs }
    ensures joins { IfOk result (λ answer. IfTold (D.history disk.old) (JoinsOn number.0 place.now meta.now sizes.now answer)) }
    ensures size { IfOk result (λ answer. IfOk answer (λ size. IfTold (D.history disk.old) (IsSizeOn number.0 place.now meta.now size))) }
    ensures whole { IsErrOf result RebuildError.StoreWhole → ⊥ }
    ensures idle { IsIdle (D.history disk.old) (D.history disk.new) }
    ensures fault { ReadFaultCounted (IsErrOf result RebuildError.DiskFault) (D.faults disk.old) (D.faults disk.new) }
    ensures unfailed { (IsErrOf result RebuildError.DiskFault → ⊥) → NoFault (D.faults disk.old) (D.faults disk.new) }
{
    let stored = place.size.min(u64::from(u32::MAX));
    let whole = meta.physical.unwrap_or(stored);
    match joined_size(stored, whole, meta.refs.as_slice(), sizes) {
        Ok(size) => Ok(Ok(size)),
        Err(why) => match why {
            Reason::SizeDiffers => {
                let gzip = is_compressed(alloc, disk, number, place)?;
                if gzip {
                    Ok(Err(Reason::Compressed))
                } else {
                    Ok(Err(Reason::SizeDiffers))
                }
            }
            _ => Ok(Err(why)),
        },
    }
}

/// Whether the body of the message at a place begins as a gzip stream.
fn is_compressed<D: Disk>(
    alloc: Global,
    disk: &mut D,
    number: FileNo,
    place: &MessageAt,
) -> Result<bool, RebuildError>
    ensures start { IfOk result (λ found. IfTold (D.history disk.old) (IsCompressedOn number.0 place.now found)) }
    ensures whole { IsErrOf result RebuildError.StoreWhole → ⊥ }
    ensures idle { IsIdle (D.history disk.old) (D.history disk.new) }
    ensures fault { ReadFaultCounted (IsErrOf result RebuildError.DiskFault) (D.faults disk.old) (D.faults disk.new) }
    ensures unfailed { (IsErrOf result RebuildError.DiskFault → ⊥) → NoFault (D.faults disk.old) (D.faults disk.new) }
{
    let start = read_part(
        alloc,
        disk,
        FileName::Mail(number.0),
        place.body,
        place.size.min(2),
    )?;
    Ok(begins_as_gzip(&start))
}

/// Whether a gzip stream begins with the octets.
fn begins_as_gzip(octets: &[u8]) -> bool
    ensures { result ≡ is_compressed octets.now }
{
    matches!(octets, [0x1f, 0x8b, ..])
}

/// The taken message with this GUID.
fn taken_before(keeping: &Keeping, guid: Guid) -> Option<&TakenRow>
    ensures { (files : Files) (taken : List TakenMessage) → AreKept files taken keeping.now → option_copied result ≡ option_map taken_row (taken_with guid.0 taken) }
{
    let place = keeping.by_guid.get(&guid.0)?;
    keeping.taken.at(*place)
}

/// What becomes of a message whose GUID a taken one has.
fn judge_again<D: Disk>(
    alloc: Global,
    disk: &mut D,
    earlier: &TakenRow,
    number: FileNo,
    place: &MessageAt,
    whole: u64,
) -> Result<Outcome, RebuildError>
    ensures again { IfOk result (λ given. IfTold (D.history disk.old) (IsAgainOn earlier.now number.0 place.now whole given)) }
    ensures whole { IsErrOf result RebuildError.StoreWhole → ⊥ }
    ensures idle { IsIdle (D.history disk.old) (D.history disk.new) }
    ensures fault { ReadFaultCounted (IsErrOf result RebuildError.DiskFault) (D.faults disk.old) (D.faults disk.new) }
    ensures unfailed { (IsErrOf result RebuildError.DiskFault → ⊥) → NoFault (D.faults disk.old) (D.faults disk.new) }
{
    if u64::from(earlier.whole) != whole {
        return Ok(Outcome::Skipped(Reason::GuidTwice));
    }
    let size = u64::from(earlier.size);
    let Some(first) = whole_in(alloc, disk, earlier.file, u64::from(earlier.offset), size)? else {
        return Ok(Outcome::Skipped(Reason::GuidTwice));
    };
    let size = place.end.saturating_sub(place.offset);
    let Some(second) = whole_in(alloc, disk, number, place.offset, size)? else {
        return Ok(Outcome::Skipped(Reason::GuidTwice));
    };
    if first.as_slice() == second.as_slice() {
        Ok(Outcome::Known)
    } else {
        Ok(Outcome::Skipped(Reason::GuidTwice))
    }
}

/// The message as it is taken, unless a limit is passed.
fn admitted(
    alloc: Global,
    keeping: &Keeping,
    number: FileNo,
    place: &MessageAt,
    meta: Metadata,
    guid: Guid,
    whole: u64,
    sizes: &[u64],
) -> Result<Outcome, NoMemory>
    ensures admitted { IfOk result (IsAdmitted keeping.now number.0 place.now meta guid whole sizes.now) }
{
    let instances = rows_of(alloc, meta.refs.as_slice(), sizes)?;
    let time = meta.received.unwrap_or(0);
    let mailbox = mailbox_of(alloc, meta.origin)?;
    if passes_limit(keeping, &mailbox, place, whole) {
        return Ok(Outcome::Skipped(Reason::TooMany));
    }
    Ok(Outcome::Taken(TakenRow {
        file: number,
        offset: capped(place.offset),
        size: capped(place.end.saturating_sub(place.offset)),
        guid,
        time,
        whole: capped(whole),
        mailbox,
        instances,
    }))
}

/// The name of the mailbox that lines tell, else INBOX.
fn mailbox_of(alloc: Global, origin: Option<Name>) -> Result<Name, NoMemory>
    ensures { IfOk result (λ name. name ≡ option_map_or (λ told. told) origin (codes "INBOX")) }
{
    match origin {
        Some(name) => Ok(name),
        None => inbox(alloc),
    }
}

/// Whether a limit is passed with a message of this whole size that goes to this mailbox.
fn passes_limit(keeping: &Keeping, mailbox: &Name, place: &MessageAt, whole: u64) -> bool
    ensures limits { result ≡ (are_full mailbox.now keeping.now.mailboxes.items || (nat_le 4294967294 (length keeping.now.taken) || (nat_lt 67108864 whole || nat_lt 4294967295 place.now.end))) }
{
    are_full(&keeping.mailboxes, mailbox)
        || keeping.taken.length() >= MESSAGES
        || whole > LONGEST
        || place.end > FARTHEST
}

/// The instances of references, of these sizes.
fn rows_of(alloc: Global, refs: &[ExtRef], sizes: &[u64]) -> Result<Seq<InstRow>, NoMemory>
    ensures { IfOk result (λ rows. rows ≡ sized_rows refs.now sizes.now) }
{
    let mut rows = Seq::empty(alloc);
    let mut left = refs;
    let mut told = sizes;
    while let Some((reference, others)) = left.split_first() {
        let Some((size, behind)) = told.split_first() else {
            return Ok(rows);
        };
        rows.push(row_of(*reference, *size))?;
        left = others;
        told = behind;
    }
    Ok(rows)
}

/// The instance of a reference, of this size.
fn row_of(reference: ExtRef, size: u64) -> InstRow
    ensures { result ≡ record { hash = reference.hash; id = reference.id; size = min size 4294967295 } }
{
    InstRow {
        hash: reference.hash,
        id: reference.id,
        size: capped(size),
    }
}

/// A number as one of 32 bits: the greatest of these for one above.
fn capped(n: u64) -> u32
    ensures { result ≡ min n 4294967295 }
{
    n.min(u64::from(u32::MAX)) as u32
}

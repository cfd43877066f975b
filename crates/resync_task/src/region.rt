// What stands in the region of a record.
ghost use Rattle.std.specs.Prelude.{◌≡◌, ◌↔◌, ◌+◌, ◌≤◌, ℕ, List, IsTrue, IfOk, IfSome, IfNone, length, take, Some};
ghost use Rattle.model_storage.specs.StorageFile.{Message, IsMessage};
ghost use Rattle.resync_task.specs.Damage.{IsMessageWith, IsOneMessage, LinesSay};
ghost use Rattle.resync_task.specs.Window.{HasTail, bodiless_header};

use dbox_file::{MessageAt, message_at};
use dbox_metadata::{MetaError, Metadata, read_metadata};
use mdbox_base::{Guid, NoMemory, read_hex};
use std::alloc::Global;

/// How many octets a message's header has.
pub(crate) const HEADER: usize = 30;
/// The digits of a header that tells a body of no octets.
const NO_SIZE: &[u8; 16] = b"0000000000000000";
/// How many octets a block of metadata has at most.
const MAX_BLOCK: u64 = 1_048_576;

/// How many octets of a region of this size follow the body that its header tells. None if it is no header of a message of this size,
/// or the block of metadata would be longer than any.
pub(crate) fn tail_of(header: &[u8; HEADER], size: u32) -> Option<u32>
    ensures some { IfSome result (HasTail header.now size) }
    ensures none { IfNone result ((region : List ℕ) (m : Message) → take 30 region ≡ header.now → length region ≡ size → IsMessage region m → ⊥) }
{
    let body = read_hex(&header[13..29])?;
    let behind = u64::from(size).checked_sub(HEADER as u64)?;
    let tail = behind.checked_sub(body)?;
    if tail > MAX_BLOCK {
        return None;
    }
    Some(tail as u32)
}

/// The header, but that it tells a body of no octets.
pub(crate) fn bodiless(header: &[u8; HEADER]) -> [u8; HEADER]
    ensures { result ≡ bodiless_header header.now }
{
    let mut bare = *header;
    bare[13..29].copy_from_slice(NO_SIZE);
    bare
}

/// Whether a region is one message, whose lines have this GUID.
pub(crate) fn is_message_of(alloc: Global, region: &[u8], guid: Guid) -> Result<bool, NoMemory>
    ensures { IfOk result (λ is. IsTrue is ↔ IsMessageWith guid.0 region.now) }
{
    let Some(place) = one_message(region) else {
        return Ok(false);
    };
    let Some(meta) = said(alloc, &region[place.lines as usize..region.len() - 1])? else {
        return Ok(false);
    };
    Ok(is_of(meta.guid, guid))
}

/// Where the parts of the one message stand that a region is. None if and only if it is none.
fn one_message(region: &[u8]) -> Option<MessageAt>
    ensures some { IfSome result (IsOneMessage region.now) }
    ensures within { IfSome result (λ place. place.lines + 1 ≤ length region.now) }
    ensures none { IfNone result ((m : Message) → IsMessage region.now m → ⊥) }
{
    let place = message_at(region, 0).ok()?;
    if place.end != region.len() as u64 {
        return None;
    }
    Some(place)
}

/// What metadata lines say. None if and only if one of them is bad.
fn said(alloc: Global, lines: &[u8]) -> Result<Option<Metadata>, NoMemory>
    ensures { IfOk result (LinesSay lines.now) }
{
    match read_metadata(alloc, lines) {
        Ok(meta) => Ok(Some(meta)),
        Err(MetaError::BadLine(_)) => Ok(None),
        Err(MetaError::NoMemory) => Err(NoMemory),
    }
}

/// Whether this is a GUID, and which.
fn is_of(told: Option<Guid>, guid: Guid) -> bool
    ensures { IsTrue result ↔ (told ≡ Some guid) }
{
    match told {
        Some(told) => told.0 == guid.0,
        None => false,
    }
}

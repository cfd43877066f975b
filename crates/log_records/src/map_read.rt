// Reading entries of the map log.
ghost use Rattle.std.specs.Prelude.{◌≡◌, ◌≢◌, ◌<◌, ◌^◌, ◌++◌, ◌∷◌, ℕ, List, length, IfOk, MatchOption};
ghost use Rattle.mdbox_base.specs.declared.entries.MapEntry.{MapEntry};
ghost use Rattle.model_logs.specs.Entries.{map_text, MapInRange, IsMapText};
ghost use Rattle.log_records.specs.Refused.{IsNotMade, IsNotStored, IsNotLowered, IsNotCounted, IsNotPurged, IsNotDeleted, IsNotRenamed};

use crate::fields::{number_at, octet_at, only_number};
use crate::lists::{list_at, only_instances, only_list};
use crate::stored::stored_at;
use mdbox_base::{BoxNo, FileNo, Highest, MapEntry, MapUid, NoMemory, name_of};
use std::alloc::Global;

/// The entry that the octets are. None if and only if they aren't one.
pub fn read_map_entry(alloc: Global, text: &[u8]) -> Result<Option<MapEntry>, NoMemory>
    ensures { IfOk result (λ entry. MatchOption entry ((other : MapEntry) → IsMapText text.now other → ⊥) (IsMapText text.now)) }
{
    match text {
        [b'H', fields @ ..] => Ok(highest(fields)),
        [b'B', fields @ ..] => made(alloc, fields),
        [b'G', fields @ ..] => Ok(generation(fields)),
        [b'S', fields @ ..] => stored(alloc, fields),
        [b'U', fields @ ..] => Ok(raised(fields)),
        [b'D', fields @ ..] => lowered(alloc, fields),
        [b'T', fields @ ..] => counted(alloc, fields),
        [b'P', fields @ ..] => purged(alloc, fields),
        [b'E', fields @ ..] => Ok(sealed(fields)),
        [b'X', fields @ ..] => deleted(alloc, fields),
        [b'V', fields @ ..] => renamed(alloc, fields),
        _ => Ok(None),
    }
}

fn highest(fields: &[u8]) -> Option<MapEntry>
    ensures { MatchOption result (length fields.now ≢ 16) (IsMapText (72 ∷ fields.now)) }
{
    let (file, rest) = number_at(fields)?;
    let (map, rest) = number_at(rest)?;
    let (instance, rest) = number_at(rest)?;
    let mailbox = only_number(rest)?;
    Some(MapEntry::H(Highest {
        file,
        map,
        instance,
        mailbox,
    }))
}

fn made(alloc: Global, fields: &[u8]) -> Result<Option<MapEntry>, NoMemory>
    ensures { IfOk result (λ entry. MatchOption entry (IsNotMade fields.now) (IsMapText (66 ∷ fields.now))) }
{
    let Some((mailbox, rest)) = number_at(fields) else {
        return Ok(None);
    };
    let Some((generation, rest)) = number_at(rest) else {
        return Ok(None);
    };
    let Some((size, rest)) = octet_at(rest) else {
        return Ok(None);
    };
    if rest.len() != size as usize {
        return Ok(None);
    }
    let Some(name) = name_of(alloc, rest)? else {
        return Ok(None);
    };
    Ok(Some(MapEntry::B {
        mailbox: BoxNo(mailbox),
        generation,
        name,
    }))
}

fn generation(fields: &[u8]) -> Option<MapEntry>
    ensures { MatchOption result (length fields.now ≢ 8) (IsMapText (71 ∷ fields.now)) }
{
    let (mailbox, rest) = number_at(fields)?;
    let generation = only_number(rest)?;
    Some(MapEntry::G {
        mailbox: BoxNo(mailbox),
        generation,
    })
}

fn stored(alloc: Global, fields: &[u8]) -> Result<Option<MapEntry>, NoMemory>
    ensures { IfOk result (λ entry. MatchOption entry (IsNotStored fields.now) (IsMapText (83 ∷ fields.now))) }
{
    let Some((stored, rest)) = stored_at(fields) else {
        return Ok(None);
    };
    let Some(instances) = only_instances(alloc, rest)? else {
        return Ok(None);
    };
    Ok(Some(MapEntry::S {
        origin: stored.origin,
        count: stored.count,
        uid: stored.uid,
        file: stored.file,
        offset: stored.offset,
        size: stored.size,
        guid: stored.guid,
        instances,
    }))
}

fn raised(fields: &[u8]) -> Option<MapEntry>
    ensures { MatchOption result (length fields.now ≢ 4) (IsMapText (85 ∷ fields.now)) }
{
    let uid = MapUid(only_number(fields)?);
    Some(MapEntry::U { uid })
}

fn lowered(alloc: Global, fields: &[u8]) -> Result<Option<MapEntry>, NoMemory>
    ensures { IfOk result (λ entry. MatchOption entry (IsNotLowered fields.now) (IsMapText (68 ∷ fields.now))) }
{
    match only_list(alloc, fields)? {
        Some(uids) => Ok(Some(MapEntry::D { uids })),
        None => Ok(None),
    }
}

fn counted(alloc: Global, fields: &[u8]) -> Result<Option<MapEntry>, NoMemory>
    ensures { IfOk result (λ entry. MatchOption entry (IsNotCounted fields.now) (IsMapText (84 ∷ fields.now))) }
{
    match only_list(alloc, fields)? {
        Some(counts) => Ok(Some(MapEntry::T { counts })),
        None => Ok(None),
    }
}

fn purged(alloc: Global, fields: &[u8]) -> Result<Option<MapEntry>, NoMemory>
    ensures { IfOk result (λ entry. MatchOption entry (IsNotPurged fields.now) (IsMapText (80 ∷ fields.now))) }
{
    let Some((file, rest)) = number_at(fields) else {
        return Ok(None);
    };
    let Some((target, rest)) = number_at(rest) else {
        return Ok(None);
    };
    let Some((moved, rest)) = list_at(alloc, rest)? else {
        return Ok(None);
    };
    let Some(dropped) = only_list(alloc, rest)? else {
        return Ok(None);
    };
    Ok(Some(MapEntry::P {
        file: FileNo(file),
        target,
        moved,
        dropped,
    }))
}

fn sealed(fields: &[u8]) -> Option<MapEntry>
    ensures { MatchOption result (length fields.now ≢ 4) (IsMapText (69 ∷ fields.now)) }
{
    let file = FileNo(only_number(fields)?);
    Some(MapEntry::E { file })
}

fn deleted(alloc: Global, fields: &[u8]) -> Result<Option<MapEntry>, NoMemory>
    ensures { IfOk result (λ entry. MatchOption entry (IsNotDeleted fields.now) (IsMapText (88 ∷ fields.now))) }
{
    let Some((mailbox, rest)) = number_at(fields) else {
        return Ok(None);
    };
    let Some(amounts) = only_list(alloc, rest)? else {
        return Ok(None);
    };
    Ok(Some(MapEntry::X {
        mailbox: BoxNo(mailbox),
        amounts,
    }))
}

fn renamed(alloc: Global, fields: &[u8]) -> Result<Option<MapEntry>, NoMemory>
    ensures { IfOk result (λ entry. MatchOption entry (IsNotRenamed fields.now) (IsMapText (86 ∷ fields.now))) }
{
    let Some((mailbox, rest)) = number_at(fields) else {
        return Ok(None);
    };
    let Some((size, rest)) = octet_at(rest) else {
        return Ok(None);
    };
    if rest.len() != size as usize {
        return Ok(None);
    }
    let Some(name) = name_of(alloc, rest)? else {
        return Ok(None);
    };
    Ok(Some(MapEntry::V {
        mailbox: BoxNo(mailbox),
        name,
    }))
}

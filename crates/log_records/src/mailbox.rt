// Entries of a mailbox log. They are read in both versions, and written in version 2.
ghost use Rattle.std.specs.Prelude.{◌≡◌, ◌≢◌, ◌++◌, ◌∷◌, ◌⊎◌, ℕ, length, IfOk, IsErr, MatchOption, MatchResult, OnOk, OnErr};
ghost use Rattle.mdbox_base.specs.declared.entries.BoxEntry.{BoxEntry};
ghost use Rattle.model_logs.specs.Entries.{box_text, BoxInRange, IsBoxText};
ghost use Rattle.log_records.specs.Worded.{IsNoAddition, IsNotWorded, MayHaveWords};

use crate::added::{ADDED_SIZE, Added, added_at, put_added};
use crate::fields::{number_at, only_number, put};
use crate::worded::{only_words, put_words, words_behind, words_size};
use mdbox_base::{BoxEntry, NoMemory, Octets, Uid};
use std::alloc::Global;

/// How many octets an entry has.
pub fn box_entry_size(entry: &BoxEntry) -> usize
    requires { BoxInRange entry.now }
    ensures { result ≡ length (box_text entry.now) }
{
    match entry {
        BoxEntry::N { .. } | BoxEntry::R { .. } => 5,
        BoxEntry::A { words, .. } => 1 + ADDED_SIZE + words_size(words.as_slice()),
        BoxEntry::F { .. } => 6,
        BoxEntry::K { words, .. } => 5 + words_size(words.as_slice()),
    }
}

/// Writes an entry.
pub fn put_box_entry(into: &mut [u8], entry: &BoxEntry)
    requires range { BoxInRange entry.now }
    requires size { length into.old ≡ length (box_text entry.now) }
    ensures { into.new ≡ box_text entry.now }
{
    match entry {
        BoxEntry::N { next } => {
            let place = put(into, 0, &[b'N']);
            put(into, place, &next.to_be_bytes());
        }
        BoxEntry::A {
            uid,
            flags,
            time,
            size,
            map_uid,
            guid,
            words,
        } => {
            let added = Added {
                uid: *uid,
                flags: *flags,
                time: *time,
                size: *size,
                map_uid: *map_uid,
                guid: *guid,
            };
            let place = put(into, 0, &[b'A']);
            let place = put_added(into, place, added);
            put_words(into, place, words.as_slice());
        }
        BoxEntry::F { uid, flags } => {
            let place = put(into, 0, &[b'F']);
            let place = put(into, place, &uid.0.to_be_bytes());
            put(into, place, &[*flags]);
        }
        BoxEntry::K { uid, words } => {
            let place = put(into, 0, &[b'K']);
            let place = put(into, place, &uid.0.to_be_bytes());
            put_words(into, place, words.as_slice());
        }
        BoxEntry::R { uid } => {
            let place = put(into, 0, &[b'R']);
            put(into, place, &uid.0.to_be_bytes());
        }
    }
}

/// Adds an entry's octets. Without memory nothing is added.
pub fn push_box_entry(alloc: Global, out: &mut Octets, entry: &BoxEntry) -> Result<(), NoMemory>
    requires { BoxInRange entry.now }
    ensures ok { OnOk result (out.new ≡ out.old ++ box_text entry.now) }
    ensures err { OnErr result (out.new ≡ out.old) }
{
    let mut text = vec![in alloc; 0; box_entry_size(entry)]?;
    put_box_entry(&mut text, entry);
    out.push_all(&text)
}

/// The entry of a log of this version that the octets are. None if and only if they aren't one. Only an `A`
/// and a `K` of version 2 take memory, for their keywords.
pub fn read_box_entry(alloc: Global, text: &[u8], version: u8) -> Result<Option<BoxEntry>, NoMemory>
    requires { (version ≡ 1) ⊎ (version ≡ 2) }
    ensures { MatchResult result (λ entry. MatchOption entry ((other : BoxEntry) → IsBoxText version text.now other → ⊥) (IsBoxText version text.now)) (λ _. MayHaveWords version text.now) }
{
    match text {
        [b'N', fields @ ..] => Ok(next(fields)),
        [b'A', fields @ ..] => added(alloc, fields, version),
        [b'F', fields @ ..] => Ok(flagged(fields)),
        [b'K', fields @ ..] => worded(alloc, fields, version),
        [b'R', fields @ ..] => Ok(removed(fields)),
        _ => Ok(None),
    }
}

/// The entry of a next UID.
fn next(fields: &[u8]) -> Option<BoxEntry>
    ensures { (version : ℕ) → MatchOption result (length fields.now ≢ 4) (IsBoxText version (78 ∷ fields.now)) }
{
    let next = only_number(fields)?;
    Some(BoxEntry::N { next })
}

/// The entry of an added message.
fn added(alloc: Global, fields: &[u8], version: u8) -> Result<Option<BoxEntry>, NoMemory>
    requires { (version ≡ 1) ⊎ (version ≡ 2) }
    ensures entry { IfOk result (λ entry. MatchOption entry (IsNoAddition version fields.now) (IsBoxText version (65 ∷ fields.now))) }
    ensures memory { IsErr result → version ≡ 2 }
{
    let Some((added, rest)) = added_at(fields) else {
        return Ok(None);
    };
    let Some(words) = words_behind(alloc, rest, version)? else {
        return Ok(None);
    };
    Ok(Some(BoxEntry::A {
        uid: added.uid,
        flags: added.flags,
        time: added.time,
        size: added.size,
        map_uid: added.map_uid,
        guid: added.guid,
        words,
    }))
}

/// The entry of changed flags.
fn flagged(fields: &[u8]) -> Option<BoxEntry>
    ensures { (version : ℕ) → MatchOption result (length fields.now ≢ 5) (IsBoxText version (70 ∷ fields.now)) }
{
    let (uid, rest) = number_at(fields)?;
    match rest {
        [flags] => Some(BoxEntry::F {
            uid: Uid(uid),
            flags: *flags,
        }),
        _ => None,
    }
}

/// The entry of changed keywords, which version 1 doesn't have.
fn worded(alloc: Global, fields: &[u8], version: u8) -> Result<Option<BoxEntry>, NoMemory>
    requires { (version ≡ 1) ⊎ (version ≡ 2) }
    ensures entry { IfOk result (λ entry. MatchOption entry (IsNotWorded version fields.now) (IsBoxText version (75 ∷ fields.now))) }
    ensures memory { IsErr result → version ≡ 2 }
{
    if version != 2 {
        return Ok(None);
    }
    let Some((uid, rest)) = number_at(fields) else {
        return Ok(None);
    };
    let Some(words) = only_words(alloc, rest)? else {
        return Ok(None);
    };
    Ok(Some(BoxEntry::K {
        uid: Uid(uid),
        words,
    }))
}

/// The entry of a message that leaves.
fn removed(fields: &[u8]) -> Option<BoxEntry>
    ensures { (version : ℕ) → MatchOption result (length fields.now ≢ 4) (IsBoxText version (82 ∷ fields.now)) }
{
    let uid = Uid(only_number(fields)?);
    Some(BoxEntry::R { uid })
}

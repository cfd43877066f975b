// Writing entries of the map log.
ghost use Rattle.std.specs.Prelude.{◌≡◌, ◌+◌, ◌*◌, ◌<◌, ◌≤◌, ◌^◌, ◌++◌, ◌∷◌, ℕ, List, length, take, OnOk, OnErr};
ghost use Rattle.mdbox_base.specs.declared.entries.MapEntry.{MapEntry};
ghost use Rattle.mdbox_base.specs.declared.entries.MapEntry.TheVariants as entry;
ghost use Rattle.model_logs.specs.Entries.{four, list_text, map_text, MapInRange};
ghost use Rattle.log_records.specs.Stored.{IsStored};

use crate::fields::put;
use crate::items::Item;
use crate::lists::{put_instances, put_list};
use crate::stored::{STORED_SIZE, Stored, put_stored};
use mdbox_base::{
    BoxNo, FileNo, Highest, InstRow, MapCount, MapEntry, MapPlace, MapUid, Name, NoMemory, Octets,
};
use std::alloc::Global;

/// How many octets an entry has.
pub fn map_entry_size(entry: &MapEntry) -> usize
    requires { MapInRange entry.now }
    ensures { result ≡ length (map_text entry.now) }
{
    match entry {
        MapEntry::H(_) => 17,
        MapEntry::B { name, .. } => 10 + name.as_octets().len(),
        MapEntry::G { .. } => 9,
        MapEntry::S { instances, .. } => STORED_SIZE + 3 + InstRow::SIZE * instances.length(),
        MapEntry::U { .. } | MapEntry::E { .. } => 5,
        MapEntry::D { uids } => 5 + MapUid::SIZE * uids.length(),
        MapEntry::T { counts } => 5 + MapCount::SIZE * counts.length(),
        MapEntry::P { moved, dropped, .. } => {
            17 + MapPlace::SIZE * moved.length() + MapUid::SIZE * dropped.length()
        }
        MapEntry::X { amounts, .. } => 9 + MapCount::SIZE * amounts.length(),
        MapEntry::V { name, .. } => 6 + name.as_octets().len(),
    }
}

/// Writes an entry.
pub fn put_map_entry(into: &mut [u8], entry: &MapEntry)
    requires range { MapInRange entry.now }
    requires size { length into.old ≡ length (map_text entry.now) }
    ensures { into.new ≡ map_text entry.now }
{
    match entry {
        MapEntry::H(highest) => put_highest(into, highest),
        MapEntry::B {
            mailbox,
            generation,
            name,
        } => put_made(into, *mailbox, *generation, name),
        MapEntry::G {
            mailbox,
            generation,
        } => put_renewed(into, *mailbox, *generation),
        MapEntry::S { .. } => put_message(into, entry),
        MapEntry::U { uid } => put_number_entry(into, b'U', uid.0),
        MapEntry::D { uids } => put_list_entry(into, b'D', uids.as_slice()),
        MapEntry::T { counts } => put_list_entry(into, b'T', counts.as_slice()),
        MapEntry::P {
            file,
            target,
            moved,
            dropped,
        } => put_purged(into, *file, *target, moved.as_slice(), dropped.as_slice()),
        MapEntry::E { file } => put_number_entry(into, b'E', file.0),
        MapEntry::X { mailbox, amounts } => put_deleted(into, *mailbox, amounts.as_slice()),
        MapEntry::V { mailbox, name } => put_renamed(into, *mailbox, name),
    }
}

/// Adds an entry's octets. Without memory nothing is added.
pub fn push_map_entry(alloc: Global, out: &mut Octets, entry: &MapEntry) -> Result<(), NoMemory>
    requires { MapInRange entry.now }
    ensures ok { OnOk result (out.new ≡ out.old ++ map_text entry.now) }
    ensures err { OnErr result (out.new ≡ out.old) }
{
    let mut text = vec![in alloc; 0; map_entry_size(entry)]?;
    put_map_entry(&mut text, entry);
    out.push_all(&text)
}

/// Writes a letter and the number behind it, and answers the place behind that.
fn put_front(into: &mut [u8], letter: u8, number: u32) -> usize
    requires { 5 ≤ length into.old }
    ensures behind { result ≡ 5 }
    ensures front { take result into.new ≡ letter ∷ four number }
    ensures length { length into.new ≡ length into.old }
{
    let place = put(into, 0, &[letter]);
    put(into, place, &number.to_be_bytes())
}

/// Writes an entry that is a letter and a number.
fn put_number_entry(into: &mut [u8], letter: u8, number: u32)
    requires { length into.old ≡ 5 }
    ensures { into.new ≡ letter ∷ four number }
{
    put_front(into, letter, number);
}

/// Writes an entry that is a letter and a list.
fn put_list_entry<T: Item>(into: &mut [u8], letter: u8, items: &[T])
    requires count { length items.now < 2 ^ 32 }
    requires size { length into.old ≡ 5 + T.SIZE * length items.now }
    ensures { into.new ≡ letter ∷ list_text T.item_text items.now }
{
    let place = put(into, 0, &[letter]);
    put_list(into, place, items);
}

fn put_highest(into: &mut [u8], highest: &Highest)
    requires { length into.old ≡ 17 }
    ensures { into.new ≡ map_text (entry.H highest.now) }
{
    let place = put_front(into, b'H', highest.file);
    let place = put(into, place, &highest.map.to_be_bytes());
    let place = put(into, place, &highest.instance.to_be_bytes());
    put(into, place, &highest.mailbox.to_be_bytes());
}

fn put_made(into: &mut [u8], mailbox: BoxNo, generation: u32, name: &Name)
    requires { length into.old ≡ 10 + length name.now }
    ensures { into.new ≡ map_text (entry.B mailbox generation name.now) }
{
    let name = name.as_octets();
    let place = put_front(into, b'B', mailbox.0);
    let place = put(into, place, &generation.to_be_bytes());
    let place = put(into, place, &[name.len() as u8]);
    put(into, place, name);
}

fn put_renewed(into: &mut [u8], mailbox: BoxNo, generation: u32)
    requires { length into.old ≡ 9 }
    ensures { into.new ≡ map_text (entry.G mailbox generation) }
{
    let place = put_front(into, b'G', mailbox.0);
    put(into, place, &generation.to_be_bytes());
}

/// Writes the entry of a stored message.
fn put_message(into: &mut [u8], entry: &MapEntry)
    requires stored { IsStored entry.now }
    requires range { MapInRange entry.now }
    requires size { length into.old ≡ length (map_text entry.now) }
    ensures { into.new ≡ map_text entry.now }
{
    let MapEntry::S {
        origin,
        count,
        uid,
        file,
        offset,
        size,
        guid,
        instances,
    } = entry
    else {
        unreachable!()
    };
    let stored = Stored {
        origin: *origin,
        count: *count,
        uid: *uid,
        file: *file,
        offset: *offset,
        size: *size,
        guid: *guid,
    };
    let place = put(into, 0, &[b'S']);
    let place = put_stored(into, place, stored);
    put_instances(into, place, instances.as_slice());
}

fn put_purged(into: &mut [u8], file: FileNo, target: u32, moved: &[MapPlace], dropped: &[MapUid])
    requires moved { length moved.now < 2 ^ 32 }
    requires dropped { length dropped.now < 2 ^ 32 }
    requires size { length into.old ≡ 17 + 8 * length moved.now + 4 * length dropped.now }
    ensures { into.new ≡ map_text (entry.P file target moved.now dropped.now) }
{
    let place = put_front(into, b'P', file.0);
    let place = put(into, place, &target.to_be_bytes());
    let place = put_list(into, place, moved);
    put_list(into, place, dropped);
}

fn put_deleted(into: &mut [u8], mailbox: BoxNo, amounts: &[MapCount])
    requires count { length amounts.now < 2 ^ 32 }
    requires size { length into.old ≡ 9 + 6 * length amounts.now }
    ensures { into.new ≡ map_text (entry.X mailbox amounts.now) }
{
    let place = put_front(into, b'X', mailbox.0);
    put_list(into, place, amounts);
}

fn put_renamed(into: &mut [u8], mailbox: BoxNo, name: &Name)
    requires { length into.old ≡ 6 + length name.now }
    ensures { into.new ≡ map_text (entry.V mailbox name.now) }
{
    let name = name.as_octets();
    let place = put_front(into, b'V', mailbox.0);
    let place = put(into, place, &[name.len() as u8]);
    put(into, place, name);
}

// Entries of logs.
ghost use Rattle.std.specs.Prelude.{◌≡◌, ◌⊎◌};

use crate::line_text::{push_digits, push_line, push_octets};
use log_records::{
    push_box_entry, push_map_entry, push_root_entry, read_box_entry, read_map_entry,
    read_root_entry,
};
use mdbox_base::{BoxEntry, InstRow, MapCount, MapEntry, NoMemory, Octets, RootEntry, Seq};
use std::alloc::Global;

/// An entry of the root log, and whether it is written as it was read.
pub fn tell_root(alloc: Global, out: &mut String, octets: &[u8]) -> Result<(), NoMemory> {
    let Some(entry) = read_root_entry(octets)? else {
        return push_line(out, "none");
    };
    let RootEntry::M { generation } = entry;
    let text = format!(in alloc; "map log {generation}")?;
    push_line(out, text.as_str())?;
    let mut written = Octets::empty(alloc);
    push_root_entry(&mut written, &entry)?;
    tell_written(out, octets, written.as_slice())
}

/// An entry of a mailbox log of this version, and whether it is written as it was read.
pub fn tell_box(alloc: Global, out: &mut String, octets: &[u8], version: u8) -> Result<(), NoMemory>
    requires { (version ≡ 1) ⊎ (version ≡ 2) }
{
    let Some(entry) = read_box_entry(alloc, octets, version)? else {
        return push_line(out, "none");
    };
    push_box(alloc, out, &entry)?;
    let mut written = Octets::empty(alloc);
    push_box_entry(alloc, &mut written, &entry)?;
    tell_written(out, octets, written.as_slice())
}

/// An entry of a map log, and whether it is written as it was read.
pub fn tell_map(alloc: Global, out: &mut String, octets: &[u8]) -> Result<(), NoMemory> {
    let Some(entry) = read_map_entry(alloc, octets)? else {
        return push_line(out, "none");
    };
    push_map(alloc, out, &entry)?;
    let mut written = Octets::empty(alloc);
    push_map_entry(alloc, &mut written, &entry)?;
    tell_written(out, octets, written.as_slice())
}

fn tell_written(out: &mut String, octets: &[u8], written: &[u8]) -> Result<(), NoMemory> {
    if octets == written {
        return Ok(());
    }
    push_octets(out, "written as ", written)
}

/// An entry of a mailbox log, and a line for each of its keywords.
fn push_box(alloc: Global, out: &mut String, entry: &BoxEntry) -> Result<(), NoMemory> {
    let text = box_text(alloc, entry)?;
    push_line(out, text.as_str())?;
    if let BoxEntry::A { words, .. } | BoxEntry::K { words, .. } = entry {
        for word in words.as_slice() {
            push_octets(out, "  ", word.as_slice())?;
        }
    }
    Ok(())
}

fn box_text(alloc: Global, entry: &BoxEntry) -> Result<String, NoMemory> {
    Ok(match entry {
        BoxEntry::N { next } => {
            let next = *next;
            format!(in alloc; "next UID {next}")?
        }
        BoxEntry::A {
            uid,
            flags,
            time,
            size,
            map_uid,
            guid,
            ..
        } => {
            let (uid, map_uid) = (uid.0, map_uid.0);
            let (flags, time, size) = (*flags, *time, *size);
            let mut text = format!(in alloc;
                "add {uid}, flags {flags}, time {time}, size {size}, record {map_uid}, "
            )?;
            push_digits(&mut text, &guid.0)?;
            text
        }
        BoxEntry::F { uid, flags } => {
            let (uid, flags) = (uid.0, *flags);
            format!(in alloc; "set {uid}, flags {flags}")?
        }
        BoxEntry::K { uid, words } => {
            let (uid, count) = (uid.0, words.length());
            format!(in alloc; "set {uid}, keywords {count}")?
        }
        BoxEntry::R { uid } => {
            let uid = uid.0;
            format!(in alloc; "remove {uid}")?
        }
    })
}

fn push_map(alloc: Global, out: &mut String, entry: &MapEntry) -> Result<(), NoMemory> {
    match entry {
        MapEntry::S { instances, .. } => {
            let text = stored_text(alloc, entry)?;
            push_line(out, text.as_str())?;
            push_instances(alloc, out, instances)
        }
        MapEntry::B {
            mailbox,
            generation,
            name,
        } => {
            let (mailbox, generation) = (mailbox.0, *generation);
            let text = format!(in alloc; "make mailbox {mailbox}, log {generation}, ")?;
            push_octets(out, text.as_str(), name.as_octets())
        }
        MapEntry::V { mailbox, name } => {
            let mailbox = mailbox.0;
            let text = format!(in alloc; "rename mailbox {mailbox}, ")?;
            push_octets(out, text.as_str(), name.as_octets())
        }
        _ => {
            let text = number_text(alloc, entry)?;
            push_line(out, text.as_str())
        }
    }
}

fn stored_text(alloc: Global, entry: &MapEntry) -> Result<String, NoMemory> {
    match entry {
        MapEntry::S {
            origin,
            count,
            uid,
            file,
            offset,
            size,
            guid,
            ..
        } => {
            let (origin, count, uid) = (*origin, *count, uid.0);
            let (file, offset, size) = (file.0, *offset, *size);
            let mut text = format!(in alloc;
                "store {uid}, origin {origin}, count {count}, file {file}, {size} octets at {offset}, "
            )?;
            push_digits(&mut text, &guid.0)?;
            Ok(text)
        }
        _ => Ok(String::new(alloc)),
    }
}

fn push_instances(
    alloc: Global,
    out: &mut String,
    instances: &Seq<InstRow>,
) -> Result<(), NoMemory> {
    for row in instances.as_slice() {
        let size = row.size;
        let mut text = format!(in alloc; "  {size} octets, ")?;
        push_digits(&mut text, &row.hash.0)?;
        text.push_str(" ")?;
        push_digits(&mut text, &row.id.0)?;
        push_line(out, text.as_str())?;
    }
    Ok(())
}

/// An entry that has numbers alone.
fn number_text(alloc: Global, entry: &MapEntry) -> Result<String, NoMemory> {
    Ok(match entry {
        MapEntry::H(highest) => {
            let (file, map) = (highest.file, highest.map);
            let (instance, mailbox) = (highest.instance, highest.mailbox);
            format!(in alloc;
                "highest file {file}, record {map}, instance {instance}, mailbox {mailbox}"
            )?
        }
        MapEntry::G {
            mailbox,
            generation,
        } => {
            let (mailbox, generation) = (mailbox.0, *generation);
            format!(in alloc; "mailbox {mailbox}, log {generation}")?
        }
        MapEntry::U { uid } => {
            let uid = uid.0;
            format!(in alloc; "raise {uid}")?
        }
        MapEntry::E { file } => {
            let file = file.0;
            format!(in alloc; "seal file {file}")?
        }
        _ => listed_text(alloc, entry)?,
    })
}

/// An entry that has lists of numbers.
fn listed_text(alloc: Global, entry: &MapEntry) -> Result<String, NoMemory> {
    let mut text = String::new(alloc);
    match entry {
        MapEntry::D { uids } => {
            text.push_str("lower")?;
            for uid in uids.as_slice() {
                push_number(alloc, &mut text, " ", uid.0)?;
            }
        }
        MapEntry::T { counts } => {
            text.push_str("counts")?;
            push_counts(alloc, &mut text, counts.as_slice())?;
        }
        MapEntry::P {
            file,
            target,
            moved,
            dropped,
        } => {
            push_number(alloc, &mut text, "purge file ", file.0)?;
            push_number(alloc, &mut text, " to ", *target)?;
            text.push_str(", moved")?;
            for place in moved.as_slice() {
                push_number(alloc, &mut text, " ", place.uid.0)?;
                push_number(alloc, &mut text, " to ", place.offset)?;
            }
            text.push_str(", dropped")?;
            for uid in dropped.as_slice() {
                push_number(alloc, &mut text, " ", uid.0)?;
            }
        }
        MapEntry::X { mailbox, amounts } => {
            push_number(alloc, &mut text, "delete mailbox ", mailbox.0)?;
            text.push_str(", lower")?;
            push_counts(alloc, &mut text, amounts.as_slice())?;
        }
        _ => {}
    }
    Ok(text)
}

/// Adds map uids, each with its number.
fn push_counts(alloc: Global, text: &mut String, counts: &[MapCount]) -> Result<(), NoMemory> {
    for given in counts {
        push_number(alloc, text, " ", given.uid.0)?;
        push_number(alloc, text, ":", u32::from(given.count))?;
    }
    Ok(())
}

fn push_number(alloc: Global, text: &mut String, word: &str, number: u32) -> Result<(), NoMemory> {
    let number = format!(in alloc; "{word}{number}")?;
    text.push_str(number.as_str())?;
    Ok(())
}

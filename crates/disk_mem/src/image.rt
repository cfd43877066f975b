// The disks that a crash would leave.
ghost use Rattle.std.specs.Prelude.{◌≡◌, ◌+◌, ◌-◌, ◌^◌, min, sum_by, ◌<◌, ◌≤◌, ℕ, if◌then◌else◌, length, slice_get, slice_index, ◌≢◌, Some, None, IfOk, OnOk};
ghost use Rattle.disk_model.specs.Disk.{covers};
ghost use Rattle.disk_mem.specs.Record.{HoldsAs, found, at_rest, file_after};
ghost use Rattle.disk_mem.specs.Left.{calls_by, noted, IsLeft, shown, shown_of, AreLeft, IsOneMore, IsCopy, touched, touched_by};

use crate::choice::Choice;
use crate::disk::MemDisk;
use crate::file::{File, place_of};
use crate::marks::marks_of;
use crate::note::{Change, Note};
use crate::text::Text;
use disk_model::{FileName, is_named};
use mdbox_base::NoMemory;
use std::alloc::Global;

/// How many of these notes had been made as so many calls had run.
pub fn noted_by(notes: &[Note], calls: u64) -> usize
    ensures count { result ≡ noted calls notes.now }
    ensures within { result ≤ length notes.now }
{
    let mut left = calls;
    for (i, note) in notes.iter().enumerate() {
        if left <= note.idle {
            return i;
        }
        left -= note.idle + 1;
    }
    notes.len()
}

/// How many calls these notes and so many more that changed nothing are, up to the type's end.
fn run_by(notes: &[Note], idle: u64) -> u64
    ensures { result ≡ min (idle + sum_by calls_by notes.now) (2 ^ 64 - 1) }
{
    let mut sum = idle;
    for note in notes {
        sum = sum.saturating_add(note.idle).saturating_add(1);
    }
    sum
}

/// A file as it was at the beginning.
fn first(alloc: Global, base: &[File], name: FileName) -> Result<File, NoMemory>
    ensures name { IfOk result (λ file. file.name ≡ name) }
    ensures shows { IfOk result (λ file. HoldsAs file (at_rest (found base.now name))) }
{
    match place_of(base, name) {
        Some(i) => base[i].at_rest(alloc, name),
        None => Ok(File::gone(alloc, name)),
    }
}

/// A file after these notes.
fn replayed(alloc: Global, base: &[File], name: FileName, notes: &[Note]) -> Result<File, NoMemory>
    ensures name { IfOk result (λ file. file.name ≡ name) }
    ensures shows { IfOk result (λ file. HoldsAs file (file_after name notes.now (at_rest (found base.now name)))) }
{
    let mut file = first(alloc, base, name)?;
    for note in notes {
        file.follow(note)?;
    }
    Ok(file)
}

/// Puts this value at each octet that these notes' writes touched.
fn tear(text: &mut Text, name: FileName, notes: &[Note], octet: u8)
    ensures length { length text.new.octets.items ≡ length text.old.octets.items }
    ensures octets { (i : ℕ) → i < length text.old.octets.items → slice_index text.new.octets.items i ≡ (if touched name notes.now i then octet else slice_index text.old.octets.items i) }
{
    for note in notes {
        if is_named(name, note.name) {
            tear_by(text, &note.change, octet);
        }
    }
}

fn tear_by(text: &mut Text, change: &Change, octet: u8)
    ensures length { length text.new.octets.items ≡ length text.old.octets.items }
    ensures octets { (i : ℕ) → i < length text.old.octets.items → slice_index text.new.octets.items i ≡ (if touched_by change.now i then octet else slice_index text.old.octets.items i) }
{
    match change {
        Change::Written(at, written) => tear_range(text, *at, written.octets.len() as u64, octet),
        Change::HalfWritten(at, count) => tear_range(text, *at, *count, octet),
        _ => {}
    }
}

fn tear_range(text: &mut Text, at: u64, count: u64, octet: u8)
    ensures length { length text.new.octets.items ≡ length text.old.octets.items }
    ensures octets { (i : ℕ) → i < length text.old.octets.items → slice_index text.new.octets.items i ≡ (if covers at count i then octet else slice_index text.old.octets.items i) }
{
    let end = at.saturating_add(count).min(text.octets.len() as u64);
    text.fill(at.min(end) as usize, end as usize, octet);
}

/// What a crash leaves of a file by a choice, after these notes.
fn left_of(
    alloc: Global,
    base: &[File],
    name: FileName,
    notes: &[Note],
    choice: Choice,
) -> Result<File, NoMemory>
    ensures name { IfOk result (λ file. file.name ≡ name) }
    ensures left { IfOk result (λ file. IsLeft choice base.now notes.now name (shown file)) }
{
    let file = first(alloc, base, name)?;
    let marks = marks_of(file.is_there, name, notes);
    match choice {
        Choice::Old => {
            let mut file = replayed(alloc, base, name, &notes[..marks.settled])?;
            file.is_there = marks.was_there;
            Ok(file)
        }
        Choice::New => replayed(alloc, base, name, notes),
        Choice::Torn(octet) => {
            let mut file = replayed(alloc, base, name, notes)?;
            tear(&mut file.text, name, &notes[marks.settled..], octet);
            Ok(file)
        }
    }
}

/// Adds what is left of the file of a name, unless it is among these.
fn add_left(
    alloc: Global,
    made: &mut Vec<File>,
    base: &[File],
    name: FileName,
    notes: &[Note],
    choice: Choice,
) -> Result<(), NoMemory>
    requires { AreLeft choice base.now notes.now made.old.items }
    ensures left { OnOk result (AreLeft choice base.now notes.now made.new.items) }
    ensures added { OnOk result (IsOneMore name made.old.items made.new.items) }
{
    match place_of(made, name) {
        Some(_) => return Ok(()),
        None => {}
    }
    let file = left_of(alloc, base, name, notes, choice)?;
    made.push(file)?;
    Ok(())
}

/// What is left of the files at the beginning.
fn left_base(
    alloc: Global,
    base: &[File],
    notes: &[Note],
    choice: Choice,
) -> Result<Vec<File>, NoMemory>
    ensures left { IfOk result (λ made. AreLeft choice base.now notes.now made.items) }
    ensures all { IfOk result (λ made. (k : ℕ) (file : File) → slice_get base.now k ≡ Some file → found made.items file.name ≢ None) }
{
    let mut made = Vec::new(alloc);
    for file in base {
        add_left(alloc, &mut made, base, file.name, notes, choice)?;
    }
    Ok(made)
}

/// What is left of all files.
fn left_files(
    alloc: Global,
    base: &[File],
    notes: &[Note],
    choice: Choice,
) -> Result<Vec<File>, NoMemory>
    ensures { IfOk result (λ made. (name : FileName) → IsLeft choice base.now notes.now name (shown_of (found made.items name))) }
{
    let mut made = left_base(alloc, base, notes, choice)?;
    for note in notes {
        add_left(alloc, &mut made, base, note.name, notes, choice)?;
    }
    Ok(made)
}

/// A copy of these files.
pub fn copy_of(alloc: Global, files: &[File]) -> Result<Vec<File>, NoMemory>
    ensures { IfOk result (λ copies. (name : FileName) → IsCopy (found files.now name) (found copies.items name)) }
{
    let mut copies = Vec::new(alloc);
    for file in files {
        let text = Text::of(alloc, &file.text.octets)?;
        copies.push(File {
            name: file.name,
            is_there: file.is_there,
            text,
        })?;
    }
    Ok(copies)
}

impl MemDisk {
    ghost use Rattle.disk_mem.specs.Mem.{calls_of, faults_of, IsUnlisted};
    ghost use Rattle.disk_mem.specs.Images.{IsImageOf};

    /// How many calls have run. The number stands still at its type's end.
    pub fn calls(&self) -> u64
        ensures { result ≡ min (calls_of self.now) (2 ^ 64 - 1) }
    {
        run_by(&self.notes, self.idle)
    }

    /// The disk after a crash when so many calls had run, which are at most those that did. It is at rest, no call of it is
    /// listed to fail, and its counts are 0.
    pub fn image(&self, alloc: Global, calls: u64, choice: Choice) -> Result<MemDisk, NoMemory>
        requires { calls ≤ calls_of self.now }
        ensures image { IfOk result (IsImageOf self.now calls choice) }
        ensures unlisted { IfOk result IsUnlisted }
        ensures starved { IfOk result (λ disk. disk.starved ≡ 0) }
        ensures faults { IfOk result (λ disk. faults_of disk ≡ record { reads = 0; changes = 0 }) }
    {
        let count = noted_by(&self.notes, calls);
        let left = left_files(alloc, &self.base, &self.notes[..count], choice)?;
        MemDisk::resting(alloc, left)
    }
}

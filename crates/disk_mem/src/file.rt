// Files as they read.
ghost use Rattle.std.specs.Prelude.{◌≡◌, ◌↔◌, IsTrue, true, false, Some, IsNone, IfSome, IfOk, None, OnOk, OnErr};
ghost use Rattle.disk_model.specs.Disk.{FileState, DiskState, reading, IsPast, IsNext};
ghost use Rattle.disk_mem.specs.Record.{HoldsAs, at_rest, at_file, ReadsAs, ReadsAll, SameFile, found, changed, is_for_all, stepped, IsPlaceOf, IsLessThan, IsNearer};

use crate::note::{Change, Note};
use crate::text::Text;
use disk_model::{FileName, is_named, order};
use mdbox_base::NoMemory;
use std::alloc::Global;

/// A file, or one that is gone, and what it holds.
#[derive(Drop)]
pub struct File {
    pub name: FileName,
    pub is_there: bool,
    pub text: Text,
}

impl File {
    /// Makes a change.
    pub fn apply(&mut self, change: &Change) -> Result<(), NoMemory>
        ensures name { self.new.name ≡ self.old.name }
        ensures ok { OnOk result ((f : FileState) → HoldsAs self.old f → HoldsAs self.new (changed change.now f)) }
        ensures reads { OnOk result ((f : FileState) → ReadsAs self.old f → ReadsAs self.new (changed change.now f)) }
        ensures err { OnErr result (SameFile self.old self.new) }
    {
        match change {
            Change::Written(at, text) => {
                let at = (*at as usize).min(self.text.octets.len());
                self.text.overlay(at, &text.octets)?;
            }
            Change::Cut(length) => self.text.cut(*length as usize),
            Change::Made => {
                self.is_there = true;
                self.text.cut(0);
            }
            Change::Removed => self.is_there = false,
            Change::NamesSynced => {
                if !self.is_there {
                    self.text.cut(0);
                }
            }
            Change::HalfWritten(_, _)
            | Change::HalfCut(_)
            | Change::Synced
            | Change::HalfMade
            | Change::HalfRemoved => {}
        }
        Ok(())
    }

    /// No file of this name.
    pub fn gone(alloc: Global, name: FileName) -> File
        ensures name { result.name ≡ name }
        ensures shows { HoldsAs result (at_rest None) }
    {
        File {
            name,
            is_there: false,
            text: Text::empty(alloc),
        }
    }

    /// The file of this name as it stands still.
    pub fn at_rest(&self, alloc: Global, name: FileName) -> Result<File, NoMemory>
        ensures name { IfOk result (λ file. file.name ≡ name) }
        ensures shows { IfOk result (λ file. HoldsAs file (at_rest (Some self.now))) }
    {
        if !self.is_there {
            return Ok(File::gone(alloc, name));
        }
        let text = Text::of(alloc, &self.text.octets)?;
        Ok(File {
            name,
            is_there: true,
            text,
        })
    }

    /// Makes the change of a note, where it is of this file or of each.
    pub fn follow(&mut self, note: &Note) -> Result<(), NoMemory>
        ensures name { self.new.name ≡ self.old.name }
        ensures shows { OnOk result ((f : FileState) → HoldsAs self.old f → HoldsAs self.new (at_file self.old.name note.now f)) }
    {
        let own = is_named(self.name, note.name);
        if let Change::NamesSynced = note.change {
            return self.apply(&note.change);
        }
        if own {
            return self.apply(&note.change);
        }
        Ok(())
    }
}

/// Where the file of a name stands.
pub fn place_of(files: &[File], name: FileName) -> Option<usize>
    ensures some { IfSome result (λ i. IsPlaceOf files.now name i) }
    ensures none { IsNone result → found files.now name ≡ None }
{
    for (i, file) in files.iter().enumerate() {
        if is_named(name, file.name) {
            return Some(i);
        }
    }
    None
}

/// Makes the change of a note.
pub fn apply_to(files: &mut Vec<File>, alloc: Global, note: &Note) -> Result<(), NoMemory>
    ensures ok { OnOk result ((disk : DiskState) → ReadsAll files.old.items disk → ReadsAll files.new.items (stepped note.now disk)) }
    ensures err { OnErr result ((disk : DiskState) → ReadsAll files.old.items disk → ReadsAll files.new.items disk) }
{
    if let Change::NamesSynced = note.change {
        return Ok(());
    }
    match place_of(files, note.name) {
        Some(i) => files[i].apply(&note.change),
        None => apply_to_none(files, alloc, note),
    }
}

/// Makes the change of a note to a file that isn't there.
fn apply_to_none(files: &mut Vec<File>, alloc: Global, note: &Note) -> Result<(), NoMemory>
    requires not_there { found files.old.items note.now.name ≡ None }
    requires not_for_all { is_for_all note.now.change ≡ false }
    ensures ok { OnOk result ((disk : DiskState) → ReadsAll files.old.items disk → ReadsAll files.new.items (stepped note.now disk)) }
    ensures err { OnErr result (files.new.items ≡ files.old.items) }
{
    if let Change::Made = note.change {
        files.push(File {
            name: note.name,
            is_there: true,
            text: Text::empty(alloc),
        })?;
    }
    Ok(())
}

/// What the file of a name holds. None where it isn't there.
pub fn text_of(files: &[File], name: FileName) -> Option<&Text>
    ensures some { IfSome result (λ text. (disk : DiskState) → ReadsAll files.now disk → reading (disk name) ≡ Some text.now.octets.items) }
    ensures none { IsNone result → (disk : DiskState) → ReadsAll files.now disk → reading (disk name) ≡ None }
{
    match place_of(files, name) {
        Some(i) => shown_text(&files[i]),
        None => None,
    }
}

fn shown_text(file: &File) -> Option<&Text>
    ensures some { IfSome result (λ text. (file.now.is_there ≡ true) × (text.now.octets.items ≡ file.now.text.octets.items)) }
    ensures none { IsNone result → file.now.is_there ≡ false }
{
    if file.is_there {
        Some(&file.text)
    } else {
        None
    }
}

/// The least name of a file that is there and greater than this one.
pub fn least_past(files: &[File], after: Option<FileName>) -> Option<FileName>
    ensures { (disk : DiskState) → ReadsAll files.now disk
        → IfSome result (IsPast ⟦<FileName as Ord>⟧.cmp after) × IsNext ⟦<FileName as Ord>⟧.cmp after result disk }
{
    let mut best = None;
    for file in files {
        best = nearer(files, after, best, file.name);
    }
    best
}

/// A name, where its file is there and it lies between these two, and otherwise the second.
fn nearer(
    files: &[File],
    after: Option<FileName>,
    best: Option<FileName>,
    name: FileName,
) -> Option<FileName>
    ensures { (disk : DiskState) → ReadsAll files.now disk → IsNearer ⟦<FileName as Ord>⟧.cmp disk after best name result }
{
    if !is_past(after, name) {
        return best;
    }
    if !is_less_than(name, best) {
        return best;
    }
    match text_of(files, name) {
        Some(_) => Some(name),
        None => best,
    }
}

/// Whether a name is greater than this one.
fn is_past(after: Option<FileName>, name: FileName) -> bool
    ensures { IsTrue result ↔ IsPast ⟦<FileName as Ord>⟧.cmp after name }
{
    match after {
        None => true,
        Some(after) => order(after, name).is_lt(),
    }
}

/// Whether a name is less than this one.
fn is_less_than(name: FileName, other: Option<FileName>) -> bool
    ensures { IsTrue result ↔ IsLessThan ⟦<FileName as Ord>⟧.cmp name other }
{
    match other {
        None => true,
        Some(other) => order(name, other).is_lt(),
    }
}

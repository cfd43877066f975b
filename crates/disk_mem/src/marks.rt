// What became of a file, as far as names and syncs go.
ghost use Rattle.std.specs.Prelude.{◌≡◌, ◌+◌, ◌<◌, ◌≤◌, ◌^◌, ℕ, length, false, ◌||◌, if◌then◌else◌};
ghost use Rattle.disk_model.specs.Disk.{FileState};
ghost use Rattle.disk_mem.specs.Record.{changed, is_for_all};
ghost use Rattle.disk_mem.specs.Left.{settles};
ghost use Rattle.disk_mem.specs.Marking.{AreMarks};

use crate::note::{Change, Note};
use disk_model::{FileName, is_named};

/// What became of a file.
#[derive(Clone, Copy)]
pub struct Marks {
    pub is_there: bool,
    /// Whether it was there at the last sync of names.
    pub was_there: bool,
    /// How many notes there were as it was last settled.
    pub settled: usize,
}

/// Follows a file through these notes.
pub fn marks_of(is_there: bool, name: FileName, notes: &[Note]) -> Marks
    ensures within { result.settled ≤ length notes.now }
    ensures marks { (f : FileState) → f.is_there ≡ is_there → ((i : ℕ) → f.is_loose i ≡ false) → AreMarks name notes.now f result }
{
    let mut marks = Marks {
        is_there,
        was_there: is_there,
        settled: 0,
    };
    for (i, note) in notes.iter().enumerate() {
        marks.follow(i + 1, is_named(name, note.name), &note.change);
    }
    marks
}

impl Marks {
    /// Follows a file through one change, of it or of another, after which there are so many notes.
    fn follow(&mut self, count: usize, own: bool, change: &Change)
        ensures there { (f : FileState) → f.is_there ≡ self.old.is_there
            → (if is_for_all change.now || own then changed change.now f else f).is_there ≡ self.new.is_there }
        ensures was { self.new.was_there ≡ (if is_for_all change.now then self.old.is_there else self.old.was_there) }
        ensures settled { self.new.settled ≡ (if settles change.now own self.old.is_there then count else self.old.settled) }
    {
        match change {
            Change::NamesSynced => {
                self.was_there = self.is_there;
                if !self.is_there {
                    self.settled = count;
                }
            }
            Change::Synced => {
                if own {
                    self.settled = count;
                }
            }
            Change::Made => self.is_there |= own,
            Change::Removed => self.is_there &= !own,
            Change::Written(_, _)
            | Change::HalfWritten(_, _)
            | Change::Cut(_)
            | Change::HalfCut(_)
            | Change::HalfMade
            | Change::HalfRemoved => {}
        }
    }
}

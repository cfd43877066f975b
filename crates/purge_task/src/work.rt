// What a purge works on. All memory that its events take is taken at the first one.
ghost use Rattle.std.specs.Prelude.{◌≡◌, ◌≤◌, ◌<◌, ◌+◌, ◌*◌, ◌∷◌, [], length, drop, IfSome, IfNone, IfOk};
ghost use Rattle.std.specs.List.{AllZip};
ghost use Rattle.purge_task.specs.Claims.{sources_left};
ghost use Rattle.purge_task.specs.Copied.{NotesCopy};
ghost use Rattle.purge_task.specs.Reserved.{HasRoomForCopy, IsNewSource, IsNewWork, IsPresent};
ghost use Rattle.purge_task.specs.declared.work.Source.{Source as SourceValue};

use crate::finding::{Found, FoundFile};
use map_rows::MapRow;
use mdbox_base::{FileNo, MapPlace, MapUid, NoMemory};
use std::alloc::Global;

/// How many octets are copied at a time.
pub const PIECE: usize = 65_536;

/// A storage file that a purge empties.
#[derive(Drop)]
pub struct Source {
    pub file: FileNo,
    /// Whether a message of it was wanted as it was found.
    pub is_wanted: bool,
    /// The one to which what is wanted of it is copied.
    pub target: Option<FileNo>,
    /// The messages that were copied of it, and where to, in order of offset. As it is switched, those that move.
    pub copied: Vec<MapPlace>,
    /// The messages that aren't wanted as it is switched.
    pub dropped: Vec<MapUid>,
}

/// The storage file that is emptied, and its target.
#[derive(Clone, Copy, Debug, PartialEq, Eq)]
pub struct Present {
    pub file: FileNo,
    pub target: Option<FileNo>,
}

#[derive(Drop)]
pub struct Work {
    pub alloc: Global,
    /// In order of number; those before `next` are done.
    pub sources: Vec<Source>,
    pub next: usize,
    /// Of the present file: its messages before this offset were copied, or weren't wanted.
    pub from: u32,
    /// Where the entry that switches a file is laid out.
    pub text: Vec<u8>,
    /// Through which messages are copied.
    pub block: Vec<u8>,
}

impl Work {
    /// The memory for emptying these files, of which none is taken yet.
    pub fn of(alloc: Global, found: &Found) -> Result<Work, NoMemory>
        requires { found.now.most ≤ 4294967295 }
        ensures { IfOk result (IsNewWork found.now) }
    {
        let sources = sources_of(alloc, &found.files)?;
        Ok(Work {
            alloc,
            sources,
            next: 0,
            from: 0,
            text: vec![in alloc; 0; entry_size(found.most)]?,
            block: vec![in alloc; 0; PIECE]?,
        })
    }

    /// The file that is emptied. None behind the last.
    pub fn present(&self) -> Option<Present>
        ensures some { IfSome result (λ present. (source : SourceValue) × (sources_left self.now ≡ source ∷ drop (self.now.next + 1) self.now.sources.items) × IsPresent source present) }
        ensures none { IfNone result (sources_left self.now ≡ []) }
    {
        if self.next >= self.sources.len() {
            return None;
        }
        let source = &self.sources[self.next];
        Some(Present {
            file: source.file,
            target: source.target,
        })
    }

    /// The files that aren't emptied yet, the present one first.
    pub fn left(&self) -> &[Source]
        ensures { result.now ≡ sources_left self.now }
    {
        &self.sources[self.next.min(self.sources.len())..]
    }

    /// Goes on to the next file.
    pub fn go_on(&mut self)
        requires { self.old.next < length self.old.sources.items }
        ensures { self.new ≡ record self.old { next = self.old.next + 1; from = 0 } }
    {
        self.next += 1;
        self.from = 0;
    }

    /// Lists the copy of a message, and goes on behind the message.
    pub fn note_copy(&mut self, row: MapRow, offset: u32)
        requires room { HasRoomForCopy (sources_left self.old) }
        requires ends { row.offset + row.size ≤ 4294967295 }
        ensures { NotesCopy row offset self.old self.new }
    {
        self.from = row.offset + row.size;
        self.sources[self.next].copied.push_reserved(MapPlace {
            uid: row.uid,
            offset,
        });
    }
}

/// The files that were found, each with room for its lists.
fn sources_of(alloc: Global, files: &[FoundFile]) -> Result<Vec<Source>, NoMemory>
    ensures { IfOk result (λ sources. AllZip IsNewSource files.now sources.items) }
{
    let mut sources = Vec::new(alloc);
    for found in files {
        sources.push(source_of(alloc, found)?)?;
    }
    Ok(sources)
}

/// A file that was found, with room for its lists.
fn source_of(alloc: Global, found: &FoundFile) -> Result<Source, NoMemory>
    ensures { IfOk result (IsNewSource found.now) }
{
    let mut copied = Vec::new(alloc);
    copied.reserve(found.messages)?;
    let mut dropped = Vec::new(alloc);
    dropped.reserve(found.messages)?;
    Ok(Source {
        file: found.file,
        is_wanted: found.is_wanted,
        target: None,
        copied,
        dropped,
    })
}

/// How many octets an entry has that moves or drops so many messages, if it moves all of them.
pub fn entry_size(messages: usize) -> usize
    requires { messages ≤ 4294967295 }
    ensures { result ≡ 17 + 8 * messages }
{
    17 + 8 * messages
}

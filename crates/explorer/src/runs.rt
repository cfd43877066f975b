// One run of the program.
use crate::setting::Altered;
use crate::streams::Streams;
use disk_mem::{Choice, MemDisk};
use disk_model::Disk;
use folder_disk::FolderDisk;
use folder_kept::KeptFolder;
use folder_mem::BareFolder;
use mdbox_base::{NoMemory, Octets};
use mdbox_threads::InTurn;
use mdbox_top::{Status, mdbox_alone};
use request_text::{Outcome, WordsError, read_words, report};
use std::alloc::Global;

/// The words of a run, and its input.
#[derive(Clone, Copy)]
pub struct Run<'x> {
    pub words: &'x [String],
    pub input: &'x [u8],
}

/// Runs the program once, without a thread, and answers the disk after it, and its status. It promises nothing, so that no caller's proof sees what
/// the program promises.
pub fn perform<D: Disk>(
    alloc: Global,
    disk: D,
    words: &[String],
    streams: &mut Streams,
) -> (D, u8) {
    let (Status(status), disk) = match read_words(alloc, words) {
        Ok(command) => mdbox_alone(
            &InTurn,
            alloc,
            command,
            disk,
            &mut streams.input,
            &mut streams.output,
            &mut streams.errors,
            &mut streams.clock,
        ),
        Err(WordsError::Usage) => (report(alloc, &mut streams.errors, Outcome::Usage), disk),
        Err(WordsError::NoMemory) => (report(alloc, &mut streams.errors, Outcome::NoMemory), disk),
    };
    (disk, status)
}

/// Does a run over a folder in memory, and answers the folder after it, and the status.
pub fn perform_in(
    alloc: Global,
    folder: BareFolder,
    run: Run<'_>,
    streams: &mut Streams,
) -> (BareFolder, u8) {
    let disk = FolderDisk::of(KeptFolder::of(folder, alloc), alloc);
    let (disk, status) = perform(alloc, disk, run.words, streams);
    (disk.into_folder().into_folder(), status)
}

/// Does a run on a disk that gives an octet wrong, if one is said, and answers the disk after it, and the status.
pub fn perform_altered(
    alloc: Global,
    disk: MemDisk,
    altered: Option<Altered>,
    run: Run<'_>,
    streams: &mut Streams,
) -> (MemDisk, u8) {
    let Some(
        Altered {
            name,
            offset,
            octet,
        },
    ) = altered
    else {
        return perform(alloc, disk, run.words, streams);
    };
    let (disk, status) = perform(alloc, disk.altered(name, offset, octet), run.words, streams);
    (disk.into_inner(), status)
}

/// A copy of a disk, at rest, with all that was written to it.
pub fn copy_of(alloc: Global, disk: &MemDisk) -> Result<MemDisk, NoMemory> {
    disk.image(alloc, disk.calls(), Choice::New)
}

/// What runs with these words print, one after another.
pub fn watched(alloc: Global, disk: MemDisk, watches: &[Vec<String>]) -> Result<Octets, NoMemory> {
    let mut disk = disk;
    let mut text = Octets::empty(alloc);
    for words in watches {
        let mut streams = Streams::sound(alloc, b"")?;
        let (left, _) = perform(alloc, disk, words.as_slice(), &mut streams);
        disk = left;
        text.push_all(streams.printed())?;
    }
    Ok(text)
}

// Runs of the program on a disk in memory.
use crate::wrong::{Wrong, must};
use disk_mem::{Choice, MemDisk};
use mdbox_base::{MemClock, MemSink, MemSource, NoMemory, Octets, Seq};
use mdbox_threads::Pause;
use mdbox_top::{Status, mdbox_run};
use std::alloc::Global;
use std::sync::Wait;
use std::thread::Threads;

/// The time that the clock tells.
const NOW: u64 = 1_694_498_816;

/// The store's id.
const ID: &str = "0011223344556677";

/// What a run left and printed, and how it ended.
#[derive(Drop)]
pub struct Ran {
    pub disk: MemDisk,
    pub printed: Octets,
    pub status: u8,
}

/// Runs the program once. It promises nothing, so that no caller's proof sees what the program promises.
pub fn run_words<R: Threads + Wait + Sync, P: Pause + Sync>(
    rt: &R,
    alloc: Global,
    disk: MemDisk,
    words: &[&str],
    input: &[u8],
    pause: &P,
) -> Result<Ran, Wrong> {
    let mut given = Vec::new(alloc);
    for word in words {
        given.push(String::from_str(alloc, word)?)?;
    }
    let octets = Octets::of(Vec::from_slice(alloc, input)?);
    let mut source = MemSource::of(octets, Seq::empty(alloc));
    let mut output = MemSink::of(Octets::empty(alloc), Seq::empty(alloc));
    let mut errors = MemSink::of(Octets::empty(alloc), Seq::empty(alloc));
    let mut clock = MemClock::of(NOW, Seq::empty(alloc));
    let (Status(status), disk) = mdbox_run(
        rt,
        alloc,
        given.as_slice(),
        disk,
        &mut source,
        &mut output,
        &mut errors,
        &mut clock,
        pause,
    );
    let mut printed = Octets::empty(alloc);
    printed.push_all(output.held().as_slice())?;
    Ok(Ran {
        disk,
        printed,
        status,
    })
}

/// A new store.
pub fn new_store<R: Threads + Wait + Sync, P: Pause + Sync>(
    rt: &R,
    alloc: Global,
    pause: &P,
) -> Result<MemDisk, Wrong> {
    let disk = MemDisk::fresh(alloc)?;
    let made = run_words(rt, alloc, disk, &["init", ID], b"", pause)?;
    must(made.status == 0, "no store is made")?;
    Ok(made.disk)
}

/// Does a script of so many lanes, of which no request is refused.
pub fn run_script<R: Threads + Wait + Sync, P: Pause + Sync>(
    rt: &R,
    alloc: Global,
    disk: MemDisk,
    lanes: &str,
    script: &[u8],
    pause: &P,
) -> Result<Ran, Wrong> {
    run_words(rt, alloc, disk, &["batch", lanes], script, pause)
}

/// A copy of a disk, at rest, with all that was written to it.
pub fn copy_of(alloc: Global, disk: &MemDisk) -> Result<MemDisk, NoMemory> {
    disk.image(alloc, disk.calls(), Choice::New)
}

// Single runs of lanes in threads.
use crate::pauses::Between;
use crate::printed::printed_at;
use crate::runs::{Ran, new_store, run_script, run_words};
use crate::wrong::{Wrong, must};
use disk_mem::MemDisk;
use disk_model::{Disk, DiskError, FileName};
use mdbox_threads::NoPause;
use std::alloc::Global;
use std::sync::Wait;
use std::thread::Threads;

/// How many octets the large message has.
const LARGE: usize = 200_000;

/// What `exercise` prints of 2,000 requests of four lanes.
pub fn numbers_of_exercise<R: Threads + Wait + Sync>(
    rt: &R,
    alloc: Global,
) -> Result<String, Wrong> {
    let disk = new_store(rt, alloc, &NoPause)?;
    let words = ["exercise", "4", "2000", "7"];
    let ran = run_words(rt, alloc, disk, &words, b"", &NoPause)?;
    must(ran.status == 0, "a request is refused")?;
    let Ok(text) = str::from_utf8(ran.printed.as_slice()) else {
        return Err(Wrong::Differs("no text"));
    };
    Ok(String::from_str(alloc, text.trim_end())?)
}

/// A store with a message of these octets, and with another that is gone from its mailbox.
fn store_with<R: Threads + Wait + Sync>(
    rt: &R,
    alloc: Global,
    message: &[u8],
) -> Result<MemDisk, Wrong> {
    let disk = new_store(rt, alloc, &NoPause)?;
    let words = ["deliver", "INBOX"];
    let ran = run_words(rt, alloc, disk, &words, message, &NoPause)?;
    let ran = run_words(rt, alloc, ran.disk, &words, b"Hello", &NoPause)?;
    let words = ["expunge", "INBOX", "2"];
    let ran = run_words(rt, alloc, ran.disk, &words, b"", &NoPause)?;
    Ok(ran.disk)
}

/// A message of 200,000 octets is fetched in pieces, and between two of them its storage file is purged, since another message is gone:
/// the fetch gives the whole message, and its last event removes the file.
pub fn fetch_beside_purge<R: Threads + Wait + Sync>(
    rt: &R,
    host: HostRuntime,
) -> Result<(), Wrong> {
    let alloc = host.alloc();
    let large = vec![in alloc; b'a'; LARGE]?;
    let disk = store_with(rt, alloc, large.as_slice())?;
    let pause = Between::of(host);
    let script = b"1 fetch 5:INBOX 1\n2 purge\n";
    let Ran {
        mut disk,
        printed,
        status,
    } = run_script(rt, alloc, disk, "2", script, &pause)?;
    if pause.was_late() {
        return Err(Wrong::Late);
    }
    must(pause.was_met(), "the lanes weren't held back")?;
    must(status == 0, "a request is refused")?;
    let Ok(text) = str::from_utf8(printed.as_slice()) else {
        return Err(Wrong::Differs("no text"));
    };
    let Ok(message) = str::from_utf8(large.as_slice()) else {
        return Err(Wrong::Differs("no text"));
    };
    let Some(fetched) = printed_at(text, 1) else {
        return Err(Wrong::Differs("no reply"));
    };
    let place = fetched.first;
    let other = 3 - place.min(2);
    let expected = format!(in alloc; "1 {place} OK {LARGE}\n{message}\n2 {other} OK 1 1 0\n")?;
    must(text == expected.as_str(), "what is printed")?;
    let gone = disk.length(FileName::Mail(1)) == Err(DiskError::Absent);
    must(gone, "the purged file is still there")
}

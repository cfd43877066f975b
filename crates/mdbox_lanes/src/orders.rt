// A purge, a delivery, a fetch and a move on four lanes, in many orders.
use crate::lists::{follow, records_after};
use crate::pauses::Ordered;
use crate::runs::{Ran, copy_of, new_store, run_script};
use crate::wrong::{Wrong, must};
use disk_mem::MemDisk;
use mdbox_base::Octets;
use mdbox_threads::NoPause;
use std::alloc::Global;
use std::sync::Wait;
use std::thread::Threads;

/// How many orders are played.
const ORDERS: u64 = 1000;

/// What is done before: a message is gone that a purge drops.
const BEFORE: &[u8] =
    b"1 make 1:A\n1 deliver 5:INBOX 7 5\nHello\n1 deliver 5:INBOX 7 5\nWorld\n1 deliver 5:INBOX 7 4\nGone\n1 expunge 5:INBOX 3\n";

const SCRIPT: &[u8] =
    b"1 purge\n2 deliver 1:A 9 5\nThird\n3 fetch 5:INBOX 2\n4 move 5:INBOX 2 1:A\n";

const AFTER: &[u8] =
    b"1 fetch 5:INBOX 1\n1 fetch 5:INBOX 2\n1 fetch 1:A 1\n1 fetch 1:A 2\n1 fetch 1:A 3\n1 resync\n1 counts\n";

/// How many orders were played, and how many different texts they printed.
#[derive(Drop)]
pub struct Counted {
    pub orders: u64,
    pub outcomes: u64,
}

/// Plays each order. Answers also which went otherwise than lists do.
pub fn play_orders<R: Threads + Wait + Sync>(
    rt: &R,
    host: HostRuntime,
) -> Result<Counted, (u64, Wrong)> {
    let alloc = host.alloc();
    let mut outcomes = Vec::new(alloc);
    let disk = match begin(rt, alloc) {
        Ok(disk) => disk,
        Err(wrong) => return Err((0, wrong)),
    };
    for order in 1..=ORDERS {
        match play(rt, host, &disk, order) {
            Ok(text) => match keep(&mut outcomes, text) {
                Ok(()) => {}
                Err(wrong) => return Err((order, wrong)),
            },
            Err(wrong) => return Err((order, wrong)),
        }
    }
    Ok(Counted {
        orders: ORDERS,
        outcomes: outcomes.len() as u64,
    })
}

/// The store before the lanes.
fn begin<R: Threads + Wait + Sync>(rt: &R, alloc: Global) -> Result<MemDisk, Wrong> {
    let disk = new_store(rt, alloc, &NoPause)?;
    let ran = run_script(rt, alloc, disk, "1", BEFORE, &NoPause)?;
    must(ran.status == 0, "the store isn't filled")?;
    Ok(ran.disk)
}

/// Plays an order, and compares what was printed with lists, and what is there afterwards. Answers what was printed.
fn play<R: Threads + Wait + Sync>(
    rt: &R,
    host: HostRuntime,
    disk: &MemDisk,
    order: u64,
) -> Result<Octets, Wrong> {
    let alloc = host.alloc();
    let pause = Ordered::of(host, order);
    let ran = run_script(rt, alloc, copy_of(alloc, disk)?, "4", SCRIPT, &pause)?;
    if pause.was_late() {
        return Err(Wrong::Late);
    }
    must(pause.is_done(), "a lane wasn't given its turns")?;
    let Ok(text) = str::from_utf8(ran.printed.as_slice()) else {
        return Err(Wrong::Differs("no text"));
    };
    let listed = follow(alloc, text)?;
    let records = records_after(text)?;
    let left = run_script(rt, alloc, ran.disk, "1", AFTER, &NoPause)?;
    let expected = seen_after(alloc, listed.as_slice(), records)?;
    must(
        left.printed.as_slice() == expected.as_bytes(),
        "what is there afterwards",
    )?;
    Ok(ran.printed)
}

/// What is printed afterwards, if A has these messages, and the map so many records.
fn seen_after(alloc: Global, listed: &[&'static str], records: u64) -> Result<String, Wrong> {
    let [first, second] = listed else {
        return Err(Wrong::Differs("not two messages"));
    };
    Ok(format!(in alloc;
        "1 1 OK 5\nHello\n2 2 NO 12 no message\n3 3 OK 5\n{first}\n4 4 OK 5\n{second}\n5 5 NO 12 no message\n6 6 OK 0 0\n7 7 OK {records} 3 3 0\n"
    )?)
}

/// Keeps a text, unless it was seen.
fn keep(outcomes: &mut Vec<Octets>, text: Octets) -> Result<(), Wrong> {
    for other in outcomes.iter() {
        if other.as_slice() == text.as_slice() {
            return Ok(());
        }
    }
    outcomes.push(text)?;
    Ok(())
}

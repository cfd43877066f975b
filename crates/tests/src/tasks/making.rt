// Two makes of mailboxes over one store, whose events take turns.
use crate::tasks::makes::Makes;
use crate::tasks::race::Turn;
use crate::tasks::race::Turn::{One, Two};
use crate::tasks::stores::{named, three_messages};
use disk_mem::MemDisk;
use disk_model::{Disk, FileName};
use mdbox_base::{Progress, Refusal, Reply};
use std::alloc::Global;
use std::test::Fail;

/// How a make ended.
#[derive(Clone, Copy, Debug, PartialEq, Eq)]
enum End {
    /// It is still to end.
    Open,
    Made,
    Refused(Refusal),
}

fn end_of(progress: Progress) -> End {
    match progress {
        Progress::More => End::Open,
        Progress::Done(Reply::Refused(why)) => End::Refused(why),
        Progress::Done(_) => End::Made,
    }
}

/// Whether the mailbox with this number has a log of generation 1.
fn has_log(disk: &mut MemDisk, number: u32) -> bool {
    disk.length(FileName::Box(number, 1)).is_ok()
}

/// A make of a mailbox with each of these names.
fn two_makes(alloc: Global, first: &[u8], second: &[u8]) -> Result<Makes<MemDisk>, Fail> {
    let (one, two) = (named(alloc, first)?, named(alloc, second)?);
    let store = three_messages(alloc)?;
    Ok(Makes::of(one, two, store))
}

/// Lets the makes take turns, and answers how they ended.
fn run(makes: &mut Makes<MemDisk>, turns: &[Turn]) -> (End, End) {
    let (mut one, mut two) = (End::Open, End::Open);
    for turn in turns {
        let end = end_of(makes.turn(*turn));
        match turn {
            Turn::One => one = end,
            Turn::Two => two = end,
        }
    }
    (one, two)
}

/// Which of the logs of the mailboxes 2, 3 and 4 are there.
fn logs(disk: &mut MemDisk) -> [bool; 3] {
    [has_log(disk, 2), has_log(disk, 3), has_log(disk, 4)]
}

/// How two makes ended, how many mailboxes there are then, and which logs.
fn make_twice(
    alloc: Global,
    names: (&[u8], &[u8]),
    turns: &[Turn],
) -> Result<(End, End, u32, [bool; 3]), Fail> {
    let mut makes = two_makes(alloc, names.0, names.1)?;
    let (one, two) = run(&mut makes, turns);
    let boxes = makes.store().map().boxes();
    let mut disk = makes.into_disk();
    let left = logs(&mut disk);
    Ok((one, two, boxes, left))
}

/// Of two makes of one name the one whose second event comes first is done; the other is refused, and its log removed.
#[test]
fn two_makes_of_one_name(rt: HostRuntime) -> Result<(), Fail> {
    let refused = End::Refused(Refusal::Exists);
    let first = [true, false, false];
    let second = [false, true, false];
    let cases: [(&[Turn], (End, End, u32, [bool; 3])); 4] = [
        (&[One, Two, One, Two], (End::Made, refused, 2, first)),
        (&[One, Two, Two, One], (refused, End::Made, 2, second)),
        (&[Two, One, One, Two], (End::Made, refused, 2, second)),
        (&[One, One, Two], (End::Made, refused, 2, first)),
    ];
    for (turns, wanted) in cases {
        let end = make_twice(rt.alloc(), (b"A", b"A"), turns)?;
        assert_eq!(rt; end, wanted);
    }
    Ok(())
}

/// A make whose number was overtaken removes its log and begins again, with the next number.
#[test]
fn a_make_that_is_overtaken(rt: HostRuntime) -> Result<(), Fail> {
    let names: (&[u8], &[u8]) = (b"A", b"B");
    let both = make_twice(rt.alloc(), names, &[One, Two, One, Two])?;
    assert_eq!(rt; both, (End::Made, End::Made, 3, [true, true, false]));
    let begun = make_twice(rt.alloc(), names, &[One, Two, Two, One])?;
    assert_eq!(rt; begun, (End::Open, End::Made, 2, [false, true, false]));
    let again = make_twice(rt.alloc(), names, &[One, Two, Two, One, One, One])?;
    assert_eq!(rt; again, (End::Made, End::Made, 3, [false, true, true]));
    Ok(())
}

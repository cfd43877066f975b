// Two tasks over one store that take turns, and what is left then.
ghost use Rattle.tests.specs.Tasks.{HasNotStarted};

use crate::tasks::race::{AnyTask, Race, Turn};
use crate::tasks::stores::{Laid, all_names, first, inbox, lists, named, opened};
use disk_mem::MemDisk;
use mdbox_base::{Name, Progress, Refusal, Reply, Uid};
use std::alloc::Global;
use std::test::Fail;

/// How a request ended.
#[derive(Clone, Copy, Debug, PartialEq, Eq)]
pub enum End {
    /// There is more to do.
    More,
    Done,
    Copied(Uid),
    Moved(Uid),
    Gone(Uid),
    Refused(Refusal),
    /// Another reply.
    Other,
}

fn end_of(progress: Progress) -> End {
    match progress {
        Progress::More => End::More,
        Progress::Done(Reply::Done) => End::Done,
        Progress::Done(Reply::Copied { uid }) => End::Copied(uid),
        Progress::Done(Reply::Moved { uid, gone }) => {
            if gone {
                End::Gone(uid)
            } else {
                End::Moved(uid)
            }
        }
        Progress::Done(Reply::Refused(why)) => End::Refused(why),
        Progress::Done(_) => End::Other,
    }
}

/// What is asked of a message of INBOX.
#[derive(Clone, Copy)]
pub enum Asked {
    Copy,
    Move,
    Expunge,
}

/// A request: what is asked of the message of INBOX with this UID, and the target.
pub type Request = (Asked, u32, &'static [u8]);

fn task(asked: Asked, uid: u32, name: Name, target: Name) -> AnyTask
    ensures { HasNotStarted result }
{
    match asked {
        Asked::Copy => AnyTask::copy(name, uid, target),
        Asked::Move => AnyTask::moving(name, uid, target),
        Asked::Expunge => AnyTask::expunge(name, uid),
    }
}

/// Two requests, and the store that they are made to.
pub struct Start {
    pub one: Request,
    pub two: Request,
    pub laid: Laid,
}

/// INBOX and the target of a request.
fn names_of(alloc: Global, request: &Request) -> Result<(Name, Name), Fail> {
    let (_, _, target) = *request;
    let name = inbox(alloc)?;
    let target = named(alloc, target)?;
    Ok((name, target))
}

/// Two tasks that have not begun, and their store.
fn race_of(alloc: Global, start: &Start) -> Result<Race<MemDisk>, Fail> {
    let (name, target) = names_of(alloc, &start.one)?;
    let (other_name, other_target) = names_of(alloc, &start.two)?;
    let store = opened(alloc, &start.laid)?;
    let (asked, uid, _) = start.one;
    let one = task(asked, uid, name, target);
    let (asked, uid, _) = start.two;
    let two = task(asked, uid, other_name, other_target);
    Ok(Race::of(one, two, store))
}

/// How both requests ended, the UIDs that INBOX, A and B list then, and the count of record 1.
pub type Raced = (End, End, [u64; 3], u16);

/// Lets the tasks take turns. None if at any moment more messages were listed of record 1 than it counts.
fn take_turns(race: &mut Race<MemDisk>, turns: &[Turn]) -> Option<(End, End)> {
    let (mut one, mut two) = (End::More, End::More);
    for turn in turns {
        let end = end_of(race.turn(*turn));
        let (listed, count) = first(race.store());
        if listed > u64::from(count) {
            return None;
        }
        match turn {
            Turn::One => one = end,
            Turn::Two => two = end,
        }
    }
    Some((one, two))
}

/// Lets the tasks take turns. None if at any moment more messages were listed of record 1 than it counts.
pub fn raced(alloc: Global, start: &Start, turns: &[Turn]) -> Result<Option<Raced>, Fail> {
    let names = all_names(alloc)?;
    let mut race = race_of(alloc, start)?;
    let ends = take_turns(&mut race, turns);
    let left = lists(race.store(), &names);
    let (_, count) = first(race.store());
    let _disk = race.into_disk();
    let Some((one, two)) = ends else {
        return Ok(None);
    };
    Ok(Some((one, two, left, count)))
}

// Every order of the events of two lanes, and what plain lists answer to the steps in that order.
use crate::course::{Choice, Course};
use crate::plain::Followed;
use crate::runs::copy_of;
use crate::two_lanes::{Lane, TwoLanes, Wrong, begin, script_of};
use case_text::Report;
use disk_mem::MemDisk;
use disk_model::Disk;
use lanes::Turned;
use mdbox_base::{NoMemory, Octets, Reply};
use request_text::push_answer;
use std::alloc::Global;

/// How many orders are gone through at the most.
const MOST_ORDERS: u64 = 20_000;

/// A script of two lanes, what is done before it, and what looks at the store after it.
#[derive(Clone, Copy)]
pub struct Orders<'x> {
    pub alloc: Global,
    /// A new store.
    pub disk: &'x MemDisk,
    pub before: &'x [u8],
    pub script: &'x [u8],
    pub after: &'x [u8],
}

impl Orders<'_> {
    /// Tells how many orders the events of the script have, and how many different outcomes; or the first order that goes otherwise than
    /// lists do. False if the scripts aren't written as scripts are.
    pub fn explore(self, report: &mut Report) -> Result<bool, NoMemory> {
        let alloc = self.alloc;
        let mut outcomes = Vec::new(alloc);
        let mut turns = Vec::new(alloc);
        for number in 1..=MOST_ORDERS {
            report.count_run();
            match self.run(&mut turns) {
                Ok(outcome) => keep(&mut outcomes, outcome)?,
                Err(Wrong::Differs(why)) => {
                    tell(alloc, report.found(), why, turns.as_slice())?;
                    return Ok(true);
                }
                Err(Wrong::NoMemory) => return Err(NoMemory),
                Err(Wrong::NoScript) => return Ok(false),
            }
            if !next_order(&mut turns) {
                let different = outcomes.len();
                let text = format!(in alloc; ". {number} orders, {different} outcomes\n")?;
                report.found().push_str(text.as_str())?;
                return Ok(true);
            }
        }
        report.found().push_str(". too many orders\n")?;
        Ok(true)
    }

    /// Does the script in the order that begins with these turns, and goes on with the first lane that has a request left. Answers
    /// the replies, and what is seen afterwards.
    fn run(self, turns: &mut Vec<Choice>) -> Result<Octets, Wrong> {
        let alloc = self.alloc;
        let mut lists = Followed::fresh(alloc)?;
        let mut outcome = Octets::empty(alloc);
        let mut unused = Octets::empty(alloc);
        let disk = copy_of(alloc, self.disk)?;
        let disk = play(
            alloc,
            disk,
            &mut lists,
            self.before,
            &mut Vec::new(alloc),
            &mut unused,
        )?;
        let disk = play(alloc, disk, &mut lists, self.script, turns, &mut outcome)?;
        play(
            alloc,
            disk,
            &mut lists,
            self.after,
            &mut Vec::new(alloc),
            &mut outcome,
        )?;
        Ok(outcome)
    }
}

/// The next order: the last turn that the second lane could have had is its own, and none is said of those after it. False if there
/// is none.
fn next_order(turns: &mut Vec<Choice>) -> bool {
    for _ in 0..turns.len() {
        let Some(turn) = turns.pop() else {
            return false;
        };
        if turn.free {
            let next = Choice {
                lane: Lane::Second,
                free: false,
            };
            return turns.push(next).is_ok();
        }
    }
    false
}

/// Keeps an outcome, unless it was seen.
fn keep(outcomes: &mut Vec<Octets>, outcome: Octets) -> Result<(), NoMemory> {
    for other in outcomes.iter() {
        if other.as_slice() == outcome.as_slice() {
            return Ok(());
        }
    }
    outcomes.push(outcome)?;
    Ok(())
}

/// Tells what went wrong, and after which turns.
fn tell(alloc: Global, out: &mut String, why: &str, turns: &[Choice]) -> Result<(), NoMemory> {
    out.push_str(". ")?;
    out.push_str(why)?;
    out.push_str(" after")?;
    for turn in turns {
        let lane = turn.lane.number();
        let text = format!(in alloc; " {lane}")?;
        out.push_str(text.as_str())?;
    }
    out.push_str("\n")?;
    Ok(())
}

/// Opens the store, does a script in an order, and compares what comes of each turn with what the lists answer. Adds the replies.
fn play(
    alloc: Global,
    disk: MemDisk,
    lists: &mut Followed,
    script: &[u8],
    turns: &mut Vec<Choice>,
    out: &mut Octets,
) -> Result<MemDisk, Wrong> {
    let mut course = Course::of(alloc, script_of(alloc, script)?)?;
    let mut world = begin(alloc, disk, script_of(alloc, script)?)?;
    let played = course.play(&mut world, lists, turns);
    let told = push_replies(alloc, world.replies(), out);
    let disk = world.into_disk();
    played?;
    told?;
    Ok(disk)
}

fn push_replies(
    alloc: Global,
    replies: &[Option<Reply>],
    out: &mut Octets,
) -> Result<(), NoMemory> {
    for reply in replies.iter().flatten() {
        push_answer(alloc, out, reply)?;
    }
    Ok(())
}

/// Does a script in turns of these lanes, a digit for each, to its end. Answers the disk, and what `batch` prints.
pub fn take_turns(
    alloc: Global,
    disk: MemDisk,
    lanes: &str,
    script: &[u8],
) -> Result<(MemDisk, Octets), Wrong> {
    let mut world = begin(alloc, disk, script_of(alloc, script)?)?;
    let taken = take_each(&mut world, lanes);
    let printed = world.printed(alloc);
    let disk = world.into_disk();
    taken?;
    Ok((disk, printed?))
}

/// Takes each turn. Behind the last no lane has a request left.
fn take_each<D: Disk>(world: &mut TwoLanes<D>, lanes: &str) -> Result<(), Wrong> {
    for digit in lanes.as_bytes() {
        let lane = match *digit {
            b'1' => Lane::First,
            b'2' => Lane::Second,
            _ => return Err(Wrong::NoScript),
        };
        if world.advance(lane) != Turned::Worked {
            return Err(Wrong::Differs("a lane has no request left"));
        }
    }
    if world.is_idle() {
        Ok(())
    } else {
        Err(Wrong::Differs("a lane has a request left"))
    }
}

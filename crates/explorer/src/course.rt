// One order of the events of two lanes, beside lists that do the same steps.
use crate::plain::{Followed, Wanted, is_answer};
use crate::two_lanes::{LANES, Lane, TwoLanes, Wrong};
use disk_model::Disk;
use lanes::{Turn, Turned};
use mdbox_base::{NoMemory, Reply, Request, Script, Seq};
use std::alloc::Global;

/// How many turns an order has at the most.
const MOST_TURNS: usize = 1_000;

/// A turn of a lane that has a request left, and whether the second could have had it in the place of the first.
#[derive(Clone, Copy)]
pub struct Choice {
    pub lane: Lane,
    pub free: bool,
}

/// The requests of a script, and what lists answer to each so far.
#[derive(Drop)]
pub struct Course {
    requests: Seq<(u32, Request)>,
    wanted: Vec<Option<Wanted>>,
    /// How many requests of other lanes may have begun beside one.
    beside: u64,
    /// How many requests are answered.
    answered: usize,
    /// How many steps were made, and the number of calls of the last.
    steps: usize,
    calls: u64,
}

impl Course {
    pub fn of(alloc: Global, script: Script) -> Result<Course, NoMemory> {
        let mut wanted = Vec::new(alloc);
        let mut beside = 0;
        for (lane, _) in script.requests.as_slice() {
            wanted.push(None)?;
            if *lane == LANES {
                beside = 1;
            }
        }
        Ok(Course {
            requests: script.requests,
            wanted,
            beside,
            answered: 0,
            steps: 0,
            calls: 0,
        })
    }

    /// Gives the lanes their turns to the end: those that are planned, and then the first lane that has a request left.
    pub fn play<D: Disk>(
        &mut self,
        world: &mut TwoLanes<D>,
        lists: &mut Followed,
        turns: &mut Vec<Choice>,
    ) -> Result<(), Wrong> {
        for number in 0..MOST_TURNS {
            let first = self.in_turn(world, Lane::First);
            let second = self.in_turn(world, Lane::Second);
            let lane = match turns.get(number) {
                Some(choice) => choice.lane,
                None => {
                    let Some(choice) = chosen(first.is_some(), second.is_some()) else {
                        return self.end(world, turns.as_slice());
                    };
                    turns.push(choice)?;
                    choice.lane
                }
            };
            let place = match lane {
                Lane::First => first,
                Lane::Second => second,
            };
            self.turn(world, lists, lane, place)?;
        }
        Err(Wrong::Differs("it doesn't end"))
    }

    /// The place of a lane's request in turn: the first that isn't answered.
    fn in_turn<D: Disk>(&self, world: &TwoLanes<D>, lane: Lane) -> Option<usize> {
        for (place, (other, _)) in self.requests.as_slice().iter().enumerate() {
            if *other == lane.number() && world.reply(place).is_none() {
                return Some(place);
            }
        }
        None
    }

    /// Gives a lane its turn, whose request in turn has this place.
    fn turn<D: Disk>(
        &mut self,
        world: &mut TwoLanes<D>,
        lists: &mut Followed,
        lane: Lane,
        place: Option<usize>,
    ) -> Result<(), Wrong> {
        let Some(place) = place else {
            return Err(Wrong::Differs("a lane has no request left"));
        };
        if world.advance(lane) != Turned::Worked {
            return Err(Wrong::Differs("a lane is idle"));
        }
        let steps = world.journal().len();
        if steps != self.steps {
            self.step(world, lists, lane, place)?;
        }
        if steps > self.steps.saturating_add(1) {
            return Err(Wrong::Differs("a turn makes two steps"));
        }
        self.steps = steps;
        self.look(world, place)
    }

    /// Follows the last step, which is to be of this lane and place.
    fn step<D: Disk>(
        &mut self,
        world: &TwoLanes<D>,
        lists: &mut Followed,
        lane: Lane,
        place: usize,
    ) -> Result<(), Wrong> {
        let Some(entry) = world.journal().last() else {
            return Err(Wrong::Differs("a step is gone"));
        };
        if entry.lane != lane.number()
            || entry.request as usize != place
            || entry.calls < self.calls
        {
            return Err(Wrong::Differs("a step is another's"));
        }
        self.calls = entry.calls;
        let Some((_, request)) = self.requests.at(place) else {
            return Err(Wrong::Differs("a step is of no request"));
        };
        let Some(wanted) = self.wanted.get_mut(place) else {
            return Err(Wrong::Differs("a step is of no request"));
        };
        let answer = lists.step(request, entry.half, wanted, world.reply(place))?;
        if answer.is_none() {
            return Err(Wrong::Differs("lists make no such step"));
        }
        *wanted = answer;
        Ok(())
    }

    /// Looks at the replies after a turn of the request at this place.
    fn look<D: Disk>(&mut self, world: &TwoLanes<D>, place: usize) -> Result<(), Wrong> {
        let mut counts = [0u64; 2];
        let mut answered = 0usize;
        for (at, (lane, _)) in self.requests.as_slice().iter().enumerate() {
            let Some(given) = world.reply(at) else {
                continue;
            };
            if !self.is_wanted(at, given) {
                return Err(Wrong::Differs("a reply isn't that of the lists"));
            }
            answered = answered.saturating_add(1);
            if *lane == LANES {
                counts[1] = counts[1].saturating_add(1);
            } else {
                counts[0] = counts[0].saturating_add(1);
            }
        }
        let own = usize::from(world.reply(place).is_some());
        if answered != self.answered.saturating_add(own) {
            return Err(Wrong::Differs("a turn answers another request"));
        }
        self.answered = answered;
        if world.replied(Lane::First) != counts[0] || world.replied(Lane::Second) != counts[1] {
            return Err(Wrong::Differs("replies are miscounted"));
        }
        Ok(())
    }

    /// Whether a reply is the one that lists answer to the request at this place.
    fn is_wanted(&self, place: usize, given: &Reply) -> bool {
        match self.wanted.get(place) {
            Some(Some(wanted)) => is_answer(given, &wanted.reply, self.beside),
            _ => false,
        }
    }

    /// Looks at a world of which no lane has a request left.
    fn end<D: Disk>(&self, world: &mut TwoLanes<D>, turns: &[Choice]) -> Result<(), Wrong> {
        if !world.is_idle() {
            return Err(Wrong::Differs("a lane without requests works"));
        }
        if !are_told(world.turns(), turns) {
            return Err(Wrong::Differs("the trace isn't that of the turns"));
        }
        if world.broken() > 0 {
            return Err(Wrong::Differs("a step is broken"));
        }
        Ok(())
    }
}

/// The first lane that has a request left. None if neither has one.
fn chosen(first: bool, second: bool) -> Option<Choice> {
    if first {
        return Some(Choice {
            lane: Lane::First,
            free: second,
        });
    }
    if second {
        return Some(Choice {
            lane: Lane::Second,
            free: false,
        });
    }
    None
}

/// Whether a trace is that of these turns, and an idle one of each lane after them.
fn are_told(trace: &[Turn], turns: &[Choice]) -> bool {
    if trace.len() != turns.len().saturating_add(2) {
        return false;
    }
    let mut idle = 0u32;
    for (number, turn) in trace.iter().enumerate() {
        let told = match turns.get(number) {
            Some(choice) => turn.lane == choice.lane.number() && !turn.idle,
            None => {
                idle = idle.saturating_add(1);
                turn.lane == idle && turn.idle
            }
        };
        if !told {
            return false;
        }
    }
    true
}

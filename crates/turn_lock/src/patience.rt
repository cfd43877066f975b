// How long a seat looks for its turn before it sleeps.

/// How often a seat looks while another has its turns, at the most: for some 180 microseconds.
const MOST_LOOKS: u32 = 40_000;

/// For how many turns a seat rests at the most.
const MOST_RESTS: u32 = 63;

/// A wake takes longer than most turns, so a seat whose turn is near doesn't sleep, but looks for it. If that was in vain, as it is
/// where threads share a processor or a turn waits for a disk, the seat rests for some turns: it sleeps at once, and wakes nobody
/// ahead. It rests for one turn, and twice as long and one more each time that it looked in vain again.
#[derive(Drop)]
pub(crate) struct Patience {
    /// For how many turns yet it rests.
    rests: u32,
    /// For how many it rested last, if it has looked in vain since.
    last: u32,
}

impl Patience {
    /// It hasn't looked yet.
    pub(crate) fn full() -> Patience {
        Patience { rests: 0, last: 0 }
    }

    /// How often to look for the next turn: not at all while it rests.
    pub(crate) fn looks(&self) -> u32 {
        if self.rests == 0 { MOST_LOOKS } else { 0 }
    }

    /// Its turn has come, with so many looks left. With all of them it came at the first look, which tells nothing.
    pub(crate) fn learn(&mut self, left: u32) {
        if self.rests > 0 {
            self.rests -= 1;
        } else if left == 0 {
            self.last = self
                .last
                .saturating_mul(2)
                .saturating_add(1)
                .min(MOST_RESTS);
            self.rests = self.last;
        } else if left < MOST_LOOKS && self.last > 0 {
            self.last = 0;
        }
    }
}

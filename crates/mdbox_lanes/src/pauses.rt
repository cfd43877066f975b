// What holds workers back, so that their turns come in an order that is known.
use mdbox_threads::Pause;
use std::hint::spin_loop;
use std::sync::atomic::{AtomicU64, Ordering};
use std::thread;
use std::time::Duration;

/// How often a worker looks whether it may go on, at the most.
const MOST_LOOKS: u64 = 200_000_000;

/// After how many looks it rests.
const BUSY_LOOKS: u64 = 64;

/// How long it rests, in microseconds.
const REST: u64 = 20;

/// How many lanes are ordered.
pub const LANES: u32 = 4;

/// A number that workers wait for.
#[derive(Drop)]
struct Watched {
    rt: HostRuntime,
    number: AtomicU64,
    /// 1 if a worker didn't wait for it to the end.
    late: AtomicU64,
}

impl Watched {
    fn of(rt: HostRuntime, number: u64) -> Watched {
        Watched {
            rt,
            number: AtomicU64::new(number),
            late: AtomicU64::new(0),
        }
    }

    fn set(&self, number: u64) {
        self.number.store(number, Ordering::SeqCst);
    }

    fn is(&self, number: u64) -> bool {
        self.number.load(Ordering::SeqCst) == number
    }

    /// Waits until the number is this.
    fn wait(&self, number: u64) {
        for look in 0..MOST_LOOKS {
            if self.is(number) {
                return;
            }
            if look % BUSY_LOOKS == 0 {
                thread::sleep(&self.rt, Duration::from_micros(REST));
            } else {
                spin_loop();
            }
        }
        self.late.store(1, Ordering::SeqCst);
    }

    fn was_late(&self) -> bool {
        self.late.load(Ordering::SeqCst) != 0
    }
}

/// The second lane stands before its first turn until the first stands before its third; and the first stands there until the second has
/// a reply.
#[derive(Drop)]
pub struct Between {
    /// 1 once the first lane stands before its third turn.
    stands: Watched,
    /// How many replies the second lane has.
    replied: Watched,
}

impl Between {
    pub fn of(rt: HostRuntime) -> Between {
        Between {
            stands: Watched::of(rt, 0),
            replied: Watched::of(rt, 0),
        }
    }

    pub fn was_late(&self) -> bool {
        self.stands.was_late() || self.replied.was_late()
    }

    /// Whether each lane came to the turn before which it is held.
    pub fn was_met(&self) -> bool {
        self.stands.is(1) && self.replied.is(1)
    }
}

impl Pause for Between {
    fn turns(&self) -> u32 {
        1
    }

    fn before(&self, lane: u32, event: u64) {
        match (lane, event) {
            (1, 3) => {
                self.stands.set(1);
                self.replied.wait(1);
            }
            (2, 1) => self.stands.wait(1),
            _ => {}
        }
    }

    fn after(&self, lane: u32, replies: u64) {
        if lane == 2 {
            self.replied.set(replies);
        }
    }
}

/// Lanes of one request each, whose turns come in an order that a number makes. Each lane has its turns until the one that finds no
/// request.
#[derive(Drop)]
pub struct Ordered {
    /// The lane whose turn it is, or 0.
    next: Watched,
    /// The lanes that have turns left, a bit for each.
    left: AtomicU64,
    /// The lanes that have their reply.
    replied: AtomicU64,
    seed: AtomicU64,
}

impl Ordered {
    pub fn of(rt: HostRuntime, number: u64) -> Ordered {
        let ordered = Ordered {
            next: Watched::of(rt, 0),
            left: AtomicU64::new(0b11110),
            replied: AtomicU64::new(0),
            seed: AtomicU64::new(number),
        };
        ordered.choose();
        ordered
    }

    pub fn was_late(&self) -> bool {
        self.next.was_late()
    }

    /// Whether each lane has had all its turns.
    pub fn is_done(&self) -> bool {
        self.left.load(Ordering::SeqCst) == 0
    }

    /// Lets one of the lanes that have turns left go on. Nobody else does, since all others wait.
    fn choose(&self) {
        let left = self.left.load(Ordering::SeqCst);
        let seed = self.seed.load(Ordering::SeqCst);
        let seed = seed
            .wrapping_mul(6_364_136_223_846_793_005)
            .wrapping_add(1_442_695_040_888_963_407);
        self.seed.store(seed, Ordering::SeqCst);
        self.next.set(lane_of(left, seed >> 33));
    }
}

/// One of the lanes whose bits are set, by a number; 0 if there is none.
fn lane_of(left: u64, number: u64) -> u64 {
    let many = u64::from(left.count_ones());
    if many == 0 {
        return 0;
    }
    let mut place = number % many;
    for lane in 1..=LANES {
        if left & bit_of(lane) != 0 {
            if place == 0 {
                return u64::from(lane);
            }
            place -= 1;
        }
    }
    0
}

fn bit_of(lane: u32) -> u64 {
    1u64.wrapping_shl(lane)
}

impl Pause for Ordered {
    fn turns(&self) -> u32 {
        1
    }

    fn before(&self, lane: u32, _event: u64) {
        self.next.wait(u64::from(lane));
    }

    fn after(&self, lane: u32, replies: u64) {
        let bit = bit_of(lane);
        let replied = self.replied.load(Ordering::SeqCst);
        if replied & bit != 0 {
            let left = self.left.load(Ordering::SeqCst);
            self.left.store(left & !bit, Ordering::SeqCst);
        } else if replies > 0 {
            self.replied.store(replied | bit, Ordering::SeqCst);
        }
        self.choose();
    }
}

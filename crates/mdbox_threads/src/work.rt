// The workers: one for each lane, which takes turns until the lane has no request left.
ghost use Rattle.std.specs.Prelude.{◌≡◌, ◌<◌, ◌≤◌, ◌+◌, ℕ, All, length, slice_index_or};
ghost use Rattle.turn_lock.specs.Seats.{parts_with, seen_by};
ghost use Rattle.mdbox_threads.specs.Work.{HasTakenTurn, HasWorkedAway, IsReadySeat};

use crate::handed::Handed;
use crate::pause::Pause;
use disk_model::Disk;
use lanes::{Turned, World};
use std::snapshot::Snapshot;
use std::sync::Wait;
use std::thread;
use std::thread::Threads;
use turn_lock::{TurnLock, TurnSeat};

/// After how many turns a lane ends with the reply to its request.
const ENOUGH: u32 = 4;

/// Turns of a lane, one after another, so many at the most: what the last of them came to, how many replies the lane has then, and how many
/// turns it had. Memory that others wrote is slow to reach, so a lane has more than one, and ends with a reply if it can: a request that is
/// done at once leaves less behind.
fn take_turns<R: Wait, D: Disk>(
    rt: &R,
    lock: &TurnLock<Handed<D>>,
    seat: &mut TurnSeat<Handed<D>>,
    first: &Snapshot<World<D>>,
    lane: u32,
    most: u32,
) -> (Turned, u64, u32)
    requires ready { IsReadySeat lock.now first.now.value seat.old }
    requires lane { (1 ≤ lane) × (lane ≤ length first.now.value.rows) }
    ensures ready { IsReadySeat lock.now first.now.value seat.new }
    ensures parts { parts_with seat.new ≡ parts_with seat.old }
    ensures seen { HasTakenTurn lane first.now.value.turn_room result.0 (seen_by seat.old) (seen_by seat.new) }
{
    let mut handed = lock.take(rt, seat);
    let mut replies = handed.replied(lane);
    let mut had = 0u32;
    'turns: loop {
        let earlier = replies;
        let turned = handed.advance(lane);
        replies = handed.replied(lane);
        had = had.saturating_add(1);
        let ends = had >= most || had >= ENOUGH && replies > earlier;
        match turned {
            Turned::Worked if !ends && seat.more() > 0 => handed = lock.go_on(seat, handed),
            _ => {
                lock.give(seat, handed);
                return (turned, replies, had);
            }
        }
    }
}

/// A lane's worker: it takes turns until the lane has no request left, or there is no memory for a turn.
fn work_away<R: Wait, D: Disk, P: Pause>(
    rt: &R,
    lock: &TurnLock<Handed<D>>,
    seat: &mut TurnSeat<Handed<D>>,
    first: &Snapshot<World<D>>,
    pause: &P,
    lane: u32,
)
    requires ready { IsReadySeat lock.now first.now.value seat.old }
    requires lane { (1 ≤ lane) × (lane ≤ length first.now.value.rows) }
    ensures { HasWorkedAway lock.now first.now.value lane seat.old seat.new }
{
    let mut event = 1u64;
    for _ in rt.forever() {
        pause.before(lane, event);
        let (turned, replies, had) = take_turns(rt, lock, seat, first, lane, pause.turns());
        pause.after(lane, replies);
        event = event.wrapping_add(u64::from(had));
        match turned {
            Turned::Worked => {}
            Turned::Idle | Turned::NoMemory => return,
        }
    }
    unreachable!()
}

/// A worker for each seat, in a thread of its own: the first seat's is that of lane 1.
pub(crate) fn run_workers<R: Threads + Wait + Sync, D: Disk + Send, P: Pause + Sync>(
    rt: &R,
    lock: &TurnLock<Handed<D>>,
    seats: &mut [TurnSeat<Handed<D>>],
    first: &Snapshot<World<D>>,
    pause: &P,
)
    requires ready { All (λ s. IsReadySeat lock.now first.now.value s) seats.old }
    requires count { (0 < length seats.old) × (length seats.old ≤ 64) × (length seats.old ≡ length first.now.value.rows) }
    ensures count { length seats.new ≡ length seats.old }
    ensures each { (i : ℕ) (d : _) → i < length seats.old → HasWorkedAway lock.now first.now.value (i + 1) (slice_index_or seats.old i d) (slice_index_or seats.new i d) }
{
    let threads = seats.len();
    thread::for_each_mut(
        rt,
        seats,
        threads,
        &|i, seat| -> ()
            requires { IsReadySeat lock.now first.now.value seat.now × (i < length first.now.value.rows) × (length first.now.value.rows ≤ 64) }
            ensures { HasWorkedAway lock.entry.now first.entry.now.value (i + 1) seat.entry.now seat.exit.now }
        { work_away(rt, lock, seat, first, pause, i as u32 + 1) },
    );
}

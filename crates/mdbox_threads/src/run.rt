// A world's lanes in threads.
ghost use Rattle.std.specs.Prelude.{◌<◌, ◌≤◌, ℕ, true, length};
ghost use Rattle.lanes.specs.Turned.{HasRun};
ghost use Rattle.lanes.specs.Worlds.{turn_of};
ghost use Rattle.mdbox_threads.specs.Traces.{HasMarkOrIsFull};

use crate::alone::run_alone;
use crate::handed::Handed;
use crate::pause::Pause;
use crate::work::run_workers;
use disk_model::Disk;
use lanes::World;
use mdbox_base::Seq;
use std::alloc::Global;
use std::snapshot::Snapshot;
use std::sync::Wait;
use std::thread::Threads;
use turn_lock::{LockRefused, close_lock, make_lock};

/// Serves the lanes of a world, each by a thread, whose events take turns under a lock; then does what is left, and gives the world,
/// finished. Without memory for the lock the caller's thread gives the lanes their turns, one lane after another.
pub fn run_lanes<R: Threads + Wait + Sync, D: Disk + Send, P: Pause + Sync>(
    rt: &R,
    alloc: Global,
    world: World<D>,
    pause: &P,
) -> World<D>
    requires lanes { 1 ≤ length world.rows }
    ensures ran { HasRun D.history D.faults world result.turns result }
    ensures marked { (lane : ℕ) → 0 < lane → lane ≤ length world.rows → HasMarkOrIsFull (turn_of lane true) world.turn_room result.turns }
{
    let lanes = world.lanes();
    let first = Snapshot::of(&world);
    match make_lock(alloc, Handed::of(world), lanes) {
        Ok((lock, seats)) => {
            let mut seats = seats.into_vec();
            run_workers(rt, &lock, seats.as_mut_slice(), &first, pause);
            close_lock(lock, Seq::of(seats)).finish()
        }
        Err(refused) => {
            let LockRefused { world: mut handed } = refused;
            run_alone(&mut handed, lanes);
            handed.finish()
        }
    }
}

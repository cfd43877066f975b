// The lanes without a lock: the caller gives them their turns.
ghost use Rattle.std.specs.Prelude.{◌≡◌, ◌<◌, ◌≤◌, ◌++◌, ℕ, true, List, length};
ghost use Rattle.serving.specs.Turns.{LaneTurn};
ghost use Rattle.lanes.specs.Worlds.{turn_of};
ghost use Rattle.mdbox_threads.specs.Handed.{KeepsFirst};
ghost use Rattle.mdbox_threads.specs.Traces.{HasMarkOrIsFull};

use crate::handed::Handed;
use disk_model::Disk;
use lanes::Turned;

/// Gives each lane its turns, one lane after another.
pub(crate) fn run_alone<D: Disk>(handed: &mut Handed<D>, lanes: u32)
    requires lanes { lanes ≡ length handed.old.first.rows }
    ensures same { KeepsFirst handed.old handed.new }
    ensures done { (lane : ℕ) → 0 < lane → lane ≤ lanes → HasMarkOrIsFull (turn_of lane true) handed.old.first.turn_room handed.new.world.turns }
{
    for at in 0..lanes {
        run_lane(handed, at + 1);
    }
}

/// A lane's turns, until it has no request left, or there is no memory for a turn.
fn run_lane<D: Disk>(handed: &mut Handed<D>, lane: u32)
    requires lane { (1 ≤ lane) × (lane ≤ length handed.old.first.rows) }
    ensures same { KeepsFirst handed.old handed.new }
    ensures trace { (more : List LaneTurn) × (handed.new.world.turns ≡ handed.old.world.turns ++ more) }
    ensures done { HasMarkOrIsFull (turn_of lane true) handed.old.first.turn_room handed.new.world.turns }
{
    'lane: loop {
        match handed.advance(lane) {
            Turned::Worked => {}
            Turned::Idle | Turned::NoMemory => return,
        }
    }
}

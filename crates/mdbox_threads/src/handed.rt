// A world that workers hand on.
ghost use Rattle.std.specs.Prelude.{◌≡◌, ◌≤◌, ◌<◌, length};
ghost use Rattle.lanes.specs.Turned.{HasRun};
ghost use Rattle.lanes.specs.Worlds.{world_left};
ghost use Rattle.lanes.specs.declared.turn.Turned.TheVariants as turned;
ghost use Rattle.mdbox_threads.specs.Handed.{IsAdvanced, KeepsFirst};

use disk_model::Disk;
use lanes::{Turned, World, turns_go_on};
use std::marker::Model;
use std::snapshot::Snapshot;
use turn_lock::Charter;

/// A world that workers hand on under a lock, with what it was as it was first handed on. It came from that by turns of lanes.
pub(crate) struct Handed<D: Disk> {
    world: World<D>,
    first: Snapshot<World<D>>,
}

impl<D: Disk> Model for Handed<D> {
    ghost use Rattle.lanes.specs.Turned.{CameInTurns};
    ghost use Rattle.mdbox_threads.specs.Handed.{HandedValue};

    ghost Value = { HandedValue D };

    ghost view = { λ h. record { world = h.world; first = h.first.value } };

    ghost invariant = { λ h. CameInTurns D.history D.faults h.first.value h.world };
}

impl<D: Disk> Charter for Handed<D> {
    ghost use Rattle.mdbox_threads.specs.Traces.{turn_numbers};

    type Terms = World<D>;

    ghost charter = { λ h. h.first };

    ghost trace = { λ h. turn_numbers h.world.turns };

    ghost finished = { λ h. h.world.finished };
}

impl<D: Disk> Handed<D> {
    /// A world that is handed on for the first time.
    pub(crate) fn of(world: World<D>) -> Handed<D>
        ensures { result ≡ record { world = world; first = world } }
    {
        world.known_facts();
        let first = Snapshot::of(&world);
        Handed { world, first }
    }

    /// Gives a lane its turn.
    pub(crate) fn advance(&mut self, lane: u32) -> Turned
        requires lane { (1 ≤ lane) × (lane ≤ length self.old.first.rows) }
        ensures same { KeepsFirst self.old self.new }
        ensures turned { IsAdvanced lane result self.old self.new }
        ensures left { result ≡ turned.Worked → world_left self.new.world < world_left self.old.world }
    {
        turns_go_on::<D>();
        self.world.advance(lane)
    }

    /// How many replies a lane has.
    pub(crate) fn replied(&self, lane: u32) -> u64
        requires lane { (1 ≤ lane) × (lane ≤ length self.now.first.rows) }
    {
        turns_go_on::<D>();
        self.world.replied(lane)
    }

    /// Does what the lanes have left, and gives the world.
    pub(crate) fn finish(self) -> World<D>
        ensures { HasRun D.history D.faults self.first self.world.turns result }
    {
        let Handed {
            mut world,
            first: _,
        } = self;
        turns_go_on::<D>();
        world.finish();
        world
    }
}

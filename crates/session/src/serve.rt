// A session, from the opening of the store to its end.
ghost use Rattle.std.specs.Prelude.{◌≡◌, ◌≢◌, ◌≤◌, [], IfErr, IfOk};
ghost use Rattle.lanes.specs.Worlds.{ArePartsOf};
ghost use Rattle.mdbox_base.specs.Streams.{Rose};
ghost use Rattle.request_text.specs.declared.outcome.Outcome.TheVariants as outcome;
ghost use Rattle.script_run.specs.Opening.{IsUnopened};
ghost use Rattle.script_text.specs.Taking.{OfSource};
ghost use Rattle.session.specs.OneRequest.{IsWaiting};
ghost use Rattle.session.specs.Rounds.{HasGone};
ghost use Rattle.session.specs.Session.{IsSessionDone};

use crate::next::{LANES, serve_next};
use disk_model::Disk;
use lanes::{
    World, WorldParts, idle_worlds_have_replied, lanes_begin, lanes_end, scripts_grow,
    worlds_begin, worlds_go_on, worlds_go_with,
};
use mdbox_base::{NoMemory, Script, Seq, Sink, Source};
use request_text::{Outcome, replies_are_told_in_order};
use script_text::{Extent, MOST_REQUESTS};
use std::alloc::Global;
use store_core::listings_are_shown;
use store_open::{OpenError, OpenRefused, open_store};

/// Opens the store; then takes requests from the input, one after another, does each, and prints its reply before the next is taken; and
/// hands the disk back.
pub fn serve_session<D: Disk, I: Source, O: Sink>(
    alloc: Global,
    disk: D,
    input: &mut I,
    output: &mut O,
) -> Result<(Outcome, D), OpenRefused<D>>
    ensures done { IfOk result (λ done. OfSource (I.left input.old) (λ octets. IsSessionDone octets (I.left input.new) (O.held output.old) (O.held output.new) (D.history disk) (D.history done.1) (D.faults disk) (D.faults done.1) done.0)) }
    ensures refused { IfErr result (λ refused. IsUnopened refused.error (D.history disk) (D.history refused.disk) (D.faults disk) (D.faults refused.disk)) }
    ensures unread { IfErr result (λ refused. input.new ≡ input.old) }
    ensures unprinted { IfErr result (λ refused. output.new ≡ output.old) }
    ensures read_fault { IfOk result (λ done. done.0 ≡ outcome.ReadFault → Rose (I.faults input.old) (I.faults input.new)) }
    ensures write_fault { IfOk result (λ done. done.0 ≡ outcome.WriteFault → Rose (O.faults output.old) (O.faults output.new)) }
    ensures read_quiet { IfOk result (λ done. done.0 ≢ outcome.ReadFault → I.faults input.new ≡ I.faults input.old) }
    ensures write_quiet { IfOk result (λ done. done.0 ≢ outcome.WriteFault → O.faults output.new ≡ O.faults output.old) }
    ensures counted { (I.faults input.old ≤ I.faults input.new) × (O.faults output.old ≤ O.faults output.new) }
{
    listings_are_shown();
    lanes_begin::<D>();
    worlds_begin::<D>();
    lanes_end::<D>();
    worlds_go_on::<D>();
    scripts_grow::<D>();
    worlds_go_with::<D>();
    idle_worlds_have_replied::<D>();
    replies_are_told_in_order();
    let Ok(parts) = parts_of(alloc) else {
        return Err(OpenRefused {
            error: OpenError::NoMemory,
            disk,
        });
    };
    match open_store(alloc, disk, LANES) {
        Ok(store) => {
            store.facts();
            let mut world = World::of(store, parts);
            let ended = serve_all(alloc, &mut world, input, output);
            world.finish();
            world.known_facts();
            let (store, _replies, _journal, _broken) = world.into_parts();
            store.facts();
            Ok((ended, store.into_disk()))
        }
        Err(refused) => Err(refused),
    }
}

/// What a world takes of memory that has no requests yet.
fn parts_of(alloc: Global) -> Result<WorldParts, NoMemory>
    ensures { IfOk result (ArePartsOf [] 64) }
{
    let script = Script {
        lanes: LANES,
        requests: Seq::empty(alloc),
    };
    WorldParts::of(alloc, script, Seq::empty(alloc))
}

/// Takes requests, does them and prints their replies, until one of these ends the session.
fn serve_all<D: Disk, I: Source, O: Sink>(
    alloc: Global,
    world: &mut World<D>,
    input: &mut I,
    output: &mut O,
) -> Outcome
    requires waiting { IsWaiting world.old }
    requires fresh { world.old.replies ≡ [] }
    ensures gone { HasGone D.history D.faults world.old world.new (I.left input.old) (I.left input.new) (O.held output.old) (O.held output.new) result }
    ensures read_fault { result ≡ outcome.ReadFault → Rose (I.faults input.old) (I.faults input.new) }
    ensures read_quiet { result ≢ outcome.ReadFault → I.faults input.new ≡ I.faults input.old }
    ensures write_fault { result ≡ outcome.WriteFault → Rose (O.faults output.old) (O.faults output.new) }
    ensures write_quiet { result ≢ outcome.WriteFault → O.faults output.new ≡ O.faults output.old }
    ensures counted { (I.faults input.old ≤ I.faults input.new) × (O.faults output.old ≤ O.faults output.new) }
{
    let mut at = Extent {
        octets: 0,
        lines: 0,
    };
    for done in 0..MOST_REQUESTS {
        match serve_next(alloc, world, input, output, at) {
            Ok(next) => at = next,
            Err(ended) => return ended,
        }
    }
    Outcome::SessionFull
}

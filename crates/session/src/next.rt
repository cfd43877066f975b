// The next request of a session.
ghost use Rattle.std.specs.Prelude.{◌≡◌, ◌≢◌, ◌≤◌, ◌<◌, ◌+◌, IfErr, IfOk, OnOk, length};
ghost use Rattle.mdbox_base.specs.Streams.{Rose};
ghost use Rattle.request_text.specs.declared.outcome.InputRefusal.TheVariants as refusal;
ghost use Rattle.request_text.specs.declared.outcome.Outcome.TheVariants as outcome;
ghost use Rattle.session.specs.OneRequest.{EndsSession, IsOneDone, IsWaiting, extent_then};

use crate::one::serve_one;
use disk_model::Disk;
use lanes::World;
use mdbox_base::{Sink, Source};
use request_text::{InputRefusal, Outcome, outcome_of_replies};
use script_text::{Extent, Need, ScriptFlaw, TakeError, take_request};
use std::alloc::Global;

/// How many lanes a session has.
pub const LANES: u32 = 64;

/// Takes a request from the input, does it, and prints its reply; and says how far the input goes by then. An error ends the session.
pub fn serve_next<D: Disk, I: Source, O: Sink>(
    alloc: Global,
    world: &mut World<D>,
    input: &mut I,
    output: &mut O,
    at: Extent,
) -> Result<Extent, Outcome>
    requires waiting { IsWaiting world.old }
    requires few { length world.old.replies < 100000 }
    requires short { (at.octets < 10000000000000) × (at.lines < 10000000000000) }
    ensures ok { IfOk result (IsOneDone D.history D.faults world.old world.new (I.left input.old) (I.left input.new) (O.held output.old) (O.held output.new) at) }
    ensures near { IfOk result (λ next. (next.octets ≤ at.octets + 67110000) × (next.lines ≤ at.lines + 67110000)) }
    ensures err { IfErr result (EndsSession D.history D.faults world.old world.new (I.left input.old) (I.left input.new) (O.held output.old) (O.held output.new) at) }
    ensures read_fault { IfErr result (λ ended. ended ≡ outcome.ReadFault → Rose (I.faults input.old) (I.faults input.new)) }
    ensures read_quiet { IfErr result (λ ended. ended ≢ outcome.ReadFault → I.faults input.new ≡ I.faults input.old) }
    ensures write_fault { IfErr result (λ ended. ended ≡ outcome.WriteFault → Rose (O.faults output.old) (O.faults output.new)) }
    ensures write_quiet { IfErr result (λ ended. ended ≢ outcome.WriteFault → O.faults output.new ≡ O.faults output.old) }
    ensures quiet { OnOk result ((I.faults input.new ≡ I.faults input.old) × (O.faults output.new ≡ O.faults output.old)) }
    ensures counted { (I.faults input.old ≤ I.faults input.new) × (O.faults output.old ≤ O.faults output.new) }
{
    match take_request(alloc, input, LANES) {
        Ok(Some((asked, extent))) => match serve_one(alloc, world, output, asked) {
            Ok(()) => Ok(further(at, extent)),
            Err(ended) => Err(ended),
        },
        Ok(None) => Err(outcome_of_replies(world.replies())),
        Err(TakeError::Bad(need)) => Err(refused_at(at, need)),
        Err(TakeError::Fault) => Err(Outcome::ReadFault),
        Err(TakeError::NoMemory) => Err(Outcome::NoMemory),
    }
}

/// So far on.
fn further(at: Extent, extent: Extent) -> Extent
    requires at { (at.octets < 10000000000000) × (at.lines < 10000000000000) }
    requires extent { (extent.octets ≤ 67110000) × (extent.lines ≤ 67110000) }
    ensures { result ≡ extent_then at extent }
{
    Extent {
        octets: at.octets + extent.octets,
        lines: at.lines + extent.lines,
    }
}

/// The end of a session where no request stands, of which this is missing.
fn refused_at(at: Extent, need: Need) -> Outcome
    requires { at.lines < 10000000000000 }
    ensures { result ≡ outcome.InputRefused (refusal.Script (record { offset = at.octets; line = 1 + at.lines; need = need })) }
{
    Outcome::InputRefused(InputRefusal::Script(ScriptFlaw {
        offset: at.octets,
        line: 1 + at.lines,
        need,
    }))
}

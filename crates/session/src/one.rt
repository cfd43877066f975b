// One request of a session.
ghost use Rattle.std.specs.Prelude.{◌≡◌, ◌≢◌, ◌≤◌, ◌<◌, ◌↔◌, IfErr, IfOk, IsTrue, OnOk, length};
ghost use Rattle.mdbox_base.specs.Streams.{Rose};
ghost use Rattle.mdbox_base.specs.declared.replies.Refusal.TheVariants as refused;
ghost use Rattle.mdbox_base.specs.declared.replies.Reply.{Reply as ReplyValue};
ghost use Rattle.mdbox_base.specs.declared.replies.Reply.TheVariants as reply;
ghost use Rattle.lanes.specs.Worlds.{HasItsMessage};
ghost use Rattle.request_text.specs.declared.outcome.Outcome.TheVariants as outcome;
ghost use Rattle.script_text.specs.Script.{FitsLanes, FitsScript};
ghost use Rattle.session.specs.OneRequest.{EndsByRequest, IsAnsweredAndTold, IsWaiting};

use attach_detach::{Prepared, take_apart};
use disk_model::Disk;
use lanes::{World, idle_worlds_have_replied, worlds_go_with};
use mdbox_base::{NoMemory, Refusal, Reply, Request, Sink};
use piece_writer::PrintError;
use request_text::{Outcome, print_answer};
use std::alloc::Global;

/// Does a request, and prints its reply once it is acknowledged. An error ends the session.
pub fn serve_one<D: Disk, O: Sink>(
    alloc: Global,
    world: &mut World<D>,
    output: &mut O,
    asked: (u32, Request),
) -> Result<(), Outcome>
    requires fits { FitsLanes 64 asked }
    requires waiting { IsWaiting world.old }
    requires few { length world.old.replies < 100000 }
    ensures ok { OnOk result ((given : ReplyValue) × IsAnsweredAndTold D.history D.faults asked world.old world.new (O.held output.old) (O.held output.new) given × (given ≢ reply.Refused refused.Stopped)) }
    ensures err { IfErr result (EndsByRequest D.history D.faults asked world.old world.new (O.held output.old) (O.held output.new)) }
    ensures write_fault { IfErr result (λ ended. ended ≡ outcome.WriteFault → Rose (O.faults output.old) (O.faults output.new)) }
    ensures write_quiet { IfErr result (λ ended. ended ≢ outcome.WriteFault → O.faults output.new ≡ O.faults output.old) }
    ensures quiet { OnOk result (O.faults output.new ≡ O.faults output.old) }
    ensures counted { O.faults output.old ≤ O.faults output.new }
{
    worlds_go_with::<D>();
    idle_worlds_have_replied::<D>();
    let before = world.journal().len();
    let (lane, request) = asked;
    let Ok(prepared) = prepare_message(alloc, &request) else {
        return Err(Outcome::NoMemory);
    };
    let Ok(place) = world.ask(lane, request, prepared) else {
        return Err(Outcome::NoMemory);
    };
    let Ok(()) = world.answer_all() else {
        return Err(Outcome::NoMemory);
    };
    world.known_facts();
    let Some(given) = &world.replies()[place as usize] else {
        unreachable!()
    };
    match print_answer(alloc, output, world.journal(), before, place, given) {
        Ok(()) if is_stopped(given) => Err(Outcome::DiskFault),
        Ok(()) => Ok(()),
        Err(PrintError::NoMemory) => Err(Outcome::NoMemory),
        Err(PrintError::WriteFault) => Err(Outcome::WriteFault),
    }
}

/// Whether a reply says that the store is stopped.
fn is_stopped(given: &Reply) -> bool
    ensures { IsTrue result ↔ (given.now ≡ reply.Refused refused.Stopped) }
{
    matches!(given, Reply::Refused(Refusal::Stopped))
}

/// What a request is given beside: a delivery its message with its attachments taken out, unless it has none; any other nothing.
fn prepare_message(alloc: Global, asked: &Request) -> Result<Option<Prepared>, NoMemory>
    requires { FitsScript asked.now }
    ensures { IfOk result (HasItsMessage asked.now) }
{
    match asked {
        Request::Deliver { message, .. } => take_apart(alloc, message.as_slice()),
        _ => Ok(None),
    }
}

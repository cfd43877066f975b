// The messages of a script, prepared one after another.
ghost use Rattle.std.specs.Prelude.{All, IfOk};
ghost use Rattle.lanes.specs.Worlds.{AreGiven, HasItsMessage};
ghost use Rattle.script_text.specs.Script.{FitsScript};

use attach_detach::{Prepared, take_apart};
use mdbox_base::{NoMemory, Request, Seq};
use std::alloc::Global;

/// What each request is given beside, made by the caller's thread alone.
pub fn prepare_in_turn(
    alloc: Global,
    requests: &[(u32, Request)],
) -> Result<Seq<Option<Prepared>>, NoMemory>
    requires { All (λ asked. FitsScript asked.1) requests.now }
    ensures { IfOk result (AreGiven requests.now) }
{
    let mut prepared = Seq::empty(alloc);
    for request in requests {
        prepared.push(prepare_message(alloc, &request.1)?)?;
    }
    Ok(prepared)
}

/// What a request is given beside: a delivery its message with its attachments taken out, unless it has none; any other nothing.
fn prepare_message(alloc: Global, asked: &Request) -> Result<Option<Prepared>, NoMemory>
    requires { FitsScript asked.now }
    ensures { IfOk result (HasItsMessage asked.now) }
{
    match asked {
        Request::Deliver { message, .. } => take_apart(alloc, message.as_slice()),
        _ => Ok(None),
    }
}

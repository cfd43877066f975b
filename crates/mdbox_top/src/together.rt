// A script whose lanes are served by threads.
ghost use Rattle.std.specs.Prelude.{◌≡◌, ◌≤◌, List, Some, length, map, IfErr, IfOk};
ghost use Rattle.lanes.specs.Worlds.{AreGiven, AreOfLanes};
ghost use Rattle.mdbox_base.specs.declared.replies.Reply.{Reply as ReplyValue};
ghost use Rattle.script_run.specs.LeftOpen.{IsServedOpen};
ghost use Rattle.script_run.specs.Opening.{IsUnopened};
ghost use Rattle.script_run.specs.Worked.{IsWorkedOut};

use attach_detach::Prepared;
use disk_model::Disk;
use lanes::runs_are_events;
use mdbox_base::{Script, Seq};
use mdbox_threads::{Pause, run_lanes};
use script_run::{ServedScript, close_script, open_script, serve_script};
use std::alloc::Global;
use std::sync::Wait;
use std::thread::Threads;
use store_open::OpenRefused;

/// Opens the store and does the requests of a script, to their end, as `serve_script` of `script_run` does, but that each lane is served
/// by a thread, if there are more than one; and leaves the store open. One lane alone has nobody to take turns with.
pub(crate) fn serve_script_in_threads<R: Threads + Wait + Sync, D: Disk + Send, P: Pause + Sync>(
    rt: &R,
    alloc: Global,
    disk: D,
    script: Script,
    prepared: Seq<Option<Prepared>>,
    pause: &P,
) -> Result<ServedScript<D>, OpenRefused<D>>
    requires lanes { (1 ≤ script.lanes) × (script.lanes ≤ 64) × AreOfLanes script.lanes script.requests }
    requires few { length script.requests ≤ 100000 }
    requires given { AreGiven script.requests prepared }
    ensures served { IfOk result (λ served. (given : List ReplyValue) × (served.replies ≡ map Some given) × IsServedOpen script.requests given served.journal (D.history disk) (D.history served.store.disk) (D.faults disk) (D.faults served.store.disk) served.store) }
    ensures worked { IfOk result (λ served. IsWorkedOut D script.requests script.lanes served.replies served.journal (D.history disk) (D.history served.store.disk) (D.faults disk) (D.faults served.store.disk)) }
    ensures refused { IfErr result (λ refused. IsUnopened refused.error (D.history disk) (D.history refused.disk) (D.faults disk) (D.faults refused.disk)) }
{
    if script.lanes == 1 {
        return serve_script(alloc, disk, script, prepared);
    }
    runs_are_events::<D>();
    let world = open_script(alloc, disk, script, prepared)?;
    Ok(close_script(run_lanes(rt, alloc, world, pause)))
}

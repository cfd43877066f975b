// The run of a script, and of a request alone.
ghost use Rattle.std.specs.Prelude.{◌≡◌, ◌≤◌, ◌∷◌, [], false, ℕ, List, Option, Some, length, map, IfErr, IfOk};
ghost use Rattle.disk_model.specs.Disk.{Faults, History};
ghost use Rattle.mdbox_base.specs.declared.replies.Reply.{Reply as ReplyValue};
ghost use Rattle.journal.specs.Journal.{Requests};
ghost use Rattle.serving.specs.Serving.{AreIdle};
ghost use Rattle.lanes.specs.Kept.{AreKeptOf};
ghost use Rattle.lanes.specs.Rows.{lanes_of};
ghost use Rattle.lanes.specs.Turned.{WentOn};
ghost use Rattle.lanes.specs.Worlds.{AreGiven, AreOfLanes, HasItsMessage, WorldValue};
ghost use Rattle.script_run.specs.Done.{IsScriptDone};
ghost use Rattle.script_run.specs.LeftOpen.{IsRequestDone, IsServedOpen};
ghost use Rattle.script_run.specs.One.{alone};
ghost use Rattle.script_run.specs.OpenScript.{IsScriptOpened};
ghost use Rattle.script_run.specs.Opening.{IsUnopened};
ghost use Rattle.script_run.specs.Worked.{IsWorkedOut};

use attach_detach::Prepared;
use disk_model::Disk;
use lanes::{
    World, WorldParts, events_are_in_order, idle_worlds_have_replied, lanes_begin, lanes_end,
    rounds_are_events, worlds_begin,
};
use mdbox_base::{JournalEntry, NoMemory, Reply, Request, Script, Seq};
use std::alloc::Global;
use store_core::{Store, listings_are_shown};
use store_open::{OpenError, OpenRefused, open_store};

/// What the run of a script gives.
pub struct ScriptRun<D> {
    /// The reply of each request, in script order.
    pub replies: Seq<Option<Reply>>,
    /// The steps that were made, in order.
    pub journal: Seq<JournalEntry>,
    pub disk: D,
}

/// What the run of a script gives, and the store, which is still open.
pub struct ServedScript<D: Disk> {
    /// The reply of each request, in script order.
    pub replies: Seq<Option<Reply>>,
    /// The steps that were made, in order.
    pub journal: Seq<JournalEntry>,
    pub store: Store<D>,
}

/// Opens the store, does the requests of a script on its lanes, to their end, and hands the disk back. What is wanted of memory is
/// taken before the store is opened. Each request that delivers a message has it prepared, at its place.
pub fn run_script<D: Disk>(
    alloc: Global,
    disk: D,
    script: Script,
    prepared: Seq<Option<Prepared>>,
) -> Result<ScriptRun<D>, OpenRefused<D>>
    requires lanes { (1 ≤ script.lanes) × (script.lanes ≤ 64) × AreOfLanes script.lanes script.requests }
    requires few { length script.requests ≤ 100000 }
    requires given { AreGiven script.requests prepared }
    ensures done { IfOk result (λ done. (given : List ReplyValue) × (done.replies ≡ map Some given) × IsScriptDone script.requests given done.journal (D.history disk) (D.history done.disk) (D.faults disk) (D.faults done.disk)) }
    ensures worked { IfOk result (λ done. IsWorkedOut D script.requests script.lanes done.replies done.journal (D.history disk) (D.history done.disk) (D.faults disk) (D.faults done.disk)) }
    ensures refused { IfErr result (λ refused. IsUnopened refused.error (D.history disk) (D.history refused.disk) (D.faults disk) (D.faults refused.disk)) }
{
    match serve_script(alloc, disk, script, prepared) {
        Ok(
            ServedScript {
                replies,
                journal,
                store,
            },
        ) => Ok(ScriptRun {
            replies,
            journal,
            disk: store.into_disk(),
        }),
        Err(refused) => Err(refused),
    }
}

/// Opens the store and does the requests of a script on its lanes, to their end, as `run_script` does, and leaves the store open.
pub fn serve_script<D: Disk>(
    alloc: Global,
    disk: D,
    script: Script,
    prepared: Seq<Option<Prepared>>,
) -> Result<ServedScript<D>, OpenRefused<D>>
    requires lanes { (1 ≤ script.lanes) × (script.lanes ≤ 64) × AreOfLanes script.lanes script.requests }
    requires few { length script.requests ≤ 100000 }
    requires given { AreGiven script.requests prepared }
    ensures served { IfOk result (λ served. (given : List ReplyValue) × (served.replies ≡ map Some given) × IsServedOpen script.requests given served.journal (D.history disk) (D.history served.store.disk) (D.faults disk) (D.faults served.store.disk) served.store) }
    ensures worked { IfOk result (λ served. IsWorkedOut D script.requests script.lanes served.replies served.journal (D.history disk) (D.history served.store.disk) (D.faults disk) (D.faults served.store.disk)) }
    ensures refused { IfErr result (λ refused. IsUnopened refused.error (D.history disk) (D.history refused.disk) (D.faults disk) (D.faults refused.disk)) }
{
    rounds_are_events::<D>();
    let mut world = open_script(alloc, disk, script, prepared)?;
    world.known_facts();
    world.finish();
    Ok(close_script(world))
}

/// Opens the store, and begins a world of a script over it, of which nothing is done yet. What is wanted of memory for it is taken before
/// the store is opened.
pub fn open_script<D: Disk>(
    alloc: Global,
    disk: D,
    script: Script,
    prepared: Seq<Option<Prepared>>,
) -> Result<World<D>, OpenRefused<D>>
    requires lanes { (1 ≤ script.lanes) × (script.lanes ≤ 64) × AreOfLanes script.lanes script.requests }
    requires few { length script.requests ≤ 100000 }
    requires given { AreGiven script.requests prepared }
    ensures opened { IfOk result (λ world. IsScriptOpened D.history D.faults script.requests script.lanes (D.history disk) (D.faults disk) world) }
    ensures fresh { IfOk result (λ world. (length world.rows ≡ script.lanes) × (world.turns ≡ []) × (world.finished ≡ false)) }
    ensures refused { IfErr result (λ refused. IsUnopened refused.error (D.history disk) (D.history refused.disk) (D.faults disk) (D.faults refused.disk)) }
{
    let lanes = script.lanes;
    let Ok(parts) = WorldParts::of(alloc, script, prepared) else {
        return Err(OpenRefused {
            error: OpenError::NoMemory,
            disk,
        });
    };
    match open_store(alloc, disk, lanes) {
        Ok(store) => {
            store.facts();
            Ok(World::of(store, parts))
        }
        Err(refused) => Err(refused),
    }
}

/// Takes apart a world none of whose lanes has a request left: what came of its requests, and the store, which stays open.
pub fn close_script<D: Disk>(world: World<D>) -> ServedScript<D>
    requires idle { AreIdle (lanes_of world.rows) }
    ensures parts { (result.store ≡ world.store) × (result.journal ≡ world.journal) × AreKeptOf world.scripted world.replies result.replies }
    // Of whatever script and whatever opening it went on, in whatever order its events were made, the script is served.
    ensures served { (script : Requests) (lanes : ℕ) (old : Option History) (began : Faults) (first : WorldValue D) → IsScriptOpened D.history D.faults script lanes old began first → WentOn D.history D.faults first world
        → (given : List ReplyValue) × (result.replies ≡ map Some given) × IsServedOpen script given result.journal old (D.history result.store.disk) began (D.faults result.store.disk) result.store }
    ensures worked { (script : Requests) (lanes : ℕ) (old : Option History) (began : Faults) (first : WorldValue D) → IsScriptOpened D.history D.faults script lanes old began first → WentOn D.history D.faults first world → IsWorkedOut D script lanes result.replies result.journal old (D.history result.store.disk) began (D.faults result.store.disk) }
{
    listings_are_shown();
    lanes_begin::<D>();
    worlds_begin::<D>();
    lanes_end::<D>();
    events_are_in_order::<D>();
    idle_worlds_have_replied::<D>();
    world.known_facts();
    let (store, replies, journal, _broken) = world.into_parts();
    store.facts();
    ServedScript {
        replies,
        journal,
        store,
    }
}

/// Opens the store and does a request alone, on one lane. One that delivers a message has it prepared.
pub fn run_request<D: Disk>(
    alloc: Global,
    disk: D,
    request: Request,
    prepared: Option<Prepared>,
) -> Result<(Reply, D), OpenRefused<D>>
    requires given { HasItsMessage request prepared }
    ensures done { IfOk result (λ done. (own : IsRequestDone request done.0 (D.history disk) (D.history done.1) (D.faults disk) (D.faults done.1)) × IsWorkedOut D (alone request) 1 (Some done.0 ∷ []) own.entries (D.history disk) (D.history done.1) (D.faults disk) (D.faults done.1)) }
    ensures refused { IfErr result (λ refused. IsUnopened refused.error (D.history disk) (D.history refused.disk) (D.faults disk) (D.faults refused.disk)) }
{
    match script_of(alloc, request, prepared) {
        Ok((script, prepared)) => {
            let ServedScript {
                replies,
                journal: _journal,
                store,
            } = serve_script(alloc, disk, script, prepared)?;
            Ok((only_reply(replies), store.into_disk()))
        }
        Err(NoMemory) => Err(OpenRefused {
            error: OpenError::NoMemory,
            disk,
        }),
    }
}

/// The script of a request alone, and what it is given beside.
fn script_of(
    alloc: Global,
    request: Request,
    prepared: Option<Prepared>,
) -> Result<(Script, Seq<Option<Prepared>>), NoMemory>
    ensures { IfOk result (λ made. (made.0.lanes ≡ 1) × (made.0.requests ≡ alone request) × (made.1 ≡ prepared ∷ [])) }
{
    let mut requests = Seq::empty(alloc);
    requests.push((1, request))?;
    let mut given = Seq::empty(alloc);
    given.push(prepared)?;
    Ok((Script { lanes: 1, requests }, given))
}

/// The reply of a script of one request.
fn only_reply(replies: Seq<Option<Reply>>) -> Reply
    requires { (given : ReplyValue) × (replies ≡ Some given ∷ []) }
    ensures { replies ≡ Some result ∷ [] }
{
    match replies.into_vec().pop() {
        Some(Some(given)) => given,
        _ => unreachable!(),
    }
}

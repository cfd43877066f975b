// A script that lanes serve, event by event.
ghost use Rattle.std.specs.Prelude.{◌≡◌, ◌≢◌, ◌<◌, ◌≤◌, ◌+◌, ◌++◌, ◌∷◌, [], true, false, ℕ, Bool, List, length, map, slice_get, slice_set, Option, Some, None};
ghost use Rattle.disk_model.specs.Disk.{IfTold, IsImage, reading, told_calls};
ghost use Rattle.mdbox_base.specs.declared.progress.Did.{Did};
ghost use Rattle.mdbox_base.specs.declared.replies.Reply.{Reply};
ghost use Rattle.mdbox_base.specs.declared.requests.Request.{Request};
ghost use Rattle.model_lists.specs.Lists.{Lists};
ghost use Rattle.list_machine.specs.Run.{RunEvent, Run, and_then, own_events, reply_of};
ghost use Rattle.journal.specs.Events.{Around};
ghost use Rattle.journal.specs.Found.{is_taken};
ghost use Rattle.journal.specs.Journal.{Requests, JournalStep, Broken, HasReply, left_by, no_broken};
ghost use Rattle.journal.specs.Makes.{steps_made};
ghost use Rattle.store_core.specs.Value.{StoreValue};
ghost use Rattle.task_claims.specs.Claims.{AddsUp, Claims};
ghost use Rattle.task_steps.specs.Serves.{BreaksBy, IsTurn};
ghost use Rattle.task_steps.specs.Step.{IsFirmAt, StaysFirm, Seen, HasComeTo, ShowsSeen, DidEvent, and_told};
ghost use Rattle.serving.specs.Lanes.{AreFresh, LaneValue, lane_behind, replies_behind, said_by};
ghost use Rattle.serving.specs.OwnWork.{HasWorked, OwnWork};
ghost use Rattle.serving.specs.Serving.{AreIdle, HaveLanes, IsServing, unreplied};
ghost use Rattle.serving.specs.Accounts.{lane_claims};
ghost use Rattle.serving.specs.Taken.{ClaimsTaken, IsInUse};
ghost use Rattle.serving.specs.Turns.{IsTraceOf, LaneTurn, lanes_worked};

/// A script begins to be served from what a store shows: each lane waits with all its requests.
pub fn serving_start()
    ensures { (start : Lists) (script : Requests) (run : Run) (now : Seen) (lanes : List (LaneValue OwnWork)) → run.events ≡ [] → HasComeTo run now → ShowsSeen now start → now.stopped ≡ false → IsFirmAt start now → AreFresh script lanes
        → IsServing HasWorked start script run [] no_broken (unreplied script) now now lanes }
{}

/// It is served with one event more, by which the first request of a lane goes on: all other lanes stand where they stood.
pub fn serving_more()
    ensures { (start : Lists) (script : Requests) (run : Run) (journal : List JournalStep) (broken : Broken) (replies : List (Option Reply)) (began now new : Seen) (lanes : List (LaneValue OwnWork)) (k place : ℕ) (rest : List ℕ) (value : LaneValue OwnWork) (request : Request) (around after : Around) (how : Did)
        → IsServing HasWorked start script run journal broken replies began now lanes → slice_get lanes k ≡ Some value → value.queue ≡ place ∷ rest → slice_get script place ≡ Some (k + 1, request)
        → (d : DidEvent around after run (k + 1) place (said_by journal place) request (left_by start journal) now new how None) → IfTold now.history (λ disk. IsImage disk (λ name. reading (disk name))) → (new.stopped ≡ false → StaysFirm now new)
        → (next : Broken) × IsServing HasWorked start script (and_then run d.makes.event) (journal ++ steps_made run request d.makes.event d.makes.answer d.left) next replies began new
        (slice_set lanes k (lane_behind None (record { events = own_events place (and_then run d.makes.event); answers = and_told (said_by journal place) d.makes.answer }) value)) × BreaksBy how run d.makes.event (told_calls now.history) broken next }
{}

/// And with one by which that request is answered: its reply stands at its place, and the next request of the lane is in turn.
pub fn serving_done()
    ensures { (start : Lists) (script : Requests) (run : Run) (journal : List JournalStep) (broken : Broken) (replies : List (Option Reply)) (began now new : Seen) (lanes : List (LaneValue OwnWork)) (k place : ℕ) (rest : List ℕ) (value : LaneValue OwnWork) (request : Request) (work : OwnWork) (around after : Around) (how : Did) (given : Reply)
        → IsServing HasWorked start script run journal broken replies began now lanes → slice_get lanes k ≡ Some value → value.queue ≡ place ∷ rest → slice_get script place ≡ Some (k + 1, request)
        → (d : DidEvent around after run (k + 1) place (said_by journal place) request (left_by start journal) now new how (Some given)) → IfTold now.history (λ disk. IsImage disk (λ name. reading (disk name))) → (new.stopped ≡ false → StaysFirm now new)
        → (next : Broken) × IsServing HasWorked start script (and_then run d.makes.event) (journal ++ steps_made run request d.makes.event d.makes.answer d.left) next (replies_behind (Some given) place replies) began new (slice_set lanes k (lane_behind (Some given) work value))
        × BreaksBy how run d.makes.event (told_calls now.history) broken next }
{}

/// No lane has a request left: every request of the script has its reply, which is that of its events.
pub fn all_replied()
    ensures { (start : Lists) (script : Requests) (run : Run) (journal : List JournalStep) (broken : Broken) (replies : List (Option Reply)) (began now : Seen) (lanes : List (LaneValue OwnWork)) → IsServing HasWorked start script run journal broken replies began now lanes → HaveLanes script lanes → AreIdle lanes
        → (i : ℕ) → i < length script → (given : Reply) × HasReply replies i given × (reply_of i run ≡ Some given) }
{}

/// A trace of turns goes on with the run: a turn that worked makes its lane's next event, and an event that finishes the lanes is
/// nobody's turn. An idle turn makes none, of a lane that has no request left. The n-th turn that worked is of the lane of the n-th event.
pub fn turns_pass()
    ensures begun { (run : Run) (lanes : List (LaneValue OwnWork)) → run.events ≡ [] → IsTraceOf false [] run lanes }
    ensures worked { (turns : List LaneTurn) (run : Run) (lanes : List (LaneValue OwnWork)) (k : ℕ) (value : LaneValue OwnWork) (work : OwnWork) (event : RunEvent) (ended : Option Reply) → slice_get lanes k ≡ Some value → event.lane ≡ k + 1 → IsTraceOf false turns run lanes
        → IsTraceOf false (turns ++ record { lane = k + 1; idle = false } ∷ []) (and_then run event) (slice_set lanes k (lane_behind ended work value)) }
    ensures finishing { (finished : Bool) (turns : List LaneTurn) (run : Run) (lanes : List (LaneValue OwnWork)) (k : ℕ) (value : LaneValue OwnWork) (work : OwnWork) (event : RunEvent) (ended : Option Reply) → slice_get lanes k ≡ Some value → IsTraceOf finished turns run lanes
        → IsTraceOf true turns (and_then run event) (slice_set lanes k (lane_behind ended work value)) }
    ensures idle { (finished : Bool) (turns : List LaneTurn) (run : Run) (lanes : List (LaneValue OwnWork)) (k : ℕ) (value : LaneValue OwnWork) → slice_get lanes k ≡ Some value → value.queue ≡ [] → IsTraceOf finished turns run lanes
        → IsTraceOf finished (turns ++ record { lane = k + 1; idle = true } ∷ []) run lanes }
    ensures made { (turns : List LaneTurn) (run : Run) (lanes : List (LaneValue OwnWork)) (n : ℕ) (event : RunEvent) → IsTraceOf false turns run lanes → slice_get run.events n ≡ Some event → slice_get (lanes_worked turns) n ≡ Some event.lane }
    ensures turned { (finished : Bool) (turns : List LaneTurn) (run : Run) (lanes : List (LaneValue OwnWork)) (n lane : ℕ) → IsTraceOf finished turns run lanes → slice_get (lanes_worked turns) n ≡ Some lane → (event : RunEvent) × (slice_get run.events n ≡ Some event) × (event.lane ≡ lane) }
{}

/// The next request of a lane takes its turn, once the one before it is answered.
pub fn requests_take_turns()
    ensures { (script : Requests) (journal : List JournalStep) (replies after : List (Option Reply)) (lane place next : ℕ) (request following : Request) → IsTurn script journal replies lane place request → place < next → slice_get script next ≡ Some (lane, following)
        → ((j : ℕ) → place ≢ j → slice_get after j ≡ slice_get replies j) → IsTurn script journal after lane next following }
{}

/// A storage file that the run calls taken is in use: where each task claims the files that its request's events took and haven't given
/// back, and the tasks' claims add up, the store has it as taken.
pub fn taken_files_are_in_use<D>()
    ensures { (claims : OwnWork → Claims) (start : Lists) (script : Requests) (run : Run) (journal : List JournalStep) (broken : Broken) (replies : List (Option Reply)) (began now : Seen) (lanes : List (LaneValue OwnWork)) (store : StoreValue D) (file : ℕ) → IsServing HasWorked start script run journal broken replies began now lanes → HaveLanes script lanes
        → AddsUp store (map (lane_claims claims) lanes) → ((work : OwnWork) → ClaimsTaken work.events (claims work)) → 1 ≤ file → is_taken run file ≡ true → IsInUse store file }
{}

// Lanes begin, go on and end.
ghost use Rattle.std.specs.Prelude.{◌≡◌, ◌<◌, ◌≤◌, ◌+◌, ◌++◌, ◌∷◌, ℕ, false, List, [], All, length, slice_get, slice_set, Option, Some};
ghost use Rattle.disk_model.specs.Disk.{History, Faults, told_calls};
ghost use Rattle.mdbox_base.specs.declared.ids.Uid.{Uid};
ghost use Rattle.mdbox_base.specs.declared.replies.Reply.{Reply};
ghost use Rattle.mdbox_base.specs.declared.requests.Request.{Request};
ghost use Rattle.mdbox_base.specs.declared.requests.Request.TheVariants as request;
ghost use Rattle.mdbox_base.specs.declared.script.JournalEntry.{JournalEntry};
ghost use Rattle.model_lists.specs.Lists.{Lists};
ghost use Rattle.list_machine.specs.Run.{Run, RunEvent, and_then, reply_of};
ghost use Rattle.journal.specs.Journal.{AreEntriesOf, Broken, HasReply, JournalStep, Requests, moment_of, no_broken};
ghost use Rattle.journal.specs.Makes.{HasCome};
ghost use Rattle.serving.specs.Lanes.{replies_behind};
ghost use Rattle.serving.specs.Serving.{AreIdle, HaveLanes, unreplied};
ghost use Rattle.serving.specs.Turns.{LaneTurn, lanes_worked};
ghost use Rattle.store_core.specs.Value.{StoreValue};
ghost use Rattle.store_seen.specs.Seeing.{IsAtOpening};
ghost use Rattle.task_claims.specs.Claims.{HasNoTask};
ghost use Rattle.task_steps.specs.Step.{IsFirmAt, Seen, ShowsSeen, ended_by};
ghost use Rattle.mail_fetch.specs.Task.{seen_in};
ghost use Rattle.purge_task.specs.Clause.{TellsUses};
ghost use Rattle.lanes.specs.Asked.{GoesWith, HasNoIdleTurn, IsRequestAsked, IsOnlyLeft, asked_in, events_of};
ghost use Rattle.lanes.specs.Going.{AddsEvent, AreFreshRows, FindsMessages, IsGoing};
ghost use Rattle.lanes.specs.Rows.{LaneRow, RowGoesOn, lanes_of};
ghost use Rattle.lanes.specs.Turned.{GoesInTurns, GoesOnInOrder, HasRun, WentOn, untraced};
ghost use Rattle.lanes.specs.Worlds.{AreEntriesAt, ArePartsOf, GoesOnBy, IsFreshWorld, IsLaneEvent, IsServedOn, IsSoundWorld, IsWorldOf, KeepsWorld, PartsValue, WorldValue};
ghost use Rattle.lanes.specs.declared.lane.LaneEvent.{LaneEvent};

use disk_model::Disk;

/// Lanes begin to serve a script over a store that was opened, and that no task has claimed anything of: each with all its requests, and
/// with the tasks with which these begin.
pub fn lanes_begin<D: Disk>()
    ensures { (start : Lists) (script : Requests) (run : Run) (rows : List LaneRow) (store : StoreValue D) (history : Option History) (faults : Faults) → IsAtOpening run store → HasCome run store.map store.drawn (told_calls history) → HasNoTask store → store.stopped ≡ false → ShowsSeen (seen_in store history faults) start → IsFirmAt start (seen_in store history faults)
        → AreFreshRows script rows → HaveLanes script (lanes_of rows) → length rows ≤ 64
        → ((place lane : ℕ) (name : List ℕ) (uid : Uid) → slice_get script place ≡ Some (lane, request.Fetch name uid) → FindsMessages start script run history history) → IsGoing start script run [] no_broken (unreplied script) (seen_in store history faults) store history faults rows }
{}

/// A script that lanes serve is served with an event more of any lane, whatever the other lanes do: the run and the journal go on with
/// what that event adds to them and are otherwise as they were, its reply, if it has one, stands at its place, and the lanes account for
/// the store, unless that is stopped.
pub fn lanes_go_on<D: Disk>()
    ensures { (start : Lists) (script : Requests) (run : Run) (journal : List JournalStep) (broken : Broken) (replies : List (Option Reply)) (began : Seen) (rows : List LaneRow) (k : ℕ) (row now : LaneRow) (event : LaneEvent) (old new : StoreValue D) (before after : Option History) (first second : Faults)
        → slice_get rows k ≡ Some row → RowGoesOn row now event old new before after first second → IsGoing start script run journal broken replies began old before first rows
        → (added : RunEvent) × (steps : List JournalStep) × (failed : Broken) × AddsEvent (k + 1) event run old.map before after first second added steps broken failed
        × IsGoing start script (and_then run added) (journal ++ steps) failed (replies_behind (ended_by event.ended) event.place replies) began new after second (slice_set rows k now) }
{}

/// What events in rounds make of a world. Of whatever script and run it was, it is one of the run with events of those lanes; and whatever
/// the script and the disk, replies stay, entries are only added, and no count of faults falls.
pub fn worlds_go_on<D: Disk>()
    ensures serves { (lanes : List ℕ) (old new : WorldValue D) (before after : Option History) (first second : Faults) → GoesOnBy lanes old new before after first second → IsServedOn lanes old new before after first second }
    ensures keeps { (lanes : List ℕ) (old new : WorldValue D) (before after : Option History) (first second : Faults) → GoesOnBy lanes old new before after first second → KeepsWorld old new before after first second }
    ensures kept { (lane : ℕ) (old new : WorldValue D) (before after : Option History) (first second : Faults) → IsLaneEvent lane old new before after first second → KeepsWorld old new before after first second }
{}

/// A world of which no lane has a request left has a reply of each request, whatever script it is of.
pub fn idle_worlds_have_replied<D: Disk>()
    ensures { (world : WorldValue D) (history : Option History) → IsSoundWorld history world → AreIdle (lanes_of world.rows) → (i : ℕ) → i < length world.replies → (given : Reply) × HasReply world.replies i given }
{}

/// No lane has a request left: every request of the script has its reply, which is that of its events.
pub fn lanes_end<D: Disk>()
    ensures { (start : Lists) (script : Requests) (run : Run) (journal : List JournalStep) (broken : Broken) (replies : List (Option Reply)) (began : Seen) (store : StoreValue D) (history : Option History) (faults : Faults) (rows : List LaneRow) → IsGoing start script run journal broken replies began store history faults rows
        → AreIdle (lanes_of rows) → (i : ℕ) → i < length script → (given : Reply) × HasReply replies i given × (reply_of i run ≡ Some given) }
{}

/// A world that begins with the parts of a script, over a store that lanes begin to serve it, is one of this script, whenever it was
/// begun to be seen.
pub fn worlds_begin<D: Disk>()
    ensures { (start : Lists) (script : Requests) (run : Run) (began : Seen) (lanes : ℕ) (parts : PartsValue) (store : StoreValue D) (history : Option History) (faults : Faults) (world : WorldValue D) → IsFreshWorld store parts history world → ArePartsOf script lanes parts → run.events ≡ []
        → IsGoing start script run [] no_broken (unreplied script) began store history faults parts.rows → IsWorldOf start script run [] no_broken began history faults world }
{}

/// The entries of a world over a disk that is modelled are those of its steps.
pub fn entries_are_told()
    ensures { (history : History) (began : ℕ) (run : Run) (steps : List JournalStep) (entries : List JournalEntry) → AreEntriesAt (Some history) began (moment_of run) steps entries → AreEntriesOf run began steps entries }
{}

/// Lanes that serve a script over a store that runs tell who uses it: by the run the same storage files are taken, and the instances that
/// its requests have found, placed or pinned are held in the store or named by a record, and all that are held.
pub fn worlds_tell_uses<D: Disk>()
    ensures { (start : Lists) (script : Requests) (run : Run) (journal : List JournalStep) (broken : Broken) (replies : List (Option Reply)) (began : Seen) (store : StoreValue D) (history : Option History) (faults : Faults) (rows : List LaneRow) → IsGoing start script run journal broken replies began store history faults rows
        → store.stopped ≡ false → TellsUses run store }
{}

/// The script of a world grows by a request that is asked of a lane, whatever the lanes have done by then: with it the world is one of the
/// same run, if none of its turns was idle. Where the grown script fetches messages, it must find them.
pub fn scripts_grow<D: Disk>()
    ensures { (lane : ℕ) (asked : Request) (start : Lists) (script : Requests) (run : Run) (steps : List JournalStep) (failed : Broken) (began : Seen) (old new : WorldValue D) (history : Option History) (faults : Faults) → IsRequestAsked lane asked old new → HasNoIdleTurn old
        → ((place at : ℕ) (name : List ℕ) (uid : Uid) → slice_get (script ++ (lane, asked) ∷ []) place ≡ Some (at, request.Fetch name uid) → FindsMessages start (script ++ (lane, asked) ∷ []) run began.history history)
        → IsWorldOf start script run steps failed began history faults old → IsWorldOf start (script ++ (lane, asked) ∷ []) run steps failed began history faults new }
{}

/// What events and requests that are asked leave of a world: its lanes, whether they were finished, and the moment as it began. Each request
/// that is asked has its place among the replies. Where one request has no reply, all entries that events add are of this one.
pub fn worlds_go_with<D: Disk>()
    ensures keeps { (moves : List (ℕ × Option Request)) (old new : WorldValue D) → GoesWith D.history D.faults moves old new → (length new.rows ≡ length old.rows) × (new.finished ≡ old.finished) × (new.began ≡ old.began) × (length new.replies ≡ length old.replies + length (asked_in moves)) }
    ensures follow { (first second : List (ℕ × Option Request)) (old mid new : WorldValue D) → GoesWith D.history D.faults first old mid → GoesWith D.history D.faults second mid new → GoesWith D.history D.faults (first ++ second) old new }
    ensures own { (lanes : List ℕ) (last : ℕ) (old new : WorldValue D) → GoesWith D.history D.faults (events_of lanes) old new → IsOnlyLeft last old.replies → (more : List JournalEntry) × (new.journal ≡ old.journal ++ more) × All (λ entry. entry.request ≡ last) more × IsOnlyLeft last new.replies }
{}

/// What turns make of a world, in whatever order of lanes. Of whatever script and run it was, it is one of the run with the events of those
/// turns; it keeps what events keep; and they are added to its trace.
pub fn turns_go_on<D: Disk>()
    ensures serves { (turns : List LaneTurn) (old new : WorldValue D) → GoesInTurns D.history D.faults turns old new → IsServedOn (lanes_worked turns) old new (D.history old.store.disk) (D.history new.store.disk) (D.faults old.store.disk) (D.faults new.store.disk) }
    ensures keeps { (turns : List LaneTurn) (old new : WorldValue D) → GoesInTurns D.history D.faults turns old new → KeepsWorld old new (D.history old.store.disk) (D.history new.store.disk) (D.faults old.store.disk) (D.faults new.store.disk) }
    ensures traces { (turns : List LaneTurn) (old new : WorldValue D) → GoesInTurns D.history D.faults turns old new → (new.turns ≡ old.turns ++ turns) × (new.finished ≡ old.finished) }
{}

/// What events make of a world, in whatever order of lanes. Of whatever script and run it was, it is one of the run with events of those
/// lanes; and it keeps what events keep. Without its turns a world is of the same scripts and runs.
pub fn events_are_in_order<D: Disk>()
    ensures serves { (lanes : List ℕ) (old new : WorldValue D) (before after : Option History) (first second : Faults) → GoesOnInOrder lanes old new before after first second → IsServedOn lanes old new before after first second }
    ensures keeps { (lanes : List ℕ) (old new : WorldValue D) (before after : Option History) (first second : Faults) → GoesOnInOrder lanes old new before after first second → KeepsWorld old new before after first second }
    ensures untraced { (start : Lists) (script : Requests) (run : Run) (steps : List JournalStep) (failed : Broken) (began : Seen) (history : Option History) (faults : Faults) (world : WorldValue D) → IsWorldOf start script run steps failed began history faults world → IsWorldOf start script run steps failed began history faults (untraced world) }
{}

/// Turns are events of the lanes whose turns weren't idle, one after another, of worlds without their turns.
pub fn turns_are_events<D: Disk>()
    ensures { (turns : List LaneTurn) (old new : WorldValue D) → IsSoundWorld (D.history old.store.disk) old → GoesInTurns D.history D.faults turns old new → GoesOnInOrder (lanes_worked turns) (untraced old) (untraced new) (D.history old.store.disk) (D.history new.store.disk) (D.faults old.store.disk) (D.faults new.store.disk) }
{}

/// So are events in rounds.
pub fn rounds_are_events<D: Disk>()
    ensures { (lanes : List ℕ) (old new : WorldValue D) (before after : Option History) (first second : Faults) → IsSoundWorld before old → GoesOnBy lanes old new before after first second → GoesOnInOrder lanes (untraced old) (untraced new) before after first second }
{}

/// So are turns and then events in rounds.
pub fn runs_are_events<D: Disk>()
    ensures { (trace : List LaneTurn) (old new : WorldValue D) → HasRun D.history D.faults old trace new → WentOn D.history D.faults old new }
{}
